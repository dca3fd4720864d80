//! The receiving side: pieces in, and a line for each frame's answer.
ghost use Rattle.std.specs.Prelude.{◌≤◌};

use batch::Standing;
use std::io;
use wire::{Receipt, Refusal, Wire};

// Both states, how many frames have ended, and in how many pieces the next one has come.
#[derive(Drop)]
struct Progress {
    wire: Wire,
    frames: usize,
    pieces: usize,
}

// The answer, in a column of eleven: demo's words for it, not the type's.
fn answered(rt: &impl Print, found: Result<Option<Standing>, Refusal>) -> io::Result<()> {
    match found {
        Ok(Some(Standing::Open)) => print!(rt; "Open       "),
        Ok(Some(Standing::Missing(k))) => print!(rt; "Missing {k:2} "),
        Ok(Some(Standing::Complete)) => print!(rt; "Complete   "),
        _ => print!(rt; "refused    "),
    }
}

fn weighed(wire: Wire) -> usize {
    marks::count(&wire.receiver.marks)
}

// One line: the frame, its pieces, the answer, and what has been weighed.
fn line(
    rt: &impl Print,
    frame: u8,
    pieces: usize,
    found: Result<Option<Standing>, Refusal>,
    before: Wire,
    after: Wire,
) -> io::Result<()> {
    let unit = if pieces == 1 { "piece" } else { "pieces" };
    print!(rt; "  frame {frame:2}  in {pieces} {unit:9}")?;
    answered(rt, found)?;
    let count = weighed(after);
    let sum = after.receiver.total;
    let news = if weighed(before) == count {
        "; no new particle"
    } else {
        ""
    };
    println!(rt; "{count:6} weighed, total {sum:6}{news}")
}

// What a call said: a piece inside a frame, or the frame's end. A frame that was not sent is called 255, a number since it is printed as one.
fn heard(rt: &impl Print, p: Progress, r: Receipt, order: &[u8]) -> io::Result<Progress> {
    let found = r.answer;
    let wire = r.next;
    let pieces = p.pieces.saturating_add(1);
    if let Ok(None) = found {
        return Ok(Progress {
            wire,
            frames: p.frames,
            pieces,
        });
    }
    let before = p.wire;
    let frame = order.get(p.frames).copied().unwrap_or(255);
    line(rt, frame, pieces, found, before, wire)?;
    Ok(Progress {
        wire,
        frames: p.frames.saturating_add(1),
        pieces: 0,
    })
}

// Buffer, table and order are lent from `main` down, each by itself, as `receive` takes them.
// A piece: call after call while bytes of it are left; one that takes none passes over one.
fn take(
    rt: &impl Print,
    p: Progress,
    buffer: &mut [u8],
    table: &mut [u8],
    order: &[u8],
    piece: &[u8],
) -> io::Result<Progress> {
    let mut now = p;
    let mut left = piece;
    // A loop: how far each turn goes on is what the call took.
    while !left.is_empty() {
        let receipt = wire::receive(now.wire, buffer, table, left);
        let taken = receipt.consumed.clamp(1, left.len());
        now = heard(rt, now, receipt, order)?;
        left = &left[taken..];
    }
    Ok(now)
}

// How long the piece from here on is: 1 to 97 bytes.
fn cut(at: usize) -> usize
    ensures { 1 ≤ result }
{
    (at % 97) * 29 % 97 + 1
}

/// The stream in pieces, and the states after them.
pub(crate) fn deliver(
    rt: &impl Print,
    wire: Wire,
    buffer: &mut [u8],
    table: &mut [u8],
    order: &[u8],
    stream: &[u8],
) -> io::Result<Wire> {
    let mut p = Progress {
        wire,
        frames: 0,
        pieces: 0,
    };
    let mut left = stream;
    // A loop: the pieces have no one length, as `chunks` would give.
    while !left.is_empty() {
        let at = stream.len() - left.len();
        let (piece, rest) = left.split_at(cut(at).min(left.len()));
        p = take(rt, p, buffer, table, order, piece)?;
        left = rest;
    }
    Ok(p.wire)
}
