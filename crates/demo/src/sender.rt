//! The sender: a batch of 100 particles, eight to a frame, and a last frame with the close.
ghost use Rattle.std.specs.Prelude.{◌≤◌, length};

use record::Record;
use std::io;

const BATCH: u16 = 7;

const COUNT: u16 = 100;

const EACH: u16 = 8;

const CLOSE: u8 = 13;

// Particle i weighs 1,000 and 10 for each one before it.
fn particle(i: u16) -> [u8; 16] {
    let place = (i % COUNT) as i16;
    let written = record::write(Record::Particle {
        batch: BATCH,
        index: i,
        x: place,
        y: -64,
        z: 64,
        weight: 1_000 + (i as u32) * 10,
    });
    written.bytes
}

fn close() -> [u8; 16] {
    let written = record::write(Record::Close {
        batch: BATCH,
        count: COUNT,
        total: 149_500,
    });
    written.bytes
}

// The records of frame k, and how many bytes they are.
fn message(k: u8, out: &mut [u8]) -> usize {
    if CLOSE <= k {
        blocks::copy16(out, 0, &close(), 0);
        return 16;
    }
    let first = (k as u16) * EACH;
    let end = COUNT.min(first + EACH);
    for i in first..end {
        blocks::copy16(out, ((i - first) as usize) * 16, &particle(i), 0);
    }
    ((end - first) as usize) * 16
}

// Frame k on the wire, and its length.
fn frame(k: u8, out: &mut [u8]) -> usize {
    let mut bytes = [0u8; 128];
    let n = message(k, &mut bytes);
    let Some(message) = bytes.get(..n) else {
        return 0;
    };
    record::frame::write_frame(message, out).unwrap_or(0)
}

/// The frames of these numbers, one after another, and how many bytes they are.
pub(crate) fn send(order: &[u8], out: &mut [u8]) -> usize
    ensures { result ≤ length out.old }
{
    let mut at = 0;
    for k in order {
        let n = frame(*k, &mut out[at..]);
        if out.len() - at < n {
            return at;
        }
        at += n;
    }
    at
}

pub(crate) fn introduce(rt: &impl Print) -> io::Result<()> {
    println!(rt;
        "Batch 7: 100 particles, total weight 149500, in frames 0 to 12 of up to 8 records; frame 13 has the close."
    )
}
