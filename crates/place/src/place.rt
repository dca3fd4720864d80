//! Decoding in place, group by group: a group is checked before it is copied.
ghost use Rattle.std.specs.Prelude.{◌≡◌, ◌+◌, ◌≤◌, length, drop};
ghost use Rattle.std.proofs.Math.Seq.{paste};
ghost use Rattle.cobs.specs.OneShot.{in_place_told, in_place_dest, size_alone};
ghost use Rattle.place.specs.Calls.{report_told, place_told};

use crate::walk::Walk;
use dec::stream::Frame;
use std::error::Error;
use std::fmt;

/// Why a body gave no frame. `decoded` counts the bytes of the whole groups, each with its zero.
#[derive(Clone, Copy, Debug, PartialEq, Eq)]
pub enum BodyError {
    EmptyFrame,
    InvalidFrame { decoded: usize },
}

impl fmt::Display for BodyError {
    fn fmt<W: fmt::Write>(&self, f: &mut fmt::Formatter<W>) -> fmt::Result {
        match self {
            BodyError::EmptyFrame => write!(f, "EmptyFrame"),
            BodyError::InvalidFrame { decoded } => write!(f, "InvalidFrame {decoded}"),
        }
    }
}

impl Error for BodyError {}

// Copies n bytes down. Tried: the library's `copy_within`, which also asks whether they go up: 3 instructions a group more, which is 14 of
// 100 of decoding in place where all is zero, and 7 on particle records.
fn copy_down(buf: &mut [u8], from: usize, to: usize, n: usize)
    requires { (to ≤ from) × (from + n ≤ length buf.old) }
    ensures { buf.new ≡ paste buf.old to (drop from buf.old) n }
{
    for k in 0..n {
        buf[to + k] = buf[from + k];
    }
}

/// Decodes the body at the buffer's front into the buffer itself. The frame's parsed size leaves the zero out.
pub fn decode_in_place_report(buf: &mut [u8]) -> Result<Frame, BodyError>
    ensures answer { report_told result ≡ in_place_told buf.old }
    ensures memory { buf.new ≡ in_place_dest buf.old }
{
    let mut walk = Walk::first(buf, 0)?;
    // A loop, since each step is read from the buffer that it writes. Tried: `while walk.from < walk.end`, with `past` counting the zero,
    // which takes 43 of 100 more where all is zero.
    loop {
        let code = buf[walk.from];
        let next = walk.past(code)?;
        copy_down(buf, walk.from + 1, walk.to, next.to - walk.to);
        if next.from == next.end {
            return Ok(Frame {
                size: next.to,
                parsed: next.end,
            });
        }
        if code != 0xFF {
            buf[next.to] = 0;
        }
        walk = next.closed(code);
    }
}

/// The same, with the frame's size alone.
pub fn decode_in_place(buf: &mut [u8]) -> Result<usize, BodyError>
    ensures answer { place_told result ≡ size_alone (in_place_told buf.old) }
    ensures memory { buf.new ≡ in_place_dest buf.old }
{
    decode_in_place_report(buf).map(|frame| frame.size)
}
