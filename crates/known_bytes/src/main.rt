//! 01's known bytes, run by the compiled code, and every answer of every call below the C convention. Each line of the input is a
//! call; it is written with the answer after it, and the whole is held to the stored output. A line that starts with `#` is a heading;
//! one that cannot be read is answered so. A number is taken modulo its field's size.
#![tactic(auto)]

mod alone;
mod batches;
mod calls;
mod cases;
mod decoding;
mod encoding;
mod feeding;
mod holding;
mod lengths;
mod marking;
mod naming;
mod read;
mod records;
mod say;
mod streaming;
mod tools;
mod wires;

ghost use Rattle.std.specs.Prelude.{◌≤◌, IfOk, length};

use cases::{Held, Kept};
use dec::stream::CobsDecoder;
use enc::stream::Encoder;
use read::Bytes;
use std::io;
use std::io::Read;
use wire::Wire;
use wires::Side;

fn start() -> Held {
    Held {
        encoder: Encoder::new(),
        decoder: CobsDecoder::new(),
        side: Side {
            wire: Wire::open(0, b""),
            buffer: [0; 32],
        },
        marks: marks::none(),
    }
}

fn lines(rt: &impl Print, text: &[u8]) -> io::Result<()> {
    let mut kept = Kept {
        held: start(),
        buffer: Bytes::new(),
    };
    for (number, line) in (1..).zip(text.split_inclusive(|b| *b == b'\n')) {
        let line = line.strip_suffix(b"\n").unwrap_or(line);
        cases::run(rt, line, number, &mut kept)?;
        println!(rt)?;
    }
    Ok(())
}

// Reads until `out` is full or the input ends; how many bytes now stand at its front. Stays a loop: `read_to_end` needs the heap.
fn read_full(input: &mut impl Read, out: &mut [u8]) -> io::Result<usize>
    ensures { IfOk result (λ n. n ≤ length out.new) }
{
    let mut done = 0;
    while done < out.len() {
        let n = input.read(&mut out[done..])?;
        if n == 0 {
            return Ok(done);
        }
        done += n;
    }
    Ok(done)
}

fn main(rt: HostRuntime) -> io::Result<()> {
    let mut text = [0u8; 65_536];
    let n = read_full(&mut rt.reader(), &mut text)?;
    if n == text.len() {
        return println!(rt; "the input is too long");
    }
    lines(&rt, &text[..n])
}
