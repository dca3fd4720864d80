//! A stored sample of the answers of the crate cobs 0.5.1, replayed. Each line of the standard input is a case with the Rust's answer
//! and bytes: `CALL ROOM SOURCE = NUMBER FIRST SECOND DESTINATION`, with a sentinel after the call's name where it takes one, and for
//! the streaming calls the length of the first of two pieces. The destination starts as ROOM bytes 5A; in place the source is the
//! buffer. Bytes are in hexadecimal, - for none.
#![tactic(auto)]

mod calls;
mod cases;
mod say;
mod text;

use calls::Call;
use say::Tally;
use std::io;
use std::io::{Bytes, Read};

// A case for each line, up to the end of the input.
fn replay<R: Read + Drop>(
    rt: &impl Print,
    input: &mut Bytes<R>,
    tallies: &mut [Tally],
) -> io::Result<()> {
    for line in 1..=1_000_000 {
        let Some(call) = cases::next_call(input)? else {
            return Ok(());
        };
        let alike = cases::is_as_stored(rt, input, call, line)?;
        for tally in tallies.iter_mut() {
            tally.count(call, alike);
        }
    }
    Ok(())
}

fn main(rt: HostRuntime) -> io::Result<()> {
    let mut tallies = [
        Tally::new(Call::Encode),
        Tally::new(Call::TryEncode),
        Tally::new(Call::EncodeIncludingSentinels),
        Tally::new(Call::EncodeWithSentinel(0)),
        Tally::new(Call::Decode),
        Tally::new(Call::DecodeInPlaceReport),
        Tally::new(Call::DecodeWithSentinel(0)),
        Tally::new(Call::CobsEncoder(0)),
        Tally::new(Call::CobsDecoder(0)),
    ];
    let mut input = rt.reader().bytes();
    replay(&rt, &mut input, &mut tallies)?;
    for tally in tallies {
        println!(rt; "{tally}")?;
    }
    Ok(())
}
