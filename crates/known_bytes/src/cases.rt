//! One line: echoed, read, run by the module that knows its name, and answered on the same line.
use crate::calls::Call;
use crate::read::{Bytes, Case, Message};
use crate::wires::Side;
use crate::{
    alone, batches, decoding, encoding, feeding, lengths, marking, naming, read, records, say,
    streaming, tools, wires,
};
use batch::Receiver;
use dec::stream::CobsDecoder;
use enc::stream::Encoder;
use marks::Marks;
use std::io;
use wire::Wire;

/// What stays from line to line beside the buffer: the streaming states, the receiving side, and marks of their own.
#[derive(Clone, Copy)]
pub(crate) struct Held {
    pub encoder: Encoder,
    pub decoder: CobsDecoder,
    pub side: Side,
    pub marks: Marks,
}

/// What is held between two lines, and the buffer.
#[derive(Clone, Copy)]
pub(crate) struct Kept {
    pub held: Held,
    pub buffer: Bytes,
}

fn with_receiver(side: Side, receiver: Receiver) -> Side {
    let wire = Wire {
        receiver,
        ..side.wire
    };
    Side { wire, ..side }
}

fn answer(rt: &impl Print, call: Call, held: Held, m: &[u8], dest: &mut [u8]) -> io::Result<Held> {
    let mut next = held;
    match call {
        Call::Lengths(c) => lengths::run(rt, c)?,
        Call::Tools(c) => tools::run(rt, c, m, dest)?,
        Call::Encoding(c) => encoding::run(rt, c, m, dest)?,
        Call::Decoding(c) => decoding::run(rt, c, m, dest)?,
        Call::Alone(c) => alone::run(rt, c, read::first(m))?,
        Call::Streaming(c) => {
            next.encoder = streaming::run(rt, c, held.encoder, m, dest)?;
        }
        Call::Feeding(c) => {
            next.decoder = feeding::run(rt, c, held.decoder, m, dest)?;
        }
        Call::Marking(c) => {
            next.marks = marking::run(rt, c, held.marks)?;
        }
        Call::Records(c) => records::run(rt, c, m, dest)?,
        Call::Batches(c) => {
            let receiver = batches::run(rt, c, held.side.wire.receiver, m, dest)?;
            next.side = with_receiver(held.side, receiver);
        }
        Call::Wires(c) => {
            next.side = wires::run(rt, c, held.side, m, dest)?;
        }
        Call::Naming(c) => naming::run(rt, c, held.side.wire)?,
    }
    Ok(next)
}

// A message of zeros that is longer than a line's array.
fn long(
    rt: &impl Print,
    call: Call,
    held: Held,
    length: usize,
    dest: &mut [u8],
) -> io::Result<Held> {
    let zeros = [0u8; 1_048_577];
    if read::MOST_ZEROS < length {
        return Ok(held);
    }
    answer(rt, call, held, &zeros[0..length], dest)
}

fn run_case(rt: &impl Print, case: Case, kept: &mut Kept) -> io::Result<()> {
    let Bytes { mut all, len } = case.buffer.unwrap_or(kept.buffer);
    let dest = &mut all[..len];
    let held = match case.message {
        Message::Bytes(m) => answer(rt, case.call, kept.held, &m.all[..m.len], dest)?,
        Message::Zeros(n) => long(rt, case.call, kept.held, n, dest)?,
    };
    *kept = Kept {
        held,
        buffer: Bytes { all, len },
    };
    Ok(())
}

// The line's case, run.
fn run_line(rt: &impl Print, line: &[u8], at: usize, kept: &mut Kept) -> io::Result<()> {
    print!(rt; ": ")?;
    let Some(case) = read::read(line) else {
        return print!(rt; "cannot read line {at}");
    };
    run_case(rt, case, kept)
}

// A heading: a line that is empty, or starts with `#`.
fn is_heading(line: &[u8]) -> bool {
    matches!(line, [] | [b'#', ..])
}

/// Writes the line, and the answer after it. What is kept is changed in place: it is 66 KB.
pub(crate) fn run(rt: &impl Print, line: &[u8], at: usize, kept: &mut Kept) -> io::Result<()> {
    rt.write_all(line)?;
    if is_heading(line) {
        return Ok(());
    }
    run_line(rt, line, at, kept)
}
