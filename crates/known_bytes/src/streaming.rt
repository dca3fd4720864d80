//! The encoder in pieces: it and its buffer stay from line to line.
use crate::read::{Parts, Words};
use crate::{alone, say};
use enc::stream::{Encoder, PushError};
use std::io;

fn made(rt: &impl Print, encoder: Encoder) -> io::Result<Encoder> {
    print!(rt; "{encoder}")?;
    Ok(encoder)
}

fn start(rt: &impl Print, e: Encoder, dest: &[u8]) -> io::Result<Encoder> {
    match Encoder::start(dest) {
        Ok(encoder) => made(rt, encoder),
        Err(refusal) => {
            print!(rt; "{refusal}")?;
            Ok(e)
        }
    }
}

pub(crate) fn answer(rt: &impl Print, found: Result<(), PushError>) -> io::Result<()> {
    say::done(rt, "Accepted", found)
}

fn push(rt: &impl Print, e: Encoder, piece: &[u8], dest: &mut [u8]) -> io::Result<Encoder> {
    let pushed = e.push(dest, piece);
    answer(rt, pushed.answer)?;
    print!(rt; ", {}", pushed.next)?;
    say::holds(rt, dest)?;
    Ok(pushed.next)
}

fn finish(rt: &impl Print, e: Encoder, dest: &mut [u8]) -> io::Result<Encoder> {
    say::answer(rt, e.finalize(dest))?;
    say::holds(rt, dest)?;
    Ok(e)
}

/// `Encoder::start on BUFFER`, `Encoder::push of PIECE`, `Encoder::finalize`, `Encoder::new`; and an encoder of given numbers,
/// `Encoder PLACE CODE FULL COUNT`, also with `on BUFFER`.
#[derive(Clone, Copy)]
pub(crate) enum Call {
    Start,
    Push,
    Finalize,
    New,
    Given(Encoder),
}

impl Call {
    pub(crate) fn named(words: Words) -> Option<Call> {
        match words {
            ("Encoder::start", [], Parts::On) => Some(Call::Start),
            ("Encoder::push", [], Parts::Of) => Some(Call::Push),
            ("Encoder::finalize", [], Parts::Neither) => Some(Call::Finalize),
            ("Encoder::new", [], Parts::Neither) => Some(Call::New),
            ("Encoder", [place, code, full, count], Parts::Neither | Parts::On) => Some(
                Call::Given(Encoder {
                    state: alone::given(*place, *code),
                    full: *full != 0,
                    count: *count,
                }),
            ),
            _ => None,
        }
    }
}

pub(crate) fn run(
    rt: &impl Print,
    call: Call,
    e: Encoder,
    m: &[u8],
    dest: &mut [u8],
) -> io::Result<Encoder> {
    match call {
        Call::Start => start(rt, e, dest),
        Call::Push => push(rt, e, m, dest),
        Call::Finalize => finish(rt, e, dest),
        Call::New => made(rt, Encoder::new()),
        Call::Given(encoder) => made(rt, encoder),
    }
}
