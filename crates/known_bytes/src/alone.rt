//! EncoderState alone: what a byte asks of the output, and the state after it.
use crate::read::{Parts, Words, byte};
use crate::say;
use enc::state::{EncoderState, StatePushed};
use std::io;

fn push(rt: &impl Print, s: EncoderState, b: u8) -> io::Result<()> {
    let StatePushed { result, next } = s.push(b);
    say::answer(rt, result)?;
    print!(rt; ", {next}")
}

/// `EncoderState::new`, `EncoderState::push PLACE CODE of BYTE`, `EncoderState::finalize PLACE CODE`.
#[derive(Clone, Copy)]
pub(crate) enum Call {
    New,
    Push(EncoderState),
    Finalize(EncoderState),
}

impl Call {
    pub(crate) fn named(words: Words) -> Option<Call> {
        match words {
            ("EncoderState::new", [], Parts::Neither) => Some(Call::New),
            ("EncoderState::push", [place, code], Parts::Of) => Some(Call::Push(given(
                *place, *code,
            ))),
            ("EncoderState::finalize", [place, code], Parts::Neither) => Some(Call::Finalize(given(
                *place, *code,
            ))),
            _ => None,
        }
    }
}

/// A state of these numbers.
pub(crate) fn given(place: usize, code: usize) -> EncoderState {
    EncoderState {
        place,
        code: byte(code),
    }
}

pub(crate) fn run(rt: &impl Print, call: Call, byte: u8) -> io::Result<()> {
    match call {
        Call::New => print!(rt; "{}", EncoderState::new()),
        Call::Push(s) => push(rt, s, byte),
        Call::Finalize(s) => say::answer(rt, s.finalize()),
    }
}
