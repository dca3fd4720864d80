//! One-shot decoding: the frame or a refusal, and what the buffer then holds.
use crate::read::{Parts, Words, byte};
use crate::say;
use std::error::Error;
use std::io;

// A frame's size, or why there is none.
fn answer_size(rt: &impl Print, found: Result<usize, impl Error + Drop>) -> io::Result<()> {
    match found {
        Ok(n) => print!(rt; "size {n}"),
        Err(e) => print!(rt; "{e}"),
    }
}

/// `decode of SOURCE on BUFFER`, `decode_in_place on BUFFER`, `decode_in_place_report on BUFFER`, and
/// `decode_with_sentinel SENTINEL of SOURCE on BUFFER`, `decode_in_place_with_sentinel SENTINEL on BUFFER`.
#[derive(Clone, Copy)]
pub(crate) enum Call {
    Decode,
    DecodeInPlace,
    DecodeInPlaceReport,
    DecodeWithSentinel(u8),
    DecodeInPlaceWithSentinel(u8),
}

impl Call {
    pub(crate) fn named(words: Words) -> Option<Call> {
        match words {
            ("decode", [], Parts::Both) => Some(Call::Decode),
            ("decode_in_place", [], Parts::On) => Some(Call::DecodeInPlace),
            ("decode_in_place_report", [], Parts::On) => Some(Call::DecodeInPlaceReport),
            ("decode_with_sentinel", [n], Parts::Both) => Some(Call::DecodeWithSentinel(byte(*n))),
            ("decode_in_place_with_sentinel", [n], Parts::On) => Some(
                Call::DecodeInPlaceWithSentinel(byte(*n)),
            ),
            _ => None,
        }
    }
}

pub(crate) fn run(rt: &impl Print, call: Call, src: &[u8], dest: &mut [u8]) -> io::Result<()> {
    match call {
        Call::Decode => say::answer(rt, dec::decode::decode(src, dest))?,
        Call::DecodeInPlace => answer_size(rt, place::place::decode_in_place(dest))?,
        Call::DecodeInPlaceReport => {
            say::answer(rt, place::place::decode_in_place_report(dest))?
        }
        Call::DecodeWithSentinel(sentinel) => answer_size(
            rt,
            place::sentinel::decode_with_sentinel(src, dest, sentinel),
        )?,
        Call::DecodeInPlaceWithSentinel(sentinel) => answer_size(
            rt,
            place::sentinel::decode_in_place_with_sentinel(dest, sentinel),
        )?,
    }
    say::holds(rt, dest)
}
