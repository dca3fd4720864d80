//! The two length functions.
use crate::read::{Parts, Words};
use crate::say;
use std::io;

/// `max_encoding_overhead LENGTH`, `max_encoding_length LENGTH`.
#[derive(Clone, Copy)]
pub(crate) enum Call {
    MaxEncodingOverhead(usize),
    MaxEncodingLength(usize),
}

impl Call {
    pub(crate) fn named(words: Words) -> Option<Call> {
        match words {
            ("max_encoding_overhead", [n], Parts::Neither) => Some(Call::MaxEncodingOverhead(*n)),
            ("max_encoding_length", [n], Parts::Neither) => Some(Call::MaxEncodingLength(*n)),
            _ => None,
        }
    }
}

pub(crate) fn run(rt: &impl Print, call: Call) -> io::Result<()> {
    match call {
        Call::MaxEncodingOverhead(n) => say::answer(rt, cobs::max_encoding_overhead(n)),
        Call::MaxEncodingLength(n) => say::answer(rt, cobs::max_encoding_length(n)),
    }
}
