//! Sixteen bytes at once, and a front XORed.
use crate::read::{Parts, Words, byte};
use crate::say;
use std::io;

/// `clear16 AT of BYTES`, `all16 AT VALUE of BYTES`, `take16 AT FROM of SOURCE on BUFFER`, `copy16 AT FROM of SOURCE on BUFFER`,
/// `fill16 AT VALUE on BUFFER`, `mask COUNT SENTINEL on BUFFER`.
#[derive(Clone, Copy)]
pub(crate) enum Call {
    Clear16(usize),
    All16(usize, u8),
    Take16(usize, usize),
    Copy16(usize, usize),
    Fill16(usize, u8),
    Mask(usize, u8),
}

impl Call {
    pub(crate) fn named(words: Words) -> Option<Call> {
        match words {
            ("clear16", [at], Parts::Of) => Some(Call::Clear16(*at)),
            ("all16", [at, value], Parts::Of) => Some(Call::All16(*at, byte(*value))),
            ("take16", [at, from], Parts::Both) => Some(Call::Take16(*at, *from)),
            ("copy16", [at, from], Parts::Both) => Some(Call::Copy16(*at, *from)),
            ("fill16", [at, value], Parts::On) => Some(Call::Fill16(*at, byte(*value))),
            ("mask", [count, sentinel], Parts::On) => Some(Call::Mask(*count, byte(*sentinel))),
            _ => None,
        }
    }
}

pub(crate) fn run(rt: &impl Print, call: Call, m: &[u8], dest: &mut [u8]) -> io::Result<()> {
    match call {
        Call::Clear16(at) => print!(rt; "{}", blocks::clear16(m, at)),
        Call::All16(at, value) => print!(rt; "{}", blocks::all16(m, at, value)),
        Call::Take16(at, from) => {
            print!(rt; "{}", blocks::take16(dest, at, m, from))?;
            say::holds(rt, dest)
        }
        Call::Copy16(at, from) => {
            blocks::copy16(dest, at, m, from);
            say::left(rt, dest)
        }
        Call::Fill16(at, value) => {
            blocks::fill16(dest, at, value);
            say::left(rt, dest)
        }
        Call::Mask(count, sentinel) => {
            blocks::mask(dest, count, sentinel);
            say::left(rt, dest)
        }
    }
}
