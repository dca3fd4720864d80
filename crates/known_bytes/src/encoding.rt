//! One-shot encoding: the length or a refusal, and what the buffer then holds.
use crate::read::{Parts, Words, byte};
use crate::{holding, say};
use std::io;

/// `encode of MESSAGE on BUFFER` and its like, `encode_with_sentinel SENTINEL of MESSAGE on BUFFER`,
/// `encode_two CUT of MESSAGE on BUFFER`.
#[derive(Clone, Copy)]
pub(crate) enum Call {
    Encode,
    TryEncode,
    EncodeIncludingSentinels,
    TryEncodeIncludingSentinels,
    EncodeWithSentinel(u8),
    EncodeTwo(usize),
}

impl Call {
    pub(crate) fn named(words: Words) -> Option<Call> {
        match words {
            ("encode", [], Parts::Both) => Some(Call::Encode),
            ("try_encode", [], Parts::Both) => Some(Call::TryEncode),
            ("encode_including_sentinels", [], Parts::Both) => Some(Call::EncodeIncludingSentinels),
            ("try_encode_including_sentinels", [], Parts::Both) => Some(
                Call::TryEncodeIncludingSentinels,
            ),
            ("encode_with_sentinel", [n], Parts::Both) => Some(Call::EncodeWithSentinel(byte(*n))),
            ("encode_two", [cut], Parts::Both) => Some(Call::EncodeTwo(*cut)),
            _ => None,
        }
    }
}

pub(crate) fn run(rt: &impl Print, call: Call, m: &[u8], dest: &mut [u8]) -> io::Result<()> {
    match call {
        Call::Encode => say::answer(rt, enc::oneshot::encode(m, dest))?,
        Call::TryEncode => say::answer(rt, enc::oneshot::try_encode(m, dest))?,
        Call::EncodeIncludingSentinels => {
            say::answer(rt, enc::oneshot::encode_including_sentinels(m, dest))?
        }
        Call::TryEncodeIncludingSentinels => {
            say::answer(rt, enc::oneshot::try_encode_including_sentinels(m, dest))?
        }
        Call::EncodeWithSentinel(sentinel) => {
            say::answer(rt, enc::oneshot::encode_with_sentinel(m, dest, sentinel))?
        }
        Call::EncodeTwo(cut) => holding::run(rt, cut, m, dest)?,
    }
    say::holds(rt, dest)
}
