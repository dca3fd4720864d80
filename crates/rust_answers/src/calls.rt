//! Our side of a case, through the calls for C callers; `try_encode` and the streaming calls have none and are called themselves.
use cobs::refusals::BadState;
use dec::stream::{CobsDecoder, Frame, PushError};
use enc::oneshot::EncodeError;

/// An answer as its number and two values: so the calls for C give it, and a case's line has it.
#[derive(Clone, Copy, Debug, PartialEq, Eq)]
pub(crate) struct Told {
    pub(crate) number: u8,
    pub(crate) first: usize,
    pub(crate) second: usize,
}

/// What a case asks for: a call, with the sentinel that it takes, or the length of the first of two pieces.
#[derive(Clone, Copy)]
pub(crate) enum Call {
    Encode,
    TryEncode,
    EncodeIncludingSentinels,
    EncodeWithSentinel(u8),
    Decode,
    DecodeInPlaceReport,
    DecodeWithSentinel(u8),
    CobsEncoder(usize),
    CobsDecoder(usize),
}

impl Call {
    /// Its name in the Rust.
    pub(crate) fn name(self) -> &'static str {
        match self {
            Call::Encode => "encode",
            Call::TryEncode => "try_encode",
            Call::EncodeIncludingSentinels => "encode_including_sentinels",
            Call::EncodeWithSentinel(_) => "encode_with_sentinel",
            Call::Decode => "decode",
            Call::DecodeInPlaceReport => "decode_in_place_report",
            Call::DecodeWithSentinel(_) => "decode_with_sentinel",
            Call::CobsEncoder(_) => "CobsEncoder",
            Call::CobsDecoder(_) => "CobsDecoder",
        }
    }
}

fn sized(number: u8, first: usize) -> Told {
    Told {
        number,
        first,
        second: 0,
    }
}

// What a call answers that puts one value behind an out-parameter.
fn one<F: FnOnce(&mut usize) -> u8>(call: F) -> Told
    requires { F.IsAlwaysCallable call }
{
    let mut first = 0;
    let number = call(&mut first);
    sized(number, first)
}

// The same of two values.
fn two<F: FnOnce(&mut usize, &mut usize) -> u8>(call: F) -> Told
    requires { F.IsAlwaysCallable call }
{
    let mut first = 0;
    let mut second = 0;
    let number = call(&mut first, &mut second);
    Told {
        number,
        first,
        second,
    }
}

fn try_encode(src: &[u8], dest: &mut [u8]) -> Told {
    match enc::oneshot::try_encode(src, dest) {
        Ok(n) => sized(0, n),
        Err(EncodeError::TooLong) => sized(5, 0),
        Err(EncodeError::DestBufTooSmall) => sized(4, 0),
    }
}

// Two pieces through an encoder that holds its buffer, finished.
fn pieces(first: &[u8], second: &[u8], dest: &mut [u8]) -> Told {
    match held::encode_two(dest, first, second).finished {
        Ok(n) => sized(0, n),
        Err(BadState) => sized(6, 0),
    }
}

fn pushed(found: Result<Option<Frame>, PushError>) -> Told {
    match found {
        Ok(None) => sized(14, 0),
        Ok(Some(Frame { size, parsed })) => Told {
            number: 0,
            first: size,
            second: parsed,
        },
        Err(PushError::InvalidFrame { decoded, consumed }) => Told {
            number: 2,
            first: decoded,
            second: consumed,
        },
        Err(PushError::TargetBufTooSmall { consumed }) => Told {
            number: 3,
            first: 0,
            second: consumed,
        },
        Err(PushError::BadState) => sized(6, 0),
    }
}

// Two pieces to a new decoder: the second's answer. The first is to be used up.
fn frames(first: &[u8], second: &[u8], dest: &mut [u8]) -> Option<Told> {
    let begun = CobsDecoder::new().push(dest, first);
    let Ok(None) = begun.answer else {
        return None;
    };
    Some(pushed(begun.next.push(dest, second).answer))
}

/// The answer to the call that a case asks for; none where the first piece would be longer than the source or ends a frame.
pub(crate) fn answer(call: Call, src: &[u8], dest: &mut [u8]) -> Option<Told> {
    let told = match call {
        Call::Encode => one(|size| capi::laksovuth_encode(src, dest, size)),
        Call::TryEncode => try_encode(src, dest),
        Call::EncodeIncludingSentinels => {
            one(|size| capi::laksovuth_encode_including_sentinels(src, dest, size))
        }
        Call::EncodeWithSentinel(sentinel) => {
            one(|size| capi::laksovuth_encode_with_sentinel(src, dest, sentinel, size))
        }
        Call::Decode => two(|size, parsed| capi::laksovuth_decode(src, dest, size, parsed)),
        Call::DecodeInPlaceReport => {
            two(|size, parsed| capi::laksovuth_decode_in_place(dest, size, parsed))
        }
        Call::DecodeWithSentinel(sentinel) => {
            one(|size| capi::laksovuth_decode_with_sentinel(src, dest, sentinel, size))
        }
        Call::CobsEncoder(cut) => {
            let (first, second) = src.split_at_checked(cut)?;
            pieces(first, second, dest)
        }
        Call::CobsDecoder(cut) => {
            let (first, second) = src.split_at_checked(cut)?;
            return frames(first, second, dest);
        }
    };
    Some(told)
}
