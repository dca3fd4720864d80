//! One-shot decoding, over `push`.
ghost use Rattle.std.specs.Prelude.{◌≡◌, length};
ghost use Rattle.cobs.specs.OneShot.{decode_told, decode_dest};
ghost use Rattle.dec.specs.Calls.{decoded_told, stopped};

use crate::stream::{CobsDecoder, Frame, PushError};
use std::error::Error;
use std::fmt;

/// Why a source gave no frame. `decoded` counts the bytes decoded before a group fell short.
#[derive(Clone, Copy, Debug, PartialEq, Eq)]
pub enum DecodeError {
    EmptyFrame,
    InvalidFrame { decoded: usize },
    TargetBufTooSmall,
}

impl fmt::Display for DecodeError {
    fn fmt<W: fmt::Write>(&self, f: &mut fmt::Formatter<W>) -> fmt::Result {
        match self {
            DecodeError::EmptyFrame => write!(f, "EmptyFrame"),
            DecodeError::InvalidFrame { decoded } => write!(f, "InvalidFrame {decoded}"),
            DecodeError::TargetBufTooSmall => write!(f, "TargetBufTooSmall"),
        }
    }
}

impl Error for DecodeError {}

// A new decoder is never in a bad state.
impl From<PushError> for DecodeError {
    ghost from_gives = { λ refusal e. e ≡ stopped refusal };

    fn from(refusal: PushError) -> DecodeError {
        match refusal {
            PushError::InvalidFrame { decoded, .. } => DecodeError::InvalidFrame { decoded },
            PushError::TargetBufTooSmall { .. } => DecodeError::TargetBufTooSmall,
            PushError::BadState => DecodeError::InvalidFrame { decoded: 0 },
        }
    }
}

/// Decodes the first frame of the source. Leading zeros are skipped, and a missing last zero is supplied.
pub fn decode(src: &[u8], dest: &mut [u8]) -> Result<Frame, DecodeError>
    ensures answer { decoded_told result ≡ decode_told src.now (length dest.old) }
    ensures memory { dest.new ≡ decode_dest src.now dest.old }
{
    if src.is_empty() {
        return Err(DecodeError::EmptyFrame);
    }
    let pushed = CobsDecoder::new().push(dest, src);
    if let Some(frame) = pushed.answer? {
        return Ok(frame);
    }
    let closed = pushed.next.feed(dest, 0);
    let Some(frame) = closed.answer? else {
        // zeros alone are no body
        return Err(DecodeError::InvalidFrame { decoded: 0 });
    };
    Ok(Frame {
        size: frame.size,
        parsed: src.len(),
    })
}
