//! Decoding with a chosen sentinel in the place of zero.
ghost use Rattle.std.specs.Prelude.{◌≡◌, length};
ghost use Rattle.cobs.specs.Code.{masked};
ghost use Rattle.cobs.specs.OneShot.{in_place_told, in_place_dest, size_alone, with_sentinel_told, with_sentinel_dest};
ghost use Rattle.dec.specs.Stream.{new, push_dest};
ghost use Rattle.place.specs.Calls.{of_body, place_told, with_told};

use crate::place::{BodyError, decode_in_place};
use crate::walk::Walk;
use dec::decode::DecodeError;
use dec::stream::CobsDecoder;

impl From<BodyError> for DecodeError {
    ghost from_gives = { λ e d. d ≡ of_body e };

    fn from(e: BodyError) -> DecodeError {
        match e {
            BodyError::EmptyFrame => DecodeError::EmptyFrame,
            BodyError::InvalidFrame { decoded } => DecodeError::InvalidFrame { decoded },
        }
    }
}

/// Decodes in place, the whole buffer XORed with the sentinel first.
pub fn decode_in_place_with_sentinel(buf: &mut [u8], sentinel: u8) -> Result<usize, BodyError>
    ensures answer { place_told result ≡ size_alone (in_place_told (masked sentinel buf.old)) }
    ensures memory { buf.new ≡ in_place_dest (masked sentinel buf.old) }
{
    let n = buf.len();
    blocks::mask(buf, n, sentinel);
    decode_in_place(buf)
}

// The size that decoding the source in place would answer. Only the source is read.
fn measured(src: &[u8], sentinel: u8) -> Result<usize, BodyError>
    ensures { place_told result ≡ size_alone (in_place_told (masked sentinel src.now)) }
{
    let mut walk = Walk::first(src, sentinel)?;
    // A loop as in place, for the same reason: with a test at the top, decoding into another buffer takes 2 to 6 of 100 more.
    loop {
        let code = src[walk.from] ^ sentinel;
        walk = walk.past(code)?;
        if walk.from == walk.end {
            return Ok(walk.to);
        }
        walk = walk.closed(code);
    }
}

// Feeds the source's bytes, each XORed with the sentinel, to a new decoder.
fn feed_masked(src: &[u8], dest: &mut [u8], sentinel: u8)
    ensures { dest.new ≡ push_dest new (masked sentinel src.now) dest.old }
{
    let mut decoder = CobsDecoder::new();
    for b in src {
        let fed = decoder.feed(dest, *b ^ sentinel);
        if fed.answer != Ok(None) {
            return;
        }
        decoder = fed.next;
    }
}

/// Decodes the source, each byte XORed with the sentinel, into another buffer. Nothing is written before all is known to fit.
pub fn decode_with_sentinel(src: &[u8], dest: &mut [u8], sentinel: u8) -> Result<usize, DecodeError>
    ensures answer { with_told result ≡ with_sentinel_told sentinel src.now (length dest.old) }
    ensures memory { dest.new ≡ with_sentinel_dest sentinel src.now dest.old }
{
    let size = measured(src, sentinel)?;
    if dest.len() < size {
        return Err(DecodeError::TargetBufTooSmall);
    }
    feed_masked(src, dest, sentinel);
    Ok(size)
}
