//! One message into one buffer. What a call needs is known before its first write.
ghost use Rattle.std.specs.Prelude.{◌≡◌, ◌≤◌, length};
ghost use Rattle.cobs.specs.Code.{max_length};
ghost use Rattle.cobs.specs.Answers.{longest};
ghost use Rattle.cobs.specs.OneShot.{plain, zeros_around, chosen, encode_told, encode_dest};
ghost use Rattle.enc.specs.OneShot.{told};
ghost use Rattle.enc.specs.Fast.{encoding, room_for, AfterLastZero};
ghost use Rattle.enc.specs.declared.oneshot.EncodeError.TheVariants as refusal;

use crate::fast::put;
use crate::state::EncoderState;
use blocks::clear16;
use cobs::refusals::{DestBufTooSmall, TooLong};
use std::error::Error;
use std::fmt;

/// Why nothing was written.
#[derive(Clone, Copy, Debug, PartialEq, Eq)]
pub enum EncodeError {
    TooLong,
    DestBufTooSmall,
}

impl fmt::Display for EncodeError {
    fn fmt<W: fmt::Write>(&self, f: &mut fmt::Formatter<W>) -> fmt::Result {
        f.write_str(match self {
            EncodeError::TooLong => "TooLong",
            EncodeError::DestBufTooSmall => "DestBufTooSmall",
        })
    }
}

impl Error for EncodeError {}

impl From<TooLong> for EncodeError {
    ghost from_gives = { λ _ e. e ≡ refusal.TooLong };

    fn from(_: TooLong) -> EncodeError {
        EncodeError::TooLong
    }
}

impl From<DestBufTooSmall> for EncodeError {
    ghost from_gives = { λ _ e. e ≡ refusal.DestBufTooSmall };

    fn from(_: DestBufTooSmall) -> EncodeError {
        EncodeError::DestBufTooSmall
    }
}

/// The Rust's panicking name, one of its public calls and so one here: it refuses as `try_encode` does.
pub fn encode(src: &[u8], dest: &mut [u8]) -> Result<usize, EncodeError>
    ensures answer { told result ≡ encode_told plain src.now (length dest.old) }
    ensures memory { dest.new ≡ encode_dest plain src.now dest.old }
{
    try_encode(src, dest)
}

/// The encoding alone; the caller puts a zero behind it. Answers its length.
pub fn try_encode(src: &[u8], dest: &mut [u8]) -> Result<usize, EncodeError>
    ensures answer { told result ≡ encode_told plain src.now (length dest.old) }
    ensures memory { dest.new ≡ encode_dest plain src.now dest.old }
{
    let most = cobs::max_encoding_length(src.len())?;
    room_for(src, most, dest.len())?;
    Ok(put(src, dest))
}

/// The Rust's panicking name, one of its public calls and so one here: it refuses as `try_encode_including_sentinels` does.
pub fn encode_including_sentinels(src: &[u8], dest: &mut [u8]) -> Result<usize, EncodeError>
    ensures answer { told result ≡ encode_told zeros_around src.now (length dest.old) }
    ensures memory { dest.new ≡ encode_dest zeros_around src.now dest.old }
{
    try_encode_including_sentinels(src, dest)
}

/// The encoding with a zero before and after.
pub fn try_encode_including_sentinels(src: &[u8], dest: &mut [u8]) -> Result<usize, EncodeError>
    ensures answer { told result ≡ encode_told zeros_around src.now (length dest.old) }
    ensures memory { dest.new ≡ encode_dest zeros_around src.now dest.old }
{
    let most = cobs::max_encoding_length(src.len())?;
    let room = dest.len().checked_sub(2).ok_or(DestBufTooSmall)?;
    room_for(src, most, room)?;
    dest[0] = 0;
    let n = put(src, &mut dest[1..]);
    dest[n + 1] = 0;
    Ok(n + 2)
}

/// The encoding with each byte XORed with the sentinel, which is then none of them.
pub fn encode_with_sentinel(src: &[u8], dest: &mut [u8], sentinel: u8) -> Result<usize, EncodeError>
    ensures answer { told result ≡ encode_told (chosen sentinel) src.now (length dest.old) }
    ensures memory { dest.new ≡ encode_dest (chosen sentinel) src.now dest.old }
{
    let most = cobs::max_encoding_length(src.len())?;
    room_for(src, most, dest.len())?;
    let n = put(src, dest);
    blocks::mask(dest, n, sentinel);
    Ok(n)
}

// Whether the encoding of src, `most` bytes at most, fits `room` bytes: counted only where the most does not decide.
fn room_for(src: &[u8], most: usize, room: usize) -> Result<(), DestBufTooSmall>
    requires { (length src.now ≤ longest) × (most ≡ max_length (length src.now)) }
    ensures { result ≡ room_for src.now room }
{
    if most <= room || measured(src) <= room {
        Ok(())
    } else {
        Err(DestBufTooSmall)
    }
}

// The encoding's length: a byte for each byte, one for the first code, and one for each full group with more behind it.
// A zero within the length of a run lets no group before it grow full, so the last such zero is looked for.
// A while loop: its steps are as long as the search makes them, which a range or an iterator would have to be told.
fn measured(src: &[u8]) -> usize
    requires { length src.now ≤ longest }
    ensures { result ≡ length (encoding src.now) }
{
    let n = src.len();
    let mut start = 0;
    let mut more = 1;
    while EncoderState::RUN < n - start {
        let next = after_last_zero(src, start, start + EncoderState::RUN);
        if next == start {
            start += EncoderState::RUN;
            more += 1;
            continue;
        }
        start = next;
    }
    n + more
}

// Where the bytes after the last zero of src from `from` to `to` start; `from` if none is zero.
// From the back, sixteen at once while none of them is zero: `rposition` alone is proved too, but costs 4.40 instructions a byte of
// random bytes in exact room for 2.84.
fn after_last_zero(src: &[u8], from: usize, to: usize) -> usize
    requires { (from ≤ to) × (to ≤ length src.now) }
    ensures { AfterLastZero src.now from to result }
{
    let mut end = to;
    while 16 <= end - from && clear16(src, end - 16) {
        end -= 16;
    }
    match src[from..end].iter().rposition(|b| *b == 0) {
        Some(k) => from + k + 1,
        None => from,
    }
}
