//! Frames of records: a message of 1 to 15 of them, checked, encoded, and ended by a zero.
ghost use Rattle.std.specs.Prelude.{◌≡◌, length};
ghost use Rattle.record.specs.Frame.{is_bad_length, message_told, told_checked, told_frame, frame_told, frame_dest};

use std::error::Error;
use std::fmt;

/// The bytes of a record.
pub const SIZE: usize = 16;

/// The most bytes of a frame's message.
pub const MOST: usize = 240;

/// Why a message is no frame: its length, its first bad record by number, or too little room for the encoding.
#[derive(Clone, Copy, Debug, PartialEq, Eq)]
pub enum FrameError {
    BadLength,
    BadRecord(usize),
    DestBufTooSmall,
}

impl fmt::Display for FrameError {
    fn fmt<W: fmt::Write>(&self, f: &mut fmt::Formatter<W>) -> fmt::Result {
        match self {
            FrameError::BadLength => write!(f, "BadLength"),
            FrameError::BadRecord(number) => write!(f, "BadRecord {number}"),
            FrameError::DestBufTooSmall => write!(f, "DestBufTooSmall"),
        }
    }
}

impl Error for FrameError {}

/// Writes the encoding of a message of records, and one zero. The length counts the zero; a refusal writes nothing.
pub fn write_frame(message: &[u8], dest: &mut [u8]) -> Result<usize, FrameError>
    ensures answer { told_frame result ≡ frame_told message.now (length dest.old) }
    ensures memory { dest.new ≡ frame_dest message.now dest.old }
{
    check(message)?;
    if dest.is_empty() {
        return Err(FrameError::DestBufTooSmall);
    }
    // The last byte is kept for the zero.
    let room = dest.len() - 1;
    // It refuses for room alone: the most of a message, 240 bytes, is never TooLong.
    let Ok(n) = enc::oneshot::encode(message, &mut dest[..room]) else {
        return Err(FrameError::DestBufTooSmall);
    };
    dest[n] = 0;
    Ok(n + 1)
}

/// A message of n bytes is no whole number of records, 1 to 15.
#[tactic(auto, unfolding(crate::specs::Frame::is_bad_length))]
pub fn is_bad_length(n: usize) -> bool
    ensures { result ≡ is_bad_length 16 240 n }
{
    n == 0 || n > MOST || n % SIZE != 0
}

// The refusals of a message itself: its length, then its first bad record.
#[tactic(auto, unfolding(crate::specs::Frame::message_told))]
fn check(message: &[u8]) -> Result<(), FrameError>
    ensures { told_checked result ≡ message_told 16 240 message.now }
{
    if is_bad_length(message.len()) {
        return Err(FrameError::BadLength);
    }
    // By number: `read` takes the message and a place.
    for number in 0..message.len() / SIZE {
        if crate::read(message, number * SIZE).is_err() {
            return Err(FrameError::BadRecord(number));
        }
    }
    Ok(())
}
