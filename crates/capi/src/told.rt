//! Each answer as its number, with its values behind the out-parameters.
ghost use Rattle.std.specs.Prelude.{◌≡◌, Ok, Err, refl};
ghost use Rattle.batch.specs.State.{told_stand, told_standing};
ghost use Rattle.batch.specs.declared.Standing.TheVariants as stand;
ghost use Rattle.capi.specs.Helpers.{telling};
ghost use Rattle.cobs.specs.Answers.{Told, done, tell};
ghost use Rattle.cobs.specs.Lengths.{told as length_told};
ghost use Rattle.dec.specs.declared.decode.DecodeError.TheVariants as decoding;
ghost use Rattle.enc.specs.declared.oneshot.EncodeError.TheVariants as encoding;
ghost use Rattle.dec.specs.Calls.{decoded_told};
ghost use Rattle.enc.specs.OneShot.{told as encoded_told};
ghost use Rattle.place.specs.Calls.{report_told, with_told};
ghost use Rattle.record.specs.Frame.{told_frame};
ghost use Rattle.wire.specs.Call.{told_received};

use batch::Standing;
use cobs::refusals::{BadState, TooLong};
use dec::decode::DecodeError;
use dec::stream::Frame;
use enc::oneshot::EncodeError;
use place::place::BodyError;
use record::frame::FrameError;
use wire::Refusal;

/// An answer's number and its two values.
#[derive(Clone, Copy, Debug, PartialEq, Eq)]
pub(crate) struct Telling {
    number: u8,
    first: usize,
    second: usize,
}

/// What C gets as a number and two values.
pub(crate) trait Tell {
    ghost told: { Self → Told };

    fn telling(self) -> Telling
        ensures { telling result ≡ told self };
}

/// What C gets as a number and one value.
pub(crate) trait TellOne: Tell {
    ghost one: { (a : Self) → (Self.Tell.told a).second ≡ 0 };
}

/// Puts the values behind the out-parameters and answers the number.
pub(crate) fn put<A: Tell>(answer: A, first: &mut usize, second: &mut usize) -> u8
    ensures { tell result first.new second.new ≡ A.told answer }
{
    let t = answer.telling();
    *first = t.first;
    *second = t.second;
    t.number
}

/// The same of one value.
pub(crate) fn put_one<A: TellOne>(answer: A, first: &mut usize) -> u8
    ensures { tell result first.new 0 ≡ A.told answer }
{
    let t = answer.telling();
    *first = t.first;
    t.number
}

fn tells(number: u8, first: usize, second: usize) -> Telling
    ensures { telling result ≡ tell number first second }
{
    Telling {
        number,
        first,
        second,
    }
}

fn of_frame(frame: Frame) -> Telling
    ensures { telling result ≡ done frame.size frame.parsed }
{
    tells(0, frame.size, frame.parsed)
}

fn of_standing(standing: Standing) -> Telling
    ensures { telling result ≡ told_stand standing }
{
    match standing {
        Standing::Open => tells(15, 0, 0),
        Standing::Missing(k) => tells(16, k, 0),
        Standing::Complete => tells(17, 0, 0),
        Standing::Differs => tells(18, 0, 0),
    }
}

// The same refusals of a frame and of a size.
fn of_decode_error(refusal: DecodeError) -> Telling
    ensures frame { telling result ≡ decoded_told (Err refusal) }
    ensures size { telling result ≡ with_told (Err refusal) }
{
    match refusal {
        DecodeError::EmptyFrame => tells(1, 0, 0),
        DecodeError::InvalidFrame { decoded } => tells(2, decoded, 0),
        DecodeError::TargetBufTooSmall => tells(3, 0, 0),
    }
}

// An answer at a time, not `Result<T, E>` of two that tell: the tellings of specs/ are of whole answers.
impl Tell for Result<usize, TooLong> {
    ghost told = { length_told };

    fn telling(self) -> Telling {
        match self {
            Ok(n) => tells(0, n, 0),
            Err(TooLong) => tells(5, 0, 0),
        }
    }
}

impl Tell for Result<usize, EncodeError> {
    ghost told = { encoded_told };

    fn telling(self) -> Telling {
        match self {
            Ok(n) => tells(0, n, 0),
            Err(EncodeError::TooLong) => tells(5, 0, 0),
            Err(EncodeError::DestBufTooSmall) => tells(4, 0, 0),
        }
    }
}

impl Tell for Result<Frame, DecodeError> {
    ghost told = { decoded_told };

    fn telling(self) -> Telling {
        match self {
            Ok(frame) => of_frame(frame),
            Err(refusal) => of_decode_error(refusal),
        }
    }
}

impl Tell for Result<usize, DecodeError> {
    ghost told = { with_told };

    fn telling(self) -> Telling {
        match self {
            Ok(n) => tells(0, n, 0),
            Err(refusal) => of_decode_error(refusal),
        }
    }
}

impl Tell for Result<Frame, BodyError> {
    ghost told = { report_told };

    fn telling(self) -> Telling {
        match self {
            Ok(frame) => of_frame(frame),
            Err(BodyError::EmptyFrame) => tells(1, 0, 0),
            Err(BodyError::InvalidFrame { decoded }) => tells(2, decoded, 0),
        }
    }
}

impl Tell for Result<usize, FrameError> {
    ghost told = { told_frame };

    fn telling(self) -> Telling {
        match self {
            Ok(n) => tells(0, n, 0),
            Err(FrameError::BadLength) => tells(7, 0, 0),
            Err(FrameError::BadRecord(k)) => tells(8, 0, k),
            Err(FrameError::DestBufTooSmall) => tells(4, 0, 0),
        }
    }
}

impl Tell for Result<Standing, BadState> {
    ghost told = { told_standing };

    fn telling(self) -> Telling {
        match self {
            Ok(standing) => of_standing(standing),
            Err(BadState) => tells(6, 0, 0),
        }
    }
}

impl Tell for Result<Option<Standing>, Refusal> {
    ghost told = { told_received };

    fn telling(self) -> Telling {
        match self {
            Err(Refusal::InvalidFrame { decoded }) => tells(2, decoded, 0),
            Err(Refusal::TargetBufTooSmall) => tells(3, 0, 0),
            Err(Refusal::BadState) => tells(6, 0, 0),
            Err(Refusal::BadLength) => tells(7, 0, 0),
            Err(Refusal::BadRecord(k)) => tells(8, 0, k),
            Err(Refusal::Stale(k)) => tells(9, 0, k),
            Err(Refusal::Ahead(k)) => tells(10, 0, k),
            Err(Refusal::NoRoom(k)) => tells(11, 0, k),
            Err(Refusal::BeyondClose(k)) => tells(12, 0, k),
            Err(Refusal::Conflict(k)) => tells(13, 0, k),
            Ok(None) => tells(14, 0, 0),
            Ok(Some(standing)) => of_standing(standing),
        }
    }
}

impl TellOne for Result<usize, TooLong> {
    ghost one = { elim [ Ok n ↦ refl | Err e ↦ refl ] };
}

impl TellOne for Result<usize, EncodeError> {
    ghost one = { elim [ Ok n ↦ refl | Err encoding.TooLong ↦ refl | Err encoding.DestBufTooSmall ↦ refl ] };
}

impl TellOne for Result<usize, DecodeError> {
    ghost one = { elim [ Ok n ↦ refl | Err decoding.EmptyFrame ↦ refl | Err (decoding.InvalidFrame n) ↦ refl | Err decoding.TargetBufTooSmall ↦ refl ] };
}

impl TellOne for Result<Standing, BadState> {
    ghost one = { elim [ Ok stand.Open ↦ refl | Ok (stand.Missing k) ↦ refl | Ok stand.Complete ↦ refl | Ok stand.Differs ↦ refl | Err e ↦ refl ] };
}
