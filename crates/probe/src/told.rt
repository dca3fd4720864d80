//! Each answer as C has it: its number, with its values behind the out-parameters. No trait as in `capi`: of these five no two have the same
//! refusals, and each has one caller.
ghost use Rattle.std.specs.Prelude.{◌≡◌};
ghost use Rattle.cobs.specs.Answers.{tell};
ghost use Rattle.enc.specs.Stream.{told as accepted_told, told_finished};
ghost use Rattle.dec.specs.State.{told_given};
ghost use Rattle.dec.specs.Stream.{told as push_told};
ghost use Rattle.place.specs.Calls.{place_told};

use cobs::refusals::BadState;
use dec::state::{DecodeResult, EarlyZero};
use dec::stream::{Frame, PushError as DecodePushError};
use enc::stream::PushError as EncodePushError;
use place::place::BodyError;

pub(crate) fn accepted(found: Result<(), EncodePushError>) -> u8
    ensures { tell result 0 0 ≡ accepted_told found }
{
    match found {
        Ok(()) => 0,
        Err(EncodePushError::DestBufTooSmall) => 4,
        Err(EncodePushError::TooLong) => 5,
        Err(EncodePushError::BadState) => 6,
    }
}

pub(crate) fn finished(found: Result<usize, BadState>, size: &mut usize) -> u8
    ensures { tell result size.new 0 ≡ told_finished found }
{
    match found {
        Ok(n) => {
            *size = n;
            0
        }
        Err(BadState) => {
            *size = 0;
            6
        }
    }
}

pub(crate) fn answered(
    found: Result<Option<Frame>, DecodePushError>,
    size: &mut usize,
    consumed: &mut usize,
) -> u8
    ensures { tell result size.new consumed.new ≡ push_told found }
{
    *size = 0;
    *consumed = 0;
    match found {
        Ok(None) => 14,
        Ok(Some(frame)) => {
            *size = frame.size;
            *consumed = frame.parsed;
            0
        }
        Err(
            DecodePushError::InvalidFrame {
                decoded: n,
                consumed: p,
            },
        ) => {
            *size = n;
            *consumed = p;
            2
        }
        Err(DecodePushError::TargetBufTooSmall { consumed: p }) => {
            *consumed = p;
            3
        }
        Err(DecodePushError::BadState) => 6,
    }
}

pub(crate) fn gave(found: Result<DecodeResult, EarlyZero>, given: &mut u8, place: &mut u8) -> u8
    ensures { tell result given.new place.new ≡ told_given found }
{
    *given = 0;
    *place = 0;
    match found {
        Ok(DecodeResult::NoData) => 0,
        Ok(DecodeResult::DataStart) => {
            *place = 1;
            0
        }
        Ok(DecodeResult::DataComplete) => {
            *place = 2;
            0
        }
        Ok(DecodeResult::DataContinue(b)) => {
            *given = b;
            *place = 3;
            0
        }
        Err(EarlyZero) => 2,
    }
}

pub(crate) fn placed(found: Result<usize, BodyError>, size: &mut usize) -> u8
    ensures { tell result size.new 0 ≡ place_told found }
{
    *size = 0;
    match found {
        Ok(n) => {
            *size = n;
            0
        }
        Err(BodyError::EmptyFrame) => 1,
        Err(BodyError::InvalidFrame { decoded }) => {
            *size = decoded;
            2
        }
    }
}
