//! 01's refusals that stand alone, each a type of its own. Calls with several have an enum, which these become by `?`.
use std::error::Error;
use std::fmt;

/// A message, or a length asked about, over `LONGEST`.
#[derive(Clone, Copy, Debug, PartialEq, Eq)]
pub struct TooLong;

/// An encoding without room.
#[derive(Clone, Copy, Debug, PartialEq, Eq)]
pub struct DestBufTooSmall;

/// A state that 01 calls bad.
#[derive(Clone, Copy, Debug, PartialEq, Eq)]
pub struct BadState;

impl fmt::Display for TooLong {
    fn fmt<W: fmt::Write>(&self, f: &mut fmt::Formatter<W>) -> fmt::Result {
        f.write_str("TooLong")
    }
}

impl fmt::Display for DestBufTooSmall {
    fn fmt<W: fmt::Write>(&self, f: &mut fmt::Formatter<W>) -> fmt::Result {
        f.write_str("DestBufTooSmall")
    }
}

impl fmt::Display for BadState {
    fn fmt<W: fmt::Write>(&self, f: &mut fmt::Formatter<W>) -> fmt::Result {
        f.write_str("BadState")
    }
}

impl Error for TooLong {}

impl Error for DestBufTooSmall {}

impl Error for BadState {}
