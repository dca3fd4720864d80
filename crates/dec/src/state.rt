//! The decoder's state, and one byte fed to it.
ghost use Rattle.std.specs.Prelude.{◌≡◌, ◌<◌};
ghost use Rattle.dec.specs.State.{gives, opened, at_zero, stepped, told_given, given_told, Feeds};

use std::error::Error;
use std::fmt;

/// No byte of a body yet; so many bytes of a group to come; the same in a group whose code is FF.
#[derive(Clone, Copy, Debug, PartialEq, Eq)]
pub enum DecoderState {
    Idle,
    Grab(u8),
    GrabChain(u8),
}

/// What one byte gives.
#[derive(Clone, Copy, Debug, PartialEq, Eq)]
pub enum DecodeResult {
    NoData,
    DataStart,
    DataComplete,
    DataContinue(u8),
}

impl fmt::Display for DecoderState {
    fn fmt<W: fmt::Write>(&self, f: &mut fmt::Formatter<W>) -> fmt::Result {
        match self {
            DecoderState::Idle => f.write_str("Idle"),
            DecoderState::Grab(left) => write!(f, "Grab {left}"),
            DecoderState::GrabChain(left) => write!(f, "GrabChain {left}"),
        }
    }
}

impl fmt::Display for DecodeResult {
    fn fmt<W: fmt::Write>(&self, f: &mut fmt::Formatter<W>) -> fmt::Result {
        match self {
            DecodeResult::NoData => f.write_str("NoData"),
            DecodeResult::DataStart => f.write_str("DataStart"),
            DecodeResult::DataComplete => f.write_str("DataComplete"),
            DecodeResult::DataContinue(byte) => write!(f, "DataContinue {byte:02x}"),
        }
    }
}

/// A zero while bytes of a group are to come: 01's InvalidFrame, with 0 decoded bytes.
#[derive(Clone, Copy, Debug, PartialEq, Eq)]
pub struct EarlyZero;

impl fmt::Display for EarlyZero {
    fn fmt<W: fmt::Write>(&self, f: &mut fmt::Formatter<W>) -> fmt::Result {
        f.write_str("InvalidFrame 0")
    }
}

impl Error for EarlyZero {}

/// The state after a byte, and what the byte gave.
#[derive(Clone, Copy, Debug, PartialEq, Eq)]
pub struct Stepped {
    pub state: DecoderState,
    pub result: Result<DecodeResult, EarlyZero>,
}

impl DecoderState {
    /// How many bytes follow the code of a full group.
    pub const FULL_GROUP: u8 = 254;

    pub fn new() -> Self
        ensures { result ≡ DecoderState.Idle }
    {
        DecoderState::Idle
    }

    // The state that a code leads to.
    fn opened(code: u8) -> Self
        requires { 0 < code }
        ensures { result ≡ opened code }
    {
        match code {
            0xFF => DecoderState::GrabChain(DecoderState::FULL_GROUP),
            n => DecoderState::Grab(n - 1),
        }
    }

    /// Takes one byte.
    pub fn step(self, byte: u8) -> Stepped
        ensures step { result ≡ stepped self byte }
        ensures answer { told_given result.result ≡ given_told self byte }
    {
        match self {
            DecoderState::Idle => match byte {
                0 => gives(DecoderState::Idle, Ok(DecodeResult::NoData)),
                code => gives(DecoderState::opened(code), Ok(DecodeResult::DataStart)),
            },
            DecoderState::Grab(left) => match byte {
                0 => gives(DecoderState::Idle, at_zero(left)),
                n => {
                    if left == 0 {
                        return gives(DecoderState::opened(n), Ok(DecodeResult::DataContinue(0)));
                    }
                    gives(
                        DecoderState::Grab(left - 1),
                        Ok(DecodeResult::DataContinue(n)),
                    )
                }
            },
            DecoderState::GrabChain(left) => match byte {
                0 => gives(DecoderState::Idle, at_zero(left)),
                n => {
                    if left == 0 {
                        return gives(DecoderState::opened(n), Ok(DecodeResult::NoData));
                    }
                    gives(
                        DecoderState::GrabChain(left - 1),
                        Ok(DecodeResult::DataContinue(n)),
                    )
                }
            },
        }
    }

    /// Takes one byte where the state stands: `step`, and the next state written back.
    pub fn feed(&mut self, data: u8) -> Result<DecodeResult, EarlyZero>
        ensures { Feeds self.old «data» result self.new }
    {
        let next = self.step(data);
        *self = next.state;
        next.result
    }
}

/// `feed` on a copy of the state, for a caller that holds no reference; a public call with a theorem of its own, `unique-fed`.
pub fn fed(state: DecoderState, data: u8) -> Stepped
    ensures { (result ≡ stepped state «data») × (told_given result.result ≡ given_told state «data») }
{
    let mut held = state;
    let result = held.feed(data);
    Stepped {
        state: held,
        result,
    }
}

fn gives(state: DecoderState, given: Result<DecodeResult, EarlyZero>) -> Stepped
    ensures { result ≡ gives state given }
{
    Stepped {
        state,
        result: given,
    }
}

// What a zero gives, with so many bytes of the group to come.
fn at_zero(left: u8) -> Result<DecodeResult, EarlyZero>
    ensures { result ≡ at_zero left }
{
    if left == 0 {
        return Ok(DecodeResult::DataComplete);
    }
    Err(EarlyZero)
}
