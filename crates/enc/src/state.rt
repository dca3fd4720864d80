//! The encoder's state alone: what each byte asks of the output, for a caller who keeps the output.
ghost use Rattle.std.specs.Prelude.{◌≡◌, false};
ghost use Rattle.enc.specs.State.{fresh_state, no_code, step, state_bad, state_push, told_asked, state_push_told, state_finalize, told_state_finished, state_finalize_told};

use cobs::refusals::BadState;
use std::fmt;

/// The output starts with one byte held open for a code. `place` is where the open group's code is to stand, `code` what
/// it is if the group closes now.
#[derive(Clone, Copy, Debug, PartialEq, Eq)]
pub struct EncoderState {
    pub place: usize,
    pub code: u8,
}

/// What a byte asks of the output.
#[derive(Clone, Copy, Debug, PartialEq, Eq)]
pub enum PushResult {
    /// Put this byte at the end.
    AddSingle(u8),
    /// Write the code at its place, and hold one byte open at the end.
    ModifyFromStartAndSkip { place: usize, code: u8 },
    /// Write the code at its place, put the byte at the end, and hold one byte open after it if more comes.
    ModifyFromStartAndPushAndSkip { place: usize, code: u8, byte: u8 },
}

impl fmt::Display for EncoderState {
    fn fmt<W: fmt::Write>(&self, f: &mut fmt::Formatter<W>) -> fmt::Result {
        write!(f, "place {} code {}", self.place, self.code)
    }
}

impl fmt::Display for PushResult {
    fn fmt<W: fmt::Write>(&self, f: &mut fmt::Formatter<W>) -> fmt::Result {
        match self {
            PushResult::AddSingle(byte) => write!(f, "AddSingle {byte:02x}"),
            PushResult::ModifyFromStartAndSkip { place, code } => {
                write!(f, "ModifyFromStartAndSkip {place} {code:02x}")
            }
            PushResult::ModifyFromStartAndPushAndSkip { place, code, byte } => {
                write!(
                    f,
                    "ModifyFromStartAndPushAndSkip {place} {code:02x} {byte:02x}"
                )
            }
        }
    }
}

/// What a byte asks, and the state after it.
#[derive(Clone, Copy, Debug, PartialEq, Eq)]
pub struct StatePushed {
    pub result: Result<PushResult, BadState>,
    pub next: EncoderState,
}

/// What the end of the message asks: write the code at its place.
#[derive(Clone, Copy, Debug, PartialEq, Eq)]
pub struct Modify {
    pub place: usize,
    pub code: u8,
}

impl fmt::Display for Modify {
    fn fmt<W: fmt::Write>(&self, f: &mut fmt::Formatter<W>) -> fmt::Result {
        write!(f, "{} {:02x}", self.place, self.code)
    }
}

impl EncoderState {
    /// The most bytes of one group.
    pub const RUN_LIMIT: u8 = 254;

    // The same, to count bytes by.
    pub(crate) const RUN: usize = EncoderState::RUN_LIMIT as usize;

    // The code of a full group.
    pub(crate) const FULL_CODE: u8 = EncoderState::RUN_LIMIT + 1;

    // How many bytes of the output a full group takes, its code among them.
    pub(crate) const FULL_LENGTH: usize = EncoderState::RUN + 1;

    // The largest usize less a full group: from here a group can still close.
    const PLACE_LIMIT: usize = 0xffff_ffff_ffff_ffff - EncoderState::FULL_LENGTH;

    /// Before the first byte.
    pub fn new() -> Self
        ensures { result ≡ fresh_state }
    {
        EncoderState { place: 0, code: 1 }
    }

    /// One byte. A refused state comes back as it went in.
    pub fn push(self, byte: u8) -> StatePushed
        ensures state { result ≡ state_push self byte }
        ensures answer { told_asked result.result ≡ state_push_told self byte }
    {
        if self.is_bad() {
            return StatePushed {
                result: Err(BadState),
                next: self,
            };
        }
        let (asked, next) = self.step(byte);
        StatePushed {
            result: Ok(asked),
            next,
        }
    }

    /// The end of the message.
    pub fn finalize(self) -> Result<Modify, BadState>
        ensures state { result ≡ state_finalize self }
        ensures answer { told_state_finished result ≡ state_finalize_told self }
    {
        if self.is_bad() {
            return Err(BadState);
        }
        Ok(Modify {
            place: self.place,
            code: self.code,
        })
    }

    // Whether the code is none.
    pub(crate) fn has_no_code(self) -> bool
        ensures { result ≡ no_code self.code }
    {
        !(1..=EncoderState::RUN_LIMIT).contains(&self.code)
    }

    // Whether the code is none, or the place too far for a group to close.
    fn is_bad(self) -> bool
        ensures { result ≡ state_bad self }
    {
        self.has_no_code() || EncoderState::PLACE_LIMIT < self.place
    }

    // One byte: a zero closes the group, the nonzero byte that reaches the run limit closes it full, and any other is added.
    pub(crate) fn step(self, byte: u8) -> (PushResult, EncoderState)
        requires { state_bad self ≡ false }
        ensures { result ≡ step self byte }
    {
        let EncoderState { place, code } = self;
        if byte == 0 {
            return (
                PushResult::ModifyFromStartAndSkip { place, code },
                EncoderState {
                    place: place + code as usize,
                    code: 1,
                },
            );
        }
        if code == EncoderState::RUN_LIMIT {
            return (
                PushResult::ModifyFromStartAndPushAndSkip {
                    place,
                    code: EncoderState::FULL_CODE,
                    byte,
                },
                EncoderState {
                    place: place + EncoderState::FULL_LENGTH,
                    code: 1,
                },
            );
        }
        (
            PushResult::AddSingle(byte),
            EncoderState {
                place,
                code: code + 1,
            },
        )
    }
}
