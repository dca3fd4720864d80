//! The streaming encoder on a lent buffer: the encoder goes in and comes back by value.
ghost use Rattle.std.specs.Prelude.{◌≡◌, Ok, false, ◌+◌, ◌^◌, ◌≤◌, ◌<◌, length, set};
ghost use Rattle.cobs.specs.Answers.{longest};
ghost use Rattle.enc.specs.State.{no_code, state_bad};
ghost use Rattle.enc.specs.declared.state.PushResult.{PushResult};
ghost use Rattle.enc.specs.Stream.{fresh, closes_full, obeyed, moved, wrote, move_all, write_all, finished_length, is_bad, started, told_started, start_told, told, push_told, push_next, push_dest, told_finished, finish_told, finish_dest};

use crate::state::{EncoderState, Modify, PushResult, StatePushed};
use cobs::refusals::{BadState, DestBufTooSmall};
use std::error::Error;
use std::fmt;

/// `full`: a just-closed full group ends the input. `count`: the bytes accepted.
#[derive(Clone, Copy, Debug, PartialEq, Eq)]
pub struct Encoder {
    pub state: EncoderState,
    // A flag: `fresh`, `moved` and `is_bad` of specs/ speak of it, the last for 01's BadState of a full encoder whose code is not 1.
    pub full: bool,
    pub count: usize,
}

impl fmt::Display for Encoder {
    fn fmt<W: fmt::Write>(&self, f: &mut fmt::Formatter<W>) -> fmt::Result {
        let full = if self.full { " full" } else { "" };
        write!(f, "{}{full} count {}", self.state, self.count)
    }
}

/// Why a piece is not accepted.
#[derive(Clone, Copy, Debug, PartialEq, Eq)]
pub enum PushError {
    BadState,
    TooLong,
    DestBufTooSmall,
}

impl fmt::Display for PushError {
    fn fmt<W: fmt::Write>(&self, f: &mut fmt::Formatter<W>) -> fmt::Result {
        f.write_str(match self {
            PushError::BadState => "BadState",
            PushError::TooLong => "TooLong",
            PushError::DestBufTooSmall => "DestBufTooSmall",
        })
    }
}

impl Error for PushError {}

/// The answer, and the encoder to go on with.
#[derive(Clone, Copy, Debug, PartialEq, Eq)]
pub struct Pushed {
    pub answer: Result<(), PushError>,
    pub next: Encoder,
}

impl Encoder {
    /// Before the first byte.
    pub fn new() -> Self
        ensures { result ≡ fresh }
    {
        Encoder {
            state: EncoderState::new(),
            full: false,
            count: 0,
        }
    }

    /// An encoder for this buffer, which it leaves as it is. The finished encoding of nothing needs one byte.
    pub fn start(dest: &[u8]) -> Result<Encoder, DestBufTooSmall>
        ensures state { result ≡ started (length dest.now) }
        ensures answer { told_started result ≡ start_told (length dest.now) }
    {
        if dest.is_empty() {
            return Err(DestBufTooSmall);
        }
        Ok(Encoder::new())
    }

    /// Takes the whole piece, or refuses it and changes nothing.
    pub fn push(self, dest: &mut [u8], piece: &[u8]) -> Pushed
        ensures answer { told result.answer ≡ push_told self piece.now (length dest.old) }
        ensures next { result.next ≡ push_next self piece.now (length dest.old) }
        ensures memory { dest.new ≡ push_dest self piece.now dest.old }
    {
        if let Err(refusal) = self.judged(piece, dest.len()) {
            return Pushed {
                answer: Err(refusal),
                next: self,
            };
        }
        Pushed {
            answer: Ok(()),
            next: self.put_all(dest, piece),
        }
    }

    /// Writes the open code and answers the encoding's length.
    pub fn finalize(self, dest: &mut [u8]) -> Result<usize, BadState>
        ensures answer { told_finished result ≡ finish_told self (length dest.old) }
        ensures memory { dest.new ≡ finish_dest self dest.old }
    {
        if self.is_bad(dest.len()) {
            return Err(BadState);
        }
        let Modify { place, code } = self.state.finalize()?;
        if self.full {
            return Ok(place);
        }
        dest[place] = code;
        Ok(place + code as usize)
    }

    // Whether the encoder does not go with a buffer of `room` bytes.
    fn is_bad(self, room: usize) -> bool
        ensures { result ≡ is_bad self room }
    {
        let EncoderState { place, code } = self.state;
        if self.state.has_no_code() || room < place || cobs::LONGEST < self.count {
            return true;
        }
        if self.full {
            return code != 1;
        }
        room - place < code as usize
    }

    // The answer to a piece, known before anything is written: a bound first, counting only where it does not decide.
    fn judged(self, piece: &[u8], room: usize) -> Result<(), PushError>
        requires { room < 2 ^ 63 }
        ensures { told result ≡ push_told self piece.now room }
    {
        if self.is_bad(room) {
            return Err(PushError::BadState);
        }
        if cobs::LONGEST - self.count < piece.len() {
            return Err(PushError::TooLong);
        }
        let open = self.state.code as usize + piece.len();
        if self.state.place + open + open / EncoderState::RUN <= room {
            return Ok(());
        }
        if room < self.measured(piece) {
            return Err(PushError::DestBufTooSmall);
        }
        Ok(())
    }

    // The finished length after a piece, counted.
    fn measured(self, piece: &[u8]) -> usize
        requires { (no_code self.state.code ≡ false) × (self.state.place < 2 ^ 63) × (self.count + length piece.now ≤ longest) }
        ensures { result ≡ finished_length (move_all self piece.now) }
    {
        let EncoderState {
            mut place,
            mut code,
        } = self.state;
        let mut full = self.full;
        for &b in piece {
            if b == 0 {
                place += code as usize;
                code = 1;
                full = false;
            } else if code == EncoderState::RUN_LIMIT {
                place += EncoderState::FULL_LENGTH;
                code = 1;
                full = true;
            } else {
                code += 1;
                full = false;
            }
        }
        if full { place } else { place + code as usize }
    }

    // All bytes of a piece.
    fn put_all(self, dest: &mut [u8], piece: &[u8]) -> Encoder
        requires { (no_code self.state.code ≡ false) × (self.state.place < 2 ^ 63) × (self.count + length piece.now ≤ longest) }
        ensures next { result ≡ move_all self piece.now }
        ensures memory { dest.new ≡ write_all self piece.now dest.old }
    {
        let mut at = self;
        for &b in piece {
            at = at.put(dest, b);
        }
        at
    }

    // One byte: what the state asks for is done to the buffer.
    fn put(self, dest: &mut [u8], byte: u8) -> Encoder
        requires { (state_bad self.state ≡ false) × (self.count < longest) }
        ensures next { result ≡ moved self byte }
        ensures memory { dest.new ≡ wrote self byte dest.old }
    {
        let end = self.state.place + self.state.code as usize;
        let StatePushed { result, next } = self.state.push(byte);
        let full = heed(result, dest, end);
        Encoder {
            state: next,
            full,
            count: self.count + 1,
        }
    }
}

// What a byte's answer asks for, done; a sound state is never refused. Not by a `let .. else` in `put`, which makes a push of many
// bytes 1.6 times as long.
fn heed(answer: Result<PushResult, BadState>, dest: &mut [u8], end: usize) -> bool
    ensures full { (asked : PushResult) → answer ≡ Ok asked → result ≡ closes_full asked }
    ensures memory { (asked : PushResult) → answer ≡ Ok asked → dest.new ≡ obeyed asked end dest.old }
{
    match answer {
        Ok(asked) => obey(asked, dest, end),
        Err(BadState) => false,
    }
}

// What a byte asks for, done to the buffer. Answers whether a full group has closed.
fn obey(asked: PushResult, dest: &mut [u8], end: usize) -> bool
    ensures full { result ≡ closes_full asked }
    ensures memory { dest.new ≡ obeyed asked end dest.old }
{
    match asked {
        PushResult::AddSingle(byte) => {
            store(dest, end, byte);
            false
        }
        PushResult::ModifyFromStartAndSkip { place, code } => {
            store(dest, place, code);
            false
        }
        PushResult::ModifyFromStartAndPushAndSkip { place, code, byte } => {
            store(dest, end, byte);
            store(dest, place, code);
            true
        }
    }
}

// A byte stored, where there is a place for it. Not by `get_mut`, whose contract says nothing of what the slice ends as.
fn store(dest: &mut [u8], at: usize, byte: u8)
    ensures { dest.new ≡ set dest.old at byte }
{
    if at < dest.len() {
        dest[at] = byte;
    }
}
