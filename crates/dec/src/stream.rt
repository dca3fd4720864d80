//! The streaming decoder: pieces in, frames out.
ghost use Rattle.std.specs.Prelude.{◌≡◌, [], ◌∷◌, ◌-◌, ◌≤◌, ◌<◌, eqb, length, if◌then◌else◌};
ghost use Rattle.dec.specs.Helpers.{open_at, Ahead};
ghost use Rattle.dec.specs.Stream.{at, new, skipping, bad, goes, stops, told, outcome, further, byte_outcome, byte_dest, push_outcome, push_dest};

use crate::fast::{Open, Reached, by_sixteen, bytes};
use crate::state::{DecodeResult, DecoderState, Stepped};
use std::error::Error;
use std::fmt;

/// The write place in the destination, whether the rest of an overfull frame is being skipped, and the state.
#[derive(Clone, Copy, Debug, PartialEq, Eq)]
pub struct CobsDecoder {
    pub place: usize,
    // A flag, as 01's form has it: write place, skip flag and the enum, written anew at each step. `bad` of specs/ speaks of all three.
    pub skip: bool,
    pub state: DecoderState,
}

impl fmt::Display for CobsDecoder {
    fn fmt<W: fmt::Write>(&self, f: &mut fmt::Formatter<W>) -> fmt::Result {
        let skip = if self.skip { " skip" } else { "" };
        write!(f, "place {}{skip} {}", self.place, self.state)
    }
}

/// A frame: its size, and how many bytes of the source were parsed, up to and with its zero.
#[derive(Clone, Copy, Debug, PartialEq, Eq)]
pub struct Frame {
    pub size: usize,
    pub parsed: usize,
}

impl fmt::Display for Frame {
    fn fmt<W: fmt::Write>(&self, f: &mut fmt::Formatter<W>) -> fmt::Result {
        write!(f, "frame {}, parsed {}", self.size, self.parsed)
    }
}

/// Why a piece gave no frame. `consumed` counts its bytes up to and with the one that stopped it.
#[derive(Clone, Copy, Debug, PartialEq, Eq)]
pub enum PushError {
    InvalidFrame { decoded: usize, consumed: usize },
    TargetBufTooSmall { consumed: usize },
    BadState,
}

impl fmt::Display for PushError {
    fn fmt<W: fmt::Write>(&self, f: &mut fmt::Formatter<W>) -> fmt::Result {
        match self {
            PushError::InvalidFrame { decoded, consumed } => {
                write!(f, "InvalidFrame {decoded}, consumed {consumed}")
            }
            PushError::TargetBufTooSmall { consumed } => {
                write!(f, "TargetBufTooSmall, consumed {consumed}")
            }
            PushError::BadState => f.write_str("BadState"),
        }
    }
}

impl Error for PushError {}

/// The decoder after a byte or a piece, and the answer: a frame, or none where the piece is used up.
#[derive(Clone, Copy, Debug, PartialEq, Eq)]
pub struct Pushed {
    pub next: CobsDecoder,
    pub answer: Result<Option<Frame>, PushError>,
}

// The piece goes on, with the decoder at this place and state.
fn going(place: usize, state: DecoderState) -> Pushed
    ensures { outcome result ≡ goes (at place state) }
{
    Pushed {
        next: CobsDecoder {
            place,
            skip: false,
            state,
        },
        answer: Ok(None),
    }
}

// A frame or a refusal ends the piece, and the next byte starts fresh.
fn ended(answer: Result<Option<Frame>, PushError>) -> Pushed
    ensures { outcome result ≡ stops new (told answer) }
{
    Pushed {
        next: CobsDecoder::new(),
        answer,
    }
}

/// The decoder further on in a piece.
#[derive(Clone, Copy)]
struct Went {
    next: CobsDecoder,
    i: usize,
}

// Inside a group: by sixteen bytes as far as that goes, then up to the group's end.
fn run(piece: &[u8], from: usize, dest: &mut [u8], to: usize, opened: Open) -> Went
    requires { (from ≤ length piece.now) × (to ≤ length dest.old) }
    ensures within { (from ≤ result.i) × (result.i ≤ length piece.now) }
    ensures decoded { Ahead (length dest.old) piece.now from (open_at opened to) dest.old result.i result.next dest.new }
{
    let Reached { i, place, group } = by_sixteen(piece, from, dest, to, opened);
    let left = usize::from(group.left);
    let most = left.min(piece.len() - i).min(dest.len() - place);
    let k = bytes(piece, i, dest, place, most);
    let rest = Open {
        code: group.code,
        left: (left - k) as u8,
    };
    Went {
        next: CobsDecoder {
            place: place + k,
            skip: false,
            state: rest.state(),
        },
        i: i + k,
    }
}

impl CobsDecoder {
    pub fn new() -> Self
        ensures { result ≡ new }
    {
        CobsDecoder {
            place: 0,
            skip: false,
            state: DecoderState::new(),
        }
    }

    // The decoder after a byte that had no room.
    fn skipping() -> Self
        ensures { result ≡ skipping }
    {
        CobsDecoder {
            place: 0,
            skip: true,
            state: DecoderState::Idle,
        }
    }

    // No state that a decoder on a destination of so many bytes comes to.
    fn bad(self, room: usize) -> bool
        ensures { result ≡ bad self room }
    {
        if room < self.place {
            return true;
        }
        match self.state {
            DecoderState::Idle => 0 < self.place,
            _ => self.skip,
        }
    }

    // A byte while the rest of an overfull frame is skipped.
    fn skipped(self, byte: u8) -> Pushed
        ensures { outcome result ≡ goes (if eqb byte 0 then new else self) }
    {
        if byte == 0 {
            return Pushed {
                next: CobsDecoder::new(),
                answer: Ok(None),
            };
        }
        Pushed {
            next: self,
            answer: Ok(None),
        }
    }

    // One byte, with which so many bytes of the piece are consumed. The state is not tested: a place beyond the destination has no room.
    fn take(self, dest: &mut [u8], byte: u8, consumed: usize) -> Pushed
        requires { 0 < consumed }
        ensures answer { outcome result ≡ further (consumed - 1) (byte_outcome self (length dest.old) byte) }
        ensures memory { dest.new ≡ byte_dest self byte dest.old }
    {
        let place = self.place;
        if self.skip {
            return self.skipped(byte);
        }
        let Stepped { state, result } = self.state.step(byte);
        let Ok(given) = result else {
            return ended(Err(PushError::InvalidFrame {
                decoded: place,
                consumed,
            }));
        };
        match given {
            DecodeResult::NoData | DecodeResult::DataStart => going(place, state),
            DecodeResult::DataComplete => ended(Ok(Some(Frame {
                size: place,
                parsed: consumed,
            }))),
            DecodeResult::DataContinue(b) => {
                if dest.len() <= place {
                    return Pushed {
                        next: CobsDecoder::skipping(),
                        answer: Err(PushError::TargetBufTooSmall { consumed }),
                    };
                }
                dest[place] = b;
                going(place + 1, state)
            }
        }
    }

    // Inside a frame, as far as no byte asks for an answer.
    fn ahead(self, dest: &mut [u8], piece: &[u8], i: usize) -> Went
        requires { i ≤ length piece.now }
        ensures within { (i ≤ result.i) × (result.i ≤ length piece.now) }
        ensures decoded { Ahead (length dest.old) piece.now i self dest.old result.i result.next dest.new }
    {
        let place = self.place;
        if self.skip {
            return Went { next: self, i };
        }
        if dest.len() < place {
            return Went { next: self, i };
        }
        let opened = match self.state {
            DecoderState::Idle => return Went { next: self, i },
            DecoderState::Grab(left) => Open { code: 1, left },
            DecoderState::GrabChain(left) => Open { code: 0xFF, left },
        };
        run(piece, i, dest, place, opened)
    }

    /// One byte, as a piece of that byte alone.
    pub fn feed(self, dest: &mut [u8], byte: u8) -> Pushed
        ensures answer { outcome result ≡ push_outcome self (length dest.old) (byte ∷ []) }
        ensures memory { dest.new ≡ push_dest self (byte ∷ []) dest.old }
    {
        if self.bad(dest.len()) {
            return Pushed {
                next: self,
                answer: Err(PushError::BadState),
            };
        }
        self.take(dest, byte, 1)
    }

    /// A piece, up to its first frame or refusal.
    pub fn push(self, dest: &mut [u8], piece: &[u8]) -> Pushed
        ensures answer { outcome result ≡ push_outcome self (length dest.old) piece.now }
        ensures memory { dest.new ≡ push_dest self piece.now dest.old }
    {
        if self.bad(dest.len()) {
            return Pushed {
                next: self,
                answer: Err(PushError::BadState),
            };
        }
        let mut decoder = self;
        let mut i: usize = 0;
        // Not a `for`: `ahead` goes on by as many bytes as ask for no answer.
        loop {
            let went = decoder.ahead(dest, piece, i);
            let further = went.next;
            i = went.i;
            if i == piece.len() {
                return Pushed {
                    next: further,
                    answer: Ok(None),
                };
            }
            let byte = piece[i];
            i += 1;
            let taken = further.take(dest, byte, i);
            if taken.answer != Ok(None) {
                return taken;
            }
            decoder = taken.next;
        }
    }
}
