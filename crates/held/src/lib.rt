//! The streaming encoder that holds its output slice: thin over `enc::stream::Encoder`, which does the work by value.
#![tactic(auto)]

ghost use Rattle.std.specs.Prelude.{◌≡◌, length};
ghost use Rattle.enc.specs.Stream.{fresh, start_told, told, push_told, told_finished, finish_told, finish_dest};
ghost use Rattle.held.specs.Held.{told_opened, over, pushed, told_two, two_told, two_dest};

use cobs::refusals::{BadState, DestBufTooSmall};
use enc::stream::{Encoder, PushError, Pushed};

/// The lent buffer, and the encoder that writes to it.
#[derive(Debug, Drop)]
pub struct CobsEncoder<'a> {
    pub dest: &'a mut [u8],
    pub encoder: Encoder,
}

/// The encoder beside the answer, and not within it: `new` promises one after a refusal too, which answers BadState to everything.
#[derive(Debug, Drop)]
pub struct NewEncoder<'a> {
    pub encoder: CobsEncoder<'a>,
    pub answer: Result<(), DestBufTooSmall>,
}

/// What the four steps of `encode_two` answered: the start, two pushes, and the end.
#[derive(Clone, Copy, Debug, PartialEq, Eq)]
pub struct TwoPieces {
    pub opened: Result<(), DestBufTooSmall>,
    pub first: Result<(), PushError>,
    pub second: Result<(), PushError>,
    pub finished: Result<usize, BadState>,
}

impl<'a> CobsEncoder<'a> {
    /// An encoder on this buffer, which it leaves as it is.
    pub fn new(dest: &'a mut [u8]) -> NewEncoder<'a>
        ensures { (told_opened result.answer ≡ start_told (length dest.old))
            × (result.encoder ≡ over dest.entry) }
    {
        let (encoder, answer) = start_on(&mut *dest);
        NewEncoder {
            encoder: CobsEncoder { dest, encoder },
            answer,
        }
    }

    /// Takes the whole piece, or refuses it and changes nothing.
    pub fn push(&mut self, piece: &[u8]) -> Result<(), PushError>
        ensures { (told result ≡ push_told self.old.encoder piece.now (length self.old.dest.now))
            × (self.new ≡ pushed self.old piece.now) }
    {
        let Pushed { answer, next } = self.encoder.push(self.dest, piece);
        self.encoder = next;
        answer
    }

    /// Writes the open code and answers the encoding's length. The slice is free again.
    pub fn finalize(self) -> Result<usize, BadState>
        ensures { (told_finished result ≡ finish_told self.entry.encoder (length self.entry.dest.now))
            × (self.exit.0.now ≡ finish_dest self.entry.encoder self.entry.dest.now) }
    {
        self.encoder.finalize(self.dest)
    }
}

/// Two pieces through one encoder, from the buffer lent to the buffer back.
pub fn encode_two(dest: &mut [u8], first: &[u8], second: &[u8]) -> TwoPieces
    ensures { (told_two result ≡ two_told dest.old first.now second.now)
        × (dest.new ≡ two_dest dest.old first.now second.now) }
{
    // As `new` begins. Not `new` itself: tried, and what the slice ends as, lent by a struct within its answer, did not prove.
    let (encoder, opened) = start_on(&mut *dest);
    let mut encoder = CobsEncoder { dest, encoder };
    let first = encoder.push(first);
    let second = encoder.push(second);
    let finished = encoder.finalize();
    TwoPieces {
        opened,
        first,
        second,
        finished,
    }
}

// The encoder to begin with, and whether it could start. Where none can it is a fresh one all the same, which on a buffer of length 0
// is a BadState. The slice is only read; it is taken as `new` has it.
fn start_on(dest: &mut [u8]) -> (Encoder, Result<(), DestBufTooSmall>)
    ensures answer { told_opened result.1 ≡ start_told (length dest.old) }
    ensures encoder { result.0 ≡ fresh }
    ensures memory { dest.new ≡ dest.old }
{
    match Encoder::start(dest) {
        Ok(encoder) => (encoder, Ok(())),
        Err(refusal) => (Encoder::new(), Err(refusal)),
    }
}
