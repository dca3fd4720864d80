//! One call from a piece of the wire to the batch receiver.
#![tactic(auto)]

ghost use Rattle.std.specs.Prelude.{◌≡◌, length};
ghost use Rattle.batch.specs.Frame.{told};
ghost use Rattle.wire.specs.Loop.{received};
ghost use Rattle.wire.specs.Receive.{accepting};
ghost use Rattle.wire.specs.Call.{of_batch, told_received, start, calls, leaves};

use batch::{Receiver, Standing};
use dec::stream::{CobsDecoder, PushError};
use std::error::Error;
use std::fmt;

/// Both states of a receiving side: the decoder's, and the receiver's.
#[derive(Clone, Copy, Debug, PartialEq, Eq)]
pub struct Wire {
    pub decoder: CobsDecoder,
    pub receiver: Receiver,
}

/// Why a piece or the frame it ended is refused, by the decoder or by the receiver. Flat: 01's refusals by name, and BadState of
/// either state is one case, which a nested enum would have twice.
#[derive(Clone, Copy, Debug, PartialEq, Eq)]
pub enum Refusal {
    InvalidFrame { decoded: usize },
    TargetBufTooSmall,
    BadState,
    BadLength,
    BadRecord(usize),
    Stale(usize),
    Ahead(usize),
    NoRoom(usize),
    BeyondClose(usize),
    Conflict(usize),
}

impl From<batch::Refusal> for Refusal {
    ghost from_gives = { λ refusal r. r ≡ of_batch refusal };

    fn from(refusal: batch::Refusal) -> Refusal {
        match refusal {
            batch::Refusal::BadState => Refusal::BadState,
            batch::Refusal::BadLength => Refusal::BadLength,
            batch::Refusal::BadRecord(k) => Refusal::BadRecord(k),
            batch::Refusal::Stale(k) => Refusal::Stale(k),
            batch::Refusal::Ahead(k) => Refusal::Ahead(k),
            batch::Refusal::NoRoom(k) => Refusal::NoRoom(k),
            batch::Refusal::BeyondClose(k) => Refusal::BeyondClose(k),
            batch::Refusal::Conflict(k) => Refusal::Conflict(k),
        }
    }
}

impl fmt::Display for Refusal {
    fn fmt<W: fmt::Write>(&self, f: &mut fmt::Formatter<W>) -> fmt::Result {
        match self {
            Refusal::InvalidFrame { decoded } => write!(f, "InvalidFrame {decoded}"),
            Refusal::TargetBufTooSmall => f.write_str("TargetBufTooSmall"),
            Refusal::BadState => f.write_str("BadState"),
            Refusal::BadLength => f.write_str("BadLength"),
            Refusal::BadRecord(k) => write!(f, "BadRecord {k}"),
            Refusal::Stale(k) => write!(f, "Stale {k}"),
            Refusal::Ahead(k) => write!(f, "Ahead {k}"),
            Refusal::NoRoom(k) => write!(f, "NoRoom {k}"),
            Refusal::BeyondClose(k) => write!(f, "BeyondClose {k}"),
            Refusal::Conflict(k) => write!(f, "Conflict {k}"),
        }
    }
}

impl Error for Refusal {}

/// The states after a call, its answer, and how many bytes of the piece it took. The answer is how the batch stands after the
/// frame that ended in the piece, or none if no frame ended in it.
#[derive(Clone, Copy, Debug, PartialEq, Eq)]
pub struct Receipt {
    pub next: Wire,
    pub answer: Result<Option<Standing>, Refusal>,
    pub consumed: usize,
}

impl Wire {
    /// A fresh decoder, and a receiver opened on a batch.
    pub fn open(batch: u16, table: &[u8]) -> Self
        ensures { result ≡ start batch (length table.now) }
    {
        let decoder = CobsDecoder::new();
        let receiver = batch::open(batch, table);
        Wire { decoder, receiver }
    }
}

// The receiver's answer.
fn said(answer: Result<Standing, batch::Refusal>) -> Result<Option<Standing>, Refusal>
    ensures { told_received result ≡ told answer }
{
    Ok(Some(answer?))
}

// The two states by themselves: taken as one `Wire`, a frame of one record costs 2,806 instructions for 2,620.
fn handed(
    decoder: CobsDecoder,
    receiver: Receiver,
    answer: Result<Option<Standing>, Refusal>,
    consumed: usize,
) -> Receipt
    ensures { (result.next.decoder ≡ decoder) × (result.next.receiver ≡ receiver) × (result.answer ≡ answer) × (result.consumed ≡ consumed) }
{
    let next = Wire { decoder, receiver };
    Receipt {
        next,
        answer,
        consumed,
    }
}

/// Decodes the piece up to the end of its first frame, and hands that frame to the receiver first. The states go by value and the three
/// slices are lent, as 01's form has it.
pub fn receive(wire: Wire, buffer: &mut [u8], table: &mut [u8], piece: &[u8]) -> Receipt
    ensures { leaves result buffer.new table.new ≡ received accepting (calls wire buffer.old table.old) piece.now }
{
    let decoder = wire.decoder;
    let receiver = wire.receiver;
    if batch::stands(receiver, table).is_err() {
        return handed(decoder, receiver, Err(Refusal::BadState), 0);
    }
    let pushed = decoder.push(buffer, piece);
    let next = pushed.next;
    let answer = pushed.answer;
    match answer {
        Ok(None) => handed(next, receiver, Ok(None), piece.len()),
        Ok(Some(frame)) => {
            let accepted = batch::accept(receiver, table, &buffer[..frame.size]);
            handed(next, accepted.next, said(accepted.answer), frame.parsed)
        }
        Err(PushError::InvalidFrame { decoded, consumed }) => {
            handed(
                next,
                receiver,
                Err(Refusal::InvalidFrame { decoded }),
                consumed,
            )
        }
        Err(PushError::TargetBufTooSmall { consumed }) => {
            handed(next, receiver, Err(Refusal::TargetBufTooSmall), consumed)
        }
        Err(PushError::BadState) => handed(next, receiver, Err(Refusal::BadState), 0),
    }
}
