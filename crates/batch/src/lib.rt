//! The batch receiver. A frame is taken record by record, its particles stored as they come; at a refusal each slot gets
//! its bytes back, and the state is the one that went in.
#![tactic(auto)]

pub mod judge;
mod slots;
mod state;

ghost use Rattle.std.specs.Prelude.{◌≡◌, false, ◌%◌, ◌≤◌, length, OnOk};
ghost use Rattle.batch.specs.State.{opened, is_bad, stands_told, told_standing};
ghost use Rattle.batch.specs.Frame.{told, outcome, next_after, table_after, accept_told, accept_next, accept_table};
ghost use Rattle.batch.specs.Helpers.{rest, answer_by};

use cobs::refusals::BadState;
use marks::Marks;
use record::frame::SIZE;
use std::error::Error;
use std::fmt;

/// One batch of one board. A mark says that the particle of that index is in its slot.
#[derive(Clone, Copy, Debug, PartialEq, Eq)]
pub struct Receiver {
    pub marks: Marks,
    pub total: u32,
    pub close: Option<Close>,
    pub slots: usize,
    pub batch: u16,
}

/// A close: the sender's count and total.
#[derive(Clone, Copy, Debug, PartialEq, Eq)]
pub struct Close {
    pub count: usize,
    pub total: u32,
}

/// How a batch stands: no close yet, so many missing, all there, or all there with another total than the close's.
#[derive(Clone, Copy, Debug, PartialEq, Eq)]
pub enum Standing {
    Open,
    Missing(usize),
    Complete,
    Differs,
}

/// Why a frame is refused, with the record's number from 0.
#[derive(Clone, Copy, Debug, PartialEq, Eq)]
pub enum Refusal {
    BadState,
    BadLength,
    BadRecord(usize),
    Stale(usize),
    Ahead(usize),
    NoRoom(usize),
    BeyondClose(usize),
    Conflict(usize),
}

/// The state after a frame, and its answer: how the batch stands then, or the refusal. Beside it, since states go out by value,
/// after a refusal too.
#[derive(Clone, Copy, Debug, PartialEq, Eq)]
pub struct Accepted {
    pub next: Receiver,
    pub answer: Result<Standing, Refusal>,
}

impl fmt::Display for Standing {
    fn fmt<W: fmt::Write>(&self, f: &mut fmt::Formatter<W>) -> fmt::Result {
        match self {
            Standing::Open => f.write_str("Open"),
            Standing::Missing(n) => write!(f, "Missing {n}"),
            Standing::Complete => f.write_str("Complete"),
            Standing::Differs => f.write_str("Differs"),
        }
    }
}

impl fmt::Display for Refusal {
    fn fmt<W: fmt::Write>(&self, f: &mut fmt::Formatter<W>) -> fmt::Result {
        match self {
            Refusal::BadState => f.write_str("BadState"),
            Refusal::BadLength => f.write_str("BadLength"),
            Refusal::BadRecord(k) => write!(f, "BadRecord {k}"),
            Refusal::Stale(k) => write!(f, "Stale {k}"),
            Refusal::Ahead(k) => write!(f, "Ahead {k}"),
            Refusal::NoRoom(k) => write!(f, "NoRoom {k}"),
            Refusal::BeyondClose(k) => write!(f, "BeyondClose {k}"),
            Refusal::Conflict(k) => write!(f, "Conflict {k}"),
        }
    }
}

impl Error for Refusal {}

/// Opens a batch: no marks, no total, no close. The table's bytes stay.
pub fn open(batch: u16, table: &[u8]) -> Receiver
    ensures { result ≡ opened batch (length table.now) }
{
    Receiver {
        marks: marks::none(),
        total: 0,
        close: None,
        slots: slots::room_for(table.len()).min(slots::MOST),
        batch,
    }
}

/// Takes a frame's message whole, or refuses it whole.
pub fn accept(receiver: Receiver, table: &mut [u8], frame: &[u8]) -> Accepted
    ensures answer { told result.answer ≡ accept_told receiver table.old frame.now }
    ensures state { result.next ≡ accept_next receiver table.old frame.now }
    ensures memory { table.new ≡ accept_table receiver table.old frame.now }
{
    let mut next = receiver;
    match whole(&mut next, table, frame) {
        Ok(()) => Accepted {
            next,
            answer: Ok(next.standing()),
        },
        Err(refusal) => Accepted {
            next: receiver,
            answer: Err(refusal),
        },
    }
}

/// How the batch stands.
pub fn stands(receiver: Receiver, table: &[u8]) -> Result<Standing, BadState>
    ensures { told_standing result ≡ stands_told receiver (length table.now) }
{
    if receiver.is_bad(table.len()) {
        return Err(BadState);
    }
    Ok(receiver.standing())
}

// The whole frame. The state is left as it is after the records; after a refusal it is of no use.
fn whole(receiver: &mut Receiver, table: &mut [u8], frame: &[u8]) -> Result<(), Refusal>
    ensures answer { result ≡ answer_by (outcome receiver.old table.old frame.now) }
    ensures state { OnOk result (receiver.new ≡ next_after receiver.old (outcome receiver.old table.old frame.now)) }
    ensures memory { table.new ≡ table_after table.old (outcome receiver.old table.old frame.now) }
{
    if receiver.is_bad(table.len()) {
        return Err(Refusal::BadState);
    }
    if record::frame::is_bad_length(frame.len()) {
        return Err(Refusal::BadLength);
    }
    take(receiver, table, frame, 0)
}

// The records from `at` on. A level keeps the 16 bytes that its record's particle is stored over, and puts them back if a
// later record is refused; a frame has 15 levels at most. It calls itself for that, no loop: without a heap they stand on the
// stack. The frame goes down whole with a place, not in chunks: the record's number is
// `at / 16`, and the laws speak of the rest of the frame from `at`.
fn take(receiver: &mut Receiver, table: &mut [u8], frame: &[u8], at: usize) -> Result<(), Refusal>
    requires table_value { (is_bad receiver.old (length table.old) ≡ false) × (length receiver.old.marks ≡ 64) }
    requires at_in_bounds { (at ≤ length frame.now) × (at % 16 ≡ 0) × (length frame.now % 16 ≡ 0) }
    ensures answer { result ≡ answer_by (rest frame.now at receiver.old table.old) }
    ensures state { OnOk result (receiver.new ≡ next_after receiver.old (rest frame.now at receiver.old table.old)) }
    ensures memory { table.new ≡ table_after table.old (rest frame.now at receiver.old table.old) }
{
    if at == frame.len() {
        return Ok(());
    }
    let effect = receiver.judge(frame, at)?;
    let kept = slots::kept(effect, table);
    slots::store(effect, table, frame, at);
    receiver.apply(effect);
    let rest = take(receiver, table, frame, at + SIZE);
    if rest.is_err() {
        slots::store(effect, table, &kept, 0);
    }
    rest
}
