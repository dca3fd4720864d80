//! The batch receiver: it and its table stay from line to line.
use crate::read::{Parts, Words};
use crate::say;
use batch::{Close, Receiver};
use std::io;

fn shown(rt: &impl Print, r: Receiver, table: &[u8]) -> io::Result<()> {
    print!(rt;
        "batch {}, slots {}, total {}, stands ",
        r.batch, r.slots, r.total
    )?;
    say::answer(rt, batch::stands(r, table))
}

fn made(rt: &impl Print, r: Receiver, table: &[u8]) -> io::Result<Receiver> {
    shown(rt, r, table)?;
    Ok(r)
}

fn accept(rt: &impl Print, r: Receiver, frame: &[u8], table: &mut [u8]) -> io::Result<Receiver> {
    let accepted = batch::accept(r, table, frame);
    let next = accepted.next;
    say::answer(rt, accepted.answer)?;
    print!(rt; "; ")?;
    shown(rt, next, table)?;
    say::holds(rt, table)?;
    Ok(next)
}

fn stands(rt: &impl Print, r: Receiver, table: &[u8]) -> io::Result<Receiver> {
    say::answer(rt, batch::stands(r, table))?;
    Ok(r)
}

fn taken(count: usize, total: usize) -> Close {
    Close {
        count,
        total: (total % 4_294_967_296) as u32,
    }
}

// A receiver of these numbers; the marks are those of the first 64 indices.
fn given(batch: usize, slots: usize, total: usize, first: usize, close: Option<Close>) -> Receiver {
    let mut marks = [0u64; 64];
    marks[0] = first as u64;
    Receiver {
        marks,
        total: (total % 4_294_967_296) as u32,
        close,
        slots,
        batch: (batch % 65_536) as u16,
    }
}

/// `batch::open BATCH on TABLE`, `batch::accept of FRAME`, `batch::stands on TABLE`; and a receiver of given numbers,
/// `Receiver BATCH SLOTS TOTAL MARKS`, with the marks of the first 64 indices as a number, or with COUNT TOTAL of a close
/// after them, also with `on TABLE`.
#[derive(Clone, Copy)]
pub(crate) enum Call {
    Open(u16),
    Accept,
    Stands,
    Given(Receiver),
}

impl Call {
    pub(crate) fn named(words: Words) -> Option<Call> {
        match words {
            ("batch::open", [batch], Parts::On) => Some(Call::Open((*batch % 65_536) as u16)),
            ("batch::accept", [], Parts::Of) => Some(Call::Accept),
            ("batch::stands", [], Parts::On) => Some(Call::Stands),
            ("Receiver", [batch, slots, total, marks], Parts::Neither | Parts::On) => Some(
                Call::Given(given(*batch, *slots, *total, *marks, None)),
            ),
            ("Receiver", [batch, slots, total, marks, count, of], Parts::Neither | Parts::On) =>
                Some(Call::Given(given(*batch, *slots, *total, *marks, Some(taken(*count, *of))))),
            _ => None,
        }
    }
}

pub(crate) fn run(
    rt: &impl Print,
    call: Call,
    r: Receiver,
    m: &[u8],
    table: &mut [u8],
) -> io::Result<Receiver> {
    match call {
        Call::Open(number) => made(rt, batch::open(number, table), table),
        Call::Accept => accept(rt, r, m, table),
        Call::Stands => stands(rt, r, table),
        Call::Given(receiver) => made(rt, receiver, table),
    }
}
