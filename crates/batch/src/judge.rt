//! What a record asks for, against the state that the earlier ones left: 8; 9 or 10; 11; 12 or 13.
ghost use Rattle.std.specs.Prelude.{◌≡◌, ◌/◌, drop};
ghost use Rattle.batch.specs.Verdict.{batch_in, on_particle, on_close, on_ours, on_read};
ghost use Rattle.record.specs.Record.{read_of};

use crate::{Close, Receiver, Refusal};
use record::frame::SIZE;
use record::{Class, Record};

/// What a record that is not refused does.
#[derive(Clone, Copy, Debug, PartialEq, Eq)]
pub enum Effect {
    Repeat,
    Store { index: u16, weight: u32 },
    Close(Close),
}

fn batch_in(item: Record) -> u16
    ensures { result ≡ batch_in item }
{
    match item {
        Record::Particle { batch, .. } | Record::Close { batch, .. } => batch,
    }
}

impl Receiver {
    // The record at `at`.
    pub(crate) fn judge(&self, frame: &[u8], at: usize) -> Result<Effect, Refusal>
        ensures { result ≡ on_read (at / 16) self.now (read_of 0 (drop at frame.now)) }
    {
        let number = at / SIZE;
        let Ok(item) = record::read(frame, at) else {
            return Err(Refusal::BadRecord(number));
        };
        match record::class_of(batch_in(item), self.batch) {
            Class::Ours => self.ours(number, item),
            Class::Ahead => Err(Refusal::Ahead(number)),
            Class::Stale => Err(Refusal::Stale(number)),
        }
    }

    fn ours(&self, number: usize, item: Record) -> Result<Effect, Refusal>
        ensures { result ≡ on_ours number self.now item }
    {
        match item {
            Record::Particle { index, weight, .. } => self.particle(number, index, weight),
            Record::Close { count, total, .. } => {
                let count = count as usize;
                self.close(number, Close { count, total })
            }
        }
    }

    fn particle(&self, number: usize, index: u16, weight: u32) -> Result<Effect, Refusal>
        ensures { result ≡ on_particle number self.now index weight }
    {
        if index as usize >= self.slots {
            return Err(Refusal::NoRoom(number));
        }
        if index as usize >= self.limit() {
            return Err(Refusal::BeyondClose(number));
        }
        if marks::is_marked(&self.marks, index as usize) {
            return Ok(Effect::Repeat);
        }
        Ok(Effect::Store { index, weight })
    }

    fn close(&self, number: usize, close: Close) -> Result<Effect, Refusal>
        ensures { result ≡ on_close number self.now close }
    {
        if close.count > self.slots {
            return Err(Refusal::NoRoom(number));
        }
        if let Some(first) = self.close {
            if first != close {
                return Err(Refusal::Conflict(number));
            }
            return Ok(Effect::Repeat);
        }
        if marks::count(&self.marks) > marks::count_below(&self.marks, close.count) {
            return Err(Refusal::Conflict(number));
        }
        Ok(Effect::Close(close))
    }
}
