//! The table's slots, one for each index: the only place that knows where a slot stands and how long it is.
ghost use Rattle.std.specs.Prelude.{◌≡◌, drop};
ghost use Rattle.batch.specs.State.{slot_at, room_for};
ghost use Rattle.batch.specs.Verdict.{stored};
ghost use Rattle.batch.specs.Helpers.{kept_for};

use crate::judge::Effect;
use record::frame::SIZE;

// The most slots.
pub(crate) const MOST: usize = 4_096;

pub(crate) fn slot_at(index: u16) -> usize
    ensures { result ≡ slot_at index }
{
    (index as usize) * SIZE
}

// How many slots there are in n bytes.
pub(crate) fn room_for(n: usize) -> usize
    ensures { result ≡ room_for n }
{
    n / SIZE
}

// The bytes that stand where an effect stores its record.
pub(crate) fn kept(effect: Effect, table: &[u8]) -> [u8; 16]
    ensures { result ≡ kept_for effect table.now }
{
    let mut bytes = [0u8; 16];
    if let Effect::Store { index, .. } = effect {
        blocks::copy16(&mut bytes, 0, table, slot_at(index));
    }
    bytes
}

// Stores the 16 bytes at `at`, if the effect is to store its record.
pub(crate) fn store(effect: Effect, table: &mut [u8], bytes: &[u8], at: usize)
    ensures { table.new ≡ stored effect table.old (drop at bytes.now) }
{
    if let Effect::Store { index, .. } = effect {
        blocks::copy16(table, slot_at(index), bytes, at);
    }
}
