//! The stream for C callers: frames out, and pieces in, with both states kept in a lent list of numbers.
ghost use Rattle.std.specs.Prelude.{◌≡◌, length};
ghost use Rattle.cobs.specs.Answers.{tell};
ghost use Rattle.record.specs.Frame.{frame_told, frame_dest};
ghost use Rattle.numbers.specs.Numbers.{read_of};
ghost use Rattle.capi.specs.Stream.{open_told, open_state, open_found, receive_told, receive_consumed, receive_state, receive_found, receive_buffer, receive_table, state_told, state_total};

use crate::told::{put, put_one};
use wire::Wire;

/// 01's number of BadState.
const BAD_STATE: u8 = 6;

/// The encoding of a message of 1 to 15 records, and one zero.
pub fn laksovuth_write_frame(
    message: &[u8],
    dest: &mut [u8],
    size: &mut usize,
    at: &mut usize,
) -> u8
    ensures answer { tell result size.new at.new ≡ frame_told message.now (length dest.old) }
    ensures memory { dest.new ≡ frame_dest message.now dest.old }
{
    put(record::frame::write_frame(message, dest), size, at)
}

/// How many numbers a receiving side keeps.
pub fn laksovuth_state_length() -> usize
    ensures { result ≡ 74 }
{
    numbers::COUNT
}

/// Opens a batch on a table. The numbers then name a fresh decoder and a receiver opened on it.
pub fn laksovuth_open(state: &mut [u64], batch: u16, table: &[u8]) -> u8
    ensures answer { tell result 0 0 ≡ open_told state.old }
    ensures memory { state.new ≡ open_state state.old batch (length table.now) }
    ensures named { read_of state.new ≡ open_found state.old batch (length table.now) }
{
    if state.len() != numbers::COUNT {
        return BAD_STATE;
    }
    numbers::write(Wire::open(batch, table), state);
    0
}

/// Takes a piece up to the end of its first frame. Afterwards the numbers name the states that the call left, so the next call
/// goes on from there.
pub fn laksovuth_receive(
    state: &mut [u64],
    buffer: &mut [u8],
    table: &mut [u8],
    piece: &[u8],
    value: &mut usize,
    at: &mut usize,
    consumed: &mut usize,
) -> u8
    ensures answer { tell result value.new at.new ≡ receive_told state.old buffer.old table.old piece.now }
    ensures taken { consumed.new ≡ receive_consumed state.old buffer.old table.old piece.now }
    ensures state { state.new ≡ receive_state state.old buffer.old table.old piece.now }
    ensures named { read_of state.new ≡ receive_found state.old buffer.old table.old piece.now }
    ensures decoded { buffer.new ≡ receive_buffer state.old buffer.old table.old piece.now }
    ensures stored { table.new ≡ receive_table state.old buffer.old table.old piece.now }
{
    let Some(states) = numbers::read(state) else {
        *value = 0;
        *at = 0;
        *consumed = 0;
        return BAD_STATE;
    };
    let receipt = wire::receive(states, buffer, table, piece);
    numbers::write(receipt.next, state);
    *consumed = receipt.consumed;
    put(receipt.answer, value, at)
}

/// How the batch stands.
pub fn laksovuth_stands(state: &[u64], table: &[u8], missing: &mut usize, total: &mut u64) -> u8
    ensures answer { tell result missing.new 0 ≡ state_told state.now (length table.now) }
    ensures total { total.new ≡ state_total state.now (length table.now) }
{
    *total = 0;
    let Some(states) = numbers::read(state) else {
        *missing = 0;
        return BAD_STATE;
    };
    let stands = batch::stands(states.receiver, table);
    if stands.is_ok() {
        *total = states.receiver.total as u64;
    }
    put_one(stands, missing)
}
