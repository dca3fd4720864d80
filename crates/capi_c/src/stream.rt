//! The workstation's calls.
ghost use Rattle.std.specs.Prelude.{◌≡◌, length};
ghost use Rattle.cobs.specs.Answers.{tell};
ghost use Rattle.record.specs.Frame.{frame_told, frame_dest};
ghost use Rattle.numbers.specs.Numbers.{read_of};
ghost use Rattle.capi.specs.Stream.{open_told, open_state, open_found, receive_told, receive_consumed, receive_state, receive_found, receive_buffer, receive_table, state_told, state_total};

/// The encoding of a message of 1 to 15 records, and one zero.
#[unsafe(no_mangle)]
pub extern "C" fn laksovuth_write_frame(
    message: &[u8],
    dest: &mut [u8],
    size: &mut usize,
    at: &mut usize,
) -> u8
    ensures answer { tell result size.new at.new ≡ frame_told message.now (length dest.old) }
    ensures memory { dest.new ≡ frame_dest message.now dest.old }
{
    capi::stream::laksovuth_write_frame(message, dest, size, at)
}

/// How many numbers a receiving side keeps.
#[unsafe(no_mangle)]
pub extern "C" fn laksovuth_state_length() -> usize
    ensures { result ≡ 74 }
{
    capi::stream::laksovuth_state_length()
}

/// Opens a batch on a table. The numbers then name a fresh decoder and a receiver opened on it.
#[unsafe(no_mangle)]
pub extern "C" fn laksovuth_open(state: &mut [u64], batch: u16, table: &[u8]) -> u8
    ensures answer { tell result 0 0 ≡ open_told state.old }
    ensures memory { state.new ≡ open_state state.old batch (length table.now) }
    ensures named { read_of state.new ≡ open_found state.old batch (length table.now) }
{
    capi::stream::laksovuth_open(state, batch, table)
}

/// Takes a piece up to the end of its first frame. Afterwards the numbers name the states that the call left, so the next call
/// goes on from there.
#[unsafe(no_mangle)]
pub extern "C" fn laksovuth_receive(
    state: &mut [u64],
    buffer: &mut [u8],
    table: &mut [u8],
    piece: &[u8],
    value: &mut usize,
    at: &mut usize,
    consumed: &mut usize,
) -> u8
    ensures answer { tell result value.new at.new ≡ receive_told state.old buffer.old table.old piece.now }
    ensures taken { consumed.new ≡ receive_consumed state.old buffer.old table.old piece.now }
    ensures state { state.new ≡ receive_state state.old buffer.old table.old piece.now }
    ensures named { read_of state.new ≡ receive_found state.old buffer.old table.old piece.now }
    ensures decoded { buffer.new ≡ receive_buffer state.old buffer.old table.old piece.now }
    ensures stored { table.new ≡ receive_table state.old buffer.old table.old piece.now }
{
    capi::stream::laksovuth_receive(state, buffer, table, piece, value, at, consumed)
}

/// How the batch stands.
#[unsafe(no_mangle)]
pub extern "C" fn laksovuth_stands(
    state: &[u64],
    table: &[u8],
    missing: &mut usize,
    total: &mut u64,
) -> u8
    ensures answer { tell result missing.new 0 ≡ state_told state.now (length table.now) }
    ensures total { total.new ≡ state_total state.now (length table.now) }
{
    capi::stream::laksovuth_stands(state, table, missing, total)
}
