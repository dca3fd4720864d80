//! The streaming calls over the C convention, for rust/compare alone: a state crosses as four numbers in a lent array.
#![tactic(auto)]

mod numbers;
mod told;

ghost use Rattle.std.specs.Prelude.{◌≡◌, length};
ghost use Rattle.cobs.specs.Code.{masked};
ghost use Rattle.cobs.specs.Answers.{tell};
ghost use Rattle.cobs.specs.OneShot.{in_place_told, in_place_dest, size_alone};
ghost use Rattle.enc.specs.Stream.{push_told, push_dest, finish_told, finish_dest};
ghost use Rattle.dec.specs.State.{stepped, given_told};
ghost use Rattle.dec.specs.Stream.{push_dest as decode_dest};
ghost use Rattle.probe.specs.Numbers.{encoder_of, decoder_of, state_from, tag, to_come, start_told, start_numbers, push_numbers, decoded, decode_numbers};

use dec::state::Stepped;
use enc::stream::Encoder;
use numbers::{decoder_of, encoder_of, put_decoder, put_encoder, state_from, tag, to_come};
use told::{accepted, answered, finished, gave, placed};

/// An encoder for this buffer, in the array.
#[unsafe(no_mangle)]
pub extern "C" fn probe_encoder_start(state: &mut [u64], dest: &[u8]) -> u8
    ensures answer { tell result 0 0 ≡ start_told state.old (length dest.now) }
    ensures next { state.new ≡ start_numbers state.old (length dest.now) }
{
    if state.len() != 4 {
        return 6;
    }
    let Ok(encoder) = Encoder::start(dest) else {
        return 4;
    };
    put_encoder(encoder, state);
    0
}

/// The encoder takes a piece, or refuses it.
#[unsafe(no_mangle)]
pub extern "C" fn probe_encoder_push(state: &mut [u64], dest: &mut [u8], piece: &[u8]) -> u8
    ensures answer { tell result 0 0 ≡ push_told (encoder_of state.old) piece.now (length dest.old) }
    ensures next { state.new ≡ push_numbers state.old piece.now (length dest.old) }
    ensures memory { dest.new ≡ push_dest (encoder_of state.old) piece.now dest.old }
{
    let encoder = encoder_of(state);
    let enc::stream::Pushed { next, answer } = encoder.push(dest, piece);
    let number = accepted(answer);
    // By the number, as `push_numbers` of specs/ has it.
    if number != 0 {
        return number;
    }
    put_encoder(next, state);
    0
}

/// The encoder writes its open code; the encoding's length.
#[unsafe(no_mangle)]
pub extern "C" fn probe_encoder_finalize(state: &[u64], dest: &mut [u8], size: &mut usize) -> u8
    ensures answer { tell result size.new 0 ≡ finish_told (encoder_of state.now) (length dest.old) }
    ensures memory { dest.new ≡ finish_dest (encoder_of state.now) dest.old }
{
    let encoder = encoder_of(state);
    finished(encoder.finalize(dest), size)
}

/// The decoder takes a piece up to its first frame or refusal.
#[unsafe(no_mangle)]
pub extern "C" fn probe_decoder_push(
    state: &mut [u64],
    dest: &mut [u8],
    piece: &[u8],
    size: &mut usize,
    consumed: &mut usize,
) -> u8
    ensures answer { tell result size.new consumed.new ≡ (decoded state.old piece.now (length dest.old)).answer }
    ensures next { state.new ≡ decode_numbers state.old piece.now (length dest.old) }
    ensures memory { dest.new ≡ decode_dest (decoder_of state.old) piece.now dest.old }
{
    let decoder = decoder_of(state);
    let dec::stream::Pushed { next, answer } = decoder.push(dest, piece);
    let number = answered(answer, size, consumed);
    // By the number, as `decode_numbers` of specs/ has it.
    if number == 6 {
        return 6;
    }
    put_decoder(next, state);
    number
}

/// One byte to the decoder's state alone; the state as its number and the bytes left. `place` is where in the frame the byte stands.
#[unsafe(no_mangle)]
pub extern "C" fn probe_decoder_step(
    state: &mut u64,
    left: &mut u8,
    byte: u8,
    given: &mut u8,
    place: &mut u8,
) -> u8
    ensures answer { tell result given.new place.new ≡ given_told (state_from state.old left.old) byte }
    ensures next { state.new ≡ tag (stepped (state_from state.old left.old) byte).state }
    ensures rest { left.new ≡ to_come (stepped (state_from state.old left.old) byte).state }
{
    let before = state_from(*state, *left);
    let Stepped {
        state: after,
        result,
    } = before.step(byte);
    *state = tag(after);
    *left = to_come(after);
    gave(result, given, place)
}

/// The buffer XORed with the sentinel, then decoded in place.
#[unsafe(no_mangle)]
pub extern "C" fn probe_decode_in_place_with_sentinel(
    buf: &mut [u8],
    sentinel: u8,
    size: &mut usize,
) -> u8
    ensures answer { tell result size.new 0 ≡ size_alone (in_place_told (masked sentinel buf.old)) }
    ensures memory { buf.new ≡ in_place_dest (masked sentinel buf.old) }
{
    placed(
        place::sentinel::decode_in_place_with_sentinel(buf, sentinel),
        size,
    )
}
