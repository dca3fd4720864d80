//! States from four numbers in an array, and back into it.
ghost use Rattle.std.specs.Prelude.{◌≡◌};
ghost use Rattle.cobs.specs.Code.{over};
ghost use Rattle.probe.specs.Numbers.{no_encoder, encoder_from, encoder_of, encoder_numbers, no_decoder, state_from, decoder_from, decoder_of, tag, to_come, decoder_numbers};

use dec::state::DecoderState;
use dec::stream::CobsDecoder;
use enc::state::EncoderState;
use enc::stream::Encoder;

fn no_encoder() -> Encoder
    ensures { result ≡ no_encoder }
{
    Encoder {
        state: EncoderState { place: 0, code: 0 },
        full: false,
        count: 0,
    }
}

fn encoder_from(place: u64, code: u64, full: u64, count: u64) -> Encoder
    ensures { result ≡ encoder_from place code full count }
{
    let Ok(code) = u8::try_from(code) else {
        return no_encoder();
    };
    if 1 < full {
        return no_encoder();
    }
    Encoder {
        state: EncoderState {
            place: place as usize,
            code,
        },
        full: full == 1,
        count: count as usize,
    }
}

pub(crate) fn encoder_of(numbers: &[u64]) -> Encoder
    ensures { result ≡ encoder_of numbers.now }
{
    match *numbers {
        [place, code, full, count] => encoder_from(place, code, full, count),
        _ => no_encoder(),
    }
}

fn no_decoder() -> CobsDecoder
    ensures { result ≡ no_decoder }
{
    CobsDecoder {
        place: 1,
        skip: false,
        state: DecoderState::Idle,
    }
}

// A number for the state's kind, since it comes from C. Here and in crates/numbers: each list of numbers, four and 74, is a C form of its own.
pub(crate) fn state_from(tag: u64, left: u8) -> DecoderState
    ensures { result ≡ state_from tag left }
{
    match tag {
        0 => DecoderState::Idle,
        1 => DecoderState::Grab(left),
        _ => DecoderState::GrabChain(left),
    }
}

fn decoder_from(place: u64, skip: u64, tag: u64, left: u64) -> CobsDecoder
    ensures { result ≡ decoder_from place skip tag left }
{
    if 1 < skip || 2 < tag {
        return no_decoder();
    }
    let Ok(left) = u8::try_from(left) else {
        return no_decoder();
    };
    CobsDecoder {
        place: place as usize,
        skip: skip == 1,
        state: state_from(tag, left),
    }
}

pub(crate) fn decoder_of(numbers: &[u64]) -> CobsDecoder
    ensures { result ≡ decoder_of numbers.now }
{
    match *numbers {
        [place, skip, tag, left] => decoder_from(place, skip, tag, left),
        _ => no_decoder(),
    }
}

pub(crate) fn tag(state: DecoderState) -> u64
    ensures { result ≡ tag state }
{
    match state {
        DecoderState::Idle => 0,
        DecoderState::Grab(_) => 1,
        DecoderState::GrabChain(_) => 2,
    }
}

pub(crate) fn to_come(state: DecoderState) -> u8
    ensures { result ≡ to_come state }
{
    match state {
        DecoderState::Idle => 0,
        DecoderState::Grab(left) | DecoderState::GrabChain(left) => left,
    }
}

// The values over the front of the list, as far as it goes.
fn put(numbers: &mut [u64], values: [u64; 4])
    ensures { numbers.new ≡ over values numbers.old }
{
    let n = numbers.len().min(values.len());
    numbers[..n].copy_from_slice(&values[..n]);
}

pub(crate) fn put_encoder(e: Encoder, numbers: &mut [u64])
    ensures { numbers.new ≡ over (encoder_numbers e) numbers.old }
{
    let state = e.state;
    put(
        numbers,
        [
            state.place as u64,
            u64::from(state.code),
            u64::from(e.full),
            e.count as u64,
        ],
    );
}

pub(crate) fn put_decoder(d: CobsDecoder, numbers: &mut [u64])
    ensures { numbers.new ≡ over (decoder_numbers d) numbers.old }
{
    let state = d.state;
    put(
        numbers,
        [
            d.place as u64,
            u64::from(d.skip),
            tag(state),
            u64::from(to_come(state)),
        ],
    );
}
