//! The ten numbers before the marks, and the fields read from them.
ghost use Rattle.std.specs.Prelude.{◌≡◌, [], ◌∷◌, ◌<◌, drop};
ghost use Rattle.numbers.specs.Numbers.{state_numbers, close_numbers, head_of, state_in, close_in, wire_in};
ghost use Rattle.numbers.specs.Helpers.{Fits};

use batch::{Close, Receiver};
use dec::state::DecoderState;
use dec::stream::CobsDecoder;
use wire::Wire;

// Numbers for a state's kind and for whether a close is taken, since C keeps both as numbers: `state_numbers` and `close_numbers` of specs/.
// crates/probe turns a decoder's state into numbers too: each list of numbers, 74 and four, is a C form of its own.
#[derive(Clone, Copy, Debug, PartialEq, Eq)]
struct StateNumbers {
    kind: u64,
    left: u64,
}

#[derive(Clone, Copy, Debug, PartialEq, Eq)]
struct CloseNumbers {
    taken: u64,
    count: u64,
    total: u64,
}

fn state_numbers(state: DecoderState) -> StateNumbers
    ensures numbers { result.kind ∷ result.left ∷ [] ≡ state_numbers state }
    ensures fits { result.left < 256 }
{
    match state {
        DecoderState::Idle => StateNumbers { kind: 0, left: 0 },
        DecoderState::Grab(left) => StateNumbers {
            kind: 1,
            left: left as u64,
        },
        DecoderState::GrabChain(left) => StateNumbers {
            kind: 2,
            left: left as u64,
        },
    }
}

fn close_numbers(close: Option<Close>) -> CloseNumbers
    ensures numbers { result.taken ∷ result.count ∷ result.total ∷ [] ≡ close_numbers close }
    ensures fits { result.total < 4294967296 }
{
    match close {
        None => CloseNumbers {
            taken: 0,
            count: 0,
            total: 0,
        },
        Some(close) => CloseNumbers {
            taken: 1,
            count: close.count as u64,
            total: close.total as u64,
        },
    }
}

pub(crate) fn head_of(wire: Wire) -> [u64; 10]
    ensures head { result ≡ head_of wire }
    ensures fits { Fits wire }
{
    let Wire { decoder, receiver } = wire;
    let state = state_numbers(decoder.state);
    let close = close_numbers(receiver.close);
    [
        decoder.place as u64,
        u64::from(decoder.skip),
        state.kind,
        state.left,
        receiver.total as u64,
        close.taken,
        close.count,
        close.total,
        receiver.slots as u64,
        receiver.batch as u64,
    ]
}

fn state_in(kind: u64, left: u64) -> DecoderState
    ensures { result ≡ state_in kind left }
{
    let left = (left % 256) as u8;
    match kind {
        0 => DecoderState::Idle,
        1 => DecoderState::Grab(left),
        _ => DecoderState::GrabChain(left),
    }
}

fn close_in(taken: u64, count: u64, total: u64) -> Option<Close>
    ensures { result ≡ close_in taken count total }
{
    if taken == 0 {
        return None;
    }
    Some(Close {
        count: count as usize,
        total: (total % 4_294_967_296) as u32,
    })
}

// The words of the marks.
fn marks_in(numbers: &[u64; 74]) -> [u64; 64]
    ensures { result ≡ drop 10 numbers.now }
{
    numbers[10..].first_chunk().copied().unwrap_or([0; 64])
}

pub(crate) fn wire_in(numbers: &[u64; 74]) -> Wire
    ensures { result ≡ wire_in numbers.now }
{
    let decoder = CobsDecoder {
        place: numbers[0] as usize,
        skip: numbers[1] != 0,
        state: state_in(numbers[2], numbers[3]),
    };
    let receiver = Receiver {
        marks: marks_in(numbers),
        total: (numbers[4] % 4_294_967_296) as u32,
        close: close_in(numbers[5], numbers[6], numbers[7]),
        slots: numbers[8] as usize,
        batch: (numbers[9] % 65_536) as u16,
    };
    Wire { decoder, receiver }
}
