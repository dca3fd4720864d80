//! The decoder in pieces: it and its buffer stay from line to line.
use crate::read::{Parts, Words, byte};
use crate::{read, say};
use dec::state::{DecoderState, Stepped};
use dec::stream::{CobsDecoder, Pushed};
use std::io;

// A decoder at its start, in that state.
fn at_start(state: DecoderState) -> CobsDecoder {
    CobsDecoder {
        place: 0,
        skip: false,
        state,
    }
}

fn given(rt: &impl Print, stepped: Stepped) -> io::Result<DecoderState> {
    say::answer(rt, stepped.result)?;
    print!(rt; ", {}", stepped.state)?;
    Ok(stepped.state)
}

fn answered(rt: &impl Print, pushed: Pushed, dest: &[u8]) -> io::Result<CobsDecoder> {
    say::answer_or_more(rt, pushed.answer)?;
    print!(rt; ", {}", pushed.next)?;
    say::holds(rt, dest)?;
    Ok(pushed.next)
}

fn push(rt: &impl Print, d: CobsDecoder, piece: &[u8], dest: &mut [u8]) -> io::Result<CobsDecoder> {
    let pushed = d.push(dest, piece);
    answered(rt, pushed, dest)
}

fn feed(rt: &impl Print, d: CobsDecoder, byte: u8, dest: &mut [u8]) -> io::Result<CobsDecoder> {
    let pushed = d.feed(dest, byte);
    answered(rt, pushed, dest)
}

fn made(rt: &impl Print, d: CobsDecoder) -> io::Result<CobsDecoder> {
    print!(rt; "{d}")?;
    Ok(d)
}

fn named(rt: &impl Print, s: DecoderState) -> io::Result<CobsDecoder> {
    print!(rt; "{s}")?;
    Ok(at_start(s))
}

/// `CobsDecoder::push of PIECE`, `CobsDecoder::feed of BYTE`, `DecoderState::feed of BYTE` (through `fed`, which has the reference
/// that `feed` takes), `DecoderState::step of BYTE`; `CobsDecoder::new on BUFFER`, `DecoderState::new`, `DecoderState::Grab LEFT`,
/// `DecoderState::GrabChain LEFT`; and a decoder of given numbers in the state that stands, `CobsDecoder PLACE SKIP`, also with
/// `on BUFFER`.
#[derive(Clone, Copy)]
pub(crate) enum Call {
    Push,
    Feed,
    StateFeed,
    StateStep,
    New,
    State(DecoderState),
    Given { place: usize, skip: bool },
}

impl Call {
    pub(crate) fn named(words: Words) -> Option<Call> {
        match words {
            ("CobsDecoder::push", [], Parts::Of) => Some(Call::Push),
            ("CobsDecoder::feed", [], Parts::Of) => Some(Call::Feed),
            ("DecoderState::feed", [], Parts::Of) => Some(Call::StateFeed),
            ("DecoderState::step", [], Parts::Of) => Some(Call::StateStep),
            ("CobsDecoder::new", [], Parts::On) => Some(Call::New),
            ("DecoderState::new", [], Parts::Neither) => Some(Call::State(DecoderState::new())),
            ("DecoderState::Grab", [n], Parts::Neither) => Some(Call::State(DecoderState::Grab(byte(
                *n,
            )))),
            ("DecoderState::GrabChain", [n], Parts::Neither) => Some(Call::State(
                DecoderState::GrabChain(byte(*n)),
            )),
            ("CobsDecoder", [place, skip], Parts::Neither | Parts::On) => Some(Call::Given {
                place: *place,
                skip: *skip != 0,
            }),
            _ => None,
        }
    }
}

pub(crate) fn run(
    rt: &impl Print,
    call: Call,
    d: CobsDecoder,
    m: &[u8],
    dest: &mut [u8],
) -> io::Result<CobsDecoder> {
    let state = d.state;
    match call {
        Call::Push => push(rt, d, m, dest),
        Call::Feed => feed(rt, d, read::first(m), dest),
        Call::StateFeed => Ok(at_start(given(rt, dec::state::fed(state, read::first(m)))?)),
        Call::StateStep => Ok(at_start(given(rt, state.step(read::first(m)))?)),
        Call::New => made(rt, CobsDecoder::new()),
        Call::State(s) => named(rt, s),
        Call::Given { place, skip } => made(rt, CobsDecoder { place, skip, state }),
    }
}
