//! From the wire to the receiver: both states stay from line to line.
use crate::read::{Parts, Words};
use crate::say;
use dec::state::DecoderState;
use dec::stream::CobsDecoder;
use std::io;
use wire::Wire;

/// Both states, and the decoder's buffer.
#[derive(Clone, Copy)]
pub(crate) struct Side {
    pub wire: Wire,
    pub buffer: [u8; 32],
}

fn open(rt: &impl Print, number: u16, table: &[u8]) -> io::Result<Wire> {
    let w = Wire::open(number, table);
    print!(rt; "batch {}, slots {}", w.receiver.batch, w.receiver.slots)?;
    Ok(w)
}

fn receive(
    rt: &impl Print,
    w: Wire,
    piece: &[u8],
    buffer: &mut [u8],
    table: &mut [u8],
) -> io::Result<Wire> {
    let receipt = wire::receive(w, buffer, table, piece);
    let next = receipt.next;
    say::answer_or_more(rt, receipt.answer)?;
    print!(rt;
        ", consumed {}; total {}",
        receipt.consumed, next.receiver.total
    )?;
    say::holds(rt, table)?;
    Ok(next)
}

// On the first bytes of the decoder's buffer, or on all of it.
fn brought(
    rt: &impl Print,
    held: Side,
    room: usize,
    piece: &[u8],
    table: &mut [u8],
) -> io::Result<Side> {
    let w = held.wire;
    let mut buffer = held.buffer;
    let room = room.min(buffer.len());
    let wire = receive(rt, w, piece, &mut buffer[..room], table)?;
    Ok(Side { wire, buffer })
}

// A decoder at that write place, and idle.
fn decoder(rt: &impl Print, place: usize) -> io::Result<CobsDecoder> {
    print!(rt; "place {place}")?;
    Ok(CobsDecoder {
        place,
        skip: false,
        state: DecoderState::Idle,
    })
}

fn with_decoder(held: Side, decoder: CobsDecoder) -> Side {
    let wire = Wire {
        decoder,
        ..held.wire
    };
    Side { wire, ..held }
}

fn with_wire(held: Side, wire: Wire) -> Side {
    Side { wire, ..held }
}

/// `Wire::open BATCH on TABLE`, `wire::receive ROOM of PIECE` with so many bytes for the decoder, and `Wire::decoder PLACE`.
#[derive(Clone, Copy)]
pub(crate) enum Call {
    Open(u16),
    Receive(usize),
    Decoder(usize),
}

impl Call {
    pub(crate) fn named(words: Words) -> Option<Call> {
        match words {
            ("Wire::open", [batch], Parts::On) => Some(Call::Open((*batch % 65_536) as u16)),
            ("wire::receive", [room], Parts::Of) => Some(Call::Receive(*room)),
            ("Wire::decoder", [place], Parts::Neither) => Some(Call::Decoder(*place)),
            _ => None,
        }
    }
}

pub(crate) fn run(
    rt: &impl Print,
    call: Call,
    held: Side,
    m: &[u8],
    table: &mut [u8],
) -> io::Result<Side> {
    match call {
        Call::Open(number) => Ok(with_wire(held, open(rt, number, table)?)),
        Call::Receive(room) => brought(rt, held, room, m, table),
        Call::Decoder(place) => Ok(with_decoder(held, decoder(rt, place)?)),
    }
}
