//! A batch over a bad wire: a sender frames 100 particles, the wire loses, repeats, reorders and cuts, the receiver answers after
//! each frame; what was lost is sent again until the batch is complete.
#![tactic(auto)]

mod receiving;
mod sender;

ghost use Rattle.std.specs.Prelude.{◌≡◌, length};

use batch::Standing;
use std::io;
use wire::Wire;

// Room for the longest frame's message.
fn decode_buffer() -> [u8; 240]
    ensures { 240 ≡ length result }
{
    [0; 240]
}

// One round: the frames that arrive, by their numbers. Every call gets the same bytes to decode into, the same table and the states
// that the call before it left.
fn round(
    rt: &impl Print,
    heading: &str,
    order: &[u8],
    wire: Wire,
    buffer: &mut [u8],
    table: &mut [u8],
) -> io::Result<Wire> {
    println!(rt; "\n{heading}")?;
    let mut stream = [0u8; 4_096];
    let n = sender::send(order, &mut stream);
    receiving::deliver(rt, wire, buffer, table, order, &stream[..n])
}

fn last(rt: &impl Print, wire: Wire, table: &[u8]) -> io::Result<()> {
    if let Ok(Standing::Complete) = batch::stands(wire.receiver, table) {
        println!(rt; "Complete: each particle was weighed once, and the total is the sender's.")?;
    }
    Ok(())
}

fn main(rt: HostRuntime) -> io::Result<()> {
    let mut table = [0u8; 4_096];
    let mut buffer = decode_buffer();
    sender::introduce(&rt)?;
    let a = round(
        &rt,
        "The wire loses 5, 9 and 11, repeats 4 and 8, and reorders; its bytes come in pieces of any length.",
        b"\x00\x02\x01\x04\x04\x03\x06\x08\x0D\x07\x0A\x08\x0C",
        Wire::open(7, &table),
        &mut buffer,
        &mut table,
    )?;
    let b = round(
        &rt,
        "5, 9 and 11 are sent again; 9 is lost again.",
        b"\x0B\x05",
        a,
        &mut buffer,
        &mut table,
    )?;
    let c = round(&rt, "9 is sent again.", b"\x09", b, &mut buffer, &mut table)?;
    last(&rt, c, &table)
}
