//! Records: written, read and written again, classed, and as a frame.
use crate::read::{Parts, Words};
use crate::say;
use record::Record;
use std::io;

fn write(rt: &impl Print, item: Record) -> io::Result<()> {
    let done = record::write(item);
    say::done(rt, "Done", done.answer)?;
    print!(rt; ";")?;
    say::bytes(rt, &done.bytes)
}

// From 16 bits of two's complement.
fn place(n: usize) -> i16 {
    short(n).cast_signed()
}

// A number, modulo its field's size; so below.
fn short(n: usize) -> u16 {
    (n % 65_536) as u16
}

fn long(n: usize) -> u32 {
    (n % 4_294_967_296) as u32
}

// What a line shows of a record; x, y and z show in its bytes.
fn shown(rt: &impl Print, item: Record) -> io::Result<()> {
    match item {
        Record::Particle {
            batch,
            index,
            weight,
            ..
        } => print!(rt; "particle {batch} index {index} weight {weight}"),
        Record::Close {
            batch,
            count,
            total,
        } => print!(rt; "close {batch} count {count} total {total}"),
    }
}

// What is read is written again, so that x, y and z show.
fn read(rt: &impl Print, at: usize, m: &[u8]) -> io::Result<()> {
    match record::read(m, at) {
        Ok(item) => {
            shown(rt, item)?;
            print!(rt; ", written ")?;
            write(rt, item)
        }
        Err(e) => print!(rt; "{e}"),
    }
}

fn class(rt: &impl Print, theirs: u16, ours: u16) -> io::Result<()> {
    print!(rt; "{}", record::class_of(theirs, ours))
}

fn frame(rt: &impl Print, message: &[u8], dest: &mut [u8]) -> io::Result<()> {
    say::answer(rt, record::frame::write_frame(message, dest))?;
    say::holds(rt, dest)
}

/// `write_particle BATCH INDEX X Y Z WEIGHT`, `write_close BATCH COUNT TOTAL`, `read AT of BYTES`,
/// `class_of THEIRS OURS`, `is_bad_length LENGTH`, `write_frame of MESSAGE on BUFFER`. A number is taken modulo its field's size.
#[derive(Clone, Copy)]
pub(crate) enum Call {
    Write(Record),
    Read(usize),
    ClassOf { theirs: u16, ours: u16 },
    IsBadLength(usize),
    WriteFrame,
}

impl Call {
    pub(crate) fn named(words: Words) -> Option<Call> {
        match words {
            ("write_particle", [batch, index, x, y, z, weight], Parts::Neither) => Some(
                Call::Write(Record::Particle {
                    batch: short(*batch),
                    index: short(*index),
                    x: place(*x),
                    y: place(*y),
                    z: place(*z),
                    weight: long(*weight),
                }),
            ),
            ("write_close", [batch, count, total], Parts::Neither) => Some(Call::Write(
                Record::Close {
                    batch: short(*batch),
                    count: short(*count),
                    total: long(*total),
                },
            )),
            ("read", [at], Parts::Of) => Some(Call::Read(*at)),
            ("class_of", [theirs, ours], Parts::Neither) => Some(Call::ClassOf {
                theirs: short(*theirs),
                ours: short(*ours),
            }),
            ("is_bad_length", [n], Parts::Neither) => Some(Call::IsBadLength(*n)),
            ("write_frame", [], Parts::Both) => Some(Call::WriteFrame),
            _ => None,
        }
    }
}

pub(crate) fn run(rt: &impl Print, call: Call, m: &[u8], dest: &mut [u8]) -> io::Result<()> {
    match call {
        Call::Write(item) => write(rt, item),
        Call::Read(at) => read(rt, at, m),
        Call::ClassOf { theirs, ours } => class(rt, theirs, ours),
        Call::IsBadLength(n) => print!(rt; "{}", record::frame::is_bad_length(n)),
        Call::WriteFrame => frame(rt, m, dest),
    }
}
