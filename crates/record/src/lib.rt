//! Particle records: 16 bytes, little-endian. A record's fields are checked in one place, from the writer too.
#![tactic(auto)]

pub mod frame;
mod number;

ghost use Rattle.std.specs.Prelude.{◌≡◌, ◌+◌, ◌≤◌, length, drop, nat_le};
ghost use Rattle.record.specs.Record.{fields_of, bytes_of, is_valid, fields_for, record_in, told_write, write_told, written_bytes, told_read, read_told, read_of, told_class, class_of};

use std::error::Error;
use std::fmt;

/// What a board sends: a particle, or the close of a batch with the count and the total of its particles.
#[derive(Clone, Copy, Debug, PartialEq, Eq)]
pub enum Record {
    Particle {
        batch: u16,
        index: u16,
        x: i16,
        y: i16,
        z: i16,
        weight: u32,
    },
    Close {
        batch: u16,
        count: u16,
        total: u32,
    },
}

/// The fields of 16 bytes, unchecked; x, y and z as the 16 bits that stand there.
#[derive(Clone, Copy, Debug, PartialEq, Eq)]
pub struct Fields {
    pub batch: u16,
    pub index: u16,
    pub x: u16,
    pub y: u16,
    pub z: u16,
    // A number, since any byte may stand there: `fields_of`, `is_valid` and `bytes_of` of specs/ speak of the byte.
    pub kind: u8,
    pub board: u8,
    pub weight: u32,
}

/// A field outside its range, or too few bytes for a record.
#[derive(Clone, Copy, Debug, PartialEq, Eq)]
pub struct BadRecord;

impl fmt::Display for BadRecord {
    fn fmt<W: fmt::Write>(&self, f: &mut fmt::Formatter<W>) -> fmt::Result {
        f.write_str("BadRecord")
    }
}

impl Error for BadRecord {}

/// The writer's answer, and the bytes beside it: the clause `bytes` of `write` promises them of a refusal too.
#[derive(Clone, Copy, Debug, PartialEq, Eq)]
pub struct Written {
    pub answer: Result<(), BadRecord>,
    pub bytes: [u8; 16],
}

/// How a record's batch stands to ours.
#[derive(Clone, Copy, Debug, PartialEq, Eq)]
pub enum Class {
    Ours,
    Ahead,
    Stale,
}

impl fmt::Display for Class {
    fn fmt<W: fmt::Write>(&self, f: &mut fmt::Formatter<W>) -> fmt::Result {
        f.write_str(match self {
            Class::Ours => "Ours",
            Class::Ahead => "Ahead",
            Class::Stale => "Stale",
        })
    }
}

/// The most that a particle may weigh.
pub const MOST_WEIGHT: u32 = 1_000_000;

/// The most particles of a batch.
pub const MOST_PARTICLES: u16 = 4_096;

// The kinds of record, as their byte has them.
const PARTICLE: u8 = 1;

const CLOSE: u8 = 2;

/// The record's 16 bytes. A field outside its range is refused, and all bytes are then 0.
#[tactic(auto, unfolding(crate::specs::Record::write_told, crate::specs::Record::written_bytes))]
pub fn write(item: Record) -> Written
    ensures answer { told_write result.answer ≡ write_told 0 item }
    ensures bytes { result.bytes ≡ written_bytes 0 item }
{
    let fields = fields_for(item);
    if !is_valid(fields) {
        return Written {
            answer: Err(BadRecord),
            bytes: [0; 16],
        };
    }
    Written {
        answer: Ok(()),
        bytes: bytes_of(fields),
    }
}

/// The record whose 16 bytes stand at `at`. Fewer from there on are no record.
#[tactic(auto, unfolding(crate::specs::Record::is_record, crate::specs::Record::read_of, crate::specs::Record::read_told))]
pub fn read(s: &[u8], at: usize) -> Result<Record, BadRecord>
    ensures found { result ≡ read_of 0 (drop at s.now) }
    ensures answer { told_read result ≡ read_told 0 (drop at s.now) }
{
    if !holds(s, at) {
        return Err(BadRecord);
    }
    let fields = fields_of(&s[at..]);
    if !is_valid(fields) {
        return Err(BadRecord);
    }
    Ok(record_in(fields))
}

/// Theirs minus ours, modulo 65,536: 0 is ours, up to 32,767 is ahead, and the rest stale.
#[tactic(auto, unfolding(crate::specs::Record::class_of))]
pub fn class_of(theirs: u16, ours: u16) -> Class
    ensures { told_class result ≡ told_class (class_of theirs ours) }
{
    match theirs.wrapping_sub(ours) {
        0 => Class::Ours,
        1..=32_767 => Class::Ahead,
        _ => Class::Stale,
    }
}

// Each field is within its range.
#[tactic(auto, unfolding(crate::specs::Record::is_valid))]
fn is_valid(f: Fields) -> bool
    ensures { result ≡ is_valid 0 f }
{
    f.board == 0
        && match f.kind {
            PARTICLE => f.weight <= MOST_WEIGHT,
            CLOSE => f.index <= MOST_PARTICLES && f.x == 0 && f.y == 0 && f.z == 0,
            _ => false,
        }
}

#[tactic(auto, unfolding(crate::specs::Record::fields_for))]
fn fields_for(item: Record) -> Fields
    ensures { result ≡ fields_for 0 item }
{
    match item {
        Record::Particle {
            batch,
            index,
            x,
            y,
            z,
            weight,
        } => Fields {
            batch,
            index,
            x: x.cast_unsigned(),
            y: y.cast_unsigned(),
            z: z.cast_unsigned(),
            kind: PARTICLE,
            board: 0,
            weight,
        },
        Record::Close {
            batch,
            count,
            total,
        } => Fields {
            batch,
            index: count,
            x: 0,
            y: 0,
            z: 0,
            kind: CLOSE,
            board: 0,
            weight: total,
        },
    }
}

#[tactic(auto, unfolding(crate::specs::Record::record_in))]
fn record_in(f: Fields) -> Record
    ensures { result ≡ record_in f }
{
    if f.kind == PARTICLE {
        return Record::Particle {
            batch: f.batch,
            index: f.index,
            x: f.x.cast_signed(),
            y: f.y.cast_signed(),
            z: f.z.cast_signed(),
            weight: f.weight,
        };
    }
    Record::Close {
        batch: f.batch,
        count: f.index,
        total: f.weight,
    }
}

// Whether as many bytes as a record has stand from `at` on.
fn holds(s: &[u8], at: usize) -> bool
    ensures { result ≡ nat_le 16 (length (drop at s.now)) }
{
    frame::SIZE <= s.len().saturating_sub(at)
}

// The fields of the record that s starts with.
#[tactic(auto, unfolding(crate::specs::Record::fields_of))]
fn fields_of(s: &[u8]) -> Fields
    requires { 16 ≤ length s.now }
    ensures { result ≡ fields_of s.now }
{
    Fields {
        batch: number::word(s, 0),
        index: number::word(s, 2),
        x: number::word(s, 4),
        y: number::word(s, 6),
        z: number::word(s, 8),
        kind: s[10],
        board: s[11],
        weight: number::long(s, 12),
    }
}

#[tactic(auto, unfolding(crate::specs::Record::bytes_of))]
fn bytes_of(f: Fields) -> [u8; 16]
    ensures { result ≡ bytes_of f }
{
    let [b0, b1] = f.batch.to_le_bytes();
    let [i0, i1] = f.index.to_le_bytes();
    let [x0, x1] = f.x.to_le_bytes();
    let [y0, y1] = f.y.to_le_bytes();
    let [z0, z1] = f.z.to_le_bytes();
    let [w0, w1, w2, w3] = f.weight.to_le_bytes();
    [
        b0, b1, i0, i1, x0, x1, y0, y1, z0, z1, f.kind, f.board, w0, w1, w2, w3,
    ]
}
