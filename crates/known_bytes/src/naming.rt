//! Both states of the wire as numbers, and back.
use crate::read::{Parts, Words};
use crate::say;
use numbers::COUNT;
use std::io;
use wire::Wire;

// To the list's first n.
fn write(rt: &impl Print, w: Wire, n: usize, list: &mut [u64]) -> io::Result<()> {
    let Some(list) = list.get_mut(..n) else {
        return Ok(());
    };
    numbers::write(w, list);
    print!(rt; "(); holds")?;
    say::numbers(rt, list)
}

// From the list's first n. What is read is written again, so that every field shows; where none is named, a fresh pair.
fn read(rt: &impl Print, n: usize, list: &[u64]) -> io::Result<()> {
    if list.len() < n {
        return Ok(());
    }
    let mut again = [9u64; 74];
    let w = match numbers::read(&list[0..n]) {
        Some(w) => {
            print!(rt; "named;")?;
            w
        }
        None => {
            print!(rt; "none;")?;
            Wire::open(0, &[])
        }
    };
    numbers::write(w, &mut again);
    say::numbers(rt, &again)
}

// From the states' numbers, but for the one at that place.
fn read_with(
    rt: &impl Print,
    w: Wire,
    length: usize,
    at: usize,
    value: u64,
    list: &mut [u64],
) -> io::Result<()> {
    if list.len() < COUNT {
        return Ok(());
    }
    numbers::write(w, &mut list[0..COUNT]);
    if let Some(place) = list.get_mut(at) {
        *place = value;
    }
    read(rt, length, list)
}

/// `numbers::write LENGTH` to a list of nines, `numbers::read LENGTH AT VALUE`. A LENGTH is at most one more than is written.
#[derive(Clone, Copy)]
pub(crate) enum Call {
    Write(usize),
    Read {
        length: usize,
        at: usize,
        value: u64,
    },
}

impl Call {
    pub(crate) fn named(words: Words) -> Option<Call> {
        match words {
            ("numbers::write", [length], Parts::Neither) => Some(Call::Write(*length)),
            ("numbers::read", [length, at, value], Parts::Neither) => Some(Call::Read {
                length: *length,
                at: *at,
                value: *value as u64,
            }),
            _ => None,
        }
    }
}

pub(crate) fn run(rt: &impl Print, call: Call, w: Wire) -> io::Result<()> {
    let mut list = [9u64; 75];
    match call {
        Call::Write(length) => write(rt, w, length, &mut list),
        Call::Read { length, at, value } => read_with(rt, w, length, at, value, &mut list),
    }
}
