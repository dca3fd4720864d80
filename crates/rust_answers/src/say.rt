//! What is printed: a line for each call, and one for each case that is not as stored.
use crate::calls::{Call, Told};
use std::{fmt, io};

/// How many cases of a call are as stored, and how many are not.
#[derive(Clone, Copy)]
pub(crate) struct Tally {
    name: &'static str,
    alike: usize,
    unlike: usize,
}

impl Tally {
    pub(crate) fn new(call: Call) -> Tally {
        Tally {
            name: call.name(),
            alike: 0,
            unlike: 0,
        }
    }

    /// Counts the case, if it is of this call.
    pub(crate) fn count(&mut self, call: Call, alike: bool) {
        if self.name != call.name() {
            return;
        }
        if alike {
            self.alike = self.alike.saturating_add(1);
        } else {
            self.unlike = self.unlike.saturating_add(1);
        }
    }
}

impl fmt::Display for Tally {
    fn fmt<W: fmt::Write>(&self, f: &mut fmt::Formatter<W>) -> fmt::Result {
        let Tally {
            name,
            alike,
            unlike,
        } = *self;
        write!(f, "{name}: {alike} as the Rust, {unlike} not")
    }
}

pub(crate) fn differs(rt: &impl Print, line: usize, ours: Told) -> io::Result<()> {
    let Told {
        number,
        first,
        second,
    } = ours;
    println!(rt; "line {line}: ours answers {number} {first} {second}")
}
