//! What a line of the output is made of.
use std::error::Error;
use std::fmt::Display;
use std::io;

/// What a call answers, or what it refuses with.
pub(crate) fn answer(
    rt: &impl Print,
    found: Result<impl Display + Drop, impl Error + Drop>,
) -> io::Result<()> {
    match found {
        Ok(value) => print!(rt; "{value}"),
        Err(refusal) => print!(rt; "{refusal}"),
    }
}

/// The same of a call that answers nothing: the word for that, since `()` and `Result` have no `Display`.
pub(crate) fn done(
    rt: &impl Print,
    word: &str,
    found: Result<(), impl Error + Drop>,
) -> io::Result<()> {
    match found {
        Ok(()) => print!(rt; "{word}"),
        Err(refusal) => print!(rt; "{refusal}"),
    }
}

/// The same of a call that may want more; `Option` has no `Display`.
pub(crate) fn answer_or_more(
    rt: &impl Print,
    found: Result<Option<impl Display + Drop>, impl Error + Drop>,
) -> io::Result<()> {
    match found {
        Ok(None) => print!(rt; "More"),
        Ok(Some(value)) => print!(rt; "{value}"),
        Err(refusal) => print!(rt; "{refusal}"),
    }
}

// What comes next, and how often it stands in a row.
fn row(rt: &impl Print, n: usize) -> io::Result<()> {
    if n == 1 {
        return print!(rt; " ");
    }
    print!(rt; " {n}*")
}

/// The bytes in hexadecimal, a row of equal ones as its length and the byte; `-` for none.
pub(crate) fn bytes(rt: &impl Print, s: &[u8]) -> io::Result<()> {
    if s.is_empty() {
        print!(rt; " -")?;
    }
    for equal in s.chunk_by(|a, b| a == b) {
        row(rt, equal.len())?;
        if let [b, ..] = equal {
            print!(rt; "{b:02x}")?;
        }
    }
    Ok(())
}

/// What the buffer holds after a call.
pub(crate) fn holds(rt: &impl Print, s: &[u8]) -> io::Result<()> {
    print!(rt; "; holds")?;
    bytes(rt, s)
}

/// The same after a call that answers nothing.
pub(crate) fn left(rt: &impl Print, s: &[u8]) -> io::Result<()> {
    print!(rt; "()")?;
    holds(rt, s)
}

/// Numbers in decimal, a row of equal ones as its length and the number; `-` for none. Beside `bytes`, since a format is no value to pass.
pub(crate) fn numbers(rt: &impl Print, s: &[u64]) -> io::Result<()> {
    if s.is_empty() {
        print!(rt; " -")?;
    }
    for equal in s.chunk_by(|a, b| a == b) {
        row(rt, equal.len())?;
        if let [n, ..] = equal {
            print!(rt; "{n}")?;
        }
    }
    Ok(())
}
