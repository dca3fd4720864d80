//! Words, numbers and bytes from the standard input.
ghost use Rattle.std.specs.Prelude.{◌≤◌, ◌<◌, IfOk, length};

use std::io;
use std::io::{Bytes, Read};

/// The end of a line, which the end of the input counts as.
const LINE: u8 = 10;

/// A space; it and what is below it end a word.
const SPACE: u8 = 32;

fn byte<R: Read + Drop>(input: &mut Bytes<R>) -> io::Result<u8> {
    input.next().unwrap_or(Ok(LINE))
}

/// The next word's first letter, or an end of line; the word is passed over.
pub(crate) fn initial<R: Read + Drop>(input: &mut Bytes<R>) -> io::Result<u8> {
    let first = byte(input)?;
    if first <= SPACE {
        return Ok(first);
    }
    for _ in 0..100 {
        if byte(input)? <= SPACE {
            return Ok(first);
        }
    }
    Ok(first)
}

// One digit more; a number that is too large stays as it is.
fn with_digit(n: usize, digit: u8) -> usize {
    if 100_000_000 <= n {
        return n;
    }
    n * 10 + (digit % 16) as usize
}

/// The next word as a decimal number; by hand, digit by digit as it is read, since there is no word to parse.
pub(crate) fn decimal<R: Read + Drop>(input: &mut Bytes<R>) -> io::Result<usize> {
    let mut value: usize = 0;
    for _ in 0..20 {
        let digit = byte(input)?;
        if digit <= SPACE {
            return Ok(value);
        }
        value = with_digit(value, digit);
    }
    Ok(value)
}

// A digit of base 16: 0 to 9 end in their value, a to f in 1 to 6. By hand, since any byte counts as some digit here.
fn nibble(digit: u8) -> u8
    ensures { result < 16 }
{
    if digit < 64 {
        return digit % 16;
    }
    (digit % 16 + 9) % 16
}

/// The next word's bytes, at the front of `out`, and how many; none for -.
pub(crate) fn bytes<R: Read + Drop>(input: &mut Bytes<R>, out: &mut [u8]) -> io::Result<usize>
    ensures { IfOk result (λ n. n ≤ length out.old) }
{
    for (n, slot) in out.iter_mut().enumerate() {
        let high = byte(input)?;
        if high <= SPACE {
            return Ok(n);
        }
        let low = byte(input)?;
        if low <= SPACE {
            return Ok(n);
        }
        *slot = nibble(high) * 16 + nibble(low);
    }
    Ok(out.len())
}
