//! A case: its line read, our answer to it, and the two held against each other.
use crate::calls::{Call, Told};
use crate::{calls, say, text};
use std::io;
use std::io::{Bytes, Read};

// How a line says that there is no answer.
const NO_ANSWER: Told = Told {
    number: 255,
    first: 0,
    second: 0,
};

fn sentinel<R: Read + Drop>(input: &mut Bytes<R>) -> io::Result<u8> {
    let mut word = [0u8; 2];
    text::bytes(input, &mut word)?;
    Ok(word[0])
}

/// The next case's call, by its name's first letter; none where no case is left.
pub(crate) fn next_call<R: Read + Drop>(input: &mut Bytes<R>) -> io::Result<Option<Call>> {
    let call = match text::initial(input)? {
        b'e' => Call::Encode,
        b't' => Call::TryEncode,
        b'a' => Call::EncodeIncludingSentinels,
        b's' => Call::EncodeWithSentinel(sentinel(input)?),
        b'd' => Call::Decode,
        b'i' => Call::DecodeInPlaceReport,
        b'u' => Call::DecodeWithSentinel(sentinel(input)?),
        b'p' => Call::CobsEncoder(text::decimal(input)?),
        b'f' => Call::CobsDecoder(text::decimal(input)?),
        _ => return Ok(None),
    };
    Ok(Some(call))
}

// The destination before the call: 5A, or in place the source.
fn prepare(call: Call, source: &[u8], dest: &mut [u8]) {
    dest.fill(0x5A);
    if let Call::DecodeInPlaceReport = call {
        for (to, from) in dest.iter_mut().zip(source) {
            *to = *from;
        }
    }
}

// The Rust's answer: three numbers.
fn stored<R: Read + Drop>(input: &mut Bytes<R>) -> io::Result<Told> {
    let number = (text::decimal(input)? % 256) as u8;
    let first = text::decimal(input)?;
    let second = text::decimal(input)?;
    Ok(Told {
        number,
        first,
        second,
    })
}

// The rest of a line: the source, the Rust's answer and its bytes.
fn held_to<R: Read + Drop>(
    rt: &impl Print,
    input: &mut Bytes<R>,
    call: Call,
    line: usize,
    source: &mut [u8],
    dest: &mut [u8],
    theirs: &mut [u8],
) -> io::Result<bool> {
    let room = text::decimal(input)?;
    let n = text::bytes(input, source)?;
    text::initial(input)?;
    let told = stored(input)?;
    if text::bytes(input, theirs)? != room {
        return Ok(false);
    }
    if dest.len() < room {
        return Ok(false);
    }
    let dest = &mut dest[..room];
    prepare(call, source, dest);
    let ours = calls::answer(call, &source[..n], dest).unwrap_or(NO_ANSWER);
    if ours == told && dest[..] == theirs[..room] {
        return Ok(true);
    }
    say::differs(rt, line, ours)?;
    Ok(false)
}

/// Whether ours answers the case on this line as the Rust did.
pub(crate) fn is_as_stored<R: Read + Drop>(
    rt: &impl Print,
    input: &mut Bytes<R>,
    call: Call,
    line: usize,
) -> io::Result<bool> {
    let mut source = [0u8; 4_096];
    let mut dest = [0u8; 4_096];
    let mut theirs = [0u8; 4_096];
    held_to(rt, input, call, line, &mut source, &mut dest, &mut theirs)
}
