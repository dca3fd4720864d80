//! Two pieces through the encoder that holds its buffer: what new, push, push and finalize answer.
use crate::{say, streaming};
use cobs::refusals::DestBufTooSmall;
use held::{CobsEncoder, TwoPieces};
use std::io;

fn answers(rt: &impl Print, found: TwoPieces) -> io::Result<()> {
    say::done(rt, "Ready", found.opened)?;
    print!(rt; ", ")?;
    streaming::answer(rt, found.first)?;
    print!(rt; ", ")?;
    streaming::answer(rt, found.second)?;
    print!(rt; ", ")?;
    say::answer(rt, found.finished)
}

// What `new` answers on this buffer, which it leaves as it is.
fn opened_on(dest: &mut [u8]) -> Result<(), DestBufTooSmall> {
    CobsEncoder::new(dest).answer
}

/// The message's first `cut` bytes, then the others. The first answer is that of `new` itself, since `encode_two` begins with its steps.
pub(crate) fn run(rt: &impl Print, cut: usize, m: &[u8], dest: &mut [u8]) -> io::Result<()> {
    let Some((first, second)) = m.split_at_checked(cut) else {
        return Ok(());
    };
    let opened = opened_on(dest);
    let found = held::encode_two(dest, first, second);
    answers(rt, TwoPieces { opened, ..found })
}
