//! Any call, by its name: each module knows the names of its own.
use crate::read::Words;
use crate::{
    alone, batches, decoding, encoding, feeding, lengths, marking, naming, records, streaming,
    tools, wires,
};

/// A call, with the numbers that it takes.
#[derive(Clone, Copy)]
pub(crate) enum Call {
    Lengths(lengths::Call),
    Tools(tools::Call),
    Encoding(encoding::Call),
    Decoding(decoding::Call),
    Alone(alone::Call),
    Streaming(streaming::Call),
    Feeding(feeding::Call),
    Marking(marking::Call),
    Records(records::Call),
    Batches(batches::Call),
    Wires(wires::Call),
    Naming(naming::Call),
}

impl Call {
    /// The call of that name which takes so many numbers and these parts.
    pub(crate) fn named(words: Words) -> Option<Call> {
        lengths::Call::named(words)
            .map(Call::Lengths)
            .or_else(|| tools::Call::named(words).map(Call::Tools))
            .or_else(|| encoding::Call::named(words).map(Call::Encoding))
            .or_else(|| decoding::Call::named(words).map(Call::Decoding))
            .or_else(|| alone::Call::named(words).map(Call::Alone))
            .or_else(|| streaming::Call::named(words).map(Call::Streaming))
            .or_else(|| feeding::Call::named(words).map(Call::Feeding))
            .or_else(|| marking::Call::named(words).map(Call::Marking))
            .or_else(|| records::Call::named(words).map(Call::Records))
            .or_else(|| batches::Call::named(words).map(Call::Batches))
            .or_else(|| wires::Call::named(words).map(Call::Wires))
            .or_else(|| naming::Call::named(words).map(Call::Naming))
    }
}
