//! What the wire means. The code itself is a definition (specs/Code.antt); here are the two functions that answer lengths.
#![tactic(auto)]

pub mod refusals;

ghost use Rattle.std.specs.Prelude.{◌≡◌};
ghost use Rattle.cobs.specs.Lengths.{told, overhead_told, length_told};

use refusals::TooLong;

/// The most bytes of a message, all pieces together.
pub const LONGEST: usize = 1_048_576;

/// How many bytes the encoding of n bytes adds at most.
pub fn max_encoding_overhead(n: usize) -> Result<usize, TooLong>
    ensures { told result ≡ overhead_told n }
{
    if LONGEST < n {
        return Err(TooLong);
    }
    // One code at least: the empty message has one too.
    Ok(n.div_ceil(254).max(1))
}

/// How long the encoding of n bytes is at most.
pub fn max_encoding_length(n: usize) -> Result<usize, TooLong>
    ensures { told result ≡ length_told n }
{
    let overhead = max_encoding_overhead(n)?;
    Ok(n + overhead)
}
