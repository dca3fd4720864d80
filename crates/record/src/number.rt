//! Numbers whose bytes stand in a slice, the lowest first. Two widths, an expression each: a trait for both would be longer.
ghost use Rattle.std.specs.Prelude.{◌≡◌, ◌+◌, ◌<◌, length};
ghost use Rattle.record.specs.Record.{word16, word32};

// Bytes k and k + 1.
pub(crate) fn word(s: &[u8], k: usize) -> u16
    requires { k + 1 < length s.now }
    ensures { result ≡ word16 s.now k }
{
    u16::from_le_bytes([s[k], s[k + 1]])
}

// Bytes k to k + 3.
pub(crate) fn long(s: &[u8], k: usize) -> u32
    requires { k + 3 < length s.now }
    ensures { result ≡ word32 s.now k }
{
    u32::from_le_bytes([s[k], s[k + 1], s[k + 2], s[k + 3]])
}
