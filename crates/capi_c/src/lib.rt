//! The archive for C callers: each call of `capi`, under the name that C calls it by and with the same promise. The one-shot calls are
//! here, the workstation's in `stream`. They stand twice since no crate can call an archive, and `rust_answers` calls `capi`.
#![tactic(auto)]

pub mod stream;

ghost use Rattle.std.specs.Prelude.{◌≡◌, length};
ghost use Rattle.cobs.specs.Answers.{tell};
ghost use Rattle.cobs.specs.Lengths.{overhead_told, length_told};
ghost use Rattle.cobs.specs.OneShot.{plain, zeros_around, chosen, encode_told, encode_dest, decode_told, decode_dest, in_place_told, in_place_dest, with_sentinel_told, with_sentinel_dest};

/// How many bytes the encoding of n bytes adds at most.
#[unsafe(no_mangle)]
pub extern "C" fn laksovuth_max_encoding_overhead(n: usize, size: &mut usize) -> u8
    ensures answer { tell result size.new 0 ≡ overhead_told n }
{
    capi::laksovuth_max_encoding_overhead(n, size)
}

/// How long the encoding of n bytes is at most.
#[unsafe(no_mangle)]
pub extern "C" fn laksovuth_max_encoding_length(n: usize, size: &mut usize) -> u8
    ensures answer { tell result size.new 0 ≡ length_told n }
{
    capi::laksovuth_max_encoding_length(n, size)
}

/// The encoding of src, at the front of dest.
#[unsafe(no_mangle)]
pub extern "C" fn laksovuth_encode(src: &[u8], dest: &mut [u8], size: &mut usize) -> u8
    ensures answer { tell result size.new 0 ≡ encode_told plain src.now (length dest.old) }
    ensures memory { dest.new ≡ encode_dest plain src.now dest.old }
{
    capi::laksovuth_encode(src, dest, size)
}

/// The same with a zero before and after.
#[unsafe(no_mangle)]
pub extern "C" fn laksovuth_encode_including_sentinels(
    src: &[u8],
    dest: &mut [u8],
    size: &mut usize,
) -> u8
    ensures answer { tell result size.new 0 ≡ encode_told zeros_around src.now (length dest.old) }
    ensures memory { dest.new ≡ encode_dest zeros_around src.now dest.old }
{
    capi::laksovuth_encode_including_sentinels(src, dest, size)
}

/// The encoding with each byte XORed with the sentinel.
#[unsafe(no_mangle)]
pub extern "C" fn laksovuth_encode_with_sentinel(
    src: &[u8],
    dest: &mut [u8],
    sentinel: u8,
    size: &mut usize,
) -> u8
    ensures answer { tell result size.new 0 ≡ encode_told (chosen sentinel) src.now (length dest.old) }
    ensures memory { dest.new ≡ encode_dest (chosen sentinel) src.now dest.old }
{
    capi::laksovuth_encode_with_sentinel(src, dest, sentinel, size)
}

/// The first frame of src, at the front of dest.
#[unsafe(no_mangle)]
pub extern "C" fn laksovuth_decode(
    src: &[u8],
    dest: &mut [u8],
    size: &mut usize,
    parsed: &mut usize,
) -> u8
    ensures answer { tell result size.new parsed.new ≡ decode_told src.now (length dest.old) }
    ensures memory { dest.new ≡ decode_dest src.now dest.old }
{
    capi::laksovuth_decode(src, dest, size, parsed)
}

/// The body at the front of the buffer, decoded where it stands.
#[unsafe(no_mangle)]
pub extern "C" fn laksovuth_decode_in_place(
    buf: &mut [u8],
    size: &mut usize,
    parsed: &mut usize,
) -> u8
    ensures answer { tell result size.new parsed.new ≡ in_place_told buf.old }
    ensures memory { buf.new ≡ in_place_dest buf.old }
{
    capi::laksovuth_decode_in_place(buf, size, parsed)
}

/// The body of src with each byte XORed with the sentinel, decoded into dest.
#[unsafe(no_mangle)]
pub extern "C" fn laksovuth_decode_with_sentinel(
    src: &[u8],
    dest: &mut [u8],
    sentinel: u8,
    size: &mut usize,
) -> u8
    ensures answer { tell result size.new 0 ≡ with_sentinel_told sentinel src.now (length dest.old) }
    ensures memory { dest.new ≡ with_sentinel_dest sentinel src.now dest.old }
{
    capi::laksovuth_decode_with_sentinel(src, dest, sentinel, size)
}
