//! The calls as C has them: here the one-shot ones, for firmware and the comparison; in `stream` the workstation's. `capi_c` hands them
//! out over the C convention. A call answers 01's number, 0 for done, and puts the answer's values behind its out-parameters, 0 where there is none:
//! C has no `Result`.
#![tactic(auto)]

pub mod stream;
mod told;

ghost use Rattle.std.specs.Prelude.{◌≡◌, length};
ghost use Rattle.cobs.specs.Answers.{tell};
ghost use Rattle.cobs.specs.Lengths.{overhead_told, length_told};
ghost use Rattle.cobs.specs.OneShot.{plain, zeros_around, chosen, encode_told, encode_dest, decode_told, decode_dest, in_place_told, in_place_dest, with_sentinel_told, with_sentinel_dest};

use told::{put, put_one};

/// How many bytes the encoding of n bytes adds at most.
pub fn laksovuth_max_encoding_overhead(n: usize, size: &mut usize) -> u8
    ensures answer { tell result size.new 0 ≡ overhead_told n }
{
    put_one(cobs::max_encoding_overhead(n), size)
}

/// How long the encoding of n bytes is at most.
pub fn laksovuth_max_encoding_length(n: usize, size: &mut usize) -> u8
    ensures answer { tell result size.new 0 ≡ length_told n }
{
    put_one(cobs::max_encoding_length(n), size)
}

/// The encoding of src, at the front of dest.
pub fn laksovuth_encode(src: &[u8], dest: &mut [u8], size: &mut usize) -> u8
    ensures answer { tell result size.new 0 ≡ encode_told plain src.now (length dest.old) }
    ensures memory { dest.new ≡ encode_dest plain src.now dest.old }
{
    put_one(enc::oneshot::encode(src, dest), size)
}

/// The same with a zero before and after.
pub fn laksovuth_encode_including_sentinels(src: &[u8], dest: &mut [u8], size: &mut usize) -> u8
    ensures answer { tell result size.new 0 ≡ encode_told zeros_around src.now (length dest.old) }
    ensures memory { dest.new ≡ encode_dest zeros_around src.now dest.old }
{
    put_one(enc::oneshot::encode_including_sentinels(src, dest), size)
}

/// The encoding with each byte XORed with the sentinel.
pub fn laksovuth_encode_with_sentinel(
    src: &[u8],
    dest: &mut [u8],
    sentinel: u8,
    size: &mut usize,
) -> u8
    ensures answer { tell result size.new 0 ≡ encode_told (chosen sentinel) src.now (length dest.old) }
    ensures memory { dest.new ≡ encode_dest (chosen sentinel) src.now dest.old }
{
    put_one(
        enc::oneshot::encode_with_sentinel(src, dest, sentinel),
        size,
    )
}

/// The first frame of src, at the front of dest.
pub fn laksovuth_decode(src: &[u8], dest: &mut [u8], size: &mut usize, parsed: &mut usize) -> u8
    ensures answer { tell result size.new parsed.new ≡ decode_told src.now (length dest.old) }
    ensures memory { dest.new ≡ decode_dest src.now dest.old }
{
    put(dec::decode::decode(src, dest), size, parsed)
}

/// The body at the front of the buffer, decoded where it stands.
pub fn laksovuth_decode_in_place(buf: &mut [u8], size: &mut usize, parsed: &mut usize) -> u8
    ensures answer { tell result size.new parsed.new ≡ in_place_told buf.old }
    ensures memory { buf.new ≡ in_place_dest buf.old }
{
    put(place::place::decode_in_place_report(buf), size, parsed)
}

/// The body of src with each byte XORed with the sentinel, decoded into dest.
pub fn laksovuth_decode_with_sentinel(
    src: &[u8],
    dest: &mut [u8],
    sentinel: u8,
    size: &mut usize,
) -> u8
    ensures answer { tell result size.new 0 ≡ with_sentinel_told sentinel src.now (length dest.old) }
    ensures memory { dest.new ≡ with_sentinel_dest sentinel src.now dest.old }
{
    put_one(
        place::sentinel::decode_with_sentinel(src, dest, sentinel),
        size,
    )
}
