//! Bytes of a buffer many at a time. Sixteen that are read or tested with no way out between them take one wide instruction.
//! Every call is total: where sixteen bytes do not stand, a test is false and a copy changes nothing.
#![tactic(auto)]

ghost use Rattle.std.specs.Prelude.{◌≡◌, ◌+◌, ◌≤◌, ℕ, Bool, length};
ghost use Rattle.std.proofs.Math.Seq.{paste};
ghost use Rattle.blocks.specs.Blocks.{stands, each, is_clear, is_all, copied, taken_of, filled, kind_of, masked_front};
ghost use Rattle.cobs.specs.Code.{masked};
ghost use Rattle.blocks.specs.Helpers.{block_at, moved, Gives};

use std::fmt;

/// What sixteen bytes are: not there, none of them zero, all of them zero, or some of each. No Option of three kinds: known_bytes
/// prints four answers, and the caller, the encoder, asks for two of them.
#[derive(Clone, Copy, Debug, PartialEq, Eq)]
pub enum Taken {
    Nothing,
    Clear,
    Zeros,
    Mixed,
}

impl fmt::Display for Taken {
    fn fmt<W: fmt::Write>(&self, f: &mut fmt::Formatter<W>) -> fmt::Result {
        f.write_str(match self {
            Taken::Nothing => "Nothing",
            Taken::Clear => "Clear",
            Taken::Zeros => "Zeros",
            Taken::Mixed => "Mixed",
        })
    }
}

// Whether sixteen bytes stand at `at` among n.
fn stand(n: usize, at: usize) -> bool
    ensures { result ≡ stands n at }
{
    16 <= n && at <= n - 16
}

// The sixteen bytes at `at`, where they stand.
fn read16(s: &[u8], at: usize) -> Option<[u8; 16]>
    ensures { result ≡ block_at s.now at }
{
    if !stand(s.len(), at) {
        return None;
    }
    s[at..at + 16].first_chunk().copied()
}

// By index: `dest[at..at + 16].copy_from_slice(&block)` first tests whether the two overlap, and the one-shot encoder takes 6.11
// instructions a byte of particle records for 5.43; of what is written through `first_chunk_mut` the proof finds no element.
fn write16(dest: &mut [u8], at: usize, block: [u8; 16])
    requires { at + 16 ≤ length dest.old }
    ensures { dest.new ≡ paste dest.old at block 16 }
{
    for k in 0..16 {
        dest[at + k] = block[k];
    }
}

// Sixteen bytes of src copied, where they stand in both, and answered. All are read before one is written: the compiler does not
// know that the two lie apart.
fn moved(dest: &mut [u8], at: usize, src: &[u8], from: usize) -> Option<[u8; 16]>
    ensures answer { result ≡ moved dest.old at src.now from }
    ensures memory { dest.new ≡ copied dest.old at src.now from }
{
    let block = read16(src, from)?;
    if !stand(dest.len(), at) {
        return None;
    }
    write16(dest, at, block);
    Some(block)
}

// Whether each byte passes a test. The tests are all made, and joined with no branch, which the compiler takes sixteen at a time:
// the iterator's `all` stops at the first that fails.
fn all<F: Fn(u8) -> bool>(block: [u8; 16], test: F) -> bool
    requires { F.IsAlwaysCallable test }
    ensures { (p : ℕ → Bool) → Gives (F.post test) p → result ≡ each p block }
{
    let mut held = true;
    for b in block {
        held &= test(b);
    }
    held
}

// What sixteen bytes are that stand.
fn kind(block: [u8; 16]) -> Taken
    ensures { result ≡ kind_of block }
{
    let clear = all(block, |b| b != 0);
    if all(block, |b| b == 0) {
        Taken::Zeros
    } else if clear {
        Taken::Clear
    } else {
        Taken::Mixed
    }
}

// Each byte XORed.
fn xor(s: &mut [u8], v: u8)
    ensures { s.new ≡ masked v s.old }
{
    for b in s.iter_mut() {
        *b ^= v;
    }
}

/// Sixteen bytes stand at `at`, and none is zero.
pub fn clear16(s: &[u8], at: usize) -> bool
    ensures { result ≡ is_clear s.now at }
{
    let Some(block) = read16(s, at) else {
        return false;
    };
    all(block, |b| b != 0)
}

/// Sixteen bytes stand at `at`, and each is v. A call of its own beside `clear16`, whose promise is another; what they share is `all`.
pub fn all16(s: &[u8], at: usize, v: u8) -> bool
    ensures { result ≡ is_all v s.now at }
{
    let Some(block) = read16(s, at) else {
        return false;
    };
    all(block, |b| b == v)
}

/// Sixteen bytes of src from `from` on are copied to `at`, where they stand in both; tells what they are.
pub fn take16(dest: &mut [u8], at: usize, src: &[u8], from: usize) -> Taken
    ensures answer { result ≡ taken_of dest.old at src.now from }
    ensures memory { dest.new ≡ copied dest.old at src.now from }
{
    match moved(dest, at, src, from) {
        Some(block) => kind(block),
        None => Taken::Nothing,
    }
}

/// The same copy alone. It does not call `moved`: a function with one caller is put in its place, and each copy has one. Through
/// `moved` the receiver takes 603 instructions a record for 359.
pub fn copy16(dest: &mut [u8], at: usize, src: &[u8], from: usize)
    ensures { dest.new ≡ copied dest.old at src.now from }
{
    if !stand(dest.len(), at) {
        return;
    }
    let Some(block) = read16(src, from) else {
        return;
    };
    write16(dest, at, block);
}

/// Sixteen times v at `at`, where they stand.
pub fn fill16(dest: &mut [u8], at: usize, v: u8)
    ensures { dest.new ≡ filled dest.old at v }
{
    if stand(dest.len(), at) {
        dest[at..at + 16].fill(v);
    }
}

/// The first n bytes, or all if there are fewer, XORed with the sentinel.
pub fn mask(buf: &mut [u8], n: usize, sentinel: u8)
    ensures { buf.new ≡ masked_front sentinel n buf.old }
{
    let end = n.min(buf.len());
    xor(&mut buf[..end], sentinel);
}
