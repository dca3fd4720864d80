//! One mark bit for each of 4,096 indices, in 64 words of 64 bits: index i has bit i % 64 of word i / 64.
#![tactic(auto)]

ghost use Rattle.std.specs.Prelude.{◌≡◌, ◌<◌, ◌^◌, get_or, sum_by};
ghost use Rattle.marks.specs.Marks.{bit_at, with_bit, no_marks, marked, set_mark, count_below, marked_below};

/// The words that hold the marks. No struct: the Receiver's field and C's numbers (`numbers_of`) are these words, and no function
/// needs more than the words have.
pub type Marks = [u64; 64];

/// No index is marked.
pub fn none() -> Marks
    ensures { result ≡ no_marks }
{
    [0; 64]
}

/// Index i is marked. One out of range is not.
pub fn is_marked(marks: &Marks, i: usize) -> bool
    ensures { result ≡ marked marks.now i }
{
    bit(word(marks, i / 64), (i % 64) as u64)
}

/// Marks index i. One out of range changes nothing.
pub fn mark(marks: &mut Marks, i: usize)
    ensures { marks.new ≡ set_mark marks.old i }
{
    // By index: tried by `if let Some(w) = marks.get_mut(k)`, and no proof is seen: the words afterwards come into the goal by no fact.
    let k = i / 64;
    if k < marks.len() {
        marks[k] = with_bit(marks[k], (i % 64) as u64);
    }
}

/// How many of the 4,096 indices are marked.
pub fn count(marks: &Marks) -> usize
    ensures { result ≡ marked_below marks.now 4096 }
{
    count_below(marks, 4096)
}

/// How many indices below n are marked. From 4,096 on that is all of them.
pub fn count_below(marks: &Marks, n: usize) -> usize
    ensures { result ≡ marked_below marks.now n }
{
    if 4096 <= n {
        return count_words(marks);
    }
    let k = n / 64;
    count_words(&marks[..k]) + ones_below(marks[k], (n % 64) as u64)
}

// How many indices are marked in the words.
fn count_words(words: &[u64]) -> usize
    requires { sum_by (λ w. count_below (bit_at w) 64) words.now < 2 ^ 64 }
    ensures { result ≡ sum_by (λ w. count_below (bit_at w) 64) words.now }
{
    words.iter().map(|w| ones(*w)).sum()
}

// Word k. One that is not there has no bit set.
fn word(words: &[u64], k: usize) -> u64
    ensures { result ≡ get_or words.now k 0 }
{
    words.get(k).copied().unwrap_or(0)
}

// Bit s of w is 1.
fn bit(w: u64, s: u64) -> bool
    requires { s < 64 }
    ensures { result ≡ bit_at w s }
{
    (w >> s) & 1 == 1
}

// w with bit s at 1.
fn with_bit(w: u64, s: u64) -> u64
    requires { s < 64 }
    ensures { result ≡ with_bit w s }
{
    w | (1 << s)
}

// How many bits of w are 1.
fn ones(w: u64) -> usize
    ensures { result ≡ count_below (bit_at w) 64 }
{
    u64::count_ones(w) as usize
}

// How many of the s low bits of w are 1.
fn ones_below(w: u64, s: u64) -> usize
    requires { s < 64 }
    ensures { result ≡ count_below (bit_at w) s }
{
    u64::count_ones(w & ((1 << s) - 1)) as usize
}
