//! Inside a frame, sixteen bytes at a time. A byte of the piece stands in the destination as it is, one place back for each
//! full group, and a code's place holds the zero that it stands for. So sixteen bytes without a zero are copied as they are,
//! and the codes among them become zeros after.
ghost use Rattle.std.specs.Prelude.{◌≡◌, ◌+◌, ◌≤◌, eqb, length};
ghost use Rattle.dec.specs.Helpers.{group, open_at, Ahead, Clear, Patched, Passed};

use crate::state::DecoderState;
use blocks::{all16, clear16, copy16, fill16};

/// A group that is open: its code, and how many of its bytes are to come.
#[derive(Clone, Copy)]
pub(crate) struct Open {
    pub code: u8,
    pub left: u8,
}

impl Open {
    /// The decoder's state inside the group.
    pub(crate) fn state(self) -> DecoderState
        ensures { result ≡ group (eqb self.code 0xFF) self.left }
    {
        if self.code == 0xFF {
            return DecoderState::GrabChain(self.left);
        }
        DecoderState::Grab(self.left)
    }
}

/// How far into the piece and the destination, and the group that is open there. An answer only: the contracts of `codes` and
/// `by_sixteen` are of the two lent buffers, each at its own place.
#[derive(Clone, Copy)]
pub(crate) struct Reached {
    pub i: usize,
    pub place: usize,
    pub group: Open,
}

// The codes among sixteen bytes that are copied already, from one to the next.
fn each_code(piece: &[u8], i: usize, dest: &mut [u8], place: usize, opened: Open) -> Open
    requires i_in_bounds { (i + 16 ≤ length piece.now) × (place + 16 ≤ length dest.old) }
    requires clear { Clear piece.now i 16 }
    requires le_left { opened.code ≡ 255 → 16 ≤ opened.left }
    ensures { Patched piece.now i place opened dest.old result dest.new }
{
    let mut code = opened.code;
    let mut q = usize::from(opened.left);
    // Not a `for`: each step is as long as the code that it reads.
    while q < 16 {
        dest[place + q] = 0;
        code = piece[i + q];
        q += usize::from(code);
    }
    Open {
        code,
        left: (q - 16) as u8,
    }
}

// The same. Sixteen codes of 01 are sixteen zeros.
fn codes(piece: &[u8], i: usize, dest: &mut [u8], place: usize, opened: Open) -> Open
    requires i_in_bounds { (i + 16 ≤ length piece.now) × (place + 16 ≤ length dest.old) }
    requires clear { Clear piece.now i 16 }
    requires le_left { opened.code ≡ 255 → 16 ≤ opened.left }
    ensures { Patched piece.now i place opened dest.old result dest.new }
{
    if opened.left == 0 && piece[i] == 1 && all16(piece, i, 1) {
        fill16(dest, place, 0);
        return Open { code: 1, left: 0 };
    }
    each_code(piece, i, dest, place, opened)
}

// Decodes by sixteen, up to a zero, the end of a full group, or less than sixteen bytes.
pub(crate) fn by_sixteen(
    piece: &[u8],
    from: usize,
    dest: &mut [u8],
    to: usize,
    opened: Open,
) -> Reached
    requires { (from ≤ length piece.now) × (to ≤ length dest.old) }
    ensures within { (from ≤ result.i) × (result.i ≤ length piece.now) × (result.place ≤ length dest.old) }
    ensures decoded { Ahead (length dest.old) piece.now from (open_at opened to) dest.old result.i (open_at result.group result.place) dest.new }
{
    let mut i = from;
    let mut place = to;
    let mut group = opened;
    // Not a `for`: two places go on together, and any of three tests ends it.
    while 16 <= dest.len() - place {
        if group.code == 0xFF && group.left < 16 {
            break;
        }
        if !clear16(piece, i) {
            break;
        }
        copy16(dest, place, piece, i);
        group = codes(piece, i, dest, place, group);
        i += 16;
        place += 16;
    }
    Reached { i, place, group }
}

// The bytes of a group up to a zero, at most so many, one by one. Answers how many. By a loop as enc's `bytes`, where
// `position` and `copy_from_slice` are measured.
pub(crate) fn bytes(piece: &[u8], from: usize, dest: &mut [u8], to: usize, most: usize) -> usize
    requires { (from + most ≤ length piece.now) × (to + most ≤ length dest.old) }
    ensures few { result ≤ most }
    ensures decoded { Passed piece.now from to dest.old most result dest.new }
{
    for k in 0..most {
        let b = piece[from + k];
        if b == 0 {
            return k;
        }
        dest[to + k] = b;
    }
    most
}
