//! Both states of a receiving side as numbers, and back, for callers who keep them without knowing their fields.
#![tactic(auto)]

mod fields;

ghost use Rattle.std.specs.Prelude.{◌≡◌};
ghost use Rattle.numbers.specs.Numbers.{read_of, written_to, read_back};

use fields::{head_of, wire_in};
use wire::Wire;

/// How many numbers there are: ten, and the words of the marks.
pub const COUNT: usize = 74;

/// The states that the numbers name, if they name any.
pub fn read(numbers: &[u64]) -> Option<Wire>
    ensures { result ≡ read_of numbers.now }
{
    let Ok(all) = <&[u64; 74]>::try_from(numbers) else {
        return None;
    };
    let wire = wire_in(all);
    let head = head_of(wire);
    if numbers.starts_with(&head) {
        Some(wire)
    } else {
        None
    }
}

/// Writes the states' numbers to a list of that many, from which `read` gives those states back; a list of another length stays
/// as it is.
pub fn write(wire: Wire, numbers: &mut [u64])
    ensures memory { numbers.new ≡ written_to numbers.old wire }
    ensures named { read_of numbers.new ≡ read_back numbers.old wire }
{
    if numbers.len() != COUNT {
        return;
    }
    let head = head_of(wire);
    let marks = wire.receiver.marks;
    numbers[..10].copy_from_slice(&head);
    numbers[10..].copy_from_slice(&marks);
}
