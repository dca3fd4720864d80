//! Marks: they stay from line to line.
use crate::read::{Parts, Words};
use crate::say;
use marks::Marks;
use std::io;

fn shown(rt: &impl Print, marks: Marks) -> io::Result<Marks> {
    print!(rt; "marks")?;
    say::numbers(rt, &marks)?;
    Ok(marks)
}

fn marked(rt: &impl Print, marks: Marks, i: usize) -> io::Result<Marks> {
    let mut m = marks;
    marks::mark(&mut m, i);
    shown(rt, m)
}

/// `marks::none`, `marks::mark INDEX`, `marks::is_marked INDEX`, `marks::count`, `marks::count_below INDEX`.
#[derive(Clone, Copy)]
pub(crate) enum Call {
    None,
    Mark(usize),
    IsMarked(usize),
    Count,
    CountBelow(usize),
}

impl Call {
    pub(crate) fn named(words: Words) -> Option<Call> {
        match words {
            ("marks::none", [], Parts::Neither) => Some(Call::None),
            ("marks::mark", [i], Parts::Neither) => Some(Call::Mark(*i)),
            ("marks::is_marked", [i], Parts::Neither) => Some(Call::IsMarked(*i)),
            ("marks::count", [], Parts::Neither) => Some(Call::Count),
            ("marks::count_below", [i], Parts::Neither) => Some(Call::CountBelow(*i)),
            _ => None,
        }
    }
}

pub(crate) fn run(rt: &impl Print, call: Call, marks: Marks) -> io::Result<Marks> {
    match call {
        Call::None => return shown(rt, marks::none()),
        Call::Mark(i) => return marked(rt, marks, i),
        Call::IsMarked(i) => print!(rt; "{}", marks::is_marked(&marks, i))?,
        Call::Count => print!(rt; "{}", marks::count(&marks))?,
        Call::CountBelow(i) => print!(rt; "{}", marks::count_below(&marks, i))?,
    }
    Ok(marks)
}
