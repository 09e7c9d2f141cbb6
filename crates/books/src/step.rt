// What a book holds.
use crate::name::Name;
use lines::{Op, Unit};
use sets::Set64;

// one step of a formula; signs come after their operands
#[derive(Clone, Copy)]
pub enum Step {
    // a count of thousandths, and its unit
    Number(u32, Unit),
    Entry(u8),
    Line(u8),
    Op(Op),
}

// what a name stands for; an entry or a line by its number
#[derive(Clone, Copy)]
pub(crate) enum Declared {
    Entry(u8),
    Line(u8),
    Rule,
}

// the entries and the lines that are needed
#[derive(Clone, Copy)]
pub struct Needs {
    pub entries: Set64,
    pub lines: Set64,
}

// steps of the book, from a place on: those of all formulas lie in one list, whose memory was taken when the draft was opened
// (a `Place` is of bytes in a line)
#[derive(Clone, Copy)]
pub struct Span {
    pub start: usize,
    pub len: usize,
}

#[derive(Clone, Copy)]
pub struct Entry {
    pub name: Name,
    pub unit: Unit,
}

#[derive(Clone, Copy)]
pub struct Line {
    pub name: Name,
    pub unit: Unit,
    pub steps: Span,
    pub needs: Needs,
}

#[derive(Clone, Copy)]
pub struct Rule {
    pub name: Name,
    // the right side is under a root
    pub root: bool,
    // of the left side
    pub unit: Unit,
    pub left: Span,
    pub right: Span,
    pub needs: Needs,
}
