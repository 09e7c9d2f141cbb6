// How the parts of a book are printed.
use books::Step;
use lines::{Op, Unit};
use sets::Set64;
use std::fmt;

// a unit's exponents, of inch and of kip
#[derive(Drop)]
pub struct Exponents(pub Unit);

impl fmt::Display for Exponents {
    fn fmt<W: fmt::Write>(&self, f: &mut fmt::Formatter<W>) -> fmt::Result {
        let (inch, kip) = self.0;
        write!(f, "{inch} {kip}")
    }
}

// a set, as the digits of its word
#[derive(Drop)]
pub struct Members(pub Set64);

impl fmt::Display for Members {
    fn fmt<W: fmt::Write>(&self, f: &mut fmt::Formatter<W>) -> fmt::Result {
        write!(f, "{:016x}", self.0.0)
    }
}

// steps of a formula, each after a space
#[derive(Drop)]
pub struct Steps<'a>(pub &'a [Step]);

impl fmt::Display for Steps<'_> {
    fn fmt<W: fmt::Write>(&self, f: &mut fmt::Formatter<W>) -> fmt::Result {
        for step in self.0 {
            match *step {
                Step::Number(count, (inch, kip)) => write!(f, " {count}@{inch},{kip}")?,
                Step::Entry(number) => write!(f, " e{number}")?,
                Step::Line(number) => write!(f, " l{number}")?,
                Step::Op(op) => write!(f, " {}", sign(op))?,
            }
        }
        Ok(())
    }
}

// (The type is of another crate, so it has no `Display` here, and a struct around it for one use is no plainer.)
fn sign(op: Op) -> &'static str {
    match op {
        Op::Add => "+",
        Op::Sub => "-",
        Op::Mul => "*",
        Op::Div => "/",
        Op::Min => "min",
        Op::Max => "max",
    }
}
