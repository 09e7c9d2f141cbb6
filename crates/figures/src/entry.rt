// What a working starts from, as it is typed.
ghost use Rattle.std.specs.Prelude.{◌≡◌, ◌≤ℤ◌, MatchOption};
ghost use Rattle.numbers.specs.Given.{count_of};
ghost use Rattle.numbers.specs.Grids.{Few};

use numbers::Thousandths;
use ranges::Sign;

// A range in thousandths, its low not above its high.
#[derive(Clone, Copy)]
pub struct Entry {
    pub low: Thousandths,
    pub high: Thousandths,
    ghost ordered: { count_of low ≤ℤ count_of high },
}

impl Entry {
    // None where low is above high, or an end has too many thousandths.
    pub fn new(low: i32, high: i32) -> Option<Entry>
        ensures { MatchOption result (¬ (Few low × Few high × (low ≤ℤ high))) (λ e. (count_of e.low ≡ low) × (count_of e.high ≡ high)) }
    {
        if low > high {
            return None;
        }
        Some(Entry {
            low: Thousandths::new(low)?,
            high: Thousandths::new(high)?,
        })
    }
}

// A range that stands in a formula, and how it is written there.
#[derive(Clone, Copy)]
pub struct Operand<'a> {
    pub text: &'a str,
    pub entry: Entry,
}

impl<'a> Operand<'a> {
    // With the sign that it stands right of.
    pub(crate) fn after(self, sign: Sign) -> Link<'a>
        ensures { result ≡ record { sign = sign; operand = self.entry } }
    {
        Link {
            sign,
            operand: self,
        }
    }
}

// A sign and what stands right of it.
#[derive(Clone, Copy)]
pub struct Link<'a> {
    pub sign: Sign,
    pub operand: Operand<'a>,
}

// An operand, and then steps from the left.
#[derive(Clone, Copy)]
pub struct Working<'a> {
    pub first: Operand<'a>,
    pub links: &'a [Link<'a>],
}

impl<'a> Working<'a> {
    ghost use Rattle.std.specs.Prelude.{[]};
    ghost use Rattle.figures.specs.Workings.{given, chained};

    // One operand and no step.
    pub(crate) fn alone(operand: Operand<'a>) -> Working<'a>
        ensures { chained result ≡ record { first = given operand.entry.entry; rest = [] } }
    {
        Working {
            first: operand,
            links: &[],
        }
    }
}

// The form that a working is done in.
#[derive(Clone, Copy)]
pub enum FormName {
    Mil,
    Sig,
}

// The ends of a range, in millionths.
#[derive(Clone, Copy)]
pub struct Ends {
    pub low: i64,
    pub high: i64,
}
