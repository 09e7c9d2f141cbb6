// Verdicts over a left and a right range.
ghost use Rattle.std.specs.Prelude.{Ok, Some, IsTrue, ◌↔◌};
ghost use Rattle.numbers.specs.Fractions.{zeroᶠ, ◌<ᶠ◌};
ghost use Rattle.ranges.specs.Ranges.{span};
ghost use Rattle.ranges.specs.Verdicts.{SquareOf, RootHolds, RootBreaks, Judges, VerdictPromise, word};
ghost use Rattle.ranges.specs.declared.verdict.Kind.TheVariants.{Plain, Root};

use crate::range::{Range, at_least_zero, at_most_zero, zero};
use numbers::{Form, Grid, Refusal, Rounding};
use std::fmt;

// Left at most right, or left at most the root of right.
#[derive(Clone, Copy, PartialEq, Eq, Debug)]
pub enum Kind {
    Plain,
    Root,
}

// True at every choice from the two ranges, false at every choice, or neither known.
#[derive(Clone, Copy, PartialEq, Eq, Debug)]
pub enum Verdict {
    Holds = 1,
    Breaks = 2,
    Open = 3,
}

impl fmt::Display for Verdict {
    ghost output = { λ verdict. Some (word verdict) };

    fn fmt<W: fmt::Write>(&self, f: &mut fmt::Formatter<W>) -> fmt::Result {
        match self {
            Verdict::Holds => f.write_str("holds"),
            Verdict::Breaks => f.write_str("breaks"),
            Verdict::Open => f.write_str("open"),
        }
    }
}

// The sides of a rule stay two arguments, as those of left ≤ right are: a struct of both would be taken apart at once.

// Whether x is above zero.
fn above_zero<F: Grid>(x: F) -> bool
    ensures { IsTrue result ↔ (zeroᶠ <ᶠ F.Grid.gauge.meaning x) }
{
    !at_most_zero(x)
}

// x squared, wanted only where x is above zero: else it is never refused.
fn square<F: Form>(x: F, rounding: Rounding) -> Result<F, Refusal>
    ensures { SquareOf F.Grid.gauge rounding (F.Grid.gauge.meaning x) result }
{
    if above_zero(x) {
        x.multiply(x, rounding)
    } else {
        Ok(zero())
    }
}

// Whether the root rule holds; `up` is the square of left's high, where that is above zero.
fn root_holds<F: Grid>(left: Range<F>, right: Range<F>, up: F) -> bool
    ensures { IsTrue result ↔ (RootHolds F.Grid.gauge (span F.Grid.gauge left) (span F.Grid.gauge right) up) }
{
    at_least_zero(right.low) && (at_most_zero(left.high) || up.at_most(right.low))
}

// Whether the root rule breaks; `down` is the square of left's low, where that is above zero.
fn root_breaks<F: Grid>(left: Range<F>, right: Range<F>, down: F) -> bool
    ensures { IsTrue result ↔ (RootBreaks F.Grid.gauge (span F.Grid.gauge left) (span F.Grid.gauge right) down) }
{
    !at_least_zero(right.high) || (above_zero(left.low) && !down.at_most(right.high))
}

fn judge_plain<F: Grid>(left: Range<F>, right: Range<F>) -> Verdict
    ensures { Judges F.Grid.gauge Plain (span F.Grid.gauge left) (span F.Grid.gauge right) (Ok result) }
{
    if left.high.at_most(right.low) {
        Verdict::Holds
    } else if left.low.at_most(right.high) {
        Verdict::Open
    } else {
        Verdict::Breaks
    }
}

fn judge_root<F: Form>(left: Range<F>, right: Range<F>) -> Result<Verdict, Refusal>
    ensures { Judges F.Grid.gauge Root (span F.Grid.gauge left) (span F.Grid.gauge right) result }
{
    let up = square(left.high, Rounding::Up)?;
    let down = square(left.low, Rounding::Down)?;
    if root_holds(left, right, up) {
        return Ok(Verdict::Holds);
    }
    if root_breaks(left, right, down) {
        return Ok(Verdict::Breaks);
    }
    Ok(Verdict::Open)
}

// What `judge` does: the proof is written out here, so that a wrong line there is refused as a fact that does not hold.
fn judged<F: Form>(kind: Kind, left: Range<F>, right: Range<F>) -> Result<Verdict, Refusal>
    ensures { VerdictPromise F.Grid.gauge kind (span F.Grid.gauge left) (span F.Grid.gauge right) result }
{
    match kind {
        Kind::Plain => Ok(judge_plain(left, right)),
        Kind::Root => judge_root(left, right),
    }
}

// The verdict over a left and a right range.
pub fn judge<F: Form>(kind: Kind, left: Range<F>, right: Range<F>) -> Result<Verdict, Refusal>
    ensures { VerdictPromise F.Grid.gauge kind (span F.Grid.gauge left) (span F.Grid.gauge right) result }
{
    judged(kind, left, right)
}
