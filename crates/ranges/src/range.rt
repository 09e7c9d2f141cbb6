// A range of fractions, by its two ends on a grid, and the steps of a working on ranges.
ghost use Rattle.std.specs.Prelude.{◌≡◌, Ok, IsTrue, ◌↔◌};
ghost use Rattle.numbers.specs.Fractions.{Fraction, zeroᶠ, ◌≈ᶠ◌, ◌≤ᶠ◌, ◌-ᶠ◌, ◌*ᶠ◌, ◌÷ᶠ◌, thousandths};
ghost use Rattle.numbers.specs.Grids.{Answers};
ghost use Rattle.numbers.specs.Given.{count_of};
ghost use Rattle.ranges.specs.Ranges.{span, outermost, bound, corners, Corner, AtEnds, AnswersStep, Covers, HoldsZero, IsStep, StepPromise};
ghost use Rattle.ranges.specs.declared.range.Sign.TheVariants.{Plus, Minus, Times, Over, Least, Greatest};

use numbers::{Form, Grid, Refusal, Rounding, Thousandths};

// Every fraction from a low to a high value, the low not above the high.
#[derive(Clone, Copy)]
pub struct Range<F> {
    pub low: F,
    pub high: F,
}

// The signs of a formula: + - * / min max.
#[derive(Clone, Copy, PartialEq, Eq, Debug)]
pub enum Sign {
    Plus,
    Minus,
    Times,
    Over,
    Least,
    Greatest,
}

// The value that means zero.
pub(crate) fn zero<F: Grid>() -> F
    ensures { F.Grid.gauge.meaning result ≈ᶠ zeroᶠ }
{
    F::take(Thousandths::ZERO, Rounding::Down)
}

// x minus y.
fn minus<F: Form>(x: F, y: F, rounding: Rounding) -> Result<F, Refusal>
    ensures { Answers F.Grid.gauge rounding (F.Grid.gauge.meaning x -ᶠ F.Grid.gauge.meaning y) result }
{
    x.add(y.negated(), rounding)
}

// The lesser of two values, or the greater where rounding is up.
fn extreme<F: Grid>(x: F, y: F, rounding: Rounding) -> F
    ensures { result ≡ outermost F.Grid.gauge rounding x y }
{
    let ordered = x.at_most(y);
    match rounding {
        Rounding::Down => if ordered { x } else { y },
        Rounding::Up => if ordered { y } else { x },
    }
}

// Whether x is at most zero.
pub(crate) fn at_most_zero<F: Grid>(x: F) -> bool
    ensures { IsTrue result ↔ (F.Grid.gauge.meaning x ≤ᶠ zeroᶠ) }
{
    x.at_most(zero::<F>())
}

// Whether x is at least zero.
pub(crate) fn at_least_zero<F: Grid>(x: F) -> bool
    ensures { IsTrue result ↔ (zeroᶠ ≤ᶠ F.Grid.gauge.meaning x) }
{
    zero::<F>().at_most(x)
}

// The least of four values, or the greatest where rounding is up.
fn extreme_of_four<F: Grid>(ll: F, lh: F, hl: F, hh: F, rounding: Rounding) -> F
    ensures { result ≡ outermost F.Grid.gauge rounding (outermost F.Grid.gauge rounding ll lh) (outermost F.Grid.gauge rounding hl hh) }
{
    let low_side = extreme(ll, lh, rounding);
    let high_side = extreme(hl, hh, rounding);
    extreme(low_side, high_side, rounding)
}

impl<F: Grid> Range<F> {
    // The range of the fractions from low to high.
    pub fn take(low: Thousandths, high: Thousandths) -> Range<F>
        ensures { Covers F.Grid.gauge (record { low = thousandths (count_of low); high = thousandths (count_of high) }) result }
    {
        Range {
            low: F::take(low, Rounding::Down),
            high: F::take(high, Rounding::Up),
        }
    }

    // Whether zero lies between the ends.
    fn holds_zero(self) -> bool
        ensures { IsTrue result ↔ (HoldsZero (span F.Grid.gauge self)) }
    {
        (at_most_zero(self.low) && at_least_zero(self.high))
            || (at_most_zero(self.high) && at_least_zero(self.low))
    }

    // The lesser low and the lesser high, or the greater where rounding is up.
    fn extremes(self, other: Range<F>, rounding: Rounding) -> Range<F>
        ensures { IsStep F.Grid.gauge (bound rounding) (span F.Grid.gauge self) (span F.Grid.gauge other) (Ok result) }
    {
        Range {
            low: extreme(self.low, other.low, rounding),
            high: extreme(self.high, other.high, rounding),
        }
    }

    // The lesser low and the lesser high.
    pub fn min(self, other: Range<F>) -> Range<F>
        ensures { IsStep F.Grid.gauge Least (span F.Grid.gauge self) (span F.Grid.gauge other) (Ok result) }
    {
        self.extremes(other, Rounding::Down)
    }

    // The greater low and the greater high.
    pub fn max(self, other: Range<F>) -> Range<F>
        ensures { IsStep F.Grid.gauge Greatest (span F.Grid.gauge self) (span F.Grid.gauge other) (Ok result) }
    {
        self.extremes(other, Rounding::Up)
    }
}

impl<F: Form> Range<F> {
    // Low plus low, down; high plus high, up.
    pub fn sum(self, other: Range<F>) -> Result<Range<F>, Refusal>
        ensures { IsStep F.Grid.gauge Plus (span F.Grid.gauge self) (span F.Grid.gauge other) result }
    {
        let low = self.low.add(other.low, Rounding::Down)?;
        let high = self.high.add(other.high, Rounding::Up)?;
        Ok(Range { low, high })
    }

    // Low minus the other's high, down; high minus the other's low, up.
    pub fn difference(self, other: Range<F>) -> Result<Range<F>, Refusal>
        ensures { IsStep F.Grid.gauge Minus (span F.Grid.gauge self) (span F.Grid.gauge other) result }
    {
        let low = minus(self.low, other.high, Rounding::Down)?;
        let high = minus(self.high, other.low, Rounding::Up)?;
        Ok(Range { low, high })
    }

    // The least of a step's four results at two ends, down, or the greatest, up.
    fn outer_end<S: Fn(F, F, Rounding) -> Result<F, Refusal>>(
        self,
        step: S,
        other: Range<F>,
        rounding: Rounding,
    ) -> Result<F, Refusal>
        requires { S.IsAlwaysCallable step }
        ensures { (exact : Fraction → Fraction → Fraction) → AtEnds (AnswersStep F.Grid.gauge exact (S.post step) rounding) self other → Corner F.Grid.gauge rounding (corners exact (span F.Grid.gauge self) (span F.Grid.gauge other)) result }
    {
        // One line each: a loop over the four pairs has an invariant that says the same, and is no shorter.
        let ll = step(self.low, other.low, rounding)?;
        let lh = step(self.low, other.high, rounding)?;
        let hl = step(self.high, other.low, rounding)?;
        let hh = step(self.high, other.high, rounding)?;
        Ok(extreme_of_four(ll, lh, hl, hh, rounding))
    }

    // The outer one of the four products of ends. (Like `outer_quotient` it shows of its step what `outer_end` asks, which each shows in its own way.)
    fn outer_product(self, other: Range<F>, rounding: Rounding) -> Result<F, Refusal>
        ensures { Corner F.Grid.gauge rounding (corners ◌*ᶠ◌ (span F.Grid.gauge self) (span F.Grid.gauge other)) result }
    {
        self.outer_end(F::multiply, other, rounding)
    }

    // The outer one of the four quotients of ends.
    fn outer_quotient(self, other: Range<F>, rounding: Rounding) -> Result<F, Refusal>
        requires { ¬ (HoldsZero (span F.Grid.gauge other)) }
        ensures { Corner F.Grid.gauge rounding (corners ◌÷ᶠ◌ (span F.Grid.gauge self) (span F.Grid.gauge other)) result }
    {
        self.outer_end(F::divide, other, rounding)
    }

    // The least of the four products of ends, down; the greatest, up.
    pub fn product(self, other: Range<F>) -> Result<Range<F>, Refusal>
        ensures { IsStep F.Grid.gauge Times (span F.Grid.gauge self) (span F.Grid.gauge other) result }
    {
        let low = self.outer_product(other, Rounding::Down)?;
        let high = self.outer_product(other, Rounding::Up)?;
        Ok(Range { low, high })
    }

    // The least of the four quotients of ends, down; the greatest, up.
    pub fn quotient(self, other: Range<F>) -> Result<Range<F>, Refusal>
        ensures { IsStep F.Grid.gauge Over (span F.Grid.gauge self) (span F.Grid.gauge other) result }
    {
        if other.holds_zero() {
            return Err(Refusal::ZeroDivisor);
        }
        let low = self.outer_quotient(other, Rounding::Down)?;
        let high = self.outer_quotient(other, Rounding::Up)?;
        Ok(Range { low, high })
    }

    // What `step` does: the proof is written out here, so that a wrong line there is refused as a fact that does not hold.
    fn stepped(self, sign: Sign, other: Range<F>) -> Result<Range<F>, Refusal>
        ensures { StepPromise F.Grid.gauge sign (span F.Grid.gauge self) (span F.Grid.gauge other) result }
    {
        match sign {
            Sign::Plus => self.sum(other),
            Sign::Minus => self.difference(other),
            Sign::Times => self.product(other),
            Sign::Over => self.quotient(other),
            Sign::Least => Ok(self.min(other)),
            Sign::Greatest => Ok(self.max(other)),
        }
    }

    // One step of a formula.
    pub fn step(self, sign: Sign, other: Range<F>) -> Result<Range<F>, Refusal>
        ensures { StepPromise F.Grid.gauge sign (span F.Grid.gauge self) (span F.Grid.gauge other) result }
    {
        self.stepped(sign, other)
    }
}
