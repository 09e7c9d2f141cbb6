// Values that count so many of 1/s, and the grid and the form that follow from the counts.
ghost use Rattle.std.specs.Prelude.{◌≡◌, ◌*◌, ◌<◌, ◌≤◌, ℤ, pos, unsigned_abs};
ghost use Rattle.numbers.specs.Fractions.{◌≈ᶠ◌, over};
ghost use Rattle.numbers.specs.Grids.{Gauge, IsGrid, IsRounded, Answers, Compares, Negates, Takes, Shows, Adds, Multiplies, Divides};
ghost use Rattle.numbers.specs.Given.{count_of};
ghost use Rattle.numbers.specs.Scales.{Scale};

use crate::grid::{Form, Grid, Refusal, Rounding};
use crate::thousandths::Thousandths;
use crate::whole::{Ratio, Whole};

// A value that counts so many of 1/per_one. All else of a grid and a form follows from these, below.
pub(crate) trait Counted: Copy {
    // Holds the product of two counts.
    type Wide: Whole;

    ghost gauge: { Gauge Self };

    ghost scale: { Scale };

    ghost counts: { Self → ℤ };

    fn per_one() -> u32
        ensures { result ≡ scale.per_one };

    // What the top counts.
    fn most() -> i64
        ensures { result ≡ pos scale.most };

    // So many counts make so many thousandths.
    fn thousandths() -> (u32, u32)
        ensures counts { result.0 ≡ scale.part }
        ensures thousandths { result.1 ≡ scale.parts };

    fn count(self) -> i64
        ensures { result ≡ counts self };

    // The value on the other side of zero.
    fn turned(self) -> Self
        ensures { Negates gauge self result };

    // A count within reach, rounded to a value as told.
    fn nearest(count: i64, rounding: Rounding) -> Self
        requires { unsigned_abs count ≤ scale.most }
        ensures { IsRounded gauge.meaning rounding (over scale.per_one scale.some count) result };

    ghost means: { (v : Self) → gauge.meaning v ≡ over scale.per_one scale.some (counts v) };

    ghost within: { (v : Self) → unsigned_abs (counts v) ≤ scale.most };

    ghost top: { gauge.top ≈ᶠ over scale.per_one scale.some (pos scale.most) };

    ghost fits: { scale.most * scale.most ≤ Self.Wide.far };

    ghost grid: { IsGrid gauge };
}

// The working stands apart from the methods below: its proof is written out, so that a wrong line there is refused as a fact that does not hold.

// So many counts, rounded as told. Inlined, it is as fast as one for each form.
#[inline]
fn rounded<C: Counted, W: Whole>(ratio: Ratio<W>, rounding: Rounding) -> Result<C, Refusal>
    requires { C.Counted.scale.most * ratio.d ≤ W.far }
    ensures { (h : 0 < C.Counted.scale.per_one * ratio.d) → Answers C.Counted.gauge rounding (over (C.Counted.scale.per_one * ratio.d) h (W.value ratio.n)) result }
{
    if ratio.exceeds(C::most()) {
        return Err(Refusal::BeyondReach);
    }
    Ok(C::nearest(ratio.rounded(rounding).narrow(), rounding))
}

fn ordered<C: Counted>(left: C, right: C) -> bool
    ensures { Compares C.Counted.gauge left right result }
{
    left.count() <= right.count()
}

fn taken<C: Counted>(given: Thousandths, rounding: Rounding) -> C
    ensures { Takes C.Counted.gauge rounding (count_of given) result }
{
    let (counts, thousandths) = C::thousandths();
    let ratio = Ratio {
        n: i64::from(given.count()) * i64::from(counts),
        d: u64::from(thousandths),
    };
    C::nearest(ratio.rounded(rounding), rounding)
}

fn shown<C: Counted>(value: C, rounding: Rounding) -> i64
    ensures { Shows C.Counted.gauge rounding value result }
{
    let (counts, thousandths) = C::thousandths();
    let ratio = Ratio {
        n: value.count() * i64::from(thousandths),
        d: u64::from(counts),
    };
    ratio.rounded(rounding)
}

fn sum<C: Counted>(left: C, right: C, rounding: Rounding) -> Result<C, Refusal>
    ensures { Adds C.Counted.gauge rounding left right result }
{
    let n = left.count() + right.count();
    rounded(Ratio { n, d: 1 }, rounding)
}

fn product<C: Counted>(left: C, right: C, rounding: Rounding) -> Result<C, Refusal>
    ensures { Multiplies C.Counted.gauge rounding left right result }
{
    let n = C::Wide::product(left.count(), right.count());
    let d = u64::from(C::per_one());
    rounded(Ratio { n, d }, rounding)
}

fn quotient<C: Counted>(left: C, right: C, rounding: Rounding) -> Result<C, Refusal>
    ensures { Divides C.Counted.gauge rounding left right result }
{
    let divisor = right.count();
    if divisor == 0 {
        return Err(Refusal::ZeroDivisor);
    }
    let n = C::Wide::product(left.count() * divisor.signum(), i64::from(C::per_one()));
    let d = divisor.unsigned_abs();
    rounded(Ratio { n, d }, rounding)
}

impl<C: Counted> Grid for C {
    ghost gauge = { C.Counted.gauge };

    ghost grid = { C.Counted.grid };

    fn at_most(self, other: C) -> bool {
        ordered(self, other)
    }

    fn negated(self) -> C {
        self.turned()
    }

    fn take(given: Thousandths, rounding: Rounding) -> C {
        taken(given, rounding)
    }

    fn show(self, rounding: Rounding) -> i64 {
        shown(self, rounding)
    }
}

impl<C: Counted> Form for C {
    fn add(self, other: C, rounding: Rounding) -> Result<C, Refusal> {
        sum(self, other, rounding)
    }

    fn multiply(self, other: C, rounding: Rounding) -> Result<C, Refusal> {
        product(self, other, rounding)
    }

    fn divide(self, other: C, rounding: Rounding) -> Result<C, Refusal> {
        quotient(self, other, rounding)
    }
}
