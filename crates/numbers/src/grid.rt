// Grids of fractions, and forms of numbers that round to them.
ghost use Rattle.numbers.specs.Grids.{Gauge, IsGrid, Compares, Negates, Takes, Shows, Adds, Multiplies, Divides};
ghost use Rattle.numbers.specs.Given.{count_of};

use crate::thousandths::Thousandths;

// Down is to the greatest value not above, up to the least not below.
#[derive(Clone, Copy)]
pub enum Rounding {
    Down,
    Up,
}

// Why a form gives no result, by the number of the refusal.
#[derive(Clone, Copy, PartialEq, Eq, Debug)]
pub enum Refusal {
    BeyondReach = 13,
    ZeroDivisor = 14,
}

// Values that each mean a fraction, of a finite set that holds zero and all negatives.
pub trait Grid: Copy {
    // The fraction that a value means, the greatest of them, and how a fraction is rounded.
    ghost gauge: { Gauge Self };

    fn at_most(self, other: Self) -> bool
        ensures { Compares gauge self other result };

    fn negated(self) -> Self
        ensures { Negates gauge self result };

    fn take(given: Thousandths, rounding: Rounding) -> Self
        ensures { Takes gauge rounding (count_of given) result };

    // The value in whole thousandths.
    fn show(self, rounding: Rounding) -> i64
        ensures { Shows gauge rounding self result };

    ghost grid: { IsGrid gauge };
}

// A grid with arithmetic, each exact result rounded as told.
pub trait Form: Grid {
    fn add(self, other: Self, rounding: Rounding) -> Result<Self, Refusal>
        ensures { Adds Self.Grid.gauge rounding self other result };

    fn multiply(self, other: Self, rounding: Rounding) -> Result<Self, Refusal>
        ensures { Multiplies Self.Grid.gauge rounding self other result };

    fn divide(self, other: Self, rounding: Rounding) -> Result<Self, Refusal>
        ensures { Divides Self.Grid.gauge rounding self other result };
}
