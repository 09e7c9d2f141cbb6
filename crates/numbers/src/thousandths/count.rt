// Making a count of thousandths, and reading it.
ghost use Rattle.std.specs.Prelude.{◌≡◌, MatchOption};
ghost use Rattle.numbers.specs.Grids.{Few};
ghost use Rattle.numbers.specs.Given.{count_of};

use crate::thousandths::Thousandths;

impl Thousandths {
    pub const ZERO: Thousandths = Thousandths { count: 0 };

    // None where there are too many.
    pub fn new(count: i32) -> Option<Thousandths>
        ensures { MatchOption result (Few count → ⊥) (λ t. count_of t ≡ count) }
    {
        if (-999_999_999..=999_999_999).contains(&count) {
            Some(Thousandths { count })
        } else {
            None
        }
    }

    pub fn count(self) -> i32
        ensures { result ≡ count_of self }
    {
        self.count
    }
}
