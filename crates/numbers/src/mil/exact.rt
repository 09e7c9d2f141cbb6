// Reading a mil exactly.
ghost use Rattle.numbers.specs.Fractions.{◌≈ᶠ◌, thousandths};
ghost use Rattle.numbers.specs.Forms.{mil};

use crate::mil::Mil;

impl Mil {
    // The value in thousandths, exactly.
    pub fn thousandths(self) -> i64
        ensures { mil.meaning self ≈ᶠ thousandths result }
    {
        self.count
    }
}
