// Values read out exactly.
ghost use Rattle.numbers.specs.Fractions.{◌≈ᶠ◌, millionths};

use numbers::{Form, Mil, Sig};

// A form whose every value is a whole number of millionths.
pub(crate) trait Exact: Form {
    fn exact(self) -> i64
        ensures { Self.Grid.gauge.meaning self ≈ᶠ millionths result };
}

impl Exact for Mil {
    fn exact(self) -> i64 {
        self.thousandths() * 1000
    }
}

impl Exact for Sig {
    fn exact(self) -> i64 {
        self.millionths()
    }
}
