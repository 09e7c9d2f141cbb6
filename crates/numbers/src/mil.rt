// The form "mil": every multiple of 1/1000 up to a top of 3,000,000.
ghost use Rattle.std.specs.Prelude.{◌≤◌, unsigned_abs, refl};
ghost use Rattle.numbers.specs.Steps.{mil_steps};

use crate::steps::EqualSteps;

mod exact;

// So many thousandths.
#[derive(Clone, Copy)]
pub struct Mil {
    count: i64,
    ghost within: { unsigned_abs count ≤ 3000000000 },
}

impl EqualSteps for Mil {
    ghost steps = { mil_steps };

    ghost counts = { λ v. v.count };

    ghost within = { λ v. v.within };

    ghost every = { λ n h. (record { count = n; within = h }, refl) };

    fn per_one() -> u32 {
        1000
    }

    fn most() -> u32 {
        3_000_000_000
    }

    fn count(self) -> i64 {
        self.count
    }

    fn of(count: i64) -> Mil {
        Mil { count }
    }
}
