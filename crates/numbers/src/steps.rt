// Forms of equal steps: every multiple of one step from minus the top to the top.
ghost use Rattle.std.specs.Prelude.{◌≡◌, ◌≤◌, ℤ, unsigned_abs, refl};
ghost use Rattle.numbers.specs.Steps.{Steps, evenly};
ghost use Rattle.numbers.specs.Scales.{of_steps, steps_fit};
ghost use Rattle.numbers.specs.Evenly.{even_grid};
ghost use Rattle.numbers.specs.Orders.{≤ᶠ_refl};

use crate::counted::Counted;
use crate::grid::Rounding;

// A value that counts steps.
pub(crate) trait EqualSteps: Copy {
    ghost steps: { Steps };

    ghost counts: { Self → ℤ };

    // How many steps make one.
    fn per_one() -> u32
        ensures { result ≡ steps.per_one };

    // How many steps the top has.
    fn most() -> u32
        ensures { result ≡ steps.most };

    fn count(self) -> i64
        ensures { result ≡ counts self };

    fn of(count: i64) -> Self
        requires { unsigned_abs count ≤ steps.most }
        ensures { counts result ≡ count };

    ghost within: { (v : Self) → unsigned_abs (counts v) ≤ steps.most };

    ghost every: { (n : ℤ) → unsigned_abs n ≤ steps.most → (v : Self) × (counts v ≡ n) };
}

impl<S: EqualSteps> Counted for S {
    type Wide = i64;

    ghost gauge = { evenly S.EqualSteps.steps S.EqualSteps.counts };

    ghost scale = { of_steps S.EqualSteps.steps };

    ghost counts = { S.EqualSteps.counts };

    ghost means = { λ v. refl };

    ghost within = { S.EqualSteps.within };

    ghost top = { (≤ᶠ_refl _, ≤ᶠ_refl _) };

    ghost fits = { steps_fit S.EqualSteps.steps };

    ghost grid = { even_grid S.EqualSteps.steps S.EqualSteps.counts S.EqualSteps.within S.EqualSteps.every };

    fn per_one() -> u32 {
        <S as EqualSteps>::per_one()
    }

    fn most() -> i64 {
        i64::from(<S as EqualSteps>::most())
    }

    fn thousandths() -> (u32, u32) {
        (<S as EqualSteps>::per_one(), 1000)
    }

    fn count(self) -> i64 {
        <S as EqualSteps>::count(self)
    }

    fn turned(self) -> S {
        S::of(-<S as EqualSteps>::count(self))
    }

    // Each count is one of a value.
    fn nearest(count: i64, _rounding: Rounding) -> S {
        S::of(count)
    }
}
