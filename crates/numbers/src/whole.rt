// Whole numbers of a width, and the quotient of two, rounded as told.
ghost use Rattle.std.specs.Prelude.{◌≡◌, ◌-◌, ◌^◌, ◌<◌, ◌≤◌, ℕ, ℤ, pos, ◌*ℤ◌, neg_ℤ, Decides, unsigned_abs};
ghost use Rattle.std.specs.Int.{int_div_euclid};
ghost use Rattle.numbers.specs.Grids.{IsQuotient};

use crate::grid::Rounding;

// Signed whole numbers of a width. The impls are alike, since each operator and its contract is the width's own.
pub(crate) trait Whole: Copy {
    ghost value: { Self → ℤ };

    // How far from zero they go on both sides.
    ghost far: { ℕ };

    // a * b
    fn product(a: i64, b: i64) -> Self
        requires { unsigned_abs (a *ℤ b) ≤ far }
        ensures { value result ≡ a *ℤ b };

    // -self
    fn negated(self) -> Self
        requires { unsigned_abs (value self) ≤ far }
        ensures { value result ≡ neg_ℤ (value self) };

    // The greatest whole number not above self / d.
    fn floor(self, d: u64) -> Self
        requires positive { 0 < d }
        requires small { d < 2 ^ 63 }
        ensures { value result ≡ int_div_euclid (value self) (pos d) };

    // How far from zero self lies.
    fn size(self) -> u128
        ensures { result ≡ unsigned_abs (value self) };

    // The same in 64 bits.
    fn narrow(self) -> i64
        requires { unsigned_abs (value self) < 2 ^ 63 }
        ensures { result ≡ value self };
}

impl Whole for i64 {
    ghost value = { λ n. n };

    ghost far = { 2 ^ 63 - 1 };

    fn product(a: i64, b: i64) -> i64 {
        a * b
    }

    fn negated(self) -> i64 {
        -self
    }

    fn floor(self, d: u64) -> i64 {
        self.div_euclid(d as i64)
    }

    fn size(self) -> u128 {
        u128::from(self.unsigned_abs())
    }

    fn narrow(self) -> i64 {
        self
    }
}

impl Whole for i128 {
    ghost value = { λ n. n };

    ghost far = { 2 ^ 127 - 1 };

    fn product(a: i64, b: i64) -> i128 {
        i128::from(a) * i128::from(b)
    }

    fn negated(self) -> i128 {
        -self
    }

    fn floor(self, d: u64) -> i128 {
        self.div_euclid(i128::from(d))
    }

    fn size(self) -> u128 {
        self.unsigned_abs()
    }

    fn narrow(self) -> i64 {
        self as i64
    }
}

// n / d, where n can be negated and d is positive.
#[derive(Drop)]
pub(crate) struct Ratio<W: Whole> {
    pub(crate) n: W,
    pub(crate) d: u64,
    ghost turns: { unsigned_abs (W.value n) ≤ W.far },
    ghost positive: { 0 < d },
    ghost small: { d < 2 ^ 63 },
}

impl<W: Whole> Ratio<W> {
    // Whether it lies farther from zero than the limit.
    pub(crate) fn exceeds(&self, limit: i64) -> bool
        requires { unsigned_abs (limit *ℤ pos self.now.d) ≤ W.far }
        ensures { Decides result (unsigned_abs (limit *ℤ pos self.now.d) < unsigned_abs (W.value self.now.n)) }
    {
        W::product(limit, self.d as i64).size() < self.n.size()
    }

    // As a whole number.
    pub(crate) fn rounded(self, rounding: Rounding) -> W
        ensures { IsQuotient rounding (W.value self.n) self.d (W.value result) }
    {
        match rounding {
            Rounding::Down => self.n.floor(self.d),
            Rounding::Up => self.n.negated().floor(self.d).negated(),
        }
    }
}
