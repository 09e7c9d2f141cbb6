// The working of the form "sig", in counts of millionths.
ghost use Rattle.std.specs.Prelude.{◌≡◌, ◌^◌, pos, ◌*ℤ◌, refl};
ghost use Rattle.numbers.specs.Fractions.{◌≈ᶠ◌, millionths};
ghost use Rattle.numbers.specs.Forms.{sig};
ghost use Rattle.numbers.specs.Scales.{sig_scale};
ghost use Rattle.numbers.specs.Sigs.{count, count_bound, sig_top, sig_fits, grid};

use crate::counted::Counted;
use crate::grid::Rounding;
use crate::sig::Sig;
use crate::whole::Ratio;

impl Counted for Sig {
    type Wide = i128;

    ghost gauge = { sig };

    ghost scale = { sig_scale };

    ghost counts = { count };

    ghost means = { λ v. refl };

    ghost within = { count_bound };

    ghost top = { sig_top };

    ghost fits = { sig_fits };

    ghost grid = { grid };

    fn per_one() -> u32 {
        1_000_000
    }

    fn most() -> i64 {
        999_999_000_000_000_000
    }

    fn thousandths() -> (u32, u32) {
        (1000, 1)
    }

    fn count(self) -> i64 {
        self.counted()
    }

    fn turned(self) -> Sig {
        Sig {
            mantissa: -self.mantissa,
            exponent: self.exponent,
        }
    }

    fn nearest(count: i64, rounding: Rounding) -> Sig {
        let mut mantissa = count;
        let mut exponent = 0;
        // `unsigned_abs` is slower here, and with `contains` the proof did not close.
        while mantissa < -999_999 || 999_999 < mantissa {
            mantissa = Ratio { n: mantissa, d: 10 }.rounded(rounding);
            exponent += 1;
        }
        Sig {
            mantissa: mantissa as i32,
            exponent,
        }
    }
}

impl Sig {
    // What `count` gives: the proof is written out here, so that a wrong line there is refused as a fact that does not hold.
    fn counted(self) -> i64
        ensures { result ≡ self.mantissa *ℤ pos (10 ^ self.exponent) }
    {
        i64::from(self.mantissa) * 10i64.pow(u32::from(self.exponent))
    }

    // The value in millionths, exactly.
    pub fn millionths(self) -> i64
        ensures { sig.meaning self ≈ᶠ millionths result }
    {
        Sig::count(self)
    }
}
