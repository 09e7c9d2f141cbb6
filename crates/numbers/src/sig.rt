// The form "sig": every m * 10^e with m whole from -999,999 to 999,999 and e whole from -6 to 6.
ghost use Rattle.std.specs.Prelude.{◌≤◌, unsigned_abs};

mod working;

// `mantissa` times 10 to the power `exponent`, in millionths.
#[derive(Clone, Copy)]
pub struct Sig {
    mantissa: i32,
    exponent: u8,
    ghost six: { unsigned_abs mantissa ≤ 999999 },
    ghost power: { exponent ≤ 12 },
}
