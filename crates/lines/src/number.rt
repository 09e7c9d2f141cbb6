// Numbers of a book line, as counts of thousandths.
ghost use Rattle.std.specs.Prelude.{◌≡◌, ◌+◌, ◌≤◌, true, length, take, drop};
ghost use Rattle.std.specs.Char.{is_ascii_digit};
ghost use Rattle.std.specs.List.{prefix_len};
ghost use Rattle.std.specs.Str.Parse.{AllDigits, digits_value};
ghost use Rattle.lines.specs.Tokens.{few_digits, numeral_len, counted, count_of};

use crate::token::run_len;

// At most 6 digits before the point, and 1 to 3 after it.
fn few_digits(whole: usize, decimals: usize) -> bool
    ensures value { result ≡ few_digits whole decimals }
    ensures bounds { result ≡ true → (whole ≤ 6) × (decimals ≤ 3) }
{
    whole <= 6 && (1..=3).contains(&decimals)
}

// The number that the digits write.
#[tactic(auto, using(crate::proofs::Counts::digit_steps))]
fn digits_value(digits: &[u8]) -> u32
    requires few { length digits.now ≤ 6 }
    requires digits { AllDigits 10 digits.now }
    ensures { result ≡ digits_value 10 digits.now }
{
    let mut n = 0;
    for b in digits {
        n = n * 10 + u32::from(b - b'0');
    }
    n
}

// The count of thousandths that the digits before and after a point write.
#[tactic(auto, using(crate::proofs::Counts::digit_steps))]
fn count_of(whole: &[u8], decimals: &[u8]) -> u32
    requires whole { (length whole.now ≤ 6) × (AllDigits 10 whole.now) }
    requires decimals { (length decimals.now ≤ 3) × (AllDigits 10 decimals.now) }
    ensures { result ≡ counted whole.now decimals.now }
{
    let places = decimals.len() as u32;
    digits_value(whole) * 1000 + digits_value(decimals) * 10u32.pow(3 - places)
}

// The digits at the front, and the bytes after them.
fn split_digits(bytes: &[u8]) -> (&[u8], &[u8])
    ensures front { result.0.now ≡ take (prefix_len is_ascii_digit bytes.now) bytes.now }
    ensures rest { result.1.now ≡ drop (prefix_len is_ascii_digit bytes.now) bytes.now }
    ensures digits { AllDigits 10 result.0.now }
    ensures len { length result.0.now ≡ prefix_len is_ascii_digit bytes.now }
    ensures bound { length result.0.now + length result.1.now ≡ length bytes.now }
{
    bytes.split_at(run_len(bytes, |b| b.is_ascii_digit()))
}

// How many bytes the number at the front has, with its point, and its count of thousandths, if its digits are few enough.
pub(crate) fn numeral(bytes: &[u8]) -> (usize, Option<u32>)
    ensures len { result.0 ≡ numeral_len bytes.now }
    ensures count { result.1 ≡ count_of bytes.now }
    ensures bound { result.0 ≤ length bytes.now }
{
    let (whole, rest) = split_digits(bytes);
    let [b'.', tail @ ..] = rest else {
        let few = whole.len() <= 6;
        return (whole.len(), few.then(|| count_of(whole, &[])));
    };
    let (decimals, _) = split_digits(tail);
    let few = few_digits(whole.len(), decimals.len());
    let len = whole.len() + 1 + decimals.len();
    (len, few.then(|| count_of(whole, decimals)))
}
