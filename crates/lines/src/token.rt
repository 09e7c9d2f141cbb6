// The parts of a book line: words, numbers and signs, each with its place.
ghost use Rattle.std.specs.Prelude.{◌≡◌, ℕ, ◌+◌, ◌^◌, ◌<◌, ◌≤◌, Bool, length, drop};
ghost use Rattle.std.specs.List.{prefix_len};
ghost use Rattle.lines.specs.Tokens.{is_blank, front_sign, least, tok, place, number_tok, number_width, sign_tok, sign_width, part, width, front, after, parts, up_to, Placed, Cuts};

use crate::number::numeral;
use crate::word::{Unit, unit_of};

#[derive(Clone, Copy, PartialEq, Eq, Debug)]
pub enum Sign {
    Plus,
    Minus,
    Times,
    Over,
    Open,
    Close,
    Comma,
    Equals,
    Colon,
    AtMost,
}

// some bytes of the line, and where they start
#[derive(Clone, Copy)]
pub struct Part<'a> {
    pub text: &'a [u8],
    pub start: usize,
}

#[derive(Clone, Copy)]
pub enum Token<'a> {
    Word(Part<'a>),
    // the digits with their point, their count of thousandths, and the unit
    Number(Part<'a>, u32, Unit),
    // a number with too many digits, or a point with no digit after it
    Malformed(Part<'a>),
    Sign(Sign, usize),
    // a byte with which no part begins
    Other(usize),
    End(usize),
}

// How many bytes at the front pass the test.
pub(crate) fn run_len<F: Fn(u8) -> bool>(bytes: &[u8], test: F) -> usize
    requires { F.IsAlwaysCallable test }
    ensures value { (p : ℕ → Bool) → ((b : ℕ) (passes : Bool) → F.post test b passes → passes ≡ p b) → result ≡ prefix_len p bytes.now }
    ensures bound { result ≤ length bytes.now }
{
    bytes.iter().take_while(|b| test(**b)).count()
}

// The sign at the front.
fn sign_of(bytes: &[u8]) -> Option<Sign>
    ensures { result ≡ front_sign bytes.now }
{
    match bytes {
        [b'+', ..] => Some(Sign::Plus),
        [b'-', ..] => Some(Sign::Minus),
        [b'*', ..] => Some(Sign::Times),
        [b'/', ..] => Some(Sign::Over),
        [b'(', ..] => Some(Sign::Open),
        [b')', ..] => Some(Sign::Close),
        [b',', ..] => Some(Sign::Comma),
        [b'=', ..] => Some(Sign::Equals),
        [b':', ..] => Some(Sign::Colon),
        [b'<', b'=', ..] => Some(Sign::AtMost),
        _ => None,
    }
}

impl<'a> Part<'a> {
    // The number at the front, and how many bytes it has with its unit.
    fn number(self) -> (Token<'a>, usize)
        requires { self.start + length self.text.now < 2 ^ 63 }
        ensures { Cuts self.entry (number_tok self.entry.text.now) (number_width self.entry.text.now) result }
    {
        let (n, count) = numeral(self.text);
        let (text, rest) = self.text.split_at(n);
        let part = Part { text, ..self };
        let Some(count) = count else {
            return (Token::Malformed(part), n);
        };
        let (word, _) = rest.split_at(run_len(rest, |b| b.is_ascii_alphanumeric()));
        match unit_of(word) {
            Some(unit) => (Token::Number(part, count, unit), n + word.len()),
            None => (Token::Number(part, count, (0, 0)), n),
        }
    }

    // The sign at the front, if one stands there, and how many bytes it has.
    fn sign(self) -> (Token<'a>, usize)
        requires { 0 < length self.text.now }
        ensures { Cuts self.entry (sign_tok (front_sign self.entry.text.now)) (sign_width (front_sign self.entry.text.now)) result }
    {
        match sign_of(self.text) {
            Some(Sign::AtMost) => (Token::Sign(Sign::AtMost, self.start), 2),
            Some(sign) => (Token::Sign(sign, self.start), 1),
            None => (Token::Other(self.start), 1),
        }
    }

    // The token at the front, where no blank stands, and how many bytes it has.
    fn token(self) -> (Token<'a>, usize)
        requires { self.start + length self.text.now < 2 ^ 63 }
        ensures { Cuts self.entry (part self.entry.text.now) (width self.entry.text.now) result }
    {
        match self.text {
            [] => (Token::End(self.start), 0),
            [b, ..] if b.is_ascii_alphabetic() => {
                let n = run_len(self.text, |b| b.is_ascii_alphanumeric());
                let text = &self.text[..n];
                (Token::Word(Part { text, ..self }), n)
            }
            [b, ..] if b.is_ascii_digit() => self.number(),
            _ => self.sign(),
        }
    }
}

// The place of the first byte at or after `at` that is no blank.
fn skip_blanks(line: &[u8], at: usize) -> usize
    requires { at ≤ length line.now }
    ensures value { result ≡ at + prefix_len is_blank (drop at line.now) }
    ensures bound { result ≤ length line.now }
{
    at + run_len(&line[at..], |b| b == b' ')
}

// The first part at or after `at`, and where it ends.
#[tactic(auto, using(crate::proofs::Moves::width_least))]
pub(crate) fn next_token(line: &[u8], at: usize) -> (Token<'_>, usize)
    requires { (at ≤ length line.now) × (length line.now < 2 ^ 62) }
    ensures token { tok result.0 ≡ front (drop at line.now) }
    ensures rest { drop result.1 line.now ≡ after (drop at line.now) }
    ensures parts { parts (drop at line.now) ≡ up_to (tok result.0) (parts (drop result.1 line.now)) }
    ensures bound { result.1 ≤ length line.now }
    ensures moves { at + least (tok result.0) ≤ result.1 }
    ensures place { place result.0 ≡ at + prefix_len is_blank (drop at line.now) }
    ensures lies { Placed line.now result.0 }
{
    let start = skip_blanks(line, at);
    let text = &line[start..];
    let (token, n) = Part { text, start }.token();
    (token, start + n)
}
