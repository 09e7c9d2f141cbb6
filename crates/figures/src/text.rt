// How figures are written.
ghost use Rattle.std.specs.Prelude.{◌≡◌, Some, false, IfOk, string_bytes};
ghost use Rattle.figures.specs.Texts.{form_word, is_sum, joined};

use crate::entry::{Ends, FormName, Link};
use ranges::Sign;
use std::alloc::{AllocError, Global};
use std::fmt;

// A count of millionths, as a decimal.
#[derive(Clone, Copy)]
struct Decimal {
    millionths: i64,
}

impl fmt::Display for Decimal {
    fn fmt<W: fmt::Write>(&self, f: &mut fmt::Formatter<W>) -> fmt::Result {
        let size = self.millionths.unsigned_abs();
        let whole = size / 1_000_000;
        let mut rest = size % 1_000_000;
        if self.millionths < 0 {
            write!(f, "-")?;
        }
        write!(f, "{whole}")?;
        if rest > 0 {
            write!(f, ".")?;
        }
        // By hand, since no format of the library leaves out zeros at the end.
        for place in [100_000u64, 10_000, 1_000, 100, 10, 1] {
            if rest > 0 {
                let digit = rest / place;
                write!(f, "{digit}")?;
                rest %= place;
            }
        }
        Ok(())
    }
}

impl fmt::Display for Ends {
    fn fmt<W: fmt::Write>(&self, f: &mut fmt::Formatter<W>) -> fmt::Result {
        let low = Decimal {
            millionths: self.low,
        };
        let high = Decimal {
            millionths: self.high,
        };
        if self.low == self.high {
            write!(f, "{low}")
        } else {
            write!(f, "{low} to {high}")
        }
    }
}

impl fmt::Display for FormName {
    ghost output = { λ form. Some (form_word form) };

    fn fmt<W: fmt::Write>(&self, f: &mut fmt::Formatter<W>) -> fmt::Result {
        match self {
            FormName::Mil => f.write_str("mil"),
            FormName::Sig => f.write_str("sig"),
        }
    }
}

// A formula as it is written, and whether its last sign is that of a sum or a difference.
#[derive(Drop)]
pub(crate) struct Formula {
    text: String,
    sum: bool,
}

impl Formula {
    pub(crate) fn new(heap: Global, first: &str) -> Result<Formula, AllocError>
        ensures { IfOk result (λ f. (string_bytes f.text ≡ first.now) × (f.sum ≡ false)) }
    {
        Ok(Formula {
            text: String::from_str(heap, first)?,
            sum: false,
        })
    }

    pub(crate) fn as_str(&self) -> &str
        ensures { result.now ≡ string_bytes self.now.text }
    {
        self.text.as_str()
    }

    // With one link more; what stands left of a product or quotient is put in parentheses if it is a sum.
    pub(crate) fn joined(&self, heap: Global, link: Link<'_>) -> Result<Formula, AllocError>
        ensures { IfOk result (λ f. (string_bytes f.text ≡ joined (string_bytes self.now.text) self.now.sum link.entry.sign link.entry.operand.text.now) × (f.sum ≡ is_sum link.entry.sign)) }
    {
        let left = self.text.as_str();
        let right = link.operand.text;
        let text = match (link.sign, self.sum) {
            (Sign::Plus, _) => format!(in heap; "{left}+{right}"),
            (Sign::Minus, _) => format!(in heap; "{left}-{right}"),
            (Sign::Times, true) => format!(in heap; "({left})*{right}"),
            (Sign::Times, false) => format!(in heap; "{left}*{right}"),
            (Sign::Over, true) => format!(in heap; "({left})/{right}"),
            (Sign::Over, false) => format!(in heap; "{left}/{right}"),
            (Sign::Least, _) => format!(in heap; "min({left},{right})"),
            (Sign::Greatest, _) => format!(in heap; "max({left},{right})"),
        }?;
        let sum = matches!(link.sign, Sign::Plus | Sign::Minus);
        Ok(Formula { text, sum })
    }
}
