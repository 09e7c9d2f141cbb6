// Ranges of numbers, the steps of a working on them, and verdicts over two ranges.
#![tactic(auto)]

mod range;
mod verdict;

pub use range::{Range, Sign};
pub use verdict::{Kind, Verdict, judge};
