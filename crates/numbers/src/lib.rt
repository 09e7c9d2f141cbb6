// Numbers of a finite grid, with results rounded down or up.
#![tactic(auto)]

mod counted;
mod grid;
mod mil;
mod sig;
mod steps;
mod thousandths;
mod whole;

pub use grid::{Form, Grid, Refusal, Rounding};
pub use mil::Mil;
pub use sig::Sig;
pub use thousandths::Thousandths;
