// The reader of one line of a rule book.
#![tactic(auto)]

mod number;
mod reader;
mod refusal;
mod statement;
mod steps;
mod token;
mod word;

pub use reader::{Op, Place, Raw};
pub use refusal::Refusal;
pub use statement::{Statement, read_line};
pub use steps::Steps;
pub use word::Unit;
