// Rule books: a draft takes lines, and a closed book takes none.
#![tactic(auto)]

mod adding;
mod book;
mod checks;
mod desk;
mod draft;
mod name;
mod names;
mod needs;
mod places;
mod refusal;
mod reserved;
mod slices;
mod step;
mod units;

pub use book::{Book, Dependents};
pub use draft::Draft;
pub use name::Name;
pub use refusal::Refusal;
pub use step::{Entry, Line, Needs, Rule, Span, Step};
