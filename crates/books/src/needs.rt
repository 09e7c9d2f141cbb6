// What a formula needs.
ghost use Rattle.std.specs.Prelude.{◌≡◌, ℕ, false, ◌||◌};
ghost use Rattle.sets.specs.Members.{has};
ghost use Rattle.books.specs.Needs.{step_entry, step_line, row_entry, row_line};

use crate::step::{Line, Needs, Step};
use sets::Set64;

impl Needs {
    // Nothing is needed.
    fn none() -> Needs
        ensures entries { (e : ℕ) → has result.entries e ≡ false }
        ensures lines { (k : ℕ) → has result.lines k ≡ false }
    {
        Needs {
            entries: Set64::empty(),
            lines: Set64::empty(),
        }
    }

    // What either needs.
    pub(crate) fn plus(self, other: Needs) -> Needs
        ensures entries { (e : ℕ) → has result.entries e ≡ has self.entries e || has other.entries e }
        ensures lines { (k : ℕ) → has result.lines k ≡ has self.lines k || has other.lines k }
    {
        Needs {
            entries: self.entries.plus(other.entries),
            lines: self.lines.plus(other.lines),
        }
    }
}

fn step_needs(lines: &[Line], step: Step) -> Needs
    ensures entries { (e : ℕ) → has result.entries e ≡ step_entry lines.now step e }
    ensures lines { (k : ℕ) → has result.lines k ≡ step_line lines.now step k }
{
    match step {
        Step::Entry(i) => Needs {
            entries: Set64::single(i),
            ..Needs::none()
        },
        Step::Line(i) => {
            let named = Needs {
                lines: Set64::single(i),
                ..Needs::none()
            };
            lines
                .get(usize::from(i))
                .map_or(named, |line| named.plus(line.needs))
        }
        Step::Number(_, _) | Step::Op(_) => Needs::none(),
    }
}

// The entries and lines that the steps name, with all that those lines need.
pub(crate) fn row_needs(lines: &[Line], row: &[Step]) -> Needs
    ensures entries { (e : ℕ) → has result.entries e ≡ row_entry lines.now row.now e }
    ensures lines { (k : ℕ) → has result.lines k ≡ row_line lines.now row.now k }
{
    let mut needs = Needs::none();
    for step in row {
        needs = needs.plus(step_needs(lines, *step));
    }
    needs
}
