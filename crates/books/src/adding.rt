// What stands at the end of a book after a line was added.
ghost use Rattle.std.specs.Prelude.{◌≡◌, ◌+◌, ◌<◌, ◌≤◌, true, ◌⊎◌, length, Ok};
ghost use Rattle.lines.specs.Grammar.{Stated};
ghost use Rattle.books.specs.Formulas.{Formula, steps};
ghost use Rattle.books.specs.Books.{units, within};
ghost use Rattle.books.specs.Units.{formula_unit};
ghost use Rattle.books.specs.Names.{text_of};
ghost use Rattle.books.specs.Drafts.{lists_of, with_entry, with_line, with_rule, Settles, Words, NeededIn, RuleSides};

use crate::book::Book;
use crate::name::Name;
use crate::needs::row_needs;
use crate::refusal::Refusal;
use crate::reserved::Reserved;
use crate::step::{Entry, Line, Needs, Rule, Span, Step};
use lines::Unit;

impl Book {
    // Adds an entry, or nothing and says why.
    #[tactic(auto, using(crate::proofs::Growth::grows_entry))]
    pub(crate) fn add_entry(&mut self, name: Name, unit: Unit) -> Result<(), Refusal>
        ensures { Settles (lists_of self.old) (Stated.entry (text_of name) unit) result (lists_of self.new) }
    {
        self.check_entry(name.text())?;
        self.push_entry(name, unit);
        Ok(())
    }

    // One entry more. (Each of the three asks for room in its own list: a type that shows it would be one for each list.)
    pub(crate) fn push_entry(&mut self, name: Name, unit: Unit)
        requires { length self.old.entries < 64 }
        ensures { lists_of self.new ≡ with_entry (lists_of self.old) name unit }
    {
        self.entries.push(Entry { name, unit });
    }

    // One line more, with the steps of its formula.
    pub(crate) fn push_line(&mut self, name: Name, unit: Unit, row: &Reserved<Step, 120>)
        requires room { (length self.old.lines < 64) × (length self.old.steps + length row.now ≤ 1024) }
        requires stands { (f : Formula) × (row.now ≡ steps f) × (within (length self.old.entries) (length self.old.lines) f ≡ true) × (formula_unit (units self.old.entries self.old.lines) f ≡ Ok unit) }
        ensures { (needs : Needs) × (lists_of self.new ≡ with_line (lists_of self.old) name unit needs row.now) × ((f : Formula) → row.now ≡ steps f → Words needs (NeededIn (lists_of self.old) f)) }
    {
        let row = row.as_slice();
        let needs = row_needs(self.lines.as_slice(), row);
        let start = self.steps.as_slice().len();
        let len = row.len();
        self.steps.extend_from_slice(row);
        self.lines.push(Line {
            name,
            unit,
            steps: Span { start, len },
            needs,
        });
    }

    // One rule more, with the steps of its sides: parts of a row, and so slices.
    pub(crate) fn push_rule(
        &mut self,
        name: Name,
        root: bool,
        unit: Unit,
        left: &[Step],
        right: &[Step],
    )
        requires room { (length self.old.rules < 64) × ((length self.old.steps + (length left.now + length right.now) ≤ 1024) × ((length left.now ≤ 120) × (length right.now ≤ 120))) }
        requires stands { RuleSides (lists_of self.old) root unit left.now right.now }
        ensures { (needs : Needs) × (lists_of self.new ≡ with_rule (lists_of self.old) name root unit needs left.now right.now) × ((f g : Formula) → left.now ≡ steps f → right.now ≡ steps g → Words needs (λ x. NeededIn (lists_of self.old) f x ⊎ NeededIn (lists_of self.old) g x)) }
    {
        let lines = self.lines.as_slice();
        let needs = row_needs(lines, left).plus(row_needs(lines, right));
        let start = self.steps.as_slice().len();
        let split = left.len();
        let len = right.len();
        self.steps.extend_from_slice(left);
        self.steps.extend_from_slice(right);
        self.rules.push(Rule {
            name,
            root,
            unit,
            left: Span { start, len: split },
            right: Span {
                start: start + split,
                len,
            },
            needs,
        });
    }
}
