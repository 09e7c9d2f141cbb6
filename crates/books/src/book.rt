// A book: entries, lines and rules, and the steps of their formulas. (What adds to it is in adding.rt, its checks in checks.rt.)
ghost use Rattle.books.specs.Books.{Stands};

use crate::places::places;
use crate::reserved::Reserved;
use crate::slices::cut;
use crate::step::{Entry, Line, Rule, Span, Step};
use sets::Set64;
use std::alloc::{AllocError, Global};

// (A ghost field, and no model, so that what holds of a book is known wherever there is one.)
#[derive(Drop)]
pub struct Book {
    pub(crate) entries: Reserved<Entry, 64>,
    pub(crate) lines: Reserved<Line, 64>,
    pub(crate) rules: Reserved<Rule, 64>,
    pub(crate) steps: Reserved<Step, 1024>,
    pub ghost stands: { Stands (record { entries = entries; lines = lines; rules = rules; steps = steps }) },
}

// the lines and the rules that depend on an entry
#[derive(Clone, Copy)]
pub struct Dependents {
    pub lines: Set64,
    pub rules: Set64,
}

impl Book {
    ghost use Rattle.std.specs.Prelude.{◌≡◌, ℕ, ◌≤◌, length, Decides, IfOk};
    ghost use Rattle.sets.specs.Members.{has};
    ghost use Rattle.books.specs.Formulas.{entry};
    ghost use Rattle.books.specs.Books.{part, Stands};
    ghost use Rattle.books.specs.Drafts.{lists_of, nothing, LinesHold, RulesHold, Whole, LineDepends, RuleDepends};

    // Takes all the memory that a book can need.
    pub(crate) fn open(heap: Global) -> Result<Book, AllocError>
        ensures { IfOk result (λ b. lists_of b ≡ nothing) }
    {
        Ok(Book {
            entries: Reserved::open(heap)?,
            lines: Reserved::open(heap)?,
            rules: Reserved::open(heap)?,
            steps: Reserved::open(heap)?,
        })
    }

    // The entries, by their numbers.
    pub fn entries(&self) -> &[Entry]
        ensures items { result.now ≡ (lists_of self.now).entries }
        ensures few { length result.now ≤ 64 }
    {
        self.entries.as_slice()
    }

    // The lines, by their numbers.
    pub fn lines(&self) -> &[Line]
        ensures items { result.now ≡ (lists_of self.now).lines }
        ensures few { length result.now ≤ 64 }
        ensures hold { LinesHold (lists_of self.now) }
    {
        self.lines.as_slice()
    }

    // The rules, by their numbers.
    pub fn rules(&self) -> &[Rule]
        ensures items { result.now ≡ (lists_of self.now).rules }
        ensures few { length result.now ≤ 64 }
        ensures hold { RulesHold (lists_of self.now) }
    {
        self.rules.as_slice()
    }

    // The steps of a span, clipped where it leaves the book's steps, as no span of a line or a rule does.
    pub fn steps(&self, span: Span) -> &[Step]
        ensures items { result.now ≡ part (lists_of self.now).steps span }
        ensures few { length (lists_of self.now).steps ≤ 1024 }
        ensures stands { Stands (lists_of self.now) }
    {
        cut(self.steps.as_slice(), span.start, span.len)
    }

    // Apart from `dependents`, since its proof is written out: a wrong line there is refused as a fact that does not hold.
    fn needing(&self, number: u8) -> Dependents
        ensures lines { (k : ℕ) → Decides (has result.lines k) (LineDepends (lists_of self.now) k (entry number)) }
        ensures rules { (k : ℕ) → Decides (has result.rules k) (RuleDepends (lists_of self.now) k (entry number)) }
    {
        let lines = self.lines.as_slice();
        let rules = self.rules.as_slice();
        Dependents {
            lines: places(lines, |line| line.needs.entries.contains(number)),
            rules: places(rules, |rule| rule.needs.entries.contains(number)),
        }
    }

    // The lines and the rules that depend on the entry of the number.
    pub fn dependents(&self, number: u8) -> Dependents
        ensures lines { (k : ℕ) → Decides (has result.lines k) (LineDepends (lists_of self.now) k (entry number)) }
        ensures rules { (k : ℕ) → Decides (has result.rules k) (RuleDepends (lists_of self.now) k (entry number)) }
    {
        self.needing(number)
    }

    // The book itself, and what holds of every book.
    pub(crate) fn whole(self) -> Book
        ensures same { result ≡ self }
        ensures whole { Whole (lists_of result) }
    {
        self
    }
}
