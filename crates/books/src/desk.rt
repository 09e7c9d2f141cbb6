// The memory for reading one line.
ghost use Rattle.std.specs.Prelude.{◌≡◌, ◌≤◌, ◌++◌, length, take, drop, vec_len, Some, None, MatchResult};
ghost use Rattle.lines.specs.Grammar.{Tree, Stated, Counts, postfix};
ghost use Rattle.lines.specs.Reading.{items};
ghost use Rattle.books.specs.Names.{text_of, resolved};
ghost use Rattle.books.specs.Drafts.{lists_of, look_in, refusal_of, LineChecked, RuleChecked, Settles};

use crate::book::Book;
use crate::name::Name;
use crate::names::step_of;
use crate::refusal::Refusal;
use crate::reserved::Reserved;
use crate::step::Step;
use crate::units::{row_unit, sides_agree};
use lines::{Steps, Unit};
use std::alloc::{AllocError, Global};

// the steps of the line that was read last, with names as they stand and looked up, and the units of operands
#[derive(Drop)]
pub(crate) struct Desk {
    pub(crate) parsed: Steps,
    row: Reserved<Step, 120>,
    units: Reserved<Unit, 120>,
    ghost few: { vec_len parsed.raw ≤ 120 },
}

impl Desk {
    pub(crate) fn open(heap: Global) -> Result<Desk, AllocError> {
        Ok(Desk {
            parsed: Steps::open(heap)?,
            row: Reserved::open(heap)?,
            units: Reserved::open(heap)?,
        })
    }

    // The steps with their names looked up, left in `row`, or the refusal where a name is unknown.
    fn resolve(&mut self, book: &Book, line: &[u8]) -> Result<(), Refusal>
        ensures { MatchResult result (λ _. resolved (look_in (lists_of book.now)) (items line.now self.old.parsed.raw.items) ≡ Some self.new.row) (λ e. (e ≡ Refusal.Unknown) × (resolved (look_in (lists_of book.now)) (items line.now self.old.parsed.raw.items) ≡ None)) }
    {
        let parsed = &self.parsed;
        let row = &mut self.row;
        row.clear();
        for x in parsed.raw.as_slice() {
            row.push(step_of(book, line, *x).ok_or(Refusal::Unknown)?);
        }
        Ok(())
    }

    // Looks up the names of a line and checks its units; its steps are left in `row`.
    fn check_line(&mut self, book: &Book, line: &[u8], name: &[u8]) -> Result<Unit, Refusal>
        ensures { (t : Tree) → items line.now self.old.parsed.raw.items ≡ postfix t → MatchResult result (LineChecked (lists_of book.now) name.now t self.new.row) (λ e. refusal_of (lists_of book.now) (Stated.line name.now t) ≡ Some e) }
    {
        book.check_name(name)?;
        self.resolve(book, line)?;
        let row = self.row.as_slice();
        let unit = row_unit(book, row, &mut self.units)?;
        book.check_room(book.lines().len(), row.len())?;
        Ok(unit)
    }

    // The same for a rule: the first `split` steps are its left side's.
    fn check_rule(
        &mut self,
        book: &Book,
        line: &[u8],
        name: &[u8],
        root: bool,
        split: usize,
    ) -> Result<Unit, Refusal>
        requires { split ≤ vec_len self.old.parsed.raw }
        ensures { (t u : Tree) → items line.now self.old.parsed.raw.items ≡ postfix t ++ postfix u → split ≡ length (postfix t) → MatchResult result (RuleChecked (lists_of book.now) name.now root t u (take split self.new.row) (drop split self.new.row)) (λ e. refusal_of (lists_of book.now) (Stated.rule name.now root t u) ≡ Some e) }
    {
        book.check_name(name)?;
        self.resolve(book, line)?;
        let row = self.row.as_slice();
        let (left, right) = row.split_at(split);
        let unit = row_unit(book, left, &mut self.units)?;
        let other = row_unit(book, right, &mut self.units)?;
        if !sides_agree(root, unit, other) {
            return Err(Refusal::Units);
        }
        book.check_room(book.rules().len(), row.len())?;
        Ok(unit)
    }

    // Adds a line to the book, or nothing and says why.
    pub(crate) fn add_line(
        &mut self,
        book: &mut Book,
        line: &[u8],
        name: Name,
    ) -> Result<(), Refusal>
        requires { (t : Tree) × (items line.now self.old.parsed.raw.items ≡ postfix t) × Counts t }
        ensures { (t : Tree) → items line.now self.old.parsed.raw.items ≡ postfix t → Settles (lists_of book.old) (Stated.line (text_of name) t) result (lists_of book.new) }
    {
        let unit = self.check_line(book, line, name.text())?;
        book.push_line(name, unit, &self.row);
        Ok(())
    }

    // Adds a rule to the book, or nothing and says why.
    pub(crate) fn add_rule(
        &mut self,
        book: &mut Book,
        line: &[u8],
        name: Name,
        root: bool,
        split: usize,
    ) -> Result<(), Refusal>
        requires { (t : Tree) × (u : Tree) × (items line.now self.old.parsed.raw.items ≡ postfix t ++ postfix u) × (split ≡ length (postfix t)) × Counts t × Counts u }
        ensures { (t u : Tree) → items line.now self.old.parsed.raw.items ≡ postfix t ++ postfix u → split ≡ length (postfix t) → Settles (lists_of book.old) (Stated.rule (text_of name) root t u) result (lists_of book.new) }
    {
        let unit = self.check_rule(book, line, name.text(), root, split)?;
        let (left, right) = self.row.as_slice().split_at(split);
        book.push_rule(name, root, unit, left, right);
        Ok(())
    }
}
