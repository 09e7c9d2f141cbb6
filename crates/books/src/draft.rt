// A draft: a book that takes lines. It is moved into a closed book, which takes none.
ghost use Rattle.std.specs.Prelude.{◌≡◌, IfOk};
ghost use Rattle.lines.specs.Grammar.{Stated};
ghost use Rattle.books.specs.Drafts.{lists_of, nothing, Reads, Settles, Unadded, Adds, Whole};
ghost use Rattle.lines.specs.declared.refusal.Refusal.{Refusal as Unread};
ghost use Rattle.lines.specs.Faults.{Refused};

use crate::book::Book;
use crate::desk::Desk;
use crate::name::Name;
use crate::names::text_at;
use crate::refusal::Refusal;
use lines::{Statement, read_line};
use std::alloc::{AllocError, Global};
use std::marker::Model;

#[derive(Drop)]
pub struct Draft {
    book: Book,
    desk: Desk,
}

// Clauses see its book.
impl Model for Draft {
    ghost use Rattle.books.specs.declared.book.Book.{Book};

    ghost Value = { Book };

    ghost view = { λ d. d.book };
}

impl Draft {
    // Takes all the memory that a book can need; adding then asks for none.
    pub fn open(heap: Global) -> Result<Draft, AllocError>
        ensures { IfOk result (λ d. lists_of d ≡ nothing) }
    {
        Ok(Draft {
            book: Book::open(heap)?,
            desk: Desk::open(heap)?,
        })
    }

    // Apart from `add`, since its proof is written out: a wrong line there is refused as a fact that does not hold.
    fn add_stated(&mut self, line: &[u8]) -> Result<(), Refusal>
        ensures adds { Adds (lists_of self.old) line.now result (lists_of self.new) }
        ensures settles { (s : Stated) → Reads line.now s → Settles (lists_of self.old) s result (lists_of self.new) }
        ensures refused { (u : Unread) → Refused line.now u → Unadded (lists_of self.old) u result (lists_of self.new) }
    {
        match read_line(line, &mut self.desk.parsed)? {
            Statement::Blank => Ok(()),
            Statement::Entry { name, unit } => {
                let name = Name::new(text_at(line, name));
                self.book.add_entry(name, unit)
            }
            Statement::Line { name } => {
                let name = Name::new(text_at(line, name));
                self.desk.add_line(&mut self.book, line, name)
            }
            Statement::Rule { name, root, split } => {
                let name = Name::new(text_at(line, name));
                self.desk.add_rule(&mut self.book, line, name, root, split)
            }
        }
    }

    // Adds what the line states at the end of the book, or adds nothing and says why.
    pub fn add(&mut self, line: &[u8]) -> Result<(), Refusal>
        ensures adds { Adds (lists_of self.old) line.now result (lists_of self.new) }
        ensures settles { (s : Stated) → Reads line.now s → Settles (lists_of self.old) s result (lists_of self.new) }
        ensures refused { (u : Unread) → Refused line.now u → Unadded (lists_of self.old) u result (lists_of self.new) }
    {
        self.add_stated(line)
    }

    // The book, which takes no more lines.
    pub fn close(self) -> Book
        ensures lists { result ≡ self }
        ensures whole { Whole (lists_of result) }
    {
        self.book.whole()
    }
}
