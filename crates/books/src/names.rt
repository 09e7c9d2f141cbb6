// Names: what they stand for, and the step of an item with its name looked up.
ghost use Rattle.std.specs.Prelude.{◌≡◌};
ghost use Rattle.lines.specs.Reading.{text_at, item};
ghost use Rattle.books.specs.Names.{step_of};
ghost use Rattle.books.specs.Drafts.{lists_of, look_in};

use crate::book::Book;
use crate::slices::cut;
use crate::step::{Declared, Step};
use lines::{Place, Raw};

// What the name stands for. Looked for in the lists themselves, since a map would ask for memory at each line.
pub(crate) fn find(book: &Book, text: &[u8]) -> Option<Declared>
    ensures { result ≡ look_in (lists_of book.now) text.now }
{
    if let Some(i) = book.entries().iter().position(|entry| entry.name.is(text)) {
        return Some(Declared::Entry(i as u8));
    }
    if let Some(i) = book.lines().iter().position(|line| line.name.is(text)) {
        return Some(Declared::Line(i as u8));
    }
    let named = book.rules().iter().any(|rule| rule.name.is(text));
    named.then_some(Declared::Rule)
}

// The bytes at the place.
pub(crate) fn text_at(line: &[u8], place: Place) -> &[u8]
    ensures { result.now ≡ text_at line.now place }
{
    cut(line, place.start, place.len)
}

// The step, if its name is that of an entry or a line.
pub(crate) fn step_of(book: &Book, line: &[u8], raw: Raw) -> Option<Step>
    ensures { result ≡ step_of (look_in (lists_of book.now)) (item line.now raw) }
{
    match raw {
        Raw::Number(count, unit) => Some(Step::Number(count, unit)),
        Raw::Name(place) => match find(book, text_at(line, place))? {
            Declared::Entry(i) => Some(Step::Entry(i)),
            Declared::Line(k) => Some(Step::Line(k)),
            Declared::Rule => None,
        },
        Raw::Op(op) => Some(Step::Op(op)),
    }
}
