// The words of a book line: commands, functions, units and names.
ghost use Rattle.std.specs.Prelude.{◌≡◌};
ghost use Rattle.std.specs.Map.{lookup};
ghost use Rattle.std.specs.Str.{bytes_eq};
ghost use Rattle.lines.specs.Words.{unit_of, reserved, plain_word_of, word_of};

// exponents of inch and of kip
pub type Unit = (i8, i8);

#[derive(Clone, Copy)]
pub enum Word {
    Entry,
    Line,
    Rule,
    Root,
    Min,
    Max,
    Unit(Unit),
    Name,
    // a word that stands nowhere in a book line, or one too long for a name
    Other,
}

// The unit that the word names.
pub(crate) fn unit_of(text: &[u8]) -> Option<Unit>
    ensures { result ≡ unit_of text.now }
{
    match text {
        b"one" => Some((0, 0)),
        b"in" => Some((1, 0)),
        b"in2" => Some((2, 0)),
        b"kip" => Some((0, 1)),
        b"kipin" => Some((1, 1)),
        b"ksi" => Some((-2, 1)),
        _ => None,
    }
}

// What a word of the language is, besides the units.
fn reserved(text: &[u8]) -> Option<Word>
    ensures { result ≡ lookup (bytes_eq text.now) reserved }
{
    match text {
        b"entry" => Some(Word::Entry),
        b"line" => Some(Word::Line),
        b"rule" => Some(Word::Rule),
        b"root" => Some(Word::Root),
        b"min" => Some(Word::Min),
        b"max" => Some(Word::Max),
        b"form" => Some(Word::Other),
        b"close" => Some(Word::Other),
        _ => None,
    }
}

// Any word but a unit; a name has at most 16 letters and digits.
fn plain_word_of(text: &[u8]) -> Word
    ensures { result ≡ plain_word_of text.now }
{
    match reserved(text) {
        Some(word) => word,
        None if text.len() <= 16 => Word::Name,
        None => Word::Other,
    }
}

pub(crate) fn word_of(text: &[u8]) -> Word
    ensures { result ≡ word_of text.now }
{
    match unit_of(text) {
        Some(unit) => Word::Unit(unit),
        None => plain_word_of(text),
    }
}
