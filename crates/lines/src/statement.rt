// Reads a whole book line by the grammar.
ghost use Rattle.std.specs.Prelude.{◌≡◌, ℕ, ◌≤◌, true, length, nat_le, List, [], ◌∷◌, ◌++◌, ℤ, is_ok, is_err, Err, vec_len, MatchResult, OnOk, ◌≢◌};
ghost use Rattle.lines.specs.Tokens.{Tok, tok, parts, Lies};
ghost use Rattle.lines.specs.Words.{word_of};
ghost use Rattle.lines.specs.Faults.{Shallow, Refused};
ghost use Rattle.lines.specs.Grammar.{Tree, Sum, Right, Stated, Line};
ghost use Rattle.lines.specs.Expected.{Kind, Paren, Side, State, kind_of, same};
ghost use Rattle.lines.specs.Reading.{Wants, text_at, items, code, ahead, written, Writes, Keeps, Takes, Formula, Adds, Read, Ends, Follows, Last, joins, plain};

use crate::reader::{Place, Reader};
use crate::refusal::Refusal;
use crate::steps::{MAX_LEN, Steps};
use crate::token::{Part, Sign, Token, next_token};
use crate::word::{Unit, Word, word_of};

// how many parentheses may be open at once
const MAX_OPEN: usize = 16;

// what a line states; names by their places, so that it does not hold the line
#[derive(Clone, Copy)]
pub enum Statement {
    Blank,
    Entry {
        name: Place,
        unit: Unit,
    },
    Line {
        name: Place,
    },
    Rule {
        name: Place,
        // the right side is under a root
        root: bool,
        // how many steps the left side has: both sides' lie in the memory that was lent
        split: usize,
    },
}

fn is_root(token: Token<'_>) -> bool
    ensures { result ≡ same (kind_of (tok token.entry)) Kind.root }
{
    match token {
        Token::Word(part) => matches!(word_of(part.text), Word::Root),
        _ => false,
    }
}

#[tactic(auto, using(crate::proofs::Lines::refusals))]
impl<'a, 's> Reader<'a, 's> {
    // What the word is that has to come next, and where it stands.
    fn word(&mut self) -> Result<(Word, Part<'a>), Refusal>
        ensures word { Wants result (λ x. (ahead self.old ≡ Tok.word x.1.text.now ∷ ahead self.new) × (word_of x.1.text.now ≡ x.0) × Lies self.new.line.now x.1.text.now x.1.start) ((w : List ℕ) (ts : List Tok) → ahead self.old ≢ Tok.word w ∷ ts) }
        ensures takes { Takes self.old self.new }
    {
        match self.next() {
            Token::Word(part) => Ok((word_of(part.text), part)),
            _ => Err(Refusal::Grammar),
        }
    }

    // Where the name stands that has to come next.
    fn name(&mut self) -> Result<Place, Refusal>
        ensures name { Wants result (λ p. (ahead self.old ≡ Tok.word (text_at self.old.line.now p) ∷ ahead self.new) × (word_of (text_at self.old.line.now p) ≡ Word.Name)) ((w : List ℕ) (ts : List Tok) → ahead self.old ≡ Tok.word w ∷ ts → word_of w ≢ Word.Name) }
        ensures takes { Takes self.old self.new }
    {
        match self.word()? {
            (Word::Name, part) => Ok(part.into()),
            _ => Err(Refusal::Grammar),
        }
    }

    // The unit word that has to come next.
    fn unit(&mut self) -> Result<Unit, Refusal>
        ensures unit { Wants result (λ u. (w : List ℕ) × (ahead self.old ≡ Tok.word w ∷ ahead self.new) × (word_of w ≡ Word.Unit u)) ((w : List ℕ) (u : ℤ × ℤ) (ts : List Tok) → ahead self.old ≡ Tok.word w ∷ ts → word_of w ≢ Word.Unit u) }
        ensures takes { Takes self.old self.new }
    {
        match self.word()? {
            (Word::Unit(unit), _) => Ok(unit),
            _ => Err(Refusal::Grammar),
        }
    }

    // Nothing comes any more.
    fn end(&self) -> Result<(), Refusal>
        ensures { Wants result (λ _. ahead self.now ≡ []) (ahead self.now ≢ []) }
    {
        match next_token(self.line, self.at) {
            (Token::End(_), _) => Ok(()),
            _ => Err(Refusal::Grammar),
        }
    }

    // What follows the word entry.
    fn entry(&mut self) -> Result<Statement, Refusal>
        ensures reads { Follows Word.Entry State.entry_name result self.old self.new }
        ensures keeps { Keeps self.old self.new }
    {
        let name = self.name()?;
        let unit = self.unit()?;
        self.end()?;
        Ok(Statement::Entry { name, unit })
    }

    // A sum outside of all parentheses.
    fn outer_sum(&mut self) -> Result<(), Refusal>
        ensures reads { Formula Sum joins MAX_OPEN (ahead self.old) result self.old self.new }
        ensures keeps { Keeps self.old self.new }
    {
        self.sum(MAX_OPEN)
    }

    // A sum up to the end.
    fn last_sum(&mut self) -> Result<(), Refusal>
        ensures reads { MatchResult result (λ _. (t : Tree) × Sum (ahead self.old) [] t × Writes t self.old self.new × Last (ahead self.old) 0) (λ e. Last (ahead self.old) (code e)) }
        ensures keeps { Keeps self.old self.new }
    {
        self.outer_sum()?;
        self.end()
    }

    // What follows the word line.
    fn formula_line(&mut self) -> Result<Statement, Refusal>
        ensures reads { Follows Word.Line State.line_name result self.old self.new }
        ensures keeps { Keeps self.old self.new }
    {
        let name = self.name()?;
        self.expect(Sign::Equals)?;
        self.last_sum()?;
        Ok(Statement::Line { name })
    }

    // What follows the word root: a sum in parentheses, up to the end.
    fn under_root(&mut self) -> Result<(), Refusal>
        ensures reads { Ends (State.opening Paren.root Side.right []) (ahead self.old) result (λ _. (t : Tree) × ((w : List ℕ) → word_of w ≡ Word.Root → Right (Tok.word w ∷ ahead self.old) true t) × Writes t self.old self.new) }
        ensures keeps { Keeps self.old self.new }
    {
        self.expect(Sign::Open)?;
        self.sum(MAX_OPEN - 1)?;
        self.expect(Sign::Close)?;
        self.end()
    }

    // The right side of a rule; the answer says whether it is under a root.
    fn right_side(&mut self) -> Result<bool, Refusal>
        ensures reads { Ends State.right_side (ahead self.old) result (λ root. (t : Tree) × Right (ahead self.old) root t × Writes t self.old self.new) }
        ensures keeps { Keeps self.old self.new }
    {
        let (token, after) = next_token(self.line, self.at);
        if is_root(token) {
            self.at = after;
            self.under_root()?;
            return Ok(true);
        }
        self.last_sum()?;
        Ok(false)
    }

    // What follows the word rule.
    fn rule(&mut self) -> Result<Statement, Refusal>
        ensures reads { Follows Word.Rule State.rule_name result self.old self.new }
        ensures keeps { Keeps self.old self.new }
    {
        let name = self.name()?;
        self.expect(Sign::Colon)?;
        self.outer_sum()?;
        self.expect(Sign::AtMost)?;
        let split = self.steps.len();
        let root = self.right_side()?;
        Ok(Statement::Rule { name, root, split })
    }

    // The line by its first word; the steps of a rule's left side come first.
    fn statement(&mut self) -> Result<Statement, Refusal>
        ensures reads { Ends State.start (ahead self.old) result (λ s. Adds self.old.line.now (written self.old) (written self.new) (ahead self.old) s) }
        ensures keeps { Keeps self.old self.new }
    {
        match self.next() {
            Token::End(_) => Ok(Statement::Blank),
            Token::Word(part) => match word_of(part.text) {
                Word::Entry => self.entry(),
                Word::Line => self.formula_line(),
                Word::Rule => self.rule(),
                _ => Err(Refusal::Grammar),
            },
            _ => Err(Refusal::Grammar),
        }
    }
}

fn is_short(line: &[u8]) -> bool
    ensures { result ≡ nat_le (length line.now) MAX_LEN }
{
    line.len() <= MAX_LEN
}

// At most 120 bytes, all printable.
fn is_plain(line: &[u8]) -> bool
    ensures { result ≡ plain line.now }
{
    is_short(line) && line.iter().all(|b| (b' '..=b'~').contains(b))
}

// Reads a line of plain text; what a refusal leaves in the steps is not said.
fn read_plain(line: &[u8], steps: &mut Steps) -> Result<Statement, Refusal>
    requires plain { plain line.now ≡ true }
    requires empty { steps.old.raw.items ≡ [] }
    ensures room { OnOk result (vec_len steps.new.raw ≤ 120) }
    ensures reads { MatchResult result (λ s. Read line.now (items line.now steps.new.raw.items) (parts line.now) s × (plain line.now ≡ true) × Shallow (parts line.now)) (λ e. Refused line.now e) }
{
    let mut reader = Reader { line, at: 0, steps };
    reader.statement()
}

// Reads one line: what it states, with the steps of its formulas, or its first fault, with no steps.
#[tactic(auto, using(crate::proofs::Unique::unique, crate::proofs::Blanks::blank_cuts, crate::proofs::Faults::accepted))]
pub fn read_line(line: &[u8], steps: &mut Steps) -> Result<Statement, Refusal>
    ensures room { OnOk result (vec_len steps.new.raw ≤ 120) }
    ensures reads { MatchResult result (λ s. Read line.now (items line.now steps.new.raw.items) (parts line.now) s × (plain line.now ≡ true) × Shallow (parts line.now)) (λ e. Refused line.now e) }
    ensures left { is_err result ≡ true → steps.new.raw.items ≡ [] }
    ensures accepts { (s : Stated) → plain line.now ≡ true → Line (parts line.now) s → Shallow (parts line.now) → is_ok result ≡ true }
    ensures only { (e : Refusal) → Refused line.now e → result ≡ Err e }
    ensures one { (ts : List Tok) (s₁ s₂ : Stated) → Line ts s₁ → Line ts s₂ → s₁ ≡ s₂ }
    ensures blanks { (a b : List ℕ) → parts (a ++ 32 ∷ b) ≡ parts a ++ parts b }
{
    steps.raw.clear();
    if !is_plain(line) {
        return Err(Refusal::Text);
    }
    let read = read_plain(line, steps);
    if read.is_err() {
        steps.raw.clear();
    }
    read
}
