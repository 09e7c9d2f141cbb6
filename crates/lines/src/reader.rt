// Reads the formulas of a book line, into steps with their signs after their operands.
ghost use Rattle.std.specs.Prelude.{◌≡◌, ◌+◌, ◌≤◌, length, vec_len};
ghost use Rattle.lines.specs.declared.steps.TheConstants.{MAX_LEN};

use crate::refusal::Refusal;
use crate::steps::Steps;
use crate::token::{Part, Sign, Token, next_token};
use crate::word::{Unit, Word, word_of};

#[derive(Clone, Copy, PartialEq, Eq, Debug)]
pub enum Op {
    Add,
    Sub,
    Mul,
    Div,
    Min,
    Max,
}

// a part of the line, by its place
#[derive(Clone, Copy)]
pub struct Place {
    pub start: usize,
    pub len: usize,
}

impl From<Part<'_>> for Place {
    ghost from_gives = { λ part place. place ≡ record { start = part.start; len = length part.text.now } };

    fn from(part: Part<'_>) -> Self {
        Place {
            start: part.start,
            len: part.text.len(),
        }
    }
}

// a step whose name is not looked up yet
#[derive(Clone, Copy)]
pub enum Raw {
    // a count of thousandths, and its unit
    Number(u32, Unit),
    // by its place, since the steps stay when the line is gone
    Name(Place),
    Op(Op),
}

// signs of one rank join from the left
#[derive(Clone, Copy)]
pub(crate) enum Rank {
    // + and -, which join products
    Sum,
    // * and /, which join factors
    Product,
}

impl Rank {
    ghost use Rattle.lines.specs.Tokens.{tok};
    ghost use Rattle.lines.specs.Reading.{Joins};

    // The step of the sign, if it joins at this rank.
    fn op(self, token: Token<'_>) -> Option<Op>
        ensures { Joins self (tok token.entry) result }
    {
        match (self, token) {
            (Rank::Sum, Token::Sign(Sign::Plus, _)) => Some(Op::Add),
            (Rank::Sum, Token::Sign(Sign::Minus, _)) => Some(Op::Sub),
            (Rank::Product, Token::Sign(Sign::Times, _)) => Some(Op::Mul),
            (Rank::Product, Token::Sign(Sign::Over, _)) => Some(Op::Div),
            _ => None,
        }
    }
}

// reads a line from the left; each step takes a byte at least, so there is room for all steps of a line
#[derive(Drop)]
pub(crate) struct Reader<'a, 's> {
    pub(crate) line: &'a [u8],
    // up to here the line is read
    pub(crate) at: usize,
    pub(crate) steps: &'s mut Steps,
    ghost short: { length line.now ≤ MAX_LEN },
    ghost within: { at ≤ length line.now },
    ghost room: { vec_len steps.now.raw + length line.now ≤ MAX_LEN + at },
}

impl<'a, 's> Reader<'a, 's> {
    ghost use Rattle.std.specs.Prelude.{◌≡◌, ℕ, ◌+◌, ◌<◌, ◌≤◌, List, [], ◌∷◌, ◌++◌, IfOk, ◌≢◌};
    ghost use Rattle.lines.specs.Tokens.{Tok, tok, up_to, least, Placed};
    ghost use Rattle.lines.specs.Words.{word_of};
    ghost use Rattle.lines.specs.Grammar.{Sum, Product, Factor, Function};
    ghost use Rattle.lines.specs.Reading.{Wants, ahead, Takes, Advances, Formula, Joined, Operand, rank_signs, tight, factors, joins};

    // The next part, which is then read.
    pub(crate) fn next(&mut self) -> Token<'a>
        ensures part { ahead self.old ≡ up_to (tok result) (ahead self.new) }
        ensures lies { Placed self.new.line.now result }
        ensures takes { Takes self.old self.new }
        ensures moves { self.old.at + least (tok result) ≤ self.new.at }
    {
        let (token, after) = next_token(self.line, self.at);
        self.at = after;
        token
    }

    // Reads the sign, which has to come next.
    pub(crate) fn expect(&mut self, wanted: Sign) -> Result<(), Refusal>
        ensures sign { Wants result (λ _. ahead self.old ≡ Tok.sign wanted ∷ ahead self.new) ((ts : List Tok) → ahead self.old ≢ Tok.sign wanted ∷ ts) }
        ensures takes { Takes self.old self.new }
        ensures moves { IfOk result (λ _. self.old.at < self.new.at) }
    {
        match self.next() {
            Token::Sign(sign, _) if sign == wanted => Ok(()),
            _ => Err(Refusal::Grammar),
        }
    }

    // Products joined by + and -; `left` is how many parentheses may still open. (No field, since behind a parenthesis it is again what it was.)
    #[cycle(formula)]
    pub(crate) fn sum(&mut self, left: usize) -> Result<(), Refusal>
        ensures reads { Formula Sum joins left (ahead self.old) result self.old self.new }
        ensures moves { Advances result self.old self.new }
    {
        self.joined(Rank::Sum, left)
    }

    // Factors joined by * and /.
    #[cycle(formula)]
    fn product(&mut self, left: usize) -> Result<(), Refusal>
        ensures reads { Formula Product factors left (ahead self.old) result self.old self.new }
        ensures moves { Advances result self.old self.new }
    {
        self.joined(Rank::Product, left)
    }

    // What the signs of the rank join, from the left.
    #[cycle(formula)]
    fn joined(&mut self, rank: Rank, left: usize) -> Result<(), Refusal>
        ensures reads { Formula (Joined rank) (rank_signs rank ++ tight rank) left (ahead self.old) result self.old self.new }
        ensures moves { Advances result self.old self.new }
    {
        self.operand(rank, left)?;
        loop {
            let (token, after) = next_token(self.line, self.at);
            let Some(op) = rank.op(token) else {
                return Ok(());
            };
            self.at = after;
            self.after_sign(rank, left)?;
            self.steps.push(Raw::Op(op));
        }
    }

    // What a sign of the rank joins to what stands left of it: one operand, since signs of one rank join from the left. Apart from `operand`, so that a wrong
    // line here is refused as a fact that does not hold.
    #[cycle(formula)]
    fn after_sign(&mut self, of: Rank, left: usize) -> Result<(), Refusal>
        ensures reads { Formula (Operand of) (tight of) left (ahead self.old) result self.old self.new }
        ensures moves { Advances result self.old self.new }
    {
        self.operand(of, left)
    }

    // What a sign of the rank joins.
    #[cycle(formula)]
    fn operand(&mut self, rank: Rank, left: usize) -> Result<(), Refusal>
        ensures reads { Formula (Operand rank) (tight rank) left (ahead self.old) result self.old self.new }
        ensures moves { Advances result self.old self.new }
    {
        // By a match, since sum, product and factor are functions that call each other.
        match rank {
            Rank::Sum => self.product(left),
            Rank::Product => self.factor(left),
        }
    }

    // A number, a name, a sum in parentheses, or min or max of two sums.
    #[cycle(formula)]
    fn factor(&mut self, left: usize) -> Result<(), Refusal>
        ensures reads { Formula Factor [] left (ahead self.old) result self.old self.new }
        ensures moves { Advances result self.old self.new }
    {
        match self.next() {
            Token::Number(_, count, unit) => {
                self.steps.push(Raw::Number(count, unit));
                Ok(())
            }
            Token::Malformed(_) => Err(Refusal::Digits),
            Token::Sign(Sign::Open, _) => self.group(left),
            Token::Word(word) => match word_of(word.text) {
                Word::Min => self.pair(left, Op::Min),
                Word::Max => self.pair(left, Op::Max),
                Word::Name => {
                    self.steps.push(Raw::Name(word.into()));
                    Ok(())
                }
                _ => Err(Refusal::Grammar),
            },
            _ => Err(Refusal::Grammar),
        }
    }

    // What follows an open parenthesis: a sum and the closing one.
    #[cycle(formula)]
    fn group(&mut self, left: usize) -> Result<(), Refusal>
        ensures reads { Formula Factor [] left (Tok.sign Sign.Open ∷ ahead self.old) result self.old self.new }
        ensures moves { Advances result self.old self.new }
    {
        if left == 0 {
            return Err(Refusal::Nesting);
        }
        self.sum(left - 1)?;
        self.expect(Sign::Close)
    }

    // What follows min or max: two sums in parentheses.
    #[cycle(formula)]
    fn pair(&mut self, left: usize, op: Op) -> Result<(), Refusal>
        ensures reads { (w : List ℕ) → Function (word_of w) op → Formula Factor [] left (Tok.word w ∷ ahead self.old) result self.old self.new }
        ensures moves { Advances result self.old self.new }
    {
        self.expect(Sign::Open)?;
        if left == 0 {
            return Err(Refusal::Nesting);
        }
        self.sum(left - 1)?;
        self.expect(Sign::Comma)?;
        self.sum(left - 1)?;
        self.expect(Sign::Close)?;
        self.steps.push(Raw::Op(op));
        Ok(())
    }
}
