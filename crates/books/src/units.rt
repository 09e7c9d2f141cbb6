// Units as pairs of exponents, of inch and of kip.
ghost use Rattle.std.specs.Prelude.{◌≡◌, ◌≤◌, length, ℤ, ◌+ℤ◌};
ghost use Rattle.std.specs.Bool.{then_some};
ghost use Rattle.std.specs.Ordering.{int_eq};
ghost use Rattle.books.specs.Books.{units};
ghost use Rattle.books.specs.Formulas.{Formula, steps};
ghost use Rattle.books.specs.Units.{small_unit, each_exponent, IsExact, same_unit, times_unit, over_unit, join_units, sides_agree, step_unit, Pops, Steps};
ghost use Rattle.books.specs.Drafts.{lists_of, unit_in};

use crate::book::Book;
use crate::refusal::Refusal;
use crate::reserved::Reserved;
use crate::step::Step;
use lines::{Op, Unit};

// Whether both exponents are from -12 to 12.
fn within_reach(unit: Unit) -> bool
    ensures { result ≡ small_unit unit }
{
    let reach = -12..=12;
    reach.contains(&unit.0) && reach.contains(&unit.1)
}

// The unit that an operation makes of both exponents, where neither leaves -12 to 12.
fn combined<F: Fn(i8, i8) -> Option<i8>>(a: Unit, b: Unit, by: F) -> Option<Unit>
    ghost exact: { ℤ → ℤ → ℤ }
    requires callable { F.IsAlwaysCallable by }
    requires inch { IsExact (F.post by) exact a.0 b.0 }
    requires kip { IsExact (F.post by) exact a.1 b.1 }
    ensures { let u = each_exponent exact a b in result ≡ then_some (small_unit u) u }
{
    let unit = (by(a.0, b.0)?, by(a.1, b.1)?);
    within_reach(unit).then_some(unit)
}

fn product(a: Unit, b: Unit) -> Option<Unit>
    ensures { let u = times_unit a b in result ≡ then_some (small_unit u) u }
{
    combined(a, b, i8::checked_add)
}

fn quotient(a: Unit, b: Unit) -> Option<Unit>
    ensures { let u = over_unit a b in result ≡ then_some (small_unit u) u }
{
    combined(a, b, i8::checked_sub)
}

// Whether y is x doubled.
fn doubles(x: i8, y: i8) -> bool
    ensures { result ≡ int_eq (x +ℤ x) y }
{
    x.checked_add(x) == Some(y)
}

// Whether b is the unit of a squared.
fn squares(a: Unit, b: Unit) -> bool
    ensures { result ≡ same_unit (times_unit a a) b }
{
    doubles(a.0, b.0) && doubles(a.1, b.1)
}

// Whether the units of a rule's sides agree.
pub(crate) fn sides_agree(root: bool, left: Unit, right: Unit) -> bool
    ensures { result ≡ sides_agree root left right }
{
    if root {
        squares(left, right)
    } else {
        left == right
    }
}

// The unit of a sign's result, from those of its operands.
fn join_units(op: Op, a: Unit, b: Unit) -> Result<Unit, Refusal>
    ensures { result ≡ join_units op a b }
{
    match op {
        Op::Mul => product(a, b).ok_or(Refusal::Exponent),
        Op::Div => quotient(a, b).ok_or(Refusal::Exponent),
        Op::Add | Op::Sub | Op::Min | Op::Max => {
            if a == b { Ok(a) } else { Err(Refusal::Units) }
        }
    }
}

// The unit of a number, or of the entry or the line; (0, 0) where there is none, which no formula of a book comes to.
fn operand_unit(book: &Book, step: Step) -> Unit
    ensures { result ≡ step_unit (units book.now.entries book.now.lines) step }
{
    match step {
        Step::Number(_, unit) => unit,
        Step::Entry(i) => {
            let entry = book.entries().get(usize::from(i));
            entry.map_or((0, 0), |entry| entry.unit)
        }
        Step::Line(k) => {
            let line = book.lines().get(usize::from(k));
            line.map_or((0, 0), |line| line.unit)
        }
        Step::Op(_) => (0, 0),
    }
}

// The unit at the end of the stack; (0, 0) where it is empty.
fn pop_unit(stack: &mut Reserved<Unit, 120>) -> Unit
    ensures taken { Pops stack.old result stack.new }
    ensures len { length stack.new ≤ length stack.old }
{
    stack.pop().unwrap_or((0, 0))
}

// Takes the operands of a step off the stack; the unit of its result.
fn step_unit(book: &Book, step: Step, stack: &mut Reserved<Unit, 120>) -> Result<Unit, Refusal>
    ensures unit { Steps (units book.now.entries book.now.lines) step stack.old stack.new result }
    ensures len { length stack.new ≤ length stack.old }
{
    match step {
        Step::Op(op) => {
            let right = pop_unit(stack);
            let left = pop_unit(stack);
            join_units(op, left, right)
        }
        _ => Ok(operand_unit(book, step)),
    }
}

// The unit of a row, or the refusal of its first step that has one.
pub(crate) fn row_unit(
    book: &Book,
    row: &[Step],
    stack: &mut Reserved<Unit, 120>,
) -> Result<Unit, Refusal>
    requires { length row.now ≤ 120 }
    ensures { (f : Formula) → row.now ≡ steps f → result ≡ unit_in (lists_of book.now) f }
{
    stack.clear();
    for step in row {
        let unit = step_unit(book, *step, stack)?;
        stack.push(unit);
    }
    Ok(pop_unit(stack))
}
