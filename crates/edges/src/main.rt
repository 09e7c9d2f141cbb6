// Works lines of two values of sig and a sign between them, and prints the ends of the result in millionths.
// A value is a mantissa and a power of ten: the line `999999 6 + 1 -6` is 999999 * 10^6 + 1 * 10^-6.
#![tactic(auto)]

use anyhow::Context;
use numbers::{Form, Grid, Rounding, Sig, Thousandths};
use ranges::{Range, Sign};
use std::str::SplitWhitespace;

// The value mantissa * 10^exponent, where it is one of sig's.
fn value(mantissa: i32, exponent: i32) -> Option<Sig> {
    if !(-999_999..=999_999).contains(&mantissa) || !(-6..=6).contains(&exponent) {
        return None;
    }
    let ten = Sig::take(Thousandths::new(10_000)?, Rounding::Down);
    let count = Thousandths::new(mantissa * 1000)?;
    let mut value = Sig::take(count, Rounding::Down);
    for _ in 0..exponent.unsigned_abs() {
        let scaled = if exponent < 0 {
            value.divide(ten, Rounding::Down)
        } else {
            value.multiply(ten, Rounding::Down)
        };
        value = scaled.ok()?;
    }
    Some(value)
}

// (The type is of another crate, so it has no `FromStr` here; that crate reads no text.)
fn sign(word: &str) -> Option<Sign> {
    match word {
        "+" => Some(Sign::Plus),
        "-" => Some(Sign::Minus),
        "*" => Some(Sign::Times),
        "/" => Some(Sign::Over),
        _ => None,
    }
}

#[derive(Drop)]
struct Row {
    left: Range<Sig>,
    sign: Sign,
    right: Range<Sig>,
}

// A value, by its two words.
fn operand(words: &mut SplitWhitespace<'_>) -> Option<Range<Sig>> {
    let mantissa = words.next()?.parse().ok()?;
    let exponent = words.next()?.parse().ok()?;
    let value = value(mantissa, exponent)?;
    Some(Range {
        low: value,
        high: value,
    })
}

fn read(line: &str) -> Option<Row> {
    let mut words = line.split_whitespace();
    let left = operand(&mut words)?;
    let sign = sign(words.next()?)?;
    let right = operand(&mut words)?;
    match words.next() {
        None => Some(Row { left, sign, right }),
        Some(_) => None,
    }
}

fn print_line(rt: &HostRuntime, line: &str) -> anyhow::Result<()> {
    let row = read(line).context(
        "a line is no sum, difference, product or quotient of two values of sig",
    )?;
    match row.left.step(row.sign, row.right) {
        Ok(range) => println!(rt;
            "{line} = {} to {}",
            range.low.millionths(),
            range.high.millionths()
        )?,
        Err(refusal) => println!(rt; "{line} refused with {}", refusal as u8)?,
    }
    Ok(())
}

fn run(rt: &HostRuntime) -> anyhow::Result<()> {
    for line in rt.lines(rt.alloc()) {
        let line = line?;
        print_line(rt, line.as_str())?;
    }
    Ok(())
}

fn main(rt: HostRuntime) -> anyhow::Result<()> {
    run(&rt)
}
