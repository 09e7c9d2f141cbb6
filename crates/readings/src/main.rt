// Reads drafts of rule books, a line at a time, and prints what becomes of each line, and what each book holds when it is closed.
// The line `====` closes a draft and opens the next one.
#![tactic(auto)]

mod shown;

use anyhow::Context;
use books::{Book, Draft, Name};
use shown::{Exponents, Members, Steps};
use std::io::{self, BufRead, BufReader};
use std::str::from_utf8;

fn text(name: &Name) -> anyhow::Result<&str> {
    from_utf8(name.text()).context("a name is no text")
}

fn print_entries(rt: &HostRuntime, book: &Book) -> anyhow::Result<()> {
    for (number, entry) in book.entries().iter().enumerate() {
        let dependents = book.dependents(u8::try_from(number)?);
        println!(rt;
            "entry {number} {} {} lines={} rules={}",
            text(&entry.name)?,
            Exponents(entry.unit),
            Members(dependents.lines),
            Members(dependents.rules)
        )?;
    }
    Ok(())
}

fn print_lines(rt: &HostRuntime, book: &Book) -> anyhow::Result<()> {
    for (number, line) in book.lines().iter().enumerate() {
        println!(rt;
            "line {number} {} {} entries={} lines={} :{}",
            text(&line.name)?,
            Exponents(line.unit),
            Members(line.needs.entries),
            Members(line.needs.lines),
            Steps(book.steps(line.steps))
        )?;
    }
    Ok(())
}

fn print_rules(rt: &HostRuntime, book: &Book) -> anyhow::Result<()> {
    for (number, rule) in book.rules().iter().enumerate() {
        println!(rt;
            "rule {number} {} {} {} entries={} lines={} :{} <={}",
            text(&rule.name)?,
            Exponents(rule.unit),
            if rule.root { "root" } else { "plain" },
            Members(rule.needs.entries),
            Members(rule.needs.lines),
            Steps(book.steps(rule.left)),
            Steps(book.steps(rule.right))
        )?;
    }
    Ok(())
}

// How many steps the lines and rules have.
fn count(book: &Book) -> usize {
    let lines = book.lines().iter().map(|line| line.steps.len);
    let rules = book
        .rules()
        .iter()
        .flat_map(|rule| [rule.left.len, rule.right.len]);
    lines.chain(rules).fold(0, usize::saturating_add)
}

fn print_book(rt: &HostRuntime, book: &Book) -> anyhow::Result<()> {
    println!(rt;
        "book {} {} {} {}",
        book.entries().len(),
        book.lines().len(),
        book.rules().len(),
        count(book)
    )?;
    print_entries(rt, book)?;
    print_lines(rt, book)?;
    print_rules(rt, book)
}

fn add(rt: &HostRuntime, draft: &mut Draft, line: &[u8]) -> io::Result<()> {
    match draft.add(line) {
        Ok(()) => println!(rt; "ok"),
        Err(refusal) => println!(rt; "refused {}", refusal as u8),
    }
}

fn run(rt: &HostRuntime) -> anyhow::Result<()> {
    let mut draft = Draft::open(rt.alloc())?;
    for line in BufReader::new(rt.alloc(), rt.stdin())?.split(rt.alloc(), b'\n') {
        let line = line?;
        if line.as_slice() == b"====".as_slice() {
            print_book(rt, &draft.close())?;
            draft = Draft::open(rt.alloc())?;
        } else {
            add(rt, &mut draft, line.as_slice())?;
        }
    }
    print_book(rt, &draft.close())
}

fn main(rt: HostRuntime) -> anyhow::Result<()> {
    run(&rt)
}
