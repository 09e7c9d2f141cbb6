// Works a check of a slab and some figures in both forms, and prints each step.
#![tactic(auto)]

mod entry;
mod exact;
mod figure;
mod text;

use anyhow::Context;
use entry::{Entry, FormName, Operand, Working};
use figure::{figure, verdict};
use numbers::Refusal;
use ranges::{Kind, Sign};
use std::fmt::Display;
use text::Formula;

// A range as it is written, and as it is typed in thousandths.
fn typed(text: &str, low: i32, high: i32) -> anyhow::Result<Operand<'_>> {
    let entry = Entry::new(low, high).context("an entry is no range of thousandths")?;
    Ok(Operand { text, entry })
}

// Prints figures in one form.
#[derive(Clone, Copy)]
struct Printer<'a> {
    rt: &'a HostRuntime,
    form: FormName,
}

impl Printer<'_> {
    // Prints what a formula or a rule comes to, or the number of its refusal.
    fn outcome<T: Display + Drop>(
        &self,
        name: &str,
        outcome: Result<T, Refusal>,
    ) -> anyhow::Result<()> {
        match outcome {
            Ok(outcome) => println!(self.rt; "  {name:<16} {outcome}")?,
            Err(refusal) => println!(self.rt; "  {name:<16} refused with {}", refusal as u8)?,
        }
        Ok(())
    }

    // Prints an operand alone.
    fn operand(&self, operand: Operand<'_>) -> anyhow::Result<()> {
        self.outcome(operand.text, figure(self.form, Working::alone(operand)))
    }

    // Prints a working step by step.
    fn working(&self, working: Working<'_>) -> anyhow::Result<()> {
        let heap = self.rt.alloc();
        let mut formula = Formula::new(heap, working.first.text)?;
        // The number of a link says how much of the working stands so far.
        for (i, link) in working.links.iter().enumerate() {
            formula = formula.joined(heap, *link)?;
            let part = Working {
                first: working.first,
                links: &working.links[..i + 1],
            };
            self.outcome(formula.as_str(), figure(self.form, part))?;
        }
        Ok(())
    }

    // The slenderness of a slab of that thickness over a clear span of 72 inches: 12*lu*lu <= 34*34*h*h.
    fn slab(&self, low: i32, high: i32) -> anyhow::Result<()> {
        let h = typed("h", low, high)?;
        let lu = typed("lu", 72_000, 72_000)?;
        let limit = typed("34", 34_000, 34_000)?;
        let left = Working {
            first: typed("12", 12_000, 12_000)?,
            links: &[lu.after(Sign::Times), lu.after(Sign::Times)],
        };
        let right = Working {
            first: limit,
            links: &[
                limit.after(Sign::Times),
                h.after(Sign::Times),
                h.after(Sign::Times),
            ],
        };
        self.operand(h)?;
        self.operand(lu)?;
        self.working(left)?;
        self.working(right)?;
        self.outcome("slender", verdict(self.form, Kind::Plain, left, right))
    }

    // Slabs 10 to 10.25 inches thick, 7 to 7.5, and 6.
    fn slabs(&self) -> anyhow::Result<()> {
        self.slab(10_000, 10_250)?;
        self.slab(7_000, 7_500)?;
        self.slab(6_000, 6_000)
    }

    // Two thirds, above zero and below.
    fn thirds(&self) -> anyhow::Result<()> {
        let two = typed("2", 2_000, 2_000)?;
        let over_three = typed("3", 3_000, 3_000)?.after(Sign::Over);
        let above = Working {
            first: two,
            links: &[over_three],
        };
        let below = Working {
            first: typed("0", 0, 0)?,
            links: &[two.after(Sign::Minus), over_three],
        };
        self.working(above)?;
        self.working(below)
    }

    // The lesser and the greater ends of two ranges, and their sum.
    fn bounds(&self) -> anyhow::Result<()> {
        let first = typed("[1,4]", 1_000, 4_000)?;
        let second = typed("[2,3]", 2_000, 3_000)?;
        for sign in [Sign::Least, Sign::Greatest, Sign::Plus] {
            let working = Working {
                first,
                links: &[second.after(sign)],
            };
            self.working(working)?;
        }
        Ok(())
    }

    // A product of ranges across zero, two products at the reach of mil, and a root of which the left side is below zero.
    fn edges(&self) -> anyhow::Result<()> {
        let across = Working {
            first: typed("[-2,3]", -2_000, 3_000)?,
            links: &[typed("[-4,5]", -4_000, 5_000)?.after(Sign::Times)],
        };
        let large = typed("750000", 750_000_000, 750_000_000)?;
        let within = Working {
            first: large,
            links: &[typed("4", 4_000, 4_000)?.after(Sign::Times)],
        };
        let beyond = Working {
            first: large,
            links: &[typed("4.001", 4_001, 4_001)?.after(Sign::Times)],
        };
        let left = Working::alone(typed("[-3,-2]", -3_000, -2_000)?);
        let right = Working::alone(typed("1", 1_000, 1_000)?);
        self.working(across)?;
        self.working(within)?;
        self.working(beyond)?;
        self.outcome(
            "[-3,-2]<=root(1)",
            verdict(self.form, Kind::Root, left, right),
        )
    }
}

fn run(rt: &HostRuntime) -> anyhow::Result<()> {
    println!(rt;
        "A slab of thickness h, clear span lu, in inches. Rule slender: 12*lu*lu <= 34*34*h*h"
    )?;
    for form in [FormName::Mil, FormName::Sig] {
        println!(rt; "in {form}:")?;
        let printer = Printer { rt, form };
        printer.slabs()?;
        printer.thirds()?;
        printer.bounds()?;
        printer.edges()?;
    }
    Ok(())
}

fn main(rt: HostRuntime) -> anyhow::Result<()> {
    run(&rt)
}
