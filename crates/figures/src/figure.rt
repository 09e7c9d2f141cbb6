// Figures: workings from the left, and rules over two of them.
ghost use Rattle.std.specs.Prelude.{◌≡◌};
ghost use Rattle.ranges.specs.Ranges.{span, Related, Alike, Covers};
ghost use Rattle.figures.specs.Workings.{given, chained, comes, sides, comes_in, judged_in, Reads};
ghost use Rattle.figures.specs.Known.{known, AllStand};

use crate::entry::{Ends, Entry, FormName, Working};
use crate::exact::Exact;
use numbers::{Form, Grid, Mil, Refusal, Sig};
use ranges::{Kind, Range, Verdict, judge};

// The range of an entry.
fn taken<F: Form>(entry: Entry) -> Range<F>
    ensures { Covers F.Grid.gauge (given entry) result }
{
    Range::take(entry.low, entry.high)
}

// The range of a working.
fn worked<F: Form>(working: Working<'_>) -> Result<Range<F>, Refusal>
    ensures { Related (λ x. Alike (span F.Grid.gauge x)) result (comes F.Grid.gauge (chained working.entry)) }
{
    let mut range = taken(working.first.entry);
    for link in working.links {
        range = range.step(link.sign, taken(link.operand.entry))?;
    }
    Ok(range)
}

// The ends of a working's range.
fn read<F: Exact>(working: Working<'_>) -> Result<Ends, Refusal>
    ensures { Related Reads result (comes F.Grid.gauge (chained working.entry)) }
{
    let range = worked::<F>(working)?;
    Ok(Ends {
        low: range.low.exact(),
        high: range.high.exact(),
    })
}

// The verdict over two workings.
fn checked<F: Form>(kind: Kind, left: Working<'_>, right: Working<'_>) -> Result<Verdict, Refusal>
    ensures { result ≡ sides F.Grid.gauge kind (comes F.Grid.gauge (chained left.entry)) (comes F.Grid.gauge (chained right.entry)) }
{
    let left = worked::<F>(left)?;
    let right = worked::<F>(right)?;
    judge(kind, left, right)
}

// What a working comes to in a form. The known figures are such.
pub fn figure(form: FormName, working: Working<'_>) -> Result<Ends, Refusal>
    ensures answer { Related Reads result (comes_in form (chained working.entry)) }
    ensures stand { AllStand known }
{
    // A name is a value and a form is a type: here, and in `verdict`, the one becomes the other.
    match form {
        FormName::Mil => read::<Mil>(working),
        FormName::Sig => read::<Sig>(working),
    }
}

// The verdict over two workings in a form.
pub fn verdict(
    form: FormName,
    kind: Kind,
    left: Working<'_>,
    right: Working<'_>,
) -> Result<Verdict, Refusal>
    ensures { result ≡ judged_in form kind (chained left.entry) (chained right.entry) }
{
    match form {
        FormName::Mil => checked::<Mil>(kind, left, right),
        FormName::Sig => checked::<Sig>(kind, left, right),
    }
}
