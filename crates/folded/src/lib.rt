// Folded stacks: for each cost line of a trace the names of the open invocations, and the cost.

#![tactic(auto)]

mod measure;
mod shown;
mod write;

ghost use Rattle.std.specs.Prelude.{◌<◌, length};
ghost use Rattle.folded.specs.Folding.{folding, Folds};
ghost use Rattle.folded.specs.Whole.{Admitted, Decided, Fitted};

use line::Refusal;
use names::Lists;

// The names are good: they are found, in the table that is lent, the text is measured and, where it fits, written.
fn named<'a>(
    trace: &[u8],
    count: usize,
    lines: usize,
    lists: Lists<'a>,
    names: &mut [&'a [u8]],
    scratch: &mut [u64],
    out: &mut [u8],
) -> Result<usize, Refusal>
    requires { Admitted trace.now count lines (length scratch.old) × (count < length names.old) }
    ensures { Fitted trace.now count lines lists.entry.project.now lists.entry.stock.now result
        out.old out.new scratch.old scratch.new }
{
    shown::find(lists, count + 1, names);
    if !measure::fits(trace, lines, names, out.len()) {
        return Err(trace::refused(18));
    }
    let n = write::text(trace, lines, names, scratch, out);
    walk::zero(scratch, scratch.len());
    Ok(n)
}

// Rows that a small trace has at most: to clear a table of 256 names would be a fifth of its time.
const FEW: usize = 32;

// The trace is accepted: 17 for the first row whose name is bad, then 18 for output too short.
fn accepted(
    trace: &[u8],
    count: usize,
    lines: usize,
    lists: Lists,
    scratch: &mut [u64],
    out: &mut [u8],
) -> Result<usize, Refusal>
    requires { Admitted trace.now count lines (length scratch.old) }
    ensures { Decided trace.now count lines lists.entry.project.now lists.entry.stock.now result
        out.old out.new scratch.old scratch.new }
{
    let bad = lists.first_bad(count + 1);
    if bad <= count {
        return Err(Refusal {
            number: 17,
            line: bad,
        });
    }
    if count < FEW {
        let mut names: [&[u8]; FEW] = [&[]; FEW];
        return named(trace, count, lines, lists, &mut names, scratch, out);
    }
    let mut names: [&[u8]; 256] = [&[]; 256];
    named(trace, count, lines, lists, &mut names, scratch, out)
}

// Writes the folded stacks of any text, with any limits, any lists of names and any room, or refuses: as the engines
// do, with 4 for fewer than `depth` scratch numbers, then 17 and 18.
pub fn write_folded(
    trace: &[u8],
    depth: usize,
    sites: usize,
    lists: Lists,
    scratch: &mut [u64],
    out: &mut [u8],
) -> Result<usize, Refusal>
    ensures { Folds
        (folding trace.now depth sites lists.entry.project.now lists.entry.stock.now
        (length scratch.old) (length out.old)) result
        out.old out.new scratch.old scratch.new }
{
    let admitted = admit::with_room(trace, depth, sites, depth <= scratch.len())?;
    accepted(trace, admitted.sites, admitted.lines, lists, scratch, out)
}
