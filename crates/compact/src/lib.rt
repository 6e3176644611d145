// The trace compactor. The lines of the result are counted where the output may be too short for them, and then written.

#![tactic(auto)]

mod put;
mod step;

ghost use Rattle.std.specs.Prelude.{◌≡◌, ◌+◌, ◌^◌, ◌<◌, leb, length};
ghost use Rattle.trace.specs.Written.{text_of};
ghost use Rattle.compact.specs.Machine.{start, outs};
ghost use Rattle.compact.specs.Pass.{carried_at, item_at, Lines, Fits, Leaves, Ends};
ghost use Rattle.compact.specs.Promise.{Compacts};

use line::{LINE, Refusal};
use step::{Item, State};
use walk::{Cycles, Instructions};

// The instructions of line n, where it is a cost line; none of any other.
fn carried(trace: &[u8], n: usize, kind: u8) -> Instructions
    requires { n + 1 < 2 ^ 64 }
    ensures { result.0 ≡ carried_at trace.now n kind }
{
    if kind == 6 {
        walk::instructions_at(trace, n)
    } else {
        Instructions(0)
    }
}

// What line n tells the step. Reading and step stay two functions: each is short enough for the compiler to put it into both
// passes, which one for both is not.
fn item(trace: &[u8], n: usize) -> Item
    requires { n + 1 < 2 ^ 64 }
    ensures { result ≡ item_at trace.now n }
{
    let kind = line::kind_at::<line::Base>(trace, n);
    let cycles = Cycles(line::value_at(trace, n) as u64);
    let instructions = carried(trace, n, kind);
    Item {
        kind,
        cycles,
        instructions,
    }
}

// How many lines the result has.
fn count(trace: &[u8], lines: usize) -> usize
    requires { Lines trace.now lines }
    ensures { (q : Lines trace.now lines) → result ≡ length (outs start q.frames) }
{
    let mut s = State::new();
    let mut total = 0;
    for n in 0..lines {
        let g = s.step(item(trace, n));
        total += put::size(g);
        s = g.next;
    }
    total
}

// Writes the result to the front of the output, and answers how many characters it is.
fn write(trace: &[u8], lines: usize, out: &mut [u8]) -> usize
    requires { Fits trace.now lines (length out.old) }
    ensures { Leaves trace.now lines out.old result out.new }
{
    let mut s = State::new();
    let mut at = 0;
    for n in 0..lines {
        let g = s.step(item(trace, n));
        at = put::lines(trace, n, out, at, g);
        s = g.next;
    }
    at
}

// Whether the result fits a room of so many characters. It is never longer than the trace, and room for that is enough.
fn fits(trace: &[u8], lines: usize, room: usize) -> bool
    requires { Lines trace.now lines }
    ensures { (q : Lines trace.now lines) → result ≡ leb (length (text_of (outs start q.frames))) room }
{
    trace.len() <= room || LINE * count(trace, lines) <= room
}

// The trace is accepted: 21 for output shorter than the result.
fn accepted(trace: &[u8], lines: usize, out: &mut [u8]) -> Result<usize, Refusal>
    requires { Lines trace.now lines }
    ensures { Ends trace.now lines result out.old out.new }
{
    if !fits(trace, lines, out.len()) {
        return Err(trace::refused(21));
    }
    Ok(write(trace, lines, out))
}

// Writes any text, with any limits, without the lines that say nothing to the front of any output, or refuses: as the
// engines do, with no room asked but the output, then 21 for output shorter than the result.
pub fn compact(trace: &[u8], depth: usize, sites: usize, out: &mut [u8]) -> Result<usize, Refusal>
    ensures { Compacts trace.now depth sites result out.old out.new }
{
    let admitted = admit::with_room(trace, depth, sites, true)?;
    accepted(trace, admitted.lines, out)
}
