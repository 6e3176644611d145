// Writes the text, line behind line. What a line's names have in common with the line before it is copied from there,
// so that a deep stack is one copy and not a copy for each name.
ghost use Rattle.std.specs.Prelude.{◌+◌, ◌≤◌, length};
ghost use Rattle.report.specs.Room.{Lays};
ghost use Rattle.folded.specs.Text.{cost_text};
ghost use Rattle.folded.specs.Write.{piece, StackAsks, StackLeaves, CloseLeaves};
ghost use Rattle.folded.specs.Write.{LineAsks, LineLeaves, Asks, Leaves};

use crate::measure;
use report::lay;

// The line that was written last: where it begins, how many of the rows that are open now it has at its front, and
// how many characters their joined names are.
#[derive(Clone, Copy)]
struct Last {
    from: usize,
    rows: usize,
    chars: usize,
}

// The name of the k-th open row, with a semicolon before it where it is not the root's.
fn put_name(name: &[u8], k: usize, out: &mut [u8], at: usize) -> usize
    requires { at + length (piece k name.now) ≤ length out.old }
    ensures { Lays at (piece k name.now) out.old result out.new }
{
    if k == 0 {
        return lay::text(out, at, name);
    }
    let end = lay::character(out, at, b';');
    lay::text(out, end, name)
}

// The joined names of the open rows.
fn put_stack(
    names: &[&[u8]],
    t: &[u64],
    depth: usize,
    out: &mut [u8],
    at: usize,
    last: Last,
) -> usize
    requires { StackAsks names.now t.now depth out.old at last }
    ensures { StackLeaves names.now t.now depth out.old at last result out.new }
{
    let mut end = lay::again(out, at, last.from, last.chars);
    for k in last.rows..depth {
        end = put_name(names[t[k] as usize], k, out, end);
    }
    end
}

// A space, a cost and a line feed.
fn put_cost(out: &mut [u8], at: usize, v: u64) -> usize
    requires { at + length (cost_text v) ≤ length out.old }
    ensures { Lays at (cost_text v) out.old result out.new }
{
    let one = lay::character(out, at, b' ');
    let two = lay::decimal(out, one, v);
    lay::character(out, two, b'\n')
}

// The line that was written last, where the innermost of the open rows closes.
fn close(name: &[u8], depth: usize, last: Last) -> Last
    requires { 1 ≤ depth }
    ensures { CloseLeaves name.now depth last result }
{
    if last.rows < depth {
        return last;
    }
    Last {
        rows: depth - 1,
        chars: last.chars.saturating_sub(name.len()).saturating_sub(1),
        ..last
    }
}

// How many rows are open, where the next line goes, and the line before it.
#[derive(Clone, Copy)]
struct Written {
    depth: usize,
    at: usize,
    last: Last,
}

// Writes what a line prints. The open rows stand in `t`, the root's first.
fn put_line(
    trace: &[u8],
    n: usize,
    names: &[&[u8]],
    t: &mut [u64],
    out: &mut [u8],
    a: Written,
) -> Written
    requires { LineAsks trace.now n names.now t.old out.old a }
    ensures { LineLeaves trace.now n names.now t.old out.old a result t.new out.new }
{
    let depth = a.depth;
    let at = a.at;
    match line::kind_at::<line::Base>(trace, n) {
        6 => {
            let v = measure::cost_at(trace, n);
            let end = put_stack(names, t, depth, out, at, a.last);
            let next = put_cost(out, end, v);
            let this = Last {
                from: at,
                rows: depth,
                chars: end - at,
            };
            Written {
                depth,
                at: next,
                last: this,
            }
        }
        5 => {
            let name = names[t[depth - 1] as usize];
            Written {
                depth: depth - 1,
                at,
                last: close(name, depth, a.last),
            }
        }
        2 | 3 => {
            t[depth] = line::site_at(trace, n) as u64;
            Written {
                depth: depth + 1,
                ..a
            }
        }
        _ => a,
    }
}

// Writes the text of a trace to the front of the output, and answers how many characters it has.
pub(crate) fn text(
    trace: &[u8],
    lines: usize,
    names: &[&[u8]],
    t: &mut [u64],
    out: &mut [u8],
) -> usize
    requires { Asks trace.now lines names.now t.old out.old }
    ensures { Leaves trace.now lines names.now t.old out.old result out.new }
{
    let none = Last {
        from: 0,
        rows: 0,
        chars: 0,
    };
    let mut a = Written {
        depth: 1,
        at: 0,
        last: none,
    };
    t[0] = 0;
    for n in 0..lines {
        a = put_line(trace, n, names, t, out, a);
    }
    a.at
}
