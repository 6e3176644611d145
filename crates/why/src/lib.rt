// Why a step is not on the span. Two readings: the marks reader with the asked line heavier than all work leaves the first of
// the heaviest chains through it in the marks; then one over plain costs, in which each chain is its weight and the
// smallest of its lines that is not marked.

#![tactic(auto)]

ghost use Rattle.std.specs.Prelude.{◌≡◌, ◌+◌, ◌^◌, ◌≤◌, ◌<◌, length, replicate};
ghost use Rattle.marks.specs.Shown.{Wiped};
ghost use Rattle.why.specs.Seek.{unseen, in_series, heavier_of, start, joined_seen, called_seen, spawned_seen, if_unmarked, answer_of};
ghost use Rattle.why.specs.Second.{marked_in, line_seen, ItemAsks, ItemLeaves, Asks, ItemsLeave, BodyAsks, BodyLeaves};
ghost use Rattle.why.specs.Promise.{roomy, Asked, LineAsks, LineLeaves, Admitted, Ends};

use line::Refusal;
use walk::{Cycles, Measure};

// "answer one of four: not a cost line; on the chosen chain; slack n ...; or tied, with the smallest line ..."
#[derive(Clone, Copy)]
pub enum Why {
    NotCost,
    OnChain,
    Slack(u64),
    Tied(usize),
}

// No line has this number: past every line.
const PAST: usize = 65536;

// What is seen of a chain: its weight, and the smallest of its lines that is not marked, past every line where there is none.
#[derive(Clone, Copy)]
pub struct Seen {
    pub weighs: Cycles,
    pub first: usize,
}

impl Seen {
    // No chain.
    fn none() -> Seen
        ensures { result ≡ unseen }
    {
        Seen {
            weighs: Cycles(0),
            first: PAST,
        }
    }

    // With another in series behind it.
    fn then(self, more: Seen) -> Seen
        requires { self.weighs.0 + more.weighs.0 < 2 ^ 64 }
        ensures { result ≡ in_series self more }
    {
        Seen {
            weighs: self.weighs.plus(more.weighs),
            first: self.first.min(more.first),
        }
    }

    // This one or the other: the heavier, this one where they weigh the same.
    fn or_heavier(self, other: Seen) -> Seen
        ensures { result ≡ heavier_of self other }
    {
        if self.weighs < other.weighs {
            return other;
        }
        self
    }
}

// What is seen of the chains of an open invocation: up to the last join, the longest child's since, and that since the spawn
// of this child.
#[derive(Clone, Copy)]
pub struct Sought {
    pub p: Seen,
    pub l: Seen,
    pub c: Seen,
}

impl Sought {
    // An invocation that begins.
    fn start() -> Sought
        ensures { result ≡ start }
    {
        Sought {
            p: Seen::none(),
            l: Seen::none(),
            c: Seen::none(),
        }
    }

    // After a sync or the return.
    fn joined(self) -> Sought
        requires { self.p.weighs.0 + (self.l.weighs.0 + self.c.weighs.0) < 2 ^ 64 }
        ensures { result ≡ joined_seen self }
    {
        Sought {
            p: self.p.then(self.l.or_heavier(self.c)),
            l: Seen::none(),
            c: Seen::none(),
        }
    }

    // After a cost line, or a called child, of which g is seen.
    fn called(self, g: Seen) -> Sought
        requires { self.c.weighs.0 + g.weighs.0 < 2 ^ 64 }
        ensures { result ≡ called_seen g self }
    {
        Sought {
            c: self.c.then(g),
            ..self
        }
    }

    // After a spawned child, of which g is seen: it is the longest from now on where it is longer.
    fn spawned(self, g: Seen) -> Sought
        requires { (self.c.weighs.0 + g.weighs.0 < 2 ^ 64) × (self.p.weighs.0 + self.c.weighs.0 < 2 ^ 64) }
        ensures { result ≡ spawned_seen g self }
    {
        if self.l.weighs < self.c.weighs.plus(g.weighs) {
            return Sought {
                p: self.p.then(self.c),
                l: g,
                c: Seen::none(),
            };
        }
        self
    }
}

// The number of a line that is not marked; past every line where it is.
fn unmarked(at: usize, marks: &[u8]) -> usize
    requires { at < length marks.now }
    ensures { result ≡ if_unmarked (marked_in marks.now) at }
{
    if marks[at] == 1 {
        return PAST;
    }
    at
}

// What is seen of a cost line by itself.
fn cost(text: &[u8], at: usize, marks: &[u8]) -> Seen
    requires { at < length marks.now }
    ensures { result ≡ line_seen text.now marks.now at }
{
    Seen {
        weighs: Cycles(line::value_at(text, at) as u64),
        first: unmarked(at, marks),
    }
}

// An open invocation: its next line, and what is seen of its chains.
#[derive(Clone, Copy)]
struct Reached {
    at: usize,
    sought: Sought,
}

// An invocation that has returned: the line behind it, and what is seen of its chain.
#[derive(Clone, Copy)]
struct Returned {
    at: usize,
    seen: Seen,
}

// Reads the items of an invocation, which has come to f, up to its return, and leaves the join to its caller. At most deep
// more invocations open inside one another.
#[cycle(readers)]
fn read_items(text: &[u8], f: Reached, deep: usize, marks: &[u8]) -> Reached
    requires { Asks text.now marks.now deep f }
    ensures { ItemsLeave text.now marks.now deep f result }
{
    let mut g = f;
    let mut kind = line::kind_at::<line::Base>(text, f.at);
    while kind != 5 {
        g = item(text, kind, g, deep, marks);
        kind = line::kind_at::<line::Base>(text, g.at);
    }
    g
}

// Reads an invocation from its first line up to and with its return.
#[cycle(readers)]
fn body(text: &[u8], from: usize, deep: usize, marks: &[u8]) -> Returned
    requires { BodyAsks text.now marks.now deep from }
    ensures { BodyLeaves text.now marks.now from result }
{
    let begun = Reached {
        at: from,
        sought: Sought::start(),
    };
    let f = read_items(text, begun, deep, marks);
    Returned {
        at: f.at + 1,
        seen: f.sought.joined().p,
    }
}

// Reads one item, whose first line is of this kind, with the whole body of a call or a spawn.
#[cycle(readers)]
fn item(text: &[u8], kind: u8, f: Reached, deep: usize, marks: &[u8]) -> Reached
    requires { ItemAsks text.now marks.now kind deep f }
    ensures { ItemLeaves text.now marks.now f result }
{
    match kind {
        6 => Reached {
            at: f.at + 1,
            sought: f.sought.called(cost(text, f.at, marks)),
        },
        4 => Reached {
            at: f.at + 1,
            sought: f.sought.joined(),
        },
        1 | 7 => Reached { at: f.at + 1, ..f },
        _ => {
            let c = body(text, f.at + 1, deep - 1, marks);
            if kind == 2 {
                return Reached {
                    at: c.at,
                    sought: f.sought.called(c.seen),
                };
            }
            Reached {
                at: c.at,
                sought: f.sought.spawned(c.seen),
            }
        }
    }
}

// The answer of a cost line through which the heaviest chain weighs `through`, by the span and the smallest line of the chosen
// chain that is not on the first of those chains.
fn decide(through: u64, span: u64, first: usize) -> Why
    ensures { result ≡ answer_of through span first }
{
    if through < span {
        return Why::Slack(span - through);
    }
    if first < PAST {
        return Why::Tied(first);
    }
    Why::OnChain
}

// A cost line of an accepted trace: the heaviest chain through it into the marks, then what the chosen chain has besides.
fn at_cost(text: &[u8], depth: usize, line: usize, scratch: &mut [u64], marks: &mut [u8]) -> Why
    requires { LineAsks text.now depth line scratch.old marks.old }
    ensures line_leaves { LineLeaves text.now depth line marks.old result marks.new }
    ensures scratch_after { scratch.new ≡ replicate (length scratch.old) 0 }
{
    let through = marks::with_heavier(text, depth, line, scratch, marks);
    let chosen = body(text, 0, depth - 1, marks).seen;
    decide(through.0 - walk::MORE, chosen.weighs.0, chosen.first)
}

// A line that is no cost: no line is marked.
fn at_other(lines: usize, scratch: &mut [u64], marks: &mut [u8])
    requires { lines ≤ length marks.old }
    ensures wiped { Wiped 0 lines marks.old marks.new }
    ensures scratch_after { scratch.new ≡ replicate (length scratch.old) 0 }
{
    scratch.fill(0);
    marks::wipe_lines(marks, 0, lines);
}

// An accepted trace of so many lines: refusal 23 for a line at or past the end, else the line's answer.
fn accepted(
    text: &[u8],
    depth: usize,
    line: usize,
    lines: usize,
    scratch: &mut [u64],
    marks: &mut [u8],
) -> Result<Why, Refusal>
    requires { Admitted text.now depth scratch.old marks.old lines }
    ensures { Ends text.now depth line scratch.old marks.old result
        scratch.new marks.new }
{
    if lines <= line {
        return Err(Refusal { number: 23, line });
    }
    if line::kind_at::<line::Base>(text, line) != 6 {
        at_other(lines, scratch, marks);
        return Ok(Why::NotCost);
    }
    Ok(at_cost(text, depth, line, scratch, marks))
}

// Whether scratch and marks are as long as a text of so many characters needs them.
fn room(bytes: usize, depth: usize, scratch: usize, marks: usize) -> bool
    ensures { result ≡ roomy bytes depth scratch marks }
{
    depth <= scratch / 8 && bytes / line::LINE <= marks
}

// Why line `line` is not on the span: any text, any limits, any line number and any room.
pub fn ask(
    text: &[u8],
    depth: usize,
    sites: usize,
    line: usize,
    scratch: &mut [u64],
    marks: &mut [u8],
) -> Result<Why, Refusal>
    ensures { Asked text.now depth sites line scratch.old marks.old result
        scratch.new marks.new }
{
    let enough = room(text.len(), depth, scratch.len(), marks.len());
    let found = admit::with_room(text, depth, sites, enough)?;
    accepted(text, depth, line, found.lines, scratch, marks)
}
