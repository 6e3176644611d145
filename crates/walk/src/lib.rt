// What both engines share: an open invocation's numbers, what a cost line weighs and its instructions, and columns 1 to 4
// and 6 of the rows.

#![tactic(auto)]

ghost use Rattle.std.specs.Prelude.{ℕ, ◌≡◌, refl, ◌+◌, ◌*◌, ◌-◌, ◌^◌, ◌≤◌, ◌<◌, ◌++◌, length, get_or, set, drop, replicate};
ghost use Rattle.trace.specs.Column.{Column, slot};
ghost use Rattle.trace.specs.Fold.{nothing};
ghost use Rattle.walk.specs.Measure.{cycles, instructions};
ghost use Rattle.walk.specs.Weight.{asked_line, asked, weight_at, instructions_at};
ghost use Rattle.walk.specs.Gain.{ColumnFits, credit_of, credited, ReturnFits, one_call, cost_gain, Returned, Grown};
ghost use Rattle.walk.specs.Numbers.{numbers, spent_n, passed_n, later_heavier, joined_n, called_n, child_longer, spawned_n};

use trace::{CALLS, COLUMNS, ILOCAL, LOCAL, SPAN, WORK};

// A number of one measure. A number in a lent slice is plain; taken out of it, its type says which measure it is, and one
// measure cannot be added to another.
pub trait Measure: Copy {
    ghost of: { ℕ → Self };

    ghost number: { Self → ℕ };

    ghost number_of: { (n : ℕ) → number (of n) ≡ n };

    // So many of the measure.
    fn of(n: u64) -> Self
        ensures { result ≡ of n };

    // How many they are.
    fn number(self) -> u64
        ensures { result ≡ number self };

    // With more of the same measure.
    final fn plus(self, more: Self) -> Self
        requires { number self + number more < 2 ^ 64 }
        ensures { result ≡ of (number self + number more) }
    {
        Self::of(self.number() + more.number())
    }

    // Without a part of it.
    final fn minus(self, part: Self) -> Self
        requires { number part ≤ number self }
        ensures { result ≡ of (number self - number part) }
    {
        Self::of(self.number() - part.number())
    }
}

// Processor cycles: what a cost line weighs, and all that is summed of it.
#[derive(Clone, Copy, PartialEq, Eq, PartialOrd, Ord)]
pub struct Cycles(pub u64);

impl Measure for Cycles {
    ghost of = { cycles };

    ghost number = { λ c. c.0 };

    ghost number_of = { λ n. refl };

    fn of(n: u64) -> Cycles {
        Cycles(n)
    }

    fn number(self) -> u64 {
        self.0
    }
}

// Instructions: what a 07 line says of the cost line that it stands directly behind.
#[derive(Clone, Copy)]
pub struct Instructions(pub u64);

impl Measure for Instructions {
    ghost of = { instructions };

    ghost number = { λ i. i.0 };

    ghost number_of = { λ n. refl };

    fn of(n: u64) -> Instructions {
        Instructions(n)
    }

    fn number(self) -> u64 {
        self.0
    }
}

// An open invocation: its next line, the work so far, and what its three chains weigh: up to the last join, the
// longest child's since, and that since the spawn of this child.
#[derive(Clone, Copy)]
pub struct Open {
    pub at: usize,
    pub work: Cycles,
    pub prefix: Cycles,
    pub longest: Cycles,
    pub since: Cycles,
}

impl Open {
    // An invocation whose body begins at a line.
    pub fn new(at: usize) -> Open
        ensures { result ≡ numbers at 0 nothing }
    {
        Open {
            at,
            work: Cycles(0),
            prefix: Cycles(0),
            longest: Cycles(0),
            since: Cycles(0),
        }
    }

    // What comes before the next item in series.
    pub fn series(self) -> Cycles
        requires { self.prefix.0 + self.since.0 < 2 ^ 64 }
        ensures { result ≡ cycles (self.prefix.0 + self.since.0) }
    {
        self.prefix.plus(self.since)
    }

    // After a cost line.
    pub fn spent(self, v: Cycles) -> Open
        requires { (self.at + 1 < 2 ^ 64) × ((self.work.0 + v.0 < 2 ^ 64) × (self.since.0 + v.0 < 2 ^ 64)) }
        ensures { result ≡ spent_n v.0 self }
    {
        Open {
            at: self.at + 1,
            work: self.work.plus(v),
            since: self.since.plus(v),
            ..self
        }
    }

    // After a line that weighs nothing and joins nothing.
    pub fn passed(self) -> Open
        requires { self.at + 1 < 2 ^ 64 }
        ensures { result ≡ passed_n self }
    {
        Open {
            at: self.at + 1,
            ..self
        }
    }

    // At a join: whether the continuation is heavier than the longest child.
    pub fn later_heavier(self) -> bool
        ensures { result ≡ later_heavier self }
    {
        self.since > self.longest
    }

    // After a sync or the return, a join: the answer says whether the continuation is heavier.
    pub fn joined(self, later: bool) -> Open
        requires { (self.at + 1 < 2 ^ 64) × (self.prefix.0 + (self.longest.0 + self.since.0) < 2 ^ 64) }
        ensures { result ≡ joined_n later self }
    {
        let heavier = if later { self.since } else { self.longest };
        Open {
            at: self.at + 1,
            prefix: self.prefix.plus(heavier),
            longest: Cycles(0),
            since: Cycles(0),
            ..self
        }
    }

    // After a called child.
    pub fn called(self, child: Open) -> Open
        requires { (self.work.0 + child.work.0 < 2 ^ 64) × (self.since.0 + child.prefix.0 < 2 ^ 64) }
        ensures { result ≡ called_n child self }
    {
        Open {
            at: child.at,
            work: self.work.plus(child.work),
            since: self.since.plus(child.prefix),
            ..self
        }
    }

    // At a spawned child: whether the continuation up to it, with it, is longer than the longest child.
    pub fn child_longer(self, child: Open) -> bool
        requires { self.since.0 + child.prefix.0 < 2 ^ 64 }
        ensures { result ≡ child_longer child self }
    {
        self.since.plus(child.prefix) > self.longest
    }

    // After a spawned child: the answer says whether it is longer.
    pub fn spawned(self, child: Open, longer: bool) -> Open
        requires { (self.work.0 + child.work.0 < 2 ^ 64) × (self.prefix.0 + self.since.0 < 2 ^ 64) }
        ensures { result ≡ spawned_n longer child self }
    {
        let behind = Open {
            at: child.at,
            work: self.work.plus(child.work),
            ..self
        };
        if longer {
            return Open {
                prefix: self.series(),
                longest: child.prefix,
                since: Cycles(0),
                ..behind
            };
        }
        behind
    }
}

// What a line that is asked heavier weighs more: no total work comes to it.
pub const MORE: u64 = 18014398509481984;
// How many numbers ask for a heavier line: a row's each, which are not looked at, and the number of the line.
pub const ASKED_LINE: usize = 257;

// The numbers that ask for a line to weigh more.
pub fn ask_heavier(line: usize) -> [u64; ASKED_LINE]
    ensures { (length result ≡ asked_line) × (get_or result 256 0 ≡ line) }
{
    let mut asking = [0u64; ASKED_LINE];
    asking[ASKED_LINE - 1] = line as u64;
    asking
}

// What a value weighs at a line that is directly in an invocation of a row, where something is asked: more where the line
// is the one asked heavier, else divided by the row's factor.
fn asked(v: u32, at: usize, row: usize, asking: &[u64]) -> Cycles
    requires { row < length asking.now }
    ensures { result.0 ≡ asked asking.now at row v }
{
    if asking.len() == ASKED_LINE {
        if at as u64 == asking[ASKED_LINE - 1] {
            return Cycles(v as u64 + MORE);
        }
        return Cycles(v as u64);
    }
    Cycles(forecast::share(v as u64, asking[row]))
}

// What a cost line weighs that is directly in an invocation of a row, by what is asked: its value, where the row is not
// among the numbers.
pub fn weight_at(trace: &[u8], at: usize, row: usize, asking: &[u64]) -> Cycles
    ensures { result.0 ≡ weight_at asking.now trace.now at row }
{
    let v = line::value_at(trace, at);
    if row < asking.len() {
        return asked(v, at, row, asking);
    }
    Cycles(v as u64)
}

// The instructions of a cost line: the value of the next line where that is of kind 07, else none.
pub fn instructions_at(trace: &[u8], at: usize) -> Instructions
    requires { at + 1 < 2 ^ 64 }
    ensures { result.0 ≡ instructions_at trace.now at }
{
    if line::kind_at::<line::Base>(trace, at + 1) == 7 {
        return Instructions(line::value_at(trace, at + 1) as u64);
    }
    Instructions(0)
}

// Adds to a number in a slice, which is taken out as a number of the measure and put back.
pub fn add<M: Measure>(a: &mut [u64], i: usize, v: M)
    requires { (i < length a.old) × (get_or a.old i 0 + M.number v < 2 ^ 64) }
    ensures { a.new ≡ set a.old i (get_or a.old i 0 + M.number v) }
{
    a[i] = M::of(a[i]).plus(v).number();
}

// Column 1 of row s: an invocation was made from it.
fn count(rows: &mut [u64], s: usize)
    requires { ColumnFits rows.old s Column.calls 1 }
    ensures { Grown rows.old (one_call s) rows.new }
{
    let i = COLUMNS * s + CALLS;
    rows[i] += 1;
}

// Columns 2 and 3 of a row.
#[derive(Clone, Copy)]
pub struct Credit {
    pub work: Cycles,
    pub span: Cycles,
}

// What columns 2 and 3 of row s hold.
pub fn credit_of(rows: &[u64], s: usize) -> Credit
    requires { slot s Column.span < length rows.now }
    ensures { result ≡ credit_of rows.now s }
{
    let i = COLUMNS * s;
    Credit {
        work: Cycles(rows[i + WORK]),
        span: Cycles(rows[i + SPAN]),
    }
}

// Columns 2 and 3 of row s are now these.
fn put_credit(rows: &mut [u64], s: usize, work: Cycles, span: Cycles)
    requires { slot s Column.span < length rows.old }
    ensures { rows.new ≡ credited s work.0 span.0 rows.old }
{
    let i = COLUMNS * s;
    rows[i + WORK] = work.0;
    rows[i + SPAN] = span.0;
}

// An invocation of site s with this work and this span has returned; before is what columns 2 and 3 of its row held
// before it was read. Column 1 counts it. Columns 2 and 3 are what they were before it and its own, so that what
// invocations of the site inside it had added is gone.
pub fn returned(rows: &mut [u64], s: usize, work: Cycles, span: Cycles, before: Credit)
    requires { ReturnFits before rows.old s work.0 span.0 }
    ensures { Returned before s work.0 span.0 rows.old rows.new }
{
    count(rows, s);
    put_credit(rows, s, before.work.plus(work), before.span.plus(span));
}

// Columns 4 and 6 of row s: a cost directly in an invocation of it.
pub fn spend(rows: &mut [u64], s: usize, v: Cycles, i: Instructions)
    requires { ColumnFits rows.old s Column.local v.0 × ColumnFits rows.old s Column.ilocal i.0 }
    ensures { Grown rows.old (cost_gain s v.0 i.0) rows.new }
{
    add(rows, COLUMNS * s + LOCAL, v);
    add(rows, COLUMNS * s + ILOCAL, i);
}

// Clears the first n numbers.
pub fn zero(a: &mut [u64], n: usize)
    requires { n ≤ length a.old }
    ensures { a.new ≡ replicate n 0 ++ drop n a.old }
{
    a[..n].fill(0);
}
