// The marks engine. A mark is a byte a line. The lines of an open invocation are three zones: the prefix's, the
// longest child's and the continuation's. The marks of each zone show its chain, and where a zone loses, its marks
// are cleared. A second reading takes columns 5 and 7 from the marks. The finish family has its own readers over the
// same steps.

#![tactic(auto)]

ghost use Rattle.std.specs.Prelude.{◌≡◌, refl, ⊤, ℕ, List, [], ◌+◌, ◌*◌, ◌^◌, ◌≤◌, ◌<◌, length, get_or, set, replicate};
ghost use Rattle.line.specs.Family.{Base, Finishes};
ghost use Rattle.trace.specs.Rows.{columns};
ghost use Rattle.trace.specs.Column.{Column};
ghost use Rattle.trace.specs.Promise.{Engine, PromiseOf};
ghost use Rattle.forecast.specs.Promise.{Forecast};
ghost use Rattle.walk.specs.Weight.{by_asking, Factors, weight_at, instructions_at};
ghost use Rattle.walk.specs.Profiled.{Profiled};
ghost use Rattle.walk.specs.Gain.{ColumnFits, Grown};
ghost use Rattle.marks.specs.Shown.{all_prefix, Wiped};
ghost use Rattle.marks.specs.Steps.{Fits, Spent, Passed, Joined, Called, Spawned};
ghost use Rattle.marks.specs.Park.{park, parked, blank};
ghost use Rattle.marks.specs.Reader.{Lent, ItemAsks, ItemLeaves, ItemsLeave, BodyAsks, BodyLeaves};
ghost use Rattle.marks.specs.Reach.{row_of, of_row, ItemReach, ItemsReach};
ghost use Rattle.marks.specs.Column.{marked, marked_gain, entered, Returned, LineAsks, LineLeaves, ColumnAsks, ColumnLeaves};
ghost use Rattle.marks.specs.Root.{lent, Admitted};
ghost use Rattle.marks.specs.Heavier.{HeavierAsks, HeavierLeaves};

use line::{Family, Refusal};
use trace::Profile;
use walk::{Cycles, Measure, Open};

// An open invocation: its numbers, its row, and the lines at which the zones of its longest child and of its
// continuation begin.
#[derive(Clone, Copy)]
struct Zones {
    own: Open,
    row: usize,
    child: usize,
    after: usize,
}

impl Zones {
    // An invocation all of whose lines so far are the prefix's zone.
    fn prefix(own: Open, row: usize) -> Zones
        ensures { result ≡ all_prefix own row }
    {
        Zones {
            own,
            row,
            child: own.at,
            after: own.at,
        }
    }
}

// Clears the marks of the lines from a on and before e.
pub fn wipe_lines(marks: &mut [u8], a: usize, e: usize)
    requires { (a ≤ e) × (e ≤ length marks.old) }
    ensures { Wiped a e marks.old marks.new }
{
    marks[a..e].fill(0);
}

// A cost of v: its line is marked.
fn spend(marks: &mut [u8], z: Zones, v: Cycles) -> Zones
    requires fits { Fits marks.old z v.0 }
    requires v_bound { z.own.work.0 + v.0 < 2 ^ 64 }
    ensures { Spent v.0 marks.old z result marks.new }
{
    marks[z.own.at] = 1;
    Zones {
        own: z.own.spent(v),
        ..z
    }
}

// A line that weighs nothing and joins nothing: it is not marked.
fn pass(marks: &mut [u8], z: Zones) -> Zones
    requires fits { Fits marks.old z 0 }
    requires at_bound { z.own.at + 1 < 2 ^ 64 }
    ensures { Passed marks.old z result marks.new }
{
    let line = z.own.at;
    marks[line] = 0;
    Zones {
        own: z.own.passed(),
        ..z
    }
}

// A sync, or the join at a return: the longest child's zone is cleared where the continuation is heavier, else the
// continuation's, and all is the prefix's zone.
fn join(marks: &mut [u8], z: Zones) -> Zones
    requires { Fits marks.old z 0 }
    ensures { Joined marks.old z result marks.new }
{
    let later = z.own.later_heavier();
    marks[z.own.at] = 0;
    if later {
        wipe_lines(marks, z.child, z.after);
        return Zones::prefix(z.own.joined(later), z.row);
    }
    wipe_lines(marks, z.after, z.own.at);
    Zones::prefix(z.own.joined(later), z.row)
}

// A called child has returned: its zone is the continuation's.
fn called(marks: &mut [u8], z: Zones, c: Open) -> Zones
    requires fits { Fits marks.old z c.prefix.0 }
    requires work_bound { z.own.work.0 + c.work.0 < 2 ^ 64 }
    ensures { Called marks.old z c result marks.new }
{
    marks[z.own.at] = 0;
    Zones {
        own: z.own.called(c),
        ..z
    }
}

// A spawned child has returned: where it is longer, it is the longest from now on and the one before it is cleared;
// else it is cleared itself.
fn spawned(marks: &mut [u8], z: Zones, c: Open) -> Zones
    requires fits { Fits marks.old z c.prefix.0 }
    requires work_bound { (z.own.work.0 + c.work.0 < 2 ^ 64) × ((z.own.at < c.at) × (c.at ≤ length marks.old)) }
    ensures { Spawned marks.old z c result marks.new }
{
    let longer = z.own.child_longer(c);
    if longer {
        marks[z.own.at] = 0;
        wipe_lines(marks, z.child, z.after);
        return Zones {
            own: z.own.spawned(c, longer),
            child: z.own.at,
            after: c.at,
            ..z
        };
    }
    wipe_lines(marks, z.own.at, c.at);
    Zones {
        own: z.own.spawned(c, longer),
        ..z
    }
}

// Stores an invocation in its own eight numbers of the scratch, for as long as a child is open.
fn store(t: &mut [u64], z: Zones)
    requires { 8 ≤ length t.old }
    ensures { t.new ≡ park z t.old }
{
    t[0] = z.own.at as u64;
    t[1] = z.own.work.0;
    t[2] = z.own.prefix.0;
    t[3] = z.own.longest.0;
    t[4] = z.own.since.0;
    t[5] = z.row as u64;
    t[6] = z.child as u64;
    t[7] = z.after as u64;
}

// Loads it again, and clears the numbers.
fn load(t: &mut [u64]) -> Zones
    requires { 8 ≤ length t.old }
    ensures value { result ≡ parked t.old }
    ensures t_after { t.new ≡ park blank t.old }
{
    let z = Zones {
        own: Open {
            at: t[0] as usize,
            work: Cycles(t[1]),
            prefix: Cycles(t[2]),
            longest: Cycles(t[3]),
            since: Cycles(t[4]),
        },
        row: t[5] as usize,
        child: t[6] as usize,
        after: t[7] as usize,
    };
    t[..8].fill(0);
    z
}

// Reads the items of an invocation, which has come to z, up to its return, and leaves the join to its caller.
// At most deep more invocations open inside one another.
#[cycle(readers)]
fn read_items(
    trace: &[u8],
    z: Zones,
    deep: usize,
    t: &mut [u64],
    marks: &mut [u8],
    rows: &mut [u64],
    asking: &[u64],
) -> Zones
    requires { Lent Base (by_asking asking.now) trace.now deep z t.old marks.old rows.old }
    ensures items_leave { ItemsLeave Base (by_asking asking.now) trace.now deep z t.old
        marks.old rows.old result marks.new rows.new }
    ensures t_unchanged { t.new ≡ t.old }
{
    let mut a = z;
    let mut kind = line::kind_at::<line::Base>(trace, z.own.at);
    while kind != 5 {
        a = item(trace, kind, a, deep, t, marks, rows, asking);
        kind = line::kind_at::<line::Base>(trace, a.own.at);
    }
    a
}

// Reads an invocation of a row from its first line up to and with its return.
#[cycle(readers)]
fn body(
    trace: &[u8],
    from: usize,
    row: usize,
    deep: usize,
    t: &mut [u64],
    marks: &mut [u8],
    rows: &mut [u64],
    asking: &[u64],
) -> Open
    requires { BodyAsks Base (by_asking asking.now) trace.now from row deep t.old marks.old rows.old }
    ensures body_leaves { BodyLeaves Base (by_asking asking.now) trace.now from row marks.old
        rows.old result marks.new rows.new }
    ensures t_unchanged { t.new ≡ t.old }
{
    let z = read_items(
        trace,
        Zones::prefix(Open::new(from), row),
        deep,
        t,
        marks,
        rows,
        asking,
    );
    join(marks, z).own
}

// Reads one item, whose first line is of this kind, with the whole body of a call or a spawn.
#[cycle(readers)]
fn item(
    trace: &[u8],
    kind: u8,
    z: Zones,
    deep: usize,
    t: &mut [u64],
    marks: &mut [u8],
    rows: &mut [u64],
    asking: &[u64],
) -> Zones
    requires { ItemAsks Base (by_asking asking.now) trace.now kind deep z t.old marks.old rows.old }
    ensures item_leaves { ItemLeaves Base (by_asking asking.now) trace.now z marks.old
        rows.old result marks.new rows.new }
    ensures t_unchanged { t.new ≡ t.old }
{
    let at = z.own.at;
    match kind {
        6 => {
            let v = walk::weight_at(trace, at, z.row, asking);
            walk::spend(rows, z.row, v, walk::instructions_at(trace, at));
            spend(marks, z, v)
        }
        4 => join(marks, z),
        1 | 7 => pass(marks, z),
        _ => {
            let site = line::site_at(trace, at) as usize;
            let before = walk::credit_of(rows, site);
            store(t, z);
            let c = body(
                trace,
                at + 1,
                site,
                deep - 1,
                &mut t[8..],
                marks,
                rows,
                asking,
            );
            let back = load(t);
            walk::returned(rows, site, c.work, c.prefix, before);
            if kind == 2 {
                return called(marks, back, c);
            }
            spawned(marks, back, c)
        }
    }
}

// The row of what a line of this kind opens: a finish's is that around it, another's its site's.
fn row_of(trace: &[u8], at: usize, kind: u8, row: usize) -> usize
    ensures { result ≡ row_of trace.now at kind row }
{
    if kind == 0x13 {
        return row;
    }
    line::site_at(trace, at) as usize
}

// An open thing of the finish family: its zones, and how far an async reaches that begins in the call that is being
// read, from the beginning of the finish or async around it on.
#[derive(Clone, Copy)]
struct Reach {
    zones: Zones,
    far: Cycles,
}

// Reads the items of an invocation or a finish, which has come to from, up to its return, and leaves the join to its
// caller. At most deep more things open inside one another. These readers are no twins of those above: a call's items go
// on in the chains around it.
#[cycle(finish_readers)]
fn finish_items(
    trace: &[u8],
    from: Reach,
    deep: usize,
    t: &mut [u64],
    marks: &mut [u8],
    rows: &mut [u64],
) -> Reach
    requires { Lent Finishes (by_asking []) trace.now deep from.zones t.old marks.old rows.old }
    ensures items_leave { ItemsLeave Finishes (by_asking []) trace.now deep from.zones t.old
        marks.old rows.old result.zones marks.new rows.new }
    ensures items_reach { ItemsReach (by_asking []) trace.now from result }
    ensures t_unchanged { t.new ≡ t.old }
{
    let mut a = from;
    let mut kind = line::kind_at::<line::Finishes>(trace, from.zones.own.at);
    while kind != 5 {
        a = finish_item(trace, kind, a, deep, t, marks, rows);
        kind = line::kind_at::<line::Finishes>(trace, a.zones.own.at);
    }
    a
}

// Reads an async or a finish of a row from its first line up to and with its return.
#[cycle(finish_readers)]
fn finish_body(
    trace: &[u8],
    from: usize,
    row: usize,
    deep: usize,
    t: &mut [u64],
    marks: &mut [u8],
    rows: &mut [u64],
) -> Open
    requires { BodyAsks Finishes (by_asking []) trace.now from row deep t.old marks.old rows.old }
    ensures body_leaves { BodyLeaves Finishes (by_asking []) trace.now from row marks.old
        rows.old result marks.new rows.new }
    ensures t_unchanged { t.new ≡ t.old }
{
    let a = finish_items(
        trace,
        Reach {
            zones: Zones::prefix(Open::new(from), row),
            far: Cycles(0),
        },
        deep,
        t,
        marks,
        rows,
    );
    join(marks, a.zones).own
}

// Reads a call with its items and its return. They go on from its caller's numbers and zones, and nothing is joined.
// Its work is by how much the work grows, and its span how far its items and its asyncs reach from where it begins.
#[cycle(finish_readers)]
fn finish_call(
    trace: &[u8],
    a: Reach,
    deep: usize,
    t: &mut [u64],
    marks: &mut [u8],
    rows: &mut [u64],
) -> Reach
    requires { ItemAsks Finishes (by_asking []) trace.now 2 deep a.zones t.old marks.old rows.old }
    ensures item_leaves { ItemLeaves Finishes (by_asking []) trace.now a.zones marks.old
        rows.old result.zones marks.new rows.new }
    ensures item_reach { ItemReach (by_asking []) trace.now a result }
    ensures t_unchanged { t.new ≡ t.old }
{
    let z = a.zones;
    let start = z.own.series();
    let site = line::site_at(trace, z.own.at) as usize;
    let credit = walk::credit_of(rows, site);
    let first = pass(marks, z);
    let r = finish_items(
        trace,
        Reach {
            zones: Zones { row: site, ..first },
            far: start,
        },
        deep - 1,
        t,
        marks,
        rows,
    );
    let own = r.zones.own;
    let reach = r.far.max(own.series());
    walk::returned(
        rows,
        site,
        own.work.minus(z.own.work),
        reach.minus(start),
        credit,
    );
    let end = pass(marks, r.zones);
    Reach {
        zones: Zones { row: z.row, ..end },
        far: a.far.max(r.far),
    }
}

// Reads one item, whose first line is of this kind, with all that it opens.
#[cycle(finish_readers)]
fn finish_item(
    trace: &[u8],
    kind: u8,
    a: Reach,
    deep: usize,
    t: &mut [u64],
    marks: &mut [u8],
    rows: &mut [u64],
) -> Reach
    requires { ItemAsks Finishes (by_asking []) trace.now kind deep a.zones t.old marks.old rows.old }
    ensures item_leaves { ItemLeaves Finishes (by_asking []) trace.now a.zones marks.old
        rows.old result.zones marks.new rows.new }
    ensures item_reach { ItemReach (by_asking []) trace.now a result }
    ensures t_unchanged { t.new ≡ t.old }
{
    let z = a.zones;
    let at = z.own.at;
    match kind {
        6 => {
            let v = walk::weight_at(trace, at, z.row, &[]);
            walk::spend(rows, z.row, v, walk::instructions_at(trace, at));
            Reach {
                zones: spend(marks, z, v),
                ..a
            }
        }
        1 | 7 => Reach {
            zones: pass(marks, z),
            ..a
        },
        2 => finish_call(trace, a, deep, t, marks, rows),
        _ => {
            let series = z.own.series();
            let row = row_of(trace, at, kind, z.row);
            let credit = walk::credit_of(rows, row);
            store(t, z);
            let c = finish_body(trace, at + 1, row, deep - 1, &mut t[8..], marks, rows);
            let back = load(t);
            if kind == 0x12 {
                walk::returned(rows, row, c.work, c.prefix, credit);
                return Reach {
                    zones: spawned(marks, back, c),
                    far: a.far.max(series.plus(c.prefix)),
                };
            }
            Reach {
                zones: called(marks, back, c),
                ..a
            }
        }
    }
}

// Columns 5 and 7 of a row: what a cost line of it weighs, and its instructions, where the line is marked.
fn add_marked(trace: &[u8], at: usize, row: usize, marks: &[u8], rows: &mut [u64], asking: &[u64])
    requires at_in_bounds { at < length marks.now }
    requires cycles_fit { ColumnFits rows.old row Column.on_span
        (marked (get_or marks.now at 0) (weight_at asking.now trace.now at row)) }
    requires instructions_fit { ColumnFits rows.old row Column.ion_span
        (marked (get_or marks.now at 0) (instructions_at trace.now at)) }
    ensures { Grown rows.old (marked_gain row (get_or marks.now at 0)
        (weight_at asking.now trace.now at row) (instructions_at trace.now at))
        rows.new }
{
    if marks[at] == 1 {
        walk::add(
            rows,
            trace::COLUMNS * row + trace::ON_SPAN,
            walk::weight_at(trace, at, row, asking),
        );
        walk::add(
            rows,
            trace::COLUMNS * row + trace::ION_SPAN,
            walk::instructions_at(trace, at),
        );
    }
}

// The row of the invocation that a line stands in, and how many are open around it: their rows are at the front of
// the scratch, the root's first.
#[derive(Clone, Copy)]
struct Present {
    row: usize,
    around: usize,
}

// A call or a spawn of a site: the present row is stored.
fn enter(t: &mut [u64], a: Present, site: usize) -> Present
    requires { a.around < length t.old }
    ensures value { result ≡ entered site a }
    ensures t_after { t.new ≡ set t.old a.around a.row }
{
    t[a.around] = a.row as u64;
    Present {
        row: site,
        around: a.around + 1,
    }
}

// A return: the row around is loaded again, and its number is cleared. The root's return is the last line.
fn leave(t: &mut [u64], a: Present) -> Present
    requires { a.around ≤ length t.old }
    ensures { Returned t.old a result t.new }
{
    if a.around == 0 {
        return a;
    }
    let d = a.around - 1;
    let row = t[d] as usize;
    t[d] = 0;
    Present { row, around: d }
}

// Reads a line once more: a marked cost is added to column 5 of the present row, and its instructions to column 7.
fn on_line<F: Family>(
    trace: &[u8],
    at: usize,
    a: Present,
    t: &mut [u64],
    marks: &[u8],
    rows: &mut [u64],
    asking: &[u64],
) -> Present
    requires { LineAsks F.family (by_asking asking.now) trace.now at a t.old marks.now rows.old }
    ensures { LineLeaves F.family (by_asking asking.now) trace.now at a t.old
        marks.now rows.old result t.new rows.new }
{
    let kind = line::kind_at::<F>(trace, at);
    match kind {
        6 => {
            add_marked(trace, at, a.row, marks, rows, asking);
            a
        }
        5 => leave(t, a),
        1 | 4 | 7 => a,
        _ => enter(t, a, row_of(trace, at, kind, a.row)),
    }
}

// Reads the root's lines once more: each marked cost is added to columns 5 and 7 of the row that it stands in.
fn column<F: Family>(
    trace: &[u8],
    lines: usize,
    t: &mut [u64],
    marks: &[u8],
    rows: &mut [u64],
    asking: &[u64],
)
    requires { ColumnAsks F.family (by_asking asking.now) trace.now lines t.old marks.now rows.old }
    ensures column_leaves { ColumnLeaves F.family (by_asking asking.now) trace.now lines t.old
        marks.now rows.old rows.new }
    ensures t_unchanged { t.new ≡ t.old }
{
    let mut a = Present { row: 0, around: 0 };
    for at in 0..lines {
        a = on_line::<F>(trace, at, a, t, marks, rows, asking);
    }
}

// How a family's root is read: the two read a call in ways of their own.
pub trait Reader: Family {
    // The numbers that may ask what its cost lines weigh.
    ghost asks: { List ℕ → Type 0 };

    // Reads the root, from line 0 up to and with its return.
    fn root(
        trace: &[u8],
        deep: usize,
        t: &mut [u64],
        marks: &mut [u8],
        rows: &mut [u64],
        asking: &[u64],
    ) -> Open
        requires asked { asks asking.now }
        requires body_asks { BodyAsks Self.family (by_asking asking.now) trace.now 0 0 deep t.old marks.old rows.old }
        ensures body_leaves { BodyLeaves Self.family (by_asking asking.now) trace.now 0 0 marks.old
            rows.old result marks.new rows.new }
        ensures t_unchanged { t.new ≡ t.old };

    ghost unasked: { asks [] };
}

impl Reader for line::Base {
    ghost asks = { λ _. ⊤ };

    fn root(
        trace: &[u8],
        deep: usize,
        t: &mut [u64],
        marks: &mut [u8],
        rows: &mut [u64],
        asking: &[u64],
    ) -> Open {
        body(trace, 0, 0, deep, t, marks, rows, asking)
    }

    ghost unasked = { tt };
}

// No number asks: its readers take plain costs.
impl Reader for line::Finishes {
    ghost asks = { λ asking. asking ≡ [] };

    fn root(
        trace: &[u8],
        deep: usize,
        t: &mut [u64],
        marks: &mut [u8],
        rows: &mut [u64],
        _asking: &[u64],
    ) -> Open {
        finish_body(trace, 0, 0, deep, t, marks, rows)
    }

    ghost unasked = { refl };
}

// An accepted trace of count sites and lines lines, each cost weighed by its row's factor: the room is cleared, and the
// root is read twice, once for all and once for columns 5 and 7.
fn accepted<F: Reader>(
    text: &[u8],
    depth: usize,
    sites: usize,
    count: usize,
    lines: usize,
    scratch: &mut [u64],
    marks: &mut [u8],
    rows: &mut [u64],
    asking: &[u64],
) -> Result<Profile, Refusal>
    requires admitted { Admitted F.family text.now depth sites (lent scratch.old marks.old rows.old) count lines }
    requires asked { F.asks asking.now }
    requires factors { Factors asking.now }
    ensures { Profiled F.family Engine.marks (by_asking asking.now) text.now depth sites
        (lent scratch.old marks.old rows.old) result
        (lent scratch.new marks.new rows.new) }
{
    scratch.fill(0);
    walk::zero(rows, trace::COLUMNS * (count + 1));
    let before = walk::credit_of(rows, 0);
    let f = F::root(text, depth - 1, scratch, marks, rows, asking);
    walk::returned(rows, 0, f.work, f.prefix, before);
    column::<F>(text, lines, scratch, marks, rows, asking);
    Ok(Profile {
        work: f.work.0,
        span: f.prefix.0,
        sites: count,
        lines,
    })
}

// Room for the rows of as many sites as there may be.
fn no_rows() -> [u64; trace::COLUMNS * 256]
    ensures { result ≡ replicate (columns * 256) 0 }
{
    [0u64; trace::COLUMNS * 256]
}

// The marks reader over an accepted trace of which one line is asked heavier, with no rows to give back: the marks are those
// of the chosen chain then, and the answer is the span then.
pub fn with_heavier(
    text: &[u8],
    depth: usize,
    line: usize,
    scratch: &mut [u64],
    marks: &mut [u8],
) -> Cycles
    requires { HeavierAsks text.now depth scratch.old marks.old }
    ensures heavier_leaves { HeavierLeaves text.now depth line marks.old result.0 marks.new }
    ensures scratch_after { scratch.new ≡ replicate (length scratch.old) 0 }
{
    scratch.fill(0);
    let asking = walk::ask_heavier(line);
    let mut rows = no_rows();
    let f = body(text, 0, 0, depth - 1, scratch, marks, &mut rows, &asking);
    f.prefix
}

// The marks engine for traces of a family: any text, any limits and any room.
pub fn profile<F: Reader>(
    text: &[u8],
    depth: usize,
    sites: usize,
    scratch: &mut [u64],
    marks: &mut [u8],
    rows: &mut [u64],
) -> Result<Profile, Refusal>
    ensures { PromiseOf F.family Engine.marks text.now depth sites
        (lent scratch.old marks.old rows.old) result
        (lent scratch.new marks.new rows.new) }
{
    let found = admit::for_marks::<F>(text, depth, sites, scratch.len(), rows.len(), marks.len())?;
    accepted::<F>(
        text,
        depth,
        sites,
        found.sites,
        found.lines,
        scratch,
        marks,
        rows,
        &[],
    )
}

// The marks engine's forecast: any text, any limits, any list of entries and any room.
pub fn forecast(
    text: &[u8],
    depth: usize,
    sites: usize,
    entries: &[forecast::Entry],
    scratch: &mut [u64],
    marks: &mut [u8],
    rows: &mut [u64],
) -> Result<Profile, Refusal>
    ensures { Forecast Engine.marks entries.now text.now depth sites
        (lent scratch.old marks.old rows.old) result
        (lent scratch.new marks.new rows.new) }
{
    let admitted = admit::for_marks::<line::Base>(
        text,
        depth,
        sites,
        scratch.len(),
        rows.len(),
        marks.len(),
    )?;
    forecast::check(entries, admitted.sites)?;
    let factors = forecast::factors(entries);
    accepted::<line::Base>(
        text,
        depth,
        sites,
        admitted.sites,
        admitted.lines,
        scratch,
        marks,
        rows,
        &factors,
    )
}
