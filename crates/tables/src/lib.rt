// The table engine. The scratch is blocks of n numbers. A block is a chain's table: w numbers, two for each row side by
// side, what of the chain's cycles and of its instructions stands in the row; and behind them a word that says which rows
// these are, by fours. The walks over tables pass over the fours that are not in the word. The root is lent the whole
// scratch. An open invocation lends a called child what lies from the table of its continuation on, for the continuation
// always takes the child's chain: the child adds that to the table. It lends a spawned child what lies behind the blocks
// that it has in use itself. It has what it lent back when the child returns. Its part is at each moment what it was
// lent, without what it has lent on: so each open invocation works in its own part of the scratch, and no two parts share
// a number. As long as no child is the longest, one block is in use: the table of the prefix and the continuation
// together, behind what stood there when the invocation was opened. The table that a spawned child leaves at the front of
// its part is then in the next block, that of the longest child. Once a child is the longest, three blocks are in use:
// the prefix's, the longest child's and the continuation's. The front of the child's part, which is behind them, is zero
// as long as no child is open: it is the table of no chain, which takes the place of one that goes.
// In the finish family an async is lent what a spawned child is, and a finish what a called child is. A call is lent
// nothing: its items go on in the blocks of the finish or async around it.

#![tactic(auto)]

ghost use Rattle.std.specs.Prelude.{◌≡◌, ℕ, List, ⊤, refl, [], ◌+◌, ◌*◌, ◌/◌, ◌%◌, ◌^◌, ◌≤◌, ◌<◌, length, get_or, set};
ghost use Rattle.std.specs.Int.Bits.{bit_or};
ghost use Rattle.line.specs.Family.{Base, Finishes};
ghost use Rattle.trace.specs.Rows.{columns};
ghost use Rattle.trace.specs.Promise.{tables, PromiseOf};
ghost use Rattle.forecast.specs.Promise.{Forecast};
ghost use Rattle.walk.specs.Weight.{by_asking, Factors};
ghost use Rattle.walk.specs.Profiled.{Profiled};
ghost use Rattle.tables.specs.Blocks.{since_at, part_at, child_at, Asks, Spent, Joined, Spawned};
ghost use Rattle.tables.specs.Walks.{IsTable, Idles, Apart, PairFits, SumsFit, Taken, no_pair, pair_at, pair_sum, paired, added, numbers, Laid, RowsAt, RowsFit, RowSums, in_use, worded, TakesIn, TookIn, Cleared};
ghost use Rattle.tables.specs.Root.{lent, Admitted, Settled};
ghost use Rattle.tables.specs.Reader.{Lent, ItemAsks, ItemLeaves, ItemsLeave, BodyAsks, BodyLeaves};
ghost use Rattle.tables.specs.Reach.{OfARow, OfEachRow, ItemReaches, ItemsReach};

use line::Refusal;
use trace::Profile;
use walk::Measure;

// A row of a table: what of the chain stands in the row, by its measures. In the scratch these are two numbers side by
// side.
#[derive(Clone, Copy)]
struct Pair {
    cycles: walk::Cycles,
    instructions: walk::Instructions,
}

// The row whose numbers stand from number i on.
fn pair_at(t: &[u64], i: usize) -> Pair
    requires { i + 2 ≤ length t.now }
    ensures { result ≡ pair_at t.now i }
{
    Pair {
        cycles: walk::Cycles(t[i]),
        instructions: walk::Instructions(t[i + 1]),
    }
}

// A row with another: cycles with cycles, and instructions with instructions.
fn sum(x: Pair, y: Pair) -> Pair
    requires { PairFits x y }
    ensures { result ≡ pair_sum x y }
{
    let cycles = x.cycles;
    let instructions = x.instructions;
    Pair {
        cycles: cycles.plus(y.cycles),
        instructions: instructions.plus(y.instructions),
    }
}

// The numbers from number i on are now those of this row.
fn put_pair(t: &mut [u64], i: usize, x: Pair)
    requires { i + 2 ≤ length t.old }
    ensures { t.new ≡ paired t.old i x }
{
    t[i] = x.cycles.0;
    t[i + 1] = x.instructions.0;
}

// The row of no chain.
fn no_pair() -> Pair
    ensures { result ≡ no_pair }
{
    Pair {
        cycles: walk::Cycles(0),
        instructions: walk::Instructions(0),
    }
}

// The rows that stand side by side from number i on.
fn rows_at<const N: usize>(t: &[u64], i: usize) -> [Pair; N]
    requires { i + 2 * N ≤ length t.now }
    ensures { RowsAt t.now i N result }
{
    let mut rows = [no_pair(); N];
    for k in 0..N {
        rows[k] = pair_at(t, i + 2 * k);
    }
    rows
}

// Each of some rows with one of as many others.
fn sums<const N: usize>(x: &[Pair; N], y: &[Pair; N]) -> [Pair; N]
    requires { RowsFit N x.now y.now }
    ensures { RowSums N x.now y.now result }
{
    let mut rows = [no_pair(); N];
    for k in 0..N {
        rows[k] = sum(x[k], y[k]);
    }
    rows
}

// The numbers from number i on are now those of these rows.
fn put_rows<const N: usize>(t: &mut [u64], i: usize, x: &[Pair; N])
    requires { i + 2 * N ≤ length t.old }
    ensures { Laid (2 * N) i (numbers x.now) t.old t.new }
{
    for (k, pair) in x.iter().enumerate() {
        put_pair(t, i + 2 * k, *pair);
    }
}

// So many rows from a number on: those of the block at b are added to the prefix's and cleared, and those of the block at
// g are moved to the block at e. All are read before the first is written, so that several go at a time.
fn take<const N: usize>(t: &mut [u64], b: usize, e: usize, g: usize, from: usize)
    requires apart { Apart (from + 2 * N) b e g t.old }
    requires sums_fit { SumsFit (from + 2 * N) b t.old }
    ensures { Taken b e g (from + 2 * N) from (from + 2 * N) t.old t.new }
{
    let x: [Pair; N] = rows_at(t, b + from);
    let y: [Pair; N] = rows_at(t, g + from);
    let none = [no_pair(); N];
    let all = sums(&rows_at(t, from), &x);
    put_rows(t, from, &all);
    put_rows(t, b + from, &none);
    put_rows(t, e + from, &y);
    put_rows(t, g + from, &none);
}

// Numbers from to stop - 1: those of the block at b are added to the prefix's and cleared, and those of the block at g are
// moved to the block at e, row by row.
fn take_rows(t: &mut [u64], b: usize, e: usize, g: usize, from: usize, stop: usize)
    requires apart { Apart stop b e g t.old }
    requires sums_fit { SumsFit stop b t.old }
    requires both_even { (from % 2 ≡ 0) × (stop % 2 ≡ 0) }
    ensures { Taken b e g stop from stop t.old t.new }
{
    for i in (from..stop).step_by(2) {
        take::<1>(t, b, e, g, i);
    }
}

// Takes the four rows from a number on, as far as there are w numbers.
fn take_next(t: &mut [u64], b: usize, e: usize, g: usize, w: usize, from: usize)
    requires apart { Apart w b e g t.old }
    requires sums_fit { SumsFit w b t.old }
    requires from_bound { (from + 8 < 2 ^ 64) × ((from % 2 ≡ 0) × (w % 2 ≡ 0)) }
    ensures { Taken b e g w from (from + 8) t.old t.new }
{
    if from + 8 <= w {
        take::<4>(t, b, e, g, from);
        return;
    }
    take_rows(t, b, e, g, from, w);
}

// Takes all w numbers, in one walk over the fours that are in the word: the others are zero in the three blocks.
#[tactic(auto, using(crate::proofs::Bits::within))]
fn take_fours(t: &mut [u64], b: usize, e: usize, g: usize, w: usize, word: u64)
    requires apart { Apart w b e g t.old × (w % 2 ≡ 0) }
    requires sums_fit { SumsFit w b t.old }
    requires idles { Idles word w b t.old × (Idles word w e t.old × Idles word w g t.old) }
    ensures { Taken b e g w 0 w t.old t.new }
{
    let mut left = word;
    let mut c = 0;
    while left != 0 {
        let z = u64::trailing_zeros(left);
        c += z as usize;
        take_next(t, b, e, g, w, 8 * c);
        left = (left >> z) >> 1;
        c += 1;
    }
}

// Takes the words as the rows are taken; the answer is the fours in use in any of the three.
fn take_words(t: &mut [u64], b: usize, e: usize, g: usize, w: usize) -> u64
    requires { Apart (w + 1) b e g t.old }
    ensures { (result ≡ in_use b e g w t.old) × (t.new ≡ worded b e g w t.old) }
{
    let x = t[b + w];
    let y = t[e + w];
    let z = t[g + w];
    t[w] = t[w] | x;
    t[b + w] = 0;
    t[e + w] = z;
    t[g + w] = 0;
    x | y | z
}

// The prefix's table takes in the one at b, which is cleared, and the table at g is moved to e, where what stood there
// goes.
fn take_in(t: &mut [u64], b: usize, e: usize, g: usize, w: usize)
    requires { TakesIn b e g w t.old }
    ensures { TookIn b e g w t.old t.new }
{
    let word = take_words(t, b, e, g, w);
    take_fours(t, b, e, g, w, word);
}

// Clears four rows from a number on, as far as there are w numbers.
fn clear_next(t: &mut [u64], a: usize, w: usize, from: usize)
    requires { (a + w ≤ length t.old) × (from + 8 < 2 ^ 64) }
    ensures { Cleared a w from (from + 8) t.old t.new }
{
    if from + 8 <= w {
        t[a + from..a + from + 8].fill(0);
        return;
    }
    if from < w {
        t[a + from..a + w].fill(0);
    }
}

// Clears all w numbers of the block at a, in one walk over the fours that are in the word: the others are zero.
#[tactic(auto, using(crate::proofs::Bits::within))]
fn clear_fours(t: &mut [u64], a: usize, w: usize, word: u64)
    requires { (a + w ≤ length t.old) × Idles word w a t.old }
    ensures { Cleared a w 0 w t.old t.new }
{
    let mut left = word;
    let mut c = 0;
    while left != 0 {
        let z = u64::trailing_zeros(left);
        c += z as usize;
        clear_next(t, a, w, 8 * c);
        left = (left >> z) >> 1;
        c += 1;
    }
}

// Clears the table at a: its word, and the rows that are in it.
fn clear(t: &mut [u64], a: usize, w: usize)
    requires { (a + w < length t.old) × IsTable t.old a w }
    ensures { Cleared a (w + 1) 0 (w + 1) t.old t.new }
{
    let word = t[a + w];
    t[a + w] = 0;
    clear_fours(t, a, w, word);
}

// Where the continuation's table is: in the prefix's block as long as no child is the longest.
fn since(n: usize, f: walk::Open) -> usize
    requires { 3 * n < 2 ^ 64 }
    ensures { result ≡ since_at n f.longest.0 }
{
    if f.longest.0 == 0 {
        return 0;
    }
    2 * n
}

// Where a spawned child's part of the scratch begins: behind the blocks in use, one as long as no child is the longest,
// else three.
fn part(n: usize, f: walk::Open) -> usize
    requires { 3 * n < 2 ^ 64 }
    ensures { result ≡ part_at n f.longest.0 }
{
    if f.longest.0 == 0 {
        return n;
    }
    3 * n
}

// Where a child's part of the scratch begins: a called child goes on in the continuation's table, a spawned child begins
// behind the blocks in use.
fn child_part(kind: u8, n: usize, f: walk::Open) -> usize
    requires { 3 * n < 2 ^ 64 }
    ensures { result ≡ child_at kind n f.longest.0 }
{
    if kind != 2 {
        return part(n, f);
    }
    since(n, f)
}

// Puts row s into the word that is number i.
fn put_row(t: &mut [u64], i: usize, s: usize)
    requires { (i < length t.old) × (s < 256) }
    ensures { t.new ≡ set t.old i (bit_or (get_or t.old i 0) (2 ^ (s / 4))) }
{
    t[i] = t[i] | (1 << (s / 4));
}

// Adds to the row whose numbers stand from number i on.
fn add(t: &mut [u64], i: usize, x: Pair)
    requires { (i + 2 ≤ length t.old) × PairFits (pair_at t.old i) x }
    ensures { t.new ≡ added t.old i x }
{
    let all = sum(pair_at(t, i), x);
    put_pair(t, i, all);
}

// A cost in row s, of its cycles and its instructions: the continuation's.
fn spend(
    t: &mut [u64],
    n: usize,
    w: usize,
    f: walk::Open,
    s: usize,
    cycles: walk::Cycles,
    instructions: walk::Instructions,
) -> walk::Open
    requires asks { Asks n w t.old f 0 cycles.0 instructions.0 }
    requires s_bound { (2 * s + 2 ≤ w) × ((w ≤ 512) × ((1 ≤ cycles.0) × ((f.at + 1 < 2 ^ 64) × (f.work.0 + cycles.0 < 2 ^ 64)))) }
    ensures { Spent n w s cycles.0 instructions.0 t.old f result t.new }
{
    let o = since(n, f);
    add(
        t,
        o + 2 * s,
        Pair {
            cycles,
            instructions,
        },
    );
    put_row(t, o + w, s);
    f.spent(cycles)
}

// A sync, or the join at a return: the prefix takes the longest child or, where it is heavier, the continuation. Its
// block has the continuation already where no child is the longest. To the place of the table that loses comes the one
// of no chain.
fn join(t: &mut [u64], n: usize, w: usize, f: walk::Open) -> walk::Open
    requires asks { Asks n w t.old f 0 0 0 }
    requires at_bound { f.at + 1 < 2 ^ 64 }
    ensures { Joined n w t.old f result t.new }
{
    if f.longest.0 == 0 {
        return f.joined(f.later_heavier());
    }
    let k = 2 * n;
    let none = 3 * n;
    let later = f.later_heavier();
    if later {
        take_in(t, k, n, none, w);
        return f.joined(later);
    }
    take_in(t, n, k, none, w);
    f.joined(later)
}

// A spawned child has returned: it is the longest from now on where it is longer, and the prefix takes the
// continuation up to it. Where no child was the longest before, each table is in its place already.
fn spawned(t: &mut [u64], n: usize, w: usize, f: walk::Open, c: walk::Open) -> walk::Open
    requires asks { Asks n w t.old f c.prefix.0 0 0 }
    requires work_bound { f.work.0 + c.work.0 < 2 ^ 64 }
    ensures { Spawned n w t.old f c result t.new }
{
    if f.longest.0 == 0 {
        return f.spawned(c, f.child_longer(c));
    }
    let k = 2 * n;
    let g = 3 * n;
    let longer = f.child_longer(c);
    if longer {
        take_in(t, k, n, g, w);
        return f.spawned(c, longer);
    }
    clear(t, g, w);
    f.spawned(c, longer)
}

// Reads the items of an invocation of a row, which has come to f, up to its return, and leaves the join to its caller.
// At most deep more invocations open inside one another.
#[cycle(readers)]
fn read_items(
    trace: &[u8],
    f: walk::Open,
    row: usize,
    deep: usize,
    t: &mut [u64],
    rows: &mut [u64],
    w: usize,
    asking: &[u64],
) -> walk::Open
    requires { Lent Base (by_asking asking.now) trace.now row deep f t.old rows.old (w + 1) w }
    ensures { ItemsLeave Base (by_asking asking.now) trace.now row deep f t.old
        rows.old (w + 1) w result t.new rows.new }
{
    let mut g = f;
    let mut kind = line::kind_at::<line::Base>(trace, f.at);
    while kind != 5 {
        g = item(trace, kind, g, row, deep, t, rows, w, asking);
        kind = line::kind_at::<line::Base>(trace, g.at);
    }
    g
}

// Reads an invocation of a row from its first line up to and with its return.
#[cycle(readers)]
fn body(
    trace: &[u8],
    from: usize,
    row: usize,
    deep: usize,
    t: &mut [u64],
    rows: &mut [u64],
    w: usize,
    asking: &[u64],
) -> walk::Open
    requires { BodyAsks Base (by_asking asking.now) trace.now from row deep t.old rows.old (w + 1) w }
    ensures { BodyLeaves Base (by_asking asking.now) trace.now from row t.old
        rows.old (w + 1) w result t.new rows.new }
{
    let f = read_items(trace, walk::Open::new(from), row, deep, t, rows, w, asking);
    join(t, w + 1, w, f)
}

// Reads one item, whose first line is of this kind, with the whole body of a call or a spawn.
#[cycle(readers)]
fn item(
    trace: &[u8],
    kind: u8,
    f: walk::Open,
    row: usize,
    deep: usize,
    t: &mut [u64],
    rows: &mut [u64],
    w: usize,
    asking: &[u64],
) -> walk::Open
    requires { ItemAsks Base (by_asking asking.now) trace.now kind row deep f t.old rows.old (w + 1) w }
    ensures { ItemLeaves Base (by_asking asking.now) trace.now row f t.old
        rows.old (w + 1) w result t.new rows.new }
{
    let at = f.at;
    let n = w + 1;
    match kind {
        6 => {
            let v = walk::weight_at(trace, at, row, asking);
            let i = walk::instructions_at(trace, at);
            walk::spend(rows, row, v, i);
            spend(t, n, w, f, row, v, i)
        }
        4 => join(t, n, w, f),
        1 | 7 => f.passed(),
        _ => {
            let site = line::site_at(trace, at) as usize;
            let o = child_part(kind, n, f);
            let before = walk::credit_of(rows, site);
            let c = body(trace, at + 1, site, deep - 1, &mut t[o..], rows, w, asking);
            walk::returned(rows, site, c.work, c.prefix, before);
            if kind == 2 {
                return f.called(c);
            }
            spawned(t, n, w, f, c)
        }
    }
}

// Inside a call, an async or a finish: the numbers of the finish or async around, in whose chains a call's items go on,
// and how far an async reaches that begins in the call, from the beginning of that finish or async on.
#[derive(Clone, Copy)]
struct Reach {
    around: walk::Open,
    far: walk::Cycles,
}

// The finish family: reads the items of a call, an async or a finish, directly in an invocation of a row, up to its
// return, and leaves a join to its caller. At most deep more open inside one another. These readers are no twins of those
// above: a call's items go on in the chains around it.
#[cycle(finish_readers)]
fn finish_items(
    trace: &[u8],
    f: Reach,
    row: usize,
    deep: usize,
    t: &mut [u64],
    rows: &mut [u64],
    w: usize,
) -> Reach
    requires { Lent Finishes (by_asking []) trace.now row deep f.around t.old rows.old (w + 1) w }
    ensures items_leave { ItemsLeave Finishes (by_asking []) trace.now row deep f.around t.old
        rows.old (w + 1) w result.around t.new rows.new }
    ensures items_reach { ItemsReach (by_asking []) trace.now row f t.old (w + 1) w result }
{
    let mut g = f;
    let mut next = line::kind_at::<line::Finishes>(trace, f.around.at);
    while next != 5 {
        g = finish_item(trace, next, g, row, deep, t, rows, w);
        next = line::kind_at::<line::Finishes>(trace, g.around.at);
    }
    g
}

// The finish family: reads an async or a finish from its first line up to and with its return, which joins all that it
// holds.
#[cycle(finish_readers)]
fn finish_body(
    trace: &[u8],
    from: usize,
    row: usize,
    deep: usize,
    t: &mut [u64],
    rows: &mut [u64],
    w: usize,
) -> walk::Open
    requires { BodyAsks Finishes (by_asking []) trace.now from row deep t.old rows.old (w + 1) w }
    ensures { BodyLeaves Finishes (by_asking []) trace.now from row t.old
        rows.old (w + 1) w result t.new rows.new }
{
    let start = Reach {
        around: walk::Open::new(from),
        far: walk::Cycles(0),
    };
    let f = finish_items(trace, start, row, deep, t, rows, w);
    join(t, w + 1, w, f.around)
}

// The finish family: reads one item, whose first line is of this kind, with all that it holds.
#[cycle(finish_readers)]
fn finish_item(
    trace: &[u8],
    next: u8,
    f: Reach,
    row: usize,
    deep: usize,
    t: &mut [u64],
    rows: &mut [u64],
    w: usize,
) -> Reach
    requires { ItemAsks Finishes (by_asking []) trace.now next row deep f.around t.old rows.old (w + 1) w }
    ensures item_leaves { ItemLeaves Finishes (by_asking []) trace.now row f.around t.old
        rows.old (w + 1) w result.around t.new rows.new }
    ensures item_reaches { ItemReaches (by_asking []) trace.now row f t.old (w + 1) w result }
{
    let around = f.around;
    match next {
        6 => {
            let v = walk::weight_at(trace, around.at, row, &[]);
            let i = walk::instructions_at(trace, around.at);
            walk::spend(rows, row, v, i);
            let spent = spend(t, w + 1, w, around, row, v, i);
            Reach { around: spent, ..f }
        }
        1 | 7 => Reach {
            around: around.passed(),
            ..f
        },
        2 => finish_call(trace, f, deep, t, rows, w),
        0x12 => finish_async(trace, f, deep, t, rows, w),
        _ => {
            let within = finish_finish(trace, around, row, deep, t, rows, w);
            Reach {
                around: within,
                ..f
            }
        }
    }
}

// The finish family: reads a call. Its items go on in the chains around it, and its return joins nothing. Its span is
// how far they come from where it begins.
#[cycle(finish_readers)]
fn finish_call(
    trace: &[u8],
    f: Reach,
    deep: usize,
    t: &mut [u64],
    rows: &mut [u64],
    w: usize,
) -> Reach
    requires { OfARow (λ row. ItemAsks Finishes (by_asking []) trace.now 2 row deep f.around t.old rows.old
        (w + 1) w) }
    ensures item_leaves { OfEachRow (λ row. ItemLeaves Finishes (by_asking []) trace.now row f.around
        t.old rows.old (w + 1) w result.around t.new rows.new) }
    ensures item_reaches { OfEachRow (λ row. ItemReaches (by_asking []) trace.now row f t.old (w + 1) w
        result) }
{
    let around = f.around;
    let site = line::site_at(trace, around.at) as usize;
    let credit = walk::credit_of(rows, site);
    let begins = around.series();
    let callee = Reach {
        around: around.passed(),
        far: begins,
    };
    let r = finish_items(trace, callee, site, deep - 1, t, rows, w);
    let left = r.around;
    let most = r.far.max(left.series());
    walk::returned(
        rows,
        site,
        left.work.minus(around.work),
        most.minus(begins),
        credit,
    );
    Reach {
        around: left.passed(),
        far: f.far.max(r.far),
    }
}

// The finish family: reads an async. It works behind the blocks in use, as a spawned child does, and reaches as far as
// its span from where it begins.
#[cycle(finish_readers)]
fn finish_async(
    trace: &[u8],
    f: Reach,
    deep: usize,
    t: &mut [u64],
    rows: &mut [u64],
    w: usize,
) -> Reach
    requires { OfARow (λ row. ItemAsks Finishes (by_asking []) trace.now 0x12 row deep f.around t.old rows.old
        (w + 1) w) }
    ensures item_leaves { OfEachRow (λ row. ItemLeaves Finishes (by_asking []) trace.now row f.around
        t.old rows.old (w + 1) w result.around t.new rows.new) }
    ensures item_reaches { OfEachRow (λ row. ItemReaches (by_asking []) trace.now row f t.old (w + 1) w
        result) }
{
    let around = f.around;
    let site = line::site_at(trace, around.at) as usize;
    let o = part(w + 1, around);
    let credit = walk::credit_of(rows, site);
    let c = finish_body(trace, around.at + 1, site, deep - 1, &mut t[o..], rows, w);
    walk::returned(rows, site, c.work, c.prefix, credit);
    let reached = around.series().plus(c.prefix);
    let behind = spawned(t, w + 1, w, around, c);
    Reach {
        around: behind,
        far: f.far.max(reached),
    }
}

// The finish family: reads a finish directly in an invocation of a row. It goes on in the continuation's table, as a
// called child does, and nothing is counted at its end.
#[cycle(finish_readers)]
fn finish_finish(
    trace: &[u8],
    f: walk::Open,
    row: usize,
    deep: usize,
    t: &mut [u64],
    rows: &mut [u64],
    w: usize,
) -> walk::Open
    requires { ItemAsks Finishes (by_asking []) trace.now 0x13 row deep f t.old rows.old (w + 1) w }
    ensures { ItemLeaves Finishes (by_asking []) trace.now row f t.old
        rows.old (w + 1) w result t.new rows.new }
{
    let o = since(w + 1, f);
    let c = finish_body(trace, f.at + 1, row, deep - 1, &mut t[o..], rows, w);
    f.called(c)
}

// Columns 5 and 7: each row of m is moved out of the root's table, and its word is cleared.
fn settle(t: &mut [u64], rows: &mut [u64], m: usize)
    requires { (2 * m < length t.old) × (columns * m ≤ length rows.old) }
    ensures { Settled m t.old rows.old t.new rows.new }
{
    for i in 0..m {
        let x = pair_at(t, 2 * i);
        rows[trace::COLUMNS * i + trace::ON_SPAN] = x.cycles.0;
        rows[trace::COLUMNS * i + trace::ION_SPAN] = x.instructions.0;
    }
    t[..2 * m + 1].fill(0);
}

// A family's traces as the engine reads them.
pub trait Reader: line::Family {
    // What may be asked of such a trace.
    ghost may_ask: { List ℕ → Type 0 };

    // Reads the body of a row from its first line up to and with its return, each cost weighed by what is asked.
    fn body(
        trace: &[u8],
        from: usize,
        row: usize,
        deep: usize,
        t: &mut [u64],
        rows: &mut [u64],
        w: usize,
        asking: &[u64],
    ) -> walk::Open
        requires asked { may_ask asking.now }
        requires body { BodyAsks Self.family (by_asking asking.now) trace.now from row deep t.old rows.old (w + 1) w }
        ensures { BodyLeaves Self.family (by_asking asking.now) trace.now from row t.old
            rows.old (w + 1) w result t.new rows.new };

    // Nothing has to be asked.
    ghost no_asking: { may_ask [] };
}

impl Reader for line::Base {
    ghost may_ask = { λ _. ⊤ };

    fn body(
        trace: &[u8],
        from: usize,
        row: usize,
        deep: usize,
        t: &mut [u64],
        rows: &mut [u64],
        w: usize,
        asking: &[u64],
    ) -> walk::Open {
        body(trace, from, row, deep, t, rows, w, asking)
    }

    ghost no_asking = { tt };
}

impl Reader for line::Finishes {
    // A forecast is of document 01's traces alone.
    ghost may_ask = { λ asking. asking ≡ [] };

    fn body(
        trace: &[u8],
        from: usize,
        row: usize,
        deep: usize,
        t: &mut [u64],
        rows: &mut [u64],
        w: usize,
        _asking: &[u64],
    ) -> walk::Open {
        finish_body(trace, from, row, deep, t, rows, w)
    }

    ghost no_asking = { refl };
}

// An accepted trace of count sites and lines lines, each cost weighed by its row's factor: the room is cleared, the root
// is read, and its table is moved out.
fn accepted<F: Reader>(
    text: &[u8],
    depth: usize,
    sites: usize,
    count: usize,
    lines: usize,
    scratch: &mut [u64],
    rows: &mut [u64],
    asking: &[u64],
) -> Result<Profile, Refusal>
    requires admitted { Admitted F.family text.now depth sites scratch.old rows.old count lines }
    requires factors { Factors asking.now }
    requires asked { F.may_ask asking.now }
    ensures { Profiled F.family tables (by_asking asking.now) text.now depth sites
        (lent scratch.old rows.old) result (lent scratch.new rows.new) }
{
    walk::zero(scratch, scratch.len());
    walk::zero(rows, trace::COLUMNS * (count + 1));
    let before = walk::credit_of(rows, 0);
    let f = F::body(
        text,
        0,
        0,
        depth - 1,
        scratch,
        rows,
        2 * (count + 1),
        asking,
    );
    walk::returned(rows, 0, f.work, f.prefix, before);
    settle(scratch, rows, count + 1);
    Ok(Profile {
        work: f.work.0,
        span: f.prefix.0,
        sites: count,
        lines,
    })
}

// The table engine: any text of a family's, any limits and any room.
pub fn profile<F: Reader>(
    text: &[u8],
    depth: usize,
    sites: usize,
    scratch: &mut [u64],
    rows: &mut [u64],
) -> Result<Profile, Refusal>
    ensures { PromiseOf F.family tables text.now depth sites (lent scratch.old rows.old)
        result (lent scratch.new rows.new) }
{
    let found = admit::for_tables::<F>(text, depth, sites, scratch.len(), rows.len())?;
    accepted::<F>(
        text,
        depth,
        sites,
        found.sites,
        found.lines,
        scratch,
        rows,
        &[],
    )
}

// The table engine's forecast: any text, any limits, any list of entries and any room.
pub fn forecast(
    text: &[u8],
    depth: usize,
    sites: usize,
    entries: &[forecast::Entry],
    scratch: &mut [u64],
    rows: &mut [u64],
) -> Result<Profile, Refusal>
    ensures { Forecast tables entries.now text.now depth sites
        (lent scratch.old rows.old) result (lent scratch.new rows.new) }
{
    let admitted = admit::for_tables::<line::Base>(text, depth, sites, scratch.len(), rows.len())?;
    forecast::check(entries, admitted.sites)?;
    let factors = forecast::factors(entries);
    accepted::<line::Base>(
        text,
        depth,
        sites,
        admitted.sites,
        admitted.lines,
        scratch,
        rows,
        &factors,
    )
}
