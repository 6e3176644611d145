// Acceptance: the flat check of a whole trace. It says whether a trace is accepted, or its first refusal, before
// anything lent is written.

#![tactic(auto)]

ghost use Rattle.std.specs.Prelude.{◌≡◌, [], ◌≤◌, ◌<◌, length, take, replicate, None};
ghost use Rattle.line.specs.Refusal.{refusal};
ghost use Rattle.line.specs.Read.{read_at_of};
ghost use Rattle.line.specs.Seeing.{glanced};
ghost use Rattle.trace.specs.Shape.{if_makes, has};
ghost use Rattle.trace.specs.Refusals.{scan, reads_of, verdict};
ghost use Rattle.trace.specs.Answer.{passing};
ghost use Rattle.trace.specs.Promise.{Engine, rows_room};
ghost use Rattle.admit.specs.Answer.{answer_of, admission_of, opening, checks_for};
ghost use Rattle.admit.specs.Step.{key, tag, tags_of, seen, kept, behind_cost, stray_at, onward, declaring, deepening, entering, beginning, carrying, stepped, Updated, Judged, ended, Small, Within, Limits};

use line::{Base, Family, Frame, Place, Refusal};

// What acceptance says of an accepted trace: the numbers of sites and of lines.
#[derive(Clone, Copy)]
pub struct Accepted {
    pub sites: usize,
    pub lines: usize,
}

// "A tally of lines, sites and open depth": of the lines before the next one.
#[derive(Clone, Copy)]
pub struct Tally {
    pub lines: usize,
    pub sites: usize,
    pub depth: usize,
}

// A place as one number: 16 bits of file, 32 of line, 16 of column. Two places are the same exactly when their keys are.
fn key(p: Place) -> u64
    ensures { result ≡ key p }
{
    (p.file as u64) * 281474976710656 + (p.line as u64) * 65536 + p.column as u64
}

// A key's tag: the low 16 bits of the place's line.
fn tag(key: u64) -> u16
    ensures { result ≡ tag key }
{
    ((key / 65536) % 65536) as u16
}

// Whether a key is among the keys. The loop has no early end, so that it compares many at once.
fn among(keys: &[u64], key: u64) -> bool
    ensures { result ≡ has key keys.now }
{
    let mut found = false;
    for k in keys {
        found |= *k == key;
    }
    found
}

// The keys of the places of the sites so far, and their tags.
#[derive(Drop)]
struct Places {
    keys: [u64; 256],
    tags: [u16; 256],
    ghost tagged: { tags ≡ tags_of keys },
}

impl Places {
    // No site is there yet.
    fn new() -> Places
        ensures { result.keys ≡ replicate 256 0 }
    {
        Places {
            keys: [0; 256],
            tags: [0; 256],
        }
    }

    // Whether a key is among the first `count`. It is looked for only where its tag is among their tags.
    fn have(&self, count: usize, key: u64) -> bool
        requires { count ≤ 256 }
        ensures { result ≡ has key (take count self.now.keys) }
    {
        self.tags[..count].contains(&tag(key)) && among(&self.keys[..count], key)
    }

    // Whether a line declares a place again. The key of a site line's place, and its tag, are kept behind the `count`
    // before it.
    fn again(&mut self, count: usize, frame: Frame) -> bool
        requires { count < 256 }
        ensures again { result ≡ seen self.old.keys count frame }
        ensures kept { self.new.keys ≡ kept self.old.keys count frame }
    {
        match frame {
            Frame::Site(_, place) => {
                let k = key(place);
                let found = self.have(count, k);
                self.keys[count] = k;
                self.tags[count] = tag(k);
                found
            }
            _ => false,
        }
    }
}

// Whether line n stands directly after a cost line. The lines before it are accepted: their kind tells.
fn behind_cost(trace: &[u8], n: usize) -> bool
    ensures { result ≡ behind_cost trace.now n }
{
    n != 0 && line::kind_at::<Base>(trace, n - 1) == 6
}

// Whether line n is "a 07 line not directly after a cost". For a line of another kind the line before is not looked at.
fn stray(trace: &[u8], n: usize, frame: Frame) -> bool
    ensures { result ≡ stray_at trace.now n frame }
{
    match frame {
        Frame::Instructions(_) => !behind_cost(trace, n),
        _ => false,
    }
}

// A refusal of the line behind those of the tally.
fn refusal(t: Tally, number: u8) -> Refusal
    ensures { result ≡ refusal number t.lines }
{
    Refusal {
        number,
        line: t.lines,
    }
}

// One line more, with the sites and the open invocations behind it.
fn onward(t: Tally, sites: usize, depth: usize) -> Result<Tally, Refusal>
    requires { t.lines < 65536 }
    ensures { result ≡ onward t sites depth }
{
    Ok(Tally {
        lines: t.lines + 1,
        sites,
        depth,
    })
}

// A site line, by its number: refusals 8, 9 and 10.
fn declare(t: Tally, site: usize, again: bool, limit: usize) -> Result<Tally, Refusal>
    requires { (t.lines < 65536) × (t.sites ≤ t.lines) }
    ensures { result ≡ declaring limit again site t }
{
    if site != t.sites + 1 {
        return Err(refusal(t, 8));
    }
    if limit < site {
        return Err(refusal(t, 9));
    }
    if again {
        return Err(refusal(t, 10));
    }
    onward(t, t.sites + 1, t.depth)
}

// A line that opens something: refusal 12.
fn deepen(t: Tally, limit: usize) -> Result<Tally, Refusal>
    requires { (t.lines < 65536) × (limit ≤ 64) }
    ensures { result ≡ deepening limit t }
{
    if limit <= t.depth {
        return Err(refusal(t, 12));
    }
    onward(t, t.sites, t.depth + 1)
}

// A call, spawn or async, by its site: refusals 11 and 12.
fn enter(t: Tally, site: usize, limit: usize) -> Result<Tally, Refusal>
    requires { (t.lines < 65536) × (limit ≤ 64) }
    ensures { result ≡ entering limit site t }
{
    if site == 0 || t.sites < site {
        return Err(refusal(t, 11));
    }
    deepen(t, limit)
}

// A 07 line: refusal 22.
fn carry(t: Tally, stray: bool) -> Result<Tally, Refusal>
    requires { t.lines < 65536 }
    ensures { result ≡ carrying stray t }
{
    if stray {
        return Err(refusal(t, 22));
    }
    onward(t, t.sites, t.depth)
}

// The site that a line makes an invocation of, 0 where it makes none.
fn made(frame: Frame) -> usize
    ensures { result ≡ if_makes (λ s. s) 0 frame }
{
    match frame {
        Frame::Call(site) | Frame::Spawn(site) | Frame::Async(site) => site as usize,
        _ => 0,
    }
}

// A line that opens something, a finish without a site: refusals 11 and 12. One copy of `enter` keeps the flat check in one
// piece.
fn begin(t: Tally, frame: Frame, limit: usize) -> Result<Tally, Refusal>
    requires { (t.lines < 65536) × (limit ≤ 64) }
    ensures { result ≡ beginning limit t frame }
{
    match frame {
        Frame::Finish => deepen(t, limit),
        _ => enter(t, made(frame), limit),
    }
}

// A line by its kind: the tally behind it, or the first of refusals 7, 22 and 8 to 12 that applies. `against` is what
// the lines before say against it: its place is declared already, or it is a 07 line that is not directly after a cost.
fn step(t: Tally, frame: Frame, against: bool, depth: usize, sites: usize) -> Result<Tally, Refusal>
    requires { Small depth t }
    ensures { result ≡ stepped depth sites against t frame }
{
    if t.depth == 0 {
        return Err(refusal(t, 7));
    }
    match frame {
        Frame::Site(site, _) => declare(t, site as usize, against, sites),
        Frame::Sync | Frame::Cost(_) => onward(t, t.sites, t.depth),
        Frame::Return => onward(t, t.sites, t.depth - 1),
        Frame::Instructions(_) => carry(t, against),
        _ => begin(t, frame, depth),
    }
}

// "A tally of lines, sites and open depth is kept up to date at each line": the same step on a tally that is lent. A
// line that is refused leaves it as it was.
fn update(
    tally: &mut Tally,
    frame: Frame,
    against: bool,
    depth: usize,
    sites: usize,
) -> Result<(), Refusal>
    requires { Small depth tally.old }
    ensures { Updated tally.old (stepped depth sites against tally.old frame) result tally.new }
{
    *tally = step(*tally, frame, against, depth, sites)?;
    Ok(())
}

// The same step from value to value: it lends a tally of its own, so that no caller has to.
fn updated(
    t: Tally,
    frame: Frame,
    against: bool,
    depth: usize,
    sites: usize,
) -> Result<Tally, Refusal>
    requires { Small depth t }
    ensures { result ≡ stepped depth sites against t frame }
{
    let mut tally = t;
    update(&mut tally, frame, against, depth, sites)?;
    Ok(tally)
}

// A line that a glance does not see, read whole and judged with the lines before it: their tally, and their places. It
// is no 07 line. It stands outside the check of all lines, which comes here for few of them.
#[inline(never)]
fn judge_whole<F: Family>(
    trace: &[u8],
    places: &mut Places,
    t: Tally,
    depth: usize,
    sites: usize,
) -> Result<Tally, Refusal>
    requires { Within depth t × (glanced (read_at_of F.family trace.now t.lines) ≡ None) }
    ensures { Judged depth sites trace.now places.old.keys t
        (read_at_of F.family trace.now t.lines) result places.new.keys }
{
    let frame = line::read_at::<F>(trace, t.lines)?.frame;
    let found = places.again(t.sites, frame);
    updated(t, frame, found, depth, sites)
}

// A line of the trace, judged with the lines before it. Where a glance sees it, it is not read whole.
fn judge<F: Family>(
    trace: &[u8],
    places: &mut Places,
    t: Tally,
    depth: usize,
    sites: usize,
) -> Result<Tally, Refusal>
    requires { Within depth t }
    ensures { Judged depth sites trace.now places.old.keys t
        (read_at_of F.family trace.now t.lines) result places.new.keys }
{
    match line::glance::<F>(trace, t.lines) {
        Some(frame) => {
            let against = stray(trace, t.lines, frame);
            updated(t, frame, against, depth, sites)
        }
        None => judge_whole::<F>(trace, places, t, depth, sites),
    }
}

// The answer behind the last line: "14 comes last".
fn ended(t: Tally) -> Result<Accepted, Refusal>
    ensures { result ≡ ended t }
{
    if t.depth == 0 {
        return Ok(Accepted {
            sites: t.sites,
            lines: t.lines,
        });
    }
    Err(refusal(t, 14))
}

// All lines in turn: "the first faulty line decides".
fn lines<F: Family>(trace: &[u8], depth: usize, sites: usize) -> Result<Accepted, Refusal>
    requires { Limits depth sites trace.now }
    ensures { result ≡ answer_of (scan depth sites [] (reads_of F.family trace.now)) }
{
    let count = trace.len() / line::LINE;
    let mut places = Places::new();
    let mut tally = Tally {
        lines: 0,
        sites: 0,
        depth: 1,
    };
    while tally.lines < count {
        tally = judge::<F>(trace, &mut places, tally, depth, sites)?;
    }
    ended(tally)
}

// Checks 1 to 3, in that order.
pub fn opening(bytes: usize, depth: usize, sites: usize) -> Result<(), Refusal>
    ensures { result ≡ passing (opening bytes depth sites) }
{
    if depth == 0 || 64 < depth || 255 < sites {
        return Err(trace::refused(1));
    }
    if bytes % line::LINE != 0 {
        return Err(trace::refused(2));
    }
    if 65536 < bytes / line::LINE {
        return Err(trace::refused(3));
    }
    Ok(())
}

// "5·(M+1) row numbers"; 02, request l: "every row room with five reads seven"
fn rows_room(sites: usize) -> usize
    requires { sites ≤ 255 }
    ensures { result ≡ rows_room sites }
{
    trace::COLUMNS * (sites + 1)
}

// Checks 1 to 4, in that order, for the table engine, lent `scratch` numbers of scratch and `rows` row numbers.
fn tables_checks(
    trace: &[u8],
    depth: usize,
    sites: usize,
    scratch: usize,
    rows: usize,
) -> Result<(), Refusal>
    ensures { result ≡ passing (checks_for Engine.tables trace.now depth sites scratch rows 0) }
{
    opening(trace.len(), depth, sites)?;
    if scratch < trace::SCRATCH * depth * (sites + 3) {
        return Err(trace::refused(4));
    }
    if rows < rows_room(sites) {
        return Err(trace::refused(4));
    }
    Ok(())
}

// For the marks engine, lent `marks` bytes of marks besides.
fn marks_checks(
    trace: &[u8],
    depth: usize,
    sites: usize,
    scratch: usize,
    rows: usize,
    marks: usize,
) -> Result<(), Refusal>
    ensures { result ≡ passing (checks_for Engine.marks trace.now depth sites scratch rows marks) }
{
    opening(trace.len(), depth, sites)?;
    if scratch < 8 * depth {
        return Err(trace::refused(4));
    }
    if rows < rows_room(sites) {
        return Err(trace::refused(4));
    }
    if marks < trace.len() / line::LINE {
        return Err(trace::refused(4));
    }
    Ok(())
}

// Acceptance of a family's trace for the table engine.
pub fn for_tables<F: Family>(
    trace: &[u8],
    depth: usize,
    sites: usize,
    scratch: usize,
    rows: usize,
) -> Result<Accepted, Refusal>
    ensures { result ≡ admission_of F.family Engine.tables trace.now depth sites scratch rows 0 }
{
    tables_checks(trace, depth, sites, scratch, rows)?;
    lines::<F>(trace, depth, sites)
}

// Acceptance of a family's trace for the marks engine.
pub fn for_marks<F: Family>(
    trace: &[u8],
    depth: usize,
    sites: usize,
    scratch: usize,
    rows: usize,
    marks: usize,
) -> Result<Accepted, Refusal>
    ensures { result ≡ admission_of F.family Engine.marks trace.now depth sites scratch rows marks }
{
    marks_checks(trace, depth, sites, scratch, rows, marks)?;
    lines::<F>(trace, depth, sites)
}

// Acceptance for a reader of its own: the caller says whether each slice that it was lent is as long as it needs.
pub fn with_room(trace: &[u8], depth: usize, sites: usize, room: bool) -> Result<Accepted, Refusal>
    ensures { result ≡ answer_of (verdict trace.now depth sites room) }
{
    opening(trace.len(), depth, sites)?;
    if !room {
        return Err(trace::refused(4));
    }
    lines::<Base>(trace, depth, sites)
}
