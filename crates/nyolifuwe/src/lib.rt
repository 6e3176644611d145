// The C interface: the proved functions on numbers and lent slices. Each answers 0 where it accepts and otherwise a
// refusal's number + 256 · its line; a refusal changes nothing that was lent.

#![tactic(auto)]

ghost use Rattle.std.specs.Prelude.{◌≡◌, ◌≤◌, [], ◌++◌, length, drop};
ghost use Rattle.line.specs.Family.{Finishes};
ghost use Rattle.line.specs.Table.{fields_of};
ghost use Rattle.report.specs.Report.{report, full_report};
ghost use Rattle.report.specs.Refusal.{print_refusal};
ghost use Rattle.report.specs.Room.{Writes};
ghost use Rattle.nyolifuwe.specs.Code.{coded, Gives};
ghost use Rattle.nyolifuwe.specs.Lines.{numbers, read_frame_of, read_frame, write_frame_of, write_frame};
ghost use Rattle.nyolifuwe.specs.Texts.{counted, Tells};
ghost use Rattle.trace.specs.Promise.{Engine};
ghost use Rattle.nyolifuwe.specs.Engines.{numbered, ProfilesOf, Profiles, Forecasts};
ghost use Rattle.nyolifuwe.specs.Sheets.{csv_write, csv_read, Takes};
ghost use Rattle.nyolifuwe.specs.Stacks.{folded_stacks, Folded};
ghost use Rattle.nyolifuwe.specs.Shelf.{Shelves};
ghost use Rattle.nyolifuwe.specs.Asking.{numbers_of, why_numbered, AsksWhy};
ghost use Rattle.nyolifuwe.specs.Inside.{framed_by, written_by, told, line_of, noted, unroomy};

use forecast::Entry;
use line::{Family, Fields, Frame, LINE, Line, Refusal};
use names::Lists;
use trace::Profile;
use why::Why;

// "kind, site, value, file, column"
const FIELDS: usize = 5;

// A refusal in one number.
fn code(refusal: Refusal) -> u64
    requires { refusal.line ≤ 4294967295 }
    ensures { result ≡ coded refusal.number refusal.line }
{
    refusal.number as u64 + 256 * refusal.line as u64
}

// Copies all of `from` over the front of `to`.
fn put(from: &[u64], to: &mut [u64])
    requires { length from.now ≤ length to.old }
    ensures { to.new ≡ from.now ++ drop (length from.now) to.old }
{
    to[..from.len()].copy_from_slice(from);
}

// The five fields of a frame, as numbers.
fn numbers(frame: Frame) -> [u64; FIELDS]
    ensures { result ≡ numbers (fields_of frame) }
{
    let x = frame.fields();
    [
        u64::from(x.kind),
        u64::from(x.site),
        u64::from(x.value),
        u64::from(x.file),
        u64::from(x.column),
    ]
}

// Reads one line of a family's trace: its frame goes to `frame`, or refusal 2, 4, 5 or 6.
fn read_as<F: Family>(line: &[u8], frame: &mut [u64]) -> u64
    ensures { Gives (read_frame_of F.family line.now (length frame.old)) result frame.old
        frame.new }
{
    if line.len() != LINE {
        return 2;
    }
    if frame.len() < FIELDS {
        return 4;
    }
    match line::read_line::<F>(line) {
        Ok(read) => {
            put(&numbers(read.frame), frame);
            0
        }
        Err(refusal) => code(refusal),
    }
}

// Reads one line: its frame goes to `frame`, or refusal 2, 4, 5 or 6.
#[unsafe(no_mangle)]
pub extern "C" fn nyo_read_line(line: &[u8], frame: &mut [u64]) -> u64
    ensures { Gives (read_frame line.now (length frame.old)) result frame.old
        frame.new }
{
    read_as::<line::Base>(line, frame)
}

// The same of a trace of asyncs and finishes.
#[unsafe(no_mangle)]
pub extern "C" fn nyo_finish_read_line(line: &[u8], frame: &mut [u64]) -> u64
    ensures { Gives (read_frame_of Finishes line.now (length frame.old)) result
        frame.old frame.new }
{
    read_as::<line::Finishes>(line, frame)
}

// The frame that five numbers are by a family's table of kinds, else refusal 6.
fn frame_of<F: Family>(
    kind: u64,
    site: u64,
    value: u64,
    file: u64,
    column: u64,
) -> Result<Line, Refusal>
    ensures { result ≡ framed_by F.family
        (record { kind = kind; site = site; value = value; file = file; column = column }) }
{
    let (Ok(kind), Ok(site), Ok(value), Ok(file), Ok(column)) = (
        u8::try_from(kind),
        u16::try_from(site),
        u32::try_from(value),
        u16::try_from(file),
        u16::try_from(column),
    ) else {
        return Err(Refusal { number: 6, line: 0 });
    };
    let x = Fields {
        kind: u32::from(kind),
        site,
        value,
        file,
        column,
    };
    F::framed(x, 0)
}

// What a writer of text or the reader of comma-separated text answered, in one number; how many characters or sites
// they are goes to `count`.
fn tell(counted: Result<usize, Refusal>, count: &mut [u64]) -> u64
    requires { (line_of counted ≤ 65536) × (1 ≤ length count.old) }
    ensures { (result ≡ told counted) × (count.new ≡ noted counted count.old) }
{
    match counted {
        Ok(n) => {
            count[0] = n as u64;
            0
        }
        Err(refusal) => code(refusal),
    }
}

// Writes the line of the frame that five numbers are, or refuses: 6, then 4 for output too short.
fn write_fields<F: Family>(
    kind: u64,
    site: u64,
    value: u64,
    file: u64,
    column: u64,
    out: &mut [u8],
) -> Result<usize, Refusal>
    ensures { Writes
        (written_by F.family
        (record { kind = kind; site = site; value = value; file = file; column = column }) (length out.old))
        result out.old out.new }
{
    let read = frame_of::<F>(kind, site, value, file, column)?;
    let chars = line::write_line::<F>(read.frame).unwrap();
    report::put_text(&chars, out)
}

// Writes one line of a family's trace from the five numbers of its frame: 23 characters go to `out`, or refusal 4 or 6.
fn write_as<F: Family>(frame: &[u64], out: &mut [u8], written: &mut [u64]) -> u64
    ensures { Tells
        (write_frame_of F.family frame.now (length out.old) (length written.old)) result
        out.old out.new written.old written.new }
{
    let [kind, site, value, file, column, ..] = *frame else {
        return 4;
    };
    if out.len() < LINE {
        return 4;
    }
    if written.len() < 1 {
        return 4;
    }
    tell(
        write_fields::<F>(kind, site, value, file, column, out),
        written,
    )
}

// Writes one line from the five numbers of its frame: 23 characters go to `out`, or refusal 4 or 6.
#[unsafe(no_mangle)]
pub extern "C" fn nyo_write_line(frame: &[u64], out: &mut [u8], written: &mut [u64]) -> u64
    ensures { Tells (write_frame frame.now (length out.old) (length written.old)) result
        out.old out.new written.old written.new }
{
    write_as::<line::Base>(frame, out, written)
}

// The same of a trace of asyncs and finishes.
#[unsafe(no_mangle)]
pub extern "C" fn nyo_finish_write_line(frame: &[u64], out: &mut [u8], written: &mut [u64]) -> u64
    ensures { Tells
        (write_frame_of Finishes frame.now (length out.old) (length written.old)) result
        out.old out.new written.old written.new }
{
    write_as::<line::Finishes>(frame, out, written)
}

// Writes the report of `count` sites from their rows, row 0 and those with calls above zero: its text goes to `out`, or
// refusal 1 or 4.
#[unsafe(no_mangle)]
pub extern "C" fn nyo_report(rows: &[u64], count: u64, out: &mut [u8], written: &mut [u64]) -> u64
    ensures { Tells
        (counted (report rows.now count (length out.old)) (length written.old)) result
        out.old out.new written.old written.new }
{
    if 255 < count {
        return 1;
    }
    if written.len() < 1 {
        return 4;
    }
    tell(report::write_report(rows, count as usize, out), written)
}

// Writes the full report of `count` sites from their rows, a line a row: its text goes to `out`, or refusal 1 or 4.
#[unsafe(no_mangle)]
pub extern "C" fn nyo_full_report(
    rows: &[u64],
    count: u64,
    out: &mut [u8],
    written: &mut [u64],
) -> u64
    ensures { Tells
        (counted (full_report rows.now count (length out.old)) (length written.old)) result
        out.old out.new written.old written.new }
{
    if 255 < count {
        return 1;
    }
    if written.len() < 1 {
        return 4;
    }
    tell(
        report::write_full_report(rows, count as usize, out),
        written,
    )
}

// Writes a refusal's line: its text goes to `out`, or refusal 1 or 4.
#[unsafe(no_mangle)]
pub extern "C" fn nyo_refusal(number: u64, line: u64, out: &mut [u8], written: &mut [u64]) -> u64
    ensures { Tells
        (counted (print_refusal number line (length out.old)) (length written.old)) result
        out.old out.new written.old written.new }
{
    if 255 < number {
        return 1;
    }
    if 4294967295 < line {
        return 1;
    }
    if written.len() < 1 {
        return 4;
    }
    tell(report::write_refusal(number, line, out), written)
}

// Hands an engine's answer over: its four numbers go to `answer`, or a refusal's code is given.
fn hand_over(found: Result<Profile, Refusal>, answer: &mut [u64]) -> u64
    requires { (line_of found ≤ 65536) × (4 ≤ length answer.old) }
    ensures { Gives (numbered found) result answer.old answer.new }
{
    match found {
        Ok(
            Profile {
                work,
                span,
                sites,
                lines,
            },
        ) => {
            put(&[work, span, sites as u64, lines as u64], answer);
            0
        }
        Err(refusal) => code(refusal),
    }
}

// The refusal where there is no room for an answer: 1, 2 or 3 where one of them applies, else 4.
fn refuse_room(bytes: usize, depth: usize, sites: usize) -> u64
    ensures { result ≡ unroomy bytes depth sites }
{
    match admit::opening(bytes, depth, sites) {
        Ok(()) => 4,
        Err(refusal) => refusal.number as u64,
    }
}

// Profiles a family's trace with the table engine: the rows go to `rows`, work, span, sites and lines to `answer`.
fn tables_as<F: tables::Reader>(
    trace: &[u8],
    depth: u64,
    sites: u64,
    scratch: &mut [u64],
    rows: &mut [u64],
    answer: &mut [u64],
) -> u64
    ensures { ProfilesOf F.family Engine.tables trace.now depth sites
        (record { scratch = scratch.old; rows = rows.old; marks = [] }) answer.old result
        (record { scratch = scratch.new; rows = rows.new; marks = [] }) answer.new }
{
    if answer.len() < 4 {
        return refuse_room(trace.len(), depth as usize, sites as usize);
    }
    let found = tables::profile::<F>(trace, depth as usize, sites as usize, scratch, rows);
    hand_over(found, answer)
}

// Profiles a trace with the table engine: the rows go to `rows`, work, span, sites and lines to `answer`.
#[unsafe(no_mangle)]
pub extern "C" fn nyo_tables(
    trace: &[u8],
    depth: u64,
    sites: u64,
    scratch: &mut [u64],
    rows: &mut [u64],
    answer: &mut [u64],
) -> u64
    ensures { Profiles Engine.tables trace.now depth sites
        (record { scratch = scratch.old; rows = rows.old; marks = [] }) answer.old result
        (record { scratch = scratch.new; rows = rows.new; marks = [] }) answer.new }
{
    tables_as::<line::Base>(trace, depth, sites, scratch, rows, answer)
}

// The same of a trace of asyncs and finishes.
#[unsafe(no_mangle)]
pub extern "C" fn nyo_finish_tables(
    trace: &[u8],
    depth: u64,
    sites: u64,
    scratch: &mut [u64],
    rows: &mut [u64],
    answer: &mut [u64],
) -> u64
    ensures { ProfilesOf Finishes Engine.tables trace.now depth sites
        (record { scratch = scratch.old; rows = rows.old; marks = [] }) answer.old result
        (record { scratch = scratch.new; rows = rows.new; marks = [] }) answer.new }
{
    tables_as::<line::Finishes>(trace, depth, sites, scratch, rows, answer)
}

// Profiles a family's trace with the marks engine: besides, the marks of the chosen chain go to `marks`.
fn marks_as<F: marks::Reader>(
    trace: &[u8],
    depth: u64,
    sites: u64,
    scratch: &mut [u64],
    marks: &mut [u8],
    rows: &mut [u64],
    answer: &mut [u64],
) -> u64
    ensures { ProfilesOf F.family Engine.marks trace.now depth sites
        (record { scratch = scratch.old; rows = rows.old; marks = marks.old })
        answer.old result
        (record { scratch = scratch.new; rows = rows.new; marks = marks.new })
        answer.new }
{
    if answer.len() < 4 {
        return refuse_room(trace.len(), depth as usize, sites as usize);
    }
    let found = marks::profile::<F>(trace, depth as usize, sites as usize, scratch, marks, rows);
    hand_over(found, answer)
}

// Profiles a trace with the marks engine: besides, the marks of the chosen chain go to `marks`.
#[unsafe(no_mangle)]
pub extern "C" fn nyo_marks(
    trace: &[u8],
    depth: u64,
    sites: u64,
    scratch: &mut [u64],
    marks: &mut [u8],
    rows: &mut [u64],
    answer: &mut [u64],
) -> u64
    ensures { Profiles Engine.marks trace.now depth sites
        (record { scratch = scratch.old; rows = rows.old; marks = marks.old })
        answer.old result
        (record { scratch = scratch.new; rows = rows.new; marks = marks.new })
        answer.new }
{
    marks_as::<line::Base>(trace, depth, sites, scratch, marks, rows, answer)
}

// The same of a trace of asyncs and finishes.
#[unsafe(no_mangle)]
pub extern "C" fn nyo_finish_marks(
    trace: &[u8],
    depth: u64,
    sites: u64,
    scratch: &mut [u64],
    marks: &mut [u8],
    rows: &mut [u64],
    answer: &mut [u64],
) -> u64
    ensures { ProfilesOf Finishes Engine.marks trace.now depth sites
        (record { scratch = scratch.old; rows = rows.old; marks = marks.old })
        answer.old result
        (record { scratch = scratch.new; rows = rows.new; marks = marks.new })
        answer.new }
{
    marks_as::<line::Finishes>(trace, depth, sites, scratch, marks, rows, answer)
}

// Profiles a trace whose costs are divided by the factors of their rows, with the table engine: as `nyo_tables`, or
// refusal 19 or 20.
#[unsafe(no_mangle)]
pub extern "C" fn nyo_forecast_tables(
    trace: &[u8],
    depth: u64,
    sites: u64,
    entries: &[Entry],
    scratch: &mut [u64],
    rows: &mut [u64],
    answer: &mut [u64],
) -> u64
    ensures { Forecasts Engine.tables entries.now trace.now depth sites
        (record { scratch = scratch.old; rows = rows.old; marks = [] }) answer.old result
        (record { scratch = scratch.new; rows = rows.new; marks = [] }) answer.new }
{
    if answer.len() < 4 {
        return refuse_room(trace.len(), depth as usize, sites as usize);
    }
    let found = tables::forecast(
        trace,
        depth as usize,
        sites as usize,
        entries,
        scratch,
        rows,
    );
    hand_over(found, answer)
}

// The same with the marks engine: as `nyo_marks`, or refusal 19 or 20.
#[unsafe(no_mangle)]
pub extern "C" fn nyo_forecast_marks(
    trace: &[u8],
    depth: u64,
    sites: u64,
    entries: &[Entry],
    scratch: &mut [u64],
    marks: &mut [u8],
    rows: &mut [u64],
    answer: &mut [u64],
) -> u64
    ensures { Forecasts Engine.marks entries.now trace.now depth sites
        (record { scratch = scratch.old; rows = rows.old; marks = marks.old })
        answer.old result
        (record { scratch = scratch.new; rows = rows.new; marks = marks.new })
        answer.new }
{
    if answer.len() < 4 {
        return refuse_room(trace.len(), depth as usize, sites as usize);
    }
    let found = marks::forecast(
        trace,
        depth as usize,
        sites as usize,
        entries,
        scratch,
        marks,
        rows,
    );
    hand_over(found, answer)
}

// Writes the rows of `count` sites as comma-separated text: it goes to `out`, or refusal 1, 4 or 16.
#[unsafe(no_mangle)]
pub extern "C" fn nyo_csv_write(
    rows: &[u64],
    count: u64,
    out: &mut [u8],
    written: &mut [u64],
) -> u64
    ensures { Tells
        (csv_write rows.now count (length out.old) (length written.old)) result
        out.old out.new written.old written.new }
{
    if 255 < count {
        return 1;
    }
    if written.len() < 1 {
        return 4;
    }
    tell(sheetout::write_sheet(rows, count as usize, out), written)
}

// Reads comma-separated text: its rows go to `rows` and how many sites they are to `count`, or refusal 4, 15 or 16.
#[unsafe(no_mangle)]
pub extern "C" fn nyo_csv_read(text: &[u8], rows: &mut [u64], count: &mut [u64]) -> u64
    ensures { Takes (csv_read text.now (length rows.old) (length count.old)) result
        rows.old rows.new count.old count.new }
{
    if count.len() < 1 {
        return 4;
    }
    tell(sheetin::read_sheet(text, rows), count)
}

// Writes the folded stacks of a trace, with the names of two lists: the text goes to `out`, or a refusal of the
// engines, 17 or 18.
#[unsafe(no_mangle)]
pub extern "C" fn nyo_folded<'a>(
    trace: &[u8],
    depth: u64,
    sites: u64,
    project: &'a [u8],
    stock: &'a [u8],
    scratch: &mut [u64],
    out: &mut [u8],
    written: &mut [u64],
) -> u64
    ensures { Folded
        (folded_stacks trace.now depth sites project.now stock.now
        (length scratch.old) (length out.old) (length written.old)) result
        out.old out.new written.old written.new
        scratch.old scratch.new }
{
    if written.len() < 1 {
        return refuse_room(trace.len(), depth as usize, sites as usize);
    }
    let lists = Lists { project, stock };
    let wrote = folded::write_folded(trace, depth as usize, sites as usize, lists, scratch, out);
    tell(wrote, written)
}

// Writes a trace without the lines that say nothing: its lines go to `out`, or a refusal of the engines or 21.
#[unsafe(no_mangle)]
pub extern "C" fn nyo_compact(
    trace: &[u8],
    depth: u64,
    sites: u64,
    out: &mut [u8],
    written: &mut [u64],
) -> u64
    ensures { Shelves trace.now depth sites result
        out.old out.new written.old written.new }
{
    if written.len() < 1 {
        return refuse_room(trace.len(), depth as usize, sites as usize);
    }
    let wrote = compact::compact(trace, depth as usize, sites as usize, out);
    tell(wrote, written)
}

// The case of an answer to why, from 0 to 3, and n or k.
fn numbers_of(why: Why) -> [u64; 2]
    ensures { result ≡ numbers_of why }
{
    match why {
        Why::NotCost => [0, 0],
        Why::OnChain => [1, 0],
        Why::Slack(n) => [2, n],
        Why::Tied(k) => [3, k as u64],
    }
}

// Hands an answer to why over: its two numbers go to `answer`, or a refusal's code is given.
fn hand_why(found: Result<Why, Refusal>, answer: &mut [u64]) -> u64
    requires { (line_of found ≤ 4294967295) × (2 ≤ length answer.old) }
    ensures { Gives (why_numbered found) result answer.old answer.new }
{
    match found {
        Ok(why) => {
            let numbers = numbers_of(why);
            put(&numbers, answer);
            0
        }
        Err(refusal) => code(refusal),
    }
}

// Why line `line` is not on the span: the case and n or k go to `answer`, the chain to show to `marks`, or a refusal of the
// engines or 23.
#[unsafe(no_mangle)]
pub extern "C" fn nyo_why(
    trace: &[u8],
    depth: u64,
    sites: u64,
    line: u32,
    scratch: &mut [u64],
    marks: &mut [u8],
    answer: &mut [u64],
) -> u64
    ensures { AsksWhy trace.now depth sites line scratch.old marks.old
        answer.old result scratch.new marks.new answer.new }
{
    if answer.len() < 2 {
        return refuse_room(trace.len(), depth as usize, sites as usize);
    }
    let found = why::ask(
        trace,
        depth as usize,
        sites as usize,
        line as usize,
        scratch,
        marks,
    );
    hand_why(found, answer)
}
