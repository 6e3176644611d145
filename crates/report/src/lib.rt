// The report: a line for each row that is printed, and the line of a refusal.

#![tactic(auto)]

pub mod lay;

ghost use Rattle.std.specs.Prelude.{◌≡◌, ◌+◌, ◌*◌, ◌≤◌, ◌<◌, length};
ghost use mathlib.Core.List.{flat_map};
ghost use Rattle.digits.specs.Digits.{digits};
ghost use Rattle.report.specs.Room.{fitting, Writes, Lays};
ghost use Rattle.trace.specs.Rows.{columns};
ghost use Rattle.report.specs.Rows.{line_of, width};
ghost use Rattle.report.specs.Report.{report, full_report};
ghost use Rattle.report.specs.Pieces.{asked, piece, pieces, decided};
ghost use Rattle.report.specs.Refusal.{refusal_text, print_refusal};

use line::Refusal;
use trace::{CALLS, COLUMNS};

// A row's line: 4 digits, 16 for each number, and a line feed. "A report line, and the room for one, is 117 characters
// in both reports".
pub const WIDTH: usize = 4 + 16 * COLUMNS + 1;

// A row's line, which is built whole before it goes out: the form that the rules name.
#[derive(Clone, Copy)]
pub struct ReportLine {
    pub row: u16,
    pub chars: [u8; WIDTH],
}

// Fills a part with the sixteen digits of each number.
fn put_numbers(part: &mut [u8], numbers: &[u64])
    requires { length part.old ≡ 16 * length numbers.now }
    ensures { part.new ≡ flat_map (digits 16) numbers.now }
{
    for (k, x) in numbers.iter().enumerate() {
        digits::write::put_digits(&mut part[16 * k..16 * k + 16], *x);
    }
}

// The line of a row with these numbers.
fn report_line(row: u16, numbers: &[u64]) -> ReportLine
    requires { length numbers.now ≡ columns }
    ensures { (result.row ≡ row) × (result.chars ≡ line_of row numbers.now) }
{
    let mut chars = [b'\n'; WIDTH];
    digits::write::put_digits(&mut chars[0..4], row as u64);
    put_numbers(&mut chars[4..WIDTH - 1], numbers);
    ReportLine { row, chars }
}

// Copies all of `from` over `to`, which is as long. A loop, for `copy_from_slice` of a length that is not known asks for
// `memmove`, and the archive wants `memcpy` and `memset` alone.
pub(crate) fn copy(to: &mut [u8], from: &[u8])
    requires { length to.old ≡ length from.now }
    ensures { to.new ≡ from.now }
{
    for (i, c) in from.iter().enumerate() {
        to[i] = *c;
    }
}

// Writes a text to the front of the output, or refuses: 4 for output too short.
pub fn put_text(text: &[u8], out: &mut [u8]) -> Result<usize, Refusal>
    ensures { Writes (fitting 4 text.now (length out.old)) result out.old
        out.new }
{
    let n = text.len();
    if out.len() < n {
        return Err(trace::refused(4));
    }
    out[0..n].copy_from_slice(text);
    Ok(n)
}

// Whether a row is printed: row 0, a row with calls, and where idle rows are asked for every row.
fn is_printed(rows: &[u64], row: usize, idle: bool) -> bool
    requires { columns * (row + 1) ≤ length rows.now }
    ensures { result ≡ asked idle rows.now row }
{
    idle || row == 0 || 0 < rows[COLUMNS * row + CALLS]
}

// How many characters a row takes: those of a line where it is printed.
fn row_size(rows: &[u64], row: usize, idle: bool) -> usize
    requires { columns * (row + 1) ≤ length rows.now }
    ensures { (result ≡ length (piece idle rows.now row)) × (result ≤ width) }
{
    if is_printed(rows, row, idle) {
        WIDTH
    } else {
        0
    }
}

// How many characters the first n rows take.
fn rows_size(rows: &[u64], n: usize, idle: bool) -> usize
    requires { (n ≤ 256) × (columns * n ≤ length rows.now) }
    ensures { result ≡ length (pieces idle rows.now n) }
{
    let mut size = 0;
    for row in 0..n {
        size += row_size(rows, row, idle);
    }
    size
}

// A row's line, where the row is printed, is laid into the output at a place; the answer is the place behind it.
fn put_row(rows: &[u64], row: usize, idle: bool, out: &mut [u8], at: usize) -> usize
    requires row_bound { (row ≤ 255) × (columns * (row + 1) ≤ length rows.now) }
    requires room { at + length (piece idle rows.now row) ≤ length out.old }
    ensures { Lays at (piece idle rows.now row) out.old result out.new }
{
    if !is_printed(rows, row, idle) {
        return at;
    }
    let line = report_line(row as u16, &rows[COLUMNS * row..COLUMNS * row + COLUMNS]);
    let end = at + WIDTH;
    out[at..end].copy_from_slice(&line.chars);
    end
}

// Writes the lines of those of the first n rows that are printed to the front of the output, and answers how many
// characters they are.
fn put_rows(rows: &[u64], n: usize, idle: bool, out: &mut [u8]) -> usize
    requires n_bound { (n ≤ 256) × (columns * n ≤ length rows.now) }
    requires room { length (pieces idle rows.now n) ≤ length out.old }
    ensures { Lays 0 (pieces idle rows.now n) out.old result out.new }
{
    let mut end = 0;
    for row in 0..n {
        end = put_row(rows, row, idle, out, end);
    }
    end
}

// Writes a line for each row that is printed, or refuses: 1 for a count above 255, then 4 for rows or output too short.
fn write(rows: &[u64], count: usize, idle: bool, out: &mut [u8]) -> Result<usize, Refusal>
    ensures { Writes (decided idle rows.now count (length out.old)) result out.old
        out.new }
{
    if 255 < count {
        return Err(trace::refused(1));
    }
    let n = count + 1;
    if rows.len() < COLUMNS * n {
        return Err(trace::refused(4));
    }
    if out.len() < rows_size(rows, n, idle) {
        return Err(trace::refused(4));
    }
    Ok(put_rows(rows, n, idle, out))
}

// The report: a line for row 0 and for each row with calls above zero.
pub fn write_report(rows: &[u64], count: usize, out: &mut [u8]) -> Result<usize, Refusal>
    ensures { Writes (report rows.now count (length out.old)) result out.old
        out.new }
{
    write(rows, count, false, out)
}

// The full report: a line for the root's row and for each site's.
pub fn write_full_report(rows: &[u64], count: usize, out: &mut [u8]) -> Result<usize, Refusal>
    ensures { Writes (full_report rows.now count (length out.old)) result out.old
        out.new }
{
    write(rows, count, true, out)
}

// A refusal's line, built whole.
fn refusal_line(number: u64, line: u64) -> [u8; 13]
    ensures { result ≡ refusal_text number line }
{
    let mut chars = [b'\n'; 13];
    digits::write::put_digits(&mut chars[0..2], 255);
    digits::write::put_digits(&mut chars[2..4], number);
    digits::write::put_digits(&mut chars[4..12], line);
    chars
}

// Writes a refusal's line, or refuses: 1 where its number or line has no room in the digits, then 4 for output too short.
pub fn write_refusal(number: u64, line: u64, out: &mut [u8]) -> Result<usize, Refusal>
    ensures { Writes (print_refusal number line (length out.old)) result out.old
        out.new }
{
    if 255 < number {
        return Err(trace::refused(1));
    }
    if 4294967295 < line {
        return Err(trace::refused(1));
    }
    let chars = refusal_line(number, line);
    put_text(&chars, out)
}
