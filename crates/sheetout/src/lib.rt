// Writes a profile's rows as comma-separated text: how long it is first, and then the text, piece behind piece.

#![tactic(auto)]

ghost use Rattle.std.specs.Prelude.{◌≡◌, ◌+◌, ◌*◌, ◌≤◌, length};
ghost use mathlib.Core.List.{flat_map};
ghost use Rattle.trace.specs.Rows.{columns};
ghost use Rattle.report.specs.Report.{first};
ghost use Rattle.report.specs.Room.{Writes, Lays};
ghost use Rattle.sheet.specs.Writing.{writing};
ghost use Rattle.sheetout.specs.Pieces.{header_text, number_text, record_text, row_text};

use line::Refusal;
use report::lay;
use sheet::NAMES;
use trace::COLUMNS;

// How many characters the numbers of a row take, each with its comma.
fn numbers_size(numbers: &[u64]) -> usize
    requires { length numbers.now ≡ columns }
    ensures { (result ≡ length (flat_map number_text numbers.now)) × (result ≤ 21 * columns) }
{
    let mut size = 0;
    for x in numbers {
        size += 1 + digits::decimal::size(*x);
    }
    size
}

// How many characters a row's record takes.
fn record_size(row: usize, numbers: &[u64]) -> usize
    requires { length numbers.now ≡ columns }
    ensures { (result ≡ length (record_text row numbers.now)) × (result ≤ 22 + 21 * columns) }
{
    let front = digits::decimal::size(row as u64);
    front + numbers_size(numbers) + 2
}

// How many characters the records of the first n rows take.
fn records_size(rows: &[u64], n: usize) -> usize
    requires { (n ≤ 256) × (columns * n ≤ length rows.now) }
    ensures { (result ≡ length (flat_map (row_text rows.now) (first n))) × (result ≤ (22 + 21 * columns) * 256) }
{
    let mut size = 0;
    for row in 0..n {
        size += record_size(row, &rows[COLUMNS * row..COLUMNS * row + COLUMNS]);
    }
    size
}

// The header: its names, CR LF.
fn put_header(out: &mut [u8], at: usize) -> usize
    requires { at + length header_text ≤ length out.old }
    ensures { Lays at header_text out.old result out.new }
{
    let names = NAMES;
    let end = lay::text(out, at, &names);
    lay::text(out, end, b"\r\n")
}

// A comma and a number.
fn put_number(out: &mut [u8], at: usize, x: u64) -> usize
    requires { at + length (number_text x) ≤ length out.old }
    ensures { Lays at (number_text x) out.old result out.new }
{
    let end = lay::character(out, at, b',');
    lay::decimal(out, end, x)
}

// The numbers of a row.
fn put_numbers(out: &mut [u8], at: usize, numbers: &[u64]) -> usize
    requires { at + length (flat_map number_text numbers.now) ≤ length out.old }
    ensures { Lays at (flat_map number_text numbers.now) out.old result out.new }
{
    let mut end = at;
    for x in numbers {
        end = put_number(out, end, *x);
    }
    end
}

// A record: the row, its numbers, CR LF.
fn put_record(out: &mut [u8], at: usize, row: usize, numbers: &[u64]) -> usize
    requires { at + length (record_text row numbers.now) ≤ length out.old }
    ensures { Lays at (record_text row numbers.now) out.old result out.new }
{
    let one = lay::decimal(out, at, row as u64);
    let two = put_numbers(out, one, numbers);
    lay::text(out, two, b"\r\n")
}

// The records of the first n rows.
fn put_records(out: &mut [u8], at: usize, rows: &[u64], n: usize) -> usize
    requires { (columns * n ≤ length rows.now)
        × (at + length (flat_map (row_text rows.now) (first n)) ≤ length out.old) }
    ensures { Lays at (flat_map (row_text rows.now) (first n)) out.old result out.new }
{
    let mut end = at;
    for row in 0..n {
        end = put_record(out, end, row, &rows[COLUMNS * row..COLUMNS * row + COLUMNS]);
    }
    end
}

// Writes the rows as a sheet, or refuses: 1 for a count above 255, 4 for rows too short, then 16 for output too short.
pub fn write_sheet(rows: &[u64], count: usize, out: &mut [u8]) -> Result<usize, Refusal>
    ensures { Writes (writing rows.now count (length out.old)) result out.old
        out.new }
{
    if 255 < count {
        return Err(trace::refused(1));
    }
    let n = count + 1;
    if rows.len() < COLUMNS * n {
        return Err(trace::refused(4));
    }
    let size = NAMES.len() + 2 + records_size(rows, n);
    if out.len() < size {
        return Err(trace::refused(16));
    }
    let at = put_header(out, 0);
    put_records(out, at, rows, n);
    Ok(size)
}
