// Reads a profile's rows from comma-separated text: the whole text is checked first, and then the rows are filled in.

#![tactic(auto)]

pub mod check;
pub mod fields;
pub mod fill;

ghost use Rattle.std.specs.Prelude.{◌≡◌, length};
ghost use Rattle.line.specs.Refusal.{refusal};
ghost use Rattle.sheet.specs.Reading.{reading, Reads};

use line::Refusal;
use trace::COLUMNS;

// A record that is not good, in a refusal.
fn bad_record(which: usize) -> Refusal
    ensures { result ≡ refusal 15 which }
{
    Refusal {
        number: 15,
        line: which,
    }
}

// Reads a sheet into the room, or refuses: 15 for the first record that is not good, then 16 for room too short.
pub fn read_sheet(text: &[u8], room: &mut [u64]) -> Result<usize, Refusal>
    ensures { Reads (reading text.now (length room.old)) result room.old
        room.new }
{
    let records = check::header_end(text).ok_or(bad_record(0))?;
    if records.is_empty() {
        return Err(bad_record(1));
    }
    let n = check::records_end(records).map_err(bad_record)?;
    if room.len() < COLUMNS * n {
        return Err(trace::refused(16));
    }
    fill::fill_records(records, n, room);
    Ok(n - 1)
}
