// The numbers of records that are good, stored as rows.
ghost use Rattle.std.specs.Prelude.{◌≡◌, ◌*◌, ◌≤◌, length};
ghost use Rattle.trace.specs.Rows.{columns};
ghost use Rattle.sheet.specs.Grammar.{next_numerals};
ghost use Rattle.sheetin.specs.Seen.{filled, numbers_of, IsSheet, FillsRows};

use crate::fields;
use trace::COLUMNS;

// Stores the numbers at the front, each behind a comma, as many as the part has, and answers the text behind the line
// end.
fn fill_numerals<'a>(s: &'a [u8], part: &mut [u64]) -> Option<&'a [u8]>
    ensures { filled result part.new ≡ next_numerals (length part.old) s.now }
{
    let mut rest = s;
    for x in part.iter_mut() {
        (*x, rest) = fields::next_numeral(rest)?;
    }
    fields::line_end(rest)
}

// Stores the numbers of the record at the front, whichever row's it is, and answers the text behind it.
fn fill_record<'a>(s: &'a [u8], part: &mut [u64]) -> Option<&'a [u8]>
    ensures { filled result part.new ≡ numbers_of (length part.old) s.now }
{
    let (_, rest) = fields::numeral_at(s)?;
    fill_numerals(rest, part)
}

// Stores the numbers of n records, which are good.
pub(crate) fn fill_records(s: &[u8], n: usize, room: &mut [u64])
    requires { IsSheet s.now n × (columns * n ≤ length room.old) }
    ensures { FillsRows s.now n room.old room.new }
{
    let mut rest = s;
    for row in 0..n {
        let part = &mut room[COLUMNS * row..COLUMNS * row + COLUMNS];
        rest = fill_record(rest, part).unwrap();
    }
}
