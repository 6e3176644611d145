// Whether the header and the records of rows are there, and how many.
ghost use Rattle.std.specs.Prelude.{◌≡◌};
ghost use mathlib.Core.List.{flat_map};
ghost use Rattle.trace.specs.Rows.{columns};
ghost use Rattle.sheet.specs.Text.{column_names, follows};
ghost use Rattle.sheet.specs.Grammar.{next_names, next_numerals, header, record_of, records};
ghost use Rattle.sheetin.specs.Seen.{past, there, tally};

use crate::fields;
use sheet::NAMES;
use trace::COLUMNS;

// The names of the table, in which each stands behind a comma, and the line end.
fn names_end<'a>(s: &'a [u8], table: &[u8]) -> Option<&'a [u8]>
    requires { table.now ≡ flat_map follows column_names }
    ensures { past result ≡ next_names column_names s.now }
{
    let mut rest = s;
    let mut left = table;
    while let [_, names @ ..] = left {
        let (name, others) = names.split_at(fields::to_end(names));
        rest = fields::next_name(rest, name)?;
        left = others;
    }
    fields::line_end(rest)
}

// The header: its names in their order, and the line end.
pub(crate) fn header_end(s: &[u8]) -> Option<&[u8]>
    ensures { past result ≡ header s.now }
{
    let names = NAMES;
    let (first, others) = names.split_at(fields::to_end(&names));
    names_end(fields::name_at(s, first)?, others)
}

// The numbers of a row, each behind a comma, and the line end.
fn numerals_end(s: &[u8]) -> Option<&[u8]>
    ensures { past result ≡ there (next_numerals columns s.now) }
{
    let mut rest = s;
    for _ in 0..COLUMNS {
        (_, rest) = fields::next_numeral(rest)?;
    }
    fields::line_end(rest)
}

// The record of a row.
fn record_end(s: &[u8], row: usize) -> Option<&[u8]>
    ensures { past result ≡ there (record_of row s.now) }
{
    let (value, rest) = fields::numeral_at(s)?;
    if value != row as u64 {
        return None;
    }
    numerals_end(rest)
}

// The records behind the header, each looked at once: how many where all are good, else which of the text's records is
// not.
pub(crate) fn records_end(s: &[u8]) -> Result<usize, usize>
    ensures { result ≡ tally (records 256 0 s.now) }
{
    let mut rest = s;
    let mut row = 0;
    while !rest.is_empty() {
        if row == 256 {
            return Err(257);
        }
        rest = record_end(rest, row).ok_or(row + 1)?;
        row += 1;
    }
    Ok(row)
}
