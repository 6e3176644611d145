// What stands at the front of a text, with the text behind it: a field, a name, a number, a comma before one, a line
// end.
ghost use Rattle.std.specs.Prelude.{◌≡◌, ◌≤◌, length};
ghost use Rattle.sheet.specs.Grammar.{before, ends_bare, field, separator, line_end, name, numeral, next_name, next_numeral};
ghost use Rattle.sheetin.specs.Seen.{parted, past, got};

// How many characters stand before the first comma or CR.
pub(crate) fn to_end(s: &[u8]) -> usize
    ensures { (result ≡ before ends_bare s.now) × (result ≤ length s.now) }
{
    s.iter()
        .position(|&c| c == b',' || c == b'\r')
        .unwrap_or(s.len())
}

// The field at the front of a text: its content, and the text behind the field.
fn field_at(s: &[u8]) -> Option<(&[u8], &[u8])>
    ensures { parted result ≡ field s.now }
{
    match s {
        [b'"', inside @ ..] => {
            let n = inside.iter().position(|&c| c == b'"')?;
            Some((&inside[..n], &inside[n + 1..]))
        }
        _ => Some(s.split_at(to_end(s))),
    }
}

// A comma.
fn comma_at(s: &[u8]) -> Option<&[u8]>
    ensures { past result ≡ separator s.now }
{
    s.strip_prefix(b",")
}

// CR LF, or the end of the text.
pub(crate) fn line_end(s: &[u8]) -> Option<&[u8]>
    ensures { past result ≡ line_end s.now }
{
    if s.is_empty() {
        return Some(s);
    }
    s.strip_prefix(b"\r\n")
}

// A field whose content is this name.
pub(crate) fn name_at<'a>(s: &'a [u8], n: &[u8]) -> Option<&'a [u8]>
    ensures { past result ≡ name n.now s.now }
{
    let (content, rest) = field_at(s)?;
    if content == n { Some(rest) } else { None }
}

// A comma, and a field whose content is this name.
pub(crate) fn next_name<'a>(s: &'a [u8], n: &[u8]) -> Option<&'a [u8]>
    ensures { past result ≡ next_name n.now s.now }
{
    name_at(comma_at(s)?, n)
}

// A field whose content is a decimal number. It stands outside its callers: inside, the loop over the figures would set
// what they answer at each figure.
#[inline(never)]
pub(crate) fn numeral_at(s: &[u8]) -> Option<(u64, &[u8])>
    ensures { got result ≡ numeral s.now }
{
    let (content, rest) = field_at(s)?;
    let value = digits::decimal::number(content)?;
    Some((value, rest))
}

// A comma, and a field whose content is a decimal number.
pub(crate) fn next_numeral(s: &[u8]) -> Option<(u64, &[u8])>
    ensures { got result ≡ next_numeral s.now }
{
    numeral_at(comma_at(s)?)
}
