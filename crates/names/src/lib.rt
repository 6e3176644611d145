// The names of rows, from two lent texts with one name a line: the project's list and the stock list.

#![tactic(auto)]

ghost use Rattle.std.specs.Prelude.{◌≡◌};
ghost use Rattle.names.specs.Names.{or_else, name_char, is_name, first_bad};
ghost use Rattle.names.specs.Places.{part, end_of, next_of};

// Where the line that begins at a place ends: at its line feed or at the end of the text.
pub fn end(text: &[u8], from: usize) -> usize
    ensures { result ≡ end_of text.now from }
{
    match text.get(from..) {
        Some(rest) => from + rest.iter().position(|c| *c == b'\n').unwrap_or(rest.len()),
        None => from,
    }
}

// Where the line behind it begins: behind the line feed at `end`, if there is one.
pub fn next(text: &[u8], end: usize) -> usize
    ensures { result ≡ next_of text.now end }
{
    if end < text.len() { end + 1 } else { end }
}

// The part of a text from a place up to another, as far as the text has it.
fn part(text: &[u8], from: usize, end: usize) -> &[u8]
    ensures { result.now ≡ part text.now from end }
{
    text.get(from..end.min(text.len())).unwrap_or(&[])
}

// Whether a character may stand in a name.
fn name_char(c: u8) -> bool
    ensures { result ≡ name_char c }
{
    (33..=126).contains(&c) && c != b';'
}

// Whether a text is a name.
pub fn is_name(text: &[u8]) -> bool
    ensures { result ≡ is_name text.now }
{
    !text.is_empty() && text.iter().all(|c| name_char(*c))
}

// The two lists: the project's own, and the stock list.
#[derive(Clone, Copy)]
pub struct Lists<'a> {
    pub project: &'a [u8],
    pub stock: &'a [u8],
}

// A place in either list, where the lines of a row begin or where they end.
#[derive(Clone, Copy)]
pub struct Places {
    pub project: usize,
    pub stock: usize,
}

impl<'a> Lists<'a> {
    // "The name shown is a part of the project's list, or of the stock list": the first of two parts, one of each
    // list, or the second where the first is empty.
    pub fn either(self, from: Places, ends: Places) -> &'a [u8]
        ensures { result.now ≡ or_else
            (part self.entry.project.now from.project ends.project)
            (part self.entry.stock.now from.stock ends.stock) }
    {
        let own = part(self.project, from.project, ends.project);
        if own.is_empty() {
            part(self.stock, from.stock, ends.stock)
        } else {
            own
        }
    }

    // Where the lines that begin at these places end.
    pub fn ends(self, from: Places) -> Places
        ensures project { result.project ≡ end_of self.entry.project.now from.project }
        ensures stock { result.stock ≡ end_of self.entry.stock.now from.stock }
    {
        Places {
            project: end(self.project, from.project),
            stock: end(self.stock, from.stock),
        }
    }

    // Where the lines behind them begin.
    pub fn nexts(self, ends: Places) -> Places
        ensures project { result.project ≡ next_of self.entry.project.now ends.project }
        ensures stock { result.stock ≡ next_of self.entry.stock.now ends.stock }
    {
        Places {
            project: next(self.project, ends.project),
            stock: next(self.stock, ends.stock),
        }
    }

    // The first of the rows below `count` whose shown name is bad or missing from both lists; `count` where none is.
    pub fn first_bad(self, count: usize) -> usize
        ensures { result ≡ first_bad self.entry.project.now self.entry.stock.now count }
    {
        let mut from = Places {
            project: 0,
            stock: 0,
        };
        for row in 0..count {
            let ends = self.ends(from);
            if !is_name(self.either(from, ends)) {
                return row;
            }
            from = self.nexts(ends);
        }
        count
    }
}
