// A trace line: its place, its frame, its reader and its writer.

#![tactic(auto)]

ghost use Rattle.std.specs.Prelude.{◌≡◌, ◌&&◌, nat_eq, ℕ, [], MatchOption};
ghost use Rattle.line.specs.Family.{Family, Base, Finishes};
ghost use Rattle.line.specs.Table.{only, value_only, table_of, fields_of};
ghost use Rattle.line.specs.Write.{chars, write_line_of};
ghost use Rattle.line.specs.Read.{tabled, read_line_of, read_at_of};
ghost use Rattle.line.specs.At.{whole_at, kind_in_of, site_in, value_in, kind_at_of, site_at, value_at};
ghost use Rattle.line.specs.Seeing.{glanced, around, is_bare, is_made, is_valued};

use digits::word;

// "kind (2 digits), site (4), value (8), file (4), column (4)": where each begins after the kind, and where the line
// feed stands.
const SITE: usize = 2;

const VALUE: usize = SITE + 4;

const FILE: usize = VALUE + 8;

const COLUMN: usize = FILE + 4;

const END: usize = COLUMN + 4;

// The characters of a line.
pub const LINE: usize = END + 1;

// "A site line carries its place: file, line and column."
#[derive(Clone, Copy)]
pub struct Place {
    pub file: u16,
    pub line: u32,
    pub column: u16,
}

// What a line says: the kinds of both tables with the fields that each uses.
#[derive(Clone, Copy)]
pub enum Frame {
    Site(u16, Place),
    Call(u16),
    Spawn(u16),
    Sync,
    Return,
    Cost(u32),
    Instructions(u32),
    Async(u16),
    Finish,
}

// The five fields of a line: "kind (2 digits), site (4), value (8), file (4), column (4)".
#[derive(Clone, Copy)]
pub struct Fields {
    pub kind: u32,
    pub site: u16,
    pub value: u32,
    pub file: u16,
    pub column: u16,
}

// "Unused fields are zero."
const BLANK: Fields = Fields {
    kind: 0,
    site: 0,
    value: 0,
    file: 0,
    column: 0,
};

impl Frame {
    // The five fields of a frame.
    pub fn fields(self) -> Fields
        ensures { result ≡ fields_of self }
    {
        match self {
            Frame::Site(site, place) => Fields {
                kind: 1,
                site,
                value: place.line,
                file: place.file,
                column: place.column,
            },
            Frame::Call(site) => Fields {
                kind: 2,
                site,
                ..BLANK
            },
            Frame::Spawn(site) => Fields {
                kind: 3,
                site,
                ..BLANK
            },
            Frame::Sync => Fields { kind: 4, ..BLANK },
            Frame::Return => Fields { kind: 5, ..BLANK },
            Frame::Cost(value) => Fields {
                kind: 6,
                value,
                ..BLANK
            },
            Frame::Instructions(value) => Fields {
                kind: 7,
                value,
                ..BLANK
            },
            Frame::Async(site) => Fields {
                kind: 0x12,
                site,
                ..BLANK
            },
            Frame::Finish => Fields {
                kind: 0x13,
                ..BLANK
            },
        }
    }
}

impl Fields {
    // Whether no field but the kind and the site is used.
    fn site_only(self) -> bool
        ensures { result ≡ (nat_eq self.value 0 && nat_eq self.file 0 && nat_eq self.column 0) }
    {
        (self.value == 0) & (self.file == 0) & (self.column == 0)
    }

    // Whether no field but the kind is.
    fn unused(self) -> bool
        ensures { result ≡ (nat_eq self.site 0 && nat_eq self.value 0 && nat_eq self.file 0 && nat_eq self.column 0) }
    {
        (self.site == 0) & (self.value == 0) & (self.file == 0) & (self.column == 0)
    }

    // Whether the fields are as a cost and its instructions have them: a value of at least 1 and no other field.
    fn value_only(self) -> bool
        ensures { result ≡ value_only self.site self.value self.file self.column }
    {
        (self.site == 0) & (1 <= self.value) & (self.file == 0) & (self.column == 0)
    }
}

// A line that reads: its number and what it says.
#[derive(Clone, Copy)]
pub struct Line {
    pub number: usize,
    pub frame: Frame,
}

// A refusal: its number, by which alone the rules and the C interface know it, and the line, record or row that it names.
#[derive(Clone, Copy, Debug, PartialEq, Eq)]
pub struct Refusal {
    pub number: u8,
    pub line: usize,
}

// Which runtime wrote a trace: document 01's, which spawns and syncs, or the one of asyncs and finishes. A type for
// each, so that the code of one looks at no other.
pub trait Family {
    ghost family: { Family };

    // The frame that five fields are by the family's table, else refusal 6.
    fn framed(x: Fields, n: usize) -> Result<Line, Refusal>
        ensures { result ≡ tabled (table_of family x) n };

    // What is seen of a line's 23 characters.
    fn glance_whole(s: &[u8; LINE]) -> Option<Frame>
        ensures { (n : ℕ) → result ≡ glanced (read_line_of family s.now n) };

    // The kind in a line's 23 characters, without a look at the rest of them.
    fn kind_of(s: &[u8; LINE]) -> u8
        ensures { result ≡ kind_in_of family s.now };
}

// Document 01's family.
#[derive(Clone, Copy)]
pub struct Base;

// The finish family.
#[derive(Clone, Copy)]
pub struct Finishes;

impl Family for Base {
    ghost family = { Base };

    // Inlined: the writer knows the kind, so that its look into the table is one test of the fields.
    #[inline(always)]
    fn framed(x: Fields, n: usize) -> Result<Line, Refusal> {
        match x.kind {
            1 => listed(
                (1 <= x.value) & (1 <= x.file) & (1 <= x.column),
                Frame::Site(
                    x.site,
                    Place {
                        file: x.file,
                        line: x.value,
                        column: x.column,
                    },
                ),
                n,
            ),
            2 => listed(x.site_only(), Frame::Call(x.site), n),
            3 => listed(x.site_only(), Frame::Spawn(x.site), n),
            4 => listed(x.unused(), Frame::Sync, n),
            5 => listed(x.unused(), Frame::Return, n),
            6 => listed(x.value_only(), Frame::Cost(x.value), n),
            7 => listed(x.value_only(), Frame::Instructions(x.value), n),
            _ => Err(Refusal { number: 6, line: n }),
        }
    }

    fn glance_whole(s: &[u8; LINE]) -> Option<Frame> {
        match s[1] {
            b'6' => valued(s).then_some(Frame::Cost(value_of(s))),
            b'5' => bare(s, b'0').then_some(Frame::Return),
            b'4' => bare(s, b'0').then_some(Frame::Sync),
            b'3' => made(s, b'0').then_some(Frame::Spawn(site_of(s))),
            b'2' => made(s, b'0').then_some(Frame::Call(site_of(s))),
            b'7' => valued(s).then_some(Frame::Instructions(value_of(s))),
            _ => None,
        }
    }

    // By the second digit alone.
    fn kind_of(s: &[u8; LINE]) -> u8 {
        s[1] % 16
    }
}

impl Family for Finishes {
    ghost family = { Finishes };

    #[inline(always)]
    fn framed(x: Fields, n: usize) -> Result<Line, Refusal> {
        match x.kind {
            3 | 4 => Err(Refusal { number: 6, line: n }),
            0x12 => listed(x.site_only(), Frame::Async(x.site), n),
            0x13 => listed(x.unused(), Frame::Finish, n),
            _ => Base::framed(x, n),
        }
    }

    // The kinds that both families have stand in both: to hand them on to `Base` is no shorter.
    fn glance_whole(s: &[u8; LINE]) -> Option<Frame> {
        match s[1] {
            b'6' => valued(s).then_some(Frame::Cost(value_of(s))),
            b'5' => bare(s, b'0').then_some(Frame::Return),
            b'3' => bare(s, b'1').then_some(Frame::Finish),
            b'2' => {
                if s[0] == b'1' {
                    return made(s, b'1').then_some(Frame::Async(site_of(s)));
                }
                made(s, b'0').then_some(Frame::Call(site_of(s)))
            }
            b'7' => valued(s).then_some(Frame::Instructions(value_of(s))),
            _ => None,
        }
    }

    // By both digits.
    fn kind_of(s: &[u8; LINE]) -> u8 {
        16 * (s[0] % 16) + s[1] % 16
    }
}

// The frame where its fields are as the table has them, else refusal 6.
fn listed(fit: bool, frame: Frame, n: usize) -> Result<Line, Refusal>
    ensures { result ≡ tabled (only fit frame) n }
{
    fit.then_some(Line { number: n, frame })
        .ok_or(Refusal { number: 6, line: n })
}

// What 23 characters are as line n. Every digit is decoded before the one test of them all.
fn read_whole<F: Family>(s: &[u8; LINE], n: usize) -> Result<Line, Refusal>
    ensures { result ≡ read_line_of F.family s.now n }
{
    let kind = digits::read::number(&s[0..SITE]);
    let site = digits::read::number(&s[SITE..VALUE]);
    let value = digits::read::number(&s[VALUE..FILE]);
    let file = digits::read::number(&s[FILE..COLUMN]);
    let column = digits::read::number(&s[COLUMN..END]);
    match (kind, site, value, file, column, s[END]) {
        (Some(kind), Some(site), Some(value), Some(file), Some(column), b'\n') => {
            let fields = Fields {
                kind,
                site: site as u16,
                value,
                file: file as u16,
                column: column as u16,
            };
            F::framed(fields, n)
        }
        _ => Err(Refusal { number: 5, line: n }),
    }
}

// Refusal 2: the characters lent are not as many as a line has.
const NO_LINE: Refusal = Refusal { number: 2, line: 0 };

// The line reader: the frame that the 23 characters lent are, or refusal 2, 5 or 6 with line 0.
pub fn read_line<F: Family>(s: &[u8]) -> Result<Line, Refusal>
    ensures { result ≡ read_line_of F.family s.now 0 }
{
    read_whole::<F>(s.as_array::<LINE>().ok_or(NO_LINE)?, 0)
}

// Line n of a text, where it is whole: the one place that cuts a line out of a text.
fn line_at(text: &[u8], n: usize) -> Option<&[u8; LINE]>
    ensures { MatchOption result (whole_at text.now n ≡ []) (λ s. s.now ≡ whole_at text.now n) }
{
    let (lines, _) = text.as_chunks::<LINE>();
    lines.get(n)
}

// Line n of a text, read; refusal 2 where the text ends before it does.
pub fn read_at<F: Family>(text: &[u8], n: usize) -> Result<Line, Refusal>
    ensures { result ≡ read_at_of F.family text.now n }
{
    read_whole::<F>(line_at(text, n).ok_or(NO_LINE)?, n)
}

// Eight digits 0, or four behind four, as one number.
const ZEROS: u64 = 0x3030_3030_3030_3030;

// The site of a line, each character taken for a digit.
fn site_of(s: &[u8; LINE]) -> u16
    ensures { result ≡ site_in s.now }
{
    word::plainly(word::four(&s[SITE..VALUE])) as u16
}

// Its value.
fn value_of(s: &[u8; LINE]) -> u32
    ensures { result ≡ value_in s.now }
{
    word::plainly(word::eight(&s[VALUE..FILE]))
}

// Whether a line has what every kind but a site line has around its site and its value: the kind's first digit, no file
// and no column, and a line feed.
fn around(s: &[u8; LINE], first: u8) -> bool
    ensures { result ≡ around first s.now }
{
    let rest = word::eight(&s[FILE..END]) == ZEROS;
    (s[0] == first) & rest & (s[END] == b'\n')
}

// Whether a line is right for a sync, a return or a finish, but for the kind's second digit: no site and no value.
fn bare(s: &[u8; LINE], first: u8) -> bool
    ensures { result ≡ is_bare first s.now }
{
    let site = word::four(&s[SITE..VALUE]) == ZEROS;
    let value = word::eight(&s[VALUE..FILE]) == ZEROS;
    around(s, first) & site & value
}

// For a call, a spawn or an async: a site and no value.
fn made(s: &[u8; LINE], first: u8) -> bool
    ensures { result ≡ is_made first s.now }
{
    let site = word::all_digits(word::four(&s[SITE..VALUE]));
    let value = word::eight(&s[VALUE..FILE]) == ZEROS;
    around(s, first) & site & value
}

// For a cost or its instructions: no site, and a value of at least 1.
fn valued(s: &[u8; LINE]) -> bool
    ensures { result ≡ is_valued s.now }
{
    let site = word::four(&s[SITE..VALUE]) == ZEROS;
    let none = word::eight(&s[VALUE..FILE]) == ZEROS;
    let value = word::all_digits(word::eight(&s[VALUE..FILE]));
    around(s, b'0') & site & value & !none
}

// What is seen of line n of a text at a glance: its frame, or that it has to be read whole, as a site line and a faulty
// one do. It reads eight characters at a time, and so costs less than reading the line.
pub fn glance<F: Family>(text: &[u8], n: usize) -> Option<Frame>
    ensures { result ≡ glanced (read_at_of F.family text.now n) }
{
    F::glance_whole(line_at(text, n)?)
}

// The kind of line n, without a look at the rest of it: for lines that are known to be accepted. A number, by which the
// readers choose: with an enum of kinds, made of it, the engines took 5 to 8 % longer and the compactor 13 %.
pub fn kind_at<F: Family>(text: &[u8], n: usize) -> u8
    ensures { result ≡ kind_at_of F.family text.now n }
{
    line_at(text, n).map_or(0, |s| F::kind_of(s))
}

// The site of line n.
pub fn site_at(text: &[u8], n: usize) -> u16
    ensures { result ≡ site_at text.now n }
{
    line_at(text, n).map_or(0, site_of)
}

// The value of line n.
pub fn value_at(text: &[u8], n: usize) -> u32
    ensures { result ≡ value_at text.now n }
{
    line_at(text, n).map_or(0, value_of)
}

// The characters of five fields.
#[inline(always)]
fn chars_of(x: Fields) -> [u8; LINE]
    ensures { result ≡ chars x }
{
    let mut chars = [b'\n'; LINE];
    digits::write::put_digits(&mut chars[0..SITE], u64::from(x.kind));
    digits::write::put_digits(&mut chars[SITE..VALUE], u64::from(x.site));
    digits::write::put_digits(&mut chars[VALUE..FILE], u64::from(x.value));
    digits::write::put_digits(&mut chars[FILE..COLUMN], u64::from(x.file));
    digits::write::put_digits(&mut chars[COLUMN..END], u64::from(x.column));
    chars
}

// The line writer: a frame's 23 characters, or refusal 6 with line 0 where a field breaks the family's table. Inlined: the
// compactor knows a line's kind, so that most of its characters are known beforehand.
#[inline(always)]
pub fn write_line<F: Family>(f: Frame) -> Result<[u8; LINE], Refusal>
    ensures { result ≡ write_line_of F.family f }
{
    let fields = f.fields();
    F::framed(fields, 0)?;
    Ok(chars_of(fields))
}
