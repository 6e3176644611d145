// The twelve traces of the rules through both engines, D = 4 and M = 2. A line for each engine: the trace's letter,
// its work, its span and the on-span numbers of rows 0, 1 and 2, four digits each; the marks engine's line goes on
// with a mark for each line of the trace.

#![tactic(auto)]

use line::Refusal;
use std::io;
use trace::Profile;

// D and M, and the row numbers that they ask for.
const DEPTH: usize = 4;

const SITES: usize = 2;

const ROWS: usize = trace::COLUMNS * (SITES + 1);

// The traces of the rules, by their letters.
const TRACES: [(&[u8], &[u8]); 12] = [
    (
        b"A ",
        b"0100010000000a00010005\n0100020000001400010009\n0500000000000000000000\n",
    ),
    (
        b"B ",
        b"0100010000000a00010005\n0100020000001400010009\n0600000000000500000000\n0600000000000300000000\n0500000000000000000000\n",
    ),
    (
        b"C ",
        b"0100010000000a00010005\n0100020000001400010009\n0300010000000000000000\n0600000000000400000000\n0500000000000000000000\n0600000000000400000000\n0500000000000000000000\n",
    ),
    (
        b"D ",
        b"0100010000000a00010005\n0100020000001400010009\n0300010000000000000000\n0600000000000400000000\n0500000000000000000000\n0600000000000500000000\n0500000000000000000000\n",
    ),
    (
        b"E ",
        b"0100010000000a00010005\n0100020000001400010009\n0300010000000000000000\n0600000000000400000000\n0500000000000000000000\n0400000000000000000000\n0600000000000400000000\n0500000000000000000000\n",
    ),
    (
        b"F ",
        b"0100010000000a00010005\n0100020000001400010009\n0200010000000000000000\n0600000000000400000000\n0500000000000000000000\n0600000000000400000000\n0500000000000000000000\n",
    ),
    (
        b"G ",
        b"0100010000000a00010005\n0100020000001400010009\n0600000000000100000000\n0300010000000000000000\n0600000000000a00000000\n0500000000000000000000\n0600000000000200000000\n0300020000000000000000\n0600000000000800000000\n0500000000000000000000\n0600000000000100000000\n0500000000000000000000\n",
    ),
    (
        b"H ",
        b"0100010000000a00010005\n0100020000001400010009\n0600000000000100000000\n0300010000000000000000\n0600000000000a00000000\n0500000000000000000000\n0600000000000200000000\n0300020000000000000000\n0600000000000900000000\n0500000000000000000000\n0600000000000100000000\n0500000000000000000000\n",
    ),
    (
        b"I ",
        b"0100010000000a00010005\n0100020000001400010009\n0200010000000000000000\n0300020000000000000000\n0600000000000700000000\n0500000000000000000000\n0600000000000100000000\n0500000000000000000000\n0600000000000200000000\n0500000000000000000000\n",
    ),
    (
        b"J ",
        b"0100010000000a00010005\n0100020000001400010009\n0300010000000000000000\n0600000000000300000000\n0500000000000000000000\n0200020000000000000000\n0600000000000100000000\n0400000000000000000000\n0600000000000100000000\n0500000000000000000000\n0500000000000000000000\n",
    ),
    (
        b"K ",
        b"0100010000000a00010005\n0100020000001400010009\n0200010000000000000000\n0600000000000100000000\n0200010000000000000000\n0600000000000200000000\n0500000000000000000000\n0500000000000000000000\n0500000000000000000000\n",
    ),
    (
        b"L ",
        b"0100010000000a00010005\n0100020000001400010009\n0300010000000000000000\n0300020000000000000000\n0600000000000600000000\n0500000000000000000000\n0600000000000100000000\n0500000000000000000000\n0600000000000200000000\n0400000000000000000000\n0600000000000100000000\n0500000000000000000000\n",
    ),
];

// Writes a space and a number as four digits.
fn print(rt: &impl Print, x: u64) -> io::Result<()> {
    let mut text = [b'0'; 4];
    digits::write::put_digits(&mut text, x);
    rt.write_all(b" ")?;
    rt.write_all(&text)
}

// Writes what an engine answered and the on-span column of three rows.
fn print_answer(
    rt: &impl Print,
    answer: Result<Profile, Refusal>,
    rows: &[u64; ROWS],
) -> io::Result<()> {
    match answer {
        Ok(profile) => {
            print(rt, profile.work)?;
            print(rt, profile.span)?;
            print(rt, rows[trace::ON_SPAN])?;
            print(rt, rows[trace::COLUMNS + trace::ON_SPAN])?;
            print(rt, rows[2 * trace::COLUMNS + trace::ON_SPAN])
        }
        Err(_) => rt.write_all(b" refused"),
    }
}

// A trace through the table engine.
fn by_tables(rt: &impl Print, text: &[u8]) -> io::Result<()> {
    let mut scratch = [7u64; trace::SCRATCH * DEPTH * (SITES + 3)];
    let mut rows = [7u64; ROWS];
    let answer = tables::profile::<line::Base>(text, DEPTH, SITES, &mut scratch, &mut rows);
    rt.write_all(b"tables")?;
    print_answer(rt, answer, &rows)?;
    rt.write_all(b"\n")
}

// A trace through the marks engine.
fn by_marks(rt: &impl Print, text: &[u8]) -> io::Result<()> {
    let mut scratch = [7u64; 8 * DEPTH];
    let mut marks = [7u8; 16];
    let mut rows = [7u64; ROWS];
    let answer = marks::profile::<line::Base>(
        text,
        DEPTH,
        SITES,
        &mut scratch,
        &mut marks,
        &mut rows,
    );
    rt.write_all(b"marks ")?;
    print_answer(rt, answer, &rows)?;
    print_marks(rt, &marks, text.len() / 23)?;
    rt.write_all(b"\n")
}

// Writes a space and the marks of so many lines.
fn print_marks(rt: &impl Print, marks: &[u8; 16], lines: usize) -> io::Result<()> {
    rt.write_all(b" ")?;
    for mark in marks.iter().take(lines) {
        print_mark(rt, *mark)?;
    }
    Ok(())
}

// Writes a mark as one digit.
fn print_mark(rt: &impl Print, mark: u8) -> io::Result<()> {
    let mut text = [b' '; 1];
    digits::write::put_digits(&mut text, mark as u64);
    rt.write_all(&text)
}

// A trace through both.
fn show(rt: &impl Print, name: &[u8], text: &[u8]) -> io::Result<()> {
    rt.write_all(name)?;
    by_tables(rt, text)?;
    rt.write_all(name)?;
    by_marks(rt, text)
}

fn main(rt: HostRuntime) -> io::Result<()> {
    for (name, text) in TRACES {
        show(&rt, name, text)?;
    }
    Ok(())
}
