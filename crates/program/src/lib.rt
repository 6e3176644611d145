// The report program as a function: what it prints for any input.

#![tactic(auto)]

ghost use Rattle.std.specs.Prelude.{◌+◌, ◌*◌, ◌≤◌, ◌≡◌, length};
ghost use Rattle.trace.specs.Rows.{columns};
ghost use Rattle.report.specs.Rows.{width};
ghost use Rattle.report.specs.Report.{full_text};
ghost use Rattle.report.specs.Refusal.{refusal_text};
ghost use Rattle.program.specs.Print.{Put, Printed};

// "with D = 32, M = 31"
const DEPTH: usize = 32;

const SITES: usize = 31;

// "Above 65,527 bytes it prints `ff0300000000`, before any other check."
const MOST: usize = 65527;

// The longest text: a line for the root's row and for each site's.
pub const ROOM: usize = report::WIDTH * (SITES + 1);

// Prints a refusal. The room is never too short.
fn print_refusal(number: u8, line: usize, out: &mut [u8]) -> usize
    requires { (line ≤ 65536) × (13 ≤ length out.old) }
    ensures { Put (refusal_text number line) result out.old out.new }
{
    report::write_refusal(number as u64, line as u64, out).unwrap()
}

// Prints the report of count sites. The room is never too short.
fn print_report(rows: &[u64], count: usize, out: &mut [u8]) -> usize
    requires { (count ≤ 31)
        × ((columns * (count + 1) ≤ length rows.now) × (width * (count + 1) ≤ length out.old)) }
    ensures { Put (full_text rows.now count) result out.old out.new }
{
    report::write_full_report(rows, count, out).unwrap()
}

// Prints what comes of an input to the front of the output, and answers how many characters that is.
pub fn print(input: &[u8], out: &mut [u8; ROOM]) -> usize
    ensures { Printed input.now result out.old out.new }
{
    if MOST < input.len() {
        return print_refusal(3, 0, out);
    }
    let mut scratch = [0u64; trace::SCRATCH * DEPTH * (SITES + 3)];
    let mut rows = [0u64; trace::COLUMNS * (SITES + 1)];
    match tables::profile::<line::Base>(input, DEPTH, SITES, &mut scratch, &mut rows) {
        Ok(profile) => print_report(&rows, profile.sites, out),
        Err(refusal) => print_refusal(refusal.number, refusal.line, out),
    }
}
