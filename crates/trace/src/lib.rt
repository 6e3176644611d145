// "Five numbers a row, in this order", and "two numbers at the end": how many, and which number of its row each is.

#![tactic(auto)]

ghost use Rattle.std.specs.Prelude.{◌≡◌};
ghost use Rattle.line.specs.Refusal.{refusal};

use line::Refusal;

pub const COLUMNS: usize = 7;

pub const CALLS: usize = 0;

pub const WORK: usize = 1;

pub const SPAN: usize = 2;

pub const LOCAL: usize = 3;

pub const ON_SPAN: usize = 4;

pub const ILOCAL: usize = 5;

pub const ION_SPAN: usize = 6;

// "the table engine's scratch becomes 7·D·(M+3)": how many numbers for each of D·(M+3).
pub const SCRATCH: usize = 7;

// What an engine answers of an accepted trace: total work, total span, number of sites and number of lines.
#[derive(Clone, Copy)]
pub struct Profile {
    pub work: u64,
    pub span: u64,
    pub sites: usize,
    pub lines: usize,
}

// The refusal of a check, which names no line.
pub fn refused(number: u8) -> Refusal
    ensures { result ≡ refusal number 0 }
{
    Refusal { number, line: 0 }
}
