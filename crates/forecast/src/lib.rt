// Forecast entries: what a caller asks for, whether it may be asked, and what a cost line then weighs.

#![tactic(auto)]

ghost use Rattle.std.specs.Prelude.{◌≡◌, ◌<◌, length, get_or};
ghost use Rattle.trace.specs.Answer.{passing};
ghost use Rattle.forecast.specs.Rewritten.{divided};
ghost use Rattle.forecast.specs.Asked.{ascending, all_declared, bad_factor, asked};
ghost use Rattle.forecast.specs.Factors.{factor_table};

use line::Refusal;

// "each a row number and a factor"
#[repr(C)]
#[derive(Clone, Copy)]
pub struct Entry {
    pub row: u64,
    pub factor: u64,
}

// The thin lookup in the lent slice of entries. The rules name this form.
fn entry_at(entries: &[Entry], i: usize) -> Entry
    requires { i < length entries.now }
    ensures { (none : Entry) → result ≡ get_or entries.now i none }
{
    entries[i]
}

// "rows strictly ascending".
fn ascending(entries: &[Entry]) -> bool
    ensures { result ≡ ascending entries.now }
{
    entries.is_sorted_by(|a, b| a.row < b.row)
}

// Whether each entry names the root or one of the sites.
fn declared(entries: &[Entry], sites: usize) -> bool
    ensures { result ≡ all_declared sites entries.now }
{
    entries.iter().all(|entry| entry.row <= sites as u64)
}

// Whether a factor is outside its range.
fn out_of_range(entries: &[Entry]) -> bool
    ensures { result ≡ bad_factor entries.now }
{
    entries
        .iter()
        .any(|entry| !(2..=1000).contains(&entry.factor))
}

// Whether the entries may be asked where the trace has so many sites, else refusal 19 or 20.
pub fn check(entries: &[Entry], sites: usize) -> Result<(), Refusal>
    ensures { result ≡ passing (asked sites entries.now) }
{
    if 16 < entries.len() || !ascending(entries) || !declared(entries, sites) {
        return Err(trace::refused(19));
    }
    if out_of_range(entries) {
        return Err(trace::refused(20));
    }
    Ok(())
}

// The factor of every row from 0 to 255, 1 where no entry names it; the first of two that name a row decides.
pub fn factors(entries: &[Entry]) -> [u64; 256]
    ensures { result ≡ factor_table entries.now }
{
    let mut table = [1u64; 256];
    for i in (0..entries.len()).rev() {
        let entry = entry_at(entries, i);
        if entry.row < 256 {
            table[entry.row as usize] = entry.factor;
        }
    }
    table
}

// What a cost of v weighs in a row with this factor: "divided by its factor and rounded up". A factor of 0, which no
// entry may have, gives 0. 32 bits are divided sooner than 64.
pub fn share(v: u64, factor: u64) -> u64
    ensures { result ≡ divided v factor }
{
    if factor == 0 {
        return 0;
    }
    if v < 4294967296 && factor < 4294967296 {
        return (v as u32).div_ceil(factor as u32) as u64;
    }
    v.div_ceil(factor)
}
