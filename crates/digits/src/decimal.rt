// Decimal numbers of 64 bits: how many figures one has, its figures into a part, and the number that figures are.
ghost use Rattle.std.specs.Prelude.{◌≡◌, length};
ghost use Rattle.digits.specs.Decimal.{size_of, figures, value_of, reading};

// How many figures x has: 1 to 20.
pub fn size(x: u64) -> usize
    ensures { result ≡ size_of x }
{
    x.checked_ilog10().map_or(1, |k| k as usize + 1)
}

// Fills a part with the last figures of x, as many as the part has, most significant first.
pub fn put_figures(part: &mut [u8], x: u64)
    ensures { part.new ≡ figures (length part.old) x }
{
    let mut rest = x;
    for i in (0..part.len()).rev() {
        part[i] = b'0' + (rest % 10) as u8;
        rest /= 10;
    }
}

// The number that figures are, whether the first is 0 or not; none past 64 bits.
fn value(s: &[u8]) -> Option<u64>
    ensures { result ≡ value_of s.now }
{
    let mut value: u64 = 0;
    for &c in s {
        if !c.is_ascii_digit() {
            return None;
        }
        value = value.checked_mul(10)?.checked_add(u64::from(c - b'0'))?;
    }
    Some(value)
}

// Reads a number: all characters figures, at least one, the first no 0 unless it is all, below 2^64.
pub fn number(s: &[u8]) -> Option<u64>
    ensures { result ≡ reading s.now }
{
    match s {
        [] | [b'0', _, ..] => None,
        _ => value(s),
    }
}
