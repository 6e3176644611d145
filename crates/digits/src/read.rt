// Reading: what a character is worth as a digit, and the number that a part's digits are.
ghost use Rattle.std.specs.Prelude.{◌≡◌};
ghost use Rattle.digits.specs.Read.{worth_of, reading};

// What a character is worth as a digit, and 16 where it is none. Both tests are of a difference that wraps, so they
// compile without a branch; with the bit of 32 a capital letter is the small one.
pub fn worth(c: u8) -> u8
    ensures { result ≡ worth_of c }
{
    let figure = c.wrapping_sub(b'0');
    if figure < 10 {
        return figure;
    }
    let letter = (c | 0x20).wrapping_sub(b'a');
    if letter < 6 {
        return 10 + letter;
    }
    16
}

// The number that up to eight digits are. Every character is looked at, whatever stood before it: no branch depends
// on one.
pub fn number(s: &[u8]) -> Option<u32>
    ensures { result ≡ reading s.now }
{
    if 8 < s.len() {
        return None;
    }
    let mut good = true;
    let mut value: u64 = 0;
    for &c in s {
        let w = worth(c);
        good = good & (w < 16);
        value = 16 * value + u64::from(w);
    }
    if good { Some(value as u32) } else { None }
}
