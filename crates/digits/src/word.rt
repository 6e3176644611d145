// Eight characters at once, as one number in which the first is the lowest byte.
ghost use Rattle.std.specs.Prelude.{◌≡◌};
ghost use Rattle.digits.specs.Digits.{all_digits};
ghost use Rattle.digits.specs.Word.{plainly, chars, eight_of, four_of};

// The eight characters lent, as one number; 0 where there are not eight.
pub fn eight(s: &[u8]) -> u64
    ensures { result ≡ eight_of s.now }
{
    match *s {
        [a, b, c, d, e, f, g, h] => u64::from_le_bytes([a, b, c, d, e, f, g, h]),
        _ => 0,
    }
}

// Four characters behind four digits 0, as one number; 0 where there are not four.
pub fn four(s: &[u8]) -> u64
    ensures { result ≡ four_of s.now }
{
    match *s {
        [a, b, c, d] => u64::from_le_bytes([b'0', b'0', b'0', b'0', a, b, c, d]),
        _ => 0,
    }
}

// Whether all eight characters of a word are digits. With the bit of 32 in each, capital letters are small ones.
pub fn all_digits(w: u64) -> bool
    ensures { result ≡ all_digits (chars w) }
{
    if (w & 0x8080_8080_8080_8080) != 0 {
        return false;
    }
    let figure = (w + 0x5050_5050_5050_5050) ^ (w + 0x4646_4646_4646_4646);
    let small = w | 0x2020_2020_2020_2020;
    let letter = (small + 0x1f1f_1f1f_1f1f_1f1f) ^ (small + 0x1919_1919_1919_1919);
    ((figure | letter) & 0x8080_8080_8080_8080) == 0x8080_8080_8080_8080
}

// The number that the eight characters of a word are, each taken for a digit without a look at whether it is one.
pub fn plainly(w: u64) -> u32
    ensures { result ≡ plainly (chars w) }
{
    let one = ((w & 0x0f0f_0f0f_0f0f_0f0f) + 9 * ((w & 0xc0c0_c0c0_c0c0_c0c0) >> 6))
        & 0x0f0f_0f0f_0f0f_0f0f;
    let two = (16 * one + (one >> 8)) & 0x00ff_00ff_00ff_00ff;
    let four = (256 * two + (two >> 16)) & 0x0000_ffff_0000_ffff;
    ((65536 * four + (four >> 32)) & 0xffff_ffff) as u32
}
