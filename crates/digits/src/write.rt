// Writing: a digit, and a number into a part of a fixed width.
ghost use Rattle.std.specs.Prelude.{◌≡◌, ◌%◌, length};
ghost use Rattle.digits.specs.Digits.{digit, digits};

// The character of n's last digit.
pub fn digit(n: u64) -> u8
    ensures { result ≡ digit (n % 16) }
{
    let d = (n % 16) as u8;
    if d < 10 { b'0' + d } else { b'a' + (d - 10) }
}

// Fills a part with the last digits of x, as many as the part has, most significant first.
pub fn put_digits(part: &mut [u8], x: u64)
    ensures { part.new ≡ digits (length part.old) x }
{
    let mut rest = x;
    for i in (0..part.len()).rev() {
        part[i] = digit(rest);
        rest /= 16;
    }
}
