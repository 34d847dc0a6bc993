// Numbers that are written, from the last digit to the first.
ghost use Rattle.std.specs.Prelude.{◌≡◌, ◌≤◌, decimal, drop};

/// Writes the digits of a number at the end of the array, and answers where they begin.
pub fn write_digits(n: u64, digits: &mut [u8; 20]) -> usize
    ensures within { result ≤ 20 }
    ensures digits { drop result digits.new ≡ decimal n }
{
    let mut rest = n;
    let mut start = 20;
    loop {
        start -= 1;
        digits[start] = b'0' + (rest % 10) as u8;
        rest /= 10;
        if rest == 0 {
            return start;
        }
    }
}

/// Writes the digits of a number of up to 128 bits at the end of the array, and answers where they begin.
pub fn write_wide_digits(n: u128, digits: &mut [u8; 39]) -> usize
    ensures within { result ≤ 39 }
    ensures digits { drop result digits.new ≡ decimal n }
{
    let mut left = n;
    let mut start = 39;
    loop {
        start -= 1;
        digits[start] = b'0' + (left % 10) as u8;
        left /= 10;
        if left == 0 {
            return start;
        }
    }
}
