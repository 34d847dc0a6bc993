// Numbers at a place among bytes, read in one pass. What isn't plainly a number is left to the reader of any line.
ghost use Rattle.std.specs.Prelude.{◌≡◌, ◌+◌, ◌<◌, ◌≤◌, ℕ, IfSome, length};
ghost use Rattle.script_grammar.specs.Front.{AreDigits, IsDigitAt, IsIdAt, IsNumberAt};

use crate::read_op::IDS;

/// With one digit more, a number below has its value below 2^64.
const ROOM: u64 = 1_000_000_000_000_000_000;

/// The digit at this place, or a number above 9 where there is none.
pub(crate) fn digit_at(bytes: &[u8], at: usize) -> u64
    requires { at < length bytes.now }
    ensures { result < 10 → IsDigitAt bytes.now at result }
{
    u64::from(bytes[at]).wrapping_sub(48)
}

/// The number of the digits so far and of those from this place on, and where they end.
fn digits_from(bytes: &[u8], from: usize, so_far: u64) -> Option<(u64, usize)>
    requires room { from + 16 ≤ length bytes.now }
    ensures digits { IfSome result (λ x. (start : ℕ) → AreDigits bytes.now start from so_far
        → AreDigits bytes.now start x.1 x.0) }
    ensures near { IfSome result (λ x. x.1 < from + 16) }
{
    let mut value = so_far;
    for at in from..from + 16 {
        let digit = digit_at(bytes, at);
        if digit > 9 {
            return Some((value, at));
        }
        if value >= ROOM {
            return None;
        }
        value = value * 10 + digit;
    }
    None
}

/// The number at this place, and where it ends.
pub(crate) fn number_from(bytes: &[u8], start: usize) -> Option<(u64, usize)>
    requires room { start + 20 ≤ length bytes.now }
    ensures { IfSome result (λ x. IsNumberAt bytes.now start x.0 x.1) }
{
    let first = digit_at(bytes, start);
    if first > 9 {
        return None;
    }
    let second = digit_at(bytes, start + 1);
    if second > 9 {
        return Some((first, start + 1));
    }
    if first == 0 {
        return None;
    }
    let two = first * 10 + second;
    let third = digit_at(bytes, start + 2);
    if third > 9 {
        return Some((two, start + 2));
    }
    let three = two * 10 + third;
    let fourth = digit_at(bytes, start + 3);
    if fourth > 9 {
        return Some((three, start + 3));
    }
    let (value, end) = digits_from(bytes, start + 4, three * 10 + fourth)?;
    Some((value, end))
}

/// The id of a storage of several digits, and the place behind the space that ends it.
fn long_id_from(bytes: &[u8], start: usize) -> Option<(u8, usize)>
    requires room { start + 20 ≤ length bytes.now }
    ensures { IfSome result (λ x. IsIdAt bytes.now start x.0 x.1) }
{
    let first = digit_at(bytes, start);
    if first == 0 || first > 9 {
        return None;
    }
    let (id, end) = digits_from(bytes, start + 1, first)?;
    if id >= IDS || bytes[end] != b' ' {
        return None;
    }
    Some((id as u8, end + 1))
}

/// The id of a storage at this place, and the place behind the space that ends it.
pub(crate) fn id_from(bytes: &[u8], start: usize) -> Option<(u8, usize)>
    requires room { start + 20 ≤ length bytes.now }
    ensures { IfSome result (λ x. IsIdAt bytes.now start x.0 x.1) }
{
    let digit = digit_at(bytes, start);
    if digit > 9 || bytes[start + 1] != b' ' {
        return long_id_from(bytes, start);
    }
    Some((digit as u8, start + 2))
}
