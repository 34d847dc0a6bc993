// Numbers that are read.
ghost use Rattle.std.specs.Prelude.{◌≡◌, ◌↔◌, ◌<◌, ◌≤◌, ◌^◌, ℕ, decimal, length, option_map};
ghost use Rattle.std.specs.List.{list_all};
ghost use Rattle.std.specs.Char.{is_ascii_digit};
ghost use Rattle.std.specs.Str.Parse.{AllDigits};
ghost use Rattle.decimals.specs.Numbers.{digits_len, digits_number, number_at, number_of, value_of};

/// The number that the bytes spell.
#[tactic(auto, unfolding(crate::specs::Numbers::number_of))]
pub fn number_of(bytes: &[u8]) -> Option<u64>
    ensures value { result ≡ number_of bytes.now }
    ensures exact { (n : ℕ) → n < 2 ^ 64 → (result ≡ Some n) ↔ (bytes.now ≡ decimal n) }
{
    if are_digits(bytes) {
        digits_number(bytes)
    } else {
        None
    }
}

/// The number at the front, with as many digits as stand there, and what stands behind it.
#[tactic(auto, unfolding(crate::specs::Numbers::number_at))]
pub fn number_at(bytes: &[u8]) -> Option<(u64, &[u8])>
    ensures front { option_map (λ x. (x.0, x.1.now)) result ≡ number_at bytes.now }
{
    let (digits, rest) = bytes.split_at(digits_len(bytes));
    Some((digits_number(digits)?, rest))
}

fn are_digits(bytes: &[u8]) -> bool
    ensures { result ≡ list_all is_ascii_digit bytes.now }
{
    bytes.iter().all(|byte| byte.is_ascii_digit())
}

fn digits_len(bytes: &[u8]) -> usize
    ensures value { result ≡ digits_len bytes.now }
    ensures within { result ≤ length bytes.now }
{
    bytes
        .iter()
        .take_while(|byte| byte.is_ascii_digit())
        .count()
}

/// The number that the digits spell: none has a zero before other digits.
#[tactic(auto, unfolding(crate::specs::Numbers::digits_number))]
fn digits_number(digits: &[u8]) -> Option<u64>
    requires { AllDigits 10 digits.now }
    ensures { result ≡ digits_number digits.now }
{
    match digits {
        [] | [b'0', _, ..] => None,
        _ => value_of(digits),
    }
}

/// The value of the digits, if it is below 2^64.
fn value_of(digits: &[u8]) -> Option<u64>
    requires { AllDigits 10 digits.now }
    ensures { result ≡ value_of digits.now }
{
    let mut value: u64 = 0;
    for digit in digits {
        value = value
            .checked_mul(10)?
            .checked_add(u64::from(*digit - b'0'))?;
    }
    Some(value)
}
