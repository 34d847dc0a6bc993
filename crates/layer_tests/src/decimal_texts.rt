// Numbers read and written, with texts by hand.
use super::checks::is_so;
use decimals::{number_at, number_of, write_digits, write_wide_digits};
use std::test::Fail;

/// Texts, and the number that each is.
const NUMBERS: [(&str, Option<u64>); 9] = [
    ("0", Some(0)),
    ("18446744073709551615", Some(u64::MAX)),
    ("18446744073709551616", None),
    ("99999999999999999999", None),
    ("", None),
    ("01", None),
    ("00", None),
    ("+1", None),
    ("1 ", None),
];

/// Texts, the number that each begins with, and how many bytes stand behind it.
const BEGUN: [(&str, Option<(u64, usize)>); 5] = [
    ("120:3", Some((120, 2))),
    ("0 1", Some((0, 2))),
    ("7", Some((7, 0))),
    ("07", None),
    (":7", None),
];

/// The number at the begin of a text, and how many bytes stand behind it.
fn begun(text: &[u8]) -> Option<(u64, usize)> {
    let (number, rest) = number_at(text)?;
    Some((number, rest.len()))
}

#[test]
fn texts_are_numbers(_rt: HostRuntime) -> Result<(), Fail> {
    for (text, number) in &NUMBERS {
        is_so(text, number_of(text.as_bytes()) == *number)?;
    }
    for (text, number) in &BEGUN {
        is_so(text, begun(text.as_bytes()) == *number)?;
    }
    Ok(())
}

const TEXTS: [(u64, &str); 3] = [(0, "0"), (120, "120"), (u64::MAX, "18446744073709551615")];

const WIDE_TEXTS: [(u128, &str); 3] = [
    (0, "0"),
    (18_446_744_073_709_551_616, "18446744073709551616"),
    (u128::MAX, "340282366920938463463374607431768211455"),
];

fn is_text(number: u64, text: &str) -> Result<(), Fail> {
    let mut digits = [0; 20];
    let start = write_digits(number, &mut digits);
    is_so(text, &digits[start..] == text.as_bytes())
}

fn is_wide_text(number: u128, text: &str) -> Result<(), Fail> {
    let mut digits = [0; 39];
    let start = write_wide_digits(number, &mut digits);
    is_so(text, &digits[start..] == text.as_bytes())
}

#[test]
fn numbers_are_texts(_rt: HostRuntime) -> Result<(), Fail> {
    for (number, text) in &TEXTS {
        is_text(*number, text)?;
    }
    for (number, text) in &WIDE_TEXTS {
        is_wide_text(*number, text)?;
    }
    Ok(())
}
