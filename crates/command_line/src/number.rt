// Numbers among the words.
ghost use Rattle.std.specs.Prelude.{◌≡◌, IfSome};
ghost use Rattle.command_line.specs.Options.{IsWithin, number_in};

use decimals::number_of;

/// Which numbers may be given; both ends count.
#[derive(Clone, Copy)]
pub(crate) struct Range {
    pub(crate) least: u32,
    pub(crate) most: u32,
}

/// The number that the text is, if it is in the range.
pub(crate) fn number_in(range: Range, text: &str) -> Option<u32>
    ensures number { result ≡ number_in range text.now }
    ensures within { IfSome result (IsWithin range) }
{
    let number = number_of(text.as_bytes())?;
    if number < range.least as u64 || number > range.most as u64 {
        return None;
    }
    Some(number as u32)
}
