// Cutting bytes in two.
ghost use Rattle.std.specs.Prelude.{◌≡◌, ◌==◌, position, ◌<◌, [], ◌∷◌, length, MatchOption, IfSome};
ghost use Rattle.std.specs.List.{slice_split};

pub(crate) fn position_of(byte: u8, bytes: &[u8]) -> Option<usize>
    ensures { result ≡ position (λ b. b == byte) bytes.now }
{
    bytes.iter().position(|other| *other == byte)
}

/// The bytes before the first such byte, and those behind it.
pub(crate) fn cut(byte: u8, bytes: &[u8]) -> Option<(&[u8], &[u8])>
    ensures parts { MatchOption result (slice_split (λ b. b == byte) bytes.now ≡ bytes.now ∷ [])
        (λ x. slice_split (λ b. b == byte) bytes.now ≡ x.0.now ∷ slice_split (λ b. b == byte) x.1.now) }
    ensures shorter { IfSome result (λ x. length x.1.now < length bytes.now) }
{
    let end = position_of(byte, bytes)?;
    Some((&bytes[..end], &bytes[end + 1..]))
}
