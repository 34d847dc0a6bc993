// Words as bytes, big-endian.
ghost use Rattle.std.specs.Prelude.{◌≡◌, ◌*◌, ◌^◌, ◌<◌, ◌≤◌, ◌++◌, length, drop, replicate, IsTrue, ◌↔◌};
ghost use Rattle.std.specs.List.{AllByRecursion};
ghost use Rattle.wire_form.specs.Bytes.{bytes_of_word, bytes_of};

/// The word that eight bytes spell.
pub fn word_at(bytes: &[u8]) -> u64
    requires { length bytes.now ≡ 8 }
    ensures { bytes_of_word result ≡ bytes.now }
{
    u64::from_be_bytes([
        bytes[0], bytes[1], bytes[2], bytes[3], bytes[4], bytes[5], bytes[6], bytes[7],
    ])
}

/// The eight bytes of a word.
#[tactic(auto, unfolding(crate::specs::Bytes::bytes_of_word))]
fn bytes_of_word(word: u64) -> [u8; 8]
    ensures { result ≡ bytes_of_word word }
{
    word.to_be_bytes()
}

/// Reads as many words as there is room for, from all of the bytes.
pub fn read_words(bytes: &[u8], words: &mut [u64])
    requires { length bytes.now ≡ 8 * length words.old }
    ensures read { bytes.now ≡ bytes_of words.new }
    ensures fit { AllByRecursion (λ w. w < 2 ^ 64) words.new }
{
    for i in 0..words.len() {
        words[i] = word_at(&bytes[8 * i..8 * i + 8]);
    }
}

/// Writes words over the first bytes.
pub fn write_words(words: &[u64], to: &mut [u8])
    requires { 8 * length words.now ≤ length to.old }
    ensures { to.new ≡ bytes_of words.now ++ drop (8 * length words.now) to.old }
{
    for i in 0..words.len() {
        to[8 * i..8 * i + 8].copy_from_slice(&bytes_of_word(words[i]));
    }
}

/// Whether all are zero.
pub fn are_zero(words: &[u64]) -> bool
    ensures { IsTrue result ↔ (words.now ≡ replicate (length words.now) 0) }
{
    words.iter().all(|word| *word == 0)
}
