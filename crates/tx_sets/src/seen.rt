// Words as a transaction first saw them.
ghost use Rattle.std.specs.Prelude.{◌≡◌, ◌==◌};
ghost use Rattle.std.specs.List.{position};
ghost use Rattle.tx_sets.specs.Entries.{has_word, word_at};

/// How many words a page has.
pub(crate) const PAGE_WORDS: u64 = 64;

/// A shared word as a transaction first saw it.
#[derive(Clone, Copy, Debug, Default, PartialEq, Eq)]
pub struct Seen {
    /// Its place in the table.
    pub at: u32,
    pub word: u64,
}

pub(crate) fn has_word(seen: &[Seen], at: u32) -> bool
    ensures { result ≡ has_word at seen.now }
{
    seen.iter().any(|seen| seen.at == at)
}

pub(crate) fn word_at(seen: &[Seen], at: u32) -> Option<u64>
    ensures { result ≡ word_at at seen.now }
{
    seen.iter().find(|seen| seen.at == at).map(|seen| seen.word)
}

pub(crate) fn index_of(seen: &[Seen], at: u32) -> Option<usize>
    ensures { result ≡ position (λ s. s.at == at) seen.now }
{
    seen.iter().position(|seen| seen.at == at)
}
