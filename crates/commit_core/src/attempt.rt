// Attempts to commit.
ghost use Rattle.std.specs.Prelude.{◌≡◌, IfOk};
ghost use Rattle.std.specs.List.{list_any};
ghost use Rattle.commit_core.specs.Event.{is_seen_at};
ghost use Rattle.commit_core.specs.Keys.{same_key, written};
ghost use Rattle.commit_core.specs.Parts.{same_word};

use crate::{Part, Place, Word};
use homes::Spot;
use lists::Sequence;
use serial_model::{Change, Changes, Key, Memory, Number};

/// An attempt as it was when it took its number. It never changes.
#[derive(Drop)]
pub struct Attempt {
    /// The seat that made it.
    pub seat: u32,
    pub number: Number,
    pub parts: Sequence<Part>,
    /// The new values; of equal keys the first counts.
    pub writes: Changes,
}

impl Attempt {
    pub fn has_part(&self, word: Word) -> bool
        ensures { result ≡ list_any (λ part. same_word part.word word) self.now.parts }
    {
        self.parts.as_slice().iter().any(|part| part.word.is(word))
    }

    /// Whether each part of the record's word, of which there is one, is as it was seen, where this stands in its
    /// place.
    pub fn stays_as_seen(&self, id: u32, spot: Spot, place: Place) -> bool
        ensures { result ≡ is_seen_at id place spot self.now }
    {
        let word = Word::Record(spot);
        let mut parts = self.parts.as_slice().iter();
        parts.all(|part| !part.word.is(word) || part.is_as_seen(id, place))
    }
}

/// That the attempt with this number found its part of the word as it had read it.
#[derive(Clone, Copy, Debug, PartialEq, Eq)]
pub struct Check {
    pub number: Number,
    pub word: Word,
}

/// The value that the writes give a key, where they write it.
pub fn written(key: Key, writes: &[Change]) -> Option<Option<u64>>
    ensures { result ≡ written key writes.now }
{
    writes
        .iter()
        .find(|change| change.key == key)
        .map(|change| change.value)
}

/// The same parts again.
pub fn copy_parts(parts: &Sequence<Part>) -> Result<Sequence<Part>, Memory>
    ensures { IfOk result (λ s. s ≡ parts.now) }
{
    let mut copy = Sequence::new(parts.alloc());
    for part in parts.as_slice() {
        copy.push(part.copy()?)?;
    }
    Ok(copy)
}

/// The same changes again.
pub fn copy_changes(changes: &Changes) -> Changes
    ensures { result ≡ changes.now }
{
    let mut copy = Changes::new();
    for change in changes.as_slice() {
        copy.push(*change);
    }
    copy
}

/// The attempt again.
pub fn copy_attempt(attempt: &Attempt) -> Result<Attempt, Memory>
    ensures { IfOk result (λ a. a ≡ attempt.now) }
{
    let parts = copy_parts(&attempt.parts)?;
    Ok(Attempt {
        seat: attempt.seat,
        number: attempt.number,
        parts,
        writes: copy_changes(&attempt.writes),
    })
}
