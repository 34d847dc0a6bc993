// What was read and must stay valid.
ghost use Rattle.std.specs.Prelude.{◌≡◌, ◌∷◌, IfOk};
ghost use Rattle.commit_core.specs.declared.part.Word.TheVariants as words;
ghost use Rattle.commit_core.specs.declared.part.Version.TheVariants as versions;
ghost use Rattle.commit_core.specs.Event.{is_as_seen};
ghost use Rattle.std.specs.List.{find};
ghost use Rattle.commit_core.specs.Keys.{same_key, has_key, content_at};
ghost use Rattle.commit_core.specs.Parts.{same_word, is_record, version_of, is_version, covers, found, only};
ghost use Rattle.commit_core.specs.Parts.{record_part};

use crate::Place;
use crate::place::is_open_to;
use homes::{At, Content, Span, Spot};
use lists::Sequence;
use serial_model::{Key, Memory, Number};
use std::alloc::Global;

/// A word of a page that was read.
#[derive(Clone, Copy, Debug, PartialEq, Eq)]
pub enum Word {
    /// Of a record.
    Record(Spot),
    /// Of a pointer.
    Pointer(At),
    /// Of the page in this slot, a leaf to which keys may be added.
    Header(u32),
}

/// What of a word is compared. The value is not, since a number determines it.
#[derive(Clone, Copy, Debug, PartialEq, Eq)]
pub enum Version {
    /// The number of a record, and whether it has a value.
    Numbered(Number, bool),
    /// The snapshot page that a pointer leads to, which has no page in memory.
    Leads(u32),
    /// How many records the page of a header has, which was not split.
    Counted(usize),
}

/// A word that an attempt read and that must stay valid. It vouches for the keys of a span, less some, with the
/// contents that were found there: every other key of the span was absent.
#[derive(Drop)]
pub struct Part {
    pub word: Word,
    pub version: Version,
    pub span: Span,
    pub less: Sequence<Key>,
    /// Of equal keys the first counts.
    pub pairs: Sequence<(Key, Content)>,
}

impl Word {
    pub fn is(self, other: Word) -> bool
        ensures { result ≡ same_word self other }
    {
        match self {
            Word::Record(spot) => is_record_at(spot, other),
            Word::Pointer(at) => is_pointer_at(at, other),
            Word::Header(slot) => is_header_of(slot, other),
        }
    }

    pub fn is_record(self) -> bool
        ensures { result ≡ is_record self }
    {
        matches!(self, Word::Record(_))
    }
}

impl Version {
    /// Whether a record with this content has this version.
    pub fn is_of(self, content: Content) -> bool
        ensures { result ≡ is_version content self }
    {
        match self {
            Version::Numbered(number, there) => {
                content.number == number && content.value.is_some() == there
            }
            Version::Leads(_) | Version::Counted(_) => false,
        }
    }
}

impl Part {
    /// The part of the record of a key, with the content that stands at its place.
    pub fn of_record(alloc: Global, key: Key, spot: Spot, content: Content) -> Result<Part, Memory>
        ensures { IfOk result (λ part. part ≡ record_part key spot content) }
    {
        let mut pairs = Sequence::new(alloc);
        pairs.push((key, content))?;
        Ok(Part {
            word: Word::Record(spot),
            version: Version::Numbered(content.number, content.value.is_some()),
            span: Span {
                storage: key.storage,
                low: key.key,
                high: key.key,
            },
            less: Sequence::new(alloc),
            pairs,
        })
    }

    /// Whether it vouches for what stood at the key.
    pub fn covers(&self, key: Key) -> bool
        ensures { result ≡ covers self.now key }
    {
        if !self.span.has(key) {
            return false;
        }
        !has_key(self.less.as_slice(), key)
    }

    /// What was found at a key that it covers.
    pub fn found(&self, key: Key) -> Content
        ensures { result ≡ found self.now key }
    {
        match find_pair(self.pairs.as_slice(), key) {
            Some(pair) => pair.1,
            None => Content {
                number: Number { epoch: 0, draw: 0 },
                value: None,
            },
        }
    }

    /// Whether a record's place is unlocked, or the seat's own, and its word is as it was seen.
    pub fn is_as_seen(&self, id: u32, place: Place) -> bool
        ensures { result ≡ is_as_seen id place self.now }
    {
        is_open_to(id, place.holder) && self.version.is_of(place.content)
    }

    /// The part again.
    pub fn copy(&self) -> Result<Part, Memory>
        ensures { IfOk result (λ part. part ≡ self.now) }
    {
        Ok(Part {
            word: self.word,
            version: self.version,
            span: self.span,
            less: Sequence::from_slice(self.less.alloc(), self.less.as_slice())?,
            pairs: Sequence::from_slice(self.pairs.alloc(), self.pairs.as_slice())?,
        })
    }
}

fn is_record_at(spot: Spot, other: Word) -> bool
    ensures { result ≡ same_word (words.Record spot) other }
{
    match other {
        Word::Record(place) => spot.is(place),
        Word::Pointer(_) | Word::Header(_) => false,
    }
}

fn is_pointer_at(at: At, other: Word) -> bool
    ensures { result ≡ same_word (words.Pointer at) other }
{
    match other {
        Word::Record(_) | Word::Header(_) => false,
        Word::Pointer(pointer) => at.is(pointer),
    }
}

fn is_header_of(slot: u32, other: Word) -> bool
    ensures { result ≡ same_word (words.Header slot) other }
{
    match other {
        Word::Record(_) | Word::Pointer(_) => false,
        Word::Header(page) => slot == page,
    }
}

fn has_key(keys: &[Key], key: Key) -> bool
    ensures { result ≡ has_key keys.now key }
{
    keys.iter().any(|other| *other == key)
}

fn find_pair(pairs: &[(Key, Content)], key: Key) -> Option<(Key, Content)>
    ensures { result ≡ find (λ e. same_key e.0 key) pairs.now }
{
    pairs.iter().copied().find(|pair| pair.0 == key)
}
