// The headers of trees' leaves that a transaction keeps.
ghost use Rattle.std.specs.Prelude.{◌≡◌, ◌==◌, ◌≤◌, true, false, [], length};
ghost use Rattle.lists.specs.Each.{AreDistinct};
ghost use Rattle.tx_sets.specs.Entries.{has_word, places_of, renewed, word_at, IsPushed};

use crate::seen::{Seen, has_word, index_of, word_at};
use arrayvec::ArrayVec;
use std::marker::Model;

/// The most headers that a transaction keeps: as many as records.
const CAPACITY: usize = 256;

/// Up to 256 header words, each once, in the order in which they were seen: each stands for all keys of its leaf's span
/// that have no record there, and a commit finds them as they were, or is given up.
#[derive(Drop)]
pub struct HeaderSet {
    seen: ArrayVec<Seen, CAPACITY>,
}

impl Model for HeaderSet {
    ghost use Rattle.std.specs.Prelude.{List};
    ghost use Rattle.lists.specs.Each.{AreDistinct};
    ghost use Rattle.tx_sets.specs.declared.seen.Seen.{Seen};
    ghost use Rattle.tx_sets.specs.Entries.{places_of};

    ghost Value = { List Seen };

    ghost view = { λ s. s.seen.items };

    ghost invariant = { λ s. AreDistinct (places_of s.seen.items) };
}

impl HeaderSet {
    pub fn new() -> Self
        ensures { result ≡ [] }
    {
        HeaderSet {
            seen: ArrayVec::new(),
        }
    }

    /// All that was seen, in order.
    pub fn as_slice(&self) -> &[Seen]
        ensures value { result.now ≡ self.now }
        ensures bound { length self.now ≤ 256 }
        ensures once { AreDistinct (places_of self.now) }
    {
        self.seen.as_slice()
    }

    pub fn is_full(&self) -> bool
        ensures value { result ≡ (length self.now == 256) }
        ensures bound { length self.now ≤ 256 }
    {
        self.seen.is_full()
    }

    /// Whether the header at this place is in the set.
    #[inline(always)]
    pub fn contains(&self, at: u32) -> bool
        ensures { result ≡ has_word at self.now }
    {
        has_word(self.seen.as_slice(), at)
    }

    /// What the header at this place was, as it was seen first or renewed since.
    #[inline(always)]
    pub fn find(&self, at: u32) -> Option<u64>
        ensures { result ≡ word_at at self.now }
    {
        word_at(self.seen.as_slice(), at)
    }

    /// Adds a header that is not in the set yet. It is given back where there is no room.
    #[inline(always)]
    pub fn push(&mut self, seen: Seen) -> Result<(), Seen>
        requires absent { has_word seen.at self.old ≡ false }
        ensures { IsPushed 256 seen self.old self.new result }
    {
        if self.is_full() {
            return Err(seen);
        }
        self.seen.push(seen);
        Ok(())
    }

    /// Puts another word in the place of what was seen of a header that is in the set: the transaction has changed it
    /// itself, by a key that it added.
    pub fn renew(&mut self, at: u32, word: u64)
        requires present { has_word at self.old ≡ true }
        ensures { self.new ≡ renewed at word self.old }
    {
        if let Some(index) = index_of(self.seen.as_slice(), at) {
            self.seen[index].word = word;
        }
    }

    pub fn clear(&mut self)
        ensures { self.new ≡ [] }
    {
        self.seen.clear();
    }
}
