// The pointers at which a transaction left the pages in memory.
ghost use Rattle.std.specs.Prelude.{◌≡◌, ◌==◌, ◌≤◌, false, [], length};
ghost use Rattle.lists.specs.Each.{AreDistinct};
ghost use Rattle.tx_sets.specs.Entries.{has_word, places_of, word_at, IsPushed};

use crate::seen::{Seen, has_word, word_at};
use arrayvec::ArrayVec;
use std::marker::Model;

/// The most words that a transaction keeps of pointers.
const CAPACITY: usize = 128;

/// Up to 128 pointer words, each once, in the order in which they were seen: each stands for all keys below it, and a
/// commit finds them as they were, or is given up.
#[derive(Drop)]
pub struct PointerSet {
    seen: ArrayVec<Seen, CAPACITY>,
}

impl Model for PointerSet {
    ghost use Rattle.std.specs.Prelude.{List};
    ghost use Rattle.lists.specs.Each.{AreDistinct};
    ghost use Rattle.tx_sets.specs.declared.seen.Seen.{Seen};
    ghost use Rattle.tx_sets.specs.Entries.{places_of};

    ghost Value = { List Seen };

    ghost view = { λ s. s.seen.items };

    ghost invariant = { λ s. AreDistinct (places_of s.seen.items) };
}

impl PointerSet {
    pub fn new() -> Self
        ensures { result ≡ [] }
    {
        PointerSet {
            seen: ArrayVec::new(),
        }
    }

    /// All that was seen, in order.
    pub fn as_slice(&self) -> &[Seen]
        ensures value { result.now ≡ self.now }
        ensures bound { length self.now ≤ 128 }
        ensures once { AreDistinct (places_of self.now) }
    {
        self.seen.as_slice()
    }

    pub fn is_full(&self) -> bool
        ensures value { result ≡ (length self.now == 128) }
        ensures bound { length self.now ≤ 128 }
    {
        self.seen.is_full()
    }

    /// Whether the word at this place is in the set.
    #[inline(always)]
    pub fn contains(&self, at: u32) -> bool
        ensures { result ≡ has_word at self.now }
    {
        has_word(self.seen.as_slice(), at)
    }

    /// What was first seen at this place.
    #[inline(always)]
    pub fn find(&self, at: u32) -> Option<u64>
        ensures { result ≡ word_at at self.now }
    {
        word_at(self.seen.as_slice(), at)
    }

    /// Adds a word that is not in the set yet. It is given back where there is no room.
    #[inline(always)]
    pub fn push(&mut self, seen: Seen) -> Result<(), Seen>
        requires absent { has_word seen.at self.old ≡ false }
        ensures { IsPushed 128 seen self.old self.new result }
    {
        if self.is_full() {
            return Err(seen);
        }
        self.seen.push(seen);
        Ok(())
    }

    pub fn clear(&mut self)
        ensures { self.new ≡ [] }
    {
        self.seen.clear();
    }
}
