// What a transaction writes, kept aside until it commits.
ghost use Rattle.std.specs.Prelude.{◌≡◌, ◌==◌, ◌<◌, ◌≤◌, true, false, [], length};
ghost use Rattle.std.specs.List.{position};
ghost use Rattle.homes.specs.Homes.{same_key};
ghost use Rattle.lists.specs.Each.{AreDistinct};
ghost use Rattle.tx_sets.specs.Entries.{IsAscending, IsPlaceOf, IsPut, IsRewritten, value_of, has_write, writes_at};
ghost use Rattle.tx_sets.specs.Entries.{record_places_of, write_in};

use crate::seen::PAGE_WORDS;
use arrayvec::ArrayVec;
use serial_model::Key;
use std::marker::Model;

/// The most keys that a transaction writes.
const CAPACITY: usize = 16;

/// A key's new value, or its removal, and where its record stands.
#[derive(Clone, Copy, Debug, Default, PartialEq, Eq)]
pub struct Write {
    pub key: Key,
    pub value: Option<u64>,
    /// The place of the record's word in the table.
    pub at: u32,
}

/// Up to 16 writes, each of another key and another record, in ascending order of key: all transactions lock in
/// this order.
#[derive(Drop)]
pub struct WriteSet {
    writes: ArrayVec<Write, CAPACITY>,
}

impl Model for WriteSet {
    ghost use Rattle.std.specs.Prelude.{List};
    ghost use Rattle.lists.specs.Each.{AreDistinct};
    ghost use Rattle.tx_sets.specs.declared.writes.Write.{Write};
    ghost use Rattle.tx_sets.specs.Entries.{IsAscending, record_places_of};

    ghost Value = { List Write };

    ghost view = { λ s. s.writes.items };

    ghost invariant = { λ s. IsAscending s.writes.items × AreDistinct (record_places_of s.writes.items) };
}

impl WriteSet {
    pub fn new() -> Self
        ensures { result ≡ [] }
    {
        WriteSet {
            writes: ArrayVec::new(),
        }
    }

    /// All writes, in ascending order of key.
    pub fn as_slice(&self) -> &[Write]
        ensures value { result.now ≡ self.now }
        ensures bound { length self.now ≤ 16 }
        ensures ascending { IsAscending self.now }
        ensures once { AreDistinct (record_places_of self.now) }
    {
        self.writes.as_slice()
    }

    pub fn is_full(&self) -> bool
        ensures value { result ≡ (length self.now == 16) }
        ensures bound { length self.now ≤ 16 }
    {
        self.writes.is_full()
    }

    /// Whether the transaction writes this key.
    #[inline(always)]
    pub fn contains(&self, key: Key) -> bool
        ensures { result ≡ has_write key self.now }
    {
        self.writes.as_slice().iter().any(|write| write.key == key)
    }

    /// Whether the record at this place is one that the transaction writes.
    #[inline(always)]
    pub fn contains_record(&self, at: u32) -> bool
        ensures { result ≡ writes_at at self.now }
    {
        self.writes.as_slice().iter().any(|write| write.at == at)
    }

    /// What the transaction writes at this key: a value, or no value where it removes it.
    #[inline(always)]
    pub fn find(&self, key: Key) -> Option<Option<u64>>
        ensures { result ≡ value_of key self.now }
    {
        self.writes
            .as_slice()
            .iter()
            .find(|write| write.key == key)
            .map(|write| write.value)
    }

    /// A write of a record whose word is one of the page of 64 words that begins here.
    pub fn find_in(&self, first: u32) -> Option<Write>
        ensures { result ≡ write_in first self.now }
    {
        write_in(self.writes.as_slice(), first)
    }

    /// Adds a write of a key, and of a record, that are not in the set yet. It is given back where there is no room.
    #[inline(always)]
    pub fn push(&mut self, write: Write) -> Result<(), Write>
        requires absent { has_write write.key self.old ≡ false }
        requires another { writes_at write.at self.old ≡ false }
        ensures { IsPut write self.old self.new result }
    {
        if self.is_full() {
            return Err(write);
        }
        let place = place_of(self.writes.as_slice(), write.key);
        self.writes.insert(place, write);
        Ok(())
    }

    /// Writes another value at a key that the transaction writes already.
    pub fn set(&mut self, key: Key, value: Option<u64>)
        requires present { has_write key self.old ≡ true }
        ensures { IsRewritten key value self.old self.new }
    {
        if let Some(place) = index_of(self.writes.as_slice(), key) {
            self.writes[place].value = value;
        }
    }

    pub fn clear(&mut self)
        ensures { self.new ≡ [] }
    {
        self.writes.clear();
    }
}

// How many writes are of lower keys.
fn place_of(writes: &[Write], key: Key) -> usize
    ensures bound { result ≤ length writes.now }
    ensures place { IsPlaceOf key writes.now result }
{
    for place in 0..writes.len() {
        if writes[place].key >= key {
            return place;
        }
    }
    writes.len()
}

// Where the write of a key stands.
fn index_of(writes: &[Write], key: Key) -> Option<usize>
    ensures { result ≡ position (λ w. same_key w.key key) writes.now }
{
    writes.iter().position(|write| write.key == key)
}

fn write_in(writes: &[Write], first: u32) -> Option<Write>
    ensures { result ≡ write_in first writes.now }
{
    let end = u64::from(first) + PAGE_WORDS;
    writes
        .iter()
        .copied()
        .find(|write| first <= write.at && u64::from(write.at) < end)
}
