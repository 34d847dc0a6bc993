// The records that a transaction read.
ghost use Rattle.std.specs.Prelude.{◌≡◌, ◌==◌, ◌<◌, ◌≤◌, true, false, [], length, get_or, set};
ghost use Rattle.std.specs.List.{find, list_any};
ghost use Rattle.homes.specs.Homes.{same_key};
ghost use Rattle.lists.specs.Each.{AreDistinct};
ghost use Rattle.tx_sets.specs.Entries.{has_read, hash_of, read_in, read_keys, read_of, AreMarked, IsPushed};

use crate::seen::PAGE_WORDS;
use serial_model::Key;
use std::marker::Model;

/// The most records that a transaction reads.
const CAPACITY: usize = 256;

/// How many hashes of keys there are.
const HASHES: usize = 128;

/// What a key is multiplied by for its hash, so that keys which lie evenly apart have different ones: 2^32 by the
/// golden ratio.
const GOLDEN: u64 = 2_654_435_761;

/// A record as a transaction first read it.
#[derive(Clone, Copy, Debug, Default, PartialEq, Eq)]
pub struct ReadEntry {
    pub key: Key,
    /// The place of the record's word in the table.
    pub at: u32,
    /// The record's word, without a lock.
    pub word: u64,
    /// 0 where the record was never written.
    pub value: u64,
}

/// Up to 256 records, each once, in the order in which they were read: a commit finds their words as they were, or is
/// given up. That a record wasn't read is mostly known without a search.
#[derive(Drop)]
pub struct ReadSet {
    /// The first `count` of them are in the set.
    entries: [ReadEntry; CAPACITY],
    count: usize,
    /// Of each hash whether a key that has it may have been read: else none was.
    marked: [bool; HASHES],
}

impl Model for ReadSet {
    ghost use Rattle.std.specs.Prelude.{List, ◌≡◌, ◌≤◌, length, take};
    ghost use Rattle.lists.specs.Each.{AreDistinct};
    ghost use Rattle.tx_sets.specs.declared.reads.ReadEntry.{ReadEntry};
    ghost use Rattle.tx_sets.specs.Entries.{read_keys, AreMarked};

    ghost Value = { List ReadEntry };

    ghost view = { λ s. take s.count s.entries };

    ghost invariant = { λ s.
        (s.count ≤ 256) × (length s.entries ≡ 256) × AreDistinct (read_keys (take s.count s.entries))
        × AreMarked s.marked (take s.count s.entries) };
}

impl ReadSet {
    pub fn new() -> Self
        ensures { result ≡ [] }
    {
        ReadSet {
            entries: Default::default(),
            count: 0,
            marked: no_marks(),
        }
    }

    /// All that was read, in order.
    pub fn as_slice(&self) -> &[ReadEntry]
        ensures value { result.now ≡ self.now }
        ensures bound { length self.now ≤ 256 }
        ensures once { AreDistinct (read_keys self.now) }
    {
        &self.entries[..self.count]
    }

    pub fn is_full(&self) -> bool
        ensures value { result ≡ (length self.now == 256) }
        ensures bound { length self.now ≤ 256 }
    {
        self.count == CAPACITY
    }

    /// Whether the record of this key was read.
    pub fn contains(&self, key: Key) -> bool
        ensures { result ≡ has_read key self.now }
    {
        has_read(self.as_slice(), key)
    }

    /// What was first read of this key's record.
    #[inline(always)]
    pub fn find(&self, key: Key) -> Option<ReadEntry>
        ensures { result ≡ read_of key self.now }
    {
        if !is_marked(&self.marked, key) {
            return None;
        }
        read_of(self.as_slice(), key)
    }

    /// What was first read of a record whose word is one of the page of 64 words that begins here.
    pub fn find_in(&self, first: u32) -> Option<ReadEntry>
        ensures { result ≡ read_in first self.now }
    {
        read_in(self.as_slice(), first)
    }

    /// Adds a record that was not read yet. It is given back where there is no room.
    #[inline(always)]
    pub fn push(&mut self, entry: ReadEntry) -> Result<(), ReadEntry>
        requires absent { has_read entry.key self.old ≡ false }
        ensures { IsPushed 256 entry self.old self.new result }
    {
        let count = self.count;
        if count == CAPACITY {
            return Err(entry);
        }
        self.entries[count] = entry;
        self.count = count + 1;
        mark(&mut self.marked, entry.key);
        Ok(())
    }

    pub fn clear(&mut self)
        ensures { self.new ≡ [] }
    {
        self.count = 0;
        self.marked = no_marks();
    }
}

// No hash is marked.
fn no_marks() -> [bool; HASHES]
    ensures { AreMarked result [] }
{
    [false; HASHES]
}

// Marks the hash of a key that is read.
fn mark(marked: &mut [bool; HASHES], key: Key)
    requires { length marked.old ≡ 128 }
    ensures { marked.new ≡ set marked.old (hash_of key) true }
{
    marked[hash_of(key)] = true;
}

fn is_marked(marked: &[bool; HASHES], key: Key) -> bool
    requires { length marked.now ≡ 128 }
    ensures { result ≡ get_or marked.now (hash_of key) false }
{
    marked[hash_of(key)]
}

fn hash_of(key: Key) -> usize
    ensures value { result ≡ hash_of key }
    ensures bound { result < 128 }
{
    let product = key.key % (1 << 32) * GOLDEN;
    (product / (1 << 25) % 128) as usize
}

fn has_read(entries: &[ReadEntry], key: Key) -> bool
    ensures { result ≡ list_any (λ r. same_key r.key key) entries.now }
{
    entries.iter().any(|entry| entry.key == key)
}

// The search is as long as the set at most. The numbers of keys differ more often than their storages, so they are compared
// first, and the rest of an entry isn't read then.
fn read_of(entries: &[ReadEntry], key: Key) -> Option<ReadEntry>
    ensures { result ≡ find (λ r. same_key r.key key) entries.now }
{
    let mut at = 0;
    while at < entries.len() {
        if entries[at].key.key == key.key {
            if entries[at].key.storage == key.storage {
                return Some(entries[at]);
            }
        }
        at += 1;
    }
    None
}

fn read_in(entries: &[ReadEntry], first: u32) -> Option<ReadEntry>
    ensures { result ≡ read_in first entries.now }
{
    let end = u64::from(first) + PAGE_WORDS;
    entries
        .iter()
        .copied()
        .find(|entry| first <= entry.at && u64::from(entry.at) < end)
}
