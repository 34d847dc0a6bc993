// The contents of all storages.
ghost use Rattle.std.specs.Prelude.{◌≡◌, ◌==◌, ℕ, None, IfOk, OnOk, OnErr};
ghost use Rattle.std.specs.FinMap as finite;
ghost use Rattle.std.specs.Map.Iter.{ShowsInOrder, deref_pair};
ghost use Rattle.serial_model.specs.State.{rows_of};
ghost use Rattle.serial_model.specs.declared.key.Key.{Key as TheKey};
ghost use Rattle.serial_model.specs.Draft.{working};

use crate::{Key, Memory, Rows};
use std::alloc::Global;
use std::collections::btree_map::Iter;
use std::collections::{BTreeMap, BTreeSet};
use std::marker::Model;

/// A finite map from keys to values.
#[derive(Drop)]
pub struct State {
    map: BTreeMap<Key, u64>,
}

impl Model for State {
    ghost use Rattle.std.specs.Prelude.{ℕ};
    ghost use Rattle.std.specs.FinMap as finite;
    ghost use Rattle.std.specs.Coded.{coded_ℕ};
    ghost use Rattle.serial_model.specs.Keys.{key_cmp, coded_key};

    ghost Value = { finite.FinMap key_cmp ℕ };

    ghost coded = { finite.code coded_key coded_ℕ };

    ghost view = { λ s. finite.from_entries s.map.entries };
}

impl State {
    /// No key has a value.
    pub fn new(alloc: Global) -> Self
        ensures { result ≡ finite.empty }
    {
        State {
            map: BTreeMap::new(alloc),
        }
    }

    /// How many keys have a value.
    pub fn len(&self) -> usize
        ensures { result ≡ finite.len self.now }
    {
        self.map.len()
    }

    pub fn is_empty(&self) -> bool
        ensures { result ≡ (finite.len self.now == 0) }
    {
        self.len() == 0
    }

    /// The keys with their values, ascending.
    pub fn iter(&self) -> Iter<'_, Key, u64>
        ensures entries { result ≡ finite.entries self.now }
        ensures runs { ShowsInOrder (deref_pair {K = TheKey} {X = ℕ}) }
    {
        self.map.iter()
    }

    pub fn get(&self, key: Key) -> Option<u64>
        ensures { result ≡ finite.get self.now key }
    {
        self.map.get(&key).copied()
    }

    /// Sets the value of a key, and answers the one before. Memory can only be wanting for a key
    /// that had none, and then the state is as it was.
    pub fn insert(&mut self, key: Key, value: u64) -> Result<Option<u64>, Memory>
        ensures before { IfOk result (λ before. before ≡ finite.get self.old key) }
        ensures ok { OnOk result (self.new ≡ finite.insert self.old key value) }
        ensures memory { OnErr result (self.new ≡ self.old) }
        ensures absent { OnErr result (finite.get self.old key ≡ None) }
    {
        Ok(self.map.insert(key, value)?)
    }

    /// Takes a key out, and answers the value that it had.
    pub fn remove(&mut self, key: Key) -> Option<u64>
        ensures before { result ≡ finite.get self.old key }
        ensures removed { self.new ≡ finite.remove self.old key }
    {
        self.map.remove(&key)
    }

    /// The first 16 pairs of a storage with keys from `low` to `high` that aren't among `gone`.
    pub(crate) fn rows(&self, gone: &BTreeSet<Key>, storage: u8, low: u64, high: u64) -> Rows
        ensures { result ≡ rows_of (working self.now gone.now.keys) storage low high }
    {
        first_rows(&self.map, gone, storage, low, high)
    }
}

fn first_rows(
    map: &BTreeMap<Key, u64>,
    gone: &BTreeSet<Key>,
    storage: u8,
    low: u64,
    high: u64,
) -> Rows
    ensures { result ≡ rows_of (working (finite.from_entries map.now.entries) gone.now.keys) storage low high }
{
    let mut rows = Rows::new();
    if low > high {
        return rows;
    }
    let first = Key { storage, key: low };
    let last = Key { storage, key: high };
    for (key, value) in map.range(first..=last) {
        if rows.is_full() {
            return rows;
        }
        if !gone.contains(key) {
            rows.push(key.key, *value);
        }
    }
    rows
}
