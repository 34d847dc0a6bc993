// Of each key the last entry.
ghost use Rattle.std.specs.Prelude.{◌≡◌, ◌↔◌, [], ◌∷◌, None, IsTrue, IfOk, OnOk};
ghost use Rattle.std.specs.BTreeMap as tree;
ghost use Rattle.std.specs.FinMap as finite;
ghost use Rattle.serial_model.specs.Keys.{key_cmp};
ghost use Rattle.serial_model.specs.Numbers.{is_below};
ghost use Rattle.serial_model.specs.declared.key.Key.{Key as TheKey};
ghost use Rattle.recovery_core.specs.EntriesLast.{TakesIn, all_entries, PutsAt, PutsLast};
ghost use Rattle.recovery_core.specs.EntriesRun.{AreOfTheirKeys, IsRunOf};

use lists::{Memory, Sequence};
use serial_model::{Key, Number, State};
use std::alloc::Global;
use std::collections::BTreeMap;
use std::marker::Model;
use wire_form::{Bucket, Entry, Run};

/// The last entry of each key that has entries, which contracts see as a finite map.
#[derive(Drop)]
pub struct LastEntries {
    map: BTreeMap<Key, Entry>,
}

impl Model for LastEntries {
    ghost use Rattle.std.specs.FinMap as finite;
    ghost use Rattle.serial_model.specs.Keys.{key_cmp, coded_key};
    ghost use Rattle.wire_form.specs.declared.bucket.Entry.{Entry as TheEntry};
    ghost use Rattle.recovery_core.specs.EntriesLast.{coded_entry};

    ghost Value = { finite.FinMap key_cmp TheEntry };

    ghost coded = { finite.code coded_key coded_entry };

    ghost view = { λ s. finite.from_entries s.map.entries };
}

impl LastEntries {
    /// No key has an entry.
    pub(crate) fn new(alloc: Global) -> Self
        ensures { result ≡ finite.empty }
    {
        LastEntries {
            map: BTreeMap::new(alloc),
        }
    }

    /// Whether no key has an entry.
    pub fn is_empty(&self) -> bool
        ensures { IsTrue result ↔ ((key : TheKey) → finite.get self.now key ≡ None) }
    {
        self.map.is_empty()
    }

    /// The last entries in one list, ascending by key.
    pub fn run(&self, alloc: Global) -> Result<Run, Memory>
        ensures { IfOk result (λ run. AreOfTheirKeys self.now → IsRunOf self.now run) }
    {
        Ok(Sequence::from_vec(entries_of(alloc, &self.map)?))
    }

    // The entry stays where it comes after the last one of its key so far; else that one is put back. Of equal numbers
    // the entry that was taken in first stays: it is the one of the lower log file.
    fn take_in(&mut self, entry: Entry) -> Result<(), Memory>
        ensures { OnOk result (TakesIn self.old self.new (entry ∷ [])) }
    {
        let Some(so_far) = self.map.insert(entry.key, entry)? else {
            return Ok(());
        };
        if is_below(so_far.number, entry.number) {
            return Ok(());
        }
        self.map.insert(entry.key, so_far)?;
        Ok(())
    }

    fn take_in_all(&mut self, entries: &[Entry]) -> Result<(), Memory>
        ensures { OnOk result (TakesIn self.old self.new entries.now) }
    {
        for entry in entries {
            self.take_in(*entry)?;
        }
        Ok(())
    }

    /// Takes in entries that stand behind those so far, one bucket after another.
    pub(crate) fn take_in_buckets(&mut self, buckets: &[Bucket]) -> Result<(), Memory>
        ensures { OnOk result (TakesIn self.old self.new (all_entries buckets.now)) }
    {
        for bucket in buckets {
            self.take_in_all(bucket.entries.as_slice())?;
        }
        Ok(())
    }

    /// Puts the last entry of each key over a state: its value, or none where it removed the key.
    pub(crate) fn put_over(&self, state: &mut State) -> Result<(), Memory>
        ensures { OnOk result (PutsLast self.now state.old state.new) }
    {
        for (key, entry) in &self.map {
            put_or_remove(state, *key, entry.value)?;
        }
        Ok(())
    }
}

// The entries of a map, in the order of its keys.
fn entries_of(alloc: Global, map: &BTreeMap<Key, Entry>) -> Result<Vec<Entry>, Memory>
    ensures entries { IfOk result (λ entries. entries.items ≡ tree.values map.now) }
    ensures ordered { tree.IsOrdered key_cmp map.now }
{
    let mut entries = Vec::with_capacity(alloc, map.len())?;
    for entry in map.values() {
        entries.push(*entry)?;
    }
    Ok(entries)
}

// Whether a commit number is below another.
fn is_below(a: Number, b: Number) -> bool
    ensures { result ≡ is_below a b }
{
    a < b
}

fn put_or_remove(state: &mut State, key: Key, value: Option<u64>) -> Result<(), Memory>
    ensures { OnOk result (PutsAt key value state.old state.new) }
{
    match value {
        Some(value) => {
            state.insert(key, value)?;
        }
        None => {
            state.remove(key);
        }
    }
    Ok(())
}
