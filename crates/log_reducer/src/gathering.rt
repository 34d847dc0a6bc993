// The latest entries of buckets that come one by one, and of several parts.
ghost use Rattle.std.specs.Prelude.{◌≡◌, ◌++◌, List, IfOk, OnOk, map};
ghost use Rattle.std.specs.BTreeMap as tree;
ghost use Rattle.serial_model.specs.Keys.{key_cmp};
ghost use Rattle.serial_model.specs.declared.key.Key.{Key as TheKey};
ghost use Rattle.log_reducer.specs.Gathered.{KeepsLatest};
ghost use Rattle.log_reducer.specs.Latest.{entry_in, kept_of};
ghost use Rattle.log_reducer.specs.Reduced.{AreLast, logged_in};
ghost use Rattle.log_reducer.specs.declared.latest.Logged.{Logged as TheLogged};

use crate::latest::{Logged, keep};
use crate::reducing::{entries_of, keep_entries};
use lists::{Memory, Sequence};
use serial_model::Key;
use std::alloc::Global;
use std::collections::BTreeMap;
use wire_form::{Bucket, Run};

/// Keeps the latest entries of one bucket more.
pub fn keep_bucket(latest: &mut BTreeMap<Key, Logged>, bucket: &Bucket) -> Result<(), Memory>
    ensures { OnOk result ((all : List TheLogged) → KeepsLatest all (tree.get key_cmp latest.old)
        → KeepsLatest (all ++ logged_in bucket.now) (tree.get key_cmp latest.new)) }
{
    keep_entries(latest, bucket.bank, bucket.entries.as_slice())?;
    Ok(())
}

// Keeps all that are kept elsewhere.
fn keep_all(
    latest: &mut BTreeMap<Key, Logged>,
    others: &BTreeMap<Key, Logged>,
) -> Result<(), Memory>
    ensures kept { OnOk result ((key : TheKey) → tree.get key_cmp latest.new key
        ≡ kept_of key (tree.get key_cmp latest.old key) (tree.values others.now)) }
    ensures ordered { tree.IsOrdered key_cmp others.now }
{
    for logged in others.values() {
        keep(latest, *logged)?;
    }
    Ok(())
}

/// Keeps the latest of these entries and of those that are kept elsewhere.
pub fn merge(
    latest: &mut BTreeMap<Key, Logged>,
    others: &BTreeMap<Key, Logged>,
) -> Result<(), Memory>
    ensures { OnOk result ((all more : List TheLogged) → KeepsLatest all (tree.get key_cmp latest.old)
        → KeepsLatest more (tree.get key_cmp others.now) → KeepsLatest (all ++ more) (tree.get key_cmp latest.new)) }
{
    keep_all(latest, others)?;
    Ok(())
}

/// What is kept, ascending by key.
pub fn run_of(alloc: Global, latest: &BTreeMap<Key, Logged>) -> Result<Run, Memory>
    ensures { IfOk result (λ run. (all : List TheLogged) → KeepsLatest all (tree.get key_cmp latest.now) → AreLast all run) }
{
    Ok(Sequence::from_vec(entries_of(alloc, latest)?))
}
