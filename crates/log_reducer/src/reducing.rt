// Buckets are reduced to the last entry of each key.
ghost use Rattle.std.specs.Prelude.{◌≡◌, IfOk, OnOk, None, map};
ghost use Rattle.std.specs.BTreeMap as tree;
ghost use Rattle.serial_model.specs.Keys.{key_cmp};
ghost use Rattle.serial_model.specs.declared.key.Key.{Key as TheKey};
ghost use Rattle.log_reducer.specs.Reduced.{logged_as, all_logged, AreLast};
ghost use Rattle.log_reducer.specs.Latest.{kept_of, entry_in};

use crate::latest::{Logged, keep};
use lists::{Memory, Sequence};
use serial_model::Key;
use std::alloc::Global;
use std::collections::BTreeMap;
use wire_form::{Bucket, Entry, Run};

// Keeps the latest entries of one log file more.
pub(crate) fn keep_entries(
    latest: &mut BTreeMap<Key, Logged>,
    bank: u8,
    entries: &[Entry],
) -> Result<(), Memory>
    ensures { OnOk result ((key : TheKey) → tree.get key_cmp latest.new key
        ≡ kept_of key (tree.get key_cmp latest.old key) (map (logged_as bank) entries.now)) }
{
    for entry in entries {
        keep(
            latest,
            Logged {
                bank,
                entry: *entry,
            },
        )?;
    }
    Ok(())
}

// The entries of a map, ascending by key.
pub(crate) fn entries_of(
    alloc: Global,
    latest: &BTreeMap<Key, Logged>,
) -> Result<Vec<Entry>, Memory>
    ensures entries { IfOk result (λ entries. entries.items ≡ map entry_in (tree.values latest.now)) }
    ensures ordered { tree.IsOrdered key_cmp latest.now }
{
    let mut entries = Vec::with_capacity(alloc, latest.len())?;
    for logged in latest.values() {
        entries.push(logged.entry)?;
    }
    Ok(entries)
}

/// For each key the entry of the greatest number, of equal ones that of the lower log file,
/// ascending by key.
pub fn reduce(alloc: Global, buckets: &[Bucket]) -> Result<Run, Memory>
    ensures { IfOk result (AreLast (all_logged buckets.now)) }
{
    let mut latest = BTreeMap::new(alloc);
    for bucket in buckets {
        keep_entries(&mut latest, bucket.bank, bucket.entries.as_slice())?;
    }
    Ok(Sequence::from_vec(entries_of(alloc, &latest)?))
}
