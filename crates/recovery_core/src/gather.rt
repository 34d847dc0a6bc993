// The records of the newest snapshot, from the pages that its storages' roots lead to.
ghost use Rattle.std.specs.Prelude.{◌≡◌, ℕ, ◌<◌, ◌≤◌, Err, OnOk, length, map};
ghost use Rattle.std.specs.List.{AllByRecursion};
ghost use Rattle.std.specs.FinMap as finite;
ghost use Rattle.serial_model.specs.Keys.{id_of};
ghost use Rattle.serial_model.specs.declared.key.Key.{Key as TheKey};
ghost use Rattle.wire_form.specs.Items.{Rises};
ghost use Rattle.wire_form.specs.Pages.{stored_id};
ghost use Rattle.snapshot_store.specs.Content.{words_of, record_in, value_at};
ghost use Rattle.recovery_core.specs.SnapshotPages.{RootStandsUpTo};
ghost use Rattle.recovery_core.specs.Damage.{FirstBad, RootBreaks};
ghost use Rattle.recovery_core.specs.Gather.{RootGathered};

use crate::gather_array::gather_array;
use crate::gather_tree::gather_tree;
use lists::OrMemory;
use serial_model::{Decl, State};
use snapshot_store::{DEEPEST, SnapStore, root_place};
use wire_form::Stored;

// Puts the records of one storage.
fn gather_root(
    store: &SnapStore,
    epoch: u32,
    stored: &Stored,
    state: &mut State,
) -> Result<(), OrMemory<u64>>
    requires there { stored.now.root ≤ length store.now.pages }
    ensures gathered { OnOk result (RootGathered (words_of store.now.pages) epoch stored.now state.old state.new) }
    ensures breaks { (at : ℕ) → result ≡ Err (OrMemory.Fault at)
        → RootBreaks epoch (words_of store.now.pages) at stored.now }
{
    let place = root_place(stored);
    match stored.decl {
        Decl::Array { id, size } => gather_array(store, epoch, id, size, DEEPEST, place, state),
        Decl::Tree { id } => gather_tree(store, epoch, id, DEEPEST, place, state),
    }
}

/// Puts the records of a snapshot, whose storages have these roots, into an empty state. A fault is the first
/// byte of the first page that isn't right for its place, as the pages are read: each before those below it, from
/// left to right, one storage after another.
pub(crate) fn gather(
    store: &SnapStore,
    epoch: u32,
    storages: &[Stored],
    state: &mut State,
) -> Result<(), OrMemory<u64>>
    requires there { AllByRecursion (λ s. s.root ≤ length store.now.pages) storages.now }
    requires rising { Rises ◌<◌ (map stored_id storages.now) }
    requires empty { state.old ≡ finite.empty }
    ensures stands { OnOk result (AllByRecursion (RootStandsUpTo epoch (words_of store.now.pages)) storages.now) }
    ensures state { OnOk result ((key : TheKey) → finite.get state.new key
        ≡ value_at (record_in (words_of store.now.pages)) storages.now key) }
    ensures breaks { (at : ℕ) → result ≡ Err (OrMemory.Fault at)
        → FirstBad (RootStandsUpTo epoch (words_of store.now.pages))
        (RootBreaks epoch (words_of store.now.pages) at) storages.now }
{
    for stored in storages {
        gather_root(store, epoch, stored, state)?;
    }
    Ok(())
}
