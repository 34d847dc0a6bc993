// All storages of a snapshot.
ghost use Rattle.std.specs.Prelude.{◌≡◌, ℕ, ◌+◌, ◌<◌, ◌≤◌, ◌^◌, [], Err, IfOk, OnOk, length, map};
ghost use Rattle.std.specs.List.{AllByRecursion};
ghost use Rattle.serial_model.specs.Keys.{IsKeyBelow};
ghost use Rattle.serial_model.specs.Numbers.{IsNumber};
ghost use Rattle.wire_form.specs.Items.{Rises};
ghost use Rattle.wire_form.specs.Pages.{Contents, IsCatalogue, catalogue_words};
ghost use Rattle.snapshot_store.specs.Content.{words_of, deepest};
ghost use Rattle.log_reducer.specs.Reduced.{entry_key};
ghost use Rattle.root_composer.specs.TreeCode.{AddsWithin, WouldBeDeep};
ghost use Rattle.root_composer.specs.Storages.{IsReady, IsWithin, compose_one, with_roots, StoragesMade, StoragesDeep};

use crate::ComposeFault;
use crate::array::compose_array;
use crate::part::entries_of;
use crate::tree::compose_tree;
use lists::{Memory, OrMemory};
use serial_model::Decl;
use snapshot_store::{DEEPEST, SnapStore, root_place};
use std::alloc::Global;
use wire_form::{Entry, Stored, count, storage};

/// The most storages of a catalogue.
const MOST: usize = 16;

// Composes one storage, and gives its new root.
fn compose_one(
    alloc: Global,
    store: &SnapStore,
    run: &[Entry],
    stored: &Stored,
    made: &mut Vec<[u64; 64]>,
) -> Result<u64, OrMemory<ComposeFault>>
    requires ready { IsReady run.now (words_of store.now.pages) stored.now }
    requires numbers { AllByRecursion (λ e. IsNumber e.number) run.now }
    requires rising { Rises IsKeyBelow (map entry_key run.now) }
    ensures made { IfOk result (λ n. AddsWithin deepest made.old.items made.new.items n
        (compose_one run.now (words_of store.now.pages) stored.now
        (length (words_of store.now.pages) + length made.old.items))) }
    ensures within { OnOk result (IsWithin run.now stored.now) }
    ensures deep { (fault : ComposeFault) → result ≡ Err (OrMemory.Fault fault) → WouldBeDeep deepest fault
        (compose_one run.now (words_of store.now.pages) stored.now
        (length (words_of store.now.pages) + length made.old.items)) }
{
    let place = root_place(stored);
    match stored.decl {
        Decl::Array { id, size } => {
            let part = entries_of(alloc, run, id)?;
            let root = compose_array(store, made, &part, u64::from(size), DEEPEST, place)?;
            Ok(root)
        }
        Decl::Tree { id } => {
            let entries = entries_of(alloc, run, id)?;
            compose_tree(alloc, store, made, entries.as_slice(), DEEPEST, place)
        }
    }
}

/// Composes one storage after another, and gives their new roots.
pub fn compose_storages(
    alloc: Global,
    store: &SnapStore,
    run: &[Entry],
    storages: &[Stored],
    made: &mut Vec<[u64; 64]>,
) -> Result<Vec<u64>, OrMemory<ComposeFault>>
    requires ready { AllByRecursion (IsReady run.now (words_of store.now.pages)) storages.now }
    requires numbers { AllByRecursion (λ e. IsNumber e.number) run.now }
    requires rising { Rises IsKeyBelow (map entry_key run.now) }
    requires empty { made.old.items ≡ [] }
    ensures made { IfOk result (λ roots. StoragesMade run.now (words_of store.now.pages) storages.now
        made.new.items roots.items) }
    ensures deep { (fault : ComposeFault) → result ≡ Err (OrMemory.Fault fault)
        → StoragesDeep run.now (words_of store.now.pages) storages.now fault }
{
    let mut roots = Vec::with_capacity(alloc, storages.len())?;
    for stored in storages {
        let root = compose_one(alloc, store, run, stored, made)?;
        roots.push(root)?;
    }
    Ok(roots)
}

/// The storages with other roots.
pub fn with_roots(alloc: Global, storages: &[Stored], roots: &[u64]) -> Result<Vec<Stored>, Memory>
    requires each { AllByRecursion (λ n. n < 2 ^ 32) roots.now }
    requires count { length roots.now ≡ length storages.now }
    ensures { IfOk result (λ stored. stored.items ≡ with_roots storages.now roots.now) }
{
    let mut stored = Vec::with_capacity(alloc, storages.len())?;
    for i in 0..storages.len() {
        stored.push(Stored {
            decl: storages[i].decl,
            root: roots[i] as u32,
        })?;
    }
    Ok(stored)
}

/// The storages of the catalogue with this page number.
pub fn storages_of(alloc: Global, number: u32, words: &[u64; 64]) -> Result<Vec<Stored>, Memory>
    ensures { IfOk result (λ storages. (contents : Contents) → IsCatalogue number contents
        → words.now ≡ catalogue_words contents → storages.items ≡ contents.storages) }
{
    let mut storages = Vec::new(alloc);
    for i in 0..count(words).min(MOST) {
        let Some(stored) = storage(number, words, i) else {
            return Ok(storages);
        };
        storages.push(stored)?;
    }
    Ok(storages)
}
