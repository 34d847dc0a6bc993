// The catalogues from the newest back.
ghost use Rattle.std.specs.Prelude.{◌≡◌, ℕ, ◌<◌, ◌≤◌, ◌++◌, List, Some, Err, IsTrue, ◌↔◌, IfSome, IfNone, IfOk};
ghost use Rattle.std.specs.Prelude.{OnOk, length, map, slice_get};
ghost use Rattle.std.specs.List.{AllByRecursion};
ghost use Rattle.wire_form.specs.Pages.{Contents, decls_of, stored_decl};
ghost use Rattle.snapshot_store.specs.Content.{words_of, CatalogueAt};
ghost use Rattle.recovery_core.specs.Catalogues.{HasNoRoot, IsFirst, IsCatalogueBelow, AreCatalogues, marks_of};
ghost use Rattle.recovery_core.specs.Damage.{first_byte, CataloguesBreak};

use crate::catalogue::{Catalogue, read_catalogue};
use lists::{Memory, OrMemory};
use serial_model::Decl;
use snapshot_store::SnapStore;
use std::alloc::Global;
use wire_form::Stored;

/// A snapshot: its epoch, and the page number of its catalogue.
#[derive(Clone, Copy, Debug, PartialEq, Eq)]
pub struct SnapshotMark {
    pub epoch: u32,
    pub page: u32,
}

// Whether no storage has a page.
fn have_no_roots(storages: &[Stored]) -> bool
    ensures { IsTrue result ↔ AllByRecursion HasNoRoot storages.now }
{
    storages.iter().all(|stored| stored.root == 0)
}

/// The declaration of the storage at an index.
pub(crate) fn decl_at(storages: &[Stored], i: usize) -> Decl
    requires { i < length storages.now }
    ensures { slice_get (map stored_decl storages.now) i ≡ Some result }
{
    storages[i].decl
}

// Whether both are the same declaration.
fn is_same(decl: Decl, other: Decl) -> bool
    ensures { IsTrue result ↔ (decl ≡ other) }
{
    decl == other
}

// Whether both declare the same storages.
fn declare_same(storages: &[Stored], others: &[Stored]) -> bool
    ensures { IsTrue result ↔ (map stored_decl storages.now ≡ map stored_decl others.now) }
{
    if storages.len() != others.len() {
        return false;
    }
    for i in 0..storages.len() {
        if !is_same(decl_at(storages, i), decl_at(others, i)) {
            return false;
        }
    }
    true
}

// Whether a catalogue without a predecessor is the first of all.
fn begins(catalogue: &Catalogue) -> bool
    ensures { IsTrue result ↔ (catalogue.now.previous ≡ 0 → IsFirst catalogue.now) }
{
    if catalogue.previous != 0 {
        return true;
    }
    if catalogue.epoch != 0 {
        return false;
    }
    have_no_roots(catalogue.storages.as_slice())
}

/// The catalogue at a page with an epoch below the limit, or nothing where there is none.
pub(crate) fn read_below(
    alloc: Global,
    store: &SnapStore,
    number: u32,
    limit: u32,
) -> Result<Option<Catalogue>, Memory>
    requires first { 1 ≤ number }
    requires last { number ≤ length store.now.pages }
    ensures found { IfOk result (λ read. IfSome read (λ c. CatalogueAt (words_of store.now.pages) number c
        × (c.epoch < limit) × (c.previous ≡ 0 → IsFirst c))) }
    ensures none { IfOk result (λ read. IfNone read ((c : Contents) → CatalogueAt (words_of store.now.pages) number c
        → c.epoch < limit → (c.previous ≡ 0 → IsFirst c) → ⊥)) }
{
    let count = store.count();
    prove!(number <= count);
    let Some(catalogue) = read_catalogue(alloc, store.page(number))? else {
        return Ok(None);
    };
    if catalogue.epoch >= limit {
        return Ok(None);
    }
    if !begins(&catalogue) {
        return Ok(None);
    }
    Ok(Some(catalogue))
}

// A catalogue's epoch and predecessor, where it may stand before one with these storages and this epoch.
fn read_older(
    alloc: Global,
    store: &SnapStore,
    number: u32,
    limit: u32,
    storages: &[Stored],
) -> Result<Option<(u32, u32)>, Memory>
    requires first { 1 ≤ number }
    requires last { number ≤ length store.now.pages }
    ensures found { IfOk result (λ read. IfSome read (λ head. (c : Contents)
        × IsCatalogueBelow (words_of store.now.pages) limit (Some (map stored_decl storages.now)) number c
        × (c.epoch ≡ head.0) × (c.previous ≡ head.1))) }
    ensures none { IfOk result (λ read. IfNone read ((c : Contents)
        → IsCatalogueBelow (words_of store.now.pages) limit (Some (map stored_decl storages.now)) number c → ⊥)) }
{
    let Some(catalogue) = read_below(alloc, store, number, limit)? else {
        return Ok(None);
    };
    if !declare_same(catalogue.storages.as_slice(), storages) {
        return Ok(None);
    }
    Ok(Some((catalogue.epoch, catalogue.previous)))
}

/// A page's first byte on its device.
pub(crate) fn first_byte(number: u32) -> u64
    ensures { result ≡ first_byte number }
{
    512 * u64::from(number.saturating_sub(1))
}

/// Adds the epochs and pages of the catalogues before one, from the newest back; or tells the first byte of the
/// first page that isn't such a catalogue.
pub(crate) fn read_before(
    alloc: Global,
    store: &SnapStore,
    newest: &Catalogue,
    marks: &mut Vec<SnapshotMark>,
) -> Result<(), OrMemory<u64>>
    requires there { newest.now.previous ≤ length store.now.pages }
    ensures chain { OnOk result ((older : List Contents)
        × AreCatalogues (words_of store.now.pages) newest.now.epoch (Some (decls_of newest.now))
        newest.now.previous older
        × (marks.new.items ≡ marks.old.items ++ marks_of newest.now.previous older)) }
    ensures breaks { (at : ℕ) → result ≡ Err (OrMemory.Fault at) → (front : List Contents)
        × CataloguesBreak (words_of store.now.pages) newest.now.epoch (Some (decls_of newest.now))
        newest.now.previous front at }
{
    let storages = newest.storages.as_slice();
    let mut limit = newest.epoch;
    let mut number = newest.previous;
    while number != 0 {
        let Some((epoch, previous)) = read_older(alloc, store, number, limit, storages)? else {
            return Err(OrMemory::Fault(first_byte(number)));
        };
        marks.push(SnapshotMark {
            epoch,
            page: number,
        })?;
        limit = epoch;
        number = previous;
    }
    Ok(())
}
