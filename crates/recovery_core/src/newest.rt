// The newest snapshot of the pages that count, and the catalogues of all.
ghost use Rattle.std.specs.Prelude.{◌≡◌, ◌⊎◌, ◌∷◌, ℕ, ◌+◌, ◌<◌, ◌≤◌, Err, List, None, Some, length};
ghost use Rattle.std.specs.Prelude.{map, reverse, IfOk, OnOk};
ghost use Rattle.std.specs.List.{AllByRecursion};
ghost use Rattle.std.specs.FinMap as finite;
ghost use Rattle.serial_model.specs.Numbers.{last_epoch};
ghost use Rattle.serial_model.specs.declared.key.Key.{Key as TheKey};
ghost use Rattle.wire_form.specs.Items.{Rises};
ghost use Rattle.wire_form.specs.Pages.{Contents, decls_of, stored_decl, stored_id};
ghost use Rattle.snapshot_store.specs.Content.{record_in, value_at, words_of};
ghost use Rattle.recovery_core.specs.Catalogues.{AreCatalogues, marks_of};
ghost use Rattle.recovery_core.specs.Damage.{CataloguesBreak, FirstBad, RootBreaks};
ghost use Rattle.recovery_core.specs.SnapshotPages.{RootStandsUpTo};
ghost use Rattle.recovery_core.specs.SnapshotRead.{IsSnapshotOf, SnapshotBreaks};

use crate::catalogue::Catalogue;
use crate::chain::{SnapshotMark, decl_at, first_byte, read_before, read_below};
use crate::gather::gather;
use lists::{Memory, OrMemory, Sequence};
use serial_model::{Decl, State};
use snapshot_store::SnapStore;
use std::alloc::Global;
use wire_form::Stored;

/// What a savepoint's pages say.
#[derive(Drop)]
pub(crate) struct Snapshot {
    /// The pages that count.
    pub(crate) store: SnapStore,
    /// The newest catalogue's epoch.
    pub(crate) epoch: u32,
    /// The storages that it declares.
    pub(crate) decls: Sequence<Decl>,
    /// All catalogues, the oldest first.
    pub(crate) catalogues: Sequence<SnapshotMark>,
    /// What its pages have.
    pub(crate) state: State,
}

// The newest catalogue, and the epochs and pages of all, the oldest first.
#[derive(Drop)]
struct Chain {
    newest: Catalogue,
    marks: Sequence<SnapshotMark>,
}

// The catalogues from a page back, or the first byte of the first page that isn't one.
fn read_chain(
    alloc: Global,
    store: &SnapStore,
    epoch: u32,
    number: u32,
) -> Result<Chain, OrMemory<u64>>
    requires first { 1 ≤ number }
    requires last { number ≤ length store.now.pages }
    requires epoch { epoch < last_epoch }
    ensures chain { IfOk result (λ chain. (older : List Contents)
        × AreCatalogues (words_of store.now.pages) (epoch + 1) None number (chain.newest ∷ older)
        × (chain.marks ≡ reverse (marks_of number (chain.newest ∷ older)))) }
    ensures breaks { (at : ℕ) → result ≡ Err (OrMemory.Fault at) → (front : List Contents)
        × CataloguesBreak (words_of store.now.pages) (epoch + 1) None number front at }
{
    let Some(newest) = read_below(alloc, store, number, epoch + 1)? else {
        return Err(OrMemory::Fault(first_byte(number)));
    };
    let marks = read_marks(alloc, store, &newest, number)?;
    Ok(Chain { newest, marks })
}

// The epochs and pages of the catalogue of this page and of those before it, the oldest first, or the first byte of the
// first page that isn't one.
fn read_marks(
    alloc: Global,
    store: &SnapStore,
    newest: &Catalogue,
    number: u32,
) -> Result<Sequence<SnapshotMark>, OrMemory<u64>>
    requires there { newest.now.previous ≤ length store.now.pages }
    ensures chain { IfOk result (λ marks. (older : List Contents)
        × AreCatalogues (words_of store.now.pages) newest.now.epoch (Some (decls_of newest.now))
        newest.now.previous older
        × (marks ≡ reverse (marks_of number (newest.now ∷ older)))) }
    ensures breaks { (at : ℕ) → result ≡ Err (OrMemory.Fault at) → (front : List Contents)
        × CataloguesBreak (words_of store.now.pages) newest.now.epoch (Some (decls_of newest.now))
        newest.now.previous front at }
{
    let mut marks = Vec::new(alloc);
    marks.push(SnapshotMark {
        epoch: newest.epoch,
        page: number,
    })?;
    read_before(alloc, store, newest, &mut marks)?;
    marks.reverse();
    Ok(Sequence::from_vec(marks))
}

// The declarations of storages.
fn decls_in(alloc: Global, storages: &[Stored]) -> Result<Sequence<Decl>, Memory>
    ensures { IfOk result (λ decls. decls ≡ map stored_decl storages.now) }
{
    let mut decls = Sequence::new(alloc);
    for i in 0..storages.len() {
        decls.push(decl_at(storages, i))?;
    }
    Ok(decls)
}

// Puts the records of the snapshot with this catalogue into an empty state, and gives the storages that it declares.
// The catalogue is lent: what is owned at a `?` costs a proof.
fn gather_newest(
    alloc: Global,
    store: &SnapStore,
    newest: &Catalogue,
    state: &mut State,
) -> Result<Sequence<Decl>, OrMemory<u64>>
    requires there { AllByRecursion (λ s. s.root ≤ length store.now.pages) newest.now.storages }
    requires rising { Rises ◌<◌ (map stored_id newest.now.storages) }
    requires empty { state.old ≡ finite.empty }
    ensures decls { IfOk result (λ decls. decls ≡ map stored_decl newest.now.storages) }
    ensures stands { OnOk result (AllByRecursion (RootStandsUpTo newest.now.epoch (words_of store.now.pages))
        newest.now.storages) }
    ensures state { OnOk result ((key : TheKey) → finite.get state.new key
        ≡ value_at (record_in (words_of store.now.pages)) newest.now.storages key) }
    ensures breaks { (at : ℕ) → result ≡ Err (OrMemory.Fault at)
        → FirstBad (RootStandsUpTo newest.now.epoch (words_of store.now.pages))
        (RootBreaks newest.now.epoch (words_of store.now.pages) at) newest.now.storages }
{
    let storages = newest.storages.as_slice();
    gather(store, newest.epoch, storages, state)?;
    let decls = decls_in(alloc, storages)?;
    Ok(decls)
}

/// The newest snapshot of the pages of a savepoint with this epoch, whose catalogue is this page; or the first
/// byte of the first page that isn't right.
pub(crate) fn read_snapshot(
    alloc: Global,
    store: SnapStore,
    epoch: u32,
    number: u32,
) -> Result<Snapshot, OrMemory<u64>>
    requires first { 1 ≤ number }
    requires last { number ≤ length store.pages }
    requires epoch { epoch < last_epoch }
    ensures snapshot { IfOk result (λ s. (catalogues : List Contents) × IsSnapshotOf epoch number catalogues s) }
    ensures store { IfOk result (λ s. s.store ≡ store) }
    ensures breaks { (at : ℕ) → result ≡ Err (OrMemory.Fault at)
        → SnapshotBreaks epoch number (words_of store.pages) at }
{
    let chain = read_chain(alloc, &store, epoch, number)?;
    let mut state = State::new(alloc);
    let decls = gather_newest(alloc, &store, &chain.newest, &mut state)?;
    let Chain { newest, marks } = chain;
    let epoch = newest.epoch;
    drop(newest);
    Ok(Snapshot {
        store,
        epoch,
        decls,
        catalogues: marks,
        state,
    })
}
