// What the snapshot of an epoch has.
ghost use Rattle.std.specs.Prelude.{◌≡◌, ◌≤◌, ℕ, Err, IfSome, IfNone, IfOk, length};
ghost use Rattle.std.specs.List.{AllByRecursion, Contains};
ghost use Rattle.outside.specs.declared.device.Device.{Device as TheDevice};
ghost use Rattle.wire_form.specs.Pages.{Contents};
ghost use Rattle.snapshot_store.specs.Content.{words_of, RootStands, CatalogueAt, IsSnapshotContent};
ghost use Rattle.recovery_core.specs.Damage.{FirstBad};
ghost use Rattle.recovery_core.specs.Recovered.{IsUp};
ghost use Rattle.recovery_core.specs.Snapshots.{HasMark, IsSnapshotAt, RootBreaksAt, BreaksAt};

use crate::catalogue::read_catalogue;
use crate::chain::{SnapshotMark, first_byte};
use crate::gather::gather;
use crate::load_pages::pages_fit;
use crate::{RecoverFault, Recovered};
use lists::OrMemory;
use outside::Device;
use serial_model::State;
use snapshot_store::SnapStore;
use std::alloc::Global;

// The page of the catalogue of an epoch.
fn page_of(marks: &[SnapshotMark], epoch: u32) -> Option<u32>
    ensures found { IfSome result (λ page. Contains marks.now (record { epoch = epoch; page = page })) }
    ensures none { IfNone result ((page : ℕ) → Contains marks.now (record { epoch = epoch; page = page }) → ⊥) }
{
    for mark in marks {
        if mark.epoch == epoch {
            return Some(mark.page);
        }
    }
    None
}

// What the snapshot has whose catalogue stands on this page; or the first byte of the first page that isn't right.
// No number is too great in it: that none is above the snapshot's epoch is asked of the newest one alone.
fn content_at(alloc: Global, store: &SnapStore, page: u32) -> Result<State, OrMemory<u64>>
    requires first { 1 ≤ page }
    requires here { (c : Contents) × CatalogueAt (words_of store.now.pages) page c }
    ensures stands { IfOk result (λ state. (c : Contents) → CatalogueAt (words_of store.now.pages) page c
        → AllByRecursion (RootStands (words_of store.now.pages)) c.storages) }
    ensures content { IfOk result (λ state. (c : Contents) → CatalogueAt (words_of store.now.pages) page c
        → IsSnapshotContent (words_of store.now.pages) page c state) }
    ensures breaks { (at : ℕ) → result ≡ Err (OrMemory.Fault at) → (c : Contents)
        → CatalogueAt (words_of store.now.pages) page c
        → FirstBad (RootStands (words_of store.now.pages)) (RootBreaksAt (words_of store.now.pages) at) c.storages }
{
    let count = store.count();
    prove!(page <= count);
    pages_fit(store);
    let Some(catalogue) = read_catalogue(alloc, store.page(page))? else {
        return Err(OrMemory::Fault(first_byte(page)));
    };
    let storages = catalogue.storages.as_slice();
    let mut state = State::new(alloc);
    gather(store, u32::MAX, storages, &mut state)?;
    Ok(state)
}

/// What the snapshot of an epoch has, of those that were recovered; nothing where no catalogue is of that epoch. Of
/// the older snapshots recovery reads the catalogues alone, so where a page of one isn't right it is told here, by
/// its first byte. Nothing is read from a device.
pub fn snapshot(
    alloc: Global,
    recovered: &Recovered,
    epoch: u32,
) -> Result<Option<State>, OrMemory<RecoverFault>>
    requires up { IsUp recovered.now }
    ensures found { IfOk result (λ found. IfSome found (IsSnapshotAt recovered.now epoch)) }
    ensures none { IfOk result (λ found. IfNone found ((number : ℕ) → HasMark recovered.now epoch number → ⊥)) }
    ensures damaged { (device : TheDevice) (at : ℕ) → result ≡ Err (OrMemory.Fault (RecoverFault.Damaged device at))
        → (device ≡ Device.Snaps) × BreaksAt recovered.now epoch at }
    ensures never_device { (device : TheDevice) → result ≡ Err (OrMemory.Fault (RecoverFault.Device device)) → ⊥ }
{
    let Some(page) = page_of(recovered.catalogues.as_slice(), epoch) else {
        return Ok(None);
    };
    match content_at(alloc, &recovered.store, page) {
        Ok(state) => Ok(Some(state)),
        Err(OrMemory::Memory) => Err(OrMemory::Memory),
        Err(OrMemory::Fault(at)) => {
            let device = Device::Snaps;
            Err(OrMemory::Fault(RecoverFault::Damaged { device, at }))
        }
    }
}
