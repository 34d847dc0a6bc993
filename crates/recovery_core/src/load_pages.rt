// The pages that a savepoint counts are read.
ghost use Rattle.std.specs.Prelude.{◌≡◌, ◌<◌, ◌≤◌, ◌*◌, ◌^◌, ◌⊎◌, ℕ, Err, true, length, IfOk};
ghost use Rattle.std.specs.List.{AllByRecursion};
ghost use Rattle.outside.specs.Disk.{IfTold};
ghost use Rattle.snapshot_store.specs.Content.{words_of};
ghost use Rattle.snapshot_store.specs.Store.{IsWhole, HoldsPages};
ghost use Rattle.recovery_core.specs.Catalogues.{HasPages};
ghost use Rattle.recovery_core.specs.ReadsDevices.{ReadsDevices};

use crate::RecoverFault;
use crate::catalogue::words_fit;
use lists::OrMemory;
use log_writer::Vault;
use outside::{Device, Disk};
use snapshot_store::{SnapStore, StoreFault};
use std::alloc::Global;

/// Words in memory have 64 bits, and pages 512 bytes: a law of stores, for those who compare them with a device.
pub fn pages_fit(store: &SnapStore)
    ensures fit { AllByRecursion (AllByRecursion (λ w. w < 2 ^ 64)) (words_of store.now.pages) }
    ensures whole { AllByRecursion IsWhole store.now.pages }
{
    for i in 0..store.count() {
        words_fit(&store.page(i + 1).words);
    }
}

/// The pages with numbers up to this one.
pub(crate) fn load_pages<D: Disk>(
    alloc: Global,
    vault: &mut Vault<D>,
    count: u32,
) -> Result<SnapStore, OrMemory<RecoverFault>>
    requires few { count ≤ 65536 }
    ensures pages { IfOk result (λ store. IfTold (D.tells vault.old.snaps) (λ file.
        HasPages file count (words_of store.pages))) }
    ensures count { IfOk result (λ store. length store.pages ≡ count) }
    ensures sound { IfOk result (λ store. store.sound ≡ true) }
    ensures holds { IfOk result (λ store. HoldsPages D.tells vault.new.snaps store.pages) }
    ensures damaged { (device : Device) (at : ℕ) → result ≡ Err (OrMemory.Fault (RecoverFault.Damaged device at))
        → (device ≡ Device.Snaps) × IfTold (D.tells vault.old.snaps) (λ file.
        (length file < 512 * count) × (at ≡ length file)) }
    ensures only { (device : Device) → result ≡ Err (OrMemory.Fault (RecoverFault.Device device))
        → device ≡ Device.Snaps }
    ensures devices { ReadsDevices D.tells D.clock D.image_at D.faults vault.old vault.new result }
    ensures save { vault.new.save ≡ vault.old.save }
{
    match SnapStore::load(alloc, &mut vault.snaps, count) {
        Ok(store) => {
            pages_fit(&store);
            Ok(store)
        }
        Err(fault) => Err(fault_of(fault)),
    }
}

// What a fault of the pages is. No more are asked for than there are numbers.
fn fault_of(fault: OrMemory<StoreFault>) -> OrMemory<RecoverFault>
    ensures damaged { (device : Device) (at : ℕ) → result ≡ OrMemory.Fault (RecoverFault.Damaged device at)
        → (device ≡ Device.Snaps) × ((fault ≡ OrMemory.Fault (StoreFault.Short at))
        ⊎ (fault ≡ OrMemory.Fault (StoreFault.Limit at))) }
    ensures device { (device : Device) → result ≡ OrMemory.Fault (RecoverFault.Device device)
        → (device ≡ Device.Snaps) × (fault ≡ OrMemory.Fault StoreFault.Device) }
    ensures failed { fault ≡ OrMemory.Fault StoreFault.Device
        → result ≡ OrMemory.Fault (RecoverFault.Device Device.Snaps) }
{
    let device = Device::Snaps;
    match fault {
        OrMemory::Memory => OrMemory::Memory,
        OrMemory::Fault(StoreFault::Device) => OrMemory::Fault(RecoverFault::Device(device)),
        OrMemory::Fault(StoreFault::Short { at }) => {
            OrMemory::Fault(RecoverFault::Damaged { device, at })
        }
        OrMemory::Fault(StoreFault::Limit { count: at }) => {
            OrMemory::Fault(RecoverFault::Damaged { device, at })
        }
    }
}
