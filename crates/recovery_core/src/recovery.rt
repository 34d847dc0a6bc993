// What a database stands for is read from its devices.
ghost use Rattle.std.specs.Prelude.{◌≡◌, ℕ, Err, List, Some, None, true, length, IfOk};
ghost use Rattle.std.specs.Option.{option_map};
ghost use Rattle.outside.specs.Disk.{IfTold, Only};
ghost use Rattle.log_writer.specs.Vault.{IsWhole};
ghost use Rattle.wire_form.specs.Pages.{Contents};
ghost use Rattle.wire_form.specs.declared.savepoint.Savepoint.{Savepoint};
ghost use Rattle.log_writer.specs.Points.{IsSaved, saved_of};
ghost use Rattle.log_writer.specs.Save.{Names, IsStored};
ghost use Rattle.snapshot_store.specs.Content.{words_of};
ghost use Rattle.snapshot_store.specs.Store.{HoldsPages};
ghost use Rattle.recovery_core.specs.Catalogues.{HasPages};
ghost use Rattle.recovery_core.specs.Damage.{IsDamagedIn, IsReadBefore, SnapsBreak};
ghost use Rattle.joint_crashes.specs.Images.{Images};
ghost use Rattle.joint_crashes.specs.JointCrash.{parts_of};
ghost use Rattle.recovery_core.specs.Recovered.{Recovers, IsUp};
ghost use Rattle.joint_crashes.specs.Resting.{AreTold};
ghost use Rattle.recovery_core.specs.SnapshotRead.{IsSnapshotOf};
ghost use Rattle.recovery_core.specs.ReadsDevices.{ReadsDevices};

use crate::entries::read_entries;
use crate::last_entries::LastEntries;
use crate::load_pages::load_pages;
use crate::load_save::load_save;
use crate::newest::{Snapshot, read_snapshot};
use crate::{RecoverFault, Recovered};
use lists::{OrMemory, Sequence};
use log_writer::{Save, Saved, Vault};
use outside::{Device, Disk};
use serial_model::State;
use std::alloc::Global;

// The newest snapshot of the pages that a savepoint counts.
fn load_snapshot<D: Disk>(
    alloc: Global,
    vault: &mut Vault<D>,
    saved: &Saved,
) -> Result<Snapshot, OrMemory<RecoverFault>>
    requires saved { IsSaved saved.now }
    ensures snapshot { IfOk result (λ s. (catalogues : List Contents)
        × IsSnapshotOf saved.now.epoch saved.now.catalogue catalogues s) }
    ensures pages { IfOk result (λ s. IfTold (D.tells vault.old.snaps) (λ file.
        HasPages file saved.now.count (words_of s.store.pages))) }
    ensures count { IfOk result (λ s. length s.store.pages ≡ saved.now.count) }
    ensures sound { IfOk result (λ s. s.store.sound ≡ true) }
    ensures holds { IfOk result (λ s. HoldsPages D.tells vault.new.snaps s.store.pages) }
    ensures damaged { (device : Device) (at : ℕ) → result ≡ Err (OrMemory.Fault (RecoverFault.Damaged device at))
        → (device ≡ Device.Snaps) × IfTold (D.tells vault.old.snaps) (λ file. (p : Savepoint)
        → saved.now ≡ saved_of p → SnapsBreak file p at) }
    ensures only { (device : Device) → result ≡ Err (OrMemory.Fault (RecoverFault.Device device))
        → device ≡ Device.Snaps }
    ensures devices { ReadsDevices D.tells D.clock D.image_at D.faults vault.old vault.new result }
{
    let store = load_pages(alloc, vault, saved.count)?;
    match read_snapshot(alloc, store, saved.epoch, saved.catalogue) {
        Ok(snapshot) => Ok(snapshot),
        Err(OrMemory::Memory) => Err(OrMemory::Memory),
        Err(OrMemory::Fault(at)) => {
            let device = Device::Snaps;
            Err(OrMemory::Fault(RecoverFault::Damaged { device, at }))
        }
    }
}

// A database without a savepoint.
fn recover_fresh<D: Disk>(
    alloc: Global,
    vault: &mut Vault<D>,
    save: Save,
) -> Result<Recovered, OrMemory<RecoverFault>>
    requires fresh { save.newest ≡ None }
    requires up { save.down ≡ None }
    ensures recovers { IfOk result (λ r. (found : Images) → Names found.save None → Recovers found r) }
    ensures up { IfOk result IsUp }
    ensures save { IfOk result (λ r. r.save ≡ save) }
    ensures holds { IfOk result (λ r. HoldsPages D.tells vault.new.snaps r.store.pages) }
    ensures damaged { (device : Device) (at : ℕ) → result ≡ Err (OrMemory.Fault (RecoverFault.Damaged device at))
        → IfTold (D.tells vault.old.snaps) (λ file. ⊥) }
    ensures only { (device : Device) → result ≡ Err (OrMemory.Fault (RecoverFault.Device device))
        → device ≡ Device.Snaps }
    ensures devices { ReadsDevices D.tells D.clock D.image_at D.faults vault.old vault.new result }
{
    let store = load_pages(alloc, vault, 0)?;
    Ok(Recovered {
        save,
        saved: None,
        decls: Sequence::new(alloc),
        store,
        epoch: 0,
        state: State::new(alloc),
        catalogues: Sequence::new(alloc),
        entries: LastEntries::new(alloc),
    })
}

// A database with a savepoint that says this.
fn recover_saved<D: Disk>(
    alloc: Global,
    vault: &mut Vault<D>,
    save: Save,
    saved: Saved,
) -> Result<Recovered, OrMemory<RecoverFault>>
    requires whole { IsWhole vault.old }
    requires says { Some saved ≡ option_map saved_of save.newest }
    requires saved { IsSaved saved }
    requires up { save.down ≡ None }
    ensures recovers { IfOk result (λ r. (found : Images) → AreTold D.tells (parts_of vault.old) found
        → Names found.save save.newest → Recovers found r) }
    ensures up { IfOk result IsUp }
    ensures save { IfOk result (λ r. r.save ≡ save) }
    ensures holds { IfOk result (λ r. HoldsPages D.tells vault.new.snaps r.store.pages) }
    ensures damaged { (device : Device) (at : ℕ) → result ≡ Err (OrMemory.Fault (RecoverFault.Damaged device at))
        → (found : Images) → AreTold D.tells (parts_of vault.old) found → Names found.save save.newest
        → IsDamagedIn found device at }
    ensures before { (device : Device) → result ≡ Err (OrMemory.Fault (RecoverFault.Device device))
        → (found : Images) → AreTold D.tells (parts_of vault.old) found → Names found.save save.newest
        → IsReadBefore found device }
    ensures devices { ReadsDevices D.tells D.clock D.image_at D.faults vault.old vault.new result }
{
    let mut snapshot = load_snapshot(alloc, vault, &saved)?;
    let decls = snapshot.decls.as_slice();
    let entries = read_entries(
        alloc,
        vault,
        &saved.lengths,
        decls,
        snapshot.epoch,
        saved.epoch,
    )?;
    entries.put_over(&mut snapshot.state)?;
    Ok(Recovered {
        save,
        saved: Some(saved),
        decls: snapshot.decls,
        store: snapshot.store,
        epoch: saved.epoch,
        state: snapshot.state,
        catalogues: snapshot.catalogues,
        entries,
    })
}

/// Reads what the devices stand for: saved epoch and state, with what was found on the way to them. The order
/// of reading: the savepoint, the length of the snapshots, the catalogues from the newest back, the pages of
/// the newest snapshot, the log files. It only reads.
pub fn recover<D: Disk>(
    alloc: Global,
    vault: &mut Vault<D>,
) -> Result<Recovered, OrMemory<RecoverFault>>
    requires whole { IsWhole vault.old }
    ensures recovers { IfOk result (λ r. (found : Images) → AreTold D.tells (parts_of vault.old) found
        → Recovers found r) }
    ensures up { IfOk result IsUp }
    ensures stored { IfOk result (λ r. IfTold (D.tells vault.old.save) (Only D.clock D.image_at vault.old.save)
        → IsStored D.tells D.clock D.image_at vault.new.save r.save.newest) }
    ensures holds { IfOk result (λ r. HoldsPages D.tells vault.new.snaps r.store.pages) }
    ensures damaged { (device : Device) (at : ℕ) → result ≡ Err (OrMemory.Fault (RecoverFault.Damaged device at))
        → (found : Images) → AreTold D.tells (parts_of vault.old) found → IsDamagedIn found device at }
    ensures before { (device : Device) → result ≡ Err (OrMemory.Fault (RecoverFault.Device device))
        → (found : Images) → AreTold D.tells (parts_of vault.old) found → IsReadBefore found device }
    ensures devices { ReadsDevices D.tells D.clock D.image_at D.faults vault.old vault.new result }
{
    let (save, saved) = load_save(vault)?;
    match saved {
        None => recover_fresh(alloc, vault, save),
        Some(saved) => recover_saved(alloc, vault, save, saved),
    }
}
