// A new snapshot is written: its pages, the savepoint that names it, and the cuts behind that.
ghost use Rattle.std.specs.Prelude.{◌≡◌, ◌+◌, ◌-◌, ◌^◌, ◌<◌, ◌≤◌, ◌++◌, Some, true, length, is_ok, IfOk, OnOk};
ghost use Rattle.serial_model.specs.Numbers.{last_epoch};
ghost use Rattle.log_writer.specs.Points.{point_of, sequence_of};
ghost use Rattle.snapshot_store.specs.Store.{bytes_of_pages, HoldsPages, NumberedFrom};
ghost use Rattle.joint_crashes.specs.JointCrash.{parts_of};
ghost use Rattle.checkpoints.specs.SettleLeaves.{CanStore, LeavesWhole, StandsDurably, StandsEmptied};
ghost use Rattle.checkpoints.specs.SettlesInto.{composed_saved};
ghost use Rattle.checkpoints.specs.StoreAnswers.{WriteAnswers};
ghost use Rattle.checkpoints.specs.Written.{LeavesOldOrNext, HasWritten};

use crate::SettleFault;
use crate::without_entries::fault_of;
use joint_crashes::{BANKS, store_and_cut};
use lists::OrMemory;
use log_writer::{Save, Saved, Vault};
use outside::{Device, Disk};
use snapshot_store::SnapStore;
use wire_form::Page;

/// Writes a new snapshot of this epoch: adds its pages, of which the last is its catalogue, and makes them durable,
/// stores a savepoint that names it and counts nothing of the log files, and empties these. Whatever it answers, a
/// crash finds the newest savepoint with all that it counts, or the new one.
pub(crate) fn write_snapshot<D: Disk>(
    save: &mut Save,
    store: &mut SnapStore,
    vault: &mut Vault<D>,
    pages: &[Page],
    epoch: u32,
) -> Result<Saved, OrMemory<SettleFault>>
    requires can { CanStore D.tells D.clock D.image_at save.old vault.old }
    requires epoch { epoch < last_epoch }
    requires some { 1 ≤ length pages.now }
    requires few { length store.old.pages + length pages.now ≤ 65536 }
    requires numbered { NumberedFrom (length store.old.pages + 1) pages.now }
    requires sound { store.old.sound ≡ true }
    requires holds { HoldsPages D.tells vault.old.snaps store.old.pages }
    requires below { sequence_of save.old.newest < 2 ^ 63 - 1 }
    ensures crashes { LeavesOldOrNext D.clock D.image_at D.tells save.old.newest
        (composed_saved epoch (length store.old.pages + length pages.now)) (length store.old.pages)
        (bytes_of_pages (store.old.pages ++ pages.now)) (parts_of vault.old) (parts_of vault.new) }
    ensures goes_on { OnOk result (HasWritten D.clock D.image_at D.tells save.old.newest
        (composed_saved epoch (length store.old.pages + length pages.now)) (length store.old.pages)
        (bytes_of_pages (store.old.pages ++ pages.now)) (parts_of vault.old) (parts_of vault.new)) }
    ensures says { IfOk result (λ s. (s ≡ composed_saved epoch (length store.old.pages + length pages.now))
        × (save.new.newest ≡ Some (point_of (sequence_of save.old.newest + 1) s))) }
    ensures pages { OnOk result (store.new.pages ≡ store.old.pages ++ pages.now) }
    ensures durable { OnOk result (StandsDurably D.tells D.clock D.image_at store.new vault.old vault.new) }
    ensures stands { OnOk result (StandsEmptied D.tells D.clock D.image_at save.new vault.old vault.new) }
    ensures answers { WriteAnswers D.faults vault.old vault.new result }
    ensures leaves { LeavesWhole (sequence_of save.old.newest) 1 (is_ok result) vault.old vault.new }
{
    match store.append_durably(&mut vault.snaps, pages) {
        Ok(()) => {}
        Err(OrMemory::Memory) => return Err(OrMemory::Memory),
        Err(OrMemory::Fault(_)) => return Err(OrMemory::Fault(SettleFault::Device(Device::Snaps))),
    }
    let count = store.count();
    let saved = Saved {
        epoch,
        catalogue: count,
        count,
        lengths: [0; 16],
    };
    match store_and_cut(save, vault, saved, &BANKS) {
        Ok(()) => Ok(saved),
        Err(fault) => Err(OrMemory::Fault(fault_of(fault))),
    }
}
