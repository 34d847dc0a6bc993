// The newest savepoint of a database is read.
ghost use Rattle.std.specs.Prelude.{◌≡◌, ℕ, Err, IfOk};
ghost use Rattle.outside.specs.Disk.{IfTold};
ghost use Rattle.log_writer.specs.Save.{IsDamaged};
ghost use Rattle.log_writer.specs.Stores.{Finds};
ghost use Rattle.recovery_core.specs.ReadsDevices.{ReadsDevices};

use crate::RecoverFault;
use lists::OrMemory;
use log_writer::{Save, SaveOpen, Saved, Vault};
use outside::{Device, Disk};

/// The newest savepoint, and what it says; none for a fresh database.
pub(crate) fn load_save<D: Disk>(
    vault: &mut Vault<D>,
) -> Result<(Save, Option<Saved>), OrMemory<RecoverFault>>
    ensures found { IfOk result (λ found.
        Finds D.tells D.clock D.image_at vault.old.save vault.new.save found.0 found.1) }
    ensures damaged { (device : Device) (at : ℕ) → result ≡ Err (OrMemory.Fault (RecoverFault.Damaged device at))
        → (device ≡ Device.Save) × IfTold (D.tells vault.old.save) (λ file. IsDamaged file at) }
    ensures only { (device : Device) → result ≡ Err (OrMemory.Fault (RecoverFault.Device device))
        → device ≡ Device.Save }
    ensures devices { ReadsDevices D.tells D.clock D.image_at D.faults vault.old vault.new result }
    ensures snaps { vault.new.snaps ≡ vault.old.snaps }
{
    let device = Device::Save;
    match Save::load(&mut vault.save) {
        Ok(found) => Ok(found),
        Err(SaveOpen::Device) => Err(OrMemory::Fault(RecoverFault::Device(device))),
        Err(SaveOpen::Damaged { at }) => Err(OrMemory::Fault(RecoverFault::Damaged { device, at })),
    }
}
