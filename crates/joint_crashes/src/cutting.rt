// Cuts of log files of which nothing counts, as a settling and a swap make them.
ghost use Rattle.std.specs.Prelude.{◌≤◌, ℕ, length, IsSome};
ghost use Rattle.std.specs.List.{Contains};
ghost use Rattle.log_writer.specs.Save.{IsNewest};
ghost use Rattle.log_writer.specs.Vault.{disk_in};
ghost use Rattle.joint_crashes.specs.Calls.{CutsBanks};

use log_writer::Vault;
use outside::{Device, Disk, Failed};

/// Cuts log files of which the newest savepoint counts nothing, or tells which one failed: then those behind it
/// are left alone. Whatever a cut answers, each joint crash stands for one savepoint, and what was a joint crash
/// is one.
pub fn cut_banks<D: Disk>(vault: &mut Vault<D>, numbers: &[u8], after: u64) -> Result<(), u8>
    requires banks { (n : ℕ) → Contains numbers.now n → IsSome (disk_in vault.old (Device.Bank n)) }
    requires room { length numbers.now ≤ vault.old.cuts.room }
    requires newest { IsNewest D.tells D.clock D.image_at vault.old.save after }
    ensures { CutsBanks D.tells D.clock D.image_at D.faults after numbers.now vault.old vault.new
        result }
{
    for number in numbers {
        let Ok(()) = vault.cut_in(Device::Bank(*number), after) else {
            return Err(*number);
        };
    }
    Ok(())
}
