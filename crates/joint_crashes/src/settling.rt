// A savepoint that counts nothing of some log files, and then their cuts: what a settling does where no
// entry counts, and what a join does for the closed side.
ghost use Rattle.std.specs.Prelude.{◌≡◌, ◌≤◌, ℕ, None, IsSome, length};
ghost use Rattle.std.specs.List.{Contains};
ghost use Rattle.log_writer.specs.Counted.{AreCounted};
ghost use Rattle.log_writer.specs.Points.{IsSaved};
ghost use Rattle.log_writer.specs.Save.{IsStored};
ghost use Rattle.log_writer.specs.Vault.{disk_in};
ghost use Rattle.joint_crashes.specs.Calls.{StoresAndCuts};

use crate::cutting::cut_banks;
use log_writer::{Save, SaveFault, Saved, Vault};
use outside::{Device, Disk};

/// The numbers of all log files.
pub const BANKS: [u8; 16] = [0, 1, 2, 3, 4, 5, 6, 7, 8, 9, 10, 11, 12, 13, 14, 15];

/// Which call failed: the store, or the cut of this log file.
#[derive(Clone, Copy, Debug, PartialEq, Eq)]
pub enum StoreAndCutFault {
    Store(SaveFault),
    Cut { bank: u8 },
}

/// Stores a savepoint that counts nothing of the log files of these numbers, and cuts them. A crash of all
/// devices at any moments, as their ties and cuts allow them together, stands for a savepoint that was
/// newest before or for this one.
pub fn store_and_cut<D: Disk>(
    save: &mut Save,
    vault: &mut Vault<D>,
    saved: Saved,
    numbers: &[u8],
) -> Result<(), StoreAndCutFault>
    requires saved { IsSaved saved }
    requires up { save.old.down ≡ None }
    requires stored { IsStored D.tells D.clock D.image_at vault.old.save save.old.newest }
    requires counted { AreCounted D.tells D.clock D.image_at saved.lengths vault.old }
    requires banks { (n : ℕ) → Contains numbers.now n → IsSome (disk_in vault.old (Device.Bank n)) }
    requires tie_room { 1 ≤ vault.old.ties.room }
    requires cut_room { length numbers.now ≤ vault.old.cuts.room }
    ensures { StoresAndCuts D.tells D.clock D.image_at D.faults saved numbers.now save.old save.new
        vault.old vault.new result }
{
    match save.store_in(vault, saved) {
        Ok(()) => {}
        Err(fault) => return Err(StoreAndCutFault::Store(fault)),
    }
    let sequence = save.sequence();
    match cut_banks(vault, numbers, sequence) {
        Ok(()) => Ok(()),
        Err(bank) => Err(StoreAndCutFault::Cut { bank }),
    }
}
