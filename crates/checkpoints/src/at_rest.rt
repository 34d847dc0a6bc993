// A vault with a savepoint of which no entry counts is settled: its log files are emptied.
ghost use Rattle.std.specs.Prelude.{◌≡◌, ◌+◌, ◌≤◌, ℕ, [], Some};
ghost use Rattle.std.specs.Prelude.{Err, OnOk, is_ok};
ghost use Rattle.log_writer.specs.Vault.{IsWhole};
ghost use Rattle.serial_model.specs.State.{State};
ghost use Rattle.wire_form.specs.declared.savepoint.Savepoint.{Savepoint};
ghost use Rattle.log_writer.specs.Points.{IsSaved, point_of, sequence_of};
ghost use Rattle.log_writer.specs.Save.{IsStored};
ghost use Rattle.joint_crashes.specs.Images.{Images, counted_of};
ghost use Rattle.recovery_core.specs.Recoverable.{counting, IsRecoverable};
ghost use Rattle.checkpoints.specs.SettledLaws.{SaysSame};
ghost use Rattle.joint_crashes.specs.JointCrash.{Moments, parts_of};
ghost use Rattle.joint_crashes.specs.SettleRests.{RestsSince};
ghost use Rattle.joint_crashes.specs.Resting.{IsResting, HasNoRecords, AreTold};
ghost use Rattle.checkpoints.specs.CrashesRecover.{LeavesSame};
ghost use Rattle.checkpoints.specs.Files.{AllTell, AreEmpty};
ghost use Rattle.joint_crashes.specs.Banks.{all_banks};
ghost use Rattle.checkpoints.specs.SettleLeaves.{CanStore, LeavesWhole, StandsEmptied};
ghost use Rattle.checkpoints.specs.StoreAnswers.{StoreAnswers};
ghost use Rattle.joint_crashes.specs.RecordsAdded.{RecordsAdded};
ghost use Rattle.checkpoints.specs.SettleGoesOn.{GoesOn};
ghost use Rattle.joint_crashes.specs.VaultReads.{RoseIn, AreQuiet};

use joint_crashes::{BANKS, StoreAndCutFault, cut_banks, store_and_cut};
use log_writer::{Save, Saved, Vault};
use outside::{Device, Disk};

/// Stores a savepoint that says the same as the newest one and counts nothing of the log files, and then
/// empties these. Whatever it answers, each crash since it began leaves the epoch and the state that were
/// recovered, where no entry counted.
pub(crate) fn settle_lengths<D: Disk>(
    save: &mut Save,
    vault: &mut Vault<D>,
    saved: Saved,
) -> Result<(), StoreAndCutFault>
    requires can { CanStore D.tells D.clock D.image_at save.old vault.old }
    requires saved { IsSaved saved }
    requires nothing { (sequence n : ℕ) → counted_of (Some (point_of sequence saved)) n ≡ 0 }
    ensures crashes { (found : Images) (from : Moments) (epoch : ℕ) (state : State) (p : Savepoint)
        → (rest : IsResting D.clock D.image_at (parts_of vault.old)) → HasNoRecords (parts_of vault.old)
        → AreTold D.tells (parts_of vault.old) found
        → RestsSince D.clock D.image_at from rest.point rest.pages rest.counted (parts_of vault.old)
        → (is : IsRecoverable found epoch state) → counting is.reading ≡ []
        → save.old.newest ≡ Some p → SaysSame p (point_of (sequence_of save.old.newest + 1) saved)
        → LeavesSame D.clock D.image_at from is.reading epoch state
        (parts_of vault.old) (parts_of vault.new) }
    ensures goes_on { (found : Images) (from : Moments) (epoch : ℕ) (state : State) (p : Savepoint)
        → (rest : IsResting D.clock D.image_at (parts_of vault.old)) → HasNoRecords (parts_of vault.old)
        → AreTold D.tells (parts_of vault.old) found
        → RestsSince D.clock D.image_at from rest.point rest.pages rest.counted (parts_of vault.old)
        → (is : IsRecoverable found epoch state) → counting is.reading ≡ []
        → save.old.newest ≡ Some p → SaysSame p (point_of (sequence_of save.old.newest + 1) saved)
        → OnOk result (GoesOn D.clock D.image_at from is.reading epoch state
        (sequence_of save.old.newest) (Some (point_of (sequence_of save.old.newest + 1) saved))
        (parts_of vault.new)) }
    ensures answers { StoreAnswers D.faults (sequence_of save.old.newest) vault.old vault.new result }
    ensures newest { OnOk result (save.new.newest ≡ Some (point_of (sequence_of save.old.newest + 1) saved)) }
    ensures stands { OnOk result (StandsEmptied D.tells D.clock D.image_at save.new vault.old vault.new) }
    ensures snaps { vault.new.snaps ≡ vault.old.snaps }
    ensures leaves { LeavesWhole (sequence_of save.old.newest) 1 (is_ok result) vault.old vault.new }
{
    store_and_cut(save, vault, saved, &BANKS)
}

/// Empties the log files, where the newest savepoint counts nothing of them, or tells which one failed.
/// Whatever it answers, each crash since the devices rest leaves the epoch and the state that were recovered.
pub(crate) fn cut_uncounted<D: Disk>(save: &Save, vault: &mut Vault<D>) -> Result<(), u8>
    requires whole { IsWhole vault.old }
    requires stored { IsStored D.tells D.clock D.image_at vault.old.save save.now.newest }
    requires cut_room { 16 ≤ vault.old.cuts.room }
    ensures crashes { (found : Images) (from : Moments) (epoch : ℕ) (state : State) (p : Savepoint)
        → (rest : IsResting D.clock D.image_at (parts_of vault.old)) → HasNoRecords (parts_of vault.old)
        → AreTold D.tells (parts_of vault.old) found
        → RestsSince D.clock D.image_at from rest.point rest.pages rest.counted (parts_of vault.old)
        → (is : IsRecoverable found epoch state) → counting is.reading ≡ []
        → save.now.newest ≡ Some p → ((n : ℕ) → counted_of (Some p) n ≡ 0)
        → LeavesSame D.clock D.image_at from is.reading epoch state
        (parts_of vault.old) (parts_of vault.new) }
    ensures goes_on { (found : Images) (from : Moments) (epoch : ℕ) (state : State) (p : Savepoint)
        → (rest : IsResting D.clock D.image_at (parts_of vault.old)) → HasNoRecords (parts_of vault.old)
        → AreTold D.tells (parts_of vault.old) found
        → RestsSince D.clock D.image_at from rest.point rest.pages rest.counted (parts_of vault.old)
        → (is : IsRecoverable found epoch state) → counting is.reading ≡ []
        → save.now.newest ≡ Some p → ((n : ℕ) → counted_of (Some p) n ≡ 0)
        → OnOk result (GoesOn D.clock D.image_at from is.reading epoch state
        (sequence_of save.now.newest) save.now.newest (parts_of vault.new)) }
    ensures emptied { AllTell D.tells (parts_of vault.old) → OnOk result (AreEmpty D.tells vault.new) }
    ensures device { (n : ℕ) → result ≡ Err n → RoseIn D.faults (Device.Bank n) vault.old vault.new }
    ensures others { (vault.new.save ≡ vault.old.save) × (vault.new.snaps ≡ vault.old.snaps)
        × (vault.new.ties ≡ vault.old.ties) }
    ensures quiet { OnOk result (AreQuiet D.faults vault.old vault.new) }
    ensures whole { IsWhole vault.new }
    ensures records { RecordsAdded (sequence_of save.now.newest) 0 all_banks (is_ok result) vault.old vault.new }
{
    let sequence = save.sequence();
    cut_banks(vault, &BANKS, sequence)
}
