// The swap of a join: the closed log files are emptied and grow from then on, and those that grew are closed.
ghost use Rattle.std.specs.Prelude.{◌≡◌, ◌≢◌, ◌<◌, ◌+◌, ◌≤◌, ◌^◌, ℕ, [], Some, length, map};
ghost use Rattle.std.specs.Prelude.{slice_get};
ghost use Rattle.std.specs.List.{AllByRecursion};
ghost use Rattle.log_writer.specs.Vault.{IsWhole};
ghost use Rattle.log_writer.specs.Save.{IsNewest, IsStored};
ghost use Rattle.tx_script.specs.Causes.{some_counted};
ghost use Rattle.worker_logs.specs.Logs.{LogState, reset_log};
ghost use Rattle.round_engine.specs.Sides.{closed_numbers};
ghost use Rattle.round_engine.specs.Standing.{AreClosed};
ghost use Rattle.round_engine.specs.Swaps.{CutsBanks, SwapsAt, cut_failed, turned};

use crate::sides::{closed_number, other_side};
use crate::{End, Runtime};
use log_writer::Vault;
use outside::{Device, Disk};
use worker_logs::{Side, WorkerLog, marked_lengths};

/// Swaps the sides behind the save of this epoch, where nothing of the closed log files counts. Answers what ends the
/// run, if a cut failed: then the sides stay.
pub(crate) fn swap<D: Disk>(runtime: &mut Runtime, vault: &mut Vault<D>, epoch: u32) -> Option<End>
    requires whole { IsWhole vault.old }
    requires workers { length runtime.old.logs ≡ 8 }
    requires flushed { AllByRecursion (λ log. log.journal.lines ≡ []) runtime.old.logs }
    requires closed { AreClosed runtime.old }
    requires cut_room { 8 ≤ vault.old.cuts.room }
    requires stored { IsStored D.tells D.clock D.image_at vault.old.save runtime.old.save.newest }
    ensures counted { AllByRecursion (λ n. n < 2 ^ 40) runtime.new.counted }
    ensures swaps { SwapsAt D.tells D.clock D.image_at D.faults epoch runtime.old runtime.new
        vault.old vault.new result }
{
    if runtime.has_counted() {
        return None;
    }
    match cut_closed(vault, runtime.side, runtime.save.sequence()) {
        Ok(()) => {
            runtime.turn(epoch);
            None
        }
        Err(number) => Some(End::Device(Device::Bank(number))),
    }
}

// Empties the closed log files, one after another, or tells which one failed.
fn cut_closed<D: Disk>(vault: &mut Vault<D>, side: Side, after: u64) -> Result<(), u8>
    requires whole { IsWhole vault.old }
    requires cut_room { 8 ≤ vault.old.cuts.room }
    requires newest { IsNewest D.tells D.clock D.image_at vault.old.save after }
    ensures cuts { CutsBanks D.tells D.clock D.image_at D.faults after (closed_numbers side) (cut_failed result)
        vault.old vault.new }
{
    for worker in 0..8 {
        let number = closed_number(side, worker);
        let Ok(()) = vault.cut_in(Device::Bank(number), after) else {
            return Err(number);
        };
    }
    Ok(())
}

// Resets the logs: those of empty log files.
fn reset_all(logs: &mut [WorkerLog])
    requires flushed { AllByRecursion (λ log. log.journal.lines ≡ []) logs.old }
    ensures resets { logs.new ≡ map reset_log logs.old }
{
    for index in 0..logs.len() {
        reset_one(logs, index);
    }
}

// Resets this log.
fn reset_one(logs: &mut [WorkerLog], index: usize)
    requires within { index < length logs.old }
    requires flushed { (log : LogState) → slice_get logs.old index ≡ Some log → log.journal.lines ≡ [] }
    ensures mine { (log : LogState) → slice_get logs.old index ≡ Some log
        → slice_get logs.new index ≡ Some (reset_log log) }
    ensures others { (other : ℕ) → other ≢ index → slice_get logs.new other ≡ slice_get logs.old other }
    ensures length { length logs.new ≡ length logs.old }
{
    logs[index].reset();
}

impl Runtime {
    // Whether a byte of the closed log files counts.
    fn has_counted(&self) -> bool
        ensures { result ≡ some_counted self.now.counted }
    {
        self.counted.iter().any(|length| *length > 0)
    }

    // The log files that grew are closed, at this epoch, and the others grow.
    fn turn(&mut self, epoch: u32)
        requires workers { length self.old.logs ≡ 8 }
        requires flushed { AllByRecursion (λ log. log.journal.lines ≡ []) self.old.logs }
        ensures turns { self.new ≡ turned epoch self.old }
        ensures counted { AllByRecursion (λ n. n < 2 ^ 40) self.new.counted }
    {
        self.counted = marked_lengths(&self.logs);
        self.closed_at = epoch;
        self.side = other_side(self.side);
        reset_all(&mut self.logs);
    }
}
