// Savepoints by marks that were seen while their workers ran.
ghost use Rattle.std.specs.Prelude.{◌≡◌, ◌<◌, ◌≤◌, ◌^◌, None, length, map, flat_map, fold, min};
ghost use Rattle.std.specs.Prelude.{option_to_list};
ghost use Rattle.std.specs.List.{AllByRecursion};
ghost use Rattle.serial_model.specs.Numbers.{last_epoch};
ghost use Rattle.wire_form.specs.Words.{IsMark};
ghost use Rattle.log_writer.specs.Counted.{AlwaysTells};
ghost use Rattle.log_writer.specs.Points.{IsSaved};
ghost use Rattle.log_writer.specs.Save.{IsStored};
ghost use Rattle.worker_logs.specs.Saves.{AreDurable, IsBeside, SavesBy, SavesMarks};

use crate::savepoints::{Beside, lengths};
use log_writer::{Save, SaveFault, Saved, Vault};
use outside::Disk;
use wire_form::Mark;

/// Stores the next savepoint by these marks of the workers, as they were seen, and what counts beside, and answers the
/// saved epoch. The logs aren't wanted, nor the log files that grow: these may be lent to their workers meanwhile.
pub fn save_seen<D: Disk>(
    save: &mut Save,
    clock: u32,
    seen: &[Mark; 8],
    beside: &Beside,
    vault: &mut Vault<D>,
) -> Result<u32, SaveFault>
    requires first { 1 ≤ clock }
    requires last { clock ≤ last_epoch }
    requires seen { (length seen.now ≡ 8) × AllByRecursion IsMark seen.now }
    requires beside { IsBeside beside.now }
    requires stored { save.old.down ≡ None
        → IsStored D.tells D.clock D.image_at vault.old.save save.old.newest }
    requires durable { AlwaysTells D.tells
        → AreDurable D.clock D.image_at seen.now beside.now vault.old }
    requires room { 1 ≤ vault.old.ties.room }
    ensures saves { SavesMarks D.tells D.clock D.image_at D.faults clock seen.now beside.now
        save.old save.new vault.old vault.new result }
{
    let saved = saved_seen(clock, seen, beside);
    // Its clause says that the sequence is below 2^63.
    let _sequence = save.sequence();
    match save.store_in(vault, saved) {
        Ok(()) => Ok(saved.epoch),
        Err(fault) => Err(fault),
    }
}

// What may be saved by these marks.
fn saved_seen(clock: u32, seen: &[Mark; 8], beside: &Beside) -> Saved
    requires first { 1 ≤ clock }
    requires last { clock ≤ last_epoch }
    requires seen { (length seen.now ≡ 8) × AllByRecursion IsMark seen.now }
    requires beside { IsBeside beside.now }
    ensures by_marks { SavesBy clock seen.now beside.now result }
    ensures ranges { IsSaved result }
{
    Saved {
        epoch: least_seen(clock - 1, seen),
        catalogue: beside.count,
        count: beside.count,
        lengths: lengths(beside.growing, &lengths_seen(seen), &beside.closed),
    }
}

// The least of an epoch and of those that are marked. Idle workers hold nothing back.
fn least_seen(epoch: u32, seen: &[Mark]) -> u32
    ensures least { result ≡ fold min epoch (flat_map option_to_list (map (λ (m : Mark). m.epoch) seen.now)) }
    ensures at_most { result ≤ epoch }
{
    let mut least = epoch;
    for mark in seen {
        least = mark.epoch.unwrap_or(least).min(least);
    }
    least
}

// The length of each growing log file that is marked.
fn lengths_seen(seen: &[Mark; 8]) -> [u64; 8]
    requires seen { (length seen.now ≡ 8) × AllByRecursion IsMark seen.now }
    ensures lengths { result ≡ map (λ (m : Mark). m.length) seen.now }
    ensures counted { AllByRecursion (λ n. n < 2 ^ 40) result }
    ensures workers { length result ≡ 8 }
{
    [
        seen[0].length,
        seen[1].length,
        seen[2].length,
        seen[3].length,
        seen[4].length,
        seen[5].length,
        seen[6].length,
        seen[7].length,
    ]
}
