// Savepoints of a running database.
ghost use Rattle.std.specs.Prelude.{◌≡◌, ◌<◌, ◌≤◌, ◌^◌, None, length, map, flat_map, fold, min};
ghost use Rattle.std.specs.Prelude.{option_to_list};
ghost use Rattle.std.specs.List.{AllByRecursion};
ghost use Rattle.serial_model.specs.Numbers.{last_epoch};
ghost use Rattle.log_writer.specs.Counted.{AlwaysTells};
ghost use Rattle.log_writer.specs.Points.{IsSaved};
ghost use Rattle.log_writer.specs.Save.{IsStored};
ghost use Rattle.worker_logs.specs.Saves.{AreDurable, IsBeside, SavesBy, SavesMarks, in_turn, lengths_by, logs_marks};

use crate::WorkerLog;
use log_writer::{Save, SaveFault, Saved, Vault};
use outside::Disk;

/// Which log file of each worker grows: that of even number, or of odd. The other one is closed.
#[derive(Clone, Copy, Debug, PartialEq, Eq)]
pub enum Side {
    Even,
    Odd,
}

/// What a savepoint counts beside the growing log files.
#[derive(Clone, Copy)]
pub struct Beside {
    /// Which log files grow.
    pub growing: Side,
    /// How many bytes of each worker's closed log file count.
    pub closed: [u64; 8],
    /// How many pages of snapshots there are. The last of them is the newest catalogue.
    pub count: u32,
}

/// Stores the next savepoint by the marks of the workers' logs and what counts beside, and answers the saved epoch. All
/// that these count is durable already: a mark is set behind its flush, and what counts beside was marked once.
pub fn save_marks<D: Disk>(
    save: &mut Save,
    clock: u32,
    logs: &[WorkerLog],
    beside: &Beside,
    vault: &mut Vault<D>,
) -> Result<u32, SaveFault>
    requires first { 1 ≤ clock }
    requires last { clock ≤ last_epoch }
    requires logs { length logs.now ≡ 8 }
    requires beside { IsBeside beside.now }
    requires stored { save.old.down ≡ None
        → IsStored D.tells D.clock D.image_at vault.old.save save.old.newest }
    requires durable { AlwaysTells D.tells
        → AreDurable D.clock D.image_at (logs_marks logs.now) beside.now vault.old }
    requires room { 1 ≤ vault.old.ties.room }
    ensures saves { SavesMarks D.tells D.clock D.image_at D.faults clock (logs_marks logs.now) beside.now
        save.old save.new vault.old vault.new result }
{
    let saved = saved_by(clock, logs, beside);
    // Its clause says that the sequence is below 2^63.
    let _sequence = save.sequence();
    match save.store_in(vault, saved) {
        Ok(()) => Ok(saved.epoch),
        Err(fault) => Err(fault),
    }
}

// What may be saved: no epoch that a worker may still commit in, and of each growing log file what its mark counts.
fn saved_by(clock: u32, logs: &[WorkerLog], beside: &Beside) -> Saved
    requires first { 1 ≤ clock }
    requires last { clock ≤ last_epoch }
    requires logs { length logs.now ≡ 8 }
    requires beside { IsBeside beside.now }
    ensures by_marks { SavesBy clock (logs_marks logs.now) beside.now result }
    ensures ranges { IsSaved result }
{
    Saved {
        epoch: least_epoch(clock - 1, logs),
        catalogue: beside.count,
        count: beside.count,
        lengths: lengths(beside.growing, &marked_lengths(logs), &beside.closed),
    }
}

// The least of an epoch and of those that are marked. Idle workers hold nothing back.
fn least_epoch(epoch: u32, logs: &[WorkerLog]) -> u32
    ensures least { result ≡ fold min epoch (flat_map option_to_list (map (λ m. m.epoch) (logs_marks logs.now))) }
    ensures at_most { result ≤ epoch }
{
    let mut least = epoch;
    for log in logs {
        least = log.mark().epoch.unwrap_or(least).min(least);
    }
    least
}

/// The length of each growing log file that is marked.
pub fn marked_lengths(logs: &[WorkerLog]) -> [u64; 8]
    requires logs { length logs.now ≡ 8 }
    ensures lengths { result ≡ map (λ m. m.length) (logs_marks logs.now) }
    ensures counted { AllByRecursion (λ n. n < 2 ^ 40) result }
    ensures workers { length result ≡ 8 }
{
    [
        logs[0].mark().length,
        logs[1].mark().length,
        logs[2].mark().length,
        logs[3].mark().length,
        logs[4].mark().length,
        logs[5].mark().length,
        logs[6].mark().length,
        logs[7].mark().length,
    ]
}

/// The lengths of growing and of closed log files, by their numbers.
pub(crate) fn lengths(growing: Side, marked: &[u64; 8], closed: &[u64; 8]) -> [u64; 16]
    requires marked { length marked.now ≡ 8 }
    requires closed { length closed.now ≡ 8 }
    ensures lengths { result ≡ lengths_by growing marked.now closed.now }
{
    match growing {
        Side::Even => one_by_one(marked, closed),
        Side::Odd => one_by_one(closed, marked),
    }
}

// The lengths of the log files of even and of odd number, in turn.
fn one_by_one(even: &[u64; 8], odd: &[u64; 8]) -> [u64; 16]
    requires even { length even.now ≡ 8 }
    requires odd { length odd.now ≡ 8 }
    ensures lengths { result ≡ in_turn even.now odd.now }
{
    [
        even[0], odd[0], even[1], odd[1], even[2], odd[2], even[3], odd[3], even[4], odd[4],
        even[5], odd[5], even[6], odd[6], even[7], odd[7],
    ]
}
