// A flush of all workers' logs.
ghost use Rattle.std.specs.Prelude.{◌≡◌, ◌≢◌, ◌<◌, ◌≤◌, ℕ, Some, length, slice_get};
ghost use Rattle.log_writer.specs.Journal.{Reaches};
ghost use Rattle.worker_logs.specs.FlushAll.{AllReach, FlushedAs, FlushesAll, WentSo};
ghost use Rattle.worker_logs.specs.Logs.{LogState};

use crate::WorkerLog;
use log_writer::LogFault;
use outside::Disk;

/// Makes each worker's log durable in its growing log file, and marks it at the clock's epoch less 1. Where a log
/// refuses, it answers whose, and leaves those behind it alone.
pub fn flush_all<D: Disk>(
    logs: &mut [WorkerLog],
    growing: &mut [D],
    clock: u32,
) -> Result<(), usize>
    requires as_many { length growing.old ≡ length logs.old }
    requires reaches { AllReach D.tells logs.old growing.old }
    requires clock { 1 ≤ clock }
    ensures flushes { FlushesAll D.tells D.clock D.image_at D.faults clock
        logs.old logs.new growing.old growing.new result }
{
    for worker in 0..logs.len() {
        let Ok(()) = flush_one(logs, growing, worker, clock) else {
            return Err(worker);
        };
    }
    Ok(())
}

// Flushes and marks the log of one worker.
fn flush_one<D: Disk>(
    logs: &mut [WorkerLog],
    growing: &mut [D],
    worker: usize,
    clock: u32,
) -> Result<(), LogFault>
    requires log { worker < length logs.old }
    requires bank { worker < length growing.old }
    requires reaches { (log : LogState) (bank : D) → slice_get logs.old worker ≡ Some log
        → slice_get growing.old worker ≡ Some bank → Reaches D.tells bank log.journal }
    requires clock { 1 ≤ clock }
    ensures one { WentSo (FlushedAs D.tells D.clock D.image_at D.faults clock result) worker
        logs.old logs.new growing.old growing.new }
    ensures other_logs { (other : ℕ) → other ≢ worker → slice_get logs.new other ≡ slice_get logs.old other }
    ensures other_banks { (other : ℕ) → other ≢ worker
        → slice_get growing.new other ≡ slice_get growing.old other }
    ensures as_many_logs { length logs.new ≡ length logs.old }
    ensures as_many_banks { length growing.new ≡ length growing.old }
{
    logs[worker].flush_and_mark(&mut growing[worker], clock)
}
