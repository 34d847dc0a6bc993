// The marks of workers without a line.
ghost use Rattle.std.specs.Prelude.{◌≡◌, ◌≢◌, ◌<◌, ℕ, Bool, Some, length, slice_get};
ghost use Rattle.worker_logs.specs.Logs.{LogState};
ghost use Rattle.round_engine.specs.Workers.{idle_if_not};

use serial_model::WORKERS;
use worker_logs::WorkerLog;

/// The marks of workers without a line in the round, who aren't busy, hold no epoch back.
pub(crate) fn idle_without_lines(logs: &mut [WorkerLog], busy: &[bool])
    requires logs { length logs.old ≡ 8 }
    requires busy { length busy.now ≡ 8 }
    ensures idle { (worker : ℕ) (log : LogState) (has : Bool) → slice_get logs.old worker ≡ Some log
        → slice_get busy.now worker ≡ Some has → slice_get logs.new worker ≡ Some (idle_if_not has log) }
    ensures length { length logs.new ≡ length logs.old }
{
    for worker in 0..WORKERS {
        idle_unless(logs, worker, busy[worker]);
    }
}

// The mark of this worker holds no epoch back, unless it is busy.
fn idle_unless(logs: &mut [WorkerLog], worker: usize, busy: bool)
    requires { worker < length logs.old }
    ensures mine { (log : LogState) → slice_get logs.old worker ≡ Some log
        → slice_get logs.new worker ≡ Some (idle_if_not busy log) }
    ensures others { (other : ℕ) → other ≢ worker
        → slice_get logs.new other ≡ slice_get logs.old other }
    ensures length { length logs.new ≡ length logs.old }
{
    if !busy {
        logs[worker].idle();
    }
}
