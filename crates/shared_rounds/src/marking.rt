// As a round begins, each worker's mark stands on the words.
ghost use Rattle.std.specs.Prelude.{◌≡◌, ◌<◌, ℕ, None, Some, [], get_or, length, slice_get};
ghost use Rattle.std.specs.List.{AllByRecursion};
ghost use Rattle.engine_pages.specs.Passes.{IsPassOf, view};
ghost use Rattle.engine_pages.specs.declared.view.Role.TheVariants.{Worker};
ghost use Rattle.worker_cells.specs.Below.{IsOver};
ghost use Rattle.worker_logs.specs.Logs.{LogState};
ghost use Rattle.worker_logs.specs.Rows.{AreLogsUp, IsLogUp};
ghost use Rattle.shared_rounds.specs.Ended.{OwnsBehind};
ghost use Rattle.shared_rounds.specs.First.{SetsAt, SetsOne, SetsSeat, ShowsMarks};
ghost use Rattle.shared_rounds.specs.Seating.{CanSeat};

use engine_pages::{Engine, Pass};
use engine_seats::{end, seat};
use outside::Disk;
use resident_pages::look_at_pages;
use serial_model::WORKERS;
use worker_cells::{idle, show_first};
use worker_logs::WorkerLog;

/// Sets the mark of each worker on the words, before any is seated for its lines: that of a worker of so many lines
/// anew, of the epoch before the clock's; without a line it is idle. From then on the keeper knows them as the last
/// ones, and the epoch before the clock's as over. Behind them it looks how many pages are published.
pub(crate) fn show_marks<D: Disk>(
    engine: &Engine,
    keeper: &mut Pass,
    logs: &mut Vec<WorkerLog>,
    growing: &mut Vec<D>,
    counts: &[u32; WORKERS],
)
    requires of { IsPassOf engine.now keeper.old }
    requires keeper { CanSeat (view keeper.old) }
    requires parked { length (view keeper.old).parked ≡ 8 }
    requires logs { (length logs.old.items ≡ 8) × (length growing.old.items ≡ 8) }
    requires up { AreLogsUp D.tells logs.old.items growing.old.items }
    requires flushed { AllByRecursion (λ (log : LogState). log.journal.lines ≡ []) logs.old.items }
    requires counts { length counts.now ≡ 8 }
    requires idle { (worker : ℕ) (log : LogState) → slice_get logs.old.items worker ≡ Some log
        → get_or counts.now worker 0 ≡ 0 → log.mark.epoch ≡ None }
    ensures of { IsPassOf engine.now keeper.new }
    ensures shows { ShowsMarks D.tells D.clock D.image_at D.faults counts.now 8 (view keeper.old) (view keeper.new)
        logs.old.items logs.new.items growing.old.items growing.new.items }
    ensures behind { OwnsBehind (view keeper.new) }
{
    show_each(
        engine,
        keeper,
        logs.as_mut_slice(),
        growing.as_mut_slice(),
        counts,
    );
}

// The same, of logs that are lent.
fn show_each<D: Disk>(
    engine: &Engine,
    keeper: &mut Pass,
    logs: &mut [WorkerLog],
    growing: &mut [D],
    counts: &[u32; WORKERS],
)
    requires of { IsPassOf engine.now keeper.old }
    requires keeper { CanSeat (view keeper.old) }
    requires parked { length (view keeper.old).parked ≡ 8 }
    requires logs { (length logs.old ≡ 8) × (length growing.old ≡ 8) }
    requires up { AreLogsUp D.tells logs.old growing.old }
    requires flushed { AllByRecursion (λ (log : LogState). log.journal.lines ≡ []) logs.old }
    requires counts { length counts.now ≡ 8 }
    requires idle { (worker : ℕ) (log : LogState) → slice_get logs.old worker ≡ Some log
        → get_or counts.now worker 0 ≡ 0 → log.mark.epoch ≡ None }
    ensures of { IsPassOf engine.now keeper.new }
    ensures shows { ShowsMarks D.tells D.clock D.image_at D.faults counts.now 8
        (view keeper.old) (view keeper.new) logs.old logs.new growing.old growing.new }
    ensures behind { OwnsBehind (view keeper.new) }
{
    for worker in 0..WORKERS {
        show_at(engine, keeper, logs, growing, counts, worker);
    }
    look_at_pages(engine, keeper);
}

// Sets the mark of one of the workers.
fn show_at<D: Disk>(
    engine: &Engine,
    keeper: &mut Pass,
    logs: &mut [WorkerLog],
    growing: &mut [D],
    counts: &[u32; WORKERS],
    worker: usize,
)
    requires of { IsPassOf engine.now keeper.old }
    requires keeper { CanSeat (view keeper.old) }
    requires parked { length (view keeper.old).parked ≡ 8 }
    requires worker { (worker < 8) × (worker < length logs.old) × (worker < length growing.old) }
    requires up { (log : LogState) (bank : D) → slice_get logs.old worker ≡ Some log
        → slice_get growing.old worker ≡ Some bank → IsLogUp D.tells log bank }
    requires flushed { (log : LogState) → slice_get logs.old worker ≡ Some log → log.journal.lines ≡ [] }
    requires counts { length counts.now ≡ 8 }
    requires idle { (log : LogState) → slice_get logs.old worker ≡ Some log
        → get_or counts.now worker 0 ≡ 0 → log.mark.epoch ≡ None }
    ensures of { IsPassOf engine.now keeper.new }
    ensures one { SetsAt D.tells D.clock D.image_at D.faults (get_or counts.now worker 0) worker
        (view keeper.old) (view keeper.new) logs.old logs.new growing.old growing.new }
{
    show_one(
        engine,
        keeper,
        worker as u8,
        counts[worker],
        &mut logs[worker],
        &mut growing[worker],
    );
}

// Seats a worker, sets its mark, and takes the seat in again.
fn show_one<D: Disk>(
    engine: &Engine,
    keeper: &mut Pass,
    worker: u8,
    lines: u32,
    log: &mut WorkerLog,
    bank: &mut D,
)
    requires of { IsPassOf engine.now keeper.old }
    requires keeper { CanSeat (view keeper.old) }
    requires parked { length (view keeper.old).parked ≡ 8 }
    requires worker { worker < 8 }
    requires up { IsLogUp D.tells log.old bank.old }
    requires flushed { log.old.journal.lines ≡ [] }
    requires idle { lines ≡ 0 → log.old.mark.epoch ≡ None }
    ensures of { IsPassOf engine.now keeper.new }
    ensures sets { SetsOne D.tells D.clock D.image_at D.faults lines worker (view keeper.old) (view keeper.new)
        log.old log.new bank.old bank.new }
{
    let mut pass = seat(engine, keeper, worker);
    set_mark(engine, &mut pass, worker, lines, log, bank);
    end(engine, keeper, pass);
}

// Sets the mark of a worker of so many lines, which is seated.
fn set_mark<D: Disk>(
    engine: &Engine,
    pass: &mut Pass,
    worker: u8,
    lines: u32,
    log: &mut WorkerLog,
    bank: &mut D,
)
    requires of { IsPassOf engine.now pass.old }
    requires over { IsOver (view pass.old) }
    requires worker { ((view pass.old).role ≡ Worker worker) × (worker < 8) }
    requires up { IsLogUp D.tells log.old bank.old }
    requires flushed { log.old.journal.lines ≡ [] }
    requires idle { lines ≡ 0 → log.old.mark.epoch ≡ None }
    ensures of { IsPassOf engine.now pass.new }
    ensures sets { SetsSeat D.tells D.clock D.image_at D.faults lines (view pass.old) (view pass.new)
        log.old log.new bank.old bank.new }
{
    if lines > 0 {
        show_first(engine, pass, worker, log, bank);
        return;
    }
    idle(engine, pass, worker, log.mark().length);
}
