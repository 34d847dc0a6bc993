// As a round begins, before a line, and behind the last one: the log and the worker's mark on the words.
ghost use Rattle.std.specs.Prelude.{◌≡◌, ◌⊎◌, ◌+◌, ◌-◌, ◌<◌, ◌≤◌, ◌^◌, Some, None, [], OnOk, ℕ, Err, is_some};
ghost use Rattle.log_writer.specs.Journal.{Reaches, end_of, free};
ghost use Rattle.serial_model.specs.Numbers.{last_epoch};
ghost use Rattle.commit_core.specs.CoreState.{last_marked};
ghost use Rattle.engine_pages.specs.declared.view.Role.TheVariants.{Worker};
ghost use Rattle.engine_pages.specs.Passes.{IsPassOf, view};
ghost use Rattle.tx_runner.specs.Below.{IsOver};
ghost use Rattle.worker_logs.specs.Logs.{IsJoined};
ghost use Rattle.worker_logs.specs.Moves.{refusal};
ghost use Rattle.worker_logs.specs.Rows.{IsLogUp};
ghost use Rattle.worker_cells.specs.Cells.{IsMarkedBelow, IsTied, Readies, ReadiesSome, ShowsFirst, ShowsMark};
ghost use Rattle.worker_cells.specs.Rows.{Goes};

use engine_pages::{Engine, Pass};
use log_writer::LogFault;
use outside::Disk;
use tx_runner::{load_epoch, mark};
use wire_form::Mark;
use worker_logs::WorkerLog;

/// Marks all that is durable as a round begins, of the epoch before the clock's, and sets that mark on the words. The
/// log is up, and nothing waits in it, so nothing is refused.
pub fn show_first<D: Disk>(
    engine: &Engine,
    pass: &mut Pass,
    worker: u8,
    log: &mut WorkerLog,
    bank: &mut D,
)
    requires of { IsPassOf engine.now pass.old }
    requires over { IsOver (view pass.old) }
    requires worker { ((view pass.old).role ≡ Worker worker) × (worker < 8) }
    requires up { IsLogUp D.tells log.old bank.old }
    requires flushed { log.old.journal.lines ≡ [] }
    ensures of { IsPassOf engine.now pass.new }
    ensures first { ShowsFirst D.tells D.clock D.image_at D.faults (view pass.old) (view pass.new)
        log.old log.new bank.old bank.new }
{
    let clock = load_epoch(engine, pass);
    let _marked = log.flush_and_mark(bank, clock);
    mark(engine, pass, worker, clock, log.journal());
}

/// Makes the log ready for a line: its mark, which stands on the words too, is of the epoch before the clock's.
pub(crate) fn make_ready<D: Disk>(
    engine: &Engine,
    pass: &mut Pass,
    worker: u8,
    log: &mut WorkerLog,
    bank: &mut D,
) -> Result<(), LogFault>
    requires of { IsPassOf engine.now pass.old }
    requires over { IsOver (view pass.old) }
    requires worker { ((view pass.old).role ≡ Worker worker) × (worker < 8) }
    requires tied { IsTied log.old.mark (view pass.old).seat.marks }
    requires reaches { Reaches D.tells bank.old log.old.journal }
    ensures of { IsPassOf engine.now pass.new }
    ensures readies { Readies D.tells D.clock D.image_at D.faults (refusal result) (view pass.old) (view pass.new)
        log.old log.new bank.old bank.new }
    ensures marked { OnOk result (IsMarkedBelow log.new.mark (view pass.new)) }
    ensures free { OnOk result (400 ≤ free log.new.journal) }
    ensures below { OnOk result (end_of log.new.journal + 400 ≤ log.new.journal.limit) }
    ensures full { (length : ℕ) → result ≡ Err (LogFault.Limit length)
        → (length ≡ end_of log.old.journal) × (log.old.journal.limit < length + 400) }
{
    let clock = load_epoch(engine, pass);
    let shown = log.mark();
    let ready = log.prepare(bank, clock);
    show_mark(engine, pass, worker, clock, shown, log);
    ready
}

/// Makes durable what waits, and marks it. Tells whether the log file failed.
pub(crate) fn flush_last<D: Disk>(
    engine: &Engine,
    pass: &mut Pass,
    worker: u8,
    log: &mut WorkerLog,
    bank: &mut D,
) -> bool
    requires of { IsPassOf engine.now pass.old }
    requires over { IsOver (view pass.old) }
    requires worker { ((view pass.old).role ≡ Worker worker) × (worker < 8) }
    requires reaches { Reaches D.tells bank.old log.old.journal }
    ensures of { IsPassOf engine.now pass.new }
    ensures readies { ReadiesSome D.tells D.clock D.image_at D.faults (view pass.old) (view pass.new)
        log.old log.new bank.old bank.new }
    ensures failed { result ≡ is_some log.new.journal.down }
    ensures flushed { log.new.journal.down ≡ None → log.new.journal.lines ≡ [] }
{
    let clock = load_epoch(engine, pass);
    let shown = log.mark();
    let marked = log.flush_and_mark(bank, clock);
    show_mark(engine, pass, worker, clock, shown, log);
    marked.is_err()
}

// Sets the log's mark on the words, unless it is the one that stands there: a mark that stays costs no store.
fn show_mark(engine: &Engine, pass: &mut Pass, worker: u8, clock: u32, shown: Mark, log: &WorkerLog)
    requires of { IsPassOf engine.now pass.old }
    requires over { IsOver (view pass.old) }
    requires worker { ((view pass.old).role ≡ Worker worker) × (worker < 8) }
    requires clock { ((view pass.old).epoch ≡ clock) × (clock ≤ last_epoch) }
    requires below { last_marked (view pass.old).seat.marks < clock }
    requires moved { (log.now.mark ≡ shown) ⊎ IsJoined clock log.now }
    ensures of { IsPassOf engine.now pass.new }
    ensures goes { Goes (view pass.old) (view pass.new) }
    ensures over { IsOver (view pass.new) }
    ensures epoch { (view pass.new).epoch ≡ clock }
    ensures shows { ShowsMark shown log.now.mark (view pass.old) (view pass.new) }
    ensures last { (view pass.new).last ≡ (view pass.old).last }
    ensures steps { (view pass.old).steps ≤ (view pass.new).steps }
{
    let now = log.mark();
    if now == shown {
        return;
    }
    mark(engine, pass, worker, clock, log.journal());
}
