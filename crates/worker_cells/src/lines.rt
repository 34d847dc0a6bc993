// One worker's lines of a round.
ghost use Rattle.std.specs.Prelude.{◌≡◌, ◌⊎◌, ◌+◌, ◌-◌, ◌<◌, ◌≤◌, ◌++◌, ◌∷◌, [], Some, None, is_some, length};
ghost use Rattle.std.specs.Prelude.{IsTrue, option_map, option_to_list, slice_get, true, false};
ghost use Rattle.std.specs.List.{AllByRecursion};
ghost use Rattle.std.specs.Option.{option_copied};
ghost use Rattle.serial_model.specs.Keys.{fits};
ghost use Rattle.script_grammar.specs.Script.{lines_of_worker, ops_of_worker};
ghost use Rattle.wire_form.specs.LogLine.{IsLogLine, IsLoggable};
ghost use Rattle.wire_form.specs.Words.{IsMark};
ghost use Rattle.log_writer.specs.Journal.{Reaches, end_of, free};
ghost use Rattle.worker_logs.specs.Rows.{TakesCommit, full_after};
ghost use Rattle.engine_pages.specs.declared.view.Role.TheVariants.{Worker};
ghost use Rattle.engine_pages.specs.Passes.{IsPassOf, view};
ghost use Rattle.tx_runner.specs.Below.{IsOver};
ghost use Rattle.tx_script.specs.Room.{all_words, most_words};
ghost use Rattle.tx_script.specs.Run.{CanRun};
ghost use Rattle.worker_cells.specs.Cells.{IsCell, IsMarkedBelow, IsTied, RunsCell, RunsOne, StepsOne, fails};
ghost use Rattle.worker_cells.specs.Gates.{Before, IsOpen, IsTold, calls_for, calls_in, calls_of, is_run};
ghost use Rattle.worker_cells.specs.Rows.{logged_by};

use crate::cell::{Cell, LogEnd};
use crate::gate_calls::{GateCalls, LineGate};
use crate::readying::{flush_last, make_ready};
use engine_pages::Engine;
use log_writer::LogFault;
use outside::Disk;
use serial_model::{Commit, Op};
use tx_runner::{LineEnd, run_line};
use tx_script::{Line, LineOps, Refused, Round};
use worker_logs::WorkerLog;

/// Runs the lines of the cell's worker, and then makes durable what waits and marks it. From the line on at which its
/// log is refused it runs none. Each line that is run stands between two calls of the gate, which is told of no other
/// line. Without lines nothing of the cell changes but that its end is told. As the lines begin the log's mark stands
/// on the words.
pub fn run_cell<D: Disk, G: LineGate>(
    engine: &Engine,
    cell: &mut Cell<D>,
    round: &Round<'_>,
    tries: u32,
    gate: &G,
)
    requires of { IsPassOf engine.now cell.old.pass }
    requires cell { IsCell D.tells (view cell.old.pass) cell.old.log cell.old.bank }
    requires tied { (lines_of_worker round.now cell.old.worker ≡ [] → ⊥)
        → IsTied cell.old.log.mark (view cell.old.pass).seat.marks × IsMark cell.old.log.mark }
    requires worker { ((view cell.old.pass).role ≡ Worker cell.old.worker) × (cell.old.worker < 8) }
    requires lines { CanRun (view cell.old.pass).layout.decls round.now }
    requires told { cell.old.outcomes.told ≡ [] }
    requires count { cell.old.lines ≡ length (lines_of_worker round.now cell.old.worker) }
    requires room { length (lines_of_worker round.now cell.old.worker) ≤ cell.old.outcomes.left }
    requires space { all_words (lines_of_worker round.now cell.old.worker) ≤ cell.old.outcomes.space }
    requires tries { 1 ≤ tries }
    ensures of { IsPassOf engine.now cell.new.pass }
    ensures worker { cell.new.worker ≡ cell.old.worker }
    ensures runs { RunsCell D.tells D.clock D.image_at D.faults tries
        (lines_of_worker round.now cell.old.worker) cell.new.outcomes.told cell.new.end
        (view cell.old.pass) (view cell.new.pass) cell.old.log cell.new.log cell.old.bank cell.new.bank }
    ensures calls { calls_in cell.new.end.calls
        ≡ calls_for is_run cell.old.worker 0 cell.new.outcomes.told }
{
    let lines = cell.lines;
    let mut line_ops = LineOps::new();
    let mut calls = GateCalls::none();
    let mut index = 0;
    let mut count = 0;
    cell.end = LogEnd::default();
    while count < lines {
        if let Some(ops) = ops_of(round, index, cell.worker, &mut line_ops) {
            run_one(engine, cell, ops, tries, count, gate, &mut calls);
            count += 1;
        }
        index += 1;
    }
    cell.end.calls = calls;
    if count > 0 {
        cell.end.failed = flush_last(
            engine,
            &mut cell.pass,
            cell.worker,
            &mut cell.log,
            &mut cell.bank,
        );
    }
}

// Runs a line between two calls of the gate, unless the log is refused, now or before.
fn run_one<D: Disk, G: LineGate>(
    engine: &Engine,
    cell: &mut Cell<D>,
    ops: &[Op],
    tries: u32,
    count: u32,
    gate: &G,
    calls: &mut GateCalls,
)
    requires of { IsPassOf engine.now cell.old.pass }
    requires worker { ((view cell.old.pass).role ≡ Worker cell.old.worker) × (cell.old.worker < 8) }
    requires over { IsOver (view cell.old.pass) }
    requires draws { 1 ≤ (view cell.old.pass).layout.first.draw }
    requires tied { IsTied cell.old.log.mark (view cell.old.pass).seat.marks }
    requires reaches { Reaches D.tells cell.old.bank cell.old.log.journal }
    requires up { cell.old.end.failed ≡ is_some cell.old.log.journal.down }
    requires fitting { AllByRecursion (λ op. IsTrue (fits (view cell.old.pass).layout.decls op)) ops.now }
    requires few { length ops.now ≤ 16 }
    requires tries { 1 ≤ tries }
    requires room { 1 ≤ cell.old.outcomes.left }
    requires space { most_words ops.now ≤ cell.old.outcomes.space }
    requires calls { IsTold is_run cell.old.worker count (IsOpen cell.old.end) cell.old.outcomes.told
        (calls_in calls.old) }
    ensures of { IsPassOf engine.now cell.new.pass }
    ensures worker { cell.new.worker ≡ cell.old.worker }
    ensures left { cell.new.outcomes.left ≡ cell.old.outcomes.left - 1 }
    ensures space { cell.old.outcomes.space ≤ cell.new.outcomes.space + most_words ops.now }
    ensures calls { IsTold is_run cell.new.worker (count + 1) (IsOpen cell.new.end) cell.new.outcomes.told
        (calls_in calls.new) }
    ensures steps { StepsOne D.tells D.clock D.image_at D.faults tries ops.now
        cell.old.outcomes.told cell.new.outcomes.told cell.old.end cell.new.end
        (view cell.old.pass) (view cell.new.pass) cell.old.log cell.new.log cell.old.bank cell.new.bank }
{
    if is_refused(&cell.end) {
        cell.outcomes.push_refused(Refused::Unrun);
        return;
    }
    match make_ready(
        engine,
        &mut cell.pass,
        cell.worker,
        &mut cell.log,
        &mut cell.bank,
    ) {
        Ok(()) => {
            gate.enter(calls, cell.worker, count);
            run_logged(engine, cell, ops, tries, calls);
            gate.leave(calls, cell.worker, count);
        }
        Err(fault) => {
            cell.end = end_by(fault);
            cell.outcomes.push_refused(Refused::Unrun);
        }
    }
}

// Whether the log was refused.
fn is_refused(end: &LogEnd) -> bool
    ensures yes { result ≡ true → (end.now.failed ≡ true) ⊎ (is_some end.now.full ≡ true) }
    ensures no { result ≡ false → (end.now.failed ≡ false) × (end.now.full ≡ None) }
{
    end.failed || end.full.is_some()
}

// What refused a log, by the fault.
fn end_by(fault: LogFault) -> LogEnd
    ensures full { result.full ≡ full_after fault None }
    ensures failed { result.failed ≡ fails fault }
{
    match fault {
        LogFault::Limit { length } => LogEnd {
            failed: false,
            full: Some(length),
            calls: GateCalls::none(),
        },
        LogFault::Device | LogFault::Down { .. } => LogEnd {
            failed: true,
            full: None,
            calls: GateCalls::none(),
        },
    }
}

// Runs a line for which the log was made ready and which the gate was told to begin, logs what it changed, and keeps
// its outcome.
fn run_logged<D: Disk>(
    engine: &Engine,
    cell: &mut Cell<D>,
    ops: &[Op],
    tries: u32,
    calls: &GateCalls,
)
    requires of { IsPassOf engine.now cell.old.pass }
    requires over { IsOver (view cell.old.pass) }
    requires draws { 1 ≤ (view cell.old.pass).layout.first.draw }
    requires marked { IsMarkedBelow cell.old.log.mark (view cell.old.pass) }
    requires fitting { AllByRecursion (λ op. IsTrue (fits (view cell.old.pass).layout.decls op)) ops.now }
    requires few { length ops.now ≤ 16 }
    requires tries { 1 ≤ tries }
    requires free { 400 ≤ free cell.old.log.journal }
    requires limit { end_of cell.old.log.journal + 400 ≤ cell.old.log.journal.limit }
    requires room { 1 ≤ cell.old.outcomes.left }
    requires space { most_words ops.now ≤ cell.old.outcomes.space }
    requires begun { calls_in calls.now ≡ calls_of cell.old.worker (length cell.old.outcomes.told)
        ++ Before cell.old.worker (length cell.old.outcomes.told) ∷ [] }
    ensures of { IsPassOf engine.now cell.new.pass }
    ensures kept { (cell.new.worker ≡ cell.old.worker) × (cell.new.bank ≡ cell.old.bank)
        × (cell.new.end ≡ cell.old.end) }
    ensures left { cell.new.outcomes.left ≡ cell.old.outcomes.left - 1 }
    ensures space { cell.old.outcomes.space ≤ cell.new.outcomes.space + most_words ops.now }
    ensures runs { RunsOne tries ops.now cell.old.outcomes.told cell.new.outcomes.told
        (view cell.old.pass) (view cell.new.pass) cell.old.log cell.new.log }
{
    let _ = calls;
    let desk = &mut *cell.desk;
    match run_line(
        engine,
        &mut cell.pass,
        &mut desk.txn,
        ops,
        tries,
        &mut desk.room,
    ) {
        LineEnd::Committed(verdict) => {
            log_commit(&mut cell.log, &desk.room.commit);
            cell.outcomes.push_words(verdict, desk.room.commit.number, desk.room.replies.words());
        }
        LineEnd::Conflict => cell.outcomes.push_refused(Refused::Conflict),
        LineEnd::Full => cell.outcomes.push_refused(Refused::Full),
        LineEnd::Wide => cell.outcomes.push_refused(Refused::Wide),
        LineEnd::Limit => cell.outcomes.push_refused(Refused::Limit),
    }
}

// Puts a commit into the log, if it changed something.
fn log_commit(log: &mut WorkerLog, commit: &Commit)
    requires loggable { 1 ≤ length commit.now.changes → IsLoggable commit.now }
    requires free { 400 ≤ free log.old.journal }
    requires limit { end_of log.old.journal + 400 ≤ log.old.journal.limit }
    ensures takes { TakesCommit (logged_by commit.now commit.now.changes) log.old log.new }
    ensures line { AllByRecursion IsLogLine (option_to_list (logged_by commit.now commit.now.changes)) }
{
    if !commit.changes.as_slice().is_empty() {
        log.put(commit);
    }
}

// The operations of the line, where it is the worker's.
fn ops_of<'b>(
    round: &Round<'_>,
    index: usize,
    worker: u8,
    line_ops: &'b mut LineOps,
) -> Option<&'b [Op]>
    requires { index < length round.now.lines }
    ensures { option_map (ops_of_worker worker) (slice_get round.now.lines index)
        ≡ Some (option_copied result) }
{
    let owner = round.worker(index)?;
    if owner != worker {
        return None;
    }
    match round.line(index, line_ops) {
        Line::Worker { worker: _, ops } => Some(ops),
        Line::Keeper(_) => None,
    }
}
