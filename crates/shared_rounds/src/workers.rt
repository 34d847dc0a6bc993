// All workers' lines of a round.
ghost use Rattle.std.specs.Prelude.{◌≡◌, ◌≤◌, [], length, vec_len};
ghost use Rattle.std.specs.List.{AllByRecursion};
ghost use Rattle.engine_pages.specs.Passes.{IsPassOf, view};
ghost use Rattle.engine_pages.specs.declared.view.Role.TheVariants.{Keeper};
ghost use Rattle.engine_pages.specs.declared.view.View.{View};
ghost use Rattle.worker_logs.specs.Logs.{LogState};
ghost use Rattle.worker_logs.specs.Rows.{AreLogsUp};
ghost use Rattle.tx_script.specs.Run.{CanRun};
ghost use Rattle.worker_cells.specs.Gates.{AreAllTold};
ghost use Rattle.shared_rounds.specs.Gathers.{HasGathered};
ghost use Rattle.shared_rounds.specs.Beside.{BeginsBeside, BeginsOn};
ghost use Rattle.shared_rounds.specs.Ended.{OwnsBehind};
ghost use Rattle.shared_rounds.specs.First.{AreIdle};
ghost use Rattle.shared_rounds.specs.Together.{RanSeated, RunsBeside};
ghost use Rattle.shared_rounds.specs.Marks.{AreMarksBehind};
ghost use Rattle.shared_rounds.specs.Parts.{clock_number};
ghost use Rattle.shared_rounds.specs.Rooms.{IsRoomOf};
ghost use Rattle.shared_rounds.specs.SharedState.{IsKept};

use crate::SharedEngine;
use crate::beside::{Beside, run_beside};
use crate::cells::seat_all;
use crate::ends::{WorkersRan, end_all};
use crate::marking::show_marks;
use crate::rooms::Rooms;
use engine_pages::{Engine, Pass};
use engine_seats::audit;
use outside::Disk;
use serial_model::{Decl, Number};
use std::thread::Threads;
use tx_script::Round;
use wire_form::number_in;
use worker_cells::{Desk, LineGate};
use worker_logs::WorkerLog;

/// Runs the workers' lines of a round, in as many threads as workers have lines, of which the caller's is one, and each
/// line so often at most and between two calls of the gate; and beside them what the maintenance thread has to do,
/// which then has the caller's thread for itself. All memory that the lines take is lent: none is wanted on the way.
/// Before any of them begins each worker's mark stands on the words.
pub fn run_workers<R: Threads + Sync, D: Disk + Send + Drop, G: LineGate + Sync, B: Beside>(
    rt: &R,
    engine: &mut SharedEngine,
    logs: &mut Vec<WorkerLog>,
    growing: &mut Vec<D>,
    rooms: Rooms<D>,
    round: &Round<'_>,
    tries: u32,
    gate: &G,
    beside: &mut B,
) -> WorkersRan
    requires lines { CanRun engine.old.decls round.now }
    requires some_try { 1 ≤ tries }
    requires logs { length logs.old.items ≡ 8 }
    requires growing { length growing.old.items ≡ 8 }
    requires up { AreLogsUp D.tells logs.old.items growing.old.items }
    requires flushed { AllByRecursion (λ (log : LogState). log.journal.lines ≡ []) logs.old.items }
    requires idle { AreIdle round.now logs.old.items }
    requires rooms { IsRoomOf round.now rooms }
    requires beside { (v : View) → BeginsBeside engine.old v → B.can beside.old v }
    ensures history { HasGathered engine.old.decls round.now result.outcomes engine.old.mine engine.new.mine }
    ensures runs { RunsBeside D.tells D.clock D.image_at D.faults (B.did beside.old beside.new) tries round.now
        engine.old engine.new logs.old.items logs.new.items growing.old.items growing.new.items result }
    ensures marks { AreMarksBehind round.now logs.new.items engine.new.marks }
    ensures calls { AreAllTold 0 result.outcomes result.ends.items }
{
    let ran = run_seated(
        rt,
        &engine.words,
        &mut engine.keeper,
        &mut engine.desks,
        engine.decls.as_slice(),
        logs,
        growing,
        rooms,
        round,
        tries,
        gate,
        beside,
    );
    let (word, _count) = audit(&engine.words, &mut engine.keeper);
    engine.clock = number_at(word);
    ran
}

// The same, on the words and on the keeper's pass.
fn run_seated<R: Threads + Sync, D: Disk + Send + Drop, G: LineGate + Sync, B: Beside>(
    rt: &R,
    words: &Engine,
    keeper: &mut Pass,
    desks: &mut Vec<Box<Desk>>,
    decls: &[Decl],
    logs: &mut Vec<WorkerLog>,
    growing: &mut Vec<D>,
    rooms: Rooms<D>,
    round: &Round<'_>,
    tries: u32,
    gate: &G,
    beside: &mut B,
) -> WorkersRan
    requires of { IsPassOf words.now keeper.old }
    requires kept { IsKept (view keeper.old) }
    requires epoch { 1 ≤ (view keeper.old).epoch }
    requires desks { vec_len desks.old ≡ 8 }
    requires decls { decls.now ≡ (view keeper.old).layout.decls }
    requires lines { CanRun (view keeper.old).layout.decls round.now }
    requires some_try { 1 ≤ tries }
    requires logs { (length logs.old.items ≡ 8) × (length growing.old.items ≡ 8) }
    requires up { AreLogsUp D.tells logs.old.items growing.old.items }
    requires flushed { AllByRecursion (λ (log : LogState). log.journal.lines ≡ []) logs.old.items }
    requires idle { AreIdle round.now logs.old.items }
    requires rooms { IsRoomOf round.now rooms }
    requires beside { (v : View) → BeginsOn (view keeper.old) v → B.can beside.old v }
    ensures of { IsPassOf words.now keeper.new }
    ensures keeper { (view keeper.new).role ≡ Keeper }
    ensures behind { OwnsBehind (view keeper.new) }
    ensures desks { vec_len desks.new ≡ 8 }
    ensures ran { RanSeated D.tells D.clock D.image_at D.faults (B.did beside.old beside.new) tries round.now
        (view keeper.old) (view keeper.new) logs.old.items logs.new.items growing.old.items growing.new.items
        result.outcomes result.ends.items }
{
    let Rooms {
        counts,
        spaces,
        mut cells,
        mut outcomes,
        told,
    } = rooms;
    show_marks(words, keeper, logs, growing, &counts);
    seat_all(
        words,
        keeper,
        desks,
        logs,
        growing,
        &counts,
        &spaces,
        &mut outcomes,
        &mut cells,
    );
    run_beside(
        rt,
        words,
        keeper,
        decls,
        beside,
        round,
        tries,
        gate,
        cells.as_mut_slice(),
    );
    end_all(words, keeper, cells, told, desks, logs, growing)
}

// The number that the clock's word has.
fn number_at(word: u64) -> Number
    ensures { result ≡ clock_number word }
{
    number_in(word)
}
