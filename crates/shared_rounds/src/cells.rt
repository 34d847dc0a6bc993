// The cells of a round's workers: made, lent to threads, and taken apart again.
ghost use Rattle.std.specs.Prelude.{◌≡◌, ◌<◌, ◌≤◌, ℕ, [], length, slice_index_or, vec_capacity, vec_len};
ghost use Rattle.std.specs.List.{AllByRecursion};
ghost use Rattle.std.specs.Thread.{IsSend, IsSync};
ghost use Rattle.worker_logs.specs.Logs.{LogState};
ghost use Rattle.worker_logs.specs.Rows.{AreLogsUp};
ghost use Rattle.engine_pages.specs.Passes.{IsPassOf, view};
ghost use Rattle.shared_rounds.specs.Rooms.{AreRooms};
ghost use Rattle.shared_rounds.specs.Seated.{AreSeated, HasRun, IsReady, backward};
ghost use Rattle.shared_rounds.specs.Seating.{CanSeat, seats_from, with_made};

use engine_pages::{Engine, Pass};
use engine_seats::seat;
use outside::Disk;
use serial_model::WORKERS;
use std::thread::{Threads, for_each_mut, join_mut};
use tx_script::{OutcomeRoom, Round};
use worker_cells::{Cell, Desk, LineGate, LogEnd, run_cell};
use worker_logs::WorkerLog;

/// Seats the workers, the last one first, each with its log, its log file, its room and a desk.
pub(crate) fn seat_all<D: Disk + Drop>(
    engine: &Engine,
    keeper: &mut Pass,
    desks: &mut Vec<Box<Desk>>,
    logs: &mut Vec<WorkerLog>,
    growing: &mut Vec<D>,
    counts: &[u32; WORKERS],
    spaces: &[u32; WORKERS],
    rooms: &mut Vec<OutcomeRoom>,
    cells: &mut Vec<Cell<D>>,
)
    requires of { IsPassOf engine.now keeper.old }
    requires keeper { CanSeat (view keeper.old) }
    requires desks { vec_len desks.old ≡ 8 }
    requires logs { (vec_len logs.old ≡ 8) × (vec_len growing.old ≡ 8) }
    requires up { AreLogsUp D.tells logs.old.items growing.old.items }
    requires flushed { AllByRecursion (λ (log : LogState). log.journal.lines ≡ []) logs.old.items }
    requires counts { length counts.now ≡ 8 }
    requires rooms { (vec_len rooms.old ≡ 8) × AreRooms counts.now spaces.now rooms.old.items }
    requires cells { (vec_len cells.old ≡ 0) × (cells.old.items ≡ []) × (8 ≤ vec_capacity cells.old) }
    ensures of { IsPassOf engine.now keeper.new }
    ensures keeper { view keeper.new ≡ with_made (seats_from 8 0) (view keeper.old) }
    ensures empty { (vec_len logs.new ≡ 0) × (vec_len growing.new ≡ 0)
        × (logs.new.items ≡ []) × (growing.new.items ≡ []) }
    ensures room { (8 ≤ vec_capacity logs.new) × (8 ≤ vec_capacity growing.new) }
    ensures desks { (vec_len desks.new ≡ 0) × (8 ≤ vec_capacity desks.new) }
    ensures len { vec_len cells.new ≡ 8 }
    ensures seated { AreSeated D.tells engine.now (view keeper.old) counts.now spaces.now 0 (backward cells.new.items)
        logs.old.items growing.old.items }
{
    for count in 0..WORKERS {
        let Some(log) = logs.pop() else {
            return;
        };
        let Some(bank) = growing.pop() else {
            return;
        };
        let Some(outcomes) = rooms.pop() else {
            return;
        };
        let Some(desk) = desks.pop() else {
            return;
        };
        let index = WORKERS - 1 - count;
        let worker = index as u8;
        let pass = seat(engine, keeper, worker);
        cells.push_reserved(Cell {
            worker,
            lines: counts[index],
            pass,
            desk,
            log,
            bank,
            outcomes,
            end: LogEnd::default(),
        });
    }
}

/// Runs the lines of each cell's worker. There are as many threads as cells with lines, of which this thread is one; a
/// cell without lines is gone over beside one that has some.
#[cycle(parts)]
pub(crate) fn run_all<R: Threads + Sync, D: Disk + Send + Drop, G: LineGate + Sync>(
    rt: &R,
    engine: &Engine,
    round: &Round<'_>,
    tries: u32,
    gate: &G,
    cells: &mut [Cell<D>],
)
    requires tries { 1 ≤ tries }
    requires ready { AllByRecursion (IsReady D.tells engine.now round.now) cells.old }
    ensures ran { (k : ℕ) (d : _) → k < length cells.old → HasRun D.tells D.clock D.image_at D.faults tries
        round.now engine.now (slice_index_or cells.old k d) (slice_index_or cells.new k d) }
{
    let end = end_of_part(cells);
    if end >= cells.len() {
        run_in_turn(rt, engine, round, tries, gate, cells);
        return;
    }
    let (part, rest) = cells.split_at_mut(end);
    run_both(rt, engine, round, tries, gate, part, rest);
}

// Runs the cells of the one part in a new thread, or last where none can be made, and those of the other here.
#[cycle(parts)]
fn run_both<R: Threads + Sync, D: Disk + Send + Drop, G: LineGate + Sync>(
    rt: &R,
    engine: &Engine,
    round: &Round<'_>,
    tries: u32,
    gate: &G,
    part: &mut [Cell<D>],
    rest: &mut [Cell<D>],
)
    requires tries { 1 ≤ tries }
    requires part { AllByRecursion (IsReady D.tells engine.now round.now) part.old }
    requires rest { AllByRecursion (IsReady D.tells engine.now round.now) rest.old }
    ensures part { (k : ℕ) (d : _) → k < length part.old → HasRun D.tells D.clock D.image_at D.faults tries
        round.now engine.now (slice_index_or part.old k d) (slice_index_or part.new k d) }
    ensures rest { (k : ℕ) (d : _) → k < length rest.old → HasRun D.tells D.clock D.image_at D.faults tries
        round.now engine.now (slice_index_or rest.old k d) (slice_index_or rest.new k d) }
{
    let mut there = ||
        requires { IsSync R.row × IsSend D.row × IsSync G.row × (1 ≤ tries)
            × AllByRecursion (IsReady D.tells engine.now round.now) part.now }
        ensures { (k : ℕ) (d : _) → k < length part.entry.now → HasRun D.tells D.clock D.image_at D.faults tries
            round.entry.now engine.entry.now (slice_index_or part.entry.now k d) (slice_index_or part.exit.now k d) }
    { run_in_turn(rt, engine, round, tries, gate, part) };
    let mut here = ||
        requires { IsSync R.row × IsSend D.row × IsSync G.row × (1 ≤ tries)
            × AllByRecursion (IsReady D.tells engine.now round.now) rest.now }
        ensures { (k : ℕ) (d : _) → k < length rest.entry.now → HasRun D.tells D.clock D.image_at D.faults tries
            round.entry.now engine.entry.now (slice_index_or rest.entry.now k d) (slice_index_or rest.exit.now k d) }
    { run_all(rt, engine, round, tries, gate, rest) };
    join_mut(rt, &mut there, &mut here);
}

// Where the first cell that has lines ends, if one behind it has some too, and else where all cells end.
fn end_of_part<D>(cells: &[Cell<D>]) -> usize
    ensures inside { result ≤ length cells.now }
    ensures some { 0 < length cells.now → 0 < result }
{
    let mut end = 0;
    for index in 0..cells.len() {
        if cells[index].lines > 0 {
            if end > 0 {
                return end;
            }
            end = index + 1;
        }
    }
    cells.len()
}

// Runs the lines of each cell's worker on this thread, one cell after another.
fn run_in_turn<R: Threads + Sync, D: Disk + Send + Drop, G: LineGate + Sync>(
    rt: &R,
    engine: &Engine,
    round: &Round<'_>,
    tries: u32,
    gate: &G,
    cells: &mut [Cell<D>],
)
    requires tries { 1 ≤ tries }
    requires ready { AllByRecursion (IsReady D.tells engine.now round.now) cells.old }
    ensures ran { (k : ℕ) (d : _) → k < length cells.old → HasRun D.tells D.clock D.image_at D.faults tries
        round.now engine.now (slice_index_or cells.old k d) (slice_index_or cells.new k d) }
{
    for_each_mut(
        rt,
        cells,
        1,
        &|_index: usize, cell: &mut Cell<D>|
            requires { (1 ≤ tries) × IsReady D.tells engine.now round.now cell.now }
            ensures { HasRun D.tells D.clock D.image_at D.faults tries round.entry.now
                engine.entry.now cell.entry.now cell.exit.now }
        { run_cell(engine, cell, round, tries, gate) },
    );
}
