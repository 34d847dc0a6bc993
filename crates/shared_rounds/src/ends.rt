// How the seats of a round's workers end.
ghost use Rattle.std.specs.Prelude.{◌≡◌, ◌≤◌, ℕ, List, [], vec_capacity, vec_len};
ghost use Rattle.std.specs.List.{AllByRecursion};
ghost use Rattle.script_grammar.specs.Script.{Round};
ghost use Rattle.worker_logs.specs.Logs.{LogState};
ghost use Rattle.engine_pages.specs.Passes.{IsPassOf, view};
ghost use Rattle.engine_pages.specs.declared.view.Role.TheVariants.{Keeper};
ghost use Rattle.engine_pages.specs.declared.view.View.{View};
ghost use Rattle.shared_rounds.specs.Ended.{EndedSoFar, OwnsBehind};
ghost use Rattle.shared_rounds.specs.Seated.{AreRan, MayEnd, backward};
ghost use Rattle.shared_rounds.specs.Seating.{StandsFor};

use arrayvec::ArrayVec;
use engine_pages::{Engine, Pass};
use engine_seats::end;
use outside::Disk;
use resident_pages::look_at_pages;
use tx_script::{Outcomes, RoundOutcomes};
use worker_cells::{Cell, Desk, LogEnd};
use worker_logs::WorkerLog;

/// What came of the workers' lines of a round.
#[derive(Drop)]
pub struct WorkersRan {
    /// Each worker's, in the order of its lines.
    pub outcomes: RoundOutcomes,
    /// What refused each worker's log, and what the gate was told of its lines.
    pub ends: ArrayVec<LogEnd, 8>,
}

/// Takes the workers' seats in again, in the order of workers, and gives the desks, the logs and log files back. Behind
/// them it looks how many pages are published.
pub(crate) fn end_all<D: Disk + Drop>(
    engine: &Engine,
    keeper: &mut Pass,
    mut cells: Vec<Cell<D>>,
    mut told: Vec<Outcomes>,
    desks: &mut Vec<Box<Desk>>,
    logs: &mut Vec<WorkerLog>,
    growing: &mut Vec<D>,
) -> WorkersRan
    requires of { IsPassOf engine.now keeper.old }
    requires keeper { (view keeper.old).role ≡ Keeper }
    requires cells { (vec_len cells ≡ 8) × AllByRecursion (MayEnd engine.now) cells.items }
    requires told { (vec_len told ≡ 0) × (told.items ≡ []) × (8 ≤ vec_capacity told) }
    requires empty { (vec_len logs.old ≡ 0) × (vec_len growing.old ≡ 0)
        × (logs.old.items ≡ []) × (growing.old.items ≡ []) }
    requires desks { (vec_len desks.old ≡ 0) × (8 ≤ vec_capacity desks.old) }
    requires room { (8 ≤ vec_capacity logs.old) × (8 ≤ vec_capacity growing.old) }
    ensures of { IsPassOf engine.now keeper.new }
    ensures keeper { (view keeper.new).role ≡ Keeper }
    ensures behind { OwnsBehind (view keeper.new) }
    ensures desks { vec_len desks.new ≡ 8 }
    ensures ended { (tries : ℕ) (round : Round) (was : View) (logs_was : List LogState) (banks_was : List _)
        → StandsFor was (view keeper.old)
        → AreRan D.tells D.clock D.image_at D.faults tries round engine.now was 0
        (backward cells.items) logs_was banks_was
        → EndedSoFar D.tells D.clock D.image_at D.faults tries round was (view keeper.old) (view keeper.new)
        8 logs_was logs.new.items
        banks_was growing.new.items result.outcomes result.ends.items }
{
    let mut ends = ArrayVec::new();
    while let Some(cell) = cells.pop() {
        let Cell {
            worker: _,
            lines: _,
            pass,
            desk,
            log,
            bank,
            outcomes,
            end: log_end,
        } = cell;
        end(engine, keeper, pass);
        logs.push_reserved(log);
        growing.push_reserved(bank);
        told.push_reserved(outcomes.into_outcomes());
        ends.push(log_end);
        desks.push_reserved(desk);
    }
    look_at_pages(engine, keeper);
    WorkersRan {
        outcomes: RoundOutcomes::from_vec(told),
        ends,
    }
}
