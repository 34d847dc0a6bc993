// What runs beside the workers' lines of a round.
ghost use Rattle.std.specs.Prelude.{◌≡◌, ◌<◌, ◌≤◌, ℕ, false, length, slice_index_or};
ghost use Rattle.std.specs.List.{AllByRecursion};
ghost use Rattle.std.specs.Thread.{IsSend, IsSync};
ghost use Rattle.engine_pages.specs.Passes.{IsPassOf, view};
ghost use Rattle.engine_pages.specs.declared.view.Role.TheVariants.{Keeper};
ghost use Rattle.engine_pages.specs.declared.view.View.{View};
ghost use Rattle.shared_rounds.specs.Beside.{Went};
ghost use Rattle.shared_rounds.specs.Seated.{HasRun, IsReady};

use crate::cells::run_all;
use engine_pages::{Engine, Pass};
use outside::Disk;
use serial_model::Decl;
use std::thread::{Threads, join_mut};
use tx_script::Round;
use worker_cells::{Cell, LineGate};

/// What the maintenance thread does while the workers' lines of a round run, on its own pass.
pub trait Beside {
    /// What it needs, of itself and of the pass.
    ghost can: { Self → View → Type 0 };

    /// What it made of both.
    ghost did: { Self → Self → View → View → Type 0 };

    /// Whether there is anything to do. Else no thread is made for it.
    fn has_work(&self) -> bool
        ensures { result ≡ false → (v : View) → can self.now v → did self.now self.now v v };

    /// Does it, on an engine with these storages.
    fn run(&mut self, engine: &Engine, keeper: &mut Pass, decls: &[Decl])
        requires of { IsPassOf engine.now keeper.old }
        requires keeper { (view keeper.old).role ≡ Keeper }
        requires decls { decls.now ≡ (view keeper.old).layout.decls }
        requires can { can self.old (view keeper.old) }
        ensures of { IsPassOf engine.now keeper.new }
        ensures went { Went (view keeper.old) (view keeper.new) }
        ensures did { did self.old self.new (view keeper.old) (view keeper.new) };
}

/// Runs the lines of each cell's worker, and beside them, on this thread, what the maintenance thread has to do.
pub(crate) fn run_beside<R: Threads + Sync, D: Disk + Send + Drop, G: LineGate + Sync, B: Beside>(
    rt: &R,
    engine: &Engine,
    keeper: &mut Pass,
    decls: &[Decl],
    beside: &mut B,
    round: &Round<'_>,
    tries: u32,
    gate: &G,
    cells: &mut [Cell<D>],
)
    requires tries { 1 ≤ tries }
    requires of { IsPassOf engine.now keeper.old }
    requires keeper { (view keeper.old).role ≡ Keeper }
    requires decls { decls.now ≡ (view keeper.old).layout.decls }
    requires can { B.can beside.old (view keeper.old) }
    requires ready { AllByRecursion (IsReady D.tells engine.now round.now) cells.old }
    ensures of { IsPassOf engine.now keeper.new }
    ensures went { Went (view keeper.old) (view keeper.new) }
    ensures did { B.did beside.old beside.new (view keeper.old) (view keeper.new) }
    ensures ran { (k : ℕ) (d : _) → k < length cells.old → HasRun D.tells D.clock D.image_at D.faults tries
        round.now engine.now (slice_index_or cells.old k d) (slice_index_or cells.new k d) }
{
    if !beside.has_work() {
        run_all(rt, engine, round, tries, gate, cells);
        return;
    }
    run_together(rt, engine, keeper, decls, beside, round, tries, gate, cells);
}

// The same, where there is something to do: the lines run in threads of their own.
fn run_together<R: Threads + Sync, D: Disk + Send + Drop, G: LineGate + Sync, B: Beside>(
    rt: &R,
    engine: &Engine,
    keeper: &mut Pass,
    decls: &[Decl],
    beside: &mut B,
    round: &Round<'_>,
    tries: u32,
    gate: &G,
    cells: &mut [Cell<D>],
)
    requires tries { 1 ≤ tries }
    requires of { IsPassOf engine.now keeper.old }
    requires keeper { (view keeper.old).role ≡ Keeper }
    requires decls { decls.now ≡ (view keeper.old).layout.decls }
    requires can { B.can beside.old (view keeper.old) }
    requires ready { AllByRecursion (IsReady D.tells engine.now round.now) cells.old }
    ensures of { IsPassOf engine.now keeper.new }
    ensures went { Went (view keeper.old) (view keeper.new) }
    ensures did { B.did beside.old beside.new (view keeper.old) (view keeper.new) }
    ensures ran { (k : ℕ) (d : _) → k < length cells.old → HasRun D.tells D.clock D.image_at D.faults tries
        round.now engine.now (slice_index_or cells.old k d) (slice_index_or cells.new k d) }
{
    let mut there = ||
        requires { IsSync R.row × IsSend D.row × IsSync G.row × (1 ≤ tries)
            × AllByRecursion (IsReady D.tells engine.now round.now) cells.now }
        ensures { (k : ℕ) (d : _) → k < length cells.entry.now → HasRun D.tells D.clock D.image_at D.faults tries
            round.entry.now engine.entry.now (slice_index_or cells.entry.now k d) (slice_index_or cells.exit.now k d) }
    { run_all(rt, engine, round, tries, gate, cells) };
    let mut here = ||
        requires { IsPassOf engine.now keeper.now × ((view keeper.now).role ≡ Keeper)
            × (decls.now ≡ (view keeper.now).layout.decls) × B.can beside.now (view keeper.now) }
        ensures { IsPassOf engine.entry.now keeper.exit.now × Went (view keeper.entry.now) (view keeper.exit.now)
            × B.did beside.entry.now beside.exit.now (view keeper.entry.now) (view keeper.exit.now) }
    { beside.run(engine, keeper, decls) };
    join_mut(rt, &mut there, &mut here);
}
