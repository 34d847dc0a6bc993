// How passes are cut and joined.
ghost use Rattle.std.specs.Prelude.{◌≡◌, ℕ, ◌<◌, []};
ghost use Rattle.views.specs.Sums.{times};
ghost use Rattle.engine_pages.specs.declared.view.Role.TheVariants.{Keeper, Worker, Note};
ghost use Rattle.engine_pages.specs.Passes.{view, IsPassOf};
ghost use Rattle.engine_pages.specs.Times.{HasTimed};
ghost use Rattle.engine_pages.specs.Views.{IsActive};
ghost use Rattle.engine_seats.specs.Cuts.{seated, worker_view, note_view, learned, ended, worker_of, HasSeen, IsDone};

use crate::counters::load_clock;
use crate::law::{Ending, Learning, Named, Noting, Seating};
use engine_pages::{Engine, Pass};
use std::marker::Brand;

/// A pass for a worker that is not seated, from the keeper's, which has no locks.
pub fn seat(engine: &Engine, keeper: &mut Pass, worker: u8) -> Pass
    requires of { IsPassOf engine.now keeper.old }
    requires keeper { (view keeper.old).role ≡ Keeper }
    requires locks { (view keeper.old).seat.locks ≡ [] }
    requires worker { (worker < 8) × (times worker (view keeper.old).made ≡ 0) }
    ensures of { IsPassOf engine.now keeper.new × IsPassOf engine.now result }
    ensures keeper { view keeper.new ≡ seated worker (view keeper.old) }
    ensures seat { view result ≡ worker_view worker (view keeper.old) }
{
    seat_as::<Brand>(engine, keeper, worker)
}

fn seat_as<J: Named>(engine: &Engine, keeper: &mut Pass, worker: u8) -> Pass
    requires of { IsPassOf engine.now keeper.old }
    requires keeper { (view keeper.old).role ≡ Keeper }
    requires locks { (view keeper.old).seat.locks ≡ [] }
    requires worker { (worker < 8) × (times worker (view keeper.old).made ≡ 0) }
    requires named { worker ≡ J.worker }
    ensures of { IsPassOf engine.now keeper.new × IsPassOf engine.now result }
    ensures keeper { view keeper.new ≡ seated worker (view keeper.old) }
    ensures seat { view result ≡ worker_view worker (view keeper.old) }
{
    engine.table.shared.split_seat::<Seating<J>>(keeper)
}

/// Takes a worker's pass that has no transaction and no slot into the keeper's, and loads the clock. Where it was the
/// last one, the epoch before the clock's is over.
pub fn end(engine: &Engine, keeper: &mut Pass, pass: Pass)
    requires of { IsPassOf engine.now keeper.old × IsPassOf engine.now pass }
    requires keeper { (view keeper.old).role ≡ Keeper }
    requires worker { (view pass).role ≡ Worker (worker_of (view pass).role) }
    requires over { IsDone (view pass) }
    ensures of { IsPassOf engine.now keeper.new }
    ensures keeper { (n : ℕ) × HasTimed (ended (view keeper.old) (view pass)) n (view keeper.new) }
    ensures seen { HasSeen (view keeper.old) (view keeper.new) × HasSeen (view pass) (view keeper.new) }
{
    join_worker(engine, keeper, pass);
    let _clock = load_clock(engine, keeper);
}

fn join_worker(engine: &Engine, keeper: &mut Pass, pass: Pass)
    requires of { IsPassOf engine.now keeper.old × IsPassOf engine.now pass }
    requires keeper { (view keeper.old).role ≡ Keeper }
    requires worker { (view pass).role ≡ Worker (worker_of (view pass).role) }
    requires over { IsDone (view pass) }
    ensures of { IsPassOf engine.now keeper.new }
    ensures keeper { view keeper.new ≡ ended (view keeper.old) (view pass) }
{
    engine.table.shared.join_seat::<Ending>(keeper, pass);
}

/// A note of what the pass has seen.
pub fn note(engine: &Engine, pass: &mut Pass) -> Pass
    requires { IsPassOf engine.now pass.old }
    ensures of { IsPassOf engine.now pass.new × IsPassOf engine.now result }
    ensures pass { view pass.new ≡ view pass.old }
    ensures note { view result ≡ note_view (view pass.old) }
{
    engine.table.shared.split_seat::<Noting>(pass)
}

/// Takes a note in, and loads the clock: from then on the pass has seen what it had and what the note has.
pub fn learn(engine: &Engine, pass: &mut Pass, note: Pass)
    requires of { IsPassOf engine.now pass.old × IsPassOf engine.now note }
    requires pass { IsActive (view pass.old).role }
    requires note { (view note).role ≡ Note }
    ensures of { IsPassOf engine.now pass.new }
    ensures pass { (n : ℕ) × HasTimed (learned (view pass.old) (view note)) n (view pass.new) }
    ensures seen { HasSeen (view pass.old) (view pass.new) × HasSeen (view note) (view pass.new) }
{
    join_note(engine, pass, note);
    let _clock = load_clock(engine, pass);
}

fn join_note(engine: &Engine, pass: &mut Pass, note: Pass)
    requires of { IsPassOf engine.now pass.old × IsPassOf engine.now note }
    requires note { (view note).role ≡ Note }
    ensures of { IsPassOf engine.now pass.new }
    ensures pass { view pass.new ≡ learned (view pass.old) (view note) }
{
    engine.table.shared.join_seat::<Learning>(pass, note);
}
