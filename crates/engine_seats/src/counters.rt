// The two counters.
ghost use Rattle.std.specs.Prelude.{◌≡◌};
ghost use Rattle.engine_pages.specs.Passes.{view, IsPassOf};
ghost use Rattle.engine_pages.specs.Times.{HasTimed};
ghost use Rattle.engine_pages.specs.Views.{IsActive};
ghost use Rattle.engine_seats.specs.Counts.{HasCounted, HasAudited};

use crate::law::{Counting, Timing};
use crate::laws::laws;
use commit_core::commits_are_serial;
use engine_pages::{Engine, Pass};

/// The word of the clock, which counts the draws, and how many attempts count: they are serial, and where no worker is
/// seated they are the keeper's own.
pub fn audit(engine: &Engine, pass: &mut Pass) -> (u64, u64)
    requires of { IsPassOf engine.now pass.old }
    requires pass { IsActive (view pass.old).role }
    ensures of { IsPassOf engine.now pass.new }
    ensures counts { HasAudited (view pass.old) result.0 result.1 (view pass.new) }
{
    let clock = load_clock(engine, pass);
    (clock, count(engine, pass))
}

/// Loads the clock: the word of the next number.
pub fn load_clock(engine: &Engine, pass: &mut Pass) -> u64
    requires of { IsPassOf engine.now pass.old }
    requires pass { IsActive (view pass.old).role }
    ensures of { IsPassOf engine.now pass.new }
    ensures times { HasTimed (view pass.old) result (view pass.new) }
{
    laws();
    engine.table.shared.load::<Timing>(pass, 0)
}

// How many attempts count.
fn count(engine: &Engine, pass: &mut Pass) -> u64
    requires of { IsPassOf engine.now pass.old }
    requires pass { IsActive (view pass.old).role }
    ensures of { IsPassOf engine.now pass.new }
    ensures counts { HasCounted (view pass.old) result (view pass.new) }
{
    laws();
    commits_are_serial();
    engine.table.shared.load::<Counting>(pass, 1)
}
