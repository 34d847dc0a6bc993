// How a transaction begins, and ends before its draw.
ghost use Rattle.std.specs.Prelude.{◌≡◌, true, false};
ghost use Rattle.commit_core.specs.CoreState.{can_begin};
ghost use Rattle.engine_pages.specs.declared.view.Role.TheVariants.{Worker};
ghost use Rattle.engine_pages.specs.Passes.{view, IsPassOf};
ghost use Rattle.page_records.specs.Ends.{worker_of, Begun, IsDue, HasForgotten};

use crate::law::{Beginning, Excused, Forgetting};
use crate::laws::laws;
use engine_pages::{Engine, Pass, RefusalCause};
use std::marker::Brand;

/// Loads the clock and answers its word. A draw is due from then on, unless the clock is at the last draws: so there is
/// room for a number for each seat that has yet to draw.
pub fn begin(engine: &Engine, pass: &mut Pass) -> u64
    requires of { IsPassOf engine.now pass.old }
    requires worker { (view pass.old).role ≡ Worker (worker_of (view pass.old).role) }
    requires once { (view pass.old).due ≡ false }
    ensures of { IsPassOf engine.now pass.new }
    ensures begins { Begun (view pass.old) result (view pass.new) }
{
    laws();
    engine.table.shared.load::<Beginning>(pass, 0)
}

/// Drops what was kept: the transaction is over before its draw, maybe since it was refused for this, which is due.
pub fn forget(engine: &Engine, pass: &mut Pass, why: Option<RefusalCause>)
    requires of { IsPassOf engine.now pass.old }
    requires worker { (view pass.old).role ≡ Worker (worker_of (view pass.old).role) }
    requires idle { can_begin (view pass.old).seat.stage ≡ true }
    requires due { IsDue why (view pass.old) }
    ensures of { IsPassOf engine.now pass.new }
    ensures forgets { HasForgotten why (view pass.old) (view pass.new) }
{
    forget_as::<Brand>(engine, pass, why);
}

fn forget_as<J: Excused>(engine: &Engine, pass: &mut Pass, why: Option<RefusalCause>)
    requires of { IsPassOf engine.now pass.old }
    requires worker { (view pass.old).role ≡ Worker (worker_of (view pass.old).role) }
    requires idle { can_begin (view pass.old).seat.stage ≡ true }
    requires due { IsDue why (view pass.old) }
    requires named { why ≡ J.why }
    ensures of { IsPassOf engine.now pass.new }
    ensures forgets { HasForgotten why (view pass.old) (view pass.new) }
{
    laws();
    engine.table.shared.load::<Forgetting<J>>(pass, 0);
}
