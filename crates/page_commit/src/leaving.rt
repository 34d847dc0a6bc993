// The slots that a transaction holds, as it ends.
ghost use Rattle.std.specs.Prelude.{◌≡◌, ◌+◌, length, []};
ghost use Rattle.lists.specs.Each.{AreDistinct};
ghost use Rattle.engine_pages.specs.Passes.{view, IsPassOf};
ghost use Rattle.engine_pages.specs.Views.{IsActive};
ghost use Rattle.page_commit.specs.Live.{HasHolds};
ghost use Rattle.page_commit.specs.Steps.{HasLeft};

use engine_pages::{Engine, Pass, leave};

/// Leaves all slots that are held. Nothing is kept of their pages.
pub(crate) fn leave_all(engine: &Engine, pass: &mut Pass, holds: &[u32])
    requires of { IsPassOf engine.now pass.old }
    requires pass { IsActive (view pass.old).role }
    requires holds { HasHolds holds.now (view pass.old) }
    requires once { AreDistinct holds.now }
    requires kept { (view pass.old).seat.kept ≡ [] }
    ensures of { IsPassOf engine.now pass.new }
    ensures left { HasLeft (view pass.old) (view pass.new) }
    ensures steps { (view pass.new).steps ≡ (view pass.old).steps + length holds.now }
{
    let mut done = 0;
    while done < holds.len() {
        leave(engine, pass, holds[done]);
        done += 1;
    }
}
