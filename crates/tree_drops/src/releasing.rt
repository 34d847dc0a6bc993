// All pages of a chain are left, and their slots given up where it was dropped.
ghost use Rattle.std.specs.Prelude.{◌≡◌, ◌≤◌, drop, length};
ghost use Rattle.engine_pages.specs.declared.view.Role.TheVariants.{Keeper};
ghost use Rattle.engine_pages.specs.Passes.{view, IsPassOf};
ghost use Rattle.chain_steps.specs.Swings.{slots_of};
ghost use Rattle.tree_drops.specs.Releases.{left_all, retired_all, CanLeaveAll, CanRetireAll};

use chain_steps::Half;
use engine_pages::{Engine, Pass, leave, retire};

/// Gives up the slots of the halves, from this one on.
pub(crate) fn retire_from(engine: &Engine, pass: &mut Pass, halves: &[Half], index: usize)
    requires of { IsPassOf engine.now pass.old }
    requires keeper { (view pass.old).role ≡ Keeper }
    requires index { index ≤ length halves.now }
    requires may { CanRetireAll (drop index (slots_of halves.now)) (view pass.old) }
    ensures of { IsPassOf engine.now pass.new }
    ensures retires { view pass.new ≡ retired_all (drop index (slots_of halves.now)) (view pass.old) }
{
    if index == halves.len() {
        return;
    }
    let half = halves[index];
    retire(engine, pass, half.slot);
    retire_from(engine, pass, halves, index + 1);
}

/// Leaves the slots of the halves, from this one on.
pub(crate) fn leave_from(engine: &Engine, pass: &mut Pass, halves: &[Half], index: usize)
    requires of { IsPassOf engine.now pass.old }
    requires keeper { (view pass.old).role ≡ Keeper }
    requires index { index ≤ length halves.now }
    requires may { CanLeaveAll (drop index (slots_of halves.now)) (view pass.old) }
    ensures of { IsPassOf engine.now pass.new }
    ensures leaves { view pass.new ≡ left_all (drop index (slots_of halves.now)) (view pass.old) }
{
    if index == halves.len() {
        return;
    }
    let half = halves[index];
    leave(engine, pass, half.slot);
    leave_from(engine, pass, halves, index + 1);
}
