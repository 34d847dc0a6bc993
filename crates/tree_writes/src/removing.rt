// Removals of keys of trees.
ghost use Rattle.std.specs.Prelude.{◌≡◌, ◌+◌, ◌≤◌, true, false, IfErr, OnOk, None};
ghost use Rattle.serial_model.specs.declared.op.Op.TheVariants as ops;
ghost use Rattle.tx_sets.specs.Entries.{has_write};
ghost use Rattle.engine_pages.specs.Pages.{is_tree};
ghost use Rattle.engine_pages.specs.Passes.{view, IsPassOf};
ghost use Rattle.page_commit.specs.Live.{IsLive};
ghost use Rattle.page_commit.specs.Refusing.{HasRefused};
ghost use Rattle.page_commit.specs.Turning.{HasDone};
ghost use Rattle.tree_writes.specs.Causes.{alter_most, RefusesTreeAlter};
ghost use Rattle.tree_writes.specs.Writing.{LocksUnnamed, WritesWhole};

use crate::growing::place_seen;
use crate::making::bring;
use crate::writing::put;
use engine_pages::{Engine, Pass, RefusalCause};
use serial_model::Key;
use tree_calls::read_value;
use tx_sets::Sets;

/// Removes a key of a tree, for the transaction alone until it commits: its record has no value from then on. What the
/// transaction wrote there last, or first read, tells whether there is one: where it has none, nothing is written.
pub fn remove(
    engine: &Engine,
    pass: &mut Pass,
    sets: &mut Sets,
    key: Key,
) -> Result<(), RefusalCause>
    requires of { IsPassOf engine.now pass.old }
    requires live { IsLive sets.old (view pass.old) }
    requires tree { is_tree (view pass.old).layout.decls key.storage ≡ true }
    ensures of { IsPassOf engine.now pass.new }
    ensures done { OnOk result (
        HasDone (ops.Remove key) None sets.old sets.new (view pass.old) (view pass.new)) }
    ensures locks { OnOk result (LocksUnnamed key sets.old (view pass.old) (view pass.new)) }
    ensures whole { OnOk result (WritesWhole key sets.old sets.new (view pass.old) (view pass.new)) }
    ensures cause { IfErr result (λ why.
        RefusesTreeAlter sets.old sets.new key why (view pass.old) (view pass.new)) }
    ensures refused { IfErr result (λ why. HasRefused why (view pass.old) (view pass.new)) }
    ensures most { (view pass.new).steps
        ≤ (view pass.old).steps + alter_most (view pass.old).layout.slots }
{
    let Some(own) = sets.writes.find(key) else {
        return remove_record(engine, pass, sets, key);
    };
    let Some(_value) = own else {
        return Ok(());
    };
    sets.writes.set(key, None);
    Ok(())
}

// Removes a key that the transaction does not write yet. Its pages are brought into memory first: a pointer that a read
// had kept there would be led to a page else, and the transaction refused for its own step.
fn remove_record(
    engine: &Engine,
    pass: &mut Pass,
    sets: &mut Sets,
    key: Key,
) -> Result<(), RefusalCause>
    requires of { IsPassOf engine.now pass.old }
    requires live { IsLive sets.old (view pass.old) }
    requires tree { is_tree (view pass.old).layout.decls key.storage ≡ true }
    requires unwritten { has_write key sets.old.writes ≡ false }
    ensures of { IsPassOf engine.now pass.new }
    ensures done { OnOk result (
        HasDone (ops.Remove key) None sets.old sets.new (view pass.old) (view pass.new)) }
    ensures locks { OnOk result (LocksUnnamed key sets.old (view pass.old) (view pass.new)) }
    ensures whole { OnOk result (WritesWhole key sets.old sets.new (view pass.old) (view pass.new)) }
    ensures cause { IfErr result (λ why.
        RefusesTreeAlter sets.old sets.new key why (view pass.old) (view pass.new)) }
    ensures refused { IfErr result (λ why. HasRefused why (view pass.old) (view pass.new)) }
    ensures most { (view pass.new).steps
        ≤ (view pass.old).steps + alter_most (view pass.old).layout.slots }
{
    let _ = bring(engine, pass, sets, key)?;
    let before = read_value(engine, pass, sets, key)?;
    let Some(_value) = before else {
        return Ok(());
    };
    let at = place_seen(engine, pass, sets, key)?;
    put(sets, key, None, at);
    Ok(())
}
