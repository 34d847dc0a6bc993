// The pages on the way to a key of a tree that a transaction writes.
ghost use Rattle.std.specs.Prelude.{◌≡◌, ◌+◌, ◌<◌, ◌≤◌, true, false, length, IfOk, IfErr, OnOk};
ghost use Rattle.tx_sets.specs.Entries.{has_write};
ghost use Rattle.engine_pages.specs.Pages.{is_tree};
ghost use Rattle.engine_pages.specs.Passes.{view, IsPassOf};
ghost use Rattle.page_commit.specs.Live.{IsLive};
ghost use Rattle.page_commit.specs.Refusing.{HasRefused};
ghost use Rattle.tree_making.specs.Making.{make_steps};
ghost use Rattle.tree_writes.specs.Causes.{bring_most, RefusesTreeWrite};
ghost use Rattle.tree_writes.specs.Writing.{HasMadeAt};

use engine_pages::{Engine, Pass, RefusalCause, SetName};
use page_commit::refuse_on;
use serial_model::Key;
use tree_making::{Made, make_volatile};
use tx_sets::Sets;

/// Brings the pages on the way to a key that the transaction doesn't write yet into memory, where the write set has room
/// for it. Answers where the key stands in its leaf.
pub(crate) fn bring(
    engine: &Engine,
    pass: &mut Pass,
    sets: &mut Sets,
    key: Key,
) -> Result<Made, RefusalCause>
    requires of { IsPassOf engine.now pass.old }
    requires live { IsLive sets.old (view pass.old) }
    requires tree { is_tree (view pass.old).layout.decls key.storage ≡ true }
    requires unwritten { has_write key sets.old.writes ≡ false }
    ensures of { IsPassOf engine.now pass.new }
    ensures room { OnOk result (length sets.old.writes < 16) }
    ensures makes { IfOk result (λ made.
        HasMadeAt key made sets.old sets.new (view pass.old) (view pass.new)) }
    ensures cause { IfErr result (λ why.
        RefusesTreeWrite sets.old sets.new key why (view pass.old) (view pass.new)) }
    ensures refused { IfErr result (λ why. HasRefused why (view pass.old) (view pass.new)) }
    ensures worked { OnOk result ((view pass.new).steps
        ≤ (view pass.old).steps + make_steps (view pass.old).layout.slots) }
    ensures most { (view pass.new).steps
        ≤ (view pass.old).steps + bring_most (view pass.old).layout.slots }
{
    if sets.writes.is_full() {
        let why = RefusalCause::Wide {
            set: SetName::Writes,
        };
        return Err(refuse_on(engine, pass, sets, key, why));
    }
    match make_volatile(
        engine,
        pass,
        key,
        &mut sets.holds,
        &sets.pointers,
        &sets.headers,
    ) {
        Ok(made) => Ok(made),
        Err(why) => Err(refuse_on(engine, pass, sets, key, why)),
    }
}
