// The storages of an engine, and words that were met.
ghost use Rattle.std.specs.Prelude.{◌≡◌, true, IfErr, OnOk};
ghost use Rattle.array_pages.specs.Steps.{IsMetElse};
ghost use Rattle.engine_pages.specs.Pages.{is_tree};
ghost use Rattle.tree_walks.specs.Steps.{IsTreeRoot};
ghost use Rattle.tree_walks.specs.Ways.{IsMetSo};

use array_pages::conflict;
use engine_pages::{Engine, RefusalCause};
use tx_sets::{HeaderSet, PointerSet};

/// The index of a tree among the storages.
#[inline(always)]
pub(crate) fn root_of(engine: &Engine, storage: u8) -> usize
    requires { is_tree engine.now.table.shared.key.decls storage ≡ true }
    ensures { IsTreeRoot engine.now.table.shared.key.decls storage result }
{
    engine.index_of(storage)
}

/// Refuses a pointer that the set has with another word.
#[inline(always)]
pub(crate) fn check_met(set: &PointerSet, at: u32, word: u64) -> Result<(), RefusalCause>
    ensures met { OnOk result (IsMetSo set.now at word) }
    ensures other { IfErr result (λ why. IsMetElse set.now at word why) }
{
    let Some(expected) = set.find(at) else {
        return Ok(());
    };
    if expected != word {
        return Err(conflict(at, expected, word));
    }
    Ok(())
}

/// Refuses a header that the set has with another word.
#[inline(always)]
pub(crate) fn check_kept(set: &HeaderSet, at: u32, word: u64) -> Result<(), RefusalCause>
    ensures met { OnOk result (IsMetSo set.now at word) }
    ensures other { IfErr result (λ why. IsMetElse set.now at word why) }
{
    let Some(expected) = set.find(at) else {
        return Ok(());
    };
    if expected != word {
        return Err(conflict(at, expected, word));
    }
    Ok(())
}
