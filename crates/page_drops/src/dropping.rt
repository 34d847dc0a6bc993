// A leaf that is what the snapshot has is taken out of memory.
ghost use Rattle.std.specs.Prelude.{IfErr, OnOk};
ghost use Rattle.engine_pages.specs.Passes.{view, IsPassOf};
ghost use Rattle.page_drops.specs.Leaves.{CanDrop, HasDropped, MetOthers};
ghost use Rattle.page_drops.specs.Works.{IsSeenStill, KeepsBelow, KeepsReadsBut, SawMore, TellsAbove};

use crate::leaves::{RECORDS, compare_leaf, lock_leaf, open_leaf};
use crate::noting::Kept;
use crate::records::{Leaf, keep};
use engine_pages::{Engine, KeptWhy, Pass, retire};
use homes::At;
use pointer_swings::swing;

/// Takes the leaf out of memory to which the pointer at this place leads by this word, where it is what the snapshot
/// has: the pointer names the snapshot's page alone then, and the slot is given up, with its records locked for good.
/// Else nothing of it is locked.
pub(crate) fn drop_leaf(
    engine: &Engine,
    pass: &mut Pass,
    place: At,
    at: u32,
    word: u64,
    leaf: Leaf,
) -> Result<(), Kept>
    requires of { IsPassOf engine.now pass.old }
    requires drop { CanDrop place leaf.span at leaf.slot leaf.page word (view pass.old) }
    ensures of { IsPassOf engine.now pass.new }
    ensures drops { OnOk result (HasDropped leaf.slot at leaf.page (view pass.old) (view pass.new)) }
    ensures keeps { IfErr result (λ k. KeepsBelow leaf.slot leaf.page at word k (view pass.old) (view pass.new)) }
    ensures tells { IfErr result (λ k. TellsAbove k.why at k.seen (view pass.old) (view pass.new)) }
    ensures reads { KeepsReadsBut leaf.slot at (view pass.old) (view pass.new) }
    ensures more { SawMore (view pass.old) (view pass.new) }
    ensures met { IfErr result (λ k. MetOthers leaf.span leaf.slot k (view pass.old) (view pass.new)) }
    ensures still { IfErr result (λ k. IsSeenStill k (view pass.new)) }
{
    compare_leaf(engine, pass, leaf)?;
    lock_leaf(engine, pass, leaf)?;
    let found = swing(
        engine, pass, place, leaf.span, at, leaf.slot, leaf.page, word,
    );
    if found != word {
        let kept = keep(engine, pass, at, found, KeptWhy::Changed { expected: word });
        open_leaf(engine, pass, leaf, RECORDS);
        return Err(kept);
    }
    retire(engine, pass, leaf.slot);
    Ok(())
}
