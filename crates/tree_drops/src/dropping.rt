// A leaf of a tree that is what the snapshot has is taken out of memory.
ghost use Rattle.std.specs.Prelude.{◌≡◌, ◌^◌, ◌<◌, IfErr, OnOk};
ghost use Rattle.engine_pages.specs.Passes.{view, IsPassOf};
ghost use Rattle.page_drops.specs.Works.{KeepsReadsBut};
ghost use Rattle.tree_heads.specs.Headers.{count_of, kind_of, IsUnmoved};
ghost use Rattle.tree_drops.specs.Leaves.{CanDrop, CanDropFrom, HasCount, HasDropped, IsCauseBelow, KnowsKeys};
ghost use Rattle.tree_drops.specs.Works.{IsSeenAt, KeepsIt, TellsPointer};

use crate::leaves::{compare_all, cover};
use crate::records::{Leaf, compare, key_at, open_record, take_record};
use engine_pages::{Engine, KeptWhy, Pass, retire};
use homes::At;
use page_drops::{Kept, keep, word_at};
use pointer_swings::swing;
use tree_heads::{lock_header, open_header};

/// A pointer: where it stands, where its word does, and what that was last seen or left to be.
#[derive(Clone, Copy)]
pub(crate) struct Pointer {
    pub place: At,
    pub at: u32,
    pub word: u64,
}

/// Swings the pointer away from the leaf, all of which is locked as the snapshot has it, and gives up the slot.
fn swing_away(engine: &Engine, pass: &mut Pass, pointer: Pointer, leaf: Leaf) -> Result<(), Kept>
    requires of { IsPassOf engine.now pass.old }
    requires drop { CanDropFrom pointer.place leaf.span pointer.at leaf.slot leaf.page pointer.word leaf.epoch
        leaf.count leaf.count (view pass.old) }
    ensures of { IsPassOf engine.now pass.new }
    ensures drops { OnOk result (HasDropped leaf.slot pointer.at leaf.page (view pass.old) (view pass.new)) }
    ensures keeps { IfErr result (λ k. KeepsIt
        (IsCauseBelow leaf.slot leaf.span leaf.page leaf.epoch pointer.at pointer.word (view pass.old))
        k (view pass.old) (view pass.new)) }
    ensures tells { IfErr result (λ k. TellsPointer pointer.at pointer.word k (view pass.old) (view pass.new)) }
    ensures reads { KeepsReadsBut leaf.slot pointer.at (view pass.old) (view pass.new) }
{
    let at = pointer.at;
    let word = pointer.word;
    let found = swing(
        engine,
        pass,
        pointer.place,
        leaf.span,
        at,
        leaf.slot,
        leaf.page,
        word,
    );
    if found != word {
        let kept = keep(engine, pass, at, found, KeptWhy::Changed { expected: word });
        return Err(kept);
    }
    retire(engine, pass, leaf.slot);
    Ok(())
}

/// Locks the records of the leaf, from this one on, as the snapshot has them, and swings the pointer away. Where one is
/// another, none of them is locked.
fn drop_from(
    engine: &Engine,
    pass: &mut Pass,
    pointer: Pointer,
    leaf: Leaf,
    index: u32,
) -> Result<(), Kept>
    requires of { IsPassOf engine.now pass.old }
    requires drop { CanDropFrom pointer.place leaf.span pointer.at leaf.slot leaf.page pointer.word leaf.epoch
        leaf.count index (view pass.old) }
    requires count { HasCount (view pass.old).pages leaf.span leaf.page leaf.records }
    ensures of { IsPassOf engine.now pass.new }
    ensures drops { OnOk result (HasDropped leaf.slot pointer.at leaf.page (view pass.old) (view pass.new)) }
    ensures keeps { IfErr result (λ k. KeepsIt
        (IsCauseBelow leaf.slot leaf.span leaf.page leaf.epoch pointer.at pointer.word (view pass.old))
        k (view pass.old) (view pass.new)) }
    ensures tells { IfErr result (λ k. TellsPointer pointer.at pointer.word k (view pass.old) (view pass.new)) }
    ensures reads { KeepsReadsBut leaf.slot pointer.at (view pass.old) (view pass.new) }
{
    if index == leaf.count {
        return swing_away(engine, pass, pointer, leaf);
    }
    let key = key_at(engine, pass, leaf, index);
    let word = compare(engine, pass, leaf, index, key)?;
    take_record(engine, pass, leaf, index, key, word)?;
    if let Err(kept) = drop_from(engine, pass, pointer, leaf, index + 1) {
        open_record(engine, pass, leaf, index, key, word);
        return Err(kept);
    }
    Ok(())
}

/// Takes the leaf out of memory to which the pointer leads, whose header was found open with this word, where it is what
/// the snapshot has: the pointer names the snapshot's page alone then, and the slot is given up, with its header and its
/// records locked for good. Else nothing of it is locked.
pub(crate) fn drop_leaf(
    engine: &Engine,
    pass: &mut Pass,
    pointer: Pointer,
    leaf: Leaf,
    header: u64,
) -> Result<(), Kept>
    requires of { IsPassOf engine.now pass.old }
    requires drop { CanDrop pointer.place leaf.span pointer.at leaf.slot leaf.page pointer.word leaf.epoch
        (view pass.old) }
    requires count { HasCount (view pass.old).pages leaf.span leaf.page leaf.records }
    requires known { KnowsKeys leaf.slot leaf.span leaf.count (view pass.old) }
    requires whole { IsUnmoved (view pass.old) leaf.slot }
    requires open { header < 2 ^ 60 }
    requires leaf { kind_of header ≡ 1 }
    requires counted { count_of header ≡ leaf.count }
    requires met { IsSeenAt leaf.slot 0 header (view pass.old) }
    ensures of { IsPassOf engine.now pass.new }
    ensures drops { OnOk result (HasDropped leaf.slot pointer.at leaf.page (view pass.old) (view pass.new)) }
    ensures keeps { IfErr result (λ k. KeepsIt
        (IsCauseBelow leaf.slot leaf.span leaf.page leaf.epoch pointer.at pointer.word (view pass.old))
        k (view pass.old) (view pass.new)) }
    ensures tells { IfErr result (λ k. TellsPointer pointer.at pointer.word k (view pass.old) (view pass.new)) }
    ensures reads { KeepsReadsBut leaf.slot pointer.at (view pass.old) (view pass.new) }
{
    compare_all(engine, pass, leaf)?;
    cover(engine, pass, leaf)?;
    let at = word_at(engine, leaf.slot, 0);
    let found = lock_header(engine, pass, leaf.slot, leaf.span, at, header);
    if found != header {
        let changed = keep(
            engine,
            pass,
            at,
            found,
            KeptWhy::Changed { expected: header },
        );
        return Err(changed);
    }
    if let Err(kept) = drop_from(engine, pass, pointer, leaf, 0) {
        open_header(engine, pass, leaf.slot, leaf.span, at, header);
        return Err(kept);
    }
    Ok(())
}
