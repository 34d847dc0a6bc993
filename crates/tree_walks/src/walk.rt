// One pointer down.
ghost use Rattle.std.specs.Prelude.{◌≡◌, ◌^◌, ◌<◌, ◌≤◌, true, List};
ghost use Rattle.array_pages.specs.Steps.{IsLedTo};
ghost use Rattle.engine_pages.specs.Layout.{words_of};
ghost use Rattle.engine_pages.specs.Pages.{is_tree};
ghost use Rattle.engine_pages.specs.Passes.{view, IsPassOf};
ghost use Rattle.engine_pages.specs.Pointers.{IsPointerAt};
ghost use Rattle.homes.specs.Homes.{in_span};
ghost use Rattle.serial_model.specs.declared.key.Key.{Key};
ghost use Rattle.tree_walks.specs.Steps.{EntersSo, GoesSo, IsHeldOn, IsReached};
ghost use Rattle.tree_walks.specs.Walks.{CanWalk, IsNoHeader, IsTreesWord, LiesInPage};
ghost use Rattle.tree_walks.specs.Ways.{IsMetSo};
ghost use Rattle.tx_sets.specs.declared.seen.Seen.{Seen};

use crate::places::check_met;
use array_pages::{conflict, note_hold};
use dual_pointer::{SHUT, SLOT};
use engine_pages::{Engine, Pass, RefusalCause, SetName, enter, follow};
use homes::{At, Span};
use tx_sets::{Holds, PointerSet};

/// Where a pointer leads.
#[derive(Clone, Copy)]
pub(crate) enum Reached {
    /// To the page in a slot, which is held.
    Slot(u32),
    /// To no slot: its word.
    Bare(u64),
}

/// Follows a pointer, whose word stands here. The slot that it leads to is held from then on. Nothing is kept.
#[inline(always)]
pub(crate) fn reach(
    engine: &Engine,
    pass: &mut Pass,
    holds: &mut Holds,
    pointers: &PointerSet,
    place: At,
    span: Span,
    at: u32,
) -> Result<Reached, RefusalCause>
    requires of { IsPassOf engine.now pass.old }
    requires can { CanWalk holds.old (view pass.old) }
    requires place { IsPointerAt (view pass.old) place span at }
    requires word { at < words_of (view pass.old).layout }
    requires tree { is_tree (view pass.old).layout.decls span.storage ≡ true }
    requires known { IsTreesWord (view pass.old) at }
    requires apart { IsNoHeader (view pass.old).layout.slots at }
    requires inside { LiesInPage (view pass.old).layout.slots place at }
    ensures of { IsPassOf engine.now pass.new }
    ensures goes { (k : Key) (headers : List Seen) → in_span span k ≡ true
        → GoesSo 3 k pointers.now headers holds.new (IsReached k pointers.now place span at) result
        (view pass.old) (view pass.new) }
{
    let word = follow(engine, pass, place, span, at);
    check_met(pointers, at, word)?;
    if word >= SHUT {
        // Loaded once more: so what is expected there is what the step before saw.
        let later = follow(engine, pass, place, span, at);
        return Err(conflict(at, word, later));
    }
    if word < SLOT {
        return Ok(Reached::Bare(word));
    }
    let slot = hold(engine, pass, holds, place, span, at, word)?;
    Ok(Reached::Slot(slot))
}

/// Holds the slot to which a pointer was just seen to lead, and looks at the pointer once more, unless the slot is held
/// already.
#[inline(always)]
fn hold(
    engine: &Engine,
    pass: &mut Pass,
    holds: &mut Holds,
    place: At,
    span: Span,
    at: u32,
    word: u64,
) -> Result<u32, RefusalCause>
    requires of { IsPassOf engine.now pass.old }
    requires can { CanWalk holds.old (view pass.old) }
    requires place { IsPointerAt (view pass.old) place span at }
    requires word { at < words_of (view pass.old).layout }
    requires tree { is_tree (view pass.old).layout.decls span.storage ≡ true }
    requires known { IsTreesWord (view pass.old) at }
    requires apart { IsNoHeader (view pass.old).layout.slots at }
    requires inside { LiesInPage (view pass.old).layout.slots place at }
    requires slot { 2 ^ 32 ≤ word }
    requires unshut { word < 2 ^ 60 }
    requires led { IsLedTo word span at (view pass.old) }
    ensures of { IsPassOf engine.now pass.new }
    ensures goes { (k : Key) (pointers headers : List Seen) → in_span span k ≡ true → IsMetSo pointers at word
        → GoesSo 2 k pointers headers holds.new (IsHeldOn k span) result
        (view pass.old) (view pass.new) }
{
    let slot = (word / SLOT) as u32 - 1;
    if holds.contains(slot) {
        return Ok(slot);
    }
    enter_slot(engine, pass, holds, slot)?;
    let again = follow(engine, pass, place, span, at);
    if again != word {
        return Err(conflict(at, word, again));
    }
    Ok(slot)
}

/// Holds a slot, unless it is held already.
#[inline(always)]
pub(crate) fn enter_slot(
    engine: &Engine,
    pass: &mut Pass,
    holds: &mut Holds,
    slot: u32,
) -> Result<(), RefusalCause>
    requires of { IsPassOf engine.now pass.old }
    requires can { CanWalk holds.old (view pass.old) }
    requires there { slot < (view pass.old).layout.slots }
    ensures of { IsPassOf engine.now pass.new }
    ensures enters { EntersSo slot holds.new result (view pass.old) (view pass.new) }
{
    if holds.contains(slot) {
        return Ok(());
    }
    if holds.is_full() {
        return Err(RefusalCause::Wide {
            set: SetName::Holds,
        });
    }
    enter(engine, pass, slot);
    note_hold(holds, slot);
    Ok(())
}
