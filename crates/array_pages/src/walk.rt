// One pointer down.
ghost use Rattle.std.specs.Prelude.{◌≡◌, ◌+◌, ◌^◌, ◌++◌, ◌∷◌, [], ◌<◌, ◌≤◌, true, false, length, IfOk, IfErr};
ghost use Rattle.array_pages.specs.Steps.{HoldsSo, IsLedTo, IsMetAs, IsMetElse, ReachesSo};
ghost use Rattle.array_pages.specs.Walks.{CanWalk};
ghost use Rattle.drop_core.specs.Table.{has_slot};
ghost use Rattle.engine_pages.specs.Layout.{words_of};
ghost use Rattle.engine_pages.specs.Pages.{is_array};
ghost use Rattle.engine_pages.specs.Passes.{view, IsPassOf};
ghost use Rattle.engine_pages.specs.Pointers.{IsArrayPointerAt};
ghost use Rattle.engine_pages.specs.declared.view.RefusalCause.TheVariants as causes;

use dual_pointer::{SHUT, SLOT, see_pointer};
use engine_pages::{Engine, Pass, RefusalCause, SetName, enter, follow};
use homes::{At, Span};
use tx_sets::{Holds, PointerSet};

/// Where a pointer leads.
pub(crate) enum Reached {
    /// To the page in a slot, which is held.
    Slot(u32),
    /// To no slot: to the snapshot page with this number, or to none for 0. The pointer is kept.
    Page(u64),
}

/// The cause of a refusal: a word that was seen is not the expected one.
#[inline(always)]
pub fn conflict(word: u32, expected: u64, seen: u64) -> RefusalCause
    ensures { result ≡ causes.Conflict word expected seen }
{
    RefusalCause::Conflict {
        word,
        expected,
        seen,
    }
}

/// Whether the set has a pointer, which has this word now. One that is not as the set has it is refused.
#[inline(always)]
pub(crate) fn is_met(pointers: &PointerSet, at: u32, word: u64) -> Result<bool, RefusalCause>
    ensures met { IfOk result (λ met. IsMetAs pointers.now at word met) }
    ensures other { IfErr result (λ why. IsMetElse pointers.now at word why) }
{
    let Some(expected) = pointers.find(at) else {
        return Ok(false);
    };
    if expected != word {
        return Err(conflict(at, expected, word));
    }
    Ok(true)
}

/// Follows a pointer, whose word stands here. The slot that it leads to is held from then on; where it leads to none,
/// its word is kept, and the pages in memory end there.
#[inline(always)]
pub(crate) fn reach(
    engine: &Engine,
    pass: &mut Pass,
    holds: &mut Holds,
    pointers: &PointerSet,
    place: At,
    span: Span,
    at: u32,
) -> Result<Reached, RefusalCause>
    requires of { IsPassOf engine.now pass.old }
    requires can { CanWalk holds.old (view pass.old) }
    requires place { IsArrayPointerAt (view pass.old) place span at }
    requires word { at < words_of (view pass.old).layout }
    requires array { is_array (view pass.old).layout.decls span.storage ≡ true }
    ensures of { IsPassOf engine.now pass.new }
    ensures reaches { ReachesSo (length holds.old + 1) pointers.now holds.new place span at result
        (view pass.old) (view pass.new) }
{
    let word = see_pointer(engine, pass, place, span, at);
    let met = is_met(pointers, at, word)?;
    if word >= SHUT {
        // Loaded once more: so what is expected there is what the step before saw.
        let later = follow(engine, pass, place, span, at);
        return Err(conflict(at, word, later));
    }
    if word >= SLOT {
        let slot = hold(engine, pass, holds, place, span, at, word)?;
        return Ok(Reached::Slot(slot));
    }
    if met {
        return Ok(Reached::Page(word));
    }
    if pointers.is_full() {
        return Err(RefusalCause::Wide {
            set: SetName::Pointers,
        });
    }
    Ok(Reached::Page(word))
}

/// Holds the slot to which a pointer was just seen to lead, and looks at the pointer once more, unless the slot is held
/// already.
#[inline(always)]
pub(crate) fn hold(
    engine: &Engine,
    pass: &mut Pass,
    holds: &mut Holds,
    place: At,
    span: Span,
    at: u32,
    word: u64,
) -> Result<u32, RefusalCause>
    requires of { IsPassOf engine.now pass.old }
    requires can { CanWalk holds.old (view pass.old) }
    requires place { IsArrayPointerAt (view pass.old) place span at }
    requires word { at < words_of (view pass.old).layout }
    requires slot { 2 ^ 32 ≤ word }
    requires unshut { word < 2 ^ 60 }
    requires led { IsLedTo word span at (view pass.old) }
    ensures of { IsPassOf engine.now pass.new }
    ensures holds { HoldsSo (length holds.old + 1) holds.new at word span result
        (view pass.old) (view pass.new) }
{
    let slot = (word / SLOT) as u32 - 1;
    if holds.contains(slot) {
        return Ok(slot);
    }
    if holds.is_full() {
        return Err(RefusalCause::Wide {
            set: SetName::Holds,
        });
    }
    enter(engine, pass, slot);
    note_hold(holds, slot);
    let again = follow(engine, pass, place, span, at);
    if again != word {
        return Err(conflict(at, word, again));
    }
    Ok(slot)
}

/// Notes a slot that the pass holds now.
#[inline(always)]
pub fn note_hold(holds: &mut Holds, slot: u32)
    requires absent { has_slot holds.old slot ≡ false }
    requires room { length holds.old < 128 }
    ensures { holds.new ≡ holds.old ++ slot ∷ [] }
{
    let _ = holds.push(slot);
}
