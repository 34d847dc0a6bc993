// Copies of snapshot pages in slots.
ghost use Rattle.std.specs.Prelude.{◌≡◌, ◌+◌, ◌<◌, ◌≤◌, ◌∷◌, [], ℕ, List, length, true, IfOk, IfErr};
ghost use Rattle.array_pages.specs.Making.{draft_of, AreCopied, CanMake, HasCopied};
ghost use Rattle.array_pages.specs.Snapshots.{CanLook};
ghost use Rattle.array_pages.specs.Steps.{CanCopy, HasPublished, InstallsSo, IsBareAt, RefusesGive};
ghost use Rattle.engine_pages.specs.Layout.{words_of};
ghost use Rattle.engine_pages.specs.Pages.{is_array};
ghost use Rattle.engine_pages.specs.Passes.{view, IsPassOf};
ghost use Rattle.engine_pages.specs.Pointers.{IsArrayPointerAt};
ghost use Rattle.engine_pages.specs.Views.{IsActive};
ghost use Rattle.page_pool.specs.Pool.{HasTaken};

use crate::snapshots::word_of;
use crate::storages::word_at;
use crate::walk::{conflict, note_hold};
use dual_pointer::{install, publish_pointers};
use engine_pages::{Engine, Pass, RefusalCause, SetName, enter, fill, publish_copy, retire};
use homes::{At, Span};
use page_pool::{PoolRefusal, give};
use tx_sets::Holds;

/// Leads a pointer, which was just seen to lead to no slot and to the snapshot page of this word, to a slot whose page
/// is a copy of that, or empty for 0. The slot is held. Where the pointer has changed meanwhile, the slot is given up.
#[inline(never)]
pub(crate) fn install_copy(
    engine: &Engine,
    pass: &mut Pass,
    holds: &mut Holds,
    place: At,
    span: Span,
    at: u32,
    word: u64,
    leaf: bool,
) -> Result<u32, RefusalCause>
    requires of { IsPassOf engine.now pass.old }
    requires can { CanMake holds.old (view pass.old) }
    requires place { IsArrayPointerAt (view pass.old) place span at }
    requires word { at < words_of (view pass.old).layout }
    requires array { is_array (view pass.old).layout.decls span.storage ≡ true }
    requires kind { CanCopy leaf span }
    requires bare { IsBareAt word span at (view pass.old) }
    ensures of { IsPassOf engine.now pass.new }
    ensures installs { InstallsSo (length holds.old + 1) holds.new at word span result
        (view pass.old) (view pass.new) }
{
    if holds.is_full() {
        return Err(RefusalCause::Wide {
            set: SetName::Holds,
        });
    }
    let slot = publish_page(engine, pass, span, at, word, leaf)?;
    enter(engine, pass, slot);
    note_hold(holds, slot);
    let seen = install(engine, pass, place, span, at, slot, word);
    if seen != word {
        retire(engine, pass, slot);
        return Err(conflict(at, word, seen));
    }
    Ok(slot)
}

// The page of a slot that was given just now is a published copy of the snapshot page that the pointer names.
fn publish_page(
    engine: &Engine,
    pass: &mut Pass,
    span: Span,
    at: u32,
    word: u64,
    leaf: bool,
) -> Result<u32, RefusalCause>
    requires of { IsPassOf engine.now pass.old }
    requires can { (slots : List ℕ) × CanMake slots (view pass.old) }
    requires array { is_array (view pass.old).layout.decls span.storage ≡ true }
    requires kind { CanCopy leaf span }
    requires bare { IsBareAt word span at (view pass.old) }
    ensures of { IsPassOf engine.now pass.new }
    ensures published { IfOk result (λ slot.
        HasPublished slot span word (view pass.old) (view pass.new)) }
    ensures missed { IfErr result (λ why. RefusesGive why (view pass.old) (view pass.new)) }
{
    let slot = give_slot(engine, pass)?;
    copy_page(engine, pass, slot, word);
    if leaf {
        publish_copy(engine, pass, slot, span, word as u32);
        return Ok(slot);
    }
    publish_pointers(engine, pass, slot, span, word as u32);
    Ok(slot)
}

/// A slot of the pass's own, or why there was none.
pub fn give_slot(engine: &Engine, pass: &mut Pass) -> Result<u32, RefusalCause>
    requires of { IsPassOf engine.now pass.old }
    requires pass { IsActive (view pass.old).role }
    ensures of { IsPassOf engine.now pass.new }
    ensures given { IfOk result (λ slot. HasTaken slot (view pass.old) (view pass.new)) }
    ensures missed { IfErr result (λ why. RefusesGive why (view pass.old) (view pass.new)) }
{
    match give(engine, pass) {
        Ok(slot) => Ok(slot),
        Err(PoolRefusal::Full { held }) => Err(RefusalCause::Full { held }),
        Err(
            PoolRefusal::Changed {
                word,
                expected,
                seen,
            },
        ) => Err(conflict(word as u32, expected, seen)),
    }
}

/// Fills the page of a slot of the pass's own with the words of a snapshot page, or with zeros for 0.
pub fn copy_page(engine: &Engine, pass: &mut Pass, slot: u32, page: u64)
    requires of { IsPassOf engine.now pass.old }
    requires can { CanLook (view pass.old) }
    requires slot { slot < (view pass.old).layout.slots }
    requires there { page ≤ length (view pass.old).pages }
    requires own { (words : List ℕ) × (length words ≡ 64)
        × ((view pass.old).drafts ≡ draft_of slot words ∷ []) }
    ensures of { IsPassOf engine.now pass.new }
    ensures most { (view pass.new).steps ≤ (view pass.old).steps + 128 }
    ensures copies { (words : List ℕ) × AreCopied words (view pass.old).pages page
        × HasCopied slot words (view pass.old) (view pass.new) }
{
    for i in 0..64 {
        let word = word_of(engine, pass, page, i);
        let at = word_at(engine, slot, i);
        fill(engine, pass, slot, i, at, word);
    }
}
