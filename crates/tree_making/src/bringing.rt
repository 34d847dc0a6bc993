// The page below a pointer that leads to no slot.
ghost use Rattle.std.specs.Prelude.{◌+◌, ◌<◌, length, List, OnOk};
ghost use Rattle.engine_pages.specs.Layout.{words_of};
ghost use Rattle.engine_pages.specs.Passes.{view, IsPassOf};
ghost use Rattle.engine_pages.specs.Pointers.{IsPointerAt};
ghost use Rattle.engine_pages.specs.Views.{IsActive};
ghost use Rattle.engine_pages.specs.declared.view.View.{View};
ghost use Rattle.serial_model.specs.declared.key.Key.{Key};
ghost use Rattle.tree_making.specs.Making.{CanMake, IsOn, MakesSo};
ghost use Rattle.tree_making.specs.Pages.{ChecksSo, HasPage, HoldsMore, PutsSo};
ghost use Rattle.tree_walks.specs.Ways.{IsBareOn};
ghost use Rattle.tx_sets.specs.declared.seen.Seen.{Seen};

use crate::pages::make_page;
use array_pages::{conflict, note_hold};
use dual_pointer::install;
use engine_pages::{Engine, Pass, RefusalCause, SetName, enter, follow, retire};
use tree_walks::{Bare, Page};
use tx_sets::{Holds, PointerSet};

/// Puts in the page below a pointer, which was just seen to lead to no slot: a copy of the snapshot's page that it
/// names, or an empty leaf where it names none. The slot is held. Where the transaction has kept the pointer, it is
/// refused, unless the pointer is as it was again.
pub(crate) fn bring(
    engine: &Engine,
    pass: &mut Pass,
    holds: &mut Holds,
    pointers: &PointerSet,
    bare: Bare,
) -> Result<Page, RefusalCause>
    requires of { IsPassOf engine.now pass.old }
    requires can { CanMake holds.old (view pass.old) }
    requires bare { (k : Key) × IsBareOn k pointers.now bare (view pass.old) }
    ensures of { IsPassOf engine.now pass.new }
    ensures brings { (k : Key) (headers : List Seen) → IsBareOn k pointers.now bare (view pass.old)
        → MakesSo ((view pass.old).layout.slots + 135) k pointers.now headers holds.new (IsOn k) result
        (view pass.old) (view pass.new) }
    ensures more { OnOk result (HoldsMore (view pass.old) (view pass.new)) }
{
    if holds.is_full() {
        return Err(RefusalCause::Wide {
            set: SetName::Holds,
        });
    }
    let slot = make_page(engine, pass, bare.span, bare.pointer.word)?;
    lead_to(engine, pass, holds, bare, slot)?;
    check_moved(engine, pass, pointers, bare)?;
    Ok(Page {
        slot,
        span: bare.span,
    })
}

// The pointer leads to the slot from here on, which is held. Where the pointer has changed, the slot is given up.
fn lead_to(
    engine: &Engine,
    pass: &mut Pass,
    holds: &mut Holds,
    bare: Bare,
    slot: u32,
) -> Result<(), RefusalCause>
    requires of { IsPassOf engine.now pass.old }
    requires room { length holds.old < 128 }
    requires made { (k : Key) × (pointers : List Seen) × (v : View) × CanMake holds.old v × IsBareOn k pointers bare v
        × HasPage slot bare.span bare.pointer.word v (view pass.old) }
    ensures of { IsPassOf engine.now pass.new }
    ensures puts { (k : Key) (pointers headers : List Seen) (v : View) → CanMake holds.old v
        → IsBareOn k pointers bare v → HasPage slot bare.span bare.pointer.word v (view pass.old)
        → PutsSo k pointers headers bare slot holds.new result v (view pass.new) }
{
    enter(engine, pass, slot);
    note_hold(holds, slot);
    let at = bare.pointer.at;
    let word = bare.pointer.word;
    let seen = install(engine, pass, bare.place, bare.span, at, slot, word);
    if seen != word {
        retire(engine, pass, slot);
        return Err(conflict(at, word, seen));
    }
    Ok(())
}

// A pointer of the set that was led to a page is loaded once more: the transaction that has kept it is refused, unless
// it is as it was.
fn check_moved(
    engine: &Engine,
    pass: &mut Pass,
    pointers: &PointerSet,
    bare: Bare,
) -> Result<(), RefusalCause>
    requires of { IsPassOf engine.now pass.old }
    requires active { IsActive (view pass.old).role }
    requires place { IsPointerAt (view pass.old) bare.place bare.span bare.pointer.at }
    requires word { bare.pointer.at < words_of (view pass.old).layout }
    ensures of { IsPassOf engine.now pass.new }
    ensures checks { ChecksSo pointers.now bare.span bare.pointer.at result (view pass.old) (view pass.new) }
{
    let Some(expected) = pointers.find(bare.pointer.at) else {
        return Ok(());
    };
    let seen = follow(engine, pass, bare.place, bare.span, bare.pointer.at);
    if seen != expected {
        return Err(conflict(bare.pointer.at, expected, seen));
    }
    Ok(())
}
