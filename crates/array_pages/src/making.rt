// The record of a key is brought into a page in memory.
ghost use Rattle.std.specs.Prelude.{◌≡◌, ◌+◌, ◌*◌, ◌%◌, ◌<◌, ◌≤◌, true, length};
ghost use Rattle.array_pages.specs.Making.{CanMake};
ghost use Rattle.array_pages.specs.Spans.{keys_above, make_steps, walk_holds, IsArrayKey, IsOver};
ghost use Rattle.array_pages.specs.Steps.{CanCopy, ChecksSo, MakesSo, SettlesSo};
ghost use Rattle.array_pages.specs.Walks.{IsWayPlace};
ghost use Rattle.engine_pages.specs.Layout.{words_of};
ghost use Rattle.engine_pages.specs.Pages.{is_array};
ghost use Rattle.engine_pages.specs.Passes.{view, IsPassOf};
ghost use Rattle.engine_pages.specs.Pointers.{IsArrayPointerAt};
ghost use Rattle.engine_pages.specs.Views.{IsActive};
ghost use Rattle.snapshot_store.specs.ArrayPages.{indexes_at};

use crate::copying::install_copy;
use crate::sizes::{LEAF, MIDDLE, RECORD, TOP};
use crate::storages::{array_of, span_from, word_at};
use crate::walk::{conflict, hold, is_met};
use dual_pointer::{SHUT, SLOT};
use engine_pages::{Engine, Pass, RefusalCause, follow};
use homes::{At, Span, Spot};
use serial_model::Key;
use tx_sets::{Holds, PointerSet};

/// The page below a pointer is in this slot, which is held.
#[derive(Clone, Copy, Debug, PartialEq, Eq)]
pub(crate) struct Settled {
    pub(crate) slot: u32,
    /// The set has the pointer, which was led to the slot just now.
    pub(crate) moved: bool,
}

/// Brings the record of a key of an array into a page in memory, from the root down: each page on its way is one then,
/// and is held. A page that wasn't there is copied from the snapshot page, or is empty. Answers the place of the
/// record's word. Where a pointer that the transaction has kept was led to a page by this, the transaction is refused.
/// For each of up to three pages the slots are searched at most once, at most 135 steps more are made, and at most one
/// slot more is held.
#[inline(always)]
pub fn make_volatile(
    engine: &Engine,
    pass: &mut Pass,
    key: Key,
    holds: &mut Holds,
    pointers: &PointerSet,
) -> Result<u32, RefusalCause>
    requires of { IsPassOf engine.now pass.old }
    requires can { CanMake holds.old (view pass.old) }
    requires fits { IsArrayKey (view pass.old).layout.decls key }
    ensures of { IsPassOf engine.now pass.new }
    ensures makes { MakesSo (make_steps (view pass.old).layout.slots) (length holds.old + walk_holds)
        key pointers.now holds.new result (view pass.old) (view pass.new) }
{
    let (root, size) = array_of(engine, key.storage);
    let place = At::Root(root);
    let at = 10 + root as u32;
    if size <= LEAF {
        return make_leaf(engine, pass, key, holds, pointers, place, at, 0);
    }
    if size <= MIDDLE {
        return make_middle(engine, pass, key, holds, pointers, place, at, 0);
    }
    make_top(engine, pass, key, holds, pointers, place, at)
}

// A pointer to a leaf.
#[inline(always)]
fn make_leaf(
    engine: &Engine,
    pass: &mut Pass,
    key: Key,
    holds: &mut Holds,
    pointers: &PointerSet,
    place: At,
    at: u32,
    low: u64,
) -> Result<u32, RefusalCause>
    requires of { IsPassOf engine.now pass.old }
    requires can { CanMake holds.old (view pass.old) }
    requires fits { IsArrayKey (view pass.old).layout.decls key }
    requires place { IsArrayPointerAt (view pass.old) place (keys_above key 0 low) at }
    requires on { IsWayPlace (view pass.old).layout key at }
    requires word { at < words_of (view pass.old).layout }
    requires over { IsOver key 0 low }
    requires even { low % 32 ≡ 0 }
    requires low { low + indexes_at 0 ≤ 131072 }
    ensures of { IsPassOf engine.now pass.new }
    ensures makes { MakesSo ((view pass.old).layout.slots + 135) (length holds.old + 1)
        key pointers.now holds.new result (view pass.old) (view pass.new) }
{
    let span = span_from(key, low, LEAF);
    let settled = settle(engine, pass, holds, pointers, place, span, at, true)?;
    check_moved(engine, pass, pointers, place, span, at, settled.moved)?;
    let index = (key.key - low) as u32;
    Ok(word_at(engine, settled.slot, RECORD * index))
}

// A pointer to a page over leaves.
#[inline(always)]
fn make_middle(
    engine: &Engine,
    pass: &mut Pass,
    key: Key,
    holds: &mut Holds,
    pointers: &PointerSet,
    place: At,
    at: u32,
    low: u64,
) -> Result<u32, RefusalCause>
    requires of { IsPassOf engine.now pass.old }
    requires can { CanMake holds.old (view pass.old) }
    requires fits { IsArrayKey (view pass.old).layout.decls key }
    requires place { IsArrayPointerAt (view pass.old) place (keys_above key 1 low) at }
    requires on { IsWayPlace (view pass.old).layout key at }
    requires word { at < words_of (view pass.old).layout }
    requires over { IsOver key 1 low }
    requires whole { low % 2048 ≡ 0 }
    requires low { low + indexes_at 1 ≤ 131072 }
    ensures of { IsPassOf engine.now pass.new }
    ensures makes { MakesSo (2 * ((view pass.old).layout.slots + 135)) (length holds.old + 2)
        key pointers.now holds.new result (view pass.old) (view pass.new) }
{
    let span = span_from(key, low, MIDDLE);
    let settled = settle(engine, pass, holds, pointers, place, span, at, false)?;
    let part = (key.key - low) / LEAF;
    let below = At::In(Spot {
        slot: settled.slot,
        index: part as usize,
    });
    let next = word_at(engine, settled.slot, part as u32);
    let first = low + part * LEAF;
    let record = make_leaf(engine, pass, key, holds, pointers, below, next, first)?;
    check_moved(engine, pass, pointers, place, span, at, settled.moved)?;
    Ok(record)
}

// The root's pointer to a page over such pages.
#[inline(always)]
fn make_top(
    engine: &Engine,
    pass: &mut Pass,
    key: Key,
    holds: &mut Holds,
    pointers: &PointerSet,
    place: At,
    at: u32,
) -> Result<u32, RefusalCause>
    requires of { IsPassOf engine.now pass.old }
    requires can { CanMake holds.old (view pass.old) }
    requires fits { IsArrayKey (view pass.old).layout.decls key }
    requires place { IsArrayPointerAt (view pass.old) place (keys_above key 2 0) at }
    requires on { IsWayPlace (view pass.old).layout key at }
    requires word { at < words_of (view pass.old).layout }
    requires over { IsOver key 2 0 }
    ensures of { IsPassOf engine.now pass.new }
    ensures makes { MakesSo (3 * ((view pass.old).layout.slots + 135)) (length holds.old + 3)
        key pointers.now holds.new result (view pass.old) (view pass.new) }
{
    let span = span_from(key, 0, TOP);
    let settled = settle(engine, pass, holds, pointers, place, span, at, false)?;
    let part = key.key / MIDDLE;
    let below = At::In(Spot {
        slot: settled.slot,
        index: part as usize,
    });
    let next = word_at(engine, settled.slot, part as u32);
    let first = part * MIDDLE;
    let record = make_middle(engine, pass, key, holds, pointers, below, next, first)?;
    check_moved(engine, pass, pointers, place, span, at, settled.moved)?;
    Ok(record)
}

// The page below a pointer is in a slot, and held. Where there was none, it is a copy of the snapshot page.
#[inline(always)]
fn settle(
    engine: &Engine,
    pass: &mut Pass,
    holds: &mut Holds,
    pointers: &PointerSet,
    place: At,
    span: Span,
    at: u32,
    leaf: bool,
) -> Result<Settled, RefusalCause>
    requires of { IsPassOf engine.now pass.old }
    requires can { CanMake holds.old (view pass.old) }
    requires place { IsArrayPointerAt (view pass.old) place span at }
    requires word { at < words_of (view pass.old).layout }
    requires array { is_array (view pass.old).layout.decls span.storage ≡ true }
    requires kind { CanCopy leaf span }
    ensures of { IsPassOf engine.now pass.new }
    ensures settles { SettlesSo (length holds.old + 1) pointers.now holds.new span at result
        (view pass.old) (view pass.new) }
{
    let word = follow(engine, pass, place, span, at);
    let met = is_met(pointers, at, word)?;
    if word >= SHUT {
        // Loaded once more: so what is expected there is what the step before saw.
        let again = follow(engine, pass, place, span, at);
        return Err(conflict(at, word, again));
    }
    if word >= SLOT {
        let held = hold(engine, pass, holds, place, span, at, word)?;
        return Ok(Settled {
            slot: held,
            moved: false,
        });
    }
    let slot = install_copy(engine, pass, holds, place, span, at, word, leaf)?;
    Ok(Settled { slot, moved: met })
}

// A pointer of the set that the call led to a page is loaded once more: the transaction that has kept it is refused,
// unless it is as it was.
#[inline(always)]
fn check_moved(
    engine: &Engine,
    pass: &mut Pass,
    pointers: &PointerSet,
    place: At,
    span: Span,
    at: u32,
    moved: bool,
) -> Result<(), RefusalCause>
    requires of { IsPassOf engine.now pass.old }
    requires active { IsActive (view pass.old).role }
    requires place { IsArrayPointerAt (view pass.old) place span at }
    requires word { at < words_of (view pass.old).layout }
    ensures of { IsPassOf engine.now pass.new }
    ensures checks { ChecksSo pointers.now span at moved result (view pass.old) (view pass.new) }
{
    if !moved {
        return Ok(());
    }
    let seen = follow(engine, pass, place, span, at);
    is_met(pointers, at, seen)?;
    Ok(())
}
