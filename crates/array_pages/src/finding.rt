// The record of a key.
ghost use Rattle.std.specs.Prelude.{◌≡◌, ◌+◌, ◌%◌, ◌<◌, ◌≤◌, ℕ, List, false, length, Contains};
ghost use Rattle.array_pages.specs.Finding.{IsContentBelow};
ghost use Rattle.array_pages.specs.Spans.{find_steps, keys_above, walk_holds, IsArrayKey, IsOver};
ghost use Rattle.array_pages.specs.Steps.{FindsSo, ReadsSo};
ghost use Rattle.array_pages.specs.Walks.{CanWalk, IsWayPlace};
ghost use Rattle.commit_core.specs.CoreState.{is_trying};
ghost use Rattle.engine_pages.specs.Layout.{words_of};
ghost use Rattle.engine_pages.specs.Passes.{view, IsPassOf};
ghost use Rattle.engine_pages.specs.Pointers.{IsArrayPointerAt};
ghost use Rattle.engine_pages.specs.Records.{IsRecordAt};
ghost use Rattle.engine_pages.specs.Views.{IsActive};
ghost use Rattle.snapshot_store.specs.ArrayPages.{indexes_at};
ghost use Rattle.tx_sets.specs.declared.seen.Seen.{Seen as TheSeen};

use crate::sizes::{LEAF, MIDDLE, RECORD, TOP};
use crate::snapshots::{in_leaf, in_middle, in_top};
use crate::storages::{array_of, span_from, word_at};
use crate::walk::{Reached, conflict, reach};
use engine_pages::{Engine, Pass, RefusalCause};
use homes::{At, Spot};
use page_records::{LOCK, confirm, load_value, see};
use serial_model::Key;
use tx_sets::{Holds, PointerSet, Seen};

/// Where the record of a key is.
#[derive(Clone, Copy, Debug, PartialEq, Eq)]
pub enum Found {
    /// In a page in memory: the place of its word, the word, which has no lock, and its value, which is 0 where it was
    /// never written.
    Volatile {
        at: u32,
        word: u64,
        value: u64,
    },
    /// In a snapshot page: its value, the word of its number, and the pointer at which the pages in memory end.
    Snapshot {
        value: u64,
        number: u64,
        pointer: Seen,
    },
    /// It was never written: the pointer at which the pages in memory end.
    Zero {
        pointer: Seen,
    },
}

/// The record of a key of an array. The slots of the pages on the way are held from then on; the pointers that the
/// transaction has kept are told. At most 12 steps: three for each of up to three pointers, and three for the record;
/// and at most three slots more are held.
#[inline(always)]
pub fn find(
    engine: &Engine,
    pass: &mut Pass,
    key: Key,
    holds: &mut Holds,
    pointers: &PointerSet,
) -> Result<Found, RefusalCause>
    requires of { IsPassOf engine.now pass.old }
    requires can { CanWalk holds.old (view pass.old) }
    requires fits { IsArrayKey (view pass.old).layout.decls key }
    ensures of { IsPassOf engine.now pass.new }
    ensures finds { FindsSo find_steps (length holds.old + walk_holds) key pointers.now holds.new
        result (view pass.old) (view pass.new) }
{
    let (root, size) = array_of(engine, key.storage);
    let place = At::Root(root);
    let at = 10 + root as u32;
    if size <= LEAF {
        return find_in_leaf(engine, pass, key, holds, pointers, place, at, 0);
    }
    if size <= MIDDLE {
        return find_in_middle(engine, pass, key, holds, pointers, place, at, 0);
    }
    find_in_top(engine, pass, key, holds, pointers, place, at)
}

// A pointer to a leaf.
#[inline(always)]
fn find_in_leaf(
    engine: &Engine,
    pass: &mut Pass,
    key: Key,
    holds: &mut Holds,
    pointers: &PointerSet,
    place: At,
    at: u32,
    low: u64,
) -> Result<Found, RefusalCause>
    requires of { IsPassOf engine.now pass.old }
    requires can { CanWalk holds.old (view pass.old) }
    requires fits { IsArrayKey (view pass.old).layout.decls key }
    requires place { IsArrayPointerAt (view pass.old) place (keys_above key 0 low) at }
    requires on { IsWayPlace (view pass.old).layout key at }
    requires word { at < words_of (view pass.old).layout }
    requires over { IsOver key 0 low }
    requires even { low % 32 ≡ 0 }
    requires low { low + indexes_at 0 ≤ 131072 }
    ensures of { IsPassOf engine.now pass.new }
    ensures finds { FindsSo 6 (length holds.old + 1) key pointers.now holds.new result
        (view pass.old) (view pass.new) }
{
    let span = span_from(key, low, LEAF);
    let reached = reach(engine, pass, holds, pointers, place, span, at)?;
    match reached {
        Reached::Slot(slot) => read_record(engine, pass, key, slot, low),
        Reached::Page(page) => {
            let (number, value) = in_leaf(engine, pass, page, low, key.key);
            Ok(found_below(at, page, number, value))
        }
    }
}

// A pointer to a page over leaves.
#[inline(always)]
fn find_in_middle(
    engine: &Engine,
    pass: &mut Pass,
    key: Key,
    holds: &mut Holds,
    pointers: &PointerSet,
    place: At,
    at: u32,
    low: u64,
) -> Result<Found, RefusalCause>
    requires of { IsPassOf engine.now pass.old }
    requires can { CanWalk holds.old (view pass.old) }
    requires fits { IsArrayKey (view pass.old).layout.decls key }
    requires place { IsArrayPointerAt (view pass.old) place (keys_above key 1 low) at }
    requires on { IsWayPlace (view pass.old).layout key at }
    requires word { at < words_of (view pass.old).layout }
    requires over { IsOver key 1 low }
    requires even { low % 32 ≡ 0 }
    requires whole { low % 2048 ≡ 0 }
    requires low { low + indexes_at 1 ≤ 131072 }
    ensures of { IsPassOf engine.now pass.new }
    ensures finds { FindsSo 9 (length holds.old + 2) key pointers.now holds.new result
        (view pass.old) (view pass.new) }
{
    let span = span_from(key, low, MIDDLE);
    let reached = reach(engine, pass, holds, pointers, place, span, at)?;
    match reached {
        Reached::Slot(slot) => {
            let part = (key.key - low) / LEAF;
            let below = At::In(Spot {
                slot,
                index: part as usize,
            });
            let next = word_at(engine, slot, part as u32);
            let first = low + part * LEAF;
            find_in_leaf(engine, pass, key, holds, pointers, below, next, first)
        }
        Reached::Page(page) => {
            let (number, value) = in_middle(engine, pass, page, low, key.key);
            Ok(found_below(at, page, number, value))
        }
    }
}

// The root's pointer to a page over such pages.
#[inline(always)]
fn find_in_top(
    engine: &Engine,
    pass: &mut Pass,
    key: Key,
    holds: &mut Holds,
    pointers: &PointerSet,
    place: At,
    at: u32,
) -> Result<Found, RefusalCause>
    requires of { IsPassOf engine.now pass.old }
    requires can { CanWalk holds.old (view pass.old) }
    requires fits { IsArrayKey (view pass.old).layout.decls key }
    requires place { IsArrayPointerAt (view pass.old) place (keys_above key 2 0) at }
    requires on { IsWayPlace (view pass.old).layout key at }
    requires word { at < words_of (view pass.old).layout }
    requires over { IsOver key 2 0 }
    ensures of { IsPassOf engine.now pass.new }
    ensures finds { FindsSo 12 (length holds.old + 3) key pointers.now holds.new result
        (view pass.old) (view pass.new) }
{
    let span = span_from(key, 0, TOP);
    let reached = reach(engine, pass, holds, pointers, place, span, at)?;
    match reached {
        Reached::Slot(slot) => {
            let part = key.key / MIDDLE;
            let below = At::In(Spot {
                slot,
                index: part as usize,
            });
            let next = word_at(engine, slot, part as u32);
            let first = part * MIDDLE;
            find_in_middle(engine, pass, key, holds, pointers, below, next, first)
        }
        Reached::Page(page) => {
            let (number, value) = in_top(engine, pass, page, key.key);
            Ok(found_below(at, page, number, value))
        }
    }
}

#[inline(always)]
fn found_below(at: u32, word: u64, number: u64, value: u64) -> Found
    ensures { IsContentBelow (record { at = at; word = word }) number value result }
{
    let pointer = Seen { at, word };
    if number == 0 {
        return Found::Zero { pointer };
    }
    Found::Snapshot {
        value,
        number,
        pointer,
    }
}

// The record of a key in the leaf in a slot that the pass holds.
#[inline(always)]
fn read_record(
    engine: &Engine,
    pass: &mut Pass,
    key: Key,
    slot: u32,
    low: u64,
) -> Result<Found, RefusalCause>
    requires of { IsPassOf engine.now pass.old }
    requires active { IsActive (view pass.old).role }
    requires rest { is_trying (view pass.old).seat.stage ≡ false }
    requires fits { IsArrayKey (view pass.old).layout.decls key }
    requires way { Contains (view pass.old).ways
        (record { slot = slot; span = keys_above key 0 low }) }
    requires there { slot < (view pass.old).layout.slots }
    requires even { low % 32 ≡ 0 }
    requires over { IsOver key 0 low }
    ensures of { IsPassOf engine.now pass.new }
    ensures reads { ReadsSo key result (view pass.old) (view pass.new) }
{
    let index = (key.key - low) as u32;
    let spot = Spot {
        slot,
        index: index as usize,
    };
    let at = word_at(engine, slot, RECORD * index);
    read_word(engine, pass, key, spot, at)
}

/// The record of a key in a page that the pass holds already, whose word stands here: at most three steps, and nothing
/// more is held.
#[inline(always)]
pub fn read_at(
    engine: &Engine,
    pass: &mut Pass,
    key: Key,
    spot: Spot,
    at: u32,
) -> Result<Found, RefusalCause>
    requires of { IsPassOf engine.now pass.old }
    requires active { IsActive (view pass.old).role }
    requires rest { is_trying (view pass.old).seat.stage ≡ false }
    requires place { IsRecordAt (view pass.old) key spot at }
    requires index { spot.index ≡ key.key % 32 }
    ensures of { IsPassOf engine.now pass.new }
    ensures finds { (slots : List ℕ) → CanWalk slots (view pass.old) → (pointers : List TheSeen)
        → FindsSo 3 (length slots) key pointers slots result (view pass.old) (view pass.new) }
{
    read_word(engine, pass, key, spot, at)
}

// The word of a record, its value, and the word once more.
#[inline(always)]
fn read_word(
    engine: &Engine,
    pass: &mut Pass,
    key: Key,
    spot: Spot,
    at: u32,
) -> Result<Found, RefusalCause>
    requires of { IsPassOf engine.now pass.old }
    requires active { IsActive (view pass.old).role }
    requires rest { is_trying (view pass.old).seat.stage ≡ false }
    requires place { IsRecordAt (view pass.old) key spot at }
    requires index { spot.index ≡ key.key % 32 }
    ensures of { IsPassOf engine.now pass.new }
    ensures reads { ReadsSo key result (view pass.old) (view pass.new) }
{
    let word = see(engine, pass, key, spot, at);
    if word >= LOCK {
        return Err(conflict(at, word, word));
    }
    let value = load_value(engine, pass, key, spot, at);
    let again = confirm(engine, pass, key, spot, at);
    if again != word {
        return Err(conflict(at, word, again));
    }
    Ok(Found::Volatile { at, word, value })
}
