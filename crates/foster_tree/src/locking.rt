// Records of a full leaf that are locked before it is split, and opened again where it isn't.
ghost use Rattle.std.specs.Prelude.{◌≡◌, ◌<◌, List, true, ◌≤◌, slice_get, IfOk, IfErr, Some, Contains};
ghost use Rattle.commit_core.specs.CoreState.{can_begin};
ghost use Rattle.engine_pages.specs.Passes.{view, IsPassOf};
ghost use Rattle.engine_pages.specs.Records.{IsTreeRecordAt};
ghost use Rattle.engine_pages.specs.Views.{IsActive};
ghost use Rattle.foster_tree.specs.Locking.{AreLocked, CanLockRecords, HasLockedOne, HasLockedSome, HasLockedWord, HasNotLocked};
ghost use Rattle.foster_tree.specs.Locking.{HasNotLockedOne, HasOpenedOne, HasOpenedSome, HeldValue, KnowsFull};
ghost use Rattle.foster_tree.specs.Locking.{CanOpenOne, RefusesWord};
ghost use Rattle.foster_tree.specs.Entries.{key_of};
ghost use Rattle.engine_pages.specs.declared.view.Moved.{Moved};
ghost use Rattle.engine_pages.specs.declared.view.View.{View};
ghost use Rattle.page_records.specs.Locks.{took_at};
ghost use Rattle.serial_model.specs.declared.key.Key.{Key};

use crate::entries::{Entry, MANY};
use crate::filling::{FIRST_RECORD, RECORD};
use array_pages::{conflict, word_at};
use engine_pages::{Engine, Pass, RefusalCause};
use homes::{Span, Spot};
use page_records::{load_word as load_record, lock, open_again};
use serial_model::Key;
use tree_heads::load_word;
use tree_records::load_held;

/// The lock bit of a record's word.
const LOCK: u64 = 1 << 60;

/// How many records a full leaf has.
pub(crate) const FULL: u32 = 16;

/// Locks all records of a full leaf, and reads them; or none.
pub(crate) fn lock_records(
    engine: &Engine,
    pass: &mut Pass,
    slot: u32,
    span: Span,
    entries: &mut [Entry; MANY],
) -> Result<(), RefusalCause>
    requires of { IsPassOf engine.now pass.old }
    requires can { (keys : List Key) × CanLockRecords (view pass.old) slot span keys }
    ensures of { IsPassOf engine.now pass.new }
    ensures locked { IfOk result (λ done. (keys : List Key)
        → CanLockRecords (view pass.old) slot span keys
        → HasLockedSome slot keys entries.new 16 (view pass.old) (view pass.new)) }
    ensures missed { IfErr result (λ why. HasNotLocked slot why (view pass.old) (view pass.new)) }
{
    for index in 0..FULL {
        match lock_one(engine, pass, slot, span, index) {
            Ok(entry) => entries[index as usize] = entry,
            Err(why) => {
                open_records(engine, pass, slot, span, entries, index);
                return Err(why);
            }
        }
    }
    Ok(())
}

/// Opens the first records of a leaf again, so many, with the words that the locks found; the last one first.
pub(crate) fn open_records(
    engine: &Engine,
    pass: &mut Pass,
    slot: u32,
    span: Span,
    entries: &[Entry; MANY],
    count: u32,
)
    requires of { IsPassOf engine.now pass.old }
    requires can { (keys : List Key) × (from : View) × CanLockRecords from slot span keys
        × AreLocked slot keys entries.now count from (view pass.old) }
    requires few { count ≤ 16 }
    ensures of { IsPassOf engine.now pass.new }
    ensures opened { HasOpenedSome slot count (view pass.old) (view pass.new) }
{
    let mut left = count;
    while left > 0 {
        left -= 1;
        let entry = entries[left as usize];
        open_one(engine, pass, slot, span, left, entry);
    }
}

// Opens the record with this index again.
fn open_one(engine: &Engine, pass: &mut Pass, slot: u32, span: Span, index: u32, entry: Entry)
    requires of { IsPassOf engine.now pass.old }
    requires can { (keys : List Key) × KnowsFull (view pass.old) slot span keys
        × CanOpenOne (view pass.old) slot keys index entry }
    requires index { index < 16 }
    ensures of { IsPassOf engine.now pass.new }
    ensures opened { HasOpenedOne slot (key_of span.storage entry) index entry
        (view pass.old) (view pass.new) }
{
    let key = Key {
        storage: span.storage,
        key: entry.key,
    };
    let spot = Spot {
        slot,
        index: index as usize,
    };
    let at = word_at(engine, slot, FIRST_RECORD + RECORD * index + 1);
    open_again(engine, pass, key, spot, at, entry.word);
}

// Locks the record with this index, and reads it.
fn lock_one(
    engine: &Engine,
    pass: &mut Pass,
    slot: u32,
    span: Span,
    index: u32,
) -> Result<Entry, RefusalCause>
    requires of { IsPassOf engine.now pass.old }
    requires can { (keys : List Key) × KnowsFull (view pass.old) slot span keys }
    requires index { index < 16 }
    ensures of { IsPassOf engine.now pass.new }
    ensures locked { IfOk result (λ entry. (keys : List Key) (k : Key)
        → KnowsFull (view pass.old) slot span keys → slice_get keys index ≡ Some k
        → HasLockedOne slot k index entry (view pass.old) (view pass.new)) }
    ensures missed { IfErr result (λ why. HasNotLockedOne slot index why (view pass.old) (view pass.new)) }
{
    let first = FIRST_RECORD + RECORD * index;
    let place = word_at(engine, slot, first);
    let number = load_word(engine, pass, slot, first, place);
    let key = Key {
        storage: span.storage,
        key: number,
    };
    let spot = Spot {
        slot,
        index: index as usize,
    };
    let word = lock_word(engine, pass, key, spot, place + 1)?;
    let value = held_value(engine, pass, key, spot, place + 1, word);
    Ok(Entry {
        key: number,
        word,
        value,
    })
}

// Locks a record that nobody has locked, as it was just seen.
fn lock_word(
    engine: &Engine,
    pass: &mut Pass,
    key: Key,
    spot: Spot,
    at: u32,
) -> Result<u64, RefusalCause>
    requires of { IsPassOf engine.now pass.old }
    requires active { IsActive (view pass.old).role }
    requires idle { can_begin (view pass.old).seat.stage ≡ true }
    requires place { IsTreeRecordAt (view pass.old) key spot at }
    ensures of { IsPassOf engine.now pass.new }
    ensures locked { IfOk result (λ word. HasLockedWord key spot at word (view pass.old) (view pass.new)) }
    ensures missed { IfErr result (λ why. RefusesWord at why (view pass.old) (view pass.new)) }
{
    let word = load_record(engine, pass, key, spot, at);
    if word / LOCK % 2 == 1 {
        // Loaded once more: so what is expected there is what the step before saw.
        let again = load_record(engine, pass, key, spot, at);
        return Err(conflict(at, word, again));
    }
    let seen = lock(engine, pass, key, spot, at, word);
    if seen != word {
        return Err(conflict(at, word, seen));
    }
    Ok(word)
}

// The value of a record that is locked, 0 where there is none.
fn held_value(engine: &Engine, pass: &mut Pass, key: Key, spot: Spot, at: u32, word: u64) -> u64
    requires of { IsPassOf engine.now pass.old }
    requires active { IsActive (view pass.old).role }
    requires idle { can_begin (view pass.old).seat.stage ≡ true }
    requires place { IsTreeRecordAt (view pass.old) key spot at }
    requires took { Contains (view pass.old).took (took_at key spot word) }
    ensures of { IsPassOf engine.now pass.new }
    ensures held { HeldValue key at word result (view pass.old) (view pass.new) }
{
    if word >= LOCK {
        return 0;
    }
    load_held(engine, pass, key, spot, at, word)
}

/// The conflict at the record with this index, which is below 16, of a leaf that the pass knows to be split: it is locked
/// for good. Its word is loaded twice: so what is expected there is what the step before saw.
pub fn moved_record(
    engine: &Engine,
    pass: &mut Pass,
    slot: u32,
    span: Span,
    index: u32,
) -> RefusalCause
    requires of { IsPassOf engine.now pass.old }
    requires can { (keys : List Key) × KnowsFull (view pass.old) slot span keys }
    requires moved { (x : Moved) × Contains (view pass.old).moved x × (x.slot ≡ slot) }
    requires index { index < 16 }
    ensures of { IsPassOf engine.now pass.new }
    ensures missed { HasNotLockedOne slot index result (view pass.old) (view pass.new) }
{
    let first = FIRST_RECORD + RECORD * index;
    let place = word_at(engine, slot, first);
    let number = load_word(engine, pass, slot, first, place);
    let key = Key {
        storage: span.storage,
        key: number,
    };
    let spot = Spot {
        slot,
        index: index as usize,
    };
    meet_moved(engine, pass, key, spot, place + 1)
}

// The conflict at a record of a leaf that the pass knows to be split.
fn meet_moved(engine: &Engine, pass: &mut Pass, key: Key, spot: Spot, at: u32) -> RefusalCause
    requires of { IsPassOf engine.now pass.old }
    requires active { IsActive (view pass.old).role }
    requires place { IsTreeRecordAt (view pass.old) key spot at }
    requires moved { (x : Moved) × Contains (view pass.old).moved x × (x.slot ≡ spot.slot) }
    ensures of { IsPassOf engine.now pass.new }
    ensures missed { RefusesWord at result (view pass.old) (view pass.new) }
{
    let word = load_record(engine, pass, key, spot, at);
    let again = load_record(engine, pass, key, spot, at);
    conflict(at, word, again)
}
