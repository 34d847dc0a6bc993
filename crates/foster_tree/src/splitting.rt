// Full leaves that are split.
ghost use Rattle.std.specs.Prelude.{◌≡◌, ◌<◌, [], List, true, length, IfOk, IfErr, OnErr};
ghost use Rattle.array_pages.specs.Walks.{HoldsAre};
ghost use Rattle.engine_pages.specs.Layout.{page_at};
ghost use Rattle.engine_pages.specs.Pages.{is_tree};
ghost use Rattle.engine_pages.specs.Passes.{view, IsPassOf};
ghost use Rattle.engine_pages.specs.Views.{IsActive};
ghost use Rattle.foster_tree.specs.Adding.{CanStoreIn, Stores};
ghost use Rattle.foster_tree.specs.Entries.{keys_of};
ghost use Rattle.foster_tree.specs.Splitting.{lower_of, separator_of, twin_words, upper_of, AreHalves, CanSplitLeaf};
ghost use Rattle.foster_tree.specs.Splitting.{CanSplitLocked, CanTurn, HasMadeHalves, HasMadeNoHalves, HasMadeNothing};
ghost use Rattle.foster_tree.specs.Splitting.{HasNotSplit, HasNotSplitLocked, HasSplitLeaf, HasSplitLocked, HasTurned};
ghost use Rattle.foster_tree.specs.declared.entries.Entry.{Entry};
ghost use Rattle.serial_model.specs.declared.key.Key.{Key};
ghost use Rattle.tree_heads.specs.Headers.{open_word};
ghost use Rattle.tree_heads.specs.Splits.{CanSplit, HasSplit};

use crate::adding::{ABSENT, store_word};
use crate::entries::{Entry, MANY, in_order, place_of};
use crate::filling::{FIRST_RECORD, RECORD, make_leaf};
use crate::locking::{FULL, lock_records, open_records};
use array_pages::{conflict, note_hold, word_at};
use engine_pages::{Engine, Pass, RefusalCause, SetName, enter, retire};
use homes::Span;
use serial_model::Key;
use std::marker::Brand;
use tree_heads::{Halved, MOVED, lock_header, open_header, split_leaf};
use tx_sets::Holds;

/// How many records the first half gets.
const MINOR: usize = 8;

/// The slots of the halves of a leaf, published and not led to yet, and the first key of the second.
#[derive(Clone, Copy, Debug, PartialEq, Eq)]
pub(crate) struct Halves {
    pub(crate) minor: u32,
    pub(crate) major: u32,
    pub(crate) separator: u64,
}

/// Splits a full leaf, whose header was last seen as this word, with a key more that it has not: its header and its
/// records are locked, the halves of its records and the key's, which is absent, are published, and the leaf leads to
/// them. The half that is made for the key is held. Answers the place of the record's word. Where the holds are full,
/// the header or a record has changed, or no slot is given, nothing is locked or made.
pub fn split(
    engine: &Engine,
    pass: &mut Pass,
    slot: u32,
    span: Span,
    key: Key,
    word: u64,
    holds: &mut Holds,
) -> Result<u32, RefusalCause>
    requires of { IsPassOf engine.now pass.old }
    requires can { CanSplitLeaf holds.old (view pass.old) slot span key word }
    ensures of { IsPassOf engine.now pass.new }
    ensures holds { HoldsAre holds.new (view pass.new) }
    ensures split { IfOk result (λ at. HasSplitLeaf slot span key at (view pass.old) (view pass.new)) }
    ensures kept { OnErr result (holds.new ≡ holds.old) }
    ensures missed { IfErr result (λ why.
        HasNotSplit holds.old slot word why (view pass.old) (view pass.new)) }
{
    if holds.is_full() {
        return Err(RefusalCause::Wide {
            set: SetName::Holds,
        });
    }
    let at = word_at(engine, slot, 0);
    let seen = lock_header(engine, pass, slot, span, at, word);
    if seen != word {
        return Err(conflict(at, word, seen));
    }
    match split_locked(engine, pass, slot, span, key, at, word, holds) {
        Ok(place) => Ok(place),
        Err(why) => {
            open_header(engine, pass, slot, span, at, word);
            Err(why)
        }
    }
}

// The header is locked.
fn split_locked(
    engine: &Engine,
    pass: &mut Pass,
    slot: u32,
    span: Span,
    key: Key,
    at: u32,
    word: u64,
    holds: &mut Holds,
) -> Result<u32, RefusalCause>
    requires of { IsPassOf engine.now pass.old }
    requires can { CanSplitLocked holds.old (view pass.old) slot span key at word }
    ensures of { IsPassOf engine.now pass.new }
    ensures split { IfOk result (λ place. HasSplitLocked slot span key place holds.old holds.new
        (view pass.old) (view pass.new)) }
    ensures kept { OnErr result (holds.new ≡ holds.old) }
    ensures missed { IfErr result (λ why. HasNotSplitLocked slot why (view pass.old) (view pass.new)) }
{
    let none = Entry {
        key: 0,
        word: 0,
        value: 0,
    };
    let mut entries = [none; MANY];
    lock_records(engine, pass, slot, span, &mut entries)?;
    entries[FULL as usize] = Entry {
        key: key.key,
        word: ABSENT,
        value: 0,
    };
    let sorted = in_order(&entries);
    match make_halves(engine, pass, span, &sorted) {
        Ok(halves) => Ok(turn(
            engine, pass, slot, span, key, at, word, holds, &sorted, halves,
        )),
        Err(why) => {
            open_records(engine, pass, slot, span, &entries, FULL);
            Err(why)
        }
    }
}

// Both halves, of which the first is given up where there is no slot for the second.
fn make_halves(
    engine: &Engine,
    pass: &mut Pass,
    span: Span,
    sorted: &[Entry; MANY],
) -> Result<Halves, RefusalCause>
    requires of { IsPassOf engine.now pass.old }
    requires active { IsActive (view pass.old).role }
    requires nothing { HasMadeNothing (view pass.old) }
    requires tree { is_tree (view pass.old).layout.decls span.storage ≡ true }
    requires halves { AreHalves span sorted.now }
    ensures of { IsPassOf engine.now pass.new }
    ensures made { IfOk result (λ h. HasMadeHalves h.minor h.major span sorted.now
        (view pass.old) (view pass.new) × (h.separator ≡ separator_of sorted.now)) }
    ensures missed { IfErr result (λ why. HasMadeNoHalves why (view pass.old) (view pass.new)) }
{
    let separator = sorted[MINOR].key;
    let lower = Span {
        storage: span.storage,
        low: span.low,
        high: separator - 1,
    };
    let upper = Span {
        storage: span.storage,
        low: separator,
        high: span.high,
    };
    let minor = make_leaf(engine, pass, lower, &sorted[..MINOR])?;
    match make_leaf(engine, pass, upper, &sorted[MINOR..]) {
        Ok(major) => Ok(Halves {
            minor,
            major,
            separator,
        }),
        Err(why) => {
            retire(engine, pass, minor);
            Err(why)
        }
    }
}

// The leaf leads to its halves from here on. Answers the place of the key's record's word.
fn turn(
    engine: &Engine,
    pass: &mut Pass,
    slot: u32,
    span: Span,
    key: Key,
    at: u32,
    word: u64,
    holds: &mut Holds,
    sorted: &[Entry; MANY],
    halves: Halves,
) -> u32
    requires of { IsPassOf engine.now pass.old }
    requires holds { HoldsAre holds.old (view pass.old) }
    requires room { length holds.old < 128 }
    requires header { at ≡ page_at (view pass.old).layout.slots slot 0 }
    requires word { word ≡ open_word 16 }
    requires separator { halves.separator ≡ separator_of sorted.now }
    requires can { (keys : List Key) × (entries : List Entry)
        × CanTurn (view pass.old) slot span keys key entries sorted.now halves.minor halves.major }
    ensures of { IsPassOf engine.now pass.new }
    ensures turned { HasTurned slot span key sorted.now halves.minor halves.major result holds.old holds.new
        (view pass.old) (view pass.new) }
{
    let place = place_of(sorted, key.key);
    let below = key.key < halves.separator;
    let half = if below { halves.minor } else { halves.major };
    let index = if below { place } else { place - MINOR as u32 };
    enter(engine, pass, half);
    note_hold(holds, half);
    store_twins(engine, pass, slot, halves);
    split_sorted(engine, pass, slot, span, at, word + MOVED, sorted, halves);
    word_at(engine, half, FIRST_RECORD + RECORD * index + 1)
}

// The slots of the halves and the separator, in the words of a leaf whose header is locked.
fn store_twins(engine: &Engine, pass: &mut Pass, slot: u32, halves: Halves)
    requires of { IsPassOf engine.now pass.old }
    requires can { CanStoreIn (view pass.old) slot 16 }
    ensures of { IsPassOf engine.now pass.new }
    ensures can { CanStoreIn (view pass.new) slot 16 }
    ensures stores { Stores slot (twin_words halves.minor halves.major halves.separator) 3
        (view pass.old) (view pass.new) }
{
    store_word(engine, pass, slot, 3, u64::from(halves.minor) + 1);
    store_word(engine, pass, slot, 4, u64::from(halves.major) + 1);
    store_word(engine, pass, slot, 5, halves.separator);
}

// The header is stored as moved.
fn split_sorted(
    engine: &Engine,
    pass: &mut Pass,
    slot: u32,
    span: Span,
    at: u32,
    word: u64,
    sorted: &[Entry; MANY],
    halves: Halves,
)
    requires of { IsPassOf engine.now pass.old }
    requires active { IsActive (view pass.old).role }
    requires slot { slot < (view pass.old).layout.slots }
    requires header { at ≡ page_at (view pass.old).layout.slots slot 0 }
    requires can { CanSplit (view pass.old) slot span (lower_of halves.minor span sorted.now)
        (upper_of halves.major span sorted.now) (keys_of span.storage sorted.now)
        (separator_of sorted.now) word }
    ensures of { IsPassOf engine.now pass.new }
    ensures splits { HasSplit slot span (lower_of halves.minor span sorted.now)
        (upper_of halves.major span sorted.now) (keys_of span.storage sorted.now)
        (separator_of sorted.now) at word (view pass.old) (view pass.new) }
{
    split_sorted_as::<Brand>(engine, pass, slot, span, at, word, sorted, halves);
}

fn split_sorted_as<K: Halved>(
    engine: &Engine,
    pass: &mut Pass,
    slot: u32,
    span: Span,
    at: u32,
    word: u64,
    sorted: &[Entry; MANY],
    halves: Halves,
)
    requires of { IsPassOf engine.now pass.old }
    requires active { IsActive (view pass.old).role }
    requires slot { slot < (view pass.old).layout.slots }
    requires header { at ≡ page_at (view pass.old).layout.slots slot 0 }
    requires can { CanSplit (view pass.old) slot span (lower_of halves.minor span sorted.now)
        (upper_of halves.major span sorted.now) (keys_of span.storage sorted.now)
        (separator_of sorted.now) word }
    requires named { (lower_of halves.minor span sorted.now ≡ K.lower)
        × (upper_of halves.major span sorted.now ≡ K.upper)
        × (keys_of span.storage sorted.now ≡ K.keys) × (separator_of sorted.now ≡ K.separator) }
    ensures of { IsPassOf engine.now pass.new }
    ensures splits { HasSplit slot span (lower_of halves.minor span sorted.now)
        (upper_of halves.major span sorted.now) (keys_of span.storage sorted.now)
        (separator_of sorted.now) at word (view pass.old) (view pass.new) }
{
    let _ = sorted;
    let _ = halves;
    split_leaf::<K>(engine, pass, slot, span, at, word);
}
