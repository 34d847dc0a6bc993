// What a snapshot's leaf of a tree has.
ghost use Rattle.std.specs.Prelude.{◌≡◌, ◌≢◌, ◌⊎◌, ℕ, ◌+◌, ◌/◌, ◌%◌, ◌^◌, ◌<◌, ◌≤◌, length, option_map, MatchBool};
ghost use Rattle.engine_pages.specs.declared.view.Role.TheVariants.{Keeper};
ghost use Rattle.engine_pages.specs.Passes.{view, IsPassOf};
ghost use Rattle.dual_pointer.specs.Installs.{tree_records};
ghost use Rattle.snapshot_store.specs.Places.{page as page_words};
ghost use Rattle.page_drops.specs.Works.{HasGlanced};
ghost use Rattle.tree_drops.specs.Leaves.{found_of, rest_of, HasCount, IsCounted, IsLike, IsOtherValue, IsStored};
ghost use Rattle.tree_drops.specs.Leaves.{IsUnlike, IsValue};

use engine_pages::{Engine, Pass};
use homes::Span;
use page_drops::word_of;

/// The bit of absence of a record's word.
const ABSENT: u64 = 1 << 61;

/// The bits of a record's word below its lock: the epoch and the draw of its number.
const NUMBERS: u64 = 1 << 60;

const DRAWS: u64 = 1 << 40;

/// The word of a record's number, and its value, as a snapshot page has them.
#[derive(Clone, Copy)]
pub(crate) struct Stored {
    pub number: u64,
    pub value: u64,
}

/// The page with this number is none, or its header's word is that of a leaf.
fn is_leaf(page: u32, header: u64) -> bool
    ensures { MatchBool result ((page ≡ 0) ⊎ ((header / 2 ^ 8) % 2 ^ 8 ≡ 1))
        ((0 < page) × ((header / 2 ^ 8) % 2 ^ 8 ≢ 1)) }
{
    if page == 0 {
        return true;
    }
    header / 256 % 256 == 1
}

/// How many records the snapshot's leaf with this number has, none for 0; nothing where the page is no leaf.
pub(crate) fn count_in(engine: &Engine, pass: &mut Pass, span: Span, page: u32) -> Option<u32>
    requires of { IsPassOf engine.now pass.old }
    requires keeper { (view pass.old).role ≡ Keeper }
    requires there { page ≤ length (view pass.old).pages }
    requires room { page ≤ (view pass.old).layout.resident }
    ensures of { IsPassOf engine.now pass.new }
    ensures glances { HasGlanced (view pass.old) (view pass.new) }
    ensures counts { IsCounted (view pass.old).pages span page result }
{
    let _ = span;
    let header = word_of(engine, pass, page, 0);
    if !is_leaf(page, header) {
        return None;
    }
    if header % 256 > 16 {
        return None;
    }
    Some((header % 256) as u32)
}

/// The record of a key among so many of the snapshot's leaf, from this one on.
fn find_from(
    engine: &Engine,
    pass: &mut Pass,
    page: u32,
    key: u64,
    index: u32,
    count: u32,
) -> Option<Stored>
    requires of { IsPassOf engine.now pass.old }
    requires keeper { (view pass.old).role ≡ Keeper }
    requires there { page ≤ length (view pass.old).pages }
    requires room { page ≤ (view pass.old).layout.resident }
    requires within { index ≤ count }
    requires few { count ≤ 16 }
    ensures of { IsPassOf engine.now pass.new }
    ensures glances { HasGlanced (view pass.old) (view pass.new) }
    ensures finds { (n : ℕ) → index + n ≡ count
        → IsStored (rest_of (page_words (view pass.old).pages page) index n) key result }
{
    if index == count {
        return None;
    }
    let at = 16 + 3 * index;
    let here = word_of(engine, pass, page, at);
    if here == key {
        let number = word_of(engine, pass, page, at + 1);
        let value = word_of(engine, pass, page, at + 2);
        return Some(Stored { number, value });
    }
    find_from(engine, pass, page, key, index + 1, count)
}

/// The record of a key of the snapshot's leaf, which has so many.
pub(crate) fn find(
    engine: &Engine,
    pass: &mut Pass,
    span: Span,
    page: u32,
    key: u64,
    count: u32,
) -> Option<Stored>
    requires of { IsPassOf engine.now pass.old }
    requires keeper { (view pass.old).role ≡ Keeper }
    requires there { page ≤ length (view pass.old).pages }
    requires room { page ≤ (view pass.old).layout.resident }
    requires count { HasCount (view pass.old).pages span page count }
    ensures of { IsPassOf engine.now pass.new }
    ensures glances { HasGlanced (view pass.old) (view pass.new) }
    ensures finds { IsStored (tree_records (view pass.old).pages page) key result }
{
    let _ = span;
    find_from(engine, pass, page, key, 0, count)
}

/// The word of a record that isn't locked is that of an absence, of an epoch up to this one.
fn is_old(epoch: u32, word: u64) -> bool
    ensures { MatchBool result ((2 ^ 61 ≤ word) × ((word % 2 ^ 60) / 2 ^ 40 ≤ epoch))
        ((word < 2 ^ 61) ⊎ (epoch < (word % 2 ^ 60) / 2 ^ 40)) }
{
    if word < ABSENT {
        return false;
    }
    word % NUMBERS / DRAWS <= u64::from(epoch)
}

/// It is that of the snapshot's record, or of an absence where the snapshot has none.
pub(crate) fn is_like(stored: Option<Stored>, epoch: u32, word: u64) -> bool
    ensures { MatchBool result (IsLike (option_map found_of stored) epoch word)
        (IsUnlike (option_map found_of stored) epoch word) }
{
    let Some(found) = stored else {
        return is_old(epoch, word);
    };
    if word != found.number {
        return false;
    }
    word < NUMBERS
}

/// The value is that of the snapshot's record, where there is one.
pub(crate) fn has_value(stored: Option<Stored>, value: u64) -> bool
    ensures { MatchBool result (IsValue (option_map found_of stored) value)
        (IsOtherValue (option_map found_of stored) value) }
{
    let Some(found) = stored else {
        return true;
    };
    value == found.value
}
