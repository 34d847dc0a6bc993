// A record of a leaf is compared with a snapshot's, locked, and opened again.
ghost use Rattle.std.specs.Prelude.{◌≡◌, ◌^◌, ◌<◌, ◌≤◌, [], length, get_or, IfErr, OnOk};
ghost use Rattle.engine_pages.specs.declared.view.Role.TheVariants.{Keeper};
ghost use Rattle.engine_pages.specs.Layout.{page_at};
ghost use Rattle.engine_pages.specs.Passes.{view, IsPassOf};
ghost use Rattle.pointer_swings.specs.Swings.{key_in};
ghost use Rattle.snapshot_store.specs.Places.{page as page_words};
ghost use Rattle.page_drops.specs.Leaves.{AtLeaf, AreLow, HasCompared, HasFirst, HasOpened, HasRow};
ghost use Rattle.page_drops.specs.Leaves.{KeepsSeenBut, LocksNext, MetOne};
ghost use Rattle.page_drops.specs.Works.{HasGlanced, HasSeenLast, IsKeepDue, IsNoted, IsSeenStill, KeepsLeaf};
ghost use Rattle.page_drops.specs.Works.{KeepsReads, SawAlone, SawMore};

use crate::noting::{Kept, note_kept};
use engine_pages::{Engine, KeptWhy, Pass, load_resident};
use homes::{Span, Spot};
use page_records::{LOCK, confirm, load_value, lock, open_again, see};
use serial_model::Key;

/// A leaf in a slot, over these keys, and the snapshot page that it is compared with, or 0.
#[derive(Clone, Copy)]
pub(crate) struct Leaf {
    pub slot: u32,
    pub span: Span,
    pub page: u32,
}

/// The key with this index.
fn key_of(leaf: Leaf, index: u32) -> Key
    requires low { leaf.span.low < 2 ^ 32 }
    requires index { index < 32 }
    ensures { result ≡ key_in leaf.span index }
{
    Key {
        storage: leaf.span.storage,
        key: leaf.span.low + u64::from(index),
    }
}

/// The place of a word of the page in a slot.
pub fn word_at(engine: &Engine, slot: u32, index: u32) -> u32
    requires slot { slot < engine.now.table.shared.key.slots }
    requires index { index < 64 }
    ensures { result ≡ page_at engine.now.table.shared.key.slots slot index }
{
    32 + engine.slots() + 64 * slot + index
}

/// A word of the snapshot page with this number; page 0 reads as zeros.
pub fn word_of(engine: &Engine, pass: &mut Pass, page: u32, index: u32) -> u64
    requires of { IsPassOf engine.now pass.old }
    requires keeper { (view pass.old).role ≡ Keeper }
    requires there { page ≤ length (view pass.old).pages }
    requires room { page ≤ (view pass.old).layout.resident }
    requires index { index < 64 }
    ensures of { IsPassOf engine.now pass.new }
    ensures glances { HasGlanced (view pass.old) (view pass.new) }
    ensures word { result ≡ get_or (page_words (view pass.old).pages page) index 0 }
{
    if page == 0 {
        return 0;
    }
    load_resident(engine, pass, page, index)
}

/// Notes that a page is kept for the word that was seen last: for a lock only where it is none of the pass's own, for
/// what stands at a key of a tree only where the pass knows the key there, or that it isn't there, and for a change only
/// where the pass had met another word right before.
pub fn keep(engine: &Engine, pass: &mut Pass, word: u32, seen: u64, why: KeptWhy) -> Kept
    requires of { IsPassOf engine.now pass.old }
    requires keeper { (view pass.old).role ≡ Keeper }
    requires last { HasSeenLast (view pass.old) (record { word = word; seen = seen; why = why }) }
    requires due { IsKeepDue why word seen (view pass.old) }
    ensures of { IsPassOf engine.now pass.new }
    ensures is { result ≡ record { word = word; seen = seen; why = why } }
    ensures notes { IsNoted result (view pass.old) (view pass.new) }
{
    let kept = Kept { word, seen, why };
    note_kept(engine, pass, kept);
    kept
}

/// Compares the record with this index with the snapshot's. What was seen of it is kept; where it is another, or
/// locked, it is noted that the page is kept.
pub(crate) fn compare(engine: &Engine, pass: &mut Pass, leaf: Leaf, index: u32) -> Result<(), Kept>
    requires of { IsPassOf engine.now pass.old }
    requires at { AtLeaf leaf.slot leaf.span leaf.page (view pass.old) }
    requires index { index < 32 }
    requires free { (view pass.old).took ≡ [] }
    ensures of { IsPassOf engine.now pass.new }
    ensures compares { OnOk result (HasCompared leaf.slot leaf.span
        (page_words (view pass.old).pages leaf.page) index (view pass.old) (view pass.new)) }
    ensures keeps { IfErr result (λ k. KeepsLeaf leaf.slot leaf.page k (view pass.old) (view pass.new)) }
    ensures still { IfErr result (λ k. IsSeenStill k (view pass.new)) }
    ensures reads { KeepsReads leaf.slot (view pass.old) (view pass.new) }
    ensures more { SawAlone (view pass.old) (view pass.new) }
{
    let number = word_of(engine, pass, leaf.page, 2 * index);
    let value = word_of(engine, pass, leaf.page, 2 * index + 1);
    let key = key_of(leaf, index);
    let spot = Spot {
        slot: leaf.slot,
        index: index as usize,
    };
    let at = word_at(engine, leaf.slot, 2 * index);
    let word = see(engine, pass, key, spot, at);
    if word >= LOCK {
        let locked = keep(engine, pass, at, word, KeptWhy::Locked);
        return Err(locked);
    }
    if word != number {
        let other = keep(engine, pass, at, word, KeptWhy::Unlike);
        return Err(other);
    }
    let found = load_value(engine, pass, key, spot, at);
    if found != value {
        let valued = keep(engine, pass, at + 1, found, KeptWhy::Unlike);
        return Err(valued);
    }
    let again = confirm(engine, pass, key, spot, at);
    if again >= LOCK {
        let taken = keep(engine, pass, at, again, KeptWhy::Locked);
        return Err(taken);
    }
    if again != number {
        let newer = keep(engine, pass, at, again, KeptWhy::Unlike);
        return Err(newer);
    }
    Ok(())
}

/// Locks the record with this index by one try, where its word is the snapshot's.
pub(crate) fn lock_record(
    engine: &Engine,
    pass: &mut Pass,
    leaf: Leaf,
    index: u32,
) -> Result<(), Kept>
    requires of { IsPassOf engine.now pass.old }
    requires at { AtLeaf leaf.slot leaf.span leaf.page (view pass.old) }
    requires index { index < 32 }
    requires low { AreLow (page_words (view pass.old).pages leaf.page) }
    requires row { HasRow leaf.slot leaf.span (page_words (view pass.old).pages leaf.page) 0 index (view pass.old) }
    ensures of { IsPassOf engine.now pass.new }
    ensures locks { OnOk result (LocksNext leaf.slot leaf.span (page_words (view pass.old).pages leaf.page) index
        (view pass.old) (view pass.new)) }
    ensures keeps { IfErr result (λ k. KeepsLeaf leaf.slot leaf.page k (view pass.old) (view pass.new)) }
    ensures reads { KeepsReads leaf.slot (view pass.old) (view pass.new) }
    ensures more { SawMore (view pass.old) (view pass.new) }
    ensures met { IfErr result (λ k. MetOne leaf.slot index k (view pass.old) (view pass.new)) }
    ensures still { IfErr result (λ k. IsSeenStill k (view pass.new)) }
{
    let number = word_of(engine, pass, leaf.page, 2 * index);
    let key = key_of(leaf, index);
    let spot = Spot {
        slot: leaf.slot,
        index: index as usize,
    };
    let at = word_at(engine, leaf.slot, 2 * index);
    let found = lock(engine, pass, key, spot, at, number);
    if found >= LOCK {
        let locked = keep(engine, pass, at, found, KeptWhy::Locked);
        return Err(locked);
    }
    if found != number {
        let other = keep(engine, pass, at, found, KeptWhy::Unlike);
        return Err(other);
    }
    Ok(())
}

/// Opens the record with this index, which is the first that the pass has locked, with the snapshot's word.
pub(crate) fn open_record(engine: &Engine, pass: &mut Pass, leaf: Leaf, index: u32)
    requires of { IsPassOf engine.now pass.old }
    requires at { AtLeaf leaf.slot leaf.span leaf.page (view pass.old) }
    requires index { index < 32 }
    requires row { HasFirst leaf.slot leaf.span (page_words (view pass.old).pages leaf.page) index (view pass.old) }
    ensures of { IsPassOf engine.now pass.new }
    ensures opens { HasOpened leaf.slot leaf.span (page_words (view pass.old).pages leaf.page) index
        (view pass.old) (view pass.new) }
    ensures reads { KeepsReads leaf.slot (view pass.old) (view pass.new) }
    ensures more { SawAlone (view pass.old) (view pass.new) }
    ensures still { KeepsSeenBut leaf.slot index (view pass.old) (view pass.new) }
{
    let number = word_of(engine, pass, leaf.page, 2 * index);
    let key = key_of(leaf, index);
    let spot = Spot {
        slot: leaf.slot,
        index: index as usize,
    };
    let at = word_at(engine, leaf.slot, 2 * index);
    open_again(engine, pass, key, spot, at, number);
}
