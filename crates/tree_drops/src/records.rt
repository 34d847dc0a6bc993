// A record of a leaf of a tree is compared with a snapshot's, locked, and opened again.
ghost use Rattle.std.specs.Prelude.{◌≡◌, ◌%◌, ◌*◌, ◌+◌, ◌^◌, ◌<◌, ◌≤◌, slice_get, Some, Contains, IfErr, IfOk, OnOk};
ghost use Rattle.serial_model.specs.declared.number.Number.{Number};
ghost use Rattle.dual_pointer.specs.Installs.{tree_records};
ghost use Rattle.engine_pages.specs.Layout.{page_at};
ghost use Rattle.engine_pages.specs.Passes.{view, IsPassOf};
ghost use Rattle.engine_pages.specs.Words.{spot as spot_of, IsSmall};
ghost use Rattle.page_drops.specs.Works.{HasGlanced, KeepsReads};
ghost use Rattle.page_records.specs.Locks.{locked, opened, took_at, CanOpenAgain, IsOpenWord};
ghost use Rattle.pointer_swings.specs.TreeSwings.{IsTreeLockedAs};
ghost use Rattle.snapshot_store.specs.TreePages.{record_for};
ghost use Rattle.wire_form.specs.Words.{number_word};
ghost use Rattle.tree_drops.specs.Leaves.{AtTree, HasCompared, HasCount, IsKeyOf, IsCauseAt, IsLike, KnowsKeys};
ghost use Rattle.tree_drops.specs.Leaves.{HasTaken, IsNew, IsRecordCause, IsUntaken};
ghost use Rattle.tree_drops.specs.Works.{IsSeenAt, KeepsHead, KeepsIt, OnlyLooks};

use crate::stored::{find, has_value, is_like};
use engine_pages::{Engine, KeptWhy, Pass};
use homes::{Span, Spot};
use page_drops::{Kept, keep, word_at};
use page_records::{LOCK, load_word as load_record, lock, open_again};
use serial_model::Key;
use tree_heads::load_word;
use tree_records::load_held;

/// A leaf of a tree in a slot, over these keys, with so many records; the snapshot page that it is compared with, or 0,
/// which has so many; and that snapshot's epoch.
#[derive(Clone, Copy)]
pub(crate) struct Leaf {
    pub slot: u32,
    pub span: Span,
    pub count: u32,
    pub page: u32,
    pub records: u32,
    pub epoch: u32,
}

/// The key of the record with this index.
pub(crate) fn key_at(engine: &Engine, pass: &mut Pass, leaf: Leaf, index: u32) -> Key
    requires of { IsPassOf engine.now pass.old }
    requires at { AtTree leaf.slot leaf.span leaf.page (view pass.old) }
    requires known { KnowsKeys leaf.slot leaf.span leaf.count (view pass.old) }
    requires index { index < leaf.count }
    ensures of { IsPassOf engine.now pass.new }
    ensures glances { HasGlanced (view pass.old) (view pass.new) }
    ensures key { (x : KnowsKeys leaf.slot leaf.span leaf.count (view pass.old))
        → slice_get (x.leaf).keys index ≡ Some result }
    ensures storage { result.storage ≡ (leaf.span).storage }
{
    let place = 16 + 3 * index;
    let at = word_at(engine, leaf.slot, place);
    let key = load_word(engine, pass, leaf.slot, place, at);
    Key {
        storage: leaf.span.storage,
        key,
    }
}

/// Compares the record with this index with the snapshot's, by its word. Answers that; where it is another, or locked,
/// it is noted that the page is kept.
pub(crate) fn compare(
    engine: &Engine,
    pass: &mut Pass,
    leaf: Leaf,
    index: u32,
    key: Key,
) -> Result<u64, Kept>
    requires of { IsPassOf engine.now pass.old }
    requires at { AtTree leaf.slot leaf.span leaf.page (view pass.old) }
    requires count { HasCount (view pass.old).pages leaf.span leaf.page leaf.records }
    requires index { index < 16 }
    requires key { IsKeyOf leaf.slot leaf.span index key (view pass.old) }
    requires own { IsUntaken leaf.slot index (view pass.old) }
    ensures of { IsPassOf engine.now pass.new }
    ensures compares { IfOk result (λ word. HasCompared leaf.page leaf.epoch key
        (view pass.old) word (view pass.new)) }
    ensures keeps { IfErr result (λ k. KeepsIt (IsCauseAt leaf.slot leaf.span leaf.page leaf.epoch
        (view pass.old)) k (view pass.old) (view pass.new)) }
    ensures reads { KeepsReads leaf.slot (view pass.old) (view pass.new) }
    ensures causes { IfErr result (λ k. KeepsIt (IsRecordCause (view pass.old).layout.slots leaf.slot index key
        (record_for (tree_records (view pass.old).pages leaf.page) key.key) leaf.epoch) k (view pass.old) (view pass.new)) }
    ensures seen { IfOk result (λ word. IsSeenAt leaf.slot (17 + 3 * index) word (view pass.new)) }
    ensures head { IfOk result (λ word. KeepsHead leaf.slot (view pass.old) (view pass.new)) }
{
    let stored = find(engine, pass, leaf.span, leaf.page, key.key, leaf.records);
    let at = word_at(engine, leaf.slot, 17 + 3 * index);
    let spot = Spot {
        slot: leaf.slot,
        index: index as usize,
    };
    let word = load_record(engine, pass, key, spot, at);
    if word / LOCK % 2 == 1 {
        let locked = keep(engine, pass, at, word, KeptWhy::Locked);
        return Err(locked);
    }
    if !is_like(stored, leaf.epoch, word) {
        let other = keep(engine, pass, at, word, KeptWhy::UnlikeAt { key });
        return Err(other);
    }
    Ok(word)
}

/// Locks the record with this index by one try, where its word is this one.
fn lock_record(
    engine: &Engine,
    pass: &mut Pass,
    leaf: Leaf,
    index: u32,
    key: Key,
    word: u64,
) -> Result<(), Kept>
    requires of { IsPassOf engine.now pass.old }
    requires at { AtTree leaf.slot leaf.span leaf.page (view pass.old) }
    requires index { index < 16 }
    requires key { IsKeyOf leaf.slot leaf.span index key (view pass.old) }
    requires free { IsOpenWord word }
    requires met { IsSeenAt leaf.slot (17 + 3 * index) word (view pass.old) }
    ensures of { IsPassOf engine.now pass.new }
    ensures locks { OnOk result (view pass.new ≡ locked key (spot_of leaf.slot index)
        (page_at (view pass.old).layout.slots leaf.slot (17 + 3 * index)) word (view pass.old)) }
    ensures keeps { IfErr result (λ k. KeepsIt (IsCauseAt leaf.slot leaf.span leaf.page leaf.epoch
        (view pass.old)) k (view pass.old) (view pass.new)) }
    ensures reads { KeepsReads leaf.slot (view pass.old) (view pass.new) }
    ensures causes { IfErr result (λ k. KeepsIt (IsRecordCause (view pass.old).layout.slots leaf.slot index key
        (record_for (tree_records (view pass.old).pages leaf.page) key.key) leaf.epoch) k (view pass.old) (view pass.new)) }
{
    let at = word_at(engine, leaf.slot, 17 + 3 * index);
    let spot = Spot {
        slot: leaf.slot,
        index: index as usize,
    };
    let found = lock(engine, pass, key, spot, at, word);
    if found != word {
        let changed = keep(engine, pass, at, found, KeptWhy::Changed { expected: word });
        return Err(changed);
    }
    Ok(())
}

/// Compares the value of the record with this index, which the pass has locked and whose word this is, with the
/// snapshot's, if it has one.
fn check_value(
    engine: &Engine,
    pass: &mut Pass,
    leaf: Leaf,
    index: u32,
    key: Key,
    word: u64,
) -> Result<(), Kept>
    requires of { IsPassOf engine.now pass.old }
    requires at { AtTree leaf.slot leaf.span leaf.page (view pass.old) }
    requires count { HasCount (view pass.old).pages leaf.span leaf.page leaf.records }
    requires index { index < 16 }
    requires key { IsKeyOf leaf.slot leaf.span index key (view pass.old) }
    requires took { Contains (view pass.old).took (took_at key (spot_of leaf.slot index) word) }
    requires like { IsLike (record_for (tree_records (view pass.old).pages leaf.page) key.key) leaf.epoch word }
    requires free { IsOpenWord word }
    requires number { (n : Number) × IsSmall n × (word % 2 ^ 60 ≡ number_word n) }
    requires past { leaf.epoch ≤ (view pass.old).past }
    ensures of { IsPassOf engine.now pass.new }
    ensures looks { OnOk result (OnlyLooks (view pass.old) (view pass.new)) }
    ensures locked { OnOk result (IsTreeLockedAs (view pass.new) leaf.slot index leaf.page key) }
    ensures keeps { IfErr result (λ k. KeepsIt (IsCauseAt leaf.slot leaf.span leaf.page leaf.epoch
        (view pass.old)) k (view pass.old) (view pass.new)) }
    ensures reads { KeepsReads leaf.slot (view pass.old) (view pass.new) }
    ensures causes { IfErr result (λ k. KeepsIt (IsRecordCause (view pass.old).layout.slots leaf.slot index key
        (record_for (tree_records (view pass.old).pages leaf.page) key.key) leaf.epoch) k (view pass.old) (view pass.new)) }
{
    if word >= LOCK {
        return Ok(());
    }
    let stored = find(engine, pass, leaf.span, leaf.page, key.key, leaf.records);
    let at = word_at(engine, leaf.slot, 17 + 3 * index);
    let spot = Spot {
        slot: leaf.slot,
        index: index as usize,
    };
    let value = load_held(engine, pass, key, spot, at, word);
    if !has_value(stored, value) {
        let other = keep(engine, pass, at + 1, value, KeptWhy::UnlikeAt { key });
        return Err(other);
    }
    Ok(())
}

/// Opens the record with this index, which the pass has locked, with the word that it had.
pub(crate) fn open_record(
    engine: &Engine,
    pass: &mut Pass,
    leaf: Leaf,
    index: u32,
    key: Key,
    word: u64,
)
    requires of { IsPassOf engine.now pass.old }
    requires at { AtTree leaf.slot leaf.span leaf.page (view pass.old) }
    requires index { index < 16 }
    requires key { IsKeyOf leaf.slot leaf.span index key (view pass.old) }
    requires can { CanOpenAgain (view pass.old) key (spot_of leaf.slot index) word }
    ensures of { IsPassOf engine.now pass.new }
    ensures opens { view pass.new ≡ opened key
        (page_at (view pass.old).layout.slots leaf.slot (17 + 3 * index)) word (view pass.old) }
{
    let at = word_at(engine, leaf.slot, 17 + 3 * index);
    let spot = Spot {
        slot: leaf.slot,
        index: index as usize,
    };
    open_again(engine, pass, key, spot, at, word);
}

/// Locks the record with this index, whose word this is, where its value is the snapshot's, if it has one; else it is
/// open.
pub(crate) fn take_record(
    engine: &Engine,
    pass: &mut Pass,
    leaf: Leaf,
    index: u32,
    key: Key,
    word: u64,
) -> Result<(), Kept>
    requires of { IsPassOf engine.now pass.old }
    requires at { AtTree leaf.slot leaf.span leaf.page (view pass.old) }
    requires count { HasCount (view pass.old).pages leaf.span leaf.page leaf.records }
    requires index { index < 16 }
    requires key { IsKeyOf leaf.slot leaf.span index key (view pass.old) }
    requires new { IsNew key (view pass.old) }
    requires like { IsLike (record_for (tree_records (view pass.old).pages leaf.page) key.key) leaf.epoch word }
    requires free { IsOpenWord word }
    requires number { (n : Number) × IsSmall n × (word % 2 ^ 60 ≡ number_word n) }
    requires past { leaf.epoch ≤ (view pass.old).past }
    requires met { IsSeenAt leaf.slot (17 + 3 * index) word (view pass.old) }
    ensures of { IsPassOf engine.now pass.new }
    ensures takes { OnOk result (HasTaken leaf.slot leaf.page index key word (view pass.old) (view pass.new)) }
    ensures keeps { IfErr result (λ k. KeepsIt (IsCauseAt leaf.slot leaf.span leaf.page leaf.epoch
        (view pass.old)) k (view pass.old) (view pass.new)) }
    ensures reads { KeepsReads leaf.slot (view pass.old) (view pass.new) }
    ensures causes { IfErr result (λ k. KeepsIt (IsRecordCause (view pass.old).layout.slots leaf.slot index key
        (record_for (tree_records (view pass.old).pages leaf.page) key.key) leaf.epoch) k (view pass.old) (view pass.new)) }
{
    lock_record(engine, pass, leaf, index, key, word)?;
    if let Err(kept) = check_value(engine, pass, leaf, index, key, word) {
        open_record(engine, pass, leaf, index, key, word);
        return Err(kept);
    }
    Ok(())
}
