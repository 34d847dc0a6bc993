// A leaf of a tree is compared with a snapshot's, record by record.
ghost use Rattle.std.specs.Prelude.{◌≡◌, ℕ, ◌<◌, ◌≤◌, true, Contains, IfErr, OnOk};
ghost use Rattle.homes.specs.Homes.{has_key};
ghost use Rattle.dual_pointer.specs.Installs.{tree_records};
ghost use Rattle.engine_pages.specs.declared.view.KeptWhy.TheVariants.{UnlikeAt};
ghost use Rattle.engine_pages.specs.Passes.{view, IsPassOf};
ghost use Rattle.page_drops.specs.Works.{HasGlanced, KeepsReads, LacksKey};
ghost use Rattle.snapshot_store.specs.TreePages.{Record};
ghost use Rattle.tree_drops.specs.Leaves.{has_key_from, AtTree, CoversAll, HasCount, IsCauseAt, KeptForHeader};
ghost use Rattle.tree_drops.specs.Leaves.{IsSeenWhole, IsUntaken, KnowsKeys};
ghost use Rattle.tree_drops.specs.Works.{KeepsHead, KeepsIt, OnlyLooks};

use crate::records::{Leaf, compare, key_at};
use engine_pages::{Engine, KeptWhy, Pass};
use page_drops::{Kept, keep, word_at, word_of};
use serial_model::Key;
use tree_heads::load_word;

/// Compares the words of all records with the snapshot's, up to the first that is another or locked.
pub(crate) fn compare_all(engine: &Engine, pass: &mut Pass, leaf: Leaf) -> Result<(), Kept>
    requires of { IsPassOf engine.now pass.old }
    requires at { AtTree leaf.slot leaf.span leaf.page (view pass.old) }
    requires count { HasCount (view pass.old).pages leaf.span leaf.page leaf.records }
    requires known { KnowsKeys leaf.slot leaf.span leaf.count (view pass.old) }
    requires own { (i : ℕ) → i < 16 → IsUntaken leaf.slot i (view pass.old) }
    ensures of { IsPassOf engine.now pass.new }
    ensures looks { OnOk result (OnlyLooks (view pass.old) (view pass.new)) }
    ensures keeps { IfErr result (λ k. KeepsIt (IsCauseAt leaf.slot leaf.span leaf.page leaf.epoch
        (view pass.old)) k (view pass.old) (view pass.new)) }
    ensures reads { KeepsReads leaf.slot (view pass.old) (view pass.new) }
    ensures head { OnOk result (KeepsHead leaf.slot (view pass.old) (view pass.new)) }
{
    for index in 0..leaf.count {
        let key = key_at(engine, pass, leaf, index);
        compare(engine, pass, leaf, index, key)?;
    }
    Ok(())
}

/// A record of the leaf, from this one on, is of this key.
pub(crate) fn search_from(
    engine: &Engine,
    pass: &mut Pass,
    leaf: Leaf,
    key: u64,
    index: u32,
) -> bool
    requires of { IsPassOf engine.now pass.old }
    requires at { AtTree leaf.slot leaf.span leaf.page (view pass.old) }
    requires known { KnowsKeys leaf.slot leaf.span leaf.count (view pass.old) }
    requires within { index ≤ leaf.count }
    ensures of { IsPassOf engine.now pass.new }
    ensures glances { HasGlanced (view pass.old) (view pass.new) }
    ensures finds { (x : KnowsKeys leaf.slot leaf.span leaf.count (view pass.old))
        → has_key_from (x.leaf).keys index (record { storage = (leaf.span).storage; key = key }) ≡ result }
{
    if index == leaf.count {
        return false;
    }
    let here = key_at(engine, pass, leaf, index);
    if here.key == key {
        return true;
    }
    search_from(engine, pass, leaf, key, index + 1)
}

/// Each record of the snapshot's leaf, from this one on, is of a key that the leaf has. Where one isn't, it is noted that
/// the page is kept for its header.
fn cover_from(engine: &Engine, pass: &mut Pass, leaf: Leaf, index: u32) -> Result<(), Kept>
    requires of { IsPassOf engine.now pass.old }
    requires at { AtTree leaf.slot leaf.span leaf.page (view pass.old) }
    requires count { HasCount (view pass.old).pages leaf.span leaf.page leaf.records }
    requires known { KnowsKeys leaf.slot leaf.span leaf.count (view pass.old) }
    requires whole { IsSeenWhole leaf.slot leaf.count (view pass.old) }
    requires within { index ≤ leaf.records }
    ensures of { IsPassOf engine.now pass.new }
    ensures looks { OnOk result (OnlyLooks (view pass.old) (view pass.new)) }
    ensures covers { OnOk result (CoversAll leaf.slot leaf.span leaf.page leaf.count leaf.records index (view pass.old)) }
    ensures keeps { IfErr result (λ k. KeepsIt (IsCauseAt leaf.slot leaf.span leaf.page leaf.epoch
        (view pass.old)) k (view pass.old) (view pass.new)) }
    ensures reads { KeepsReads leaf.slot (view pass.old) (view pass.new) }
    ensures same { OnOk result ((view pass.new).reads ≡ (view pass.old).reads) }
{
    if index == leaf.records {
        return Ok(());
    }
    let key = word_of(engine, pass, leaf.page, 16 + 3 * index);
    if !search_from(engine, pass, leaf, key, 0) {
        let lacking = Key {
            storage: leaf.span.storage,
            key,
        };
        let other = keep_for_header(engine, pass, leaf, lacking);
        return Err(other);
    }
    cover_from(engine, pass, leaf, index + 1)
}

/// Loads the header's word, and notes that the page is kept for it, since the leaf lacks the key.
fn keep_for_header(engine: &Engine, pass: &mut Pass, leaf: Leaf, key: Key) -> Kept
    requires of { IsPassOf engine.now pass.old }
    requires at { AtTree leaf.slot leaf.span leaf.page (view pass.old) }
    requires lacks { LacksKey (view pass.old) key leaf.slot }
    ensures of { IsPassOf engine.now pass.new }
    ensures keeps { KeptForHeader leaf.slot (UnlikeAt key) result (view pass.old) (view pass.new) }
    ensures reads { KeepsReads leaf.slot (view pass.old) (view pass.new) }
{
    let at = word_at(engine, leaf.slot, 0);
    let header = load_word(engine, pass, leaf.slot, 0, at);
    keep(engine, pass, at, header, KeptWhy::UnlikeAt { key })
}

/// Each record of the snapshot's leaf is of a key that the leaf has.
pub(crate) fn cover(engine: &Engine, pass: &mut Pass, leaf: Leaf) -> Result<(), Kept>
    requires of { IsPassOf engine.now pass.old }
    requires at { AtTree leaf.slot leaf.span leaf.page (view pass.old) }
    requires count { HasCount (view pass.old).pages leaf.span leaf.page leaf.records }
    requires known { KnowsKeys leaf.slot leaf.span leaf.count (view pass.old) }
    requires whole { IsSeenWhole leaf.slot leaf.count (view pass.old) }
    ensures of { IsPassOf engine.now pass.new }
    ensures looks { OnOk result (OnlyLooks (view pass.old) (view pass.new)) }
    ensures covers { OnOk result ((x : KnowsKeys leaf.slot leaf.span leaf.count (view pass.old)) (r : Record)
        → Contains (tree_records (view pass.old).pages leaf.page) r
        → has_key (x.leaf).keys (record { storage = (leaf.span).storage; key = r.key }) ≡ true) }
    ensures keeps { IfErr result (λ k. KeepsIt (IsCauseAt leaf.slot leaf.span leaf.page leaf.epoch
        (view pass.old)) k (view pass.old) (view pass.new)) }
    ensures reads { KeepsReads leaf.slot (view pass.old) (view pass.new) }
    ensures same { OnOk result ((view pass.new).reads ≡ (view pass.old).reads) }
{
    cover_from(engine, pass, leaf, 0)
}
