// A leaf is compared with a snapshot's, locked, and opened again.
ghost use Rattle.std.specs.Prelude.{◌≡◌, ◌≤◌, [], IfErr, OnOk};
ghost use Rattle.engine_pages.specs.Passes.{view, IsPassOf};
ghost use Rattle.snapshot_store.specs.Places.{page as page_words};
ghost use Rattle.page_drops.specs.Leaves.{AtLeaf, AreLow, HasComparedAll, HasMoved, HasRow, KeepsSeen, MetOthers};
ghost use Rattle.page_drops.specs.Works.{IsSeenStill, KeepsLeaf, KeepsReads, SawAlone, SawMore};

use crate::noting::Kept;
use crate::records::{Leaf, compare, lock_record, open_record};
use engine_pages::{Engine, Pass};

/// The records of a leaf.
pub(crate) const RECORDS: u32 = 32;

/// Compares all records with the snapshot's, up to the first that is another or locked.
pub(crate) fn compare_leaf(engine: &Engine, pass: &mut Pass, leaf: Leaf) -> Result<(), Kept>
    requires of { IsPassOf engine.now pass.old }
    requires at { AtLeaf leaf.slot leaf.span leaf.page (view pass.old) }
    requires free { (view pass.old).took ≡ [] }
    ensures of { IsPassOf engine.now pass.new }
    ensures compares { OnOk result (HasComparedAll leaf.slot leaf.span
        (page_words (view pass.old).pages leaf.page) (view pass.old) (view pass.new)) }
    ensures keeps { IfErr result (λ k. KeepsLeaf leaf.slot leaf.page k (view pass.old) (view pass.new)) }
    ensures reads { KeepsReads leaf.slot (view pass.old) (view pass.new) }
    ensures more { SawAlone (view pass.old) (view pass.new) }
    ensures still { IfErr result (λ k. IsSeenStill k (view pass.new)) }
{
    for index in 0..RECORDS {
        compare(engine, pass, leaf, index)?;
    }
    Ok(())
}

/// Locks all records, each by one try, with the snapshot's words. Where one has another word, none is locked.
pub(crate) fn lock_leaf(engine: &Engine, pass: &mut Pass, leaf: Leaf) -> Result<(), Kept>
    requires of { IsPassOf engine.now pass.old }
    requires at { AtLeaf leaf.slot leaf.span leaf.page (view pass.old) }
    requires low { AreLow (page_words (view pass.old).pages leaf.page) }
    requires row { HasRow leaf.slot leaf.span (page_words (view pass.old).pages leaf.page) 0 0 (view pass.old) }
    ensures of { IsPassOf engine.now pass.new }
    ensures moves { OnOk result (HasMoved (view pass.old) (view pass.new)) }
    ensures row { OnOk result (HasRow leaf.slot leaf.span (page_words (view pass.old).pages leaf.page) 0 32
        (view pass.new)) }
    ensures keeps { IfErr result (λ k. KeepsLeaf leaf.slot leaf.page k (view pass.old) (view pass.new)) }
    ensures reads { KeepsReads leaf.slot (view pass.old) (view pass.new) }
    ensures more { SawMore (view pass.old) (view pass.new) }
    ensures met { IfErr result (λ k. MetOthers leaf.span leaf.slot k (view pass.old) (view pass.new)) }
    ensures still { IfErr result (λ k. IsSeenStill k (view pass.new)) }
{
    for index in 0..RECORDS {
        if let Err(kept) = lock_record(engine, pass, leaf, index) {
            open_leaf(engine, pass, leaf, index);
            return Err(kept);
        }
    }
    Ok(())
}

/// Opens the first records, so many, with the snapshot's words, which they had.
pub(crate) fn open_leaf(engine: &Engine, pass: &mut Pass, leaf: Leaf, count: u32)
    requires of { IsPassOf engine.now pass.old }
    requires at { AtLeaf leaf.slot leaf.span leaf.page (view pass.old) }
    requires count { count ≤ 32 }
    requires row { HasRow leaf.slot leaf.span (page_words (view pass.old).pages leaf.page) 0 count (view pass.old) }
    ensures of { IsPassOf engine.now pass.new }
    ensures moves { HasMoved (view pass.old) (view pass.new) }
    ensures row { HasRow leaf.slot leaf.span (page_words (view pass.old).pages leaf.page) count 0 (view pass.new) }
    ensures reads { KeepsReads leaf.slot (view pass.old) (view pass.new) }
    ensures more { SawAlone (view pass.old) (view pass.new) }
    ensures still { KeepsSeen leaf.slot count (view pass.old) (view pass.new) }
{
    for index in 0..count {
        open_record(engine, pass, leaf, index);
    }
}
