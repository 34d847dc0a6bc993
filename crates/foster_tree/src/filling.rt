// Pages of slots that are filled as leaves of trees.
ghost use Rattle.std.specs.Prelude.{◌≡◌, ◌+◌, ◌*◌, ◌<◌, ◌≤◌, [], length, true, slice_set, IfOk, IfErr};
ghost use Rattle.array_pages.specs.Steps.{RefusesGive};
ghost use Rattle.engine_pages.specs.Pages.{is_tree};
ghost use Rattle.engine_pages.specs.Passes.{view, IsPassOf};
ghost use Rattle.engine_pages.specs.Views.{IsActive};
ghost use Rattle.foster_tree.specs.Entries.{contents_of, keys_of};
ghost use Rattle.foster_tree.specs.Filling.{leaf_words, with_head, with_record, with_records, AreLeafEntries};
ghost use Rattle.foster_tree.specs.Filling.{CanFill, Fills, HasMadeLeaf};
ghost use Rattle.tree_heads.specs.NewPages.{published_leaf, HasLeafDraft};
ghost use Rattle.wire_form.specs.Leaves.{record_start, tree_leaf};

use crate::entries::Entry;
use array_pages::{give_slot, word_at};
use engine_pages::{Engine, Pass, RefusalCause, fill};
use homes::Span;
use std::marker::Brand;
use tree_heads::{Leafed, publish_leaf};

/// The header of an open leaf without records.
const LEAF_HEADER: u64 = 1 << 8;

/// The words before the records of a leaf.
pub(crate) const FIRST_RECORD: u32 = 16;

/// The words of a record: its key, its number's word, and its value.
pub(crate) const RECORD: u32 = 3;

/// A slot is taken, and published as a leaf of a tree that is made for these keys, with these records.
pub fn make_leaf(
    engine: &Engine,
    pass: &mut Pass,
    span: Span,
    entries: &[Entry],
) -> Result<u32, RefusalCause>
    requires of { IsPassOf engine.now pass.old }
    requires active { IsActive (view pass.old).role }
    requires drafts { (view pass.old).drafts ≡ [] }
    requires tree { is_tree (view pass.old).layout.decls span.storage ≡ true }
    requires entries { AreLeafEntries span entries.now }
    ensures of { IsPassOf engine.now pass.new }
    ensures made { IfOk result (λ slot.
        HasMadeLeaf slot span entries.now (view pass.old) (view pass.new)) }
    ensures missed { IfErr result (λ why. RefusesGive why (view pass.old) (view pass.new)) }
{
    let slot = give_slot(engine, pass)?;
    fill_leaf(engine, pass, slot, span, entries);
    publish_entries(engine, pass, slot, span, entries);
    Ok(slot)
}

// The page of a slot, filled as a leaf with these records, is published as that.
fn publish_entries(engine: &Engine, pass: &mut Pass, slot: u32, span: Span, entries: &[Entry])
    requires of { IsPassOf engine.now pass.old }
    requires active { IsActive (view pass.old).role }
    requires slot { slot < (view pass.old).layout.slots }
    requires draft { HasLeafDraft (view pass.old) slot span
        (keys_of span.storage entries.now) (contents_of entries.now) }
    ensures of { IsPassOf engine.now pass.new }
    ensures publishes { view pass.new ≡ published_leaf slot span
        (keys_of span.storage entries.now) (contents_of entries.now) (view pass.old) }
{
    publish_entries_as::<Brand>(engine, pass, slot, span, entries);
}

fn publish_entries_as<K: Leafed>(
    engine: &Engine,
    pass: &mut Pass,
    slot: u32,
    span: Span,
    entries: &[Entry],
)
    requires of { IsPassOf engine.now pass.old }
    requires active { IsActive (view pass.old).role }
    requires slot { slot < (view pass.old).layout.slots }
    requires draft { HasLeafDraft (view pass.old) slot span
        (keys_of span.storage entries.now) (contents_of entries.now) }
    requires named { (keys_of span.storage entries.now ≡ K.keys)
        × (contents_of entries.now ≡ K.contents) }
    ensures of { IsPassOf engine.now pass.new }
    ensures publishes { view pass.new ≡ published_leaf slot span
        (keys_of span.storage entries.now) (contents_of entries.now) (view pass.old) }
{
    let _ = entries;
    publish_leaf::<K>(engine, pass, slot, span);
}

/// Fills the page of the slot that the pass owns alone as a leaf of a tree that is made for these keys, with these
/// records. What no record has stays in the words behind them.
pub(crate) fn fill_leaf(engine: &Engine, pass: &mut Pass, slot: u32, span: Span, entries: &[Entry])
    requires of { IsPassOf engine.now pass.old }
    requires can { CanFill (view pass.old) slot }
    requires few { length entries.now ≤ 16 }
    ensures of { IsPassOf engine.now pass.new }
    ensures can { CanFill (view pass.new) slot }
    ensures fills { Fills slot (leaf_words span entries.now) (3 + 3 * length entries.now) (view pass.old) (view pass.new) }
{
    fill_head(engine, pass, slot, span, entries.len() as u64);
    fill_records(engine, pass, slot, entries);
}

// The header of an open leaf with so many records, and the fences.
fn fill_head(engine: &Engine, pass: &mut Pass, slot: u32, span: Span, count: u64)
    requires of { IsPassOf engine.now pass.old }
    requires can { CanFill (view pass.old) slot }
    requires few { count ≤ 16 }
    ensures of { IsPassOf engine.now pass.new }
    ensures can { CanFill (view pass.new) slot }
    ensures fills { Fills slot (with_head span count) 3 (view pass.old) (view pass.new) }
{
    fill_word(engine, pass, slot, 0, LEAF_HEADER + count);
    fill_word(engine, pass, slot, 1, span.low);
    fill_word(engine, pass, slot, 2, span.high);
}

fn fill_records(engine: &Engine, pass: &mut Pass, slot: u32, entries: &[Entry])
    requires of { IsPassOf engine.now pass.old }
    requires can { CanFill (view pass.old) slot }
    requires few { length entries.now ≤ 16 }
    ensures of { IsPassOf engine.now pass.new }
    ensures can { CanFill (view pass.new) slot }
    ensures fills { Fills slot (λ words. with_records words entries.now (length entries.now)) (3 * length entries.now)
        (view pass.old) (view pass.new) }
{
    for i in 0..entries.len() {
        fill_record(engine, pass, slot, i as u32, entries[i]);
    }
}

// The record with this index.
fn fill_record(engine: &Engine, pass: &mut Pass, slot: u32, index: u32, entry: Entry)
    requires of { IsPassOf engine.now pass.old }
    requires can { CanFill (view pass.old) slot }
    requires index { index < 16 }
    ensures of { IsPassOf engine.now pass.new }
    ensures can { CanFill (view pass.new) slot }
    ensures fills { Fills slot (λ words. with_record words (record_start tree_leaf index) entry) 3
        (view pass.old) (view pass.new) }
{
    let first = FIRST_RECORD + RECORD * index;
    fill_word(engine, pass, slot, first, entry.key);
    fill_word(engine, pass, slot, first + 1, entry.word);
    fill_word(engine, pass, slot, first + 2, entry.value);
}

fn fill_word(engine: &Engine, pass: &mut Pass, slot: u32, index: u32, value: u64)
    requires of { IsPassOf engine.now pass.old }
    requires can { CanFill (view pass.old) slot }
    requires index { index < 64 }
    ensures of { IsPassOf engine.now pass.new }
    ensures can { CanFill (view pass.new) slot }
    ensures fills { Fills slot (λ words. slice_set words index value) 1 (view pass.old) (view pass.new) }
{
    let at = word_at(engine, slot, index);
    fill(engine, pass, slot, index, at, value);
}
