// The pages on the way to a key are brought into memory.
ghost use Rattle.std.specs.Prelude.{◌≡◌, ◌+◌, ◌*◌, ◌<◌, ◌≤◌, true, List, OnOk};
ghost use Rattle.array_pages.specs.Finding.{HasGlanced};
ghost use Rattle.engine_pages.specs.Layout.{page_at};
ghost use Rattle.engine_pages.specs.Pages.{is_tree};
ghost use Rattle.engine_pages.specs.Passes.{view, IsPassOf};
ghost use Rattle.engine_pages.specs.Views.{IsActive};
ghost use Rattle.tree_making.specs.Making.{make_steps, page_steps, way_steps, CanMake, IsMade, MakesSo};
ghost use Rattle.tree_making.specs.Pages.{HoldsMore};
ghost use Rattle.tree_walks.specs.Ways.{HasCome, IsBareOn, IsLeafOn};
ghost use Rattle.tx_sets.specs.declared.seen.Seen.{Seen};

use crate::bringing::bring;
use array_pages::word_at;
use engine_pages::{Engine, Pass, RefusalCause};
use serial_model::Key;
use tree_walks::{Bare, End, Leaf, go_down, go_down_from, search};
use tx_sets::{HeaderSet, Holds, PointerSet};

/// The records of a leaf begin at this word.
const FIRST: u32 = 16;

/// The words of a record: its key, that of its number, and its value.
const RECORD: u32 = 3;

/// Where a key stands in the leaf that it belongs to.
#[derive(Clone, Copy)]
pub enum Made {
    /// It has a record, which may be absent: the place of its word.
    Record(u32),
    /// The leaf, whose header was last seen so, has no record of it.
    Lacking(Leaf),
}

/// Brings the pages on the way to a key of a tree into memory, from the root down: each is one then, and is held. A
/// page that wasn't there is copied from the snapshot's page, or is an empty leaf. Answers where the key stands in its
/// leaf. Nothing is kept. Where a pointer that the transaction has kept was led to a page by this, the transaction is
/// refused. The slots are searched at most once for each page that is put in, and at most 4,615 steps more are made for
/// it.
pub fn make_volatile(
    engine: &Engine,
    pass: &mut Pass,
    key: Key,
    holds: &mut Holds,
    pointers: &PointerSet,
    headers: &HeaderSet,
) -> Result<Made, RefusalCause>
    requires of { IsPassOf engine.now pass.old }
    requires can { CanMake holds.old (view pass.old) }
    requires tree { is_tree (view pass.old).layout.decls key.storage ≡ true }
    ensures of { IsPassOf engine.now pass.new }
    ensures makes { MakesSo (make_steps (view pass.old).layout.slots) key pointers.now headers.now holds.new
        (IsMade key headers.now) result (view pass.old) (view pass.new) }
{
    let leaf = make_way(engine, pass, key, holds, pointers, headers)?;
    Ok(in_leaf(engine, pass, key, leaf))
}

// Down to the leaf, which is in memory then.
fn make_way(
    engine: &Engine,
    pass: &mut Pass,
    key: Key,
    holds: &mut Holds,
    pointers: &PointerSet,
    headers: &HeaderSet,
) -> Result<Leaf, RefusalCause>
    requires of { IsPassOf engine.now pass.old }
    requires can { CanMake holds.old (view pass.old) }
    requires tree { is_tree (view pass.old).layout.decls key.storage ≡ true }
    ensures of { IsPassOf engine.now pass.new }
    ensures makes { MakesSo (way_steps (view pass.old).layout.slots) key pointers.now headers.now holds.new
        (IsLeafOn key headers.now) result (view pass.old) (view pass.new) }
{
    let mut end = go_down(engine, pass, key, holds, pointers, headers)?;
    loop {
        match end {
            End::Leaf(leaf) => return Ok(leaf),
            End::Below(bare) => {
                end = go_below(engine, pass, key, holds, pointers, headers, bare)?;
            }
        }
    }
}

// One page is put in, and the way gone on from there.
fn go_below(
    engine: &Engine,
    pass: &mut Pass,
    key: Key,
    holds: &mut Holds,
    pointers: &PointerSet,
    headers: &HeaderSet,
    bare: Bare,
) -> Result<End, RefusalCause>
    requires of { IsPassOf engine.now pass.old }
    requires can { CanMake holds.old (view pass.old) }
    requires bare { IsBareOn key pointers.now bare (view pass.old) }
    ensures of { IsPassOf engine.now pass.new }
    ensures makes { MakesSo (page_steps (view pass.old).layout.slots) key pointers.now headers.now holds.new
        (HasCome key pointers.now headers.now) result (view pass.old) (view pass.new) }
    ensures more { OnOk result (HoldsMore (view pass.old) (view pass.new)) }
{
    let page = bring(engine, pass, holds, pointers, bare)?;
    go_down_from(engine, pass, key, holds, pointers, headers, page)
}

// Where the key stands in a leaf in memory.
fn in_leaf(engine: &Engine, pass: &mut Pass, key: Key, leaf: Leaf) -> Made
    requires of { IsPassOf engine.now pass.old }
    requires active { IsActive (view pass.old).role }
    requires leaf { (headers : List Seen) × IsLeafOn key headers leaf (view pass.old) }
    ensures of { IsPassOf engine.now pass.new }
    ensures glances { HasGlanced (view pass.old) (view pass.new) }
    ensures most { (view pass.new).steps ≤ (view pass.old).steps + 16 }
    ensures made { (headers : List Seen) → IsLeafOn key headers leaf (view pass.old)
        → IsMade key headers result (view pass.new) }
{
    match search(engine, pass, key, leaf) {
        Some(index) => Made::Record(record_word(engine, leaf.slot, index)),
        None => Made::Lacking(leaf),
    }
}

// The place of the word of the record with this index in a leaf.
fn record_word(engine: &Engine, slot: u32, index: u32) -> u32
    requires slot { slot < engine.now.table.shared.key.slots }
    requires index { index < 16 }
    ensures { result ≡ page_at engine.now.table.shared.key.slots slot ((16 + 3 * index) + 1) }
{
    word_at(engine, slot, FIRST + RECORD * index + 1)
}
