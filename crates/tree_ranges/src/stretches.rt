// One stretch of a range: what one leaf in memory, or one leaf of the snapshot below a pointer, has of it.
ghost use Rattle.std.specs.Prelude.{◌≡◌, ◌<◌, ◌≤◌, true, length};
ghost use Rattle.engine_pages.specs.Pages.{is_tree};
ghost use Rattle.engine_pages.specs.Passes.{view, IsPassOf};
ghost use Rattle.page_commit.specs.Live.{IsLive};
ghost use Rattle.tree_ranges.specs.Going.{Comes, TakesHead};
ghost use Rattle.tree_ranges.specs.Rows.{AreFree};
ghost use Rattle.tree_walks.specs.Finds.{find_steps};
ghost use Rattle.tree_walks.specs.Ways.{HasCome, IsBareOn, IsLeafOn};

use crate::overlay::add_rows;
use crate::records::scan_records;
use array_pages::word_at;
use engine_pages::{Engine, Pass, RefusalCause, SetName};
use page_commit::refuse_on;
use serial_model::{Key, Rows};
use tree_calls::{keep_header, keep_pointer, lacks_room};
use tree_scans::{keep_head, least_of, read_below};
use tree_walks::{Bare, End, Found, Leaf, go_down};
use tx_sets::{Seen, Sets};

/// The rows of a tree from a key on, up to the last key or until there are 16, of one leaf. None of these keys is
/// written. Answers up to which key.
pub(crate) fn scan_stretch(
    engine: &Engine,
    pass: &mut Pass,
    sets: &mut Sets,
    key: Key,
    last: u64,
    rows: &mut Rows,
) -> Result<u64, RefusalCause>
    requires of { IsPassOf engine.now pass.old }
    requires live { IsLive sets.old (view pass.old) }
    requires tree { is_tree (view pass.old).layout.decls key.storage ≡ true }
    requires last { key.key ≤ last }
    requires free { AreFree key.storage key.key last sets.old.writes }
    requires few { length rows.old < 16 }
    ensures of { IsPassOf engine.now pass.new }
    ensures comes { Comes 0 find_steps key.storage key.key last result sets.old sets.new rows.old rows.new
        (view pass.old) (view pass.new) }
{
    match go_down(
        engine,
        pass,
        key,
        &mut sets.holds,
        &sets.pointers,
        &sets.headers,
    ) {
        Ok(end) => scan_end(engine, pass, sets, key, end, last, rows),
        Err(why) => Err(refuse_on(engine, pass, sets, key, why)),
    }
}

// The same where the way to the key ends.
fn scan_end(
    engine: &Engine,
    pass: &mut Pass,
    sets: &mut Sets,
    key: Key,
    end: End,
    last: u64,
    rows: &mut Rows,
) -> Result<u64, RefusalCause>
    requires of { IsPassOf engine.now pass.old }
    requires live { IsLive sets.old (view pass.old) }
    requires came { HasCome key sets.old.pointers sets.old.headers end (view pass.old) }
    requires last { key.key ≤ last }
    requires free { AreFree key.storage key.key last sets.old.writes }
    requires few { length rows.old < 16 }
    ensures of { IsPassOf engine.now pass.new }
    ensures comes { Comes 1181 19 key.storage key.key last result sets.old sets.new rows.old rows.new
        (view pass.old) (view pass.new) }
{
    match end {
        End::Leaf(leaf) => scan_leaf(engine, pass, sets, key, leaf, last, rows),
        End::Below(bare) => scan_below(engine, pass, sets, key, bare, last, rows),
    }
}

// In a leaf in memory.
fn scan_leaf(
    engine: &Engine,
    pass: &mut Pass,
    sets: &mut Sets,
    key: Key,
    leaf: Leaf,
    last: u64,
    rows: &mut Rows,
) -> Result<u64, RefusalCause>
    requires of { IsPassOf engine.now pass.old }
    requires live { IsLive sets.old (view pass.old) }
    requires leaf { IsLeafOn key sets.old.headers leaf (view pass.old) }
    requires last { key.key ≤ last }
    requires free { AreFree key.storage key.key last sets.old.writes }
    requires few { length rows.old < 16 }
    ensures of { IsPassOf engine.now pass.new }
    ensures comes { Comes 17 19 key.storage key.key last result sets.old sets.new rows.old rows.new
        (view pass.old) (view pass.new) }
{
    let top = least_of(leaf.span.high, last);
    match take_head(engine, pass, sets, key, leaf, top) {
        Ok(()) => scan_records(engine, pass, sets, key, leaf, top, rows),
        Err(why) => Err(why),
    }
}

// The header of a leaf is kept: up to this key it vouches that the leaf has no other keys than those that are known.
fn take_head(
    engine: &Engine,
    pass: &mut Pass,
    sets: &mut Sets,
    key: Key,
    leaf: Leaf,
    top: u64,
) -> Result<(), RefusalCause>
    requires of { IsPassOf engine.now pass.old }
    requires live { IsLive sets.old (view pass.old) }
    requires leaf { IsLeafOn key sets.old.headers leaf (view pass.old) }
    requires top { top ≤ leaf.span.high }
    ensures of { IsPassOf engine.now pass.new }
    ensures takes { TakesHead key leaf top result sets.old sets.new (view pass.old) (view pass.new) }
{
    let at = word_at(engine, leaf.slot, 0);
    let word = leaf.header;
    if lacks_room(sets, Found::Absent { header: at, word }) {
        let why = RefusalCause::Wide {
            set: SetName::Reads,
        };
        return Err(refuse_on(engine, pass, sets, key, why));
    }
    match keep_head(
        engine,
        pass,
        key,
        &sets.holds,
        &sets.pointers,
        &sets.headers,
        leaf,
    ) {
        Ok(()) => {
            keep_header(&mut sets.headers, Seen { at, word });
            Ok(())
        }
        Err(why) => Err(refuse_on(engine, pass, sets, key, why)),
    }
}

// Below a pointer that leads to no slot, which is kept.
fn scan_below(
    engine: &Engine,
    pass: &mut Pass,
    sets: &mut Sets,
    key: Key,
    bare: Bare,
    last: u64,
    rows: &mut Rows,
) -> Result<u64, RefusalCause>
    requires of { IsPassOf engine.now pass.old }
    requires live { IsLive sets.old (view pass.old) }
    requires bare { IsBareOn key sets.old.pointers bare (view pass.old) }
    requires last { key.key ≤ last }
    requires free { AreFree key.storage key.key last sets.old.writes }
    requires few { length rows.old < 16 }
    ensures of { IsPassOf engine.now pass.new }
    ensures comes { Comes 1200 0 key.storage key.key last result sets.old sets.new rows.old rows.new
        (view pass.old) (view pass.new) }
{
    let top = least_of(bare.span.high, last);
    let mut found = Rows::new();
    match read_below(
        engine,
        pass,
        key,
        &sets.holds,
        &sets.pointers,
        &sets.headers,
        bare,
        top,
        &mut found,
    ) {
        Ok(to) => {
            keep_pointer(&mut sets.pointers, bare.pointer);
            Ok(add_rows(rows, &found, to))
        }
        Err(why) => Err(refuse_on(engine, pass, sets, key, why)),
    }
}
