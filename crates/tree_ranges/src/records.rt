// The records of a leaf whose header is kept.
ghost use Rattle.std.specs.Prelude.{◌≡◌, ◌<◌, ◌≤◌, false, length, slice_get, None, Some};
ghost use Rattle.engine_pages.specs.Layout.{page_at};
ghost use Rattle.engine_pages.specs.Pages.{is_tree};
ghost use Rattle.engine_pages.specs.Passes.{view, IsPassOf};
ghost use Rattle.engine_pages.specs.Steps.{seen_at};
ghost use Rattle.page_commit.specs.Live.{IsLive};
ghost use Rattle.tree_ranges.specs.Going.{Comes, ReadsKey, TakesRow};
ghost use Rattle.tree_ranges.specs.Leaves.{IsLeafTaken};
ghost use Rattle.tree_ranges.specs.Rows.{AreFree};
ghost use Rattle.tree_scans.specs.Rows.{key_in};
ghost use Rattle.tree_walks.specs.Ways.{IsLeafAt};
ghost use Rattle.tx_sets.specs.Entries.{has_read, has_write, value_of};

use crate::overlay::push_value;
use engine_pages::{Engine, Pass, RefusalCause, SetName};
use page_commit::refuse_on;
use serial_model::{Key, Rows};
use tree_calls::{keep, lacks_room, told};
use tree_scans::{Place, smallest_from};
use tree_walks::{Leaf, read_record};
use tx_sets::Sets;

/// The rows of a leaf whose header is kept, from a key on, up to the last one or until there are 16. None of these keys
/// is written. Answers up to which key.
pub(crate) fn scan_records(
    engine: &Engine,
    pass: &mut Pass,
    sets: &mut Sets,
    key: Key,
    leaf: Leaf,
    top: u64,
    rows: &mut Rows,
) -> Result<u64, RefusalCause>
    requires of { IsPassOf engine.now pass.old }
    requires live { IsLive sets.old (view pass.old) }
    requires taken { IsLeafTaken key leaf top sets.old.headers (view pass.old) }
    requires top { key.key ≤ top }
    requires free { AreFree key.storage key.key top sets.old.writes }
    requires few { length rows.old < 16 }
    ensures of { IsPassOf engine.now pass.new }
    ensures comes { Comes 16 19 key.storage key.key top result sets.old sets.new rows.old rows.new
        (view pass.old) (view pass.new) }
{
    let mut from = key.key;
    while from <= top {
        let Some(next) = smallest_from(engine, pass, key, leaf, from) else {
            return Ok(top);
        };
        if next.key > top {
            return Ok(top);
        }
        scan_record(engine, pass, sets, key, leaf, next, rows)?;
        if rows.is_full() {
            return Ok(next.key);
        }
        if next.key == top {
            return Ok(top);
        }
        from = next.key + 1;
    }
    Ok(top)
}

// The row of the record at this place of the leaf, if it has a value.
fn scan_record(
    engine: &Engine,
    pass: &mut Pass,
    sets: &mut Sets,
    key: Key,
    leaf: Leaf,
    place: Place,
    rows: &mut Rows,
) -> Result<(), RefusalCause>
    requires of { IsPassOf engine.now pass.old }
    requires live { IsLive sets.old (view pass.old) }
    requires leaf { (l : IsLeafAt (key_in key.storage place.key) leaf (view pass.old))
        × (slice_get l.keys place.index ≡ Some (key_in key.storage place.key)) }
    requires met { seen_at (view pass.old).reads (page_at (view pass.old).layout.slots leaf.slot 0)
        ≡ Some leaf.header }
    requires free { value_of (key_in key.storage place.key) sets.old.writes ≡ None }
    requires few { length rows.old < 16 }
    ensures of { IsPassOf engine.now pass.new }
    ensures takes { TakesRow key.storage place.key result sets.old sets.new rows.old rows.new
        (view pass.old) (view pass.new) }
{
    let here = Key {
        storage: key.storage,
        key: place.key,
    };
    match value_in(engine, pass, sets, here, leaf, place.index) {
        Ok(value) => {
            push_value(rows, place.key, value);
            Ok(())
        }
        Err(why) => Err(why),
    }
}

// What the transaction first read at a key of which the leaf has a record: with this index.
fn value_in(
    engine: &Engine,
    pass: &mut Pass,
    sets: &mut Sets,
    key: Key,
    leaf: Leaf,
    index: u32,
) -> Result<Option<u64>, RefusalCause>
    requires of { IsPassOf engine.now pass.old }
    requires live { IsLive sets.old (view pass.old) }
    requires leaf { (l : IsLeafAt key leaf (view pass.old)) × (slice_get l.keys index ≡ Some key) }
    requires met { seen_at (view pass.old).reads (page_at (view pass.old).layout.slots leaf.slot 0)
        ≡ Some leaf.header }
    ensures of { IsPassOf engine.now pass.new }
    ensures reads { ReadsKey 3 key result sets.old sets.new (view pass.old) (view pass.new) }
{
    let Some(entry) = sets.reads.find(key) else {
        return read_in(engine, pass, sets, key, leaf, index);
    };
    Ok(told(entry))
}

// Reads the record of a key that the transaction has not read before.
fn read_in(
    engine: &Engine,
    pass: &mut Pass,
    sets: &mut Sets,
    key: Key,
    leaf: Leaf,
    index: u32,
) -> Result<Option<u64>, RefusalCause>
    requires of { IsPassOf engine.now pass.old }
    requires live { IsLive sets.old (view pass.old) }
    requires leaf { (l : IsLeafAt key leaf (view pass.old)) × (slice_get l.keys index ≡ Some key) }
    requires met { seen_at (view pass.old).reads (page_at (view pass.old).layout.slots leaf.slot 0)
        ≡ Some leaf.header }
    requires unread { has_read key sets.old.reads ≡ false }
    ensures of { IsPassOf engine.now pass.new }
    ensures reads { ReadsKey 3 key result sets.old sets.new (view pass.old) (view pass.new) }
{
    match read_record(
        engine,
        pass,
        key,
        &sets.holds,
        &sets.pointers,
        &sets.headers,
        leaf,
        index,
    ) {
        Ok(found) => {
            if lacks_room(sets, found) {
                let why = RefusalCause::Wide {
                    set: SetName::Reads,
                };
                return Err(refuse_on(engine, pass, sets, key, why));
            }
            Ok(keep(sets, key, found))
        }
        Err(why) => Err(refuse_on(engine, pass, sets, key, why)),
    }
}
