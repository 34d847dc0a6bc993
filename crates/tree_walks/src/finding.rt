// The record of a key.
ghost use Rattle.std.specs.Prelude.{◌≡◌, ◌<◌, true, false, IfOk, IfErr, OnOk, slice_get, Some, None, length};
ghost use Rattle.homes.specs.Homes.{has_key};
ghost use Rattle.engine_pages.specs.Layout.{page_at};
ghost use Rattle.engine_pages.specs.Pages.{is_tree};
ghost use Rattle.engine_pages.specs.Passes.{view, IsPassOf};
ghost use Rattle.engine_pages.specs.Steps.{seen_at};
ghost use Rattle.tree_walks.specs.Finding.{IsVolatile};
ghost use Rattle.tree_walks.specs.Finds.{FindsSo, IsPointersFull, KeepsSo};
ghost use Rattle.tree_walks.specs.Walks.{CanWalk};
ghost use Rattle.tree_walks.specs.Ways.{IsBareOn, IsLeafAt, IsLeafOn};
ghost use Rattle.tx_sets.specs.Entries.{word_at};

use crate::descent::walk_down;
use crate::leaves::{FIRST, RECORD, search};
use crate::snapshots::look_up;
use crate::ways::{Bare, End, Leaf};
use array_pages::{conflict, word_at};
use dual_pointer::see_pointer;
use engine_pages::{Engine, Pass, RefusalCause, SetName};
use homes::Spot;
use page_records::load_word;
use serial_model::Key;
use tree_heads::see_header;
use tree_records::{confirm, load_value, see};
use tx_sets::{HeaderSet, Holds, PointerSet, Seen};

/// The lock bit of a record's word, and of a header's.
const LOCK: u64 = 1 << 60;

/// The word of a record without a value has this bit.
const ABSENT: u64 = 1 << 61;

/// Where the record of a key is.
#[derive(Clone, Copy, Debug, PartialEq, Eq)]
pub enum Found {
    /// In a leaf in memory: the place of its word, the word, which has no lock, and its value, which is 0 where the
    /// record has none.
    Volatile {
        at: u32,
        word: u64,
        value: u64,
    },
    /// The leaf in memory has no record of the key: the place of its header, and its word.
    Absent {
        header: u32,
        word: u64,
    },
    /// In a snapshot page: its value, the word of its number, and the pointer at which the pages in memory end.
    Snapshot {
        value: u64,
        number: u64,
        pointer: Seen,
    },
    /// It has no record: the pointer at which the pages in memory end.
    Zero {
        pointer: Seen,
    },
}

/// The record of a key of a tree. The slots of the pages on the way are held from then on, and one part is kept that
/// vouches for the answer: the record, the header of its leaf, or the pointer at which the pages in memory end. The
/// pointers and headers that the transaction has kept are told. At most 5,683 steps.
pub fn find(
    engine: &Engine,
    pass: &mut Pass,
    key: Key,
    holds: &mut Holds,
    pointers: &PointerSet,
    headers: &HeaderSet,
) -> Result<Found, RefusalCause>
    requires of { IsPassOf engine.now pass.old }
    requires can { CanWalk holds.old (view pass.old) }
    requires tree { is_tree (view pass.old).layout.decls key.storage ≡ true }
    ensures of { IsPassOf engine.now pass.new }
    ensures finds { FindsSo key pointers.now headers.now holds.new result
        (view pass.old) (view pass.new) }
{
    let end = walk_down(engine, pass, key, key.key, holds, pointers, headers)?;
    match end {
        End::Leaf(leaf) => find_in_leaf(engine, pass, key, holds, pointers, headers, leaf),
        End::Below(bare) => find_below(engine, pass, key, holds, pointers, headers, bare),
    }
}

// The record of a key in a leaf in memory, or the header that says that there is none.
fn find_in_leaf(
    engine: &Engine,
    pass: &mut Pass,
    key: Key,
    holds: &Holds,
    pointers: &PointerSet,
    headers: &HeaderSet,
    leaf: Leaf,
) -> Result<Found, RefusalCause>
    requires of { IsPassOf engine.now pass.old }
    requires can { CanWalk holds.now (view pass.old) }
    requires leaf { IsLeafOn key headers.now leaf (view pass.old) }
    ensures of { IsPassOf engine.now pass.new }
    ensures keeps { KeepsSo 20 key pointers.now headers.now holds.now result (view pass.old) (view pass.new) }
{
    match search(engine, pass, key, leaf) {
        Some(index) => read_record(engine, pass, key, holds, pointers, headers, leaf, index),
        None => keep_absence(engine, pass, key, holds, pointers, headers, leaf),
    }
}

/// The record with this index in a leaf, which is the key's: it is kept as a part. The leaf's header was last seen as
/// that of one that wasn't split, as the records of a split one are locked for good. Where the record is locked it is
/// loaded once more: so what is expected there is what the step before saw. At most three steps.
pub fn read_record(
    engine: &Engine,
    pass: &mut Pass,
    key: Key,
    holds: &Holds,
    pointers: &PointerSet,
    headers: &HeaderSet,
    leaf: Leaf,
    index: u32,
) -> Result<Found, RefusalCause>
    requires of { IsPassOf engine.now pass.old }
    requires can { CanWalk holds.now (view pass.old) }
    requires leaf { (l : IsLeafAt key leaf (view pass.old)) × (slice_get l.keys index ≡ Some key) }
    requires met { seen_at (view pass.old).reads (page_at (view pass.old).layout.slots leaf.slot 0)
        ≡ Some leaf.header }
    ensures of { IsPassOf engine.now pass.new }
    ensures keeps { KeepsSo 3 key pointers.now headers.now holds.now result (view pass.old) (view pass.new) }
    ensures there { IfOk result IsVolatile }
{
    let spot = Spot {
        slot: leaf.slot,
        index: index as usize,
    };
    let at = word_at(engine, leaf.slot, FIRST + 1 + RECORD * index);
    let word = see(engine, pass, key, spot, at);
    let locked = word / LOCK % 2;
    if locked == 1 {
        let later = load_word(engine, pass, key, spot, at);
        return Err(conflict(at, word, later));
    }
    if word >= ABSENT {
        return Ok(Found::Volatile { at, word, value: 0 });
    }
    let value = load_value(engine, pass, key, spot, at);
    let again = confirm(engine, pass, key, spot, at);
    if again != word {
        return Err(conflict(at, word, again));
    }
    Ok(Found::Volatile { at, word, value })
}

// The header of a leaf that has no record of the key is kept, where it is still as it was.
fn keep_absence(
    engine: &Engine,
    pass: &mut Pass,
    key: Key,
    holds: &Holds,
    pointers: &PointerSet,
    headers: &HeaderSet,
    leaf: Leaf,
) -> Result<Found, RefusalCause>
    requires of { IsPassOf engine.now pass.old }
    requires can { CanWalk holds.now (view pass.old) }
    requires leaf { IsLeafOn key headers.now leaf (view pass.old) }
    requires none { (l : IsLeafAt key leaf (view pass.old)) × (has_key l.keys key ≡ false) }
    ensures of { IsPassOf engine.now pass.new }
    ensures keeps { KeepsSo 1 key pointers.now headers.now holds.now result (view pass.old) (view pass.new) }
{
    let at = word_at(engine, leaf.slot, 0);
    let header = leaf.header;
    let word = see_header(engine, pass, leaf.slot, leaf.span, at, header);
    if word != header {
        return Err(conflict(at, header, word));
    }
    if word >= LOCK {
        return Err(conflict(at, header, word));
    }
    Ok(Found::Absent { header: at, word })
}

// The record of a key below a pointer that leads to no slot, which is kept, where it is still as it was.
fn find_below(
    engine: &Engine,
    pass: &mut Pass,
    key: Key,
    holds: &Holds,
    pointers: &PointerSet,
    headers: &HeaderSet,
    bare: Bare,
) -> Result<Found, RefusalCause>
    requires of { IsPassOf engine.now pass.old }
    requires can { CanWalk holds.now (view pass.old) }
    requires bare { IsBareOn key pointers.now bare (view pass.old) }
    ensures of { IsPassOf engine.now pass.new }
    ensures keeps { KeepsSo 1200 key pointers.now headers.now holds.now result (view pass.old) (view pass.new) }
{
    let pointer = bare.pointer;
    let word = pointer.word;
    check_room(pointers, pointer.at)?;
    let again = see_pointer(engine, pass, bare.place, bare.span, pointer.at);
    if again != word {
        return Err(conflict(pointer.at, word, again));
    }
    match look_up(engine, pass, word, bare.span, key) {
        Some(stored) => Ok(Found::Snapshot {
            value: stored.value,
            number: stored.number,
            pointer,
        }),
        None => Ok(Found::Zero { pointer }),
    }
}

/// There is room for a pointer in the set, unless it is in it already.
pub fn check_room(pointers: &PointerSet, at: u32) -> Result<(), RefusalCause>
    ensures room { OnOk result (word_at at pointers.now ≡ None → length pointers.now < 128) }
    ensures full { IfErr result (λ why. IsPointersFull at pointers.now why) }
{
    if let Some(_word) = pointers.find(at) {
        return Ok(());
    }
    if pointers.is_full() {
        return Err(RefusalCause::Wide {
            set: SetName::Pointers,
        });
    }
    Ok(())
}
