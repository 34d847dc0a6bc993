// The header of a leaf is kept.
ghost use Rattle.engine_pages.specs.Passes.{view, IsPassOf};
ghost use Rattle.tree_scans.specs.Heads.{KeepsHead};
ghost use Rattle.tree_walks.specs.Walks.{CanWalk};
ghost use Rattle.tree_walks.specs.Ways.{IsLeafOn};

use array_pages::{conflict, word_at};
use engine_pages::{Engine, Pass, RefusalCause};
use serial_model::Key;
use tree_heads::see_header;
use tree_walks::Leaf;
use tx_sets::{HeaderSet, Holds, PointerSet};

/// The lock bit of a header's word.
const LOCK: u64 = 1 << 60;

/// Keeps the header of a leaf on the way to the key, where it is still as it was and isn't locked. One step.
pub fn keep_head(
    engine: &Engine,
    pass: &mut Pass,
    key: Key,
    holds: &Holds,
    pointers: &PointerSet,
    headers: &HeaderSet,
    leaf: Leaf,
) -> Result<(), RefusalCause>
    requires of { IsPassOf engine.now pass.old }
    requires can { CanWalk holds.now (view pass.old) }
    requires leaf { IsLeafOn key headers.now leaf (view pass.old) }
    ensures of { IsPassOf engine.now pass.new }
    ensures keeps { KeepsHead key leaf pointers.now headers.now holds.now result (view pass.old) (view pass.new) }
{
    let _ = key;
    let _ = holds;
    let _ = pointers;
    let _ = headers;
    let at = word_at(engine, leaf.slot, 0);
    let header = leaf.header;
    let word = see_header(engine, pass, leaf.slot, leaf.span, at, header);
    if word != header {
        return Err(conflict(at, header, word));
    }
    if word >= LOCK {
        return Err(conflict(at, header, word));
    }
    Ok(())
}
