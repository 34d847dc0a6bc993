// The leaf of a tree's snapshot pages that has a key, and the rows below a pointer.
ghost use Rattle.std.specs.Prelude.{◌≡◌, ◌⊎◌, ◌+◌, ◌<◌, ◌≤◌, [], length};
ghost use Rattle.array_pages.specs.Finding.{HasGlanced};
ghost use Rattle.array_pages.specs.Snapshots.{CanLook};
ghost use Rattle.engine_pages.specs.Passes.{view, IsPassOf};
ghost use Rattle.tree_scans.specs.Below.{IsStoredLeaf};
ghost use Rattle.tree_scans.specs.Belows.{ReadsBelow};
ghost use Rattle.tree_walks.specs.Snapshots.{StandsBelow};
ghost use Rattle.tree_walks.specs.Walks.{CanWalk};
ghost use Rattle.tree_walks.specs.Ways.{IsBareOn};

use crate::rows::read_rows;
use array_pages::conflict;
use dual_pointer::see_pointer;
use engine_pages::{Engine, Pass, RefusalCause, load_resident};
use homes::Span;
use serial_model::{Key, Rows};
use tree_walks::{Bare, check_room, child_in};
use tx_sets::{HeaderSet, Holds, PointerSet};

/// The kind of page that an interior page's header tells.
const INNER: u64 = 2;

/// A leaf among the snapshot's pages: the number of its page, of its records, and its last key.
#[derive(Clone, Copy, Debug, PartialEq, Eq)]
pub struct StoredLeaf {
    pub page: u32,
    pub count: u32,
    pub high: u64,
}

/// The leaf that has the key below the snapshot page with this number, which stands for these keys. At most 1,025
/// steps: 32 for each of up to 32 pages, and one.
pub fn leaf_below(engine: &Engine, pass: &mut Pass, number: u64, span: Span, key: Key) -> StoredLeaf
    requires of { IsPassOf engine.now pass.old }
    requires can { CanLook (view pass.old) }
    requires some { 0 < number }
    requires there { number ≤ length (view pass.old).pages }
    requires stands { StandsBelow (view pass.old) span number }
    requires low { span.low ≤ key.key }
    requires to { key.key ≤ span.high }
    ensures of { IsPassOf engine.now pass.new }
    ensures glances { HasGlanced (view pass.old) (view pass.new) }
    ensures most { (view pass.new).steps ≤ (view pass.old).steps + 1025 }
    ensures leaf { IsStoredLeaf (view pass.old).pages span number key.key result.page result.count result.high }
{
    let _ = span;
    let mut page = number as u32;
    for level in 0..32u32 {
        let _ = level;
        let header = load_resident(engine, pass, page, 0);
        let count = (header % 256) as u32;
        let kind = header / 256;
        if kind != INNER {
            let high = load_resident(engine, pass, page, 2);
            return StoredLeaf { page, count, high };
        }
        page = child_in(engine, pass, page, count, key);
    }
    StoredLeaf {
        page: 0,
        count: 0,
        high: 0,
    }
}

/// Reads the rows below a pointer on the way to the key that leads to no slot, from that key on up to the last one, of
/// one leaf of the snapshot's pages. Answers up to which key. The pointer is kept, and vouches for all keys in between.
pub fn read_below(
    engine: &Engine,
    pass: &mut Pass,
    key: Key,
    holds: &Holds,
    pointers: &PointerSet,
    headers: &HeaderSet,
    bare: Bare,
    last: u64,
    rows: &mut Rows,
) -> Result<u64, RefusalCause>
    requires of { IsPassOf engine.now pass.old }
    requires can { CanWalk holds.now (view pass.old) }
    requires bare { IsBareOn key pointers.now bare (view pass.old) }
    requires last { (key.key ≤ last) × (last ≤ bare.span.high) }
    requires none { rows.old ≡ [] }
    ensures of { IsPassOf engine.now pass.new }
    ensures reads { ReadsBelow key bare pointers.now headers.now holds.now last result rows.new
        (view pass.old) (view pass.new) }
{
    let _ = holds;
    let _ = headers;
    let pointer = bare.pointer;
    let word = pointer.word;
    check_room(pointers, pointer.at)?;
    let again = see_pointer(engine, pass, bare.place, bare.span, pointer.at);
    if again != word {
        return Err(conflict(pointer.at, word, again));
    }
    if word == 0 {
        return Ok(last);
    }
    let leaf = leaf_below(engine, pass, word, bare.span, key);
    let to = least_of(leaf.high, last);
    read_rows(engine, pass, leaf.page, leaf.count, key.key, to, rows);
    Ok(to)
}

/// The smaller one.
pub fn least_of(a: u64, b: u64) -> u64
    ensures a { result ≤ a }
    ensures b { result ≤ b }
    ensures is { (result ≡ a) ⊎ (result ≡ b) }
{
    if a < b {
        return a;
    }
    b
}
