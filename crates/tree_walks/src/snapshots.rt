// The records of a tree's snapshot pages, as they lie in the words that threads share.
ghost use Rattle.std.specs.Prelude.{◌≡◌, ℕ, ◌+◌, ◌<◌, ◌≤◌, length, get_or, map};
ghost use Rattle.array_pages.specs.Finding.{HasGlanced};
ghost use Rattle.array_pages.specs.Snapshots.{CanLook};
ghost use Rattle.engine_pages.specs.Passes.{view, IsPassOf};
ghost use Rattle.engine_pages.specs.Resident.{place_for};
ghost use Rattle.snapshot_store.specs.Content.{deepest};
ghost use Rattle.snapshot_store.specs.Places.{find, page as page_words};
ghost use Rattle.snapshot_store.specs.TreePages.{record_for, tree_format};
ghost use Rattle.tree_walks.specs.Snapshots.{IsInnerPage, IsLeafPage, IsLooked, IsPicked, StandsBelow, read_so};

use engine_pages::{Engine, Pass, load_resident};
use homes::Span;
use serial_model::Key;

/// The kind of page that an interior page's header tells.
const INNER: u64 = 2;

/// A record of a snapshot page: the word of its number, and its value.
#[derive(Clone, Copy, Debug, PartialEq, Eq)]
pub struct Stored {
    pub number: u64,
    pub value: u64,
}

/// The record of a key below the snapshot page with this number, which stands for these keys; there is none below page
/// 0. At most 1,024 steps: 32 for each of up to 32 pages.
pub fn look_up(
    engine: &Engine,
    pass: &mut Pass,
    number: u64,
    span: Span,
    key: Key,
) -> Option<Stored>
    requires of { IsPassOf engine.now pass.old }
    requires can { CanLook (view pass.old) }
    requires there { number ≤ length (view pass.old).pages }
    requires stands { StandsBelow (view pass.old) span number }
    requires to { key.key ≤ span.high }
    ensures of { IsPassOf engine.now pass.new }
    ensures glances { HasGlanced (view pass.old) (view pass.new) }
    ensures most { (view pass.new).steps ≤ (view pass.old).steps + 1024 }
    ensures looks { IsLooked
        (find tree_format (view pass.old).pages deepest key.key (place_for span number)) result }
{
    let _ = span;
    if number == 0 {
        return None;
    }
    let mut page = number as u32;
    for level in 0..32u32 {
        let _ = level;
        let header = load_resident(engine, pass, page, 0);
        let count = (header % 256) as u32;
        let kind = header / 256;
        if kind != INNER {
            return record_in(engine, pass, page, count, key);
        }
        page = child_in(engine, pass, page, count, key);
    }
    None
}

/// The child of an interior snapshot page that has the key: the one before the first separator above it. At most 30 steps.
pub fn child_in(engine: &Engine, pass: &mut Pass, page: u32, count: u32, key: Key) -> u32
    requires of { IsPassOf engine.now pass.old }
    requires can { CanLook (view pass.old) }
    requires some { 0 < page }
    requires there { page ≤ length (view pass.old).pages }
    requires inner { IsInnerPage (view pass.old).pages page count }
    ensures of { IsPassOf engine.now pass.new }
    ensures glances { HasGlanced (view pass.old) (view pass.new) }
    ensures most { (view pass.new).steps ≤ (view pass.old).steps + 30 }
    ensures child { (x : IsInnerPage (view pass.old).pages page count) → IsPicked x.children key.key result }
{
    let wanted = key.key;
    for index in 1..count {
        let place = 33 + index;
        let separator = load_resident(engine, pass, page, place);
        if wanted < separator {
            return pointer_in(engine, pass, page, index - 1);
        }
    }
    pointer_in(engine, pass, page, count - 1)
}

// A pointer of an interior snapshot page.
fn pointer_in(engine: &Engine, pass: &mut Pass, page: u32, index: u32) -> u32
    requires of { IsPassOf engine.now pass.old }
    requires can { CanLook (view pass.old) }
    requires some { 0 < page }
    requires there { page ≤ length (view pass.old).pages }
    requires inner { (many : ℕ) × IsInnerPage (view pass.old).pages page many × (index < many) }
    ensures of { IsPassOf engine.now pass.new }
    ensures glances { HasGlanced (view pass.old) (view pass.new) }
    ensures most { (view pass.new).steps ≤ (view pass.old).steps + 1 }
    ensures number { (many : ℕ) (x : IsInnerPage (view pass.old).pages page many) → index < many
        → result ≡ get_or x.children.pointers index 0 }
{
    let place = 4 + index;
    let number = load_resident(engine, pass, page, place);
    number as u32
}

// The record of the key in a leaf's snapshot page.
fn record_in(engine: &Engine, pass: &mut Pass, page: u32, count: u32, key: Key) -> Option<Stored>
    requires of { IsPassOf engine.now pass.old }
    requires can { CanLook (view pass.old) }
    requires some { 0 < page }
    requires there { page ≤ length (view pass.old).pages }
    requires leaf { IsLeafPage (view pass.old).pages page count }
    ensures of { IsPassOf engine.now pass.new }
    ensures glances { HasGlanced (view pass.old) (view pass.new) }
    ensures most { (view pass.new).steps ≤ (view pass.old).steps + 18 }
    ensures looks { (x : IsLeafPage (view pass.old).pages page count)
        → IsLooked (record_for (map read_so x.records) key.key) result }
{
    let wanted = key.key;
    for index in 0..count {
        let place = 16 + 3 * index;
        let found = load_resident(engine, pass, page, place);
        if found == wanted {
            return Some(stored_in(engine, pass, page, place));
        }
    }
    None
}

// The number and the value of a record whose key stands here in a snapshot page.
fn stored_in(engine: &Engine, pass: &mut Pass, page: u32, place: u32) -> Stored
    requires of { IsPassOf engine.now pass.old }
    requires can { CanLook (view pass.old) }
    requires some { 0 < page }
    requires there { page ≤ length (view pass.old).pages }
    requires index { place < 62 }
    ensures of { IsPassOf engine.now pass.new }
    ensures glances { HasGlanced (view pass.old) (view pass.new) }
    ensures most { (view pass.new).steps ≤ (view pass.old).steps + 2 }
    ensures number { result.number ≡ get_or (page_words (view pass.old).pages page) (place + 1) 0 }
    ensures value { result.value ≡ get_or (page_words (view pass.old).pages page) (place + 2) 0 }
{
    let number = load_resident(engine, pass, page, place + 1);
    let value = load_resident(engine, pass, page, place + 2);
    Stored { number, value }
}
