// The smallest key of a leaf in memory from a key on.
ghost use Rattle.std.specs.Prelude.{◌≡◌, ◌+◌, ◌≤◌};
ghost use Rattle.array_pages.specs.Finding.{HasGlanced};
ghost use Rattle.engine_pages.specs.Passes.{view, IsPassOf};
ghost use Rattle.engine_pages.specs.Views.{IsActive};
ghost use Rattle.tree_scans.specs.Smallest.{smaller_of, IsSmallest};
ghost use Rattle.tree_walks.specs.Ways.{IsLeafAt};

use array_pages::word_at;
use engine_pages::{Engine, Pass};
use serial_model::Key;
use tree_heads::load_word;
use tree_walks::Leaf;

/// The records of a leaf begin at this word.
const FIRST: u32 = 16;

/// The words of a record: its key, that of its number, and its value.
const RECORD: u32 = 3;

/// A record of a leaf: its index, and the number of its key.
#[derive(Clone, Copy, Debug, PartialEq, Eq)]
pub struct Place {
    pub index: u32,
    pub key: u64,
}

/// The record of a leaf with the smallest key from this one on, among those that its header counted. At most 16 steps.
pub fn smallest_from(
    engine: &Engine,
    pass: &mut Pass,
    key: Key,
    leaf: Leaf,
    from: u64,
) -> Option<Place>
    requires of { IsPassOf engine.now pass.old }
    requires active { IsActive (view pass.old).role }
    requires leaf { IsLeafAt key leaf (view pass.old) }
    ensures of { IsPassOf engine.now pass.new }
    ensures glances { HasGlanced (view pass.old) (view pass.new) }
    ensures most { (view pass.new).steps ≤ (view pass.old).steps + 16 }
    ensures smallest { (l : IsLeafAt key leaf (view pass.old)) → IsSmallest l.keys from result }
{
    let count = (leaf.header % 256) as u32;
    let mut best = None;
    for index in 0..count {
        let place = FIRST + RECORD * index;
        let at = word_at(engine, leaf.slot, place);
        let found = load_word(engine, pass, leaf.slot, place, at);
        best = smaller_of(best, from, Place { index, key: found });
    }
    best
}

// Of the best one so far and this one, the one with the smaller key from this one on.
fn smaller_of(best: Option<Place>, from: u64, next: Place) -> Option<Place>
    ensures { result ≡ smaller_of best from next }
{
    if next.key < from {
        return best;
    }
    let Some(least) = best else {
        return Some(next);
    };
    if next.key < least.key {
        return Some(next);
    }
    best
}
