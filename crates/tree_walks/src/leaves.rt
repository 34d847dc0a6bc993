// The records of a leaf in memory.
ghost use Rattle.std.specs.Prelude.{◌+◌, ◌≤◌};
ghost use Rattle.array_pages.specs.Finding.{HasGlanced};
ghost use Rattle.engine_pages.specs.Passes.{view, IsPassOf};
ghost use Rattle.engine_pages.specs.Views.{IsActive};
ghost use Rattle.tree_walks.specs.Leaves.{IsSearched};
ghost use Rattle.tree_walks.specs.Ways.{IsLeafAt};

use crate::ways::Leaf;
use array_pages::word_at;
use engine_pages::{Engine, Pass};
use serial_model::Key;
use tree_heads::load_word;

/// The records of a leaf begin at this word.
pub(crate) const FIRST: u32 = 16;

/// The words of a record: its key, that of its number, and its value.
pub(crate) const RECORD: u32 = 3;

/// The index of a key's record in a leaf, among those that its header counted. Their keys never change. At most 16
/// steps.
pub fn search(engine: &Engine, pass: &mut Pass, key: Key, leaf: Leaf) -> Option<u32>
    requires of { IsPassOf engine.now pass.old }
    requires active { IsActive (view pass.old).role }
    requires leaf { IsLeafAt key leaf (view pass.old) }
    ensures of { IsPassOf engine.now pass.new }
    ensures glances { HasGlanced (view pass.old) (view pass.new) }
    ensures most { (view pass.new).steps ≤ (view pass.old).steps + 16 }
    ensures searched { (l : IsLeafAt key leaf (view pass.old)) → IsSearched l.keys key result }
{
    let wanted = key.key;
    let count = (leaf.header % 256) as u32;
    for index in 0..count {
        let place = FIRST + RECORD * index;
        let at = word_at(engine, leaf.slot, place);
        let found = load_word(engine, pass, leaf.slot, place, at);
        if found == wanted {
            return Some(index);
        }
    }
    None
}
