// How the pages of snapshots are read.
ghost use Rattle.std.specs.Prelude.{◌≡◌, ◌/◌, ◌==◌, slice_index};
ghost use Rattle.snapshot_store.specs.Content.{last_index, root_place};

use crate::PagePlace;
use serial_model::Decl;
use wire_form::Stored;

/// How many pages stand one below another at most.
pub const DEEPEST: u32 = 32;

/// The last index for which the root of an array of this size stands.
pub fn last_index(size: u32) -> u64
    ensures { result ≡ last_index size }
{
    if size <= 32 {
        31
    } else if size <= 2048 {
        2047
    } else {
        131_071
    }
}

/// The place of a storage's root: all indexes, or all keys.
pub fn root_place(stored: &Stored) -> PagePlace
    ensures is { result ≡ root_place stored.now.decl stored.now.root }
    ensures number { result.number ≡ stored.now.root }
{
    let number = u64::from(stored.root);
    match stored.decl {
        Decl::Array { size, .. } => PagePlace {
            number,
            low: 0,
            high: last_index(size),
        },
        Decl::Tree { .. } => PagePlace {
            number,
            low: 0,
            high: u64::MAX,
        },
    }
}

/// Whether the words are those of an interior page of a tree, where they are a tree's.
pub fn is_inner(words: &[u64; 64]) -> bool
    ensures { result ≡ (slice_index words.now 0 / 256 == 2) }
{
    words[0] / 256 == 2
}
