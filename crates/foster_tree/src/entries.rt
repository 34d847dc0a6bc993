// Records of a leaf on their way into another page.
ghost use Rattle.std.specs.Prelude.{◌≡◌, ◌<◌, ℕ, get_or};
ghost use Rattle.foster_tree.specs.Entries.{AreInOrder};
ghost use Rattle.foster_tree.specs.Filling.{no_entry};

/// How many records a full leaf and one more are.
pub(crate) const MANY: usize = 17;

/// The record of a key in a leaf: the key, the record's word without a lock, and the value, 0 where there is none.
#[derive(Clone, Copy, Debug, PartialEq, Eq)]
pub struct Entry {
    pub key: u64,
    pub word: u64,
    pub value: u64,
}

/// These records in the order of their keys.
pub(crate) fn in_order(entries: &[Entry; MANY]) -> [Entry; MANY]
    ensures { AreInOrder entries.now result }
{
    let mut sorted = *entries;
    sorted.sort_unstable_by_key(|entry| entry.key);
    sorted
}

/// Where the record of a key stands among these, which have it.
pub(crate) fn place_of(entries: &[Entry; MANY], key: u64) -> u32
    requires has { (i : ℕ) × (i < 17) × ((get_or entries.now i no_entry).key ≡ key) }
    ensures within { result < 17 }
    ensures is { (get_or entries.now result no_entry).key ≡ key }
{
    for i in 0..MANY {
        if entries[i].key == key {
            return i as u32;
        }
    }
    0
}
