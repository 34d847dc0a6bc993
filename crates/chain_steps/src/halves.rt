// The halves of leaves that were split.

/// A half of a leaf that was split: its slot, and its first and its last key.
#[derive(Clone, Copy, Debug, Default, PartialEq, Eq)]
pub struct Half {
    pub slot: u32,
    pub low: u64,
    pub high: u64,
}
