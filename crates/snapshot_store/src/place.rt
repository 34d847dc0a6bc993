// Where a page stands.

/// A range of keys, with the number of the page that stands for it, or 0 for none.
#[derive(Clone, Copy, Debug, PartialEq, Eq)]
pub struct PagePlace {
    pub number: u64,
    /// The first key of the range; in an array an index.
    pub low: u64,
    /// The last key of the range.
    pub high: u64,
}
