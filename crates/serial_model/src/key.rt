// The place of a value.

/// A key of a storage. Keys are ordered by storage, and then by key.
#[derive(Clone, Copy, Debug, Default, PartialEq, Eq, PartialOrd, Ord, Hash)]
pub struct Key {
    /// The storage's id.
    pub storage: u8,
    /// In an array the index, below its size.
    pub key: u64,
}
