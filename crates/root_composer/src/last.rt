// Entries of one storage.

/// The last change of a key: the word of its number, and the new value, or none where it was removed.
#[derive(Clone, Copy, Debug, PartialEq, Eq)]
pub struct Last {
    pub key: u64,
    pub number: u64,
    pub value: Option<u64>,
}
