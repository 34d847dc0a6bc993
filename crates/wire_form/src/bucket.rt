// Entries of log files, on their way into a snapshot.

use lists::Sequence;
use serial_model::{Key, Number};

/// What a commit did to a key: its number, and the new value, or none where the key was removed.
#[derive(Clone, Copy, Debug, Default, PartialEq, Eq)]
pub struct Entry {
    pub key: Key,
    pub number: Number,
    pub value: Option<u64>,
}

/// Entries of one log file and one storage, in the order of the log file.
#[derive(Debug, Drop)]
pub struct Bucket {
    /// The number of the log file.
    pub bank: u8,
    /// The storage's id.
    pub storage: u8,
    pub entries: Sequence<Entry>,
}

/// The last entry of each key, ascending by key.
pub type Run = Sequence<Entry>;
