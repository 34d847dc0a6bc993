// A call of a disk, as data.

/// What a disk was asked for.
#[derive(Debug, PartialEq, Eq, Drop)]
pub enum Call {
    Len,
    Read,
    Write { at: u64, bytes: Vec<u8> },
    Cut { len: u64 },
    Sync,
}

/// A call that was made, and whether it failed.
#[derive(Debug, PartialEq, Eq, Drop)]
pub struct Made {
    pub call: Call,
    pub failed: bool,
}
