// The parts of a pointer's word.

/// The shut bit of a pointer's word.
pub const SHUT: u64 = 1 << 60;

/// A pointer's word has a slot above these bits, and the number of a snapshot page in them.
pub const SLOT: u64 = 1 << 32;
