// How many keys the pages of arrays are over. Contracts say it by the form of a leaf and the fan of a page; these are
// the same numbers for the code, and no proof takes others.

/// The keys of a leaf.
pub(crate) const LEAF: u64 = 32;

/// The pointers of an interior page.
const FAN: u64 = 64;

/// The keys of a page over leaves.
pub(crate) const MIDDLE: u64 = FAN * LEAF;

/// The keys of a page over such pages.
pub(crate) const TOP: u64 = FAN * MIDDLE;

/// The words of a record: that of its number, and its value.
pub(crate) const RECORD: u32 = 2;
