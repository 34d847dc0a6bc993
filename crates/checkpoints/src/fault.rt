// Why a database can't be settled.

use outside::Device;

/// Why a database can't be settled.
#[derive(Clone, Copy, Debug, PartialEq, Eq)]
pub enum SettleFault {
    /// This device's count of faults rose.
    Device(Device),
    /// A page would stand below 32 others.
    Deep,
    /// So many pages and so many new ones are more than there is room for.
    Limit { have: u32, new: u64, room: u32 },
    /// This was the last sequence.
    Sequence { sequence: u64 },
}
