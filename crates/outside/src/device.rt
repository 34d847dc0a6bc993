// The names of a database's devices.

/// A device of a database: the savepoint's, the snapshots', or one of 16 log files, of which a worker w has two, 2w and
/// 2w + 1.
#[derive(Clone, Copy, Debug, PartialEq, Eq)]
pub enum Device {
    Save,
    Snaps,
    Bank(u8),
}
