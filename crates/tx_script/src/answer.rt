// What came of a keeper line: what the maintenance thread was asked for, and answered.

use lists::Sequence;

/// The answer to a keeper line.
#[derive(Clone, Copy, Debug, PartialEq, Eq)]
pub enum Answer {
    /// The epoch was advanced to this one.
    Epoch { epoch: u32 },
    /// This epoch was made durable.
    Save { epoch: u32 },
    /// A snapshot of this epoch was appended, in so many new pages with its catalogue.
    Snap { epoch: u32, new: u32 },
    /// The closed log files have no bytes that count.
    Empty,
    /// The snapshot would have more pages than may be resident.
    SnapFull,
    /// A page of the snapshot would be too far from its root.
    Deep,
    /// So many volatile pages were evicted, and so many kept.
    Drop { dropped: u32, kept: u32 },
    /// The last epoch, or the last sequence of a savepoint, is reached.
    Limit,
    /// A device failed.
    Device,
    /// A device has bytes that nothing here wrote.
    Damaged,
    /// A growth was refused.
    Memory,
    /// An earlier answer of the round was `Device`, `Damaged` or `Memory`.
    Unrun,
}

/// The answers to a round's keeper lines, in their order.
pub type Answers = Sequence<Answer>;
