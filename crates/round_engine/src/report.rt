// What a round reports.

use arrayvec::ArrayVec;
use outside::Device;
use shared_rounds::GateCalls;
use tx_script::{Answers, RoundOutcomes};

/// A limit of the engine, in the order in which limits of one round are told.
#[derive(Clone, Copy, Debug, PartialEq, Eq)]
pub enum LimitName {
    /// The epoch can't be advanced: it is the last one.
    Epoch,
    /// The clock gives no further numbers.
    Draw,
    /// A log file may get no longer.
    Bank,
    /// More snapshot pages than may be resident.
    Snap,
    /// A page too far from its root.
    Height,
    /// The savepoint has the last sequence.
    Sequence,
}

/// Why a run ends after a round.
#[derive(Clone, Copy, Debug, PartialEq, Eq)]
pub enum End {
    /// The device's count of faults rose.
    Device(Device),
    /// What the device holds is out of its format from this byte on.
    Damaged { device: Device, at: u64 },
    /// The limit, and the number that stands there.
    Limit { name: LimitName, number: u64 },
    /// A growth was refused.
    Memory,
}

/// What came of a round.
#[derive(Drop)]
pub struct Report {
    /// An outcome for each worker's line, by worker.
    pub outcomes: RoundOutcomes,
    /// An answer for each keeper line.
    pub keeper: Answers,
    /// The epoch that the join made durable.
    pub durable: Option<u32>,
    /// The round's first refusal that ends the run: devices first (the save, the snapshots, the log
    /// files by their numbers), then limits.
    pub end: Option<End>,
    /// What the gate was told: by each worker, and last by the maintenance thread.
    pub calls: ArrayVec<GateCalls, 9>,
}
