// Where a worker stands: what the definitions speak of.

use engine_pages::Pass;
use page_commit::Txn;
use serial_model::Changes;
use tx_sets::Holds;

/// What an engine is made for.
#[derive(Clone, Copy, Debug, PartialEq, Eq)]
pub struct Plan {
    /// How many values the array has.
    pub size: u32,
    pub slots: u32,
    /// The first draw.
    pub draw: u64,
}

/// Where a worker's transaction stands.
#[derive(Clone, Copy, Debug, PartialEq, Eq)]
pub enum Phase {
    Over,
    Live,
    Held,
    Put,
}

/// A pass with its transactions.
#[derive(Drop)]
pub struct Worker {
    pub txn: Txn,
    pub pass: Pass,
    pub phase: Phase,
    /// How many values the array has.
    pub size: u32,
    /// Of a transaction by hand: the slots that it holds.
    pub holds: Holds,
    /// The place of the locked record's word.
    pub at: u32,
    /// The word of its number.
    pub number: u64,
    /// How often it has done its work.
    pub done: u64,
    /// What its last commit wrote.
    pub changes: Changes,
}
