// What one worker's thread is lent for a round.

use crate::gate_calls::GateCalls;
use engine_pages::Pass;
use tx_runner::{LineRoom, Txn};
use tx_script::OutcomeRoom;
use worker_logs::WorkerLog;

/// What refused a worker's log in a round, and what the gate was told of its lines.
#[derive(Clone, Copy, Debug, Default, PartialEq, Eq)]
pub struct LogEnd {
    /// Its log file failed.
    pub failed: bool,
    /// It may get no longer than this.
    pub full: Option<u64>,
    /// The calls of the gate: none as long as the lines are run.
    pub calls: GateCalls,
}

/// What a worker's lines are run in, made once a run: the sets of its transactions, and room for what comes of a line.
#[derive(Drop)]
pub struct Desk {
    pub txn: Txn,
    pub room: LineRoom,
}

impl Desk {
    pub fn new() -> Self {
        Desk {
            txn: Txn::new(),
            room: LineRoom::new(),
        }
    }
}

/// A worker's cell: its pass, and all that its lines need. It is not moved while its lines run.
#[derive(Drop)]
pub struct Cell<D> {
    pub worker: u8,
    /// How many of the round's lines are its own.
    pub lines: u32,
    pub pass: Pass,
    /// Lent for the round.
    pub desk: Box<Desk>,
    pub log: WorkerLog,
    /// The log file that grows.
    pub bank: D,
    /// Room for the outcomes of its lines, which takes no memory as they are run.
    pub outcomes: OutcomeRoom,
    pub end: LogEnd,
}
