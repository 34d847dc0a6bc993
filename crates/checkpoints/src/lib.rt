//! New snapshots on disk: log entries are composed into pages, which a savepoint then names.
//!
//! Promises:
//! - [`settle`] brings a database that was recovered to where a run begins. Where log entries count above its newest
//!   snapshot, it composes a new one of the saved epoch. Behind `Ok` the devices say what is handed on, and the log
//!   files are empty (`settles`, record `SettlesInto`). Whatever it answers, each crash of all devices since they rest
//!   leaves the epoch and the state that were recovered (`leaves`, record `SettleLeaves`). Each snapshot that the devices
//!   had they have still, and one more at most, of what was kept (`snapshots`).
//! - It refuses, in this order and before any write, a page that would stand too deep, more pages than are let in, and a
//!   store behind the last sequence, each exactly where it is due and with its number; then the devices are as they were
//!   (`answers`, by cases of the answer in `specs/SettleAnswers.antt`).
//!
//! Order of writes: the new pages, their sync, the savepoint that names them and counts nothing of the log files, the
//! cuts of the log files. A stop between two of them finds the old savepoint with all that it counts, or the new one.
//!
//! Terms: an entry *counts* where its epoch is above the newest snapshot's and at most the saved one; a *run* has the
//! last entry of each key.
//!
//! Design: docs/CHECKPOINT.md, docs/DURABILITY.md.
#![tactic(auto)]

mod at_rest;
mod due;
mod fault;
mod first_page;
mod settlement;
mod without_entries;
mod writing;

pub use fault::SettleFault;
pub use settlement::settle;
pub use without_entries::Settled;
