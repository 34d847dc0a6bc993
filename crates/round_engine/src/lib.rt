//! Rounds of a script, run on an engine over the devices of a database.
//!
//! Promises; that workers, and the maintenance thread with them, overlap is shown by tests of the program alone:
//! - [`round`]: one outcome for each line and one answer for each line of the maintenance thread, each with its cause;
//!   the commits, in order of number, are a serial run from the standing before to the one after, and the logs have
//!   what they changed; each number was drawn for a commit or for a try that was refused behind its draw; a try in
//!   conflict at a record of an array met a line of another worker of the round, or pages were dropped in it (`met`); a
//!   drop answers what the engine counts of it (`dropped`); the commits are those of the history that threads share; the
//!   join makes the round's last epoch durable or ends the run, with the first refusal (`rounds`, by `RanRound`). A save
//!   of the maintenance thread goes by the marks that stood as it loaded them, none before one that an earlier save of
//!   the round loaded (`beside`, by `CausedBeside`); and each mark that is shown to others has a moment of its log
//!   file's clock from which on every image of the file has what it counts, and, unless it is the round's begin, at
//!   which none has more of what is durable (`since` of `LeavesLog`). A line is left out only where its worker's log
//!   refused one earlier in the round (`rounds`, by `LeavesLinesOut`). Of the vault, each log file grew by its worker's
//!   lines and its marks count what is durable; the savepoints stored are those that are told (`rounds`, by
//!   `LeavesVault`). After want of memory all is as it was (`IsUnbegun`).
//! - [`join_round`]: the same of a round without lines (`joins`, by `Joins`).
//! - [`Runtime::is_down`]: behind a round or a join just where a device failed (`down` of `RanRound` and `Joins`).
//! - [`Runtime::new`] begins in the settled state, in the epoch after the saved one, with empty logs (`begins`). It opens
//!   with the newest snapshot's records, each with its number (`opens`), and has so many slots as are asked for
//!   (`slots`).
//!
//! Invariants: a runtime has a log for each of eight workers, and knows what the newest savepoint says; while the run
//! goes on, no line waits between two rounds, and each mark counts all that is durable (`IsReady`).
//!
//! Terms: *standing*, the storages, their contents, the clock, and whether the run has ended; *clock*, the number that
//! the next commit gets; *log*, a worker's journal with its mark;
//! *growing*, of a log file, that a journal writes it.
//!
//! Design: docs/ARCHITECTURE.md, docs/COMMIT.md, docs/DURABILITY.md.
#![tactic(auto)]

mod engine;
mod gleans;
mod idling;
mod joins;
mod keeper;
mod keeper_side;
mod opening;
mod owners;
mod report;
mod rounds;
mod runtime;
mod sides;
mod swaps;

pub use gleaner::{GleanFault, Gleaned, Gleaning};
pub use gleans::glean;
pub use joins::join_round;
pub use report::{End, LimitName, Report};
pub use rounds::{reads_are_images, round};
pub use runtime::Runtime;
