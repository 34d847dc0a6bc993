//! What each worker of a running database logs, how far its log counts, and the savepoints that follow from that.
//!
//! Promises:
//!
//! - [`WorkerLog::flush_and_mark`] makes the lines that wait durable, and then says so: its mark counts all of them, up
//!   to the epoch before the clock's (`marked`).
//! - [`WorkerLog::prepare`] makes ready for a line: its mark holds back no epoch that the clock has left (`keeps_up`),
//!   and there is room for the line's commit (`free`, `below`).
//! - Whatever these calls answer, the log file only grew, and each mark that the log ever had says what it counts: the
//!   worker's commits up to the mark's epoch lie in so many durable bytes (`moves`, by `MovesLog` in
//!   `specs/Moves.antt`, which carries `LogRan` of `specs/Logs.antt` from one call to the next; a commit that is put
//!   carries it by the law `log_put`). A refusal has its cause (`moves`, `full`, `not_full`).
//! - [`flush_all`] flushes and marks all logs, up to the first that refuses (`flushes`, by `FlushesAll`).
//! - [`save_marks`] stores the savepoint that the marks allow: the least of their epochs and of the clock's less 1, of
//!   each growing log file the length that its mark counts, and of the closed ones and the pages what it is given
//!   (`saves`, by `SavesMarks` in `specs/Saves.antt`). It asks that all that is counted is durable already (`durable`,
//!   by `AreDurable`): so it is of each log, by the laws `mark_kept`, `some_goes` and `some_takes`. What it stores
//!   covers each worker's commits up to its epoch (the law `counts_saved`), and to one that knows the save device it is
//!   one savepoint more (`keeper_saved`).
//! - [`save_seen`] does so by eight marks that were seen while their workers ran, with neither logs nor growing log
//!   files at hand. A mark that others are shown stands from its moment on: every image of the log file then has what
//!   it counts (`LogShows` in `specs/Shown.antt`, with its laws in `specs/ShownLaws.antt`).
//! - [`WorkerLog::reset`] begins the log of the other, empty log file once it grows (`resets`); by the law `log_resets`
//!   it has no commit.
//!
//! No call takes memory but [`WorkerLog::new`].
//!
//! Invariants: a log's journal has the limit of a log file, and its mark counts no more (`IsLogState`).
//!
//! What a log gets of a transaction is said by `IsLogged` in `specs/Changes.antt`, for those who put lines: its number,
//! and each key that it wrote, ascending, with the value that it left there or its removal; nothing where it wrote none.
//!
//! Terms: a *mark* is an epoch with the length of a log file that has all its worker's commits up to that epoch. An
//! *idle* worker has no line in a round: its mark names no epoch, and holds none back. Epochs, marks and group commit
//! by the least of them are Silo's.
#![tactic(auto)]

mod flushing;
mod savepoints;
mod seen;
mod worker_log;

pub use flushing::flush_all;
pub use savepoints::{Beside, Side, marked_lengths, save_marks};
pub use seen::save_seen;
pub use worker_log::WorkerLog;
