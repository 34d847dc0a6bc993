//! An engine of words that threads share, as a runtime keeps it, and all workers' lines of a round on it, in threads.
//!
//! Promises: a [`SharedEngine`] is its storages, their contents, the clock and the workers' marks (`SharedState`),
//! whatever its words are. It begins with what the pages of a snapshot have at keys (`new`), and goes on to the next
//! epoch with all else as it is (`advance`). Between two rounds nobody is seated, all attempts that count
//! are the keeper's own, and these leave the contents (`IsKept`).
//!
//! `RunsWorkers` says what a round's lines come to: each line's outcome with its cause, an order of all commits in
//! which they are serial from the standing before to the one after, and of each log that it took what its own worker's
//! commits changed. A line is left out only where its log refused one earlier in the round (`LeavesOut`). Each number
//! was drawn for a commit, or for a try that was refused behind its draw. The engine has each refusal that is told,
//! whole and in order, and no others (`RunsShares.refused`); a try in conflict at a record of an array met a line of
//! another worker, or pages were dropped meanwhile, and one on the way to a key is of a line that touches it.
//! [`make_rooms`] takes all memory that the lines of a round want (`IsRoomOf`), and [`run_workers`], which is lent it,
//! wants none: it runs the lines in as many threads as workers have lines, of which the caller's is one. What it tells
//! is `LinesCome`, and the commits that it tells are those that came to the history, each the attempt of its line's
//! transaction (`HasGathered`). Behind the lines the mark of a worker without a line is idle, and that of one with
//! lines, whose log is up, is its log's (`AreMarksBehind`). After it the engine is kept as between two rounds.
//!
//! Beside the lines runs what the maintenance thread has to do ([`Beside`]). Before it and the lines begin each
//! worker's mark is set on the words (`ShowsMarks`): of the epoch before the clock's where the worker has lines, else
//! idle. The marks that the words show of a worker then are told one after another, each with the moment of the log
//! file since when every image has what it counts, and their epochs never fall (`Share.marks`); as a line begins the
//! last one is at least the clock's epoch that its worker had loaded for it, less 1 (`Share.readied`). Each mark that
//! the maintenance thread met stands at its place among these (`BesideRan`); it seats nobody meanwhile, draws no
//! number, and takes no lock but for drops, behind which it holds nothing (`Went`). Epochs may go on beside the lines:
//! the clock behind them has the maintenance thread's. [`publish_new`] makes the pages of a new snapshot known to the
//! words, and [`drop_pages`] takes pages out of memory that are what the newest one has: what each such call came to is
//! counted (`HasDropped`, `SharedState.drops`).
//!
//! Terms: *standing*, the storages, their contents and the clock; *share*, a worker's lines with what came of them;
//! *keeper*, the pass of the maintenance thread; *part*, a share with what the worker's pass knew at its begin and
//! behind its lines; *room*, memory that was taken before it is wanted.
//! Layout: specs/SharedState.antt, the engine between two rounds; specs/Contents.antt, what attempts leave of a state;
//! specs/Rooms.antt, room for a round; specs/Shares.antt, the lines; specs/Drops.antt, drops of pages;
//! specs/Workers.antt, the logs and log files; specs/First.antt, the marks that are set first, and specs/Marks.antt,
//! those behind the lines; specs/Parts.antt, the workers' seats, and specs/Left.antt, their logs; specs/Beside.antt,
//! what is done beside the lines, and specs/Together.antt, both.
//! Design: docs/COMMIT.md, docs/DURABILITY.md.
#![tactic(auto)]

mod beside;
mod cells;
mod dropping;
mod ends;
mod engine;
mod marking;
mod publishing;
mod rooms;
mod workers;

pub use beside::Beside;
pub use dropping::drop_pages;
pub use ends::WorkersRan;
pub use engine::SharedEngine;
pub use page_drops::Dropped;
pub use publishing::publish_new;
pub use rooms::{Rooms, count_lines, make_rooms};
pub use worker_cells::{GateCalls, LineGate, LogEnd, advance, load_epoch, marks};
pub use workers::run_workers;
