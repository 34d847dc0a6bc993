//! What a worker does on the pages that threads share: it runs lines with tries, and marks what it has logged.
//!
//! Promises: a line is one transaction, which is begun anew after each conflict, so many times at most. Where it
//! commits, one attempt more is the worker's own, whose replies and verdict are those of the serial step on the state
//! below its number, then and for good, and each record that it read had the last decided write of its key at a step of
//! the call (`HasCommittedLine`); it is answered as a conflict exactly where each try was refused with one, at the key
//! of an array, or at a pointer, a slot or a word of a tree (`HasConflicted`). It is full exactly where a try found all
//! slots taken, as words tell that its steps saw (`IsFullAt`), and wide only where a set was full, which takes an
//! operation on a tree (`IsWideAt`); neither is tried again. Each number that is drawn is the commit's, or that of a
//! try which was refused behind its draw. Behind each answer nothing is locked and no slot held, and where nothing was
//! committed nothing of the line stays but pages in memory (`HasTriedFor`). The keeper alone moves the clock on
//! (`HasAdvanced`), and a worker's mark names an epoch that the clock has left (`IsMarkedUpTo`). No call takes memory
//! or waits: what a line needs lies in a `Txn` and in a `LineRoom`, made once.
//! Terms: *line*, a list of operations on arrays and trees that take effect together or not at all; *try*, one
//! transaction of it.
//! Layout: specs/Lines.antt, which operations a line has; specs/Tries.antt, tries that were refused;
//! specs/LineEnds.antt, what comes of a line; specs/LineWrites.antt, that each of its writes counts; specs/Epochs.antt,
//! the clock and marks; specs/Steps.antt, what the parts of a try do; specs/OwnThreads.antt, laws for a caller's own
//! threads.
//! Design: docs/COMMIT.md, docs/PAGES.md.
#![tactic(auto)]

mod epochs;
mod lines;
mod marking;
mod on_arrays;
mod on_trees;
mod operations;
mod replies;
mod room;
mod tries;

pub use epochs::{EpochLimit, advance, load_epoch};
pub use lines::{LineEnd, run_line};
pub use marking::{idle, mark, marks};
pub use page_commit::Txn;
pub use replies::LineReplies;
pub use room::LineRoom;
