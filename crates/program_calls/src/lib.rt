//! The calls of the program: a script is run on a database, with a line for what came of each of its lines; what the
//! database keeps and which snapshots it has is told; or a script is made.
//!
//! Promises: `top` states them, by the record `Answers` (`answers`), and in the words of `specs/Main.antt`. Ordered by
//! their numbers, the commits that are printed are transactions of the script that ran one after another on the state
//! that the vault stood for, and each reply is what this gives; where no device failed, the vault stands afterwards for
//! the last epoch that was saved and the state as of that epoch, and has the snapshots that it had, each as it was, and
//! those of the run, in the words of `specs/Snapshots.antt`; and a stop of all devices, at any moment of the call,
//! leaves an epoch, at least the last one that was saved by then, and the state as of it (`in_full`). Of a run that is
//! told in brief the same holds, and its counts and its sum are those of the run and of what the vault keeps
//! (`in_brief`, in the words of `specs/InBrief.antt`). A dump tells what the devices of the vault stand for, `snaps`
//! their snapshots and `snap` what one of them has, or else where they are damaged (`listed`, `complete`, in the words
//! of `specs/Listings.antt`). A script is made of its numbers alone (`made`, in those of `specs/Made.antt`). Each
//! status comes only for its cause (`statuses`, `asked`, `faults`, `devices`, and the table `Comes` of
//! `specs/Ending.antt`), and a run with nothing in its way is done (`specs/Laws.antt`).
//! Terms: *ending*, how a call ends; *course*, what was read and run until then; *opening*, where a run begins.
//!
//! Design: docs/ARCHITECTURE.md, docs/DURABILITY.md.
#![tactic(auto)]

mod begin;
mod brief;
mod ending;
mod input;
mod kept;
mod program;
mod room;
mod run;
mod shape;
mod teller;

pub use ending::{Ending, finish, status_told};
pub use program::top;
