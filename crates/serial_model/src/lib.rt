//! What transactions do, one after another.
//!
//! Promises: `run_one` answers and leaves the state as the serial step of `specs/Step.antt` says
//! (`step`), and after want of memory the state is as it was (`memory`); `fits` tells exactly which
//! operations a list of declarations has room for.
//! Terms: *state*, a finite map from keys to values; *verdict*, how a transaction ended.
//! Design: docs/ARCHITECTURE.md. Every engine of this repository is compared with this one.
#![tactic(auto)]

mod decl;
mod draft;
mod key;
mod lent;
mod number;
mod op;
mod plain;
mod reply;
mod rows;
mod state;

pub use decl::{Decl, Decls, id_of};
pub use draft::Draft;
pub use key::Key;
pub use lent::{LentReplies, LentReply, LentRows};
pub use lists::{Memory, OrMemory};
pub use number::{Change, Changes, Commit, Config, DRAW_LIMIT, LAST_EPOCH, Number, WORKERS};
pub use op::{Op, fits};
pub use plain::{Plain, run_in, run_one};
pub use reply::{Replies, Reply, Verdict};
pub use rows::Rows;
pub use state::State;
