//! What a call of the program makes of its words, of the folder of the database and of its streams.
//!
//! Promises of [`run_program`]: the words come to what `program_calls::top` promises of them, over the files of the
//! folder, or over none where they leave these alone, with its status and its text; or files, words or memory can't be
//! had, and that is told (`answered`, `told`, by specs/Entry.antt). Where the words may change the database nothing of it
//! is pending as `top` begins: [`run_over`] makes that true over any disks, whoever used them last (`CallsTop`). Each
//! status but 0 is explained where errors are told (`explained`), and 0 leaves them alone (`quiet`).
//!
//! Design: docs/ARCHITECTURE.md.
#![tactic(auto)]

mod entry;
mod over;
mod progress;
mod told;

pub use entry::{read_args, run_program};
pub use over::{list_over, run_over};
pub use progress::{Cleared, Progress};

// Names of the crate below that those above speak of.
pub use program_calls::{Ending, top};
