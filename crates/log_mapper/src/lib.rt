//! From a log file to buckets: the entries of each storage, in the order of the log file.
//!
//! Promises: [`map_bank`] reads the counted bytes of a log file and gives one bucket for each storage,
//! with the entries above one epoch and up to another (`mapped`); where the bytes are no lines of these
//! storages it answers the first byte of the first line that isn't one (`damaged`), and that the device
//! failed only where its count of faults rose (`device`): after each other answer that stands still
//! (`spared`). It only reads (`reads`).
//!
//! It reads a window of 4,096 bytes at a time and maps the lines that are wholly in it: so memory goes with
//! the entries, and damage is told with no byte read behind its window.
//!
//! Lines and damage: docs/FORMATS.md. Design: docs/CHECKPOINT.md.
#![tactic(auto)]

mod buckets;
mod lines;
mod map_file;

pub use buckets::Buckets;
pub use map_file::{MapFault, map_bank};
