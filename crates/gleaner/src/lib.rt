//! A glean: what the closed log files have becomes the next snapshot.
//!
//! Promises:
//! - [`glean`] does nothing exactly where no byte of the closed log files counts (`none`). Else it maps their counted
//!   bytes, keeps the last entry of each key, and adds the pages of a snapshot of the epoch at which they were closed:
//!   its content is the newest one's under these entries (`gleaned`, by `IsGleaned` in `specs/Glean.antt`). The pages
//!   are durable once it has answered (`durable`).
//! - Before any write it refuses, in this order: damage, at a byte of a closed log file; a page that would stand below 32
//!   others; more pages than are let in, at exactly their number; want of memory. A device failed only where its count of
//!   faults rose. The fault of the lowest log file that has one is told; a higher one may have failed beside it
//!   (`refused`, record `RefusesGlean` in `specs/GleanLeaves.antt`).
//! - Whatever it answers, it only reads the closed log files (`files`, record `LeavesFiles`), and the pages only grow,
//!   behind what was durable of them (`pages`, record `LeavesPages`).
//!
//! Two mappers have four log files each, and pass the buckets to two reducers through queues, all in threads of their own:
//! which bucket comes when makes no difference to the pages.
//!
//! Terms: *closed*, of a log file, that no journal writes it; *counted*, of bytes of a log file, that the newest
//! savepoint counts them.
//!
//! Design: docs/CHECKPOINT.md.
#![tactic(auto)]

mod closed;
mod gleaning;
mod halves;
mod mapping;

pub use closed::{Closed, Newest};
pub use gleaning::{GleanFault, Gleaned, Gleaning, glean};
