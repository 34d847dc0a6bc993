//! Buckets on their way from those who map log files to those who reduce them: two queues with a room of 16 each.
//!
//! Promises:
//! - [`map_into`] puts what a log file is mapped to into the two queues by turns, and keeps back what a full one doesn't
//!   take; it refuses what `log_mapper::map_bank` does, before any bucket is put. [`reduce_from`] takes buckets and keeps
//!   the latest entry of each key, with its log file, which decides between equal numbers.
//! - [`through_queues`] runs two mappers and two reducers in threads. The buckets that were taken, left and kept back are
//!   together those that were made, each once, and the run has their last entries (`AreGathered` of specs/Threads.antt).
//!   Where a mapper refused, both answers are told (`Stopped`), and what each left of its files in any case.
//!
//! The rule of a queue (`BucketRule`, specs/Balance.antt): what went in is what came out and what it holds, each bucket
//! once. Who holds all parts of the right to know the whole, and finds it empty, knows that all was taken.
//!
//! Design: docs/CHECKPOINT.md.
#![tactic(auto)]

mod from_queues;
mod into_queues;
mod rule;
mod threads;

pub use from_queues::reduce_from;
pub use into_queues::{Mapper, map_into};
pub use rule::{BucketPass, BucketQueue, BucketRule, Hand, PartOff, PartsMeet, Puts, Takes};
pub use threads::{Ends, Maps, Reducer, Stopped, open_queue, through_queues};
