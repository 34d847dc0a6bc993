//! The last entry of each key: what the log files say of a storage, as a snapshot needs it.
//!
//! Promises: [`reduce`] gives for each key that has entries the one of the greatest number, of equal
//! ones that of the lower log file, ascending by key (`AreLast` of specs/Reduced.antt, which says
//! nothing of how they are found); what a run of such entries makes of a state is its `overlay`
//! (specs/Overlay.antt). Buckets may come one by one, in any order and in parts: [`keep_bucket`] and [`merge`] keep the
//! latest entry of each key with its log file, which decides between equal numbers (`KeepsLatest` of
//! specs/Gathered.antt), and [`run_of`] gives the same run in the end.
//!
//! Terms: a *bucket* has the entries of one log file and one storage; a *run* has the last entry of
//! each key.
//!
//! Design: docs/CHECKPOINT.md.
#![tactic(auto)]

mod gathering;
mod latest;
mod reducing;

pub use gathering::{keep_bucket, merge, run_of};
pub use latest::Logged;
pub use reducing::reduce;
