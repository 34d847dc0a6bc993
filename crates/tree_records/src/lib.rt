//! Loads of the records of trees, in leaves of slots that a pass holds.
//!
//! Promises: each step keeps the rule of engine_pages (`Shows`). What is seen of a record without a lock is the last
//! decided write of its key, or an absence as that is (`see`); a value that was loaded between two loads of one record
//! word belongs to it (`load_value`, `confirm`); what is loaded under an own lock stands at the key for as long as the
//! lock does (`load_held`). Locks, checks, puts and opens are those of page_records, which takes any record.
//! Terms: *record word*, the number of the last write, a lock bit, and a bit of absence, which a key without a value has;
//! *version*, what was seen to have stood at a key.
//! Layout: specs/Reads.antt, what the loads of a read tell; specs/Held.antt, what a load under an own lock does. In proofs/
//! `Seeing` has the first load of a read, `Values` the load of the value and the second one, `HeldLoads` that under a lock.
//! Design: docs/PAGES.md and docs/COMMIT.md.
#![tactic(auto)]

mod held;
mod law;
mod laws;
mod reading;

pub use held::load_held;
pub use reading::{confirm, load_value, see};
