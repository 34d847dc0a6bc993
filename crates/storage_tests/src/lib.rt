//! What transactions do, disks, bytes, log files, pages of snapshots and whole databases, worked by hand: nothing but
//! tests.
//!
//! Shows: what the theorems of the crates below leave to be looked at, that their definitions are those that are meant.
//! `transactions` has runs one after another and their replies (serial_model). `devices` has disks, streams and vaults
//! at work, over the system too, and each call that fails (outside). `forms` has words, pages, log lines and savepoints
//! by their layouts, each rule broken once (wire_form). `logs` has journals and savepoints over disks in memory, and
//! each call of them that fails (log_writer). `snapshot_pages` has pages that are added (snapshot_store), `short_reads`
//! a device that gives less than it says (log_writer, snapshot_store, log_mapper), and `compositions` the pages of new
//! snapshots, worked and pseudo-random ones (root_composer).
//! `recovery` has databases whose bytes were written down from the formats, what each stands for, and each byte of
//! three devices as another one in turn, and in it the snapshots of one (`older_snapshots`; all of recovery_core), and
//! what a settling answers and leaves, to the byte (`settled_databases`, of checkpoints). `logging` has what a savepoint
//! counts of logs by their marks (worker_logs).
//! They stand in a crate above those that they test, because a crate with tests is proved a second time.
//! Design: docs/ARCHITECTURE.md, docs/DURABILITY.md, docs/CHECKPOINT.md. Bytes: docs/FORMATS.md.
#![tactic(auto)]

#[cfg(test)]
mod checks;
#[cfg(test)]
mod compositions;
#[cfg(test)]
mod devices;
#[cfg(test)]
mod disks;
#[cfg(test)]
mod forms;
#[cfg(test)]
mod logging;
#[cfg(test)]
mod logs;
#[cfg(test)]
mod recovery;
#[cfg(test)]
mod short_reads;
#[cfg(test)]
mod snapshot_pages;
#[cfg(test)]
mod transactions;
#[cfg(test)]
mod worked_bytes;
