//! The state that the devices of a database stand for.
//!
//! What the bytes of all devices stand for is told by their grammars alone (`IsRecoverable`): the saved epoch,
//! and the newest snapshot under the last log entries that count. Where they are out of their grammars, the
//! first byte that is told of it is `IsDamagedIn`. They say one thing at most, or are damaged at one byte of
//! one device, and never both ([`one_recoverable`]).
//!
//! Promises, over devices that tell their bytes:
//! - [`recover`] gives what they stand for, with the storages, the snapshots and the entries that count
//!   (`recovers`), and `Damaged` only where they are, at exactly that byte (`damaged`); where a device failed, what is
//!   read before it is in its format (`before`).
//! - whatever the devices tell: what [`recover`] hands on has the state of its pages under the last entries, and no
//!   record of the newest snapshot is later than that (`up`, record `IsUp`). The storages' roots are read from the
//!   last page by [`newest_storages`].
//! - [`snapshot`] gives what the snapshot of an epoch has, of those that were recovered, nothing where no catalogue
//!   is of that epoch (`found`, `none`), and `Damaged` at the first byte of the first of its pages that isn't right
//!   (`damaged`).
//!
//! And over each disk, [`recover`] answers a fault only where that device's count of faults rose, and else no count did;
//! it only reads each device, and records no store and no cut (`devices`, record `ReadsDevices`).
//!
//! Terms: a *reading* is what the bytes say part by part: savepoint, pages, catalogues, log lines; an entry
//! *counts* where its epoch is above the newest snapshot's and at most the saved one.
//!
//! Design: docs/DURABILITY.md. Bytes: docs/FORMATS.md.
#![tactic(auto)]

mod catalogue;
mod chain;
mod content;
mod entries;
mod fault;
mod gather;
mod gather_array;
mod gather_page;
mod gather_tree;
mod last_entries;
mod laws;
mod load_pages;
mod load_save;
mod newest;
mod recovered;
mod recovery;

pub use catalogue::newest_storages;
pub use chain::SnapshotMark;
pub use content::snapshot;
pub use fault::RecoverFault;
pub use last_entries::LastEntries;
pub use laws::one_recoverable;
pub use load_pages::pages_fit;
pub use recovered::Recovered;
pub use recovery::recover;
