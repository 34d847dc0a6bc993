//! The workers' log files, and the savepoint that says how much of each counts: how commits become durable.
//!
//! Promises, over each disk that tells its bytes:
//!
//! - [`Save::store`]: whatever a stop leaves since it began names the savepoint that was newest or the one that
//!   is stored (`any_moment` of the record `Stores`, in `specs/Stores.antt`), and after `Ok` the latter
//!   (`stored`). [`Save::store_in`] does the same (`stores`), and records exactly one tie where the store was
//!   begun (`tied`, `begun`, `untied`). It asks that what the savepoint counts of each log file is durable as
//!   the store begins (`counted`, by `KeepsCounted` in `specs/Counted.antt`). Behind a store that failed reads give the
//!   savepoint that was newest, or the call that was to bring it back had failed, too (`taken_back`).
//! - [`write_again`]: nothing is pending of the save device, also where a system forgot what a failed sync was to bring;
//!   whatever a stop leaves meanwhile names the same savepoint (`any_moment`).
//! - [`Save::load`] gives the savepoint that the device names (`found`, by `Finds`), or the byte from which on
//!   it is damaged, and so names nothing (`damaged`). A device names at most one ([`one_newest`]).
//! - [`Vault::cut_in`] cuts one device of a vault, of which the trait's clauses hold, and leaves the others (`cut`,
//!   by `CutsIn` in `specs/Vault.antt`). It records just one cut, whether the device did it or not: the device's
//!   clock as it began, and the sequence that the save then names (`recorded`, `newest`). Nobody but these two
//!   calls can add a tie or a cut ([`Records`]), so none is recorded late. [`Vault::is_whole`] tells a vault with
//!   two log files for each of eight workers; laws of vaults stand in `specs/Cuts.antt`. [`Vault::sync_in`] syncs one
//!   device (`synced`, by `SyncsIn`).
//! - [`Journal::flush`] and [`Journal::room`]: after `Ok` every crash image begins with all bytes that were
//!   made durable (`durable` of the record `Flushes`, in `specs/Flushes.antt`), and over later calls, whatever
//!   they answer, the images of every moment keep beginning with them (`stays`), until the log file is cut.
//!   What a call may leave is told exactly (`through`, `written`).
//! - [`Journal::put`] adds one log line, of at most 400 bytes (`lines`, `line`, `short`).
//!
//! And over each disk: a fault is answered only where the disk's count of faults rose, and is final (`device`,
//! `goes_down`, `down`); where a call answers `Ok` the count stands still (`quiet`), so that no sync that
//! failed passes for one that was done; the limits are exact (`limit`); a refusal leaves what counted (`kept`,
//! `untouched`). No call takes memory but [`Journal::new`].
//!
//! Invariants: what is durable and what waits stay within the limit, and what waits within the buffer
//! (`IsWithin`); while a place is written it is closed, and the other one has the newest savepoint.
//!
//! Terms: a *line* is a commit as bytes. Bytes *wait* in the journal until they are written. The save device
//! has two *places* for a savepoint; a place is open where its first byte, its *valid byte*, is 0xA5. A
//! savepoint is *newest* if its place is open and has the greater sequence. A *tie* tells when a store was.
//!
//! Design: docs/DURABILITY.md. Bytes: docs/FORMATS.md. Workers' logs, each flushed by itself, are Silo's.
#![tactic(auto)]

mod flush;
mod journal;
mod laws;
mod line_buffer;
mod records;
mod save;
mod saved;
mod store_in;
mod vault;
mod write_and_sync;
mod written_again;

pub use journal::{Journal, LogFault};
pub use laws::one_newest;
pub use records::{Cut, Records, Tie};
pub use save::{Save, SaveFault, SaveOpen};
pub use saved::Saved;
pub use vault::Vault;
pub use written_again::write_again;
