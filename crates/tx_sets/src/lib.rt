//! The sets of a transaction: what it read, what it writes, which pointers it met, which slots it holds, and which
//! headers of trees' leaves it keeps.
//!
//! Promises: each set has each word or key once, the holds each slot (`once`, `ascending`); `push` is refused exactly
//! where the set is full, and gives the entry back (`IsPushed`, `IsPut`); the writes stand in ascending order of key.
//! No call takes memory.
//! Terms: *word*, one of the words that threads share, named by its place in their table.
//! Design: docs/COMMIT.md. A worker has one `Sets`, which it empties and does not move: what a set holds lies in it.
#![tactic(auto)]

mod headers;
mod holds;
mod pointers;
mod reads;
mod seen;
mod sets;
mod writes;

pub use headers::HeaderSet;
pub use holds::Holds;
pub use pointers::PointerSet;
pub use reads::{ReadEntry, ReadSet};
pub use seen::Seen;
pub use sets::Sets;
pub use writes::{Write, WriteSet};
