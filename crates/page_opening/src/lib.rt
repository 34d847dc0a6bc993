//! How an engine over pages is made: the first words of its table, from the pages of a snapshot.
//!
//! Promises: where the roots of the storages and all that they lead to are pages of a snapshot, whose numbers are below
//! the first one (`CanMake`), `make` gives an engine whose words show both machines as they begin over these pages, and
//! the keeper's pass. Each word of the table is filled once: the clock, the marks, the roots, the count of pages and
//! their words; all others are 0. What stands at keys at first is what the pages say, and no list of it is made.
//! Layout: specs/Making.antt, what an engine is made from and what the words are at first. In proofs/ `Named` has which
//! pages have names, `Contents` what stands at keys, `Roots` the roots' pointers, `Filled` the pages that a loop puts,
//! and `Opens` that the first words and the keeper's pass show both machines.
//! Design: docs/PAGES.md.
#![tactic(auto)]

mod filling;
mod making;

pub use making::make;
