//! The headers of leaves that were split, as the maintenance thread locks them before it takes a chain out of memory.
//!
//! Promises: a header of a split leaf is locked by one try (`seal`), and opened as it was (`unseal`); neither changes what
//! stands at a key, and a reader that loads a header twice around a half that it entered finds one that was locked
//! meanwhile changed. Where all of a chain is locked as a snapshot has it, the pointer to its first page is led to the
//! snapshot's page by one try (`swing_chain`). Where a chain is kept, all of its pages are noted for one word (`note_again`).
#![tactic(auto)]

mod halves;
mod law;
mod laws;
mod noting;
mod sealing;
mod swings;

pub use halves::Half;
pub use noting::note_again;
pub use sealing::{seal, unseal};
pub use swings::swing_chain;
