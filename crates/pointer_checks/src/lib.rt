//! The check of a pointer that a transaction kept, by its attempt.
//!
//! Promises: the step keeps the rule of engine_pages (`Shows`). A part of a pointer is checked exactly where the whole
//! word is the one that was seen: the page half too, so that a pointer which led elsewhere in between fails; else the
//! attempt failed (`check_pointer`).
//! Terms: *part*, a word that an attempt read and has to find again; *pointer word*, a page number, a slot and a bit
//! that says whether it is shut.
//! Layout: specs/Checks.antt, what the check asks and tells. In proofs/ `Comparisons` has what the machine finds, and
//! `CheckPointers` the step.
//! Design: docs/PAGES.md and docs/COMMIT.md.
#![tactic(auto)]

mod checking;
mod law;
mod laws;

pub use checking::check_pointer;
pub use law::Compared;
