//! The records of trees, in pages of slots over those of a snapshot: how they are found.
//!
//! Promises: `go_down` goes to the end of the way to a key in memory, a leaf that wasn't split or a pointer that leads
//! to no slot, holds each page on it and keeps nothing (`came`, `led`, `kept`); `go_down_from` does so from a page on
//! the way. `find` tells the record of a key, or that there is none, and keeps the one part that vouches for it: the
//! record, the header of its leaf, or the pointer (`found`). `search` tells the index of a key's record in a leaf
//! (`searched`). Words of trees alone are met (`met`, `only`), and those that the transaction has kept are met as it
//! has them (`keeps`). Each is refused only for the causes that it tells (`cause`), by so many steps at most (`most`).
//! Terms: *way to a key*, the pages that are over it, one below another: interior pages, and leaves that were split;
//! *half*, one of the two leaves that have the keys of one that was split; *bare*, of a pointer that leads to no slot.
//! Layout: specs/Walks.antt, what a walk leaves and meets; specs/Ways.antt, where a way leads to and why a walk is
//! refused; specs/Finding.antt, what a search tells; specs/Leaves.antt and specs/Snapshots.antt, what it comes to in
//! one page; specs/Steps.antt and specs/Finds.antt, what the parts of a walk and of a search come to. In proofs/
//! `StepLaws`, `LoadLaws` and `KeepLaws` say what any step leaves, and each part has a file.
//! Design: docs/TREES.md.
#![tactic(auto)]

mod children;
mod descent;
mod finding;
mod halves;
mod leaves;
mod places;
mod snapshots;
mod walk;
mod ways;

pub use descent::{go_down, go_down_from};
pub use finding::{Found, check_room, find, read_record};
pub use leaves::search;
pub use snapshots::child_in;
pub use ways::{Bare, End, Leaf, Page};
