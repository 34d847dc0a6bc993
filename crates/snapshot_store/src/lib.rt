//! The pages of all snapshots, by number: read once, and then only added to.
//!
//! Promises, over each disk that tells its bytes:
//! - [`SnapStore::load`] gives the pages as they stand on the device (`bytes`, `read` of `LoadsStore`), and tells
//!   where it is shorter (`short`).
//! - [`SnapStore::append`] and [`SnapStore::sync`]: what was there stays in every crash image, whatever is
//!   answered (`stays` of `AppendsPages`), and after `Ok` of `sync` each image begins with all pages (`durable`).
//!   [`SnapStore::append_durably`] is both in a row (`runs`, `durable` of `AppendsDurably`).
//!
//! And over each disk: pages that were read or added never change (`pages`, `kept`); a fault is answered
//! only where the device's count of faults rose (`device`), and then the store isn't sound any more
//! (`sound`); memory is taken before anything is written (`untouched`); `Limit` comes exactly where there
//! would be more pages than numbers (`limit`).
//!
//! Invariants: pages are numbered from 1 on, and at most 65,536 (`AreStored`); the device begins with them
//! (`HoldsPages`).
//!
//! A snapshot is read from its roots on: [`root_place`] is the place of a storage's root, [`SnapStore::words`] are the
//! words of a page, and [`is_inner`] tells a tree's interior pages from its leaves.
//!
//! Its specs/ say what these calls promise, in one record each (`Loads`, `Appends`), and what a snapshot has: which
//! page stands for which range of keys (`Places`, `ArrayPages`, `TreePages`), and the state that a catalogue's roots
//! lead to (`Content`), with the laws of pages that are read (`ReadLaws`) or added (`StandLaws`).
//!
//! Terms: a *place* is a range of keys with the page that stands for it; a page *stands* where it and
//! all that it leads to are pages of their kinds for their ranges.
//!
//! Design: docs/CHECKPOINT.md. Bytes: docs/FORMATS.md.
#![tactic(auto)]

mod laws;
mod load;
mod place;
mod reading;
mod store;
mod write;

pub use laws::{content_stays, one_leaf};
pub use place::PagePlace;
pub use reading::{DEEPEST, is_inner, last_index, root_place};
pub use store::{SnapStore, StoreFault};
