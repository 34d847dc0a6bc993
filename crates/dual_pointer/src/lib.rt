//! Steps on the pointers of arrays, which lead to a slot's page or to a snapshot page.
//!
//! Promises: each step keeps the rule of engine_pages (`Shows`). A pointer that leads to no slot is led to one exactly
//! where its word was the expected one (`install`); the slot has a copy of the page that the pointer named, a leaf's or
//! an interior one's (`publish_pointers`), so no key's content changes by it. A load of a pointer that leads to no slot
//! keeps it as a part, which vouches for each key below it by the last decided write (`see_pointer`).
//! Terms: *pointer word*, a page number, a slot and a bit that says whether it is shut (`SLOT`, `SHUT`); *copy*, a
//! published slot with the words of a snapshot page; *name*, what the machine of pages calls a snapshot page that stands
//! for certain keys.
//! Layout: specs/Copies.antt, what the publish of a copied interior page asks; specs/Installs.antt and Parts, what the
//! other steps tell. In proofs/ `Names` has the names of pages, `Rows` keys and places in a row, `SnapWords` what the
//! machine has of a page with these words, `Below` what it has for a key below one, `Moves` the moves of a leaf's
//! install, `InnerStands` the tests of an interior page's, `FilledPointers` the pointers of an owned slot, and each step
//! has a file.
//! Design: docs/PAGES.md.
#![tactic(auto)]

mod copying;
mod installing;
mod law;
mod laws;
mod pointer_word;
mod seeing;

pub use copying::publish_pointers;
pub use installing::install;
pub use pointer_word::{SHUT, SLOT};
pub use seeing::see_pointer;
