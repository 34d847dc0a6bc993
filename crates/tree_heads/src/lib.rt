//! Steps on the headers of trees' pages, in slots that a pass holds.
//!
//! Promises: each step keeps the rule of engine_pages (`Shows`). A header that is loaded tells the keys of a leaf, the
//! halves of one that was split, or the separators of an interior page (`load_header`), and their words are those
//! (`load_word`); a half that is entered before the header of the split leaf is loaded again has its part of the keys
//! (`load_moved`). A header that is kept vouches that no other key of its leaf's span has a value (`see_header`). Under
//! its lock (`lock_header`) words that no record has are stored (`store_spare`), a key is added (`open_with_key`) and a
//! full leaf split (`split_leaf`); or it is opened as it was (`open_header`). An attempt that kept a header finds it as
//! it was, open and with as many records, or has failed (`check_header`).
//! Terms: *header*, the first word of a tree's page: how many records or children, the kind of page, whether it is
//! locked, and whether the leaf was split, or *moved*; *half*, one of the two leaves that have the keys of a leaf that
//! was split; *separator*, the first key of a child or of a second half.
//! Layout: specs/Headers.antt, Keeps, Heads, NewPages, Checks and Splits, what steps ask and tell. In proofs/ `TreeAt`
//! says what stands in a tree's page, `LeafSteps` what a step on a word of one leaf leaves of words and views, and
//! `HeadSteps` makes a stride of one; each step has a file.
//! Design: docs/TREES.md, docs/PAGES.md and docs/COMMIT.md.
#![tactic(auto)]

mod checking;
mod law;
mod laws;
mod loading;
mod locking;
mod publishing;
mod seeing;
mod splitting;

pub use checking::check_header;
pub use law::{Halved, Leafed};
pub use loading::{load_header, load_moved, load_word};
pub use locking::{HEADER_LOCK, lock_header, open_header, open_with_key, store_spare};
pub use publishing::{publish_inner, publish_leaf};
pub use seeing::see_header;
pub use splitting::{MOVED, split_leaf};
