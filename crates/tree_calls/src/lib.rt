//! Operations of transactions on keys of trees, over pages that threads share.
//!
//! Promises: `read` answers what the transaction wrote at the key, else what it first read there, else what stands there
//! by the last decided write (`answer`, by `IsTreeValueRead`), and keeps what vouches for that (`replies`, by `HasDone`);
//! `read_value` does so for a key that it hasn't written (`value`). A refused read ends the transaction (`refused`): a
//! pointer, a header or the record on the way to the key was in conflict, a set was full, or the way too long (`cause`).
//! Each takes so many steps at most (`most`). Parts of both, for scans: `keep` keeps what a search found, where there is
//! room (`lacks_room`), and `told` is an entry's value.
//! Layout: specs/Keeping.antt, what the sets keep and what a read comes to; specs/Causes.antt, why an operation is refused.
//! Design: docs/TREES.md.
#![tactic(auto)]

mod reading;

pub use reading::{keep, keep_header, keep_pointer, lacks_room, read, read_value, told};
