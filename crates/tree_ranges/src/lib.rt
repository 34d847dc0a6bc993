//! Scans of transactions over trees, over pages that threads share.
//!
//! Promises: `scan` answers the first 16 present pairs of a range, as the transaction's own writes and what it read
//! have them (`replies`, by `HasDone`): each key up to the last one is vouched for by a part that is kept, its record,
//! the header of its leaf or a pointer, which join the sets. Where it answers 16 rows it has read no key behind that of
//! the last one (`last`). A refused scan ends the transaction (`refused`): a pointer, a header or a record on the way
//! to a key of the range was in conflict, a set was full, or a way too long (`cause`). It takes so many steps at most
//! (`most`).
//! Layout: specs/Causes.antt, why a scan is refused; specs/Rows.antt, the rows of the keys so far; specs/Leaves.antt, a
//! leaf whose header is kept; specs/Going.antt, what the parts of a scan come to.
//! Design: docs/TREES.md.
#![tactic(auto)]

mod overlay;
mod records;
mod scanning;
mod stretches;

pub use scanning::scan;
