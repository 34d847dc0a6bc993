//! What a tree has between two keys: the records of a leaf, ascending, and the rows of a leaf of the snapshot.
//!
//! Promises: `keep_head` keeps the header of a leaf in memory, which vouches that the leaf has no other keys (`keeps`);
//! `smallest_from` tells the record with the smallest key from a key on (`smallest`). `read_below` reads the rows of
//! one leaf of the snapshot's pages below a pointer that leads to no slot, and keeps the pointer, which vouches for
//! each key up to the one that it answers (`reads`); `leaf_below` and `read_rows` are its halves. Words of trees alone
//! are met, and those that the transaction has kept are met as it has them. Each is refused only for the causes that it
//! tells, by so many steps at most.
//! Layout: specs/Heads.antt, a header that is kept; specs/Smallest.antt, the smallest key; specs/Belows.antt, what is
//! read below a pointer; specs/Below.antt and specs/Rows.antt, one leaf of the snapshot.
//! Design: docs/TREES.md.
#![tactic(auto)]

mod below;
mod heads;
mod rows;
mod smallest;

pub use below::{StoredLeaf, leaf_below, least_of, read_below};
pub use heads::keep_head;
pub use rows::read_rows;
pub use smallest::{Place, smallest_from};
