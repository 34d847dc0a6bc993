//! Pages of arrays and of trees are taken out of memory by the maintenance thread where they are what the newest snapshot
//! has.
//!
//! Promises: each storage's root is gone over, and each pointer of each page that is gone into, once, with all below it
//! before its own page; each page met is counted once, as dropped or as kept, up to 2^31 of either kind (`drop_all`). A
//! leaf is dropped only where each of its records that has a value is the snapshot's, by its word and its value, each of
//! the snapshot's is there, and each absence is of an epoch that the snapshot has, while its header and all of its records
//! are locked; an interior page only where its separators are the snapshot's, and each of its pointers is shut, with the
//! snapshot's page there and no slot. The pointer above names the snapshot's page alone then. Of a page that stays,
//! nothing is left locked or shut, and the pass's view has the word for which it stays, as it was seen, and why. A leaf
//! that was split and all pages that came of it, up to 63, are a chain: it is dropped by one swing of the pointer to its
//! first page, while the headers of all of them are locked, and all records of its leaves, each as the snapshot has it
//! below that pointer; or it is kept whole, for one cause, as a longer one always is. Each page of a chain is counted.
//! Once in some 512 pages the calling thread gives its core away, when nothing of a page is locked or shut.
#![tactic(auto)]

mod belows;
mod branches;
mod calls;
mod chain_visits;
mod chains;
mod covering;
mod dropping;
mod leaves;
mod records;
mod releasing;
mod stored;
mod taking;
mod tallies;
mod visits;

pub use calls::drop_all;
