//! Pages of arrays are taken out of memory by the maintenance thread where they are what the newest snapshot has.
//!
//! Promises: each pointer of each page that is gone into is gone over once, the leaves first (`drop_all`). A page is
//! dropped only where each of its records, by its word and its value, or each of its pointers is the snapshot's, while
//! all of them are locked or shut; its pointer then names the snapshot's page alone. Of a page that stays, none is left
//! locked or shut, and the pass's view has the word for which it stays, as it was seen, and why; its pointer names the
//! snapshot's page beside it, unless it stays since that pointer had changed, and then it isn't gone into. Once in some
//! 512 pages the calling thread gives its core away, when none of its pages is locked or shut. A page of another kind is
//! compared by the same words (`word_at`, `word_of`), and noted as kept by the same step (`keep`). A call over pages of
//! several kinds is made of the same parts (`begin`, `visit_root`, `count`).
#![tactic(auto)]

mod calls;
mod dropping;
mod inner;
mod law;
mod laws;
mod leaves;
mod noting;
mod records;
mod visits;

pub use calls::{Dropped, begin, count, drop_all, visit_root};
pub use noting::Kept;
pub use records::{keep, word_at, word_of};
pub use visits::Held;
