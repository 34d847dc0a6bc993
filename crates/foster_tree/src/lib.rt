//! Leaves of trees in pages that grow: keys that are added, and full leaves that are split into two.
//!
//! Promises: `add_key` adds a key to a leaf that has it not and has room for it, under the lock of the leaf's header;
//! the key's record is absent, so no key's content changes, and what the transaction has kept of the leaf goes on with
//! it (`added`). It is refused where the header has changed, and leaves all else as it was (`cause`). `split` splits a
//! full leaf with one key more: at one step the leaf leads to two halves, which have its records as they were read
//! under their locks, and the key's, absent; the half that is made for the key is held (`split`). A split that is
//! refused, since the header or a record has changed, no slot is given or the holds are full, leaves nothing locked and
//! nothing made (`missed`). Of the leaf's records a split locks each once, in their order; one that is refused those
//! before the record that was in the way, or all where no slot was given. A slot that is taken for a leaf is published
//! as one with just the records that are given (`make_leaf`).
//! Terms: *header*, the first word of a leaf: how many records it has, and whether it is locked or was split; *absent*,
//! of a record whose key has no value; *half*, one of the two leaves that have the keys of one that was split;
//! *separator*, the first key of the second half.
//! Layout: specs/Entries.antt, records on their way into a page; specs/Filling.antt, a page that is filled;
//! specs/Causes.antt and Adding.antt, what a key that is added comes to; specs/Locking.antt, records that are locked
//! and read; specs/Splitting.antt, what a split comes to. In proofs/ `WordLaws` has the words of a leaf, `FillLaws` a
//! page that is filled and published, `StoreLaws` and `AddLaws` what is stored under a lock; the laws on `Lock`, `Open`
//! and `Refuse` are of records' locks, `OrderLaws`, `PartLaws`, `MoveLaws` and `PlaceLaws` of the records that move,
//! `HalfLaws` of both halves that are made, `TurnLaws`, `TurnedLaws` and `AfterTurn` of the step that splits,
//! `UnderLock` and `SplitLaws` of the whole.
//! Design: docs/TREES.md, and docs/PAGES.md on pages in slots.
#![tactic(auto)]

mod adding;
mod entries;
mod filling;
mod locking;
mod splitting;

pub use adding::add_key;
pub use entries::Entry;
pub use filling::make_leaf;
pub use locking::moved_record;
pub use splitting::split;
