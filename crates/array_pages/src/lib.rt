//! The records of arrays, in pages of slots over the pages of a snapshot.
//!
//! Promises: `find` tells where the record of a key is, which was live and as told at the step that loaded the word,
//! and keeps the part that vouches for it (`found`); `read_at` tells the same of one in a page that the pass holds;
//! `make_volatile` brings each page on the way to a record into memory, copied from the snapshot page or empty, and
//! changes no key's content: each slot that it was given leads somewhere then, or was given up (`made`, `can`). The two
//! walks come to pages on the way to the key alone (`only`, `led`), by so many steps at most (`most`), hold at most
//! three slots more (`grows`), and are refused only for the causes that they tell (`cause`).
//! Terms: *way*, a slot that the pass holds with the keys of its page; *level*, how many pages stand between a page and
//! the records: a leaf is at level 0, and an array's root at level 0 to 2; *to leave memory*, to come to a pointer that
//! leads to no slot: it is kept, and stands for all keys below it.
//! Layout: specs/Spans.antt, which keys a page is over, and the bounds; specs/Walks.antt, what a walk leaves and why it
//! is refused; specs/Finding.antt and Making.antt, what the two calls tell. In proofs/ `DeclLaws` has the declared
//! storages, `SpanLaws` the keys of pages, `PageLaws` the way down a snapshot's pages, `WalkLaws` what a walk leaves,
//! `ReadLaws` the words that were met; `ReachLaws` and `RecordLaws` a pointer and a record, `CopyLaws` and
//! `InstallLaws` a page that is put in; `FindLaws` and `MakeLaws` the two calls.
//! Design: docs/PAGES.md.
#![tactic(auto)]

mod copying;
mod finding;
mod making;
mod sizes;
mod snapshots;
mod storages;
mod walk;

pub use copying::{copy_page, give_slot};
pub use finding::{Found, find, read_at};
pub use making::make_volatile;
pub use storages::word_at;
pub use walk::{conflict, note_hold};
