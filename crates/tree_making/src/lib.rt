//! Pages of trees that are brought into memory: those on the way to a key, from the root down.
//!
//! Promises: `make_volatile` comes to the leaf in memory that the key belongs to, holds each page on the way, keeps
//! nothing, and tells the key's record or that the leaf has none (`made`); a page that wasn't in memory is a copy of
//! the snapshot's page, or an empty leaf. Each slot that it was given it has put in or given up (`can`). It is refused
//! only for the causes that it tells (`cause`), by so many steps at most (`most`).
//! Terms: *bare*, of a pointer that leads to no slot; *put in*, of a page to which a pointer leads from then on.
//! Layout: specs/Making.antt, what the whole asks and tells; specs/Pages.antt, one page that is made and put in;
//! specs/Rounds.antt, how many slots are left. In proofs/ `MakeLaws` puts parts behind one another, `SnapLaws` and
//! `StoredLaws` have the leaf of a snapshot, `PageLaws` a page that is made, `PutLaws` one that is put in, `BringLaws`
//! one below a pointer, `RoundLaws` all of them.
//! Design: docs/PAGES.md and docs/TREES.md.
#![tactic(auto)]

mod bringing;
mod making;
mod pages;

pub use making::{Made, make_volatile};
