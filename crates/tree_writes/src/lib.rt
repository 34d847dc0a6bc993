//! Operations of transactions that write keys of trees, over pages that threads share.
//!
//! Promises: `write` sets a key's value for the transaction alone, as the serial step has it (`done`); `add` and `take`
//! alter the value that the transaction wrote last or first read, or end the transaction where the result is none
//! (`turns`). The pages on the way to the key are brought into memory, and a leaf that lacks the key gets it, with an
//! absent record; a full leaf is split. Where the transaction keeps the header of the leaf, it goes on with the header
//! as it is then, and with the new record among those that it read. An operation that goes on has locked no record, but
//! for a full leaf that was split: each of its records once, and the sets name no word of that leaf's page (`locks`).
//! Where they name one, since the transaction keeps the leaf's header, or has read or writes one of its records, it is
//! refused behind the split, at that word. The record that is kept of a key which wasn't written before was read, or
//! stands in a leaf that was last seen unsplit, or in the half of the leaf that was split for it (`whole`). Each refusal
//! tells its cause (`cause`) and ends the transaction (`refused`), and each operation takes so many steps at most
//! (`most`).
//! Layout: specs/Causes.antt, why an operation is refused; specs/Writing.antt, what parts of one leave.
//! Design: docs/TREES.md, docs/COMMIT.md.
#![tactic(auto)]

mod growing;
mod making;
mod removing;
mod writing;

pub use removing::remove;
pub use writing::{add, take, write};
