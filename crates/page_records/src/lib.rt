//! Steps on records, in pages of slots that a pass holds: the reads of those of arrays, and all else of those of arrays
//! and trees.
//!
//! Promises: each step keeps the rule of engine_pages (`Shows`). What is seen of an array's record without a lock is the
//! last decided write of its key (`see`); a value that was loaded between two loads of one record word belongs to it
//! (`load_value`, `confirm`); a record is locked exactly where its word was the expected one (`lock`), and is changed and
//! opened by its holder alone (`put`, `open_again`, `open_anew`). A transaction begins with a load of the clock (`begin`);
//! its attempt takes the next number (`draw`), and counts (`decide`) once each of its parts was found as it was seen, or
//! under an own lock at its place (`check`). One that ends before (`forget`) is refused only for what its pass met: so a
//! conflict at an array's record is with another seat, which has taken a lock of that key.
//! A place is told at run time, or picked for the proof alone (`lock_as`), where it follows from what else is told.
//! Terms: *record word*, the number of the last write, a lock bit, and in a tree the bit of absence; *place*, a slot and an
//! index in its page.
//! Layout: specs/Reads.antt, Locks, Attempts and Ends, what steps tell. In proofs/ `Leaves` says what a way tells of an
//! array's record and `TreeLeaves` what a known leaf does of a tree's, `AnyRecord` what the steps need of either;
//! `Placing` and `TreePlacing` have one place that changes, `Commits` what that leaves of pages, `Touching` and
//! `TreeTouching` what of who is in the way; `Looks` makes a stride of a load, `Contents` has what stands at keys,
//! `Undecided` what stands under a lock, `WordTells` how words tell versions; each step has a file.
//! Design: docs/PAGES.md and docs/COMMIT.md.
#![tactic(auto)]

mod attempts;
mod ends;
mod law;
mod laws;
mod locking;
mod reading;

pub use attempts::{check, check_as, decide, draw, draw_as};
pub use ends::{begin, forget};
pub use law::{Compared, Placed, Writing};
pub use locking::{
    LOCK, lock, lock_as, open_again, open_again_as, open_anew, open_anew_as, put, put_as,
};
pub use reading::{confirm, load_value, load_word, load_word_as, see};
