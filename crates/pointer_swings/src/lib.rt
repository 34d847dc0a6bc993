//! Steps of the maintenance thread that take a page out of memory, beside transactions that run.
//!
//! Promises: each step keeps the rule of engine_pages (`Shows`), so that no key's content changes by it. A pointer is
//! shut and opened again (`shut`, `reopen`); one that leads to a slot names another snapshot page (`renew`); one whose
//! page the pass has locked or shut, with what the snapshot page says, is led from the slot to that page (`swing`): an
//! array's page, or a leaf or an interior page of a tree; and what was locked and shut in the slot's page stays so
//! until the slot is given again. A load of a snapshot page's pointer makes the page below known (`descend`,
//! `descend_tree`), and what was seen is let go (`let_go`). Words are changed where they are the expected ones, by one
//! try.
//! Terms: *swing*, a pointer leads from a slot to a snapshot page; *renew*, it names another snapshot page beside its
//! slot; *shut*, nobody may change it but the pass that has shut it; *gone*, a slot's page from which what led to it
//! was taken away.
//! Layout: specs/Shuts.antt, Renewals, Swings and Children, what the steps ask and tell. In proofs/ `Repoints` has what a
//! step changes of the table and of the words (`Repointed`), where any pages are gone, also those of leaves that were
//! split; `Steps` makes the rule after the step of it, `Plain` that of a step by which no slot is gone; `Misses` has a
//! compare_exchange that found another word; of the swing `Locked` has what stands in a locked leaf, `MovesDown` its
//! moves, `SwingFacts` the table that is left, `SwingInner` the tests of an interior page, `Swinging` the step of an
//! array's page; of trees `KeysDown` has the moves, `LeafPage` what a snapshot page has, `LeafSwings` and `BranchSwings`
//! the steps; each other step has a file.
//! Design: docs/PAGES.md.
#![tactic(auto)]

mod children;
mod law;
mod laws;
mod renewals;
mod shuts;
mod swings;

pub use children::{descend, descend_tree, let_go};
pub use renewals::renew;
pub use shuts::{reopen, shut};
pub use swings::swing;
