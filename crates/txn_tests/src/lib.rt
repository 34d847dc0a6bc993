//! Schedules of transactions, worked by hand, made from numbers and run in threads.
//!
//! Promises: `Workers` has an engine with one array, storage 1, and a tree, storage 2, the keeper's pass and at most
//! eight workers. It makes their calls in whatever order they are asked for; one that may not be made where a worker's
//! transaction stands is answered `Wrong`, and is not made (`AreWorkers`). Between them the keeper may take pages of the
//! array out of memory. `Hands` is the same of slots alone: passes that are given slots, publish them, give them up, and
//! hold them (`AreHands`). So tests ask for nothing, and are proved in seconds.
//! Terms: *call*, what a worker is asked for; *phase*, where its transaction stands; *hold*, to lock key 0 by hand;
//! *hand*, a pass that has one slot at most, and holds one at most.
//! It stands above the crates that it tests, because a crate with tests is proved a second time; and all but the types
//! that its definitions speak of is for tests alone, so that without them there is next to nothing to prove.
//! Design: docs/COMMIT.md and docs/PAGES.md.
#![tactic(auto)]

#[cfg(test)]
mod drop_tests;
mod hand;
#[cfg(test)]
mod hands;
#[cfg(test)]
mod one_key;
#[cfg(test)]
mod page_tests;
#[cfg(test)]
mod plays;
#[cfg(test)]
mod seating;
#[cfg(test)]
mod slot_tests;
#[cfg(test)]
mod slots;
#[cfg(test)]
mod tests;
mod worker;
#[cfg(test)]
mod workers;

pub use hand::{Hand, Slot};
#[cfg(test)]
pub use hands::Hands;
#[cfg(test)]
pub use plays::{Answer, Call, Work};
#[cfg(test)]
pub use slots::{Deed, Gave};
pub use worker::{Phase, Plan, Worker};
#[cfg(test)]
pub use workers::Workers;
