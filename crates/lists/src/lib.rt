//! Lists in memory that contracts see as lists, laws of lists, and want of memory as an error.
//!
//! Promises: a `Sequence` is the list of its items, and after want of memory it is as it was; `?` makes `Memory` of
//! each refusal of the standard library's (`From`).
//! Laws, which the crates above cite: specs/Fronts.antt, what a list begins with; specs/Each.antt, a fact of each
//! item; specs/Elements.antt, which items a list has, at an index and by a test.
#![tactic(auto)]

mod memory;
mod sequence;

pub use memory::{Memory, OrMemory};
pub use sequence::Sequence;
