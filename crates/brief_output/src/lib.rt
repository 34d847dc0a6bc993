//! What a run comes to in short: how many transactions committed, the sum of all values that are kept, and the last
//! epoch that was made durable.
//!
//! Promises: a `Tally` counts exactly the commits of the rounds that were added to it, and has the last epoch that one
//! of them made durable (`adds`); `total_of` is the sum of all values of a state; `put_brief` adds exactly these
//! lines.
//! What is counted and printed: `specs/Brief.antt`.
#![tactic(auto)]

mod print;
mod tally;
mod total;

pub use print::put_brief;
pub use tally::Tally;
pub use total::total_of;
