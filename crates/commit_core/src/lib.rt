//! Optimistic commit as a pure machine: no threads, no words, only what may happen and what holds whenever it does.
//!
//! Promises: under every list of events, of any number of seats, the decided attempts are, in order of number, a
//! serial run in which each read what it kept (`commits_are_serial`), while keys move from home to home. `Core::step`
//! follows the same condition and effect that the theorem speaks of: it refuses exactly where the condition fails,
//! wants memory only where the act is allowed and takes some, and after either nothing is changed (`event`).
//! `Core::serial` gives that run (`all`, `serial`).
//! What words other than a record's say is told by the layer above, and the laws have it as a premise (`IsToldTruly`).
//! Invariants: the sound state (`IsSound`): `ordered_numbers`, `lock_owners`, `unlocked_homes`, `locked_homes`,
//! `reads_stay_true` with its other half `no_lower_writer`, `commits_are_checked` and `marks_are_past`, and, to make
//! these hold by themselves, `homes_alive`, `homes_apart`, `attempt_stands`, `tries_go_on`, `tries_kept`,
//! `parts_are_past`, `kept_is_past`, `kept_fits`, `checks_are_past`, `given_up_stay_out`, `horizon_is_past`,
//! `epoch_fits`, `holders_are_seats`. Each is a fact of the story alone or of one seat beside it.
//! Terms: *story*, what all seats share; *seat*, what one thread has; *attempt*, a transaction that took its number,
//! with the parts that it read and what it writes; *part*, a word that was read and must stay valid, and what it
//! vouches for; *home*, where a key's record is; *horizon*, what the number of each absence that was lost is at most.
//! Layout: `Event` says what may happen, `Sound` what holds, `Law` the theorem and `Lemmas` what proofs above cite, all
//! in specs/; proofs/ has one file for the laws of each part, one in proofs/Events for the acts that change the same
//! fields, and `Runs`, the induction over lists.
//! Design: docs/COMMIT.md.
#![tactic(auto)]

mod acts;
mod attempt;
mod event;
mod law;
mod machine;
mod moves;
mod part;
mod place;
mod seat;
mod story;

pub use acts::rehome;
pub use attempt::{Attempt, Check};
pub use event::{Act, Event, NotAllowed};
pub use law::commits_are_serial;
pub use machine::{Core, act};
pub use moves::can_move;
pub use part::{Part, Version, Word};
pub use place::{Place, is_open_to};
pub use seat::{Mark, Seat, Stage, with_part};
pub use story::{FirstDraw, Story};
