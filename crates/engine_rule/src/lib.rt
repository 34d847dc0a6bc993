//! Commits and pages as one machine: transactions over records whose pages come and go under them.
//!
//! Promises: under every list of events, of any number of seats, both machines stay sound with the same homes of
//! keys, and so the decided attempts are, in order of number, a serial run from what the snapshot pages had; no slot
//! is given while a seat holds it; an act on pages changes no key's content, nor does a key that is added; and where
//! a word is as a seat kept it, what it vouched for is so now (`both_stay_sound`). `Joint::step` follows the same
//! condition and effect: it refuses exactly where the condition fails, wants memory only where the event is allowed
//! and takes some, and after either nothing is changed (`event`). `Joint::new` begins over the pages of a snapshot
//! (`opens`), soundly where they are pages for their ranges (`sound`); one page may stand for two. What an event of one
//! seat leaves of what another relies on is a law for all events (`each_event_leaves`).
//! Invariants: the sound state (`IsSound`): that of commits, that of pages with the homes that commits have, and what
//! needs both: `leaves_stay_dead`, `splits_stay_dead`, `kept` (`kept_is_held`, `kept_fits`).
//! Terms: *turn*, an act on pages; *shift*, a turn that moves keys; *word*, a record, a pointer or a header that was
//! read and must stay valid.
//! Layout: `JointState` says what of a word is compared, `Event` what may happen, `Sound` what holds, `Law` the
//! theorem, and `Reading` what the pages of a snapshot are to both machines, all in specs/. In proofs/ are `Events`
//! and `Growing` over the laws of both machines, `Stepping` for a step of the whole, and `ReadOpens` for a snapshot's
//! pages, each beside a file for each thing that it needs.
//! Design: docs/PAGES.md and docs/COMMIT.md.
#![tactic(auto)]

mod acts;
mod asks;
mod below;
mod entries;
mod event;
mod headers;
mod law;
mod machine;
mod opening;
mod pairs;
mod pointers;
mod reading;
mod shifts;

pub use commit_core::NotAllowed;
pub use event::{JointAct, JointEvent};
pub use law::both_stay_sound;
pub use machine::Joint;
