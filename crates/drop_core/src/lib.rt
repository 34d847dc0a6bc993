//! Pages in memory over snapshot pages, as a pure machine: which slot may be given, where a pointer may lead, and
//! where each key's record stands after it.
//!
//! Promises: under every list of events, of any number of seats, each key has one home, to which the pointers lead
//! from its storage's root; live pointers lead to published slots, each slot from one place; and no slot is given
//! while a seat holds it (`pages_stay_sound`). `DropCore::step` follows the same condition and effect that the
//! theorem speaks of, and answers the moves of keys that the event is: it refuses exactly where the condition
//! fails, wants memory only where the act is allowed and takes some, and after either nothing is changed (`event`).
//! Who keeps pages beside another machine makes the acts that move keys in two steps: what that comes to, which changes
//! nothing (`prepare_install`, `prepare_swing`, `prepare_swing_chain`, `prepare_key`, `prepare_split`), and to put it, which
//! takes no memory (`put`).
//! What a seat holds of headers and pointers stays through each act of another (`each_act_leaves_held`), so that it may
//! open them without a look; and so do slots that it made (`each_act_leaves_made`).
//! Invariants: the sound state (`IsSound`): `one_home_each`, `holds_counted`, `snapshots_fixed`; who holds headers and
//! pointers is a seat (`held`), slots below the room alone are given (`within`), and each slot that was made or taken away
//! is noted by one seat (`noted`). It speaks of the homes of keys, which the machine of commits keeps; what stands there
//! and who has it locked is not known here.
//! Terms: *slot*, a place for a page in memory; *live*, led to from a root; *grip*, what one seat has of the pages;
//! a *snapshot page* never changes, once it is published; a *header* says how many records a tree's leaf has; a leaf that
//! was *split* leads to its two *halves*; a *chain* is such a leaf with all that came of it.
//! Layout: `Table` says what there is, `Event` what may happen, `Sound` what holds and `Law` the theorem, all in
//! specs/; proofs/ has a file for each kind of act, and `Runs`, the induction over lists.
//! Design: docs/PAGES.md.
#![tactic(auto)]

mod acts;
mod chains;
mod event;
mod grip;
mod law;
mod leaves;
mod machine;
mod queries;
mod shapes;
mod stands;
mod swaps;
mod table;

pub use chains::prepare_swing_chain;
pub use event::{Act, Chain, Event, NotAllowed, Twins};
pub use grip::{Grip, has_slot};
pub use law::pages_stay_sound;
pub use leaves::{can_add, prepare_key, prepare_split};
pub use machine::{DropCore, apply};
pub use queries::{child_of, leaf_home};
pub use swaps::{Numbers, Swap, prepare_install, prepare_swing, put};
pub use table::{Led, Page, Pointer, Slot, SlotState, SnapPage, Table};
