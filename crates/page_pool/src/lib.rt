//! The slots that pages in memory lie in: who holds one, and which one is given next.
//!
//! Promises: `give` takes the first usable slot, one that no pass holds; it answers `Full` exactly where no slot word
//! that it loaded was usable, one for each slot, and `Changed` where its one compare_exchange saw another word. To hold,
//! leave, publish and retire a slot can't fail (`enter`, `leave`, `publish_copy`, `publish_blank`, `retire`).
//! Terms: *usable*, a slot that is free or retired, that nobody holds, and that was given fewer than 2^46 - 1 times.
//! Layout: specs/Pool.antt, what a call tells.
//! Design: docs/PAGES.md.
#![tactic(auto)]

mod pool;

pub use engine_pages::{enter, leave, publish_blank, publish_copy, retire};
pub use pool::{PoolRefusal, give};
