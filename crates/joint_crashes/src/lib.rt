//! What a stop of all devices at once leaves of a database, and the writes that keep it one savepoint's.
//!
//! A database lies on 18 devices, and a stop meets each of them at a moment of its own. Which images stand together is
//! told by what was recorded of its stores and cuts (`IsJointCrash` in `specs/JointCrash.antt`); a *story* says of each
//! savepoint what it counts, and each joint crash stands for one of them (`specs/Story.antt`, `specs/Crashes`).
//!
//! Promises:
//! - [`store_and_cut`] and [`cut_banks`]: each joint crash stands for one savepoint, and what was a joint crash
//!   is one (`crashes` of `StoresAndCuts`, `cut` of `CutsBanks`, both in `specs/Calls.antt`); a fault is answered
//!   only where that device's count of faults rose, and where the answer is `Ok` none did (`quiet`).
//!
//! - [`take_over`]: a database is made ready to be changed, whoever used it last: behind `Ok` nothing of it is pending, and
//!   each device tells what it told (`TakesOver` in `specs/Synced.antt`). [`sync_all`] syncs each device and writes none.
//!
//! Its specs/ say when nothing that counts is pending (`IsResting`), what only reads all devices (`VaultOnlyReads`), and
//! how marks, saves, stores and cuts go on with a story, for those who write to the devices of a database.
//!
//! Design: docs/DURABILITY.md.
#![tactic(auto)]

mod cutting;
mod settling;
mod syncing;

pub use cutting::cut_banks;
pub use settling::{BANKS, StoreAndCutFault, store_and_cut};
pub use syncing::{sync_all, take_over};
