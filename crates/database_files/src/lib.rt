//! The files of a database, one for each device, in a folder.
//!
//! Promises: a vault that is opened is whole (`open_vault`, `no_vault`); a device that is told to be missing is the one
//! that was asked for, and a file has the name of its device (`device_path`); no file of a database has the place of a
//! standard stream (`open_apart`). That files are locked, made and found as they are is seen by tests alone, since no
//! clause says what the system's calls do. The same holds of what else is done by them: nothing but regular files is
//! opened, no two devices have one file, names are synced before anything is written, and nothing is removed or cut
//! that the call didn't make.
//! Terms: *folder*, the directory of a database; *draft*, the savepoint's file before it has its name.
//!
//! Design: docs/ARCHITECTURE.md.
#![tactic(auto)]

mod files;
mod kinds;
mod misplaced;
mod not_opened;
mod opening;
mod paths;
mod save_file;
mod streams;

pub use files::{Opened, no_vault, open_vault};
pub use not_opened::{NotOpened, Why};
pub use opening::Access;
pub use paths::device_path;
pub use streams::{Places, fill_places};
