//! Whole calls over disks in memory, one line after another, with no trouble of a device. Texts and statuses are those of
//! the program's description.
//!
//! `calls` has tables of them, with rows of `brief`, `kept_runs`, `gleans`, `listings`, `slots`, `drops` and `trees`, which
//! have long runs too. Those of `brief` and `slots` run lines of eight workers at once, whose sums are known. What eight
//! workers' lines come to otherwise, `tests/random_runs.py` and `tests/large_tree.py` replay by a serial model of their
//! own, from the text of the real program.
//!
//! They stand in a crate above those that they test, because a crate with tests is proved a second time; `program_tests`
//! has what the program does over a folder and under a gate, `fault_tests` troubles of devices, as crates are proved side
//! by side. All of it is for tests alone: without them the crate is empty.
#![tactic(auto)]

#[cfg(test)]
mod brief;
#[cfg(test)]
mod calls;
#[cfg(test)]
mod drops;
#[cfg(test)]
mod gleans;
#[cfg(test)]
mod kept_runs;
#[cfg(test)]
mod listings;
#[cfg(test)]
mod slots;
#[cfg(test)]
mod trees;

#[cfg(test)]
use call_fixtures::*;
#[cfg(test)]
use log_writer::Vault;
#[cfg(test)]
use outside::{MemDisk, OpenGate};
#[cfg(test)]
use std::alloc::{AllocError, Global};
#[cfg(test)]
use std::sync::Wait;
#[cfg(test)]
use std::test::Fail;
#[cfg(test)]
use std::thread::Threads;
