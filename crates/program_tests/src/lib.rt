//! The program over a folder, its gate, and its examples, with no trouble of a device. Texts and statuses are those of the
//! program's description.
//!
//! The files of its database (`folders`), its words, and what it explains (`programs`). Lines on threads, held by a gate:
//! that two workers overlap, and the maintenance thread's lines workers' (`beside`), the gate stands round each (`gates`),
//! and a round's lines are written before the next one begins (`written_rounds`). `dumps` is what a vault keeps, as text,
//! and `examples` the scripts of the folder examples.
//!
//! They stand in a crate above those that they test, because a crate with tests is proved a second time; `call_tests` has
//! tables of calls, `fault_tests` troubles of devices, as crates are proved side by side. All of it is for tests alone:
//! without them the crate is empty.
#![tactic(auto)]

#[cfg(test)]
mod beside;
#[cfg(test)]
mod dumps;
#[cfg(test)]
mod examples;
#[cfg(test)]
mod folders;
#[cfg(test)]
mod gates;
#[cfg(test)]
mod programs;
#[cfg(test)]
mod written_rounds;

#[cfg(test)]
use call_fixtures::*;
#[cfg(test)]
use log_writer::Vault;
#[cfg(test)]
use outside::{Disk, MemDisk, MemSink, OpenGate, SureSource};
#[cfg(test)]
use std::alloc::{AllocError, Global};
#[cfg(test)]
use std::sync::Wait;
#[cfg(test)]
use std::test::Fail;
#[cfg(test)]
use std::thread::Threads;
