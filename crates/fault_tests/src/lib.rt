//! Calls over devices of which one fails at a call, or stops at it and all behind it, or whose bytes were changed, and
//! over streams that fail: what is told, and what is kept. Texts, statuses, formats and what a stop may leave are those
//! of the program's description.
//!
//! `troubles` has what devices hold, and calls over them with a trouble of one; `images` what a stop may leave of a
//! device, by the calls that it recorded. `failing_devices` has tables of what is told as one call after another fails,
//! with rows of `failing_gleans`, for snapshots, and `brief_runs`, in brief; `failing_calls` the same for each object
//! in turn, streams too; `failing_workers` that others go on. `stops` stops a device at each of its calls, and runs on.
//! `damage` has changed bytes. Stops of all devices at once, at any moment and beside lines that run, are tried on the
//! real program by `tests/stop_images.py` and `tests/kill.py`.
//!
//! They stand in a crate above those that they test, because a crate with tests is proved a second time. All of it is
//! for tests alone: without them the crate is empty.
#![tactic(auto)]

#[cfg(test)]
mod brief_runs;
#[cfg(test)]
mod damage;
#[cfg(test)]
mod failing_calls;
#[cfg(test)]
mod failing_devices;
#[cfg(test)]
mod failing_gleans;
#[cfg(test)]
mod failing_workers;
#[cfg(test)]
mod images;
#[cfg(test)]
mod stops;
#[cfg(test)]
mod troubles;

#[cfg(test)]
use call_fixtures::*;
#[cfg(test)]
use log_writer::{Records, Vault};
#[cfg(test)]
use outside::{Disk, FuseDisk, Made, MemDisk, MemSink, OpenGate};
#[cfg(test)]
use std::alloc::{AllocError, Global};
#[cfg(test)]
use std::sync::Wait;
#[cfg(test)]
use std::test::Fail;
#[cfg(test)]
use std::thread::Threads;
#[cfg(test)]
use troubles::*;
