//! The traits by which the engine meets the world outside: disks, with what a stop of the machine may leave of
//! them, streams of bytes, and a gate that holds workers in tests; and the objects that have them.
//!
//! Promises, each a clause of the trait that it is about:
//!
//! - A fault is answered only where the object's count of faults rose in the call, or stands at the last value
//!   that a `u64` has; where a call answers `Ok` the count stands still; and no count falls (`cause`, by
//!   `HasCause` in `specs/Faults.antt`). Generic code can't raise a count, so a caller that shows one shows
//!   that the outside failed, and a call that failed and was made again can't be passed off as one that was
//!   done.
//! - A [`Source`] gives its bytes in order and loses none to a fault (`bytes`).
//! - A [`Sink`] holds what it held, and then the bytes (`written`), or after a fault a prefix of them
//!   (`prefix`).
//! - A [`Disk`] reads as it was written (`value`, `written`, `cut`). A write or a cut that failed may be done
//!   in part, and leaves the bytes outside of its range (`torn`). What each of its calls does to its clock, to
//!   its count of faults and to what a stop may leave is one record (`goes`, by `Calls` in `specs/Disk.antt`):
//!   the clock counts begins and ends of calls; the moments before a call keep their images; at those of the
//!   call a stop leaves what it could leave as the call began, after a step of the call, and each such step may
//!   be left. After a sync that answered `Ok` a stop leaves what reads give (`durable`); one that failed
//!   settles nothing (`unsettled`). A disk as it reads is always one of its images (`reads`).
//! - A [`MemDisk`] fails at a call that it was told to fail, else only where there is no room for the call, and
//!   records each call that it made, in order, and no other (`recorded`, by `IsRecorded` in
//!   `specs/Listed.antt`). A [`FuseDisk`] takes a pass for each call, and once none is left each call fails and
//!   changes nothing (`fused`, by `IsFused` in `specs/Fuse.antt`). Tests of stops stand on both.
//!
//! Laws for those who use a disk stand in `specs/Ranges.antt` (what a write leaves), `specs/Moments.antt` (how
//! images go on), `specs/Fronts.antt` (what all images begin with) and `specs/Growth.antt` (how a log file
//! grows between two cuts).
//!
//! Terms: the bytes that a disk *tells* are those that reads give, where anything is known of them; the objects
//! in memory tell theirs, and those over the system tell none, so that their calls promise no more than counts.
//! A *moment* is a value of a disk's clock, between two calls or within one. An *image* of a moment is a
//! content that the device may have after a stop at that moment. A disk is *settled* where a stop now leaves
//! what reads give, and nothing else.
//!
//! The objects: [`SureSource`], [`MemSource`], [`MemSink`] and [`MemDisk`] in memory, of which all but the
//! first fail at the calls of chosen numbers; [`FuseDisk`], which fails at each call after some; [`StdSource`],
//! [`StdSink`] and [`FileDisk`] over the system. The images of a `MemDisk` are had by going through its calls
//! again (`specs/Replay.antt`), and those of a `FileDisk` are any bytes. Of files and terminals nothing is
//! proved but that each fault is counted: a file's calls stand in five functions of one line each
//! (`system_file.rt`), in which each refusal of the system raises the count, so that no call of a [`FileDisk`]
//! answers `Ok` past one. That these five hand on what the system answers is seen by tests alone.
//!
//! Design: docs/DURABILITY.md.
#![tactic(auto)]

mod answers;
mod call;
mod device;
mod disk;
mod fault;
mod file_disk;
mod fuse_disk;
mod gate;
mod memory_disk;
mod memory_sink;
mod memory_source;
mod retry;
mod sink;
mod source;
mod std_sink;
mod std_source;
mod sure_source;
mod system_file;

pub use call::{Call, Made};
pub use device::Device;
pub use disk::Disk;
pub use fault::Failed;
pub use file_disk::FileDisk;
pub use fuse_disk::FuseDisk;
pub use gate::{Gate, OpenGate};
pub use memory_disk::MemDisk;
pub use memory_sink::MemSink;
pub use memory_source::MemSource;
pub use sink::Sink;
pub use source::Source;
pub use std_sink::StdSink;
pub use std_source::StdSource;
pub use sure_source::SureSource;
