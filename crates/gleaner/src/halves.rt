// The last entries of the closed log files, by two mappers and two reducers in threads.
ghost use Rattle.std.specs.Prelude.{◌≡◌, ◌≢◌, ◌<◌, ◌^◌, ◌++◌, ℕ, List, Option, None, Some, IfErr, IfOk, OnOk};
ghost use Rattle.std.specs.Prelude.{length, slice_get};
ghost use Rattle.std.specs.List.{AllByRecursion};
ghost use Rattle.outside.specs.Reads.{OnlyReads};
ghost use Rattle.wire_form.specs.declared.bucket.Bucket.{Bucket as TheBucket};
ghost use Rattle.bucket_queues.specs.Threads.{AreGathered};
ghost use Rattle.gleaner.specs.Glean.{AreMappedFiles};
ghost use Rattle.gleaner.specs.Halves.{AreMappedFrom, IsHalf, LeavesHalf, RefusesFiles, RefusesHalves, beside_of, failed_in, told_of};
ghost use Rattle.gleaner.specs.Halves.{fault_or_memory as told_in};
ghost use Rattle.gleaner.specs.declared.gleaning.GleanFault.{GleanFault as TheFault};

use crate::GleanFault;
use crate::closed::Closed;
use crate::mapping::HalfMapper;
use bucket_queues::{Stopped, through_queues};
use lists::OrMemory;
use outside::{Device, Disk};
use serial_model::Decl;
use std::alloc::Global;
use std::sync::Wait;
use std::thread::Threads;
use wire_form::Run;

/// Why no run was made: what is told, and the log file of the other mapper that failed beside it, if one did.
#[derive(Clone, Copy)]
pub(crate) struct Refusal {
    pub fault: OrMemory<GleanFault>,
    pub beside: Option<Device>,
}

/// The last entries of the closed log files with epochs above the newest snapshot's. The fault of the lowest log file that
/// has one is told.
pub(crate) fn run_of_closed<R: Threads + Wait + Sync, D: Disk + Send>(
    rt: &R,
    alloc: Global,
    files: &mut [D],
    closed: &Closed,
    decls: &[Decl],
    after: u32,
) -> Result<Run, Refusal>
    requires workers { length files.old ≡ 8 }
    requires counted { AllByRecursion (λ n. n < 2 ^ 40) closed.now.lengths }
    ensures mapped { IfOk result (λ run. (buckets : List TheBucket)
        × AreMappedFiles D.tells closed.now decls.now after 8 files.old buckets × AreGathered buckets run) }
    ensures refused { IfErr result (λ refusal. RefusesFiles D.tells D.faults closed.now decls.now after
        files.old files.new refusal.fault refusal.beside) }
    ensures quiet { OnOk result ((worker : ℕ) (was is : D) → slice_get files.old worker ≡ Some was
        → slice_get files.new worker ≡ Some is → D.faults is ≡ D.faults was) }
    ensures reads { (worker : ℕ) (was is : D) → slice_get files.old worker ≡ Some was
        → slice_get files.new worker ≡ Some is → OnlyReads D.tells D.clock D.image_at D.faults was is }
    ensures length { length files.new ≡ length files.old }
{
    let (front, back) = files.split_at_mut(4);
    run_of_halves(rt, alloc, front, back, closed, decls, after)
}

// The last entries of both halves.
fn run_of_halves<R: Threads + Wait + Sync, D: Disk + Send>(
    rt: &R,
    alloc: Global,
    front: &mut [D],
    back: &mut [D],
    closed: &Closed,
    decls: &[Decl],
    after: u32,
) -> Result<Run, Refusal>
    requires front { IsHalf closed.now 0 front.old }
    requires back { IsHalf closed.now 4 back.old }
    ensures mapped { IfOk result (λ run. (low high : List TheBucket)
        × AreMappedFrom D.tells closed.now decls.now after 0 4 front.old low
        × AreMappedFrom D.tells closed.now decls.now after 4 4 back.old high × AreGathered (low ++ high) run) }
    ensures reads { (low high : Option TheFault)
        × LeavesHalf D.tells D.clock D.image_at D.faults closed.now decls.now after 0 front.old front.new low
        × LeavesHalf D.tells D.clock D.image_at D.faults closed.now decls.now after 4 back.old back.new high }
    ensures fine { OnOk result (
        LeavesHalf D.tells D.clock D.image_at D.faults closed.now decls.now after 0 front.old front.new None
        × LeavesHalf D.tells D.clock D.image_at D.faults closed.now decls.now after 4 back.old back.new None) }
    ensures refused { IfErr result (λ refusal. RefusesHalves D.tells D.clock D.image_at D.faults closed.now decls.now after
        front.old front.new back.old back.new refusal.fault refusal.beside) }
{
    let low = HalfMapper {
        alloc,
        closed: *closed,
        decls,
        after,
        first: 0,
    };
    let high = HalfMapper {
        alloc,
        closed: *closed,
        decls,
        after,
        first: 4,
    };
    match through_queues(rt, alloc, &low, &high, front, back, wanted(decls)) {
        Ok(run) => Ok(run),
        Err(Stopped { low, high }) => Err(refusal_of(low, high)),
    }
}

// How many buckets each reducer waits for: one of each log file for each storage of its queue.
fn wanted(decls: &[Decl]) -> [u32; 2] {
    let many = decls.len().min(256) as u32;
    [8 * many.div_ceil(2), 8 * (many / 2)]
}

// What is told of two mappers' answers, and what failed beside it.
fn refusal_of(
    low: Result<(), OrMemory<GleanFault>>,
    high: Result<(), OrMemory<GleanFault>>,
) -> Refusal
    ensures fault { result.fault ≡ told_of low high }
    ensures beside { result.beside ≡ beside_of low high }
{
    match low {
        Err(fault) => Refusal {
            fault,
            beside: device_of(high),
        },
        Ok(()) => Refusal {
            fault: fault_or_memory(high),
            beside: None,
        },
    }
}

// The fault of an answer, or else want of memory.
fn fault_or_memory(answer: Result<(), OrMemory<GleanFault>>) -> OrMemory<GleanFault>
    ensures { result ≡ told_in answer }
{
    match answer {
        Err(fault) => fault,
        Ok(()) => OrMemory::Memory,
    }
}

// The device that an answer tells as failed.
fn device_of(answer: Result<(), OrMemory<GleanFault>>) -> Option<Device>
    ensures { result ≡ failed_in answer }
{
    match answer {
        Err(OrMemory::Fault(GleanFault::Device(device))) => Some(device),
        Err(_) | Ok(()) => None,
    }
}
