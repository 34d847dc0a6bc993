// From the closed log files to the last entries of their keys, by two mappers and two reducers.
ghost use Rattle.std.specs.Prelude.{◌≡◌, ◌≢◌, ◌<◌, ◌≤◌, ◌+◌, ◌^◌, ℕ, List, Some, Err, OnOk};
ghost use Rattle.std.specs.Prelude.{get_or, length, slice_get};
ghost use Rattle.std.specs.List.{AllByRecursion};
ghost use Rattle.crossbeam_queue.specs.Passes.{view, IsPassOf};
ghost use Rattle.outside.specs.Disk.{IfTold};
ghost use Rattle.outside.specs.Reads.{OnlyReads};
ghost use Rattle.outside.specs.Faults.{Rose};
ghost use Rattle.outside.specs.declared.device.Device.TheVariants as devices;
ghost use Rattle.wire_form.specs.declared.bucket.Bucket.{Bucket as TheBucket};
ghost use Rattle.log_mapper.specs.Mapped.{IsDamaged};
ghost use Rattle.bucket_queues.specs.Threads.{fault_in, HasPut, IsSameMapper};
ghost use Rattle.gleaner.specs.Glean.{IsMappedFile, IsReadFault};
ghost use Rattle.gleaner.specs.Glean.{bank_of as number_of};
ghost use Rattle.gleaner.specs.GleanLeaves.{ChangesAt};
ghost use Rattle.gleaner.specs.Halves.{AreMappedFrom, IsHalf, LeavesHalf};

use crate::GleanFault;
use crate::closed::{Closed, bank_of};
use bucket_queues::{BucketQueue, Mapper, Maps, map_into};
use lists::OrMemory;
use log_mapper::MapFault;
use outside::{Device, Disk};
use serial_model::Decl;
use std::alloc::Global;
use std::sync::Wait;

/// Maps the closed log files of four workers, from this one on, with the entries of epochs above the newest snapshot's.
#[derive(Clone, Copy)]
pub(crate) struct HalfMapper<'a> {
    pub alloc: Global,
    pub closed: Closed,
    pub decls: &'a [Decl],
    pub after: u32,
    pub first: usize,
}

impl<'a, R: Wait, D: Disk> Maps<R, D, GleanFault> for HalfMapper<'a> {
    ghost use Rattle.gleaner.specs.Halves.{AreMappedFrom, IsHalf, LeavesHalf};

    ghost can = { λ it files. IsHalf it.closed it.first files };

    ghost made = { λ it old new buckets. AreMappedFrom D.tells it.closed it.decls.now it.after it.first 4 old buckets };

    ghost leaves = { λ it old new fault. LeavesHalf D.tells D.clock D.image_at D.faults it.closed it.decls.now it.after
        it.first old new fault };

    fn map(
        &self,
        rt: &R,
        files: &mut [D],
        even: &BucketQueue,
        odd: &BucketQueue,
        mapper: &mut Mapper,
    ) -> Result<(), OrMemory<GleanFault>> {
        map_half(rt, self, files, even, odd, mapper)
    }
}

// Maps the closed log files of a half, one after another.
fn map_half<R: Wait, D: Disk>(
    rt: &R,
    half: &HalfMapper<'_>,
    files: &mut [D],
    even: &BucketQueue,
    odd: &BucketQueue,
    mapper: &mut Mapper,
) -> Result<(), OrMemory<GleanFault>>
    requires half { IsHalf half.now.closed half.now.first files.old }
    requires even { IsPassOf even.now mapper.old.at_even × (0 < (view mapper.old.at_even).parts) }
    requires odd { IsPassOf odd.now mapper.old.at_odd × (0 < (view mapper.old.at_odd).parts) }
    ensures same { IsSameMapper mapper.old mapper.new }
    ensures leaves { LeavesHalf D.tells D.clock D.image_at D.faults half.now.closed half.now.decls.now half.now.after
        half.now.first files.old files.new (fault_in result) }
    ensures made { OnOk result ((buckets : List TheBucket)
        × AreMappedFrom D.tells half.now.closed half.now.decls.now half.now.after half.now.first 4 files.old buckets
        × HasPut mapper.old mapper.new buckets) }
{
    for at in 0..4 {
        match map_at(rt, half, files, at, even, odd, mapper) {
            Ok(()) => {}
            Err(fault) => return Err(fault),
        }
    }
    Ok(())
}

// Maps the closed log file that stands here in a half.
fn map_at<R: Wait, D: Disk>(
    rt: &R,
    half: &HalfMapper<'_>,
    files: &mut [D],
    at: usize,
    even: &BucketQueue,
    odd: &BucketQueue,
    mapper: &mut Mapper,
) -> Result<(), OrMemory<GleanFault>>
    requires at { (at < 4) × (half.now.first ≤ 4) }
    requires file { at < length files.old }
    requires counted { AllByRecursion (λ n. n < 2 ^ 40) half.now.closed.lengths }
    requires even { IsPassOf even.now mapper.old.at_even × (0 < (view mapper.old.at_even).parts) }
    requires odd { IsPassOf odd.now mapper.old.at_odd × (0 < (view mapper.old.at_odd).parts) }
    ensures same { IsSameMapper mapper.old mapper.new }
    ensures mapped { OnOk result ((file : D) → slice_get files.old at ≡ Some file
        → (made : List TheBucket) × HasPut mapper.old mapper.new made
        × IsMappedFile D.tells half.now.closed half.now.decls.now half.now.after (half.now.first + at) file made) }
    ensures damaged { (device : Device) (place : ℕ) → result ≡ Err (OrMemory.Fault (GleanFault.Damaged device place))
        → (file : D) × (slice_get files.old at ≡ Some file)
        × (device ≡ devices.Bank (number_of half.now.closed.odd (half.now.first + at)))
        × IfTold (D.tells file) (λ bytes. IsDamaged (get_or half.now.closed.lengths (half.now.first + at) 0)
        half.now.decls.now bytes place) }
    ensures device { (device : Device) → result ≡ Err (OrMemory.Fault (GleanFault.Device device))
        → (was is : D) × (slice_get files.old at ≡ Some was) × (slice_get files.new at ≡ Some is)
        × (device ≡ devices.Bank (number_of half.now.closed.odd (half.now.first + at)))
        × Rose (D.faults was) (D.faults is) }
    ensures only { (fault : GleanFault) → result ≡ Err (OrMemory.Fault fault) → IsReadFault fault }
    ensures reads { (was is : D) → slice_get files.old at ≡ Some was → slice_get files.new at ≡ Some is
        → OnlyReads D.tells D.clock D.image_at D.faults was is }
    ensures quiet { (was is : D) → slice_get files.old at ≡ Some was → slice_get files.new at ≡ Some is
        → result ≢ Err (OrMemory.Fault (GleanFault.Device
        (devices.Bank (number_of half.now.closed.odd (half.now.first + at)))))
        → D.faults is ≡ D.faults was }
    ensures others { ChangesAt at files.old files.new }
{
    map_file(rt, half, &mut files[at], half.first + at, even, odd, mapper)
}

// Maps a worker's closed log file.
fn map_file<R: Wait, D: Disk>(
    rt: &R,
    half: &HalfMapper<'_>,
    file: &mut D,
    worker: usize,
    even: &BucketQueue,
    odd: &BucketQueue,
    mapper: &mut Mapper,
) -> Result<(), OrMemory<GleanFault>>
    requires worker { worker < 8 }
    requires counted { AllByRecursion (λ n. n < 2 ^ 40) half.now.closed.lengths }
    requires even { IsPassOf even.now mapper.old.at_even × (0 < (view mapper.old.at_even).parts) }
    requires odd { IsPassOf odd.now mapper.old.at_odd × (0 < (view mapper.old.at_odd).parts) }
    ensures same { IsSameMapper mapper.old mapper.new }
    ensures mapped { OnOk result ((made : List TheBucket) × HasPut mapper.old mapper.new made
        × IsMappedFile D.tells half.now.closed half.now.decls.now half.now.after worker file.old made) }
    ensures damaged { (device : Device) (place : ℕ) → result ≡ Err (OrMemory.Fault (GleanFault.Damaged device place))
        → (device ≡ devices.Bank (number_of half.now.closed.odd worker))
        × IfTold (D.tells file.old) (λ bytes.
        IsDamaged (get_or half.now.closed.lengths worker 0) half.now.decls.now bytes place) }
    ensures device { (device : Device) → result ≡ Err (OrMemory.Fault (GleanFault.Device device))
        → (device ≡ devices.Bank (number_of half.now.closed.odd worker)) × Rose (D.faults file.old) (D.faults file.new) }
    ensures only { (fault : GleanFault) → result ≡ Err (OrMemory.Fault fault) → IsReadFault fault }
    ensures reads { OnlyReads D.tells D.clock D.image_at D.faults file.old file.new }
    ensures quiet { result ≢ Err (OrMemory.Fault (GleanFault.Device (devices.Bank (number_of half.now.closed.odd worker))))
        → D.faults file.new ≡ D.faults file.old }
{
    let closed = half.closed;
    let bank = bank_of(closed.odd, worker);
    let length = closed.lengths[worker];
    match map_into(
        rt,
        half.alloc,
        file,
        bank,
        length,
        half.decls,
        half.after,
        closed.epoch,
        even,
        odd,
        mapper,
    ) {
        Ok(()) => Ok(()),
        Err(OrMemory::Memory) => Err(OrMemory::Memory),
        Err(OrMemory::Fault(fault)) => Err(OrMemory::Fault(fault_of(fault, bank))),
    }
}

// The fault of the log file of this number.
fn fault_of(fault: MapFault, bank: u8) -> GleanFault
    ensures damaged { (device : Device) (at : ℕ) → result ≡ GleanFault.Damaged device at
        → (device ≡ devices.Bank bank) × (fault ≡ MapFault.Damaged at) }
    ensures device { (device : Device) → result ≡ GleanFault.Device device
        → (device ≡ devices.Bank bank) × (fault ≡ MapFault.Device) }
    ensures failed { fault ≡ MapFault.Device → result ≡ GleanFault.Device (devices.Bank bank) }
    ensures only { IsReadFault result }
{
    let device = Device::Bank(bank);
    match fault {
        MapFault::Device => GleanFault::Device(device),
        MapFault::Damaged { at } => GleanFault::Damaged { device, at },
    }
}
