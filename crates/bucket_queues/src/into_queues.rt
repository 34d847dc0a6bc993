// Buckets are put into two queues by turns.
ghost use Rattle.std.specs.Prelude.{◌≡◌, ◌≢◌, ◌<◌, ◌^◌, ◌++◌, ◌∷◌, [], ◌⊎◌, ℕ, List, Err, OnOk};
ghost use Rattle.crossbeam_queue.specs.Passes.{view, IsPassOf, IsSamePass};
ghost use Rattle.outside.specs.Disk.{IfTold};
ghost use Rattle.outside.specs.Faults.{Rose};
ghost use Rattle.outside.specs.Reads.{OnlyReads};
ghost use Rattle.wire_form.specs.declared.bucket.Bucket.{Bucket as TheBucket};
ghost use Rattle.bucket_queues.specs.Balance.{hand};
ghost use Rattle.log_mapper.specs.Mapped.{AreMapped, AreMappedLines, IsDamaged};
ghost use Rattle.bucket_queues.specs.Passed.{HavePassed};
ghost use Rattle.bucket_queues.specs.Threads.{HasPut, IsSameMapper};
ghost use Rattle.bucket_queues.specs.Turns.{GoByTurns, TakesTurn};

use crate::rule::{BucketPass, BucketQueue, Puts};
use lists::{Memory, OrMemory};
use log_mapper::{MapFault, map_bank};
use outside::Disk;
use serial_model::Decl;
use std::alloc::Global;
use std::sync::Wait;
use wire_form::Bucket;

/// A mapper's passes of the two queues, and the buckets that it keeps back.
#[derive(Drop)]
pub struct Mapper {
    pub at_even: BucketPass,
    pub at_odd: BucketPass,
    pub back: Vec<Bucket>,
}

// Puts a bucket into a queue, or keeps it back where the queue answers that it is full.
fn put_one<R: Wait>(
    rt: &R,
    queue: &BucketQueue,
    pass: &mut BucketPass,
    bucket: Bucket,
    back: &mut Vec<Bucket>,
) -> Result<(), Memory>
    requires pass { IsPassOf queue.now pass.old × (0 < (view pass.old).parts) }
    ensures same { IsSamePass pass.old pass.new }
    ensures put { OnOk result (
        ((view pass.new ≡ hand (view pass.old).parts ((view pass.old).put ++ bucket ∷ []) (view pass.old).taken)
        × (back.new.items ≡ back.old.items))
        ⊎ ((view pass.new ≡ view pass.old) × (back.new.items ≡ back.old.items ++ bucket ∷ []))) }
{
    if let Err(bucket) = queue.push_as::<Puts, R>(rt, pass, bucket) {
        back.push(bucket)?;
    }
    Ok(())
}

// Puts a bucket into one of two queues.
fn put_into<R: Wait>(
    rt: &R,
    to_odd: bool,
    bucket: Bucket,
    even: &BucketQueue,
    odd: &BucketQueue,
    at_even: &mut BucketPass,
    at_odd: &mut BucketPass,
    back: &mut Vec<Bucket>,
) -> Result<(), Memory>
    requires even { IsPassOf even.now at_even.old × (0 < (view at_even.old).parts) }
    requires odd { IsPassOf odd.now at_odd.old × (0 < (view at_odd.old).parts) }
    ensures same { IsSamePass at_even.old at_even.new × IsSamePass at_odd.old at_odd.new }
    ensures passed { OnOk result (HavePassed (view at_even.old) (view at_even.new) (view at_odd.old) (view at_odd.new)
        back.old.items back.new.items (bucket ∷ [])) }
    ensures turn { OnOk result (TakesTurn to_odd (view at_even.old).put (view at_even.new).put
        (view at_odd.old).put (view at_odd.new).put bucket) }
{
    if to_odd {
        put_one(rt, odd, at_odd, bucket, back)?;
        return Ok(());
    }
    put_one(rt, even, at_even, bucket, back)?;
    Ok(())
}

// Puts buckets into two queues by turns; what a full one doesn't take is kept back.
fn put_by_turns<R: Wait>(
    rt: &R,
    buckets: Vec<Bucket>,
    even: &BucketQueue,
    odd: &BucketQueue,
    at_even: &mut BucketPass,
    at_odd: &mut BucketPass,
    back: &mut Vec<Bucket>,
) -> Result<(), Memory>
    requires even { IsPassOf even.now at_even.old × (0 < (view at_even.old).parts) }
    requires odd { IsPassOf odd.now at_odd.old × (0 < (view at_odd.old).parts) }
    ensures same { IsSamePass at_even.old at_even.new × IsSamePass at_odd.old at_odd.new }
    ensures passed { OnOk result (HavePassed (view at_even.old) (view at_even.new) (view at_odd.old) (view at_odd.new)
        back.old.items back.new.items buckets.items) }
    ensures turns { OnOk result (GoByTurns (view at_even.old).put (view at_even.new).put
        (view at_odd.old).put (view at_odd.new).put buckets.items) }
{
    let mut to_odd = false;
    for bucket in buckets {
        put_into(rt, to_odd, bucket, even, odd, at_even, at_odd, back)?;
        to_odd = !to_odd;
    }
    Ok(())
}

/// What `log_mapper::map_bank` makes of a log file goes into the two queues: the bucket of the first storage into the
/// first, that of the second into the second, and so on by turns (`GoByTurns`), but for those that are kept back. It
/// refuses what `map_bank` does, before any bucket is put.
pub fn map_into<D: Disk, R: Wait>(
    rt: &R,
    alloc: Global,
    disk: &mut D,
    bank: u8,
    length: u64,
    decls: &[Decl],
    from: u32,
    to: u32,
    even: &BucketQueue,
    odd: &BucketQueue,
    mapper: &mut Mapper,
) -> Result<(), OrMemory<MapFault>>
    requires length { length < 2 ^ 40 }
    requires even { IsPassOf even.now mapper.old.at_even × (0 < (view mapper.old.at_even).parts) }
    requires odd { IsPassOf odd.now mapper.old.at_odd × (0 < (view mapper.old.at_odd).parts) }
    ensures same { IsSameMapper mapper.old mapper.new }
    ensures mapped { OnOk result ((made : List TheBucket) × HasPut mapper.old mapper.new made
        × IfTold (D.tells disk.old) (λ file. AreMapped bank length decls.now from to file made)
        × (bytes : List ℕ) × AreMappedLines bank decls.now from to bytes made
        × GoByTurns (view mapper.old.at_even).put (view mapper.new.at_even).put
        (view mapper.old.at_odd).put (view mapper.new.at_odd).put made) }
    ensures damaged { (at : ℕ) → result ≡ Err (OrMemory.Fault (MapFault.Damaged at))
        → IfTold (D.tells disk.old) (λ file. IsDamaged length decls.now file at) }
    ensures device { result ≡ Err (OrMemory.Fault MapFault.Device)
        → Rose (D.faults disk.old) (D.faults disk.new) }
    ensures spared { result ≢ Err (OrMemory.Fault MapFault.Device) → D.faults disk.new ≡ D.faults disk.old }
    ensures reads { OnlyReads D.tells D.clock D.image_at D.faults disk.old disk.new }
{
    let buckets = map_bank(alloc, disk, bank, length, decls, from, to)?;
    put_all(rt, buckets.into_vec(), even, odd, mapper)?;
    Ok(())
}

// Puts a mapper's buckets into the queues.
fn put_all<R: Wait>(
    rt: &R,
    buckets: Vec<Bucket>,
    even: &BucketQueue,
    odd: &BucketQueue,
    mapper: &mut Mapper,
) -> Result<(), Memory>
    requires even { IsPassOf even.now mapper.old.at_even × (0 < (view mapper.old.at_even).parts) }
    requires odd { IsPassOf odd.now mapper.old.at_odd × (0 < (view mapper.old.at_odd).parts) }
    ensures same { IsSameMapper mapper.old mapper.new }
    ensures put { OnOk result (HasPut mapper.old mapper.new buckets.items) }
    ensures turns { OnOk result (GoByTurns (view mapper.old.at_even).put (view mapper.new.at_even).put
        (view mapper.old.at_odd).put (view mapper.new.at_odd).put buckets.items) }
{
    put_by_turns(
        rt,
        buckets,
        even,
        odd,
        &mut mapper.at_even,
        &mut mapper.at_odd,
        &mut mapper.back,
    )
}
