// Buckets are taken from a queue.
ghost use Rattle.std.specs.Prelude.{◌≡◌, ◌<◌, ◌++◌, List, OnOk, IfOk};
ghost use Rattle.std.specs.BTreeMap as tree;
ghost use Rattle.std.specs.List.Sorted.{IsPermutation};
ghost use Rattle.crossbeam_queue.specs.Passes.{view, IsPassOf, IsSamePass};
ghost use Rattle.serial_model.specs.Keys.{key_cmp};
ghost use Rattle.wire_form.specs.declared.bucket.Bucket.{Bucket as TheBucket};
ghost use Rattle.bucket_queues.specs.Balance.{all_parts};
ghost use Rattle.log_reducer.specs.Gathered.{KeepsLatest};
ghost use Rattle.log_reducer.specs.Reduced.{all_logged};
ghost use Rattle.bucket_queues.specs.Taken.{HasGathered, HasTaken};
ghost use Rattle.log_reducer.specs.declared.latest.Logged.{Logged as TheLogged};

use crate::rule::{BucketPass, BucketQueue, Takes};
use lists::Memory;
use log_reducer::{Logged, keep_bucket, merge, run_of};
use serial_model::Key;
use std::alloc::Global;
use std::collections::BTreeMap;
use std::sync::Wait;
use std::sync::atomic::{AtomicBool, Ordering};
use std::thread;
use wire_form::{Bucket, Run};

// After so many empty answers in a row no more is waited for.
const MOST_EMPTY: u32 = 1_048_576;

/// Takes buckets and keeps their latest entries, until it has so many of them, or has met 2^20 empty answers in a row, or
/// one once those who put buckets have ended: what is left then is taken later.
pub fn reduce_from<R: Wait>(
    rt: &R,
    queue: &BucketQueue,
    pass: &mut BucketPass,
    wanted: u32,
    ended: &AtomicBool,
    latest: &mut BTreeMap<Key, Logged>,
) -> Result<(), Memory>
    requires pass { IsPassOf queue.now pass.old × (0 < (view pass.old).parts) }
    ensures same { IsSamePass pass.old pass.new }
    ensures taken { OnOk result ((taken : List TheBucket) × HasTaken (view pass.old) (view pass.new) (tree.get key_cmp latest.old)
        (tree.get key_cmp latest.new) taken) }
{
    let mut got = 0;
    let mut empty = 0;
    while got < wanted && empty < MOST_EMPTY {
        match queue.pop_as::<Takes, R>(rt, pass) {
            Some(bucket) => {
                keep_bucket(latest, &bucket)?;
                got += 1;
                empty = 0;
            }
            None => {
                if ended.load(Ordering::SeqCst) {
                    return Ok(());
                }
                empty += 1;
                thread::yield_now();
            }
        }
    }
    Ok(())
}

/// Takes all that is left, with every part of the right to know the whole, and keeps its latest entries. All buckets that
/// were put have then been taken.
pub fn reduce_rest<R: Wait>(
    rt: &R,
    queue: &BucketQueue,
    pass: &mut BucketPass,
    latest: &mut BTreeMap<Key, Logged>,
) -> Result<(), Memory>
    requires pass { IsPassOf queue.now pass.old × ((view pass.old).parts ≡ all_parts) }
    ensures same { IsSamePass pass.old pass.new }
    ensures taken { OnOk result ((taken : List TheBucket) × HasTaken (view pass.old) (view pass.new) (tree.get key_cmp latest.old)
        (tree.get key_cmp latest.new) taken) }
    ensures whole { OnOk result (IsPermutation (view pass.old).put (view pass.new).taken) }
{
    for _ in rt.forever() {
        let Some(bucket) = queue.pop_as::<Takes, R>(rt, pass) else {
            break;
        };
        keep_bucket(latest, &bucket)?;
    }
    Ok(())
}

// Keeps the latest entries of buckets that were kept back.
fn keep_back(latest: &mut BTreeMap<Key, Logged>, buckets: Vec<Bucket>) -> Result<(), Memory>
    ensures { OnOk result ((all : List TheLogged) → KeepsLatest all (tree.get key_cmp latest.old)
        → KeepsLatest (all ++ all_logged buckets.items) (tree.get key_cmp latest.new)) }
{
    for bucket in buckets {
        keep_bucket(latest, &bucket)?;
    }
    Ok(())
}

/// The run of what two reducers keep, of what is left in their queues, and of what was kept back.
pub fn gather<R: Wait>(
    rt: &R,
    alloc: Global,
    even: &BucketQueue,
    odd: &BucketQueue,
    at_even: &mut BucketPass,
    at_odd: &mut BucketPass,
    mut kept_even: BTreeMap<Key, Logged>,
    mut kept_odd: BTreeMap<Key, Logged>,
    low_back: Vec<Bucket>,
    high_back: Vec<Bucket>,
) -> Result<Run, Memory>
    requires even { IsPassOf even.now at_even.old × ((view at_even.old).parts ≡ all_parts) }
    requires odd { IsPassOf odd.now at_odd.old × ((view at_odd.old).parts ≡ all_parts) }
    ensures { IfOk result (HasGathered (view at_even.old) (view at_odd.old) (tree.get key_cmp kept_even)
        (tree.get key_cmp kept_odd) low_back.items high_back.items) }
{
    reduce_rest(rt, even, at_even, &mut kept_even)?;
    reduce_rest(rt, odd, at_odd, &mut kept_odd)?;
    merge(&mut kept_even, &kept_odd)?;
    keep_back(&mut kept_even, low_back)?;
    keep_back(&mut kept_even, high_back)?;
    Ok(run_of(alloc, &kept_even)?)
}
