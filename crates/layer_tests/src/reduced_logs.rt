// Runs of worked buckets.
use super::checks::is_so;
use lists::Sequence;
use log_reducer::reduce;
use serial_model::{Key, Number};
use std::alloc::{AllocError, Global};
use std::test::Fail;
use wire_form::{Bucket, Entry};

// Entries of storage 1: the key, the epoch and the draw, and the value.
type Put = (u64, u32, u64, Option<u64>);

fn entries(alloc: Global, puts: &[Put]) -> Result<Vec<Entry>, AllocError> {
    let mut entries = Vec::new(alloc);
    for (key, epoch, draw, value) in puts {
        entries.push(Entry {
            key: Key {
                storage: 1,
                key: *key,
            },
            number: Number {
                epoch: *epoch,
                draw: *draw,
            },
            value: *value,
        })?;
    }
    Ok(entries)
}

fn bucket(alloc: Global, bank: u8, puts: &[Put]) -> Result<Bucket, AllocError> {
    Ok(Bucket {
        bank,
        storage: 1,
        entries: Sequence::from_vec(entries(alloc, puts)?),
    })
}

// Two buckets of these log files come to this run.
fn come_to(
    alloc: Global,
    first: (u8, &[Put]),
    second: (u8, &[Put]),
    want: &[Put],
) -> Result<(), Fail> {
    let buckets = [
        bucket(alloc, first.0, first.1)?,
        bucket(alloc, second.0, second.1)?,
    ];
    let want = entries(alloc, want)?;
    match reduce(alloc, &buckets) {
        Ok(run) => is_so("the run", run.as_slice() == want.as_slice()),
        Err(_) => Err(Fail::from("memory")),
    }
}

// Key 5 is last written by the lower log file in the later epoch, key 9 by two at one number.
const FIRST: [Put; 3] = [(5, 1, 9, Some(1)), (9, 2, 3, Some(2)), (5, 2, 1, None)];

const SECOND: [Put; 3] = [(9, 2, 3, Some(7)), (4, 1, 1, Some(8)), (5, 1, 8, Some(9))];

const RUN: [Put; 3] = [(4, 1, 1, Some(8)), (5, 2, 1, None), (9, 2, 3, Some(2))];

#[test]
fn the_last_of_each_key_is_kept(rt: HostRuntime) -> Result<(), Fail> {
    come_to(rt.alloc(), (2, &FIRST), (3, &SECOND), &RUN)
}

const HIGHER: [Put; 1] = [(9, 2, 3, Some(2))];

const LOWER: [Put; 1] = [(9, 2, 3, Some(7))];

#[test]
fn the_order_of_buckets_is_of_no_matter(rt: HostRuntime) -> Result<(), Fail> {
    come_to(rt.alloc(), (2, &HIGHER), (1, &LOWER), &LOWER)
}
