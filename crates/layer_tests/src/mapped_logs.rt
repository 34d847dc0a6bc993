// Worked log files, over disks in memory.
ghost use Rattle.std.specs.Prelude.{◌<◌, ◌^◌};

use super::checks::is_so;
use lists::OrMemory;
use log_mapper::{Buckets, MapFault, map_bank};
use outside::MemDisk;
use serial_model::{Change, Changes, Commit, Decl, Key, Number};
use std::alloc::{AllocError, Global};
use std::test::Fail;
use wire_form::{Bucket, write_log_line};

// A commit that puts 7 at these keys, of one storage.
pub(super) fn commit(epoch: u32, draw: u64, storage: u8, keys: &[u64]) -> Commit {
    let mut changes = Changes::new();
    for key in keys.iter().take(16) {
        if changes.as_slice().len() < 16 {
            changes.push(Change {
                key: Key { storage, key: *key },
                value: Some(7),
            });
        }
    }
    Commit {
        number: Number { epoch, draw },
        changes,
    }
}

pub(super) fn disk(alloc: Global, commits: &[Commit], more: &[u8]) -> Result<MemDisk, AllocError> {
    let mut bytes = Vec::new(alloc);
    for commit in commits {
        let mut line = [0; 400];
        if wire_form::is_loggable(commit) {
            let size = write_log_line(commit, &mut line);
            bytes.extend_from_slice(&line[..size])?;
        }
    }
    bytes.extend_from_slice(more)?;
    MemDisk::new(alloc, bytes, Vec::new(alloc))
}

// Maps so many bytes of a log file, without each thing that `map_bank` says of it.
fn map(
    alloc: Global,
    bank: u8,
    file: &mut MemDisk,
    size: u64,
    decls: &[Decl],
    from: u32,
    to: u32,
) -> Result<Buckets, OrMemory<MapFault>>
    requires { size < 2 ^ 40 }
{
    map_bank(alloc, file, bank, size, decls, from, to)
}

// What stands for a log file that is read.
const READ: u64 = u64::MAX;

// The byte of the damage in so many bytes, READ where there is none, and READ - 1 where the device failed.
fn answer(alloc: Global, file: &mut MemDisk, size: u64, decls: &[Decl]) -> u64
    requires { size < 2 ^ 40 }
{
    match map(alloc, 0, file, size, decls, 0, 9) {
        Ok(_) => READ,
        Err(OrMemory::Fault(MapFault::Damaged { at })) => at,
        Err(_) => READ - 1,
    }
}

// Of the bucket of this index its log file, its storage and how many entries it has.
fn bucket_at(buckets: &[Bucket], index: usize) -> Option<(u8, u8, usize)> {
    let bucket = buckets.get(index)?;
    Some((bucket.bank, bucket.storage, bucket.entries.len()))
}

const ARRAY_AND_TREE: [Decl; 2] = [Decl::Array { id: 1, size: 4 }, Decl::Tree { id: 2 }];

const ARRAY: [Decl; 1] = [Decl::Array { id: 1, size: 4 }];

const TREE: [Decl; 1] = [Decl::Tree { id: 2 }];

// Three lines, of 40, 64 and 40 bytes.
fn three_lines(alloc: Global) -> Result<MemDisk, AllocError> {
    let commits = [
        commit(1, 1, 1, &[2]),
        commit(2, 4, 2, &[5, 9]),
        commit(3, 7, 1, &[0]),
    ];
    disk(alloc, &commits, b"")
}

// The buckets of the three lines, with entries of epochs above 1 and up to this one.
fn mapped(alloc: Global, to: u32) -> Result<Buckets, Fail> {
    let mut file = three_lines(alloc)?;
    let buckets = map(alloc, 4, &mut file, 144, &ARRAY_AND_TREE, 1, to);
    Ok(buckets.ok().ok_or("a log file")?)
}

#[test]
fn entries_go_to_their_storage(rt: HostRuntime) -> Result<(), Fail> {
    let all = mapped(rt.alloc(), 3)?;
    is_so("two buckets", all.as_slice().len() == 2)?;
    is_so(
        "the array's",
        bucket_at(all.as_slice(), 0) == Some((4, 1, 1)),
    )?;
    is_so(
        "the tree's",
        bucket_at(all.as_slice(), 1) == Some((4, 2, 2)),
    )?;
    let earlier = mapped(rt.alloc(), 2)?;
    is_so(
        "one epoch",
        bucket_at(earlier.as_slice(), 0) == Some((4, 1, 0)),
    )
}

// Two lines of storage 1, the second one of this number and key.
fn two_lines(alloc: Global, draw: u64, key: u64) -> Result<MemDisk, AllocError> {
    disk(
        alloc,
        &[commit(1, 1, 1, &[2]), commit(1, draw, 1, &[key])],
        b"",
    )
}

// The second of two lines is damaged.
fn is_damaged(alloc: Global, what: &str, draw: u64, key: u64) -> Result<(), Fail> {
    let mut file = two_lines(alloc, draw, key)?;
    is_so(what, answer(alloc, &mut file, 80, &ARRAY) == 40)
}

#[test]
fn damage_is_told_at_its_line(rt: HostRuntime) -> Result<(), Fail> {
    let alloc = rt.alloc();
    is_damaged(alloc, "a key past the array", 2, 4)?;
    is_damaged(alloc, "a number that doesn't rise", 1, 3)?;
    let mut file = disk(alloc, &[commit(1, 1, 1, &[2])], b"x")?;
    is_so(
        "a byte that begins no line",
        answer(alloc, &mut file, 41, &ARRAY) == 40,
    )?;
    is_so("a short file", answer(alloc, &mut file, 42, &ARRAY) == 41)?;
    is_so("a line", answer(alloc, &mut file, 40, &ARRAY) == READ)
}

const SIXTEEN: [u64; 16] = [0, 1, 2, 3, 4, 5, 6, 7, 8, 9, 10, 11, 12, 13, 14, 15];

// 200 lines of 40 and of 400 bytes by turns, in ten windows and more.
fn long_disk(alloc: Global, more: &[u8]) -> Result<MemDisk, AllocError> {
    let mut commits = Vec::new(alloc);
    for draw in 0..100 {
        commits.push(commit(1, 2 * draw + 1, 2, &SIXTEEN[..1]))?;
        commits.push(commit(1, 2 * draw + 2, 2, &SIXTEEN))?;
    }
    disk(alloc, &commits, more)
}

// How many entries the tree has in so many bytes.
fn entries(alloc: Global, file: &mut MemDisk, size: u64) -> Option<usize>
    requires { size < 2 ^ 40 }
{
    let buckets = map(alloc, 4, file, size, &TREE, 0, 9).ok()?;
    Some(bucket_at(buckets.as_slice(), 0)?.2)
}

#[test]
fn lines_go_on_across_windows(rt: HostRuntime) -> Result<(), Fail> {
    let alloc = rt.alloc();
    let mut file = long_disk(alloc, b"x")?;
    is_so(
        "all entries",
        entries(alloc, &mut file, 44_000) == Some(1_700),
    )?;
    let behind = answer(alloc, &mut file, 44_001, &TREE);
    is_so("a byte behind the last line", behind == 44_000)?;
    let short = answer(alloc, &mut file, 43_999, &TREE);
    is_so("a last line that isn't counted to its end", short == 43_600)?;
    is_so(
        "the lines before",
        answer(alloc, &mut file, 43_600, &TREE) == READ,
    )
}

// Each read takes a window of 4,096 bytes at most, and none follows one with damage in it.
#[test]
fn a_window_is_read_at_a_time(rt: HostRuntime) -> Result<(), Fail> {
    let alloc = rt.alloc();
    let mut file = long_disk(alloc, b"")?;
    is_so("the lines", answer(alloc, &mut file, 44_000, &TREE) == READ)?;
    // One call for the length, and more than ten for 44,000 bytes.
    is_so("ten windows", file.calls().len() > 11)?;
    let again = [commit(1, 1, 2, &[2]), commit(1, 1, 2, &[3])];
    let mut damaged = disk(alloc, &again, &[0; 9_000])?;
    is_so("damage", answer(alloc, &mut damaged, 9_080, &TREE) == 40)?;
    is_so("two calls", damaged.calls().len() == 2)
}
