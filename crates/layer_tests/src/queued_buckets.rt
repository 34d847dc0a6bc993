// Buckets of worked log files on their way through two queues.
use super::checks::is_so;
use super::mapped_logs::{commit, disk};
use bucket_queues::{
    BucketQueue, Ends, Mapper, Maps, map_into, open_queue, reduce_from, through_queues,
};
use lists::OrMemory;
use log_mapper::MapFault;
use outside::MemDisk;
use serial_model::{Decl, Key, Number};
use std::alloc::{AllocError, Global};
use std::collections::BTreeMap;
use std::sync::Wait;
use std::sync::atomic::{AtomicBool, AtomicU64, Ordering};
use std::test::Fail;
use std::thread::Threads;
use wire_form::{Entry, Run};

// Maps one log file, and counts the buckets that it keeps back.
#[derive(Drop)]
struct OneFile<'a> {
    alloc: Global,
    bank: u8,
    decls: &'a [Decl],
    kept_back: AtomicU64,
}

impl<'a, R: Wait> Maps<R, MemDisk, MapFault> for OneFile<'a> {
    ghost use Rattle.std.specs.Prelude.{⊤};

    ghost can = { λ it files. ⊤ };

    ghost made = { λ it old new buckets. ⊤ };

    ghost leaves = { λ it old new fault. ⊤ };

    fn map(
        &self,
        rt: &R,
        files: &mut [MemDisk],
        even: &BucketQueue,
        odd: &BucketQueue,
        mapper: &mut Mapper,
    ) -> Result<(), OrMemory<MapFault>> {
        let Some(file) = files.first_mut() else {
            return Err(OrMemory::Memory);
        };
        map_into(
            rt, self.alloc, file, self.bank, 80, self.decls, 0, 9, even, odd, mapper,
        )?;
        self.kept_back
            .store(mapper.back.len() as u64, Ordering::SeqCst);
        Ok(())
    }
}

// So many trees.
fn trees(alloc: Global, count: u8) -> Result<Vec<Decl>, AllocError> {
    let mut decls = Vec::new(alloc);
    for id in 1..=count {
        decls.push(Decl::Tree { id })?;
    }
    Ok(decls)
}

// Two log files of two lines, of which both put 7 at key 2 of storage 1.
fn low_file(alloc: Global, last: u8) -> Result<MemDisk, AllocError> {
    disk(
        alloc,
        &[commit(1, 1, 1, &[2]), commit(1, 3, last, &[5])],
        b"",
    )
}

fn high_file(alloc: Global, last: u8) -> Result<MemDisk, AllocError> {
    disk(
        alloc,
        &[commit(1, 2, 1, &[2]), commit(1, 4, last, &[4])],
        b"",
    )
}

fn entry(storage: u8, key: u64, draw: u64) -> Entry {
    Entry {
        key: Key { storage, key },
        number: Number { epoch: 1, draw },
        value: Some(7),
    }
}

// The run of two log files of so many storages, and how many buckets were kept back.
fn run_through<R: Threads + Wait + Sync>(
    rt: &R,
    alloc: Global,
    storages: u8,
    wanted: [u32; 2],
) -> Result<(Option<Run>, u64), AllocError> {
    let decls = trees(alloc, storages)?;
    let (low, high) = (one_file(alloc, 0, &decls), one_file(alloc, 8, &decls));
    let mut low_files = [low_file(alloc, storages)?];
    let mut high_files = [high_file(alloc, storages)?];
    let run = through_queues(
        rt,
        alloc,
        &low,
        &high,
        &mut low_files,
        &mut high_files,
        wanted,
    );
    let kept_low = low.kept_back.load(Ordering::SeqCst);
    let kept_high = high.kept_back.load(Ordering::SeqCst);
    Ok((run.ok(), kept_low.wrapping_add(kept_high)))
}

fn one_file<'a>(alloc: Global, bank: u8, decls: &'a [Decl]) -> OneFile<'a> {
    OneFile {
        alloc,
        bank,
        decls,
        kept_back: AtomicU64::new(0),
    }
}

// How many buckets are kept back on the way of this run.
fn kept_back<R: Threads + Wait + Sync>(
    rt: &R,
    alloc: Global,
    storages: u8,
    wanted: [u32; 2],
) -> Result<u64, Fail> {
    let (run, kept_back) = run_through(rt, alloc, storages, wanted)?;
    let run = run.ok_or("memory")?;
    let want = [entry(1, 2, 2), entry(storages, 4, 4), entry(storages, 5, 3)];
    is_so("the run", run.as_slice() == want.as_slice())?;
    Ok(kept_back)
}

// Reducers that want nothing let both queues fill first: with 40 storages each queue is handed 40 buckets, of which 24
// are kept back. What is left and kept back makes the same run as what is taken meanwhile.
#[test]
fn full_queues_make_the_same_run(rt: HostRuntime) -> Result<(), Fail> {
    let alloc = rt.alloc();
    is_so(
        "48 of 40 storages",
        kept_back(&rt, alloc, 40, [0, 0])? == 48,
    )?;
    kept_back(&rt, alloc, 40, [40, 40])?;
    kept_back(&rt, alloc, 40, [40, 0])?;
    kept_back(&rt, alloc, 40, [41, 41])?;
    Ok(())
}

// 16 storages of two log files are 16 buckets for each queue, and 17 are two more for the first.
#[test]
fn none_is_kept_back_while_there_is_room(rt: HostRuntime) -> Result<(), Fail> {
    let alloc = rt.alloc();
    is_so(
        "none of 16 storages",
        kept_back(&rt, alloc, 16, [0, 0])? == 0,
    )?;
    is_so("none of 2 storages", kept_back(&rt, alloc, 2, [0, 0])? == 0)?;
    is_so("2 of 17 storages", kept_back(&rt, alloc, 17, [0, 0])? == 2)
}

// Maps a log file of 15 storages into two queues, and then takes what is in the first one.
fn taken_after<R: Wait>(rt: &R, alloc: Global) -> Result<usize, AllocError> {
    let decls = trees(alloc, 15)?;
    let mut file = low_file(alloc, 15)?;
    let mut latest = BTreeMap::new(alloc);
    let Ok((even, even_ends)) = open_queue(alloc) else {
        return Ok(0);
    };
    let Ok((odd, odd_ends)) = open_queue(alloc) else {
        return Ok(0);
    };
    let Ends {
        rest: _even_rest,
        low: at_even,
        high: _even_high,
        takes: mut takes,
    } = even_ends;
    let Ends {
        rest: _odd_rest,
        low: at_odd,
        high: _odd_high,
        takes: _odd_takes,
    } = odd_ends;
    let mut mapper = Mapper {
        at_even,
        at_odd,
        back: Vec::new(alloc),
    };
    let mapped = map_into(
        rt,
        alloc,
        &mut file,
        0,
        80,
        &decls,
        0,
        9,
        &even,
        &odd,
        &mut mapper,
    );
    let ended = AtomicBool::new(true);
    let reduced = reduce_from(rt, &even, &mut takes, 8, &ended, &mut latest);
    if mapped.is_err() || reduced.is_err() {
        return Ok(0);
    }
    Ok(latest.len())
}

#[test]
fn reducers_behind_the_mappers_leave_none(rt: HostRuntime) -> Result<(), Fail> {
    is_so("two entries", taken_after(&rt, rt.alloc())? == 2)
}

// A reducer that meets its queue empty 2^20 times waits no more.
fn taken_of_none<R: Wait>(rt: &R, alloc: Global) -> Option<usize> {
    let mut latest = BTreeMap::new(alloc);
    let Ok((queue, ends)) = open_queue(alloc) else {
        return None;
    };
    let mut takes = ends.takes;
    let ended = AtomicBool::new(false);
    let reduced = reduce_from(rt, &queue, &mut takes, 1, &ended, &mut latest);
    if reduced.is_err() {
        return None;
    }
    Some(latest.len())
}

#[test]
fn an_empty_queue_is_given_up(rt: HostRuntime) -> Result<(), Fail> {
    is_so("no entry", taken_of_none(&rt, rt.alloc()) == Some(0))
}
