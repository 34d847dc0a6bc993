// What is saved by the marks of logs, worked by hand.
ghost use Rattle.std.specs.Prelude.{◌≡◌, ◌≤◌, ◌<◌, [], IfOk, IfSome};
ghost use Rattle.outside.specs.Disk.{IfTold, Only};
ghost use Rattle.log_writer.specs.Journal.{Reaches};
ghost use Rattle.log_writer.specs.Save.{IsStored};
ghost use Rattle.worker_logs.specs.Saves.{IsBeside};

use crate::checks::is_so;
use crate::disks::disk;
use crate::worked_bytes::{put_closed, put_place};
use log_writer::{LogFault, Records, Save, Vault};
use outside::{Disk, MemDisk};
use serial_model::{Change, Changes, Commit, Key, Memory, Number};
use std::alloc::{AllocError, Global};
use std::test::Fail;
use wire_form::{Savepoint, is_loggable, read_savepoint};
use worker_logs::{Beside, Side, WorkerLog, save_marks};

// A commit with a line of 40 bytes.
fn commit() -> Commit {
    let mut changes = Changes::new();
    changes.push(Change {
        key: Key { storage: 1, key: 2 },
        value: Some(7),
    });
    Commit {
        number: Number { epoch: 1, draw: 1 },
        changes,
    }
}

// Puts a line, once the log is ready for it.
fn put_line<D: Disk>(log: &mut WorkerLog, bank: &mut D) -> Result<(), LogFault>
    requires { Reaches D.tells bank.old log.old.journal }
    ensures { Reaches D.tells bank.new log.new.journal }
{
    let line = commit();
    log.prepare(bank, 1)?;
    if is_loggable(&line) {
        log.put(&line);
    }
    Ok(())
}

// The log of a worker that put so many lines and then was marked at this epoch of the clock; at 0 it is idle.
fn log<D: Disk>(
    alloc: Global,
    bank: &mut D,
    lines: usize,
    clock: u32,
) -> Result<WorkerLog, Memory> {
    let mut log = WorkerLog::new(alloc, 0)?;
    for _ in 0..lines {
        let _ = put_line(&mut log, bank);
    }
    if clock == 0 {
        log.idle();
    } else {
        let _ = log.flush_and_mark(bank, clock);
    }
    Ok(log)
}

// The save device after its first store, which counts nothing.
fn save_device(alloc: Global) -> Result<MemDisk, AllocError>
    ensures { IfOk result (λ disk. IfTold (⟦<MemDisk as Disk>⟧.tells disk)
        (Only ⟦<MemDisk as Disk>⟧.clock ⟦<MemDisk as Disk>⟧.image_at disk)) }
{
    let mut bytes = Vec::new(alloc);
    put_place(&mut bytes, 1, 0, 1, &[])?;
    put_closed(&mut bytes)?;
    disk(alloc, &bytes, &[])
}

// What is stored at epoch 5 of the clock, once each worker put so many lines and was marked.
fn stored(
    alloc: Global,
    workers: &[(usize, u32); 8],
    beside: &Beside,
) -> Result<Option<(u32, Savepoint)>, Memory>
    requires { IsBeside beside.now }
{
    let mut logs = Vec::new(alloc);
    for (lines, clock) in workers {
        let mut bank = disk(alloc, &[], &[])?;
        logs.push(log(alloc, &mut bank, *lines, *clock)?)?;
    }
    let mut ties = Records::new(alloc);
    ties.reserve(1)?;
    let mut vault = Vault {
        save: save_device(alloc)?,
        snaps: disk(alloc, &[], &[])?,
        even: Vec::new(alloc),
        odd: Vec::new(alloc),
        ties,
        cuts: Records::new(alloc),
    };
    Ok(store(&logs, beside, &mut vault))
}

// The savepoints of a save device.
fn open<D: Disk>(device: &mut D) -> Option<Save>
    requires settled { IfTold (D.tells device.old) (Only D.clock D.image_at device.old) }
    ensures stored { IfSome result (λ s. IsStored D.tells D.clock D.image_at device.new s.newest) }
{
    let Ok((save, _)) = Save::load(device) else {
        return None;
    };
    Some(save)
}

// Stores the next savepoint: the saved epoch, and what the second place then has. The vault has no log files, so that
// what is counted of them needn't be durable there.
fn store<D: Disk>(
    logs: &[WorkerLog],
    beside: &Beside,
    vault: &mut Vault<D>,
) -> Option<(u32, Savepoint)>
    requires beside { IsBeside beside.now }
    requires settled { IfTold (D.tells vault.old.save) (Only D.clock D.image_at vault.old.save) }
    requires even { vault.old.even.items ≡ [] }
    requires odd { vault.old.odd.items ≡ [] }
    requires room { 1 ≤ vault.old.ties.room }
{
    if logs.len() != 8 {
        return None;
    }
    let mut save = open(&mut vault.save)?;
    let epoch = save_marks(&mut save, 5, logs, beside, vault).ok()?;
    let mut place = [0; 512];
    vault.save.read(512, &mut place).ok()?;
    let point = read_savepoint(1, &place).ok()??;
    Some((epoch, point))
}

// Three pages, and so many bytes of worker 1's closed log file.
fn beside(growing: Side, closed: u32) -> Beside
    ensures { IsBeside result }
{
    Beside {
        growing,
        closed: [0, u64::from(closed), 0, 0, 0, 0, 0, 0],
        count: 3,
    }
}

// A worker that put no line, and is idle.
const IDLE: (usize, u32) = (0, 0);

// Which log files grow, and how many bytes of worker 1's closed one count; of each worker how many lines it put, and
// the epoch of the clock at which it was marked; the saved epoch, and the lengths of the log files that count.
type SaveRow = (Side, u32, [(usize, u32); 8], u32, [u64; 16]);

const SAVES: [SaveRow; 6] = [
    (
        Side::Even,
        0,
        [IDLE, IDLE, IDLE, IDLE, IDLE, IDLE, IDLE, IDLE],
        4,
        [0, 0, 0, 0, 0, 0, 0, 0, 0, 0, 0, 0, 0, 0, 0, 0],
    ),
    (
        Side::Even,
        0,
        [(2, 5), IDLE, IDLE, IDLE, IDLE, IDLE, IDLE, IDLE],
        4,
        [80, 0, 0, 0, 0, 0, 0, 0, 0, 0, 0, 0, 0, 0, 0, 0],
    ),
    (
        Side::Even,
        0,
        [(2, 5), (1, 3), IDLE, IDLE, IDLE, IDLE, IDLE, IDLE],
        2,
        [80, 0, 40, 0, 0, 0, 0, 0, 0, 0, 0, 0, 0, 0, 0, 0],
    ),
    (
        Side::Even,
        64,
        [(2, 3), (1, 5), IDLE, IDLE, IDLE, IDLE, IDLE, (3, 4)],
        2,
        [80, 0, 40, 64, 0, 0, 0, 0, 0, 0, 0, 0, 0, 0, 120, 0],
    ),
    (
        Side::Even,
        0,
        [(0, 5), (0, 5), IDLE, IDLE, IDLE, IDLE, IDLE, (1, 1)],
        0,
        [0, 0, 0, 0, 0, 0, 0, 0, 0, 0, 0, 0, 0, 0, 40, 0],
    ),
    (
        Side::Odd,
        64,
        [(2, 5), (1, 3), IDLE, IDLE, IDLE, IDLE, IDLE, (3, 5)],
        2,
        [0, 80, 64, 40, 0, 0, 0, 0, 0, 0, 0, 0, 0, 0, 0, 120],
    ),
];

// Whether the second savepoint is of three pages, of this epoch, and counts these lengths.
fn is_second(point: &Savepoint, epoch: u32, lengths: &[u64]) -> bool {
    (point.sequence == 2)
        & (point.epoch == epoch)
        & (point.catalogue == 3)
        & (point.count == 3)
        & (point.lengths.as_slice() == lengths)
}

fn check_save(
    alloc: Global,
    beside: &Beside,
    workers: &[(usize, u32); 8],
    epoch: u32,
    lengths: &[u64],
) -> Result<(), Fail>
    requires { IsBeside beside.now }
{
    match stored(alloc, workers, beside)? {
        Some((saved, point)) => {
            is_so("the saved epoch", saved == epoch)?;
            is_so("what a save counts", is_second(&point, epoch, lengths))
        }
        None => Err(Fail::from("nothing was stored")),
    }
}

#[test]
fn what_a_save_counts(rt: HostRuntime) -> Result<(), Fail> {
    for (growing, closed, workers, epoch, lengths) in &SAVES {
        let beside = beside(*growing, *closed);
        check_save(rt.alloc(), &beside, workers, *epoch, lengths)?;
    }
    Ok(())
}
