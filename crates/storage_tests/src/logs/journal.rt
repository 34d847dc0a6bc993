ghost use Rattle.std.specs.Prelude.{◌^◌, ◌<◌, ◌≤◌};
ghost use Rattle.log_writer.specs.Journal.{Reaches, DurableStays};

use crate::disks::disk;
use log_writer::{Journal, LogFault};
use outside::{Disk, MemDisk};
use serial_model::{Change, Changes, Commit, Key, Memory, Number};
use std::alloc::Global;
use std::process::Abort;
use std::test::Fail;
use wire_form::is_loggable;

// The log line of number 1:1 that puts 7 at key 2 of storage 1.
const LINE: [u8; 40] = [
    0, 0, 1, 0, 0, 0, 0, 1, 0, 0, 0, 0, 0, 0, 0, 1, 0, 0, 0, 0, 0, 0, 1, 1, 0, 0, 0, 0, 0, 0, 0, 2,
    0, 0, 0, 0, 0, 0, 0, 7,
];

fn commit() -> Commit {
    let mut changes = Changes::new();
    changes.push(Change {
        key: Key { storage: 1, key: 2 },
        value: Some(7),
    });
    Commit {
        number: Number { epoch: 1, draw: 1 },
        changes,
    }
}

// Puts a line once there is room for it.
pub(super) fn put_line<D: Disk>(journal: &mut Journal, bank: &mut D) -> Result<(), LogFault>
    requires { Reaches D.tells bank.old journal.old }
    ensures reaches { Reaches D.tells bank.new journal.new }
    ensures later { journal.old.durable ≤ journal.new.durable }
    ensures onward { D.clock bank.old ≤ D.clock bank.new }
    ensures stays { DurableStays D.clock D.image_at journal.old bank.old bank.new }
{
    let line = commit();
    journal.room(bank)?;
    if is_loggable(&line) {
        journal.put(&line);
    }
    Ok(())
}

fn put_lines<D: Disk>(journal: &mut Journal, bank: &mut D, count: u64) -> Result<(), LogFault>
    requires { Reaches D.tells bank.old journal.old }
    ensures { Reaches D.tells bank.new journal.new }
{
    for _ in 0..count {
        put_line(journal, bank)?;
    }
    Ok(())
}

// Makes durable what waits.
fn flush<D: Disk>(journal: &mut Journal, bank: &mut D) -> Result<u64, LogFault>
    requires { Reaches D.tells bank.old journal.old }
    ensures { Reaches D.tells bank.new journal.new }
{
    journal.flush(bank)
}

// Makes room for a line.
fn room<D: Disk>(journal: &mut Journal, bank: &mut D) -> Result<(), LogFault>
    requires { Reaches D.tells bank.old journal.old }
    ensures { Reaches D.tells bank.new journal.new }
{
    journal.room(bank)
}

// How many bytes wait, and how many are durable.
fn lengths(journal: &Journal) -> (usize, u64) {
    (journal.waiting(), journal.durable())
}

fn bytes(bank: &MemDisk) -> &[u8] {
    bank.bytes()
}

// A step of a journal, or a question to it.
#[derive(Clone, Copy)]
enum Step {
    // Put so many lines.
    Lines(u64),
    // Make room for a line.
    Room,
    Flush,
    // How many bytes wait.
    Waiting,
    // How many bytes are durable.
    Durable,
    // The log file's clock.
    Clock,
}

// A step, and what it answers: 0 where it answers nothing.
type Row = (Step, Result<u64, LogFault>);

fn answer<D: Disk>(journal: &mut Journal, bank: &mut D, step: Step) -> Result<u64, LogFault>
    requires { Reaches D.tells bank.old journal.old }
    ensures { Reaches D.tells bank.new journal.new }
{
    match step {
        Step::Lines(count) => put_lines(journal, bank, count)?,
        Step::Room => room(journal, bank)?,
        Step::Flush => return flush(journal, bank),
        Step::Waiting => return Ok(lengths(journal).0 as u64),
        Step::Durable => return Ok(lengths(journal).1),
        Step::Clock => return Ok(bank.clock()),
    }
    Ok(0)
}

fn follows<D: Disk>(rt: &impl Abort, journal: &mut Journal, bank: &mut D, rows: &[Row])
    requires { Reaches D.tells bank.old journal.old }
    ensures { Reaches D.tells bank.new journal.new }
{
    for row in rows {
        let (step, want) = *row;
        let came = answer(journal, bank, step);
        assert_eq!(rt; came, want);
    }
}

// What a journal of this limit does over a log file that has nothing yet.
fn runs<D: Disk>(
    rt: &impl Abort,
    alloc: Global,
    bank: &mut D,
    limit: u64,
    rows: &[Row],
) -> Result<(), Memory>
    requires { limit < 2 ^ 40 }
{
    let mut journal = Journal::new(alloc, limit)?;
    follows(rt, &mut journal, bank, rows);
    Ok(())
}

// The same over one in memory whose calls of these numbers fail.
fn runs_over(
    rt: &impl Abort,
    alloc: Global,
    fails: &[u64],
    limit: u64,
    rows: &[Row],
) -> Result<(), Fail>
    requires { limit < 2 ^ 40 }
{
    let mut bank = disk(alloc, &[], fails)?;
    runs(rt, alloc, &mut bank, limit, rows)?;
    Ok(())
}

const FULL: LogFault = LogFault::Limit { length: 640 };

// Where there is no room, nothing is flushed.
const ENDS: [Row; 9] = [
    (Step::Lines(15), Ok(0)),
    (Step::Room, Ok(0)),
    (Step::Lines(1), Ok(0)),
    (Step::Room, Err(FULL)),
    (Step::Waiting, Ok(640)),
    (Step::Durable, Ok(0)),
    (Step::Clock, Ok(0)),
    (Step::Flush, Ok(640)),
    (Step::Room, Err(FULL)),
];

fn has_lines(rt: &impl Abort, bytes: &[u8]) {
    for line in bytes.chunks(40) {
        assert_eq!(rt; line, LINE.as_slice());
    }
}

#[test]
fn a_journal_ends_at_its_limit(rt: HostRuntime) -> Result<(), Fail> {
    let mut bank = disk(rt.alloc(), &[], &[])?;
    runs(&rt, rt.alloc(), &mut bank, 1000, &ENDS)?;
    assert_eq!(rt; bytes(&bank).len(), 640);
    has_lines(&rt, bytes(&bank));
    Ok(())
}

// A flush of nothing touches nothing.
const FLUSHES: [Row; 14] = [
    (Step::Flush, Ok(0)),
    (Step::Lines(93), Ok(0)),
    (Step::Clock, Ok(0)),
    (Step::Waiting, Ok(3720)),
    (Step::Durable, Ok(0)),
    (Step::Lines(1), Ok(0)),
    (Step::Clock, Ok(4)),
    (Step::Waiting, Ok(40)),
    (Step::Durable, Ok(3720)),
    (Step::Flush, Ok(3760)),
    (Step::Flush, Ok(3760)),
    (Step::Waiting, Ok(0)),
    (Step::Durable, Ok(3760)),
    (Step::Clock, Ok(8)),
];

#[test]
fn a_full_buffer_is_flushed(rt: HostRuntime) -> Result<(), Fail> {
    runs_over(&rt, rt.alloc(), &[], (1 << 40) - 1, &FLUSHES)
}

const DOWN: LogFault = LogFault::Down { faults: 1 };

// A line and a flush that fails. Another line would be above the limit too; that the journal is down comes first.
const A_FIRST_FLUSH_FAILS: [Row; 5] = [
    (Step::Lines(1), Ok(0)),
    (Step::Flush, Err(LogFault::Device)),
    (Step::Flush, Err(DOWN)),
    (Step::Durable, Ok(0)),
    (Step::Room, Err(DOWN)),
];

const A_SECOND_FLUSH_FAILS: [Row; 6] = [
    (Step::Lines(1), Ok(0)),
    (Step::Flush, Ok(40)),
    (Step::Lines(1), Ok(0)),
    (Step::Flush, Err(LogFault::Device)),
    (Step::Durable, Ok(40)),
    (Step::Room, Err(DOWN)),
];

const NO_FLUSH_FAILS: [Row; 6] = [
    (Step::Lines(1), Ok(0)),
    (Step::Flush, Ok(40)),
    (Step::Lines(1), Ok(0)),
    (Step::Flush, Ok(80)),
    (Step::Durable, Ok(80)),
    (Step::Room, Err(LogFault::Limit { length: 80 })),
];

// Each call of the log file fails once: those of the first flush, those of the second one, and one that isn't made.
#[test]
fn a_journal_goes_down_at_a_fault(rt: HostRuntime) -> Result<(), Fail> {
    let alloc = rt.alloc();
    for number in 0..2 {
        runs_over(&rt, alloc, &[number], 479, &A_FIRST_FLUSH_FAILS)?;
    }
    for number in 2..4 {
        runs_over(&rt, alloc, &[number], 479, &A_SECOND_FLUSH_FAILS)?;
    }
    runs_over(&rt, alloc, &[4], 479, &NO_FLUSH_FAILS)
}

const NO_ROOM_IS_MADE: [Row; 5] = [
    (Step::Lines(93), Ok(0)),
    (Step::Lines(1), Err(LogFault::Device)),
    (Step::Waiting, Ok(3720)),
    (Step::Durable, Ok(0)),
    (Step::Lines(1), Err(DOWN)),
];

// The flush that makes room fails: the first call of the log file, once 93 lines wait.
#[test]
fn a_fault_in_making_room(rt: HostRuntime) -> Result<(), Fail> {
    runs_over(&rt, rt.alloc(), &[0], 1 << 20, &NO_ROOM_IS_MADE)
}

const BEFORE_A_CUT: [Row; 3] = [
    (Step::Lines(2), Ok(0)),
    (Step::Flush, Ok(80)),
    (Step::Waiting, Ok(0)),
];

const BEHIND_A_CUT: [Row; 4] = [
    (Step::Waiting, Ok(0)),
    (Step::Durable, Ok(0)),
    (Step::Lines(1), Ok(0)),
    (Step::Flush, Ok(40)),
];

// A log file is written, cut, and written anew.
fn begins_anew<D: Disk>(rt: &impl Abort, journal: &mut Journal, bank: &mut D)
    requires { Reaches D.tells bank.old journal.old }
{
    follows(rt, journal, bank, &BEFORE_A_CUT);
    let cut = bank.cut(0);
    assert_eq!(rt; cut, Ok(()));
    if journal.waiting() == 0 {
        journal.reset();
        follows(rt, journal, bank, &BEHIND_A_CUT);
    }
}

#[test]
fn a_log_file_begins_anew(rt: HostRuntime) -> Result<(), Fail> {
    let mut bank = disk(rt.alloc(), &[], &[])?;
    let mut journal = Journal::new(rt.alloc(), 1000)?;
    begins_anew(&rt, &mut journal, &mut bank);
    assert_eq!(rt; bytes(&bank), LINE.as_slice());
    Ok(())
}
