// Schedules of two and three workers, sets that are full, transactions made from numbers, and threads. What is expected
// was worked by hand, or is what the plain engine gives.
use super::*;
use engine_pages::{RefusalCause, SetName};
use page_records::LOCK;
use serial_model::{Change, Decl, Key, Memory, Op, Plain, Replies, Reply, Verdict, fits, run_one};
use std::alloc::Global;
use std::test::Fail;
use std::thread::Threads;

// A row of a schedule: who calls, what, and the answer.
pub(crate) type Row = (usize, Call, Answer);

// The word of a commit in epoch 1 with this draw.
pub(crate) const fn word(draw: u64) -> u64 {
    (1 << 40) | draw
}

// The place of the first record's word: behind 32 words, those of 64 slots, and the page of the array's root.
const FIRST: u32 = 32 + 64 + 64;

// The first record is locked by hand.
const HELD: Answer = Answer::No(RefusalCause::Conflict {
    word: FIRST,
    expected: LOCK,
    seen: LOCK,
});

// The first record was never written, and has the first draw's number now.
const CHANGED: Answer = Answer::No(RefusalCause::Conflict {
    word: FIRST,
    expected: 0,
    seen: (1 << 40) + 1,
});

fn is_same(workers: &mut Workers, row: &Row) -> bool {
    workers.play(row.0, row.1) == row.2
}

// What isn't so ends a test. A comparison that is handed on costs a proof much less than an assert does.
pub(crate) fn is_so(what: &str, so: bool) -> Result<(), Fail> {
    if so { Ok(()) } else { Err(Fail::from(what)) }
}

pub(crate) fn is_answer(answer: Answer, wanted: Answer) -> Result<(), Fail> {
    is_so("an answer", answer == wanted)
}

// 300 values in ten pages, and one more above them.
const fn plan(draw: u64) -> Plan {
    Plan {
        size: 300,
        slots: 64,
        draw,
    }
}

// A transaction that comes to nothing brings the pages of the first keys into memory, up to this one, and leaves them.
pub(crate) fn bring_up(workers: &mut Workers, keys: u64) {
    workers.play(0, Call::Begin);
    for page in 0..1 + keys / 32 {
        workers.play(0, Call::Write(32 * page, 0));
    }
    workers.play(0, Call::Abort);
}

// Plays a schedule up to the first row that comes out otherwise. Answers how many rows came out as they say.
fn rows_met(workers: &mut Workers, rows: &[Row]) -> usize {
    for i in 0..rows.len() {
        if !is_same(workers, &rows[i]) {
            return i;
        }
    }
    rows.len()
}

// Plays a schedule: all comes out as its rows say, with so many draws from this one on, and commits.
pub(crate) fn comes_out(
    mut workers: Workers,
    first: u64,
    rows: &[Row],
    (draws, commits): (u64, u64),
) -> Result<(), Fail> {
    let met = rows_met(&mut workers, rows);
    let (clock, committed) = workers.close();
    is_so("the rows", met == rows.len())?;
    is_so(
        "the draws",
        (clock % (1 << 40)).saturating_sub(first) == draws,
    )?;
    is_so("the commits", committed == commits)
}

// Three workers from this first draw on, over pages in memory.
fn three(alloc: Global, first: u64) -> Result<Workers, Memory> {
    let mut workers = Workers::new(alloc, plan(first), 3)?;
    bring_up(&mut workers, 0);
    Ok(workers)
}

const LOST_UPDATE: [Row; 10] = [
    (0, Call::Begin, Answer::Fine),
    (0, Call::Read(0), Answer::Value(0)),
    (1, Call::Begin, Answer::Fine),
    (1, Call::Write(0, 0), Answer::Fine),
    (1, Call::Commit(true), Answer::Draw(1)),
    (0, Call::Write(0, 1), Answer::Fine),
    // The word isn't the one that was read, so it isn't locked, and no draw is used.
    (0, Call::Commit(true), CHANGED),
    (1, Call::Begin, Answer::Fine),
    (1, Call::Add(0, 2), Answer::Fine),
    (1, Call::Commit(true), Answer::Draw(2)),
];

#[test]
fn a_lost_update_is_refused(rt: HostRuntime) -> Result<(), Fail> {
    comes_out(three(rt.alloc(), 1)?, 1, &LOST_UPDATE, (2, 2))
}

const CHANGED_READ: [Row; 10] = [
    (0, Call::Begin, Answer::Fine),
    (0, Call::Read(0), Answer::Value(0)),
    (1, Call::Begin, Answer::Fine),
    (1, Call::Write(0, 0), Answer::Fine),
    (1, Call::Commit(true), Answer::Draw(1)),
    (0, Call::Write(1, 1), Answer::Fine),
    (0, Call::Commit(true), CHANGED),
    (0, Call::Begin, Answer::Fine),
    (0, Call::Write(1, 1), Answer::Fine),
    (0, Call::Commit(true), Answer::Draw(3)),
];

#[test]
fn a_read_that_changed_is_refused(rt: HostRuntime) -> Result<(), Fail> {
    comes_out(three(rt.alloc(), 1)?, 1, &CHANGED_READ, (3, 2))
}

const WRITE_SKEW: [Row; 12] = [
    (0, Call::Begin, Answer::Fine),
    (1, Call::Begin, Answer::Fine),
    (0, Call::Read(0), Answer::Value(0)),
    (1, Call::Read(1), Answer::Value(0)),
    (0, Call::Write(1, 5), Answer::Fine),
    (1, Call::Write(0, 6), Answer::Fine),
    (0, Call::Commit(true), Answer::Draw(1)),
    (
        1,
        Call::Commit(true),
        Answer::No(RefusalCause::Conflict {
            word: FIRST + 2,
            expected: 0,
            seen: (1 << 40) + 1,
        }),
    ),
    (2, Call::Begin, Answer::Fine),
    (2, Call::Read(0), Answer::Value(0)),
    (2, Call::Read(1), Answer::Value(5)),
    (2, Call::Commit(true), Answer::Draw(3)),
];

#[test]
fn write_skew_is_refused(rt: HostRuntime) -> Result<(), Fail> {
    comes_out(three(rt.alloc(), 1)?, 1, &WRITE_SKEW, (3, 2))
}

const TURNS: [Row; 21] = [
    (0, Call::Begin, Answer::Fine),
    (1, Call::Begin, Answer::Fine),
    (2, Call::Begin, Answer::Fine),
    (0, Call::Add(0, 1), Answer::Fine),
    (1, Call::Add(1, 2), Answer::Fine),
    (2, Call::Read(0), Answer::Value(0)),
    // A blind write of what another one reads is no conflict with it; the reader's own check is.
    (2, Call::Write(1, 9), Answer::Fine),
    (1, Call::Commit(true), Answer::Draw(1)),
    (0, Call::Commit(true), Answer::Draw(2)),
    (
        2,
        Call::Commit(true),
        Answer::No(RefusalCause::Conflict {
            word: FIRST,
            expected: 0,
            seen: (1 << 40) + 2,
        }),
    ),
    (2, Call::Begin, Answer::Fine),
    (2, Call::Write(1, 9), Answer::Fine),
    (1, Call::Begin, Answer::Fine),
    (1, Call::Read(2), Answer::Value(0)),
    (1, Call::Write(1, 7), Answer::Fine),
    (1, Call::Commit(true), Answer::Draw(4)),
    (2, Call::Commit(true), Answer::Draw(5)),
    (0, Call::Begin, Answer::Fine),
    (0, Call::Read(1), Answer::Value(9)),
    (0, Call::Take(1, 10), Answer::Short),
    (0, Call::Commit(false), Answer::Draw(6)),
];

#[test]
fn three_workers_take_turns(rt: HostRuntime) -> Result<(), Fail> {
    comes_out(three(rt.alloc(), 1)?, 1, &TURNS, (6, 5))
}

const OWN_WRITES: [Row; 21] = [
    (0, Call::Begin, Answer::Fine),
    (0, Call::Write(2, 5), Answer::Fine),
    (0, Call::Read(2), Answer::Value(5)),
    (0, Call::Add(2, 4), Answer::Fine),
    (0, Call::Take(2, 2), Answer::Fine),
    (0, Call::Read(2), Answer::Value(7)),
    (0, Call::Commit(true), Answer::Draw(1)),
    (0, Call::Begin, Answer::Fine),
    (0, Call::Write(2, 1), Answer::Fine),
    (0, Call::Take(3, 1), Answer::Short),
    (0, Call::Commit(false), Answer::Draw(2)),
    (0, Call::Begin, Answer::Fine),
    (0, Call::Read(2), Answer::Value(7)),
    (0, Call::Add(2, u64::MAX), Answer::Over),
    (0, Call::Commit(false), Answer::Draw(3)),
    (0, Call::Begin, Answer::Fine),
    (0, Call::Write(2, 9), Answer::Fine),
    (0, Call::Abort, Answer::Fine),
    (0, Call::Begin, Answer::Fine),
    (0, Call::Read(2), Answer::Value(7)),
    (0, Call::Commit(true), Answer::Draw(4)),
];

#[test]
fn own_writes_are_read_back(rt: HostRuntime) -> Result<(), Fail> {
    comes_out(three(rt.alloc(), 1)?, 1, &OWN_WRITES, (4, 4))
}

// Worker 1's transaction is made by hand: a lock is met, and a value that is put and not opened yet.
const BETWEEN_PUT_AND_OPEN: [Row; 13] = [
    (0, Call::Begin, Answer::Fine),
    (0, Call::Write(0, 3), Answer::Fine),
    (1, Call::Hold, Answer::Fine),
    (0, Call::Commit(true), HELD),
    (0, Call::Begin, Answer::Fine),
    (0, Call::Read(0), HELD),
    (1, Call::Put(9), Answer::Fine),
    (0, Call::Begin, Answer::Fine),
    (0, Call::Read(0), HELD),
    (1, Call::Open, Answer::Fine),
    (0, Call::Begin, Answer::Fine),
    (0, Call::Read(0), Answer::Value(9)),
    (0, Call::Commit(true), Answer::Draw(2)),
];

#[test]
fn a_reader_between_put_and_open(rt: HostRuntime) -> Result<(), Fail> {
    comes_out(three(rt.alloc(), 1)?, 1, &BETWEEN_PUT_AND_OPEN, (2, 2))
}

// The first draw that no transaction begins at: 64 below 2^40.
const LAST: u64 = 1_099_511_627_712;

// Nobody begins at it.
const AT_THE_LAST: [Row; 2] = [(0, Call::Begin, NO_NUMBER), (1, Call::Begin, NO_NUMBER)];

const NO_NUMBER: Answer = Answer::No(RefusalCause::NumberLimit {
    clock: (1 << 40) + LAST,
});

// Two begin at one draw less, so the second one draws at the limit.
const LAST_DRAWS: [Row; 7] = [
    (0, Call::Begin, Answer::Fine),
    (1, Call::Begin, Answer::Fine),
    (0, Call::Add(0, 1), Answer::Fine),
    (1, Call::Add(1, 1), Answer::Fine),
    (0, Call::Commit(true), Answer::Draw(LAST - 1)),
    (1, Call::Commit(true), Answer::Draw(LAST)),
    (
        2,
        Call::Begin,
        Answer::No(RefusalCause::NumberLimit {
            clock: (1 << 40) + LAST + 1,
        }),
    ),
];

#[test]
fn the_last_draws_begin_nothing(rt: HostRuntime) -> Result<(), Fail> {
    comes_out(three(rt.alloc(), LAST)?, LAST, &AT_THE_LAST, (0, 0))?;
    comes_out(three(rt.alloc(), LAST - 1)?, LAST - 1, &LAST_DRAWS, (2, 2))
}

fn change(key: u64, value: u64) -> Option<Change> {
    Some(Change {
        key: Key { storage: 1, key },
        value: Some(value),
    })
}

fn is_change(workers: &Workers, at: usize, wanted: Option<Change>) -> Result<(), Fail> {
    is_so("a change", workers.change(0, at) == wanted)
}

// Keys are written in no order, and one twice.
const UNORDERED: [Row; 6] = [
    (0, Call::Begin, Answer::Fine),
    (0, Call::Write(7, 1), Answer::Fine),
    (0, Call::Write(2, 5), Answer::Fine),
    (0, Call::Add(7, 3), Answer::Fine),
    (0, Call::Write(4, 6), Answer::Fine),
    (0, Call::Commit(true), Answer::Draw(1)),
];

fn stand_in_order(workers: &mut Workers) -> Result<(), Fail> {
    is_so("the writes", rows_met(workers, &UNORDERED) == 6)?;
    is_change(workers, 0, change(2, 5))?;
    is_change(workers, 1, change(4, 6))?;
    is_change(workers, 2, change(7, 4))?;
    is_change(workers, 3, None)
}

#[test]
fn changes_stand_in_order_of_key(rt: HostRuntime) -> Result<(), Fail> {
    let mut workers = Workers::new(rt.alloc(), plan(1), 1)?;
    stand_in_order(&mut workers)
}

// The same call at another key.
fn at_key(call: Call, k: u64) -> Call {
    match call {
        Call::Add(_, v) => Call::Add(k, v),
        Call::Grow(_, v) => Call::Grow(k, v),
        _ => Call::Read(k),
    }
}

// Begins, and makes the call for each of the first keys. Answers the last answer: behind a refusal each is `Wrong`.
fn many(workers: &mut Workers, count: u64, call: Call) -> Answer {
    let mut last = workers.play(0, Call::Begin);
    for k in 0..count {
        last = workers.play(0, at_key(call, k));
    }
    last
}

const fn wide(set: SetName) -> Answer {
    Answer::No(RefusalCause::Wide { set })
}

fn fill_writes(workers: &mut Workers) -> Result<(), Fail> {
    is_answer(many(workers, 16, Call::Add(0, 7)), Answer::Fine)?;
    is_answer(workers.play(0, Call::Commit(true)), Answer::Draw(1))?;
    is_answer(many(workers, 17, Call::Add(0, 7)), wide(SetName::Writes))?;
    is_answer(many(workers, 17, Call::Grow(0, 7)), wide(SetName::Writes))
}

fn fill_reads(workers: &mut Workers) -> Result<(), Fail> {
    is_answer(many(workers, 256, Call::Read(0)), Answer::Value(0))?;
    is_answer(workers.play(0, Call::Read(3)), Answer::Value(7))?;
    is_answer(workers.play(0, Call::Commit(true)), Answer::Draw(2))?;
    is_answer(many(workers, 257, Call::Read(0)), wide(SetName::Reads))
}

fn fill_sets(workers: &mut Workers) -> Result<(), Fail> {
    bring_up(workers, 256);
    fill_writes(workers)?;
    fill_reads(workers)
}

#[test]
fn sets_are_full_at_16_and_256(rt: HostRuntime) -> Result<(), Fail> {
    let mut workers = Workers::new(rt.alloc(), plan(1), 1)?;
    fill_sets(&mut workers)
}

// The next number of a row that looks like chance (xorshift).
fn next(seed: u64) -> u64 {
    let a = seed ^ (seed << 13);
    let b = a ^ (a >> 7);
    b ^ (b << 17)
}

fn key_of(n: u64) -> Key {
    Key {
        storage: 1,
        key: (n >> 8) % 6,
    }
}

fn value_of(n: u64) -> u64 {
    (n >> 16) % 9
}

// An operation made of a number, on one of six keys.
fn op_of(n: u64) -> Op {
    let key = key_of(n);
    let value = value_of(n);
    match n & 3 {
        0 => Op::Read(key),
        1 => Op::Write(key, value),
        2 => Op::Add(key, value),
        _ => Op::Take(key, value),
    }
}

fn call_of(op: &Op) -> Call {
    match *op {
        Op::Read(key) => Call::Read(key.key),
        Op::Write(key, v) => Call::Write(key.key, v),
        Op::Add(key, v) => Call::Add(key.key, v),
        Op::Take(key, v) => Call::Take(key.key, v),
        _ => Call::Abort,
    }
}

// Up to six operations made of a number.
fn ops_of(alloc: Global, seed: u64) -> Result<Vec<Op>, Memory> {
    let mut ops = Vec::new(alloc);
    let mut n = seed;
    for _ in 0..1 + seed % 6 {
        n = next(n);
        ops.push(op_of(n))?;
    }
    Ok(ops)
}

// What a transaction of worker 0 comes to: its verdict and replies, and None where a call was refused.
fn outcome(
    alloc: Global,
    workers: &mut Workers,
    ops: &[Op],
) -> Result<Option<(Verdict, Replies)>, Memory> {
    let mut replies = Replies::new(alloc);
    let mut verdict = Verdict::Done;
    workers.play(0, Call::Begin);
    for op in ops {
        match workers.play(0, call_of(op)) {
            Answer::Fine => {}
            Answer::Value(v) => replies.push(Reply::Value(v))?,
            Answer::Short => verdict = Verdict::Short,
            Answer::Over => verdict = Verdict::Over,
            _ => return Ok(None),
        }
        if verdict != Verdict::Done {
            break;
        }
    }
    match workers.play(0, Call::Commit(verdict == Verdict::Done)) {
        Answer::Draw(_) => Ok(Some((verdict, replies))),
        _ => Ok(None),
    }
}

// Whether a transaction comes to the same on the plain engine, up to the operation that ended it.
fn is_as_plain(
    alloc: Global,
    workers: &mut Workers,
    plain: &mut Plain,
    ops: &[Op],
) -> Result<bool, Memory> {
    if !ops.iter().all(|op| fits(plain.decls.as_slice(), op)) {
        return Ok(false);
    }
    let (verdict, replies) = run_one(alloc, plain, ops)?;
    match outcome(alloc, workers, ops)? {
        Some((got, told)) => Ok(got == verdict && told == replies),
        None => Ok(false),
    }
}

// A transaction made of a number comes to the same on both engines.
fn check_seed(
    alloc: Global,
    workers: &mut Workers,
    plain: &mut Plain,
    seed: u64,
) -> Result<(), Fail> {
    let ops = ops_of(alloc, seed)?;
    let same = is_as_plain(alloc, workers, plain, ops.as_slice())?;
    is_so("as on the plain engine", same)
}

// And so does one that reads all keys.
fn check_keys(alloc: Global, workers: &mut Workers, plain: &mut Plain) -> Result<(), Fail> {
    let mut reads = Vec::new(alloc);
    for k in 0..6 {
        reads.push(Op::Read(Key { storage: 1, key: k }))?;
    }
    let same = is_as_plain(alloc, workers, plain, reads.as_slice())?;
    is_so("the same stands at the keys", same)
}

fn check_seeds(alloc: Global, workers: &mut Workers, plain: &mut Plain) -> Result<(), Fail> {
    let mut seed = 88_172_645_463_325_252;
    for _ in 0..3000 {
        seed = next(seed);
        check_seed(alloc, workers, plain, seed)?;
    }
    check_keys(alloc, workers, plain)
}

const DECLS: [Decl; 1] = [Decl::Array { id: 1, size: 300 }];

fn check_plain(alloc: Global, workers: &mut Workers) -> Result<(), Fail> {
    let mut plain = Plain::new(alloc, &DECLS)?;
    check_seeds(alloc, workers, &mut plain)
}

#[test]
fn one_seat_is_as_the_plain_engine(rt: HostRuntime) -> Result<(), Fail> {
    let mut workers = Workers::new(rt.alloc(), plan(1), 1)?;
    bring_up(&mut workers, 0);
    check_plain(rt.alloc(), &mut workers)?;
    let (clock, commits) = workers.close();
    is_so("3,001 commits", clock == word(3002) && commits == 3001)
}

fn read(workers: &mut Workers, key: u64) -> u64 {
    match workers.play(0, Call::Read(key)) {
        Answer::Value(v) => v,
        _ => 0,
    }
}

// What came of workers that added in threads to two keys each time: the sum of the keys, how often they have added, how
// many draws and commits there were up to then.
#[derive(Clone, Copy)]
struct Sums {
    keys: u64,
    added: u64,
    draws: u64,
    commits: u64,
}

// Workers add in threads, and worker 0 then reads all keys to which they may have added.
fn add_in_threads<R: Threads + Sync>(
    rt: &R,
    alloc: Global,
    count: u8,
    apart: bool,
) -> Result<Sums, Memory> {
    let mut workers = Workers::new(alloc, plan(1), count)?;
    workers.add_in_threads(rt, 500, apart);
    workers.play(0, Call::Begin);
    let mut keys = 0u64;
    let mut added = 0u64;
    for i in 0..8 {
        keys = keys.saturating_add(read(&mut workers, 16 * i));
        keys = keys.saturating_add(read(&mut workers, 16 * i + 1));
        added = added.saturating_add(workers.done(i as usize));
    }
    workers.play(0, Call::Commit(true));
    let (clock, commits) = workers.close();
    Ok(Sums {
        keys,
        added,
        draws: (clock % (1 << 40)).saturating_sub(2),
        commits: commits.saturating_sub(1),
    })
}

// How many workers, and how often all of them add: none meets another.
const APART: [(u8, u64); 2] = [(2, 1000), (8, 4000)];

fn is_apart(sums: Sums, all: u64) -> Result<(), Fail> {
    is_so("both keys", sums.keys == all.saturating_mul(2))?;
    is_so("added", sums.added == all)?;
    is_so(
        "draws and commits",
        sums.draws == all && sums.commits == all,
    )
}

#[test]
fn workers_add_apart_in_threads(rt: HostRuntime) -> Result<(), Fail> {
    for (count, all) in &APART {
        is_apart(add_in_threads(&rt, rt.alloc(), *count, true)?, *all)?;
    }
    Ok(())
}

fn is_together(sums: Sums) -> Result<(), Fail> {
    is_so("both keys", sums.keys == sums.added.saturating_mul(2))?;
    is_so("commits", sums.commits == sums.added)?;
    is_so("draws", sums.draws >= sums.added && sums.added > 0)
}

const COUNTS: [u8; 2] = [2, 8];

// They meet, so some draws are for nothing, and one that meets too often gives up.
#[test]
fn workers_add_to_the_same_keys_in_threads(rt: HostRuntime) -> Result<(), Fail> {
    for count in &COUNTS {
        is_together(add_in_threads(&rt, rt.alloc(), *count, false)?)?;
    }
    Ok(())
}
