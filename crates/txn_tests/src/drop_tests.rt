// Schedules in which the keeper takes pages out of memory between the workers' calls. What is expected was worked
// by hand.
use super::*;
use crate::page_tests::two;
use crate::tests::{Row, comes_out};
use engine_pages::{KeptWhy, RefusalCause};
use page_drops::Kept;
use page_records::LOCK;
use std::test::Fail;

// The page of the first slot, behind 32 words and those of 64 slots.
const PAGE: u32 = 32 + 64;

// A transaction read key 0 in memory, whose leaf is what the snapshot has. The page is dropped, and what was read
// is found locked for good: a conflict at its check. The next one reads the same value from the snapshot.
const READ_THEN_DROPPED: [Row; 9] = [
    (1, Call::Begin, Answer::Fine),
    (1, Call::Write(0, 5), Answer::Fine),
    (1, Call::Abort, Answer::Fine),
    (0, Call::Begin, Answer::Fine),
    (0, Call::Read(0), Answer::Value(0)),
    (0, Call::Drop, Answer::Dropped(1, 0, None)),
    (
        0,
        Call::Commit(true),
        Answer::No(RefusalCause::Conflict {
            word: PAGE,
            expected: 0,
            seen: LOCK,
        }),
    ),
    (1, Call::Begin, Answer::Fine),
    (1, Call::Read(0), Answer::Value(0)),
];

#[test]
fn what_was_read_in_a_dropped_page_is_a_conflict(rt: HostRuntime) -> Result<(), Fail> {
    comes_out(two(rt.alloc(), 4, 64)?, 1, &READ_THEN_DROPPED, (1, 0))
}

// The first record was written and isn't what the snapshot has: its page stays, whose other keys can be written.
const UNLIKE: [Row; 10] = [
    (0, Call::Begin, Answer::Fine),
    (0, Call::Write(0, 5), Answer::Fine),
    (0, Call::Commit(true), Answer::Draw(1)),
    (
        0,
        Call::Drop,
        Answer::Dropped(
            0,
            1,
            Some(Kept {
                word: PAGE,
                seen: (1 << 40) + 1,
                why: KeptWhy::Unlike,
            }),
        ),
    ),
    (1, Call::Begin, Answer::Fine),
    (1, Call::Read(0), Answer::Value(5)),
    (1, Call::Write(1, 6), Answer::Fine),
    (1, Call::Commit(true), Answer::Draw(2)),
    (1, Call::Begin, Answer::Fine),
    (1, Call::Read(1), Answer::Value(6)),
];

#[test]
fn a_page_that_is_unlike_the_snapshots_stays(rt: HostRuntime) -> Result<(), Fail> {
    comes_out(two(rt.alloc(), 4, 64)?, 1, &UNLIKE, (2, 2))
}

// A worker has locked the first record, so its page stays; the worker goes on, and behind it the page is unlike.
const LOCKED: [Row; 8] = [
    (1, Call::Hold, Answer::Fine),
    (
        0,
        Call::Drop,
        Answer::Dropped(
            0,
            1,
            Some(Kept {
                word: PAGE,
                seen: LOCK,
                why: KeptWhy::Locked,
            }),
        ),
    ),
    (1, Call::Put(5), Answer::Fine),
    (1, Call::Open, Answer::Fine),
    (
        0,
        Call::Drop,
        Answer::Dropped(
            0,
            1,
            Some(Kept {
                word: PAGE,
                seen: (1 << 40) + 1,
                why: KeptWhy::Unlike,
            }),
        ),
    ),
    (0, Call::Begin, Answer::Fine),
    (0, Call::Read(0), Answer::Value(5)),
    (0, Call::Commit(true), Answer::Draw(2)),
];

#[test]
fn a_page_in_which_a_worker_has_a_lock_stays(rt: HostRuntime) -> Result<(), Fail> {
    comes_out(two(rt.alloc(), 4, 64)?, 1, &LOCKED, (2, 2))
}

// Of two leaves the first was written and stays, and so does the page above them, which leads to it: two are kept. The
// second leaf is dropped below it, and its keys are read from the snapshot; who had read one there has a conflict.
const UNDER: [Row; 15] = [
    (0, Call::Begin, Answer::Fine),
    (0, Call::Write(0, 5), Answer::Fine),
    (0, Call::Commit(true), Answer::Draw(1)),
    (0, Call::Begin, Answer::Fine),
    (0, Call::Write(32, 1), Answer::Fine),
    (0, Call::Abort, Answer::Fine),
    (1, Call::Begin, Answer::Fine),
    (1, Call::Read(33), Answer::Value(0)),
    (
        0,
        Call::Drop,
        Answer::Dropped(
            1,
            2,
            Some(Kept {
                word: PAGE + 64,
                seen: (1 << 40) + 1,
                why: KeptWhy::Unlike,
            }),
        ),
    ),
    (
        1,
        Call::Commit(true),
        Answer::No(RefusalCause::Conflict {
            word: PAGE + 2 * 64 + 2,
            expected: 0,
            seen: LOCK,
        }),
    ),
    (0, Call::Begin, Answer::Fine),
    (0, Call::Read(33), Answer::Value(0)),
    (0, Call::Read(0), Answer::Value(5)),
    (0, Call::Commit(true), Answer::Draw(3)),
    (
        0,
        Call::Drop,
        Answer::Dropped(
            0,
            2,
            Some(Kept {
                word: PAGE + 64,
                seen: (1 << 40) + 1,
                why: KeptWhy::Unlike,
            }),
        ),
    ),
];

#[test]
fn a_page_above_one_that_stays_stays(rt: HostRuntime) -> Result<(), Fail> {
    comes_out(two(rt.alloc(), 300, 64)?, 1, &UNDER, (3, 2))
}

// Where all leaves are what the snapshot has, so are the pages above them, and no page is left: a second call finds
// none.
const ALL: [Row; 10] = [
    (0, Call::Begin, Answer::Fine),
    (0, Call::Write(0, 5), Answer::Fine),
    (0, Call::Write(131_071, 5), Answer::Fine),
    (0, Call::Abort, Answer::Fine),
    (0, Call::Drop, Answer::Dropped(5, 0, None)),
    (0, Call::Drop, Answer::Dropped(0, 0, None)),
    (0, Call::Begin, Answer::Fine),
    (0, Call::Write(0, 5), Answer::Fine),
    (0, Call::Read(131_071), Answer::Value(0)),
    (0, Call::Commit(true), Answer::Draw(1)),
];

#[test]
fn all_pages_of_three_levels_are_dropped(rt: HostRuntime) -> Result<(), Fail> {
    comes_out(two(rt.alloc(), 131_072, 64)?, 1, &ALL, (1, 1))
}

// The word of the only slot, which was given once and given up, with one pass that holds it.
const HELD: u64 = (1 << 18) + (3 << 16) + 1;

const FULL: Answer = Answer::No(RefusalCause::Full {
    held: Some((0, HELD)),
});

// The slot of a dropped page can't be given while a transaction holds it, and can be behind that.
const GIVEN: [Row; 13] = [
    (0, Call::Begin, Answer::Fine),
    (0, Call::Write(0, 5), Answer::Fine),
    (0, Call::Abort, Answer::Fine),
    (0, Call::Begin, Answer::Fine),
    (0, Call::Read(0), Answer::Value(0)),
    (1, Call::Drop, Answer::Dropped(1, 0, None)),
    (1, Call::Begin, Answer::Fine),
    (1, Call::Write(1, 6), FULL),
    (
        0,
        Call::Commit(true),
        Answer::No(RefusalCause::Conflict {
            word: 33,
            expected: 0,
            seen: LOCK,
        }),
    ),
    (1, Call::Begin, Answer::Fine),
    (1, Call::Write(1, 6), Answer::Fine),
    (1, Call::Commit(true), Answer::Draw(2)),
    (
        1,
        Call::Drop,
        Answer::Dropped(
            0,
            1,
            Some(Kept {
                word: 35,
                seen: (1 << 40) + 2,
                why: KeptWhy::Unlike,
            }),
        ),
    ),
];

#[test]
fn a_slot_is_given_again_when_nobody_holds_it(rt: HostRuntime) -> Result<(), Fail> {
    comes_out(two(rt.alloc(), 4, 1)?, 1, &GIVEN, (2, 1))
}

// What was read below a pointer is kept with its word. Where a page came and went since, the word is the same, and the
// commit goes through; where one came, it isn't.
const CAME_AND_WENT: [Row; 13] = [
    (0, Call::Begin, Answer::Fine),
    (0, Call::Read(0), Answer::Value(0)),
    (1, Call::Begin, Answer::Fine),
    (1, Call::Write(1, 6), Answer::Fine),
    (1, Call::Abort, Answer::Fine),
    (1, Call::Drop, Answer::Dropped(1, 0, None)),
    (0, Call::Commit(true), Answer::Draw(1)),
    (0, Call::Begin, Answer::Fine),
    (0, Call::Read(0), Answer::Value(0)),
    (1, Call::Begin, Answer::Fine),
    (1, Call::Write(1, 6), Answer::Fine),
    (1, Call::Abort, Answer::Fine),
    (
        0,
        Call::Commit(true),
        Answer::No(RefusalCause::Conflict {
            word: 10,
            expected: 0,
            seen: 1 << 32,
        }),
    ),
];

#[test]
fn a_page_that_came_and_went_is_no_conflict(rt: HostRuntime) -> Result<(), Fail> {
    comes_out(two(rt.alloc(), 4, 64)?, 1, &CAME_AND_WENT, (2, 1))
}
