// Schedules in which pages come into memory, pointers are met, and slots run out. What is expected was worked by hand.
use super::*;
use crate::tests::{Row, comes_out, is_answer, is_so, word};
use engine_pages::{RefusalCause, SetName};
use lists::Memory;
use std::alloc::Global;
use std::test::Fail;

// Two workers on an array without a page.
pub(crate) fn two(alloc: Global, size: u32, slots: u32) -> Result<Workers, Memory> {
    let plan = Plan {
        size,
        slots,
        draw: 1,
    };
    Workers::new(alloc, plan, 2)
}

const FULL: Answer = Answer::No(RefusalCause::Full { held: None });

// Four slots have room for the page above the leaves and for three leaves: the fourth leaf finds none, before any draw,
// and another transaction goes on in those that are there.
const FOURTH_LEAF: [Row; 17] = [
    (0, Call::Begin, Answer::Fine),
    (0, Call::Write(0, 1), Answer::Fine),
    (0, Call::Commit(true), Answer::Draw(1)),
    (0, Call::Begin, Answer::Fine),
    (0, Call::Write(32, 1), Answer::Fine),
    (0, Call::Commit(true), Answer::Draw(2)),
    (0, Call::Begin, Answer::Fine),
    (0, Call::Write(64, 1), Answer::Fine),
    (0, Call::Commit(true), Answer::Draw(3)),
    (0, Call::Begin, Answer::Fine),
    (0, Call::Write(96, 1), FULL),
    (1, Call::Begin, Answer::Fine),
    (1, Call::Add(96, 1), FULL),
    (1, Call::Begin, Answer::Fine),
    (1, Call::Read(96), Answer::Value(0)),
    (1, Call::Add(64, 1), Answer::Fine),
    (1, Call::Commit(true), Answer::Draw(4)),
];

#[test]
fn four_slots_are_full_at_the_fourth_leaf(rt: HostRuntime) -> Result<(), Fail> {
    comes_out(two(rt.alloc(), 160, 4)?, 1, &FOURTH_LEAF, (4, 4))
}

// The word of the first record is the first one of the first slot's page. What was read there changed, so the commit
// fails at its check, with a draw; nothing stays locked, and the next draw is one more.
const CHANGED_RECORD: [Row; 15] = [
    (1, Call::Begin, Answer::Fine),
    (1, Call::Write(0, 5), Answer::Fine),
    (1, Call::Write(1, 6), Answer::Fine),
    (1, Call::Commit(true), Answer::Draw(1)),
    (0, Call::Begin, Answer::Fine),
    (0, Call::Read(0), Answer::Value(5)),
    (1, Call::Begin, Answer::Fine),
    (1, Call::Write(0, 7), Answer::Fine),
    (1, Call::Commit(true), Answer::Draw(2)),
    (0, Call::Write(1, 8), Answer::Fine),
    (
        0,
        Call::Commit(true),
        Answer::No(RefusalCause::Conflict {
            word: 288,
            expected: 0x0000010000000001,
            seen: 0x0000010000000002,
        }),
    ),
    (1, Call::Begin, Answer::Fine),
    (1, Call::Read(1), Answer::Value(6)),
    (1, Call::Add(1, 1), Answer::Fine),
    (1, Call::Commit(true), Answer::Draw(4)),
];

#[test]
fn a_record_that_changed_is_told_by_its_word(rt: HostRuntime) -> Result<(), Fail> {
    comes_out(two(rt.alloc(), 4, 256)?, 1, &CHANGED_RECORD, (4, 3))
}

// What was read below the root's pointer is kept with it; the own write leads the pointer to a page, and so the
// transaction is refused at once, without a draw. Tried again it finds the page.
const OWN_PAGE: [Row; 10] = [
    (0, Call::Begin, Answer::Fine),
    (0, Call::Read(0), Answer::Value(0)),
    (
        0,
        Call::Write(0, 5),
        Answer::No(RefusalCause::Conflict {
            word: 10,
            expected: 0,
            seen: 1 << 32,
        }),
    ),
    (0, Call::Begin, Answer::Fine),
    (0, Call::Read(0), Answer::Value(0)),
    (0, Call::Write(0, 5), Answer::Fine),
    (0, Call::Commit(true), Answer::Draw(1)),
    (0, Call::Begin, Answer::Fine),
    (0, Call::Read(0), Answer::Value(5)),
    (0, Call::Commit(true), Answer::Draw(2)),
];

#[test]
fn an_own_page_over_a_pointer_that_was_met_is_told(rt: HostRuntime) -> Result<(), Fail> {
    comes_out(two(rt.alloc(), 4, 256)?, 1, &OWN_PAGE, (2, 2))
}

// An addition brings its page up before it reads, and so meets no pointer.
const ADDITIONS: [Row; 10] = [
    (0, Call::Begin, Answer::Fine),
    (0, Call::Add(0, 5), Answer::Fine),
    (0, Call::Take(1, 1), Answer::Short),
    (0, Call::Commit(false), Answer::Draw(1)),
    (0, Call::Begin, Answer::Fine),
    (0, Call::Add(0, 5), Answer::Fine),
    (0, Call::Commit(true), Answer::Draw(2)),
    (0, Call::Begin, Answer::Fine),
    (0, Call::Read(0), Answer::Value(5)),
    (0, Call::Commit(true), Answer::Draw(3)),
];

#[test]
fn an_addition_needs_no_second_try(rt: HostRuntime) -> Result<(), Fail> {
    comes_out(two(rt.alloc(), 4, 4)?, 1, &ADDITIONS, (3, 3))
}

// A page that another worker brings in is told to who read below its pointer: at the root, and in the page above the
// leaves, whose second pointer stands behind 32 words and those of 64 slots.
const BROUGHT_IN: [Row; 17] = [
    (0, Call::Begin, Answer::Fine),
    (0, Call::Read(0), Answer::Value(0)),
    (1, Call::Begin, Answer::Fine),
    (1, Call::Write(1, 5), Answer::Fine),
    (1, Call::Commit(true), Answer::Draw(1)),
    (
        0,
        Call::Commit(true),
        Answer::No(RefusalCause::Conflict {
            word: 10,
            expected: 0,
            seen: 1 << 32,
        }),
    ),
    (0, Call::Begin, Answer::Fine),
    (0, Call::Read(40), Answer::Value(0)),
    (0, Call::Read(0), Answer::Value(0)),
    (1, Call::Begin, Answer::Fine),
    (1, Call::Write(41, 6), Answer::Fine),
    (1, Call::Commit(true), Answer::Draw(3)),
    (
        0,
        Call::Commit(true),
        Answer::No(RefusalCause::Conflict {
            word: 97,
            expected: 0,
            seen: 3 << 32,
        }),
    ),
    (0, Call::Begin, Answer::Fine),
    (0, Call::Read(40), Answer::Value(0)),
    (0, Call::Read(41), Answer::Value(6)),
    (0, Call::Commit(true), Answer::Draw(5)),
];

#[test]
fn a_page_that_another_brings_in_is_a_conflict(rt: HostRuntime) -> Result<(), Fail> {
    comes_out(two(rt.alloc(), 300, 64)?, 1, &BROUGHT_IN, (5, 3))
}

// The way to the last of 131,072 values leads over two pages above its leaf, which takes the third of 64 slots.
const LARGEST: [Row; 14] = [
    (0, Call::Begin, Answer::Fine),
    (0, Call::Write(131_071, 9), Answer::Fine),
    (0, Call::Commit(true), Answer::Draw(1)),
    (0, Call::Begin, Answer::Fine),
    (0, Call::Read(131_071), Answer::Value(9)),
    (0, Call::Read(131_070), Answer::Value(0)),
    (0, Call::Read(0), Answer::Value(0)),
    (1, Call::Begin, Answer::Fine),
    (1, Call::Add(131_071, 1), Answer::Fine),
    (1, Call::Commit(true), Answer::Draw(2)),
    (
        0,
        Call::Commit(true),
        Answer::No(RefusalCause::Conflict {
            word: 32 + 64 + 2 * 64 + 62,
            expected: (1 << 40) + 1,
            seen: (1 << 40) + 2,
        }),
    ),
    (1, Call::Begin, Answer::Fine),
    (1, Call::Read(131_071), Answer::Value(10)),
    (1, Call::Commit(true), Answer::Draw(4)),
];

#[test]
fn the_largest_array_has_three_pages_on_the_way(rt: HostRuntime) -> Result<(), Fail> {
    comes_out(two(rt.alloc(), 131_072, 64)?, 1, &LARGEST, (4, 3))
}

// Two slots are too few for an array whose leaf stands below two pages; nothing was drawn, and reads go on.
const NO_SLOT: [Row; 5] = [
    (0, Call::Begin, Answer::Fine),
    (0, Call::Write(5, 9), FULL),
    (0, Call::Begin, Answer::Fine),
    (0, Call::Read(5), Answer::Value(0)),
    (0, Call::Commit(true), Answer::Draw(1)),
];

#[test]
fn a_way_that_finds_no_slot_is_full(rt: HostRuntime) -> Result<(), Fail> {
    comes_out(two(rt.alloc(), 131_072, 2)?, 1, &NO_SLOT, (1, 1))
}

const fn wide(set: SetName) -> Answer {
    Answer::No(RefusalCause::Wide { set })
}

// An array of 131,072 values, all of whose first leaves up to this one are in memory.
fn with_leaves(alloc: Global, leaves: u64) -> Result<Workers, Memory> {
    let plan = Plan {
        size: 131_072,
        slots: 256,
        draw: 1,
    };
    let mut workers = Workers::new(alloc, plan, 1)?;
    for leaf in 0..leaves {
        workers.play(0, Call::Begin);
        workers.play(0, Call::Write(leaf.wrapping_mul(32), 1));
        workers.play(0, Call::Abort);
    }
    Ok(workers)
}

// A transaction that reads a key of each of these leaves. Answers the last answer.
fn read_leaves(workers: &mut Workers, from: u64, to: u64) -> Answer {
    let mut last = Answer::Fine;
    for leaf in from..to {
        last = workers.play(0, Call::Read(leaf.wrapping_mul(32)));
    }
    last
}

fn fill_holds(workers: &mut Workers) -> Result<(), Fail> {
    workers.play(0, Call::Begin);
    is_answer(read_leaves(workers, 0, 125), Answer::Value(0))?;
    is_answer(workers.play(0, Call::Read(1)), Answer::Value(0))?;
    is_answer(workers.play(0, Call::Read(32 * 125)), wide(SetName::Holds))?;
    is_answer(workers.play(0, Call::Begin), Answer::Fine)?;
    is_answer(read_leaves(workers, 1, 126), Answer::Value(0))?;
    is_answer(workers.play(0, Call::Commit(true)), Answer::Draw(1))
}

// 125 leaves, two pages above them and the root's are 128 that are held: the next leaf is one too many.
#[test]
fn holds_are_full_at_128(rt: HostRuntime) -> Result<(), Fail> {
    let mut workers = with_leaves(rt.alloc(), 126)?;
    fill_holds(&mut workers)
}

fn fill_pointers(workers: &mut Workers) -> Result<(), Fail> {
    is_answer(read_leaves(workers, 1, 64), Answer::Value(0))?;
    is_answer(read_leaves(workers, 65, 128), Answer::Value(0))?;
    is_answer(read_leaves(workers, 129, 131), Answer::Value(0))?;
    is_answer(workers.play(0, Call::Read(33)), Answer::Value(0))?;
    is_answer(
        workers.play(0, Call::Read(32 * 131)),
        wide(SetName::Pointers),
    )
}

// Of leaves that are not in memory each one's pointer is met, below pages that are; 128 of them are all that a
// transaction keeps, and what was read below needs no more room.
#[test]
fn pointers_are_full_at_128(rt: HostRuntime) -> Result<(), Fail> {
    let mut workers = with_leaves(rt.alloc(), 1)?;
    workers.play(0, Call::Begin);
    workers.play(0, Call::Write(2048, 1));
    workers.play(0, Call::Write(4096, 1));
    workers.play(0, Call::Abort);
    workers.play(0, Call::Begin);
    fill_pointers(&mut workers)
}

// All 300 keys of an array without a page are below one pointer, and need no entry.
#[test]
fn keys_below_one_pointer_need_no_entries(rt: HostRuntime) -> Result<(), Fail> {
    let plan = Plan {
        size: 300,
        slots: 4,
        draw: 1,
    };
    let mut workers = Workers::new(rt.alloc(), plan, 1)?;
    workers.repeat(0, Work::ReadMany(300), 1);
    let all = workers.done(0);
    let (clock, commits) = workers.close();
    is_so("all were read", all == 1)?;
    is_so("one commit", clock == word(2) && commits == 1)
}
