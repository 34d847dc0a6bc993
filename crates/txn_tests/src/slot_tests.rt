// Schedules of hands, and threads that take the slots which others hold. What is expected was worked by hand.
use super::*;
use crate::tests::is_so;
use lists::Memory;
use std::alloc::Global;
use std::test::Fail;

// A row of a schedule: who acts, what it does, and what comes of it.
type Row = (usize, Deed, Gave);

// Slots of four, published and given once.
const PUBLISHED: u64 = 0x60000;

const RETIRED: u64 = 0x70000;

fn is_same(hands: &mut Hands, row: &Row) -> bool {
    hands.act(row.0, row.1) == row.2
}

// Plays a schedule of eight hands with four slots. Answers the row that came out otherwise, where one did.
fn play(alloc: Global, rows: &[Row]) -> Result<Option<usize>, Memory> {
    let mut hands = Hands::new(alloc, 4, 8)?;
    let mut other = None;
    for i in 0..rows.len() {
        if other.is_none() && !is_same(&mut hands, &rows[i]) {
            other = Some(i);
        }
    }
    Ok(other)
}

// All four slots are given and published once. The first one is held as it is given up, and so it is given again only
// once it is left.
const IN_USE: [Row; 16] = [
    (0, Deed::Give, Gave::Slot(0)),
    (0, Deed::Publish, Gave::Fine),
    (1, Deed::Give, Gave::Slot(1)),
    (1, Deed::Publish, Gave::Fine),
    (2, Deed::Give, Gave::Slot(2)),
    (2, Deed::Publish, Gave::Fine),
    (3, Deed::Give, Gave::Slot(3)),
    (3, Deed::Publish, Gave::Fine),
    (4, Deed::Give, Gave::Full(None)),
    (5, Deed::Enter(0), Gave::Fine),
    (5, Deed::Look(0), Gave::Word(PUBLISHED + 1)),
    (0, Deed::Retire, Gave::Fine),
    (4, Deed::Give, Gave::Full(Some((0, RETIRED + 1)))),
    (5, Deed::Leave, Gave::Fine),
    (4, Deed::Give, Gave::Slot(0)),
    (4, Deed::Look(0), Gave::Word(0x90000)),
];

#[test]
fn a_slot_in_use_is_not_given(rt: HostRuntime) -> Result<(), Fail> {
    is_so("a slot in use", play(rt.alloc(), &IN_USE)?.is_none())
}

// Of two slots that are given up while others hold them the lower one is told, whichever was given up first; and a slot
// that is held twice is given once it is left twice.
const LOWEST: [Row; 21] = [
    (0, Deed::Give, Gave::Slot(0)),
    (1, Deed::Give, Gave::Slot(1)),
    (2, Deed::Give, Gave::Slot(2)),
    (3, Deed::Give, Gave::Slot(3)),
    (1, Deed::Publish, Gave::Fine),
    (3, Deed::Publish, Gave::Fine),
    (4, Deed::Enter(3), Gave::Fine),
    (3, Deed::Retire, Gave::Fine),
    (7, Deed::Give, Gave::Full(Some((3, RETIRED + 1)))),
    (5, Deed::Enter(1), Gave::Fine),
    (6, Deed::Enter(1), Gave::Fine),
    (1, Deed::Retire, Gave::Fine),
    (7, Deed::Give, Gave::Full(Some((1, RETIRED + 2)))),
    (5, Deed::Leave, Gave::Fine),
    (7, Deed::Give, Gave::Full(Some((1, RETIRED + 1)))),
    (4, Deed::Leave, Gave::Fine),
    (7, Deed::Give, Gave::Slot(3)),
    (6, Deed::Leave, Gave::Fine),
    (1, Deed::Give, Gave::Slot(1)),
    (1, Deed::Look(1), Gave::Word(0x90000)),
    (1, Deed::Look(0), Gave::Word(0x50000)),
];

#[test]
fn the_lowest_retired_slot_is_told(rt: HostRuntime) -> Result<(), Fail> {
    is_so(
        "the lowest retired slot",
        play(rt.alloc(), &LOWEST)?.is_none(),
    )
}

fn word_of(hands: &mut Hands, slot: u32) -> u64 {
    match hands.act(0, Deed::Look(slot)) {
        Gave::Word(word) => word,
        _ => 0,
    }
}

// What came of hands that worked in threads: how often slots were given by their words, and by the hands; how often one
// was given that was held; and how many are neither free nor retired, or still held.
fn worked<R: std::thread::Threads + Sync>(
    rt: &R,
    alloc: Global,
    count: u8,
) -> Result<(u64, u64, u64, u64), Memory> {
    let mut hands = Hands::new(alloc, 4, count)?;
    hands.work_in_threads(rt, 2000);
    let mut times = 0u64;
    let mut given = 0u64;
    let mut lost = 0u64;
    let mut busy = 0u64;
    for i in 0..8 {
        let (gave, missed) = hands.counts(i);
        given = given.saturating_add(gave);
        lost = lost.saturating_add(missed);
    }
    for slot in 0..4 {
        let word = word_of(&mut hands, slot);
        times = times.saturating_add(word >> 18);
        let low = word % (1 << 18);
        if low != 0 && low != RETIRED % (1 << 18) {
            busy = busy.saturating_add(1);
        }
    }
    Ok((times, given, lost, busy))
}

#[test]
fn slots_that_threads_hold_are_not_given_to_others(rt: HostRuntime) -> Result<(), Fail> {
    for count in [2, 8] {
        let (times, given, lost, busy) = worked(&rt, rt.alloc(), count)?;
        is_so("slots were given", times == given && given > 0)?;
        is_so("none that was held", lost == 0 && busy == 0)?;
    }
    Ok(())
}
