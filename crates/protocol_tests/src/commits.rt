// Schedules worked by hand: what each seat does, in this order, and whether it may.
use crate::machines::{
    commit_happens, fill_happens, keeps_nothing, open_commits, place, serial, story,
};
use crate::samples::{X, Y};
use commit_core::{Act, Core, Mark, Part, Place, Version, Word};
use homes::{At, Content, Holder, Home, Move, Span, Spot};
use lists::Sequence;
use serial_model::{Change, Changes, Key, Memory, Number};
use std::alloc::Global;
use std::process::Abort;
use std::test::Fail;

const Z: Key = Key { storage: 2, key: 7 };

/// Of no place.
const NO_KEY: Key = Key { storage: 9, key: 0 };

const PAIRS: [(Key, u64); 3] = [(X, 10), (Y, 20), (Z, 30)];

/// The numbers of epoch 1, by their draws, and one of epoch 2.
const FIRST: Number = Number { epoch: 1, draw: 1 };

const SECOND: Number = Number { epoch: 1, draw: 2 };

const OF_EPOCH_2: Number = Number { epoch: 2, draw: 1 };

/// Older than each number.
const ZERO: Number = Number { epoch: 0, draw: 0 };

/// A word of keys of a span.
const ROOT: Word = Word::Pointer(At::Root(0));

/// An act of a seat.
#[derive(Clone, Copy)]
enum Step {
    See(Key),
    /// Keep the part of the root's word.
    Keep,
    Lock(Key),
    /// Draw, with nothing to write.
    Draw,
    /// Draw, with this to write.
    Set(Key, Option<u64>),
    /// Check the record that key X, Y or Z has at the start.
    Check(usize),
    Confirm(Word),
    Decide,
    Put(Key),
    Open(Key),
    Forget,
    Move(Key, Home),
    Advance,
    Mark(Option<u32>),
    /// Fill the place that key X has at the start with what stands there then.
    Fill,
    /// Whether so many numbers were drawn.
    HasDrawn(usize),
    /// Whether the attempt with this number was the first to be decided, or the first to be given up.
    IsFirstDecided(Number),
    IsFirstGivenUp(Number),
    IsHorizon(Number),
    KeepsNothing,
    /// Whether this stands at the key.
    Stands(Key, Number, Option<u64>, Holder),
}

/// A seat, its step, and whether it may.
type Line = (u32, Step, bool);

/// The place that key X, Y or Z has at the start.
fn spot(index: usize) -> Spot {
    Spot { slot: 0, index }
}

/// A content that is older than each number.
fn old(value: u64) -> Content {
    Content {
        number: ZERO,
        value: Some(value),
    }
}

fn takes(core: &mut Core, alloc: Global, seat: u32, step: Step) -> Result<bool, Memory> {
    match step {
        Step::See(key) => commit_happens(core, seat, Act::See(key)),
        Step::Keep => commit_happens(core, seat, Act::Keep(part_of_a_span(alloc)?)),
        Step::Lock(key) => commit_happens(core, seat, Act::Lock(key)),
        Step::Draw => commit_happens(core, seat, Act::Draw(Changes::new())),
        Step::Set(key, value) => commit_happens(core, seat, Act::Draw(change(key, value))),
        Step::Check(index) => commit_happens(core, seat, Act::Check(spot(index))),
        Step::Confirm(word) => commit_happens(core, seat, Act::Confirm(word, true)),
        Step::Decide => commit_happens(core, seat, Act::Decide),
        Step::Put(key) => commit_happens(core, seat, Act::Put(key)),
        Step::Open(key) => commit_happens(core, seat, Act::Open(key)),
        Step::Forget => commit_happens(core, seat, Act::Forget),
        Step::Move(key, home) => {
            commit_happens(core, seat, Act::Rehome(one_move(alloc, key, home)?))
        }
        Step::Advance => commit_happens(core, seat, Act::Advance),
        Step::Mark(epoch) => commit_happens(core, seat, Act::Mark(Mark { epoch, length: 40 })),
        Step::Fill => fill_happens(core, spot(0), old(10)),
        Step::HasDrawn(count) => Ok(story(core).history.len() == count),
        Step::IsFirstDecided(number) => Ok(is_first(&story(core).decided, number)),
        Step::IsFirstGivenUp(number) => Ok(is_first(&story(core).given_up, number)),
        Step::IsHorizon(number) => Ok(story(core).horizon == number),
        Step::KeepsNothing => Ok(keeps_nothing(core, seat)),
        Step::Stands(key, number, value, holder) => Ok(stands(core, key, number, value, holder)),
    }
}

fn is_first(numbers: &Sequence<Number>, number: Number) -> bool {
    match numbers.as_slice() {
        [] => false,
        [first, ..] => *first == number,
    }
}

fn stands(core: &Core, key: Key, number: Number, value: Option<u64>, holder: Holder) -> bool {
    let content = Content { number, value };
    place(core, key) == Place { content, holder }
}

fn change(key: Key, value: Option<u64>) -> Changes {
    let mut changes = Changes::new();
    changes.push(Change { key, value });
    changes
}

fn one_move(alloc: Global, key: Key, home: Home) -> Result<Sequence<Move>, Memory> {
    Sequence::from_slice(alloc, &[Move { key, home }])
}

/// A part of a pointer's span that has one pair, and leaves out one key.
fn part_of_a_span(alloc: Global) -> Result<Part, Memory> {
    Ok(Part {
        word: ROOT,
        version: Version::Leads(5),
        span: Span {
            storage: 1,
            low: 0,
            high: 9,
        },
        less: Sequence::from_slice(alloc, &[Y])?,
        pairs: Sequence::from_slice(alloc, &[(X, old(10))])?,
    })
}

/// Each step happens, or is refused.
fn follows(rt: &impl Abort, core: &mut Core, alloc: Global, lines: &[Line]) -> Result<(), Fail> {
    for (seat, step, may) in lines {
        assert_eq!(rt; takes(core, alloc, *seat, *step)?, *may);
    }
    Ok(())
}

/// The numbers of `serial`.
fn numbers(core: &Core, alloc: Global) -> Result<Sequence<Number>, Memory> {
    let mut numbers = Sequence::new(alloc);
    let run = serial(core, alloc)?;
    for attempt in run.as_slice() {
        numbers.push(attempt.number)?;
    }
    Ok(numbers)
}

/// Each step happens, or is refused, and in the end these attempts count, in this order.
fn ends(
    rt: &impl Abort,
    core: &mut Core,
    alloc: Global,
    lines: &[Line],
    want: &[Number],
) -> Result<(), Fail> {
    follows(rt, core, alloc, lines)?;
    let counted = numbers(core, alloc)?;
    assert_eq!(rt; counted.as_slice(), want);
    Ok(())
}

/// The same of a machine with so many seats, from its start on.
fn plays(
    rt: &impl Abort,
    alloc: Global,
    seats: u32,
    lines: &[Line],
    want: &[Number],
) -> Result<(), Fail> {
    let mut core = open_commits(alloc, &PAIRS, seats)?;
    ends(rt, &mut core, alloc, lines, want)
}

/// Write skew: each reads what the other writes. Neither commits.
const WRITE_SKEW: [Line; 11] = [
    (0, Step::See(X), true),
    (1, Step::See(Y), true),
    (0, Step::Lock(Y), true),
    (1, Step::Lock(X), true),
    (0, Step::Set(Y, Some(1)), true),
    (1, Step::Set(X, Some(2)), true),
    (0, Step::Check(0), true),
    (1, Step::Check(1), true),
    (0, Step::Decide, false),
    (1, Step::Decide, false),
    (0, Step::HasDrawn(2), true),
];

#[test]
fn write_skew(rt: HostRuntime) -> Result<(), Fail> {
    plays(&rt, rt.alloc(), 2, &WRITE_SKEW, &[])
}

/// A decision in the middle of the order: the later number is decided first.
const DECIDED_FIRST: [Line; 9] = [
    (0, Step::Lock(X), true),
    (0, Step::Set(X, Some(11)), true),
    (1, Step::See(Y), true),
    (1, Step::Lock(Z), true),
    (1, Step::Set(Z, Some(1)), true),
    (1, Step::Check(1), true),
    (1, Step::Decide, true),
    (0, Step::Decide, true),
    (0, Step::IsFirstDecided(SECOND), true),
];

#[test]
fn decided_later_than_a_greater_number(rt: HostRuntime) -> Result<(), Fail> {
    plays(&rt, rt.alloc(), 2, &DECIDED_FIRST, &[FIRST, SECOND])
}

/// A commit from the first read to the last lock, and what a reader sees before and after it.
const COMMIT: [Line; 12] = [
    (0, Step::Advance, true),
    (1, Step::See(X), true),
    (1, Step::Lock(X), true),
    (1, Step::Set(X, Some(1)), true),
    (0, Step::See(X), false),
    (1, Step::Check(0), true),
    (1, Step::Decide, true),
    (1, Step::Open(X), false),
    (1, Step::Put(X), true),
    (0, Step::Stands(X, ZERO, Some(1), Holder::Held(1)), true),
    (1, Step::Open(X), true),
    (0, Step::Stands(X, OF_EPOCH_2, Some(1), Holder::Free), true),
];

#[test]
fn a_commit_step_by_step(rt: HostRuntime) -> Result<(), Fail> {
    plays(&rt, rt.alloc(), 2, &COMMIT, &[OF_EPOCH_2])
}

/// An attempt that failed a check opens its lock with the old word, and what it had kept is dropped.
const FAILED: [Line; 9] = [
    (0, Step::See(X), true),
    (0, Step::Lock(Y), true),
    (0, Step::Set(Y, Some(1)), true),
    (1, Step::Lock(X), true),
    (0, Step::Check(0), true),
    (0, Step::Open(Y), true),
    (0, Step::Stands(Y, ZERO, Some(20), Holder::Free), true),
    (0, Step::KeepsNothing, true),
    (1, Step::KeepsNothing, true),
];

#[test]
fn a_failed_attempt_leaves_no_trace(rt: HostRuntime) -> Result<(), Fail> {
    plays(&rt, rt.alloc(), 2, &FAILED, &[])
}

/// Seats and keys that are not there, and locks that are another seat's or not the keys written.
const FOREIGN: [Line; 7] = [
    (2, Step::Forget, false),
    (0, Step::See(NO_KEY), false),
    (0, Step::Set(X, None), false),
    (0, Step::Lock(X), true),
    (0, Step::Lock(Y), true),
    (0, Step::Set(X, None), false),
    (1, Step::Open(X), false),
];

#[test]
fn refused_for_seats_and_locks(rt: HostRuntime) -> Result<(), Fail> {
    plays(&rt, rt.alloc(), 2, &FOREIGN, &[])
}

/// A read is checked after the number is taken, and once: a check before it is refused, and counts for nothing.
const EARLY: [Line; 10] = [
    (0, Step::See(X), true),
    (0, Step::Lock(Y), true),
    (0, Step::Check(0), false),
    (0, Step::Set(Y, Some(1)), true),
    (0, Step::Decide, false),
    (0, Step::See(Z), false),
    (0, Step::Forget, false),
    (0, Step::Check(0), true),
    (0, Step::Check(0), false),
    (0, Step::Put(Y), false),
];

#[test]
fn no_check_before_the_number(rt: HostRuntime) -> Result<(), Fail> {
    plays(&rt, rt.alloc(), 2, &EARLY, &[])
}

/// What is forgotten is no part of the next attempt; a locked key is not locked again.
const FORGOTTEN: [Line; 6] = [
    (0, Step::See(X), true),
    (0, Step::Forget, true),
    (1, Step::Lock(X), true),
    (0, Step::Lock(X), false),
    (0, Step::Draw, true),
    (0, Step::Decide, true),
];

#[test]
fn a_forgotten_read(rt: HostRuntime) -> Result<(), Fail> {
    plays(&rt, rt.alloc(), 2, &FORGOTTEN, &[FIRST])
}

/// Seat 0 alone advances, and a mark is below the epoch and never goes back.
const EPOCHS: [Line; 6] = [
    (1, Step::Advance, false),
    (1, Step::Mark(Some(1)), false),
    (0, Step::Advance, true),
    (1, Step::Mark(Some(1)), true),
    (1, Step::Mark(None), true),
    (1, Step::Mark(Some(0)), false),
];

#[test]
fn refused_for_epochs(rt: HostRuntime) -> Result<(), Fail> {
    plays(&rt, rt.alloc(), 2, &EPOCHS, &[])
}

/// An entry of a snapshot page.
fn page(value: u64) -> Home {
    Home::InPage(5, old(value))
}

/// An entry of a snapshot page with the value of key X, which an attempt wrote anew.
const WRITTEN_ANEW: Home = Home::InPage(
    5,
    Content {
        number: FIRST,
        value: Some(10),
    },
);

/// A key moves between equal contents alone, to a place that is nobody's, and not from under another's lock.
#[test]
fn refused_for_homes(rt: HostRuntime) -> Result<(), Fail> {
    let lines = [
        (0, Step::Lock(Y), true),
        (1, Step::Move(X, page(11)), false),
        (1, Step::Move(X, WRITTEN_ANEW), false),
        (1, Step::Move(X, Home::Nowhere), false),
        (1, Step::Move(X, Home::InSlot(spot(2))), false),
        (1, Step::Move(X, Home::InSlot(spot(9))), false),
        (1, Step::Move(Y, page(20)), false),
    ];
    plays(&rt, rt.alloc(), 2, &lines, &[])
}

/// The old place of a key that moved is dead: what was read there fails its check, and the key can't be locked in a
/// snapshot page. Filled anew, the place takes the key back.
#[test]
fn a_key_that_moves(rt: HostRuntime) -> Result<(), Fail> {
    let lines = [
        (0, Step::See(X), true),
        (1, Step::Move(X, page(10)), true),
        (1, Step::Lock(X), false),
        (0, Step::Draw, true),
        (0, Step::Check(0), true),
        (0, Step::Stands(X, ZERO, Some(10), Holder::Free), true),
        (0, Step::IsFirstGivenUp(FIRST), true),
        (1, Step::Fill, true),
        (1, Step::Move(X, Home::InSlot(spot(0))), true),
        (1, Step::Lock(X), true),
    ];
    plays(&rt, rt.alloc(), 2, &lines, &[])
}

/// A removal is a write too, and its number is the place's from then on. It is lost only once no attempt at or below
/// it is in progress.
const REMOVAL: [Line; 12] = [
    (1, Step::Draw, true),
    (0, Step::Lock(X), true),
    (0, Step::Set(X, None), true),
    (0, Step::Decide, true),
    (0, Step::Put(X), true),
    (0, Step::Open(X), true),
    (2, Step::Move(X, Home::Nowhere), false),
    (2, Step::Stands(X, SECOND, None, Holder::Free), true),
    (1, Step::Decide, true),
    (2, Step::Move(X, Home::Nowhere), true),
    (2, Step::Stands(X, ZERO, None, Holder::Free), true),
    (2, Step::IsHorizon(SECOND), true),
];

#[test]
fn an_absence_that_is_lost(rt: HostRuntime) -> Result<(), Fail> {
    plays(&rt, rt.alloc(), 3, &REMOVAL, &[FIRST, SECOND])
}

fn covers(part: &Part, key: Key) -> bool {
    part.covers(key)
}

fn found(part: &Part, key: Key) -> Option<u64> {
    part.found(key).value
}

#[test]
fn what_a_part_covers(rt: HostRuntime) -> Result<(), Fail> {
    let part = part_of_a_span(rt.alloc())?;
    assert!(&rt; covers(&part, X));
    assert!(&rt; !covers(&part, Y));
    assert!(&rt; !covers(&part, Z));
    assert_eq!(&rt; found(&part, X), Some(10));
    Ok(())
}

/// What a word of a span says is told: a part of it is kept and checked as any other.
#[test]
fn a_part_of_a_span(rt: HostRuntime) -> Result<(), Fail> {
    let lines = [
        (0, Step::Keep, true),
        (0, Step::Draw, true),
        (0, Step::Decide, false),
        (0, Step::Confirm(Word::Record(spot(0))), false),
        (0, Step::Confirm(ROOT), true),
        (0, Step::Decide, true),
    ];
    plays(&rt, rt.alloc(), 1, &lines, &[FIRST])
}
