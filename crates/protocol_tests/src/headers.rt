// Leaves of a tree to which keys are added, and which are split and evicted, and how reads of their headers fare.
use crate::joint::{draws, spot};
use crate::machines::{commits, content_at, given_up, happens, is_at, open_both, turns};
use crate::samples::LAST;
use commit_core::Act as CommitAct;
use drop_core::{Act as PageAct, Chain, Page, SnapPage, Twins};
use engine_rule::{Joint, JointAct};
use homes::{At, Content, Home, Span};
use lists::Sequence;
use serial_model::{Change, Key, Memory, Number};
use std::alloc::Global;
use std::process::Abort;
use std::test::Fail;

const ROOT: At = At::Root(0);

/// Over all keys of the tree.
const ALL: Span = Span {
    storage: 1,
    low: 0,
    high: LAST,
};

/// What stands in a place for a key that nobody wrote.
const NOTHING: Content = Content {
    number: Number { epoch: 0, draw: 0 },
    value: None,
};

/// What the first number writes.
const WRITTEN: Content = Content {
    number: Number { epoch: 2, draw: 5 },
    value: Some(11),
};

/// What one seat does in one step, or what is looked at.
#[derive(Clone, Copy)]
enum Step {
    Enter(u32),
    Retire(u32),
    Give(u32),
    SeeHeader(u32),
    CheckHeader(u32),
    /// Of the record with this index in the page of a slot.
    Check(u32, usize),
    LockHeader(u32),
    OpenHeader(u32),
    AddRecord(u32, u64),
    AddKey(u32, u64),
    Lock(u64),
    /// Lock the records of the first keys, so many.
    LockFirst(u64),
    /// Take a number as a reader.
    Draw,
    /// Take a number for a removal.
    Remove(u64),
    Decide,
    Put(u64),
    Open(u64),
    /// Write key 3.
    Write,
    /// Publish in slots 1 and 2 the halves of a leaf with the keys up to 15 and the last one.
    MakeHalves,
    /// Split the leaf in slot 0, which has the keys up to 15, with the last key, from key 8 on.
    Split,
    /// Publish page 3, which leads to page 1 for the keys below 8, with key 3, and to page 2 for the others.
    Publish,
    /// Lead the root to this snapshot page alone, from a chain in slots 0 to 2 that has those keys.
    SwingChain(u32),
    /// Whether so many attempts were given up.
    GaveUp(usize),
    /// Whether the key is absent by the number with this draw.
    IsAbsent(u64, u64),
    /// Whether the record of the key has this index in the page of a slot.
    IsInSlot(u64, u32, usize),
    /// Whether the key is in this snapshot page, as it was written.
    IsInPage(u64, u32),
    IsNowhere(u64),
}

/// A seat, its step, and whether it may.
type Line = (u32, Step, bool);

fn part(low: u64, high: u64) -> Span {
    Span {
        storage: 1,
        low,
        high,
    }
}

fn key(number: u64) -> Key {
    Key {
        storage: 1,
        key: number,
    }
}

/// The keys from this one on, so many.
fn keys(alloc: Global, first: u64, count: u64) -> Result<Sequence<Key>, Memory> {
    let mut keys = Sequence::new(alloc);
    for i in 0..count {
        keys.push(key(first.saturating_add(i)))?;
    }
    Ok(keys)
}

/// The keys up to 15, and the last one.
fn all_keys(alloc: Global) -> Result<Sequence<Key>, Memory> {
    let mut keys = keys(alloc, 0, 16)?;
    keys.push(key(LAST))?;
    Ok(keys)
}

/// Seat 1 makes a leaf with a record for each of the keys in the slot, all absent, and publishes it.
fn makes(joint: &mut Joint, slot: u32, keys: Sequence<Key>) -> Result<bool, Memory> {
    let given = turns(joint, 1, PageAct::Give(slot))?;
    let filled = fills(joint, slot, keys.len())?;
    let laid_out = turns(joint, 1, PageAct::FillPage(slot, Page::Leaf(keys)))?;
    let headed = turns(joint, 1, PageAct::FillHeader(slot))?;
    let published = turns(joint, 1, PageAct::Publish(slot))?;
    Ok(given & filled & laid_out & headed & published)
}

/// Seat 1 sets the records of a slot, so many.
fn fills(joint: &mut Joint, slot: u32, count: usize) -> Result<bool, Memory> {
    let mut all = true;
    for index in 0..count {
        all = happens(joint, 1, JointAct::FillRecord(spot(slot, index), NOTHING))? & all;
    }
    Ok(all)
}

fn makes_halves(joint: &mut Joint, alloc: Global) -> Result<bool, Memory> {
    let lower = makes(joint, 1, keys(alloc, 0, 8)?)?;
    let mut rest = keys(alloc, 8, 8)?;
    rest.push(key(LAST))?;
    let upper = makes(joint, 2, rest)?;
    Ok(lower & upper)
}

fn locks(joint: &mut Joint, seat: u32, count: u64) -> Result<bool, Memory> {
    let mut all = true;
    for number in 0..count {
        all = commits(joint, seat, CommitAct::Lock(key(number)))? & all;
    }
    Ok(all)
}

/// The seat takes a number for this value of the key, or for its removal.
fn draws_for(joint: &mut Joint, seat: u32, key: Key, value: Option<u64>) -> Result<bool, Memory> {
    draws(joint, seat, Some(Change { key, value }))
}

fn writes(joint: &mut Joint, seat: u32, key: Key) -> Result<bool, Memory> {
    let locked = commits(joint, seat, CommitAct::Lock(key))?;
    let drawn = draws_for(joint, seat, key, WRITTEN.value)?;
    let decided = commits(joint, seat, CommitAct::Decide)?;
    let put = commits(joint, seat, CommitAct::Put(key))?;
    let opened = commits(joint, seat, CommitAct::Open(key))?;
    Ok(locked & drawn & decided & put & opened)
}

fn fills_page(joint: &mut Joint, number: u32, page: SnapPage) -> Result<bool, Memory> {
    turns(joint, 0, PageAct::FillSnapshot(number, page))
}

fn publishes(joint: &mut Joint, alloc: Global) -> Result<bool, Memory> {
    let entries = Sequence::from_slice(alloc, &[(key(3), WRITTEN)])?;
    let lower = fills_page(joint, 1, SnapPage::Entries(part(0, 7), entries))?;
    let none = Sequence::new(alloc);
    let upper = fills_page(joint, 2, SnapPage::Entries(part(8, LAST), none))?;
    let children = Sequence::from_slice(alloc, &[(part(0, 7), 1), (part(8, LAST), 2)])?;
    let above = fills_page(joint, 3, SnapPage::Children(ALL, children))?;
    let extended = turns(joint, 0, PageAct::Extend(3))?;
    Ok(lower & upper & above & extended)
}

fn splits(joint: &mut Joint, alloc: Global, seat: u32) -> Result<bool, Memory> {
    let twins = Twins {
        slot: 0,
        minor: 1,
        major: 2,
        separator: 8,
        keys: all_keys(alloc)?,
    };
    turns(joint, seat, PageAct::Twin(twins))
}

fn swings(joint: &mut Joint, alloc: Global, seat: u32, number: u32) -> Result<bool, Memory> {
    let chain = Chain {
        slots: Sequence::from_slice(alloc, &[0, 1, 2])?,
        keys: all_keys(alloc)?,
    };
    turns(joint, seat, PageAct::SwingChain(ROOT, number, chain))
}

fn is_absent(joint: &Joint, number: u64, draw: u64) -> bool {
    let content = content_at(joint, key(number));
    content.value.is_none() & (content.number.draw == draw)
}

fn takes(joint: &mut Joint, alloc: Global, seat: u32, step: Step) -> Result<bool, Memory> {
    match step {
        Step::Enter(slot) => turns(joint, seat, PageAct::Enter(slot)),
        Step::Retire(slot) => turns(joint, seat, PageAct::Retire(slot)),
        Step::Give(slot) => turns(joint, seat, PageAct::Give(slot)),
        Step::SeeHeader(slot) => happens(joint, seat, JointAct::SeeHeader(slot)),
        Step::CheckHeader(slot) => happens(joint, seat, JointAct::CheckHeader(slot)),
        Step::Check(slot, index) => commits(joint, seat, CommitAct::Check(spot(slot, index))),
        Step::LockHeader(slot) => turns(joint, seat, PageAct::LockHeader(slot)),
        Step::OpenHeader(slot) => turns(joint, seat, PageAct::OpenHeader(slot, None)),
        Step::AddRecord(slot, n) => happens(joint, seat, JointAct::AddRecord(slot, key(n))),
        Step::AddKey(slot, n) => happens(joint, seat, JointAct::AddKey(slot, key(n))),
        Step::Lock(n) => commits(joint, seat, CommitAct::Lock(key(n))),
        Step::LockFirst(count) => locks(joint, seat, count),
        Step::Draw => draws(joint, seat, None),
        Step::Remove(n) => draws_for(joint, seat, key(n), None),
        Step::Decide => commits(joint, seat, CommitAct::Decide),
        Step::Put(n) => commits(joint, seat, CommitAct::Put(key(n))),
        Step::Open(n) => commits(joint, seat, CommitAct::Open(key(n))),
        Step::Write => writes(joint, seat, key(3)),
        Step::MakeHalves => makes_halves(joint, alloc),
        Step::Split => splits(joint, alloc, seat),
        Step::Publish => publishes(joint, alloc),
        Step::SwingChain(number) => swings(joint, alloc, seat, number),
        Step::GaveUp(count) => Ok(given_up(joint) == count),
        Step::IsAbsent(n, draw) => Ok(is_absent(joint, n, draw)),
        Step::IsInSlot(n, slot, i) => Ok(is_at(joint, key(n), Home::InSlot(spot(slot, i)))),
        Step::IsInPage(n, page) => Ok(is_at(joint, key(n), Home::InPage(page, WRITTEN))),
        Step::IsNowhere(n) => Ok(is_at(joint, key(n), Home::Nowhere)),
    }
}

/// Each step happens, or is refused.
fn follows(rt: &impl Abort, joint: &mut Joint, alloc: Global, lines: &[Line]) -> Result<(), Fail> {
    for (seat, step, may) in lines {
        assert_eq!(rt; takes(joint, alloc, *seat, *step)?, *may);
    }
    Ok(())
}

/// Seat 1 leads the root to the page in slot 0, which seats 1 and 2 hold.
fn installs(joint: &mut Joint) -> Result<bool, Memory> {
    let installed = turns(joint, 1, PageAct::Install(ROOT, 0))?;
    let first = turns(joint, 1, PageAct::Enter(0))?;
    let second = turns(joint, 2, PageAct::Enter(0))?;
    Ok(installed & first & second)
}

/// An empty tree, three seats and four slots. The first so many keys have absent records in slot 0, which seats 1 and 2
/// hold. Then the lines are followed.
fn plays(rt: &impl Abort, alloc: Global, count: u64, lines: &[Line]) -> Result<(), Fail> {
    let mut joint = open_both(alloc, Sequence::new(alloc), 0, &[(ALL, 0)], 4, 3)?;
    runs(rt, &mut joint, alloc, count, lines)
}

fn runs(
    rt: &impl Abort,
    joint: &mut Joint,
    alloc: Global,
    count: u64,
    lines: &[Line],
) -> Result<(), Fail> {
    let first = keys(alloc, 0, count)?;
    assert!(rt; makes(joint, 0, first)?);
    assert!(rt; installs(joint)?);
    follows(rt, joint, alloc, lines)
}

/// Seats 1 and 2 have read that the tree is empty; seat 1 adds a key. Seat 2's check fails, and seat 1's does not,
/// since what it had read goes on.
const ADDS: [Line; 16] = [
    (1, Step::SeeHeader(0), true),
    (2, Step::SeeHeader(0), true),
    (1, Step::LockHeader(0), true),
    (2, Step::SeeHeader(0), false),
    (2, Step::LockHeader(0), false),
    (1, Step::AddRecord(0, 7), true),
    (1, Step::AddKey(0, 7), true),
    (1, Step::Draw, true),
    (1, Step::CheckHeader(0), true),
    (1, Step::Decide, false),
    (1, Step::Check(0, 0), true),
    (1, Step::Decide, true),
    (2, Step::Draw, true),
    (2, Step::CheckHeader(0), true),
    (2, Step::Decide, false),
    (2, Step::GaveUp(1), true),
];

#[test]
fn a_key_that_another_seat_adds_fails_a_check(rt: HostRuntime) -> Result<(), Fail> {
    plays(&rt, rt.alloc(), 0, &ADDS)
}

/// A leaf over all keys takes the first and the last, each once, and none before its record is set.
const FENCES: [Line; 15] = [
    (1, Step::LockHeader(0), true),
    (1, Step::AddKey(0, 0), false),
    (1, Step::AddRecord(0, 0), true),
    (2, Step::AddKey(0, 0), false),
    (1, Step::AddKey(0, 0), true),
    (1, Step::AddRecord(0, LAST), false),
    (1, Step::LockHeader(0), true),
    (1, Step::AddRecord(0, 0), false),
    (1, Step::AddRecord(0, LAST), true),
    (1, Step::Draw, true),
    (1, Step::AddKey(0, LAST), false),
    (1, Step::Decide, true),
    (1, Step::AddKey(0, LAST), true),
    (1, Step::IsInSlot(0, 0, 0), true),
    (1, Step::IsInSlot(LAST, 0, 1), true),
];

#[test]
fn keys_at_the_fences_are_added(rt: HostRuntime) -> Result<(), Fail> {
    plays(&rt, rt.alloc(), 0, &FENCES)
}

/// Seat 1 adds a key to remove it: it is absent as before, by its number.
const REMOVES: [Line; 9] = [
    (1, Step::LockHeader(0), true),
    (1, Step::AddRecord(0, 7), true),
    (1, Step::AddKey(0, 7), true),
    (1, Step::Lock(7), true),
    (1, Step::Remove(7), true),
    (1, Step::Decide, true),
    (1, Step::Put(7), true),
    (1, Step::Open(7), true),
    (1, Step::IsAbsent(7, 5), true),
];

#[test]
fn a_key_is_removed_that_was_absent(rt: HostRuntime) -> Result<(), Fail> {
    plays(&rt, rt.alloc(), 0, &REMOVES)
}

/// Seat 2 has read the header of a full leaf, which seat 1 splits with the last key. Its check fails.
const SPLITS: [Line; 14] = [
    (1, Step::MakeHalves, true),
    (2, Step::SeeHeader(0), true),
    (1, Step::LockHeader(0), true),
    (1, Step::AddRecord(0, LAST), false),
    (1, Step::Split, false),
    (1, Step::LockFirst(16), true),
    (1, Step::Split, true),
    (2, Step::Draw, true),
    (2, Step::CheckHeader(0), true),
    (2, Step::Decide, false),
    (2, Step::GaveUp(1), true),
    (1, Step::IsInSlot(7, 1, 7), true),
    (1, Step::IsInSlot(8, 2, 0), true),
    (1, Step::IsInSlot(LAST, 2, 8), true),
];

#[test]
fn a_split_fails_a_check(rt: HostRuntime) -> Result<(), Fail> {
    plays(&rt, rt.alloc(), 16, &SPLITS)
}

/// The full leaf is split, key 3 is written, and snapshot page 3 has it below it. Seat 0 evicts the split leaf with its
/// halves, once it holds each header and each record; a reader of a half's header fails then. Slots stay taken while
/// they are held.
const EVICTS: [Line; 25] = [
    (1, Step::MakeHalves, true),
    (1, Step::LockHeader(0), true),
    (1, Step::LockFirst(16), true),
    (1, Step::Split, true),
    (1, Step::Write, true),
    (0, Step::Publish, true),
    (0, Step::LockFirst(16), true),
    (2, Step::Enter(2), true),
    (2, Step::SeeHeader(2), true),
    (1, Step::LockHeader(0), false),
    (0, Step::LockHeader(0), true),
    (0, Step::LockHeader(1), true),
    (0, Step::LockHeader(2), true),
    (0, Step::SwingChain(3), false),
    (0, Step::Lock(LAST), true),
    (0, Step::SwingChain(2), false),
    (0, Step::SwingChain(3), true),
    (0, Step::OpenHeader(1), false),
    (2, Step::Draw, true),
    (2, Step::CheckHeader(2), true),
    (2, Step::Decide, false),
    (0, Step::IsInPage(3, 1), true),
    (0, Step::IsNowhere(LAST), true),
    (0, Step::Retire(2), true),
    (1, Step::Give(2), false),
];

#[test]
fn a_chain_is_evicted_whole(rt: HostRuntime) -> Result<(), Fail> {
    plays(&rt, rt.alloc(), 16, &EVICTS)
}
