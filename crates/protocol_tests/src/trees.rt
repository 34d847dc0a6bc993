// Schedules of a tree's leaf, worked by hand: keys are added until it is full, it is split, and its chain is dropped.
// Its 17 keys are 0 to 15 and the last, so that two stand at the fences; the ninth of them is 8.
use crate::machines::{moved, open_pages, pointer};
use crate::samples::{LAST, content};
use drop_core::{Act, Chain, DropCore, Page, SnapPage, Twins};
use homes::{At, Content, Span};
use lists::Sequence;
use serial_model::{Key, Memory};
use std::alloc::Global;
use std::process::Abort;
use std::test::Fail;

const ROOT: At = At::Root(0);

const ALL: Span = Span {
    storage: 2,
    low: 0,
    high: LAST,
};

/// Over the keys up to 8.
const LOWER: Span = Span {
    storage: 2,
    low: 0,
    high: 8,
};

/// Over the others.
const UPPER: Span = Span {
    storage: 2,
    low: 9,
    high: LAST,
};

/// An act of a seat.
#[derive(Clone, Copy)]
enum Step {
    Give(u32),
    Publish(u32),
    Retire(u32),
    /// Lay out a leaf with the keys from this one to this one, by their order.
    FillLeaf(u32, u64, u64),
    FillHeader(u32),
    LockHeader(u32),
    OpenHeader(u32),
    /// Open it with the key of this order.
    AddKey(u32, u64),
    Install(u32),
    /// Split the leaf in slot 0 into slots 1 and 2 at this key, with so many keys.
    Twin(u64, u64),
    /// Set a snapshot page over this span with the keys from this one to this one, by their order.
    FillSnapshot(u32, Span, u64, u64),
    /// Set an interior page that leads to pages 1 and 2.
    FillAbove(u32),
    Extend(u32),
    Swing(u32),
    /// Swing the chain of the first slots, so many, with the first keys, so many.
    SwingChain(u32, u32, u64),
}

/// A seat, its step, and how many keys that moves, or nothing where it is refused.
type Line = (u32, Step, Option<usize>);

/// The key of this order among the 17.
fn key(order: u64) -> Key {
    Key {
        storage: 2,
        key: if order < 16 { order } else { LAST },
    }
}

/// The keys from one to before another, by their order.
fn keys(alloc: Global, from: u64, to: u64) -> Result<Sequence<Key>, Memory> {
    let mut keys = Sequence::new(alloc);
    for order in from..to {
        keys.push(key(order))?;
    }
    Ok(keys)
}

/// A snapshot page over the span with entries of these keys.
fn page_of(alloc: Global, span: Span, from: u64, to: u64) -> Result<SnapPage, Memory> {
    let mut entries: Sequence<(Key, Content)> = Sequence::new(alloc);
    for order in from..to {
        entries.push((key(order), content(order)))?;
    }
    Ok(SnapPage::Entries(span, entries))
}

/// An interior page over all keys that leads to pages 1 and 2, which part at key 9.
fn page_above(alloc: Global) -> Result<SnapPage, Memory> {
    let children = [(LOWER, 1), (UPPER, 2)];
    let children = Sequence::from_slice(alloc, &children)?;
    Ok(SnapPage::Children(ALL, children))
}

/// The first slots, so many.
fn slots(alloc: Global, count: u32) -> Result<Sequence<u32>, Memory> {
    let mut slots = Sequence::new(alloc);
    for slot in 0..count {
        slots.push(slot)?;
    }
    Ok(slots)
}

fn twins(alloc: Global, separator: u64, count: u64) -> Result<Act, Memory> {
    Ok(Act::Twin(Twins {
        slot: 0,
        minor: 1,
        major: 2,
        separator,
        keys: keys(alloc, 0, count)?,
    }))
}

fn chain(alloc: Global, page: u32, count: u32, last: u64) -> Result<Act, Memory> {
    let chain = Chain {
        slots: slots(alloc, count)?,
        keys: keys(alloc, 0, last)?,
    };
    Ok(Act::SwingChain(ROOT, page, chain))
}

fn act(alloc: Global, step: Step) -> Result<Act, Memory> {
    Ok(match step {
        Step::Give(slot) => Act::Give(slot),
        Step::Publish(slot) => Act::Publish(slot),
        Step::Retire(slot) => Act::Retire(slot),
        Step::FillLeaf(slot, from, to) => {
            Act::FillPage(slot, Page::Leaf(keys(alloc, from, to)?))
        }
        Step::FillHeader(slot) => Act::FillHeader(slot),
        Step::LockHeader(slot) => Act::LockHeader(slot),
        Step::OpenHeader(slot) => Act::OpenHeader(slot, None),
        Step::AddKey(slot, order) => Act::OpenHeader(slot, Some(key(order))),
        Step::Install(slot) => Act::Install(ROOT, slot),
        Step::Twin(separator, count) => twins(alloc, separator, count)?,
        Step::FillSnapshot(number, span, from, to) => {
            Act::FillSnapshot(number, page_of(alloc, span, from, to)?)
        }
        Step::FillAbove(number) => Act::FillSnapshot(number, page_above(alloc)?),
        Step::Extend(number) => Act::Extend(number),
        Step::Swing(number) => Act::Swing(ROOT, number),
        Step::SwingChain(number, count, last) => chain(alloc, number, count, last)?,
    })
}

/// Each step moves so many keys, or is refused.
fn follows(
    rt: &impl Abort,
    core: &mut DropCore,
    alloc: Global,
    lines: &[Line],
) -> Result<(), Fail> {
    for (seat, step, want) in lines {
        let act = act(alloc, *step)?;
        assert_eq!(rt; moved(core, *seat, act)?, *want);
    }
    Ok(())
}

/// Seat 1 installs an empty leaf.
const INSTALLS: [Line; 5] = [
    (1, Step::Give(0), Some(0)),
    (1, Step::FillLeaf(0, 0, 0), Some(0)),
    (1, Step::FillHeader(0), Some(0)),
    (1, Step::Publish(0), Some(0)),
    (1, Step::Install(0), Some(0)),
];

/// Seat 1 adds the first keys to it, so many.
fn adds(rt: &impl Abort, core: &mut DropCore, alloc: Global, count: u64) -> Result<(), Fail> {
    for order in 0..count {
        let lines = [
            (1, Step::LockHeader(0), Some(0)),
            (1, Step::AddKey(0, order), Some(1)),
        ];
        follows(rt, core, alloc, &lines)?;
    }
    Ok(())
}

/// A machine without snapshot pages, with four slots and three seats, of which seat 1 installs a leaf with the first
/// keys, so many, and all of which then follow the lines of both tables. The snapshot page that the root leads to in
/// the end.
fn plays(
    rt: &impl Abort,
    alloc: Global,
    count: u64,
    first: &[Line],
    then: &[Line],
) -> Result<u32, Fail> {
    let mut core = open_pages(alloc, Sequence::new(alloc), 0, &[(ALL, 0)], 4, 3)?;
    runs(rt, &mut core, alloc, count, first, then)
}

fn runs(
    rt: &impl Abort,
    core: &mut DropCore,
    alloc: Global,
    count: u64,
    first: &[Line],
    then: &[Line],
) -> Result<u32, Fail> {
    follows(rt, core, alloc, &INSTALLS)?;
    adds(rt, core, alloc, count)?;
    follows(rt, core, alloc, first)?;
    follows(rt, core, alloc, then)?;
    Ok(pointer(core, ROOT).page)
}

/// A header is locked once, and a key added by who holds it, once, where there is room. Seat 0 adds none.
const ADDS: [Line; 13] = [
    (1, Step::AddKey(0, 15), None),
    (2, Step::LockHeader(0), Some(0)),
    (1, Step::LockHeader(0), None),
    (1, Step::AddKey(0, 15), None),
    (2, Step::AddKey(0, 3), None),
    (2, Step::OpenHeader(0), Some(0)),
    (0, Step::LockHeader(0), Some(0)),
    (0, Step::AddKey(0, 16), None),
    (0, Step::OpenHeader(0), Some(0)),
    (1, Step::LockHeader(0), Some(0)),
    (1, Step::AddKey(0, 16), Some(1)),
    (1, Step::LockHeader(0), Some(0)),
    (1, Step::AddKey(0, 15), None),
];

#[test]
fn keys_are_added_under_the_header(rt: HostRuntime) -> Result<(), Fail> {
    plays(&rt, rt.alloc(), 15, &ADDS, &[])?;
    Ok(())
}

/// Seat 1 locks the full leaf's header and makes its halves: the minor has the keys before this one, by their order,
/// and the major those from that one on.
fn halves(middle: u64, from: u64) -> [Line; 9] {
    [
        (1, Step::LockHeader(0), Some(0)),
        (1, Step::Give(1), Some(0)),
        (1, Step::FillLeaf(1, 0, middle), Some(0)),
        (1, Step::FillHeader(1), Some(0)),
        (1, Step::Publish(1), Some(0)),
        (1, Step::Give(2), Some(0)),
        (1, Step::FillLeaf(2, from, 17), Some(0)),
        (1, Step::FillHeader(2), Some(0)),
        (1, Step::Publish(2), Some(0)),
    ]
}

/// A split has 8 keys below the separator and 9 from it on, each in one half.
#[test]
fn halves_that_are_refused(rt: HostRuntime) -> Result<(), Fail> {
    for (middle, from) in &[(9, 8), (8, 9), (7, 8), (9, 9)] {
        let lines = halves(*middle, *from);
        plays(&rt, rt.alloc(), 16, &lines, &[(1, Step::Twin(8, 17), None)])?;
    }
    Ok(())
}

/// It is made once, by who holds the header and made the halves, at the first key of the major, of which one is new.
const SPLITS: [Line; 7] = [
    (0, Step::Twin(8, 17), None),
    (2, Step::Twin(8, 17), None),
    (1, Step::Twin(7, 17), None),
    (1, Step::Twin(9, 17), None),
    (1, Step::Twin(8, 16), None),
    (1, Step::Twin(8, 17), Some(17)),
    (1, Step::Twin(8, 17), None),
];

#[test]
fn splits_that_are_refused(rt: HostRuntime) -> Result<(), Fail> {
    plays(&rt, rt.alloc(), 16, &halves(8, 8), &SPLITS)?;
    Ok(())
}

/// A leaf that overflowed is split; seat 0 alone locks its header then, and drops the chain of three whole for an
/// interior snapshot page, once it holds each header. The headers are dead then, and the slots may be given again.
const COMES_AND_GOES: [Line; 24] = [
    (1, Step::Twin(8, 17), Some(17)),
    (1, Step::LockHeader(0), None),
    (1, Step::Retire(0), None),
    (2, Step::LockHeader(1), Some(0)),
    (2, Step::OpenHeader(1), Some(0)),
    (0, Step::FillSnapshot(1, LOWER, 0, 9), Some(0)),
    (0, Step::FillSnapshot(2, UPPER, 9, 17), Some(0)),
    (0, Step::FillAbove(3), Some(0)),
    (0, Step::Extend(3), Some(0)),
    (0, Step::LockHeader(0), Some(0)),
    (0, Step::LockHeader(1), Some(0)),
    (0, Step::SwingChain(3, 3, 17), None),
    (0, Step::LockHeader(2), Some(0)),
    (0, Step::Swing(3), None),
    (0, Step::SwingChain(3, 2, 17), None),
    (0, Step::SwingChain(3, 3, 16), None),
    (0, Step::SwingChain(1, 3, 17), None),
    (0, Step::SwingChain(3, 3, 17), Some(17)),
    (0, Step::OpenHeader(1), None),
    (1, Step::LockHeader(2), None),
    (0, Step::Retire(0), Some(0)),
    (0, Step::Retire(1), Some(0)),
    (0, Step::Retire(2), Some(0)),
    (1, Step::Give(1), Some(0)),
];

#[test]
fn a_chain_comes_and_goes(rt: HostRuntime) -> Result<(), Fail> {
    let page = plays(&rt, rt.alloc(), 16, &halves(8, 8), &COMES_AND_GOES)?;
    assert_eq!(&rt; page, 3);
    Ok(())
}

/// A chain is kept where the snapshot page has a key that none of its leaves has.
const KEPT: [Line; 6] = [
    (0, Step::FillSnapshot(1, LOWER, 0, 9), Some(0)),
    (0, Step::FillSnapshot(2, UPPER, 9, 17), Some(0)),
    (0, Step::FillAbove(3), Some(0)),
    (0, Step::Extend(3), Some(0)),
    (0, Step::LockHeader(0), Some(0)),
    (0, Step::SwingChain(3, 1, 16), None),
];

#[test]
fn a_chain_that_says_less_is_kept(rt: HostRuntime) -> Result<(), Fail> {
    plays(&rt, rt.alloc(), 16, &KEPT, &[])?;
    Ok(())
}
