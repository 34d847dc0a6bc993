// Schedules worked by hand: what each seat does, in this order, and how many keys it moves, or that it is refused.
use crate::machines::{moved, open_pages, pointer};
use crate::samples::{BOTH, X, Y, content, page_of_both};
use drop_core::{Act, DropCore, Page, Pointer, SnapPage};
use homes::{At, Holder, Span, Spot};
use lists::Sequence;
use serial_model::{Key, Memory};
use std::alloc::Global;
use std::process::Abort;
use std::test::Fail;

const ROOT: At = At::Root(0);

/// An act of a seat.
#[derive(Clone, Copy)]
enum Step {
    Enter(u32),
    Leave(u32),
    Give(u32),
    Publish(u32),
    Retire(u32),
    /// Lay out a page with so many of the keys X and Y.
    FillLeaf(u32, usize),
    /// Lay out a page with two pointers.
    FillInner(u32),
    FillPointer(Spot, Pointer),
    /// Set a snapshot page over this span with entries of X and Y.
    FillSnapshot(u32, Span),
    /// Let it be none.
    FillNothing(u32),
    Extend(u32),
    Install(At, u32),
    Swing(At, u32),
    Renew(At, u32),
    Shut(At),
    Reopen(At),
    /// Look whether the root leads to this slot, or to none, and whether its snapshot half is this page.
    Leads(Option<u32>, u32),
    /// Look whether the pointer is dead.
    IsDead(At),
}

/// A seat, its step, and how many keys that moves, or nothing where it is refused.
type Line = (u32, Step, Option<usize>);

/// The first keys, so many.
fn keys(alloc: Global, count: usize) -> Result<Sequence<Key>, Memory> {
    let mut keys = Sequence::from_slice(alloc, &[X, Y])?;
    keys.truncate(count);
    Ok(keys)
}

/// How many keys the step moves, or nothing where it is refused, or where what is looked for isn't so.
fn takes(
    core: &mut DropCore,
    alloc: Global,
    seat: u32,
    step: Step,
) -> Result<Option<usize>, Memory> {
    match step {
        Step::Enter(slot) => moved(core, seat, Act::Enter(slot)),
        Step::Leave(slot) => moved(core, seat, Act::Leave(slot)),
        Step::Give(slot) => moved(core, seat, Act::Give(slot)),
        Step::Publish(slot) => moved(core, seat, Act::Publish(slot)),
        Step::Retire(slot) => moved(core, seat, Act::Retire(slot)),
        Step::FillLeaf(slot, count) => {
            moved(
                core,
                seat,
                Act::FillPage(slot, Page::Leaf(keys(alloc, count)?)),
            )
        }
        Step::FillInner(slot) => moved(core, seat, Act::FillPage(slot, Page::Inner(2))),
        Step::FillPointer(spot, pointer) => moved(core, seat, Act::FillPointer(spot, pointer)),
        Step::FillSnapshot(number, span) => {
            moved(
                core,
                seat,
                Act::FillSnapshot(number, page_of_both(alloc, span)?),
            )
        }
        Step::FillNothing(n) => moved(core, seat, Act::FillSnapshot(n, SnapPage::Missing)),
        Step::Extend(number) => moved(core, seat, Act::Extend(number)),
        Step::Install(at, slot) => moved(core, seat, Act::Install(at, slot)),
        Step::Swing(at, number) => moved(core, seat, Act::Swing(at, number)),
        Step::Renew(at, number) => moved(core, seat, Act::Renew(at, number)),
        Step::Shut(at) => moved(core, seat, Act::Shut(at)),
        Step::Reopen(at) => moved(core, seat, Act::Reopen(at)),
        Step::Leads(slot, page) => Ok(as_looked(leads(core, slot, page))),
        Step::IsDead(at) => Ok(as_looked(is_dead(core, at))),
    }
}

fn as_looked(is_so: bool) -> Option<usize> {
    if is_so { Some(0) } else { None }
}

fn leads(core: &DropCore, slot: Option<u32>, page: u32) -> bool {
    let root = pointer(core, ROOT);
    (root.slot == slot) & (root.page == page)
}

fn is_dead(core: &DropCore, at: At) -> bool {
    matches!(pointer(core, at).holder, Holder::Dead)
}

/// One key.
fn one(key: u64) -> Span {
    Span {
        storage: 1,
        low: key,
        high: key,
    }
}

/// Page 1, with X and Y.
fn one_page(alloc: Global) -> Result<Sequence<(u32, SnapPage)>, Memory> {
    let mut snaps = Sequence::new(alloc);
    snaps.push((1, page_of_both(alloc, BOTH)?))?;
    Ok(snaps)
}

/// Page 3, which leads to a page for each key.
fn three_pages(alloc: Global) -> Result<Sequence<(u32, SnapPage)>, Memory> {
    let mut snaps = Sequence::new(alloc);
    let x = Sequence::from_slice(alloc, &[(X, content(10))])?;
    snaps.push((1, SnapPage::Entries(one(0), x)))?;
    let y = Sequence::from_slice(alloc, &[(Y, content(20))])?;
    snaps.push((2, SnapPage::Entries(one(1), y)))?;
    let children = Sequence::from_slice(alloc, &[(one(0), 1), (one(1), 2)])?;
    snaps.push((3, SnapPage::Children(BOTH, children)))?;
    Ok(snaps)
}

/// Each step moves so many keys, or is refused.
fn follows(
    rt: &impl Abort,
    core: &mut DropCore,
    alloc: Global,
    lines: &[Line],
) -> Result<(), Fail> {
    for (seat, step, want) in lines {
        assert_eq!(rt; takes(core, alloc, *seat, *step)?, *want);
    }
    Ok(())
}

/// Over one page, with four slots and three seats.
fn plays(rt: &impl Abort, alloc: Global, lines: &[Line]) -> Result<(), Fail> {
    let mut core = open_pages(alloc, one_page(alloc)?, 1, &[(BOTH, 1)], 4, 3)?;
    follows(rt, &mut core, alloc, lines)
}

/// Over three pages, which lines and then others follow.
fn plays_above(rt: &impl Abort, alloc: Global, lines: &[Line], then: &[Line]) -> Result<(), Fail> {
    let mut core = open_pages(alloc, three_pages(alloc)?, 3, &[(BOTH, 3)], 4, 3)?;
    follows_both(rt, &mut core, alloc, lines, then)
}

fn follows_both(
    rt: &impl Abort,
    core: &mut DropCore,
    alloc: Global,
    lines: &[Line],
    then: &[Line],
) -> Result<(), Fail> {
    follows(rt, core, alloc, lines)?;
    follows(rt, core, alloc, then)
}

/// A pointer that was (none, 1) is not that again after an install and an eviction. The evicted slot isn't given
/// while a seat holds it, and is after that seat left.
const COMES_AND_GOES: [Line; 15] = [
    (1, Step::Leads(None, 1), Some(0)),
    (1, Step::Give(3), Some(0)),
    (1, Step::FillLeaf(3, 2), Some(0)),
    (1, Step::Publish(3), Some(0)),
    (1, Step::Install(ROOT, 3), Some(2)),
    (1, Step::Leads(Some(3), 1), Some(0)),
    (2, Step::Enter(3), Some(0)),
    (0, Step::FillSnapshot(2, BOTH), Some(0)),
    (0, Step::Extend(2), Some(0)),
    (0, Step::Swing(ROOT, 2), Some(2)),
    (0, Step::Retire(3), Some(0)),
    (1, Step::Give(3), None),
    (2, Step::Leave(3), Some(0)),
    (1, Step::Give(3), Some(0)),
    (1, Step::Leads(None, 2), Some(0)),
];

#[test]
fn a_page_comes_and_goes(rt: HostRuntime) -> Result<(), Fail> {
    plays(&rt, rt.alloc(), &COMES_AND_GOES)
}

/// What a beginning doesn't allow. A page with an entry of a key beyond its span is not published.
#[test]
fn refused_at_the_start(rt: HostRuntime) -> Result<(), Fail> {
    let lines = [
        (1, Step::Leave(0), None),
        (1, Step::Give(4), None),
        (1, Step::Publish(0), None),
        (1, Step::Retire(0), None),
        (0, Step::FillNothing(1), None),
        (1, Step::FillNothing(2), None),
        (0, Step::Extend(2), None),
        (1, Step::Install(ROOT, 0), None),
        (0, Step::Swing(ROOT, 1), None),
        (0, Step::Renew(ROOT, 1), None),
        (0, Step::Reopen(ROOT), None),
        (3, Step::Enter(0), None),
        (1, Step::Enter(4), None),
        (0, Step::FillSnapshot(2, one(0)), Some(0)),
        (0, Step::Extend(2), None),
        (0, Step::FillSnapshot(2, BOTH), Some(0)),
        (0, Step::Extend(2), Some(0)),
    ];
    plays(&rt, rt.alloc(), &lines)
}

/// A pointer in slot 1.
fn pointer_at(index: usize) -> Spot {
    Spot { slot: 1, index }
}

/// A pointer over one key to a snapshot page.
fn pointer_to(key: u64, page: u32, holder: Holder) -> Pointer {
    Pointer {
        span: one(key),
        slot: None,
        page,
        holder,
    }
}

/// An interior page in slot 1 with two pointers, of which the second is so, is published, and installed or not.
fn installs_inner(second: Pointer, installed: Option<usize>) -> [Line; 6] {
    let first = pointer_to(0, 1, Holder::Free);
    [
        (1, Step::Give(1), Some(0)),
        (1, Step::FillInner(1), Some(0)),
        (1, Step::FillPointer(pointer_at(0), first), Some(0)),
        (1, Step::FillPointer(pointer_at(1), second), Some(0)),
        (1, Step::Publish(1), Some(0)),
        (1, Step::Install(ROOT, 1), installed),
    ]
}

/// An interior page moves no key. It is dropped once all of its pointers are shut, and they stay dead.
#[test]
fn an_interior_page_comes_and_goes(rt: HostRuntime) -> Result<(), Fail> {
    let comes = installs_inner(pointer_to(1, 2, Holder::Free), Some(0));
    let last = At::In(pointer_at(1));
    let goes = [
        (0, Step::Shut(At::In(pointer_at(0))), Some(0)),
        (0, Step::Swing(ROOT, 3), None),
        (0, Step::Shut(last), Some(0)),
        (0, Step::Swing(ROOT, 3), Some(0)),
        (0, Step::Reopen(last), None),
        (0, Step::IsDead(last), Some(0)),
    ];
    plays_above(&rt, rt.alloc(), &comes, &goes)
}

/// An interior page that leaves a child out, or that has one shut, is not installed.
#[test]
fn interior_pages_that_are_not_installed(rt: HostRuntime) -> Result<(), Fail> {
    for (page, holder) in &[(0, Holder::Free), (2, Holder::Held(2)), (2, Holder::Dead)] {
        let lines = installs_inner(pointer_to(1, *page, *holder), None);
        plays_above(&rt, rt.alloc(), &lines, &[])?;
    }
    Ok(())
}

/// Nor is a leaf that leaves a key out.
const SAYS_LESS: [Line; 4] = [
    (1, Step::Give(2), Some(0)),
    (1, Step::FillLeaf(2, 1), Some(0)),
    (1, Step::Publish(2), Some(0)),
    (1, Step::Install(ROOT, 2), None),
];

#[test]
fn a_leaf_that_says_less_is_not_installed(rt: HostRuntime) -> Result<(), Fail> {
    plays(&rt, rt.alloc(), &SAYS_LESS)
}
