// Each kind of step on pages against each kind of step on records, and how reads fare while pages come and go.
use crate::machines::{commits, given_up, happens, open_both, turns};
use crate::samples::{BOTH, X, Y, content, page_of_both};
use commit_core::{Act as CommitAct, Mark};
use drop_core::{Act as PageAct, Page, Pointer, SnapPage};
use engine_rule::{Joint, JointAct};
use homes::{At, Content, Holder, Span, Spot};
use lists::Sequence;
use serial_model::{Change, Changes, Key, Memory, Number};
use std::alloc::Global;
use std::process::Abort;
use std::test::Fail;

const Z: Key = Key { storage: 2, key: 0 };

/// Over X and Y.
const LEFT: At = At::Root(0);

/// Over Z.
const RIGHT: At = At::Root(1);

const RIGHT_SPAN: Span = Span {
    storage: 2,
    low: 0,
    high: 0,
};

/// What a seat does with pages. Seat 0 keeps snapshots, seat 1 makes pages, and seat 2 leaves.
#[derive(Clone, Copy, PartialEq, Eq)]
enum Turn {
    Enter,
    Leave,
    Give,
    Publish,
    Retire,
    FillPage,
    FillPointer,
    FillRecord,
    FillSnapshot,
    Extend,
    Install,
    Shut,
    Reopen,
    Swing,
    Renew,
}

/// What seat 2 does with records, and seat 0 with the clock.
#[derive(Clone, Copy, PartialEq, Eq)]
enum Deed {
    See,
    SeePointer,
    Lock,
    Draw,
    Check,
    CheckPointer,
    Decide,
    Put,
    Open,
    Forget,
    Advance,
    Mark,
}

const TURNS: [Turn; 15] = [
    Turn::Enter,
    Turn::Leave,
    Turn::Give,
    Turn::Publish,
    Turn::Retire,
    Turn::FillPage,
    Turn::FillPointer,
    Turn::FillRecord,
    Turn::FillSnapshot,
    Turn::Extend,
    Turn::Install,
    Turn::Shut,
    Turn::Reopen,
    Turn::Swing,
    Turn::Renew,
];

const DEEDS: [Deed; 12] = [
    Deed::See,
    Deed::SeePointer,
    Deed::Lock,
    Deed::Draw,
    Deed::Check,
    Deed::CheckPointer,
    Deed::Decide,
    Deed::Put,
    Deed::Open,
    Deed::Forget,
    Deed::Advance,
    Deed::Mark,
];

/// Whether the turn came first, whether each of the two happened, and how many attempts were given up.
type Outcome = (bool, bool, bool, usize);

/// Where one of the two keeps the other from happening, or a check fails. In all other schedules both happen, and no
/// attempt is given up.
const MEETINGS: [(Turn, Deed, Outcome); 23] = [
    // Seat 2 keeps no word of a page that it leaves, and sees none of a page that it left.
    (Turn::Leave, Deed::See, (true, true, false, 0)),
    (Turn::Leave, Deed::See, (false, false, true, 0)),
    (Turn::Leave, Deed::Check, (true, false, true, 0)),
    (Turn::Leave, Deed::Check, (false, false, true, 0)),
    (Turn::Leave, Deed::Forget, (true, false, true, 0)),
    // A pointer that leads to a slot is not seen, and one that was seen before is not as it was.
    (Turn::Install, Deed::SeePointer, (true, true, false, 0)),
    (Turn::Install, Deed::CheckPointer, (true, true, true, 1)),
    // The same of one that is shut.
    (Turn::Shut, Deed::SeePointer, (true, true, false, 0)),
    (Turn::Shut, Deed::CheckPointer, (true, true, true, 1)),
    (Turn::Reopen, Deed::SeePointer, (false, true, false, 0)),
    (Turn::Reopen, Deed::CheckPointer, (false, true, true, 1)),
    // Seat 0 holds X and Y, and after the swing they are in no slot.
    (Turn::Swing, Deed::See, (true, true, false, 0)),
    (Turn::Swing, Deed::See, (false, true, false, 0)),
    (Turn::Swing, Deed::Lock, (true, true, false, 0)),
    (Turn::Swing, Deed::Lock, (false, true, false, 0)),
    (Turn::Swing, Deed::Check, (true, true, true, 1)),
    (Turn::Swing, Deed::Check, (false, true, true, 1)),
    // Seat 2 holds Y.
    (Turn::Swing, Deed::Draw, (true, false, true, 0)),
    (Turn::Swing, Deed::Draw, (false, false, true, 0)),
    (Turn::Swing, Deed::Put, (true, false, true, 0)),
    (Turn::Swing, Deed::Put, (false, false, true, 0)),
    (Turn::Swing, Deed::Open, (true, false, true, 0)),
    (Turn::Swing, Deed::Open, (false, false, true, 0)),
];

pub fn spot(slot: u32, index: usize) -> Spot {
    Spot { slot, index }
}

/// A snapshot page of the left.
fn left_page(alloc: Global) -> Result<SnapPage, Memory> {
    page_of_both(alloc, BOTH)
}

/// Pages 1 to 5. Page 1 has Z, the others have X and Y.
fn five_pages(alloc: Global) -> Result<Sequence<(u32, SnapPage)>, Memory> {
    let mut snaps = Sequence::new(alloc);
    let entries = Sequence::from_slice(alloc, &[(Z, content(30))])?;
    snaps.push((1, SnapPage::Entries(RIGHT_SPAN, entries)))?;
    for number in 2..6 {
        snaps.push((number, left_page(alloc)?))?;
    }
    Ok(snaps)
}

/// A machine over five pages, with three seats and four slots.
fn start(alloc: Global) -> Result<Joint, Memory> {
    let snaps = five_pages(alloc)?;
    open_both(alloc, snaps, 5, &[(BOTH, 5), (RIGHT_SPAN, 1)], 4, 3)
}

/// The seat takes a number for this change, or as a reader.
pub fn draws(joint: &mut Joint, seat: u32, change: Option<Change>) -> Result<bool, Memory> {
    let mut writes = Changes::new();
    if let Some(change) = change {
        writes.push(change);
    }
    commits(joint, seat, CommitAct::Draw(writes))
}

fn change(key: Key, value: Option<u64>) -> Change {
    Change { key, value }
}

fn locks_and_draws(joint: &mut Joint, seat: u32, change: Change) -> Result<bool, Memory> {
    let locked = commits(joint, seat, CommitAct::Lock(change.key))?;
    let drawn = draws(joint, seat, Some(change))?;
    Ok(locked & drawn)
}

fn puts_and_opens(joint: &mut Joint, seat: u32, key: Key) -> Result<bool, Memory> {
    let put = commits(joint, seat, CommitAct::Put(key))?;
    let opened = commits(joint, seat, CommitAct::Open(key))?;
    Ok(put & opened)
}

fn decides(joint: &mut Joint, seat: u32, key: Key) -> Result<bool, Memory> {
    let decided = commits(joint, seat, CommitAct::Decide)?;
    let opened = puts_and_opens(joint, seat, key)?;
    Ok(decided & opened)
}

/// The seat commits a change, whose key nobody holds.
fn changes(joint: &mut Joint, seat: u32, change: Change) -> Result<bool, Memory> {
    let drawn = locks_and_draws(joint, seat, change)?;
    let decided = decides(joint, seat, change.key)?;
    Ok(drawn & decided)
}

/// Seat 0 publishes the pages from 6 up to this one, all with these entries over X and Y.
fn publishes(
    joint: &mut Joint,
    alloc: Global,
    last: u32,
    entries: &[(Key, Content)],
) -> Result<bool, Memory> {
    let mut all = true;
    for number in 6..=last {
        let page = SnapPage::Entries(BOTH, Sequence::from_slice(alloc, entries)?);
        all = turns(joint, 0, PageAct::FillSnapshot(number, page))? & all;
    }
    let extended = turns(joint, 0, PageAct::Extend(last))?;
    Ok(all & extended)
}

/// Seat 0 holds X and Y.
fn locks_both(joint: &mut Joint) -> Result<bool, Memory> {
    let x = commits(joint, 0, CommitAct::Lock(X))?;
    let y = commits(joint, 0, CommitAct::Lock(Y))?;
    Ok(x & y)
}

/// Seat 1 makes a leaf with these records in the slot, and publishes it.
fn makes(
    joint: &mut Joint,
    alloc: Global,
    slot: u32,
    records: &[(Key, u64)],
) -> Result<bool, Memory> {
    let mut all = turns(joint, 1, PageAct::Give(slot))?;
    let mut keys = Sequence::new(alloc);
    for record in records {
        let place = spot(slot, keys.len());
        all = happens(joint, 1, JointAct::FillRecord(place, content(record.1)))? & all;
        keys.push(record.0)?;
    }
    let laid_out = turns(joint, 1, PageAct::FillPage(slot, Page::Leaf(keys)))?;
    let published = turns(joint, 1, PageAct::Publish(slot))?;
    Ok(all & laid_out & published)
}

/// The left is led to a copy of its page in slot 0.
fn leads_to_a_copy(joint: &mut Joint, alloc: Global) -> Result<bool, Memory> {
    let made = makes(joint, alloc, 0, &[(X, 10), (Y, 20)])?;
    let installed = turns(joint, 1, PageAct::Install(LEFT, 0))?;
    Ok(made & installed)
}

/// X and Y are in slot 0, which seat 2 holds.
fn begins(joint: &mut Joint, alloc: Global) -> Result<bool, Memory> {
    let led = leads_to_a_copy(joint, alloc)?;
    let entered = turns(joint, 2, PageAct::Enter(0))?;
    Ok(led & entered)
}

/// Seat 1 is given slot 1.
fn gives(joint: &mut Joint) -> Result<bool, Memory> {
    turns(joint, 1, PageAct::Give(1))
}

/// Seat 1 publishes slot 1.
fn publishes_slot(joint: &mut Joint) -> Result<bool, Memory> {
    let given = gives(joint)?;
    let published = turns(joint, 1, PageAct::Publish(1))?;
    Ok(given & published)
}

/// Seat 1 publishes a copy of the page on the right in slot 1.
fn copies_right(joint: &mut Joint, alloc: Global) -> Result<bool, Memory> {
    makes(joint, alloc, 1, &[(Z, 30)])
}

/// What has to come before the turn.
fn prepares_turn(joint: &mut Joint, alloc: Global, turn: Turn) -> Result<bool, Memory> {
    match turn {
        Turn::Publish => gives(joint),
        Turn::FillPage => gives(joint),
        Turn::FillPointer => gives(joint),
        Turn::FillRecord => gives(joint),
        Turn::Retire => publishes_slot(joint),
        Turn::Extend => turns(joint, 0, PageAct::FillSnapshot(6, left_page(alloc)?)),
        Turn::Install => copies_right(joint, alloc),
        Turn::Reopen => turns(joint, 0, PageAct::Shut(RIGHT)),
        Turn::Swing => locks_both(joint),
        Turn::Enter => Ok(true),
        Turn::Leave => Ok(true),
        Turn::Give => Ok(true),
        Turn::FillSnapshot => Ok(true),
        Turn::Shut => Ok(true),
        Turn::Renew => Ok(true),
    }
}

fn does_turn(joint: &mut Joint, alloc: Global, turn: Turn) -> Result<bool, Memory> {
    match turn {
        Turn::Enter => turns(joint, 1, PageAct::Enter(1)),
        Turn::Leave => turns(joint, 2, PageAct::Leave(0)),
        Turn::Give => turns(joint, 1, PageAct::Give(1)),
        Turn::Publish => turns(joint, 1, PageAct::Publish(1)),
        Turn::Retire => turns(joint, 1, PageAct::Retire(1)),
        Turn::FillPage => turns(joint, 1, PageAct::FillPage(1, Page::Inner(1))),
        Turn::FillPointer => {
            let pointer = Pointer {
                span: RIGHT_SPAN,
                slot: None,
                page: 1,
                holder: Holder::Free,
            };
            turns(joint, 1, PageAct::FillPointer(spot(1, 0), pointer))
        }
        Turn::FillRecord => happens(joint, 1, JointAct::FillRecord(spot(1, 0), content(7))),
        Turn::FillSnapshot => turns(joint, 0, PageAct::FillSnapshot(6, left_page(alloc)?)),
        Turn::Extend => turns(joint, 0, PageAct::Extend(6)),
        Turn::Install => turns(joint, 1, PageAct::Install(RIGHT, 1)),
        Turn::Shut => turns(joint, 0, PageAct::Shut(RIGHT)),
        Turn::Reopen => turns(joint, 0, PageAct::Reopen(RIGHT)),
        Turn::Swing => turns(joint, 0, PageAct::Swing(LEFT, 3)),
        Turn::Renew => turns(joint, 0, PageAct::Renew(LEFT, 3)),
    }
}

/// What has to come before the deed.
fn prepares_deed(joint: &mut Joint, deed: Deed) -> Result<bool, Memory> {
    match deed {
        Deed::See | Deed::SeePointer | Deed::Lock | Deed::Advance | Deed::Mark => Ok(true),
        Deed::Draw | Deed::Open => commits(joint, 2, CommitAct::Lock(Y)),
        Deed::Check => {
            commits(joint, 2, CommitAct::See(X))?;
            draws(joint, 2, None)
        }
        Deed::CheckPointer => {
            happens(joint, 2, JointAct::SeePointer(RIGHT))?;
            draws(joint, 2, None)
        }
        Deed::Decide => draws(joint, 2, None),
        Deed::Put => {
            commits(joint, 2, CommitAct::Lock(Y))?;
            draws(joint, 2, Some(change(Y, Some(5))))?;
            commits(joint, 2, CommitAct::Decide)
        }
        Deed::Forget => commits(joint, 2, CommitAct::See(X)),
    }
}

fn does_deed(joint: &mut Joint, deed: Deed) -> Result<bool, Memory> {
    match deed {
        Deed::See => commits(joint, 2, CommitAct::See(X)),
        Deed::SeePointer => happens(joint, 2, JointAct::SeePointer(RIGHT)),
        Deed::Lock => commits(joint, 2, CommitAct::Lock(Y)),
        Deed::Draw => draws(joint, 2, Some(change(Y, Some(5)))),
        Deed::Check => commits(joint, 2, CommitAct::Check(spot(0, 0))),
        Deed::CheckPointer => happens(joint, 2, JointAct::CheckPointer(RIGHT)),
        Deed::Decide => commits(joint, 2, CommitAct::Decide),
        Deed::Put => commits(joint, 2, CommitAct::Put(Y)),
        Deed::Open => commits(joint, 2, CommitAct::Open(Y)),
        Deed::Forget => commits(joint, 2, CommitAct::Forget),
        Deed::Advance => commits(joint, 0, CommitAct::Advance),
        Deed::Mark => {
            let epoch = Some(1);
            commits(joint, 2, CommitAct::Mark(Mark { epoch, length: 40 }))
        }
    }
}

/// Whether the turn happened, and then the deed.
fn turn_then_deed(
    joint: &mut Joint,
    alloc: Global,
    turn: Turn,
    deed: Deed,
) -> Result<(bool, bool), Memory> {
    let turned = does_turn(joint, alloc, turn)?;
    let did = does_deed(joint, deed)?;
    Ok((turned, did))
}

/// The same where the deed comes first.
fn deed_then_turn(
    joint: &mut Joint,
    alloc: Global,
    turn: Turn,
    deed: Deed,
) -> Result<(bool, bool), Memory> {
    let did = does_deed(joint, deed)?;
    let turned = does_turn(joint, alloc, turn)?;
    Ok((turned, did))
}

fn in_order(
    joint: &mut Joint,
    alloc: Global,
    turn: Turn,
    deed: Deed,
    turn_first: bool,
) -> Result<(bool, bool), Memory> {
    if turn_first {
        return turn_then_deed(joint, alloc, turn, deed);
    }
    deed_then_turn(joint, alloc, turn, deed)
}

/// Brings the machine to where both may happen.
fn prepares(joint: &mut Joint, alloc: Global, turn: Turn, deed: Deed) -> Result<bool, Memory> {
    prepares_deed(joint, deed)?;
    prepares_turn(joint, alloc, turn)
}

/// The outcome of the schedule in which the turn comes first, or the deed.
fn meets(
    joint: &mut Joint,
    alloc: Global,
    turn: Turn,
    deed: Deed,
    turn_first: bool,
) -> Result<Outcome, Memory> {
    begins(joint, alloc)?;
    prepares(joint, alloc, turn, deed)?;
    let (turned, did) = in_order(joint, alloc, turn, deed, turn_first)?;
    Ok((turn_first, turned, did, given_up(joint)))
}

/// The same of a machine that starts. It is lent to one function: what owns a machine proves slowly.
fn outcome_of(alloc: Global, turn: Turn, deed: Deed, turn_first: bool) -> Result<Outcome, Memory> {
    let mut joint = start(alloc)?;
    meets(&mut joint, alloc, turn, deed, turn_first)
}

/// What the table says.
fn expected(turn: Turn, deed: Deed, turn_first: bool) -> Outcome {
    for meeting in MEETINGS {
        if meeting.0 == turn && meeting.1 == deed && meeting.2.0 == turn_first {
            return meeting.2;
        }
    }
    (turn_first, true, true, 0)
}

fn is_expected(alloc: Global, turn: Turn, deed: Deed, turn_first: bool) -> Result<bool, Memory> {
    let outcome = outcome_of(alloc, turn, deed, turn_first)?;
    Ok(outcome == expected(turn, deed, turn_first))
}

/// Whether the turn comes to what the table says against each deed, in this order.
fn meets_all(alloc: Global, turn: Turn, turn_first: bool) -> Result<bool, Memory> {
    for deed in DEEDS {
        if !is_expected(alloc, turn, deed, turn_first)? {
            return Ok(false);
        }
    }
    Ok(true)
}

/// Whether each turn comes to what the table says, in this order.
fn all_meet(alloc: Global, turn_first: bool) -> Result<bool, Memory> {
    for turn in TURNS {
        if !meets_all(alloc, turn, turn_first)? {
            return Ok(false);
        }
    }
    Ok(true)
}

/// Each turn against each deed, in both orders.
#[test]
fn turns_meet_deeds(rt: HostRuntime) -> Result<(), Fail> {
    assert!(&rt; all_meet(rt.alloc(), true)?);
    assert!(&rt; all_meet(rt.alloc(), false)?);
    Ok(())
}

/// What X is changed to by the first number.
const CHANGED: Content = Content {
    number: Number { epoch: 2, draw: 5 },
    value: Some(11),
};

/// A step of a longer schedule.
#[derive(Clone, Copy)]
enum Step {
    /// Lead the left to a copy of its page in slot 0.
    CopyLeft,
    EnterCopy,
    LeaveCopy,
    RetireCopy,
    GiveAgain,
    SwingLeft(u32),
    SeeLeft,
    CheckLeft,
    /// Commit 11 for X.
    ChangeX,
    /// Commit the removal of Y.
    RemoveY,
    /// Publish the pages up to 9, each with the change of X.
    PublishChange,
    /// Publish page 6, which has no entry of Y.
    PublishAbsence,
    /// Hold X and Y.
    LockBoth,
    /// Take a number as a reader.
    Draw,
    Decide,
    Advance,
    /// Look whether so many attempts were given up.
    GaveUp(usize),
}

/// A seat, its step, and whether it may.
type Line = (u32, Step, bool);

fn takes(joint: &mut Joint, alloc: Global, seat: u32, step: Step) -> Result<bool, Memory> {
    match step {
        Step::CopyLeft => leads_to_a_copy(joint, alloc),
        Step::EnterCopy => turns(joint, seat, PageAct::Enter(0)),
        Step::LeaveCopy => turns(joint, seat, PageAct::Leave(0)),
        Step::RetireCopy => turns(joint, seat, PageAct::Retire(0)),
        Step::GiveAgain => turns(joint, seat, PageAct::Give(0)),
        Step::SwingLeft(number) => turns(joint, seat, PageAct::Swing(LEFT, number)),
        Step::SeeLeft => happens(joint, seat, JointAct::SeePointer(LEFT)),
        Step::CheckLeft => happens(joint, seat, JointAct::CheckPointer(LEFT)),
        Step::ChangeX => changes(joint, seat, change(X, Some(11))),
        Step::RemoveY => changes(joint, seat, change(Y, None)),
        Step::PublishChange => publishes(joint, alloc, 9, &[(X, CHANGED), (Y, content(20))]),
        Step::PublishAbsence => publishes(joint, alloc, 6, &[(X, content(10))]),
        Step::LockBoth => locks_both(joint),
        Step::Draw => draws(joint, seat, None),
        Step::Decide => commits(joint, seat, CommitAct::Decide),
        Step::Advance => commits(joint, seat, CommitAct::Advance),
        Step::GaveUp(count) => Ok(given_up(joint) == count),
    }
}

/// Each step happens, or is refused.
fn follows(rt: &impl Abort, joint: &mut Joint, alloc: Global, lines: &[Line]) -> Result<(), Fail> {
    for (seat, step, may) in lines {
        assert_eq!(rt; takes(joint, alloc, *seat, *step)?, *may);
    }
    Ok(())
}

/// The same of a machine that starts.
fn plays(rt: &impl Abort, alloc: Global, lines: &[Line]) -> Result<(), Fail> {
    let mut joint = start(alloc)?;
    follows(rt, &mut joint, alloc, lines)
}

/// Seat 2 reads a pointer to page 5, which then comes to lead to a copy in a slot, and then to page 9, which has a
/// change, so again to no slot. Its check fails.
const LED_ELSEWHERE: [Line; 10] = [
    (2, Step::SeeLeft, true),
    (1, Step::CopyLeft, true),
    (1, Step::ChangeX, true),
    (0, Step::PublishChange, true),
    (0, Step::LockBoth, true),
    (0, Step::SwingLeft(9), true),
    (2, Step::Draw, true),
    (2, Step::CheckLeft, true),
    (2, Step::Decide, false),
    (2, Step::GaveUp(1), true),
];

#[test]
fn a_pointer_to_another_page_is_another(rt: HostRuntime) -> Result<(), Fail> {
    plays(&rt, rt.alloc(), &LED_ELSEWHERE)
}

/// A retired slot is not given while a seat holds it, and is once that seat left.
const HELD: [Line; 8] = [
    (1, Step::CopyLeft, true),
    (2, Step::EnterCopy, true),
    (0, Step::LockBoth, true),
    (0, Step::SwingLeft(3), true),
    (0, Step::RetireCopy, true),
    (1, Step::GiveAgain, false),
    (2, Step::LeaveCopy, true),
    (1, Step::GiveAgain, true),
];

#[test]
fn a_held_slot_is_not_given(rt: HostRuntime) -> Result<(), Fail> {
    plays(&rt, rt.alloc(), &HELD)
}

/// Y is absent by 2:5, in a page in memory, and the newest snapshot page has no entry of it. A swing that loses that
/// number waits for the attempt 2:6.
const WAITS: [Line; 9] = [
    (1, Step::CopyLeft, true),
    (2, Step::EnterCopy, true),
    (1, Step::RemoveY, true),
    (0, Step::PublishAbsence, true),
    (2, Step::Draw, true),
    (0, Step::LockBoth, true),
    (0, Step::SwingLeft(6), false),
    (2, Step::Decide, true),
    (0, Step::SwingLeft(6), true),
];

#[test]
fn a_swing_waits_for_those_below_an_absence(rt: HostRuntime) -> Result<(), Fail> {
    plays(&rt, rt.alloc(), &WAITS)
}

/// It doesn't wait for the attempt 3:6, of a later epoch.
const PASSES: [Line; 8] = [
    (1, Step::CopyLeft, true),
    (2, Step::EnterCopy, true),
    (1, Step::RemoveY, true),
    (0, Step::PublishAbsence, true),
    (0, Step::Advance, true),
    (2, Step::Draw, true),
    (0, Step::LockBoth, true),
    (0, Step::SwingLeft(6), true),
];

#[test]
fn a_swing_passes_those_of_a_later_epoch(rt: HostRuntime) -> Result<(), Fail> {
    plays(&rt, rt.alloc(), &PASSES)
}
