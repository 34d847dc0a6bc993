// Each act of a seat on both machines: the conditions of both, and then the effects. What needs memory comes first, so
// that want of memory leaves everything as it was.
ghost use Rattle.std.specs.Prelude.{◌≡◌, ℕ, true, IfErr, OnErr, OnOk};
ghost use Rattle.engine_rule.specs.Answers.{Answers, AnswersOnPages, AnswersMoves, AnswersMoving};
ghost use Rattle.engine_rule.specs.Event.{may_move};
ghost use Rattle.engine_rule.specs.Renewal.{IsRenewed};
ghost use Rattle.engine_rule.specs.Shift.{IsShift};

use crate::asks::{commit_lets, has_made, page_lets};
use crate::event::JointAct;
use crate::headers::{
    can_see_header, header_part, is_header_so_now, kept_with_key, next_spot, renew,
};
use crate::pairs::nothing;
use crate::pointers::{can_see, is_so_now, pointer_part};
use crate::shifts::{is_shift, may_shift, prepare};
use commit_core::{Act as CommitAct, NotAllowed, Seat, Story, Word, rehome};
use drop_core::{Act as PageAct, Grip, Table, can_add, put};
use homes::{At, Content, Move, Spot};
use lists::Sequence;
use serial_model::{Key, OrMemory};

/// What an act answers.
pub type Answer = Result<(), OrMemory<NotAllowed>>;

/// One act of the seat with this id.
pub fn act(
    id: u32,
    story: &mut Story,
    seat: &mut Seat,
    table: &mut Table,
    grip: &mut Grip,
    act: JointAct,
) -> Answer
    ensures { Answers id act story.old seat.old table.old grip.old result story.new seat.new table.new grip.new }
{
    match act {
        JointAct::Commit(act) => commit(id, story, seat, grip, act),
        JointAct::SeePointer(at) => see_pointer(id, story, seat, table, grip, at),
        JointAct::CheckPointer(at) => check_pointer(id, story, seat, table, at),
        JointAct::SeeHeader(slot) => see_header(id, story, seat, table, grip, slot),
        JointAct::CheckHeader(slot) => check_header(id, story, seat, table, slot),
        JointAct::AddRecord(slot, key) => add_record(id, story, table, slot, key),
        JointAct::AddKey(slot, key) => add_key(id, story, seat, table, grip, slot, key),
        JointAct::FillRecord(spot, content) => fill_record(story, table, grip, spot, content),
        JointAct::Turn(act) => turn(id, story, seat, table, grip, act),
    }
}

/// An act on commits, if pages let it be.
fn commit(id: u32, story: &mut Story, seat: &mut Seat, grip: &Grip, act: CommitAct) -> Answer
    ensures { (d : Table) → Answers id (JointAct.Commit act) story.old seat.old d grip.now result
        story.new seat.new d grip.now }
{
    if !page_lets(grip, story, &act) {
        drop(act);
        return Err(OrMemory::Fault(NotAllowed));
    }
    let answer = commit_core::act(id, story, seat, &act);
    drop(act);
    answer
}

/// Reads a pointer, and keeps what is below its snapshot page.
fn see_pointer(
    id: u32,
    story: &mut Story,
    seat: &mut Seat,
    table: &Table,
    grip: &Grip,
    at: At,
) -> Answer
    ensures { Answers id (JointAct.SeePointer at) story.old seat.old table.now grip.now result
        story.new seat.new table.now grip.now }
{
    if !can_see(table, grip, at) || seat.stage.is_trying() {
        return Err(OrMemory::Fault(NotAllowed));
    }
    let part = pointer_part(seat.kept.alloc(), table, at)?;
    commit_core::act(id, story, seat, &CommitAct::Keep(part))
}

/// Looks again at a pointer that was read. Both halves are compared: one that leads to no slot, as it did when it was
/// read, may lead to another page by now.
fn check_pointer(id: u32, story: &mut Story, seat: &mut Seat, table: &Table, at: At) -> Answer
    ensures { (g : Grip) → Answers id (JointAct.CheckPointer at) story.old seat.old table.now g
        result story.new seat.new table.now g }
{
    let is_so = is_so_now(id, table, story, seat, at);
    commit_core::act(
        id,
        story,
        seat,
        &CommitAct::Confirm(Word::Pointer(at), is_so),
    )
}

/// Reads a header, and keeps that no other key of the leaf's span is there.
fn see_header(
    id: u32,
    story: &mut Story,
    seat: &mut Seat,
    table: &Table,
    grip: &Grip,
    slot: u32,
) -> Answer
    ensures { Answers id (JointAct.SeeHeader slot) story.old seat.old table.now grip.now result
        story.new seat.new table.now grip.now }
{
    if !can_see_header(table, grip, slot) || seat.stage.is_trying() {
        return Err(OrMemory::Fault(NotAllowed));
    }
    let part = header_part(seat.kept.alloc(), table, slot)?;
    commit_core::act(id, story, seat, &CommitAct::Keep(part))
}

/// Looks again at a header that was read: a leaf to which a key was added counts more records by now.
fn check_header(id: u32, story: &mut Story, seat: &mut Seat, table: &Table, slot: u32) -> Answer
    ensures { (g : Grip) → Answers id (JointAct.CheckHeader slot) story.old seat.old table.now g
        result story.new seat.new table.now g }
{
    let is_so = is_header_so_now(table, story, seat, slot);
    commit_core::act(
        id,
        story,
        seat,
        &CommitAct::Confirm(Word::Header(slot), is_so),
    )
}

/// Sets a record for the key behind those of a leaf: nobody looks there before the header is opened with it.
fn add_record(id: u32, story: &mut Story, table: &Table, slot: u32, key: Key) -> Answer
    ensures { (s : Seat) (g : Grip) → Answers id (JointAct.AddRecord slot key) story.old s table.now
        g result story.new s table.now g }
{
    if !can_add(id, table, slot, key) {
        return Err(OrMemory::Fault(NotAllowed));
    }
    story.fill(next_spot(table, slot), nothing())?;
    Ok(())
}

/// Opens the header with the key. What the seat keeps of the header goes on, and the new record beside it; this is made
/// before the key moves, since it takes memory.
fn add_key(
    id: u32,
    story: &mut Story,
    seat: &mut Seat,
    table: &mut Table,
    grip: &mut Grip,
    slot: u32,
    key: Key,
) -> Answer
    ensures { Answers id (JointAct.AddKey slot key) story.old seat.old table.old grip.old result
        story.new seat.new table.new grip.new }
{
    let opening = PageAct::OpenHeader(slot, Some(key));
    if seat.stage.is_trying() || !may_shift(id, story, seat, table, &opening) {
        drop(opening);
        return Err(OrMemory::Fault(NotAllowed));
    }
    let prepared = prepare(id, table, grip, &opening);
    drop(opening);
    let swap = match prepared {
        Ok(swap) => swap,
        Err(OrMemory::Fault(_)) => return Err(OrMemory::Fault(NotAllowed)),
        Err(OrMemory::Memory) => return Err(OrMemory::Memory),
    };
    move_and_renew(id, story, seat, table, slot, key, &swap.moves)?;
    put(swap, table, grip);
    Ok(())
}

/// Moves the keys, and renews what the seat keeps of the header that is to be opened with the key.
fn move_and_renew(
    id: u32,
    story: &mut Story,
    seat: &mut Seat,
    table: &Table,
    slot: u32,
    key: Key,
    moves: &Sequence<Move>,
) -> Answer
    requires { may_move id story.old seat.old moves.now ≡ true }
    ensures done { OnOk result (IsRenewed id table.now slot key moves.now story.old seat.old story.new seat.new) }
    ensures memory { IfErr result (λ e. e ≡ OrMemory.Memory) }
    ensures same { OnErr result ((story.new ≡ story.old) × (seat.new ≡ seat.old)) }
{
    let count = table.leaf_keys(slot).len();
    let kept = kept_with_key(story, seat, table, slot, key)?;
    move_keys(id, story, seat, moves)?;
    renew(seat, slot, count, kept);
    Ok(())
}

/// Sets a record in the page of an owned slot, to which nothing leads yet.
fn fill_record(
    story: &mut Story,
    table: &Table,
    grip: &Grip,
    spot: Spot,
    content: Content,
) -> Answer
    ensures { (p : ℕ) (s : Seat) → Answers p (JointAct.FillRecord spot content) story.old s
        table.now grip.now result story.new s table.now grip.now }
{
    if !table.slot(spot.slot).state.is_owned() || !has_made(grip, spot.slot) {
        return Err(OrMemory::Fault(NotAllowed));
    }
    story.fill(spot, content)?;
    Ok(())
}

/// An act on pages, if commits let it be.
fn turn(
    id: u32,
    story: &mut Story,
    seat: &mut Seat,
    table: &mut Table,
    grip: &mut Grip,
    act: PageAct,
) -> Answer
    ensures { Answers id (JointAct.Turn act) story.old seat.old table.old grip.old result story.new
        seat.new table.new grip.new }
{
    if !commit_lets(id, story, seat, table, &act) {
        drop(act);
        return Err(OrMemory::Fault(NotAllowed));
    }
    if !is_shift(&act) {
        return still(id, table, grip, act);
    }
    let answer = moving(id, story, seat, table, grip, &act);
    drop(act);
    answer
}

/// An act that moves no key.
fn still(id: u32, table: &mut Table, grip: &mut Grip, act: PageAct) -> Answer
    ensures { AnswersOnPages id act table.old grip.old result table.new grip.new }
{
    match drop_core::apply(id, table, grip, act) {
        Ok(_) => Ok(()),
        Err(OrMemory::Fault(_)) => Err(OrMemory::Fault(NotAllowed)),
        Err(OrMemory::Memory) => Err(OrMemory::Memory),
    }
}

/// An act that moves keys. The new lists of the pages are made first, and put once the keys have moved: that takes no
/// memory, so want of it leaves both machines as they were.
fn moving(
    id: u32,
    story: &mut Story,
    seat: &mut Seat,
    table: &mut Table,
    grip: &mut Grip,
    act: &PageAct,
) -> Answer
    requires { IsShift act.now }
    ensures { AnswersMoving id act.now story.old seat.old table.old grip.old result story.new
        seat.new table.new grip.new }
{
    if !may_shift(id, story, seat, table, act) {
        return Err(OrMemory::Fault(NotAllowed));
    }
    let swap = match prepare(id, table, grip, act) {
        Ok(swap) => swap,
        Err(OrMemory::Fault(_)) => return Err(OrMemory::Fault(NotAllowed)),
        Err(OrMemory::Memory) => return Err(OrMemory::Memory),
    };
    move_keys(id, story, seat, &swap.moves)?;
    put(swap, table, grip);
    Ok(())
}

/// Moves the keys, if there are any.
fn move_keys(id: u32, story: &mut Story, seat: &mut Seat, moves: &Sequence<Move>) -> Answer
    ensures { AnswersMoves id moves.now story.old seat.old result story.new seat.new }
{
    if moves.is_empty() {
        return Ok(());
    }
    rehome(id, story, seat, moves)
}
