// The machines' calls without their clauses, since what those ensure is long, and no schedule needs it. What a machine
// opens with comes as parameters: a call with literals would have the clauses computed at them.
ghost use Rattle.std.specs.Prelude.{◌≤◌, length};

use commit_core::{Act as CommitAct, Attempt, Core, Event as CommitEvent, Place, Story};
use drop_core::{Act as PageAct, DropCore, Event as PageEvent, Pointer, SnapPage};
use engine_rule::{Joint, JointAct, JointEvent, NotAllowed};
use homes::{At, Content, Home, Move, Span, Spot};
use lists::Sequence;
use serial_model::{Decl, Key, Memory, Number, OrMemory};
use std::alloc::Global;
use wire_form::Page;

/// A machine of commits over records of these values, with so many seats.
pub fn open_commits(alloc: Global, pairs: &[(Key, u64)], seats: u32) -> Result<Core, Memory> {
    Core::new(alloc, pairs, seats)
}

fn commit_answer(core: &mut Core, seat: u32, act: CommitAct) -> Result<(), OrMemory<NotAllowed>> {
    core.step(&CommitEvent { seat, act })
}

/// Whether the act happened.
pub fn commit_happens(core: &mut Core, seat: u32, act: CommitAct) -> Result<bool, Memory> {
    match commit_answer(core, seat, act) {
        Ok(()) => Ok(true),
        Err(OrMemory::Fault(_)) => Ok(false),
        Err(OrMemory::Memory) => Err(Memory),
    }
}

fn fill_answer(core: &mut Core, spot: Spot, content: Content) -> Result<(), OrMemory<NotAllowed>> {
    core.fill(spot, content)
}

/// Whether the place was filled.
pub fn fill_happens(core: &mut Core, spot: Spot, content: Content) -> Result<bool, Memory> {
    match fill_answer(core, spot, content) {
        Ok(()) => Ok(true),
        Err(OrMemory::Fault(_)) => Ok(false),
        Err(OrMemory::Memory) => Err(Memory),
    }
}

/// The attempts that count, in order of number.
pub fn serial(core: &Core, alloc: Global) -> Result<Sequence<Attempt>, Memory> {
    core.serial(alloc)
}

/// What stands at the key.
pub fn place(core: &Core, key: Key) -> Place {
    core.story().place(key)
}

pub fn story(core: &Core) -> &Story {
    core.story()
}

/// Whether the seat, which there is, keeps nothing.
pub fn keeps_nothing(core: &Core, seat: u32) -> bool {
    match core.seats().get(seat as usize) {
        None => false,
        Some(seat) => seat.kept.is_empty(),
    }
}

/// A machine of pages over snapshot pages, of which the first are published, so many, with these roots, and with so
/// many slots and seats.
pub fn open_pages(
    alloc: Global,
    snaps: Sequence<(u32, SnapPage)>,
    published: u32,
    roots: &[(Span, u32)],
    slots: u32,
    seats: u32,
) -> Result<DropCore, Memory> {
    DropCore::new(alloc, snaps, published, roots, slots, seats)
}

fn page_answer(
    core: &mut DropCore,
    seat: u32,
    act: PageAct,
) -> Result<Sequence<Move>, OrMemory<drop_core::NotAllowed>> {
    core.step(PageEvent { seat, act })
}

/// How many keys the act moves, or nothing where it is refused.
pub fn moved(core: &mut DropCore, seat: u32, act: PageAct) -> Result<Option<usize>, Memory> {
    match page_answer(core, seat, act) {
        Ok(moves) => Ok(Some(moves.len())),
        Err(OrMemory::Fault(_)) => Ok(None),
        Err(OrMemory::Memory) => Err(Memory),
    }
}

pub fn pointer(core: &DropCore, at: At) -> Pointer {
    core.table().pointer(at)
}

/// The number that a machine of both begins with.
const FIRST: Number = Number { epoch: 2, draw: 5 };

/// A machine of both over snapshot pages, of which the first are published, so many, with these roots, and with so many
/// slots and seats.
pub fn open_both(
    alloc: Global,
    snaps: Sequence<(u32, SnapPage)>,
    published: u32,
    roots: &[(Span, u32)],
    slots: u32,
    seats: u32,
) -> Result<Joint, Memory> {
    Joint::over(alloc, snaps, published, roots, FIRST, slots, seats)
}

/// The same over the words of a snapshot's pages, with one storage and its root's page.
pub fn open_over(
    alloc: Global,
    pages: &[Page],
    decl: Decl,
    root: u32,
    slots: u32,
    seats: u32,
) -> Result<Joint, Memory>
    requires { length pages.now ≤ 65536 }
{
    Joint::new(alloc, pages, &[decl], &[root], FIRST, slots, seats)
}

fn answer(joint: &mut Joint, seat: u32, act: JointAct) -> Result<(), OrMemory<NotAllowed>> {
    joint.step(JointEvent { seat, act })
}

/// Whether the act happened.
pub fn happens(joint: &mut Joint, seat: u32, act: JointAct) -> Result<bool, Memory> {
    match answer(joint, seat, act) {
        Ok(()) => Ok(true),
        Err(OrMemory::Fault(_)) => Ok(false),
        Err(OrMemory::Memory) => Err(Memory),
    }
}

pub fn turns(joint: &mut Joint, seat: u32, act: PageAct) -> Result<bool, Memory> {
    happens(joint, seat, JointAct::Turn(act))
}

pub fn commits(joint: &mut Joint, seat: u32, act: CommitAct) -> Result<bool, Memory> {
    happens(joint, seat, JointAct::Commit(act))
}

/// How many attempts were given up.
pub fn given_up(joint: &Joint) -> usize {
    joint.story().given_up.len()
}

/// What stands at the key.
pub fn content_at(joint: &Joint, key: Key) -> Content {
    joint.story().place(key).content
}

/// Whether this is where the key is.
pub fn is_at(joint: &Joint, key: Key, home: Home) -> bool {
    joint.story().home(key).is(home)
}

/// The snapshot page of the root with this number.
pub fn root_page(joint: &Joint, root: usize) -> u32 {
    joint.table().pointer(At::Root(root)).page
}
