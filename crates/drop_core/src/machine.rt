// The machine: pages, and the seats that hold and change them.
ghost use Rattle.std.specs.Prelude.{◌≡◌, List, IfOk, replicate};
ghost use Rattle.serial_model.specs.declared.key.Key.{Key};
ghost use Rattle.homes.specs.declared.places.Home.{Home};
ghost use Rattle.drop_core.specs.Event.{DropState, Answers, AnswersEvent};
ghost use Rattle.drop_core.specs.Opening.{CanOpen, opening_state, opening_homes, root_pointers, root_pointer, fresh_grip};
ghost use Rattle.drop_core.specs.Sound.{IsSound, IsOutcome};

use crate::acts::{self, Answer};
use crate::{Act, Event, Grip, NotAllowed, Pointer, SnapPage, Table, chains, leaves, swaps};
use homes::{At, Holder, Span};
use lists::Sequence;
use serial_model::{Memory, OrMemory};
use std::alloc::Global;
use std::marker::Model;

/// Pages in memory over snapshot pages, and the seats that hold and change them.
#[derive(Drop)]
pub struct DropCore {
    table: Table,
    grips: Vec<Grip>,
}

impl Model for DropCore {
    ghost use Rattle.drop_core.specs.Event.{DropState};

    ghost Value = { DropState };

    ghost view = { λ c. record { table = c.table; grips = c.grips.items } };
}

impl DropCore {
    /// A machine over these snapshot pages, of which those up to `published` are published, with a root over each of
    /// these spans that leads to a page of this number or to none, and with this many slots and seats.
    pub fn new(
        alloc: Global,
        snaps: Sequence<(u32, SnapPage)>,
        published: u32,
        roots: &[(Span, u32)],
        room: u32,
        seats: u32,
    ) -> Result<Self, Memory>
        ensures opens { IfOk result (λ c. c ≡ opening_state snaps published roots.now room seats) }
        ensures sound { CanOpen snaps published roots.now room → IfOk result (IsSound (opening_homes snaps published roots.now room)) }
    {
        opened(alloc, snaps, published, roots, room, seats)
    }

    /// Lets the event happen, if its condition holds, and answers the keys that it moves with their new homes.
    pub fn step(&mut self, event: Event) -> Answer
        ensures event { AnswersEvent self.old event result self.new }
        ensures sound { (homes : Key → Home) → IsSound homes self.old → IsOutcome homes result self.new }
    {
        match self.grips.get_mut(event.seat as usize) {
            None => Err(OrMemory::Fault(NotAllowed)),
            Some(grip) => apply(event.seat, &mut self.table, grip, event.act),
        }
    }

    /// Its parts, for whoever keeps them beside something else.
    pub fn into_parts(self) -> (Table, Vec<Grip>)
        ensures table { result.0 ≡ self.table }
        ensures grips { result.1.items ≡ self.grips }
    {
        let DropCore { table, grips } = self;
        (table, grips)
    }

    pub fn table(&self) -> &Table
        ensures { result.now ≡ self.now.table }
    {
        &self.table
    }

    pub fn grips(&self) -> &[Grip]
        ensures { result.now ≡ self.now.grips }
    {
        &self.grips
    }
}

/// One act of the seat with this id, for whoever keeps table and grips beside something else.
pub fn apply(id: u32, table: &mut Table, grip: &mut Grip, act: Act) -> Answer
    ensures { Answers id act table.old grip.old result table.new grip.new }
{
    match act {
        Act::Enter(slot) => acts::enter(id, table, grip, slot),
        Act::Leave(slot) => acts::leave(id, table, grip, slot),
        Act::Give(slot) => acts::give(id, table, grip, slot),
        Act::Publish(slot) => acts::publish(id, table, grip, slot),
        Act::Retire(slot) => acts::retire(id, table, grip, slot),
        Act::FillPage(slot, page) => acts::fill_page(id, table, grip, slot, page),
        Act::FillPointer(spot, new) => acts::fill_pointer(id, table, grip, spot, new),
        Act::FillSnapshot(number, page) => acts::fill_snapshot(id, table, grip, number, page),
        Act::Extend(number) => acts::extend(id, table, grip, number),
        Act::Install(at, slot) => swaps::install(id, table, grip, at, slot),
        Act::Swing(at, number) => swaps::swing(id, table, grip, at, number),
        Act::Renew(at, number) => acts::renew(id, table, grip, at, number),
        Act::Shut(at) => acts::shut(id, table, grip, at),
        Act::Reopen(at) => acts::reopen(id, table, grip, at),
        Act::FillHeader(slot) => acts::fill_header(id, table, grip, slot),
        Act::LockHeader(slot) => acts::lock_header(id, table, grip, slot),
        Act::OpenHeader(slot, added) => leaves::open(id, table, grip, slot, added),
        Act::Twin(twins) => leaves::split(id, table, grip, &twins),
        Act::SwingChain(at, number, chain) => chains::swing(id, table, grip, at, number, &chain),
    }
}

fn opened(
    alloc: Global,
    snaps: Sequence<(u32, SnapPage)>,
    published: u32,
    roots: &[(Span, u32)],
    room: u32,
    seats: u32,
) -> Result<DropCore, Memory>
    ensures { IfOk result (λ c. c ≡ opening_state snaps published roots.now room seats) }
{
    let pointers = root_pointers(alloc, roots)?;
    let grips = fresh_grips(alloc, seats)?;
    let table = Table {
        slots: Sequence::new(alloc),
        pages: Sequence::new(alloc),
        pointers,
        headers: Sequence::new(alloc),
        snaps,
        published,
        room,
    };
    Ok(DropCore { table, grips })
}

/// The roots' pointers.
fn root_pointers(alloc: Global, roots: &[(Span, u32)]) -> Result<Sequence<(At, Pointer)>, Memory>
    ensures { IfOk result (λ s. s ≡ root_pointers 0 roots.now) }
{
    let mut pointers = Sequence::new(alloc);
    let mut index = 0;
    for root in roots {
        pointers.push((At::Root(index), root_pointer(root.0, root.1)))?;
        index += 1;
    }
    Ok(pointers)
}

fn root_pointer(span: Span, page: u32) -> Pointer
    ensures { result ≡ root_pointer span page }
{
    Pointer {
        span,
        slot: None,
        page,
        holder: Holder::Free,
    }
}

/// Seats that have nothing.
fn fresh_grips(alloc: Global, seats: u32) -> Result<Vec<Grip>, Memory>
    ensures { IfOk result (λ v. v.items ≡ replicate seats fresh_grip) }
{
    let mut grips = Vec::new(alloc);
    for _ in 0..seats {
        grips.push(Grip {
            holds: Sequence::new(alloc),
            made: Sequence::new(alloc),
            taken: Sequence::new(alloc),
        })?;
    }
    Ok(grips)
}
