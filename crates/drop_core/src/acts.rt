// The acts on slots, on single words and on the published count: the condition, and then the effect. What needs
// memory comes first, so that want of memory leaves everything as it was.
ghost use Rattle.std.specs.Prelude.{◌≡◌, [], ◌∷◌, IfOk, OnOk, OnErr, None};
ghost use Rattle.drop_core.specs.Event.{Answers, without, with_pointer, with_header};

use crate::grip::has_slot;
use crate::{Act, Grip, Led, NotAllowed, Page, Pointer, Slot, SlotState, SnapPage, Table};
use homes::{At, Holder, Move, Spot};
use lists::Sequence;
use serial_model::{Memory, OrMemory};
use std::mem;

/// What an act answers: the moves of keys that it is.
pub type Answer = Result<Sequence<Move>, OrMemory<NotAllowed>>;

/// A slot is held by so many seats at most: its word has 16 bits for them.
pub const MOST_PASSES: u64 = 65_535;

/// The moves of an act that moves no key.
pub fn no_moves(table: &Table) -> Sequence<Move>
    ensures { result ≡ [] }
{
    Sequence::new(table.slots.alloc())
}

/// Holds a slot. From then on it is not given, whatever becomes of its page.
pub fn enter(id: u32, table: &mut Table, grip: &mut Grip, slot: u32) -> Answer
    ensures { Answers id (Act.Enter slot) table.old grip.old result table.new grip.new }
{
    let old = table.slot(slot);
    if slot >= table.room || has_slot(&grip.holds, slot) || old.passes >= MOST_PASSES {
        return Err(OrMemory::Fault(NotAllowed));
    }
    let new = Slot {
        state: old.state,
        passes: old.passes + 1,
        times: old.times,
        led: old.led,
    };
    let slots = slots_with(&table.slots, slot, new)?;
    let holds = numbers_with(&grip.holds, slot)?;
    table.slots = slots;
    grip.holds = holds;
    Ok(no_moves(table))
}

/// Holds a slot no more.
pub fn leave(id: u32, table: &mut Table, grip: &mut Grip, slot: u32) -> Answer
    ensures { Answers id (Act.Leave slot) table.old grip.old result table.new grip.new }
{
    if !has_slot(&grip.holds, slot) {
        return Err(OrMemory::Fault(NotAllowed));
    }
    let old = table.slot(slot);
    let new = Slot {
        state: old.state,
        passes: old.passes.saturating_sub(1),
        times: old.times,
        led: old.led,
    };
    let slots = slots_with(&table.slots, slot, new)?;
    let holds = numbers_without(&grip.holds, slot)?;
    table.slots = slots;
    grip.holds = holds;
    Ok(no_moves(table))
}

/// Takes a usable slot. Nobody reads its page: a seat that did would hold it. The page has no header until one is
/// filled.
pub fn give(id: u32, table: &mut Table, grip: &mut Grip, slot: u32) -> Answer
    ensures { Answers id (Act.Give slot) table.old grip.old result table.new grip.new }
{
    let old = table.slot(slot);
    if slot >= table.room || !old.is_usable() {
        return Err(OrMemory::Fault(NotAllowed));
    }
    let new = Slot {
        state: SlotState::Owned,
        passes: old.passes,
        times: old.times + 1,
        led: Led::Never,
    };
    let slots = slots_with(&table.slots, slot, new)?;
    let headers = headers_with(&table.headers, slot, Holder::Dead)?;
    let made = numbers_with(&grip.made, slot)?;
    table.slots = slots;
    table.headers = headers;
    grip.made = made;
    Ok(no_moves(table))
}

/// Lets an owned slot be led to.
pub fn publish(id: u32, table: &mut Table, grip: &mut Grip, slot: u32) -> Answer
    ensures { Answers id (Act.Publish slot) table.old grip.old result table.new grip.new }
{
    let old = table.slot(slot);
    if !old.state.is_owned() || !has_slot(&grip.made, slot) {
        return Err(OrMemory::Fault(NotAllowed));
    }
    let new = Slot {
        state: SlotState::Published,
        passes: old.passes,
        times: old.times,
        led: old.led,
    };
    let slots = slots_with(&table.slots, slot, new)?;
    table.slots = slots;
    Ok(no_moves(table))
}

/// Gives up a slot that nothing leads to, and that nothing led to or the seat took away.
pub fn retire(id: u32, table: &mut Table, grip: &mut Grip, slot: u32) -> Answer
    ensures { Answers id (Act.Retire slot) table.old grip.old result table.new grip.new }
{
    let old = table.slot(slot);
    if !old.state.is_published() || old.led.is_from() {
        return Err(OrMemory::Fault(NotAllowed));
    }
    if !has_slot(&grip.made, slot) && !has_slot(&grip.taken, slot) {
        return Err(OrMemory::Fault(NotAllowed));
    }
    let new = Slot {
        state: SlotState::Retired,
        passes: old.passes,
        times: old.times,
        led: old.led,
    };
    let slots = slots_with(&table.slots, slot, new)?;
    let made = numbers_without(&grip.made, slot)?;
    let taken = numbers_without(&grip.taken, slot)?;
    table.slots = slots;
    grip.made = made;
    grip.taken = taken;
    Ok(no_moves(table))
}

/// Lays out the page of an owned slot, which nobody else reads.
pub fn fill_page(id: u32, table: &mut Table, grip: &mut Grip, slot: u32, page: Page) -> Answer
    ensures { Answers id (Act.FillPage slot page) table.old grip.old result table.new grip.new }
{
    if !table.slot(slot).state.is_owned() || !has_slot(&grip.made, slot) {
        return Err(OrMemory::Fault(NotAllowed));
    }
    put_front(&mut table.pages, (slot, page))?;
    Ok(no_moves(table))
}

/// Sets a pointer in the page of an owned slot.
pub fn fill_pointer(id: u32, table: &mut Table, grip: &mut Grip, spot: Spot, new: Pointer) -> Answer
    ensures { Answers id (Act.FillPointer spot new) table.old grip.old result table.new grip.new }
{
    if !table.slot(spot.slot).state.is_owned() || !has_slot(&grip.made, spot.slot) {
        return Err(OrMemory::Fault(NotAllowed));
    }
    set_pointer(table, At::In(spot), new)?;
    Ok(no_moves(table))
}

/// Sets a snapshot page above the published count, which nothing leads to. Seat 0 alone makes snapshots.
pub fn fill_snapshot(
    id: u32,
    table: &mut Table,
    grip: &mut Grip,
    number: u32,
    page: SnapPage,
) -> Answer
    ensures { Answers id (Act.FillSnapshot number page) table.old grip.old result table.new grip.new }
{
    if id != 0 || number <= table.published {
        return Err(OrMemory::Fault(NotAllowed));
    }
    put_front(&mut table.snaps, (number, page))?;
    Ok(no_moves(table))
}

/// Publishes the snapshot pages up to this one.
pub fn extend(id: u32, table: &mut Table, grip: &mut Grip, number: u32) -> Answer
    ensures { Answers id (Act.Extend number) table.old grip.old result table.new grip.new }
{
    if id != 0 || number < table.published {
        return Err(OrMemory::Fault(NotAllowed));
    }
    if !table.are_filled(number) || !table.are_right(number) {
        return Err(OrMemory::Fault(NotAllowed));
    }
    table.published = number;
    Ok(no_moves(table))
}

/// Sets the snapshot half of a pointer that leads to a slot. The slot's page is the truth before and after.
pub fn renew(id: u32, table: &mut Table, grip: &mut Grip, at: At, number: u32) -> Answer
    ensures { Answers id (Act.Renew at number) table.old grip.old result table.new grip.new }
{
    let old = table.pointer(at);
    if !table.is_open(at) || old.slot.is_none() {
        return Err(OrMemory::Fault(NotAllowed));
    }
    if number == 0 || number > table.published || !table.is_over(number, old.span) {
        return Err(OrMemory::Fault(NotAllowed));
    }
    let new = Pointer {
        span: old.span,
        slot: old.slot,
        page: number,
        holder: old.holder,
    };
    set_pointer(table, at, new)?;
    Ok(no_moves(table))
}

/// Keeps others from changing a pointer.
pub fn shut(id: u32, table: &mut Table, grip: &mut Grip, at: At) -> Answer
    ensures { Answers id (Act.Shut at) table.old grip.old result table.new grip.new }
{
    if !table.is_open(at) {
        return Err(OrMemory::Fault(NotAllowed));
    }
    let old = table.pointer(at);
    let new = Pointer {
        span: old.span,
        slot: old.slot,
        page: old.page,
        holder: Holder::Held(id),
    };
    set_pointer(table, at, new)?;
    Ok(no_moves(table))
}

/// Lets them again.
pub fn reopen(id: u32, table: &mut Table, grip: &mut Grip, at: At) -> Answer
    ensures { Answers id (Act.Reopen at) table.old grip.old result table.new grip.new }
{
    let old = table.pointer(at);
    if !old.holder.is(id) {
        return Err(OrMemory::Fault(NotAllowed));
    }
    let new = Pointer {
        span: old.span,
        slot: old.slot,
        page: old.page,
        holder: Holder::Free,
    };
    set_pointer(table, at, new)?;
    Ok(no_moves(table))
}

/// Gives the page of an owned slot an open header, so that keys can be added to it once it is led to.
pub fn fill_header(id: u32, table: &mut Table, grip: &mut Grip, slot: u32) -> Answer
    ensures { Answers id (Act.FillHeader slot) table.old grip.old result table.new grip.new }
{
    if !table.slot(slot).state.is_owned() || !has_slot(&grip.made, slot) {
        return Err(OrMemory::Fault(NotAllowed));
    }
    set_header(table, slot, Holder::Free)?;
    Ok(no_moves(table))
}

/// Keeps others from adding keys to a leaf. The header of one that was split is locked by seat 0 alone, as it drops
/// the chain.
pub fn lock_header(id: u32, table: &mut Table, grip: &mut Grip, slot: u32) -> Answer
    ensures { Answers id (Act.LockHeader slot) table.old grip.old result table.new grip.new }
{
    if !table.slot(slot).led.is_from() || !table.header(slot).is_free() {
        return Err(OrMemory::Fault(NotAllowed));
    }
    if id != 0 && table.is_split(slot) {
        return Err(OrMemory::Fault(NotAllowed));
    }
    set_header(table, slot, Holder::Held(id))?;
    Ok(no_moves(table))
}

/// Lets them again, with the keys that there were.
pub fn open_header(id: u32, table: &mut Table, grip: &mut Grip, slot: u32) -> Answer
    ensures { Answers id (Act.OpenHeader slot None) table.old grip.old result table.new grip.new }
{
    if !table.header(slot).is(id) {
        return Err(OrMemory::Fault(NotAllowed));
    }
    set_header(table, slot, Holder::Free)?;
    Ok(no_moves(table))
}

/// The header is held so now.
fn set_header(table: &mut Table, slot: u32, new: Holder) -> Result<(), Memory>
    ensures ok { OnOk result (table.new ≡ with_header table.old slot new) }
    ensures memory { OnErr result (table.new ≡ table.old) }
{
    let headers = headers_with(&table.headers, slot, new)?;
    table.headers = headers;
    Ok(())
}

/// The pointer is this now.
fn set_pointer(table: &mut Table, at: At, new: Pointer) -> Result<(), Memory>
    ensures ok { OnOk result (table.new ≡ with_pointer table.old at new) }
    ensures memory { OnErr result (table.new ≡ table.old) }
{
    let pointers = pointers_with(&table.pointers, at, new)?;
    table.pointers = pointers;
    Ok(())
}

/// Puts the item before the others. After want of memory the list is as it was.
fn put_front<T: Drop>(list: &mut Sequence<T>, item: T) -> Result<(), Memory>
    ensures ok { OnOk result (list.new ≡ item ∷ list.old) }
    ensures memory { OnErr result (list.new ≡ list.old) }
{
    let none = Sequence::new(list.alloc());
    let mut items = mem::replace(list, none).into_vec();
    let added = items.insert(0, item);
    *list = Sequence::from_vec(items);
    added?;
    Ok(())
}

/// The slots, of which one is this now.
pub fn slots_with(
    slots: &Sequence<(u32, Slot)>,
    slot: u32,
    new: Slot,
) -> Result<Sequence<(u32, Slot)>, Memory>
    ensures { IfOk result (λ s. s ≡ (slot, new) ∷ slots.now) }
{
    let mut all = Sequence::new(slots.alloc());
    all.push((slot, new))?;
    all.append(slots.as_slice())?;
    Ok(all)
}

/// The pointers, of which one is this now.
pub fn pointers_with(
    pointers: &Sequence<(At, Pointer)>,
    at: At,
    new: Pointer,
) -> Result<Sequence<(At, Pointer)>, Memory>
    ensures { IfOk result (λ s. s ≡ (at, new) ∷ pointers.now) }
{
    let mut all = Sequence::new(pointers.alloc());
    all.push((at, new))?;
    all.append(pointers.as_slice())?;
    Ok(all)
}

/// The headers, of which one is held so now.
pub fn headers_with(
    headers: &Sequence<(u32, Holder)>,
    slot: u32,
    new: Holder,
) -> Result<Sequence<(u32, Holder)>, Memory>
    ensures { IfOk result (λ s. s ≡ (slot, new) ∷ headers.now) }
{
    let mut all = Sequence::new(headers.alloc());
    all.push((slot, new))?;
    all.append(headers.as_slice())?;
    Ok(all)
}

/// The numbers, and this one.
pub fn numbers_with(numbers: &Sequence<u32>, number: u32) -> Result<Sequence<u32>, Memory>
    ensures { IfOk result (λ s. s ≡ number ∷ numbers.now) }
{
    let mut all = Sequence::new(numbers.alloc());
    all.push(number)?;
    all.append(numbers.as_slice())?;
    Ok(all)
}

/// The numbers but for this one.
pub fn numbers_without(numbers: &Sequence<u32>, number: u32) -> Result<Sequence<u32>, Memory>
    ensures { IfOk result (λ s. s ≡ without numbers.now number) }
{
    let all = numbers.as_slice().iter().copied();
    let list = all.filter(|n| *n != number).collect(numbers.alloc())?;
    Ok(Sequence::from_vec(list))
}
