// Acts that move keys, in two steps; and the two that lead a pointer elsewhere: the keys below it move between a slot's
// page and a snapshot page.
ghost use Rattle.std.specs.Prelude.{◌≡◌, IfOk, unwrap_or};
ghost use Rattle.homes.specs.Homes.{moves_to};
ghost use Rattle.drop_core.specs.Table.{page_of, pointer_of, leaf_home, snap_home};
ghost use Rattle.drop_core.specs.Swap.{Prepares, with_numbers, put};
ghost use Rattle.drop_core.specs.Event.{Answers, is_ready, is_target, is_closed_to_others, keeps_header, can_install, can_swing_from, can_swing, is_in, bury, buried_pointers, dropped, leaf_keys};

use crate::acts::{Answer, headers_with, numbers_with, numbers_without, pointers_with, slots_with};
use crate::grip::{has_slot, is_among};
use crate::queries::leaf_home;
use crate::{Act, Grip, Led, NotAllowed, Page, Pointer, Slot, Table};
use homes::{At, Holder, Move, Span};
use lists::Sequence;
use serial_model::{Key, Memory, OrMemory};

/// What an act that moves keys comes to, made beforehand: to put it takes no memory. In between, whoever keeps pages beside
/// another machine tells that one of the moves. A list that isn't there stays as it is.
#[derive(Drop)]
pub struct Swap {
    pub slots: Option<Sequence<(u32, Slot)>>,
    pub pages: Option<Sequence<(u32, Page)>>,
    pub pointers: Option<Sequence<(At, Pointer)>>,
    pub headers: Option<Sequence<(u32, Holder)>>,
    pub numbers: Numbers,
    /// The keys that move, with their new homes.
    pub moves: Sequence<Move>,
}

/// The slots of a seat that change with it.
#[derive(Drop)]
pub enum Numbers {
    /// None do.
    Kept,
    /// Those that it made, with an install and a split.
    Made(Sequence<u32>),
    /// Those that it took, with a swing.
    Taken(Sequence<u32>),
}

/// Leads a pointer to a slot, whose page says the same as the snapshot page that it led to.
pub fn install(id: u32, table: &mut Table, grip: &mut Grip, at: At, slot: u32) -> Answer
    ensures { Answers id (Act.Install at slot) table.old grip.old result table.new grip.new }
{
    let swap = prepare_install(id, table, grip, at, slot)?;
    Ok(put(swap, table, grip))
}

/// Leads a pointer from a slot to a snapshot page that says the same as the slot's page. Whoever reads the dead page
/// still holds the slot, and finds its pointers dead.
pub fn swing(id: u32, table: &mut Table, grip: &mut Grip, at: At, number: u32) -> Answer
    ensures { Answers id (Act.Swing at number) table.old grip.old result table.new grip.new }
{
    let swap = prepare_swing(id, table, grip, at, number)?;
    Ok(put(swap, table, grip))
}

/// What an install comes to, if it may be made.
pub fn prepare_install(
    id: u32,
    table: &Table,
    grip: &Grip,
    at: At,
    slot: u32,
) -> Result<Swap, OrMemory<NotAllowed>>
    ensures { Prepares id (Act.Install at slot) table.now grip.now result }
{
    if id == 0 || !can_install(table, grip, at, slot) {
        return Err(OrMemory::Fault(NotAllowed));
    }
    let moves = moves_up(table, slot)?;
    let slots = slots_with(&table.slots, slot, led(table.slot(slot), Led::From(at)))?;
    let pointer = leading(table.pointer(at), Some(slot), table.pointer(at).page);
    let pointers = pointers_with(&table.pointers, at, pointer)?;
    let made = numbers_without(&grip.made, slot)?;
    Ok(Swap {
        slots: Some(slots),
        pages: None,
        pointers: Some(pointers),
        headers: None,
        numbers: Numbers::Made(made),
        moves,
    })
}

/// What a swing comes to, if it may be made.
pub fn prepare_swing(
    id: u32,
    table: &Table,
    grip: &Grip,
    at: At,
    number: u32,
) -> Result<Swap, OrMemory<NotAllowed>>
    ensures { Prepares id (Act.Swing at number) table.now grip.now result }
{
    if !can_swing(id, table, at, number) || !keeps_header(id, table, table.pointer(at).slot) {
        return Err(OrMemory::Fault(NotAllowed));
    }
    let Some(slot) = table.pointer(at).slot else {
        return Err(OrMemory::Fault(NotAllowed));
    };
    let moves = moves_down(table, slot, number)?;
    let slots = slots_with(&table.slots, slot, led(table.slot(slot), Led::Away))?;
    let pointers = dropped_from(table, at, number, &[slot])?;
    let headers = headers_with(&table.headers, slot, Holder::Dead)?;
    let taken = numbers_with(&grip.taken, slot)?;
    Ok(Swap {
        slots: Some(slots),
        pages: None,
        pointers: Some(pointers),
        headers: Some(headers),
        numbers: Numbers::Taken(taken),
        moves,
    })
}

/// The pointers once this one leads to the snapshot page alone, and those in the pages of these slots are dead.
pub fn dropped_from(
    table: &Table,
    at: At,
    number: u32,
    gone: &[u32],
) -> Result<Sequence<(At, Pointer)>, Memory>
    ensures { IfOk result (λ s. s ≡ (dropped table.now at number gone.now).pointers) }
{
    let buried = buried_in(gone, &table.pointers)?;
    let pointer = leading(table.pointer(at), None, number);
    pointers_with(&buried, at, pointer)
}

/// Makes what was prepared so, and answers the moves.
pub fn put(swap: Swap, table: &mut Table, grip: &mut Grip) -> Sequence<Move>
    ensures moves { result ≡ swap.moves }
    ensures table { table.new ≡ (put swap table.old grip.old).table }
    ensures grip { grip.new ≡ (put swap table.old grip.old).grip }
{
    let Swap {
        slots,
        pages,
        pointers,
        headers,
        numbers,
        moves,
    } = swap;
    set_list(&mut table.slots, slots);
    set_list(&mut table.pages, pages);
    set_list(&mut table.pointers, pointers);
    set_list(&mut table.headers, headers);
    set_numbers(grip, numbers);
    moves
}

/// The list is this now, if there is one.
fn set_list<T: Drop>(list: &mut Sequence<T>, new: Option<Sequence<T>>)
    ensures { list.new ≡ unwrap_or new list.old }
{
    match new {
        None => {}
        Some(new) => *list = new,
    }
}

fn set_numbers(grip: &mut Grip, numbers: Numbers)
    ensures { grip.new ≡ with_numbers numbers grip.old }
{
    match numbers {
        Numbers::Kept => {}
        Numbers::Made(made) => grip.made = made,
        Numbers::Taken(taken) => grip.taken = taken,
    }
}

fn can_install(table: &Table, grip: &Grip, at: At, slot: u32) -> bool
    ensures { result ≡ can_install table.now grip.now at slot }
{
    let pointer = table.pointer(at);
    table.is_open(at)
        && pointer.slot.is_none()
        && is_ready(table, grip, slot)
        && table.is_like(slot, pointer.page)
        && table.stands_for(slot, pointer.page, pointer.span)
}

/// Whether the seat published the slot, and nothing has led to it.
pub fn is_ready(table: &Table, grip: &Grip, slot: u32) -> bool
    ensures { result ≡ is_ready table.now grip.now slot }
{
    let old = table.slot(slot);
    has_slot(&grip.made, slot) && old.state.is_published() && old.led.is_never()
}

fn can_swing(id: u32, table: &Table, at: At, number: u32) -> bool
    ensures { result ≡ can_swing id table.now at number }
{
    table.is_open(at)
        && is_target(table, number, table.pointer(at).span)
        && can_swing_from(id, table, at, number)
}

/// Whether the snapshot page is published, and is over these keys, or is none.
pub fn is_target(table: &Table, number: u32, span: Span) -> bool
    ensures { result ≡ is_target table.now number span }
{
    number <= table.published && (number == 0 || table.is_over(number, span))
}

/// Whether nobody but this seat can add a key to the page in the slot, if there is one.
fn keeps_header(id: u32, table: &Table, slot: Option<u32>) -> bool
    ensures { result ≡ keeps_header id table.now slot }
{
    match slot {
        None => true,
        Some(slot) => is_closed_to_others(id, table.header(slot)),
    }
}

/// Whether nobody but this seat can open it.
fn is_closed_to_others(id: u32, holder: Holder) -> bool
    ensures { result ≡ is_closed_to_others id holder }
{
    match holder {
        Holder::Free => false,
        Holder::Held(other) => other == id,
        Holder::Dead => true,
    }
}

fn can_swing_from(id: u32, table: &Table, at: At, number: u32) -> bool
    ensures { result ≡ can_swing_from id table.now at number (pointer_of table.now at).slot }
{
    let pointer = table.pointer(at);
    match pointer.slot {
        None => false,
        Some(slot) => table.is_like(slot, number)
            && table.is_stood_for(id, slot, number, pointer.span),
    }
}

/// The slot, to which this leads.
pub fn led(slot: Slot, led: Led) -> Slot
    ensures { result ≡ record slot { led = led } }
{
    Slot {
        state: slot.state,
        passes: slot.passes,
        times: slot.times,
        led,
    }
}

/// The pointer with these halves.
fn leading(pointer: Pointer, slot: Option<u32>, page: u32) -> Pointer
    ensures { result ≡ record pointer { slot = slot; page = page } }
{
    Pointer {
        span: pointer.span,
        slot,
        page,
        holder: pointer.holder,
    }
}

/// The moves of the keys of a slot's page to their places in it.
fn moves_up(table: &Table, slot: u32) -> Result<Sequence<Move>, Memory>
    ensures { IfOk result (λ m. m ≡ moves_to (leaf_home slot 0 (leaf_keys (page_of table.now slot))) (leaf_keys (page_of table.now slot))) }
{
    match table.page(slot) {
        None | Some(Page::Blank) | Some(Page::Inner(_)) | Some(Page::Split) => {
            Ok(Sequence::new(table.slots.alloc()))
        }
        Some(Page::Leaf(keys)) => to_places(slot, keys),
    }
}

fn to_places(slot: u32, keys: &Sequence<Key>) -> Result<Sequence<Move>, Memory>
    ensures { IfOk result (λ m. m ≡ moves_to (leaf_home slot 0 keys.now) keys.now) }
{
    let mut moves = Sequence::new(keys.alloc());
    for key in keys.as_slice() {
        let home = leaf_home(slot, keys.as_slice(), *key);
        moves.push(Move { key: *key, home })?;
    }
    Ok(moves)
}

/// The moves of the keys of a slot's page to a snapshot page.
fn moves_down(table: &Table, slot: u32, number: u32) -> Result<Sequence<Move>, Memory>
    ensures { IfOk result (λ m. m ≡ moves_to (snap_home table.now number) (leaf_keys (page_of table.now slot))) }
{
    match table.page(slot) {
        None | Some(Page::Blank) | Some(Page::Inner(_)) | Some(Page::Split) => {
            Ok(Sequence::new(table.slots.alloc()))
        }
        Some(Page::Leaf(keys)) => to_page(table, number, keys),
    }
}

/// The moves of these keys to a snapshot page.
pub fn to_page(table: &Table, number: u32, keys: &Sequence<Key>) -> Result<Sequence<Move>, Memory>
    ensures { IfOk result (λ m. m ≡ moves_to (snap_home table.now number) keys.now) }
{
    let mut moves = Sequence::new(keys.alloc());
    for key in keys.as_slice() {
        let home = table.home(number, *key);
        moves.push(Move { key: *key, home })?;
    }
    Ok(moves)
}

/// The pointers, of which those in the pages of these slots are dead.
fn buried_in(
    gone: &[u32],
    pointers: &Sequence<(At, Pointer)>,
) -> Result<Sequence<(At, Pointer)>, Memory>
    ensures { IfOk result (λ s. s ≡ buried_pointers gone.now pointers.now) }
{
    let mut list = Sequence::new(pointers.alloc());
    for entry in pointers.as_slice() {
        list.push((entry.0, bury(gone, entry.0, entry.1)))?;
    }
    Ok(list)
}

fn bury(gone: &[u32], at: At, pointer: Pointer) -> Pointer
    ensures { result ≡ bury gone.now at pointer }
{
    if is_in(gone, at) {
        return Pointer {
            span: pointer.span,
            slot: pointer.slot,
            page: pointer.page,
            holder: Holder::Dead,
        };
    }
    pointer
}

/// Whether the pointer is in the page of one of these slots.
pub fn is_in(gone: &[u32], at: At) -> bool
    ensures { result ≡ is_in gone.now at }
{
    match at {
        At::Root(_) => false,
        At::In(spot) => is_among(gone, spot.slot),
    }
}
