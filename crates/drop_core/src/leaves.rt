// Keys that are added to a leaf, and full leaves that are split.
ghost use Rattle.std.specs.Prelude.{◌≡◌, ◌==◌, ◌&&◌, ◌||◌, not, [], ◌∷◌, ◌++◌, length, nat_lt, IfOk, Some};
ghost use Rattle.std.specs.List.{list_all};
ghost use Rattle.homes.specs.Homes.{has_key, in_span, moves_to};
ghost use Rattle.drop_core.specs.declared.table.Led.TheVariants.{From};
ghost use Rattle.drop_core.specs.Table.{slot_of, page_of, at_index};
ghost use Rattle.drop_core.specs.Swap.{Prepares};
ghost use Rattle.drop_core.specs.Event.{Answers, each_once, leaf_keys, most_records, takes_key, can_open_header, lower_span, upper_span, is_leaf_of, is_half, are_keys_of, is_separator, key_in, can_split, with_key, twin_pointer, twinned, twin_home, next_place, moves_in, without};

use crate::acts::{self, Answer, headers_with, numbers_without};
use crate::queries::leaf_home;
use crate::stands::{are_in, each_once, has_key};
use crate::swaps::{is_ready, led, put};
use crate::{Act, Grip, Led, NotAllowed, Numbers, Page, Pointer, Slot, Swap, Table, Twins};
use homes::{At, Holder, Home, Move, Span, Spot};
use lists::Sequence;
use serial_model::{Key, Memory, OrMemory};

/// A leaf to which keys are added has so many at most.
pub const MOST_RECORDS: usize = 16;

/// A full leaf is split with one more key, into leaves of so many keys.
pub const MINOR_RECORDS: usize = 8;

pub const MAJOR_RECORDS: usize = 9;

/// Opens a header, as it was or with one more key.
pub fn open(id: u32, table: &mut Table, grip: &mut Grip, slot: u32, added: Option<Key>) -> Answer
    ensures { Answers id (Act.OpenHeader slot added) table.old grip.old result table.new grip.new }
{
    match added {
        None => acts::open_header(id, table, grip, slot),
        Some(key) => add_key(id, table, grip, slot, key),
    }
}

/// Opens a header with one more key, whose record is in the place behind the others. Whoever kept the header as it was
/// finds another count.
fn add_key(id: u32, table: &mut Table, grip: &mut Grip, slot: u32, key: Key) -> Answer
    ensures { Answers id (Act.OpenHeader slot (Some key)) table.old grip.old result table.new grip.new }
{
    let swap = prepare_key(id, table, grip, slot, key)?;
    Ok(put(swap, table, grip))
}

/// Splits a full leaf. Whoever reads it still holds its slot, and finds its records where they were, all locked for
/// good.
pub fn split(id: u32, table: &mut Table, grip: &mut Grip, twins: &Twins) -> Answer
    ensures { Answers id (Act.Twin twins.now) table.old grip.old result table.new grip.new }
{
    let swap = prepare_split(id, table, grip, twins)?;
    Ok(put(swap, table, grip))
}

/// What opening a header with one more key comes to, if it may be.
pub fn prepare_key(
    id: u32,
    table: &Table,
    grip: &Grip,
    slot: u32,
    key: Key,
) -> Result<Swap, OrMemory<NotAllowed>>
    ensures { Prepares id (Act.OpenHeader slot (Some key)) table.now grip.now result }
{
    if !can_add(id, table, slot, key) {
        return Err(OrMemory::Fault(NotAllowed));
    }
    let moves = move_behind(table, slot, key)?;
    let page = page_with(table, slot, key)?;
    let pages = pages_with(&table.pages, slot, page)?;
    let headers = headers_with(&table.headers, slot, Holder::Free)?;
    Ok(Swap {
        slots: None,
        pages: Some(pages),
        pointers: None,
        headers: Some(headers),
        numbers: Numbers::Kept,
        moves,
    })
}

/// What a split comes to, if it may be made.
pub fn prepare_split(
    id: u32,
    table: &Table,
    grip: &Grip,
    twins: &Twins,
) -> Result<Swap, OrMemory<NotAllowed>>
    ensures { Prepares id (Act.Twin twins.now) table.now grip.now result }
{
    let span = table.slot_span(twins.slot);
    if id == 0 || !can_split(id, table, grip, span, twins) {
        return Err(OrMemory::Fault(NotAllowed));
    }
    let moves = moves_apart(table, span, twins)?;
    let slots = halves_led(table, span, twins)?;
    let pages = pages_with(&table.pages, twins.slot, Page::Split)?;
    let pointers = twins_set(table, span, twins)?;
    let headers = headers_with(&table.headers, twins.slot, Holder::Free)?;
    let made = made_without(grip, twins.minor, twins.major)?;
    Ok(Swap {
        slots: Some(slots),
        pages: Some(pages),
        pointers: Some(pointers),
        headers: Some(headers),
        numbers: Numbers::Made(made),
        moves,
    })
}

/// Whether the seat, which is not seat 0, may open the header with this key.
pub fn can_add(id: u32, table: &Table, slot: u32, key: Key) -> bool
    ensures { result ≡ can_open_header id table.now slot (Some key) }
{
    id != 0 && table.header(slot).is(id) && takes_key(table, slot, table.slot_span(slot), key)
}

/// Whether the page is a leaf that has room for the key, which is one of the span and new.
fn takes_key(table: &Table, slot: u32, span: Span, key: Key) -> bool
    ensures { result ≡ takes_key span key (page_of table.now slot) }
{
    match table.page(slot) {
        None | Some(Page::Blank) | Some(Page::Inner(_)) | Some(Page::Split) => false,
        Some(Page::Leaf(keys)) => has_room(span, keys.as_slice(), key),
    }
}

fn has_room(span: Span, keys: &[Key], key: Key) -> bool
    ensures { result ≡ (in_span span key && (not (has_key keys.now key) && nat_lt (length keys.now) most_records)) }
{
    span.has(key) && !has_key(keys, key) && keys.len() < MOST_RECORDS
}

/// The move of a key that is added.
fn move_behind(table: &Table, slot: u32, key: Key) -> Result<Sequence<Move>, Memory>
    ensures { IfOk result (λ m. m ≡ moves_in table.now slot (Some key)) }
{
    let mut moves = Sequence::new(table.slots.alloc());
    let home = next_place(table, slot);
    moves.push(Move { key, home })?;
    Ok(moves)
}

/// The place behind the records of a page.
fn next_place(table: &Table, slot: u32) -> Home
    ensures { result ≡ next_place table.now slot }
{
    let index = table.leaf_keys(slot).len();
    Home::InSlot(Spot { slot, index })
}

/// The page, with one more key.
fn page_with(table: &Table, slot: u32, key: Key) -> Result<Page, Memory>
    ensures { IfOk result (λ p. p ≡ with_key key (page_of table.now slot)) }
{
    match table.page(slot) {
        None | Some(Page::Blank) => Ok(Page::Blank),
        Some(Page::Leaf(keys)) => leaf_with(keys, key),
        Some(Page::Inner(count)) => Ok(Page::Inner(*count)),
        Some(Page::Split) => Ok(Page::Split),
    }
}

fn leaf_with(keys: &Sequence<Key>, key: Key) -> Result<Page, Memory>
    ensures { IfOk result (λ p. p ≡ Page.Leaf (keys.now ++ key ∷ [])) }
{
    let mut all = Sequence::from_slice(keys.alloc(), keys.as_slice())?;
    all.push(key)?;
    Ok(Page::Leaf(all))
}

/// The pages, of which one is this now.
fn pages_with(
    pages: &Sequence<(u32, Page)>,
    slot: u32,
    new: Page,
) -> Result<Sequence<(u32, Page)>, Memory>
    ensures { IfOk result (λ s. s ≡ (slot, new) ∷ pages.now) }
{
    let mut all = Sequence::new(pages.alloc());
    all.push((slot, new))?;
    for entry in pages.as_slice() {
        all.push((entry.0, same_page(&entry.1)?))?;
    }
    Ok(all)
}

/// The same page, in memory of its own.
fn same_page(page: &Page) -> Result<Page, Memory>
    ensures { IfOk result (λ p. p ≡ page.now) }
{
    match page {
        Page::Blank => Ok(Page::Blank),
        Page::Leaf(keys) => same_leaf(keys),
        Page::Inner(count) => Ok(Page::Inner(*count)),
        Page::Split => Ok(Page::Split),
    }
}

fn same_leaf(keys: &Sequence<Key>) -> Result<Page, Memory>
    ensures { IfOk result (λ p. p ≡ Page.Leaf keys.now) }
{
    let all = Sequence::from_slice(keys.alloc(), keys.as_slice())?;
    Ok(Page::Leaf(all))
}

/// The keys of the span below the separator.
fn lower_span(span: Span, separator: u64) -> Span
    ensures { result ≡ lower_span span separator }
{
    Span {
        storage: span.storage,
        low: span.low,
        high: separator.saturating_sub(1),
    }
}

/// The keys of the span from the separator on.
fn upper_span(span: Span, separator: u64) -> Span
    ensures { result ≡ upper_span span separator }
{
    Span {
        storage: span.storage,
        low: separator,
        high: span.high,
    }
}

/// Whether the seat may split the leaf, which is over the span.
fn can_split(id: u32, table: &Table, grip: &Grip, span: Span, twins: &Twins) -> bool
    ensures { result ≡ can_split id table.now grip.now span twins.now }
{
    table.header(twins.slot).is(id)
        && is_separator(span, twins.separator)
        && twins.minor != twins.major
        && is_minor(table, grip, span, twins)
        && is_major(table, grip, span, twins)
        && is_leaf_of(table, twins.slot, span, MOST_RECORDS)
        && have_keys(table, twins)
        && has_separator(table, span, twins)
}

fn is_separator(span: Span, separator: u64) -> bool
    ensures { result ≡ is_separator span separator }
{
    span.low < separator && separator <= span.high
}

fn is_minor(table: &Table, grip: &Grip, span: Span, twins: &Twins) -> bool
    ensures { result ≡ is_half table.now grip.now twins.now.minor (lower_span span twins.now.separator) 8 }
{
    let lower = lower_span(span, twins.separator);
    is_half(table, grip, twins.minor, lower, MINOR_RECORDS)
}

fn is_major(table: &Table, grip: &Grip, span: Span, twins: &Twins) -> bool
    ensures { result ≡ is_half table.now grip.now twins.now.major (upper_span span twins.now.separator) 9 }
{
    let upper = upper_span(span, twins.separator);
    is_half(table, grip, twins.major, upper, MAJOR_RECORDS)
}

/// Whether the seat may lead to the slot, whose page is a leaf with so many keys of the span and an open header.
fn is_half(table: &Table, grip: &Grip, slot: u32, span: Span, count: usize) -> bool
    ensures { result ≡ is_half table.now grip.now slot span count }
{
    is_ready(table, grip, slot)
        && table.header(slot).is_free()
        && is_leaf_of(table, slot, span, count)
}

/// Whether the page is a leaf with so many keys, each there once, all in the span.
fn is_leaf_of(table: &Table, slot: u32, span: Span, count: usize) -> bool
    ensures { result ≡ is_leaf_of span count (page_of table.now slot) }
{
    match table.page(slot) {
        None | Some(Page::Blank) | Some(Page::Inner(_)) | Some(Page::Split) => false,
        Some(Page::Leaf(keys)) => are_so_many(span, count, keys.as_slice()),
    }
}

fn are_so_many(span: Span, count: usize, keys: &[Key]) -> bool
    ensures { result ≡ ((length keys.now == count) && (each_once keys.now && list_all (λ k. in_span span k) keys.now)) }
{
    keys.len() == count && each_once(keys) && are_in(span, keys)
}

/// Whether the keys that are told are those of both halves, and the leaf's are among them.
fn have_keys(table: &Table, twins: &Twins) -> bool
    ensures { result ≡ are_keys_of (leaf_keys (page_of table.now twins.now.slot)) (leaf_keys (page_of table.now twins.now.minor)) (leaf_keys (page_of table.now twins.now.major)) twins.now.keys }
{
    let lower = table.leaf_keys(twins.minor);
    let upper = table.leaf_keys(twins.major);
    are_keys_of(
        table.leaf_keys(twins.slot),
        lower,
        upper,
        twins.keys.as_slice(),
    )
}

fn are_keys_of(old: &[Key], lower: &[Key], upper: &[Key], keys: &[Key]) -> bool
    ensures { result ≡ are_keys_of old.now lower.now upper.now keys.now }
{
    each_once(keys)
        && are_in_either(lower, upper, keys)
        && has_all(keys, lower)
        && has_all(keys, upper)
        && has_all(keys, old)
}

fn are_in_either(lower: &[Key], upper: &[Key], keys: &[Key]) -> bool
    ensures { result ≡ list_all (λ k. has_key lower.now k || has_key upper.now k) keys.now }
{
    keys.iter().all(|key| is_in_either(lower, upper, *key))
}

fn is_in_either(lower: &[Key], upper: &[Key], key: Key) -> bool
    ensures { result ≡ (has_key lower.now key || has_key upper.now key) }
{
    has_key(lower, key) || has_key(upper, key)
}

/// Whether all of these keys are in the list.
fn has_all(keys: &[Key], some: &[Key]) -> bool
    ensures { result ≡ list_all (λ k. has_key keys.now k) some.now }
{
    some.iter().all(|key| has_key(keys, *key))
}

fn has_separator(table: &Table, span: Span, twins: &Twins) -> bool
    ensures { result ≡ has_key (leaf_keys (page_of table.now twins.now.major)) (key_in span twins.now.separator) }
{
    let first = Key {
        storage: span.storage,
        key: twins.separator,
    };
    has_key(table.leaf_keys(twins.major), first)
}

/// The moves of all keys to the halves' places.
fn moves_apart(table: &Table, span: Span, twins: &Twins) -> Result<Sequence<Move>, Memory>
    ensures { IfOk result (λ m. m ≡ moves_to (twin_home table.now span twins.now) twins.now.keys) }
{
    let mut moves = Sequence::new(twins.keys.alloc());
    for key in twins.keys.as_slice() {
        let home = twin_home(table, span, twins, *key);
        moves.push(Move { key: *key, home })?;
    }
    Ok(moves)
}

fn twin_home(table: &Table, span: Span, twins: &Twins, key: Key) -> Home
    ensures { result ≡ twin_home table.now span twins.now key }
{
    if lower_span(span, twins.separator).has(key) {
        return leaf_home(twins.minor, table.leaf_keys(twins.minor), key);
    }
    leaf_home(twins.major, table.leaf_keys(twins.major), key)
}

/// The slots, of which both halves are led to.
fn halves_led(table: &Table, span: Span, twins: &Twins) -> Result<Sequence<(u32, Slot)>, Memory>
    ensures { IfOk result (λ s. s ≡ (twinned table.now span twins.now).slots) }
{
    let mut all = Sequence::new(table.slots.alloc());
    all.push((twins.minor, half_led(table, twins.minor, twins.slot, 0)))?;
    all.push((twins.major, half_led(table, twins.major, twins.slot, 1)))?;
    all.append(table.slots.as_slice())?;
    Ok(all)
}

/// The slot of a half, to which the pointer with this index leads.
fn half_led(table: &Table, half: u32, slot: u32, index: usize) -> Slot
    ensures { result ≡ record (slot_of table.now half) { led = From (at_index slot index) } }
{
    led(table.slot(half), Led::From(At::In(Spot { slot, index })))
}

/// The pointers, of which the leaf that is split has two.
fn twins_set(table: &Table, span: Span, twins: &Twins) -> Result<Sequence<(At, Pointer)>, Memory>
    ensures { IfOk result (λ s. s ≡ (twinned table.now span twins.now).pointers) }
{
    let lower = twin_pointer(lower_span(span, twins.separator), twins.minor);
    let upper = twin_pointer(upper_span(span, twins.separator), twins.major);
    let mut all = Sequence::new(table.pointers.alloc());
    all.push((at_index(twins.slot, 0), lower))?;
    all.push((at_index(twins.slot, 1), upper))?;
    all.append(table.pointers.as_slice())?;
    Ok(all)
}

fn at_index(slot: u32, index: usize) -> At
    ensures { result ≡ at_index slot index }
{
    At::In(Spot { slot, index })
}

/// A pointer of a leaf that was split. It is dead: nothing leads it elsewhere by itself.
fn twin_pointer(span: Span, slot: u32) -> Pointer
    ensures { result ≡ twin_pointer span slot }
{
    Pointer {
        span,
        slot: Some(slot),
        page: 0,
        holder: Holder::Dead,
    }
}

/// The slots that the seat made, but for these two.
fn made_without(grip: &Grip, minor: u32, major: u32) -> Result<Sequence<u32>, Memory>
    ensures { IfOk result (λ s. s ≡ without (without grip.now.made minor) major) }
{
    let made = numbers_without(&grip.made, minor)?;
    numbers_without(&made, major)
}
