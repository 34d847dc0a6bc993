// Chains: a leaf that was split, with all that came of it, is dropped whole.
ghost use Rattle.std.specs.Prelude.{◌≡◌, ◌==◌, ◌&&◌, ◌∷◌, ◌++◌, IfOk};
ghost use Rattle.std.specs.List.{list_all};
ghost use Rattle.homes.specs.Homes.{has_key, look};
ghost use Rattle.drop_core.specs.Table.{fresh_slot, page_of, at_index};
ghost use Rattle.drop_core.specs.Swap.{Prepares};
ghost use Rattle.drop_core.specs.Event.{Answers, leads_into, is_led_within, is_chain_page, is_link, is_key_in, is_chain, can_swing_chain, away_slots, dead_headers};

use crate::acts::{Answer, slots_with};
use crate::grip::is_among;
use crate::queries::slot_in;
use crate::stands::{each_once, has_key};
use crate::swaps::{dropped_from, is_in, is_target, led, put, to_page};
use crate::{Act, Chain, Grip, Led, NotAllowed, Numbers, Page, Slot, Swap, Table};
use homes::{At, Holder, Spot};
use lists::Sequence;
use serial_model::{Key, Memory, OrMemory};

/// A chain of more pages is kept.
pub const MOST_PAGES: usize = 63;

/// Leads a pointer from a chain to a snapshot page that says the same as its leaves.
pub fn swing(
    id: u32,
    table: &mut Table,
    grip: &mut Grip,
    at: At,
    number: u32,
    chain: &Chain,
) -> Answer
    ensures { Answers id (Act.SwingChain at number chain.now) table.old grip.old result table.new grip.new }
{
    let swap = prepare_swing_chain(id, table, grip, at, number, chain)?;
    Ok(put(swap, table, grip))
}

/// What a swing from a chain comes to, if it may be made.
pub fn prepare_swing_chain(
    id: u32,
    table: &Table,
    grip: &Grip,
    at: At,
    number: u32,
    chain: &Chain,
) -> Result<Swap, OrMemory<NotAllowed>>
    ensures { Prepares id (Act.SwingChain at number chain.now) table.now grip.now result }
{
    if !can_swing_chain(id, table, at, number, chain) {
        return Err(OrMemory::Fault(NotAllowed));
    }
    let gone = chain.slots.as_slice();
    let moves = to_page(table, number, &chain.keys)?;
    let slots = all_away(gone, &table.slots)?;
    let pointers = dropped_from(table, at, number, gone)?;
    let headers = headers_dead(gone, &table.headers)?;
    let taken = numbers_joined(gone, &grip.taken)?;
    Ok(Swap {
        slots: Some(slots),
        pages: None,
        pointers: Some(pointers),
        headers: Some(headers),
        numbers: Numbers::Taken(taken),
        moves,
    })
}

fn can_swing_chain(id: u32, table: &Table, at: At, number: u32, chain: &Chain) -> bool
    ensures { result ≡ can_swing_chain id table.now at number chain.now }
{
    let span = table.pointer(at).span;
    table.is_open(at)
        && is_target(table, number, span)
        && is_chain(id, table, at, chain)
        && table.leaves_none_out(number, span, chain.keys.as_slice())
}

/// Whether the chain is what hangs on the pointer, with each of its keys once, and the seat holds each header.
fn is_chain(id: u32, table: &Table, at: At, chain: &Chain) -> bool
    ensures { result ≡ is_chain id table.now at chain.now }
{
    chain.slots.len() <= MOST_PAGES
        && leads_into(table, chain.slots.as_slice(), at)
        && !is_in(chain.slots.as_slice(), at)
        && are_links(id, table, at, chain)
        && each_once(chain.keys.as_slice())
        && are_keys_in(table, chain.slots.as_slice(), chain.keys.as_slice())
}

/// Whether the pointer leads to one of these slots.
fn leads_into(table: &Table, slots: &[u32], at: At) -> bool
    ensures { result ≡ leads_into table.now slots.now at }
{
    match table.pointer(at).slot {
        None => false,
        Some(slot) => is_among(slots, slot),
    }
}

/// Whether what leads to a slot is this pointer, or one in the page of one of these slots.
fn is_led_within(at: At, slots: &[u32], led: Led) -> bool
    ensures { result ≡ is_led_within at slots.now led }
{
    match led {
        Led::Never | Led::Away => false,
        Led::From(from) => at.is(from) || is_in(slots, from),
    }
}

/// Whether the page is a leaf whose keys are the chain's, or was split into pages of the chain.
fn is_chain_page(table: &Table, chain: &Chain, slot: u32) -> bool
    ensures { result ≡ is_chain_page table.now chain.now slot (page_of table.now slot) }
{
    match table.page(slot) {
        None | Some(Page::Blank) | Some(Page::Inner(_)) => false,
        Some(Page::Leaf(keys)) => are_keys_of(chain, keys.as_slice()),
        Some(Page::Split) => leads_on(table, chain, slot),
    }
}

fn are_keys_of(chain: &Chain, keys: &[Key]) -> bool
    ensures { result ≡ list_all (λ k. has_key chain.now.keys k) keys.now }
{
    keys.iter().all(|key| has_key(chain.keys.as_slice(), *key))
}

/// Whether both pointers of the page lead to pages of the chain.
fn leads_on(table: &Table, chain: &Chain, slot: u32) -> bool
    ensures { result ≡ (leads_into table.now chain.now.slots (at_index slot 0) && leads_into table.now chain.now.slots (at_index slot 1)) }
{
    let slots = chain.slots.as_slice();
    leads_into(table, slots, At::In(Spot { slot, index: 0 }))
        && leads_into(table, slots, At::In(Spot { slot, index: 1 }))
}

/// Whether the seat holds the header of the page, to which the pointer or the chain leads, and which leads on in the
/// chain or ends it.
fn is_link(id: u32, table: &Table, at: At, chain: &Chain, slot: u32) -> bool
    ensures { result ≡ is_link id table.now at chain.now slot }
{
    table.header(slot).is(id)
        && is_led_within(at, chain.slots.as_slice(), table.slot(slot).led)
        && is_chain_page(table, chain, slot)
}

fn are_links(id: u32, table: &Table, at: At, chain: &Chain) -> bool
    ensures { result ≡ list_all (λ s. is_link id table.now at chain.now s) chain.now.slots }
{
    chain
        .slots
        .as_slice()
        .iter()
        .all(|slot| is_link(id, table, at, chain, *slot))
}

/// Whether the key is one of a leaf of these slots.
fn is_key_in(table: &Table, slots: &[u32], key: Key) -> bool
    ensures { result ≡ is_key_in table.now slots.now key }
{
    slots
        .iter()
        .any(|slot| has_key(table.leaf_keys(*slot), key))
}

fn are_keys_in(table: &Table, slots: &[u32], keys: &[Key]) -> bool
    ensures { result ≡ list_all (λ k. is_key_in table.now slots.now k) keys.now }
{
    keys.iter().all(|key| is_key_in(table, slots, *key))
}

/// The slots, of which nothing leads to these any more.
fn all_away(gone: &[u32], slots: &Sequence<(u32, Slot)>) -> Result<Sequence<(u32, Slot)>, Memory>
    ensures { IfOk result (λ s. s ≡ away_slots gone.now slots.now) }
{
    let same = Sequence::from_slice(slots.alloc(), slots.as_slice())?;
    away_from(gone, same)
}

fn away_from(gone: &[u32], slots: Sequence<(u32, Slot)>) -> Result<Sequence<(u32, Slot)>, Memory>
    ensures { IfOk result (λ s. s ≡ away_slots gone.now slots) }
{
    match gone {
        [] => Ok(slots),
        [slot, more @ ..] => away_from(more, one_away(*slot, slots)?),
    }
}

fn one_away(slot: u32, slots: Sequence<(u32, Slot)>) -> Result<Sequence<(u32, Slot)>, Memory>
    ensures { IfOk result (λ s. s ≡ (slot, record (look (λ a b. a == b) fresh_slot slots slot) { led = Led.Away }) ∷ slots) }
{
    let old = slot_in(slots.as_slice(), slot);
    slots_with(&slots, slot, led(old, Led::Away))
}

/// The headers, of which those of these slots are dead.
fn headers_dead(
    gone: &[u32],
    headers: &Sequence<(u32, Holder)>,
) -> Result<Sequence<(u32, Holder)>, Memory>
    ensures { IfOk result (λ s. s ≡ dead_headers gone.now headers.now) }
{
    let dead = gone.iter().copied().map(|slot| (slot, Holder::Dead));
    let mut all = Sequence::from_vec(dead.collect(headers.alloc())?);
    all.append(headers.as_slice())?;
    Ok(all)
}

fn numbers_joined(some: &[u32], numbers: &Sequence<u32>) -> Result<Sequence<u32>, Memory>
    ensures { IfOk result (λ s. s ≡ some.now ++ numbers.now) }
{
    let mut all = Sequence::from_slice(numbers.alloc(), some)?;
    all.append(numbers.as_slice())?;
    Ok(all)
}
