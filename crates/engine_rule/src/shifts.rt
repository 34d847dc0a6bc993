// The turns that move keys. Whether the keys may go is tested before anything is made, without memory.
ghost use Rattle.std.specs.Prelude.{◌≡◌, ◌&&◌, not, true, false, [], ◌∷◌};
ghost use Rattle.std.specs.List.{list_any, list_all};
ghost use Rattle.homes.specs.Homes.{moves_to};
ghost use Rattle.commit_core.specs.Moves.{is_spot, moves_key, moves_to_spot, are_apart, can_move, can_rehome};
ghost use Rattle.commit_core.specs.Places.{spot_of};
ghost use Rattle.drop_core.specs.Event.{slot_span, moves, twin_home};
ghost use Rattle.drop_core.specs.Swap.{Prepares};
ghost use Rattle.engine_rule.specs.Event.{may_move};
ghost use Rattle.engine_rule.specs.Shift.{twins_of, shift_home, IsNoShift, IsShift};

use crate::asks::keys_in;
use crate::headers::next_spot;
use commit_core::{Seat, Story, can_move};
use drop_core::{
    Act, Grip, NotAllowed, Swap, Table, Twins, leaf_home, prepare_install, prepare_key,
    prepare_split, prepare_swing, prepare_swing_chain,
};
use homes::{Home, Move, Span, Spot};
use serial_model::{Key, OrMemory};

/// Where the keys of a turn go.
#[derive(Clone, Copy)]
pub enum Shift {
    /// To the places of the page in this slot.
    Up(u32),
    /// To where this snapshot page has them.
    Down(u32),
    /// To the place behind the records of the page in this slot.
    Behind(u32),
    /// To the places of two leaves.
    Apart(Halves),
}

/// The two leaves in which a full one is split, which is over this span.
#[derive(Clone, Copy)]
pub struct Halves {
    pub span: Span,
    pub slot: u32,
    pub minor: u32,
    pub major: u32,
    pub separator: u64,
}

/// Whether the act is one of those that may move keys.
pub fn is_shift(act: &Act) -> bool
    ensures still { result ≡ false → IsNoShift act.now }
    ensures moving { result ≡ true → IsShift act.now }
{
    match act {
        Act::Install(_, _) | Act::Swing(_, _) => true,
        Act::OpenHeader(_, Some(_)) | Act::Twin(_) | Act::SwingChain(_, _, _) => true,
        Act::Enter(_) | Act::Leave(_) | Act::Give(_) | Act::Publish(_) | Act::Retire(_) => false,
        Act::FillPage(_, _) | Act::FillPointer(_, _) | Act::FillSnapshot(_, _) => false,
        Act::Extend(_) | Act::Renew(_, _) | Act::Shut(_) | Act::Reopen(_) => false,
        Act::FillHeader(_) | Act::LockHeader(_) | Act::OpenHeader(_, None) => false,
    }
}

/// What the act comes to for the pages, if they let it be.
pub fn prepare(id: u32, table: &Table, grip: &Grip, act: &Act) -> Result<Swap, OrMemory<NotAllowed>>
    requires { IsShift act.now }
    ensures { Prepares id act.now table.now grip.now result }
{
    match act {
        Act::Install(at, slot) => prepare_install(id, table, grip, *at, *slot),
        Act::Swing(at, number) => prepare_swing(id, table, grip, *at, *number),
        Act::OpenHeader(slot, Some(key)) => prepare_key(id, table, grip, *slot, *key),
        Act::Twin(twins) => prepare_split(id, table, grip, twins),
        Act::SwingChain(at, number, chain) => {
            prepare_swing_chain(id, table, grip, *at, *number, chain)
        }
        Act::Enter(_) | Act::Leave(_) | Act::Give(_) | Act::Publish(_) | Act::Retire(_) => {
            Err(OrMemory::Fault(NotAllowed))
        }
        Act::FillPage(_, _) | Act::FillPointer(_, _) | Act::FillSnapshot(_, _) => {
            Err(OrMemory::Fault(NotAllowed))
        }
        Act::Extend(_) | Act::Renew(_, _) | Act::Shut(_) | Act::Reopen(_) => {
            Err(OrMemory::Fault(NotAllowed))
        }
        Act::FillHeader(_) | Act::LockHeader(_) | Act::OpenHeader(_, None) => {
            Err(OrMemory::Fault(NotAllowed))
        }
    }
}

/// Whether the keys may go where the act brings them.
pub fn may_shift(id: u32, story: &Story, seat: &Seat, table: &Table, act: &Act) -> bool
    ensures { result ≡ may_move id story.now seat.now (moves table.now act.now) }
{
    let begins = seat.stage.can_begin();
    match act {
        Act::Install(_, slot) => {
            let keys = table.leaf_keys(*slot);
            may_go(id, begins, story, table, Shift::Up(*slot), keys)
        }
        Act::Swing(at, number) => {
            let keys = keys_in(table, table.pointer(*at).slot);
            may_go(id, begins, story, table, Shift::Down(*number), keys)
        }
        Act::OpenHeader(slot, Some(key)) => {
            may_go(id, begins, story, table, Shift::Behind(*slot), &[*key])
        }
        Act::Twin(twins) => {
            let keys = twins.keys.as_slice();
            may_go(
                id,
                begins,
                story,
                table,
                Shift::Apart(halves_of(table, twins)),
                keys,
            )
        }
        Act::SwingChain(_, number, chain) => {
            let keys = chain.keys.as_slice();
            may_go(id, begins, story, table, Shift::Down(*number), keys)
        }
        Act::Enter(_) | Act::Leave(_) | Act::Give(_) | Act::Publish(_) | Act::Retire(_) => true,
        Act::FillPage(_, _) | Act::FillPointer(_, _) | Act::FillSnapshot(_, _) => true,
        Act::Extend(_) | Act::Renew(_, _) | Act::Shut(_) | Act::Reopen(_) => true,
        Act::FillHeader(_) | Act::LockHeader(_) | Act::OpenHeader(_, None) => true,
    }
}

fn may_go(id: u32, begins: bool, story: &Story, table: &Table, shift: Shift, keys: &[Key]) -> bool
    ensures { result ≡ can_rehome id begins story.now (moves_to (shift_home table.now shift) keys.now) }
{
    are_apart(table, shift, keys) && each_may_go(id, begins, story, table, shift, keys)
}

/// The leaves of a split.
fn halves_of(table: &Table, twins: &Twins) -> Halves
    ensures { (k : Key) → shift_home table.now (Shift.Apart result) k
        ≡ twin_home table.now (slot_span table.now twins.now.slot) twins.now k }
{
    Halves {
        span: table.slot_span(twins.slot),
        slot: twins.slot,
        minor: twins.minor,
        major: twins.major,
        separator: twins.separator,
    }
}

/// Where the key goes.
fn home_by(table: &Table, shift: Shift, key: Key) -> Home
    ensures { result ≡ shift_home table.now shift key }
{
    match shift {
        Shift::Up(slot) => leaf_home(slot, table.leaf_keys(slot), key),
        Shift::Down(number) => table.home(number, key),
        Shift::Behind(slot) => Home::InSlot(next_spot(table, slot)),
        Shift::Apart(halves) => home_in_half(table, halves, key),
    }
}

fn home_in_half(table: &Table, halves: Halves, key: Key) -> Home
    ensures { result ≡ twin_home table.now halves.span (twins_of halves) key }
{
    let lower = Span {
        storage: halves.span.storage,
        low: halves.span.low,
        high: halves.separator.saturating_sub(1),
    };
    if lower.has(key) {
        return leaf_home(halves.minor, table.leaf_keys(halves.minor), key);
    }
    leaf_home(halves.major, table.leaf_keys(halves.major), key)
}

/// The move of the key.
fn move_by(table: &Table, shift: Shift, key: Key) -> Move
    ensures { result ≡ record { key = key; home = shift_home table.now shift key } }
{
    Move {
        key,
        home: home_by(table, shift, key),
    }
}

fn each_may_go(
    id: u32,
    begins: bool,
    story: &Story,
    table: &Table,
    shift: Shift,
    keys: &[Key],
) -> bool
    ensures { result ≡ list_all (can_move id begins story.now) (moves_to (shift_home table.now shift) keys.now) }
{
    keys.iter()
        .map(|key| move_by(table, shift, *key))
        .all(|step| can_move(id, begins, story, step))
}

/// Whether no key moves twice, and no two keys go to one place.
fn are_apart(table: &Table, shift: Shift, keys: &[Key]) -> bool
    ensures { result ≡ are_apart (moves_to (shift_home table.now shift) keys.now) }
{
    match keys {
        [] => true,
        [key, more @ ..] => is_apart(table, shift, *key, more) && are_apart(table, shift, more),
    }
}

fn is_apart(table: &Table, shift: Shift, key: Key, more: &[Key]) -> bool
    ensures { result ≡ (not (moves_key (moves_to (shift_home table.now shift) more.now) key)
        && not (moves_to_spot (moves_to (shift_home table.now shift) more.now)
        (spot_of (shift_home table.now shift key)))) }
{
    !moves_key(table, shift, more, key)
        && !is_target(table, shift, more, spot_of(home_by(table, shift, key)))
}

fn moves_key(table: &Table, shift: Shift, keys: &[Key], key: Key) -> bool
    ensures { result ≡ moves_key (moves_to (shift_home table.now shift) keys.now) key }
{
    keys.iter()
        .map(|other| move_by(table, shift, *other))
        .any(|step| step.key == key)
}

/// Whether one of the keys goes to the place.
fn is_target(table: &Table, shift: Shift, keys: &[Key], spot: Option<Spot>) -> bool
    ensures { result ≡ moves_to_spot (moves_to (shift_home table.now shift) keys.now) spot }
{
    match spot {
        None => false,
        Some(spot) => goes_to(table, shift, keys, spot),
    }
}

fn goes_to(table: &Table, shift: Shift, keys: &[Key], spot: Spot) -> bool
    ensures { result ≡ list_any (λ v. is_spot spot (spot_of v.home)) (moves_to (shift_home table.now shift) keys.now) }
{
    keys.iter()
        .map(|key| move_by(table, shift, *key))
        .any(|step| is_spot(spot, spot_of(step.home)))
}

fn is_spot(spot: Spot, home: Option<Spot>) -> bool
    ensures { result ≡ is_spot spot home }
{
    match home {
        None => false,
        Some(other) => spot.is(other),
    }
}

/// The place that the home is, if it is one.
fn spot_of(home: Home) -> Option<Spot>
    ensures { result ≡ spot_of home }
{
    match home {
        Home::InSlot(spot) => Some(spot),
        Home::InPage(_, _) | Home::Nowhere => None,
    }
}
