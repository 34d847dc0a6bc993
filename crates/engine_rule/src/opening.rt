// How both machines begin: all records are in snapshot pages, and no slot was given.
ghost use Rattle.std.specs.Prelude.{◌≡◌, ◌≤◌, [], map, replicate, IfOk};
ghost use Rattle.serial_model.specs.Numbers.{IsNumber};
ghost use Rattle.commit_core.specs.Opening.{fresh_seat, fresh_story};
ghost use Rattle.drop_core.specs.Table.{child_of, snap_home};
ghost use Rattle.engine_rule.specs.Pairs.{pairs_for, snap_keys};
ghost use Rattle.engine_rule.specs.Opening.{opening_joint};

use crate::Joint;
use crate::pairs::{page_content, snap_keys};
use commit_core::{FirstDraw, Mark, Seat, Stage, Story};
use drop_core::{DropCore, SnapPage, Table, child_of};
use homes::{Content, Home, Span};
use lists::Sequence;
use serial_model::{Key, Memory, Number};
use std::alloc::Global;

// What the pages have for keys, the keys' homes, and the seats.
type Parts = (Vec<(Key, Content)>, Sequence<(Key, Home)>, Vec<Seat>);

/// A machine over these snapshot pages, of which those up to `published` are published, with a root over each of these
/// spans that leads to a page of this number or to none, and with this many slots and seats.
pub fn opened(
    alloc: Global,
    snaps: Sequence<(u32, SnapPage)>,
    published: u32,
    roots: &[(Span, u32)],
    first: Number,
    room: u32,
    seats: u32,
) -> Result<Joint, Memory>
    requires { IsNumber first }
    ensures { IfOk result (λ c. c ≡ opening_joint snaps published roots.now first room seats) }
{
    let pages = DropCore::new(alloc, snaps, published, roots, room, seats)?;
    let (opening, homes, seats) = first_parts(alloc, pages.table(), roots, first, seats)?;
    let story = fresh_story(alloc, homes, first);
    let (table, grips) = pages.into_parts();
    Ok(Joint::of_parts(opening, story, seats, table, grips))
}

/// What the pages have for each key that some snapshot page has an entry of, the homes of these keys, and so many
/// seats that have nothing.
fn first_parts(
    alloc: Global,
    table: &Table,
    roots: &[(Span, u32)],
    first: Number,
    seats: u32,
) -> Result<Parts, Memory>
    requires { IsNumber first }
    ensures { IfOk result (λ b.
        (b.0.items ≡ pairs_for (λ k. snap_home table.now (child_of roots.now k) k) (snap_keys table.now.snaps))
        × (b.1 ≡ map (λ k. (k, snap_home table.now (child_of roots.now k) k)) (snap_keys table.now.snaps))
        × (b.2.items ≡ replicate seats (fresh_seat first))) }
{
    let keys = snap_keys(alloc, table.snaps.as_slice())?;
    let opening = opening_pairs(alloc, table, roots, keys.as_slice())?;
    let homes = opening_homes(alloc, table, roots, keys.as_slice())?;
    let seats = fresh_seats(alloc, first, seats)?;
    Ok((opening, homes, seats))
}

/// The key's home by the pages below its root.
fn home_below(table: &Table, roots: &[(Span, u32)], key: Key) -> Home
    ensures { result ≡ snap_home table.now (child_of roots.now key) key }
{
    table.home(child_of(roots, key), key)
}

/// What the pages have for these keys.
fn opening_pairs(
    alloc: Global,
    table: &Table,
    roots: &[(Span, u32)],
    keys: &[Key],
) -> Result<Vec<(Key, Content)>, Memory>
    ensures { IfOk result (λ v. v.items ≡ pairs_for (λ k. snap_home table.now (child_of roots.now k) k) keys.now) }
{
    let mut pairs = Vec::new(alloc);
    for key in keys {
        pairs.push((*key, page_content(home_below(table, roots, *key))))?;
    }
    Ok(pairs)
}

/// The homes of these keys.
fn opening_homes(
    alloc: Global,
    table: &Table,
    roots: &[(Span, u32)],
    keys: &[Key],
) -> Result<Sequence<(Key, Home)>, Memory>
    ensures { IfOk result (λ s. s ≡ map (λ k. (k, snap_home table.now (child_of roots.now k) k)) keys.now) }
{
    let mut homes = Sequence::new(alloc);
    for key in keys {
        homes.push((*key, home_below(table, roots, *key)))?;
    }
    Ok(homes)
}

/// No attempt yet, and this number is the next.
fn fresh_story(alloc: Global, homes: Sequence<(Key, Home)>, first: Number) -> Story
    requires { IsNumber first }
    ensures { result ≡ fresh_story [] homes first }
{
    Story {
        history: Sequence::new(alloc),
        checks: Sequence::new(alloc),
        decided: Sequence::new(alloc),
        given_up: Sequence::new(alloc),
        places: Sequence::new(alloc),
        homes,
        horizon: Number { epoch: 0, draw: 0 },
        first_draw: FirstDraw::new(first.draw),
        epoch: first.epoch,
    }
}

/// Seats that have nothing.
fn fresh_seats(alloc: Global, first: Number, seats: u32) -> Result<Vec<Seat>, Memory>
    requires { 1 ≤ first.epoch }
    ensures { IfOk result (λ v. v.items ≡ replicate seats (fresh_seat first)) }
{
    let mut list = Vec::new(alloc);
    for _ in 0..seats {
        list.push(fresh_seat(alloc, first)?)?;
    }
    Ok(list)
}

fn fresh_seat(alloc: Global, first: Number) -> Result<Seat, Memory>
    requires { 1 ≤ first.epoch }
    ensures { IfOk result (λ s. s ≡ fresh_seat first) }
{
    let mut marks = Sequence::new(alloc);
    marks.push(Mark {
        epoch: Some(first.epoch - 1),
        length: 0,
    })?;
    Ok(Seat {
        kept: Sequence::new(alloc),
        locks: Sequence::new(alloc),
        put: Sequence::new(alloc),
        marks,
        stage: Stage::Idle,
    })
}
