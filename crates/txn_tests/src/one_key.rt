// A transaction that writes key 0, step by step, so that others meet its lock and its value before it opens.
ghost use Rattle.std.specs.Prelude.{◌≡◌, IfSome, MatchBool, MatchOption, Some, [], ◌∷◌};
ghost use Rattle.lists.specs.Each.{AreDistinct};
ghost use Rattle.tx_sets.specs.declared.sets.Sets.{Sets as TheSets};
ghost use Rattle.engine_pages.specs.declared.view.View.{View as TheView};
ghost use Rattle.engine_pages.specs.Passes.{view, IsPassOf};
ghost use Rattle.engine_pages.specs.Views.{IsActive};
ghost use Rattle.page_commit.specs.Below.{IsArrayKey};
ghost use Rattle.page_commit.specs.Committing.{HasBegun};
ghost use Rattle.page_commit.specs.Live.{HasHolds, IsOver};
ghost use Rattle.page_commit.specs.Places.{spot_at, IsKeyAt};
ghost use Rattle.page_commit.specs.Steps.{HasLeft};
ghost use Rattle.txn_tests.specs.Standing.{first_key, HasPut, IsFree, IsHolding, IsPublished};

use array_pages::make_volatile;
use engine_pages::{Engine, Pass, leave};
use homes::Spot;
use page_records::{decide, draw, forget, lock, open_anew, put};
use serial_model::{Change, Changes, Key};
use tx_sets::{Holds, PointerSet};

/// Key 0 of storage 1.
const FIRST: Key = Key { storage: 1, key: 0 };

/// Brings the record of key 0 into memory, and locks it for a transaction that has read nothing. Answers the place of
/// the record's word; if it can't, the transaction is over.
pub(crate) fn lock_first(engine: &Engine, pass: &mut Pass, holds: &mut Holds) -> Option<u32>
    requires of { IsPassOf engine.now pass.old }
    requires fits { IsArrayKey (view pass.old).layout.decls first_key }
    requires begun { (sets : TheSets) × (v : TheView) × HasBegun sets v (view pass.old) }
    requires none { holds.old ≡ [] }
    ensures of { IsPassOf engine.now pass.new }
    ensures layout { (view pass.new).layout ≡ (view pass.old).layout }
    ensures locks { MatchOption result (IsOver (view pass.new)) (λ at. IsHolding holds.new at (view pass.new)) }
{
    let Some(at) = bring_up(engine, pass, holds) else {
        give_up(engine, pass, holds);
        return None;
    };
    if !lock_one(engine, pass, holds, at) {
        give_up(engine, pass, holds);
        return None;
    }
    Some(at)
}

// The page of key 0 is in memory, and held. Answers the place of the record's word.
fn bring_up(engine: &Engine, pass: &mut Pass, holds: &mut Holds) -> Option<u32>
    requires of { IsPassOf engine.now pass.old }
    requires fits { IsArrayKey (view pass.old).layout.decls first_key }
    requires begun { (sets : TheSets) × (v : TheView) × HasBegun sets v (view pass.old) }
    requires none { holds.old ≡ [] }
    ensures of { IsPassOf engine.now pass.new }
    ensures layout { (view pass.new).layout ≡ (view pass.old).layout }
    ensures found { IfSome result (λ at. IsKeyAt (view pass.new) first_key at) }
    ensures free { IsFree holds.new (view pass.new) }
{
    match make_volatile(engine, pass, FIRST, holds, &PointerSet::new()) {
        Ok(at) => Some(at),
        Err(_) => None,
    }
}

// Locks the record of key 0, which was never written.
fn lock_one(engine: &Engine, pass: &mut Pass, holds: &Holds, at: u32) -> bool
    requires of { IsPassOf engine.now pass.old }
    requires free { IsFree holds.now (view pass.old) }
    requires place { IsKeyAt (view pass.old) first_key at }
    ensures of { IsPassOf engine.now pass.new }
    ensures layout { (view pass.new).layout ≡ (view pass.old).layout }
    ensures locks { MatchBool result (IsHolding holds.now at (view pass.new)) (IsFree holds.now (view pass.new)) }
{
    let spot = spot_of(engine, at);
    let seen = lock(engine, pass, FIRST, spot, at, 0);
    seen == 0
}

// The transaction is over, and leaves its slots.
fn give_up(engine: &Engine, pass: &mut Pass, holds: &Holds)
    requires of { IsPassOf engine.now pass.old }
    requires free { IsFree holds.now (view pass.old) }
    ensures of { IsPassOf engine.now pass.new }
    ensures layout { (view pass.new).layout ≡ (view pass.old).layout }
    ensures over { IsOver (view pass.new) }
{
    forget(engine, pass, None);
    leave_all(engine, pass, holds.as_slice());
}

/// Draws, decides and puts the value at key 0, whose record's word stands here. Answers the number's word.
pub(crate) fn put_first(engine: &Engine, pass: &mut Pass, holds: &Holds, at: u32, value: u64) -> u64
    requires of { IsPassOf engine.now pass.old }
    requires holds { IsHolding holds.now at (view pass.old) }
    ensures of { IsPassOf engine.now pass.new }
    ensures layout { (view pass.new).layout ≡ (view pass.old).layout }
    ensures puts { HasPut holds.now at result (view pass.new) }
{
    let changes = change_of(value);
    let number = draw(engine, pass, &changes);
    decide(engine, pass);
    put(engine, pass, FIRST, spot_of(engine, at), at, value);
    number
}

/// Opens key 0 with its number, and leaves the slots.
pub(crate) fn open_first(engine: &Engine, pass: &mut Pass, holds: &Holds, at: u32, number: u64)
    requires of { IsPassOf engine.now pass.old }
    requires put { HasPut holds.now at number (view pass.old) }
    ensures of { IsPassOf engine.now pass.new }
    ensures layout { (view pass.new).layout ≡ (view pass.old).layout }
    ensures over { IsOver (view pass.new) }
{
    open_one(engine, pass, holds, at, number);
    leave_all(engine, pass, holds.as_slice());
}

fn open_one(engine: &Engine, pass: &mut Pass, holds: &Holds, at: u32, number: u64)
    requires of { IsPassOf engine.now pass.old }
    requires put { HasPut holds.now at number (view pass.old) }
    ensures of { IsPassOf engine.now pass.new }
    ensures layout { (view pass.new).layout ≡ (view pass.old).layout }
    ensures opens { IsPublished holds.now (view pass.new) }
{
    open_anew(engine, pass, FIRST, spot_of(engine, at), at, number);
}

// Leaves all slots that are held.
fn leave_all(engine: &Engine, pass: &mut Pass, holds: &[u32])
    requires of { IsPassOf engine.now pass.old }
    requires pass { IsActive (view pass.old).role }
    requires holds { HasHolds holds.now (view pass.old) }
    requires once { AreDistinct holds.now }
    requires kept { (view pass.old).seat.kept ≡ [] }
    ensures of { IsPassOf engine.now pass.new }
    ensures left { HasLeft (view pass.old) (view pass.new) }
{
    let mut done = 0;
    while done < holds.len() {
        leave(engine, pass, holds[done]);
        done += 1;
    }
}

// The place of the record whose word stands here.
fn spot_of(engine: &Engine, at: u32) -> Spot
    ensures { result ≡ spot_at engine.now.table.shared.key.slots at }
{
    let offset = at.saturating_sub(32).saturating_sub(engine.slots());
    Spot {
        slot: offset / 64,
        index: (offset % 64 / 2) as usize,
    }
}

// The write of key 0.
fn change_of(value: u64) -> Changes
    ensures { result ≡ record { key = first_key; value = Some value } ∷ [] }
{
    let mut changes = Changes::new();
    changes.push(Change {
        key: FIRST,
        value: Some(value),
    });
    changes
}
