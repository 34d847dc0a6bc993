// Pointers are gone over, from the leaves up.
ghost use Rattle.std.specs.Prelude.{IfErr, IfOk};
ghost use Rattle.engine_pages.specs.Passes.{view, IsPassOf};
ghost use Rattle.page_drops.specs.Calls.{CanVisit, CanVisitBelow, HasHeld, HasRoom, HasVisited, HasVisitedBelow};
ghost use Rattle.page_drops.specs.Calls.{KeepsAbove};
ghost use Rattle.page_drops.specs.Calls.{IsLeafNode, IsMiddleNode, IsTopNode};
ghost use Rattle.page_drops.specs.Visits.{dropped_leaf, notes_leaf, slots_leaf, swings_leaf, MetLeaf};
ghost use Rattle.page_drops.specs.Visits.{dropped_middle, notes_middle, slots_middle, swings_middle, MetMiddle};
ghost use Rattle.page_drops.specs.Visits.{dropped_top, notes_top, slots_top, swings_top, MetTop};

use crate::calls::Dropped;
use crate::dropping::drop_leaf;
use crate::inner::{Inner, POINTERS, child_of, drop_inner, part_of};
use crate::noting::Kept;
use crate::records::{Leaf, keep, word_at};
use dual_pointer::{SHUT, SLOT};
use engine_pages::{Engine, KeptWhy, Pass, enter, follow, leave};
use homes::{At, Span, Spot};
use pointer_swings::{let_go, renew};
use std::thread::yield_now;

/// Once in so many pages the pass gives its core away, where other threads wait for one.
const TURN: u32 = 512;

/// A slot that the pass holds since it found a pointer to lead there, by this word, which names the newest snapshot's
/// page.
#[derive(Clone, Copy)]
pub struct Held {
    pub slot: u32,
    pub word: u64,
}

/// Holds the slot that the pointer leads to, if it leads to one, and lets the pointer name the newest snapshot's page.
fn hold(
    engine: &Engine,
    pass: &mut Pass,
    height: u32,
    place: At,
    span: Span,
    at: u32,
    page: u32,
) -> Result<Option<Held>, Kept>
    requires of { IsPassOf engine.now pass.old }
    requires visit { CanVisit height place span at page (view pass.old) }
    ensures of { IsPassOf engine.now pass.new }
    ensures holds { IfOk result (λ found. HasHeld span at page found (view pass.old) (view pass.new)) }
    ensures keeps { IfErr result (λ k. KeepsAbove at k (view pass.old) (view pass.new)) }
{
    let seen = follow(engine, pass, place, span, at);
    if seen >= SHUT {
        let locked = keep(engine, pass, at, seen, KeptWhy::Locked);
        return Err(locked);
    }
    if seen < SLOT {
        return Ok(None);
    }
    let slot = (seen / SLOT) as u32 - 1;
    enter(engine, pass, slot);
    let word = follow(engine, pass, place, span, at);
    if word / SLOT != seen / SLOT {
        let turned = keep(engine, pass, at, word, KeptWhy::Changed { expected: seen });
        leave(engine, pass, slot);
        return Err(turned);
    }
    if page == 0 || u64::from(page) == word % SLOT {
        return Ok(Some(Held { slot, word }));
    }
    let found = renew(engine, pass, place, span, at, page, word);
    if found != word {
        let changed = keep(engine, pass, at, found, KeptWhy::Changed { expected: word });
        leave(engine, pass, slot);
        return Err(changed);
    }
    Ok(Some(Held {
        slot,
        word: word / SLOT * SLOT + u64::from(page),
    }))
}

/// Goes over a pointer that is over a leaf's keys.
pub(crate) fn visit_leaf(
    engine: &Engine,
    pass: &mut Pass,
    place: At,
    span: Span,
    at: u32,
    page: u32,
    before: Dropped,
) -> Dropped
    requires of { IsPassOf engine.now pass.old }
    requires visit { CanVisit 0 place span at page (view pass.old) }
    requires room { HasRoom 1 before }
    ensures of { IsPassOf engine.now pass.new }
    ensures visits { HasVisited MetLeaf dropped_leaf notes_leaf slots_leaf swings_leaf (IsLeafNode span page at)
        at before (view pass.old) result (view pass.new) }
{
    match hold(engine, pass, 0, place, span, at, page) {
        Err(kept) => before.and_kept(kept),
        Ok(None) => before,
        Ok(Some(held)) => {
            let leaf = Leaf {
                slot: held.slot,
                span,
                page,
            };
            let result = drop_leaf(engine, pass, place, at, held.word, leaf);
            let_go(engine, pass);
            leave(engine, pass, held.slot);
            before.and(result)
        }
    }
}

/// Goes over a pointer that is over the keys of a page over leaves, and over those in that page first.
pub(crate) fn visit_middle(
    engine: &Engine,
    pass: &mut Pass,
    place: At,
    span: Span,
    at: u32,
    page: u32,
    before: Dropped,
) -> Dropped
    requires of { IsPassOf engine.now pass.old }
    requires visit { CanVisit 1 place span at page (view pass.old) }
    requires room { HasRoom 65 before }
    ensures of { IsPassOf engine.now pass.new }
    ensures visits { HasVisited MetMiddle dropped_middle notes_middle slots_middle swings_middle
        (IsMiddleNode span page at) at before (view pass.old) result (view pass.new) }
{
    match hold(engine, pass, 1, place, span, at, page) {
        Err(kept) => before.and_kept(kept),
        Ok(None) => before,
        Ok(Some(held)) => {
            let inner = Inner {
                slot: held.slot,
                span,
                page,
            };
            let below = visit_leaves(engine, pass, inner, before);
            let result = drop_inner(engine, pass, place, at, held.word, inner);
            leave(engine, pass, held.slot);
            below.and(result)
        }
    }
}

// Goes over the pointers of a page over leaves.
fn visit_leaves(engine: &Engine, pass: &mut Pass, inner: Inner, before: Dropped) -> Dropped
    requires of { IsPassOf engine.now pass.old }
    requires inside { CanVisitBelow 0 inner.slot inner.span inner.page (view pass.old) }
    requires room { HasRoom 64 before }
    ensures of { IsPassOf engine.now pass.new }
    ensures visits { HasVisitedBelow MetLeaf dropped_leaf notes_leaf slots_leaf swings_leaf IsLeafNode inner.slot
        inner.span inner.page 64 before (view pass.old) result (view pass.new) }
{
    let mut sum = before;
    for index in 0..POINTERS {
        let child = child_of(engine, pass, inner, index);
        let part = part_of(inner.span, index);
        let word = word_at(engine, inner.slot, index);
        let place = At::In(Spot {
            slot: inner.slot,
            index: index as usize,
        });
        sum = visit_leaf(engine, pass, place, part, word, child, sum);
    }
    give_way(before, sum);
    sum
}

// Lets other threads go first, once in so many pages that were met. Nothing of a page is locked or shut meanwhile.
fn give_way(before: Dropped, after: Dropped) {
    if pages_met(before) / TURN < pages_met(after) / TURN {
        yield_now();
    }
}

// How many pages were dropped and kept.
fn pages_met(sum: Dropped) -> u32 {
    sum.dropped.wrapping_add(sum.kept)
}

/// Goes over a pointer that is over the keys of a page over such pages, and over those in that page first.
pub(crate) fn visit_top(
    engine: &Engine,
    pass: &mut Pass,
    place: At,
    span: Span,
    at: u32,
    page: u32,
    before: Dropped,
) -> Dropped
    requires of { IsPassOf engine.now pass.old }
    requires visit { CanVisit 2 place span at page (view pass.old) }
    requires room { HasRoom 4161 before }
    ensures of { IsPassOf engine.now pass.new }
    ensures visits { HasVisited MetTop dropped_top notes_top slots_top swings_top (IsTopNode span page at)
        at before (view pass.old) result (view pass.new) }
{
    match hold(engine, pass, 2, place, span, at, page) {
        Err(kept) => before.and_kept(kept),
        Ok(None) => before,
        Ok(Some(held)) => {
            let inner = Inner {
                slot: held.slot,
                span,
                page,
            };
            let below = visit_middles(engine, pass, inner, before);
            let result = drop_inner(engine, pass, place, at, held.word, inner);
            leave(engine, pass, held.slot);
            below.and(result)
        }
    }
}

// Goes over the pointers of a page over pages over leaves.
fn visit_middles(engine: &Engine, pass: &mut Pass, inner: Inner, before: Dropped) -> Dropped
    requires of { IsPassOf engine.now pass.old }
    requires inside { CanVisitBelow 1 inner.slot inner.span inner.page (view pass.old) }
    requires room { HasRoom 4160 before }
    ensures of { IsPassOf engine.now pass.new }
    ensures visits { HasVisitedBelow MetMiddle dropped_middle notes_middle slots_middle swings_middle IsMiddleNode
        inner.slot inner.span inner.page 64 before (view pass.old) result (view pass.new) }
{
    let mut sum = before;
    for index in 0..POINTERS {
        let child = child_of(engine, pass, inner, index);
        let part = part_of(inner.span, index);
        let word = word_at(engine, inner.slot, index);
        let place = At::In(Spot {
            slot: inner.slot,
            index: index as usize,
        });
        sum = visit_middle(engine, pass, place, part, word, child, sum);
    }
    sum
}
