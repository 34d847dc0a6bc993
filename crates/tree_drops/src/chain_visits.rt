// A leaf of a tree that was split is dropped or kept with all that came of it.
ghost use Rattle.std.specs.Prelude.{◌≡◌, ◌<◌, [], Contains};
ghost use Rattle.engine_pages.specs.declared.view.Moved.{Moved};
ghost use Rattle.engine_pages.specs.declared.view.Role.TheVariants.{Keeper};
ghost use Rattle.engine_pages.specs.Passes.{view, IsPassOf};
ghost use Rattle.tree_heads.specs.Headers.{IsTreeAt};
ghost use Rattle.tree_drops.specs.Releases.{CanWorkChain, HasKeptLong, HasWorkedChain};
ghost use Rattle.tree_drops.specs.Turns.{HasEndedChain};
ghost use Rattle.tree_drops.specs.Visits.{IsFew};

use crate::chains::{MOST, gather};
use crate::releasing::{leave_from, retire_from};
use crate::taking::{Root, take_from};
use crate::tallies::{and_all_kept, and_dropped};
use arrayvec::ArrayVec;
use chain_steps::{Half, note_again};
use engine_pages::{Engine, KeptWhy, Pass, leave, retire};
use page_drops::{Dropped, Kept, keep, word_at};
use tree_heads::load_moved;

/// A chain with as many halves is too long.
const LONG: usize = 63;

/// Notes that the chain is kept, since it has too many pages.
fn keep_long(engine: &Engine, pass: &mut Pass, root: Root) -> Kept
    requires of { IsPassOf engine.now pass.old }
    requires keeper { (view pass.old).role ≡ Keeper }
    requires slot { root.slot < (view pass.old).layout.slots }
    requires page { IsTreeAt (view pass.old) root.slot (root.target).span }
    requires known { (x : Moved) × Contains (view pass.old).moved x × (x.slot ≡ root.slot) }
    ensures of { IsPassOf engine.now pass.new }
    ensures keeps { (x : Moved) → Contains (view pass.old).moved x → x.slot ≡ root.slot
        → HasKeptLong root x result (view pass.old) (view pass.new) }
{
    let at = word_at(engine, root.slot, 0);
    let header = load_moved(engine, pass, root.slot, root.target.span, at);
    keep(engine, pass, at, header, KeptWhy::Long)
}

/// Holds all pages of the chain whose first page was just found to be a split leaf by this header, and takes it out of
/// memory where it is what the snapshot has; else nothing of it stays locked.
fn drop_chain(
    engine: &Engine,
    pass: &mut Pass,
    root: Root,
    halves: &mut ArrayVec<Half, MOST>,
    header: u64,
) -> Result<(), Kept>
    requires of { IsPassOf engine.now pass.old }
    requires work { CanWorkChain root header (view pass.old) }
    requires none { halves.old.items ≡ [] }
    ensures of { IsPassOf engine.now pass.new }
    ensures works { HasWorkedChain root halves.new.items result (view pass.old) (view pass.new) }
{
    let mut headers = ArrayVec::new();
    gather(
        engine,
        pass,
        halves,
        &mut headers,
        root.slot,
        root.target.span,
        header,
    )?;
    if halves.len() >= LONG {
        let long = keep_long(engine, pass, root);
        return Err(long);
    }
    take_from(engine, pass, root, halves.as_slice(), headers.as_slice(), 0)
}

/// Works on a chain, and leaves all of its slots: it is dropped or kept, and each of its pages counted.
#[inline(never)]
pub(crate) fn take_chain(
    engine: &Engine,
    pass: &mut Pass,
    root: Root,
    header: u64,
    before: Dropped,
) -> Dropped
    requires of { IsPassOf engine.now pass.old }
    requires work { CanWorkChain root header (view pass.old) }
    requires few { IsFew before }
    ensures of { IsPassOf engine.now pass.new }
    ensures ends { HasEndedChain (root.target).span (root.target).at (root.target).page (root.target).epoch root.slot before
        (view pass.old) result (view pass.new) }
{
    let mut halves = ArrayVec::new();
    let found = drop_chain(engine, pass, root, &mut halves, header);
    let count = halves.len() as u32;
    match found {
        Ok(()) => {
            retire_from(engine, pass, halves.as_slice(), 0);
            retire(engine, pass, root.slot);
            leave_from(engine, pass, halves.as_slice(), 0);
            leave(engine, pass, root.slot);
            and_dropped(before, count + 1)
        }
        Err(kept) => {
            note_again(engine, pass, count);
            leave_from(engine, pass, halves.as_slice(), 0);
            leave(engine, pass, root.slot);
            and_all_kept(before, kept, count + 1)
        }
    }
}
