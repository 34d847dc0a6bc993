// The pointers of a tree are gone over, each with all below it before its own page.
ghost use Rattle.std.specs.Prelude.{◌≡◌, ◌⊎◌, ◌^◌, ◌≤◌, ◌<◌, get_or, IfErr, IfOk};
ghost use Rattle.engine_pages.specs.declared.view.KeptWhy.TheVariants.{Locked, Unlike};
ghost use Rattle.engine_pages.specs.Passes.{view, IsPassOf};
ghost use Rattle.engine_pages.specs.Layout.{page_at};
ghost use Rattle.page_drops.specs.Calls.{HasHeld, KeepsAbove};
ghost use Rattle.page_drops.specs.Works.{HasSeenLast};
ghost use Rattle.snapshot_store.specs.Places.{page as page_words};
ghost use Rattle.tree_heads.specs.Headers.{count_of, kind_of, IsUnmoved};
ghost use Rattle.tree_drops.specs.Branches.{IsParted};
ghost use Rattle.tree_drops.specs.Leaves.{KnowsKeys};
ghost use Rattle.tree_drops.specs.Turns.{CanGoFrom, CanWork, HasClosed, HasEndedLeaf, HasEndedPage, HasAlike, HasGoneFrom, HasNotedPage, HasOpened};
ghost use Rattle.tree_drops.specs.Turns.{HasTakenLeaf, IsChildTarget, IsInside, IsOpened, KnowsParts};
ghost use Rattle.tree_drops.specs.Releases.{CanWorkChain};
ghost use Rattle.tree_drops.specs.Visits.{CanVisit, HasVisited, IsFew, KeepsInners};
ghost use Rattle.tree_drops.specs.Works.{IsSeenAt};

use crate::branches::{Branch, child_of, compare_from, drop_branch_from, part_of};
use crate::chain_visits::take_chain;
use crate::dropping::{Pointer, drop_leaf};
use crate::records::Leaf;
use crate::stored::count_in;
use crate::taking::Root;
use crate::tallies::{and, and_kept};
use dual_pointer::{SHUT, SLOT};
use engine_pages::{Engine, KeptWhy, Pass, enter, follow, leave};
use homes::{At, Span, Spot};
use page_drops::{Dropped, Held, Kept, keep, word_at, word_of};
use pointer_swings::renew;
use std::thread::yield_now;
use tree_heads::{load_header, load_word};

const MOVED: u64 = 1 << 62;

const POINTERS: u32 = 4;

/// Once in so many pages the pass gives its core away, where other threads wait for one.
const TURN: u32 = 512;

/// A pointer over keys of a tree: where it stands, where its word does, the newest snapshot's page for the keys, or 0, and
/// that snapshot's epoch.
#[derive(Clone, Copy)]
pub(crate) struct Target {
    pub place: At,
    pub span: Span,
    pub at: u32,
    pub page: u32,
    pub epoch: u32,
}

/// An interior page that is gone into: its slot, the word by which its pointer leads there, and how many children it has.
#[derive(Clone, Copy)]
pub(crate) struct Opened {
    pub slot: u32,
    pub word: u64,
    pub count: u32,
}

/// Holds the slot that the pointer leads to, if it leads to one, and lets the pointer name the newest snapshot's page.
fn hold(engine: &Engine, pass: &mut Pass, target: Target) -> Result<Option<Held>, Kept>
    requires of { IsPassOf engine.now pass.old }
    requires visit { CanVisit target.place target.span target.at target.page target.epoch (view pass.old) }
    ensures of { IsPassOf engine.now pass.new }
    ensures holds { IfOk result (λ found. HasHeld target.span target.at target.page found (view pass.old) (view pass.new)) }
    ensures keeps { IfErr result (λ k. KeepsAbove target.at k (view pass.old) (view pass.new)) }
    ensures inners { KeepsInners (view pass.old) (view pass.new) }
{
    let at = target.at;
    let page = target.page;
    let seen = follow(engine, pass, target.place, target.span, at);
    if seen >= SHUT {
        let locked = keep(engine, pass, at, seen, KeptWhy::Locked);
        return Err(locked);
    }
    if seen < SLOT {
        return Ok(None);
    }
    let slot = (seen / SLOT) as u32 - 1;
    enter(engine, pass, slot);
    let word = follow(engine, pass, target.place, target.span, at);
    if word / SLOT != seen / SLOT {
        let turned = keep(engine, pass, at, word, KeptWhy::Changed { expected: seen });
        leave(engine, pass, slot);
        return Err(turned);
    }
    if page == 0 || u64::from(page) == word % SLOT {
        return Ok(Some(Held { slot, word }));
    }
    let found = renew(engine, pass, target.place, target.span, at, page, word);
    if found != word {
        let changed = keep(engine, pass, at, found, KeptWhy::Changed { expected: word });
        leave(engine, pass, slot);
        return Err(changed);
    }
    Ok(Some(Held {
        slot,
        word: word / SLOT * SLOT + u64::from(page),
    }))
}

/// Works on a leaf of a tree in the slot that is held, whose header was just found to be this: it is dropped where it is
/// what the snapshot has.
fn take_leaf(
    engine: &Engine,
    pass: &mut Pass,
    target: Target,
    held: Held,
    header: u64,
) -> Result<(), Kept>
    requires of { IsPassOf engine.now pass.old }
    requires work { CanWork target.place target.span target.at held.slot target.page held.word target.epoch (view pass.old) }
    requires known { KnowsKeys held.slot target.span (count_of header) (view pass.old) }
    requires last { HasSeenLast (view pass.old) (record {
      word = page_at (view pass.old).layout.slots held.slot 0;
      seen = header;
      why = Locked;
    }) }
    requires met { IsSeenAt held.slot 0 header (view pass.old) }
    requires leaf { kind_of header ≡ 1 }
    requires bits { header < 2 ^ 61 }
    requires whole { IsUnmoved (view pass.old) held.slot }
    ensures of { IsPassOf engine.now pass.new }
    ensures takes { HasTakenLeaf target.span target.at target.page target.epoch held.slot result (view pass.old)
        (view pass.new) }
{
    let at = word_at(engine, held.slot, 0);
    if header >= SHUT {
        let locked = keep(engine, pass, at, header, KeptWhy::Locked);
        return Err(locked);
    }
    let Some(records) = count_in(engine, pass, target.span, target.page) else {
        let again = load_word(engine, pass, held.slot, 0, at);
        let other = keep(engine, pass, at, again, KeptWhy::Unlike);
        return Err(other);
    };
    let leaf = Leaf {
        slot: held.slot,
        span: target.span,
        count: (header % 256) as u32,
        page: target.page,
        records,
        epoch: target.epoch,
    };
    let pointer = Pointer {
        place: target.place,
        at: target.at,
        word: held.word,
    };
    drop_leaf(engine, pass, pointer, leaf, header)
}

/// Works on a leaf of a tree in the slot that is held, whose header was just found to be this, with all that came of it if
/// it was split, and leaves the slots.
fn end_leaf(
    engine: &Engine,
    pass: &mut Pass,
    target: Target,
    held: Held,
    header: u64,
    before: Dropped,
) -> Dropped
    requires of { IsPassOf engine.now pass.old }
    requires work { CanWork target.place target.span target.at held.slot target.page held.word target.epoch (view pass.old) }
    requires few { IsFew before }
    requires known { KnowsKeys held.slot target.span (count_of header) (view pass.old) }
    requires last { HasSeenLast (view pass.old) (record {
      word = page_at (view pass.old).layout.slots held.slot 0;
      seen = header;
      why = Locked;
    }) }
    requires met { IsSeenAt held.slot 0 header (view pass.old) }
    requires leaf { kind_of header ≡ 1 }
    requires bits { ((header < 2 ^ 61) × IsUnmoved (view pass.old) held.slot) ⊎ (2 ^ 62 ≤ header) }
    requires chain { 2 ^ 62 ≤ header
        → CanWorkChain (record { target = target; slot = held.slot; word = held.word }) header (view pass.old) }
    ensures of { IsPassOf engine.now pass.new }
    ensures ends { HasEndedLeaf target.span target.at target.page target.epoch held.slot before (view pass.old) result
        (view pass.new) }
{
    if header >= MOVED {
        let root = Root {
            target,
            slot: held.slot,
            word: held.word,
        };
        return take_chain(engine, pass, root, header, before);
    }
    let found = take_leaf(engine, pass, target, held, header);
    leave(engine, pass, held.slot);
    and(before, found)
}

/// Compares an interior page of a tree in the slot that is held, whose header was just found to be this, with the
/// snapshot's, whose first word is the wanted one: how many children both have, and where those begin.
fn compare_branch(
    engine: &Engine,
    pass: &mut Pass,
    target: Target,
    slot: u32,
    header: u64,
    wanted: u64,
) -> Result<u32, Kept>
    requires of { IsPassOf engine.now pass.old }
    requires parts { KnowsParts target.span target.page slot header (view pass.old) }
    requires last { HasSeenLast (view pass.old) (record {
      word = page_at (view pass.old).layout.slots slot 0;
      seen = header;
      why = Unlike;
    }) }
    requires wanted { wanted ≡ get_or (page_words (view pass.old).pages target.page) 0 0 }
    ensures of { IsPassOf engine.now pass.new }
    ensures opens { IfOk result (λ count. HasAlike target.span target.page slot count (view pass.old) (view pass.new)) }
    ensures keeps { IfErr result (λ k. HasNotedPage (IsParted (view pass.old).layout.slots slot
        (page_words (view pass.old).pages target.page)) slot k (view pass.old) (view pass.new)) }
{
    if header != wanted {
        let at = word_at(engine, slot, 0);
        let other = keep(engine, pass, at, header, KeptWhy::Unlike);
        return Err(other);
    }
    let count = (header % 256) as u32;
    let branch = Branch {
        slot,
        span: target.span,
        count,
        page: target.page,
    };
    compare_from(engine, pass, branch, 0)?;
    Ok(count)
}

/// Goes into the page of the slot that is held: a leaf is dropped or kept, and so is an interior page that isn't parted as
/// the snapshot's, and the slot is left then.
fn open_page(
    engine: &Engine,
    pass: &mut Pass,
    target: Target,
    held: Held,
    before: Dropped,
) -> Result<Opened, Dropped>
    requires of { IsPassOf engine.now pass.old }
    requires work { CanWork target.place target.span target.at held.slot target.page held.word target.epoch (view pass.old) }
    requires few { IsFew before }
    ensures of { IsPassOf engine.now pass.new }
    ensures opens { IfOk result (λ found. HasOpened target.span target.page held.slot held.word found
        (view pass.old) (view pass.new)) }
    ensures ends { IfErr result (λ sum. HasEndedPage target.span target.at target.page target.epoch held.slot before
        (view pass.old) sum (view pass.new)) }
{
    let wanted = word_of(engine, pass, target.page, 0);
    let at = word_at(engine, held.slot, 0);
    let header = load_header(engine, pass, held.slot, target.span, at);
    if header / 256 % 256 == 1 {
        return Err(end_leaf(engine, pass, target, held, header, before));
    }
    match compare_branch(engine, pass, target, held.slot, header, wanted) {
        Ok(count) => Ok(Opened {
            slot: held.slot,
            word: held.word,
            count,
        }),
        Err(kept) => {
            leave(engine, pass, held.slot);
            Err(and_kept(before, kept))
        }
    }
}

/// Goes over the pointer, but for the pages below its own where that is parted as the snapshot's: it is held then.
fn open(
    engine: &Engine,
    pass: &mut Pass,
    target: Target,
    before: Dropped,
) -> Result<Opened, Dropped>
    requires of { IsPassOf engine.now pass.old }
    requires visit { CanVisit target.place target.span target.at target.page target.epoch (view pass.old) }
    requires few { IsFew before }
    ensures of { IsPassOf engine.now pass.new }
    ensures opens { IfOk result (λ found. IsInside target.span target.at target.page found (view pass.old) (view pass.new)) }
    ensures visits { IfErr result (λ sum. HasVisited target.span target.at target.page target.epoch before
        (view pass.old) sum (view pass.new)) }
{
    match hold(engine, pass, target) {
        Err(kept) => Err(and_kept(before, kept)),
        Ok(None) => Err(before),
        Ok(Some(held)) => open_page(engine, pass, target, held, before),
    }
}

/// Drops or keeps an interior page all of whose pointers were gone over, and leaves its slot.
fn close(
    engine: &Engine,
    pass: &mut Pass,
    target: Target,
    opened: Opened,
    before: Dropped,
) -> Dropped
    requires of { IsPassOf engine.now pass.old }
    requires work { CanWork target.place target.span target.at opened.slot target.page opened.word target.epoch (view pass.old) }
    requires opened { IsOpened opened.slot target.span target.page opened.count (view pass.old) }
    requires few { IsFew before }
    ensures of { IsPassOf engine.now pass.new }
    ensures closes { HasClosed target.span target.at target.page opened.slot opened.count before (view pass.old) result (view pass.new) }
{
    let branch = Branch {
        slot: opened.slot,
        span: target.span,
        count: opened.count,
        page: target.page,
    };
    let pointer = Pointer {
        place: target.place,
        at: target.at,
        word: opened.word,
    };
    let found = drop_branch_from(engine, pass, pointer, branch, 0);
    leave(engine, pass, opened.slot);
    and(before, found)
}

/// The pointer with this index of an interior page.
fn child_target(engine: &Engine, pass: &mut Pass, branch: Branch, index: u32, epoch: u32) -> Target
    requires of { IsPassOf engine.now pass.old }
    requires can { CanGoFrom branch.slot branch.span branch.page branch.count epoch (view pass.old) }
    requires index { index < branch.count }
    ensures of { IsPassOf engine.now pass.new }
    ensures child { IsChildTarget branch.slot branch.span branch.page branch.count index epoch (view pass.old) result (view pass.new) }
{
    let at = word_at(engine, branch.slot, POINTERS + index);
    let page = child_of(engine, pass, branch, index);
    let span = part_of(engine, pass, branch, index);
    let place = At::In(Spot {
        slot: branch.slot,
        index: index as usize,
    });
    Target {
        place,
        span,
        at,
        page,
        epoch,
    }
}

/// Goes over the pointers of the page from this one on, each with all below it.
fn visit_from(
    engine: &Engine,
    pass: &mut Pass,
    branch: Branch,
    index: u32,
    epoch: u32,
    before: Dropped,
) -> Dropped
    requires of { IsPassOf engine.now pass.old }
    requires can { CanGoFrom branch.slot branch.span branch.page branch.count epoch (view pass.old) }
    requires index { index ≤ branch.count }
    requires few { IsFew before }
    ensures of { IsPassOf engine.now pass.new }
    ensures goes { HasGoneFrom branch.slot branch.span branch.page branch.count epoch index before (view pass.old) result
        (view pass.new) }
{
    if index == branch.count {
        return before;
    }
    let target = child_target(engine, pass, branch, index, epoch);
    match open(engine, pass, target, before) {
        Err(sum) => {
            give_way(before, sum);
            visit_from(engine, pass, branch, index + 1, epoch, sum)
        }
        Ok(opened) => {
            let inner = branch_of(target, opened);
            let below = visit_from(engine, pass, inner, 0, epoch, before);
            let sum = close(engine, pass, target, opened, below);
            give_way(below, sum);
            visit_from(engine, pass, branch, index + 1, epoch, sum)
        }
    }
}

/// The page that is gone into.
fn branch_of(target: Target, opened: Opened) -> Branch
    ensures { result ≡ record { slot = opened.slot; span = target.span; count = opened.count; page = target.page } }
{
    Branch {
        slot: opened.slot,
        span: target.span,
        count: opened.count,
        page: target.page,
    }
}

// Lets other threads go first, once in so many pages that were met. Nothing of a page is locked or shut meanwhile.
fn give_way(before: Dropped, after: Dropped) {
    if pages_met(before) / TURN < pages_met(after) / TURN {
        yield_now();
    }
}

// How many pages were dropped and kept.
fn pages_met(sum: Dropped) -> u32 {
    sum.dropped.wrapping_add(sum.kept)
}

/// Goes over the pointer, and over all below it.
pub(crate) fn visit(engine: &Engine, pass: &mut Pass, target: Target, before: Dropped) -> Dropped
    requires of { IsPassOf engine.now pass.old }
    requires visit { CanVisit target.place target.span target.at target.page target.epoch (view pass.old) }
    requires few { IsFew before }
    ensures of { IsPassOf engine.now pass.new }
    ensures visits { HasVisited target.span target.at target.page target.epoch before (view pass.old) result (view pass.new) }
{
    match open(engine, pass, target, before) {
        Err(sum) => sum,
        Ok(opened) => {
            let inner = branch_of(target, opened);
            let below = visit_from(engine, pass, inner, 0, target.epoch, before);
            close(engine, pass, target, opened, below)
        }
    }
}
