// An interior page of a tree is compared with a snapshot's, shut, and taken out of memory.
ghost use Rattle.std.specs.Prelude.{◌≡◌, ◌<◌, ℕ, suc, [], get_or, slice_get, Some, None, Contains, IfErr, OnOk};
ghost use Rattle.drop_core.specs.Table.{at_index};
ghost use Rattle.engine_pages.specs.declared.view.Shut.{Shut};
ghost use Rattle.snapshot_store.specs.declared.place.PagePlace.{PagePlace};
ghost use Rattle.engine_pages.specs.Resident.{tree_below};
ghost use Rattle.engine_pages.specs.Pages.{part_between, part_high, part_low};
ghost use Rattle.engine_pages.specs.Passes.{view, IsPassOf};
ghost use Rattle.page_drops.specs.Works.{HasGlanced, KeepsReads, KeepsReadsBut};
ghost use Rattle.snapshot_store.specs.Places.{page as page_words};
ghost use Rattle.page_drops.specs.Calls.{KeepsAllBut};
ghost use Rattle.tree_drops.specs.Branches.{AreAlike, AreLeft, AreLeftFor, AtBranch, CanDropBranchFrom, FoundOther, HasChild};
ghost use Rattle.tree_drops.specs.Branches.{HasDroppedBranch, KeepsFirst, LeftShut};
ghost use Rattle.tree_drops.specs.Branches.{IsBranchCause, IsBranchCauseBelow, IsInnerOf, IsParted, KeepsBranch, HasShut};
ghost use Rattle.tree_drops.specs.Works.{TellsPointer};

use crate::dropping::Pointer;
use dual_pointer::{SHUT, SLOT};
use engine_pages::{Engine, KeptWhy, Pass, retire};
use homes::{At, Span, Spot};
use page_drops::{Kept, keep, word_at, word_of};
use pointer_swings::{descend_tree, reopen, shut, swing};
use tree_heads::load_word;

const SEPARATORS: u32 = 34;

const POINTERS: u32 = 4;

/// An interior page of a tree in a slot, over these keys, with so many children, and the snapshot page that it is
/// compared with, or 0.
#[derive(Clone, Copy)]
pub(crate) struct Branch {
    pub slot: u32,
    pub span: Span,
    pub count: u32,
    pub page: u32,
}

/// The separator with this index.
fn separator_at(engine: &Engine, pass: &mut Pass, branch: Branch, index: u32) -> u64
    requires of { IsPassOf engine.now pass.old }
    requires at { AtBranch branch.slot branch.span branch.page branch.count (view pass.old) }
    requires index { suc index < branch.count }
    ensures of { IsPassOf engine.now pass.new }
    ensures glances { HasGlanced (view pass.old) (view pass.new) }
    ensures separator { (x : AtBranch branch.slot branch.span branch.page branch.count (view pass.old))
        → result ≡ get_or (x.inner).separators index 0 }
{
    let at = word_at(engine, branch.slot, SEPARATORS + index);
    load_word(engine, pass, branch.slot, SEPARATORS + index, at)
}

/// The keys of the child with this index.
pub(crate) fn part_of(engine: &Engine, pass: &mut Pass, branch: Branch, index: u32) -> Span
    requires of { IsPassOf engine.now pass.old }
    requires at { AtBranch branch.slot branch.span branch.page branch.count (view pass.old) }
    requires index { index < branch.count }
    ensures of { IsPassOf engine.now pass.new }
    ensures glances { HasGlanced (view pass.old) (view pass.new) }
    ensures part { (x : AtBranch branch.slot branch.span branch.page branch.count (view pass.old))
        → result ≡ part_between branch.span (x.inner).separators index }
{
    let low = low_of(engine, pass, branch, index);
    let high = high_of(engine, pass, branch, index);
    Span {
        storage: branch.span.storage,
        low,
        high,
    }
}

/// Where the child with this index begins.
fn low_of(engine: &Engine, pass: &mut Pass, branch: Branch, index: u32) -> u64
    requires of { IsPassOf engine.now pass.old }
    requires at { AtBranch branch.slot branch.span branch.page branch.count (view pass.old) }
    requires index { index < branch.count }
    ensures of { IsPassOf engine.now pass.new }
    ensures glances { HasGlanced (view pass.old) (view pass.new) }
    ensures low { (x : AtBranch branch.slot branch.span branch.page branch.count (view pass.old))
        → result ≡ part_low branch.span (x.inner).separators index }
{
    if index == 0 {
        return branch.span.low;
    }
    separator_at(engine, pass, branch, index - 1)
}

/// Where it ends.
fn high_of(engine: &Engine, pass: &mut Pass, branch: Branch, index: u32) -> u64
    requires of { IsPassOf engine.now pass.old }
    requires at { AtBranch branch.slot branch.span branch.page branch.count (view pass.old) }
    requires index { index < branch.count }
    ensures of { IsPassOf engine.now pass.new }
    ensures glances { HasGlanced (view pass.old) (view pass.new) }
    ensures high { (x : AtBranch branch.slot branch.span branch.page branch.count (view pass.old))
        → result ≡ part_high branch.span (x.inner).separators index }
{
    if index + 1 == branch.count {
        return branch.span.high;
    }
    separator_at(engine, pass, branch, index).saturating_sub(1)
}

/// Compares the separators, from this one on, with the snapshot's, up to the first that is another.
pub(crate) fn compare_from(
    engine: &Engine,
    pass: &mut Pass,
    branch: Branch,
    index: u32,
) -> Result<(), Kept>
    requires of { IsPassOf engine.now pass.old }
    requires at { AtBranch branch.slot branch.span branch.page branch.count (view pass.old) }
    requires index { index < branch.count }
    ensures of { IsPassOf engine.now pass.new }
    ensures looks { OnOk result (HasGlanced (view pass.old) (view pass.new)) }
    ensures alike { OnOk result ((x : AtBranch branch.slot branch.span branch.page branch.count (view pass.old))
        → AreAlike (page_words (view pass.old).pages branch.page) (x.inner).separators index) }
    ensures keeps { IfErr result (λ k. KeepsBranch (IsParted (view pass.old).layout.slots branch.slot
        (page_words (view pass.old).pages branch.page)) k (view pass.old) (view pass.new)) }
    ensures reads { KeepsReads branch.slot (view pass.old) (view pass.new) }
{
    if index + 1 == branch.count {
        return Ok(());
    }
    let wanted = word_of(engine, pass, branch.page, SEPARATORS + index);
    let at = word_at(engine, branch.slot, SEPARATORS + index);
    let found = load_word(engine, pass, branch.slot, SEPARATORS + index, at);
    if found != wanted {
        let other = keep(engine, pass, at, found, KeptWhy::Unlike);
        return Err(other);
    }
    compare_from(engine, pass, branch, index + 1)
}

/// The snapshot page of the child with this index.
pub(crate) fn child_of(engine: &Engine, pass: &mut Pass, branch: Branch, index: u32) -> u32
    requires of { IsPassOf engine.now pass.old }
    requires at { AtBranch branch.slot branch.span branch.page branch.count (view pass.old) }
    requires inner { IsInnerOf branch.page (page_words (view pass.old).pages branch.page) branch.count }
    requires index { index < branch.count }
    ensures of { IsPassOf engine.now pass.new }
    ensures child { (x : AtBranch branch.slot branch.span branch.page branch.count (view pass.old))
        → AreAlike (page_words (view pass.old).pages branch.page) (x.inner).separators 0
        → HasChild branch.span branch.page index (x.inner).separators (view pass.old) result (view pass.new) }
{
    descend_tree(engine, pass, branch.span, branch.page, index) as u32
}

/// Shuts the pointers of the page, from this one on, each by one try, where they lead to no slot and where the
/// snapshot's do, and swings the pointer to the page away. Where one leads elsewhere, none of them stays shut.
pub(crate) fn drop_branch_from(
    engine: &Engine,
    pass: &mut Pass,
    pointer: Pointer,
    branch: Branch,
    index: u32,
) -> Result<(), Kept>
    requires of { IsPassOf engine.now pass.old }
    requires drop { CanDropBranchFrom pointer.place branch.span pointer.at branch.slot branch.page pointer.word
        branch.count index (view pass.old) }
    ensures of { IsPassOf engine.now pass.new }
    ensures drops { OnOk result (HasDroppedBranch branch.slot pointer.at branch.page (view pass.old) (view pass.new)) }
    ensures keeps { IfErr result (λ k. KeepsBranch (IsBranchCauseBelow (view pass.old).layout.slots branch.slot
        branch.span (view pass.old).pages branch.page pointer.at pointer.word) k (view pass.old) (view pass.new)) }
    ensures tells { IfErr result (λ k. TellsPointer pointer.at pointer.word k (view pass.old) (view pass.new)) }
    ensures reads { KeepsReadsBut branch.slot pointer.at (view pass.old) (view pass.new) }
    ensures lefts { OnOk result (AreLeft None branch.slot branch.span branch.page branch.count index (view pass.old)
        (view pass.new)) }
    ensures later { IfErr result (λ k. AreLeftFor branch.slot branch.span branch.page branch.count index k
        (view pass.old) (view pass.new)) }
    ensures first { KeepsFirst branch.slot index (view pass.old) (view pass.new) }
{
    if index == branch.count {
        return swing_away(engine, pass, pointer, branch);
    }
    let place = At::In(Spot {
        slot: branch.slot,
        index: index as usize,
    });
    let at = word_at(engine, branch.slot, POINTERS + index);
    let child = child_of(engine, pass, branch, index);
    let part = part_of(engine, pass, branch, index);
    shut_child(engine, pass, branch, index, part, child)?;
    if let Err(kept) = drop_branch_from(engine, pass, pointer, branch, index + 1) {
        reopen(engine, pass, place, part, at, u64::from(child));
        return Err(kept);
    }
    Ok(())
}

/// Shuts the pointer with this index, over these keys, by one try, where it leads to no slot and to the snapshot's page.
fn shut_child(
    engine: &Engine,
    pass: &mut Pass,
    branch: Branch,
    index: u32,
    part: Span,
    child: u32,
) -> Result<(), Kept>
    requires of { IsPassOf engine.now pass.old }
    requires at { AtBranch branch.slot branch.span branch.page branch.count (view pass.old) }
    requires index { index < branch.count }
    requires part { (x : AtBranch branch.slot branch.span branch.page branch.count (view pass.old))
        → part ≡ part_between branch.span (x.inner).separators index }
    requires child { (c : PagePlace)
        × (slice_get (tree_below (view pass.old).pages branch.span branch.page) index ≡ Some c) × (child ≡ c.number) }
    requires took { (view pass.old).took ≡ [] }
    requires shut { (z : Shut) → Contains (view pass.old).shuts z → (j : ℕ) × (j < index) × (z.at ≡ at_index branch.slot j) }
    ensures of { IsPassOf engine.now pass.new }
    ensures shuts { OnOk result (HasShut branch.slot index child (view pass.old) (view pass.new)) }
    ensures keeps { IfErr result (λ k. KeepsBranch (IsBranchCause (view pass.old).layout.slots branch.slot branch.span
        (view pass.old).pages branch.page) k (view pass.old) (view pass.new)) }
    ensures reads { KeepsReads branch.slot (view pass.old) (view pass.new) }
    ensures left { OnOk result (LeftShut branch.slot index child (view pass.old) (view pass.new)) }
    ensures found { IfErr result (λ k. FoundOther branch.slot index k (view pass.old) (view pass.new)) }
{
    let place = At::In(Spot {
        slot: branch.slot,
        index: index as usize,
    });
    let at = word_at(engine, branch.slot, POINTERS + index);
    let expected = u64::from(child);
    let found = shut(engine, pass, place, part, at, expected);
    if found >= SHUT {
        let locked = keep(engine, pass, at, found, KeptWhy::Locked);
        return Err(locked);
    }
    if found >= SLOT {
        let under = keep(engine, pass, at, found, KeptWhy::Under);
        return Err(under);
    }
    if found != expected {
        let other = keep(engine, pass, at, found, KeptWhy::Unlike);
        return Err(other);
    }
    Ok(())
}

/// Swings the pointer away from the page, all of which is shut as the snapshot has it, and gives up the slot.
fn swing_away(
    engine: &Engine,
    pass: &mut Pass,
    pointer: Pointer,
    branch: Branch,
) -> Result<(), Kept>
    requires of { IsPassOf engine.now pass.old }
    requires drop { CanDropBranchFrom pointer.place branch.span pointer.at branch.slot branch.page pointer.word
        branch.count branch.count (view pass.old) }
    ensures of { IsPassOf engine.now pass.new }
    ensures drops { OnOk result (HasDroppedBranch branch.slot pointer.at branch.page (view pass.old) (view pass.new)) }
    ensures keeps { IfErr result (λ k. KeepsBranch (IsBranchCauseBelow (view pass.old).layout.slots branch.slot
        branch.span (view pass.old).pages branch.page pointer.at pointer.word) k (view pass.old) (view pass.new)) }
    ensures tells { IfErr result (λ k. TellsPointer pointer.at pointer.word k (view pass.old) (view pass.new)) }
    ensures reads { KeepsReadsBut branch.slot pointer.at (view pass.old) (view pass.new) }
    ensures others { KeepsAllBut pointer.at (view pass.old) (view pass.new) }
    ensures above { IfErr result (λ k. k.word ≡ pointer.at) }
{
    let at = pointer.at;
    let word = pointer.word;
    let found = swing(
        engine,
        pass,
        pointer.place,
        branch.span,
        at,
        branch.slot,
        branch.page,
        word,
    );
    if found != word {
        let kept = keep(engine, pass, at, found, KeptWhy::Changed { expected: word });
        return Err(kept);
    }
    retire(engine, pass, branch.slot);
    Ok(())
}
