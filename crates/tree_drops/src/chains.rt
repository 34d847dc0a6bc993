// The pages of a chain are held: a leaf of a tree that was split, with all halves that came of it.
ghost use Rattle.std.specs.Prelude.{◌≡◌, ◌⊎◌, ℕ, suc, ◌+◌, ◌<◌, ◌≤◌, List, [], length, Some, Contains, IfOk, MatchBool};
ghost use Rattle.homes.specs.declared.places.Span.{Span as Keys};
ghost use Rattle.engine_pages.specs.declared.view.View.{View};
ghost use Rattle.engine_pages.specs.Layout.{page_at};
ghost use Rattle.engine_pages.specs.Steps.{seen_at};
ghost use Rattle.engine_pages.specs.declared.view.Moved.{Moved};
ghost use Rattle.engine_pages.specs.declared.view.Role.TheVariants.{Keeper};
ghost use Rattle.engine_pages.specs.Passes.{view, IsPassOf};
ghost use Rattle.tree_heads.specs.Headers.{IsTreeAt};
ghost use Rattle.tree_drops.specs.Chains.{CanEnter, CanGather, CanLook, CanPart, HasEnteredSo, HasGathered, HasLooked};
ghost use Rattle.tree_drops.specs.Chains.{split_header, GatheringSo, HasGatheredNext, HasMet, HasParted, HasWordOf};

use arrayvec::ArrayVec;
use chain_steps::Half;
use engine_pages::{Engine, KeptWhy, Pass, enter};
use homes::Span;
use page_drops::{Kept, keep, word_at};
use tree_heads::{load_header, load_moved, load_word};

/// How many halves of one chain are held at most.
pub(crate) const MOST: usize = 4096;

const MOVED: u64 = 1 << 62;

/// The header of a full leaf that was split, which nobody has locked.
pub(crate) const SPLIT: u64 = (1 << 62) + (1 << 8) + 16;

/// A header that is locked is this or more.
const LOCK: u64 = 1 << 60;

/// A split leaf whose halves are to be entered: its slot, its keys, and the first key of the upper half.
#[derive(Clone, Copy)]
pub(crate) struct Split {
    pub slot: u32,
    pub span: Span,
    pub separator: u64,
}

/// Loads the word of a split leaf that parts its keys. Where that is none of them but the first, or the header, which was
/// just seen so, is locked, it is noted that the chain is kept.
fn part(engine: &Engine, pass: &mut Pass, slot: u32, span: Span, header: u64) -> Result<Split, Kept>
    requires of { IsPassOf engine.now pass.old }
    requires part { CanPart slot span header (view pass.old) }
    ensures of { IsPassOf engine.now pass.new }
    ensures parts { HasParted slot span header result (view pass.old) (view pass.new) }
{
    if header != SPLIT {
        let here = word_at(engine, slot, 0);
        let other = keep(engine, pass, here, header, KeptWhy::Unlike);
        return Err(other);
    }
    let at = word_at(engine, slot, 5);
    let separator = load_word(engine, pass, slot, 5, at);
    if separator <= span.low {
        let low = keep(engine, pass, at, separator, KeptWhy::Unlike);
        return Err(low);
    }
    if span.high < separator {
        let high = keep(engine, pass, at, separator, KeptWhy::Unlike);
        return Err(high);
    }
    Ok(Split {
        slot,
        span,
        separator,
    })
}

/// Loads the header of the split leaf again, which was last seen open, once more of its halves are held. Where it is locked
/// now, it is noted that the chain is kept.
fn meet(engine: &Engine, pass: &mut Pass, split: Split) -> Result<(), Kept>
    requires of { IsPassOf engine.now pass.old }
    requires keeper { (view pass.old).role ≡ Keeper }
    requires slot { split.slot < (view pass.old).layout.slots }
    requires page { IsTreeAt (view pass.old) split.slot split.span }
    requires known { (x : Moved) × Contains (view pass.old).moved x × (x.slot ≡ split.slot) }
    requires seen { seen_at (view pass.old).reads (page_at (view pass.old).layout.slots split.slot 0) ≡ Some split_header }
    ensures of { IsPassOf engine.now pass.new }
    ensures meets { HasMet split result (view pass.old) (view pass.new) }
{
    let at = word_at(engine, split.slot, 0);
    let again = load_moved(engine, pass, split.slot, split.span, at);
    if again != SPLIT {
        let changed = keep(
            engine,
            pass,
            at,
            again,
            KeptWhy::Changed { expected: SPLIT },
        );
        return Err(changed);
    }
    Ok(())
}

/// Enters both halves of the split leaf, the upper one first, and puts them behind those of the chain that are held.
fn enter_halves(
    engine: &Engine,
    pass: &mut Pass,
    halves: &mut ArrayVec<Half, MOST>,
    split: Split,
) -> Result<(), Kept>
    requires of { IsPassOf engine.now pass.old }
    requires enter { CanEnter split (view pass.old) }
    requires room { length halves.old.items + 2 ≤ 4096 }
    ensures of { IsPassOf engine.now pass.new }
    ensures enters { HasEnteredSo split halves.old.items halves.new.items result (view pass.old) (view pass.new) }
{
    let upper = half_of(engine, pass, split, 4);
    let lower = half_of(engine, pass, split, 3);
    meet(engine, pass, split)?;
    enter(engine, pass, upper.slot);
    halves.push(upper);
    meet(engine, pass, split)?;
    enter(engine, pass, lower.slot);
    halves.push(lower);
    meet(engine, pass, split)?;
    Ok(())
}

/// The half of the split leaf whose slot stands in this word of it: 4 for the upper one, 3 for the lower one.
fn half_of(engine: &Engine, pass: &mut Pass, split: Split, word: u32) -> Half
    requires of { IsPassOf engine.now pass.old }
    requires enter { CanEnter split (view pass.old) }
    requires word { (word ≡ 4) ⊎ (word ≡ 3) }
    ensures of { IsPassOf engine.now pass.new }
    ensures half { HasWordOf split word (view pass.old) result (view pass.new) }
{
    let at = word_at(engine, split.slot, word);
    let found = load_word(engine, pass, split.slot, word, at);
    let slot = (found as u32).wrapping_sub(1);
    if word == 4 {
        return Half {
            slot,
            low: split.separator,
            high: split.span.high,
        };
    }
    Half {
        slot,
        low: split.span.low,
        high: split.separator - 1,
    }
}

/// Looks at the page of the half that is the next one to be looked at, and enters the halves of that, if it is a leaf that
/// was split. Answers its header.
fn look(
    engine: &Engine,
    pass: &mut Pass,
    halves: &mut ArrayVec<Half, MOST>,
    half: Half,
    storage: u8,
) -> Result<u64, Kept>
    requires of { IsPassOf engine.now pass.old }
    requires look { (t : ℕ) × (sp : Keys) × (splits headers : List ℕ) × (a : View) × (sp.storage ≡ storage)
        × CanLook t sp halves.old.items splits headers half a (view pass.old) }
    requires room { length halves.old.items + 2 ≤ 4096 }
    ensures of { IsPassOf engine.now pass.new }
    ensures looks { (t : ℕ) (sp : Keys) (splits headers : List ℕ) (a : View) → sp.storage ≡ storage
        → CanLook t sp halves.old.items splits headers half a (view pass.old)
        → HasLooked t sp headers halves.old.items halves.new.items result a (view pass.old) (view pass.new) }
{
    let span = Span {
        storage,
        low: half.low,
        high: half.high,
    };
    let at = word_at(engine, half.slot, 0);
    let header = load_header(engine, pass, half.slot, span, at);
    if header / 256 % 256 != 1 {
        let other = keep(engine, pass, at, header, KeptWhy::Unlike);
        return Err(other);
    }
    if header < LOCK {
        return Ok(header);
    }
    if header < MOVED {
        let locked = keep(engine, pass, at, header, KeptWhy::Locked);
        return Err(locked);
    }
    let split = part(engine, pass, half.slot, span, header)?;
    enter_halves(engine, pass, halves, split)?;
    Ok(header)
}

/// Holds all pages of the chain whose first page is in the slot that is held, and whose header was just found to be this,
/// or so many that it is too long: the halves, in the order in which they were entered, and the headers of those that were
/// looked at.
pub(crate) fn gather(
    engine: &Engine,
    pass: &mut Pass,
    halves: &mut ArrayVec<Half, MOST>,
    headers: &mut ArrayVec<u64, MOST>,
    slot: u32,
    span: Span,
    header: u64,
) -> Result<(), Kept>
    requires of { IsPassOf engine.now pass.old }
    requires gather { CanGather slot span header (view pass.old) }
    requires none { halves.old.items ≡ [] }
    requires new { headers.old.items ≡ [] }
    ensures of { IsPassOf engine.now pass.new }
    ensures gathers { HasGathered slot span halves.new.items headers.new.items result (view pass.old) (view pass.new) }
{
    let split = part(engine, pass, slot, span, header)?;
    enter_halves(engine, pass, halves, split)?;
    while is_more(halves, headers) {
        gather_next(engine, pass, halves, headers, span.storage)?;
    }
    Ok(())
}

/// Some page that is held wasn't looked at yet, and there is room for its halves.
fn is_more(halves: &ArrayVec<Half, MOST>, headers: &ArrayVec<u64, MOST>) -> bool
    ensures more { MatchBool result
        ((length headers.now.items < length halves.now.items) × (length halves.now.items + 2 ≤ 4096))
        ((length halves.now.items ≤ length headers.now.items) ⊎ (4096 < length halves.now.items + 2)) }
{
    if headers.len() >= halves.len() {
        return false;
    }
    halves.len() + 2 <= MOST
}

/// Looks at the next page of the chain, and holds its halves, too, if it was split.
fn gather_next(
    engine: &Engine,
    pass: &mut Pass,
    halves: &mut ArrayVec<Half, MOST>,
    headers: &mut ArrayVec<u64, MOST>,
    storage: u8,
) -> Result<(), Kept>
    requires of { IsPassOf engine.now pass.old }
    requires next { (t : ℕ) × (sp : Keys) × (header : ℕ) × (v : View) × (sp.storage ≡ storage) × CanGather t sp header v
        × GatheringSo t sp halves.old.items headers.old.items v (view pass.old) }
    requires less { length headers.old.items < length halves.old.items }
    requires room { length halves.old.items + 2 ≤ 4096 }
    ensures of { IsPassOf engine.now pass.new }
    ensures goes { (t : ℕ) (sp : Keys) (header : ℕ) (v : View) → sp.storage ≡ storage → CanGather t sp header v
        → GatheringSo t sp halves.old.items headers.old.items v (view pass.old)
        → HasGatheredNext t sp halves.new.items headers.new.items result v (view pass.new) }
    ensures one { IfOk result (λ u. length headers.new.items ≡ suc (length headers.old.items)) }
{
    let half = halves[headers.len()];
    let found = look(engine, pass, halves, half, storage)?;
    headers.push(found);
    Ok(())
}
