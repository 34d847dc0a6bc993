// An interior page's pointers are shut, and opened again; a page that is what the snapshot has is taken out of memory.
ghost use Rattle.std.specs.Prelude.{◌≡◌, ◌+◌, ◌^◌, ◌<◌, ◌≤◌, [], get_or, IfErr, OnOk};
ghost use Rattle.engine_pages.specs.Pages.{child_span};
ghost use Rattle.engine_pages.specs.Passes.{view, IsPassOf};
ghost use Rattle.snapshot_store.specs.Places.{page as page_words};
ghost use Rattle.page_drops.specs.Inner.{shut_row, AreFew, AtInner, CanDropInner, HasChild, HasDroppedInner, HasTurned};
ghost use Rattle.page_drops.specs.Inner.{AreLaterNotes, AreShutNotes, FoundOther, HasReopened, KeepsInner};
ghost use Rattle.page_drops.specs.Inner.{KeepsInnerBelow, LeftOpen, LeftShut};
ghost use Rattle.page_drops.specs.Works.{KeepsReads, KeepsReadsBut, TellsAbove};

use crate::noting::Kept;
use crate::records::{keep, word_at};
use dual_pointer::{SHUT, SLOT};
use engine_pages::{Engine, KeptWhy, Pass, retire};
use homes::{At, Span, Spot};
use pointer_swings::{descend, reopen, shut, swing};

/// The pointers of an interior page.
pub(crate) const POINTERS: u32 = 64;

const PARTS: u64 = 64;

/// An interior page in a slot, over these keys, and the snapshot page that it is compared with, or 0.
#[derive(Clone, Copy)]
pub(crate) struct Inner {
    pub slot: u32,
    pub span: Span,
    pub page: u32,
}

/// The keys of the child with this index.
pub(crate) fn part_of(span: Span, index: u32) -> Span
    requires wide { span.low + 63 ≤ span.high }
    requires high { span.high < 2 ^ 32 }
    requires index { index < 64 }
    ensures { result ≡ child_span span index }
{
    let size = (span.high + 1 - span.low) / PARTS;
    let low = span.low + u64::from(index) * size;
    Span {
        storage: span.storage,
        low,
        high: low + (size - 1),
    }
}

/// The snapshot page of the child with this index, or 0.
pub(crate) fn child_of(engine: &Engine, pass: &mut Pass, page: Inner, index: u32) -> u32
    requires of { IsPassOf engine.now pass.old }
    requires at { AtInner page.slot page.span page.page (view pass.old) }
    requires index { index < 64 }
    ensures of { IsPassOf engine.now pass.new }
    ensures child { HasChild page.span page.page index (view pass.old) result (view pass.new) }
{
    if page.page == 0 {
        return 0;
    }
    descend(engine, pass, page.span, page.page, index) as u32
}

/// Shuts the pointer with this index by one try, where it leads to no slot and to the snapshot's page.
fn shut_pointer(engine: &Engine, pass: &mut Pass, page: Inner, index: u32) -> Result<(), Kept>
    requires of { IsPassOf engine.now pass.old }
    requires at { AtInner page.slot page.span page.page (view pass.old) }
    requires index { index < 64 }
    requires row { (view pass.old).shuts ≡ shut_row page.slot (page_words (view pass.old).pages page.page) index }
    ensures of { IsPassOf engine.now pass.new }
    ensures turns { OnOk result (HasTurned (view pass.old) (view pass.new)) }
    ensures row { OnOk result ((view pass.new).shuts
        ≡ shut_row page.slot (page_words (view pass.old).pages page.page) (index + 1)) }
    ensures few { OnOk result (get_or (page_words (view pass.old).pages page.page) index 0 < 2 ^ 32) }
    ensures left { OnOk result (LeftShut page.slot page.page index (view pass.old) (view pass.new)) }
    ensures keeps { IfErr result (λ k. KeepsInner page.slot page.page k (view pass.old) (view pass.new)) }
    ensures found { IfErr result (λ k. FoundOther page.slot index k (view pass.old) (view pass.new)) }
{
    let child = child_of(engine, pass, page, index);
    let expected = u64::from(child);
    let span = part_of(page.span, index);
    let at = word_at(engine, page.slot, index);
    let place = At::In(Spot {
        slot: page.slot,
        index: index as usize,
    });
    let found = shut(engine, pass, place, span, at, expected);
    if found >= SHUT {
        let locked = keep(engine, pass, at, found, KeptWhy::Locked);
        return Err(locked);
    }
    if found >= SLOT {
        let under = keep(engine, pass, at, found, KeptWhy::Under);
        return Err(under);
    }
    if found != expected {
        let other = keep(engine, pass, at, found, KeptWhy::Unlike);
        return Err(other);
    }
    Ok(())
}

/// Shuts all pointers, each by one try. Where one leads elsewhere, none stays shut.
pub(crate) fn shut_page(engine: &Engine, pass: &mut Pass, page: Inner) -> Result<(), Kept>
    requires of { IsPassOf engine.now pass.old }
    requires at { AtInner page.slot page.span page.page (view pass.old) }
    requires free { (view pass.old).shuts ≡ [] }
    ensures of { IsPassOf engine.now pass.new }
    ensures turns { OnOk result (HasTurned (view pass.old) (view pass.new)) }
    ensures row { OnOk result ((view pass.new).shuts
        ≡ shut_row page.slot (page_words (view pass.old).pages page.page) 64) }
    ensures few { OnOk result (AreFew (page_words (view pass.old).pages page.page) 64) }
    ensures notes { OnOk result (AreShutNotes page.slot page.page 64 (view pass.old) (view pass.new)) }
    ensures keeps { IfErr result (λ k. KeepsInner page.slot page.page k (view pass.old) (view pass.new)) }
    ensures later { IfErr result (λ k. AreLaterNotes page.slot page.page k (view pass.old) (view pass.new)) }
    ensures reads { KeepsReads page.slot (view pass.old) (view pass.new) }
{
    for index in 0..POINTERS {
        if let Err(kept) = shut_pointer(engine, pass, page, index) {
            open_page(engine, pass, page, index);
            return Err(kept);
        }
    }
    Ok(())
}

/// Opens the first pointers, so many, with the snapshot's words, which they had; the last one first.
pub(crate) fn open_page(engine: &Engine, pass: &mut Pass, page: Inner, count: u32)
    requires of { IsPassOf engine.now pass.old }
    requires at { AtInner page.slot page.span page.page (view pass.old) }
    requires count { count ≤ 64 }
    requires row { (view pass.old).shuts ≡ shut_row page.slot (page_words (view pass.old).pages page.page) count }
    ensures of { IsPassOf engine.now pass.new }
    ensures turns { HasTurned (view pass.old) (view pass.new) }
    ensures opens { (view pass.new).shuts ≡ [] }
    ensures reads { HasReopened page.slot page.page 0 count (view pass.old) (view pass.new) }
{
    for done in 0..count {
        open_pointer(engine, pass, page, count - 1 - done);
    }
}

// Opens the pointer that was shut last.
fn open_pointer(engine: &Engine, pass: &mut Pass, page: Inner, index: u32)
    requires of { IsPassOf engine.now pass.old }
    requires at { AtInner page.slot page.span page.page (view pass.old) }
    requires index { index < 64 }
    requires row { (view pass.old).shuts
        ≡ shut_row page.slot (page_words (view pass.old).pages page.page) (index + 1) }
    ensures of { IsPassOf engine.now pass.new }
    ensures turns { HasTurned (view pass.old) (view pass.new) }
    ensures row { (view pass.new).shuts ≡ shut_row page.slot (page_words (view pass.old).pages page.page) index }
    ensures left { LeftOpen page.slot page.page index (view pass.old) (view pass.new) }
{
    let child = child_of(engine, pass, page, index);
    let word = u64::from(child);
    let span = part_of(page.span, index);
    let at = word_at(engine, page.slot, index);
    let place = At::In(Spot {
        slot: page.slot,
        index: index as usize,
    });
    reopen(engine, pass, place, span, at, word);
}

/// Takes the interior page out of memory to which the pointer at this place leads by this word, where no pointer of it
/// leads to a slot: the pointer names the snapshot's page alone then, and the slot is given up, with its pointers shut
/// for good. Else none of them stays shut.
pub(crate) fn drop_inner(
    engine: &Engine,
    pass: &mut Pass,
    place: At,
    at: u32,
    word: u64,
    page: Inner,
) -> Result<(), Kept>
    requires of { IsPassOf engine.now pass.old }
    requires drop { CanDropInner place page.span at page.slot page.page word (view pass.old) }
    ensures of { IsPassOf engine.now pass.new }
    ensures drops { OnOk result (HasDroppedInner page.slot at page.page (view pass.old) (view pass.new)) }
    ensures notes { OnOk result (AreShutNotes page.slot page.page 64 (view pass.old) (view pass.new)) }
    ensures keeps { IfErr result (λ k. KeepsInnerBelow page.slot page.page at word k (view pass.old) (view pass.new)) }
    ensures tells { IfErr result (λ k. TellsAbove k.why at k.seen (view pass.old) (view pass.new)) }
    ensures later { IfErr result (λ k. AreLaterNotes page.slot page.page k (view pass.old) (view pass.new)) }
    ensures reads { KeepsReadsBut page.slot at (view pass.old) (view pass.new) }
{
    shut_page(engine, pass, page)?;
    let found = swing(
        engine, pass, place, page.span, at, page.slot, page.page, word,
    );
    if found != word {
        let kept = keep(engine, pass, at, found, KeptWhy::Changed { expected: word });
        open_page(engine, pass, page, POINTERS);
        return Err(kept);
    }
    retire(engine, pass, page.slot);
    Ok(())
}
