// From a leaf that was split to the half that has the key.
ghost use Rattle.std.specs.Prelude.{◌≡◌, ◌+◌, ◌^◌, ◌<◌, ◌≤◌, List, Some, Contains};
ghost use Rattle.array_pages.specs.Finding.{HasGlanced};
ghost use Rattle.engine_pages.specs.Layout.{page_at};
ghost use Rattle.engine_pages.specs.Passes.{view, IsPassOf};
ghost use Rattle.engine_pages.specs.Steps.{seen_at};
ghost use Rattle.engine_pages.specs.Views.{IsActive};
ghost use Rattle.engine_pages.specs.declared.view.Known.{Known};
ghost use Rattle.tree_heads.specs.Headers.{moved_bit, moved_locked};
ghost use Rattle.tree_walks.specs.Steps.{GoesSo, IsHalfBelow, IsHalfFor, IsSplitAt};
ghost use Rattle.tree_walks.specs.Walks.{CanWalk};
ghost use Rattle.tree_walks.specs.Ways.{IsMetSo, IsOnWay};
ghost use Rattle.tx_sets.specs.declared.seen.Seen.{Seen};

use crate::walk::enter_slot;
use crate::ways::Page;
use array_pages::{conflict, word_at};
use engine_pages::{Engine, Pass, RefusalCause};
use homes::Span;
use serial_model::Key;
use tree_heads::{load_header, load_moved, load_word};
use tx_sets::Holds;

/// The headers of leaves that were split have this bit.
pub(crate) const MOVED: u64 = 1 << 62;

/// A moved header that somebody has locked is this or more.
const MOVED_LOCKED: u64 = (1 << 62) + (1 << 60);

/// Goes on from a leaf whose header, which stands here, was just seen to be moved. The half is entered, and then the
/// header loaded again: so the half was led to at that step.
#[inline(always)]
pub(crate) fn go_to_half(
    engine: &Engine,
    pass: &mut Pass,
    key: Key,
    holds: &mut Holds,
    page: Page,
    at: u32,
    header: u64,
) -> Result<Page, RefusalCause>
    requires of { IsPassOf engine.now pass.old }
    requires can { CanWalk holds.old (view pass.old) }
    requires on { IsOnWay key (view pass.old) page.slot page.span }
    requires word { at ≡ page_at (view pass.old).layout.slots page.slot 0 }
    requires moved { moved_bit ≤ header }
    requires split { header < moved_locked → IsSplitAt (view pass.old) page.slot }
    requires met { seen_at (view pass.old).reads at ≡ Some header }
    requires small { header < 2 ^ 62 + 2 ^ 61 }
    requires known { (leaf : Known) × Contains (view pass.old).known leaf × (leaf.slot ≡ page.slot) }
    ensures of { IsPassOf engine.now pass.new }
    ensures goes { (pointers headers : List Seen) → IsMetSo headers at header
        → GoesSo 4 key pointers headers holds.new (IsHalfBelow key page) result
        (view pass.old) (view pass.new) }
{
    if header >= MOVED_LOCKED {
        // Loaded once more: so what is expected there is what the step before saw.
        let later = load_header(engine, pass, page.slot, page.span, at);
        return Err(conflict(at, header, later));
    }
    let half = pick_half(engine, pass, key, page);
    enter_slot(engine, pass, holds, half.slot)?;
    let again = load_moved(engine, pass, page.slot, page.span, at);
    if again != header {
        return Err(conflict(at, header, again));
    }
    Ok(half)
}

// The half of a split leaf that has the key.
#[inline(always)]
fn pick_half(engine: &Engine, pass: &mut Pass, key: Key, page: Page) -> Page
    requires of { IsPassOf engine.now pass.old }
    requires active { IsActive (view pass.old).role }
    requires on { IsOnWay key (view pass.old) page.slot page.span }
    requires split { IsSplitAt (view pass.old) page.slot }
    ensures of { IsPassOf engine.now pass.new }
    ensures glances { HasGlanced (view pass.old) (view pass.new) }
    ensures most { (view pass.new).steps ≤ (view pass.old).steps + 2 }
    ensures half { IsHalfFor key (view pass.new) page.slot page.span result }
{
    let wanted = key.key;
    let parted = word_at(engine, page.slot, 5);
    let separator = load_word(engine, pass, page.slot, 5, parted);
    if wanted < separator {
        let minor = word_at(engine, page.slot, 3);
        let lower = load_word(engine, pass, page.slot, 3, minor);
        let slot = lower as u32 - 1;
        let high = separator - 1;
        return Page {
            slot,
            span: Span {
                storage: page.span.storage,
                low: page.span.low,
                high,
            },
        };
    }
    let major = word_at(engine, page.slot, 4);
    let upper = load_word(engine, pass, page.slot, 4, major);
    let slot = upper as u32 - 1;
    Page {
        slot,
        span: Span {
            storage: page.span.storage,
            low: separator,
            high: page.span.high,
        },
    }
}
