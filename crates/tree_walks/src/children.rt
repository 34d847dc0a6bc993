// From an interior page to the child that has the key.
ghost use Rattle.std.specs.Prelude.{◌≡◌, ◌+◌, ◌≤◌, List};
ghost use Rattle.array_pages.specs.Finding.{HasGlanced};
ghost use Rattle.engine_pages.specs.Passes.{view, IsPassOf};
ghost use Rattle.engine_pages.specs.Views.{IsActive};
ghost use Rattle.tree_walks.specs.Steps.{GoesSo, IsChildFor, IsFurther, IsInnerAt};
ghost use Rattle.tree_walks.specs.Walks.{CanWalk};
ghost use Rattle.tree_walks.specs.Ways.{IsOnWay};
ghost use Rattle.tx_sets.specs.declared.seen.Seen.{Seen};

use crate::descent::Next;
use crate::walk::{Reached, reach};
use crate::ways::{Bare, End, Page};
use array_pages::word_at;
use engine_pages::{Engine, Pass, RefusalCause};
use homes::{At, Span, Spot};
use serial_model::Key;
use tree_heads::load_word;
use tx_sets::{Holds, PointerSet, Seen};

/// The separators of an interior page stand from this word on.
const SEPARATORS: u32 = 34;

/// A child of an interior page, by its index and its keys.
#[derive(Clone, Copy)]
pub(crate) struct Child {
    pub(crate) index: u32,
    pub(crate) span: Span,
}

/// Goes on from an interior page with so many children, along the pointer to the child that has the key.
#[inline(always)]
pub(crate) fn go_to_child(
    engine: &Engine,
    pass: &mut Pass,
    key: Key,
    holds: &mut Holds,
    pointers: &PointerSet,
    page: Page,
    count: u32,
) -> Result<Next, RefusalCause>
    requires of { IsPassOf engine.now pass.old }
    requires can { CanWalk holds.old (view pass.old) }
    requires on { IsOnWay key (view pass.old) page.slot page.span }
    requires inner { IsInnerAt (view pass.old) page.slot count }
    ensures of { IsPassOf engine.now pass.new }
    ensures goes { (headers : List Seen)
        → GoesSo 33 key pointers.now headers holds.new (IsFurther key pointers.now headers page) result
        (view pass.old) (view pass.new) }
{
    let child = pick_child(engine, pass, key, page, count);
    let place = At::In(Spot {
        slot: page.slot,
        index: child.index as usize,
    });
    let at = word_at(engine, page.slot, 4 + child.index);
    let reached = reach(engine, pass, holds, pointers, place, child.span, at)?;
    match reached {
        Reached::Slot(slot) => Ok(Next::Down(Page {
            slot,
            span: child.span,
        })),
        Reached::Bare(word) => Ok(Next::End(End::Below(Bare {
            place,
            span: child.span,
            pointer: Seen { at, word },
        }))),
    }
}

// The child that has the key: the one before the first separator above it.
fn pick_child(engine: &Engine, pass: &mut Pass, key: Key, page: Page, count: u32) -> Child
    requires of { IsPassOf engine.now pass.old }
    requires active { IsActive (view pass.old).role }
    requires on { IsOnWay key (view pass.old) page.slot page.span }
    requires inner { IsInnerAt (view pass.old) page.slot count }
    ensures of { IsPassOf engine.now pass.new }
    ensures glances { HasGlanced (view pass.old) (view pass.new) }
    ensures most { (view pass.new).steps ≤ (view pass.old).steps + 30 }
    ensures child { IsChildFor key (view pass.new) page.slot page.span result }
{
    let wanted = key.key;
    let mut low = page.span.low;
    for index in 1..count {
        let before = index - 1;
        let place = SEPARATORS + before;
        let at = word_at(engine, page.slot, place);
        let separator = load_word(engine, pass, page.slot, place, at);
        if wanted < separator {
            let high = separator - 1;
            return child_of(page, before, low, high);
        }
        low = separator;
    }
    child_of(page, count - 1, low, page.span.high)
}

fn child_of(page: Page, index: u32, low: u64, high: u64) -> Child
    ensures { result ≡ record {
      index = index;
      span = record { storage = page.span.storage; low = low; high = high };
    } }
{
    Child {
        index,
        span: Span {
            storage: page.span.storage,
            low,
            high,
        },
    }
}
