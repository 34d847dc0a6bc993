// Down the pages in memory to the end of the way to a key.
ghost use Rattle.std.specs.Prelude.{◌≡◌, true};
ghost use Rattle.engine_pages.specs.Pages.{is_tree};
ghost use Rattle.engine_pages.specs.Passes.{view, IsPassOf};
ghost use Rattle.tree_walks.specs.Steps.{GoesSo, IsFurther};
ghost use Rattle.tree_walks.specs.Walks.{walk_steps, CanWalk};
ghost use Rattle.tree_walks.specs.Ways.{HasCome, IsOnWay};

use crate::children::go_to_child;
use crate::halves::{MOVED, go_to_half};
use crate::places::{check_kept, root_of};
use crate::walk::{Reached, reach};
use crate::ways::{Bare, End, Leaf, Page};
use array_pages::word_at;
use engine_pages::{Engine, Pass, RefusalCause, SetName};
use homes::{At, Span};
use serial_model::Key;
use tree_heads::load_header;
use tx_sets::{HeaderSet, Holds, PointerSet, Seen};

/// The kind of page that a leaf's header tells.
const LEAF: u64 = 1;

/// What is next on the way.
pub(crate) enum Next {
    /// A page below, which is held.
    Down(Page),
    End(End),
}

/// Goes down from the root of a tree to the end of the way to a key: to a leaf in memory that wasn't split, or to a
/// pointer that leads to no slot. The slots of the pages on the way are held from then on; nothing is kept. The
/// pointers and headers that the transaction has kept are told. At most 4,483 steps: 35 for each of up to 128 pages,
/// and three for the root's pointer.
pub fn go_down(
    engine: &Engine,
    pass: &mut Pass,
    key: Key,
    holds: &mut Holds,
    pointers: &PointerSet,
    headers: &HeaderSet,
) -> Result<End, RefusalCause>
    requires of { IsPassOf engine.now pass.old }
    requires can { CanWalk holds.old (view pass.old) }
    requires tree { is_tree (view pass.old).layout.decls key.storage ≡ true }
    ensures of { IsPassOf engine.now pass.new }
    ensures goes { GoesSo walk_steps key pointers.now headers.now holds.new
        (HasCome key pointers.now headers.now) result (view pass.old) (view pass.new) }
{
    walk_down(engine, pass, key, key.key, holds, pointers, headers)
}

// The key's number comes as an argument of its own: so the proof has that it is one of 64 bits.
pub(crate) fn walk_down(
    engine: &Engine,
    pass: &mut Pass,
    key: Key,
    wanted: u64,
    holds: &mut Holds,
    pointers: &PointerSet,
    headers: &HeaderSet,
) -> Result<End, RefusalCause>
    requires of { IsPassOf engine.now pass.old }
    requires can { CanWalk holds.old (view pass.old) }
    requires tree { is_tree (view pass.old).layout.decls key.storage ≡ true }
    requires same { wanted ≡ key.key }
    ensures of { IsPassOf engine.now pass.new }
    ensures goes { GoesSo walk_steps key pointers.now headers.now holds.new
        (HasCome key pointers.now headers.now) result (view pass.old) (view pass.new) }
{
    let _ = wanted;
    let root = root_of(engine, key.storage);
    let place = At::Root(root);
    let at = 10 + root as u32;
    let span = Span {
        storage: key.storage,
        low: 0,
        high: u64::MAX,
    };
    let reached = reach(engine, pass, holds, pointers, place, span, at)?;
    match reached {
        Reached::Slot(slot) => {
            let page = Page { slot, span };
            go_down_from(engine, pass, key, holds, pointers, headers, page)
        }
        Reached::Bare(word) => Ok(End::Below(Bare {
            place,
            span,
            pointer: Seen { at, word },
        })),
    }
}

/// The same from a page on the way. It comes to at most 128 pages: each is held, so a longer way needs more holds than
/// there are. At most 4,480 steps.
pub fn go_down_from(
    engine: &Engine,
    pass: &mut Pass,
    key: Key,
    holds: &mut Holds,
    pointers: &PointerSet,
    headers: &HeaderSet,
    page: Page,
) -> Result<End, RefusalCause>
    requires of { IsPassOf engine.now pass.old }
    requires can { CanWalk holds.old (view pass.old) }
    requires on { IsOnWay key (view pass.old) page.slot page.span }
    ensures of { IsPassOf engine.now pass.new }
    ensures goes { GoesSo 4480 key pointers.now headers.now holds.new (HasCome key pointers.now headers.now) result
        (view pass.old) (view pass.new) }
{
    let mut page = page;
    for level in 0..128u32 {
        let _ = level;
        let step = go_on(engine, pass, key, holds, pointers, headers, page)?;
        match step {
            Next::Down(next) => page = next,
            Next::End(end) => return Ok(end),
        }
    }
    Err(RefusalCause::Wide {
        set: SetName::Holds,
    })
}

// One page further.
#[inline(always)]
fn go_on(
    engine: &Engine,
    pass: &mut Pass,
    key: Key,
    holds: &mut Holds,
    pointers: &PointerSet,
    headers: &HeaderSet,
    page: Page,
) -> Result<Next, RefusalCause>
    requires of { IsPassOf engine.now pass.old }
    requires can { CanWalk holds.old (view pass.old) }
    requires on { IsOnWay key (view pass.old) page.slot page.span }
    ensures of { IsPassOf engine.now pass.new }
    ensures goes { GoesSo 35 key pointers.now headers.now holds.new (IsFurther key pointers.now headers.now page) result
        (view pass.old) (view pass.new) }
{
    let at = word_at(engine, page.slot, 0);
    let header = load_header(engine, pass, page.slot, page.span, at);
    check_kept(headers, at, header)?;
    let kind = header / 256 % 256;
    if kind != LEAF {
        let count = (header % 256) as u32;
        return go_to_child(engine, pass, key, holds, pointers, page, count);
    }
    if header < MOVED {
        return Ok(Next::End(End::Leaf(Leaf {
            slot: page.slot,
            span: page.span,
            header,
        })));
    }
    let half = go_to_half(engine, pass, key, holds, page, at, header)?;
    Ok(Next::Down(half))
}
