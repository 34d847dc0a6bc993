// A pointer is led from a chain to a snapshot page.
ghost use Rattle.std.specs.Prelude.{◌≡◌, ◌<◌, ◌∷◌, ◌++◌, []};
ghost use Rattle.engine_pages.specs.Layout.{words_of};
ghost use Rattle.engine_pages.specs.Passes.{view, IsPassOf};
ghost use Rattle.chain_steps.specs.Swings.{slots_of, CanSwingChain, HasSwungChain};

use crate::halves::Half;
use crate::law::{Chained, SwingingChain};
use crate::laws::laws;
use engine_pages::{Engine, Pass};
use homes::{At, Span};
use std::marker::Brand;

/// Leads the pointer that stands at this place over these keys, and whose word is here, from the chain of the leaf in this
/// slot and of these halves, 63 pages at most, to this snapshot page, or to none for 0, where its word is the expected one.
/// All of the chain is locked by the pass, and is what the snapshot has below that page; it stays so, and the slots may be
/// given up. Answers the word that it found.
pub fn swing_chain(
    engine: &Engine,
    pass: &mut Pass,
    place: At,
    span: Span,
    at: u32,
    slot: u32,
    halves: &[Half],
    page: u32,
    expected: u64,
) -> u64
    requires of { IsPassOf engine.now pass.old }
    requires swing { CanSwingChain (view pass.old) place span at (slots_of halves.now ++ slot ∷ []) page expected }
    requires word { at < words_of (view pass.old).layout }
    ensures of { IsPassOf engine.now pass.new }
    ensures swings { HasSwungChain (slots_of halves.now ++ slot ∷ []) at page expected (view pass.old) result (view pass.new) }
{
    swing_as::<Brand>(engine, pass, place, span, at, slot, halves, page, expected)
}

fn swing_as<J: Chained>(
    engine: &Engine,
    pass: &mut Pass,
    place: At,
    span: Span,
    at: u32,
    slot: u32,
    halves: &[Half],
    page: u32,
    expected: u64,
) -> u64
    requires of { IsPassOf engine.now pass.old }
    requires swing { CanSwingChain (view pass.old) place span at (slots_of halves.now ++ slot ∷ []) page expected }
    requires word { at < words_of (view pass.old).layout }
    requires named { (slots_of halves.now ++ slot ∷ [] ≡ J.slots) × (page ≡ J.page) }
    ensures of { IsPassOf engine.now pass.new }
    ensures swings { HasSwungChain (slots_of halves.now ++ slot ∷ []) at page expected (view pass.old) result (view pass.new) }
{
    let _ = place;
    let _ = span;
    let _ = slot;
    let _ = halves;
    laws();
    engine
        .table
        .shared
        .compare_exchange::<SwingingChain<J>>(pass, at as usize, expected, u64::from(page))
}
