// Pointers lead from slots to snapshot pages.
ghost use Rattle.std.specs.Prelude.{◌≡◌, ◌<◌};
ghost use Rattle.engine_pages.specs.Layout.{words_of};
ghost use Rattle.engine_pages.specs.Passes.{view, IsPassOf};
ghost use Rattle.pointer_swings.specs.Swings.{CanSwing, HasSwung};

use crate::law::{Swinging, Targeted};
use crate::laws::laws;
use engine_pages::{Engine, Pass};
use homes::{At, Span};
use std::marker::Brand;

/// Leads the pointer that stands at this place over these keys, and whose word is here, from the slot to this snapshot
/// page, or to none for 0, where its word is the expected one. All that stands in the slot's page is locked or shut by
/// the pass and is what the snapshot page says; it stays so, and the slot may be given up. Answers the word that it
/// found.
pub fn swing(
    engine: &Engine,
    pass: &mut Pass,
    place: At,
    span: Span,
    at: u32,
    slot: u32,
    page: u32,
    expected: u64,
) -> u64
    requires of { IsPassOf engine.now pass.old }
    requires swing { CanSwing (view pass.old) place span at slot page expected }
    requires word { at < words_of (view pass.old).layout }
    ensures of { IsPassOf engine.now pass.new }
    ensures swings { HasSwung slot at page expected (view pass.old) result (view pass.new) }
{
    swing_as::<Brand>(engine, pass, place, span, at, slot, page, expected)
}

fn swing_as<J: Targeted>(
    engine: &Engine,
    pass: &mut Pass,
    place: At,
    span: Span,
    at: u32,
    slot: u32,
    page: u32,
    expected: u64,
) -> u64
    requires of { IsPassOf engine.now pass.old }
    requires swing { CanSwing (view pass.old) place span at slot page expected }
    requires word { at < words_of (view pass.old).layout }
    requires named { (slot ≡ J.slot) × (page ≡ J.page) }
    ensures of { IsPassOf engine.now pass.new }
    ensures swings { HasSwung slot at page expected (view pass.old) result (view pass.new) }
{
    laws();
    engine
        .table
        .shared
        .compare_exchange::<Swinging<J>>(pass, at as usize, expected, u64::from(page))
}
