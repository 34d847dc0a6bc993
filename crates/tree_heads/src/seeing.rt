// Loads that keep a header as a part.
ghost use Rattle.std.specs.Prelude.{◌≡◌, ◌<◌, false};
ghost use Rattle.commit_core.specs.CoreState.{is_trying};
ghost use Rattle.engine_pages.specs.Layout.{page_at};
ghost use Rattle.engine_pages.specs.Passes.{view, IsPassOf};
ghost use Rattle.engine_pages.specs.Views.{IsActive};
ghost use Rattle.tree_heads.specs.Headers.{IsTreeAt};
ghost use Rattle.tree_heads.specs.Keeps.{SawHeader};

use crate::law::{Expected, SeeingHeader, Treed};
use crate::laws::laws;
use engine_pages::{Engine, Pass};
use homes::Span;
use std::marker::Brand;

/// Loads the header of a tree's page over these keys, whose word is here. Where it is that of an open leaf, and the
/// expected one, it is kept as a part, which vouches that no other key of the leaf's span has a value. Answers the word
/// that it found.
pub fn see_header(
    engine: &Engine,
    pass: &mut Pass,
    slot: u32,
    span: Span,
    at: u32,
    expected: u64,
) -> u64
    requires of { IsPassOf engine.now pass.old }
    requires pass { IsActive (view pass.old).role × (is_trying (view pass.old).seat.stage ≡ false) }
    requires slot { slot < (view pass.old).layout.slots }
    requires word { at ≡ page_at (view pass.old).layout.slots slot 0 }
    requires page { IsTreeAt (view pass.old) slot span }
    ensures of { IsPassOf engine.now pass.new }
    ensures sees { SawHeader slot span at expected (view pass.old) result (view pass.new) }
{
    see_header_as::<Brand, Brand>(engine, pass, slot, span, at, expected)
}

fn see_header_as<J: Treed, K: Expected>(
    engine: &Engine,
    pass: &mut Pass,
    slot: u32,
    span: Span,
    at: u32,
    expected: u64,
) -> u64
    requires of { IsPassOf engine.now pass.old }
    requires pass { IsActive (view pass.old).role × (is_trying (view pass.old).seat.stage ≡ false) }
    requires slot { slot < (view pass.old).layout.slots }
    requires word { at ≡ page_at (view pass.old).layout.slots slot 0 }
    requires page { IsTreeAt (view pass.old) slot span }
    requires named { (slot ≡ J.slot) × (span ≡ J.span) × (expected ≡ K.word) }
    ensures of { IsPassOf engine.now pass.new }
    ensures sees { SawHeader slot span at expected (view pass.old) result (view pass.new) }
{
    let _ = expected;
    laws();
    engine
        .table
        .shared
        .load::<SeeingHeader<J, K>>(pass, at as usize)
}
