// Checks of headers.
ghost use Rattle.std.specs.Prelude.{◌≡◌, ◌<◌};
ghost use Rattle.homes.specs.declared.places.Span.{Span};
ghost use Rattle.engine_pages.specs.Layout.{page_at};
ghost use Rattle.engine_pages.specs.Passes.{view, IsPassOf};
ghost use Rattle.engine_pages.specs.Views.{IsActive};
ghost use Rattle.tree_heads.specs.Checks.{CanCheckHeader, CheckedHeader};

use crate::law::{CheckingHeader, Compared};
use crate::laws::laws;
use engine_pages::{Engine, Pass};
use std::marker::Brand;

/// Loads the header that stands here again, which was this word as it was kept: the part is checked where it still is,
/// and else the attempt failed. Answers the word that it found.
pub fn check_header(engine: &Engine, pass: &mut Pass, slot: u32, at: u32, word: u64) -> u64
    requires of { IsPassOf engine.now pass.old }
    requires pass { IsActive (view pass.old).role }
    requires slot { slot < (view pass.old).layout.slots }
    requires word { at ≡ page_at (view pass.old).layout.slots slot 0 }
    requires can { (span : Span) × CanCheckHeader (view pass.old) slot span word }
    ensures of { IsPassOf engine.now pass.new }
    ensures checks { CheckedHeader slot at word (view pass.old) result (view pass.new) }
{
    check_header_as::<Brand>(engine, pass, slot, at, word)
}

fn check_header_as<J: Compared>(
    engine: &Engine,
    pass: &mut Pass,
    slot: u32,
    at: u32,
    word: u64,
) -> u64
    requires of { IsPassOf engine.now pass.old }
    requires pass { IsActive (view pass.old).role }
    requires slot { slot < (view pass.old).layout.slots }
    requires word { at ≡ page_at (view pass.old).layout.slots slot 0 }
    requires can { (span : Span) × CanCheckHeader (view pass.old) slot span word }
    requires named { (slot ≡ J.slot) × (word ≡ J.word) }
    ensures of { IsPassOf engine.now pass.new }
    ensures checks { CheckedHeader slot at word (view pass.old) result (view pass.new) }
{
    laws();
    engine
        .table
        .shared
        .load::<CheckingHeader<J>>(pass, at as usize)
}
