// Loads of pointers.
ghost use Rattle.std.specs.Prelude.{◌≡◌, ◌<◌};
ghost use Rattle.engine_pages.specs.Layout.{words_of};
ghost use Rattle.engine_pages.specs.Passes.{view, IsPassOf};
ghost use Rattle.engine_pages.specs.Pointers.{HasFollowed, IsPointerAt};
ghost use Rattle.engine_pages.specs.Views.{IsActive};

use crate::engine::{Engine, Pass};
use crate::law::{Following, Pointed};
use crate::laws::laws;
use homes::{At, Span};
use std::marker::Brand;

/// Loads the pointer that stands at this place over these keys, and whose word is here. Where it leads to a slot that
/// the pass holds, that slot's page is over these keys for as long as it is held.
pub fn follow(engine: &Engine, pass: &mut Pass, place: At, span: Span, at: u32) -> u64
    requires of { IsPassOf engine.now pass.old }
    requires pass { IsActive (view pass.old).role }
    requires place { IsPointerAt (view pass.old) place span at }
    requires word { at < words_of (view pass.old).layout }
    ensures of { IsPassOf engine.now pass.new }
    ensures follows { HasFollowed span at (view pass.old) result (view pass.new) }
{
    follow_as::<Brand>(engine, pass, place, span, at)
}

fn follow_as<J: Pointed>(engine: &Engine, pass: &mut Pass, place: At, span: Span, at: u32) -> u64
    requires of { IsPassOf engine.now pass.old }
    requires pass { IsActive (view pass.old).role }
    requires place { IsPointerAt (view pass.old) place span at }
    requires word { at < words_of (view pass.old).layout }
    requires named { (place ≡ J.at) × (span ≡ J.span) }
    ensures of { IsPassOf engine.now pass.new }
    ensures follows { HasFollowed span at (view pass.old) result (view pass.new) }
{
    laws();
    engine.table.shared.load::<Following<J>>(pass, at as usize)
}
