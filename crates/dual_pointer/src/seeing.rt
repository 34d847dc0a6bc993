// Loads that keep a pointer as a part.
ghost use Rattle.std.specs.Prelude.{◌≡◌, ◌<◌, false};
ghost use Rattle.commit_core.specs.CoreState.{is_trying};
ghost use Rattle.dual_pointer.specs.Parts.{SawPointer};
ghost use Rattle.engine_pages.specs.Layout.{words_of};
ghost use Rattle.engine_pages.specs.Passes.{view, IsPassOf};
ghost use Rattle.engine_pages.specs.Pointers.{IsPointerAt};
ghost use Rattle.engine_pages.specs.Views.{IsActive};

use crate::law::{Placed, Seeing};
use crate::laws::laws;
use engine_pages::{Engine, Pass};
use homes::{At, Span};
use std::marker::Brand;

/// Loads the pointer that stands at this place over these keys, and whose word is here. Where it is open and leads to no
/// slot, it is kept as a part, which vouches for all its keys; else it is followed.
pub fn see_pointer(engine: &Engine, pass: &mut Pass, place: At, span: Span, at: u32) -> u64
    requires of { IsPassOf engine.now pass.old }
    requires pass { IsActive (view pass.old).role × (is_trying (view pass.old).seat.stage ≡ false) }
    requires place { IsPointerAt (view pass.old) place span at }
    requires word { at < words_of (view pass.old).layout }
    ensures of { IsPassOf engine.now pass.new }
    ensures sees { SawPointer place span at (view pass.old) result (view pass.new) }
{
    see_pointer_as::<Brand>(engine, pass, place, span, at)
}

fn see_pointer_as<J: Placed>(
    engine: &Engine,
    pass: &mut Pass,
    place: At,
    span: Span,
    at: u32,
) -> u64
    requires of { IsPassOf engine.now pass.old }
    requires pass { IsActive (view pass.old).role × (is_trying (view pass.old).seat.stage ≡ false) }
    requires place { IsPointerAt (view pass.old) place span at }
    requires word { at < words_of (view pass.old).layout }
    requires named { (place ≡ J.at) × (span ≡ J.span) }
    ensures of { IsPassOf engine.now pass.new }
    ensures sees { SawPointer place span at (view pass.old) result (view pass.new) }
{
    laws();
    engine.table.shared.load::<Seeing<J>>(pass, at as usize)
}
