// Checks of pointers.
ghost use Rattle.std.specs.Prelude.{◌≡◌, ◌<◌};
ghost use Rattle.homes.specs.declared.places.Span.{Span};
ghost use Rattle.engine_pages.specs.Layout.{words_of};
ghost use Rattle.engine_pages.specs.Passes.{view, IsPassOf};
ghost use Rattle.engine_pages.specs.Views.{IsActive};
ghost use Rattle.pointer_checks.specs.Checks.{CanCheckPointer, CheckedPointer};

use crate::law::{CheckingPointer, Compared};
use crate::laws::laws;
use engine_pages::{Engine, Pass};

/// Loads the pointer again whose word stands here, and which was this word as it was seen: the part is checked where it
/// still is, and else the attempt failed. Answers the word that it found. The pointer's place is told for the proof alone.
pub fn check_pointer<J: Compared>(engine: &Engine, pass: &mut Pass, at: u32, word: u64) -> u64
    requires of { IsPassOf engine.now pass.old }
    requires pass { IsActive (view pass.old).role }
    requires can { (span : Span) × CanCheckPointer (view pass.old) J.at span at word }
    requires word { at < words_of (view pass.old).layout }
    requires named { word ≡ J.word }
    ensures of { IsPassOf engine.now pass.new }
    ensures checks { CheckedPointer J.at at word (view pass.old) result (view pass.new) }
{
    laws();
    engine
        .table
        .shared
        .load::<CheckingPointer<J>>(pass, at as usize)
}
