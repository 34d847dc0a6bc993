// Pointers are shut and opened.
ghost use Rattle.std.specs.Prelude.{◌≡◌, ◌<◌};
ghost use Rattle.engine_pages.specs.Layout.{words_of};
ghost use Rattle.engine_pages.specs.Passes.{view, IsPassOf};
ghost use Rattle.pointer_swings.specs.Shuts.{reopened, CanReopen, CanShut, HasShut};

use crate::law::{Placed, Reopening, Shutting};
use crate::laws::laws;
use dual_pointer::SHUT;
use engine_pages::{Engine, Pass};
use homes::{At, Span};
use std::marker::Brand;

/// Shuts the pointer that stands at this place over these keys, and whose word is here, where that is the expected one,
/// which is that of an open pointer: nobody puts a page in there until it is opened again. Answers the word that it
/// found.
pub fn shut(engine: &Engine, pass: &mut Pass, place: At, span: Span, at: u32, expected: u64) -> u64
    requires of { IsPassOf engine.now pass.old }
    requires shut { CanShut (view pass.old) place span at expected }
    requires word { at < words_of (view pass.old).layout }
    ensures of { IsPassOf engine.now pass.new }
    ensures shuts { HasShut place at expected (view pass.old) result (view pass.new) }
{
    shut_as::<Brand>(engine, pass, place, span, at, expected)
}

fn shut_as<J: Placed>(
    engine: &Engine,
    pass: &mut Pass,
    place: At,
    span: Span,
    at: u32,
    expected: u64,
) -> u64
    requires of { IsPassOf engine.now pass.old }
    requires shut { CanShut (view pass.old) place span at expected }
    requires word { at < words_of (view pass.old).layout }
    requires named { place ≡ J.at }
    ensures of { IsPassOf engine.now pass.new }
    ensures shuts { HasShut place at expected (view pass.old) result (view pass.new) }
{
    laws();
    engine
        .table
        .shared
        .compare_exchange::<Shutting<J>>(pass, at as usize, expected, expected + SHUT)
}

/// Opens a pointer that the pass has shut, with the word that it had.
pub fn reopen(engine: &Engine, pass: &mut Pass, place: At, span: Span, at: u32, word: u64)
    requires of { IsPassOf engine.now pass.old }
    requires reopen { CanReopen (view pass.old) place span at word }
    requires word { at < words_of (view pass.old).layout }
    ensures of { IsPassOf engine.now pass.new }
    ensures reopens { view pass.new ≡ reopened place at word (view pass.old) }
{
    reopen_as::<Brand>(engine, pass, place, span, at, word);
}

fn reopen_as<J: Placed>(engine: &Engine, pass: &mut Pass, place: At, span: Span, at: u32, word: u64)
    requires of { IsPassOf engine.now pass.old }
    requires reopen { CanReopen (view pass.old) place span at word }
    requires word { at < words_of (view pass.old).layout }
    requires named { place ≡ J.at }
    ensures of { IsPassOf engine.now pass.new }
    ensures reopens { view pass.new ≡ reopened place at word (view pass.old) }
{
    laws();
    engine
        .table
        .shared
        .store::<Reopening<J>>(pass, at as usize, word);
}
