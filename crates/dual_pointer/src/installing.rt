// Installs of copies.
ghost use Rattle.std.specs.Prelude.{◌≡◌, ◌<◌};
ghost use Rattle.dual_pointer.specs.Installs.{CanInstall, Installed};
ghost use Rattle.engine_pages.specs.Layout.{words_of};
ghost use Rattle.engine_pages.specs.Passes.{view, IsPassOf};
ghost use Rattle.engine_pages.specs.Views.{IsActive};

use crate::law::{Installing, Led};
use crate::laws::laws;
use crate::pointer_word::SLOT;
use engine_pages::{Engine, Pass};
use homes::{At, Span};
use std::marker::Brand;

/// Leads the pointer that stands at this place over these keys, and whose word is here, to the slot, which the pass
/// holds, where its word is the expected one: it leads to no slot, is open, and names the page that the slot has a copy
/// of. Answers the word that it found.
pub fn install(
    engine: &Engine,
    pass: &mut Pass,
    place: At,
    span: Span,
    at: u32,
    slot: u32,
    expected: u64,
) -> u64
    requires of { IsPassOf engine.now pass.old }
    requires pass { IsActive (view pass.old).role }
    requires slot { slot < 4096 }
    requires install { CanInstall (view pass.old) place span at slot expected }
    requires word { at < words_of (view pass.old).layout }
    ensures of { IsPassOf engine.now pass.new }
    ensures installs { Installed slot at span expected (view pass.old) result (view pass.new) }
{
    install_as::<Brand>(engine, pass, place, span, at, slot, expected)
}

fn install_as<J: Led>(
    engine: &Engine,
    pass: &mut Pass,
    place: At,
    span: Span,
    at: u32,
    slot: u32,
    expected: u64,
) -> u64
    requires of { IsPassOf engine.now pass.old }
    requires pass { IsActive (view pass.old).role }
    requires slot { slot < 4096 }
    requires install { CanInstall (view pass.old) place span at slot expected }
    requires word { at < words_of (view pass.old).layout }
    requires named { (place ≡ J.at) × ((span ≡ J.span) × (slot ≡ J.slot)) }
    ensures of { IsPassOf engine.now pass.new }
    ensures installs { Installed slot at span expected (view pass.old) result (view pass.new) }
{
    laws();
    engine.table.shared.compare_exchange::<Installing<J>>(
        pass,
        at as usize,
        expected,
        expected + (u64::from(slot) + 1) * SLOT,
    )
}
