// Pointers that lead to slots name newer snapshot pages.
ghost use Rattle.std.specs.Prelude.{◌≡◌, ◌<◌};
ghost use Rattle.engine_pages.specs.Layout.{words_of};
ghost use Rattle.engine_pages.specs.Passes.{view, IsPassOf};
ghost use Rattle.pointer_swings.specs.Renewals.{CanRenew, HasRenewed};

use crate::law::{Renewing, Targeted};
use crate::laws::laws;
use dual_pointer::SLOT;
use engine_pages::{Engine, Pass};
use homes::{At, Span};
use std::marker::Brand;

/// Lets the pointer that stands at this place over these keys, and whose word is here, name this snapshot page, where
/// its word is the expected one, which leads to a slot: it does so still. Answers the word that it found.
pub fn renew(
    engine: &Engine,
    pass: &mut Pass,
    place: At,
    span: Span,
    at: u32,
    page: u32,
    expected: u64,
) -> u64
    requires of { IsPassOf engine.now pass.old }
    requires renew { CanRenew (view pass.old) place span at page expected }
    requires word { at < words_of (view pass.old).layout }
    ensures of { IsPassOf engine.now pass.new }
    ensures renews { HasRenewed at page expected (view pass.old) result (view pass.new) }
{
    renew_as::<Brand>(engine, pass, place, span, at, page, expected)
}

fn renew_as<J: Targeted>(
    engine: &Engine,
    pass: &mut Pass,
    place: At,
    span: Span,
    at: u32,
    page: u32,
    expected: u64,
) -> u64
    requires of { IsPassOf engine.now pass.old }
    requires renew { CanRenew (view pass.old) place span at page expected }
    requires word { at < words_of (view pass.old).layout }
    requires named { page ≡ J.page }
    ensures of { IsPassOf engine.now pass.new }
    ensures renews { HasRenewed at page expected (view pass.old) result (view pass.new) }
{
    laws();
    engine.table.shared.compare_exchange::<Renewing<J>>(
        pass,
        at as usize,
        expected,
        expected / SLOT * SLOT + u64::from(page),
    )
}
