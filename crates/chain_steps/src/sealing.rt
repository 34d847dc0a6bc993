// The header of a leaf that was split is locked, and opened as it was.
ghost use Rattle.std.specs.Prelude.{◌≡◌, ◌<◌};
ghost use Rattle.engine_pages.specs.Layout.{page_at};
ghost use Rattle.engine_pages.specs.Passes.{view, IsPassOf};
ghost use Rattle.engine_pages.specs.Views.{IsActive};
ghost use Rattle.chain_steps.specs.Seals.{unsealed_at, CanSeal, CanUnseal, HasSealed};

use crate::law::{Placed, Sealing, Unsealing};
use crate::laws::laws;
use engine_pages::{Engine, Pass};
use homes::Span;
use std::marker::Brand;
use tree_heads::HEADER_LOCK;

/// Locks the header of a leaf over these keys that was split, whose word is here, where that is the expected one, which is
/// open. Answers the word that it found.
pub fn seal(engine: &Engine, pass: &mut Pass, slot: u32, span: Span, at: u32, expected: u64) -> u64
    requires of { IsPassOf engine.now pass.old }
    requires pass { IsActive (view pass.old).role }
    requires slot { slot < (view pass.old).layout.slots }
    requires word { at ≡ page_at (view pass.old).layout.slots slot 0 }
    requires seal { CanSeal (view pass.old) slot span expected }
    ensures of { IsPassOf engine.now pass.new }
    ensures seals { HasSealed slot at expected (view pass.old) result (view pass.new) }
{
    seal_as::<Brand>(engine, pass, slot, span, at, expected)
}

fn seal_as<J: Placed>(
    engine: &Engine,
    pass: &mut Pass,
    slot: u32,
    span: Span,
    at: u32,
    expected: u64,
) -> u64
    requires of { IsPassOf engine.now pass.old }
    requires pass { IsActive (view pass.old).role }
    requires slot { slot < (view pass.old).layout.slots }
    requires word { at ≡ page_at (view pass.old).layout.slots slot 0 }
    requires seal { CanSeal (view pass.old) slot span expected }
    requires named { slot ≡ J.slot }
    ensures of { IsPassOf engine.now pass.new }
    ensures seals { HasSealed slot at expected (view pass.old) result (view pass.new) }
{
    let _ = span;
    laws();
    engine
        .table
        .shared
        .compare_exchange::<Sealing<J>>(pass, at as usize, expected, expected + HEADER_LOCK)
}

/// Opens the header of a split leaf over these keys, which the pass has locked, with this word, which it had.
pub fn unseal(engine: &Engine, pass: &mut Pass, slot: u32, span: Span, at: u32, word: u64)
    requires of { IsPassOf engine.now pass.old }
    requires pass { IsActive (view pass.old).role }
    requires slot { slot < (view pass.old).layout.slots }
    requires word { at ≡ page_at (view pass.old).layout.slots slot 0 }
    requires unseal { CanUnseal (view pass.old) slot span word }
    ensures of { IsPassOf engine.now pass.new }
    ensures unseals { view pass.new ≡ unsealed_at slot at word (view pass.old) }
{
    unseal_as::<Brand>(engine, pass, slot, span, at, word);
}

fn unseal_as<J: Placed>(engine: &Engine, pass: &mut Pass, slot: u32, span: Span, at: u32, word: u64)
    requires of { IsPassOf engine.now pass.old }
    requires pass { IsActive (view pass.old).role }
    requires slot { slot < (view pass.old).layout.slots }
    requires word { at ≡ page_at (view pass.old).layout.slots slot 0 }
    requires unseal { CanUnseal (view pass.old) slot span word }
    requires named { slot ≡ J.slot }
    ensures of { IsPassOf engine.now pass.new }
    ensures unseals { view pass.new ≡ unsealed_at slot at word (view pass.old) }
{
    let _ = span;
    laws();
    engine
        .table
        .shared
        .store::<Unsealing<J>>(pass, at as usize, word);
}
