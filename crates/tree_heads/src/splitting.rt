// The split of a full leaf.
ghost use Rattle.std.specs.Prelude.{◌≡◌, ◌<◌};
ghost use Rattle.engine_pages.specs.Layout.{page_at};
ghost use Rattle.engine_pages.specs.Passes.{view, IsPassOf};
ghost use Rattle.engine_pages.specs.Views.{IsActive};
ghost use Rattle.tree_heads.specs.Splits.{CanSplit, HasSplit};

use crate::law::{Halved, SplittingLeaf, Treed};
use crate::laws::laws;
use engine_pages::{Engine, Pass};
use homes::Span;
use std::marker::Brand;

/// The bit of the header of a leaf that was split.
pub const MOVED: u64 = 1 << 62;

/// Splits a full leaf over these keys, whose header's word is here: stores it as this word, moved and open. The pass
/// has locked the header and all records of the leaf, has published both halves that the call picks, and has stored
/// their slots and the separator in the leaf's page. From this step on the leaf leads to its halves, the keys are
/// there, and the leaf's records stay locked for good.
pub fn split_leaf<K: Halved>(
    engine: &Engine,
    pass: &mut Pass,
    slot: u32,
    span: Span,
    at: u32,
    word: u64,
)
    requires of { IsPassOf engine.now pass.old }
    requires pass { IsActive (view pass.old).role }
    requires slot { slot < (view pass.old).layout.slots }
    requires word { at ≡ page_at (view pass.old).layout.slots slot 0 }
    requires can { CanSplit (view pass.old) slot span K.lower K.upper K.keys K.separator word }
    ensures of { IsPassOf engine.now pass.new }
    ensures splits { HasSplit slot span K.lower K.upper K.keys K.separator at word (view pass.old) (view pass.new) }
{
    split_leaf_as::<Brand, K>(engine, pass, slot, span, at, word);
}

fn split_leaf_as<J: Treed, K: Halved>(
    engine: &Engine,
    pass: &mut Pass,
    slot: u32,
    span: Span,
    at: u32,
    word: u64,
)
    requires of { IsPassOf engine.now pass.old }
    requires pass { IsActive (view pass.old).role }
    requires slot { slot < (view pass.old).layout.slots }
    requires word { at ≡ page_at (view pass.old).layout.slots slot 0 }
    requires can { CanSplit (view pass.old) slot span K.lower K.upper K.keys K.separator word }
    requires named { (slot ≡ J.slot) × (span ≡ J.span) }
    ensures of { IsPassOf engine.now pass.new }
    ensures splits { HasSplit slot span K.lower K.upper K.keys K.separator at word (view pass.old) (view pass.new) }
{
    laws();
    engine
        .table
        .shared
        .store::<SplittingLeaf<J, K>>(pass, at as usize, word);
}
