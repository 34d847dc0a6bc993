// Slots that are published as pages of trees.
ghost use Rattle.std.specs.Prelude.{◌≡◌, ◌<◌};
ghost use Rattle.engine_pages.specs.Passes.{view, IsPassOf};
ghost use Rattle.engine_pages.specs.Views.{IsActive};
ghost use Rattle.tree_heads.specs.NewPages.{HasInnerDraft, HasLeafDraft, published_inner, published_leaf};

use crate::law::{Leafed, Paged, PublishingInner, PublishingLeaf, Treed};
use crate::laws::laws;
use engine_pages::{Engine, Pass};
use homes::Span;
use std::marker::Brand;

/// What publishing adds to a slot's word: the next state.
const PUBLISHED: u64 = 1 << 16;

/// Publishes an owned slot, filled as a leaf of a tree over these keys, with the records that the call picks.
pub fn publish_leaf<K: Leafed>(engine: &Engine, pass: &mut Pass, slot: u32, span: Span)
    requires of { IsPassOf engine.now pass.old }
    requires pass { IsActive (view pass.old).role }
    requires slot { slot < (view pass.old).layout.slots }
    requires draft { HasLeafDraft (view pass.old) slot span K.keys K.contents }
    ensures of { IsPassOf engine.now pass.new }
    ensures publishes { view pass.new ≡ published_leaf slot span K.keys K.contents (view pass.old) }
{
    publish_leaf_as::<Brand, K>(engine, pass, slot, span);
}

fn publish_leaf_as<J: Treed, K: Leafed>(engine: &Engine, pass: &mut Pass, slot: u32, span: Span)
    requires of { IsPassOf engine.now pass.old }
    requires pass { IsActive (view pass.old).role }
    requires slot { slot < (view pass.old).layout.slots }
    requires draft { HasLeafDraft (view pass.old) slot span K.keys K.contents }
    requires named { (slot ≡ J.slot) × (span ≡ J.span) }
    ensures of { IsPassOf engine.now pass.new }
    ensures publishes { view pass.new ≡ published_leaf slot span K.keys K.contents (view pass.old) }
{
    laws();
    engine
        .table
        .shared
        .fetch_add::<PublishingLeaf<J, K>>(pass, 32 + slot as usize, PUBLISHED);
}

/// Publishes an owned slot, filled as a copy of the interior page with this number, which stands for these keys of a
/// tree.
pub fn publish_inner(engine: &Engine, pass: &mut Pass, slot: u32, span: Span, page: u32)
    requires of { IsPassOf engine.now pass.old }
    requires pass { IsActive (view pass.old).role }
    requires slot { slot < (view pass.old).layout.slots }
    requires draft { HasInnerDraft (view pass.old) slot span page }
    ensures of { IsPassOf engine.now pass.new }
    ensures publishes { view pass.new ≡ published_inner slot span page (view pass.old) }
{
    publish_inner_as::<Brand, Brand>(engine, pass, slot, span, page);
}

fn publish_inner_as<J: Treed, K: Paged>(
    engine: &Engine,
    pass: &mut Pass,
    slot: u32,
    span: Span,
    page: u32,
)
    requires of { IsPassOf engine.now pass.old }
    requires pass { IsActive (view pass.old).role }
    requires slot { slot < (view pass.old).layout.slots }
    requires draft { HasInnerDraft (view pass.old) slot span page }
    requires named { (slot ≡ J.slot) × (span ≡ J.span) × (page ≡ K.page) }
    ensures of { IsPassOf engine.now pass.new }
    ensures publishes { view pass.new ≡ published_inner slot span page (view pass.old) }
{
    laws();
    engine
        .table
        .shared
        .fetch_add::<PublishingInner<J, K>>(pass, 32 + slot as usize, PUBLISHED);
}
