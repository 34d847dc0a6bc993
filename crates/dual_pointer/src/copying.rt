// Copies of interior pages.
ghost use Rattle.std.specs.Prelude.{◌≡◌, ◌<◌};
ghost use Rattle.dual_pointer.specs.Copies.{HasPointersDraft};
ghost use Rattle.engine_pages.specs.Passes.{view, IsPassOf};
ghost use Rattle.engine_pages.specs.Slots.{published_copy};
ghost use Rattle.engine_pages.specs.Views.{IsActive};

use crate::law::{Filled, PublishingPointers};
use crate::laws::laws;
use engine_pages::{Engine, Pass};
use homes::Span;
use std::marker::Brand;

/// What publishing adds to a slot's word: the next state.
const PUBLISHED: u64 = 1 << 16;

/// Publishes an owned slot, filled as a copy of an interior page.
pub fn publish_pointers(engine: &Engine, pass: &mut Pass, slot: u32, span: Span, page: u32)
    requires of { IsPassOf engine.now pass.old }
    requires pass { IsActive (view pass.old).role }
    requires slot { slot < (view pass.old).layout.slots }
    requires draft { HasPointersDraft (view pass.old) slot span page }
    ensures of { IsPassOf engine.now pass.new }
    ensures publishes { view pass.new ≡ published_copy slot span page (view pass.old) }
{
    publish_pointers_as::<Brand>(engine, pass, slot, span, page);
}

fn publish_pointers_as<J: Filled>(
    engine: &Engine,
    pass: &mut Pass,
    slot: u32,
    span: Span,
    page: u32,
)
    requires of { IsPassOf engine.now pass.old }
    requires pass { IsActive (view pass.old).role }
    requires slot { slot < (view pass.old).layout.slots }
    requires draft { HasPointersDraft (view pass.old) slot span page }
    requires named { (slot ≡ J.slot) × (span ≡ J.span) × (page ≡ J.page) }
    ensures of { IsPassOf engine.now pass.new }
    ensures publishes { view pass.new ≡ published_copy slot span page (view pass.old) }
{
    laws();
    engine
        .table
        .shared
        .fetch_add::<PublishingPointers<J>>(pass, 32 + slot as usize, PUBLISHED);
}
