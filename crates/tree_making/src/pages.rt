// Pages of trees that are made from those of a snapshot.
ghost use Rattle.std.specs.Prelude.{◌≡◌, ◌<◌, IfOk, IfErr};
ghost use Rattle.array_pages.specs.Steps.{RefusesGive};
ghost use Rattle.dual_pointer.specs.Installs.{contents_in, keys_in, tree_records};
ghost use Rattle.engine_pages.specs.Passes.{view, IsPassOf};
ghost use Rattle.engine_pages.specs.Views.{IsActive};
ghost use Rattle.engine_pages.specs.declared.view.View.{View};
ghost use Rattle.page_pool.specs.Pool.{HasTaken};
ghost use Rattle.tree_heads.specs.NewPages.{published_leaf, HasLeafDraft};
ghost use Rattle.tree_making.specs.Pages.{CanMakePage, HasPage};

use array_pages::{copy_page, give_slot};
use engine_pages::{Engine, Pass, RefusalCause, load_resident};
use foster_tree::make_leaf;
use homes::Span;
use std::marker::Brand;
use tree_heads::{Leafed, publish_inner, publish_leaf};

/// The kind of page that an interior page's header tells.
const INNER: u64 = 2;

/// A slot is taken, and published as the page of a tree with this number, which stands for these keys, or as an empty
/// leaf for 0.
pub(crate) fn make_page(
    engine: &Engine,
    pass: &mut Pass,
    span: Span,
    number: u64,
) -> Result<u32, RefusalCause>
    requires of { IsPassOf engine.now pass.old }
    requires can { CanMakePage (view pass.old) span number }
    ensures of { IsPassOf engine.now pass.new }
    ensures made { IfOk result (λ slot. HasPage slot span number (view pass.old) (view pass.new)) }
    ensures missed { IfErr result (λ why. RefusesGive why (view pass.old) (view pass.new)) }
{
    if number == 0 {
        return make_leaf(engine, pass, span, &[]);
    }
    let slot = give_slot(engine, pass)?;
    copy_stored(engine, pass, slot, span, number);
    Ok(slot)
}

// The slot that was given just now is published as the page with this number.
fn copy_stored(engine: &Engine, pass: &mut Pass, slot: u32, span: Span, number: u64)
    requires of { IsPassOf engine.now pass.old }
    requires given { (u : View) × CanMakePage u span number × HasTaken slot u (view pass.old) }
    requires some { 0 < number }
    ensures of { IsPassOf engine.now pass.new }
    ensures made { (u : View) → CanMakePage u span number → HasTaken slot u (view pass.old)
        → HasPage slot span number u (view pass.new) }
{
    copy_page(engine, pass, slot, number);
    let page = number as u32;
    let header = load_resident(engine, pass, page, 0);
    if header / 256 == INNER {
        publish_inner(engine, pass, slot, span, page);
        return;
    }
    publish_stored(engine, pass, slot, span, number);
}

// The page of a slot, a copy of the leaf with this number, is published as that.
fn publish_stored(engine: &Engine, pass: &mut Pass, slot: u32, span: Span, number: u64)
    requires of { IsPassOf engine.now pass.old }
    requires active { IsActive (view pass.old).role }
    requires slot { slot < (view pass.old).layout.slots }
    requires draft { HasLeafDraft (view pass.old) slot span
        (keys_in span (tree_records (view pass.old).pages number))
        (contents_in (tree_records (view pass.old).pages number)) }
    ensures of { IsPassOf engine.now pass.new }
    ensures publishes { view pass.new ≡ published_leaf slot span
        (keys_in span (tree_records (view pass.old).pages number))
        (contents_in (tree_records (view pass.old).pages number)) (view pass.old) }
{
    publish_stored_as::<Brand>(engine, pass, slot, span, number);
}

fn publish_stored_as<K: Leafed>(
    engine: &Engine,
    pass: &mut Pass,
    slot: u32,
    span: Span,
    number: u64,
)
    requires of { IsPassOf engine.now pass.old }
    requires active { IsActive (view pass.old).role }
    requires slot { slot < (view pass.old).layout.slots }
    requires draft { HasLeafDraft (view pass.old) slot span
        (keys_in span (tree_records (view pass.old).pages number))
        (contents_in (tree_records (view pass.old).pages number)) }
    requires named { (keys_in span (tree_records (view pass.old).pages number) ≡ K.keys)
        × (contents_in (tree_records (view pass.old).pages number) ≡ K.contents) }
    ensures of { IsPassOf engine.now pass.new }
    ensures publishes { view pass.new ≡ published_leaf slot span
        (keys_in span (tree_records (view pass.old).pages number))
        (contents_in (tree_records (view pass.old).pages number)) (view pass.old) }
{
    let _ = number;
    publish_leaf::<K>(engine, pass, slot, span);
}
