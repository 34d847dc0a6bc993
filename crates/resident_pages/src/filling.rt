// Fills of snapshot pages that are not published.
ghost use Rattle.std.specs.Prelude.{◌≡◌, ◌<◌, ◌≤◌};
ghost use Rattle.engine_pages.specs.declared.view.Role.TheVariants.{Keeper};
ghost use Rattle.engine_pages.specs.Layout.{snap_at};
ghost use Rattle.engine_pages.specs.Passes.{view, IsPassOf};
ghost use Rattle.resident_pages.specs.Fills.{HasClaimed, HasFilledPage, HasLooked, HasPage};

use crate::law::{Claiming, FillingPage, Numbered, Stored};
use crate::laws::laws;
use engine_pages::{Engine, Pass};
use std::marker::Brand;

pub(crate) const PUBLISHED: usize = 26;

/// Loads how many snapshot pages are published. Where this page is above them, it is the keeper's to fill.
pub fn claim_page(engine: &Engine, pass: &mut Pass, page: u32) -> u64
    requires of { IsPassOf engine.now pass.old }
    requires keeper { (view pass.old).role ≡ Keeper }
    requires room { page ≤ (view pass.old).layout.resident }
    ensures of { IsPassOf engine.now pass.new }
    ensures claims { HasClaimed page (view pass.old) result (view pass.new) }
{
    claim_page_as::<Brand>(engine, pass, page)
}

fn claim_page_as<J: Numbered>(engine: &Engine, pass: &mut Pass, page: u32) -> u64
    requires of { IsPassOf engine.now pass.old }
    requires keeper { (view pass.old).role ≡ Keeper }
    requires room { page ≤ (view pass.old).layout.resident }
    requires named { page ≡ J.page }
    ensures of { IsPassOf engine.now pass.new }
    ensures claims { HasClaimed page (view pass.old) result (view pass.new) }
{
    laws();
    engine.table.shared.load::<Claiming<J>>(pass, PUBLISHED)
}

/// Stores a word of a snapshot page that is the keeper's to fill.
pub fn fill_page(engine: &Engine, pass: &mut Pass, page: u32, index: u32, at: u32, value: u64)
    requires of { IsPassOf engine.now pass.old }
    requires keeper { (view pass.old).role ≡ Keeper }
    requires some { 0 < page }
    requires room { page ≤ (view pass.old).layout.resident }
    requires index { index < 64 }
    requires word { at ≡ snap_at (view pass.old).layout.slots page index }
    requires claimed { HasPage (view pass.old) page }
    ensures of { IsPassOf engine.now pass.new }
    ensures fills { HasFilledPage page index value (view pass.old) (view pass.new) }
{
    fill_page_as::<Brand>(engine, pass, page, index, at, value);
}

fn fill_page_as<J: Stored>(
    engine: &Engine,
    pass: &mut Pass,
    page: u32,
    index: u32,
    at: u32,
    value: u64,
)
    requires of { IsPassOf engine.now pass.old }
    requires keeper { (view pass.old).role ≡ Keeper }
    requires some { 0 < page }
    requires room { page ≤ (view pass.old).layout.resident }
    requires index { index < 64 }
    requires word { at ≡ snap_at (view pass.old).layout.slots page index }
    requires claimed { HasPage (view pass.old) page }
    requires named { (page ≡ J.page) × ((index ≡ J.index) × (value ≡ J.value)) }
    ensures of { IsPassOf engine.now pass.new }
    ensures fills { HasFilledPage page index value (view pass.old) (view pass.new) }
{
    laws();
    engine
        .table
        .shared
        .store::<FillingPage<J>>(pass, at as usize, value);
}

/// Loads how many snapshot pages are published: all that the pass knows, and none that is its own to fill.
pub fn look_at_pages(engine: &Engine, pass: &mut Pass) -> u64
    requires of { IsPassOf engine.now pass.old }
    requires keeper { (view pass.old).role ≡ Keeper }
    ensures of { IsPassOf engine.now pass.new }
    ensures looks { HasLooked (view pass.old) result (view pass.new) }
{
    // No page has this number, so none is claimed.
    claim_page(engine, pass, 0)
}
