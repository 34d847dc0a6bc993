// Loads of snapshot pages.
ghost use Rattle.std.specs.Prelude.{◌≡◌, ◌<◌, ◌≤◌, length};
ghost use Rattle.engine_pages.specs.Loads.{HasLoaded};
ghost use Rattle.engine_pages.specs.Passes.{view, IsPassOf};
ghost use Rattle.engine_pages.specs.Views.{IsActive};

use crate::engine::{Engine, Pass};
use crate::law::{LoadingResident, Stored};
use crate::laws::laws;
use std::marker::Brand;

/// Loads a word of a snapshot page, by its number, that the pass knows to be published: it never changes.
pub fn load_resident(engine: &Engine, pass: &mut Pass, page: u32, index: u32) -> u64
    requires of { IsPassOf engine.now pass.old }
    requires pass { IsActive (view pass.old).role }
    requires some { 0 < page }
    requires known { page ≤ length (view pass.old).pages }
    requires room { page ≤ (view pass.old).layout.resident }
    requires index { index < 64 }
    ensures of { IsPassOf engine.now pass.new }
    ensures loads { HasLoaded page index (view pass.old) result (view pass.new) }
{
    load_resident_as::<Brand>(engine, pass, page, index)
}

fn load_resident_as<J: Stored>(engine: &Engine, pass: &mut Pass, page: u32, index: u32) -> u64
    requires of { IsPassOf engine.now pass.old }
    requires pass { IsActive (view pass.old).role }
    requires some { 0 < page }
    requires known { page ≤ length (view pass.old).pages }
    requires room { page ≤ (view pass.old).layout.resident }
    requires index { index < 64 }
    requires named { (page ≡ J.page) × (index ≡ J.index) }
    ensures of { IsPassOf engine.now pass.new }
    ensures loads { HasLoaded page index (view pass.old) result (view pass.new) }
{
    laws();
    let begin = 32 + 65 * engine.slots as usize;
    let at = begin + 64 * (page - 1) as usize + index as usize;
    engine.table.shared.load::<LoadingResident<J>>(pass, at)
}
