// Loads of values under own locks.
ghost use Rattle.std.specs.Prelude.{◌≡◌, ◌+◌};
ghost use Rattle.engine_pages.specs.Passes.{view, IsPassOf};
ghost use Rattle.engine_pages.specs.Records.{IsTreeRecordAt};
ghost use Rattle.engine_pages.specs.Views.{IsActive};
ghost use Rattle.tree_records.specs.Held.{CanLoadHeld, LoadedHeld};

use crate::law::{LoadingHeld, Locked};
use crate::laws::laws;
use engine_pages::{Engine, Pass};
use homes::Spot;
use serial_model::Key;
use std::marker::Brand;

/// Loads the value of a tree's key under the own lock of its record, which found this word, of a record with a value: the
/// value stands at the key, with the number of that word.
pub fn load_held(engine: &Engine, pass: &mut Pass, key: Key, spot: Spot, at: u32, found: u64) -> u64
    requires of { IsPassOf engine.now pass.old }
    requires pass { IsActive (view pass.old).role }
    requires place { IsTreeRecordAt (view pass.old) key spot at }
    requires held { CanLoadHeld (view pass.old) key spot found }
    ensures of { IsPassOf engine.now pass.new }
    ensures loads { LoadedHeld key (at + 1) found (view pass.old) result (view pass.new) }
{
    load_held_as::<Brand>(engine, pass, key, spot, at, found)
}

fn load_held_as<J: Locked>(
    engine: &Engine,
    pass: &mut Pass,
    key: Key,
    spot: Spot,
    at: u32,
    found: u64,
) -> u64
    requires of { IsPassOf engine.now pass.old }
    requires pass { IsActive (view pass.old).role }
    requires place { IsTreeRecordAt (view pass.old) key spot at }
    requires held { CanLoadHeld (view pass.old) key spot found }
    requires named { (key ≡ J.key) × (found ≡ J.found) }
    ensures of { IsPassOf engine.now pass.new }
    ensures loads { LoadedHeld key (at + 1) found (view pass.old) result (view pass.new) }
{
    let _ = spot;
    laws();
    engine
        .table
        .shared
        .load::<LoadingHeld<J>>(pass, at as usize + 1)
}
