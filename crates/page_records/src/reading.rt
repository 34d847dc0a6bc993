// The loads of a read.
ghost use Rattle.std.specs.Prelude.{◌≡◌, ◌+◌, false};
ghost use Rattle.commit_core.specs.CoreState.{is_trying};
ghost use Rattle.engine_pages.specs.Passes.{view, IsPassOf};
ghost use Rattle.engine_pages.specs.Views.{IsActive};
ghost use Rattle.page_records.specs.Reads.{valued, Confirmed, LoadedWord, Saw};
ghost use Rattle.engine_pages.specs.Records.{IsAnyRecordAt, IsRecordAt};

use crate::law::{Confirming, Loading, LoadingWord, Placed, Seeing};
use crate::laws::laws;
use engine_pages::{Engine, Pass};
use homes::Spot;
use serial_model::Key;
use std::marker::Brand;

/// Loads the record word of a key, which stands here, and keeps it as read where it is unlocked: what stands at the key
/// is then the last decided write, of all that was drawn and decided up to this step.
pub fn see(engine: &Engine, pass: &mut Pass, key: Key, spot: Spot, at: u32) -> u64
    requires of { IsPassOf engine.now pass.old }
    requires pass { IsActive (view pass.old).role × (is_trying (view pass.old).seat.stage ≡ false) }
    requires place { IsRecordAt (view pass.old) key spot at }
    ensures of { IsPassOf engine.now pass.new }
    ensures sees { Saw key spot at (view pass.old) result (view pass.new) }
{
    see_as::<Brand>(engine, pass, key, spot, at)
}

fn see_as<J: Placed>(engine: &Engine, pass: &mut Pass, key: Key, spot: Spot, at: u32) -> u64
    requires of { IsPassOf engine.now pass.old }
    requires pass { IsActive (view pass.old).role × (is_trying (view pass.old).seat.stage ≡ false) }
    requires place { IsRecordAt (view pass.old) key spot at }
    requires named { (key ≡ J.key) × (spot ≡ J.spot) }
    ensures of { IsPassOf engine.now pass.new }
    ensures sees { Saw key spot at (view pass.old) result (view pass.new) }
{
    laws();
    engine.table.shared.load::<Seeing<J>>(pass, at as usize)
}

/// Loads the record word of a key, of an array or of a tree, which stands here, and keeps nothing of it.
pub fn load_word(engine: &Engine, pass: &mut Pass, key: Key, spot: Spot, at: u32) -> u64
    requires of { IsPassOf engine.now pass.old }
    requires pass { IsActive (view pass.old).role }
    requires place { IsAnyRecordAt (view pass.old) key spot at }
    ensures of { IsPassOf engine.now pass.new }
    ensures loads { LoadedWord spot.slot at (view pass.old) result (view pass.new) }
{
    load_word_as::<Brand, Spot>(engine, pass, key, spot, at)
}

/// The same at the place that the call picks, maybe by a value, which is not read.
pub fn load_word_as<J: Placed, S: Copy>(
    engine: &Engine,
    pass: &mut Pass,
    key: Key,
    _place: S,
    at: u32,
) -> u64
    requires of { IsPassOf engine.now pass.old }
    requires pass { IsActive (view pass.old).role }
    requires place { IsAnyRecordAt (view pass.old) key J.spot at }
    requires named { key ≡ J.key }
    ensures of { IsPassOf engine.now pass.new }
    ensures loads { LoadedWord J.spot.slot at (view pass.old) result (view pass.new) }
{
    let _ = key;
    laws();
    engine
        .table
        .shared
        .load::<LoadingWord<J>>(pass, at as usize)
}

/// Loads the value of a key, whose record's word stands here. Whether it belongs to what was seen of the record,
/// `confirm` tells.
pub fn load_value(engine: &Engine, pass: &mut Pass, key: Key, spot: Spot, at: u32) -> u64
    requires of { IsPassOf engine.now pass.old }
    requires pass { IsActive (view pass.old).role }
    requires place { IsRecordAt (view pass.old) key spot at }
    ensures of { IsPassOf engine.now pass.new }
    ensures loads { view pass.new ≡ valued key spot (at + 1) result (view pass.old) }
{
    load_value_as::<Brand>(engine, pass, key, spot, at)
}

fn load_value_as<J: Placed>(engine: &Engine, pass: &mut Pass, key: Key, spot: Spot, at: u32) -> u64
    requires of { IsPassOf engine.now pass.old }
    requires pass { IsActive (view pass.old).role }
    requires place { IsRecordAt (view pass.old) key spot at }
    requires named { (key ≡ J.key) × (spot ≡ J.spot) }
    ensures of { IsPassOf engine.now pass.new }
    ensures loads { view pass.new ≡ valued key spot (at + 1) result (view pass.old) }
{
    laws();
    engine
        .table
        .shared
        .load::<Loading<J>>(pass, at as usize + 1)
}

/// Loads the record's word of a key again: where it is still the one that was seen, the value that was loaded in
/// between is the one which stood there then.
pub fn confirm(engine: &Engine, pass: &mut Pass, key: Key, spot: Spot, at: u32) -> u64
    requires of { IsPassOf engine.now pass.old }
    requires pass { IsActive (view pass.old).role }
    requires place { IsRecordAt (view pass.old) key spot at }
    ensures of { IsPassOf engine.now pass.new }
    ensures confirms { Confirmed key spot at (view pass.old) result (view pass.new) }
{
    confirm_as::<Brand>(engine, pass, key, spot, at)
}

fn confirm_as<J: Placed>(engine: &Engine, pass: &mut Pass, key: Key, spot: Spot, at: u32) -> u64
    requires of { IsPassOf engine.now pass.old }
    requires pass { IsActive (view pass.old).role }
    requires place { IsRecordAt (view pass.old) key spot at }
    requires named { (key ≡ J.key) × (spot ≡ J.spot) }
    ensures of { IsPassOf engine.now pass.new }
    ensures confirms { Confirmed key spot at (view pass.old) result (view pass.new) }
{
    laws();
    engine.table.shared.load::<Confirming<J>>(pass, at as usize)
}
