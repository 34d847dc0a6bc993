// Locks of records, and what is put under them.
ghost use Rattle.std.specs.Prelude.{◌≡◌, ◌+◌, true};
ghost use Rattle.commit_core.specs.CoreState.{can_begin};
ghost use Rattle.engine_pages.specs.Passes.{view, IsPassOf};
ghost use Rattle.engine_pages.specs.Views.{IsActive};
ghost use Rattle.page_records.specs.Locks.{IsOpenWord, Locked, opened, put_at, CanOpenAgain};
ghost use Rattle.page_records.specs.Locks.{CanOpenAnew, CanPut};
ghost use Rattle.engine_pages.specs.Records.{IsAnyRecordAt};

use crate::law::{Locking, Opening, Placed, Putting};
use crate::laws::laws;
use engine_pages::{Engine, Pass};
use homes::Spot;
use serial_model::Key;
use std::marker::Brand;

/// The lock bit of a record's word.
pub const LOCK: u64 = 1 << 60;

/// Locks the record of a key, whose word stands here, where that is the expected one. Answers the word that it found.
pub fn lock(engine: &Engine, pass: &mut Pass, key: Key, spot: Spot, at: u32, expected: u64) -> u64
    requires of { IsPassOf engine.now pass.old }
    requires pass { IsActive (view pass.old).role }
    requires idle { can_begin (view pass.old).seat.stage ≡ true }
    requires place { IsAnyRecordAt (view pass.old) key spot at }
    requires expected { IsOpenWord expected }
    ensures of { IsPassOf engine.now pass.new }
    ensures locks { Locked key spot at expected (view pass.old) result (view pass.new) }
{
    lock_as::<Brand, Spot>(engine, pass, key, spot, at, expected)
}

/// The same at the place that the call picks, maybe by a value, which is not read.
pub fn lock_as<J: Placed, S: Copy>(
    engine: &Engine,
    pass: &mut Pass,
    key: Key,
    _place: S,
    at: u32,
    expected: u64,
) -> u64
    requires of { IsPassOf engine.now pass.old }
    requires pass { IsActive (view pass.old).role }
    requires idle { can_begin (view pass.old).seat.stage ≡ true }
    requires place { IsAnyRecordAt (view pass.old) key J.spot at }
    requires expected { IsOpenWord expected }
    requires named { key ≡ J.key }
    ensures of { IsPassOf engine.now pass.new }
    ensures locks { Locked key J.spot at expected (view pass.old) result (view pass.new) }
{
    laws();
    engine
        .table
        .shared
        .compare_exchange::<Locking<J>>(pass, at as usize, expected, expected + LOCK)
}

/// Puts the value that the decided attempt writes to a key, whose record's word stands here, or 0 where it removes the
/// key.
pub fn put(engine: &Engine, pass: &mut Pass, key: Key, spot: Spot, at: u32, value: u64)
    requires of { IsPassOf engine.now pass.old }
    requires pass { IsActive (view pass.old).role }
    requires place { IsAnyRecordAt (view pass.old) key spot at }
    requires writes { CanPut (view pass.old) key spot value }
    ensures of { IsPassOf engine.now pass.new }
    ensures puts { view pass.new ≡ put_at key (at + 1) value (view pass.old) }
{
    put_as::<Brand, Spot>(engine, pass, key, spot, at, value);
}

/// The same at the place that the call picks, maybe by a value, which is not read.
pub fn put_as<J: Placed, S: Copy>(
    engine: &Engine,
    pass: &mut Pass,
    key: Key,
    _place: S,
    at: u32,
    value: u64,
)
    requires of { IsPassOf engine.now pass.old }
    requires pass { IsActive (view pass.old).role }
    requires place { IsAnyRecordAt (view pass.old) key J.spot at }
    requires writes { CanPut (view pass.old) key J.spot value }
    requires named { key ≡ J.key }
    ensures of { IsPassOf engine.now pass.new }
    ensures puts { view pass.new ≡ put_at key (at + 1) value (view pass.old) }
{
    laws();
    engine
        .table
        .shared
        .store::<Putting<J>>(pass, at as usize + 1, value);
}

/// Opens the lock of a key, whose record's word stands here, with the word that the lock found.
pub fn open_again(engine: &Engine, pass: &mut Pass, key: Key, spot: Spot, at: u32, word: u64)
    requires of { IsPassOf engine.now pass.old }
    requires pass { IsActive (view pass.old).role }
    requires place { IsAnyRecordAt (view pass.old) key spot at }
    requires word { CanOpenAgain (view pass.old) key spot word }
    ensures of { IsPassOf engine.now pass.new }
    ensures opens { view pass.new ≡ opened key at word (view pass.old) }
{
    open_again_as::<Brand, Spot>(engine, pass, key, spot, at, word);
}

/// The same at the place that the call picks, maybe by a value, which is not read.
pub fn open_again_as<J: Placed, S: Copy>(
    engine: &Engine,
    pass: &mut Pass,
    key: Key,
    _place: S,
    at: u32,
    word: u64,
)
    requires of { IsPassOf engine.now pass.old }
    requires pass { IsActive (view pass.old).role }
    requires place { IsAnyRecordAt (view pass.old) key J.spot at }
    requires word { CanOpenAgain (view pass.old) key J.spot word }
    requires named { key ≡ J.key }
    ensures of { IsPassOf engine.now pass.new }
    ensures opens { view pass.new ≡ opened key at word (view pass.old) }
{
    laws();
    engine
        .table
        .shared
        .store::<Opening<J>>(pass, at as usize, word);
}

/// Opens the lock of a key, whose record's word stands here, with the number of the attempt that counts, and with the bit
/// of absence where a tree's key was removed.
pub fn open_anew(engine: &Engine, pass: &mut Pass, key: Key, spot: Spot, at: u32, word: u64)
    requires of { IsPassOf engine.now pass.old }
    requires pass { IsActive (view pass.old).role }
    requires place { IsAnyRecordAt (view pass.old) key spot at }
    requires word { CanOpenAnew (view pass.old) key spot word }
    ensures of { IsPassOf engine.now pass.new }
    ensures opens { view pass.new ≡ opened key at word (view pass.old) }
{
    open_anew_as::<Brand, Spot>(engine, pass, key, spot, at, word);
}

/// The same at the place that the call picks, maybe by a value, which is not read.
pub fn open_anew_as<J: Placed, S: Copy>(
    engine: &Engine,
    pass: &mut Pass,
    key: Key,
    _place: S,
    at: u32,
    word: u64,
)
    requires of { IsPassOf engine.now pass.old }
    requires pass { IsActive (view pass.old).role }
    requires place { IsAnyRecordAt (view pass.old) key J.spot at }
    requires word { CanOpenAnew (view pass.old) key J.spot word }
    requires named { key ≡ J.key }
    ensures of { IsPassOf engine.now pass.new }
    ensures opens { view pass.new ≡ opened key at word (view pass.old) }
{
    laws();
    engine
        .table
        .shared
        .store::<Opening<J>>(pass, at as usize, word);
}
