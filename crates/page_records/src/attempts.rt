// Draws, checks and decisions of attempts.
ghost use Rattle.std.specs.Prelude.{◌≡◌, ℕ};
ghost use Rattle.engine_pages.specs.Passes.{view, IsPassOf};
ghost use Rattle.engine_pages.specs.Records.{IsAnyRecordAt};
ghost use Rattle.engine_pages.specs.Touches.{has_took};
ghost use Rattle.engine_pages.specs.Views.{IsActive};
ghost use Rattle.page_records.specs.Attempts.{CanDraw, HasDrawn, CanCheckWord, Checked, HeldStays, CanDecide, HasChosen};

use crate::law::{Checking, Compared, Deciding, Drawing, Writing};
use crate::laws::laws;
use commit_core::commits_are_serial;
use engine_pages::{Engine, Pass};
use homes::Spot;
use serial_model::{Change, Changes, Key};
use std::marker::Brand;

/// Draws the next number for an attempt with these writes, whose keys are those locked, and with what was kept as its
/// parts. Answers the number's word.
pub fn draw(engine: &Engine, pass: &mut Pass, writes: &Changes) -> u64
    requires of { IsPassOf engine.now pass.old }
    requires pass { IsActive (view pass.old).role }
    requires can { CanDraw writes.now (view pass.old) }
    ensures of { IsPassOf engine.now pass.new }
    ensures draws { HasDrawn writes.now (view pass.old) result (view pass.new) }
{
    draw_as::<Brand, Change>(engine, pass, writes.as_slice())
}

/// The same, with the writes that the call picks by a list of them in another form, which is not read.
pub fn draw_as<J: Writing, W>(engine: &Engine, pass: &mut Pass, _forms: &[W]) -> u64
    requires of { IsPassOf engine.now pass.old }
    requires pass { IsActive (view pass.old).role }
    requires can { CanDraw J.writes (view pass.old) }
    ensures of { IsPassOf engine.now pass.new }
    ensures draws { HasDrawn J.writes (view pass.old) result (view pass.new) }
{
    laws();
    engine.table.shared.fetch_add::<Drawing<J>>(pass, 0, 1)
}

/// Loads the word of a part again, which was this one as it was seen: the part is checked where it still is, maybe with
/// an own lock at this place, and else the attempt failed. Answers the word that it found.
pub fn check(
    engine: &Engine,
    pass: &mut Pass,
    key: Key,
    spot: Spot,
    at: u32,
    word: u64,
    own: bool,
) -> u64
    requires of { IsPassOf engine.now pass.old }
    requires pass { IsActive (view pass.old).role }
    requires place { IsAnyRecordAt (view pass.old) key spot at }
    requires part { CanCheckWord (view pass.old) key spot word }
    requires own { own ≡ has_took (view pass.old).took key spot }
    ensures of { IsPassOf engine.now pass.new }
    ensures checks { Checked spot at word own (view pass.old) result (view pass.new) }
    ensures held { HeldStays key spot (view pass.old) result }
{
    check_as::<Brand, Spot>(engine, pass, key, spot, at, word, own)
}

/// The same at the place that the call picks, maybe by a value, which is not read.
pub fn check_as<J: Compared, S: Copy>(
    engine: &Engine,
    pass: &mut Pass,
    key: Key,
    _place: S,
    at: u32,
    word: u64,
    own: bool,
) -> u64
    requires of { IsPassOf engine.now pass.old }
    requires pass { IsActive (view pass.old).role }
    requires place { IsAnyRecordAt (view pass.old) key J.spot at }
    requires part { CanCheckWord (view pass.old) key J.spot word }
    requires own { own ≡ has_took (view pass.old).took key J.spot }
    requires named { (key ≡ J.key) × (word ≡ J.word) × (own ≡ J.own) }
    ensures of { IsPassOf engine.now pass.new }
    ensures checks { Checked J.spot at word own (view pass.old) result (view pass.new) }
    ensures held { HeldStays key J.spot (view pass.old) result }
{
    laws();
    engine.table.shared.load::<Checking<J>>(pass, at as usize)
}

/// Lets the attempt count, whose parts are checked.
pub fn decide(engine: &Engine, pass: &mut Pass)
    requires of { IsPassOf engine.now pass.old }
    requires pass { IsActive (view pass.old).role }
    requires checked { CanDecide (view pass.old) }
    ensures of { IsPassOf engine.now pass.new }
    ensures decides { (n : ℕ) × HasChosen (view pass.old) n (view pass.new) }
{
    laws();
    commits_are_serial();
    engine.table.shared.fetch_add::<Deciding>(pass, 1, 1);
}
