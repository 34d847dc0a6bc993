// The clock's epochs, and marks.
ghost use Rattle.std.specs.Prelude.{◌≡◌, ◌<◌, false};
ghost use Rattle.serial_model.specs.Numbers.{last_epoch};
ghost use Rattle.commit_core.specs.CoreState.{is_trying};
ghost use Rattle.engine_pages.specs.declared.view.Role.TheVariants.{Keeper, Worker};
ghost use Rattle.engine_pages.specs.Passes.{view, IsPassOf};
ghost use Rattle.engine_pages.specs.Views.{IsActive};
ghost use Rattle.engine_pages.specs.Words.{IsSmallMark, word_of_mark};
ghost use Rattle.engine_seats.specs.Clock.{advanced, marked, CanMark, HasMet};

use crate::law::{Advancing, Marked, Marking, Meeting, Named};
use crate::laws::laws;
use commit_core::Mark;
use engine_pages::{Engine, Pass};
use std::marker::Brand;
use wire_form::EPOCH;

const IDLE: u32 = (1 << 20) - 1;

/// Goes on to the next epoch.
pub fn advance(engine: &Engine, keeper: &mut Pass)
    requires of { IsPassOf engine.now keeper.old }
    requires keeper { (view keeper.old).role ≡ Keeper }
    requires epoch { (view keeper.old).epoch < last_epoch }
    ensures of { IsPassOf engine.now keeper.new }
    ensures advances { view keeper.new ≡ advanced (view keeper.old) }
{
    laws();
    engine.table.shared.fetch_add::<Advancing>(keeper, 0, EPOCH);
}

/// Sets the mark of the pass's worker.
pub fn mark(engine: &Engine, pass: &mut Pass, worker: u8, mark: Mark)
    requires of { IsPassOf engine.now pass.old }
    requires pass { ((view pass.old).role ≡ Worker worker) × (is_trying (view pass.old).seat.stage ≡ false) }
    requires mark { CanMark (view pass.old) mark.epoch × IsSmallMark mark }
    requires worker { worker < 8 }
    ensures of { IsPassOf engine.now pass.new }
    ensures marks { view pass.new ≡ marked mark (view pass.old) }
{
    mark_as::<Brand>(engine, pass, worker, mark);
}

fn mark_as<J: Marked>(engine: &Engine, pass: &mut Pass, worker: u8, mark: Mark)
    requires of { IsPassOf engine.now pass.old }
    requires pass { ((view pass.old).role ≡ Worker worker) × (is_trying (view pass.old).seat.stage ≡ false) }
    requires mark { CanMark (view pass.old) mark.epoch × IsSmallMark mark }
    requires worker { worker < 8 }
    requires named { mark ≡ J.mark }
    ensures of { IsPassOf engine.now pass.new }
    ensures marks { view pass.new ≡ marked mark (view pass.old) }
{
    laws();
    engine
        .table
        .shared
        .store::<Marking<J>>(pass, 2 + worker as usize, mark_word(mark));
}

fn mark_word(mark: Mark) -> u64
    requires { IsSmallMark mark }
    ensures { result ≡ word_of_mark mark }
{
    let epoch = mark.epoch.unwrap_or(IDLE);
    mark.length + u64::from(epoch) * EPOCH
}

/// Loads the mark of a worker.
pub fn load_mark(engine: &Engine, pass: &mut Pass, worker: u8) -> u64
    requires of { IsPassOf engine.now pass.old }
    requires pass { IsActive (view pass.old).role }
    requires worker { worker < 8 }
    ensures of { IsPassOf engine.now pass.new }
    ensures meets { HasMet worker (view pass.old) result (view pass.new) }
{
    load_mark_as::<Brand>(engine, pass, worker)
}

fn load_mark_as<J: Named>(engine: &Engine, pass: &mut Pass, worker: u8) -> u64
    requires of { IsPassOf engine.now pass.old }
    requires pass { IsActive (view pass.old).role }
    requires worker { worker < 8 }
    requires named { worker ≡ J.worker }
    ensures of { IsPassOf engine.now pass.new }
    ensures meets { HasMet worker (view pass.old) result (view pass.new) }
{
    laws();
    engine
        .table
        .shared
        .load::<Meeting<J>>(pass, 2 + worker as usize)
}
