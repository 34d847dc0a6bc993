// The clock's epochs.
ghost use Rattle.std.specs.Prelude.{◌≡◌, IfOk, IfErr};
ghost use Rattle.engine_pages.specs.declared.view.Role.TheVariants.{Keeper};
ghost use Rattle.engine_pages.specs.Passes.{view, IsPassOf};
ghost use Rattle.engine_pages.specs.Views.{IsActive};
ghost use Rattle.tx_runner.specs.Epochs.{HasAdvanced, HasSeenEpoch, IsLastEpoch};

use engine_pages::{Engine, Pass};
use engine_seats::load_clock;
use serial_model::LAST_EPOCH;
use wire_form::EPOCH;

/// The clock, which had this word, is in the last epoch.
#[derive(Clone, Copy, Debug, PartialEq, Eq)]
pub struct EpochLimit {
    pub clock: u64,
}

/// The clock's epoch.
pub fn load_epoch(engine: &Engine, pass: &mut Pass) -> u32
    requires of { IsPassOf engine.now pass.old }
    requires pass { IsActive (view pass.old).role }
    ensures of { IsPassOf engine.now pass.new }
    ensures seen { HasSeenEpoch result (view pass.old) (view pass.new) }
{
    let clock = load_clock(engine, pass);
    (clock / EPOCH) as u32
}

/// Goes on to the next epoch, which it answers. It is refused exactly in the last one.
pub fn advance(engine: &Engine, keeper: &mut Pass) -> Result<u32, EpochLimit>
    requires of { IsPassOf engine.now keeper.old }
    requires keeper { (view keeper.old).role ≡ Keeper }
    ensures of { IsPassOf engine.now keeper.new }
    ensures advances { IfOk result (λ epoch. HasAdvanced epoch (view keeper.old) (view keeper.new)) }
    ensures limit { IfErr result (λ limit. IsLastEpoch limit.clock (view keeper.old) (view keeper.new)) }
{
    let clock = load_clock(engine, keeper);
    let epoch = (clock / EPOCH) as u32;
    if epoch >= LAST_EPOCH {
        return Err(EpochLimit { clock });
    }
    engine_seats::advance(engine, keeper);
    Ok(epoch + 1)
}
