// Pages that are kept with another one are noted as such.
ghost use Rattle.std.specs.Prelude.{◌≡◌, ℕ, List, [], ◌∷◌, ◌++◌};
ghost use Rattle.engine_pages.specs.declared.view.KeptPage.{KeptPage};
ghost use Rattle.engine_pages.specs.declared.view.Role.TheVariants.{Keeper};
ghost use Rattle.engine_pages.specs.Passes.{view, IsPassOf};
ghost use Rattle.chain_steps.specs.Notes.{noted_again, HasHalves};

use crate::law::{Counted, NotingAgain};
use crate::laws::laws;
use engine_pages::{Engine, Pass};
use std::marker::Brand;

/// Notes that so many pages more are kept, with the page that was noted last, and for the same word: halves of leaves
/// that were split, which the pass holds.
pub fn note_again(engine: &Engine, pass: &mut Pass, count: u32)
    requires of { IsPassOf engine.now pass.old }
    requires keeper { (view pass.old).role ≡ Keeper }
    requires last { (front : List KeptPage) × (page : KeptPage) × ((view pass.old).kept ≡ front ++ page ∷ []) }
    requires halves { HasHalves count (view pass.old) }
    ensures of { IsPassOf engine.now pass.new }
    ensures notes { (n : ℕ) × (view pass.new ≡ noted_again count n (view pass.old)) }
{
    let _ = note_as::<Brand>(engine, pass, count);
}

fn note_as<J: Counted>(engine: &Engine, pass: &mut Pass, count: u32) -> u64
    requires of { IsPassOf engine.now pass.old }
    requires keeper { (view pass.old).role ≡ Keeper }
    requires named { count ≡ J.count }
    ensures of { IsPassOf engine.now pass.new }
    ensures notes { view pass.new ≡ noted_again count result (view pass.old) }
{
    let _ = count;
    laws();
    engine.table.shared.load::<NotingAgain<J>>(pass, 0)
}
