// How an engine is made.
ghost use Rattle.std.specs.Prelude.{◌≡◌, IfOk};
ghost use Rattle.engine_pages.specs.Passes.{view, IsPassOf};
ghost use Rattle.engine_pages.specs.Views.{opening_view};
ghost use Rattle.page_opening.specs.Making.{CanMake};

use crate::filling::first_words;
use atomic_table::Table;
use engine_pages::{Engine, Pass, Start};
use engine_rule::both_stay_sound;
use lists::Memory;
use std::alloc::Global;

/// An engine over the pages of a snapshot, and the keeper's pass.
pub fn make(alloc: Global, start: Start) -> Result<(Engine, Pass), Memory>
    requires can { CanMake start }
    ensures ok { IfOk result (λ r. IsPassOf r.0 r.1 × (view r.1 ≡ opening_view start)) }
{
    both_stay_sound();
    let words = first_words(alloc, &start)?;
    let (table, pass) = Table::of_words(alloc, words.as_slice(), &start)?;
    let slots = start.slots();
    Ok((Engine::of_table(table, slots, start.into_decls()), pass))
}
