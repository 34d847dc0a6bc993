// Pages that are kept, noted as such.
ghost use Rattle.std.specs.Prelude.{◌≡◌};
ghost use Rattle.engine_pages.specs.declared.view.Role.TheVariants.{Keeper};
ghost use Rattle.engine_pages.specs.Passes.{view, IsPassOf};
ghost use Rattle.page_drops.specs.Works.{note_of, noted, HasSeenLast, IsKeepDue};

use crate::law::{Noted, Noting};
use crate::laws::laws;
use engine_pages::{Engine, KeptWhy, Pass};
use std::marker::Brand;

/// Why a page stayed in memory: a word of it, as it was seen.
#[derive(Clone, Copy, Debug, PartialEq, Eq)]
pub struct Kept {
    /// The word's place in the table.
    pub word: u32,
    pub seen: u64,
    pub why: KeptWhy,
}

/// Notes that a page is kept for the word that was seen last.
pub(crate) fn note_kept(engine: &Engine, pass: &mut Pass, kept: Kept) -> u64
    requires of { IsPassOf engine.now pass.old }
    requires keeper { (view pass.old).role ≡ Keeper }
    requires last { HasSeenLast (view pass.old) kept }
    requires due { IsKeepDue kept.why kept.word kept.seen (view pass.old) }
    ensures of { IsPassOf engine.now pass.new }
    ensures notes { view pass.new ≡ noted (note_of (view pass.old) kept) result (view pass.old) }
{
    note_as::<Brand>(engine, pass, kept)
}

fn note_as<J: Noted>(engine: &Engine, pass: &mut Pass, kept: Kept) -> u64
    requires of { IsPassOf engine.now pass.old }
    requires keeper { (view pass.old).role ≡ Keeper }
    requires last { HasSeenLast (view pass.old) kept }
    requires named { note_of (view pass.old) kept ≡ J.page }
    ensures of { IsPassOf engine.now pass.new }
    ensures notes { view pass.new ≡ noted (note_of (view pass.old) kept) result (view pass.old) }
{
    laws();
    engine.table.shared.load::<Noting<J>>(pass, 0)
}
