// The count of published pages rises.
ghost use Rattle.std.specs.Prelude.{◌≡◌, ◌+◌, length};
ghost use Rattle.engine_pages.specs.declared.view.Role.TheVariants.{Keeper};
ghost use Rattle.engine_pages.specs.Passes.{view, IsPassOf};
ghost use Rattle.resident_pages.specs.Extends.{CanExtend, HasExtended};

use crate::filling::PUBLISHED;
use crate::law::{Extending, Publishing};
use crate::laws::laws;
use engine_pages::{Engine, Pass};

/// Publishes the filled pages behind those that the pass knows, up to this number, and gives names to places, both as
/// the call picks them. There may be no page more.
pub fn extend<J: Publishing>(engine: &Engine, pass: &mut Pass, count: u32)
    requires of { IsPassOf engine.now pass.old }
    requires keeper { (view pass.old).role ≡ Keeper }
    requires can { CanExtend J.pages J.places (view pass.old) }
    requires count { count ≡ length (view pass.old).pages + length J.pages }
    ensures of { IsPassOf engine.now pass.new }
    ensures extends { HasExtended J.pages J.places (view pass.old) (view pass.new) }
{
    laws();
    engine
        .table
        .shared
        .store::<Extending<J>>(pass, PUBLISHED, u64::from(count));
}
