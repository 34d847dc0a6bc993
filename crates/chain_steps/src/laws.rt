// The theorems of the machines, as steps use them.
ghost use Rattle.drop_core.specs.Law.{MadeIsOwn};
ghost use Rattle.engine_rule.specs.Law.{EachEventKeeps, EachEventLeaves};

use drop_core::pages_stay_sound;
use engine_rule::both_stay_sound;

/// Each event keeps both machines sound and leaves alone what is others'; and a slot that a seat made is its own.
pub(crate) fn laws()
    ensures keeps { EachEventKeeps }
    ensures leaves { EachEventLeaves }
    ensures made { MadeIsOwn }
{
    pages_stay_sound();
    both_stay_sound();
}
