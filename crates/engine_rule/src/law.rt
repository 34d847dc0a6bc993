// What holds under every list of events.
ghost use Rattle.engine_rule.specs.Law.{BothStaySound};

use commit_core::commits_are_serial;
use drop_core::pages_stay_sound;

/// The theorem, about the very condition and effect that `Joint::step` follows. Each event keeps both machines sound,
/// and leaves alone what seats other than its own rely on; and the start is sound; so every list of events, of any
/// number of seats, keeps them so, and the history only grows. At every moment the decided attempts, in order of
/// number, are a serial run from what the snapshot pages had; no slot is given while a seat holds it; an act on pages
/// changes no key's content, nor does a record that is set for a key, or a header that is opened with it; and a word
/// that is as a seat kept it vouches for what was found.
pub fn both_stay_sound()
    ensures { BothStaySound }
{
    commits_are_serial();
    pages_stay_sound();
}
