// A law of the scripts that are made, for callers: it holds of all seeds, so the call has nothing to do.
ghost use Rattle.std.specs.Prelude.{ℕ, ◌<◌, ◌≤◌};
ghost use Rattle.script_grammar.specs.Script.{IsTextOf};
ghost use Rattle.script_maker.specs.Generator.{script_text};
ghost use Rattle.script_maker.specs.Made.{script_of};

/// The text that is made is one of a script, of 1 to 8 workers and 1 to 65,536 lines: so it is read as this script.
pub fn made_is_a_script()
    ensures { (seed workers lines : ℕ) → 0 < workers → workers ≤ 8 → 0 < lines → lines ≤ 65536
        → IsTextOf (script_text seed workers lines) (script_of seed workers lines) }
{}
