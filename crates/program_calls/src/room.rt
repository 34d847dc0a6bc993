// How many pages of snapshots a run has room for.
ghost use Rattle.std.specs.Prelude.{◌≡◌, ◌≤◌, false, Some};
ghost use Rattle.std.specs.List.{Contains};
ghost use Rattle.script_grammar.specs.Script.{keeper_lines};
ghost use Rattle.script_grammar.specs.declared.lines.KeeperLine.TheVariants as asks;
ghost use Rattle.program_calls.specs.OnTheWay.{AsksForSnapshot};

use tx_script::{KeeperLine, Round, Script};

/// As many pages as are let in, where a line of the script asks for a snapshot; else as many as there are, and one at
/// least: what is never filled isn't made.
pub(crate) fn room_for(script: &Script, snap: u32, pages: u32) -> u32
    requires some { 1 ≤ snap }
    requires within { pages ≤ snap }
    ensures asked { AsksForSnapshot script.now → result ≡ snap }
    ensures pages { pages ≤ result }
    ensures some { 1 ≤ result }
    ensures most { result ≤ snap }
{
    if asks_for_snapshot(script) {
        snap
    } else {
        pages.max(1)
    }
}

// Whether a line of the maintenance thread asks for a snapshot.
fn asks_for_snapshot(script: &Script) -> bool
    ensures { result ≡ false → AsksForSnapshot script.now → ⊥ }
{
    for index in 0..script.rounds() {
        if gleans(&script.round(index)) {
            return true;
        }
    }
    false
}

// Whether one of this round does.
fn gleans(round: &Round<'_>) -> bool
    ensures { result ≡ false → Contains (keeper_lines round.now) asks.Glean → ⊥ }
{
    for index in 0..round.len() {
        if is_glean(round.keeper(index)) {
            return true;
        }
    }
    false
}

fn is_glean(line: Option<KeeperLine>) -> bool
    ensures { result ≡ false → line ≡ Some asks.Glean → ⊥ }
{
    matches!(line, Some(KeeperLine::Glean))
}
