// Lines, with their tries.
ghost use Rattle.std.specs.Prelude.{◌≡◌, ◌+◌, ◌*◌, ◌≤◌, IsTrue, length};
ghost use Rattle.std.specs.List.{AllByRecursion};
ghost use Rattle.serial_model.specs.Keys.{fits};
ghost use Rattle.engine_pages.specs.Passes.{view, IsPassOf};
ghost use Rattle.page_commit.specs.Live.{IsOver};
ghost use Rattle.tx_runner.specs.Lines.{try_steps};
ghost use Rattle.tx_runner.specs.LineEnds.{RunsLine};
ghost use Rattle.tx_runner.specs.Steps.{end_of};

use crate::LineRoom;
use crate::tries::try_line;
use engine_pages::{Engine, Pass, RefusalCause};
use page_commit::Txn;
use serial_model::{Op, Verdict};
use std::thread::yield_now;

/// What came of a line.
#[derive(Clone, Copy, Debug, PartialEq, Eq)]
pub enum LineEnd {
    /// The replies, the number and the changes are in the room.
    Committed(Verdict),
    /// Each of the tries met another transaction, or a pointer or a slot that was changed meanwhile.
    Conflict,
    /// A try was to be given a slot, and none was usable.
    Full,
    /// A try needed more than a set of a transaction has room for.
    Wide,
    /// The clock gives no further numbers.
    Limit,
}

// So many tries in vain are told apart by one yield each: most locks are open again by then.
const FEW_TRIES: u32 = 100;

// No more yields than these stand between two tries.
const MOST_YIELDS: u32 = 1_000;

/// Runs a line of 16 operations at most, and runs it again after each conflict, up to so many tries; after another
/// refusal it isn't run again. Between two tries other threads may go first, more often behind a hundred tries.
pub fn run_line(
    engine: &Engine,
    pass: &mut Pass,
    txn: &mut Txn,
    ops: &[Op],
    tries: u32,
    room: &mut LineRoom,
) -> LineEnd
    requires of { IsPassOf engine.now pass.old }
    requires over { IsOver (view pass.old) }
    requires fitting { AllByRecursion (λ op. IsTrue (fits (view pass.old).layout.decls op)) ops.now }
    requires few { length ops.now ≤ 16 }
    requires tries { 1 ≤ tries }
    ensures of { IsPassOf engine.now pass.new }
    ensures steps { (view pass.new).steps ≤ (view pass.old).steps
        + tries * try_steps (view pass.old).layout.decls (view pass.old).layout.slots ops.now }
    ensures runs { RunsLine ops.now tries result room.new (view pass.old) (view pass.new) }
{
    let mut tried = 0;
    while tried < tries {
        match try_line(engine, pass, txn, ops, room) {
            Ok(verdict) => return LineEnd::Committed(verdict),
            Err(why) => {
                if let Some(end) = end_of(why) {
                    return end;
                }
            }
        }
        tried += 1;
        // Whoever is in the way may have lost its core while it holds a lock, and all tries would be over before it is
        // back.
        give_way(yields_after(tried));
    }
    LineEnd::Conflict
}

// How often other threads may go first behind so many tries in vain: once behind each of the first hundred, then once
// more behind each further one, up to a bound. Where many threads share a core, whoever holds a lock is away for longer
// than a thousand yields take. No word is looked at, so no call waits for another's step.
fn yields_after(tried: u32) -> u32
    ensures few { tried ≤ 100 → result ≡ 1 }
    ensures bound { (1 ≤ result) × (result ≤ 1000) }
{
    if tried <= FEW_TRIES {
        return 1;
    }
    (tried - FEW_TRIES).min(MOST_YIELDS)
}

// Lets other threads go first, so often.
fn give_way(times: u32) {
    for _ in 0..times {
        yield_now();
    }
}

// How a line ends with a try that was refused for this. A conflict alone is tried again.
fn end_of(why: RefusalCause) -> Option<LineEnd>
    ensures { result ≡ end_of why }
{
    match why {
        RefusalCause::Conflict { .. } => None,
        RefusalCause::Full { .. } => Some(LineEnd::Full),
        RefusalCause::Wide { .. } => Some(LineEnd::Wide),
        RefusalCause::NumberLimit { .. } => Some(LineEnd::Limit),
    }
}
