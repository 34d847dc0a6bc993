//! Runs of a script, and the lines that they print.
//!
//! Promises: `write_outcome` and `write_keeper` write exactly the line of an outcome or of an answer (`written`), or a
//! beginning of it where the sink failed (`prefix`); `put_round` adds exactly the lines of a round. `write_state` and
//! `put_state` do the same of the text of a state. `Outcomes` are seen as a list, and take a head of 16 bytes and the
//! words of their replies each. An `OutcomeRoom` takes outcomes of so many lines without wanting memory.
//! Laws: a round of a script can be run (`can_run`); a line is refused a number only where the draws are used up
//! (`limited_at_draws`); a round whose numbers are counted (`DrawsAreCounted`) drew no more than its lines have tries
//! (`counted_within`); a worker that has a round to itself, without a drop of pages, is in conflict at no record
//! (`alone_met`).
//! Terms: *round*, the lines up to a join; *outcome*, what came of a worker's line; *answer*, what came of a line of
//! the maintenance thread (a keeper line).
//! Runs: `specs/Run.antt`. What must have happened for each outcome: `specs/Tries.antt`, and for each answer:
//! `specs/Causes.antt`; how many numbers a round draws: `specs/Draws.antt`; whom tries in conflict met:
//! `specs/Conflicts.antt`. Lines: `specs/Text.antt`; a state as text: `specs/StateText.antt`.
//! What a script is: `script_grammar`.
#![tactic(auto)]

mod answer;
mod outcome;
mod outcome_room;
mod outcomes;
mod print;
mod state;

pub use answer::{Answer, Answers};
pub use outcome::{LentOutcome, Outcome};
pub use outcome_room::OutcomeRoom;
pub use outcomes::{LentOutcomes, Outcomes, Refused, RoundOutcomes};
pub use print::{put_round, write_keeper, write_outcome};
pub use script_grammar::{
    FaultKind, KeeperLine, Line, LineOps, Round, Script, ScriptFault, read_script,
};
pub use state::{put_state, write_state};
pub use text_output::Printer;
