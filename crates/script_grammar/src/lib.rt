//! Which bytes are a script, and the first fault of those that are none.
//!
//! Promises: `read_script` answers the script of exactly the bytes that are a text of one (`text`, `only`), and else
//! exactly the first faulty line with its first kind of fault (`fault`).
//! Invariant: what lies flat in memory is the lines and rounds of the script (`specs/Lines.antt`,
//! `specs/FlatOps.antt`).
//! Terms: *round*, the lines up to a join; *part*, what stands between semicolons in a worker's line.
//! Grammar: `specs/Script.antt`, by the spelling of a script; `specs/Faults.antt`, by the tests of a line, in order;
//! both the reader and the tests find words, parts and numbers by `specs/Words.antt`.
//! Design: most lines are a worker's. They are read one after another, each byte once, as long as they plainly are so
//! by the rules and a longest line's bytes are left, so that no byte's place is tested (`reader::read_front`,
//! `specs/Front.antt`); any other line is cut into words, and only there anything is refused (`Reader::step`).
#![tactic(auto)]

mod cut;
mod fault;
mod faults;
mod flat_ops;
mod front_number;
mod front_op;
mod lines;
mod op_faults;
mod read;
mod read_line;
mod read_op;
mod reader;
mod rounds;
mod script;
mod storages;
mod words;

pub use fault::{FaultKind, ScriptFault};
pub use flat_ops::LineOps;
pub use lines::{KeeperLine, Line};
pub use read::read_script;
pub use rounds::Round;
pub use script::Script;
