//! What a person is told on standard error, beside what a call prints: what its status means, and what it met.
//!
//! Promises: refused words are explained by what the program does (`explanation`); a source that remembers gives what
//! its own source gives (`ScriptSource`), and a sink that counts hands on what it is handed (`CountingSink`). What else
//! is told is text for a person, and nothing is promised of it.
//! Terms: *notes*, what a person is told beside the explanation of a status.
//!
//! Design: docs/ARCHITECTURE.md.
#![tactic(auto)]

mod explanations;
mod faulty_line;
mod notes;
mod printed_lines;
mod refused_lines;
mod refused_words;
mod script_source;
mod shown;

pub use explanations::{USAGE, explanation};
pub use notes::{
    Asked, tell_causes, tell_faulty_line, tell_no_text, tell_not_opened, tell_opened, tell_refused,
};
pub use printed_lines::{CountingSink, Counts, Printed};
pub use refused_lines::tell_refused_lines;
pub use script_source::{Remembers, ScriptSource};
