//! Seats of an engine over pages: how passes are cut and joined, the clock, and the marks of workers.
//!
//! Promises: each call keeps the rule of engine_pages (`Shows`). The keeper seats each worker once at a time (`seat`),
//! and takes its pass in again (`end`); what a pass has seen goes to another one by a note (`note`, `learn`). A load of
//! the clock tells all draws and decisions (`load_clock`), and an audit that those which count are serial and, where
//! nobody is seated, the keeper's own, and that each mark which it met stands where it was met (`audit`). The keeper
//! alone goes on to the next epoch (`advance`); a worker sets its mark (`mark`), and whoever loads it learns which of
//! that worker's marks it is (`load_mark`).
//! Terms: *note*, a pass without a seat, with what another one has seen; *mark*, how far a worker's log is durable, and
//! an epoch in which it draws no more.
//! Steps: each call is one atomic step on one word, but for `seat` and `note`, which make none, `end` and `learn`, which
//! load the clock behind a join, and `audit`, which loads two words.
//! Layout: specs/Cuts.antt, how views are cut and joined; specs/Counts.antt and Clock.antt, what steps tell;
//! specs/Gathered.antt, laws of the own commits that a keeper's view gathers as seats end, and specs/Between.antt, what
//! counts behind them: a caller's own threads cite these; specs/Resting.antt, that nobody holds a record where nobody is
//! seated. In proofs/ `Handing` has who took locks behind a cut, `CutPages` what a cut view knows of pages, `Cutting`
//! and `Ending` the cuts and joins, `Counting` and `Marking` the steps.
//! Design: docs/PAGES.md and docs/COMMIT.md.
#![tactic(auto)]

mod clock;
mod counters;
mod law;
mod laws;
mod seating;

pub use clock::{advance, load_mark, mark};
pub use counters::{audit, load_clock};
pub use seating::{end, learn, note, seat};
