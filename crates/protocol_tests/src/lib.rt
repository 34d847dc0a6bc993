//! Schedules of the protocols' machines, worked by hand: nothing but tests.
//!
//! Shows: what the theorems of the three machines leave to be looked at, that their conditions are those that are
//! meant. Each schedule says, step by step, whether the step may happen, and what stands there after it. `commits`
//! has those of commits (commit_core), `pages` those of pages in memory over snapshot pages and `trees` those of a
//! tree's leaves among them (drop_core), `joint` those of both as one machine (engine_rule), with each kind of step
//! on pages against each kind of step on records, in both orders, `headers` how reads of a tree's leaves fare while these
//! grow, are split and go, and `openings` what both begin with over the pages of a snapshot. A schedule is a table of lines (a seat, its step, what it answers) that one
//! loop follows; `machines` has the machines' calls, each in a function without clauses. Both keep the crate's proof
//! short. The schedules stand in a crate above those that they test, because a crate with tests is proved a second
//! time.
//! Design: docs/COMMIT.md and docs/PAGES.md.
#![tactic(auto)]

#[cfg(test)]
mod commits;
#[cfg(test)]
mod headers;
#[cfg(test)]
mod joint;
#[cfg(test)]
mod machines;
#[cfg(test)]
mod openings;
#[cfg(test)]
mod pages;
#[cfg(test)]
mod samples;
#[cfg(test)]
mod trees;
