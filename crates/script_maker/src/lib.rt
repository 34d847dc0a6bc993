//! Scripts that a number makes, as long as one likes: work for the engine that everybody can have again.
//!
//! Promise: `make_script` writes exactly the script of a seed, of so many workers and lines (`written`), or a beginning
//! of it where the sink failed (`prefix`); `put_script` adds it to what a printer holds.
//! Law: this text is one of a script (`made_is_a_script`), that of `specs/Made.antt`.
//! Terms: *state*, the number from which the generator goes on; *draw*, a number that it gives.
//! The generator and its script: `specs/Generator.antt`.
#![tactic(auto)]

mod law;
mod make;

pub use law::made_is_a_script;
pub use make::{make_script, put_script};
