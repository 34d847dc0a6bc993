//! What the words of a call ask for.
//!
//! The words are the program's name and then `dump` or `snaps`; or `snap` with an epoch; or `run` with `--tries`,
//! `--slots` and `--snap`, each with its number as the word after it, and `--brief`, in any order, each at most once;
//! or `make` with three numbers. The crate `clap` parts the words by the definition of `specs/Commands.antt`; the
//! numbers are read here, since they have neither a sign nor a leading zero.
//!
//! Promises of `read_words`, unless memory is refused (record `ReadsWords` of `specs/Words.antt`):
//!
//! - it answers what the definitions say (`command`);
//! - for plain words it answers a run, with their numbers and the usual ones (`plain`), a dump (`plain_dump`), the
//!   list of snapshots (`plain_snaps`), one of them (`plain_snap`), or a script to be made (`plain_make`);
//! - the numbers of a run are in their ranges (`ranges`), those of a script to be made (`made_ranges`), and the epoch
//!   of a snapshot (`epoch_range`);
//! - words are refused only where the definition has a kind of fault for them that is not want of
//!   memory, or a number is none or out of its range (`refused`);
//! - calls for help are refused, also where they come after options (`help`).
//!
//! The laws `plain_words_run`, `plain_words_dump`, `plain_words_snaps`, `plain_words_snap` and `plain_words_make` say
//! of the definitions what plain words ask for.
//!
//! A repeated option is refused. `--tries=5` is taken for `--tries 5`, and a last `--` for nothing,
//! as clap does; neither is among the plain words.
#![tactic(auto)]

mod command;
mod law;
mod number;
mod program;
mod words;

pub use command::{Command, MakeArguments, RunOptions};
pub use law::{
    plain_words_dump, plain_words_make, plain_words_run, plain_words_snap, plain_words_snaps,
};
pub use words::read_words;
