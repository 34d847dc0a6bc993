//! Vaults over disks in memory, and whole calls over them: what the crates of tests above have in common.
//!
//! [`answer`] makes a call over a vault and tells its status and its text, one line after another ([`InTurn`]);
//! [`check_rows`] compares those of a table's rows. A row has the words after the program's name, the script, the
//! status and the text, with `#` between them and bars for newlines. [`first_vault`] is what a vault has before a call,
//! by bytes that were worked by hand.
//!
//! No promise of the program stands here: these are for tests alone.
#![tactic(auto)]

mod calling;
mod in_turn;
mod rows;
mod scripts;
mod vaults;
mod worked;

pub use calling::{
    answer, answer_anew, answer_by, call, check_answer, check_call, ended, is_answer, is_same,
    is_so, source_of, told, words,
};
pub use in_turn::InTurn;
pub use rows::{check_row, check_rows, check_told, lines, part};
pub use scripts::CASES;
pub use vaults::{anew, disk_of, filled, fresh_vault, vault_of};
pub use worked::{First, first_vault, kept_vault, saved_vault};

// Names of the crate below that the crates of tests speak of.
pub use program_entry::{Ending, run_program};
