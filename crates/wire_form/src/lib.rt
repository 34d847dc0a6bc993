//! One spelling for every value: the words of the shared table, the pages of a snapshot, the log
//! lines of a worker and the savepoint, as numbers and as bytes.
//!
//! What lies in a shared word or on a device goes through these calls, and none of them takes memory.
//!
//! Promises, each in both directions. A value is read where its spelling stands, and nothing is read
//! elsewhere; a written value is the one spelling that it has.
//! - Words (`Clock`, `Mark`, `RecordWord`, `Header`, `Pair`, `SlotWord`): the clauses of `pack` and
//!   `parts`. Each is the other's inverse (`Reads`), and `is_valid` tells the ranges. `number_in` is what any word has
//!   in the fields of a number.
//! - Pages: `ok` and `err` of `read_page`, the clause of `write_page`, and `is_page` for words in memory.
//!   What a page is stands in `HasKind`: the content, its rules, and its words as a function of it.
//!   `words_of_page` gives the words of any page as they stand, `catalogue_words` those of a catalogue.
//!   How many records and pointers a page has room for, and where they lie, stands in specs/Leaves.
//! - Log lines: `ok` and `err` of `read_log_line`, `written` of `write_log_line`, and `is_loggable`.
//!   What the counted bytes of a log file are stands in `AreLinesOf` and `IsDamagedAt`.
//! - Savepoints: `closed`, `found` and `err` of `read_savepoint`, and the clause of `write_savepoint`.
//! - Fields of pages (`array_record`, `tree_record`, `child`, `child_range`, `storage` and more): each
//!   clause speaks of the content whose words they are.
//! - Laws, as calls with nothing to do: `one_log_line`, `line_length`, `one_list_of_lines`,
//!   `one_content`, `one_list_of_words`, `bytes_and_words`, `word_in_bytes`, `catalogue_declares`,
//!   `pointers_go_down`, `ranges_split`. For proofs above they stand in specs/, in the files of laws.
//!
//! Terms: *spelling*, the one word or the bytes of a value; *padded*, with zeros up to the end of the
//! part, which is the one rule of reserved words; *fences*, the least and the greatest key of a tree's
//! page; *separator*, where the next child's keys begin.
//!
//! Layouts: docs/FORMATS.md.
#![tactic(auto)]

mod bits;
mod bucket;
mod bytes;
mod catalogue;
mod clock;
mod fields;
mod inner;
mod laws;
mod leaf;
mod log_line;
mod page;
mod page_words;
mod parts;
mod record_word;
mod records;
mod savepoint;

pub use bucket::{Bucket, Entry, Run};
pub use catalogue::catalogue_words;
pub use clock::{Clock, EPOCH, Mark};
pub use fields::{
    array_child, array_record, child, child_range, count, epoch_and_previous, fences, separator,
    storage, tree_record,
};
pub use laws::{
    bytes_and_words, catalogue_declares, line_length, one_content, one_list_of_lines,
    one_list_of_words, one_log_line, pointers_go_down, ranges_split, word_in_bytes,
};
pub use log_line::{NoLine, is_loggable, read_log_line, write_log_line};
pub use page::{NoPage, Page, PageKind, is_page, read_page, words_of_page, write_page};
pub use page_words::{Header, Pair, SlotState, SlotWord};
pub use record_word::{RecordWord, is_number, number_in, number_word, read_number};
pub use records::{ArrayRecord, Stored, TreeRecord};
pub use savepoint::{NoSavepoint, Savepoint, read_savepoint, write_savepoint};
