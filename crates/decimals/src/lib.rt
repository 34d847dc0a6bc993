//! Numbers as decimal text: digits, with no zero before others. Read are numbers up to 2^64 - 1, written ones up to
//! 2^128 - 1.
//!
//! Promises: `number_of` answers exactly the number whose text the bytes are (`exact`), `number_at` the number at the
//! front and what stands behind it (`front`), and `write_digits` and `write_wide_digits` write that text (`digits`). The
//! text of a number is std's `decimal`; specs/Numbers.antt says how a text is read, specs/Laws.antt that it is read again.
#![tactic(auto)]

mod read;
mod write;

pub use read::{number_at, number_of};
pub use write::{write_digits, write_wide_digits};
