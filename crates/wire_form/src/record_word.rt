// Commit numbers, and the words of records.
ghost use Rattle.std.specs.Prelude.{◌≡◌, ◌↔◌, IsTrue};
ghost use Rattle.wire_form.specs.Items.{Reads};
ghost use Rattle.serial_model.specs.Numbers.{IsNumber};
ghost use Rattle.wire_form.specs.Words.{number_word, number_in, number_field, IsRecord, record_word};

use crate::bits::{field, flag, flag_at};
use serial_model::{LAST_EPOCH, Number};

/// Whether it can be the number of a commit: an epoch from 1 to the last, a draw from 1 below 2^40.
pub fn is_number(number: Number) -> bool
    ensures { IsTrue result ↔ IsNumber number }
{
    let epoch = 1 <= number.epoch && number.epoch <= LAST_EPOCH;
    epoch && 1 <= number.draw && number.draw < 1 << 40
}

/// The word of a number.
pub fn number_word(number: Number) -> u64
    requires { IsNumber number }
    ensures { result ≡ number_word number }
{
    number.draw + (u64::from(number.epoch) << 40)
}

/// What a word has in the fields of a number, also where it is none.
pub fn number_in(word: u64) -> Number
    ensures { result ≡ number_in word }
{
    Number {
        epoch: (word >> 40) as u32,
        draw: word % (1 << 40),
    }
}

/// The number that has the word, or `None` where none has.
pub fn read_number(word: u64) -> Option<Number>
    ensures { Reads IsNumber number_word word result }
{
    let number = Number {
        draw: field(word, 0, 40),
        epoch: field(word, 40, 20) as u32,
    };
    if is_number(number) && number_word(number) == word {
        Some(number)
    } else {
        None
    }
}

/// The word of a record: the number of its last write, whether it is locked, and whether it is
/// absent. A record that was never written has no number.
#[derive(Clone, Copy, Debug, PartialEq, Eq)]
pub struct RecordWord {
    pub number: Option<Number>,
    pub lock: bool,
    pub absent: bool,
}

impl RecordWord {
    /// Whether the fields are in their ranges.
    pub fn is_valid(self) -> bool
        ensures { IsTrue result ↔ IsRecord self }
    {
        match self.number {
            Some(number) => is_number(number),
            None => true,
        }
    }

    /// The word of the value.
    pub fn pack(self) -> u64
        requires { IsRecord self }
        ensures { result ≡ record_word self }
    {
        let number = match self.number {
            Some(number) => number_word(number),
            None => 0,
        };
        number + (flag(self.lock) << 60) + (flag(self.absent) << 61)
    }

    /// The value that has the word, or `None` where none has.
    pub fn parts(word: u64) -> Option<RecordWord>
        ensures { Reads IsRecord record_word word result }
    {
        let number = Number {
            draw: field(word, 0, 40),
            epoch: field(word, 40, 20) as u32,
        };
        let record = RecordWord {
            number: if field(word, 0, 60) == 0 {
                None
            } else {
                Some(number)
            },
            lock: flag_at(word, 60),
            absent: flag_at(word, 61),
        };
        if record.is_valid() && record.pack() == word {
            Some(record)
        } else {
            None
        }
    }
}
