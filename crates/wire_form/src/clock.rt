// The words that tell the time: the clock and the marks.
ghost use Rattle.std.specs.Prelude.{◌≡◌, ◌↔◌, IsTrue};
ghost use Rattle.wire_form.specs.Items.{Reads};
ghost use Rattle.wire_form.specs.Words.{IsClock, clock_word, IsMark, mark_word};

use crate::bits::field;
use serial_model::LAST_EPOCH;

/// The word of an epoch: the clock's draws stand below it.
pub const EPOCH: u64 = 1 << 40;

/// The clock word: how many numbers were drawn, and the epoch.
#[derive(Clone, Copy, Debug, PartialEq, Eq)]
pub struct Clock {
    /// Below 2^40.
    pub draws: u64,
    /// Below 2^20.
    pub epoch: u32,
}

impl Clock {
    /// Whether the fields are in their ranges.
    pub fn is_valid(self) -> bool
        ensures { IsTrue result ↔ IsClock self }
    {
        self.draws < 1 << 40 && self.epoch < 1 << 20
    }

    /// The word of the value.
    pub fn pack(self) -> u64
        requires { IsClock self }
        ensures { result ≡ clock_word self }
    {
        self.draws + (u64::from(self.epoch) << 40)
    }

    /// The value that has the word, or `None` where none has.
    pub fn parts(word: u64) -> Option<Clock>
        ensures { Reads IsClock clock_word word result }
    {
        let clock = Clock {
            draws: field(word, 0, 40),
            epoch: field(word, 40, 20) as u32,
        };
        if clock.is_valid() && clock.pack() == word {
            Some(clock)
        } else {
            None
        }
    }
}

/// The mark of a worker: an epoch, and the length up to which its log file has all commits of the
/// epochs before.
#[derive(Clone, Copy, Debug, PartialEq, Eq)]
pub struct Mark {
    /// In bytes, below 2^40.
    pub length: u64,
    /// At most the last; `None` says that the worker is idle.
    pub epoch: Option<u32>,
}

/// The epoch field of an idle worker's mark.
const IDLE: u32 = LAST_EPOCH + 1;

impl Mark {
    /// Whether the fields are in their ranges.
    pub fn is_valid(self) -> bool
        ensures { IsTrue result ↔ IsMark self }
    {
        let epoch = match self.epoch {
            Some(epoch) => epoch <= LAST_EPOCH,
            None => true,
        };
        self.length < 1 << 40 && epoch
    }

    /// The word of the value.
    pub fn pack(self) -> u64
        requires { IsMark self }
        ensures { result ≡ mark_word self }
    {
        let epoch = self.epoch.unwrap_or(IDLE);
        self.length + (u64::from(epoch) << 40)
    }

    /// The value that has the word, or `None` where none has.
    pub fn parts(word: u64) -> Option<Mark>
        ensures { Reads IsMark mark_word word result }
    {
        let epoch = field(word, 40, 20) as u32;
        let mark = Mark {
            length: field(word, 0, 40),
            epoch: if epoch == IDLE { None } else { Some(epoch) },
        };
        if mark.is_valid() && mark.pack() == word {
            Some(mark)
        } else {
            None
        }
    }
}
