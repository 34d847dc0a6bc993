// Commit numbers, and what a commit changed.
ghost use Rattle.std.specs.Prelude.{◌≡◌, ◌<◌, ◌≤◌, [], ◌∷◌, ◌++◌, length};
ghost use Rattle.std.specs.Cmp.Lexicographic.{pointwise, lists_per, lists_equiv};
ghost use Rattle.serial_model.specs.contracts.number.ChangePartialEq.TheImpl.Laws as change_equality;
ghost use Rattle.serial_model.specs.contracts.number.ChangeEq.TheImpl.Laws as change_equivalence;

use crate::Key;
use arrayvec::ArrayVec;
use std::marker::Model;

/// A commit number, as Silo's: an epoch, and a count that goes on over epochs. Numbers are compared
/// by epoch, and then by draw.
#[derive(Clone, Copy, Debug, Default, PartialEq, Eq, PartialOrd, Ord, Hash)]
pub struct Number {
    pub epoch: u32,
    pub draw: u64,
}

/// The last epoch: its clock word is the greatest that names an epoch.
pub const LAST_EPOCH: u32 = (1 << 20) - 2;

/// How many workers there are.
pub const WORKERS: usize = 8;

/// From this draw on the clock gives no numbers: seats of 64 workers may each have one on the way.
pub const DRAW_LIMIT: u64 = (1 << 40) - 64;

/// What a run begins with.
#[derive(Clone, Copy, Debug, PartialEq, Eq)]
pub struct Config {
    /// Slots for pages in memory.
    pub slots: u32,
    /// The greatest number of resident snapshot pages.
    pub snap: u32,
    /// The first commit number.
    pub first: Number,
}

/// A key's new value, or its removal.
#[derive(Clone, Copy, Debug, Default, PartialEq, Eq)]
pub struct Change {
    pub key: Key,
    pub value: Option<u64>,
}

/// Up to 16 changes.
#[derive(Debug, Drop)]
pub struct Changes {
    list: ArrayVec<Change, 16>,
}

impl Model for Changes {
    ghost use Rattle.std.specs.Prelude.{List};
    ghost use Rattle.serial_model.specs.declared.number.Change.{Change};

    ghost Value = { List Change };

    ghost view = { λ c. c.list.items };
}

impl PartialEq for Changes {
    ghost eq = { pointwise ⟦<Change as PartialEq>⟧.eq };

    ghost laws = { lists_per change_equality.laws-law };

    fn eq(&self, other: &Self) -> bool {
        self.as_slice() == other.as_slice()
    }
}

impl Eq for Changes {
    ghost laws = { lists_equiv change_equivalence.laws-law };
}

impl Changes {
    pub fn new() -> Self
        ensures { result ≡ [] }
    {
        Changes {
            list: ArrayVec::new(),
        }
    }

    pub fn push(&mut self, change: Change)
        requires { length self.old < 16 }
        ensures { self.new ≡ self.old ++ change ∷ [] }
    {
        self.list.push(change);
    }

    pub fn as_slice(&self) -> &[Change]
        ensures value { result.now ≡ self.now }
        ensures bound { length self.now ≤ 16 }
    {
        self.list.as_slice()
    }
}

/// What a log keeps of a committed transaction: its number, and its changes in ascending order of key.
#[derive(Debug, PartialEq, Eq, Drop)]
pub struct Commit {
    pub number: Number,
    pub changes: Changes,
}
