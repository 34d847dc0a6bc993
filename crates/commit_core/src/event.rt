// What may happen.
use crate::{Mark, Part, Word};
use homes::{Move, Spot};
use lists::Sequence;
use serial_model::{Changes, Key};

/// A seat does something.
#[derive(Drop)]
pub struct Event {
    pub seat: u32,
    pub act: Act,
}

/// What a seat may do, in one step that no other seat's step divides.
#[derive(Drop)]
pub enum Act {
    /// Read the record of an unlocked key, and keep what stands there. It replaces what was kept of its word before.
    See(Key),
    /// Keep this, which was read of a word that isn't a record's. Only the layer above knows what such a word says.
    Keep(Part),
    /// Lock a key that is not locked.
    Lock(Key),
    /// Take a commit number for an attempt with these writes, whose keys are those locked.
    Draw(Changes),
    /// Look again at a record that was read: either it is as it was read, or the attempt ends.
    Check(Spot),
    /// The same of a word that isn't a record's. Whether it is as it was read, the layer above tells.
    Confirm(Word, bool),
    /// Let the attempt count, once all its parts are checked.
    Decide,
    /// Put the new value of a key.
    Put(Key),
    /// Unlock a key.
    Open(Key),
    /// Drop what was kept.
    Forget,
    /// Move keys to other homes with the same contents, all at once. The places that they leave are dead.
    Rehome(Sequence<Move>),
    /// Go on to the next epoch.
    Advance,
    /// Say up to which epoch this seat is done with everything, and in how much of its log, or that it is idle.
    Mark(Mark),
}

/// The event's condition fails, and nothing was changed.
#[derive(Clone, Copy, Debug, PartialEq, Eq, Drop)]
pub struct NotAllowed;
