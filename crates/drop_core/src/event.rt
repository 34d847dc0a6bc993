// What may happen.
use crate::{Page, Pointer, SnapPage};
use homes::{At, Spot};
use lists::Sequence;
use serial_model::Key;

/// A seat does something.
#[derive(Drop)]
pub struct Event {
    pub seat: u32,
    pub act: Act,
}

/// What a seat may do with pages, in one step that no other seat's step divides.
#[derive(Drop)]
pub enum Act {
    /// Hold a slot.
    Enter(u32),
    /// Hold it no more.
    Leave(u32),
    /// Take a usable slot.
    Give(u32),
    /// Let an owned slot be led to.
    Publish(u32),
    /// Give up a slot that nothing leads to.
    Retire(u32),
    /// Lay out the page of an owned slot.
    FillPage(u32, Page),
    /// Set a pointer in the page of an owned slot.
    FillPointer(Spot, Pointer),
    /// Set a snapshot page above the published count.
    FillSnapshot(u32, SnapPage),
    /// Publish the snapshot pages up to this one.
    Extend(u32),
    /// Lead a pointer without a slot to this one, whose page says the same as the snapshot page.
    Install(At, u32),
    /// Lead a pointer with a slot to this snapshot page alone, which says the same as the slot's page.
    Swing(At, u32),
    /// Set the snapshot half of a pointer that leads to a slot.
    Renew(At, u32),
    /// Keep others from changing a pointer.
    Shut(At),
    /// Let them again.
    Reopen(At),
    /// Give the page of an owned slot a header, so that keys can be added to it.
    FillHeader(u32),
    /// Keep others from adding keys to a leaf.
    LockHeader(u32),
    /// Let them again, as it was or with this key behind the others.
    OpenHeader(u32, Option<Key>),
    /// Split a full leaf.
    Twin(Twins),
    /// Lead a pointer with a leaf that was split to this snapshot page alone, which says the same as the leaves below.
    SwingChain(At, u32, Chain),
}

/// A full leaf that is split in two.
#[derive(Drop)]
pub struct Twins {
    pub slot: u32,
    /// The slot of the leaf for the keys below the separator.
    pub minor: u32,
    /// That of the leaf for the others.
    pub major: u32,
    pub separator: u64,
    /// The keys of both: those of the full leaf, and one more.
    pub keys: Sequence<Key>,
}

/// What hangs on a pointer: a leaf that was split, with all that came of it.
#[derive(Drop)]
pub struct Chain {
    pub slots: Sequence<u32>,
    /// The keys of the leaves among them.
    pub keys: Sequence<Key>,
}

/// The event's condition fails, and nothing was changed.
#[derive(Clone, Copy, Debug, PartialEq, Eq, Drop)]
pub struct NotAllowed;
