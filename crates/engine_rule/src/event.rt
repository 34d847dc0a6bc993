// What may happen.
use homes::{At, Content, Spot};
use serial_model::Key;

/// A seat does something.
#[derive(Drop)]
pub struct JointEvent {
    pub seat: u32,
    pub act: JointAct,
}

/// What a seat may do, in one step that no other seat's step divides.
#[derive(Drop)]
pub enum JointAct {
    /// An act of the machine of commits. What pages say is no part of it: `Keep`, `Confirm` and `Rehome` are refused.
    Commit(commit_core::Act),
    /// Read a pointer that leads to no slot, and keep what is below its snapshot page.
    SeePointer(At),
    /// Look again at a pointer that was read: either it is as it was read, or the attempt ends.
    CheckPointer(At),
    /// Read the header of the leaf in this slot, and keep that no other key of its span is there.
    SeeHeader(u32),
    /// Look again at a header that was read.
    CheckHeader(u32),
    /// Set a record for the key, which is absent, behind those of a leaf whose header the seat holds.
    AddRecord(u32, Key),
    /// Open the header with that key: what the seat kept of it goes on.
    AddKey(u32, Key),
    /// Set a record in the page of an owned slot.
    FillRecord(Spot, Content),
    /// An act of the machine of pages. It moves keys, or none. To open a header with a key is `AddKey`.
    Turn(drop_core::Act),
}
