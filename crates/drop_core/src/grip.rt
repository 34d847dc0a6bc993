// What one seat has of the pages.
ghost use Rattle.std.specs.Prelude.{◌≡◌};
ghost use Rattle.drop_core.specs.Table.{has_slot};

use lists::Sequence;

/// What one seat has of the pages. Which pointers it shut stands at the pointers.
#[derive(Drop)]
pub struct Grip {
    /// The slots that it holds: none of them is given meanwhile.
    pub holds: Sequence<u32>,
    /// The slots that it owns, or published and led nothing to.
    pub made: Sequence<u32>,
    /// The slots from which it took away what led to them.
    pub taken: Sequence<u32>,
}

/// Whether the slot is in the list.
pub fn has_slot(slots: &Sequence<u32>, slot: u32) -> bool
    ensures { result ≡ has_slot slots.now slot }
{
    is_among(slots.as_slice(), slot)
}

/// Whether it is one of these.
pub fn is_among(slots: &[u32], slot: u32) -> bool
    ensures { result ≡ has_slot slots.now slot }
{
    slots.iter().any(|s| *s == slot)
}
