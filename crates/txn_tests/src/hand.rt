// Where a hand stands: what the definitions speak of.

use engine_pages::Pass;

/// What a hand has of slots of its own.
#[derive(Clone, Copy, Debug, PartialEq, Eq)]
pub enum Slot {
    None,
    /// It was given this one, whose page it may fill.
    Own(u32),
    /// It published this one, to which nothing leads.
    Put(u32),
}

/// A pass that is given slots, and holds them.
#[derive(Drop)]
pub struct Hand {
    pub pass: Pass,
    pub own: Slot,
    pub held: Option<u32>,
    /// How often it was given a slot.
    pub given: u64,
    /// How often a slot was given while it held it.
    pub lost: u64,
}
