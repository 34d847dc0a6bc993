// What can stand in the way of a composition.

/// Why no snapshot can be composed.
#[derive(Clone, Copy, Debug, PartialEq, Eq)]
pub enum ComposeFault {
    /// A page would stand below 32 others.
    Deep,
    /// So many pages and so many new ones are more than there is room for.
    Limit { have: u32, new: u64, room: u32 },
}
