// Pages on the way to a key, and where the way ends.
use homes::{At, Span};
use tx_sets::Seen;

/// A page of a tree in a slot that the pass holds, over these keys.
#[derive(Clone, Copy, Debug, PartialEq, Eq)]
pub struct Page {
    pub slot: u32,
    pub span: Span,
}

/// A leaf in a slot that the pass holds, over these keys, with its header's word as it was last seen, not moved.
#[derive(Clone, Copy, Debug, PartialEq, Eq)]
pub struct Leaf {
    pub slot: u32,
    pub span: Span,
    pub header: u64,
}

/// A pointer at this place over these keys, which was last seen to lead to no slot.
#[derive(Clone, Copy, Debug, PartialEq, Eq)]
pub struct Bare {
    pub place: At,
    pub span: Span,
    pub pointer: Seen,
}

/// Where the pages in memory end on the way to a key.
#[derive(Clone, Copy, Debug, PartialEq, Eq)]
pub enum End {
    Leaf(Leaf),
    Below(Bare),
}
