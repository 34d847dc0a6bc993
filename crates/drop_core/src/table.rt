// What all seats share: slots, the pages in them, pointers, and snapshot pages.
ghost use Rattle.std.specs.Prelude.{◌≡◌};
ghost use Rattle.std.specs.Option.{option_map_or};

use homes::{At, Content, Holder, Span};
use lists::Sequence;
use serial_model::Key;

#[derive(Clone, Copy)]
pub enum SlotState {
    /// It was never given.
    Unused,
    /// A seat fills its page.
    Owned,
    /// Pointers may lead to it.
    Published,
    /// It may be given again, once no seat holds it.
    Retired,
}

/// What leads to a slot since it was last given. No word of the engine has this.
#[derive(Clone, Copy)]
pub enum Led {
    /// Nothing has led to it.
    Never,
    /// This pointer does.
    From(At),
    /// A pointer did, and nothing does any more: its page is dead.
    Away,
}

#[derive(Clone, Copy)]
pub struct Slot {
    pub state: SlotState,
    /// How many seats hold it.
    pub passes: u64,
    /// How often it was given.
    pub times: u64,
    pub led: Led,
}

/// What the page in a slot is laid out as.
#[derive(Drop)]
pub enum Page {
    Blank,
    /// The keys of its records, in the order of their places. What stands in the places is no affair of this
    /// machine.
    Leaf(Sequence<Key>),
    /// With so many pointers.
    Inner(usize),
    /// A leaf that was split: it has two pointers, dead from the start, to the leaves that have its keys now.
    Split,
}

/// A pointer has a volatile half, a slot, and a snapshot half, a page number or 0.
#[derive(Clone, Copy)]
pub struct Pointer {
    /// The keys below it. No word of the engine has this: it is fixed by where the pointer stands.
    pub span: Span,
    pub slot: Option<u32>,
    pub page: u32,
    pub holder: Holder,
}

/// A snapshot page.
#[derive(Drop)]
pub enum SnapPage {
    /// It was not filled.
    Missing,
    /// A leaf over these keys, with the records that it has.
    Entries(Span, Sequence<(Key, Content)>),
    /// An interior page over these keys, with the pages that it leads to.
    Children(Span, Sequence<(Span, u32)>),
}

/// The shared state. Of the entries of one slot, pointer or page in a list the first counts: what changes is put in
/// front.
#[derive(Drop)]
pub struct Table {
    pub slots: Sequence<(u32, Slot)>,
    pub pages: Sequence<(u32, Page)>,
    pub pointers: Sequence<(At, Pointer)>,
    /// Who holds the header of a slot's page. A page without one, which no key can be added to, has one that is dead.
    /// What else a header says is fixed by the page: how many records it has, and whether it was split.
    pub headers: Sequence<(u32, Holder)>,
    pub snaps: Sequence<(u32, SnapPage)>,
    /// Snapshot pages up to this number are published: they never change.
    pub published: u32,
    /// How many slots there are.
    pub room: u32,
}
