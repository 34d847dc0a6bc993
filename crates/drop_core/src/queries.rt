// What the table says: look-ups, the homes of keys, and what is live.
ghost use Rattle.std.specs.Prelude.{◌≡◌, ◌==◌};
ghost use Rattle.std.specs.List.{find};
ghost use Rattle.std.specs.Option.{option_copied, option_map_or};
ghost use Rattle.homes.specs.Homes.{look, same_at};
ghost use Rattle.drop_core.specs.Table.{fresh_slot, slot_of, page_of, no_span, pointer_of, header_of, snap_of, snap_walk, snap_home, entry_home, child_of, leaf_home, has_pointer, is_led, is_never, is_live, is_split};
ghost use Rattle.drop_core.specs.Event.{is_open, is_owned, is_published, is_usable, leaf_keys, led_span, slot_span};

use crate::{Led, Page, Pointer, Slot, SlotState, SnapPage, Table};
use homes::{At, Content, Holder, Home, Span, Spot};
use serial_model::Key;

/// A slot is given so many times at most.
pub const MOST_TIMES: u64 = 70_368_744_177_663;

impl Led {
    pub fn is_from(self) -> bool
        ensures { result ≡ is_led self }
    {
        match self {
            Led::Never | Led::Away => false,
            Led::From(_) => true,
        }
    }

    pub fn is_never(self) -> bool
        ensures { result ≡ is_never self }
    {
        match self {
            Led::Never => true,
            Led::From(_) | Led::Away => false,
        }
    }
}

impl SlotState {
    pub fn is_owned(self) -> bool
        ensures { result ≡ is_owned self }
    {
        matches!(self, SlotState::Owned)
    }

    pub fn is_published(self) -> bool
        ensures { result ≡ is_published self }
    {
        matches!(self, SlotState::Published)
    }
}

impl Slot {
    /// Whether it may be given.
    pub fn is_usable(self) -> bool
        ensures { result ≡ is_usable self }
    {
        matches!(self.state, SlotState::Unused | SlotState::Retired)
            && self.passes == 0
            && self.times < MOST_TIMES
    }
}

impl Table {
    pub fn slot(&self, slot: u32) -> Slot
        ensures { result ≡ slot_of self.now slot }
    {
        slot_in(self.slots.as_slice(), slot)
    }

    pub fn pointer(&self, at: At) -> Pointer
        ensures { result ≡ pointer_of self.now at }
    {
        match find_pointer(self.pointers.as_slice(), at) {
            Some(entry) => entry.1,
            None => Pointer {
                span: no_span(),
                slot: None,
                page: 0,
                holder: Holder::Dead,
            },
        }
    }

    /// The page in a slot, if one was laid out.
    pub fn page(&self, slot: u32) -> Option<&Page>
        ensures { option_map_or (λ p. p) (option_copied result) Page.Blank ≡ page_of self.now slot }
    {
        match find_page(self.pages.as_slice(), slot) {
            Some(entry) => Some(&entry.1),
            None => None,
        }
    }

    /// Who holds the header of the page in a slot. A page without one has one that is dead.
    pub fn header(&self, slot: u32) -> Holder
        ensures { result ≡ header_of self.now slot }
    {
        match find_header(self.headers.as_slice(), slot) {
            Some(entry) => entry.1,
            None => Holder::Dead,
        }
    }

    /// The keys of the records in a slot's page.
    pub fn leaf_keys(&self, slot: u32) -> &[Key]
        ensures { result.now ≡ leaf_keys (page_of self.now slot) }
    {
        match self.page(slot) {
            None | Some(Page::Blank) | Some(Page::Inner(_)) | Some(Page::Split) => &[],
            Some(Page::Leaf(keys)) => keys.as_slice(),
        }
    }

    /// Whether the page in a slot is a leaf that was split.
    pub fn is_split(&self, slot: u32) -> bool
        ensures { result ≡ is_split (page_of self.now slot) }
    {
        match self.page(slot) {
            None | Some(Page::Blank) | Some(Page::Inner(_)) | Some(Page::Leaf(_)) => false,
            Some(Page::Split) => true,
        }
    }

    /// The keys that the page in a slot is over, where something leads to it, and else none.
    pub fn slot_span(&self, slot: u32) -> Span
        ensures { result ≡ slot_span self.now slot }
    {
        self.led_span(self.slot(slot).led)
    }

    fn led_span(&self, led: Led) -> Span
        ensures { result ≡ led_span self.now led }
    {
        match led {
            Led::Never | Led::Away => no_span(),
            Led::From(at) => self.pointer(at).span,
        }
    }

    /// The snapshot page of a number, if one was filled.
    pub fn snap(&self, number: u32) -> Option<&SnapPage>
        ensures { option_map_or (λ p. p) (option_copied result) SnapPage.Missing ≡ snap_of self.now number }
    {
        match find_snap(self.snaps.as_slice(), number) {
            Some(entry) => Some(&entry.1),
            None => None,
        }
    }

    /// A key's home by the snapshot page of this number.
    pub fn home(&self, number: u32, key: Key) -> Home
        ensures { result ≡ snap_home self.now number key }
    {
        self.home_within(number, number, key)
    }

    /// The same, on a way of so many pages at most.
    fn home_within(&self, most: u32, number: u32, key: Key) -> Home
        ensures { result ≡ snap_walk most (snap_of self.now) number key }
    {
        if most == 0 {
            return Home::Nowhere;
        }
        let Some(page) = self.snap(number) else {
            return Home::Nowhere;
        };
        match page {
            SnapPage::Missing => Home::Nowhere,
            SnapPage::Entries(_, entries) => entry_home(number, entries.as_slice(), key),
            SnapPage::Children(_, children) => {
                self.home_within(most - 1, child_of(children.as_slice(), key), key)
            }
        }
    }

    pub fn has_pointer(&self, slot: u32, index: usize) -> bool
        ensures { result ≡ has_pointer (page_of self.now slot) index }
    {
        match self.page(slot) {
            None | Some(Page::Blank) | Some(Page::Leaf(_)) => false,
            Some(Page::Inner(count)) => index < *count,
            Some(Page::Split) => index < 2,
        }
    }

    /// Whether it is a root's pointer, or one in a page that something leads to.
    pub fn is_live(&self, at: At) -> bool
        ensures { result ≡ is_live self.now at }
    {
        match at {
            At::Root(_) => true,
            At::In(spot) => self.is_live_in(spot),
        }
    }

    fn is_live_in(&self, spot: Spot) -> bool
        ensures { result ≡ is_live self.now (At.In spot) }
    {
        self.slot(spot.slot).led.is_from() && self.has_pointer(spot.slot, spot.index)
    }

    /// Whether it is live and nobody has shut it.
    pub fn is_open(&self, at: At) -> bool
        ensures { result ≡ is_open self.now at }
    {
        self.is_live(at) && self.pointer(at).holder.is_free()
    }
}

/// The slot of this number in a list of slots.
pub fn slot_in(slots: &[(u32, Slot)], slot: u32) -> Slot
    ensures { result ≡ look (λ a b. a == b) fresh_slot slots.now slot }
{
    match find_slot(slots, slot) {
        Some(entry) => entry.1,
        None => Slot {
            state: SlotState::Unused,
            passes: 0,
            times: 0,
            led: Led::Never,
        },
    }
}

fn find_slot(slots: &[(u32, Slot)], slot: u32) -> Option<(u32, Slot)>
    ensures { result ≡ find (λ e. e.0 == slot) slots.now }
{
    slots.iter().copied().find(|entry| entry.0 == slot)
}

fn find_pointer(pointers: &[(At, Pointer)], at: At) -> Option<(At, Pointer)>
    ensures { result ≡ find (λ e. same_at e.0 at) pointers.now }
{
    pointers.iter().copied().find(|entry| entry.0.is(at))
}

fn find_page(pages: &[(u32, Page)], slot: u32) -> Option<&(u32, Page)>
    ensures { option_copied result ≡ find (λ e. e.0 == slot) pages.now }
{
    pages.iter().find(|entry| entry.0 == slot)
}

fn find_header(headers: &[(u32, Holder)], slot: u32) -> Option<(u32, Holder)>
    ensures { result ≡ find (λ e. e.0 == slot) headers.now }
{
    headers.iter().copied().find(|entry| entry.0 == slot)
}

fn find_snap(snaps: &[(u32, SnapPage)], number: u32) -> Option<&(u32, SnapPage)>
    ensures { option_copied result ≡ find (λ e. e.0 == number) snaps.now }
{
    snaps.iter().find(|entry| entry.0 == number)
}

/// A key's home by the entries of the page with this number.
fn entry_home(number: u32, entries: &[(Key, Content)], key: Key) -> Home
    ensures { result ≡ entry_home number entries.now key }
{
    for entry in entries {
        if entry.0 == key {
            return Home::InPage(number, entry.1);
        }
    }
    Home::Nowhere
}

/// The page that the first child with the key leads to, or 0.
pub fn child_of(children: &[(Span, u32)], key: Key) -> u32
    ensures { result ≡ child_of children.now key }
{
    for child in children {
        if child.0.has(key) {
            return child.1;
        }
    }
    0
}

/// The home of a key in the leaf of a slot.
pub fn leaf_home(slot: u32, keys: &[Key], key: Key) -> Home
    ensures { result ≡ leaf_home slot 0 keys.now key }
{
    let mut index = 0;
    for k in keys {
        if *k == key {
            return Home::InSlot(Spot { slot, index });
        }
        index += 1;
    }
    Home::Nowhere
}

/// A span without keys.
pub fn no_span() -> Span
    ensures { result ≡ no_span }
{
    Span {
        storage: 0,
        low: 1,
        high: 0,
    }
}
