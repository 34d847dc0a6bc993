// Records, pointers, and where they stand.
ghost use Rattle.std.specs.Prelude.{◌≡◌, ◌==◌};
ghost use Rattle.homes.specs.Homes.{in_span, same_number, same_value, same_content, same_spot, same_at, same_home, same_span, is_free, holder_is};

use serial_model::{Key, Number};

/// What stands at a key: its value, if it has one, and the number of the commit that wrote it.
#[derive(Clone, Copy, Debug, PartialEq, Eq)]
pub struct Content {
    /// 0:0 for what nobody wrote.
    pub number: Number,
    pub value: Option<u64>,
}

/// Who holds a word.
#[derive(Clone, Copy, Debug, PartialEq, Eq)]
pub enum Holder {
    Free,
    /// The seat with this id.
    Held(u32),
    /// Nobody any more: its page was evicted.
    Dead,
}

/// A place in a slot's page.
#[derive(Clone, Copy, Debug, PartialEq, Eq)]
pub struct Spot {
    pub slot: u32,
    /// Which of the page's records or pointers it is, from 0 on.
    pub index: usize,
}

/// Where a pointer stands.
#[derive(Clone, Copy, Debug, PartialEq, Eq)]
pub enum At {
    /// At the root of the storage with this index.
    Root(usize),
    In(Spot),
}

/// The keys of a storage from the low one to the high one, both with them. It is empty where low is above high.
#[derive(Clone, Copy, Debug, PartialEq, Eq)]
pub struct Span {
    pub storage: u8,
    pub low: u64,
    pub high: u64,
}

/// Where a key's current record is.
#[derive(Clone, Copy, Debug, PartialEq, Eq)]
pub enum Home {
    InSlot(Spot),
    /// An entry of the snapshot page with this number. It never changes.
    InPage(u32, Content),
    Nowhere,
}

/// A key's new home.
#[derive(Clone, Copy, Debug, PartialEq, Eq)]
pub struct Move {
    pub key: Key,
    pub home: Home,
}

impl Content {
    pub fn is(self, other: Content) -> bool
        ensures { result ≡ same_content self other }
    {
        self.number.epoch == other.number.epoch
            && self.number.draw == other.number.draw
            && is_same_value(self.value, other.value)
    }
}

impl Holder {
    pub fn is_free(self) -> bool
        ensures { result ≡ is_free self }
    {
        matches!(self, Holder::Free)
    }

    /// Whether that seat holds it.
    pub fn is(self, seat: u32) -> bool
        ensures { result ≡ holder_is seat self }
    {
        match self {
            Holder::Free | Holder::Dead => false,
            Holder::Held(id) => id == seat,
        }
    }
}

impl Spot {
    pub fn is(self, other: Spot) -> bool
        ensures { result ≡ same_spot self other }
    {
        self.slot == other.slot && self.index == other.index
    }
}

impl At {
    pub fn is(self, other: At) -> bool
        ensures { result ≡ same_at self other }
    {
        match self {
            At::Root(root) => at_root(root, other),
            At::In(spot) => at_spot(spot, other),
        }
    }
}

impl Span {
    /// Whether the key is one of these.
    pub fn has(self, key: Key) -> bool
        ensures { result ≡ in_span self key }
    {
        key.storage == self.storage && self.low <= key.key && key.key <= self.high
    }

    pub fn is(self, other: Span) -> bool
        ensures { result ≡ same_span self other }
    {
        self.storage == other.storage && self.low == other.low && self.high == other.high
    }
}

impl Home {
    pub fn is(self, other: Home) -> bool
        ensures { result ≡ same_home self other }
    {
        match self {
            Home::InSlot(spot) => in_slot(spot, other),
            Home::InPage(page, content) => in_page(page, content, other),
            Home::Nowhere => nowhere(other),
        }
    }
}

fn is_same_value(a: Option<u64>, b: Option<u64>) -> bool
    ensures { result ≡ same_value a b }
{
    match a {
        None => b.is_none(),
        Some(value) => is_value(value, b),
    }
}

fn is_value(value: u64, b: Option<u64>) -> bool
    ensures { result ≡ same_value (Some value) b }
{
    match b {
        None => false,
        Some(other) => value == other,
    }
}

fn at_root(root: usize, other: At) -> bool
    ensures { result ≡ same_at (At.Root root) other }
{
    match other {
        At::Root(index) => root == index,
        At::In(_) => false,
    }
}

fn at_spot(spot: Spot, other: At) -> bool
    ensures { result ≡ same_at (At.In spot) other }
{
    match other {
        At::Root(_) => false,
        At::In(place) => spot.is(place),
    }
}

fn in_slot(spot: Spot, other: Home) -> bool
    ensures { result ≡ same_home (Home.InSlot spot) other }
{
    match other {
        Home::InSlot(place) => spot.is(place),
        Home::InPage(_, _) => false,
        Home::Nowhere => false,
    }
}

fn in_page(page: u32, content: Content, other: Home) -> bool
    ensures { result ≡ same_home (Home.InPage page content) other }
{
    match other {
        Home::InSlot(_) => false,
        Home::InPage(number, entry) => page == number && content.is(entry),
        Home::Nowhere => false,
    }
}

fn nowhere(other: Home) -> bool
    ensures { result ≡ same_home Home.Nowhere other }
{
    match other {
        Home::InSlot(_) => false,
        Home::InPage(_, _) => false,
        Home::Nowhere => true,
    }
}
