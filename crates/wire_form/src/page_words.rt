// The words that hold pages together: headers, pointers and slots.
ghost use Rattle.std.specs.Prelude.{◌≡◌, ◌<◌, ◌↔◌, IsTrue};
ghost use Rattle.wire_form.specs.Items.{Reads};
ghost use Rattle.wire_form.specs.Words.{IsHeader, header_word, IsPair, pair_word, IsSlot, slot_word, state_field};

use crate::bits::{field, flag, flag_at};

/// The first word of a tree's page.
#[derive(Clone, Copy, Debug, PartialEq, Eq)]
pub struct Header {
    /// Of a leaf's records, at most 16, or of an interior page's children, 2 to 30.
    pub count: u8,
    /// 1 for a leaf, 2 for an interior page.
    pub kind: u8,
    pub lock: bool,
    /// Whether the page was split; an interior page never is moved.
    pub moved: bool,
}

impl Header {
    /// Whether the fields are in their ranges.
    pub fn is_valid(self) -> bool
        ensures { IsTrue result ↔ IsHeader self }
    {
        match self.kind {
            1 => self.count <= 16,
            2 => 2 <= self.count && self.count <= 30 && !self.moved,
            _ => false,
        }
    }

    /// The word of the value.
    pub fn pack(self) -> u64
        requires { IsHeader self }
        ensures { result ≡ header_word self }
    {
        let low = u64::from(self.count) + (u64::from(self.kind) << 8);
        low + (flag(self.lock) << 60) + (flag(self.moved) << 62)
    }

    /// The value that has the word, or `None` where none has.
    pub fn parts(word: u64) -> Option<Header>
        ensures { Reads IsHeader header_word word result }
    {
        let header = Header {
            count: field(word, 0, 8) as u8,
            kind: field(word, 8, 8) as u8,
            lock: flag_at(word, 60),
            moved: flag_at(word, 62),
        };
        if header.is_valid() && header.pack() == word {
            Some(header)
        } else {
            None
        }
    }
}

/// A pointer: a page of the snapshot, a slot with a page in memory, or both, and whether it is shut.
#[derive(Clone, Copy, Debug, PartialEq, Eq)]
pub struct Pair {
    /// The snapshot page's number, at most 65,536, or 0 for none.
    pub page: u32,
    /// Below 4,096.
    pub slot: Option<u32>,
    pub shut: bool,
}

impl Pair {
    /// Whether the fields are in their ranges.
    pub fn is_valid(self) -> bool
        ensures { IsTrue result ↔ IsPair self }
    {
        let slot = match self.slot {
            Some(slot) => slot < 4096,
            None => true,
        };
        self.page <= 65_536 && slot
    }

    /// The word of the value.
    pub fn pack(self) -> u64
        requires { IsPair self }
        ensures { result ≡ pair_word self }
    {
        let slot = match self.slot {
            Some(slot) => u64::from(slot) + 1,
            None => 0,
        };
        u64::from(self.page) + (slot << 32) + (flag(self.shut) << 60)
    }

    /// The value that has the word, or `None` where none has.
    pub fn parts(word: u64) -> Option<Pair>
        ensures { Reads IsPair pair_word word result }
    {
        let slot = field(word, 32, 16) as u32;
        let pair = Pair {
            page: field(word, 0, 32) as u32,
            slot: if slot == 0 { None } else { Some(slot - 1) },
            shut: flag_at(word, 60),
        };
        if pair.is_valid() && pair.pack() == word {
            Some(pair)
        } else {
            None
        }
    }
}

/// Where a slot stands.
#[derive(Clone, Copy, Debug, PartialEq, Eq)]
pub enum SlotState {
    Free,
    Owned,
    Published,
    Retired,
}

impl SlotState {
    fn to_field(self) -> u64
        ensures { result ≡ state_field self }
    {
        match self {
            SlotState::Free => 0,
            SlotState::Owned => 1,
            SlotState::Published => 2,
            SlotState::Retired => 3,
        }
    }

    fn from_field(bits: u64) -> SlotState
        requires { bits < 4 }
        ensures { state_field result ≡ bits }
    {
        match bits {
            0 => SlotState::Free,
            1 => SlotState::Owned,
            2 => SlotState::Published,
            _ => SlotState::Retired,
        }
    }
}

/// The word of a slot: how many seats hold its page, its state, and how often it was given.
#[derive(Clone, Copy, Debug, PartialEq, Eq)]
pub struct SlotWord {
    pub passes: u16,
    pub state: SlotState,
    /// Below 2^46.
    pub times: u64,
}

impl SlotWord {
    /// Whether the fields are in their ranges.
    pub fn is_valid(self) -> bool
        ensures { IsTrue result ↔ IsSlot self }
    {
        self.times < 1 << 46
    }

    /// The word of the value.
    pub fn pack(self) -> u64
        requires { IsSlot self }
        ensures { result ≡ slot_word self }
    {
        u64::from(self.passes) + (self.state.to_field() << 16) + (self.times << 18)
    }

    /// The value that has the word, or `None` where none has: each word has one.
    pub fn parts(word: u64) -> Option<SlotWord>
        ensures { Reads IsSlot slot_word word result }
    {
        Some(SlotWord {
            passes: field(word, 0, 16) as u16,
            state: SlotState::from_field(field(word, 16, 2)),
            times: field(word, 18, 46),
        })
    }
}
