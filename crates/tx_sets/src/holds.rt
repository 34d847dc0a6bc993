// The slots whose pages a transaction holds.
ghost use Rattle.std.specs.Prelude.{◌≡◌, ◌==◌, ◌≤◌, true, false, [], length};
ghost use Rattle.std.specs.List.{list_any};
ghost use Rattle.lists.specs.Each.{AreDistinct};
ghost use Rattle.tx_sets.specs.Entries.{AreNoted, IsNoted, IsPushed};

use std::marker::Model;

/// The most slots that a transaction holds.
const CAPACITY: usize = 128;

/// Of how many slots a note tells whether they are held. An engine has no more.
const NOTED: usize = 4096;

/// Up to 128 slots, each once, in the order in which they were entered. Whether one of the first 4,096 is held is known
/// without a search.
#[derive(Drop)]
pub struct Holds {
    /// The first `count` of them are held.
    slots: [u32; CAPACITY],
    count: usize,
    /// Of each of the first slots whether it is held.
    noted: [bool; NOTED],
}

impl Model for Holds {
    ghost use Rattle.std.specs.Prelude.{ℕ, List, ◌≡◌, ◌≤◌, length, take};
    ghost use Rattle.lists.specs.Each.{AreDistinct};
    ghost use Rattle.tx_sets.specs.Entries.{AreNoted};

    ghost Value = { List ℕ };

    ghost view = { λ h. take h.count h.slots };

    ghost invariant = { λ h.
        (h.count ≤ 128) × (length h.slots ≡ 128) × AreDistinct (take h.count h.slots)
        × AreNoted h.noted (take h.count h.slots) };
}

impl Holds {
    pub fn new() -> Self
        ensures { result ≡ [] }
    {
        Holds {
            slots: Default::default(),
            count: 0,
            noted: no_notes(),
        }
    }

    /// All slots that are held, in order.
    pub fn as_slice(&self) -> &[u32]
        ensures value { result.now ≡ self.now }
        ensures bound { length self.now ≤ 128 }
        ensures once { AreDistinct self.now }
    {
        &self.slots[..self.count]
    }

    pub fn is_full(&self) -> bool
        ensures value { result ≡ (length self.now == 128) }
        ensures bound { length self.now ≤ 128 }
    {
        self.count == CAPACITY
    }

    #[inline(always)]
    pub fn contains(&self, slot: u32) -> bool
        ensures { result ≡ list_any (λ s. s == slot) self.now }
    {
        if slot < 4096 {
            return self.noted[slot as usize];
        }
        self.as_slice().iter().any(|&held| held == slot)
    }

    /// Adds a slot that is not held yet. It is given back where there is no room.
    #[inline(always)]
    pub fn push(&mut self, slot: u32) -> Result<(), u32>
        requires absent { list_any (λ s. s == slot) self.old ≡ false }
        ensures { IsPushed 128 slot self.old self.new result }
    {
        let count = self.count;
        if count == CAPACITY {
            return Err(slot);
        }
        self.slots[count] = slot;
        self.count = count + 1;
        note(&mut self.noted, slot);
        Ok(())
    }

    pub fn clear(&mut self)
        ensures { self.new ≡ [] }
    {
        forget_all(&mut self.noted, &self.slots[..self.count]);
        self.count = 0;
    }
}

// Of none it is noted that it is held.
fn no_notes() -> [bool; NOTED]
    ensures { AreNoted result [] }
{
    [false; NOTED]
}

// Notes that a slot is held, where there is a note of it.
fn note(noted: &mut [bool; NOTED], slot: u32)
    requires { length noted.old ≡ 4096 }
    ensures { IsNoted slot true noted.old noted.new }
{
    if slot < 4096 {
        noted[slot as usize] = true;
    }
}

// Notes that a slot is not held any more, where there is a note of it.
fn forget(noted: &mut [bool; NOTED], slot: u32)
    requires { length noted.old ≡ 4096 }
    ensures { IsNoted slot false noted.old noted.new }
{
    if slot < 4096 {
        noted[slot as usize] = false;
    }
}

// Notes that none of these slots is held any more, which are all that were.
fn forget_all(noted: &mut [bool; NOTED], slots: &[u32])
    requires { AreNoted noted.old slots.now }
    ensures { AreNoted noted.new [] }
{
    for i in 0..slots.len() {
        forget(noted, slots[i]);
    }
}
