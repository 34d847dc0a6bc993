// What is recorded of the stores and cuts of a database's devices.
ghost use Rattle.std.specs.Prelude.{◌≡◌, ◌+◌, ◌≤◌, [], ◌∷◌, ◌++◌, OnOk};

use outside::Device;
use std::alloc::{AllocError, Global};
use std::marker::Model;

/// A store of a savepoint that was begun.
#[derive(Clone, Copy, Debug, PartialEq, Eq)]
pub struct Tie {
    /// The sequence that was stored.
    pub sequence: u64,
    /// The clock of `snaps` as the store began.
    pub snaps: u64,
    /// The clock of `save` once the store answered `Ok`.
    pub ended: Option<u64>,
}

/// A cut of a device to nothing that was begun.
#[derive(Clone, Copy, Debug, PartialEq, Eq)]
pub struct Cut {
    pub device: Device,
    /// The device's clock as the cut began.
    pub at: u64,
    /// The newest sequence then.
    pub after: u64,
}

/// A list of what was recorded, with room for more. Only a store or a cut adds to it, and by that what stands in it
/// was so: none can be added late.
#[derive(Drop)]
pub struct Records<T> {
    list: Vec<T>,
}

impl<T> Model for Records<T> {
    ghost use Rattle.std.specs.Prelude.{◌-◌, vec_capacity, vec_len};
    ghost use Rattle.log_writer.specs.Recorded.{Recorded};

    ghost Value = { Recorded T };

    ghost view = { λ r. record { items = r.list.items; room = vec_capacity r.list - vec_len r.list } };
}

impl<T> Records<T> {
    /// Nothing was recorded.
    pub fn new(alloc: Global) -> Self
        ensures none { result.items ≡ [] }
    {
        Records {
            list: Vec::new(alloc),
        }
    }

    /// Makes room for so many more.
    pub fn reserve(&mut self, more: usize) -> Result<(), AllocError>
        ensures items { self.new.items ≡ self.old.items }
        ensures room { OnOk result (more ≤ self.new.room) }
    {
        self.list.reserve(more)
    }

    /// All that was recorded, in its order.
    pub fn as_slice(&self) -> &[T]
        ensures items { result.now ≡ self.now.items }
    {
        &self.list
    }

    /// Records one more.
    pub(crate) fn push(&mut self, item: T)
        requires room { 1 ≤ self.old.room }
        ensures items { self.new.items ≡ self.old.items ++ item ∷ [] }
        ensures room { self.old.room ≡ self.new.room + 1 }
    {
        self.list.push_reserved(item);
    }
}

impl<T: Drop> Records<T> {
    /// Forgets what was recorded.
    pub fn clear(&mut self)
        ensures none { self.new.items ≡ [] }
    {
        self.list.clear();
    }
}
