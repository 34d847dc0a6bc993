// The pages of snapshots in memory, and their device.
ghost use Rattle.std.specs.Prelude.{◌≡◌, ◌+◌, ◌-◌, ◌≤◌, ℕ, List, Some, Err, true, length, is_ok, slice_get};
ghost use Rattle.std.specs.Prelude.{OnOk, OnErr};
ghost use Rattle.outside.specs.Disk.{IfTold};
ghost use Rattle.outside.specs.Faults.{Rose};
ghost use Rattle.outside.specs.Fronts.{AllBegin, KeepsSince};
ghost use Rattle.snapshot_store.specs.Store.{NumberedFrom, bytes_of_pages, IsWhole, HoldsPages, Syncs};
ghost use Rattle.snapshot_store.specs.Appends.{AppendsPages, AppendsDurably};
ghost use Rattle.snapshot_store.specs.Places.{page};
ghost use Rattle.snapshot_store.specs.Content.{words_of};

use crate::write::add;
use lists::OrMemory;
use outside::{Disk, Failed};
use std::marker::Model;
use wire_form::Page;

/// The greatest page number.
pub(crate) const MOST: u64 = 65_536;

/// The size of a page on the device, in bytes.
pub(crate) const SIZE: u64 = 512;

/// Why pages can't be read or written.
#[derive(Clone, Copy, Debug, PartialEq, Eq)]
pub enum StoreFault {
    /// The device's count of faults rose.
    Device,
    /// The device has fewer bytes than the pages: this many.
    Short { at: u64 },
    /// There would be so many pages, more than there are numbers for.
    Limit { count: u64 },
}

/// The pages of all snapshots. A page that was read or added never changes.
#[derive(Drop)]
pub struct SnapStore {
    pub(crate) pages: Vec<Page>,
    pub(crate) sound: bool,
}

impl Model for SnapStore {
    ghost use Rattle.snapshot_store.specs.Store.{StoreState, AreStored};

    ghost Value = { StoreState };

    ghost view = { λ s. record { pages = s.pages.items; sound = s.sound } };

    ghost invariant = { λ s. AreStored s.pages.items };
}

impl SnapStore {
    /// How many pages there are.
    pub fn count(&self) -> u32
        ensures count { result ≡ length self.now.pages }
        ensures few { result ≤ 65536 }
    {
        self.pages.len() as u32
    }

    /// Whether no call answered that the device failed. After one that did the pages have to be
    /// loaded again, since nobody knows what the device kept of them.
    pub fn sound(&self) -> bool
        ensures { result ≡ self.now.sound }
    {
        self.sound
    }

    /// The page of this number.
    pub fn page(&self, number: u32) -> &Page
        requires first { 1 ≤ number }
        requires last { number ≤ length self.now.pages }
        ensures page { slice_get self.now.pages (number - 1) ≡ Some result.now }
        ensures number { result.now.number ≡ number }
        ensures whole { IsWhole result.now }
    {
        &self.pages[number as usize - 1]
    }

    /// The words of the page of this number, as pages name it.
    pub fn words(&self, number: u64) -> &[u64; 64]
        requires first { 1 ≤ number }
        requires last { number ≤ length self.now.pages }
        ensures words { result.now ≡ page (words_of self.now.pages) number }
        ensures long { length result.now ≡ 64 }
        ensures number { number ≤ 65536 }
    {
        let count = u64::from(self.count());
        prove!(number <= count);
        &self.page(number as u32).words
    }

    /// Adds pages behind the others, and gives the number of the first. They count once `sync` has
    /// answered `Ok`; until then a stop may leave anything behind the pages that were there.
    pub fn append<D: Disk>(
        &mut self,
        disk: &mut D,
        pages: &[Page],
    ) -> Result<u32, OrMemory<StoreFault>>
        requires sound { self.old.sound ≡ true }
        requires numbered { NumberedFrom (length self.old.pages + 1) pages.now }
        requires holds { HoldsPages D.tells disk.old self.old.pages }
        ensures { AppendsPages D.tells D.clock D.image_at D.faults pages.now self.old self.new
            disk.old disk.new result }
    {
        let first = self.pages.len() as u32 + 1;
        let count = self.pages.len() as u64 + pages.len() as u64;
        if count > MOST {
            return Err(OrMemory::Fault(StoreFault::Limit { count }));
        }
        match add(&mut self.pages, disk, pages) {
            Ok(()) => Ok(first),
            Err(OrMemory::Memory) => Err(OrMemory::Memory),
            Err(OrMemory::Fault(fault)) => {
                self.sound = false;
                Err(OrMemory::Fault(fault))
            }
        }
    }

    /// Makes all pages durable: after `Ok` each crash image begins with them.
    pub fn sync<D: Disk>(&mut self, disk: &mut D) -> Result<(), StoreFault>
        requires sound { self.old.sound ≡ true }
        requires holds { HoldsPages D.tells disk.old self.old.pages }
        ensures pages { self.new.pages ≡ self.old.pages }
        ensures sound { self.new.sound ≡ is_ok result }
        ensures device { OnErr result ((result ≡ Err StoreFault.Device)
            × Rose (D.faults disk.old) (D.faults disk.new)) }
        ensures durable { OnOk result (IfTold (D.tells disk.old) (λ _.
            AllBegin (D.image_at disk.new (D.clock disk.new)) (bytes_of_pages self.new.pages))) }
        ensures syncs { Syncs D.tells D.clock D.image_at D.faults disk.old disk.new (is_ok result) }
        ensures holds { HoldsPages D.tells disk.new self.new.pages }
        ensures stays { (since : ℕ) (front : List ℕ) → since ≤ D.clock disk.old
            → KeepsSince D.clock D.image_at disk.old since front
            → KeepsSince D.clock D.image_at disk.new since front }
    {
        match disk.sync() {
            Ok(()) => Ok(()),
            Err(Failed) => {
                self.sound = false;
                Err(StoreFault::Device)
            }
        }
    }

    /// Adds pages behind the others, and makes all durable: [`SnapStore::append`], and then [`SnapStore::sync`].
    pub fn append_durably<D: Disk>(
        &mut self,
        disk: &mut D,
        pages: &[Page],
    ) -> Result<(), OrMemory<StoreFault>>
        requires sound { self.old.sound ≡ true }
        requires numbered { NumberedFrom (length self.old.pages + 1) pages.now }
        requires few { length self.old.pages + length pages.now ≤ 65536 }
        requires holds { HoldsPages D.tells disk.old self.old.pages }
        ensures { AppendsDurably D.tells D.clock D.image_at D.faults pages.now self.old self.new
            disk.old disk.new result }
    {
        match self.append(disk, pages) {
            Ok(_) => {}
            Err(fault) => return Err(fault),
        }
        match self.sync(disk) {
            Ok(()) => Ok(()),
            Err(fault) => Err(OrMemory::Fault(fault)),
        }
    }
}
