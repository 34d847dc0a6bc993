// The devices of one database, with what was recorded of their use.
ghost use Rattle.std.specs.Prelude.{◌≡◌, ◌≢◌, ◌↔◌, ◌+◌, ◌<◌, ◌≤◌, ℕ, [], ◌∷◌, ◌++◌, Some, IsSome, IsTrue, length, slice_get};
ghost use Rattle.log_writer.specs.Save.{IsNewest};
ghost use Rattle.log_writer.specs.Vault.{disk_in, Cuts, CutsIn, Syncs, SyncsIn, IsWhole};

use crate::{Cut, Records, Tie};
use outside::{Device, Disk, Failed};
use serial_model::WORKERS;

/// The devices of one database directory. Worker w writes the log files `even[w]` and `odd[w]` in
/// turn, so that one is closed while the other grows.
#[derive(Drop)]
pub struct Vault<D> {
    /// The savepoint, in two places.
    pub save: D,
    /// The pages of all snapshots, one after another.
    pub snaps: D,
    pub even: Vec<D>,
    pub odd: Vec<D>,
    /// The stores of `save`, and the cuts, in the order in which they began: what each says was so as it began.
    pub ties: Records<Tie>,
    pub cuts: Records<Cut>,
}

impl<D: Disk> Vault<D> {
    /// Whether it has two log files for each of eight workers.
    pub fn is_whole(&self) -> bool
        ensures { IsTrue result ↔ IsWhole self.now }
    {
        self.even.len() == WORKERS && self.odd.len() == WORKERS
    }

    /// Cuts a device to nothing, and records the cut. What is recorded stands whether the cut answers
    /// `Ok` or not, since one that failed may be done in part. The save is never cut, and room for the
    /// record is made before: a cut must not begin and then go unrecorded for want of memory. The save
    /// names a savepoint of the sequence that is recorded, and nothing is pending of it: so a stop that
    /// meets the device behind the cut meets the save behind the store of that savepoint.
    pub fn cut_in(&mut self, device: Device, after: u64) -> Result<(), Failed>
        requires room { 1 ≤ self.old.cuts.room }
        requires device { IsSome (disk_in self.old device) }
        requires not_save { device ≢ Device.Save }
        requires newest { IsNewest D.tells D.clock D.image_at self.old.save after }
        ensures cut { CutsIn D.tells D.clock D.image_at D.faults device self.old self.new result }
        ensures recorded { (was : D) → disk_in self.old device ≡ Some was → self.new.cuts.items
            ≡ self.old.cuts.items ++ record { device = device; at = D.clock was; after = after } ∷ [] }
        ensures room { self.old.cuts.room ≡ self.new.cuts.room + 1 }
        ensures save { self.new.save ≡ self.old.save }
        ensures ties { self.new.ties ≡ self.old.ties }
    {
        let at = self.clock_of(device);
        self.cuts.push(Cut { device, at, after });
        self.cut_device(device)
    }

    /// Brings what was written to a device to the device itself, by whomever it was written.
    pub fn sync_in(&mut self, device: Device) -> Result<(), Failed>
        requires { IsSome (disk_in self.old device) }
        ensures synced { SyncsIn D.tells D.clock D.image_at D.faults D.settled device
            self.old self.new result }
        ensures ties { self.new.ties ≡ self.old.ties }
        ensures cuts { self.new.cuts ≡ self.old.cuts }
    {
        match device {
            Device::Save => sync_one(&mut self.save),
            Device::Snaps => sync_one(&mut self.snaps),
            Device::Bank(number) => self.sync_bank(number),
        }
    }

    fn sync_bank(&mut self, number: u8) -> Result<(), Failed>
        requires { IsSome (disk_in self.old (Device.Bank number)) }
        ensures synced { SyncsIn D.tells D.clock D.image_at D.faults D.settled (Device.Bank number)
            self.old self.new result }
        ensures ties { self.new.ties ≡ self.old.ties }
        ensures cuts { self.new.cuts ≡ self.old.cuts }
    {
        let worker = (number / 2) as usize;
        if number % 2 == 0 {
            return sync_at(&mut self.even, worker);
        }
        sync_at(&mut self.odd, worker)
    }

    fn clock_of(&self, device: Device) -> u64
        requires { IsSome (disk_in self.now device) }
        ensures { (disk : D) → disk_in self.now device ≡ Some disk → result ≡ D.clock disk }
    {
        match device {
            Device::Save => self.save.clock(),
            Device::Snaps => self.snaps.clock(),
            Device::Bank(number) => self.clock_of_bank(number),
        }
    }

    fn clock_of_bank(&self, number: u8) -> u64
        requires { IsSome (disk_in self.now (Device.Bank number)) }
        ensures { (disk : D) → disk_in self.now (Device.Bank number) ≡ Some disk
            → result ≡ D.clock disk }
    {
        let worker = (number / 2) as usize;
        if number % 2 == 0 {
            return self.even[worker].clock();
        }
        self.odd[worker].clock()
    }

    // Cuts a device to nothing, and records nothing.
    fn cut_device(&mut self, device: Device) -> Result<(), Failed>
        requires { IsSome (disk_in self.old device) }
        ensures cut { CutsIn D.tells D.clock D.image_at D.faults device self.old self.new result }
        ensures ties { self.new.ties ≡ self.old.ties }
        ensures cuts { self.new.cuts ≡ self.old.cuts }
    {
        match device {
            Device::Save => self.save.cut(0),
            Device::Snaps => self.snaps.cut(0),
            Device::Bank(number) => self.cut_bank(number),
        }
    }

    fn cut_bank(&mut self, number: u8) -> Result<(), Failed>
        requires { IsSome (disk_in self.old (Device.Bank number)) }
        ensures cut { CutsIn D.tells D.clock D.image_at D.faults (Device.Bank number)
            self.old self.new result }
        ensures ties { self.new.ties ≡ self.old.ties }
        ensures cuts { self.new.cuts ≡ self.old.cuts }
    {
        let worker = (number / 2) as usize;
        if number % 2 == 0 {
            return cut_one(&mut self.even, worker);
        }
        cut_one(&mut self.odd, worker)
    }
}

// Cuts one of some disks to nothing, and leaves the others.
fn cut_one<D: Disk>(disks: &mut [D], at: usize) -> Result<(), Failed>
    requires { at < length disks.old }
    ensures cut { (was : D) → slice_get disks.old at ≡ Some was
        → (now : D) × (slice_get disks.new at ≡ Some now)
        × Cuts D.tells D.clock D.image_at D.faults 0 was now result }
    ensures others { (other : ℕ) → other ≢ at
        → slice_get disks.new other ≡ slice_get disks.old other }
    ensures len { length disks.new ≡ length disks.old }
{
    disks[at].cut(0)
}

// Syncs one of some disks, and leaves the others.
fn sync_at<D: Disk>(disks: &mut [D], at: usize) -> Result<(), Failed>
    requires { at < length disks.old }
    ensures synced { (was : D) → slice_get disks.old at ≡ Some was
        → (now : D) × (slice_get disks.new at ≡ Some now)
        × Syncs D.tells D.clock D.image_at D.faults D.settled was now result }
    ensures others { (other : ℕ) → other ≢ at
        → slice_get disks.new other ≡ slice_get disks.old other }
    ensures len { length disks.new ≡ length disks.old }
{
    sync_one(&mut disks[at])
}

fn sync_one<D: Disk>(disk: &mut D) -> Result<(), Failed>
    ensures { Syncs D.tells D.clock D.image_at D.faults D.settled disk.old disk.new result }
{
    disk.sync()
}
