// Reads that give less than there is said to be, of a disk that tells none of its bytes: of such a disk clauses say
// nothing, and a file of the system is one.
ghost use Rattle.std.specs.Prelude.{◌≡◌, ◌+◌, ◌-◌, ◌^◌, ◌<◌, None, OnErr, OnOk};

use lists::OrMemory;
use log_mapper::{MapFault, map_bank};
use log_writer::{Save, SaveOpen};
use outside::{Disk, Failed};
use serial_model::Decl;
use snapshot_store::{SnapStore, StoreFault};
use std::alloc::Global;

// A disk that says this length, in bytes, and gives half of what it is asked for. It is only read, and as its count of
// faults stands at its last value, any call of it may fail.
#[derive(Drop)]
struct HalfDisk {
    len: u64,
    clock: u64,
    // What the last read gave, in bytes.
    given: usize,
}

impl HalfDisk {
    // Counts a call, or answers that no more can be counted.
    fn begin(&mut self) -> Result<(), Failed>
        ensures ok { OnOk result (self.new.clock ≡ self.old.clock + 2) }
        ensures counted { OnOk result (self.new.clock < 2 ^ 64) }
        ensures err { OnErr result (self.new.clock ≡ self.old.clock) }
    {
        if self.clock > u64::MAX - 2 {
            return Err(Failed);
        }
        self.clock += 2;
        Ok(())
    }
}

impl Disk for HalfDisk {
    ghost tells = { λ _. None };

    ghost clock = { λ disk. disk.clock };

    ghost image_at = { λ _ _ _. Unit {0} };

    ghost faults = { λ _. 2 ^ 64 - 1 };

    ghost gave = { λ disk. disk.given };

    ghost settled = { λ _. Unit {0} };

    ghost rests = { λ _ _ _ told. absurd (cc told) };

    ghost reads = { λ _ _ _. tt };

    fn clock(&self) -> u64 {
        self.clock
    }

    fn faults(&self) -> u64 {
        u64::MAX
    }

    fn len(&mut self) -> Result<u64, Failed> {
        self.begin()?;
        Ok(self.len)
    }

    fn read(&mut self, _at: u64, buf: &mut [u8]) -> Result<usize, Failed> {
        self.begin()?;
        self.given = buf.len() / 2;
        Ok(self.given)
    }

    fn write(&mut self, _at: u64, _bytes: &[u8]) -> Result<(), Failed> {
        Err(Failed)
    }

    fn cut(&mut self, _len: u64) -> Result<(), Failed> {
        Err(Failed)
    }

    fn sync(&mut self) -> Result<(), Failed> {
        Err(Failed)
    }
}

fn half_disk(len: u64) -> HalfDisk {
    HalfDisk {
        len,
        clock: 0,
        given: 0,
    }
}

// Why a save device can't be used.
fn save_refusal() -> Option<SaveOpen> {
    let mut save = half_disk(1024);
    Save::load(&mut save).err()
}

// Why a page can't be loaded.
fn page_refusal(alloc: Global) -> Option<OrMemory<StoreFault>> {
    let mut snaps = half_disk(512);
    SnapStore::load(alloc, &mut snaps, 1).err()
}

// Why a log file can't be mapped of which a window counts.
fn bank_refusal(alloc: Global) -> Option<OrMemory<MapFault>> {
    let mut bank = half_disk(4096);
    let decls = [Decl::Array { id: 1, size: 4 }];
    map_bank(alloc, &mut bank, 0, 4096, &decls, 0, 9).err()
}

// Zeros in its place would be no savepoint at all, and a database without one is new.
#[test]
fn half_a_place_is_damaged(rt: HostRuntime) {
    assert!(rt; save_refusal() == Some(SaveOpen::Damaged { at: 0 }));
}

#[test]
fn half_a_page_is_short(rt: HostRuntime) {
    assert!(rt; page_refusal(rt.alloc()) == Some(OrMemory::Fault(StoreFault::Short { at: 256 })));
}

#[test]
fn half_a_window_is_damaged(rt: HostRuntime) {
    assert!(rt; bank_refusal(rt.alloc()) == Some(OrMemory::Fault(MapFault::Damaged { at: 2048 })));
}
