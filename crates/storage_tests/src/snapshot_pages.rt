// Pages at work, over disks in memory.
ghost use Rattle.std.specs.Prelude.{◌≡◌};

use lists::OrMemory;
use outside::{Disk, MemDisk};
use snapshot_store::{SnapStore, StoreFault};
use std::alloc::{AllocError, Global};
use std::process::Abort;
use std::test::Fail;
use wire_form::{Page, PageKind};

// A page whose first and last words say which it is.
fn page(number: u32, first: u64) -> Page
    ensures { result.number ≡ number }
{
    let mut words = [0; 64];
    words[0] = first;
    words[63] = u64::from(number);
    Page {
        number,
        kind: PageKind::Catalogue,
        words,
    }
}

fn disk(alloc: Global, len: usize, fails: &[u64]) -> Result<MemDisk, AllocError> {
    MemDisk::new(alloc, vec![in alloc; 0u8; len]?, fails.to_vec(alloc)?)
}

fn bytes(disk: &MemDisk) -> &[u8] {
    disk.bytes()
}

fn faults(disk: &MemDisk) -> u64 {
    disk.faults()
}

// Why so many pages can't be read of a device of so many bytes.
fn refusal(alloc: Global, len: usize, count: u32) -> Result<Option<OrMemory<StoreFault>>, Fail> {
    let mut snaps = disk(alloc, len, &[])?;
    Ok(SnapStore::load(alloc, &mut snaps, count).err())
}

fn is_found(rt: &impl Abort, found: &[u8]) {
    assert!(rt; found.len() == 512);
    assert!(rt; &found[..8] == [1, 2, 3, 4, 5, 6, 7, 8].as_slice());
}

// Adds a page to a store that has none, brings it to the device, and loads it again.
fn comes_back(rt: &impl Abort, alloc: Global, snaps: &mut MemDisk) {
    let mut store = SnapStore::load(alloc, snaps, 0).expect(rt, "no page");
    let first = store.append(snaps, &[page(1, 0x0102_0304_0506_0708)]);
    assert!(rt; first == Ok(1));
    assert!(rt; store.count() == 1);
    assert!(rt; store.sound());
    let synced = store.sync(snaps);
    assert!(rt; synced.is_ok());
    is_found(rt, bytes(snaps));
    let again = SnapStore::load(alloc, snaps, 1).expect(rt, "one page");
    assert!(rt; again.count() == 1);
    assert!(rt; again.page(1) == store.page(1));
}

#[test]
fn pages_come_back(rt: HostRuntime) -> Result<(), Fail> {
    let mut snaps = disk(rt.alloc(), 0, &[])?;
    comes_back(&rt, rt.alloc(), &mut snaps);
    Ok(())
}

// Five calls of the device.
fn use_pages(alloc: Global, snaps: &mut MemDisk) -> Result<(), OrMemory<StoreFault>> {
    let mut store = SnapStore::load(alloc, snaps, 2)?;
    store.append(snaps, &[page(3, 7)])?;
    match store.sync(snaps) {
        Ok(()) => Ok(()),
        Err(fault) => Err(OrMemory::Fault(fault)),
    }
}

// What they answer over a device of two pages whose call of this number fails, how many faults it had, and how many
// bytes it has then.
fn used_with(
    alloc: Global,
    number: u64,
) -> Result<(Result<(), OrMemory<StoreFault>>, u64, usize), AllocError> {
    let mut snaps = disk(alloc, 1024, &[number])?;
    let used = use_pages(alloc, &mut snaps);
    Ok((used, faults(&snaps), bytes(&snaps).len()))
}

const DEVICE: OrMemory<StoreFault> = OrMemory::Fault(StoreFault::Device);

#[test]
fn each_call_fails_once(rt: HostRuntime) -> Result<(), Fail> {
    let alloc = rt.alloc();
    for number in 0..5 {
        let (used, faults, _) = used_with(alloc, number)?;
        assert!(rt; used == Err(DEVICE));
        assert!(rt; faults == 1);
    }
    let (used, _, length) = used_with(alloc, 5)?;
    assert!(rt; used.is_ok());
    assert!(rt; length == 1536);
    Ok(())
}

#[test]
fn refusals_have_their_numbers(rt: HostRuntime) -> Result<(), Fail> {
    let alloc = rt.alloc();
    let short = OrMemory::Fault(StoreFault::Short { at: 1023 });
    let refused = refusal(alloc, 1023, 2)?;
    assert!(rt; refused == Some(short));
    let limit = OrMemory::Fault(StoreFault::Limit { count: 65_537 });
    let refused = refusal(alloc, 1023, 65_537)?;
    assert!(rt; refused == Some(limit));
    Ok(())
}
