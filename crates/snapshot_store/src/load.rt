// Pages are read from the device, one after another.
ghost use Rattle.std.specs.Prelude.{◌*◌, ◌≤◌, length};
ghost use Rattle.outside.specs.Disk.{IfTold};
ghost use Rattle.snapshot_store.specs.Loads.{LoadsStore, ReadsFront, ReadsPage};

use crate::store::{MOST, SIZE};
use crate::{SnapStore, StoreFault};
use lists::OrMemory;
use outside::{Disk, Failed};
use std::alloc::Global;
use wire_form::{Page, PageKind, words_of_page};

// Reads the page of this number, whatever it is.
fn read_one<D: Disk>(disk: &mut D, number: u32) -> Result<Page, OrMemory<StoreFault>>
    requires first { 1 ≤ number }
    requires long { IfTold (D.tells disk.old) (λ file. 512 * number ≤ length file) }
    ensures { ReadsPage D.tells D.clock D.image_at D.faults D.gave number disk.old disk.new result }
{
    let at = SIZE * u64::from(number - 1);
    let mut bytes = [0; 512];
    let Ok(count) = disk.read(at, &mut bytes) else {
        return Err(OrMemory::Fault(StoreFault::Device));
    };
    if count < 512 {
        let at = at + count as u64;
        return Err(OrMemory::Fault(StoreFault::Short { at }));
    }
    Ok(Page {
        number,
        kind: PageKind::Catalogue,
        words: words_of_page(&bytes),
    })
}

// Reads so many pages.
fn read_all<D: Disk>(
    alloc: Global,
    disk: &mut D,
    count: u32,
) -> Result<Vec<Page>, OrMemory<StoreFault>>
    requires few { count ≤ 65536 }
    requires long { IfTold (D.tells disk.old) (λ file. 512 * count ≤ length file) }
    ensures { ReadsFront D.tells D.clock D.image_at D.faults count disk.old disk.new result
        (λ pages. pages.items) }
{
    let Ok(mut pages) = Vec::with_capacity(alloc, count as usize) else {
        return Err(OrMemory::Memory);
    };
    for i in 0..count {
        let page = read_one(disk, i + 1)?;
        let Ok(()) = pages.push(page) else {
            return Err(OrMemory::Memory);
        };
    }
    Ok(pages)
}

impl SnapStore {
    /// Reads so many pages from the front of the device, whatever they are: what kind each is, the
    /// place that names it says, and `kind` is the catalogue's for all of them.
    pub fn load<D: Disk>(
        alloc: Global,
        disk: &mut D,
        count: u32,
    ) -> Result<SnapStore, OrMemory<StoreFault>>
        ensures { LoadsStore D.tells D.clock D.image_at D.faults count disk.old disk.new result }
    {
        let wanted = u64::from(count);
        if wanted > MOST {
            return Err(OrMemory::Fault(StoreFault::Limit { count: wanted }));
        }
        let Ok(at) = disk.len() else {
            return Err(OrMemory::Fault(StoreFault::Device));
        };
        if at < SIZE * wanted {
            return Err(OrMemory::Fault(StoreFault::Short { at }));
        }
        let pages = read_all(alloc, disk, count)?;
        Ok(SnapStore { pages, sound: true })
    }
}
