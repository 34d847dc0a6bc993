// Pages are written behind those that are there, in one call.
ghost use Rattle.std.specs.Prelude.{◌≡◌, ◌≢◌, ◌+◌, ◌*◌, ◌≤◌, ◌++◌, Err, length, is_ok, IfOk, OnOk, OnErr};
ghost use Rattle.std.specs.List.{AllByRecursion};
ghost use Rattle.outside.specs.Faults.{Rose};
ghost use Rattle.snapshot_store.specs.declared.store.StoreFault.{StoreFault as Fault};
ghost use Rattle.snapshot_store.specs.Store.{bytes_of_page, bytes_of_pages, IsWhole, HoldsPages, WritesAt};

use crate::StoreFault;
use crate::store::SIZE;
use lists::OrMemory;
use outside::{Disk, Failed};
use std::alloc::{AllocError, Global};
use wire_form::{Page, write_page};

// The bytes of a page, behind others.
fn push_bytes(bytes: &mut Vec<u8>, page: &Page) -> Result<(), AllocError>
    ensures bytes { OnOk result (bytes.new.items ≡ bytes.old.items ++ bytes_of_page page.now) }
    ensures size { OnOk result (IsWhole page.now) }
{
    let mut written = [0; 512];
    write_page(page, &mut written);
    bytes.extend_from_slice(&written)
}

// The bytes of pages, one after another.
fn all_bytes(alloc: Global, pages: &[Page]) -> Result<Vec<u8>, AllocError>
    requires { length pages.now ≤ 65536 }
    ensures bytes { IfOk result (λ bytes. bytes.items ≡ bytes_of_pages pages.now) }
    ensures whole { OnOk result (AllByRecursion IsWhole pages.now) }
{
    let mut bytes = Vec::with_capacity(alloc, pages.len() * 512)?;
    for page in pages {
        push_bytes(&mut bytes, page)?;
    }
    Ok(bytes)
}

// Writes pages behind those that are there. Memory is taken before: a write must not be begun and
// then be forgotten for want of it.
pub fn add<D: Disk>(
    there: &mut Vec<Page>,
    disk: &mut D,
    pages: &[Page],
) -> Result<(), OrMemory<StoreFault>>
    requires few { length there.old.items + length pages.now ≤ 65536 }
    requires whole { AllByRecursion IsWhole there.old.items }
    requires holds { HoldsPages D.tells disk.old there.old.items }
    ensures pages { OnOk result (there.new.items ≡ there.old.items ++ pages.now) }
    ensures whole { AllByRecursion IsWhole there.new.items }
    ensures kept { OnErr result (there.new.items ≡ there.old.items) }
    ensures device { result ≡ Err (OrMemory.Fault StoreFault.Device) → Rose (D.faults disk.old) (D.faults disk.new) }
    ensures causes { (fault : Fault) → result ≡ Err (OrMemory.Fault fault) → fault ≡ StoreFault.Device }
    ensures memory { result ≡ Err OrMemory.Memory → disk.new ≡ disk.old }
    ensures writes { WritesAt D.tells D.clock D.image_at D.faults (512 * length there.old.items)
        (bytes_of_pages pages.now) disk.old disk.new (is_ok result) }
{
    let alloc = *there.allocator();
    let Ok(bytes) = all_bytes(alloc, pages) else {
        return Err(OrMemory::Memory);
    };
    let Ok(()) = there.reserve(pages.len()) else {
        return Err(OrMemory::Memory);
    };
    match disk.write(SIZE * there.len() as u64, &bytes) {
        Ok(()) => {
            there.extend_from_slice(pages).unwrap();
            Ok(())
        }
        Err(Failed) => Err(OrMemory::Fault(StoreFault::Device)),
    }
}
