// The log files, read one after another: the entries that count, and the first byte that is no line.
ghost use Rattle.std.specs.Prelude.{◌≡◌, ◌≢◌, ◌<◌, ◌^◌, ◌/◌, ℕ, List, Some, Err, IfOk, length, map};
ghost use Rattle.std.specs.Prelude.{filter, slice_get};
ghost use Rattle.std.specs.List.{AllByRecursion};
ghost use Rattle.std.specs.FinMap.{get};
ghost use Rattle.log_writer.specs.Vault.{IsWhole};
ghost use Rattle.outside.specs.declared.device.Device.{Device as TheDevice};
ghost use Rattle.serial_model.specs.Keys.{id_of};
ghost use Rattle.serial_model.specs.declared.key.Key.{Key};
ghost use Rattle.serial_model.specs.declared.number.Commit.{Commit};
ghost use Rattle.wire_form.specs.Items.{Rises};
ghost use Rattle.wire_form.specs.declared.savepoint.Savepoint.{Savepoint};
ghost use Rattle.recovery_core.specs.Damage.{FilesBreak, FilesReadBefore};
ghost use Rattle.log_mapper.specs.Mapped.{AreMappedLines};
ghost use Rattle.recovery_core.specs.EntriesRead.{Maps, MapsIn};
ghost use Rattle.recovery_core.specs.EntriesRun.{AllMayCount};
ghost use Rattle.joint_crashes.specs.Images.{Images};
ghost use Rattle.joint_crashes.specs.JointCrash.{parts_of};
ghost use Rattle.recovery_core.specs.LogEntries.{logged, counts, last_of, AreCounted};
ghost use Rattle.joint_crashes.specs.Resting.{AreTold};
ghost use Rattle.recovery_core.specs.ReadsDevices.{ReadsDevices};

use crate::fault::RecoverFault;
use crate::last_entries::LastEntries;
use lists::OrMemory;
use log_mapper::{Buckets, MapFault, map_bank};
use log_writer::Vault;
use outside::{Device, Disk};
use serial_model::Decl;
use std::alloc::Global;

// Maps one of some log files, the one with this number.
fn map_one<D: Disk>(
    alloc: Global,
    disks: &mut [D],
    bank: u8,
    counted: u64,
    decls: &[Decl],
    from: u32,
    to: u32,
) -> Result<Buckets, OrMemory<MapFault>>
    requires within { bank / 2 < length disks.old }
    requires size { counted < 2 ^ 40 }
    ensures maps { (was : D) → slice_get disks.old (bank / 2) ≡ Some was
        → (now : D) × (slice_get disks.new (bank / 2) ≡ Some now)
        × Maps D.tells D.clock D.image_at D.faults bank counted decls.now from to was now result }
    ensures lines { IfOk result (λ buckets. (bytes : List ℕ) × AreMappedLines bank decls.now from to bytes buckets) }
    ensures others { (other : ℕ) → other ≢ bank / 2
        → slice_get disks.new other ≡ slice_get disks.old other }
    ensures len { length disks.new ≡ length disks.old }
{
    let at = (bank / 2) as usize;
    map_bank(alloc, &mut disks[at], bank, counted, decls, from, to)
}

// Maps the log file of the database with this number.
fn map_in<D: Disk>(
    alloc: Global,
    vault: &mut Vault<D>,
    bank: u8,
    counted: u64,
    decls: &[Decl],
    from: u32,
    to: u32,
) -> Result<Buckets, OrMemory<MapFault>>
    requires whole { IsWhole vault.old }
    requires bank { bank < 16 }
    requires size { counted < 2 ^ 40 }
    ensures maps { MapsIn D.tells D.clock D.image_at D.faults bank counted decls.now from to
        vault.old vault.new result }
    ensures lines { IfOk result (λ buckets. (bytes : List ℕ) × AreMappedLines bank decls.now from to bytes buckets) }
{
    if bank % 2 == 0 {
        return map_one(alloc, &mut vault.even, bank, counted, decls, from, to);
    }
    map_one(alloc, &mut vault.odd, bank, counted, decls, from, to)
}

// What is told of a log file that can't be mapped.
fn fault_of(bank: u8, fault: OrMemory<MapFault>) -> OrMemory<RecoverFault>
    ensures damaged { (device : TheDevice) (at : ℕ) → result ≡ OrMemory.Fault (RecoverFault.Damaged device at)
        → (device ≡ Device.Bank bank) × (fault ≡ OrMemory.Fault (MapFault.Damaged at)) }
    ensures device { (device : TheDevice) → result ≡ OrMemory.Fault (RecoverFault.Device device)
        → (device ≡ Device.Bank bank) × (fault ≡ OrMemory.Fault MapFault.Device) }
    ensures failed { fault ≡ OrMemory.Fault MapFault.Device
        → result ≡ OrMemory.Fault (RecoverFault.Device (Device.Bank bank)) }
{
    let device = Device::Bank(bank);
    match fault {
        OrMemory::Fault(MapFault::Device) => OrMemory::Fault(RecoverFault::Device(device)),
        OrMemory::Fault(MapFault::Damaged { at }) => OrMemory::Fault(RecoverFault::Damaged {
            device,
            at,
        }),
        OrMemory::Memory => OrMemory::Memory,
    }
}

/// The last entry of each key, of the entries that count of the log files 0 to 15: those with epochs above
/// `from` and at most `to`. Each counted byte is read once, and of one log file at a time.
pub(crate) fn read_entries<D: Disk>(
    alloc: Global,
    vault: &mut Vault<D>,
    lengths: &[u64; 16],
    decls: &[Decl],
    from: u32,
    to: u32,
) -> Result<LastEntries, OrMemory<RecoverFault>>
    requires whole { IsWhole vault.old }
    requires sizes { AllByRecursion (λ n. n < 2 ^ 40) lengths.now }
    requires rising { Rises ◌<◌ (map id_of decls.now) }
    ensures lasts { IfOk result (λ last. (found : Images) → AreTold D.tells (parts_of vault.old) found
        → (p : Savepoint) → p.lengths ≡ lengths.now
        → (lines : List (List Commit)) × AreCounted decls.now p found.bank lines
        × ((key : Key) → get last key ≡ last_of key (filter (counts from to) (logged lines)))) }
    ensures may_count { IfOk result (AllMayCount decls.now from to) }
    ensures damaged { (device : TheDevice) (at : ℕ) → result ≡ Err (OrMemory.Fault (RecoverFault.Damaged device at))
        → (found : Images) → AreTold D.tells (parts_of vault.old) found
        → (p : Savepoint) → p.lengths ≡ lengths.now
        → (n : ℕ) × (device ≡ Device.Bank n) × FilesBreak decls.now p found.bank n at }
    ensures before { (device : TheDevice) → result ≡ Err (OrMemory.Fault (RecoverFault.Device device))
        → (found : Images) → AreTold D.tells (parts_of vault.old) found
        → (p : Savepoint) → p.lengths ≡ lengths.now
        → (n : ℕ) × (device ≡ Device.Bank n) × FilesReadBefore decls.now p found.bank n }
    ensures devices { ReadsDevices D.tells D.clock D.image_at D.faults vault.old vault.new result }
{
    let mut last = LastEntries::new(alloc);
    for bank in 0..16u8 {
        let buckets = match map_in(alloc, vault, bank, lengths[bank as usize], decls, from, to) {
            Ok(buckets) => buckets,
            Err(fault) => return Err(fault_of(bank, fault)),
        };
        last.take_in_buckets(buckets.as_slice())?;
    }
    Ok(last)
}
