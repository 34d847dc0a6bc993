ghost use Rattle.std.specs.Prelude.{◌≤◌, ◌≡◌, ◌+◌, ◌<◌, [], None, IfOk};
ghost use Rattle.outside.specs.Disk.{IfTold, Only};
ghost use Rattle.log_writer.specs.Points.{IsSaved};
ghost use Rattle.log_writer.specs.Save.{IsStored};

use crate::disks::disk;
use crate::forms::savepoint::is_second;
use log_writer::{Records, Save, SaveFault, SaveOpen, Saved, Tie, Vault, one_newest};
use outside::{Disk, MemDisk};
use std::alloc::{AllocError, Global};
use std::process::Abort;
use std::test::Fail;
use wire_form::{Savepoint, write_savepoint};

// What counts once an epoch is saved with so many bytes of the first log file.
pub(super) fn saved(epoch: u32, length: u64) -> Saved {
    let mut lengths = [0; 16];
    lengths[0] = length;
    Saved {
        epoch,
        catalogue: 1,
        count: 1,
        lengths,
    }
}

// The device after its first two stores, and with other sequences and first bytes in its places.
fn device(sequences: [u64; 2], valid: [u8; 2]) -> [u8; 1024] {
    let mut bytes = [0; 1024];
    for i in 0..2 {
        let mut lengths = [0; 16];
        lengths[0] = 40 * i as u64;
        let point = Savepoint {
            sequence: sequences[i],
            epoch: i as u32,
            catalogue: 1,
            count: 1,
            lengths,
        };
        let mut place = [0; 512];
        if point.is_valid() {
            write_savepoint(&point, &mut place);
        }
        place[0] = valid[i];
        bytes[512 * i..512 * i + 512].copy_from_slice(&place);
    }
    bytes
}

// The newest sequence of a device, and what its savepoint says.
fn load(disk: &mut MemDisk) -> Result<(u64, Option<Saved>), SaveOpen> {
    let (save, saved) = Save::load(disk)?;
    Ok((save.sequence(), saved))
}

// What a device of these bytes answers as it is loaded.
fn loads(
    rt: &impl Abort,
    alloc: Global,
    bytes: &[u8],
    want: Result<(u64, Option<Saved>), SaveOpen>,
) -> Result<(), AllocError> {
    let mut disk = disk(alloc, bytes, &[])?;
    let loaded = load(&mut disk);
    assert_eq!(rt; loaded, want);
    Ok(())
}

const LAST: u64 = (1 << 63) - 1;

// The sequences and the first bytes of the places, the newest sequence, and the epoch of its savepoint.
const PLACES: [([u64; 2], [u8; 2], u64, Option<u32>); 7] = [
    ([1, 2], [0, 0], 0, None),
    ([1, 2], [0xA5, 0], 1, Some(0)),
    ([1, 2], [0, 0xA5], 2, Some(1)),
    ([1, 2], [0xA5, 0xA5], 2, Some(1)),
    ([3, 2], [0xA5, 0xA5], 3, Some(0)),
    ([3, 2], [0xA4, 0xA5], 2, Some(1)),
    ([LAST, 2], [0xA5, 0xA5], LAST, Some(0)),
];

// What the savepoint of this epoch says: of the first log file 40 bytes count from epoch 1 on.
fn saved_at(epoch: Option<u32>) -> Option<Saved> {
    match epoch {
        None => None,
        Some(0) => Some(saved(0, 0)),
        Some(epoch) => Some(saved(epoch, 40)),
    }
}

#[test]
fn which_place_counts(rt: HostRuntime) -> Result<(), Fail> {
    for (sequences, valid, sequence, epoch) in &PLACES {
        let want = Ok((*sequence, saved_at(*epoch)));
        loads(&rt, rt.alloc(), &device(*sequences, *valid), want)?;
    }
    Ok(())
}

// The sequences and the first bytes of the places, and where the damage is.
const DAMAGED: [([u64; 2], [u8; 2], u64); 5] = [
    ([2, 2], [0xA5, 0xA5], 0),
    ([0, 2], [0xA5, 0xA5], 0),
    ([1, 3], [0xA5, 0xA5], 512),
    ([1, 0], [0, 0xA5], 512),
    ([2, 1], [0xA5, 0xA5], 0),
];

#[test]
fn an_open_place_without_a_savepoint(rt: HostRuntime) -> Result<(), Fail> {
    for (sequences, valid, at) in &DAMAGED {
        let want = Err(SaveOpen::Damaged { at: *at });
        loads(&rt, rt.alloc(), &device(*sequences, *valid), want)?;
    }
    Ok(())
}

#[test]
fn another_length(rt: HostRuntime) -> Result<(), Fail> {
    let bytes = device([1, 2], [0xA5, 0xA5]);
    for len in [0, 3, 512, 1023] {
        let want = Err(SaveOpen::Damaged { at: 0 });
        loads(&rt, rt.alloc(), &bytes[..len], want)?;
    }
    Ok(())
}

// What came of a store.
#[derive(Clone, Copy, Debug, PartialEq, Eq)]
enum Came {
    Refused(SaveOpen),
    // What the last store answered.
    Faulty(Result<(), SaveFault>),
    Stored,
}

// The store of a device on which nothing is pending.
pub(super) fn open<D: Disk>(disk: &mut D) -> Result<Save, SaveOpen>
    requires { IfTold (D.tells disk.old) (Only D.clock D.image_at disk.old) }
    ensures up { IfOk result (λ save. save.down ≡ None) }
    ensures stored { IfOk result (λ save. IsStored D.tells D.clock D.image_at disk.new save.newest) }
{
    let (save, _) = Save::load(disk)?;
    Ok(save)
}

// Loads and stores, and stores once more where the store is down. The vault has no log file of which something counts.
fn store_once<D: Disk>(vault: &mut Vault<D>, saved: Saved) -> Came
    requires settled { IfTold (D.tells vault.old.save) (Only D.clock D.image_at vault.old.save) }
    requires even { vault.old.even.items ≡ [] }
    requires odd { vault.old.odd.items ≡ [] }
    requires room { 2 ≤ vault.old.ties.room }
{
    let mut save = match open(&mut vault.save) {
        Ok(save) => save,
        Err(refused) => return Came::Refused(refused),
    };
    if !saved.is_valid() {
        return Came::Refused(SaveOpen::Damaged { at: 0 });
    }
    match save.store_in(vault, saved) {
        Ok(()) => Came::Stored,
        Err(SaveFault::Device) => Came::Faulty(save.store_in(vault, saved)),
        Err(fault) => Came::Faulty(Err(fault)),
    }
}

fn vault(alloc: Global, bytes: &[u8], fails: &[u64]) -> Result<Vault<MemDisk>, AllocError>
    ensures settled { IfOk result (λ vault. IfTold (⟦<MemDisk as Disk>⟧.tells vault.save)
        (Only ⟦<MemDisk as Disk>⟧.clock ⟦<MemDisk as Disk>⟧.image_at vault.save)) }
    ensures even { IfOk result (λ vault. vault.even.items ≡ []) }
    ensures odd { IfOk result (λ vault. vault.odd.items ≡ []) }
    ensures room { IfOk result (λ vault. 2 ≤ vault.ties.room) }
{
    let mut ties = Records::new(alloc);
    ties.reserve(2)?;
    let save = disk(alloc, bytes, fails)?;
    let snaps = disk(alloc, &[], &[])?;
    Ok(Vault {
        save,
        snaps,
        even: Vec::new(alloc),
        odd: Vec::new(alloc),
        ties,
        cuts: Records::new(alloc),
    })
}

fn bytes(disk: &MemDisk) -> &[u8] {
    disk.bytes()
}

// One tie tells of a third store, where it was begun.
fn is_tied(rt: &impl Abort, ties: &[Tie], came: Came) {
    let ended = if came == Came::Stored { Some(20) } else { None };
    let tie = Tie {
        sequence: 3,
        snaps: 0,
        ended,
    };
    if came == Came::Refused(SaveOpen::Device) {
        assert!(rt; ties.is_empty());
    } else {
        assert!(rt; ties == [tie].as_slice());
    }
}

// The newest sequence of a device of these bytes.
fn newest(alloc: Global, bytes: &[u8]) -> Result<u64, Fail> {
    let mut disk = disk(alloc, bytes, &[])?;
    match load(&mut disk) {
        Ok((sequence, _)) => Ok(sequence),
        Err(_) => Err(Fail::from("damage")),
    }
}

// This comes of a third store.
fn is_stored(rt: &impl Abort, vault: &mut Vault<MemDisk>, came: Came)
    requires settled { IfTold (⟦<MemDisk as Disk>⟧.tells vault.old.save)
        (Only ⟦<MemDisk as Disk>⟧.clock ⟦<MemDisk as Disk>⟧.image_at vault.old.save) }
    requires even { vault.old.even.items ≡ [] }
    requires odd { vault.old.odd.items ≡ [] }
    requires room { 2 ≤ vault.old.ties.room }
{
    let answer = store_once(vault, saved(7, 80));
    assert!(rt; answer == came);
    is_tied(rt, vault.ties.as_slice(), came);
}

// This comes of a third store, over a device whose call of this number fails; the newest sequence behind it.
fn store_at(rt: &impl Abort, alloc: Global, number: u64, came: Came) -> Result<u64, Fail> {
    let mut vault = vault(alloc, &device([1, 2], [0xA5, 0xA5]), &[number])?;
    is_stored(rt, &mut vault, came);
    newest(alloc, bytes(&vault.save))
}

const REFUSED: Came = Came::Refused(SaveOpen::Device);

const FAULTY: Came = Came::Faulty(Err(SaveFault::Down { faults: 1 }));

const STORES: [(u64, Came, u64); 11] = [
    (0, REFUSED, 2),
    (1, REFUSED, 2),
    (2, REFUSED, 2),
    (3, FAULTY, 2),
    (4, FAULTY, 2),
    (5, FAULTY, 2),
    (6, FAULTY, 2),
    (7, FAULTY, 2),
    (8, FAULTY, 2),
    (9, FAULTY, 2),
    (10, Came::Stored, 3),
];

// The third store, in the first place: the calls of loading and storing, each of which fails once. Where the last sync
// fails the valid byte is taken back.
#[test]
fn a_store_at_each_fault(rt: HostRuntime) -> Result<(), Fail> {
    for (number, came, sequence) in &STORES {
        let found = store_at(&rt, rt.alloc(), *number, *came)?;
        assert!(rt; found == *sequence);
    }
    Ok(())
}

// A store behind the last sequence is refused, and changes nothing.
fn is_last(rt: &impl Abort, vault: &mut Vault<MemDisk>, was: &[u8])
    requires settled { IfTold (⟦<MemDisk as Disk>⟧.tells vault.old.save)
        (Only ⟦<MemDisk as Disk>⟧.clock ⟦<MemDisk as Disk>⟧.image_at vault.old.save) }
    requires even { vault.old.even.items ≡ [] }
    requires odd { vault.old.odd.items ≡ [] }
    requires room { 2 ≤ vault.old.ties.room }
{
    let came = store_once(vault, saved(7, 80));
    let limit = SaveFault::Limit { sequence: LAST };
    assert!(rt; came == Came::Faulty(Err(limit)));
    assert!(rt; vault.ties.as_slice().is_empty());
    assert!(rt; bytes(&vault.save) == was);
}

#[test]
fn the_last_sequence_is_a_limit(rt: HostRuntime) -> Result<(), Fail> {
    let was = device([LAST, 2], [0xA5, 0xA5]);
    let mut vault = vault(rt.alloc(), &was, &[])?;
    is_last(&rt, &mut vault, &was);
    Ok(())
}

fn store_both<D: Disk>(
    save: &mut Save,
    disk: &mut D,
    first: Saved,
    second: Saved,
) -> Result<(), SaveFault>
    requires first { IsSaved first }
    requires second { IsSaved second }
    requires stored { save.old.down ≡ None → IsStored D.tells D.clock D.image_at disk.old save.old.newest }
{
    save.store(disk, first)?;
    save.store(disk, second)
}

// Two stores on a fresh device.
fn stores_twice<D: Disk>(rt: &impl Abort, disk: &mut D)
    requires { IfTold (D.tells disk.old) (Only D.clock D.image_at disk.old) }
{
    one_newest();
    let mut save = open(disk).expect(rt, "a fresh device");
    assert!(rt; save.sequence() == 0);
    let (first, second) = (saved(0, 0), saved(1, 40));
    if first.is_valid() && second.is_valid() {
        let stored = store_both(&mut save, disk, first, second);
        assert!(rt; stored == Ok(()));
    }
    assert!(rt; save.sequence() == 2);
}

// The second one stands in place 1 as the formats have it.
#[test]
fn two_stores(rt: HostRuntime) -> Result<(), Fail> {
    let mut disk = disk(rt.alloc(), &[0; 1024], &[])?;
    stores_twice(&rt, &mut disk);
    let want = device([1, 2], [0xA5, 0xA5]);
    assert!(rt; bytes(&disk) == want.as_slice());
    assert!(rt; disk.calls().len() == 3 + 6 + 6, "no place is closed twice");
    is_second(&rt, &want[512..]);
    Ok(())
}
