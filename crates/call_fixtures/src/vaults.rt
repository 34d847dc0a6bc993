// Vaults over disks in memory on which nothing is pending.
ghost use Rattle.std.specs.Prelude.{IfOk};
ghost use Rattle.outside.specs.Disk.{IfTold, Only};

use log_writer::{Records, Vault};
use outside::{Disk, MemDisk};
use std::alloc::{AllocError, Global};

/// A disk of these bytes on which nothing is pending. The calls of these numbers fail.
#[tactic(auto, using(outside::specs::Moments::only_told))]
pub fn disk_of(alloc: Global, bytes: &[u8], fails: &[u64]) -> Result<MemDisk, AllocError>
    ensures { IfOk result (λ disk. IfTold (⟦<MemDisk as Disk>⟧.tells disk)
        (Only ⟦<MemDisk as Disk>⟧.clock ⟦<MemDisk as Disk>⟧.image_at disk)) }
{
    MemDisk::new(alloc, bytes.to_vec(alloc)?, fails.to_vec(alloc)?)
}

/// So many of this byte.
pub fn filled(alloc: Global, byte: u8, count: usize) -> Result<Vec<u8>, AllocError> {
    vec![in alloc; byte; count]
}

// The disks of the save, of which the calls of these numbers fail, and of the snapshots. Vaults are made by halves:
// what is owned at a `?` costs a proof.
fn ends(
    alloc: Global,
    save: &[u8],
    snaps: &[u8],
    fails: &[u64],
) -> Result<(MemDisk, MemDisk), AllocError>
    ensures { IfOk result (λ ends. IfTold (⟦<MemDisk as Disk>⟧.tells ends.0)
        (Only ⟦<MemDisk as Disk>⟧.clock ⟦<MemDisk as Disk>⟧.image_at ends.0)) }
{
    let save = disk_of(alloc, save, fails)?;
    let snaps = disk_of(alloc, snaps, &[])?;
    Ok((save, snaps))
}

// Eight disks, of which the first has these bytes and the others none.
fn banks(alloc: Global, first: &[u8]) -> Result<Vec<MemDisk>, AllocError> {
    let mut disks = Vec::new(alloc);
    disks.push(disk_of(alloc, first, &[])?)?;
    for _ in 1..8 {
        disks.push(disk_of(alloc, &[], &[])?)?;
    }
    Ok(disks)
}

// The log files of even number, of which the first has these bytes, and those of odd number.
fn sides(alloc: Global, first: &[u8]) -> Result<(Vec<MemDisk>, Vec<MemDisk>), AllocError> {
    let even = banks(alloc, first)?;
    let odd = banks(alloc, &[])?;
    Ok((even, odd))
}

/// A vault whose first devices have these bytes, and the others none. Of the calls of the save these fail.
pub fn vault_of(
    alloc: Global,
    save: &[u8],
    snaps: &[u8],
    bank: &[u8],
    fails: &[u64],
) -> Result<Vault<MemDisk>, AllocError>
    ensures { IfOk result (λ vault. IfTold (⟦<MemDisk as Disk>⟧.tells vault.save)
        (Only ⟦<MemDisk as Disk>⟧.clock ⟦<MemDisk as Disk>⟧.image_at vault.save)) }
{
    let (even, odd) = sides(alloc, bank)?;
    let (save, snaps) = ends(alloc, save, snaps, fails)?;
    Ok(Vault {
        save,
        snaps,
        even,
        odd,
        ties: Records::new(alloc),
        cuts: Records::new(alloc),
    })
}

/// A new database.
pub fn fresh_vault(alloc: Global) -> Result<Vault<MemDisk>, AllocError>
    ensures { IfOk result (λ vault. IfTold (⟦<MemDisk as Disk>⟧.tells vault.save)
        (Only ⟦<MemDisk as Disk>⟧.clock ⟦<MemDisk as Disk>⟧.image_at vault.save)) }
{
    vault_of(alloc, &filled(alloc, 0, 1024)?, &[], &[], &[])
}

// Disks of what others hold.
fn disks_anew(alloc: Global, disks: &[MemDisk]) -> Result<Vec<MemDisk>, AllocError> {
    let mut anew = Vec::new(alloc);
    for index in 0..disks.len() {
        anew.push(disk_of(alloc, disks[index].bytes(), &[])?)?;
    }
    Ok(anew)
}

// Log files of what those of a vault hold.
fn sides_anew(
    alloc: Global,
    vault: &Vault<MemDisk>,
) -> Result<(Vec<MemDisk>, Vec<MemDisk>), AllocError> {
    let even = disks_anew(alloc, &vault.even)?;
    let odd = disks_anew(alloc, &vault.odd)?;
    Ok((even, odd))
}

/// A vault of what another holds, with nothing pending. Of the calls of its save these fail.
pub fn anew(
    alloc: Global,
    vault: &Vault<MemDisk>,
    fails: &[u64],
) -> Result<Vault<MemDisk>, AllocError>
    ensures { IfOk result (λ vault. IfTold (⟦<MemDisk as Disk>⟧.tells vault.save)
        (Only ⟦<MemDisk as Disk>⟧.clock ⟦<MemDisk as Disk>⟧.image_at vault.save)) }
{
    let (even, odd) = sides_anew(alloc, vault)?;
    let (save, snaps) = ends(alloc, vault.save.bytes(), vault.snaps.bytes(), fails)?;
    Ok(Vault {
        save,
        snaps,
        even,
        odd,
        ties: Records::new(alloc),
        cuts: Records::new(alloc),
    })
}
