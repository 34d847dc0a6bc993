// A byte of the save device that is written again as reads give it.
ghost use Rattle.std.specs.Prelude.{◌≡◌, ◌≢◌, ◌⊎◌, ◌+◌, ◌<◌, ◌≤◌, Option, is_some, slice_index, length, IfOk, OnOk};
ghost use Rattle.wire_form.specs.declared.savepoint.Savepoint.{Savepoint};
ghost use Rattle.wire_form.specs.Savepoint.{valid_byte};
ghost use Rattle.outside.specs.Disk.{IfTold, Same, Goes, Runs};
ghost use Rattle.outside.specs.Faults.{HasCause};
ghost use Rattle.outside.specs.Reads.{OnlyReads};
ghost use Rattle.log_writer.specs.Save.{IsStored, Names};

use crate::save::{PLACE, is_open, place_of};
use crate::write_and_sync::write_and_sync;
use crate::{Save, SaveOpen};
use outside::{Disk, Failed};

/// Writes one byte of the place that doesn't count again, as reads give it, and syncs it. Nothing is pending then, and the
/// device tells what it told.
///
/// A system may forget what a failed sync was to bring: reads show it, and later syncs answer `Ok` without it. Such a sync
/// may have been a valid byte's. Once a byte beside it is written anew, the next sync brings the block that both are in.
/// The newest savepoint itself isn't written, since a stop within a write may leave any byte; whatever it leaves of the
/// other place, the device names the same savepoint (`any_moment`). One that names nothing, as it is damaged, is only read
/// (`unnamed`).
pub fn write_again<D: Disk>(disk: &mut D) -> Result<(), Failed>
    requires settled { D.settled disk.old }
    ensures settled { OnOk result (D.settled disk.new) }
    ensures told { OnOk result (D.tells disk.new ≡ D.tells disk.old) }
    ensures tells { is_some (D.tells disk.new) ≡ is_some (D.tells disk.old) }
    ensures any_moment { (newest : Option Savepoint) → IfTold (D.tells disk.old) (λ file. Names file newest
        → Runs D.clock D.image_at disk.old disk.new (λ left. Names left newest)) }
    ensures unnamed { IfTold (D.tells disk.old) (λ file.
        ((newest : Option Savepoint) → Names file newest → ⊥)
        → OnlyReads D.tells D.clock D.image_at D.faults disk.old disk.new) }
    ensures cause { HasCause (D.faults disk.old) (D.faults disk.new) result }
{
    match Save::load(disk) {
        Ok((save, _)) => write_beside(disk, &save),
        Err(SaveOpen::Device) => Err(Failed),
        Err(SaveOpen::Damaged { at: _ }) => Ok(()),
    }
}

// The same of a device that names this savepoint, or none, where both of its places are closed.
fn write_beside<D: Disk>(disk: &mut D, save: &Save) -> Result<(), Failed>
    requires settled { D.settled disk.old }
    requires stored { IsStored D.tells D.clock D.image_at disk.old save.now.newest }
    ensures settled { OnOk result (D.settled disk.new) }
    ensures told { OnOk result (D.tells disk.new ≡ D.tells disk.old) }
    ensures tells { is_some (D.tells disk.new) ≡ is_some (D.tells disk.old) }
    ensures any_moment { IfTold (D.tells disk.old) (λ _. Runs D.clock D.image_at disk.old disk.new
        (λ left. Names left save.now.newest)) }
    ensures cause { HasCause (D.faults disk.old) (D.faults disk.new) result }
{
    let place = PLACE * place_of(save.sequence() + 1);
    let at = byte_beside(disk, place)?;
    let mut byte = [0];
    let count = disk.read(at, &mut byte)?;
    // The device got shorter since its savepoints were read.
    if count == 0 {
        return Ok(());
    }
    write_and_sync(disk, at, &byte)
}

// Which byte of the place that begins at this byte is written again: its valid byte where it is open, else its last one.
// So a closed place stays closed, whatever a stop leaves of that byte.
fn byte_beside<D: Disk>(disk: &mut D, place: u64) -> Result<u64, Failed>
    requires first { place ≤ 512 }
    requires within { IfTold (D.tells disk.old) (λ file. place < length file) }
    ensures at { IfOk result (λ at. IfTold (D.tells disk.old) (λ file.
        ((at ≡ place) × (slice_index file place ≡ valid_byte))
        ⊎ ((at ≡ place + 511) × (slice_index file place ≢ valid_byte)))) }
    ensures within { IfOk result (λ at. at ≤ place + 511) }
    ensures told { D.tells disk.new ≡ D.tells disk.old }
    ensures settled { D.settled disk.old → D.settled disk.new }
    ensures moments { Goes D.clock D.image_at Same disk.old disk.new }
    ensures cause { HasCause (D.faults disk.old) (D.faults disk.new) result }
{
    if is_open(disk, place)? {
        return Ok(place);
    }
    Ok(place + PLACE - 1)
}
