// A write and the sync that makes it durable.
ghost use Rattle.std.specs.Prelude.{◌≡◌, ◌≤◌, ◌<◌, ◌⊎◌, [], ◌∷◌, length, is_some, slice_index, Some, OnOk, OnErr};
ghost use Rattle.outside.specs.Disk.{IfTold, written, Torn, Goes, Only};
ghost use Rattle.outside.specs.Faults.{HasCause};
ghost use Rattle.log_writer.specs.Flushes.{WritesThrough};
ghost use Rattle.log_writer.specs.Stores.{RoseTwice};

use outside::{Disk, Failed};

/// Writes and syncs. A stop during it leaves what a stop within the write may leave, and a stop after
/// `Ok` leaves what was written and nothing else.
pub fn write_and_sync<D: Disk>(disk: &mut D, at: u64, bytes: &[u8]) -> Result<(), Failed>
    requires { IfTold (D.tells disk.old) (λ file. at ≤ length file) }
    ensures written { OnOk result (IfTold (D.tells disk.old) (λ file.
        D.tells disk.new ≡ Some (written at bytes.now file))) }
    ensures torn { OnErr result (IfTold (D.tells disk.old) (λ file.
        IfTold (D.tells disk.new) (Torn at (length bytes.now) file))) }
    ensures durable { OnOk result (IfTold (D.tells disk.old) (λ file.
        Only D.clock D.image_at disk.new (written at bytes.now file))) }
    ensures settled { OnOk result (D.settled disk.new) }
    ensures through { WritesThrough D.tells D.clock D.image_at at (length bytes.now)
        disk.old disk.new result }
    ensures cause { HasCause (D.faults disk.old) (D.faults disk.new) result }
{
    disk.write(at, bytes)?;
    disk.sync()
}

/// Writes one byte and syncs it. Where that fails it writes `was`, the byte that was there, whatever comes of that. For a
/// system may forget what a failed sync was to bring, and show it still. So reads give `was` then, or a call failed
/// once more.
pub fn write_or_take_back<D: Disk>(disk: &mut D, at: u64, byte: u8, was: u8) -> Result<(), Failed>
    requires { IfTold (D.tells disk.old) (λ file. at < length file) }
    ensures written { OnOk result (IfTold (D.tells disk.old) (λ file.
        D.tells disk.new ≡ Some (written at (byte ∷ []) file))) }
    ensures durable { OnOk result (IfTold (D.tells disk.old) (λ file.
        Only D.clock D.image_at disk.new (written at (byte ∷ []) file))) }
    ensures torn { OnErr result (IfTold (D.tells disk.old) (λ file.
        IfTold (D.tells disk.new) (Torn at 1 file))) }
    ensures taken_back { OnErr result (IfTold (D.tells disk.old) (λ file.
        IfTold (D.tells disk.new) (λ left. (slice_index left at ≡ was)
        ⊎ RoseTwice (D.faults disk.old) (D.faults disk.new)))) }
    ensures told { is_some (D.tells disk.new) ≡ is_some (D.tells disk.old) }
    ensures moments { Goes D.clock D.image_at (Torn at 1) disk.old disk.new }
    ensures cause { HasCause (D.faults disk.old) (D.faults disk.new) result }
{
    match write_and_sync(disk, at, &[byte]) {
        Ok(()) => Ok(()),
        Err(failed) => {
            let _taken_back = disk.write(at, &[was]);
            Err(failed)
        }
    }
}
