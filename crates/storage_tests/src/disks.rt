// Disks that tell their bytes.
ghost use Rattle.std.specs.Prelude.{IfOk};
ghost use Rattle.outside.specs.Disk.{IfTold, Only};

use outside::{Disk, MemDisk};
use std::alloc::{AllocError, Global};

/// A disk with these bytes, of which the calls of these numbers fail.
#[tactic(auto, using(outside::specs::Moments::only_told))]
pub fn disk(alloc: Global, bytes: &[u8], fails: &[u64]) -> Result<MemDisk, AllocError>
    ensures { IfOk result (λ disk. IfTold (⟦<MemDisk as Disk>⟧.tells disk)
        (Only ⟦<MemDisk as Disk>⟧.clock ⟦<MemDisk as Disk>⟧.image_at disk)) }
{
    MemDisk::new(alloc, bytes.to_vec(alloc)?, fails.to_vec(alloc)?)
}
