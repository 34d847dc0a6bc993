// A disk that passes some calls on, and then fails each.
ghost use Rattle.std.specs.Prelude.{◌≡◌, ◌≤◌, ◌+◌, ◌-◌, ◌^◌, ◌++◌, List, ℕ, Some, is_some, length, take, drop, min, IfOk, OnOk, OnErr};
ghost use Rattle.outside.specs.Disk.{IfTold, written, Torn, Shortened, Same, Calls, LeavesEach, Only, IsSettled};
ghost use Rattle.outside.specs.Fuse.{IsFused};

use crate::fault::count_fault;
use crate::{Disk, Failed};

/// A disk that passes some calls on to another, and then fails each without passing it on. What it
/// tells, and its clock, are the other's; its count of faults has those of both.
#[derive(Drop)]
pub struct FuseDisk<D: Disk> {
    disk: D,
    passes: u64,
    faults: u64,
}

impl<D: Disk> FuseDisk<D> {
    /// A disk that passes so many calls on. It is settled where the other is.
    pub fn new(disk: D, passes: u64) -> Self
        ensures tells { ⟦<FuseDisk<D> as Disk>⟧.tells result ≡ D.tells disk }
        ensures settled { (file : List ℕ) → IsSettled D.tells D.clock D.image_at disk file
            → IsSettled ⟦<FuseDisk<D> as Disk>⟧.tells ⟦<FuseDisk<D> as Disk>⟧.clock
            ⟦<FuseDisk<D> as Disk>⟧.image_at result file }
        ensures clock { ⟦<FuseDisk<D> as Disk>⟧.clock result ≡ D.clock disk }
        ensures faults { ⟦<FuseDisk<D> as Disk>⟧.faults result ≡ min (D.faults disk) (2 ^ 64 - 1) }
        ensures passes { result.passes ≡ passes }
        ensures disk { result.disk ≡ disk }
    {
        FuseDisk {
            disk,
            passes,
            faults: 0,
        }
    }

    /// How many calls more it passes on.
    pub fn passes(&self) -> u64
        ensures { result ≡ self.now.passes }
    {
        self.passes
    }

    /// The disk that it passes calls on to.
    pub fn disk(&self) -> &D
        ensures { result.now ≡ self.now.disk }
    {
        &self.disk
    }

    // Takes one of the passes, or counts a fault where none is left.
    fn pass(&mut self) -> Result<(), Failed>
        ensures disk { self.new.disk ≡ self.old.disk }
        ensures passed { OnOk result (self.old.passes ≡ self.new.passes + 1) }
        ensures blown { OnErr result (self.old.passes ≡ 0) }
        ensures stays_blown { OnErr result (self.new.passes ≡ 0) }
        ensures same { OnOk result (self.new.faults ≡ self.old.faults) }
        ensures counted { OnErr result (self.new.faults ≡ min (self.old.faults + 1) (2 ^ 64 - 1)) }
    {
        if self.passes == 0 {
            return Err(count_fault(&mut self.faults));
        }
        self.passes -= 1;
        Ok(())
    }
}

impl<D: Disk> Disk for FuseDisk<D> {
    ghost tells = { λ fuse. D.tells fuse.disk };

    ghost clock = { λ fuse. D.clock fuse.disk };

    ghost image_at = { λ fuse. D.image_at fuse.disk };

    ghost faults = { λ fuse. min (D.faults fuse.disk + fuse.faults) (2 ^ 64 - 1) };

    ghost gave = { λ fuse. D.gave fuse.disk };

    ghost settled = { λ fuse. D.settled fuse.disk };

    ghost rests = { λ fuse. D.rests fuse.disk };

    ghost reads = { λ fuse. D.reads fuse.disk };

    fn clock(&self) -> u64 {
        self.disk.clock()
    }

    fn faults(&self) -> u64 {
        self.disk.faults().saturating_add(self.faults)
    }

    fn len(&mut self) -> Result<u64, Failed>
        ensures value { IfOk result (λ n. IfTold (D.tells self.old.disk) (λ file.
            n ≡ length file)) }
        ensures told { D.tells self.new.disk ≡ D.tells self.old.disk }
        ensures settled { D.settled self.old.disk → D.settled self.new.disk }
        ensures goes { Calls ⟦<FuseDisk<D> as Disk>⟧.clock
            ⟦<FuseDisk<D> as Disk>⟧.image_at ⟦<FuseDisk<D> as Disk>⟧.faults
            Same (D.clock self.new.disk) self.old self.new result }
        ensures fused { IsFused D.faults self.old.passes self.new.passes
            self.old.faults self.new.faults self.old.disk self.new.disk result }
    {
        self.pass()?;
        self.disk.len()
    }

    fn read(&mut self, at: u64, buf: &mut [u8]) -> Result<usize, Failed>
        ensures count { IfOk result (λ n. n ≤ length buf.old) }
        ensures gave { IfOk result (λ n. D.gave self.new.disk ≡ n) }
        ensures value { IfOk result (λ n. IfTold (D.tells self.old.disk) (λ file.
            (n ≡ min (length buf.old) (length file - at))
            × (buf.new ≡ take n (drop at file) ++ drop n buf.old))) }
        ensures told { D.tells self.new.disk ≡ D.tells self.old.disk }
        ensures settled { D.settled self.old.disk → D.settled self.new.disk }
        ensures goes { Calls ⟦<FuseDisk<D> as Disk>⟧.clock
            ⟦<FuseDisk<D> as Disk>⟧.image_at ⟦<FuseDisk<D> as Disk>⟧.faults
            Same (D.clock self.new.disk) self.old self.new result }
        ensures fused { IsFused D.faults self.old.passes self.new.passes
            self.old.faults self.new.faults self.old.disk self.new.disk result }
    {
        self.pass()?;
        self.disk.read(at, buf)
    }

    #[tactic(auto, using(crate::proofs::Tears::torn_kept))]
    fn write(&mut self, at: u64, bytes: &[u8]) -> Result<(), Failed>
        requires { IfTold (D.tells self.old.disk) (λ file. at ≤ length file) }
        ensures written { OnOk result (IfTold (D.tells self.old.disk) (λ file.
            D.tells self.new.disk ≡ Some (written at bytes.now file))) }
        ensures torn { OnErr result (IfTold (D.tells self.old.disk) (λ file.
            IfTold (D.tells self.new.disk) (Torn at (length bytes.now) file))) }
        ensures told { is_some (D.tells self.new.disk) ≡ is_some (D.tells self.old.disk) }
        ensures goes { Calls ⟦<FuseDisk<D> as Disk>⟧.clock
            ⟦<FuseDisk<D> as Disk>⟧.image_at ⟦<FuseDisk<D> as Disk>⟧.faults
            (Torn at (length bytes.now)) (D.clock self.new.disk) self.old self.new result }
        ensures fused { IsFused D.faults self.old.passes self.new.passes
            self.old.faults self.new.faults self.old.disk self.new.disk result }
    {
        self.pass()?;
        self.disk.write(at, bytes)
    }

    #[tactic(auto, using(crate::proofs::Tears::shortened_kept))]
    fn cut(&mut self, len: u64) -> Result<(), Failed>
        ensures cut { OnOk result (IfTold (D.tells self.old.disk) (λ file.
            D.tells self.new.disk ≡ Some (take len file))) }
        ensures torn { OnErr result (IfTold (D.tells self.old.disk) (λ file.
            IfTold (D.tells self.new.disk) (Shortened len file))) }
        ensures told { is_some (D.tells self.new.disk) ≡ is_some (D.tells self.old.disk) }
        ensures goes { Calls ⟦<FuseDisk<D> as Disk>⟧.clock
            ⟦<FuseDisk<D> as Disk>⟧.image_at ⟦<FuseDisk<D> as Disk>⟧.faults
            (Shortened len) (D.clock self.new.disk) self.old self.new result }
        ensures fused { IsFused D.faults self.old.passes self.new.passes
            self.old.faults self.new.faults self.old.disk self.new.disk result }
    {
        self.pass()?;
        self.disk.cut(len)
    }

    fn sync(&mut self) -> Result<(), Failed>
        ensures told { D.tells self.new.disk ≡ D.tells self.old.disk }
        ensures durable { OnOk result (IfTold (D.tells self.old.disk)
            (Only ⟦<FuseDisk<D> as Disk>⟧.clock ⟦<FuseDisk<D> as Disk>⟧.image_at self.new)) }
        ensures settled { OnOk result (D.settled self.new.disk) }
        ensures goes { Calls ⟦<FuseDisk<D> as Disk>⟧.clock
            ⟦<FuseDisk<D> as Disk>⟧.image_at ⟦<FuseDisk<D> as Disk>⟧.faults
            Same (D.clock self.new.disk - 1) self.old self.new result }
        ensures unsettled { OnErr result (LeavesEach ⟦<FuseDisk<D> as Disk>⟧.clock
            ⟦<FuseDisk<D> as Disk>⟧.image_at Same self.old self.new (D.clock self.new.disk)) }
        ensures fused { IsFused D.faults self.old.passes self.new.passes
            self.old.faults self.new.faults self.old.disk self.new.disk result }
    {
        self.pass()?;
        self.disk.sync()
    }
}
