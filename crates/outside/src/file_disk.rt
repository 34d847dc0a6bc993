// A disk over a file of the system. It tells none of its bytes, and a stop may leave anything.
ghost use Rattle.std.specs.Prelude.{◌≡◌, ◌<◌, ◌≤◌, ◌+◌, ◌-◌, ◌^◌, None, length, min, IfOk, OnOk, OnErr, true, false};
ghost use Rattle.outside.specs.Disk.{Torn, Shortened, Same, Calls};
ghost use Rattle.outside.specs.Faults.{HasCause};
ghost use Rattle.outside.specs.Listed.{Counted};

use crate::system_file::SystemFile;
use crate::{Disk, Failed};
use std::fs::File;
use std::io;

/// A disk over a file that was opened for reading and writing, or for reading alone, where each write and each cut of
/// something fails. An error of the system is a fault.
#[derive(Drop)]
pub struct FileDisk {
    file: SystemFile,
    clock: u64,
    // What the last read that answered `Ok` gave, in bytes.
    given: usize,
    // Whether nothing was written or cut since a sync that answered `Ok`. No code asks it: contracts alone read it, as
    // what is settled.
    synced: bool,
}

impl FileDisk {
    pub fn new(file: File) -> Self
        ensures clock { ⟦<FileDisk as Disk>⟧.clock result ≡ 0 }
        ensures faults { ⟦<FileDisk as Disk>⟧.faults result ≡ 0 }
        ensures unsynced { result.synced ≡ false }
    {
        FileDisk {
            file: SystemFile::new(file),
            clock: 0,
            given: 0,
            synced: false,
        }
    }

    /// What the system said to the last call that it refused.
    pub fn cause(&self) -> Option<io::Error> {
        self.file.cause()
    }

    // Counts a call, which has to be made after it, or answers that no more can be counted.
    fn begin(&mut self) -> Result<(), Failed>
        ensures ok { OnOk result (self.new.clock ≡ self.old.clock + 2) }
        ensures counted { OnOk result (self.new.clock < 2 ^ 64) }
        ensures err { OnErr result (self.new.clock ≡ self.old.clock) }
        ensures file { OnOk result (self.new.file ≡ self.old.file) }
        ensures cause { HasCause self.old.file.answers.faults self.new.file.answers.faults result }
        ensures synced { self.new.synced ≡ self.old.synced }
    {
        if self.clock > u64::MAX - 2 {
            return self.file.refuse();
        }
        self.clock += 2;
        Ok(())
    }
}

impl Disk for FileDisk {
    ghost use Rattle.outside.specs.FileDisk.{clock_of, image_of, faults_of, answers_of};

    ghost tells = { λ _. None };

    ghost clock = { λ disk. disk.clock };

    ghost image_at = { λ _ _ _. Unit {0} };

    ghost faults = { λ disk. disk.file.answers.faults };

    ghost gave = { λ disk. disk.given };

    ghost settled = { λ disk. disk.synced ≡ true };

    ghost rests = { λ _ _ _ told. absurd (cc told) };

    ghost reads = { λ _ _ _. tt };

    fn clock(&self) -> u64 {
        self.clock
    }

    fn faults(&self) -> u64 {
        self.file.answers.faults
    }

    fn len(&mut self) -> Result<u64, Failed>
        ensures goes { Calls clock_of image_of faults_of Same (clock_of self.new)
            self.old self.new result }
        ensures asked { OnOk result (Counted (answers_of self.old) (answers_of self.new)) }
        ensures synced { self.new.synced ≡ self.old.synced }
    {
        self.begin()?;
        self.file.len()
    }

    fn read(&mut self, at: u64, buf: &mut [u8]) -> Result<usize, Failed>
        ensures count { IfOk result (λ n. n ≤ length buf.old) }
        ensures gave { IfOk result (λ n. self.new.given ≡ n) }
        ensures goes { Calls clock_of image_of faults_of Same (clock_of self.new)
            self.old self.new result }
        ensures synced { self.new.synced ≡ self.old.synced }
    {
        self.begin()?;
        self.given = self.file.read(at, buf)?;
        Ok(self.given)
    }

    fn write(&mut self, at: u64, bytes: &[u8]) -> Result<(), Failed>
        ensures goes { Calls clock_of image_of faults_of (Torn at (length bytes.now))
            (clock_of self.new) self.old self.new result }
        ensures asked { OnOk result (Counted (answers_of self.old) (answers_of self.new)) }
        ensures unsynced { self.new.synced ≡ false }
    {
        self.synced = false;
        self.begin()?;
        self.file.write(at, bytes)
    }

    fn cut(&mut self, len: u64) -> Result<(), Failed>
        ensures goes { Calls clock_of image_of faults_of (Shortened len) (clock_of self.new)
            self.old self.new result }
        ensures unsynced { self.new.synced ≡ false }
    {
        self.synced = false;
        self.begin()?;
        self.file.cut(len)
    }

    fn sync(&mut self) -> Result<(), Failed>
        ensures goes { Calls clock_of image_of faults_of Same (clock_of self.new - 1)
            self.old self.new result }
        ensures asked { OnOk result (Counted (answers_of self.old) (answers_of self.new)) }
        ensures synced { OnOk result (self.new.synced ≡ true) }
        ensures unsynced { OnErr result (self.new.synced ≡ self.old.synced) }
    {
        self.begin()?;
        self.file.sync()?;
        self.synced = true;
        Ok(())
    }
}
