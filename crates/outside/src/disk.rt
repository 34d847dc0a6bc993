// A device of bytes, as its users see it.
ghost use Rattle.std.specs.Prelude.{◌≡◌, ◌≤◌, ◌-◌, ◌++◌, List, ℕ, Option, Some, is_some, length, take, drop, min, IfOk, OnOk, OnErr};
ghost use Rattle.outside.specs.Disk.{IfTold, written, Torn, Shortened, Same, LeavesEach, Calls, Only};

use crate::Failed;

/// Offsets and lengths are in bytes.
pub trait Disk {
    /// The bytes as reads give them, where the disk tells them.
    ghost tells: { Self → Option (List ℕ) };

    /// How many begins and ends of calls there were.
    ghost clock: { Self → ℕ };

    /// The bytes that a stop at this moment of the clock may leave, for each moment up to now.
    ghost image_at: { Self → ℕ → List ℕ → Type 0 };

    /// How often it has failed. The count never falls, and stays at its last value.
    ghost faults: { Self → ℕ };

    /// How many bytes the last read that answered `Ok` gave.
    ghost gave: { Self → ℕ };

    /// Nothing is pending: nothing was written or cut since a sync that answered `Ok`. What was written before that sync
    /// may have been anybody's.
    ghost settled: { Self → Type 0 };

    /// How many begins and ends of calls there were. A call that is made counts twice, whether it
    /// answers `Ok` or not; one that is refused before it begins, as for want of memory, doesn't
    /// count. Each call fails where the clock has no room for it.
    fn clock(&self) -> u64
        ensures { result ≡ clock self.now };

    fn faults(&self) -> u64
        ensures { result ≡ faults self.now };

    fn len(&mut self) -> Result<u64, Failed>
        ensures value { IfOk result (λ n. IfTold (tells self.old) (λ file. n ≡ length file)) }
        ensures told { tells self.new ≡ tells self.old }
        ensures settled { settled self.old → settled self.new }
        ensures goes { Calls clock image_at faults Same (clock self.new) self.old self.new result };

    /// Fills the front of the buffer with what lies from that offset on, and answers how many bytes:
    /// the lesser of the buffer and of what lies there.
    fn read(&mut self, at: u64, buf: &mut [u8]) -> Result<usize, Failed>
        ensures count { IfOk result (λ n. n ≤ length buf.old) }
        ensures gave { IfOk result (λ n. gave self.new ≡ n) }
        ensures value { IfOk result (λ n. IfTold (tells self.old) (λ file.
            (n ≡ min (length buf.old) (length file - at))
            × (buf.new ≡ take n (drop at file) ++ drop n buf.old))) }
        ensures told { tells self.new ≡ tells self.old }
        ensures settled { settled self.old → settled self.new }
        ensures goes { Calls clock image_at faults Same (clock self.new) self.old self.new result };

    /// Writes over what is there, and past the end. One that failed may be done in part.
    fn write(&mut self, at: u64, bytes: &[u8]) -> Result<(), Failed>
        requires { IfTold (tells self.old) (λ file. at ≤ length file) }
        ensures written { OnOk result (IfTold (tells self.old) (λ file.
            tells self.new ≡ Some (written at bytes.now file))) }
        ensures torn { OnErr result (IfTold (tells self.old) (λ file.
            IfTold (tells self.new) (Torn at (length bytes.now) file))) }
        ensures told { is_some (tells self.new) ≡ is_some (tells self.old) }
        ensures goes { Calls clock image_at faults (Torn at (length bytes.now)) (clock self.new)
            self.old self.new result };

    /// Cuts to a length, and leaves a shorter file as it is. One that failed may be done in part.
    fn cut(&mut self, len: u64) -> Result<(), Failed>
        ensures cut { OnOk result (IfTold (tells self.old) (λ file.
            tells self.new ≡ Some (take len file))) }
        ensures torn { OnErr result (IfTold (tells self.old) (λ file.
            IfTold (tells self.new) (Shortened len file))) }
        ensures told { is_some (tells self.new) ≡ is_some (tells self.old) }
        ensures goes { Calls clock image_at faults (Shortened len) (clock self.new)
            self.old self.new result };

    /// Brings what was written to the device itself: after it a stop leaves what reads give, and
    /// nothing else. One that failed settles nothing.
    fn sync(&mut self) -> Result<(), Failed>
        ensures told { tells self.new ≡ tells self.old }
        ensures durable { OnOk result (IfTold (tells self.old) (Only clock image_at self.new)) }
        ensures settled { OnOk result (settled self.new) }
        ensures goes { Calls clock image_at faults Same (clock self.new - 1)
            self.old self.new result }
        ensures unsettled { OnErr result (LeavesEach clock image_at Same
            self.old self.new (clock self.new)) };

    /// A disk of which nothing is pending has one image.
    ghost rests: { (disk : Self) → settled disk → IfTold (tells disk) (Only clock image_at disk) };

    /// What reads give is always among the images of now.
    ghost reads: { (disk : Self) (file : List ℕ) → tells disk ≡ Some file
        → image_at disk (clock disk) file };
}
