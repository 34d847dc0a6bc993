// A disk in memory, some of whose calls fail. It records each call that was made, and so what it
// tells can be had again from its first bytes.
ghost use Rattle.std.specs.Prelude.{◌≡◌, ◌*◌, ◌+◌, ◌-◌, ◌<◌, ◌≤◌, ◌^◌, ◌++◌, Some, is_some, false, IfOk, OnOk, OnErr, MatchOption, length, take, drop, min, is_err};
ghost use Rattle.outside.specs.Disk.{IfTold, written, Torn, Shortened, Same, Calls, LeavesEach, Only, IsSettled};
ghost use Rattle.outside.specs.Faults.{Rose};
ghost use Rattle.outside.specs.Listed.{IsWrite, IsRecorded};
ghost use Rattle.outside.specs.Replay.{done, read_through, step_of, IsLoose, LeftAfter, LeavesLast, IsImage};
ghost use Rattle.outside.specs.Replayed.{told_as_left};

use crate::fault::count_fault;
use crate::{Call, Disk, Failed, Made};
use std::alloc::{AllocError, Global};

// The clock counts two for each call, and has room for this many.
const MAX_CALLS: u64 = (1 << 63) - 1;

/// A disk whose calls of chosen numbers fail and do nothing, and each call for which there is no
/// memory.
#[derive(Drop)]
pub struct MemDisk {
    alloc: Global,
    first: Vec<u8>,
    bytes: Vec<u8>,
    calls: Vec<Made>,
    fails: Vec<u64>,
    faults: u64,
    // What the last read that answered `Ok` gave, in bytes.
    given: usize,
    ghost replayed: { bytes.items ≡ read_through calls.items first.items },
    ghost counted: { 2 * length calls.items < 2 ^ 64 },
}

// The file with the bytes written over it.
fn overwritten(alloc: Global, file: &[u8], at: usize, bytes: &[u8]) -> Result<Vec<u8>, AllocError>
    requires { at ≤ length file.now }
    ensures { IfOk result (λ next. next.items ≡ written at bytes.now file.now) }
{
    let mut next = file[..at].to_vec(alloc)?;
    next.extend_from_slice(bytes)?;
    if bytes.len() < file.len() - at {
        next.extend_from_slice(&file[at + bytes.len()..])?;
    }
    Ok(next)
}

impl MemDisk {
    ghost use Rattle.outside.specs.MemoryDisk.{tells_of, clock_of, image_of, faults_of};

    /// A disk of these bytes, on which nothing is pending. The calls that are made, of each kind, are
    /// counted from 0, and those of the numbers in `fails` fail.
    pub fn new(alloc: Global, bytes: Vec<u8>, fails: Vec<u64>) -> Result<Self, AllocError>
        ensures tells { IfOk result (λ disk. tells_of disk ≡ Some bytes.items) }
        ensures settled { IfOk result (λ disk. IsSettled tells_of
            clock_of image_of disk bytes.items) }
        ensures clock { IfOk result (λ disk. clock_of disk ≡ 0) }
        ensures faults { IfOk result (λ disk. faults_of disk ≡ 0) }
        ensures fails { IfOk result (λ disk. disk.fails ≡ fails) }
        ensures first { IfOk result (λ disk. disk.first.items ≡ bytes.items) }
    {
        let first = bytes.to_vec(alloc)?;
        Ok(MemDisk {
            alloc,
            first,
            bytes,
            calls: Vec::new(alloc),
            fails,
            faults: 0,
            given: 0,
        })
    }

    /// The bytes as reads give them.
    pub fn bytes(&self) -> &[u8]
        ensures { tells_of self.now ≡ Some result.now }
    {
        &self.bytes
    }

    /// The calls that were made, the oldest first.
    pub fn calls(&self) -> &[Made]
        ensures calls { result.now ≡ self.now.calls.items }
        ensures clock { clock_of self.now ≡ 2 * length result.now }
        ensures replayed { tells_of self.now
            ≡ Some (read_through result.now self.now.first.items) }
    {
        &self.calls
    }

    /// The numbers of the calls that fail.
    pub fn fails(&self) -> &[u64]
        ensures { result.now ≡ self.now.fails.items }
    {
        &self.fails
    }

    // Counts a fault, and changes nothing else.
    fn refuse(&mut self) -> Failed
        ensures first { self.new.first ≡ self.old.first }
        ensures fails { self.new.fails ≡ self.old.fails }
        ensures bytes { self.new.bytes ≡ self.old.bytes }
        ensures calls { self.new.calls ≡ self.old.calls }
        ensures later { self.old.faults ≤ self.new.faults }
        ensures rose { Rose self.old.faults self.new.faults }
    {
        count_fault(&mut self.faults)
    }

    // Makes a call, unless there is no room to record it. It fails where its number is listed, and
    // leaves the next bytes otherwise. The images go on by the step of the call: within it, and after
    // it as well, but for a sync that was done, after which `last` says what is left.
    #[tactic(auto, using(crate::proofs::Replays::read_through_push))]
    fn make(&mut self, call: Call, next: Option<Vec<u8>>) -> Result<(), Failed>
        requires { MatchOption next (done call self.old.bytes.items ≡ self.old.bytes.items)
            (λ bytes. bytes.items ≡ done call self.old.bytes.items) }
        ensures stays { (self.new.first ≡ self.old.first) × (self.new.fails ≡ self.old.fails) }
        ensures done { OnOk result (self.new.bytes.items ≡ done call self.old.bytes.items) }
        ensures kept { OnErr result (self.new.bytes.items ≡ self.old.bytes.items) }
        ensures recorded { IsRecorded (λ made. made ≡ call) self.old.fails.items
            self.old.calls.items self.new.calls.items result }
        ensures goes { Calls clock_of image_of faults_of
            (step_of call) (clock_of self.new - 1) self.old self.new result }
        ensures each { IsLoose call (is_err result)
            → LeavesEach clock_of image_of (step_of call)
            self.old self.new (clock_of self.new) }
        ensures last { OnOk result (LeavesLast clock_of image_of
            (LeftAfter call false self.old.bytes.items) self.old self.new) }
    {
        let number = self.calls.len() as u64;
        if number >= MAX_CALLS {
            return Err(self.refuse());
        }
        let failed = self.fails.contains(&number);
        if self.calls.push(Made { call, failed }).is_err() {
            return Err(self.refuse());
        }
        if failed {
            return Err(self.refuse());
        }
        if let Some(next) = next {
            self.bytes = next;
        }
        Ok(())
    }

    // Fills the front of the buffer with what lies from that offset on, and answers how many bytes.
    fn fill(&mut self, at: u64, buf: &mut [u8]) -> Result<usize, Failed>
        ensures count { IfOk result (λ n. n ≤ length buf.old) }
        ensures value { IfOk result (λ n. IfTold (tells_of self.old) (λ file.
            (n ≡ min (length buf.old) (length file - at))
            × (buf.new ≡ take n (drop at file) ++ drop n buf.old))) }
        ensures told { tells_of self.new ≡ tells_of self.old }
        ensures goes { Calls clock_of image_of faults_of
            Same (clock_of self.new) self.old self.new result }
        ensures recorded { IsRecorded (λ call. call ≡ Call.Read) self.old.fails.items
            self.old.calls.items self.new.calls.items result }
        ensures stays { (self.new.first ≡ self.old.first) × (self.new.fails ≡ self.old.fails) }
    {
        self.make(Call::Read, None)?;
        let at = at.min(self.bytes.len() as u64) as usize;
        let rest = &self.bytes[at..];
        let count = rest.len().min(buf.len());
        buf[..count].copy_from_slice(&rest[..count]);
        Ok(count)
    }
}

impl Disk for MemDisk {
    ghost use Rattle.outside.specs.MemoryDisk.{tells_of, clock_of, image_of, faults_of};

    ghost tells = { λ disk. Some disk.bytes.items };

    ghost clock = { λ disk. 2 * length disk.calls.items };

    ghost image_at = { λ disk. IsImage disk.first.items disk.calls.items };

    ghost faults = { λ disk. disk.faults };

    ghost gave = { λ disk. disk.given };

    ghost settled = { λ disk. IfTold (tells_of disk) (Only clock_of image_of disk) };

    ghost rests = { λ _ is. is };

    ghost reads = { λ disk file is. told_as_left disk.calls.items disk.first.items disk.bytes.items file disk.replayed is };

    fn clock(&self) -> u64 {
        2 * self.calls.len() as u64
    }

    fn faults(&self) -> u64 {
        self.faults
    }

    fn len(&mut self) -> Result<u64, Failed>
        ensures value { IfOk result (λ n. IfTold (tells_of self.old) (λ file. n ≡ length file)) }
        ensures told { tells_of self.new ≡ tells_of self.old }
        ensures settled { IfTold (tells_of self.old) (Only clock_of image_of self.old)
            → IfTold (tells_of self.new) (Only clock_of image_of self.new) }
        ensures goes { Calls clock_of image_of faults_of
            Same (clock_of self.new) self.old self.new result }
        ensures recorded { IsRecorded (λ call. call ≡ Call.Len) self.old.fails.items
            self.old.calls.items self.new.calls.items result }
        ensures stays { (self.new.first ≡ self.old.first) × (self.new.fails ≡ self.old.fails) }
    {
        self.make(Call::Len, None)?;
        Ok(self.bytes.len() as u64)
    }

    fn read(&mut self, at: u64, buf: &mut [u8]) -> Result<usize, Failed>
        ensures count { IfOk result (λ n. n ≤ length buf.old) }
        ensures gave { IfOk result (λ n. self.new.given ≡ n) }
        ensures settled { IfTold (tells_of self.old) (Only clock_of image_of self.old)
            → IfTold (tells_of self.new) (Only clock_of image_of self.new) }
        ensures value { IfOk result (λ n. IfTold (tells_of self.old) (λ file.
            (n ≡ min (length buf.old) (length file - at))
            × (buf.new ≡ take n (drop at file) ++ drop n buf.old))) }
        ensures told { tells_of self.new ≡ tells_of self.old }
        ensures goes { Calls clock_of image_of faults_of
            Same (clock_of self.new) self.old self.new result }
        ensures recorded { IsRecorded (λ call. call ≡ Call.Read) self.old.fails.items
            self.old.calls.items self.new.calls.items result }
        ensures stays { (self.new.first ≡ self.old.first) × (self.new.fails ≡ self.old.fails) }
    {
        self.given = self.fill(at, buf)?;
        Ok(self.given)
    }

    #[tactic(auto, using(crate::proofs::Tears::torn_kept))]
    fn write(&mut self, at: u64, bytes: &[u8]) -> Result<(), Failed>
        requires { IfTold (tells_of self.old) (λ file. at ≤ length file) }
        ensures written { OnOk result (IfTold (tells_of self.old) (λ file.
            tells_of self.new ≡ Some (written at bytes.now file))) }
        ensures torn { OnErr result (IfTold (tells_of self.old) (λ file.
            IfTold (tells_of self.new) (Torn at (length bytes.now) file))) }
        ensures kept { OnErr result (tells_of self.new ≡ tells_of self.old) }
        ensures told { is_some (tells_of self.new) ≡ is_some (tells_of self.old) }
        ensures goes { Calls clock_of image_of faults_of
            (Torn at (length bytes.now)) (clock_of self.new) self.old self.new result }
        ensures recorded { IsRecorded (IsWrite at bytes.now) self.old.fails.items
            self.old.calls.items self.new.calls.items result }
        ensures stays { (self.new.first ≡ self.old.first) × (self.new.fails ≡ self.old.fails) }
    {
        let Ok(kept) = bytes.to_vec(self.alloc) else {
            return Err(self.refuse());
        };
        let Ok(next) = overwritten(self.alloc, &self.bytes, at as usize, bytes) else {
            return Err(self.refuse());
        };
        self.make(Call::Write { at, bytes: kept }, Some(next))
    }

    #[tactic(auto, using(crate::proofs::Tears::shortened_kept))]
    fn cut(&mut self, len: u64) -> Result<(), Failed>
        ensures cut { OnOk result (IfTold (tells_of self.old) (λ file.
            tells_of self.new ≡ Some (take len file))) }
        ensures torn { OnErr result (IfTold (tells_of self.old) (λ file.
            IfTold (tells_of self.new) (Shortened len file))) }
        ensures kept { OnErr result (tells_of self.new ≡ tells_of self.old) }
        ensures told { is_some (tells_of self.new) ≡ is_some (tells_of self.old) }
        ensures goes { Calls clock_of image_of faults_of
            (Shortened len) (clock_of self.new) self.old self.new result }
        ensures recorded { IsRecorded (λ call. call ≡ Call.Cut len) self.old.fails.items
            self.old.calls.items self.new.calls.items result }
        ensures stays { (self.new.first ≡ self.old.first) × (self.new.fails ≡ self.old.fails) }
    {
        let keep = len.min(self.bytes.len() as u64) as usize;
        let Ok(next) = self.bytes[..keep].to_vec(self.alloc) else {
            return Err(self.refuse());
        };
        self.make(Call::Cut { len }, Some(next))
    }

    fn sync(&mut self) -> Result<(), Failed>
        ensures told { tells_of self.new ≡ tells_of self.old }
        ensures durable { OnOk result (IfTold (tells_of self.old)
            (Only clock_of image_of self.new)) }
        ensures settled { OnOk result (IfTold (tells_of self.new)
            (Only clock_of image_of self.new)) }
        ensures goes { Calls clock_of image_of faults_of
            Same (clock_of self.new - 1) self.old self.new result }
        ensures unsettled { OnErr result (LeavesEach clock_of image_of Same
            self.old self.new (clock_of self.new)) }
        ensures recorded { IsRecorded (λ call. call ≡ Call.Sync) self.old.fails.items
            self.old.calls.items self.new.calls.items result }
        ensures stays { (self.new.first ≡ self.old.first) × (self.new.fails ≡ self.old.fails) }
    {
        self.make(Call::Sync, None)
    }
}
