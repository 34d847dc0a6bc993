// How a journal's lines get into its log file.
ghost use Rattle.std.specs.Prelude.{◌≡◌, ◌≢◌, ◌⊎◌, ◌↔◌, ℕ, ◌+◌, ◌^◌, ◌<◌, ◌≤◌, [], None, Err, IfOk, OnOk};
ghost use Rattle.log_writer.specs.Flushes.{Flushes};
ghost use Rattle.log_writer.specs.Journal.{free, end_of, Reaches, IsFlushed, Wrote};

use crate::line_buffer::{LONGEST, SIZE};
use crate::write_and_sync::write_and_sync;
use crate::{Journal, LogFault};
use outside::{Disk, Failed};

impl Journal {
    // Writes the lines that wait behind what is durable, syncs, and gives the durable length.
    fn write_lines<D: Disk>(&mut self, bank: &mut D) -> Result<u64, LogFault>
        requires up { self.old.down ≡ None }
        requires reaches { Reaches D.tells bank.old self.old }
        ensures flushes { Flushes D.tells D.clock D.image_at D.faults
            self.old self.new bank.old bank.new result }
        ensures flushed { OnOk result (IsFlushed self.old self.new) }
        ensures written { OnOk result (Wrote D.tells self.old bank.old bank.new) }
        ensures length { IfOk result (λ length. length ≡ self.new.durable) }
        ensures limit { (length : ℕ) → result ≢ Err (LogFault.Limit length) }
    {
        match write_and_sync(bank, self.durable, self.lines.bytes()) {
            Ok(()) => {
                self.durable += self.lines.len() as u64;
                self.lines.clear();
                Ok(self.durable)
            }
            Err(Failed) => {
                self.down = Some(bank.faults());
                Err(LogFault::Device)
            }
        }
    }

    /// Makes the lines that wait durable, and gives the durable length of the log file in bytes.
    /// Where none waits the log file isn't touched.
    pub fn flush<D: Disk>(&mut self, bank: &mut D) -> Result<u64, LogFault>
        requires reaches { Reaches D.tells bank.old self.old }
        ensures flushes { Flushes D.tells D.clock D.image_at D.faults
            self.old self.new bank.old bank.new result }
        ensures flushed { OnOk result (IsFlushed self.old self.new) }
        ensures written { OnOk result (Wrote D.tells self.old bank.old bank.new) }
        ensures length { IfOk result (λ length. (length ≡ self.new.durable) × (length < 2 ^ 40)) }
        ensures nothing { self.old.lines ≡ [] → (self.new ≡ self.old) × (bank.new ≡ bank.old) }
        ensures limit { (length : ℕ) → result ≢ Err (LogFault.Limit length) }
    {
        if let Some(faults) = self.down {
            return Err(LogFault::Down { faults });
        }
        if self.lines.len() == 0 {
            return Ok(self.durable);
        }
        self.write_lines(bank)
    }

    /// Makes room for one line more: after `Ok` the journal may `put` a commit. It flushes where
    /// fewer than 400 bytes of the buffer are free.
    pub fn room<D: Disk>(&mut self, bank: &mut D) -> Result<(), LogFault>
        requires reaches { Reaches D.tells bank.old self.old }
        ensures flushes { Flushes D.tells D.clock D.image_at D.faults
            self.old self.new bank.old bank.new result }
        ensures free { OnOk result (400 ≤ free self.new) }
        ensures below { OnOk result (end_of self.new + 400 ≤ self.new.limit) }
        ensures passed { OnOk result (
            (IsFlushed self.old self.new × Wrote D.tells self.old bank.old bank.new)
            ⊎ ((self.new ≡ self.old) × (bank.new ≡ bank.old))) }
        ensures enough { 400 ≤ free self.old → (self.new ≡ self.old) × (bank.new ≡ bank.old) }
        ensures limit { (length : ℕ) → (result ≡ Err (LogFault.Limit length))
            ↔ ((self.old.down ≡ None) × (length ≡ end_of self.old)
            × (self.old.limit < end_of self.old + 400)) }
    {
        if let Some(faults) = self.down {
            return Err(LogFault::Down { faults });
        }
        let length = self.durable + self.lines.len() as u64;
        if length + LONGEST > self.limit {
            return Err(LogFault::Limit { length });
        }
        if self.lines.len() as u64 + LONGEST <= SIZE as u64 {
            return Ok(());
        }
        match self.write_lines(bank) {
            Ok(_) => Ok(()),
            Err(fault) => Err(fault),
        }
    }
}
