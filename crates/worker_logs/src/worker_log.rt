// A worker's log: the journal of its growing log file, and the mark that says what of it counts.
ghost use Rattle.std.specs.Prelude.{◌≡◌, ◌≢◌, ◌↔◌, ◌+◌, ◌-◌, ◌^◌, ◌<◌, ◌≤◌, ℕ, [], ◌++◌, false, Err, IfOk, OnOk, OnErr};
ghost use Rattle.log_writer.specs.Journal.{free, end_of, DurableGrows, Reaches};
ghost use Rattle.wire_form.specs.LogLine.{IsLoggable, IsLogLine, line_bytes};
ghost use Rattle.worker_logs.specs.Logs.{fresh_log, idle_log, reset_log, IsJoined, IsUpTo};
ghost use Rattle.worker_logs.specs.Moves.{MovesLog, refusal};

use log_writer::{Journal, LogFault};
use outside::Disk;
use serial_model::{Commit, Memory};
use std::alloc::Global;
use std::marker::Model;
use wire_form::Mark;

/// How long a log file may get, in bytes: a mark counts no more.
const LIMIT: u64 = (1 << 40) - 1;

/// A worker's log: the lines that wait for its growing log file, and how far that counts.
#[derive(Drop)]
pub struct WorkerLog {
    journal: Journal,
    mark: Mark,
}

impl Model for WorkerLog {
    ghost use Rattle.worker_logs.specs.Logs.{LogState, IsLogState};

    ghost Value = { LogState };

    ghost view = { λ log. record { journal = log.journal; mark = log.mark } };

    ghost invariant = { λ log. IsLogState log.journal.limit log.mark };
}

impl WorkerLog {
    /// The log of an empty file, marked at this epoch.
    pub fn new(alloc: Global, epoch: u32) -> Result<Self, Memory>
        ensures { IfOk result (λ log. log ≡ fresh_log epoch) }
    {
        Ok(WorkerLog {
            journal: Journal::new(alloc, LIMIT)?,
            mark: Mark {
                length: 0,
                epoch: Some(epoch),
            },
        })
    }

    /// The epoch up to which all the worker's commits lie in so many durable bytes of its log file; no epoch of an
    /// idle worker.
    pub fn mark(&self) -> Mark
        ensures mark { result ≡ self.now.mark }
        ensures counted { result.length < 2 ^ 40 }
    {
        self.mark
    }

    /// The lines that wait for the growing log file, and how much of it is durable.
    pub fn journal(&self) -> &Journal
        ensures journal { result.now ≡ self.now.journal }
    {
        &self.journal
    }

    /// Makes the lines that wait durable, and then marks them at the clock's epoch less 1: a mark that was set before
    /// its flush would let a savepoint count bytes that never reached the device, and one of the clock's own epoch
    /// would leave out its commits that are still to come. Behind `Ok` every image of the log file begins with what the
    /// mark counts, and no line waits.
    pub fn flush_and_mark<D: Disk>(&mut self, bank: &mut D, clock: u32) -> Result<(), LogFault>
        requires reaches { Reaches D.tells bank.old self.old.journal }
        requires clock { 1 ≤ clock }
        ensures moves { MovesLog D.tells D.clock D.image_at D.faults (clock - 1)
            self.old self.new bank.old bank.new (refusal result) }
        ensures marked { OnOk result (IsJoined clock self.new) }
        ensures begins { OnOk result (DurableGrows D.tells D.clock D.image_at
            self.old.journal self.new.journal bank.old bank.new) }
        ensures kept { OnErr result (self.new.mark ≡ self.old.mark) }
        ensures not_full { (length : ℕ) → result ≢ Err (LogFault.Limit length) }
        ensures nothing { self.old.journal.lines ≡ []
            → (self.new.journal ≡ self.old.journal) × (bank.new ≡ bank.old) }
    {
        match self.journal.flush(bank) {
            Ok(length) => {
                self.mark = Mark {
                    length,
                    epoch: Some(clock - 1),
                };
                Ok(())
            }
            Err(fault) => Err(fault),
        }
    }

    /// Makes ready for a line at this epoch of the clock: a mark that fell behind is set anew, so that it holds
    /// no epoch back, and there is room for the line's commit.
    pub fn prepare<D: Disk>(&mut self, bank: &mut D, clock: u32) -> Result<(), LogFault>
        requires reaches { Reaches D.tells bank.old self.old.journal }
        requires clock { 1 ≤ clock }
        ensures moves { MovesLog D.tells D.clock D.image_at D.faults (clock - 1)
            self.old self.new bank.old bank.new (refusal result) }
        ensures free { OnOk result (400 ≤ free self.new.journal) }
        ensures below { OnOk result (end_of self.new.journal + 400 ≤ self.new.journal.limit) }
        ensures keeps_up { OnOk result (IsUpTo clock self.new.mark) }
        ensures stays { IsUpTo clock self.old.mark → self.new.mark ≡ self.old.mark }
        ensures full { (length : ℕ) → result ≡ Err (LogFault.Limit length)
            → (length ≡ end_of self.old.journal) × (self.old.journal.limit < length + 400) }
        ensures quick { IsUpTo clock self.old.mark → 400 ≤ free self.old.journal
            → (self.new ≡ self.old) × (bank.new ≡ bank.old) }
    {
        if !self.is_behind(clock) {
            return self.room(bank);
        }
        self.flush_and_mark(bank, clock)?;
        self.room(bank)
    }

    // Whether the mark holds an epoch back that the clock has left.
    fn is_behind(&self, clock: u32) -> bool
        requires clock { 1 ≤ clock }
        ensures up { (result ≡ false) ↔ IsUpTo clock self.now.mark }
    {
        match self.mark.epoch {
            Some(epoch) => epoch < clock - 1,
            None => false,
        }
    }

    // Makes room for one line more, and sets no mark.
    fn room<D: Disk>(&mut self, bank: &mut D) -> Result<(), LogFault>
        requires reaches { Reaches D.tells bank.old self.old.journal }
        ensures moves { (epoch : ℕ) → MovesLog D.tells D.clock D.image_at D.faults epoch
            self.old self.new bank.old bank.new (refusal result) }
        ensures mark { self.new.mark ≡ self.old.mark }
        ensures free { OnOk result (400 ≤ free self.new.journal) }
        ensures below { OnOk result (end_of self.new.journal + 400 ≤ self.new.journal.limit) }
        ensures full { (length : ℕ) → result ≡ Err (LogFault.Limit length)
            → (length ≡ end_of self.old.journal) × (self.old.journal.limit < length + 400) }
        ensures quick { 400 ≤ free self.old.journal → (self.new ≡ self.old) × (bank.new ≡ bank.old) }
    {
        self.journal.room(bank)
    }

    /// Adds a commit that changed something.
    pub fn put(&mut self, commit: &Commit)
        requires loggable { IsLoggable commit.now }
        requires free { 400 ≤ free self.old.journal }
        requires limit { end_of self.old.journal + 400 ≤ self.old.journal.limit }
        ensures lines { self.new.journal.lines ≡ self.old.journal.lines ++ line_bytes commit.now }
        ensures line { IsLogLine commit.now }
        ensures durable { self.new.journal.durable ≡ self.old.journal.durable }
        ensures limit { self.new.journal.limit ≡ self.old.journal.limit }
        ensures down { self.new.journal.down ≡ self.old.journal.down }
        ensures mark { self.new.mark ≡ self.old.mark }
    {
        self.journal.put(commit);
    }

    /// The worker's other log file, which is empty, grows from now on. The mark keeps its epoch: of the commits up to
    /// it none is in that log file.
    pub fn reset(&mut self)
        requires flushed { self.old.journal.lines ≡ [] }
        ensures resets { self.new ≡ reset_log self.old }
    {
        self.journal.reset();
        self.mark.length = 0;
    }

    /// The worker has no line in this round, and holds no epoch back. Its mark still counts all its commits.
    pub fn idle(&mut self)
        ensures { self.new ≡ idle_log self.old }
    {
        self.mark.epoch = None;
    }
}
