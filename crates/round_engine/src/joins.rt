// The end of a round: an epoch more, all logs durable and marked, a savepoint that counts them, and the swap behind it.
ghost use Rattle.std.specs.Prelude.{◌≡◌, ◌<◌, ◌+◌, ◌≤◌, ◌||◌, None, is_some, false, true, length};
ghost use Rattle.log_writer.specs.Counted.{AlwaysTells};
ghost use Rattle.log_writer.specs.Vault.{IsWhole};
ghost use Rattle.log_writer.specs.Save.{IsStored};
ghost use Rattle.round_engine.specs.Joins.{Joins};
ghost use Rattle.worker_logs.specs.FlushAll.{AllReach, FlushesAll};
ghost use Rattle.worker_logs.specs.Rows.{AreLogsUp};
ghost use Rattle.round_engine.specs.Keeping.{Advances, RunsJoin, join_answer};
ghost use Rattle.round_engine.specs.Phases.{JoinsAndSwaps, ended_as, fails_device};
ghost use Rattle.round_engine.specs.Sides.{SameButGrowing, growing_in};
ghost use Rattle.round_engine.specs.Standing.{AreClosed, HasSnapshot, LogsStand, StandsOn};

use crate::keeper::save_marked;
use crate::rounds::names_device;
use crate::sides::growing_number;
use crate::swaps::swap;
use crate::{End, LimitName, Runtime};
use log_writer::{SaveFault, Vault};
use outside::{Device, Disk};
use serial_model::LAST_EPOCH;
use worker_logs::{Side, WorkerLog, flush_all};

/// Ends a round: the epoch is advanced, every worker's log is flushed and marked, and a savepoint is stored that
/// counts what is marked; then, where nothing of the closed log files counts, these are emptied and grow from then on,
/// and those that grew are closed. Answers the epoch that this made durable, and the refusal that ends the run, if
/// there is one: what comes behind a step that was refused is left out.
pub fn join_round<D: Disk>(
    runtime: &mut Runtime,
    vault: &mut Vault<D>,
) -> (Option<u32>, Option<End>)
    requires up { runtime.old.down ≡ false }
    requires stands { StandsOn D.tells D.clock D.image_at runtime.old vault.old }
    requires tie_room { 1 ≤ vault.old.ties.room }
    requires cut_room { 8 ≤ vault.old.cuts.room }
    ensures joins { Joins D.tells D.clock D.image_at D.faults runtime.old runtime.new
        vault.old vault.new result.0 result.1 }
{
    let (durable, end) = join_logs(runtime, vault);
    (durable, runtime.end_joined(end))
}

// A join, and the swap behind its save. Answers what was made durable, and what was refused.
pub(crate) fn join_logs<D: Disk>(
    runtime: &mut Runtime,
    vault: &mut Vault<D>,
) -> (Option<u32>, Option<End>)
    requires whole { IsWhole vault.old }
    requires logs { AreLogsUp D.tells runtime.old.logs (growing_in runtime.old.side vault.old) }
    requires workers { length runtime.old.logs ≡ 8 }
    requires up { runtime.old.save.down ≡ None }
    requires stored { IsStored D.tells D.clock D.image_at vault.old.save runtime.old.save.newest }
    requires closed { AreClosed runtime.old }
    requires sound { runtime.old.store.sound ≡ true }
    requires snapshot { HasSnapshot D.tells runtime.old vault.old.snaps }
    requires durable { AlwaysTells D.tells → LogsStand D.tells D.clock D.image_at runtime.old.side
        runtime.old.logs runtime.old.counted vault.old }
    requires room { runtime.old.room ≤ 65536 }
    requires tie_room { 1 ≤ vault.old.ties.room }
    requires cut_room { 8 ≤ vault.old.cuts.room }
    ensures runs { JoinsAndSwaps D.tells D.clock D.image_at D.faults runtime.old runtime.new
        vault.old vault.new result.0 result.1 }
{
    match save_joined(runtime, vault) {
        Ok(epoch) => (Some(epoch), swap(runtime, vault, epoch)),
        Err(end) => (None, Some(end)),
    }
}

// The steps of a join up to its save: each is made only once those before it are done. The marks name the epoch that
// ended, so they are set behind the advance; they count what is durable, so they are set behind the flush; and the
// savepoint counts what is marked.
fn save_joined<D: Disk>(runtime: &mut Runtime, vault: &mut Vault<D>) -> Result<u32, End>
    requires whole { IsWhole vault.old }
    requires logs { AreLogsUp D.tells runtime.old.logs (growing_in runtime.old.side vault.old) }
    requires workers { length runtime.old.logs ≡ 8 }
    requires up { runtime.old.save.down ≡ None }
    requires stored { IsStored D.tells D.clock D.image_at vault.old.save runtime.old.save.newest }
    requires closed { AreClosed runtime.old }
    requires sound { runtime.old.store.sound ≡ true }
    requires snapshot { HasSnapshot D.tells runtime.old vault.old.snaps }
    requires durable { AlwaysTells D.tells → LogsStand D.tells D.clock D.image_at runtime.old.side
        runtime.old.logs runtime.old.counted vault.old }
    requires room { runtime.old.room ≤ 65536 }
    requires tie_room { 1 ≤ vault.old.ties.room }
    ensures runs { RunsJoin D.tells D.clock D.image_at D.faults runtime.old runtime.new
        vault.old vault.new result }
    ensures cuts { vault.new.cuts ≡ vault.old.cuts }
{
    runtime.advance()?;
    if let Err(worker) = flush_logs(runtime, vault) {
        let number = growing_number(runtime.side, worker);
        return Err(End::Device(Device::Bank(number)));
    }
    end_of_save(save_marked(runtime, vault))
}

// Flushes and marks all logs, up to the first that refuses.
fn flush_logs<D: Disk>(runtime: &mut Runtime, vault: &mut Vault<D>) -> Result<(), usize>
    requires as_many { length (growing_in runtime.old.side vault.old) ≡ length runtime.old.logs }
    requires reaches { AllReach D.tells runtime.old.logs (growing_in runtime.old.side vault.old) }
    ensures flushes { FlushesAll D.tells D.clock D.image_at D.faults runtime.old.stands.clock.epoch
        runtime.old.logs runtime.new.logs (growing_in runtime.old.side vault.old)
        (growing_in runtime.old.side vault.new) result }
    ensures alone { runtime.new ≡ record runtime.old { logs = runtime.new.logs } }
    ensures vault { SameButGrowing runtime.old.side vault.old vault.new }
{
    let clock = runtime.engine.clock().epoch;
    flush_side(&mut runtime.logs, runtime.side, vault, clock)
}

// Flushes and marks logs over the side that grows.
fn flush_side<D: Disk>(
    logs: &mut [WorkerLog],
    side: Side,
    vault: &mut Vault<D>,
    clock: u32,
) -> Result<(), usize>
    requires as_many { length (growing_in side vault.old) ≡ length logs.old }
    requires reaches { AllReach D.tells logs.old (growing_in side vault.old) }
    requires clock { 1 ≤ clock }
    ensures flushes { FlushesAll D.tells D.clock D.image_at D.faults clock
        logs.old logs.new (growing_in side vault.old) (growing_in side vault.new) result }
    ensures vault { SameButGrowing side vault.old vault.new }
{
    match side {
        Side::Even => flush_all(logs, &mut vault.even, clock),
        Side::Odd => flush_all(logs, &mut vault.odd, clock),
    }
}

// What a save comes to in a join.
fn end_of_save(saved: Result<u32, SaveFault>) -> Result<u32, End>
    ensures { result ≡ join_answer saved }
{
    match saved {
        Ok(epoch) => Ok(epoch),
        Err(SaveFault::Limit { sequence }) => Err(limit(LimitName::Sequence, sequence)),
        Err(SaveFault::Device | SaveFault::Down { .. }) => Err(End::Device(Device::Save)),
    }
}

impl Runtime {
    /// Advances the epoch, unless it is the last one.
    pub(crate) fn advance(&mut self) -> Result<(), End>
        ensures { Advances self.old self.new result }
    {
        let epoch = self.engine.clock().epoch;
        if epoch >= LAST_EPOCH {
            return Err(limit(LimitName::Epoch, u64::from(epoch)));
        }
        self.engine.advance();
        Ok(())
    }

    // What ends the run behind a join, if anything does. One that had ended before stays so.
    fn end_joined(&mut self, end: Option<End>) -> Option<End>
        ensures runtime { self.new ≡ ended_as self.old (self.old.stands.ended || is_some end) (fails_device end) }
        ensures end { result ≡ end }
    {
        let ended = self.engine.has_ended() || end.is_some();
        self.engine.set_ended(ended);
        self.down = names_device(end);
        end
    }
}

/// The end of a run at a limit.
pub(crate) fn limit(name: LimitName, number: u64) -> End
    ensures { result ≡ End.Limit name number }
{
    End::Limit { name, number }
}
