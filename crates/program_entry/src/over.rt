// Calls of `top` over a database that was opened, whoever used it last.
ghost use Rattle.std.specs.Prelude.{◌≡◌, map};
ghost use Rattle.log_writer.specs.Vault.{IsWhole};
ghost use Rattle.command_line.specs.Options.{command_of};
ghost use Rattle.program_calls.specs.Answers.{sources_of};
ghost use Rattle.program_calls.specs.Causes.{AnswersFaults};
ghost use Rattle.program_calls.specs.OnTheWay.{IsExit};
ghost use Rattle.program_calls.specs.TopAnswers.{sinks_of};
ghost use Rattle.program_calls.specs.Vaults.{vaults_of};
ghost use Rattle.program_entry.specs.Entry.{AnsweredBy, MayChange};

use crate::told::tell;
use joint_crashes::{sync_all, take_over};
use log_writer::Vault;
use outside::{Disk, Gate, Sink, Source};
use program_calls::{Ending, top};
use std::sync::Wait;
use std::thread::Threads;

/// Calls `top` with words that may change the database. Before that it is taken over from whoever used it last, however
/// that ended: as `top` begins nothing of it is pending, so that what `top` promises of stops holds (`answered`, by
/// `CallsTop`). Where a device can't be synced or written that is told, and `top` isn't called.
pub fn run_over<R, S: Source, K: Sink, D: Disk + Send + Drop, G: Gate + Sync>(
    rt: &R,
    words: &[&str],
    source: &mut S,
    sink: &mut K,
    vault: &mut Vault<D>,
    gate: &G,
) -> u8
where
    R: Threads + Wait + Sync + AllocGlobal,
    requires whole { IsWhole vault.old }
    requires changes { MayChange (command_of (map (λ word. word.now) words.now)) }
    ensures statuses { IsExit result }
    ensures faults { AnswersFaults
        (record { before = S.faults source.old; after = S.faults source.new })
        (record { before = K.faults sink.old; after = K.faults sink.new }) result }
    ensures answered { AnsweredBy D.settled
        (vaults_of D.tells D.clock D.image_at D.faults vault.old vault.new)
        (map (λ word. word.now) words.now) (sources_of S.left S.faults source.old source.new)
        (sinks_of K.held K.faults sink.old sink.new) result }
{
    match take_over(vault) {
        Ok(()) => top(rt, rt.alloc(), words, source, sink, vault, gate),
        Err(device) => tell(sink, Ending::NoDevice(device)),
    }
}

/// Calls `top` with words that don't change the database. Each device is synced before that, so that what they tell of it
/// is there behind a stop (`synced` of `CallsTop`). One that can't be is read all the same, since a failing device has to be
/// readable.
pub fn list_over<R, S: Source, K: Sink, D: Disk + Send + Drop, G: Gate + Sync>(
    rt: &R,
    words: &[&str],
    source: &mut S,
    sink: &mut K,
    vault: &mut Vault<D>,
    gate: &G,
) -> u8
where
    R: Threads + Wait + Sync + AllocGlobal,
    requires whole { IsWhole vault.old }
    requires lists { MayChange (command_of (map (λ word. word.now) words.now)) → ⊥ }
    ensures statuses { IsExit result }
    ensures faults { AnswersFaults
        (record { before = S.faults source.old; after = S.faults source.new })
        (record { before = K.faults sink.old; after = K.faults sink.new }) result }
    ensures answered { AnsweredBy D.settled
        (vaults_of D.tells D.clock D.image_at D.faults vault.old vault.new)
        (map (λ word. word.now) words.now) (sources_of S.left S.faults source.old source.new)
        (sinks_of K.held K.faults sink.old sink.new) result }
{
    let _synced = sync_all(vault);
    top(rt, rt.alloc(), words, source, sink, vault, gate)
}
