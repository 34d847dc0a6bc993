// What is told of the maintenance thread's lines, and the save of a join.
ghost use Rattle.std.specs.Prelude.{◌≡◌, ◌≤◌, [], None, false};
ghost use Rattle.tx_script.specs.declared.answer.Answer.TheVariants as answers;
ghost use Rattle.shared_rounds.specs.Below.{calls_in};
ghost use Rattle.worker_logs.specs.Saves.{SavesMarks, logs_marks};
ghost use Rattle.round_engine.specs.Keeping.{CanKeep, glean_answer, glean_refusal, is_limited, refusal_beside};
ghost use Rattle.round_engine.specs.Keeping.{save_answer, save_refusal};
ghost use Rattle.round_engine.specs.Standing.{beside_of};

use crate::{End, Runtime};
use gleaner::{GleanFault, Gleaned, Gleaning};
use lists::OrMemory;
use log_writer::{SaveFault, Vault};
use outside::{Device, Disk};
use shared_rounds::{Dropped, GateCalls};
use tx_script::{Answer, KeeperLine};
use worker_logs::{Beside, save_marks};

/// The maintenance thread, as a gate is told of it.
pub(crate) const KEEPER: u8 = 255;

/// What the maintenance thread's lines were refused, and what the gate was told of them.
#[derive(Clone, Copy)]
pub(crate) struct KeeperEnd {
    /// The refusal behind which none of them was run.
    pub(crate) refusal: Option<End>,
    /// Whether one asked for a save behind the last sequence.
    pub(crate) limited: bool,
    /// The calls of the gate.
    pub(crate) calls: GateCalls,
}

impl KeeperEnd {
    /// That of no line.
    pub(crate) fn none() -> Self
        ensures refusal { result.refusal ≡ None }
        ensures limited { result.limited ≡ false }
        ensures calls { calls_in result.calls ≡ [] }
    {
        KeeperEnd {
            refusal: None,
            limited: false,
            calls: GateCalls::none(),
        }
    }
}

/// Whether a save met the last sequence.
pub(crate) fn met_limit(line: KeeperLine, answer: Answer) -> bool
    ensures { result ≡ is_limited line answer }
{
    match line {
        KeeperLine::Save => matches!(answer, Answer::Limit),
        KeeperLine::Epoch | KeeperLine::Glean | KeeperLine::Drop => false,
    }
}

/// What is told of a save: the answer, and the refusal behind which no line is run.
pub(crate) fn told_of_save(saved: Result<u32, SaveFault>) -> (Answer, Option<End>)
    ensures answer { result.0 ≡ save_answer saved }
    ensures refusal { result.1 ≡ save_refusal result.0 }
{
    match saved {
        Ok(epoch) => (Answer::Save { epoch }, None),
        Err(SaveFault::Limit { .. }) => (Answer::Limit, None),
        Err(SaveFault::Device | SaveFault::Down { .. }) => {
            (Answer::Device, Some(End::Device(Device::Save)))
        }
    }
}

/// What is told of a drop.
pub(crate) fn told_of_drop(drops: Dropped) -> (Answer, Option<End>)
    ensures answer { result.0 ≡ answers.Drop drops.dropped drops.kept }
    ensures refusal { result.1 ≡ None }
{
    let answer = Answer::Drop {
        dropped: drops.dropped,
        kept: drops.kept,
    };
    (answer, None)
}

/// What is told of a glean: the answer, and the refusal behind which no line is run.
pub(crate) fn told_of_glean(gleaning: Gleaning) -> (Answer, Option<End>)
    ensures answer { result.0 ≡ glean_answer gleaning.answer }
    ensures refusal { result.1 ≡ refusal_beside gleaning.beside (glean_refusal gleaning.answer) }
{
    let (answer, refusal) = told_of_answer(gleaning.answer);
    (answer, or_beside(gleaning.beside, refusal))
}

// A refusal, or a closed log file that failed beside it: a device is named before damage and want of memory.
fn or_beside(beside: Option<Device>, refusal: Option<End>) -> Option<End>
    ensures { result ≡ refusal_beside beside refusal }
{
    let Some(device) = beside else {
        return refusal;
    };
    match refusal {
        Some(End::Device(_)) => refusal,
        Some(End::Damaged { .. } | End::Limit { .. } | End::Memory) | None => {
            Some(End::Device(device))
        }
    }
}

// What is told of a glean's answer.
fn told_of_answer(gleaned: Result<Gleaned, OrMemory<GleanFault>>) -> (Answer, Option<End>)
    ensures answer { result.0 ≡ glean_answer gleaned }
    ensures refusal { result.1 ≡ glean_refusal gleaned }
{
    match gleaned {
        Ok(Gleaned::Empty) => (Answer::Empty, None),
        Ok(Gleaned::Snap { epoch, new }) => (Answer::Snap { epoch, new }, None),
        Err(OrMemory::Fault(GleanFault::Deep)) => (Answer::Deep, None),
        Err(OrMemory::Fault(GleanFault::Limit { .. })) => (Answer::SnapFull, None),
        Err(OrMemory::Fault(GleanFault::Device(device))) => {
            (Answer::Device, Some(End::Device(device)))
        }
        Err(OrMemory::Fault(GleanFault::Damaged { device, at })) => {
            (Answer::Damaged, Some(End::Damaged { device, at }))
        }
        Err(OrMemory::Memory) => (Answer::Memory, Some(End::Memory)),
    }
}

/// Stores what the logs' marks allow, and what counts beside them.
pub(crate) fn save_marked<D: Disk>(
    runtime: &mut Runtime,
    vault: &mut Vault<D>,
) -> Result<u32, SaveFault>
    requires ready { CanKeep D.tells D.clock D.image_at runtime.old vault.old }
    requires tie_room { 1 ≤ vault.old.ties.room }
    ensures saves { SavesMarks D.tells D.clock D.image_at D.faults runtime.old.stands.clock.epoch
        (logs_marks runtime.old.logs) (beside_of runtime.old) runtime.old.save runtime.new.save
        vault.old vault.new result }
    ensures alone { runtime.new ≡ record runtime.old { save = runtime.new.save } }
{
    let beside = runtime.beside();
    save_marks(
        &mut runtime.save,
        runtime.engine.clock().epoch,
        &runtime.logs,
        &beside,
        vault,
    )
}

impl Runtime {
    // What counts beside the growing log files.
    fn beside(&self) -> Beside
        ensures { result ≡ beside_of self.now }
    {
        Beside {
            growing: self.side,
            closed: self.counted,
            count: self.store.count(),
        }
    }
}
