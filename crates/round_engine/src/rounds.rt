// One round over a vault.
ghost use Rattle.std.specs.Prelude.{◌≡◌, ◌≤◌, ◌+◌, ℕ, List, [], false, IfOk, OnOk, is_some};
ghost use Rattle.std.specs.Prelude.{Bool, None, Some, length, option_map, slice_get, vec_capacity, ◌++◌, ◌∷◌, map};
ghost use Rattle.std.specs.List.{AllByRecursion, list_any};
ghost use Rattle.std.specs.Thread.{IsSend, IsSync};
ghost use Rattle.log_writer.specs.Vault.{IsWhole};
ghost use Rattle.script_grammar.specs.Script.{keeper_lines};
ghost use Rattle.log_writer.specs.Points.{sequence_of};
ghost use Rattle.tx_script.specs.Run.{CanRun, is_limit};
ghost use Rattle.worker_logs.specs.Logs.{LogState};
ghost use Rattle.worker_logs.specs.Rows.{AreLogsUp};
ghost use Rattle.round_engine.specs.RanRound.{Rounds};
ghost use Rattle.round_engine.specs.Ends.{device_place, limit_at, save_limited, where_true};
ghost use Rattle.round_engine.specs.Phases.{IsReadyToJoin, JoinsAs, RunsAll, RunsLines, ended_as};
ghost use Rattle.round_engine.specs.Phases.{fails_device};
ghost use Rattle.round_engine.specs.Refusals.{damage_in as damage_of_end, device_in as device_of_end};
ghost use Rattle.round_engine.specs.Refusals.{device_refused as device_of, end_told, first_failed as failed_from};
ghost use Rattle.round_engine.specs.Refusals.{first_full as full_of, first_told as told_first, leaves_out};
ghost use Rattle.round_engine.specs.Refusals.{is_sequence as met_sequence, lines_refused as lines_end};
ghost use Rattle.round_engine.specs.Refusals.{memory_in as memory_of_end};
ghost use Rattle.round_engine.specs.Sides.{SameButGrowing, growing_in};
ghost use Rattle.round_engine.specs.SideLines.{CanGleanOver, CanRunBeside, HasGleanedOver, HasRunBeside, IsLent};
ghost use Rattle.round_engine.specs.Together.{MayBegin, RunsTogether};
ghost use Rattle.round_engine.specs.Histories.{KeepsHistory};
ghost use Rattle.round_engine.specs.declared.keeper.KeeperEnd.{KeeperEnd as TheEnd};
ghost use Rattle.round_engine.specs.declared.keeper_side.Lent.{Lent as TheLent};
ghost use Rattle.engine_pages.specs.declared.view.View.{View};
ghost use Rattle.round_engine.specs.Keeping.{CanKeep};
ghost use Rattle.round_engine.specs.Standing.{ArePassed, StandsOn};
ghost use Rattle.round_engine.specs.RoundCalls.{calls_at, is_answered, round_calls};
ghost use Rattle.round_engine.specs.Unbegun.{RoomAlone};
ghost use Rattle.shared_rounds.specs.Below.{AreAllTold, calls_for, calls_in};
ghost use Rattle.shared_rounds.specs.First.{AreIdle};
ghost use Rattle.shared_rounds.specs.Rooms.{IsRoomOf};
ghost use Rattle.round_engine.specs.Workers.{idle_if_not};
ghost use Rattle.round_engine.specs.declared.report.End.TheVariants as ends;

use crate::engine::Engine;
use crate::gleans::glean_over;
use crate::idling::idle_without_lines;
use crate::joins::{join_logs, limit};
use crate::keeper::KeeperEnd;
use crate::keeper_side::{KeeperSide, Lent};
use crate::owners::owners_of;
use crate::sides::growing_number;
use crate::{End, LimitName, Report, Runtime};
use arrayvec::ArrayVec;
use gleaner::{Closed, Newest};
use log_writer::{Save, Vault};
use outside::{Device, Disk, Gate};
use serial_model::{Decl, Memory, WORKERS};
use shared_rounds::{GateCalls, LineGate, LogEnd, Rooms, WorkersRan, make_rooms};
use snapshot_store::SnapStore;
use std::alloc::Global;
use std::sync::Wait;
use std::thread::Threads;
use tx_script::{Answer, Answers, Outcomes, Round, RoundOutcomes};
use worker_logs::{Side, WorkerLog};

/// Runs the workers' lines, each between the gate's two calls and tried so often at most, and beside them those of the
/// maintenance thread. Then the round is joined: the epoch is advanced, the logs are made durable, a savepoint counts
/// them, and where nothing of the closed log files counts, these grow from then on. The growing log files are lent to
/// their workers meanwhile.
///
/// From the line on at which its log is refused a worker runs none. Then, and where the maintenance thread was
/// refused by a device, by damage or by want of memory, the join is left out, and the run ends.
///
/// All room that may be wanting is made before anything is done; after want of memory then the runtime and the devices
/// are as they were, and the round may be run again. No line wants any behind that, but those of the maintenance
/// thread, which answer it.
pub fn round<R: Threads + Wait + Sync, D: Disk + Send + Drop, G: Gate + Sync>(
    rt: &R,
    alloc: Global,
    runtime: &mut Runtime,
    vault: &mut Vault<D>,
    round: &Round<'_>,
    tries: u32,
    gate: &G,
) -> Result<Report, Memory>
    requires lines { CanRun runtime.old.stands.decls round.now }
    requires some_try { 1 ≤ tries }
    requires most_tries { tries ≤ 1000000 }
    requires goes_on { runtime.old.stands.ended ≡ false }
    requires stands { StandsOn D.tells D.clock D.image_at runtime.old vault.old }
    // The commits are a serial run, the logs have them, each outcome has its cause, what ends the run is told, the
    // vault is as the saves left it, and a line that was left out was refused by its log earlier in the round.
    ensures rounds { Rounds D.tells D.clock D.image_at D.faults tries round.now runtime.old runtime.new
        vault.old vault.new result }
    // The gate was told of each line that was run, and of no other.
    ensures calls { IfOk result (λ report. map calls_in report.calls.items
        ≡ round_calls 0 report.outcomes report.keeper) }
{
    reads_are_images(vault);
    let owners = owners_of(round);
    let rooms = make_rooms(alloc, round)?;
    let answers = make_room(alloc, vault, owners.keeper)?;
    idle_logs(runtime, &owners.busy);
    Ok(run_round(
        rt, alloc, runtime, vault, round, rooms, answers, tries, gate,
    ))
}

/// What reads of a device give is among the images of now: its trait says so, and where it may be sent to a thread a
/// proof has it from here.
pub fn reads_are_images<D: Disk>(_vault: &Vault<D>)
    ensures { (disk : D) (file : List ℕ) → D.tells disk ≡ Some file → D.image_at disk (D.clock disk) file }
{}

// The marks of workers that aren't busy hold no epoch back.
fn idle_logs(runtime: &mut Runtime, busy: &[bool])
    requires workers { length runtime.old.logs ≡ 8 }
    requires busy { length busy.now ≡ 8 }
    ensures idle { (worker : ℕ) (log : LogState) (has : Bool) → slice_get runtime.old.logs worker ≡ Some log
        → slice_get busy.now worker ≡ Some has → slice_get runtime.new.logs worker ≡ Some (idle_if_not has log) }
    ensures length { length runtime.new.logs ≡ length runtime.old.logs }
    ensures alone { runtime.new ≡ record runtime.old { logs = runtime.new.logs } }
{
    idle_without_lines(&mut runtime.logs, busy);
}

// Runs and joins a round, in this room for its lines and its answers. All that is recorded of stores and cuts has its
// room: beside the lines nothing but a glean wants memory.
fn run_round<R: Threads + Wait + Sync, D: Disk + Send + Drop, G: LineGate + Sync>(
    rt: &R,
    alloc: Global,
    runtime: &mut Runtime,
    vault: &mut Vault<D>,
    round: &Round<'_>,
    rooms: Rooms<D>,
    answers: Vec<Answer>,
    tries: u32,
    gate: &G,
) -> Report
    requires lines { CanRun runtime.old.stands.decls round.now }
    requires some_try { 1 ≤ tries }
    requires goes_on { runtime.old.stands.ended ≡ false }
    requires whole { IsWhole vault.old }
    requires ready { CanKeep D.tells D.clock D.image_at runtime.old vault.old }
    requires logs { AreLogsUp D.tells runtime.old.logs (growing_in runtime.old.side vault.old) }
    requires flushed { AllByRecursion (λ log. log.journal.lines ≡ []) runtime.old.logs }
    requires idle { AreIdle round.now runtime.old.logs }
    requires passed { ArePassed round.now runtime.old }
    requires room { IsRoomOf round.now rooms }
    requires none { answers.items ≡ [] }
    requires answer_room { length (keeper_lines round.now) ≤ vec_capacity answers }
    requires tie_room { length (keeper_lines round.now) + 1 ≤ vault.old.ties.room }
    requires cut_room { 8 ≤ vault.old.cuts.room }
    ensures all { RunsAll D.tells D.clock D.image_at D.faults tries round.now runtime.old runtime.new
        vault.old vault.new result }
    ensures calls { map calls_in result.calls.items ≡ round_calls 0 result.outcomes result.keeper }
{
    let mut answers = answers;
    let (ran, keeper) = run_together(
        rt,
        alloc,
        runtime,
        vault,
        round,
        rooms,
        &mut answers,
        tries,
        gate,
    );
    let refused = LineRefusals::in_lines(runtime, &ran, keeper);
    let (durable, end) = join(runtime, vault, refused);
    let calls = calls_in_round(ran.ends.as_slice(), keeper.calls);
    Report {
        outcomes: ran.outcomes,
        keeper: Answers::from_vec(answers),
        durable,
        end,
        calls,
    }
}

// Runs the workers' lines over the growing log files, which are lent out of the vault meanwhile; and beside them those of
// the maintenance thread, which is lent the rest.
fn run_together<R: Threads + Wait + Sync, D: Disk + Send + Drop, G: LineGate + Sync>(
    rt: &R,
    alloc: Global,
    runtime: &mut Runtime,
    vault: &mut Vault<D>,
    round: &Round<'_>,
    rooms: Rooms<D>,
    answers: &mut Vec<Answer>,
    tries: u32,
    gate: &G,
) -> (WorkersRan, KeeperEnd)
    requires lines { CanRun runtime.old.stands.decls round.now }
    requires some_try { 1 ≤ tries }
    requires goes_on { runtime.old.stands.ended ≡ false }
    requires whole { IsWhole vault.old }
    requires ready { CanKeep D.tells D.clock D.image_at runtime.old vault.old }
    requires up { AreLogsUp D.tells runtime.old.logs (growing_in runtime.old.side vault.old) }
    requires flushed { AllByRecursion (λ log. log.journal.lines ≡ []) runtime.old.logs }
    requires idle { AreIdle round.now runtime.old.logs }
    requires room { IsRoomOf round.now rooms }
    requires none { answers.old.items ≡ [] }
    requires answer_room { length (keeper_lines round.now) ≤ vec_capacity answers.old }
    requires tie_room { length (keeper_lines round.now) ≤ vault.old.ties.room }
    ensures runs { RunsLines D.tells D.clock D.image_at D.faults tries round.now runtime.old runtime.new
        vault.old vault.new result.0 answers.new.items result.1.refusal }
    ensures limited { result.1.limited ≡ save_limited (keeper_lines round.now) answers.new.items }
    ensures calls { AreAllTold 0 result.0.outcomes result.0.ends.items
        × (calls_in result.1.calls ≡ calls_for is_answered 255 0 answers.new.items) }
{
    let mut growing = lend(alloc, runtime.side, vault);
    let ran = run_apart(
        rt,
        alloc,
        &mut runtime.engine,
        &mut runtime.logs,
        &mut runtime.save,
        &mut runtime.store,
        &mut runtime.counted,
        runtime.room,
        runtime.side,
        runtime.closed_at,
        vault,
        &mut growing,
        rooms,
        round,
        answers,
        tries,
        gate,
    );
    give_back(runtime.side, vault, growing);
    ran
}

// The same over the parts of a runtime, with the growing log files apart from the vault.
fn run_apart<R: Threads + Wait + Sync, D: Disk + Send + Drop, G: LineGate + Sync>(
    rt: &R,
    alloc: Global,
    engine: &mut Engine,
    logs: &mut Vec<WorkerLog>,
    save: &mut Save,
    store: &mut SnapStore,
    counted: &mut [u64; 8],
    room: u32,
    side: Side,
    closed_at: u32,
    vault: &mut Vault<D>,
    growing: &mut Vec<D>,
    rooms: Rooms<D>,
    round: &Round<'_>,
    answers: &mut Vec<Answer>,
    tries: u32,
    gate: &G,
) -> (WorkersRan, KeeperEnd)
    requires lines { CanRun engine.old.decls round.now }
    requires some_try { 1 ≤ tries }
    requires goes_on { engine.old.ended ≡ false }
    requires logs { length logs.old.items ≡ 8 }
    requires growing { length growing.old.items ≡ 8 }
    requires up { AreLogsUp D.tells logs.old.items growing.old.items }
    requires flushed { AllByRecursion (λ log. log.journal.lines ≡ []) logs.old.items }
    requires idle { AreIdle round.now logs.old.items }
    requires rooms { IsRoomOf round.now rooms }
    requires beside { (v : View) → MayBegin engine.old v → (lent : TheLent)
        → IsLent lent save.old store.old counted.old room side closed_at → (end : TheEnd) → end.refusal ≡ None
        → end.limited ≡ false → calls_in end.calls ≡ []
        → CanRunBeside D.tells D.clock D.image_at round.now lent vault.old answers.old.items
        (vec_capacity answers.old) end v }
    ensures runs { (lent : TheLent) × (left : TheLent)
        × IsLent lent save.old store.old counted.old room side closed_at
        × IsLent left save.new store.new counted.new room side closed_at
        × RunsTogether D.tells D.clock D.image_at D.faults
        (λ v w. HasRunBeside D.tells D.clock D.image_at D.faults round.now lent left vault.old vault.new
        answers.new.items result.1 v w) tries round.now engine.old engine.new logs.old.items logs.new.items
        growing.old.items growing.new.items result.0 }
    ensures history { KeepsHistory round.now result.0.outcomes engine.old engine.new }
    ensures calls { AreAllTold 0 result.0.outcomes result.0.ends.items }
{
    let glean = |rt: &R, alloc: Global, vault: &mut Vault<
        D,
    >, side: Side, store: &mut SnapStore, decls: &[Decl], newest: Newest, closed: &Closed, room: u32|
        requires { IsSync R.row × IsSend D.row
            × CanGleanOver D.tells side decls.now newest closed.now room store.old vault.old }
        ensures { HasGleanedOver D.tells D.clock D.image_at D.faults side decls.now newest closed.now room
            store.old store.new vault.old vault.new result.answer result.beside }
    { glean_over(rt, alloc, vault, side, store, decls, newest, closed, room) };
    let mut keeper = KeeperSide {
        rt,
        alloc,
        lent: Lent {
            save,
            store,
            counted,
            room,
            side,
            closed_at,
        },
        vault,
        round,
        gate,
        answers,
        glean,
        end: KeeperEnd::none(),
    };
    let ran = engine.run_lines(rt, logs, growing, rooms, round, tries, gate, &mut keeper);
    let end = keeper.end;
    (ran, end)
}

// What the gate was told by each worker, and last by the maintenance thread.
fn calls_in_round(ends: &[LogEnd], keeper: GateCalls) -> ArrayVec<GateCalls, 9>
    requires { length ends.now ≤ 8 }
    ensures { result.items ≡ map calls_at ends.now ++ keeper ∷ [] }
{
    let mut calls = ArrayVec::new();
    for index in 0..ends.len() {
        calls.push(ends[index].calls);
    }
    calls.push(keeper);
    calls
}

// Makes room for so many answers, for the record of their stores and the join's, and for that of a cut of each closed
// log file.
fn make_room<D: Disk>(
    alloc: Global,
    vault: &mut Vault<D>,
    asked: usize,
) -> Result<Vec<Answer>, Memory>
    requires few { asked ≤ 65536 }
    ensures answers { IfOk result (λ answers. (answers.items ≡ []) × (asked ≤ vec_capacity answers)) }
    ensures tie_room { OnOk result (asked + 1 ≤ vault.new.ties.room) }
    ensures cut_room { OnOk result (8 ≤ vault.new.cuts.room) }
    ensures alone { RoomAlone vault.old vault.new }
{
    let answers = Vec::with_capacity(alloc, asked)?;
    vault.ties.reserve(asked + 1)?;
    vault.cuts.reserve(WORKERS)?;
    Ok(answers)
}

// The growing log files, out of the vault.
fn lend<D: Disk + Drop>(alloc: Global, side: Side, vault: &mut Vault<D>) -> Vec<D>
    ensures growing { result.items ≡ growing_in side vault.old }
    ensures none { growing_in side vault.new ≡ [] }
    ensures vault { SameButGrowing side vault.old vault.new }
{
    match side {
        Side::Even => std::mem::replace(&mut vault.even, Vec::new(alloc)),
        Side::Odd => std::mem::replace(&mut vault.odd, Vec::new(alloc)),
    }
}

// Puts the growing log files into the vault.
fn give_back<D: Disk + Drop>(side: Side, vault: &mut Vault<D>, growing: Vec<D>)
    ensures growing { growing_in side vault.new ≡ growing.items }
    ensures vault { SameButGrowing side vault.old vault.new }
{
    match side {
        Side::Even => vault.even = growing,
        Side::Odd => vault.odd = growing,
    }
}

// What the lines of a round were refused, each kind by itself.
#[derive(Clone, Copy)]
struct LineRefusals {
    device: Option<Device>,
    keeper: Option<End>,
    draw: Option<u64>,
    full: Option<u64>,
    sequence: Option<u64>,
}

impl LineRefusals {
    fn in_lines(runtime: &Runtime, ran: &WorkersRan, keeper: KeeperEnd) -> Self
        requires { length ran.now.ends.items ≤ 8 }
        ensures device { result.device ≡ device_of runtime.now.side keeper.refusal ran.now.ends.items }
        ensures keeper { result.keeper ≡ keeper.refusal }
        ensures draw { result.draw ≡ where_true (list_any (list_any is_limit) ran.now.outcomes)
            runtime.now.stands.clock.draw }
        ensures full { result.full ≡ full_of ran.now.ends.items }
        ensures sequence { result.sequence ≡ where_true keeper.limited (sequence_of runtime.now.save.newest) }
    {
        let log = first_failed(runtime.side, ran.ends.as_slice());
        LineRefusals {
            device: first_told(device_in(keeper.refusal), log),
            keeper: keeper.refusal,
            draw: draw_refused(runtime, ran.outcomes.as_slice()),
            full: first_full(ran.ends.as_slice()),
            sequence: sequence_refused(runtime, keeper.limited),
        }
    }

    // Whether the join is left out.
    fn leaves_join_out(&self) -> bool
        ensures { result ≡ leaves_out self.now }
    {
        self.device.is_some() || self.full.is_some() || self.keeper.is_some()
    }
}

// Joins the round, unless its lines were refused in a way that leaves that out. Answers the epoch that was made
// durable, and the first refusal of all: devices, then damage, the epoch, the draws, a full log file, the sequence, and
// memory.
fn join<D: Disk>(
    runtime: &mut Runtime,
    vault: &mut Vault<D>,
    refused: LineRefusals,
) -> (Option<u32>, Option<End>)
    requires ready { leaves_out refused ≡ false → IsReadyToJoin D.tells D.clock D.image_at D.faults
        runtime.old vault.old }
    requires tie_room { 1 ≤ vault.old.ties.room }
    requires cut_room { 8 ≤ vault.old.cuts.room }
    ensures joins { JoinsAs D.tells D.clock D.image_at D.faults refused runtime.old runtime.new
        vault.old vault.new result.0 result.1 }
{
    if refused.leaves_join_out() {
        let end = runtime.end_with(first_refusal(refused, None), refused.device.is_some());
        return (None, end);
    }
    let (durable, end) = join_logs(runtime, vault);
    let down = names_device(end);
    (durable, runtime.end_with(first_refusal(refused, end), down))
}

/// Whether it is a device that failed.
pub(crate) fn names_device(end: Option<End>) -> bool
    ensures { result ≡ fails_device end }
{
    matches!(end, Some(End::Device(_)))
}

impl Runtime {
    // What ends the run, if anything does, and whether a device failed.
    pub(crate) fn end_with(&mut self, end: Option<End>, down: bool) -> Option<End>
        ensures runtime { self.new ≡ ended_as self.old (is_some end) down }
        ensures end { result ≡ end }
    {
        self.engine.set_ended(end.is_some());
        self.down = down;
        end
    }
}

// The first of the lines' refusals and the join's. What the join was refused comes before what the lines were behind
// which it was made, but for the last sequence, behind a line that was refused a number.
fn first_refusal(refused: LineRefusals, joined: Option<End>) -> Option<End>
    ensures { result ≡ end_told refused joined }
{
    let lines = lines_refused(refused);
    let Some(end) = joined else {
        return lines;
    };
    if is_sequence(end) {
        return lines.or(joined);
    }
    joined
}

// The first of the lines' refusals.
fn lines_refused(refused: LineRefusals) -> Option<End>
    ensures { result ≡ lines_end refused }
{
    let draw = by_limit(LimitName::Draw, refused.draw);
    let full = by_limit(LimitName::Bank, refused.full);
    let sequence = by_limit(LimitName::Sequence, refused.sequence);
    let limits = draw.or(full).or(sequence);
    by_device(refused.device)
        .or(damage_in(refused.keeper))
        .or(limits)
        .or(memory_in(refused.keeper))
}

// The refusal by a device, if one failed.
fn by_device(device: Option<Device>) -> Option<End>
    ensures { result ≡ option_map ends.Device device }
{
    device.map(End::Device)
}

// The refusal by a limit of this name, if it was met.
fn by_limit(name: LimitName, met: Option<u64>) -> Option<End>
    ensures { result ≡ option_map (limit_at name) met }
{
    met.map(|number| limit(name, number))
}

// The device that failed, of what the maintenance thread's lines were refused.
fn device_in(refusal: Option<End>) -> Option<Device>
    ensures { result ≡ device_of_end refusal }
{
    match refusal {
        Some(End::Device(device)) => Some(device),
        Some(End::Damaged { .. } | End::Limit { .. } | End::Memory) | None => None,
    }
}

// The damage that was found.
fn damage_in(refusal: Option<End>) -> Option<End>
    ensures { result ≡ damage_of_end refusal }
{
    match refusal {
        Some(End::Damaged { .. }) => refusal,
        Some(End::Device(_) | End::Limit { .. } | End::Memory) | None => None,
    }
}

// The want of memory.
fn memory_in(refusal: Option<End>) -> Option<End>
    ensures { result ≡ memory_of_end refusal }
{
    match refusal {
        Some(End::Memory) => refusal,
        Some(End::Device(_) | End::Damaged { .. } | End::Limit { .. }) | None => None,
    }
}

// Whether it is the last sequence that was met.
fn is_sequence(end: End) -> bool
    ensures { result ≡ met_sequence end }
{
    matches!(
        end,
        End::Limit {
            name: LimitName::Sequence,
            ..
        }
    )
}

// The one of two devices that is told first, if both failed.
fn first_told(device: Option<Device>, other: Option<Device>) -> Option<Device>
    ensures { result ≡ told_first device other }
{
    let (Some(one), Some(two)) = (device, other) else {
        return device.or(other);
    };
    if place_of(one) <= place_of(two) {
        return device;
    }
    other
}

// Where a device stands in the order in which faults are told.
fn place_of(device: Device) -> u16
    ensures { result ≡ device_place device }
{
    match device {
        Device::Save => 0,
        Device::Snaps => 1,
        Device::Bank(number) => u16::from(number) + 2,
    }
}

// The sequence at which lines were refused a save.
fn sequence_refused(runtime: &Runtime, limited: bool) -> Option<u64>
    ensures { result ≡ where_true limited (sequence_of runtime.now.save.newest) }
{
    if limited {
        return Some(runtime.save.sequence());
    }
    None
}

// The draw at which lines were refused a number.
fn draw_refused(runtime: &Runtime, outcomes: &[Outcomes]) -> Option<u64>
    ensures { result ≡ where_true (list_any (list_any is_limit) outcomes.now) runtime.now.stands.clock.draw }
{
    if has_limit(outcomes) {
        return Some(runtime.engine.clock().draw);
    }
    None
}

// The first growing log file that failed.
fn first_failed(side: Side, logs: &[LogEnd]) -> Option<Device>
    requires { length logs.now ≤ 8 }
    ensures { result ≡ failed_from side 0 logs.now }
{
    for worker in 0..logs.len() {
        if logs[worker].failed {
            return Some(Device::Bank(growing_number(side, worker)));
        }
    }
    None
}

// The length of the first full log file.
fn first_full(logs: &[LogEnd]) -> Option<u64>
    ensures { result ≡ full_of logs.now }
{
    for index in 0..logs.len() {
        if logs[index].full.is_some() {
            return logs[index].full;
        }
    }
    None
}

fn has_limit(outcomes: &[Outcomes]) -> bool
    ensures { result ≡ list_any (list_any is_limit) outcomes.now }
{
    outcomes.iter().any(|of_worker| of_worker.has_limit())
}
