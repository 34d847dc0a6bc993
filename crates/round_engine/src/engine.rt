// What the workers' lines are run on: words that threads share.
ghost use Rattle.std.specs.Prelude.{◌≡◌, ◌+◌, ◌-◌, ◌<◌, ◌≤◌, ℕ, [], Bool, IfOk, List, false, length};
ghost use Rattle.std.specs.List.{AllByRecursion};
ghost use Rattle.serial_model.specs.Decls.{AreDecls};
ghost use Rattle.serial_model.specs.Numbers.{IsNumber, last_epoch};
ghost use Rattle.wire_form.specs.Pages.{Contents};
ghost use Rattle.snapshot_store.specs.Content.{words_of};
ghost use Rattle.recovery_core.specs.NewestSnapshot.{IsNewestSnapshot};
ghost use Rattle.tx_script.specs.Run.{CanRun};
ghost use Rattle.worker_logs.specs.Rows.{AreLogsUp};
ghost use Rattle.engine_pages.specs.declared.view.View.{View};
ghost use Rattle.shared_rounds.specs.First.{AreIdle};
ghost use Rattle.shared_rounds.specs.Lines.{standing};
ghost use Rattle.shared_rounds.specs.Rooms.{IsRoomOf};
ghost use Rattle.round_engine.specs.Begun.{Begins};
ghost use Rattle.round_engine.specs.Gleans.{CanPublish};
ghost use Rattle.round_engine.specs.Histories.{KeepsHistory};
ghost use Rattle.round_engine.specs.Together.{MayBegin, RunsTogether};
ghost use Rattle.shared_rounds.specs.Below.{AreAllTold};

use crate::opening::newest_start;
use lists::Sequence;
use outside::Disk;
use serial_model::{Decl, Decls, Memory, Number, State};
use shared_rounds::{Beside, LineGate, Rooms, SharedEngine, WorkersRan};
use snapshot_store::SnapStore;
use std::alloc::Global;
use std::marker::Model;
use std::thread::Threads;
use tx_script::Round;
use worker_logs::WorkerLog;

/// The engine: the words on which the lines are run, and whether a round ended the run.
#[derive(Drop)]
pub(crate) struct Engine {
    words: SharedEngine,
    ended: bool,
}

impl Model for Engine {
    ghost use Rattle.shared_rounds.specs.Standing.{Standing};
    ghost use Rattle.shared_rounds.specs.Lines.{standing};
    ghost use Rattle.std.specs.Coded.{codes, coded_ℕ};
    ghost use Rattle.std.specs.FinMap as finite;
    ghost use Rattle.serial_model.specs.Keys.{coded_key, key_cmp};

    ghost Value = { Standing };

    ghost coded = { Prim.hlevel (codes, finite.code {R = key_cmp} coded_key coded_ℕ) };

    ghost view = { λ e. standing e.ended e.words };
}

impl Engine {
    /// An engine in this state, which gives this number first. Its words have so many slots and room for so many pages,
    /// and open with the records of the newest snapshot.
    pub(crate) fn new(
        alloc: Global,
        store: &SnapStore,
        decls: Decls,
        state: State,
        first: Number,
        slots: u32,
        room: u32,
    ) -> Result<Engine, Memory>
        requires decls { AreDecls decls }
        requires first { IsNumber first }
        requires some_slots { 1 ≤ slots }
        requires most_slots { slots ≤ 4096 }
        requires within { length store.now.pages ≤ room }
        requires most_room { room ≤ 65536 }
        requires snapshot { (contents : Contents) × IsNewestSnapshot (words_of store.now.pages)
            (length store.now.pages) decls state (first.epoch - 1) contents }
        ensures { IfOk result
            (Begins (words_of store.now.pages) (length store.now.pages) decls state first slots room) }
    {
        Ok(Engine {
            words: words_over(alloc, store, decls, state, first, slots, room)?,
            ended: false,
        })
    }

    /// The number that the next commit gets.
    pub(crate) fn clock(&self) -> Number
        ensures value { result ≡ self.now.clock }
        ensures number { IsNumber result }
    {
        self.words.clock()
    }

    /// Goes on to the next epoch.
    pub(crate) fn advance(&mut self)
        requires { self.old.clock.epoch < last_epoch }
        ensures { self.new
            ≡ record self.old { clock = record self.old.clock { epoch = self.old.clock.epoch + 1 } } }
    {
        self.words.advance();
    }

    /// Publishes the pages of the store to words that threads share.
    pub(crate) fn publish(&mut self, store: &SnapStore)
        requires can { CanPublish store.now.pages self.old }
        ensures alone { self.new ≡ record self.old { pages = self.new.pages } }
        ensures published { self.new.pages ≡ words_of store.now.pages }
    {
        publish_words(&mut self.words, store);
    }

    /// The storages.
    pub(crate) fn decls(&self) -> &[Decl]
        ensures { result.now ≡ self.now.decls }
    {
        self.words.decls()
    }

    /// Whether a round ended the run.
    pub(crate) fn has_ended(&self) -> bool
        ensures { result ≡ self.now.ended }
    {
        self.ended
    }

    pub(crate) fn set_ended(&mut self, ended: bool)
        ensures { self.new ≡ record self.old { ended = ended } }
    {
        self.ended = ended;
    }

    /// Runs all workers' lines on words that threads share, each of them so often at most, over their logs and log
    /// files, and beside them what the maintenance thread has to do. In room that was made for them they want no
    /// memory.
    pub(crate) fn run_lines<
        R: Threads + Sync,
        D: Disk + Send + Drop,
        G: LineGate + Sync,
        B: Beside,
    >(
        &mut self,
        rt: &R,
        logs: &mut Vec<WorkerLog>,
        growing: &mut Vec<D>,
        rooms: Rooms<D>,
        round: &Round<'_>,
        tries: u32,
        gate: &G,
        beside: &mut B,
    ) -> WorkersRan
        requires lines { CanRun self.old.decls round.now }
        requires some_try { 1 ≤ tries }
        requires goes_on { self.old.ended ≡ false }
        requires logs { length logs.old.items ≡ 8 }
        requires growing { length growing.old.items ≡ 8 }
        requires up { AreLogsUp D.tells logs.old.items growing.old.items }
        requires flushed { AllByRecursion (λ log. log.journal.lines ≡ []) logs.old.items }
        requires idle { AreIdle round.now logs.old.items }
        requires room { IsRoomOf round.now rooms }
        requires beside { (v : View) → MayBegin self.old v → B.can beside.old v }
        ensures runs { RunsTogether D.tells D.clock D.image_at D.faults (B.did beside.old beside.new) tries
            round.now self.old self.new logs.old.items logs.new.items growing.old.items growing.new.items result }
        ensures history { KeepsHistory round.now result.outcomes self.old self.new }
        ensures calls { AreAllTold 0 result.outcomes result.ends.items }
    {
        shared_rounds::run_workers(
            rt,
            &mut self.words,
            logs,
            growing,
            rooms,
            round,
            tries,
            gate,
            beside,
        )
    }
}

// The words get the pages of the store.
fn publish_words(engine: &mut SharedEngine, store: &SnapStore)
    requires can { (ended : Bool) × CanPublish store.now.pages (standing ended engine.old) }
    ensures publishes { engine.new ≡ record engine.old { pages = words_of store.now.pages } }
{
    engine.publish(store);
}

// Words that open with the pages of the newest snapshot; so the state, which they have, isn't wanted any more.
fn words_over(
    alloc: Global,
    store: &SnapStore,
    decls: Decls,
    state: State,
    first: Number,
    slots: u32,
    room: u32,
) -> Result<SharedEngine, Memory>
    requires decls { AreDecls decls }
    requires first { IsNumber first }
    requires some_slots { 1 ≤ slots }
    requires most_slots { slots ≤ 4096 }
    requires within { length store.now.pages ≤ room }
    requires most_room { room ≤ 65536 }
    requires snapshot { (contents : Contents) × IsNewestSnapshot (words_of store.now.pages)
        (length store.now.pages) decls state (first.epoch - 1) contents }
    ensures { IfOk result (λ words. Begins (words_of store.now.pages) (length store.now.pages) decls state first
        slots room (standing false words)) }
{
    drop(state);
    let copy = Sequence::from_slice(alloc, decls.as_slice())?;
    let start = newest_start(alloc, store, copy, first, slots, room)?;
    SharedEngine::new(alloc, decls, start)
}
