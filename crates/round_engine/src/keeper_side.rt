// The lines of the maintenance thread beside running workers.
ghost use Rattle.std.specs.Prelude.{◌≡◌, ◌≤◌, ◌+◌, ◌||◌, [], None, length, vec_capacity, ◌++◌, ◌∷◌, ℕ, List};
ghost use Rattle.std.specs.Prelude.{◌≢◌, true};
ghost use Rattle.serial_model.specs.declared.decl.Decl.{Decl as TheDecl};
ghost use Rattle.engine_pages.specs.Passes.{IsPassOf, view};
ghost use Rattle.engine_pages.specs.declared.view.Role.TheVariants.{Keeper};
ghost use Rattle.tx_script.specs.declared.answer.Answer.{Answer as TheAnswer};
ghost use Rattle.script_grammar.specs.Script.{keeper_lines};
ghost use Rattle.tx_script.specs.Run.{CanRun};
ghost use Rattle.shared_rounds.specs.Below.{AreClaimed, Before, IsTold, calls_for, calls_in, calls_of};
ghost use Rattle.shared_rounds.specs.Beside.{Went};
ghost use Rattle.shared_rounds.specs.Published.{HasPages};
ghost use Rattle.snapshot_store.specs.Content.{words_of};
ghost use Rattle.round_engine.specs.Ends.{save_limited};
ghost use Rattle.round_engine.specs.Keeping.{StepsEpoch, at_epoch, is_limited, save_refusal};
ghost use Rattle.round_engine.specs.RoundCalls.{is_answered};
ghost use Rattle.round_engine.specs.Gleans.{CanPublish, Gleans, has_made, pages_after};
ghost use Rattle.round_engine.specs.SideLines.{CanKeepBeside, HasSeenMarks, RunLinesBeside, SavesBeside, StepsBeside};
ghost use Rattle.round_engine.specs.SideLines.{AreSameLoans, CanGleanOver, HasGleanedOver, beside_in, closed_in_lent};
ghost use Rattle.round_engine.specs.SideLines.{lent_at, stands_in_view};
ghost use Rattle.round_engine.specs.Standing.{RuntimeState};

use crate::End;
use crate::gleans::{counted_behind, has_made, newest_in};
use crate::keeper::{KEEPER, KeeperEnd, met_limit, told_of_drop, told_of_glean, told_of_save};
use crate::sides::is_odd;
use engine_pages::{Engine, Pass};
use gleaner::{Closed, GleanFault, Gleaned, Gleaning, Newest};
use lists::OrMemory;
use log_writer::{Save, Vault};
use outside::Disk;
use serial_model::Decl;
use shared_rounds::{
    Beside as RunsBesideWorkers, GateCalls, LineGate, advance, drop_pages, load_epoch, marks,
    publish_new,
};
use snapshot_store::SnapStore;
use std::alloc::Global;
use tx_script::{Answer, KeeperLine, Round};
use worker_logs::{Beside, Side, save_seen};

/// What of a runtime is lent to the maintenance thread while the workers' lines run: all but the engine, which is
/// shared, and the logs, which are with the workers.
#[derive(Drop)]
pub(crate) struct Lent<'a> {
    pub(crate) save: &'a mut Save,
    pub(crate) store: &'a mut SnapStore,
    pub(crate) counted: &'a mut [u64; 8],
    pub(crate) room: u32,
    pub(crate) side: Side,
    pub(crate) closed_at: u32,
}

/// The maintenance thread of a round, as it runs beside the workers: what is lent to it, how it gleans, where its
/// answers go, and what came of its lines. Each reference has a lifetime of its own, so that it comes back to whoever
/// lent it.
#[derive(Drop)]
pub(crate) struct KeeperSide<'t, 'l, 'v, 'r, 's, 'g, 'w, R, D, G, F> {
    pub(crate) rt: &'t R,
    pub(crate) alloc: Global,
    pub(crate) lent: Lent<'l>,
    pub(crate) vault: &'v mut Vault<D>,
    pub(crate) round: &'r Round<'s>,
    pub(crate) gate: &'g G,
    pub(crate) answers: &'w mut Vec<Answer>,
    // Gleans the log files of the other side than that which grows, as `glean_over` does. It is handed over, since what
    // it sends to threads is known there to go to any thread.
    pub(crate) glean: F,
    pub(crate) end: KeeperEnd,
}

impl<
    't,
    'l,
    'v,
    'r,
    's,
    'g,
    'w,
    R,
    D: Disk,
    G: LineGate,
    F: Fn(
        &R,
        Global,
        &mut Vault<D>,
        Side,
        &mut SnapStore,
        &[Decl],
        Newest,
        &Closed,
        u32,
    ) -> Gleaning,
> RunsBesideWorkers for KeeperSide<'t, 'l, 'v, 'r, 's, 'g, 'w, R, D, G, F> {
    ghost use Rattle.std.specs.Prelude.{◌≡◌, vec_capacity};
    ghost use Rattle.round_engine.specs.SideLines.{AreSameLoans, CanGleanOver, CanRunBeside, HasGleanedOver};
    ghost use Rattle.round_engine.specs.SideLines.{HasRunBeside};

    ghost can = { λ side v. CanRunBeside D.tells D.clock D.image_at side.round.now side.lent side.vault.now
        side.answers.now.items (vec_capacity side.answers.now) side.end v
        × ((handle memory disks grows pages storages last counted most : _)
        → CanGleanOver D.tells grows storages.now last counted.now most pages.now disks.now
        → F.pre side.glean handle memory disks grows pages storages last counted most)
        × ((handle memory disks grows pages storages last counted most answer disks_after pages_after : _)
        → F.post side.glean handle memory disks grows pages storages last counted most answer disks_after pages_after
        → HasGleanedOver D.tells D.clock D.image_at D.faults grows storages.now last counted.now most
        pages.now pages_after.now disks.now disks_after.now answer.answer answer.beside) };

    ghost did = { λ before after v w. HasRunBeside D.tells D.clock D.image_at D.faults before.round.now
        before.lent after.lent before.vault.now after.vault.now after.answers.now.items after.end v w
        × AreSameLoans before.lent after.lent × (after.vault.ghost_name ≡ before.vault.ghost_name)
        × (after.answers.ghost_name ≡ before.answers.ghost_name) };

    fn has_work(&self) -> bool {
        // Where there is no room for an answer, no line is the maintenance thread's.
        self.answers.capacity() > 0
    }

    fn run(&mut self, engine: &Engine, keeper: &mut Pass, decls: &[Decl]) {
        self.end = run_keeper_beside(
            self.rt,
            self.alloc,
            engine,
            keeper,
            decls,
            &mut self.lent,
            self.vault,
            self.round,
            self.gate,
            &self.glean,
            self.answers,
        );
    }
}

/// Runs the lines of the maintenance thread on its pass, each between two calls of the gate, and adds their answers.
/// Behind a refused one none is run.
pub(crate) fn run_keeper_beside<
    R,
    D: Disk,
    G: LineGate,
    F: Fn(
        &R,
        Global,
        &mut Vault<D>,
        Side,
        &mut SnapStore,
        &[Decl],
        Newest,
        &Closed,
        u32,
    ) -> Gleaning,
>(
    rt: &R,
    alloc: Global,
    engine: &Engine,
    keeper: &mut Pass,
    decls: &[Decl],
    lent: &mut Lent<'_>,
    vault: &mut Vault<D>,
    round: &Round<'_>,
    gate: &G,
    glean: &F,
    answers: &mut Vec<Answer>,
) -> KeeperEnd
    requires of { IsPassOf engine.now keeper.old }
    requires keeper { (view keeper.old).role ≡ Keeper }
    requires made { (view keeper.old).made ≢ [] }
    requires lines { CanRun decls.now round.now }
    requires none { answers.old.items ≡ [] }
    requires answer_room { length (keeper_lines round.now) ≤ vec_capacity answers.old }
    requires ready { CanKeepBeside D.tells D.clock D.image_at decls.now lent.old (view keeper.old) vault.old }
    requires tie_room { length (keeper_lines round.now) ≤ vault.old.ties.room }
    requires may_glean { (handle memory disks grows pages storages last counted most : _)
        → CanGleanOver D.tells grows storages.now last counted.now most pages.now disks.now
        → F.pre glean.now handle memory disks grows pages storages last counted most }
    requires gleans { (handle memory disks grows pages storages last counted most answer disks_after pages_after : _)
        → F.post glean.now handle memory disks grows pages storages last counted most answer disks_after pages_after
        → HasGleanedOver D.tells D.clock D.image_at D.faults grows storages.now last counted.now most
        pages.now pages_after.now disks.now disks_after.now answer.answer answer.beside }
    ensures of { IsPassOf engine.now keeper.new }
    ensures runs { RunLinesBeside D.tells D.clock D.image_at D.faults decls.now (keeper_lines round.now)
        answers.new.items result.refusal lent.old lent.new (view keeper.old) (view keeper.new)
        vault.old vault.new }
    ensures limited { result.limited ≡ save_limited (keeper_lines round.now) answers.new.items }
    ensures same { AreSameLoans lent.old lent.new }
    ensures calls { calls_in result.calls ≡ calls_for is_answered 255 0 answers.new.items }
{
    let mut end = KeeperEnd::none();
    let mut count = 0;
    for index in 0..round.len() {
        if let Some(line) = round.keeper(index) {
            let answer = answer_beside(
                rt, alloc, engine, keeper, decls, lent, vault, gate, glean, line, count, &mut end,
            );
            answers.push_reserved(answer);
            count += 1;
        }
    }
    end
}

// Answers a line: it is not run behind a refusal.
fn answer_beside<
    R,
    D: Disk,
    G: LineGate,
    F: Fn(
        &R,
        Global,
        &mut Vault<D>,
        Side,
        &mut SnapStore,
        &[Decl],
        Newest,
        &Closed,
        u32,
    ) -> Gleaning,
>(
    rt: &R,
    alloc: Global,
    engine: &Engine,
    keeper: &mut Pass,
    decls: &[Decl],
    lent: &mut Lent<'_>,
    vault: &mut Vault<D>,
    gate: &G,
    glean: &F,
    line: KeeperLine,
    count: u32,
    end: &mut KeeperEnd,
) -> Answer
    requires of { IsPassOf engine.now keeper.old }
    requires keeper { (view keeper.old).role ≡ Keeper }
    requires made { (view keeper.old).made ≢ [] }
    requires ready { end.old.refusal ≡ None
        → CanKeepBeside D.tells D.clock D.image_at decls.now lent.old (view keeper.old) vault.old }
    requires tie_room { 1 ≤ vault.old.ties.room }
    requires calls { end.old.refusal ≡ None → calls_in end.old.calls ≡ calls_of 255 count }
    requires may_glean { (handle memory disks grows pages storages last counted most : _)
        → CanGleanOver D.tells grows storages.now last counted.now most pages.now disks.now
        → F.pre glean.now handle memory disks grows pages storages last counted most }
    requires gleans { (handle memory disks grows pages storages last counted most answer disks_after pages_after : _)
        → F.post glean.now handle memory disks grows pages storages last counted most answer disks_after pages_after
        → HasGleanedOver D.tells D.clock D.image_at D.faults grows storages.now last counted.now most
        pages.now pages_after.now disks.now disks_after.now answer.answer answer.beside }
    ensures of { IsPassOf engine.now keeper.new }
    ensures steps { StepsBeside D.tells D.clock D.image_at D.faults decls.now end.old.refusal line result
        end.new.refusal lent.old lent.new (view keeper.old) (view keeper.new) vault.old vault.new }
    ensures limited { end.new.limited ≡ (end.old.limited || is_limited line result) }
    ensures same { AreSameLoans lent.old lent.new }
    ensures calls { (said : List TheAnswer)
        → IsTold is_answered 255 count (end.old.refusal ≡ None) said (calls_in end.old.calls)
        → IsTold is_answered 255 (count + 1) (end.new.refusal ≡ None) (said ++ result ∷ [])
        (calls_in end.new.calls) }
{
    if end.refusal.is_some() {
        return Answer::Unrun;
    }
    gate.enter(&mut end.calls, KEEPER, count);
    let (answer, refusal) = line_beside(
        rt, alloc, engine, keeper, decls, lent, vault, glean, line, &end.calls,
    );
    gate.leave(&mut end.calls, KEEPER, count);
    end.refusal = refusal;
    end.limited = end.limited || met_limit(line, answer);
    answer
}

// Runs a line which the gate was told to begin. Answers it, and tells the refusal behind which no line is run, if it is
// one.
fn line_beside<
    R,
    D: Disk,
    F: Fn(
        &R,
        Global,
        &mut Vault<D>,
        Side,
        &mut SnapStore,
        &[Decl],
        Newest,
        &Closed,
        u32,
    ) -> Gleaning,
>(
    rt: &R,
    alloc: Global,
    engine: &Engine,
    keeper: &mut Pass,
    decls: &[Decl],
    lent: &mut Lent<'_>,
    vault: &mut Vault<D>,
    glean: &F,
    line: KeeperLine,
    calls: &GateCalls,
) -> (Answer, Option<End>)
    requires of { IsPassOf engine.now keeper.old }
    requires keeper { (view keeper.old).role ≡ Keeper }
    requires made { (view keeper.old).made ≢ [] }
    requires begun { (count : ℕ) × (calls_in calls.now ≡ calls_of 255 count ++ Before 255 count ∷ []) }
    requires ready { CanKeepBeside D.tells D.clock D.image_at decls.now lent.old (view keeper.old) vault.old }
    requires tie_room { 1 ≤ vault.old.ties.room }
    requires may_glean { (handle memory disks grows pages storages last counted most : _)
        → CanGleanOver D.tells grows storages.now last counted.now most pages.now disks.now
        → F.pre glean.now handle memory disks grows pages storages last counted most }
    requires gleans { (handle memory disks grows pages storages last counted most answer disks_after pages_after : _)
        → F.post glean.now handle memory disks grows pages storages last counted most answer disks_after pages_after
        → HasGleanedOver D.tells D.clock D.image_at D.faults grows storages.now last counted.now most
        pages.now pages_after.now disks.now disks_after.now answer.answer answer.beside }
    ensures of { IsPassOf engine.now keeper.new }
    ensures steps { StepsBeside D.tells D.clock D.image_at D.faults decls.now None line result.0 result.1
        lent.old lent.new (view keeper.old) (view keeper.new) vault.old vault.new }
    ensures same { AreSameLoans lent.old lent.new }
{
    let _ = calls;
    match line {
        KeeperLine::Epoch => (advance_beside(engine, keeper), None),
        KeeperLine::Save => save_beside(engine, keeper, lent, vault),
        KeeperLine::Glean => {
            told_of_glean(glean_beside(rt, alloc, engine, keeper, decls, lent, vault, glean))
        }
        KeeperLine::Drop => told_of_drop(drop_pages(engine, keeper, lent.store)),
    }
}

// Answers the epoch that comes.
fn advance_beside(engine: &Engine, keeper: &mut Pass) -> Answer
    requires of { IsPassOf engine.now keeper.old }
    requires keeper { (view keeper.old).role ≡ Keeper }
    requires made { (view keeper.old).made ≢ [] }
    ensures of { IsPassOf engine.now keeper.new }
    ensures steps { (r : RuntimeState) → StepsEpoch result (at_epoch r (view keeper.old).epoch)
        (at_epoch r (view keeper.new).epoch) }
    ensures pages { (view keeper.new).pages ≡ (view keeper.old).pages }
    ensures drops { (view keeper.new).drops ≡ (view keeper.old).drops }
    ensures saw { HasSeenMarks [] (view keeper.old) (view keeper.new) }
    ensures went { Went (view keeper.old) (view keeper.new) }
{
    match advance(engine, keeper) {
        Ok(epoch) => Answer::Epoch { epoch },
        Err(_) => Answer::Limit,
    }
}

// Stores what the clock and the marks allow, as each is when it is loaded, and answers the epoch that was saved. A mark
// stands on its word behind its flush.
fn save_beside<D: Disk>(
    engine: &Engine,
    keeper: &mut Pass,
    lent: &mut Lent<'_>,
    vault: &mut Vault<D>,
) -> (Answer, Option<End>)
    requires of { IsPassOf engine.now keeper.old }
    requires keeper { (view keeper.old).role ≡ Keeper }
    requires made { (view keeper.old).made ≢ [] }
    requires ready { (decls : List TheDecl)
        × CanKeepBeside D.tells D.clock D.image_at decls lent.old (view keeper.old) vault.old }
    requires tie_room { 1 ≤ vault.old.ties.room }
    ensures of { IsPassOf engine.now keeper.new }
    ensures steps { (decls : List TheDecl) → SavesBeside D.tells D.clock D.image_at D.faults decls result.0
        lent.old lent.new (view keeper.old) (view keeper.new) vault.old vault.new }
    ensures refusal { result.1 ≡ save_refusal result.0 }
    ensures same { AreSameLoans lent.old lent.new }
{
    let epoch = load_epoch(engine, keeper);
    let seen = marks(engine, keeper);
    let beside = lent.beside();
    told_of_save(save_seen(lent.save, epoch, &seen, &beside, vault))
}

// Makes a snapshot of what counts of the closed log files, and publishes its pages. Nothing of the log files counts any
// more behind it.
fn glean_beside<
    R,
    D: Disk,
    F: Fn(
        &R,
        Global,
        &mut Vault<D>,
        Side,
        &mut SnapStore,
        &[Decl],
        Newest,
        &Closed,
        u32,
    ) -> Gleaning,
>(
    rt: &R,
    alloc: Global,
    engine: &Engine,
    keeper: &mut Pass,
    decls: &[Decl],
    lent: &mut Lent<'_>,
    vault: &mut Vault<D>,
    glean: &F,
) -> Gleaning
    requires of { IsPassOf engine.now keeper.old }
    requires keeper { (view keeper.old).role ≡ Keeper }
    requires made { (view keeper.old).made ≢ [] }
    requires ready { CanKeepBeside D.tells D.clock D.image_at decls.now lent.old (view keeper.old) vault.old }
    requires may_glean { (handle memory disks grows pages storages last counted most : _)
        → CanGleanOver D.tells grows storages.now last counted.now most pages.now disks.now
        → F.pre glean.now handle memory disks grows pages storages last counted most }
    requires gleans { (handle memory disks grows pages storages last counted most answer disks_after pages_after : _)
        → F.post glean.now handle memory disks grows pages storages last counted most answer disks_after pages_after
        → HasGleanedOver D.tells D.clock D.image_at D.faults grows storages.now last counted.now most
        pages.now pages_after.now disks.now disks_after.now answer.answer answer.beside }
    ensures of { IsPassOf engine.now keeper.new }
    ensures gleans { Gleans D.tells D.clock D.image_at D.faults (lent_at decls.now lent.old (view keeper.old))
        (lent_at decls.now lent.new (view keeper.new)) vault.old vault.new result.answer result.beside }
    ensures saw { HasSeenMarks [] (view keeper.old) (view keeper.new) }
    ensures went { Went (view keeper.old) (view keeper.new) }
    ensures same { AreSameLoans lent.old lent.new }
{
    // Called for what it promises of the clock: the log files were closed before the last epoch.
    let _ = load_epoch(engine, keeper);
    let newest = newest_in(lent.store);
    let closed = lent.closed();
    let gleaned = glean(
        rt, alloc, vault, lent.side, lent.store, decls, newest, &closed, lent.room,
    );
    publish_beside(engine, keeper, lent.store, &gleaned.answer);
    *lent.counted = counted_behind(&gleaned.answer, *lent.counted);
    gleaned
}

// Publishes the pages of a snapshot that was made.
fn publish_beside(
    engine: &Engine,
    keeper: &mut Pass,
    store: &SnapStore,
    gleaned: &Result<Gleaned, OrMemory<GleanFault>>,
)
    requires of { IsPassOf engine.now keeper.old }
    requires keeper { (view keeper.old).role ≡ Keeper }
    requires claimed { AreClaimed (view keeper.old) }
    requires few { (view keeper.old).layout.resident ≤ 65536 }
    requires can { has_made gleaned.now ≡ true → CanPublish store.now.pages
        (stands_in_view (view keeper.old).layout.decls (view keeper.old)) }
    ensures of { IsPassOf engine.now keeper.new }
    ensures publishes { HasPages (pages_after gleaned.now (view keeper.old).pages (words_of store.now.pages))
        (view keeper.old) (view keeper.new) }
    ensures claimed { AreClaimed (view keeper.new) }
{
    if has_made(gleaned) {
        publish_new(engine, keeper, store);
    }
}

impl Lent<'_> {
    // What counts beside the growing log files.
    fn beside(&self) -> Beside
        ensures { result ≡ beside_in self.now }
    {
        Beside {
            growing: self.side,
            closed: *self.counted,
            count: self.store.count(),
        }
    }

    // The closed log files, and what of them counts.
    fn closed(&self) -> Closed
        ensures { result ≡ closed_in_lent self.now }
    {
        Closed {
            odd: !is_odd(self.side),
            lengths: *self.counted,
            epoch: self.closed_at,
        }
    }
}
