// A glean: what the closed log files have becomes the next snapshot.
ghost use Rattle.std.specs.Prelude.{◌≡◌, ◌≢◌, ◌<◌, ◌≤◌, ◌^◌, ℕ, List, false, is_some, length, true, ◌||◌};
ghost use Rattle.wire_form.specs.Pages.{Contents};
ghost use Rattle.snapshot_store.specs.Content.{CatalogueAt, words_of};
ghost use Rattle.snapshot_store.specs.Store.{HoldsPages};
ghost use Rattle.gleaner.specs.Glean.{CanGlean, none_counted};
ghost use Rattle.round_engine.specs.GleanStops.{CarriesKnown};
ghost use Rattle.round_engine.specs.Gleans.{Gleans, GleansAsked, GleansFiles, closed_of, counted_after};
ghost use Rattle.round_engine.specs.Gleans.{CanPublish, device_of_glean, ended_if, has_made, pages_after};
ghost use Rattle.round_engine.specs.Keeping.{CanKeep};
ghost use Rattle.round_engine.specs.Sides.{closed_in, growing_in};
ghost use Rattle.round_engine.specs.Standing.{StandsOn};

use crate::Runtime;
use crate::sides::is_odd;
use gleaner::{Closed, GleanFault, Gleaned, Gleaning, Newest};
use lists::OrMemory;
use log_writer::Vault;
use outside::Disk;
use recovery_core::pages_fit;
use serial_model::Decl;
use snapshot_store::SnapStore;
use std::alloc::Global;
use std::sync::Wait;
use std::thread::Threads;
use wire_form::epoch_and_previous;
use worker_logs::Side;

/// Makes a snapshot of what counts of the closed log files, as a line of the maintenance thread does. A device that
/// fails ends the run.
pub fn glean<R: Threads + Wait + Sync, D: Disk + Send>(
    rt: &R,
    alloc: Global,
    runtime: &mut Runtime,
    vault: &mut Vault<D>,
) -> Gleaning
    requires up { runtime.old.down ≡ false }
    requires stands { StandsOn D.tells D.clock D.image_at runtime.old vault.old }
    ensures gleans { GleansAsked D.tells D.clock D.image_at D.faults runtime.old runtime.new
        vault.old vault.new result.answer result.beside }
    // Whatever it answers, and at each moment of it: what is known of the crashes of all devices.
    ensures crashes { CarriesKnown D.tells D.clock D.image_at runtime.old runtime.new vault.old vault.new }
{
    let gleaned = glean_closed(rt, alloc, runtime, vault);
    runtime.end_if(has_failed(&gleaned));
    gleaned
}

// Whether a device failed.
fn has_failed(gleaned: &Gleaning) -> bool
    ensures { result ≡ (is_some (device_of_glean gleaned.now.answer) || is_some gleaned.now.beside) }
{
    let told = tells_device(&gleaned.answer);
    let beside = gleaned.beside.is_some();
    told || beside
}

// Whether a device is told as failed.
fn tells_device(answer: &Result<Gleaned, OrMemory<GleanFault>>) -> bool
    ensures { result ≡ is_some (device_of_glean answer.now) }
{
    matches!(answer, Err(OrMemory::Fault(GleanFault::Device(_))))
}

/// Makes a snapshot of what counts of the closed log files, and publishes its pages to the engine. Nothing of the log
/// files counts any more behind it.
pub(crate) fn glean_closed<R: Threads + Wait + Sync, D: Disk + Send>(
    rt: &R,
    alloc: Global,
    runtime: &mut Runtime,
    vault: &mut Vault<D>,
) -> Gleaning
    requires ready { CanKeep D.tells D.clock D.image_at runtime.old vault.old }
    ensures gleans { Gleans D.tells D.clock D.image_at D.faults runtime.old runtime.new vault.old vault.new
        result.answer result.beside }
{
    let gleaned = glean_side(rt, alloc, runtime, vault);
    publish_made(runtime, &gleaned.answer);
    runtime.counted = counted_behind(&gleaned.answer, runtime.counted);
    gleaned
}

// Publishes the pages of a snapshot that was made.
fn publish_made(runtime: &mut Runtime, gleaned: &Result<Gleaned, OrMemory<GleanFault>>)
    requires can { has_made gleaned.now ≡ true
        → CanPublish runtime.old.store.pages runtime.old.stands }
    ensures alone { runtime.new ≡ record runtime.old {
      stands = record runtime.old.stands { pages = runtime.new.stands.pages };
    } }
    ensures published { runtime.new.stands.pages
        ≡ pages_after gleaned.now runtime.old.stands.pages (words_of runtime.old.store.pages) }
{
    if !has_made(gleaned) {
        return;
    }
    runtime.engine.publish(&runtime.store);
}

/// Whether a snapshot was made.
pub(crate) fn has_made(gleaned: &Result<Gleaned, OrMemory<GleanFault>>) -> bool
    ensures { result ≡ has_made gleaned.now }
{
    matches!(gleaned, Ok(Gleaned::Snap { .. }))
}

/// What counts of the closed log files behind a glean.
pub(crate) fn counted_behind(
    gleaned: &Result<Gleaned, OrMemory<GleanFault>>,
    counted: [u64; 8],
) -> [u64; 8]
    ensures { result ≡ counted_after gleaned.now counted }
{
    match gleaned {
        Ok(Gleaned::Snap { .. }) => [0; 8],
        Ok(Gleaned::Empty) | Err(_) => counted,
    }
}

// Gleans the side that is closed.
fn glean_side<R: Threads + Wait + Sync, D: Disk + Send>(
    rt: &R,
    alloc: Global,
    runtime: &mut Runtime,
    vault: &mut Vault<D>,
) -> Gleaning
    requires ready { CanKeep D.tells D.clock D.image_at runtime.old vault.old }
    // Whichever pages are published then.
    ensures gleans { (pages : List (List ℕ))
        → pages ≡ pages_after result.answer runtime.old.stands.pages (words_of runtime.new.store.pages)
        → Gleans D.tells D.clock D.image_at D.faults runtime.old (record runtime.new {
          stands = record runtime.old.stands { pages = pages };
          counted = counted_after result.answer runtime.old.counted;
        }) vault.old vault.new result.answer result.beside }
    ensures counted { runtime.new.counted ≡ runtime.old.counted }
    ensures stands { runtime.new.stands ≡ runtime.old.stands }
{
    let newest = newest_in(&runtime.store);
    let closed = runtime.closed();
    let (side, room) = (runtime.side, runtime.room);
    // Called for what it promises of the clock: the log files were closed before the last epoch.
    let _ = runtime.engine.clock();
    let decls = runtime.engine.decls();
    glean_over(
        rt,
        alloc,
        vault,
        side,
        &mut runtime.store,
        decls,
        newest,
        &closed,
        room,
    )
}

/// Gleans the log files of the other side than that which grows.
pub(crate) fn glean_over<R: Threads + Wait + Sync, D: Disk + Send>(
    rt: &R,
    alloc: Global,
    vault: &mut Vault<D>,
    side: Side,
    store: &mut SnapStore,
    decls: &[Decl],
    newest: Newest,
    closed: &Closed,
    room: u32,
) -> Gleaning
    requires can { none_counted closed.now.lengths ≢ true
        → (contents : Contents) × CanGlean (words_of store.old.pages) decls.now newest closed.now contents }
    requires files { length (closed_in side vault.old) ≡ 8 }
    requires room { room ≤ 65536 }
    requires sound { store.old.sound ≡ true }
    requires holds { HoldsPages D.tells vault.old.snaps store.old.pages }
    ensures gleans { GleansFiles D.tells D.clock D.image_at D.faults decls.now newest closed.now room
        store.old store.new vault.old.snaps vault.new.snaps (closed_in side vault.old) (closed_in side vault.new)
        result.answer result.beside }
    ensures growing { growing_in side vault.new ≡ growing_in side vault.old }
    ensures save { vault.new.save ≡ vault.old.save }
    ensures ties { vault.new.ties ≡ vault.old.ties }
    ensures cuts { vault.new.cuts ≡ vault.old.cuts }
{
    let snaps = &mut vault.snaps;
    match side {
        Side::Even => glean_files(
            rt,
            alloc,
            snaps,
            &mut vault.odd,
            store,
            decls,
            newest,
            closed,
            room,
        ),
        Side::Odd => glean_files(
            rt,
            alloc,
            snaps,
            &mut vault.even,
            store,
            decls,
            newest,
            closed,
            room,
        ),
    }
}

// Gleans these log files.
fn glean_files<R: Threads + Wait + Sync, D: Disk + Send>(
    rt: &R,
    alloc: Global,
    snaps: &mut D,
    files: &mut Vec<D>,
    store: &mut SnapStore,
    decls: &[Decl],
    newest: Newest,
    closed: &Closed,
    room: u32,
) -> Gleaning
    requires can { none_counted closed.now.lengths ≢ true
        → (contents : Contents) × CanGlean (words_of store.old.pages) decls.now newest closed.now contents }
    requires workers { length files.old.items ≡ 8 }
    requires room { room ≤ 65536 }
    requires sound { store.old.sound ≡ true }
    requires holds { HoldsPages D.tells snaps.old store.old.pages }
    ensures gleans { GleansFiles D.tells D.clock D.image_at D.faults decls.now newest closed.now room
        store.old store.new snaps.old snaps.new files.old.items files.new.items result.answer result.beside }
{
    pages_fit(store);
    let gleaned = gleaner::glean(rt, alloc, snaps, files, store, decls, newest, closed, room);
    pages_fit(store);
    gleaned
}

/// The newest snapshot, whose catalogue is the last page.
pub(crate) fn newest_in(store: &SnapStore) -> Newest
    requires some { (contents : Contents) × CatalogueAt (words_of store.now.pages) (length store.now.pages) contents }
    ensures page { result.page ≡ length store.now.pages }
    ensures epoch { (contents : Contents)
        → CatalogueAt (words_of store.now.pages) (length store.now.pages) contents → result.epoch ≡ contents.epoch }
{
    let page = store.count();
    let (epoch, _) = epoch_and_previous(&store.page(page).words);
    Newest {
        page,
        epoch: small(epoch),
    }
}

// An epoch in 32 bits.
fn small(epoch: u64) -> u32
    requires { epoch < 2 ^ 32 }
    ensures { result ≡ epoch }
{
    epoch as u32
}

impl Runtime {
    // Ends the run, where a device failed.
    fn end_if(&mut self, failed: bool)
        ensures { self.new ≡ ended_if failed self.old }
    {
        let ended = self.engine.has_ended() || failed;
        self.engine.set_ended(ended);
        self.down = self.down || failed;
    }

    // The closed log files, and what of them counts.
    fn closed(&self) -> Closed
        ensures { result ≡ closed_of self.now }
    {
        Closed {
            odd: !is_odd(self.side),
            lengths: self.counted,
            epoch: self.closed_at,
        }
    }
}
