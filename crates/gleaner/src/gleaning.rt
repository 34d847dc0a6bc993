// A glean.
ghost use Rattle.std.specs.Prelude.{◌≡◌, ◌≢◌, ◌<◌, ◌≤◌, ◌+◌, ◌++◌, ◌↔◌, ℕ, List, None, Ok, Err, IfOk, OnOk, length, true};
ghost use Rattle.outside.specs.Disk.{IfTold};
ghost use Rattle.outside.specs.Faults.{Rose};
ghost use Rattle.outside.specs.Fronts.{AllBegin};
ghost use Rattle.outside.specs.declared.device.Device.TheVariants as devices;
ghost use Rattle.wire_form.specs.Pages.{Contents};
ghost use Rattle.wire_form.specs.declared.bucket.Bucket.{Bucket as TheBucket};
ghost use Rattle.snapshot_store.specs.Content.{words_of};
ghost use Rattle.snapshot_store.specs.Store.{bytes_of_pages, HoldsPages, NumberedFrom};
ghost use Rattle.snapshot_store.specs.declared.store.StoreFault.{StoreFault as TheStoreFault};
ghost use Rattle.root_composer.specs.Composition.{CanCompose};
ghost use Rattle.log_reducer.specs.Reduced.{AreLast, all_logged};
ghost use Rattle.gleaner.specs.Glean.{CanGlean, IsGleaned, none_counted};
ghost use Rattle.gleaner.specs.Glean.{Composes, ComposesDeep, ComposesMany};
ghost use Rattle.gleaner.specs.GleanLeaves.{LeavesFiles, LeavesPages, RefusesGlean};

use crate::closed::{Closed, Newest, count_nothing};
use crate::halves::{Refusal, run_of_closed};
use lists::OrMemory;
use outside::{Device, Disk};
use root_composer::{ComposeFault, NewPages, compose};
use serial_model::Decl;
use snapshot_store::{SnapStore, StoreFault};
use std::alloc::Global;
use std::sync::Wait;
use std::thread::Threads;
use wire_form::Run;

/// What a glean answers.
#[derive(Clone, Copy, Debug, PartialEq, Eq)]
pub enum Gleaned {
    /// No byte of the closed log files counts.
    Empty,
    /// A snapshot of this epoch was added, in so many pages with its catalogue.
    Snap { epoch: u32, new: u32 },
}

/// Why no snapshot was made.
#[derive(Clone, Copy, Debug, PartialEq, Eq)]
pub enum GleanFault {
    /// The device's count of faults rose.
    Device(Device),
    /// The closed log file is out of its format from this byte on.
    Damaged { device: Device, at: u64 },
    /// A page would stand below 32 others.
    Deep,
    /// With the new pages there would be more than are let in.
    Limit { have: u32, new: u64, room: u32 },
}

/// What a glean comes to.
#[derive(Clone, Copy, Debug, PartialEq, Eq)]
pub struct Gleaning {
    pub answer: Result<Gleaned, OrMemory<GleanFault>>,
    /// The closed log file that failed beside the refusal that is told, if one did: one of a higher number, since two
    /// mappers read at once.
    pub beside: Option<Device>,
}

/// Adds the snapshot that the counted bytes of the closed log files make of the newest one. Before any write it refuses
/// damage, [`GleanFault::Deep`] and [`GleanFault::Limit`], in this order, and so does want of memory. Of the log files
/// the fault of the lowest is told.
pub fn glean<R: Threads + Wait + Sync, D: Disk + Send>(
    rt: &R,
    alloc: Global,
    snaps: &mut D,
    files: &mut [D],
    store: &mut SnapStore,
    decls: &[Decl],
    newest: Newest,
    closed: &Closed,
    room: u32,
) -> Gleaning
    requires can { none_counted closed.now.lengths ≢ true
        → (contents : Contents) × CanGlean (words_of store.old.pages) decls.now newest closed.now contents }
    requires workers { length files.old ≡ 8 }
    requires room { room ≤ 65536 }
    requires sound { store.old.sound ≡ true }
    requires holds { HoldsPages D.tells snaps.old store.old.pages }
    ensures none { (result.answer ≡ Ok Gleaned.Empty) ↔ (none_counted closed.now.lengths ≡ true) }
    ensures untouched { none_counted closed.now.lengths ≡ true
        → (snaps.new ≡ snaps.old) × (files.new ≡ files.old) × (store.new ≡ store.old) }
    ensures gleaned { (epoch new : ℕ) → result.answer ≡ Ok (Gleaned.Snap epoch new) → (epoch ≡ closed.now.epoch)
        × IsGleaned D.tells (words_of store.old.pages) decls.now newest closed.now files.old (words_of store.new.pages)
        new room }
    ensures durable { OnOk result.answer (IfTold (D.tells snaps.old) (λ _.
        none_counted closed.now.lengths ≢ true
        → AllBegin (D.image_at snaps.new (D.clock snaps.new)) (bytes_of_pages store.new.pages))) }
    ensures refused { RefusesGlean D.tells D.faults store.old decls.now newest closed.now room snaps.old snaps.new
        files.old files.new result.answer result.beside }
    // Whatever it answers.
    ensures pages { LeavesPages D.tells D.clock D.image_at D.faults result.answer store.old store.new
        snaps.old snaps.new }
    ensures files { LeavesFiles D.tells D.clock D.image_at D.faults closed.now result.answer result.beside
        files.old files.new }
{
    if count_nothing(&closed.lengths) {
        return alone(Ok(Gleaned::Empty));
    }
    match run_of_closed(rt, alloc, files, closed, decls, newest.epoch) {
        Ok(run) => alone(add(alloc, snaps, store, newest, &run, closed.epoch, room)),
        Err(Refusal { fault, beside }) => Gleaning {
            answer: Err(fault),
            beside,
        },
    }
}

// An answer beside which no log file failed.
fn alone(answer: Result<Gleaned, OrMemory<GleanFault>>) -> Gleaning
    ensures answer { result.answer ≡ answer }
    ensures beside { result.beside ≡ None }
{
    Gleaning {
        answer,
        beside: None,
    }
}

// Adds the snapshot that a run of last entries makes of the newest one.
fn add<D: Disk>(
    alloc: Global,
    snaps: &mut D,
    store: &mut SnapStore,
    newest: Newest,
    run: &Run,
    epoch: u32,
    room: u32,
) -> Result<Gleaned, OrMemory<GleanFault>>
    requires can { (contents : Contents) × CanCompose (words_of store.old.pages) newest.page contents run.now epoch }
    requires room { room ≤ 65536 }
    requires sound { store.old.sound ≡ true }
    requires holds { HoldsPages D.tells snaps.old store.old.pages }
    ensures some { result ≢ Ok Gleaned.Empty }
    ensures gleaned { (at new : ℕ) → result ≡ Ok (Gleaned.Snap at new) → (at ≡ epoch)
        × (made : List (List ℕ)) × (words_of store.new.pages ≡ words_of store.old.pages ++ made)
        × (length (words_of store.old.pages) + new ≤ room)
        × ((buckets : List TheBucket) → AreLast (all_logged buckets) run.now
        → Composes (words_of store.old.pages) newest buckets epoch made new) }
    ensures durable { OnOk result (IfTold (D.tells snaps.old) (λ _.
        AllBegin (D.image_at snaps.new (D.clock snaps.new)) (bytes_of_pages store.new.pages))) }
    ensures device { (device : Device) → result ≡ Err (OrMemory.Fault (GleanFault.Device device))
        → (device ≡ devices.Snaps) × Rose (D.faults snaps.old) (D.faults snaps.new) }
    ensures undamaged { (device : Device) (at : ℕ) → result ≢ Err (OrMemory.Fault (GleanFault.Damaged device at)) }
    ensures deep { result ≡ Err (OrMemory.Fault GleanFault.Deep)
        → (buckets : List TheBucket) → AreLast (all_logged buckets) run.now
        → ComposesDeep (words_of store.old.pages) newest buckets }
    ensures limit { (have new most : ℕ) → result ≡ Err (OrMemory.Fault (GleanFault.Limit have new most))
        → (have ≡ length store.old.pages) × (most ≡ room) × (room < have + new)
        × ((buckets : List TheBucket) → AreLast (all_logged buckets) run.now
        → ComposesMany (words_of store.old.pages) newest buckets epoch new) }
    ensures pages { LeavesPages D.tells D.clock D.image_at D.faults result store.old store.new snaps.old snaps.new }
{
    let pages = match pages_of(alloc, store, newest, run, epoch, room) {
        Ok(pages) => pages,
        Err(fault) => return Err(fault),
    };
    match store.append_durably(snaps, pages.as_slice()) {
        Ok(()) => {}
        Err(fault) => return Err(fault_of_store(fault)),
    }
    Ok(Gleaned::Snap {
        epoch,
        new: pages.len() as u32,
    })
}

// The pages of the snapshot that a run of last entries makes of the newest one.
fn pages_of(
    alloc: Global,
    store: &SnapStore,
    newest: Newest,
    run: &Run,
    epoch: u32,
    room: u32,
) -> Result<NewPages, OrMemory<GleanFault>>
    requires can { (contents : Contents) × CanCompose (words_of store.now.pages) newest.page contents run.now epoch }
    requires room { room ≤ 65536 }
    ensures composed { IfOk result (λ pages. (buckets : List TheBucket) → AreLast (all_logged buckets) run.now
        → Composes (words_of store.now.pages) newest buckets epoch (words_of pages) (length pages)) }
    ensures numbered { IfOk result (λ pages. NumberedFrom (length store.now.pages + 1) pages) }
    ensures within { IfOk result (λ pages. length store.now.pages + length pages ≤ room) }
    ensures deep { result ≡ Err (OrMemory.Fault GleanFault.Deep)
        → (buckets : List TheBucket) → AreLast (all_logged buckets) run.now
        → ComposesDeep (words_of store.now.pages) newest buckets }
    ensures limit { (have new most : ℕ) → result ≡ Err (OrMemory.Fault (GleanFault.Limit have new most))
        → (have ≡ length store.now.pages) × (most ≡ room) × (room < have + new)
        × ((buckets : List TheBucket) → AreLast (all_logged buckets) run.now
        → ComposesMany (words_of store.now.pages) newest buckets epoch new) }
    ensures only { ((device : Device) → result ≢ Err (OrMemory.Fault (GleanFault.Device device)))
        × ((device : Device) (at : ℕ) → result ≢ Err (OrMemory.Fault (GleanFault.Damaged device at))) }
{
    match compose(alloc, store, newest.page, run, epoch, room) {
        Ok(pages) => Ok(pages),
        Err(OrMemory::Memory) => Err(OrMemory::Memory),
        Err(OrMemory::Fault(ComposeFault::Deep)) => Err(OrMemory::Fault(GleanFault::Deep)),
        Err(OrMemory::Fault(ComposeFault::Limit { have, new, room })) => {
            Err(OrMemory::Fault(GleanFault::Limit { have, new, room }))
        }
    }
}

// What a fault of the snapshots is to a glean.
fn fault_of_store(fault: OrMemory<StoreFault>) -> OrMemory<GleanFault>
    ensures memory { (fault ≡ OrMemory.Memory) → result ≡ OrMemory.Memory }
    ensures failed { (failed : TheStoreFault) → fault ≡ OrMemory.Fault failed
        → result ≡ OrMemory.Fault (GleanFault.Device devices.Snaps) }
{
    match fault {
        OrMemory::Fault(_) => OrMemory::Fault(GleanFault::Device(Device::Snaps)),
        OrMemory::Memory => OrMemory::Memory,
    }
}
