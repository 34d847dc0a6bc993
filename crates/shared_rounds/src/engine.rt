// The engine of words that a runtime keeps.
ghost use Rattle.std.specs.Prelude.{◌≡◌, ◌+◌, ◌-◌, ◌<◌, ◌≤◌, [], IfOk, Some, length, replicate, vec_len};
ghost use Rattle.lists.specs.Fronts.{IsFront};
ghost use Rattle.serial_model.specs.Numbers.{IsNumber, last_epoch};
ghost use Rattle.wire_form.specs.Pages.{Contents, decls_of};
ghost use Rattle.snapshot_store.specs.Content.{SnapshotStands, words_of};
ghost use Rattle.engine_pages.specs.Passes.{IsPassOf, view};
ghost use Rattle.engine_pages.specs.Views.{opening_view};
ghost use Rattle.page_opening.specs.Making.{CanMake};
ghost use Rattle.resident_pages.specs.Fills.{AreClaimed};
ghost use Rattle.resident_pages.specs.Publishes.{OnlyFilled};
ghost use Rattle.shared_rounds.specs.SharedState.{opened};

use crate::publishing::publish_new;
use engine_pages::{Engine, Pass, Start};
use lists::Memory;
use page_opening::make;
use resident_pages::claim_rest;
use serial_model::{Decl, Decls, Number, WORKERS};
use snapshot_store::SnapStore;
use std::alloc::Global;
use std::marker::Model;
use worker_cells::Desk;

/// An engine of words that threads share, with the pass of the maintenance thread. Between two rounds nobody else has a
/// pass of it, so what is known of it is what it is.
#[derive(Drop)]
pub struct SharedEngine {
    pub(crate) words: Engine,
    pub(crate) keeper: Pass,
    /// The storages.
    pub(crate) decls: Decls,
    /// The number that the next commit gets.
    pub(crate) clock: Number,
    /// What the workers' lines are run in, a desk for each worker; they are lent to each round.
    pub(crate) desks: Vec<Box<Desk>>,
}

impl Model for SharedEngine {
    ghost use Rattle.std.specs.Prelude.{◌≡◌, vec_len};
    ghost use Rattle.std.specs.Coded.{codes, coded_ℕ};
    ghost use Rattle.std.specs.FinMap as finite;
    ghost use Rattle.serial_model.specs.Keys.{coded_key, key_cmp};
    ghost use Rattle.shared_rounds.specs.SharedState.{shared_by, AreKept, SharedState};

    ghost Value = { SharedState };

    ghost coded = { Prim.hlevel (codes, finite.code {R = key_cmp} coded_key coded_ℕ) };

    ghost view = { λ e. shared_by e.keeper e.clock };

    ghost invariant = { λ e. AreKept e.words e.keeper e.decls e.clock × (vec_len e.desks ≡ 8) };
}

impl SharedEngine {
    /// An engine over the pages of a snapshot. What the pages have at a key stands there at first, with its number.
    pub fn new(alloc: Global, decls: Decls, start: Start) -> Result<SharedEngine, Memory>
        requires can { CanMake start }
        requires decls { decls ≡ start.decls }
        ensures begins { IfOk result (λ engine. engine ≡ record {
          decls = start.decls;
          state = opened start.opening;
          opening = start.opening;
          clock = start.first;
          mine = [];
          refused = [];
          met = [];
          marks = replicate 8 (record { epoch = Some (start.first.epoch - 1); length = 0 });
          slots = start.slots;
          pages = start.pages;
          resident = start.resident;
          drops = [];
        }) }
    {
        let desks = make_desks(alloc)?;
        let clock = start.first();
        let (words, keeper) = make_claimed(alloc, start)?;
        Ok(SharedEngine {
            words,
            keeper,
            decls,
            clock,
            desks,
        })
    }

    pub fn decls(&self) -> &[Decl]
        ensures { result.now ≡ self.now.decls }
    {
        self.decls.as_slice()
    }

    /// The number that the next commit gets.
    pub fn clock(&self) -> Number
        ensures value { result ≡ self.now.clock }
        ensures number { IsNumber result }
        ensures some_slots { 0 < self.now.slots }
    {
        self.clock
    }

    /// Publishes the pages of a store of snapshots that stand behind those that the words have: from then on they have
    /// all of them. The last one is the catalogue of a snapshot that stands, over the engine's storages.
    pub fn publish(&mut self, store: &SnapStore)
        requires pages { IsFront self.old.pages (words_of store.now.pages) }
        requires snapshot { (contents : Contents) × SnapshotStands (words_of store.now.pages) (length store.now.pages)
            contents × (decls_of contents ≡ self.old.decls) }
        requires room { length store.now.pages ≤ self.old.resident }
        ensures { self.new ≡ record self.old { pages = words_of store.now.pages } }
    {
        publish_new(&self.words, &mut self.keeper, store);
    }

    /// Goes on to the next epoch.
    pub fn advance(&mut self)
        requires { self.old.clock.epoch < last_epoch }
        ensures { self.new ≡ record self.old { clock = record self.old.clock { epoch = self.old.clock.epoch + 1 } } }
    {
        engine_seats::advance(&self.words, &mut self.keeper);
        self.clock.epoch += 1;
    }
}

// The words, and the keeper's pass, to which all room for snapshot pages that are not published yet is its own. Nobody
// else can have published one; were it so, no engine would be made.
fn make_claimed(alloc: Global, start: Start) -> Result<(Engine, Pass), Memory>
    requires can { CanMake start }
    ensures ok { IfOk result (λ r. IsPassOf r.0 r.1 × OnlyFilled (opening_view start) (view r.1)
        × AreClaimed (view r.1)) }
{
    let known = page_count(&start);
    let resident = start.resident();
    let (words, mut keeper) = make(alloc, start)?;
    if !claim_rest(&words, &mut keeper, known, resident) {
        return Err(Memory);
    }
    Ok((words, keeper))
}

// How many snapshot pages an engine begins with.
fn page_count(start: &Start) -> u32
    requires { CanMake start.now }
    ensures { result ≡ length start.now.pages }
{
    start.pages().len() as u32
}

// A desk for each worker.
fn make_desks(alloc: Global) -> Result<Vec<Box<Desk>>, Memory>
    ensures { IfOk result (λ desks. vec_len desks ≡ 8) }
{
    let mut desks = Vec::with_capacity(alloc, WORKERS)?;
    for _ in 0..WORKERS {
        desks.push_reserved(Box::new(alloc, Desk::new())?);
    }
    Ok(desks)
}
