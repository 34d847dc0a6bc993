// The engine with its clock, the store of savepoints and the workers' logs.
ghost use Rattle.std.specs.Prelude.{◌≡◌, ◌≤◌, ℕ, [], Some, None, true, IfOk, length, replicate};
ghost use Rattle.std.specs.Option.{option_map};
ghost use Rattle.log_writer.specs.Counted.{AlwaysTells};
ghost use Rattle.log_writer.specs.Vault.{IsWhole, disk_in};
ghost use Rattle.outside.specs.declared.device.Device.TheVariants as devices;
ghost use Rattle.serial_model.specs.Decls.{AreDecls};
ghost use Rattle.serial_model.specs.Numbers.{IsConfig};
ghost use Rattle.wire_form.specs.Pages.{Contents};
ghost use Rattle.log_writer.specs.Points.{saved_of};
ghost use Rattle.log_writer.specs.Save.{IsStored};
ghost use Rattle.snapshot_store.specs.Content.{words_of};
ghost use Rattle.snapshot_store.specs.Store.{HoldsPages};
ghost use Rattle.tx_script.specs.Run.{clock_after};
ghost use Rattle.worker_logs.specs.Logs.{fresh_log};
ghost use Rattle.worker_logs.specs.Saves.{CountsOf};
ghost use Rattle.worker_logs.specs.declared.savepoints.Side.TheVariants.{Even};
ghost use Rattle.recovery_core.specs.NewestSnapshot.{IsNewestSnapshot};
ghost use Rattle.round_engine.specs.Begun.{OpensOn, begun};
ghost use Rattle.round_engine.specs.Logs.{AreClosedFiles, AreLogs};
ghost use Rattle.round_engine.specs.Standing.{IsPublished, StandsOn};

use crate::engine::Engine;
use checkpoints::Settled;
use log_writer::{Save, Vault};
use outside::Disk;
use serial_model::{Config, Memory, WORKERS};
use snapshot_store::SnapStore;
use std::alloc::Global;
use std::marker::Model;
use wire_form::catalogue_declares;
use worker_logs::{Side, WorkerLog};

/// What rounds are run on.
#[derive(Drop)]
pub struct Runtime {
    pub(crate) engine: Engine,
    /// The store of savepoints.
    pub(crate) save: Save,
    /// The pages of snapshots.
    pub(crate) store: SnapStore,
    /// How many pages are let in.
    pub(crate) room: u32,
    /// Which log files grow.
    pub(crate) side: Side,
    /// How many bytes of each worker's closed log file count.
    pub(crate) counted: [u64; 8],
    /// The epoch at which they were closed: none of their commits is of a later one.
    pub(crate) closed_at: u32,
    /// The workers' logs.
    pub(crate) logs: Vec<WorkerLog>,
    /// Whether a device failed.
    pub(crate) down: bool,
}

impl Model for Runtime {
    ghost use Rattle.std.specs.Coded.{codes, coded_ℕ};
    ghost use Rattle.std.specs.FinMap as finite;
    ghost use Rattle.serial_model.specs.Keys.{coded_key, key_cmp};
    ghost use Rattle.round_engine.specs.Standing.{RuntimeState};

    ghost Value = { RuntimeState };

    ghost coded = { Prim.hlevel (codes, finite.code {R = key_cmp} coded_key coded_ℕ) };

    ghost view = { λ r. record {
      stands = r.engine;
      save = r.save;
      store = r.store;
      room = r.room;
      side = r.side;
      counted = r.counted;
      closed_at = r.closed_at;
      logs = r.logs.items;
      down = r.down;
    } };
}

impl Runtime {
    /// A runtime over a vault that was just settled, in its state, and in the epoch after the saved one. Each record
    /// opens as the newest snapshot has it, with its number; there are the slots that are asked for, and room for as
    /// many snapshot pages as are let in. The logs are empty, and the vault is left as it is.
    pub fn new<D: Disk>(
        alloc: Global,
        vault: &mut Vault<D>,
        settled: Settled,
        config: Config,
    ) -> Result<Self, Memory>
        requires config { IsConfig config }
        requires first { config.first ≡ clock_after settled.saved.epoch }
        requires pages { settled.saved.count ≤ config.snap }
        requires whole { IsWhole vault.old }
        requires known { Some settled.saved ≡ option_map saved_of settled.save.newest }
        requires nothing { settled.saved.lengths ≡ replicate 16 0 }
        requires up { settled.save.down ≡ None }
        requires stored { IsStored D.tells D.clock D.image_at vault.old.save settled.save.newest }
        requires sound { settled.store.sound ≡ true }
        requires count { length settled.store.pages ≡ settled.saved.count }
        requires holds { HoldsPages D.tells vault.old.snaps settled.store.pages }
        requires snapshot { (contents : Contents) × IsNewestSnapshot (words_of settled.store.pages)
            (length settled.store.pages) settled.decls settled.state settled.saved.epoch contents }
        // The log files are empty where disks tell their bytes: nothing of them counts, and logs begin there.
        requires empty { AlwaysTells D.tells → (number : ℕ) (bank : D)
            → disk_in vault.old (devices.Bank number) ≡ Some bank → D.tells bank ≡ Some [] }
        ensures begins { IfOk result (λ runtime. runtime ≡ begun settled.decls settled.state
            runtime.stands settled.save settled.store config.snap config.first) }
        ensures opens { IfOk result (λ runtime.
            OpensOn (words_of settled.store.pages) (length settled.store.pages) runtime.stands) }
        ensures slots { IfOk result (λ runtime. runtime.stands.slots ≡ config.slots) }
        ensures stands { IfOk result (λ runtime.
            StandsOn D.tells D.clock D.image_at runtime vault.new) }
        // Over log files that are empty as far as they tell, which a settling leaves.
        ensures logs { ((number : ℕ) (bank : D) → disk_in vault.old (devices.Bank number) ≡ Some bank
            → D.tells bank ≡ Some [])
            → IfOk result (λ runtime.
            AreLogs D.tells D.clock D.image_at (λ worker. []) (λ worker. []) runtime vault.new
            × AreClosedFiles D.tells D.clock D.image_at (λ worker. []) (λ worker. []) runtime vault.new) }
        ensures counts { IfOk result (λ runtime.
            CountsOf Even (λ worker. []) (λ worker. []) (λ worker. []) (λ worker. []) runtime.save.newest) }
        ensures vault { vault.new ≡ vault.old }
    {
        let _vault = &vault.ties;
        catalogue_declares();
        begin(alloc, settled, config)
    }

    /// Whether a round or a join ended the run, by a refusal. Then no further round is run.
    pub fn has_ended(&self) -> bool
        ensures { result ≡ self.now.stands.ended }
    {
        self.engine.has_ended()
    }

    /// Whether a device failed. Then nothing is joined any more.
    pub fn is_down(&self) -> bool
        ensures { result ≡ self.now.down }
    {
        self.down
    }
}

// A runtime in a settled state, with empty logs.
fn begin(alloc: Global, settled: Settled, config: Config) -> Result<Runtime, Memory>
    requires config { IsConfig config }
    requires first { config.first ≡ clock_after settled.saved.epoch }
    requires decls { AreDecls settled.decls }
    requires within { length settled.store.pages ≤ config.snap }
    requires snapshot { (contents : Contents) × IsNewestSnapshot (words_of settled.store.pages)
        (length settled.store.pages) settled.decls settled.state settled.saved.epoch contents }
    ensures begins { IfOk result (λ runtime. runtime ≡ begun settled.decls settled.state
        runtime.stands settled.save settled.store config.snap config.first) }
    ensures opens { IfOk result (λ runtime.
        OpensOn (words_of settled.store.pages) (length settled.store.pages) runtime.stands) }
    ensures slots { IfOk result (λ runtime. runtime.stands.slots ≡ config.slots) }
    ensures published { IfOk result (λ runtime. IsPublished runtime) }
{
    let Settled {
        save,
        store,
        saved: _,
        decls,
        state,
    } = settled;
    let closed_at = config.first.epoch - 1;
    let logs = new_logs(alloc, closed_at)?;
    let engine = Engine::new(
        alloc,
        &store,
        decls,
        state,
        config.first,
        config.slots,
        config.snap,
    )?;
    Ok(Runtime {
        engine,
        save,
        store,
        room: config.snap,
        side: Side::Even,
        counted: [0; 8],
        closed_at,
        logs,
        down: false,
    })
}

// Logs for all workers, marked at this epoch.
fn new_logs(alloc: Global, epoch: u32) -> Result<Vec<WorkerLog>, Memory>
    ensures { IfOk result (λ logs. logs.items ≡ replicate 8 (fresh_log epoch)) }
{
    let mut logs = Vec::new(alloc);
    for _ in 0..WORKERS {
        logs.push(WorkerLog::new(alloc, epoch)?)?;
    }
    Ok(logs)
}
