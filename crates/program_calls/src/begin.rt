// From what a vault keeps to the first round of a run.
ghost use Rattle.std.specs.Prelude.{◌≡◌, ◌+◌, ◌≤◌, IfErr, IfOk};
ghost use Rattle.outside.specs.Disk.{IfTold, Only};
ghost use Rattle.log_writer.specs.Vault.{IsWhole};
ghost use Rattle.command_line.specs.Options.{AreInRange};
ghost use Rattle.script_grammar.specs.Script.{IsScript};
ghost use Rattle.program_calls.specs.OnTheWay.{BeginsRun, EndsBefore, IsForgotten};
ghost use Rattle.program_calls.specs.OnTheWay.{ending_of_settle_fault, ending_of_settling};
ghost use Rattle.serial_model.specs.Numbers.{IsConfig, last_epoch};
ghost use Rattle.tx_script.specs.Run.{clock_after};

use crate::ending::Ending;
use crate::kept::ending_of_refusal;
use crate::room::room_for;
use crate::shape::check_shape;
use checkpoints::{SettleFault, settle};
use command_line::RunOptions;
use lists::OrMemory;
use log_writer::Vault;
use outside::Disk;
use recovery_core::{pages_fit, recover};
use round_engine::{LimitName, Runtime};
use serial_model::{Config, Number};
use std::alloc::Global;
use tx_script::Script;

/// A runtime in the state that the vault keeps, for the rounds of a script; or how the call ends without one. What is
/// refused here is told in this order: a device that failed, damage, other storages, limits.
pub(crate) fn begin<D: Disk>(
    alloc: Global,
    options: RunOptions,
    script: &Script,
    vault: &mut Vault<D>,
) -> Result<Runtime, Ending>
    requires rules { IsScript script.now }
    requires ranges { AreInRange options }
    requires whole { IsWhole vault.old }
    requires one { IfTold (D.tells vault.old.save) (Only D.clock D.image_at vault.old.save) }
    ensures begins { IfOk result (BeginsRun D.tells D.clock D.image_at D.faults options.snap options.slots
        script.now vault.old vault.new) }
    ensures ends { IfErr result (EndsBefore D.tells D.clock D.image_at D.faults options.snap script.now
        vault.old vault.new) }
{
    let recovered = match recover(alloc, vault) {
        Ok(recovered) => recovered,
        Err(refusal) => return Err(ending_of_refusal(refusal)),
    };
    check_shape(alloc, script.decls(), &recovered)?;
    forget_records(vault);
    let settled = match settle(alloc, vault, recovered, script.decls(), options.snap) {
        Ok(settled) => settled,
        Err(refusal) => return Err(ending_of_settling(refusal)),
    };
    pages_fit(&settled.store);
    let room = room_for(script, options.snap, settled.store.count());
    let config = config_of(options, room, settled.saved.epoch);
    match Runtime::new(alloc, vault, settled, config) {
        Ok(runtime) => Ok(runtime),
        Err(_) => Err(Ending::NoMemory),
    }
}

// The first round has the epoch after the saved one.
fn config_of(options: RunOptions, room: u32, saved: u32) -> Config
    requires ranges { AreInRange options }
    requires some { 1 ≤ room }
    requires most { room ≤ 65536 }
    requires saved { saved + 1 ≤ last_epoch }
    ensures config { IsConfig result }
    ensures slots { result.slots ≡ options.slots }
    ensures snap { result.snap ≡ room }
    ensures first { result.first ≡ clock_after saved }
{
    Config {
        slots: options.slots,
        snap: room,
        first: Number {
            epoch: saved + 1,
            draw: 1,
        },
    }
}

// What is recorded of stores and cuts is that of one run.
fn forget_records<D: Disk>(vault: &mut Vault<D>)
    ensures { IsForgotten vault.old vault.new }
{
    vault.ties.clear();
    vault.cuts.clear();
}

/// How a call ends whose vault can't be settled.
fn ending_of_settling(refusal: OrMemory<SettleFault>) -> Ending
    ensures { result ≡ ending_of_settling refusal }
{
    match refusal {
        OrMemory::Fault(fault) => ending_of_settle_fault(fault),
        OrMemory::Memory => Ending::NoMemory,
    }
}

fn ending_of_settle_fault(fault: SettleFault) -> Ending
    ensures { result ≡ ending_of_settle_fault fault }
{
    match fault {
        SettleFault::Device(device) => Ending::NoDevice(device),
        SettleFault::Deep => Ending::AtLimit(LimitName::Height),
        SettleFault::Limit { .. } => Ending::AtLimit(LimitName::Snap),
        SettleFault::Sequence { .. } => Ending::AtLimit(LimitName::Sequence),
    }
}
