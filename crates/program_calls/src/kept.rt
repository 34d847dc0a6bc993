// What the devices of a database keep, and which snapshots they have, told as text.
ghost use Rattle.std.specs.Prelude.{◌≡◌};
ghost use Rattle.log_writer.specs.Vault.{IsWhole};
ghost use Rattle.joint_crashes.specs.VaultReads.{VaultOnlyReads};
ghost use Rattle.text_output.specs.Output.{Prints};
ghost use Rattle.program_calls.specs.Listings.{Listed, snapshot_line, snapshots_text};
ghost use Rattle.program_calls.specs.OnTheWay.{AddsText, TellsSnapshot, TellsText, ending_of_fault, ending_of_refusal};
ghost use Rattle.recovery_core.specs.Recovered.{IsUp};
ghost use Rattle.tx_script.specs.StateText.{state_text};

use crate::ending::Ending;
use command_line::Command;
use log_writer::Vault;
use outside::{Disk, Failed, Sink};
use recovery_core::{RecoverFault, Recovered, SnapshotMark, recover, snapshot};
use serial_model::{OrMemory, State};
use std::alloc::Global;
use text_output::Printer;
use tx_script::put_state;

/// Adds the text of what the devices stand for. They are only read.
pub(crate) fn dump<K: Sink, D: Disk>(
    alloc: Global,
    printer: &mut Printer<'_, K>,
    vault: &mut Vault<D>,
) -> Result<Ending, Failed>
    requires whole { IsWhole vault.old }
    ensures listed { Listed Command.Dump D.tells D.faults vault.old vault.new
        (AddsText printer.old printer.new result) }
    ensures reads { VaultOnlyReads D.tells D.clock D.image_at D.faults vault.old vault.new }
{
    match recover(alloc, vault) {
        Ok(kept) => tell_state(printer, kept.epoch, &kept.state, &kept),
        Err(refusal) => Ok(ending_of_refusal(refusal)),
    }
}

/// Adds a line for each snapshot that the devices have, the oldest first. They are only read.
pub(crate) fn snaps<K: Sink, D: Disk>(
    alloc: Global,
    printer: &mut Printer<'_, K>,
    vault: &mut Vault<D>,
) -> Result<Ending, Failed>
    requires whole { IsWhole vault.old }
    ensures listed { Listed Command.Snaps D.tells D.faults vault.old vault.new
        (AddsText printer.old printer.new result) }
    ensures reads { VaultOnlyReads D.tells D.clock D.image_at D.faults vault.old vault.new }
{
    match recover(alloc, vault) {
        Ok(kept) => tell_snapshots(printer, &kept),
        Err(refusal) => Ok(ending_of_refusal(refusal)),
    }
}

/// Adds the text of the snapshot of an epoch, if the devices have one. They are only read.
pub(crate) fn snap<K: Sink, D: Disk>(
    alloc: Global,
    printer: &mut Printer<'_, K>,
    vault: &mut Vault<D>,
    epoch: u32,
) -> Result<Ending, Failed>
    requires whole { IsWhole vault.old }
    ensures listed { Listed (Command.Snap epoch) D.tells D.faults vault.old vault.new
        (AddsText printer.old printer.new result) }
    ensures reads { VaultOnlyReads D.tells D.clock D.image_at D.faults vault.old vault.new }
{
    match recover(alloc, vault) {
        Ok(kept) => tell_snapshot(alloc, printer, &kept, epoch),
        Err(refusal) => Ok(ending_of_refusal(refusal)),
    }
}

// Adds the text of the snapshot of an epoch, of those that were recovered. What was recovered is lent: a function that
// owns it pays at each of its exits.
fn tell_snapshot<K: Sink>(
    alloc: Global,
    printer: &mut Printer<'_, K>,
    kept: &Recovered,
    epoch: u32,
) -> Result<Ending, Failed>
    requires { IsUp kept.now }
    ensures { TellsSnapshot kept.now epoch printer.old printer.new result }
{
    match snapshot(alloc, kept, epoch) {
        Ok(Some(state)) => tell_state(printer, epoch, &state, kept),
        Ok(None) => Ok(Ending::NoSnapshot(epoch)),
        Err(refusal) => Ok(ending_of_refusal(refusal)),
    }
}

// Adds the text of a state of the storages that were recovered.
fn tell_state<K: Sink>(
    printer: &mut Printer<'_, K>,
    epoch: u32,
    state: &State,
    kept: &Recovered,
) -> Result<Ending, Failed>
    ensures { TellsText printer.old printer.new (state_text epoch kept.now.decls state.now) result }
{
    put_state(printer, epoch, state, kept.decls.as_slice())?;
    Ok(Ending::Finished)
}

// Adds the lines of the snapshots that were recovered.
fn tell_snapshots<K: Sink>(printer: &mut Printer<'_, K>, kept: &Recovered) -> Result<Ending, Failed>
    ensures { TellsText printer.old printer.new (snapshots_text kept.now.catalogues) result }
{
    put_snapshots(printer, kept.catalogues.as_slice())?;
    Ok(Ending::Finished)
}

fn put_snapshots<K: Sink>(
    printer: &mut Printer<'_, K>,
    marks: &[SnapshotMark],
) -> Result<(), Failed>
    ensures { Prints printer.old printer.new (snapshots_text marks.now) result }
{
    for index in 0..marks.len() {
        put_snapshot(printer, marks[index])?;
    }
    Ok(())
}

fn put_snapshot<K: Sink>(printer: &mut Printer<'_, K>, mark: SnapshotMark) -> Result<(), Failed>
    ensures { Prints printer.old printer.new (snapshot_line mark) result }
{
    printer.put(b"snap ")?;
    printer.put_number(mark.epoch as u64)?;
    printer.put(b" at ")?;
    printer.put_number(mark.page as u64)?;
    printer.put(b"\n")
}

/// How a call ends whose vault can't be recovered.
pub(crate) fn ending_of_refusal(refusal: OrMemory<RecoverFault>) -> Ending
    ensures { result ≡ ending_of_refusal refusal }
{
    match refusal {
        OrMemory::Fault(fault) => ending_of_fault(fault),
        OrMemory::Memory => Ending::NoMemory,
    }
}

fn ending_of_fault(fault: RecoverFault) -> Ending
    ensures { result ≡ ending_of_fault fault }
{
    match fault {
        RecoverFault::Device(device) => Ending::NoDevice(device),
        RecoverFault::Damaged { device, at } => Ending::Damaged { device, at },
    }
}
