// Runs of a script, printed round by round.
ghost use Rattle.std.specs.Prelude.{◌≡◌, ◌<◌, ◌≤◌, ◌^◌, [], Ok, true, false};
ghost use Rattle.command_line.specs.Options.{AreInRange, AreMadeInRange};
ghost use Rattle.script_grammar.specs.Script.{IsScript};
ghost use Rattle.tx_script.specs.Draws.{lines_in};
ghost use Rattle.tx_script.specs.Run.{CanRun};
ghost use Rattle.round_engine.specs.Standing.{StandsOn};
ghost use Rattle.brief_output.specs.Brief.{tally_of};
ghost use Rattle.outside.specs.Disk.{IfTold, Only};
ghost use Rattle.log_writer.specs.Vault.{IsWhole};
ghost use Rattle.joint_crashes.specs.VaultReads.{VaultOnlyReads};
ghost use Rattle.program_calls.specs.Answers.{Answers, sources_of};
ghost use Rattle.program_calls.specs.Causes.{AnswersDevices, IsReadStatus, ReadsDamage, RestsAgain};
ghost use Rattle.program_calls.specs.OnTheWay.{AddsRun, AddsText, BeginsRun, RunsInBrief, RunsRounds, RunsScript};
ghost use Rattle.program_calls.specs.OnTheWay.{status_told};
ghost use Rattle.program_calls.specs.RanScript.{RanScript};
ghost use Rattle.program_calls.specs.Rounds.{CanCount, RunsRound, RunsToEnd};
ghost use Rattle.program_calls.specs.Telling.{TellsRun};
ghost use Rattle.program_calls.specs.Vaults.{vaults_of};

use crate::begin::begin;
use crate::brief::tell_in_brief;
use crate::ending::{Ending, ending_of};
use crate::input::read_text;
use crate::kept::{dump, snap, snaps};
use crate::teller::Teller;
use command_line::{Command, MakeArguments, RunOptions};
use log_writer::Vault;
use outside::{Disk, Failed, Gate, Sink, Source};
use round_engine::{End, Runtime, round};
use script_maker::put_script;
use serial_model::Memory;
use std::alloc::Global;
use std::sync::Wait;
use std::thread::Threads;
use text_output::Printer;
use tx_script::{Round, Script};

/// Does what the command asks for, and adds the text of what was run.
pub(crate) fn run<
    R: Threads + Wait + Sync,
    S: Source,
    K: Sink,
    D: Disk + Send + Drop,
    G: Gate + Sync,
>(
    rt: &R,
    alloc: Global,
    command: Command,
    source: &mut S,
    printer: &mut Printer<'_, K>,
    vault: &mut Vault<D>,
    gate: &G,
) -> Result<Ending, Failed>
    requires ranges { (options : RunOptions) → command ≡ Command.Run options → AreInRange options }
    requires made_ranges { (arguments : MakeArguments) → command ≡ Command.Make arguments
        → AreMadeInRange arguments }
    requires whole { IsWhole vault.old }
    requires one { (options : RunOptions) → command ≡ Command.Run options
        → IfTold (D.tells vault.old.save) (Only D.clock D.image_at vault.old.save) }
    ensures answers { Answers (vaults_of D.tells D.clock D.image_at D.faults vault.old vault.new) command
        (sources_of S.left S.faults source.old source.new)
        (record { before = printer.old.faults; after = printer.new.faults }) (status_told result)
        (AddsText printer.old printer.new result) }
    ensures usage { result ≡ Ok Ending.Usage → command ≡ Command.Refused }
    ensures refused { command ≡ Command.Refused → result ≡ Ok Ending.Usage }
    ensures same { printer.new.sink ≡ printer.old.sink }
{
    match command {
        Command::Run(options) => match read_text(alloc, source) {
            Ok(script) => run_script(rt, alloc, options, &script, printer, vault, gate),
            Err(ending) => Ok(ending),
        },
        Command::Dump => dump(alloc, printer, vault),
        Command::Snaps => snaps(alloc, printer, vault),
        Command::Snap(epoch) => snap(alloc, printer, vault, epoch),
        Command::Make(arguments) => make(printer, arguments),
        Command::Refused => Ok(Ending::Usage),
    }
}

/// Adds the script of these arguments.
fn make<K: Sink>(printer: &mut Printer<'_, K>, arguments: MakeArguments) -> Result<Ending, Failed>
    requires ranges { AreMadeInRange arguments }
    ensures { AddsRun (Command.Make arguments) printer.old printer.new result [] Ending.Finished }
{
    put_script(printer, arguments.seed, arguments.workers, arguments.lines)?;
    Ok(Ending::Finished)
}

/// Runs a script on what the vault keeps, and adds the text of what was run.
fn run_script<R: Threads + Wait + Sync, K: Sink, D: Disk + Send + Drop, G: Gate + Sync>(
    rt: &R,
    alloc: Global,
    options: RunOptions,
    script: &Script,
    printer: &mut Printer<'_, K>,
    vault: &mut Vault<D>,
    gate: &G,
) -> Result<Ending, Failed>
    requires rules { IsScript script.now }
    requires few { lines_in script.now.rounds < 2 ^ 64 }
    requires ranges { AreInRange options }
    requires whole { IsWhole vault.old }
    requires one { IfTold (D.tells vault.old.save) (Only D.clock D.image_at vault.old.save) }
    ensures { RanScript (vaults_of D.tells D.clock D.image_at D.faults vault.old vault.new) options
        script.now printer.old printer.new result }
{
    if options.brief {
        return run_in_brief(rt, alloc, options, script, printer, vault, gate);
    }
    run_in_full(rt, alloc, options, script, printer, vault, gate)
}

/// Runs a script, and adds the lines of its rounds.
fn run_in_full<R: Threads + Wait + Sync, K: Sink, D: Disk + Send + Drop, G: Gate + Sync>(
    rt: &R,
    alloc: Global,
    options: RunOptions,
    script: &Script,
    printer: &mut Printer<'_, K>,
    vault: &mut Vault<D>,
    gate: &G,
) -> Result<Ending, Failed>
    requires rules { IsScript script.now }
    requires few { lines_in script.now.rounds < 2 ^ 64 }
    requires ranges { AreInRange options }
    requires whole { IsWhole vault.old }
    requires one { IfTold (D.tells vault.old.save) (Only D.clock D.image_at vault.old.save) }
    ensures runs { RunsScript (vaults_of D.tells D.clock D.image_at D.faults vault.old vault.new) options.snap
        options.slots options.tries script.now (AddsRun (Command.Run options) printer.old printer.new result) }
    ensures reads { IsReadStatus (status_told result)
        → VaultOnlyReads D.tells D.clock D.image_at D.faults vault.old vault.new }
    ensures damage { ReadsDamage D.tells D.clock D.image_at D.faults (status_told result) vault.old vault.new }
    ensures rests { RestsAgain D.tells D.clock D.image_at (status_told result) vault.old vault.new }
{
    let mut teller = Teller::new(false);
    run_rounds(
        rt,
        alloc,
        options,
        script,
        &mut teller,
        printer,
        vault,
        gate,
    )
}

/// Runs a script, and adds the counts and the sum of it.
fn run_in_brief<R: Threads + Wait + Sync, K: Sink, D: Disk + Send + Drop, G: Gate + Sync>(
    rt: &R,
    alloc: Global,
    options: RunOptions,
    script: &Script,
    printer: &mut Printer<'_, K>,
    vault: &mut Vault<D>,
    gate: &G,
) -> Result<Ending, Failed>
    requires rules { IsScript script.now }
    requires few { lines_in script.now.rounds < 2 ^ 64 }
    requires ranges { AreInRange options }
    requires whole { IsWhole vault.old }
    requires one { IfTold (D.tells vault.old.save) (Only D.clock D.image_at vault.old.save) }
    ensures runs { RunsInBrief (vaults_of D.tells D.clock D.image_at D.faults vault.old vault.new) options.snap
        options.slots options.tries script.now (AddsText printer.old printer.new result) }
    ensures damage { ReadsDamage D.tells D.clock D.image_at D.faults (status_told result) vault.old vault.new }
    ensures devices { AnswersDevices D.faults vault.old vault.new (status_told result) }
    ensures reads { IsReadStatus (status_told result)
        → VaultOnlyReads D.tells D.clock D.image_at D.faults vault.old vault.new }
    ensures rests { RestsAgain D.tells D.clock D.image_at (status_told result) vault.old vault.new }
{
    let mut teller = Teller::new(true);
    let ending = run_rounds(
        rt,
        alloc,
        options,
        script,
        &mut teller,
        printer,
        vault,
        gate,
    )?;
    tell_in_brief(alloc, teller, ending, printer, vault)
}

/// Runs the rounds of a script on what the vault keeps, up to one that ends the run, and has each of them told. The
/// runtime is its own, and it lends it: each exit of a function drops what it owns, which is proved at each exit.
fn run_rounds<R: Threads + Wait + Sync, K: Sink, D: Disk + Send + Drop, G: Gate + Sync>(
    rt: &R,
    alloc: Global,
    options: RunOptions,
    script: &Script,
    teller: &mut Teller,
    printer: &mut Printer<'_, K>,
    vault: &mut Vault<D>,
    gate: &G,
) -> Result<Ending, Failed>
    requires rules { IsScript script.now }
    requires few { lines_in script.now.rounds < 2 ^ 64 }
    requires ranges { AreInRange options }
    requires fresh { teller.old.tally ≡ tally_of [] }
    requires whole { IsWhole vault.old }
    requires one { IfTold (D.tells vault.old.save) (Only D.clock D.image_at vault.old.save) }
    ensures runs { RunsRounds (vaults_of D.tells D.clock D.image_at D.faults vault.old vault.new) options.snap
        options.slots options.tries script.now
        (TellsRun teller.old.brief teller.new.tally printer.old printer.new result) }
    ensures whole { teller.new.tally.ran ≡ true → IsWhole vault.new }
    ensures reads { IsReadStatus (status_told result)
        → VaultOnlyReads D.tells D.clock D.image_at D.faults vault.old vault.new }
    ensures damage { ReadsDamage D.tells D.clock D.image_at D.faults (status_told result) vault.old vault.new }
    ensures rests { RestsAgain D.tells D.clock D.image_at (status_told result) vault.old vault.new }
{
    match begin(alloc, options, script, vault) {
        Ok(mut runtime) => run_from(
            rt,
            alloc,
            options,
            script,
            &mut runtime,
            teller,
            printer,
            vault,
            gate,
        ),
        Err(ending) => Ok(ending),
    }
}

/// The same on a runtime that stands before the first round, over the vault where it began. It owns nothing.
fn run_from<R: Threads + Wait + Sync, K: Sink, D: Disk + Send + Drop, G: Gate + Sync>(
    rt: &R,
    alloc: Global,
    options: RunOptions,
    script: &Script,
    runtime: &mut Runtime,
    teller: &mut Teller,
    printer: &mut Printer<'_, K>,
    vault: &mut Vault<D>,
    gate: &G,
) -> Result<Ending, Failed>
    requires rules { IsScript script.now }
    requires few { lines_in script.now.rounds < 2 ^ 64 }
    requires ranges { AreInRange options }
    requires fresh { teller.old.tally ≡ tally_of [] }
    requires begun { (was : Vault D) × BeginsRun D.tells D.clock D.image_at D.faults options.snap options.slots
        script.now was vault.old runtime.old }
    ensures { (was : Vault D)
        → BeginsRun D.tells D.clock D.image_at D.faults options.snap options.slots
        script.now was vault.old runtime.old
        → RunsToEnd (vaults_of D.tells D.clock D.image_at D.faults was vault.new) options.snap
        options.slots options.tries script.now (status_told result)
        (TellsRun teller.old.brief teller.new.tally printer.old printer.new result) }
{
    for index in 0..script.rounds() {
        gate.begins(index + 1, script.rounds());
        let lines = script.round(index);
        let ended = run_round(
            rt,
            alloc,
            &lines,
            options.tries,
            runtime,
            teller,
            printer,
            vault,
            gate,
        )?;
        if let Some(end) = ended {
            return Ok(ending_of(end));
        }
    }
    Ok(Ending::Finished)
}

/// Runs a round, and has it told. Answers why the run ends with it, if it does.
fn run_round<R: Threads + Wait + Sync, K: Sink, D: Disk + Send + Drop, G: Gate + Sync>(
    rt: &R,
    alloc: Global,
    lines: &Round<'_>,
    tries: u32,
    runtime: &mut Runtime,
    teller: &mut Teller,
    printer: &mut Printer<'_, K>,
    vault: &mut Vault<D>,
    gate: &G,
) -> Result<Option<End>, Failed>
    requires lines { CanRun runtime.old.stands.decls lines.now }
    requires some_try { 1 ≤ tries }
    requires most_tries { tries ≤ 1000000 }
    requires goes_on { runtime.old.stands.ended ≡ false }
    requires stands { StandsOn D.tells D.clock D.image_at runtime.old vault.old }
    requires few { CanCount D.tells D.clock D.image_at D.faults tries lines.now runtime.old vault.old
        teller.old.brief teller.old.tally }
    ensures kind { teller.new.brief ≡ teller.old.brief }
    ensures runs { RunsRound D.tells D.clock D.image_at D.faults tries lines.now runtime.old runtime.new
        vault.old vault.new teller.old.brief teller.old.tally teller.new.tally printer.old printer.new result }
{
    match round(rt, alloc, runtime, vault, lines, tries, gate) {
        Ok(report) => {
            teller.tell(printer, &report)?;
            Ok(report.end)
        }
        Err(Memory) => Ok(Some(End::Memory)),
    }
}
