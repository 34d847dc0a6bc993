// One call of the program.
ghost use Rattle.std.specs.Prelude.{◌≡◌, [], map};
ghost use Rattle.command_line.specs.Options.{command_of};
ghost use Rattle.outside.specs.Disk.{IfTold, Only};
ghost use Rattle.log_writer.specs.Vault.{IsWhole};
ghost use Rattle.joint_crashes.specs.Images.{Images};
ghost use Rattle.joint_crashes.specs.JointCrash.{parts_of};
ghost use Rattle.joint_crashes.specs.Resting.{AreTold};
ghost use Rattle.program_calls.specs.Answers.{Answers, sources_of};
ghost use Rattle.program_calls.specs.Causes.{AnswersWords};
ghost use Rattle.program_calls.specs.Ending.{ShownText};
ghost use Rattle.program_calls.specs.Listings.{IsListing, IsUndisturbed, TellsAll};
ghost use Rattle.program_calls.specs.OnTheWay.{AddsText, TakesText, status_told};
ghost use Rattle.program_calls.specs.Vaults.{vaults_of};

use crate::ending::{Ending, finish, status_told};
use crate::run::run;
use command_line::{Command, read_words};
use log_writer::Vault;
use outside::{Disk, Failed, Gate, Sink, Source};
use serial_model::Memory;
use std::alloc::Global;
use std::sync::Wait;
use std::thread::Threads;
use text_output::Printer;

/// Does what the words ask for, and answers the program's status: 0 where all was done, 1 where the
/// bytes are no script or declare other storages than the vault keeps, 2 where the words ask for nothing, 3 where
/// the source failed, 4 where the sink failed, 5 where a device of the vault failed, 6 where one is damaged, 7 where
/// a limit was met, 8 for want of memory and 9 where the vault has no snapshot of the epoch that is asked for.
///
/// As a run begins, the save device has to have one image: nothing is pending.
pub fn top<R: Threads + Wait + Sync, S: Source, K: Sink, D: Disk + Send + Drop, G: Gate + Sync>(
    rt: &R,
    alloc: Global,
    words: &[&str],
    source: &mut S,
    sink: &mut K,
    vault: &mut Vault<D>,
    gate: &G,
) -> u8
    requires whole { IsWhole vault.old }
    requires one { (options : _) → command_of (map (λ word. word.now) words.now) ≡ Command.Run options
        → IfTold (D.tells vault.old.save) (Only D.clock D.image_at vault.old.save) }
    // What was run, printed and kept, and how the call ended: the main theorem.
    ensures answers { Answers (vaults_of D.tells D.clock D.image_at D.faults vault.old vault.new)
        (command_of (map (λ word. word.now) words.now)) (sources_of S.left S.faults source.old source.new)
        (record { before = K.faults sink.old; after = K.faults sink.new }) result
        (ShownText (K.held sink.old) (K.held sink.new) result) }
    // Refused words and calls for help come to usage, and nothing else does.
    ensures asked { AnswersWords (map (λ word. word.now) words.now) result }
    // What the vault keeps is told where nothing fails.
    ensures complete { IsListing (command_of (map (λ word. word.now) words.now))
        → (found : Images) → AreTold D.tells (parts_of vault.old) found → IsUndisturbed result
        → TellsAll (command_of (map (λ word. word.now) words.now)) found (K.held sink.old) (K.held sink.new) result }
{
    let mut printer = Printer::new(sink);
    let outcome = call(rt, alloc, words, source, &mut printer, vault, gate);
    let _ = printer.into_sink();
    status_told(outcome)
}

// Does what the words ask for, and prints all of its text.
fn call<R: Threads + Wait + Sync, S: Source, K: Sink, D: Disk + Send + Drop, G: Gate + Sync>(
    rt: &R,
    alloc: Global,
    words: &[&str],
    source: &mut S,
    printer: &mut Printer<'_, K>,
    vault: &mut Vault<D>,
    gate: &G,
) -> Result<Ending, Failed>
    requires empty { printer.old.waiting ≡ [] }
    requires whole { IsWhole vault.old }
    requires one { (options : _) → command_of (map (λ word. word.now) words.now) ≡ Command.Run options
        → IfTold (D.tells vault.old.save) (Only D.clock D.image_at vault.old.save) }
    ensures answers { Answers (vaults_of D.tells D.clock D.image_at D.faults vault.old vault.new)
        (command_of (map (λ word. word.now) words.now)) (sources_of S.left S.faults source.old source.new)
        (record { before = printer.old.faults; after = printer.new.faults }) (status_told result)
        (TakesText printer.old.held printer.new.held result) }
    ensures asked { AnswersWords (map (λ word. word.now) words.now) (status_told result) }
    ensures same { printer.new.sink ≡ printer.old.sink }
{
    let ending = run_words(rt, alloc, words, source, printer, vault, gate)?;
    finish(printer, ending)
}

// Does what the words ask for, and adds the text of what was run.
fn run_words<R: Threads + Wait + Sync, S: Source, K: Sink, D: Disk + Send + Drop, G: Gate + Sync>(
    rt: &R,
    alloc: Global,
    words: &[&str],
    source: &mut S,
    printer: &mut Printer<'_, K>,
    vault: &mut Vault<D>,
    gate: &G,
) -> Result<Ending, Failed>
    requires whole { IsWhole vault.old }
    requires one { (options : _) → command_of (map (λ word. word.now) words.now) ≡ Command.Run options
        → IfTold (D.tells vault.old.save) (Only D.clock D.image_at vault.old.save) }
    ensures answers { Answers (vaults_of D.tells D.clock D.image_at D.faults vault.old vault.new)
        (command_of (map (λ word. word.now) words.now)) (sources_of S.left S.faults source.old source.new)
        (record { before = printer.old.faults; after = printer.new.faults }) (status_told result)
        (AddsText printer.old printer.new result) }
    ensures asked { AnswersWords (map (λ word. word.now) words.now) (status_told result) }
    ensures same { printer.new.sink ≡ printer.old.sink }
{
    match read_words(alloc, words) {
        Ok(command) => run(rt, alloc, command, source, printer, vault, gate),
        Err(Memory) => Ok(Ending::NoMemory),
    }
}
