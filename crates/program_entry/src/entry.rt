// What the program does over its streams, once they are made.
ghost use Rattle.std.specs.Prelude.{◌≡◌, IfErr, IfOk, map};
ghost use Rattle.std.specs.Process.{exit_status};
ghost use Rattle.std.specs.String.{string_bytes};
ghost use Rattle.log_writer.specs.Vault.{IsWhole};
ghost use Rattle.command_line.specs.Options.{command_of};
ghost use Rattle.program_calls.specs.Answers.{sources_of};
ghost use Rattle.program_calls.specs.Causes.{AnswersFaults, LeavesVault};
ghost use Rattle.program_calls.specs.OnTheWay.{Explains, IsEarly, IsExit, TellsEnding};
ghost use Rattle.program_calls.specs.TopAnswers.{sinks_of};
ghost use Rattle.program_entry.specs.Endings.{ending_unopened};
ghost use Rattle.program_entry.specs.Entry.{AnsweredAlone, AnsweredOver, InOneOf, IsOpenedFor, MayChange, OrEarly};

use crate::over::{list_over, run_over};
use crate::told::tell;
use call_notes::{
    Asked, Counts, Remembers, USAGE, explanation, tell_causes, tell_faulty_line, tell_no_text,
    tell_not_opened, tell_opened, tell_refused, tell_refused_lines,
};
use command_line::{Command, read_words};
use database_files::{Access, NotOpened, fill_places, no_vault, open_vault};
use lists::Memory;
use log_writer::Vault;
use outside::{Disk, FileDisk, Gate, MemDisk, Sink, Source};
use program_calls::{Ending, top};
use std::alloc::{AllocError, Global};
use std::env::{self, Env};
use std::fs::{File, Files};
use std::io::ErrorKind;
use std::process::ExitCode;
use std::sync::Wait;
use std::thread::Threads;

/// The words of the command line. Words that aren't UTF-8 ask for nothing that the program does.
pub fn read_args(rt: &(impl Env + AllocGlobal)) -> Result<Vec<String>, Ending>
    ensures { IfErr result IsEarly }
{
    let words = match env::args(rt) {
        Ok(words) => words,
        Err(error) if error.kind() == ErrorKind::OutOfMemory => return Err(Ending::NoMemory),
        Err(_) => return Err(Ending::Usage),
    };
    match words.collect(rt.alloc()) {
        Ok(words) => Ok(words),
        Err(AllocError) => Err(Ending::NoMemory),
    }
}

/// Answers the words over the database in a folder, and explains a status other than 0 on `errors`. What a person may
/// want to know beside it, whatever the status is, stands on `notes`: why the system refused a device, which line is
/// faulty, which word was refused, that a database was made or a script is typed, what to do about transactions that were
/// full or wide.
///
/// While it runs, a standard stream that is closed fails, and no file of the database has its place.
pub fn run_program<R, S: Source + Remembers, K: Sink + Counts, E: Sink, N: Sink, G: Gate + Sync>(
    rt: &R,
    words: Result<Vec<String>, Ending>,
    folder: &str,
    source: &mut S,
    sink: &mut K,
    errors: &mut E,
    notes: &mut N,
    gate: &G,
) -> ExitCode
where
    R: Threads + Wait + Sync + Files<File = File> + AllocGlobal,
    requires { IfErr words IsEarly }
    ensures statuses { IsExit (exit_status result) }
    ensures faults { AnswersFaults
        (record { before = S.faults source.old; after = S.faults source.new })
        (record { before = K.faults sink.old; after = K.faults sink.new }) (exit_status result) }
    // An explanation stands where errors are told, unless they can't be: of refused words what the program does, of all
    // done nothing.
    ensures explained { Explains (exit_status result) USAGE.now (E.held errors.old) (E.held errors.new)
        (E.faults errors.old) (E.faults errors.new) }
    ensures quiet { exit_status result ≡ 0 → errors.new ≡ errors.old }
    // The words come to what `top` promises of them, over the files of the folder, or over none where they leave these
    // alone; or it is told which file can't be had, synced or written again, or that memory was wanted. Words that can't
    // be had come to theirs.
    ensures answered { IfOk words (λ words. OrEarly (InOneOf
        (AnsweredOver ⟦<FileDisk as Disk>⟧.settled ⟦<FileDisk as Disk>⟧.tells
        ⟦<FileDisk as Disk>⟧.clock ⟦<FileDisk as Disk>⟧.image_at ⟦<FileDisk as Disk>⟧.faults
        (map string_bytes words.items)
        (sources_of S.left S.faults source.old source.new))
        (AnsweredAlone ⟦<MemDisk as Disk>⟧.tells ⟦<MemDisk as Disk>⟧.clock
        ⟦<MemDisk as Disk>⟧.image_at ⟦<MemDisk as Disk>⟧.faults (map string_bytes words.items)
        (sources_of S.left S.faults source.old source.new)))
        (sinks_of K.held K.faults sink.old sink.new) (exit_status result)) }
    ensures told { IfErr words (λ ending. TellsEnding ending
        (record { before = K.faults sink.old; after = K.faults sink.new })
        (K.held sink.old) (K.held sink.new) (exit_status result)) }
{
    let _places = fill_places(rt);
    let status = answer(rt, words, folder, source, sink, notes, gate);
    explain(errors, status);
    ExitCode::from(status)
}

/// Answers the words, or tells why they can't be had.
fn answer<R, S: Source + Remembers, K: Sink + Counts, N: Sink, G: Gate + Sync>(
    rt: &R,
    words: Result<Vec<String>, Ending>,
    folder: &str,
    source: &mut S,
    sink: &mut K,
    notes: &mut N,
    gate: &G,
) -> u8
where
    R: Threads + Wait + Sync + Files<File = File> + AllocGlobal,
    requires { IfErr words IsEarly }
    ensures statuses { IsExit result }
    ensures faults { AnswersFaults
        (record { before = S.faults source.old; after = S.faults source.new })
        (record { before = K.faults sink.old; after = K.faults sink.new }) result }
    ensures answered { IfOk words (λ words. OrEarly (InOneOf
        (AnsweredOver ⟦<FileDisk as Disk>⟧.settled ⟦<FileDisk as Disk>⟧.tells
        ⟦<FileDisk as Disk>⟧.clock ⟦<FileDisk as Disk>⟧.image_at ⟦<FileDisk as Disk>⟧.faults
        (map string_bytes words.items)
        (sources_of S.left S.faults source.old source.new))
        (AnsweredAlone ⟦<MemDisk as Disk>⟧.tells ⟦<MemDisk as Disk>⟧.clock
        ⟦<MemDisk as Disk>⟧.image_at ⟦<MemDisk as Disk>⟧.faults (map string_bytes words.items)
        (sources_of S.left S.faults source.old source.new)))
        (sinks_of K.held K.faults sink.old sink.new) result) }
    ensures told { IfErr words (λ ending. TellsEnding ending
        (record { before = K.faults sink.old; after = K.faults sink.new })
        (K.held sink.old) (K.held sink.new) result) }
{
    match words {
        Ok(words) => answer_words(rt, &words, folder, source, sink, notes, gate),
        Err(ending) => answer_none(sink, notes, ending),
    }
}

/// Answers words that can't be had.
fn answer_none<K: Sink, N: Sink>(sink: &mut K, notes: &mut N, ending: Ending) -> u8
    ensures { TellsEnding ending (record { before = K.faults sink.old; after = K.faults sink.new })
        (K.held sink.old) (K.held sink.new) result }
{
    let status = tell(sink, ending);
    if status == 2 {
        tell_no_text(notes);
    }
    status
}

/// Answers the words over the database in a folder, or over none, where they leave the database alone.
fn answer_words<R, S: Source + Remembers, K: Sink + Counts, N: Sink, G: Gate + Sync>(
    rt: &R,
    words: &[String],
    folder: &str,
    source: &mut S,
    sink: &mut K,
    notes: &mut N,
    gate: &G,
) -> u8
where
    R: Threads + Wait + Sync + Files<File = File> + AllocGlobal,
    ensures statuses { IsExit result }
    ensures faults { AnswersFaults
        (record { before = S.faults source.old; after = S.faults source.new })
        (record { before = K.faults sink.old; after = K.faults sink.new }) result }
    ensures answered { OrEarly (InOneOf
        (AnsweredOver ⟦<FileDisk as Disk>⟧.settled ⟦<FileDisk as Disk>⟧.tells
        ⟦<FileDisk as Disk>⟧.clock ⟦<FileDisk as Disk>⟧.image_at ⟦<FileDisk as Disk>⟧.faults
        (map string_bytes words.now)
        (sources_of S.left S.faults source.old source.new))
        (AnsweredAlone ⟦<MemDisk as Disk>⟧.tells ⟦<MemDisk as Disk>⟧.clock
        ⟦<MemDisk as Disk>⟧.image_at ⟦<MemDisk as Disk>⟧.faults (map string_bytes words.now)
        (sources_of S.left S.faults source.old source.new)))
        (sinks_of K.held K.faults sink.old sink.new) result }
{
    let Ok(texts) = texts(rt.alloc(), words) else {
        return tell(sink, Ending::NoMemory);
    };
    answer_texts(rt, &texts, folder, source, sink, notes, gate)
}

/// The same of texts.
fn answer_texts<R, S: Source + Remembers, K: Sink + Counts, N: Sink, G: Gate + Sync>(
    rt: &R,
    words: &[&str],
    folder: &str,
    source: &mut S,
    sink: &mut K,
    notes: &mut N,
    gate: &G,
) -> u8
where
    R: Threads + Wait + Sync + Files<File = File> + AllocGlobal,
    ensures statuses { IsExit result }
    ensures faults { AnswersFaults
        (record { before = S.faults source.old; after = S.faults source.new })
        (record { before = K.faults sink.old; after = K.faults sink.new }) result }
    ensures answered { OrEarly (InOneOf
        (AnsweredOver ⟦<FileDisk as Disk>⟧.settled ⟦<FileDisk as Disk>⟧.tells
        ⟦<FileDisk as Disk>⟧.clock ⟦<FileDisk as Disk>⟧.image_at ⟦<FileDisk as Disk>⟧.faults
        (map (λ word. word.now) words.now)
        (sources_of S.left S.faults source.old source.new))
        (AnsweredAlone ⟦<MemDisk as Disk>⟧.tells ⟦<MemDisk as Disk>⟧.clock
        ⟦<MemDisk as Disk>⟧.image_at ⟦<MemDisk as Disk>⟧.faults (map (λ word. word.now) words.now)
        (sources_of S.left S.faults source.old source.new)))
        (sinks_of K.held K.faults sink.old sink.new) result }
{
    match read_words(rt.alloc(), words) {
        Ok(Command::Make(_)) => answer_alone(rt, words, source, sink, gate),
        Ok(Command::Refused) => {
            tell_refused(rt.alloc(), notes, words);
            answer_alone(rt, words, source, sink, gate)
        }
        Ok(Command::Run(_)) => answer_run(rt, words, folder, source, sink, notes, gate),
        Ok(_) => answer_listing(rt, words, folder, source, sink, notes, gate),
        Err(Memory) => tell(sink, Ending::NoMemory),
    }
}

/// Runs a script on the database in a folder.
fn answer_run<R, S: Source + Remembers, K: Sink + Counts, N: Sink, G: Gate + Sync>(
    rt: &R,
    words: &[&str],
    folder: &str,
    source: &mut S,
    sink: &mut K,
    notes: &mut N,
    gate: &G,
) -> u8
where
    R: Threads + Wait + Sync + Files<File = File> + AllocGlobal,
    requires changes { MayChange (command_of (map (λ word. word.now) words.now)) }
    ensures statuses { IsExit result }
    ensures faults { AnswersFaults
        (record { before = S.faults source.old; after = S.faults source.new })
        (record { before = K.faults sink.old; after = K.faults sink.new }) result }
    ensures answered { OrEarly (AnsweredOver ⟦<FileDisk as Disk>⟧.settled ⟦<FileDisk as Disk>⟧.tells
        ⟦<FileDisk as Disk>⟧.clock ⟦<FileDisk as Disk>⟧.image_at ⟦<FileDisk as Disk>⟧.faults
        (map (λ word. word.now) words.now)
        (sources_of S.left S.faults source.old source.new))
        (sinks_of K.held K.faults sink.old sink.new) result }
{
    let asked = Asked {
        folder,
        access: Access::Alone,
        is_typed: source.is_typed(),
    };
    let status = answer_over(rt, words, asked, source, sink, notes, gate);
    if status == 1 {
        tell_faulty_line(rt.alloc(), notes, source);
    }
    tell_refused_lines(
        rt.alloc(),
        notes,
        sink.printed(),
        source.lines(),
        status == 0,
    );
    status
}

/// Tells what the database in a folder keeps.
fn answer_listing<R, S: Source, K: Sink, N: Sink, G: Gate + Sync>(
    rt: &R,
    words: &[&str],
    folder: &str,
    source: &mut S,
    sink: &mut K,
    notes: &mut N,
    gate: &G,
) -> u8
where
    R: Threads + Wait + Sync + Files<File = File> + AllocGlobal,
    requires lists { MayChange (command_of (map (λ word. word.now) words.now)) → ⊥ }
    ensures statuses { IsExit result }
    ensures faults { AnswersFaults
        (record { before = S.faults source.old; after = S.faults source.new })
        (record { before = K.faults sink.old; after = K.faults sink.new }) result }
    ensures answered { OrEarly (AnsweredOver ⟦<FileDisk as Disk>⟧.settled ⟦<FileDisk as Disk>⟧.tells
        ⟦<FileDisk as Disk>⟧.clock ⟦<FileDisk as Disk>⟧.image_at ⟦<FileDisk as Disk>⟧.faults
        (map (λ word. word.now) words.now)
        (sources_of S.left S.faults source.old source.new))
        (sinks_of K.held K.faults sink.old sink.new) result }
{
    let asked = Asked {
        folder,
        access: Access::Shared,
        is_typed: false,
    };
    answer_over(rt, words, asked, source, sink, notes, gate)
}

/// Opens the database in a folder as it is asked for, and calls `top` over it.
fn answer_over<R, S: Source, K: Sink, N: Sink, G: Gate + Sync>(
    rt: &R,
    words: &[&str],
    asked: Asked<'_>,
    source: &mut S,
    sink: &mut K,
    notes: &mut N,
    gate: &G,
) -> u8
where
    R: Threads + Wait + Sync + Files<File = File> + AllocGlobal,
    requires asked { IsOpenedFor (command_of (map (λ word. word.now) words.now)) asked.access }
    ensures statuses { IsExit result }
    ensures faults { AnswersFaults
        (record { before = S.faults source.old; after = S.faults source.new })
        (record { before = K.faults sink.old; after = K.faults sink.new }) result }
    ensures answered { OrEarly (AnsweredOver ⟦<FileDisk as Disk>⟧.settled ⟦<FileDisk as Disk>⟧.tells
        ⟦<FileDisk as Disk>⟧.clock ⟦<FileDisk as Disk>⟧.image_at ⟦<FileDisk as Disk>⟧.faults
        (map (λ word. word.now) words.now)
        (sources_of S.left S.faults source.old source.new))
        (sinks_of K.held K.faults sink.old sink.new) result }
{
    match open_vault(rt, rt.alloc(), asked.folder, asked.access) {
        Ok(mut opened) => {
            tell_opened(rt.alloc(), notes, asked, &opened);
            let status = call_over(
                rt,
                words,
                asked.access,
                source,
                sink,
                &mut opened.vault,
                gate,
            );
            tell_causes(rt.alloc(), notes, asked.folder, &opened.vault);
            status
        }
        Err(error) => {
            tell_not_opened(rt.alloc(), notes, asked.folder, &error);
            tell(sink, ending_of(&error))
        }
    }
}

// How a call ends whose database can't be opened.
fn ending_of(error: &NotOpened) -> Ending
    ensures early { IsEarly result }
    ensures is { result ≡ ending_unopened error.now }
{
    match error {
        NotOpened::Without(device, _) => Ending::NoDevice(*device),
        NotOpened::NoMemory => Ending::NoMemory,
    }
}

/// Calls `top` over a database that was opened for it.
fn call_over<R, S: Source, K: Sink, G: Gate + Sync>(
    rt: &R,
    words: &[&str],
    access: Access,
    source: &mut S,
    sink: &mut K,
    vault: &mut Vault<FileDisk>,
    gate: &G,
) -> u8
where
    R: Threads + Wait + Sync + AllocGlobal,
    requires whole { IsWhole vault.old }
    requires asked { IsOpenedFor (command_of (map (λ word. word.now) words.now)) access }
    ensures statuses { IsExit result }
    ensures faults { AnswersFaults
        (record { before = S.faults source.old; after = S.faults source.new })
        (record { before = K.faults sink.old; after = K.faults sink.new }) result }
    ensures answered { AnsweredOver ⟦<FileDisk as Disk>⟧.settled ⟦<FileDisk as Disk>⟧.tells
        ⟦<FileDisk as Disk>⟧.clock ⟦<FileDisk as Disk>⟧.image_at ⟦<FileDisk as Disk>⟧.faults
        (map (λ word. word.now) words.now) (sources_of S.left S.faults source.old source.new)
        (sinks_of K.held K.faults sink.old sink.new) result }
{
    match access {
        Access::Alone => run_over(rt, words, source, sink, vault, gate),
        Access::Shared => list_over(rt, words, source, sink, vault, gate),
    }
}

/// Calls `top` with words that leave the database alone, over none. No file is opened or made: a script is often made
/// for a run beside it, which makes the files of the same folder, and would be in the way of another that does.
fn answer_alone<R, S: Source, K: Sink, G: Gate + Sync>(
    rt: &R,
    words: &[&str],
    source: &mut S,
    sink: &mut K,
    gate: &G,
) -> u8
where
    R: Threads + Wait + Sync + AllocGlobal,
    requires alone { LeavesVault (command_of (map (λ word. word.now) words.now)) }
    ensures statuses { IsExit result }
    ensures faults { AnswersFaults
        (record { before = S.faults source.old; after = S.faults source.new })
        (record { before = K.faults sink.old; after = K.faults sink.new }) result }
    ensures answered { OrEarly (AnsweredAlone ⟦<MemDisk as Disk>⟧.tells ⟦<MemDisk as Disk>⟧.clock
        ⟦<MemDisk as Disk>⟧.image_at ⟦<MemDisk as Disk>⟧.faults (map (λ word. word.now) words.now)
        (sources_of S.left S.faults source.old source.new))
        (sinks_of K.held K.faults sink.old sink.new) result }
{
    match no_vault(rt.alloc()) {
        Ok(mut vault) => top(rt, rt.alloc(), words, source, sink, &mut vault, gate),
        Err(AllocError) => tell(sink, Ending::NoMemory),
    }
}

// The words as texts.
fn texts(alloc: Global, words: &[String]) -> Result<Vec<&str>, AllocError>
    ensures { IfOk result (λ texts. map (λ text. text.now) texts.items ≡ map string_bytes words.now) }
{
    let mut texts = Vec::new(alloc);
    for word in words {
        texts.push(word.as_str())?;
    }
    Ok(texts)
}

/// Explains a status other than 0. The answer stands on standard output, so where this can't be written nothing is
/// missing.
fn explain<E: Sink>(errors: &mut E, status: u8)
    ensures explained { Explains status USAGE.now (E.held errors.old) (E.held errors.new)
        (E.faults errors.old) (E.faults errors.new) }
    ensures quiet { status ≡ 0 → errors.new ≡ errors.old }
{
    if status == 0 {
        return;
    }
    let _ = errors.write(explanation(status).as_bytes());
}
