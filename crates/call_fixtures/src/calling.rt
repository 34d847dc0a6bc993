// Calls over disks in memory, with their status and their text.
ghost use Rattle.outside.specs.Disk.{IfTold, Only};

use crate::in_turn::InTurn;
use crate::vaults::{anew, fresh_vault};
use log_writer::Vault;
use outside::{Disk, Gate, MemDisk, MemSink, MemSource, OpenGate, Sink, Source, SureSource};
use program_entry::top;
use std::alloc::{AllocError, Global};
use std::sync::Wait;
use std::test::Fail;
use std::thread::Threads;

/// What isn't so ends a test, by its name. A comparison that is handed on costs a proof much less than an assert does.
pub fn is_so(what: &str, so: bool) -> Result<(), Fail> {
    if so { Ok(()) } else { Err(Fail::from(what)) }
}

/// Compares bytes.
pub fn is_same(what: &str, got: &[u8], wanted: &[u8]) -> Result<(), Fail> {
    is_so(what, got == wanted)
}

/// Compares a status and a text.
pub fn is_answer(what: &str, came: (u8, &[u8]), wanted: (u8, &[u8])) -> Result<(), Fail> {
    is_so(what, came.0 == wanted.0)?;
    is_same(what, came.1, wanted.1)
}

/// The program's name, and the words of a text.
pub fn words(alloc: Global, asked: &str) -> Result<Vec<&str>, AllocError> {
    let mut words = Vec::new(alloc);
    words.push("foedus")?;
    for word in asked.split_whitespace() {
        words.push(word)?;
    }
    Ok(words)
}

/// The status of a call over a vault that has all its log files.
pub fn ended<R: Threads + Wait + Sync + AllocGlobal, D: Disk + Send + Drop, G: Gate + Sync>(
    rt: &R,
    words: &[&str],
    source: &mut impl Source,
    sink: &mut impl Sink,
    vault: &mut Vault<D>,
    gate: &G,
) -> Result<u8, Fail>
    requires { IfTold (D.tells vault.old.save) (Only D.clock D.image_at vault.old.save) }
{
    if !vault.is_whole() {
        return Err(Fail::from("a vault without a log file"));
    }
    Ok(top(rt, rt.alloc(), words, source, sink, vault, gate))
}

/// The same, and the text on a sink of which the calls of these numbers fail.
pub fn told<R: Threads + Wait + Sync + AllocGlobal, D: Disk + Send + Drop, G: Gate + Sync>(
    rt: &R,
    words: &[&str],
    source: &mut impl Source,
    fails: &[u64],
    vault: &mut Vault<D>,
    gate: &G,
) -> Result<(u8, Vec<u8>), Fail>
    requires { IfTold (D.tells vault.old.save) (Only D.clock D.image_at vault.old.save) }
{
    let mut sink = MemSink::new(rt.alloc(), fails.to_vec(rt.alloc())?);
    let status = ended(rt, words, source, &mut sink, vault, gate)?;
    Ok((status, sink.bytes().to_vec(rt.alloc())?))
}

/// A source of these bytes, whose call of this number fails.
pub fn source_of(alloc: Global, script: &[u8], failing: u64) -> Result<MemSource, AllocError> {
    let mut fails = Vec::new(alloc);
    fails.push(failing)?;
    Ok(MemSource::new(script.to_vec(alloc)?, fails))
}

// The status and the text of a call over a new vault.
fn told_fresh<R: Threads + Wait + Sync + AllocGlobal, G: Gate + Sync>(
    rt: &R,
    words: &[&str],
    source: &mut MemSource,
    failing_write: u64,
    gate: &G,
) -> Result<(u8, Vec<u8>), Fail> {
    let mut vault = fresh_vault(rt.alloc())?;
    told(rt, words, source, &[failing_write], &mut vault, gate)
}

/// The status of a call with these words after the program's name over a new vault, and over a source and a sink of
/// which the calls of these numbers fail, and what the sink then holds.
pub fn call<R: Threads + Wait + Sync + AllocGlobal, G: Gate + Sync>(
    rt: &R,
    asked: &str,
    script: &[u8],
    failing_read: u64,
    failing_write: u64,
    gate: &G,
) -> Result<(u8, Vec<u8>), Fail> {
    let words = words(rt.alloc(), asked)?;
    let mut source = source_of(rt.alloc(), script, failing_read)?;
    told_fresh(rt, &words, &mut source, failing_write, gate)
}

/// Makes such a call, and compares its status and its text.
pub fn check_call<R: Threads + Wait + Sync + AllocGlobal>(
    rt: &R,
    (asked, script): (&str, &[u8]),
    (failing_read, failing_write): (u64, u64),
    status: u8,
    text: &str,
) -> Result<(), Fail> {
    let (got, held) = call(rt, asked, script, failing_read, failing_write, &OpenGate)?;
    is_answer(text, (got, &held), (status, text.as_bytes()))
}

/// The status and the text of a call with these words after the program's name over a vault.
pub fn answer_by<R: Threads + Wait + Sync + AllocGlobal, D: Disk + Send + Drop, G: Gate + Sync>(
    rt: &R,
    vault: &mut Vault<D>,
    asked: &str,
    script: &[u8],
    gate: &G,
) -> Result<(u8, Vec<u8>), Fail>
    requires { IfTold (D.tells vault.old.save) (Only D.clock D.image_at vault.old.save) }
{
    let words = words(rt.alloc(), asked)?;
    let mut source = SureSource::new(script.to_vec(rt.alloc())?);
    told(rt, &words, &mut source, &[], vault, gate)
}

/// The same, one line after another.
pub fn answer<R: Threads + Wait + Sync + AllocGlobal, D: Disk + Send + Drop>(
    rt: &R,
    vault: &mut Vault<D>,
    asked: &str,
    script: &[u8],
) -> Result<(u8, Vec<u8>), Fail>
    requires { IfTold (D.tells vault.old.save) (Only D.clock D.image_at vault.old.save) }
{
    let turns = InTurn::of(rt.alloc(), script)?;
    answer_by(rt, vault, asked, script, &turns)
}

/// The same over what a vault holds, with nothing pending.
pub fn answer_anew<R: Threads + Wait + Sync + AllocGlobal>(
    rt: &R,
    vault: &mut Vault<MemDisk>,
    asked: &str,
    script: &[u8],
) -> Result<(u8, Vec<u8>), Fail> {
    let mut next = anew(rt.alloc(), vault, &[])?;
    let came = answer(rt, &mut next, asked, script)?;
    *vault = next;
    Ok(came)
}

/// Makes a call over what a vault holds, and compares its status and its text.
pub fn check_answer<R: Threads + Wait + Sync + AllocGlobal>(
    rt: &R,
    vault: &mut Vault<MemDisk>,
    asked: &str,
    script: &[u8],
    (status, text): (u8, &[u8]),
) -> Result<(), Fail> {
    let (got, told) = answer_anew(rt, vault, asked, script)?;
    is_answer(asked, (got, &told), (status, text))
}
