// The script of a source.
ghost use Rattle.std.specs.Prelude.{◌≡◌, ◌⊎◌, ◌<◌, ◌^◌, ℕ, ◌≤◌, length, IfOk, IfErr, MatchResult};
ghost use Rattle.std.specs.Io.KnownBytes.{Consumes, IsAtEnd};
ghost use Rattle.script_grammar.specs.Script.{IsScript};
ghost use Rattle.tx_script.specs.Draws.{lines_in};
ghost use Rattle.program_calls.specs.OnTheWay.{EndsWithCause, IsUnread, ReadsText, ReadsWithCause};
ghost use Rattle.program_calls.specs.Ending.{TakesAtMost, most_read};

use crate::ending::Ending;
use outside::{Failed, Source};
use serial_model::OrMemory;
use std::alloc::Global;
use tx_script::{Script, read_script};

/// The longest script, and one byte more.
const MOST_READ: usize = 67_108_865;

/// Bytes that are read at once.
const CHUNK: usize = 65_536;

/// The source's bytes up to its end, or the first ones up to one more than the longest script.
pub(crate) fn read_bytes<S: Source>(
    alloc: Global,
    source: &mut S,
) -> Result<Vec<u8>, OrMemory<Failed>>
    ensures bytes { IfOk result
        (λ bytes. Consumes (S.left source.old) (S.left source.new) bytes.items) }
    ensures most { IfOk result (λ bytes. length bytes.items ≤ most_read) }
    ensures all { IfOk result
        (λ bytes. IsAtEnd (S.left source.new) ⊎ (length bytes.items ≡ most_read)) }
    ensures taken { TakesAtMost (S.left source.old) (S.left source.new) }
    ensures cause { ReadsWithCause (S.faults source.old) (S.faults source.new) result }
{
    let mut bytes = Vec::new(alloc);
    let mut chunk = [0; CHUNK];
    while bytes.len() < MOST_READ {
        let room = CHUNK.min(MOST_READ - bytes.len());
        let Ok(count) = source.read(&mut chunk[..room]) else {
            return Err(OrMemory::Fault(Failed));
        };
        if count == 0 {
            break;
        }
        bytes.extend_from_slice(&chunk[..count])?;
    }
    Ok(bytes)
}

/// The script of a source, read out before anything is run; or how the call ends without one.
pub(crate) fn read_text<S: Source>(alloc: Global, source: &mut S) -> Result<Script, Ending>
    ensures read { ReadsText (S.left source.old) (S.left source.new) result }
    ensures rules { IfOk result IsScript }
    ensures few { IfOk result (λ script. lines_in script.rounds < 2 ^ 64) }
    ensures unread { IfErr result IsUnread }
    ensures cause { MatchResult result (λ _. S.faults source.new ≡ S.faults source.old)
        (EndsWithCause (S.faults source.old) (S.faults source.new)) }
    ensures taken { TakesAtMost (S.left source.old) (S.left source.new) }
{
    let bytes = match read_bytes(alloc, source) {
        Ok(bytes) => bytes,
        Err(OrMemory::Fault(_)) => return Err(Ending::ReadFault),
        Err(OrMemory::Memory) => return Err(Ending::NoMemory),
    };
    match read_script(alloc, &bytes) {
        Ok(script) => Ok(script),
        Err(OrMemory::Fault(fault)) => Err(Ending::NoScript(fault)),
        Err(OrMemory::Memory) => Err(Ending::NoMemory),
    }
}
