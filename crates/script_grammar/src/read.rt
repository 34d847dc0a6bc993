// Scripts from bytes.
ghost use Rattle.std.specs.Prelude.{◌≡◌, ◌==◌, ◌≤◌, length, IfOk, Err};
ghost use Rattle.std.specs.List.{slice_split};
ghost use Rattle.lists.specs.declared.memory.OrMemory.{OrMemory};
ghost use Rattle.script_grammar.specs.Script.{IsTextOf, Script as Meaning};
ghost use Rattle.script_grammar.specs.Reading.{FindsOrTells, Gives, no_parts, parts_of, steps};
ghost use Rattle.script_grammar.specs.Faults.{IsFirstFault, fault_of, first_fault, first_place};

use crate::cut::cut;
use crate::fault::{FaultKind, ScriptFault};
use crate::reader::{Reader, read_front};
use crate::script::Script;
use lists::OrMemory;
use std::alloc::Global;

/// In bytes.
const LONGEST_SOURCE: usize = 67_108_864;

/// Reads the lines one after another. Most are workers' lines, read as they are passed; any other is cut out and read
/// as what it may be.
fn read_lines(reader: &mut Reader, bytes: &[u8]) -> Result<(), OrMemory<ScriptFault>>
    requires fresh { reader.old ≡ no_parts }
    requires size { length bytes.now ≤ 67108864 }
    ensures { FindsOrTells result (steps no_parts (slice_split (λ b. b == 10) bytes.now))
        (first_fault 1 first_place (slice_split (λ b. b == 10) bytes.now)) reader.new }
{
    let (mut number, mut rest) = read_front(reader, bytes)?;
    while let Some((line, after)) = cut(b'\n', rest) {
        reader.step(number + 1, line)?;
        let (count, others) = read_front(reader, after)?;
        number += 1 + count;
        rest = others;
    }
    reader.step(number + 1, rest)
}

/// Reads a source of at most 64 MiB.
#[tactic(auto, unfolding(crate::specs::Reading::parts_of, crate::specs::Faults::fault_of))]
fn read_all(reader: &mut Reader, bytes: &[u8]) -> Result<(), OrMemory<ScriptFault>>
    requires { reader.old ≡ no_parts }
    ensures { FindsOrTells result (parts_of bytes.now) (fault_of bytes.now) reader.new }
{
    if bytes.len() > LONGEST_SOURCE {
        return Err(OrMemory::Fault(ScriptFault {
            line: 0,
            kind: FaultKind::TooLong,
        }));
    }
    read_lines(reader, bytes)
}

/// The script that the bytes are a text of, or else the first faulty line, counted from 1, and the first kind of fault
/// that it has; line 0 stands for a source of more than 64 MiB.
///
/// What is read is kept in a few lists, however many lines and rounds there are.
pub fn read_script(alloc: Global, bytes: &[u8]) -> Result<Script, OrMemory<ScriptFault>>
    ensures text { IfOk result (λ script. IsTextOf bytes.now script) }
    ensures only { (script : Meaning) → IsTextOf bytes.now script → Gives script result }
    ensures fault { (fault : ScriptFault) → result ≡ Err (OrMemory.Fault fault)
        → IsFirstFault bytes.now fault }
{
    let mut reader = Reader::new(alloc);
    match read_all(&mut reader, bytes) {
        Ok(()) => match reader.into_script() {
            Ok(script) => Ok(script),
            Err(_) => Err(OrMemory::Memory),
        },
        Err(fault) => Err(fault),
    }
}
