// The faulty line of a script, as it is told to a person.
use crate::shown::shown;
use lists::OrMemory;
use std::alloc::{AllocError, Global};
use tx_script::{FaultKind, ScriptFault, read_script};

/// The first faulty line of a script, and what its kind of fault is; all kinds, where the line isn't among the bytes
/// that are still known; that the database has other storages, where all bytes are known and are a script.
pub(crate) fn fault_lines(
    alloc: Global,
    front: &[u8],
    is_whole: bool,
) -> Result<String, AllocError> {
    match first_fault(alloc, front)? {
        Some(fault) => line_told(alloc, front, fault),
        None if is_whole => String::from_str(alloc, SHAPE),
        None => String::from_str(alloc, BEYOND),
    }
}

// The first faulty line, and its kind of fault; none where the bytes are a script.
fn first_fault(alloc: Global, front: &[u8]) -> Result<Option<ScriptFault>, AllocError> {
    match read_script(alloc, front) {
        Ok(_) => Ok(None),
        Err(OrMemory::Fault(fault)) => Ok(Some(fault)),
        Err(OrMemory::Memory) => Err(AllocError),
    }
}

fn line_told(alloc: Global, front: &[u8], fault: ScriptFault) -> Result<String, AllocError> {
    let line = line_at(front, fault.line);
    let text = shown(alloc, line)?;
    let number = fault.line;
    let meaning = meaning(fault.kind);
    let returns = returns_told(line);
    format!(in alloc; "foedus: line {number} is: {text}\nfoedus: {meaning}\n{returns}")
}

// What is told besides of a line that ends with a carriage return.
fn returns_told(line: &[u8]) -> &'static str {
    if line.last() == Some(&b'\r') {
        RETURNS
    } else {
        ""
    }
}

// The line of that number, from 1 on.
fn line_at(front: &[u8], number: u32) -> &[u8] {
    let before = (number as usize).saturating_sub(1);
    match front.split(|byte| *byte == b'\n').nth(before) {
        Some(line) => line,
        None => &[],
    }
}

const RETURNS: &str = "\
foedus: the line ends with a carriage return (\\r) before its newline: take them away, for instance by tr -d '\\r'
";

const SHAPE: &str = "\
foedus: the database has other storages (kept) than the script declares (declared): ids with the size of an array, or t
foedus: for a tree
";

const BEYOND: &str = "\
foedus: what is faulty lies beyond the first mebibyte of the script, of which lines are shown here. The kinds of faults:
  TooLong   the line has more than 1024 bytes; line 0: the script has more than 64 MiB
  Word      it is no declaration, no worker's line, no line of the maintenance thread and no join
  Number    a word isn't a number from 0 to 18446744073709551615, in digits without a leading zero
  TooMany   more than 16 operations in it, 16 storages, or 65536 lines in a round
  Declared  a declaration after other lines, an id that is declared twice, or a storage that isn't declared
  Kind      d or s on an array
  Range     a worker above 7, an id above 255, an array of 0 or more than 131072 values, or a key past its end
  shape     the database has other storages (kept) than the script declares (declared)
";

// What a kind of fault is.
fn meaning(kind: FaultKind) -> &'static str {
    match kind {
        FaultKind::TooLong => "TooLong: a line has at most 1024 bytes",
        FaultKind::Word => {
            "Word: a line is array ID SIZE, tree ID, a worker's as 0 w 1 2 7; r 1 2, k epoch, k save, k glean, \
             k drop or join, with one space between words"
        }
        FaultKind::Number => {
            "Number: numbers are 0 to 18446744073709551615, in digits without a leading zero"
        }
        FaultKind::TooMany => {
            "TooMany: a line has at most 16 operations, a script 16 storages, and a round 65536 lines"
        }
        FaultKind::Declared => {
            "Declared: storages are declared before all other lines, each id once, and each that is used"
        }
        FaultKind::Kind => "Kind: d and s are for trees, and the storage is an array",
        FaultKind::Range => {
            "Range: workers are 0 to 7, ids 0 to 255, sizes of arrays 1 to 131072, their keys less than the size"
        }
    }
}
