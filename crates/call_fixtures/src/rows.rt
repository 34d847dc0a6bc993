// Rows of tables: the words after the program's name, the script, the status and the text, with `#` between them and
// bars for newlines.
use crate::calling::{answer_anew, is_answer};
use log_writer::Vault;
use outside::MemDisk;
use std::alloc::{AllocError, Global};
use std::sync::Wait;
use std::test::Fail;
use std::thread::Threads;

/// The part of a row of this index; nothing where it has fewer.
pub fn part(row: &str, index: usize) -> &str {
    row.split('#').nth(index).unwrap_or("").trim()
}

/// The bytes of a text in which bars stand for newlines.
pub fn lines(alloc: Global, text: &str) -> Result<Vec<u8>, AllocError> {
    let mut bytes = text.as_bytes().to_vec(alloc)?;
    for byte in bytes.iter_mut() {
        if *byte == b'|' {
            *byte = b'\n';
        }
    }
    Ok(bytes)
}

/// Compares a status and a text with those of a row, with bars for newlines.
pub fn check_told<R: AllocGlobal>(
    rt: &R,
    row: &str,
    came: (u8, &[u8]),
    wanted: (&str, &str),
) -> Result<(), Fail> {
    let text = lines(rt.alloc(), wanted.1)?;
    is_answer(row, came, (wanted.0.parse::<u8>()?, &text))
}

/// Makes the call of a row over what a vault holds, and compares its status and its text.
pub fn check_row<R: Threads + Wait + Sync + AllocGlobal>(
    rt: &R,
    vault: &mut Vault<MemDisk>,
    row: &str,
) -> Result<(), Fail> {
    let script = lines(rt.alloc(), part(row, 1))?;
    let (got, told) = answer_anew(rt, vault, part(row, 0), &script)?;
    check_told(rt, row, (got, &told), (part(row, 2), part(row, 3)))
}

/// Makes the calls of some rows one after another over a vault.
pub fn check_rows<R: Threads + Wait + Sync + AllocGlobal>(
    rt: &R,
    vault: &mut Vault<MemDisk>,
    rows: &str,
) -> Result<(), Fail> {
    for row in rows.lines() {
        check_row(rt, vault, row)?;
    }
    Ok(())
}
