// Scripts and texts that are none, worked by hand from the grammar.
use super::checks::is_so;
use lists::OrMemory;
use script_grammar::{
    FaultKind, KeeperLine, Line, LineOps, Round, Script, ScriptFault, read_script,
};
use serial_model::{Decl, Key, Op};
use std::alloc::{AllocError, Global};
use std::test::Fail;

// Rows with a bar between two: the number of the faulty line as a character from `0` on, a space, and the text.

/// No line has such words.
const WORD: &[u8] = b"\
1 array|\
1 array |\
1 array 1|\
1 array 1 2 3|\
1 Array 1 4|\
1 array\t1 4|\
1 \x20array 1 4|\
1 array 1 4 |\
1 array  1 4|\
1 tree|\
1 tree 2 4|\
1 tree  2|\
1 Tree 2|\
1 trees 2|\
1 k|\
1 k drops|\
1 k gleans|\
1 k save |\
1 k  epoch|\
1 k epoch 1|\
1 K save|\
1 keeper save|\
1 joi|\
1 join |\
1 joins|\
1 join\r|\
1 \x00|\
1 \xff|\
3 \n\nw|\
2 array 1 4\n0|\
2 array 1 4\n0 |\
2 array 1 4\n0 r 1|\
2 array 1 4\n0 w 1 0|\
2 array 1 4\n0 r 1 0; |\
2 array 1 4\n0 r 1 0 r 1 0|\
2 array 1 4\n0 r 1  0|\
2 array 1 4\n0  r 1 0|\
2 array 1 4\n 0 r 1 0|\
2 array 1 4\n0 r 1 0 |\
2 array 1 4\n-1 r 1 0|\
2 tree 1\n0 d 1|\
2 tree 1\n0 d 1 0 0|\
2 tree 1\n0 s 1 0|\
2 tree 1\n0 s 1 0 1 2|\
2 tree 1\n0 D 1 0|\
2 tree 1\n0 ds 1 0 1|\
2 array 1 4\n0 R 1 0|\
2 array 1 4\n0 r 1 0;r 1 0|\
2 array 1 4\n0 r 1 0;  r 1 0|\
2 array 1 4\n0 a 1 0|\
2 array 1 4\n0 t 1 0 1 1|\
2 array 1 4\n8 r x|\
4 array 1 4\njoin\njoin\n0 r";

/// Something else stands for a number.
const NUMBER: &[u8] = b"\
1 array 1 4\r|\
1 array  4|\
1 array x 4|\
1 array 1 +4|\
1 array 01 4|\
1 array 1 18446744073709551616|\
1 array 300 x|\
1 tree |\
1 tree x|\
1 tree 02|\
2 tree 1\n0 d 1 x|\
2 tree 1\n0 d 1 18446744073709551616|\
2 tree 1\n0 s 1 x 0|\
2 tree 1\n0 s 1 0 x|\
2 tree 1\n0 s 1 0 18446744073709551616|\
2 array 1 4\n0 d 1 0; s 1 0 x|\
2 array 1 4\n0 r 1 0;|\
2 array 1 4\n00 r 1 0|\
2 array 1 4\n0 r 1 00|\
2 array 1 4\n0 w 1 0 +5|\
2 array 1 4\n0 w 1 0 -5|\
2 array 1 4\n0 r 1 \x00|\
2 array 1 4\n0 w 1 0 \xff|\
2 array 1 4\n0 w 1 0 18446744073709551616|\
2 array 1 4\n0 w 1 0 100000000000000000000|\
2 array 1 4\n0 r 1 0\r|\
2 array 1 4\n0x r 1 0|\
2 array 1 4\n0; r 1 0|\
2 array 1 4\n0 w 1  5|\
2 array 1 4\n9 r 2 9; a 1 0 x|\
3 array 1 4\n0 r 1 0\n0 t 1 0 x";

/// One too many.
const TOO_MANY: &[u8] = b"\
2 array 1 4\n0 r 1 0; r 1 0; r 1 0; r 1 0; r 1 0; r 1 0; r 1 0; r 1 0; r 1 0; r 1 0; r 1 0; r 1 0; r 1 0; r 1 0; r 1 0; r 1 0; r 1 0|\
A array 0 1\narray 1 1\narray 2 1\narray 3 1\narray 4 1\narray 5 1\narray 6 1\narray 7 1\narray 8 1\narray 9 1\narray 10 1\narray 11 1\narray 12 1\narray 13 1\narray 14 1\narray 15 1\narray 16 1\n|\
A tree 0\ntree 1\ntree 2\ntree 3\ntree 4\ntree 5\ntree 6\ntree 7\ntree 8\ntree 9\ntree 10\ntree 11\ntree 12\ntree 13\ntree 14\narray 15 1\ntree 0|\
3 array 1 4\njoin\n8 r 2 9; r 2 9; r 2 9; r 2 9; r 2 9; r 2 9; r 2 9; r 2 9; r 2 9; r 2 9; r 2 9; r 2 9; r 2 9; r 2 9; r 2 9; r 2 9; r 2 9";

/// Declared late, again or not at all.
const DECLARED: &[u8] = b"\
2 array 1 4\narray 1 4|\
2 array 1 4\narray 1 0|\
3 array 1 4\n0 r 1 0\narray 2 4|\
2 join\narray 1 4|\
3 array 1 4\n\n0 r 2 0|\
2 array 1 4\n0 r 256 0|\
2 array 1 4\n0 r 18446744073709551615 0|\
2 array 1 4\n8 r 1 0; w 2 9 1|\
2 tree 1\ntree 1|\
2 tree 1\narray 1 4|\
2 array 1 4\ntree 1|\
2 join\ntree 1|\
2 k save\ntree 1|\
2 k epoch\narray 1 4|\
2 tree 1\n0 d 2 0|\
2 tree 1\n0 s 256 0 1|\
2 array 1 4\n0 d 1 0; r 2 0|\
1 0 r 1 0";

/// Of trees alone.
const KIND: &[u8] = b"\
2 array 1 4\n0 d 1 0|\
2 array 1 4\n0 s 1 0 1|\
2 array 1 4\n0 d 1 4|\
2 array 1 4\n8 s 1 0 1|\
3 tree 2\narray 1 4\n0 d 2 0; d 1 0; r 1 9";

/// Out of range.
const RANGE: &[u8] = b"\
1 array 256 4|\
1 array 1 0|\
1 array 1 131073|\
1 array 18446744073709551615 1|\
1 tree 256|\
1 tree 18446744073709551615|\
2 tree 1\n8 d 1 0|\
3 tree 2\narray 1 4\n0 d 2 9; r 1 4|\
2 array 1 4\n0 r 1 4|\
2 array 1 4\n8 r 1 0|\
2 array 1 4\n0 t 1 4 1|\
2 array 1 4\n0 a 1 0 1; w 1 18446744073709551615 1|\
5 \narray 1 4\n\njoin\n8 r 1 0";

/// How many storages, rounds and lines a text has, where it is read.
fn counts(alloc: Global, text: &[u8]) -> Option<(usize, usize, usize)> {
    let script = read_script(alloc, text).ok()?;
    let mut lines: usize = 0;
    for index in 0..script.rounds() {
        lines = lines.wrapping_add(script.round(index).len());
    }
    Some((script.decls().len(), script.rounds(), lines))
}

fn fault(alloc: Global, text: &[u8]) -> Option<(u32, FaultKind)> {
    match read_script(alloc, text) {
        Err(OrMemory::Fault(ScriptFault { line, kind })) => Some((line, kind)),
        _ => None,
    }
}

/// More bytes than the longest line has. With as many behind it, a worker's line is read in one pass.
const EMPTY_LINES: [u8; 1030] = [b'\n'; 1030];

/// The same text with empty lines behind it, which count for nothing.
fn with_empty_lines(alloc: Global, text: &[u8]) -> Result<Vec<u8>, Fail> {
    let mut long = text.to_vec(alloc)?;
    long.extend_from_slice(&EMPTY_LINES)?;
    Ok(long)
}

/// The text has this fault, at the end of a source and far before it.
fn is_told(alloc: Global, text: &[u8], want: (u32, FaultKind)) -> Result<(), Fail> {
    let long = with_empty_lines(alloc, text)?;
    is_so("a fault", fault(alloc, text) == Some(want))?;
    is_so(
        "a fault far before the end",
        fault(alloc, &long) == Some(want),
    )
}

/// Each row has this kind of fault, in its line.
fn tells(alloc: Global, kind: FaultKind, rows: &[u8]) -> Result<(), Fail> {
    for row in rows.split(|byte| *byte == b'|') {
        match row {
            [line, b' ', text @ ..] => {
                is_told(alloc, text, (u32::from(line.wrapping_sub(b'0')), kind))?;
            }
            _ => return Err(Fail::from("no row")),
        }
    }
    Ok(())
}

#[test]
fn tells_words(rt: HostRuntime) -> Result<(), Fail> {
    tells(rt.alloc(), FaultKind::Word, WORD)
}

#[test]
fn tells_numbers(rt: HostRuntime) -> Result<(), Fail> {
    tells(rt.alloc(), FaultKind::Number, NUMBER)
}

#[test]
fn tells_the_other_kinds(rt: HostRuntime) -> Result<(), Fail> {
    tells(rt.alloc(), FaultKind::TooMany, TOO_MANY)?;
    tells(rt.alloc(), FaultKind::Declared, DECLARED)?;
    tells(rt.alloc(), FaultKind::Kind, KIND)?;
    tells(rt.alloc(), FaultKind::Range, RANGE)
}

/// The first line of the round, where it is a worker's.
fn worker_line<'b>(round: &Round<'_>, room: &'b mut LineOps) -> Option<(u8, &'b [Op])> {
    if round.len() == 0 {
        return None;
    }
    match round.line(0, room) {
        Line::Worker { worker, ops } => Some((worker, ops)),
        Line::Keeper(_) => None,
    }
}

/// Two rounds, of which the first one has two lines of the maintenance thread.
const WORKED: &[u8] = b"\
array 1 4\ntree 3\n0 w 1 2 7; r 1 2\nk save\nk epoch\njoin\n0 a 1 0 5; t 1 0 6; d 3 9; s 3 4 8\n";

const DECLS: [Decl; 2] = [Decl::Array { id: 1, size: 4 }, Decl::Tree { id: 3 }];

const WRITTEN: Key = Key { storage: 1, key: 2 };

const ADDED: Key = Key { storage: 1, key: 0 };

const FIRST_OPS: [Op; 2] = [Op::Write(WRITTEN, 7), Op::Read(WRITTEN)];

const SECOND_OPS: [Op; 4] = [
    Op::Add(ADDED, 5),
    Op::Take(ADDED, 6),
    Op::Remove(Key { storage: 3, key: 9 }),
    Op::Scan {
        storage: 3,
        low: 4,
        high: 8,
    },
];

/// The round's first line is this worker's, and does this.
fn does(round: &Round<'_>, worker: u8, ops: &[Op]) -> bool {
    let mut room = LineOps::new();
    worker_line(round, &mut room) == Some((worker, ops))
}

fn is_first_round(round: &Round<'_>) -> bool {
    if round.len() != 3 {
        return false;
    }
    (round.worker(0) == Some(0))
        & round.worker(1).is_none()
        & (round.keeper(1) == Some(KeeperLine::Save))
        & (round.keeper(2) == Some(KeeperLine::Epoch))
        & does(round, 0, &FIRST_OPS)
}

fn is_second_round(round: &Round<'_>) -> bool {
    (round.len() == 1) & does(round, 0, &SECOND_OPS)
}

fn has_worked_rounds(script: &Script) -> bool {
    if script.rounds() != 2 {
        return false;
    }
    is_first_round(&script.round(0)) & is_second_round(&script.round(1))
}

#[test]
fn reads_the_worked_rows(rt: HostRuntime) -> Result<(), Fail> {
    let script = read_script(rt.alloc(), WORKED)
        .ok()
        .ok_or("it is a script")?;
    let so = (script.decls() == DECLS.as_slice()) & has_worked_rounds(&script);
    is_so("the worked rows", so)
}

/// One operation a row, of a key and a value in storage 7 or 123. The last number has more digits than are read in one
/// pass.
const WRITES: [(&str, u8, u64, u64); 6] = [
    ("tree 7\ntree 123\n4 w 7 0 9", 7, 0, 9),
    ("tree 7\ntree 123\n4 w 123 12 345", 123, 12, 345),
    ("tree 7\ntree 123\n4 w 7 6789 12345", 7, 6_789, 12_345),
    (
        "tree 7\ntree 123\n4 w 123 1000000000 99",
        123,
        1_000_000_000,
        99,
    ),
    (
        "tree 7\ntree 123\n4 w 7 1234567890123456789 9999999999999999999",
        7,
        1_234_567_890_123_456_789,
        9_999_999_999_999_999_999,
    ),
    (
        "tree 7\ntree 123\n4 w 123 1 18446744073709551615",
        123,
        1,
        18_446_744_073_709_551_615,
    ),
];

/// The first line of a text is worker 4's, and does this alone.
fn reads(alloc: Global, text: &[u8], op: Op) -> bool {
    let Ok(script) = read_script(alloc, text) else {
        return false;
    };
    if script.rounds() == 0 {
        return false;
    }
    does(&script.round(0), 4, [op].as_slice())
}

#[test]
fn reads_numbers_of_each_length(rt: HostRuntime) -> Result<(), Fail> {
    for (text, storage, key, value) in &WRITES {
        let (storage, key) = (*storage, *key);
        let long = with_empty_lines(rt.alloc(), text.as_bytes())?;
        is_so(
            text,
            reads(rt.alloc(), &long, Op::Write(Key { storage, key }, *value)),
        )?;
    }
    Ok(())
}

/// A line of sixteen operations.
const SIXTEEN: &str = "array 1 1\n7 \
r 1 0; r 1 0; r 1 0; r 1 0; r 1 0; r 1 0; r 1 0; r 1 0; r 1 0; r 1 0; r 1 0; r 1 0; r 1 0; r 1 0; r 1 0; r 1 0";

/// Sixteen storages.
const STORAGES: &str = "\
array 0 1\narray 1 1\narray 2 1\narray 3 1\narray 4 1\narray 5 1\narray 6 1\narray 7 1\n\
array 8 1\narray 9 1\narray 10 1\narray 11 1\narray 12 1\narray 13 1\narray 14 1\narray 15 1\n";

/// Texts with how many storages, rounds and lines they have.
const ACCEPTED: [(&str, usize, usize, usize); 18] = [
    ("", 0, 1, 0),
    ("\n\n", 0, 1, 0),
    ("array 1 4", 1, 1, 0),
    ("\narray 255 131072\n\n3 r 255 131071", 1, 1, 1),
    (
        "array 0 1\narray 9 2\n0 r 0 0\n0 r 9 1\n1 w 9 0 0\n",
        2,
        1,
        3,
    ),
    ("array 1 4\n0 w 1 0 18446744073709551615\n", 1, 1, 1),
    ("array 1 4\n7 r 1 3\n", 1, 1, 1),
    (SIXTEEN, 1, 1, 1),
    ("tree 0\ntree 255", 2, 1, 0),
    (
        "tree 0\narray 1 1\n0 d 0 18446744073709551615; s 0 18446744073709551615 0; a 0 7 1; r 1 0",
        2,
        1,
        1,
    ),
    (STORAGES, 16, 1, 0),
    ("k epoch\nk save", 0, 1, 2),
    ("k drop\nk glean\nk drop", 0, 1, 3),
    ("array 1 4\nk save\n0 r 1 0\njoin\nk epoch\n", 1, 2, 3),
    ("join", 0, 1, 0),
    ("join\njoin\n\n", 0, 2, 0),
    ("array 1 4\n0 a 1 0 1\njoin\n\n0 t 1 0 1", 1, 2, 2),
    ("array 1 4\njoin\njoin\n0 r 1 0\njoin\n", 1, 3, 1),
];

/// The text has so many storages, rounds and lines.
fn has(alloc: Global, text: &[u8], want: (usize, usize, usize)) -> Result<(), Fail> {
    is_so(
        "storages, rounds and lines",
        counts(alloc, text) == Some(want),
    )
}

#[test]
fn accepts(rt: HostRuntime) -> Result<(), Fail> {
    for (text, storages, rounds, lines) in &ACCEPTED {
        let want = (*storages, *rounds, *lines);
        has(rt.alloc(), text.as_bytes(), want)?;
        let long = with_empty_lines(rt.alloc(), text.as_bytes())?;
        has(rt.alloc(), &long, want)?;
    }
    Ok(())
}

/// The first bytes, and the others behind them.
fn both(alloc: Global, first: &[u8], others: &[u8]) -> Result<Vec<u8>, AllocError> {
    let mut text = first.to_vec(alloc)?;
    text.extend_from_slice(others)?;
    Ok(text)
}

/// The text with others around it has this fault.
fn is_fault(
    alloc: Global,
    (before, text, behind): (&[u8], &[u8], &[u8]),
    want: (u32, FaultKind),
) -> Result<(), Fail> {
    let begun = both(alloc, before, text)?;
    let whole = both(alloc, &begun, behind)?;
    is_so("a fault at a bound", fault(alloc, &whole) == Some(want))
}

#[test]
fn bounds_a_line(rt: HostRuntime) -> Result<(), Fail> {
    let alloc = rt.alloc();
    // One byte more than the longest line has.
    let line = vec![in alloc; b'0'; 1025]?;
    let long = (1, FaultKind::TooLong);
    is_fault(alloc, (b"", &line[1..], b""), (1, FaultKind::Word))?;
    is_fault(alloc, (b"", &line, b""), long)?;
    is_fault(alloc, (b"", &line, b"\n?\n"), long)?;
    is_fault(
        alloc,
        (b"join\n\n", &line, b"\n?\n"),
        (3, FaultKind::TooLong),
    )
}

/// A round of as many lines as one has at most.
fn full_round(alloc: Global) -> Result<Vec<u8>, AllocError> {
    let mut text = b"array 1 1\n".to_vec(alloc)?;
    for _ in 0..65_536 {
        text.extend_from_slice(b"0 r 1 0\n")?;
    }
    Ok(text)
}

#[test]
fn bounds_a_round(rt: HostRuntime) -> Result<(), Fail> {
    let alloc = rt.alloc();
    let text = full_round(alloc)?;
    has(alloc, &text, (1, 1, 65_536))?;
    let joined = both(alloc, &text, b"join\n0 r 1 0\n")?;
    has(alloc, &joined, (1, 2, 65_537))?;
    let many = (65_538, FaultKind::TooMany);
    is_fault(alloc, (&text, b"k save\n", b""), many)?;
    is_fault(alloc, (&text, b"0 r 1 0\n", b""), many)
}

#[test]
fn bounds_a_source(rt: HostRuntime) -> Result<(), Fail> {
    let text = vec![in rt.alloc(); b'?'; 67_108_865]?;
    is_so(
        "one byte too many",
        fault(rt.alloc(), &text) == Some((0, FaultKind::TooLong)),
    )?;
    is_so(
        "one long line",
        fault(rt.alloc(), &text[1..]) == Some((1, FaultKind::TooLong)),
    )
}
