use serial_model::{Change, Changes, Commit, Key, Number};
use wire_form::{NoLine, is_loggable, read_log_line, write_log_line};

// Number 1:1; a change; 7 put at key 2 of storage 1.
const LINE: [u8; 40] = [
    0, 0, 1, 0, 0, 0, 0, 1, 0, 0, 0, 0, 0, 0, 0, 1, 0, 0, 0, 0, 0, 0, 1, 1, 0, 0, 0, 0, 0, 0, 0, 2,
    0, 0, 0, 0, 0, 0, 0, 7,
];

// The same with a second change, which takes key 3 out of storage 1.
const TWO: [u8; 64] = [
    0, 0, 1, 0, 0, 0, 0, 1, 0, 0, 0, 0, 0, 0, 0, 2, 0, 0, 0, 0, 0, 0, 1, 1, 0, 0, 0, 0, 0, 0, 0, 2,
    0, 0, 0, 0, 0, 0, 0, 7, 0, 0, 0, 0, 0, 0, 0, 1, 0, 0, 0, 0, 0, 0, 0, 3, 0, 0, 0, 0, 0, 0, 0, 0,
];

const PUT: Change = Change {
    key: Key { storage: 1, key: 2 },
    value: Some(7),
};

fn commit() -> Commit {
    let mut changes = Changes::new();
    changes.push(PUT);
    Commit {
        number: Number { epoch: 1, draw: 1 },
        changes,
    }
}

// The line in front of bytes of 9, and its length.
fn written() -> ([u8; 48], usize) {
    let mut bytes = [9; 48];
    let line = commit();
    let mut length = 0;
    if is_loggable(&line) && line.changes.as_slice().len() == 1 {
        length = write_log_line(&line, &mut bytes);
    }
    (bytes, length)
}

fn read(bytes: &[u8]) -> Result<(Commit, usize), NoLine> {
    read_log_line(bytes)
}

fn is_line(bytes: &[u8]) -> bool {
    read(bytes).is_ok()
}

#[test]
fn worked_line(rt: HostRuntime) {
    let (bytes, length) = written();
    assert!(rt; length == 40);
    assert!(rt; bytes.starts_with(&LINE));
    assert!(rt; bytes.ends_with(&[9; 8]), "the rest stays");
    for len in 0..40 {
        assert!(rt; !is_line(&bytes[..len]));
    }
    let (found, len) = read(&bytes).expect(&rt, "a line and more");
    assert!(rt; len == 40);
    assert!(rt; found.number == Number { epoch: 1, draw: 1 });
    assert!(rt; found.changes.as_slice() == [PUT].as_slice());
}

// Each rule broken once, by one byte of the line.
const BROKEN: [(usize, u8, &str); 11] = [
    (0, 0x10, "a bit above the number"),
    (2, 0, "epoch 0"),
    (7, 0, "draw 0"),
    (15, 0, "no change"),
    (15, 17, "17 changes"),
    (15, 3, "more changes than bytes"),
    (22, 2, "no such head"),
    (47, 0, "a storage that falls"),
    (55, 2, "equal keys"),
    (55, 1, "a key that falls"),
    (63, 1, "a removal with a value"),
];

fn is_line_with(at: usize, byte: u8) -> bool {
    let mut bytes = TWO;
    bytes[at % 64] = byte;
    is_line(&bytes)
}

#[test]
fn no_lines(rt: HostRuntime) {
    let (found, len) = read(&TWO).expect(&rt, "a line");
    assert_eq!(rt; len, 64);
    assert_eq!(rt; found.changes.as_slice().len(), 2);
    for (at, byte, _) in &BROKEN {
        assert!(rt; !is_line_with(*at, *byte));
    }
}
