use std::process::Abort;
use wire_form::{NoSavepoint, Savepoint, read_savepoint, write_savepoint};

// The second store: saved epoch 1, catalogue 1 of 1 page, 40 bytes of the first log file.
fn second() -> Savepoint {
    let mut lengths = [0; 16];
    lengths[0] = 40;
    Savepoint {
        sequence: 2,
        epoch: 1,
        catalogue: 1,
        count: 1,
        lengths,
    }
}

// What it is in bytes, over others.
fn bytes_over(byte: u8) -> [u8; 512] {
    let mut bytes = [byte; 512];
    let point = second();
    if point.is_valid() {
        write_savepoint(&point, &mut bytes);
    }
    bytes
}

fn byte_of_second(at: usize) -> u8 {
    match at {
        0 => 0xA5,
        8 => b'F',
        9 => b'O',
        10 => b'E',
        11 => b'D',
        12 => b'U',
        13 => b'S',
        15 | 31 | 39 | 47 => 1,
        23 => 2,
        55 => 40,
        _ => 0,
    }
}

/// Each byte of the second store, as the formats have it.
pub fn is_second(rt: &impl Abort, place: &[u8]) {
    for (at, byte) in place.iter().enumerate() {
        assert_eq!(rt; *byte, byte_of_second(at));
    }
}

fn read(place: u8, bytes: &[u8; 512]) -> Result<Option<Savepoint>, NoSavepoint> {
    read_savepoint(place, bytes)
}

// What is read with this valid byte.
fn read_closed(place: u8, gate: u8) -> Result<Option<Savepoint>, NoSavepoint> {
    let mut bytes = bytes_over(9);
    bytes[0] = gate;
    read(place, &bytes)
}

#[test]
fn worked_savepoint(rt: HostRuntime) {
    let point = second();
    assert!(rt; point.is_valid());
    let bytes = bytes_over(9);
    is_second(&rt, &bytes);
    assert!(rt; read(1, &bytes) == Ok(Some(point)));
    assert_eq!(rt;
        read(0, &bytes),
        Err(NoSavepoint),
        "an even sequence in place 0"
    );
    assert!(rt; read(2, &bytes) == Err(NoSavepoint), "no such place");
    for gate in [0, 0xA4, 0xFF] {
        assert!(rt; read_closed(1, gate) == Ok(None));
        assert!(rt; read_closed(2, gate) == Ok(None));
    }
}

// Each rule broken once: a byte, and another one where one alone would break two rules.
const BROKEN: [(usize, u8, usize, u8, &str); 13] = [
    (7, 1, 0, 0xA5, "a byte behind the valid byte"),
    (8, 0, 0, 0xA5, "another name"),
    (15, 2, 0, 0xA5, "another version"),
    (16, 0x80, 0, 0xA5, "a sequence from 2^63 on"),
    (23, 0, 0, 0xA5, "sequence 0"),
    (23, 3, 0, 0xA5, "an odd sequence in place 1"),
    (29, 0x10, 0, 0xA5, "an epoch that isn't saved"),
    (39, 0, 47, 0, "no page"),
    (39, 2, 0, 0xA5, "a catalogue that isn't the last page"),
    (37, 2, 45, 2, "too many pages"),
    (50, 1, 0, 0xA5, "a length of 2^40"),
    (183, 1, 0, 0xA5, "a word behind the lengths"),
    (511, 1, 0, 0xA5, "the last byte"),
];

fn read_with(
    at: usize,
    byte: u8,
    other: usize,
    also: u8,
) -> Result<Option<Savepoint>, NoSavepoint> {
    let mut bytes = bytes_over(0);
    bytes[at % 512] = byte;
    bytes[other % 512] = also;
    read(1, &bytes)
}

#[test]
fn no_savepoints(rt: HostRuntime) {
    assert!(rt; second().is_valid());
    for (at, byte, other, also, _) in &BROKEN {
        let found = read_with(*at, *byte, *other, *also);
        assert_eq!(rt; found, Err(NoSavepoint));
    }
}
