// Full sets, and writes in order.
use super::checks::is_so;
use serial_model::Key;
use std::test::Fail;
use tx_sets::{HeaderSet, ReadEntry, ReadSet, Seen, Sets, Write, WriteSet};

// How many of the keys from `low` on, below `high`, that are not in the set are given back.
fn refused(reads: &mut ReadSet, low: u32, high: u32) -> u32 {
    let mut count = 0u32;
    for at in low..high {
        let key = Key {
            storage: 1,
            key: u64::from(at),
        };
        if reads.contains(key) {
            continue;
        }
        let pushed = reads.push(ReadEntry {
            key,
            at,
            word: 7,
            value: 0,
        });
        count = count.saturating_add(u32::from(pushed.is_err()));
    }
    count
}

// The word that was read of this key's record.
fn word_of(reads: &ReadSet, key: u64) -> Option<u64> {
    reads.find(Key { storage: 1, key }).map(|entry| entry.word)
}

#[test]
fn a_read_set_has_room_for_256_records(_rt: HostRuntime) -> Result<(), Fail> {
    let mut sets = Sets::new();
    is_so("12 are back", refused(&mut sets.reads, 32, 300) == 12)?;
    let (last, behind) = (word_of(&sets.reads, 287), word_of(&sets.reads, 288));
    is_so("the last", (last == Some(7)) & behind.is_none())?;
    sets.clear();
    is_so("room again", refused(&mut sets.reads, 0, 256) == 0)
}

// Writes the key with its number as the value, unless it is written already.
fn write(writes: &mut WriteSet, key: u64, at: u32) {
    let key = Key { storage: 1, key };
    if writes.contains(key) || writes.contains_record(at) {
        return;
    }
    let _ = writes.push(Write {
        key,
        value: Some(key.key),
        at,
    });
}

// The record's place of the write at this index, and 0 where there is none.
fn place_at(writes: &WriteSet, index: usize) -> u32 {
    match writes.as_slice().get(index) {
        Some(write) => write.at,
        None => 0,
    }
}

// The writes stand at these records' places.
fn stand_at(writes: &WriteSet, places: [u32; 4]) -> bool {
    let first = (place_at(writes, 0) == places[0]) & (place_at(writes, 1) == places[1]);
    first & (place_at(writes, 2) == places[2]) & (place_at(writes, 3) == places[3])
}

#[test]
fn writes_stand_in_ascending_order_of_key(_rt: HostRuntime) -> Result<(), Fail> {
    let mut writes = WriteSet::new();
    write(&mut writes, 9, 50);
    write(&mut writes, 3, 38);
    write(&mut writes, 5, 42);
    is_so("the places", stand_at(&writes, [38, 42, 50, 0]))
}

// Keeps a header with this word, unless it is kept already; else its word is another one from now on.
fn see(headers: &mut HeaderSet, at: u32, word: u64) {
    if headers.contains(at) {
        headers.renew(at, word);
        return;
    }
    let _ = headers.push(Seen { at, word });
}

#[test]
fn a_renewed_header_has_the_new_word_alone(_rt: HostRuntime) -> Result<(), Fail> {
    let mut headers = HeaderSet::new();
    see(&mut headers, 96, 0x103);
    see(&mut headers, 160, 0x110);
    see(&mut headers, 96, 0x104);
    let (renewed, other) = (headers.find(96), headers.find(160));
    is_so(
        "the words",
        (renewed == Some(0x104)) & (other == Some(0x110)),
    )?;
    is_so("no header", headers.find(97).is_none())
}

// The record's place of a write, and of a read, of the page that begins with this word; 0 where there is none.
fn written_in(sets: &Sets, page: u32) -> u32 {
    match sets.writes.find_in(page) {
        Some(write) => write.at,
        None => 0,
    }
}

fn read_in(sets: &Sets, page: u32) -> u32 {
    match sets.reads.find_in(page) {
        Some(entry) => entry.at,
        None => 0,
    }
}

// The page from 96 on ends with the word 159.
#[test]
fn reads_and_writes_of_a_page_are_found_by_its_first_word(_rt: HostRuntime) -> Result<(), Fail> {
    let mut sets = Sets::new();
    write(&mut sets.writes, 5, 160);
    write(&mut sets.writes, 7, 159);
    is_so("room", refused(&mut sets.reads, 161, 163) == 0)?;
    is_so("the write", written_in(&sets, 96) == 159)?;
    is_so("no read", read_in(&sets, 96) == 0)?;
    is_so("the read", read_in(&sets, 98) == 161)
}
