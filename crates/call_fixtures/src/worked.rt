// What a vault has before a call, in bytes that were worked by hand.
use crate::vaults::{filled, fresh_vault, vault_of};
use log_writer::Vault;
use outside::MemDisk;
use std::alloc::{AllocError, Global};

/// What a vault has at first: nothing; what `kept_vault` has, by sequence, epoch, pages and counted bytes; or a save
/// device of another length.
#[derive(Clone, Copy)]
pub enum First {
    Fresh,
    Kept(u64, u64, u64, u64),
    Short,
}

/// A vault that has this.
pub fn first_vault(alloc: Global, first: First) -> Result<Vault<MemDisk>, AllocError> {
    match first {
        First::Fresh => fresh_vault(alloc),
        First::Kept(sequence, epoch, pages, counted) => {
            kept_vault(alloc, sequence, epoch, pages, counted)
        }
        First::Short => vault_of(alloc, &[0; 3], &[], &[], &[]),
    }
}

// The word at a place, of words with their places; the others are 0.
fn word_at(words: &[(usize, u64)], place: usize) -> u64 {
    for (at, word) in words {
        if *at == place {
            return *word;
        }
    }
    0
}

// The bytes of a page with these words.
fn page(alloc: Global, words: &[(usize, u64)]) -> Result<Vec<u8>, AllocError> {
    let mut bytes = Vec::new(alloc);
    for place in 0..64 {
        bytes.extend_from_slice(&word_at(words, place).to_be_bytes())?;
    }
    Ok(bytes)
}

const OPEN: u64 = 0xA500_0000_0000_0000;

const VERSION: u64 = 0x464F_4544_5553_0001;

// The word at a place of the savepoint of this sequence. It has a saved epoch, so many pages of which the last is the
// newest catalogue, and of the first log file so many bytes.
fn savepoint_word(place: usize, sequence: u64, epoch: u64, pages: u64, counted: u64) -> u64 {
    match place {
        0 => OPEN,
        1 => VERSION,
        2 => sequence,
        3 => epoch,
        4 | 5 => pages,
        6 => counted,
        _ => 0,
    }
}

// The bytes of such a savepoint.
fn savepoint(
    alloc: Global,
    sequence: u64,
    epoch: u64,
    pages: u64,
    counted: u64,
) -> Result<Vec<u8>, AllocError> {
    let mut bytes = Vec::new(alloc);
    for place in 0..64 {
        let word = savepoint_word(place, sequence, epoch, pages, counted);
        bytes.extend_from_slice(&word.to_be_bytes())?;
    }
    Ok(bytes)
}

// The savepoint of this sequence in its place, the other place closed; none of sequence 0.
fn save_of(
    alloc: Global,
    sequence: u64,
    epoch: u64,
    pages: u64,
    counted: u64,
) -> Result<Vec<u8>, AllocError> {
    if sequence == 0 {
        return filled(alloc, 0, 1024);
    }
    let open = savepoint(alloc, sequence, epoch, pages, counted)?;
    let closed = filled(alloc, 0, 512)?;
    if sequence % 2 == 0 {
        return joined(alloc, &closed, &open);
    }
    joined(alloc, &open, &closed)
}

// The one bytes, and the others behind them.
fn joined(alloc: Global, first: &[u8], second: &[u8]) -> Result<Vec<u8>, AllocError> {
    let mut bytes = first.to_vec(alloc)?;
    bytes.extend_from_slice(second)?;
    Ok(bytes)
}

// The first word of a catalogue of one storage.
const STORAGES: u64 = 0x4341_5400_0000_0001;

// The catalogue of epoch 0, with an array of 4.
const CATALOGUE: [(usize, u64); 3] = [(0, STORAGES), (16, 257), (17, 4)];

// A leaf whose value 2 was set to 5.
const LEAF: [(usize, u64); 2] = [(4, 0x0000_0100_0000_0001), (5, 5)];

// The catalogue of epoch 1.
const NEWEST: [(usize, u64); 6] = [(0, STORAGES), (1, 1), (2, 1), (16, 257), (17, 4), (18, 2)];

// The pages of the array: the catalogue of epoch 0, the leaf, and the catalogue of epoch 1.
fn three_pages(alloc: Global) -> Result<Vec<u8>, AllocError> {
    let mut bytes = page(alloc, &CATALOGUE)?;
    bytes.extend_from_slice(&page(alloc, &LEAF)?)?;
    bytes.extend_from_slice(&page(alloc, &NEWEST)?)?;
    Ok(bytes)
}

// The first words of the log line of commit 1:1, which sets value 2 of array 1; the value is behind them.
const LINE: [u64; 4] = [0x0000_0100_0000_0001, 1, 0x101, 2];

// That line.
fn log_line(alloc: Global, value: u64) -> Result<Vec<u8>, AllocError> {
    let mut bytes = Vec::new(alloc);
    for word in &LINE {
        bytes.extend_from_slice(&word.to_be_bytes())?;
    }
    bytes.extend_from_slice(&value.to_be_bytes())?;
    Ok(bytes)
}

/// What devices have whose savepoint has this sequence, a saved epoch, so many pages of which the last is the newest
/// catalogue, and of the first log file so many bytes. The log line, in which commit 1:1 sets value 2 to 7, stands there
/// whether it is counted or not.
pub fn kept_vault(
    alloc: Global,
    sequence: u64,
    epoch: u64,
    pages: u64,
    counted: u64,
) -> Result<Vault<MemDisk>, AllocError> {
    let save = save_of(alloc, sequence, epoch, pages, counted)?;
    let snaps = three_pages(alloc)?;
    let line = log_line(alloc, 7)?;
    vault_of(alloc, &save, &snaps, &line, &[])
}

/// What devices have after a run that set value 2 of an array of 4 to this value, and was saved: two places of the
/// savepoint, the second one newer, which counts so many bytes, the catalogue of epoch 0, and one log line of 40 bytes.
/// The calls of the save of these numbers fail.
pub fn saved_vault(
    alloc: Global,
    counted: u64,
    value: u64,
    fails: &[u64],
) -> Result<Vault<MemDisk>, AllocError> {
    let older = savepoint(alloc, 1, 0, 1, 0)?;
    let newer = savepoint(alloc, 2, 1, 1, counted)?;
    let save = joined(alloc, &older, &newer)?;
    let snaps = page(alloc, &CATALOGUE)?;
    let line = log_line(alloc, value)?;
    vault_of(alloc, &save, &snaps, &line, fails)
}
