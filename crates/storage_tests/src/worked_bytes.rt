// Bytes of save devices, worked by hand from the formats.
use std::alloc::{AllocError, Global};

/// The bytes of words.
pub fn bytes_of(alloc: Global, words: &[u64]) -> Result<Vec<u8>, AllocError> {
    let mut bytes = Vec::new(alloc);
    for word in words {
        bytes.extend_from_slice(&word.to_be_bytes())?;
    }
    Ok(bytes)
}

// The word of this index of an open place of the save device: its sequence, its epoch, how many pages count, the last
// of them the newest catalogue, and the lengths of the first log files. The other words are 0.
fn place_word(at: usize, sequence: u64, epoch: u64, count: u64, lengths: &[u64]) -> u64 {
    match at {
        0 => 0xA5 << 56,
        1 => 0x464F_4544_5553_0001,
        2 => sequence,
        3 => epoch,
        4 | 5 => count,
        6..=21 => lengths.get(at.saturating_sub(6)).copied().unwrap_or(0),
        _ => 0,
    }
}

/// Puts such a place behind some bytes.
pub fn put_place(
    bytes: &mut Vec<u8>,
    sequence: u64,
    epoch: u64,
    count: u64,
    lengths: &[u64],
) -> Result<(), AllocError> {
    for at in 0..64 {
        let word = place_word(at, sequence, epoch, count, lengths);
        bytes.extend_from_slice(&word.to_be_bytes())?;
    }
    Ok(())
}

/// Puts a closed place behind some bytes.
pub fn put_closed(bytes: &mut Vec<u8>) -> Result<(), AllocError> {
    for _ in 0..512 {
        bytes.push(0)?;
    }
    Ok(())
}
