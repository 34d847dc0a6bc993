// Savepoints: what counts of a database's devices, in one of two places.
ghost use Rattle.std.specs.Prelude.{◌≡◌, ◌≢◌, ◌<◌, ◌^◌, ◌↔◌, IsTrue, Ok, Err, None, IfOk, IfSome, OnErr, slice_index};
ghost use Rattle.std.specs.List.{AllByRecursion};
ghost use Rattle.wire_form.specs.declared.savepoint.Savepoint.{Savepoint};
ghost use Rattle.wire_form.specs.Items.{IsSpelled, Reads};
ghost use Rattle.wire_form.specs.Savepoint.{IsSavepoint, IsSavepointOf, body_words, place_bytes, valid_byte};

use crate::bits::field;
use crate::bytes::{read_words, word_at, write_words};
use serial_model::LAST_EPOCH;

/// What a database's devices count to, as one store of its save device says.
#[derive(Clone, Copy, Debug, PartialEq, Eq)]
pub struct Savepoint {
    /// Of the stores, from 1 below 2^63.
    pub sequence: u64,
    /// The saved epoch, below the last.
    pub epoch: u32,
    /// The newest catalogue's page number, which is the count.
    pub catalogue: u32,
    /// Snapshot pages, 1 to 65,536.
    pub count: u32,
    /// How many bytes of each log file count, below 2^40.
    pub lengths: [u64; 16],
}

/// The place is open, and has no savepoint of its own.
#[derive(Clone, Copy, Debug, PartialEq, Eq)]
pub struct NoSavepoint;

/// FOEDUS, version 1.
const MAGIC: u64 = 0x464F_4544_5553_0001;

/// The valid byte of an open place.
const VALID: u8 = 0xA5;

/// The valid byte and seven zeros, as a word.
const OPEN: u64 = 0xA500_0000_0000_0000;

/// Whether each length is below 2^40.
fn are_lengths(lengths: &[u64; 16]) -> bool
    ensures { IsTrue result ↔ AllByRecursion (λ n. n < 2 ^ 40) lengths.now }
{
    lengths.iter().all(|n| *n < 1 << 40)
}

impl Savepoint {
    /// Whether the fields are in their ranges.
    pub fn is_valid(&self) -> bool
        ensures { IsTrue result ↔ IsSavepoint self.now }
    {
        let sequence = 1 <= self.sequence && self.sequence < 1 << 63;
        let newest = 1 <= self.catalogue && self.catalogue == self.count && self.count <= 65_536;
        sequence && newest && self.epoch < LAST_EPOCH && are_lengths(&self.lengths)
    }

    /// The words of the value.
    fn body(&self) -> [u64; 63]
        ensures { result ≡ body_words self.now }
    {
        let mut words = [0; 63];
        words[0] = MAGIC;
        words[1] = self.sequence;
        words[2] = u64::from(self.epoch);
        words[3] = u64::from(self.catalogue);
        words[4] = u64::from(self.count);
        words[5..21].copy_from_slice(&self.lengths);
        words
    }
}

/// The savepoint of 63 words.
fn savepoint_of(words: &[u64; 63]) -> Option<Savepoint>
    ensures { Reads IsSavepoint body_words words.now result }
{
    let mut lengths = [0; 16];
    lengths.copy_from_slice(&words[5..21]);
    let point = Savepoint {
        sequence: words[1],
        epoch: field(words[2], 0, 32) as u32,
        catalogue: field(words[3], 0, 32) as u32,
        count: field(words[4], 0, 32) as u32,
        lengths,
    };
    if point.is_valid() && point.body() == *words {
        Some(point)
    } else {
        None
    }
}

/// Reads a place of the save device, 0 or 1. `Ok(None)` says that it is closed.
pub fn read_savepoint(place: u8, bytes: &[u8; 512]) -> Result<Option<Savepoint>, NoSavepoint>
    ensures closed { (result ≡ Ok None) ↔ (slice_index bytes.now 0 ≢ valid_byte) }
    ensures found { IfOk result (λ found. IfSome found (IsSpelled (IsSavepointOf place) place_bytes bytes.now)) }
    ensures err { OnErr result ((point : Savepoint) → IsSavepointOf place point
        → place_bytes point ≡ bytes.now → ⊥) }
{
    if bytes[0] != VALID {
        return Ok(None);
    }
    if word_at(&bytes[..8]) != OPEN {
        return Err(NoSavepoint);
    }
    let mut words = [0; 63];
    read_words(&bytes[8..], &mut words);
    match savepoint_of(&words) {
        Some(point) if u64::from(place) + point.sequence % 2 == 1 => Ok(Some(point)),
        _ => Err(NoSavepoint),
    }
}

/// Writes an open place that has the savepoint.
pub fn write_savepoint(point: &Savepoint, to: &mut [u8; 512])
    requires { IsSavepoint point.now }
    ensures { to.new ≡ place_bytes point.now }
{
    write_words(&[OPEN], to);
    write_words(&point.body(), &mut to[8..]);
}
