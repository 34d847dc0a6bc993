// Log lines: a commit's number and its changes, as bytes.
ghost use Rattle.std.specs.Prelude.{◌≡◌, ℕ, ◌+◌, ◌*◌, ◌≤◌, ◌++◌, [], ◌∷◌, List, None, length, drop, IsTrue, ◌↔◌, IfOk, OnErr, IfSome, IfNone, map};
ghost use Rattle.std.specs.List.{flat_map, AllByRecursion};
ghost use Rattle.serial_model.specs.declared.number.Change.{Change};
ghost use Rattle.serial_model.specs.declared.number.Commit.{Commit};
ghost use Rattle.wire_form.specs.Items.{AreItems, Reads, Rises};
ghost use Rattle.serial_model.specs.Keys.{IsKeyBelow};
ghost use Rattle.wire_form.specs.LogLine.{IsChange, change_words, change_bytes, key_of, IsLoggable, IsLogLine, line_bytes, BeginsWith};

use crate::bytes::{word_at, write_words};
use crate::record_word::{is_number, number_word, read_number};
use serial_model::{Change, Changes, Commit, Key};

/// No log line begins the bytes.
#[derive(Clone, Copy, Debug, PartialEq, Eq)]
pub struct NoLine;

/// Whether a key is above an earlier one, if there is one.
fn goes_on(last: Option<Key>, key: Key) -> bool
    ensures { IsTrue result ↔ IfSome last (λ l. IsKeyBelow l key) }
{
    match last {
        Some(last) => {
            last.storage < key.storage || (last.storage == key.storage && last.key < key.key)
        }
        None => true,
    }
}

/// Whether a commit has a log line: its number is one, and it has changes with keys that rise.
pub fn is_loggable(commit: &Commit) -> bool
    ensures { IsTrue result ↔ IsLoggable commit.now }
{
    let changes = commit.changes.as_slice();
    is_number(commit.number) && !changes.is_empty() && rises(changes)
}

/// Whether the keys rise.
fn rises(changes: &[Change]) -> bool
    ensures { IsTrue result ↔ Rises IsKeyBelow (map key_of changes.now) }
{
    let mut last = None;
    for change in changes {
        if !goes_on(last, change.key) {
            return false;
        }
        last = Some(change.key);
    }
    true
}

/// The change of three words.
fn change_of(head: u64, key: u64, value: u64) -> Option<Change>
    ensures { Reads IsChange change_words (head ∷ key ∷ value ∷ []) result }
{
    if head >= 512 || (head < 256 && value != 0) {
        return None;
    }
    let storage = (head % 256) as u8;
    Some(Change {
        key: Key { storage, key },
        value: if head < 256 { None } else { Some(value) },
    })
}

/// The change of 24 bytes.
fn read_change(bytes: &[u8]) -> Option<Change>
    requires { length bytes.now ≡ 24 }
    ensures { Reads IsChange change_bytes bytes.now result }
{
    change_of(
        word_at(&bytes[..8]),
        word_at(&bytes[8..16]),
        word_at(&bytes[16..]),
    )
}

/// The changes of all of the bytes.
fn read_changes(count: usize, bytes: &[u8]) -> Option<Changes>
    requires few { count ≤ 16 }
    requires whole { length bytes.now ≡ 24 * count }
    ensures found { IfSome result (AreItems IsChange change_bytes key_of IsKeyBelow None bytes.now) }
    ensures none { IfNone result ((changes : List Change)
        → AreItems IsChange change_bytes key_of IsKeyBelow None bytes.now changes → ⊥) }
{
    let mut changes = Changes::new();
    let mut last = None;
    let mut rest = bytes;
    for _ in 0..count {
        let (front, after) = rest.split_at(24);
        let change = read_change(front)?;
        if !goes_on(last, change.key) {
            return None;
        }
        changes.push(change);
        last = Some(change.key);
        rest = after;
    }
    Some(changes)
}

/// The log line that begins the bytes, and its length in bytes. More may follow it.
pub fn read_log_line(bytes: &[u8]) -> Result<(Commit, usize), NoLine>
    ensures ok { IfOk result (λ found. BeginsWith bytes.now found.0 found.1) }
    ensures err { OnErr result ((commit : Commit) (rest : List ℕ) → IsLogLine commit
        → bytes.now ≡ line_bytes commit ++ rest → ⊥) }
{
    if bytes.len() < 16 {
        return Err(NoLine);
    }
    let count = word_at(&bytes[8..16]);
    if count < 1 || count > 16 {
        return Err(NoLine);
    }
    let count = count as usize;
    let end = 16 + 24 * count;
    if bytes.len() < end {
        return Err(NoLine);
    }
    match (
        read_number(word_at(&bytes[..8])),
        read_changes(count, &bytes[16..end]),
    ) {
        (Some(number), Some(changes)) => Ok((Commit { number, changes }, end)),
        _ => Err(NoLine),
    }
}

/// The words of a change.
fn words_of(change: Change) -> [u64; 3]
    ensures words { result ≡ change_words change }
    ensures fits { IsChange change }
{
    match change.value {
        Some(value) => [u64::from(change.key.storage) + 256, change.key.key, value],
        None => [u64::from(change.key.storage), change.key.key, 0],
    }
}

/// Writes changes over the first bytes.
fn write_changes(changes: &[Change], to: &mut [u8])
    requires { 24 * length changes.now ≤ length to.old }
    ensures written { to.new ≡ flat_map change_bytes changes.now ++ drop (24 * length changes.now) to.old }
    ensures fits { AllByRecursion IsChange changes.now }
{
    for i in 0..changes.len() {
        write_words(&words_of(changes[i]), &mut to[24 * i..24 * i + 24]);
    }
}

/// Writes a commit's log line over the first bytes, and gives its length in bytes.
pub fn write_log_line(line: &Commit, to: &mut [u8]) -> usize
    requires loggable { IsLoggable line.now }
    requires room { 16 + 24 * length line.now.changes ≤ length to.old }
    ensures line { IsLogLine line.now }
    ensures length { result ≡ 16 + 24 * length line.now.changes }
    ensures written { to.new ≡ line_bytes line.now ++ drop result to.old }
{
    let changes = line.changes.as_slice();
    let end = 16 + 24 * changes.len();
    write_words(&[number_word(line.number), changes.len() as u64], to);
    write_changes(changes, &mut to[16..end]);
    end
}
