// What one seat has.
ghost use Rattle.std.specs.Prelude.{◌≡◌, OnOk, OnErr, IfOk, not, filter};
ghost use Rattle.commit_core.specs.Keys.{same_key, has_key, writes_key};
ghost use Rattle.std.specs.List.{list_all};
ghost use Rattle.commit_core.specs.CoreState.{is_trying, can_begin, same_keys, last_marked, settled, settled_at};
ghost use Rattle.commit_core.specs.Parts.{same_word, with_part};
ghost use Rattle.commit_core.specs.Moves.{moves_key};

use crate::attempt::written;
use crate::moves::is_moved;
use crate::{Part, Word};
use homes::Move;
use lists::Sequence;
use serial_model::{Change, Key, Memory};

/// Where a seat stands with its attempt, which is named by its place in the history.
#[derive(Clone, Copy, Debug, PartialEq, Eq)]
pub enum Stage {
    /// No attempt since the parts were last dropped.
    Idle,
    /// It has its number and is neither decided nor given up: it is in progress.
    Trying(usize),
    /// A check failed, and locks are left to open.
    Ended,
    /// It counts, and locks are left to open.
    Decided(usize),
}

/// What a seat says of its log: all its commits up to this epoch lie in this many first bytes.
#[derive(Clone, Copy, Debug, PartialEq, Eq)]
pub struct Mark {
    /// Nothing where the seat is idle.
    pub epoch: Option<u32>,
    /// A count of bytes. The machine keeps it and asks nothing of it.
    pub length: u64,
}

#[derive(Drop)]
pub struct Seat {
    /// What was read, and kept for the next attempt.
    pub kept: Sequence<Part>,
    /// The keys whose homes this seat holds.
    pub locks: Sequence<Key>,
    /// The keys whose new values the decided attempt has put.
    pub put: Sequence<Key>,
    /// Each mark that was set, the latest last.
    pub marks: Sequence<Mark>,
    pub stage: Stage,
}

impl Stage {
    pub fn is_trying(self) -> bool
        ensures { result ≡ is_trying self }
    {
        matches!(self, Stage::Trying(_))
    }

    /// Whether no attempt is in progress, and none is decided with locks left to open.
    pub fn can_begin(self) -> bool
        ensures { result ≡ can_begin self }
    {
        matches!(self, Stage::Idle | Stage::Ended)
    }
}

impl Seat {
    /// Keeps the part in place of those of its word.
    pub fn keep(&mut self, part: Part) -> Result<(), Memory>
        ensures ok { OnOk result (self.new ≡ record self.old { kept = with_part self.old.kept part }) }
        ensures memory { OnErr result (self.new ≡ self.old) }
    {
        self.kept = with_part(&self.kept, part)?;
        Ok(())
    }

    pub fn has_lock(&self, key: Key) -> bool
        ensures { result ≡ has_key self.now.locks key }
    {
        self.locks.as_slice().iter().any(|lock| *lock == key)
    }

    pub fn has_put(&self, key: Key) -> bool
        ensures { result ≡ has_key self.now.put key }
    {
        self.put.as_slice().iter().any(|q| *q == key)
    }

    /// Whether the locks are exactly the keys of the writes.
    pub fn has_locked(&self, writes: &[Change]) -> bool
        ensures { result ≡ same_keys self.now.locks writes.now }
    {
        are_written(self.locks.as_slice(), writes) && self.has_locks(writes)
    }

    /// Whether each key that is written is locked.
    fn has_locks(&self, writes: &[Change]) -> bool
        ensures { result ≡ list_all (λ w. has_key self.now.locks w.key) writes.now }
    {
        writes.iter().all(|change| self.has_lock(change.key))
    }

    /// The last epoch that a mark named, and 0 where none did.
    pub fn last_marked(&self) -> u32
        ensures { result ≡ last_marked self.now.marks }
    {
        self.marks
            .as_slice()
            .iter()
            .fold(0, |low, mark| mark.epoch.unwrap_or(low))
    }

    /// Where the attempt is over and no lock is left, drops what was kept.
    pub fn settle(&mut self)
        ensures { self.new ≡ settled self.old }
    {
        if !self.locks.is_empty() {
            return;
        }
        match self.stage {
            Stage::Idle | Stage::Trying(_) => {}
            Stage::Ended | Stage::Decided(_) => {
                self.kept.clear();
                self.put.clear();
                self.stage = Stage::Idle;
            }
        }
    }
}

/// What is kept, with the part in place of those of its word.
pub fn with_part(kept: &Sequence<Part>, part: Part) -> Result<Sequence<Part>, Memory>
    ensures { IfOk result (λ list. list ≡ with_part kept.now part) }
{
    let mut list = parts_elsewhere(kept, part.word)?;
    list.push(part)?;
    Ok(list)
}

/// The parts of other words.
fn parts_elsewhere(kept: &Sequence<Part>, word: Word) -> Result<Sequence<Part>, Memory>
    ensures { IfOk result (λ s. s ≡ filter (λ q. not (same_word q.word word)) kept.now) }
{
    let mut others = Sequence::new(kept.alloc());
    for part in kept.as_slice() {
        if !part.word.is(word) {
            others.push(part.copy()?)?;
        }
    }
    Ok(others)
}

/// The keys but for this one.
pub fn keys_elsewhere(keys: &Sequence<Key>, key: Key) -> Result<Sequence<Key>, Memory>
    ensures { IfOk result (λ s. s ≡ filter (λ q. not (same_key q key)) keys.now) }
{
    let all = keys.as_slice().iter().copied();
    let list = all.filter(|q| *q != key).collect(keys.alloc())?;
    Ok(Sequence::from_vec(list))
}

/// The keys that none of the moves is of.
pub fn keys_unmoved(keys: &Sequence<Key>, moves: &[Move]) -> Result<Sequence<Key>, Memory>
    ensures { IfOk result (λ s. s ≡ filter (λ q. not (moves_key moves.now q)) keys.now) }
{
    let mut unmoved = Sequence::new(keys.alloc());
    for key in keys.as_slice() {
        if !is_moved(moves, *key) {
            unmoved.push(*key)?;
        }
    }
    Ok(unmoved)
}

/// Whether each lock is at a key that is written.
fn are_written(locks: &[Key], writes: &[Change]) -> bool
    ensures { result ≡ list_all (λ k. writes_key writes.now k) locks.now }
{
    locks.iter().all(|lock| written(*lock, writes).is_some())
}
