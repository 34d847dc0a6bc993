// The locks of a commit.
ghost use Rattle.std.specs.Prelude.{◌≡◌, ℕ, ◌+◌, ◌*◌, ◌/◌, ◌%◌, ◌^◌, ◌≤◌, ◌<◌, ◌==◌, ◌||◌, false, true, [], ◌∷◌, ◌++◌};
ghost use Rattle.std.specs.Prelude.{Contains, IfOk, IfErr, OnErr, OnOk, is_some, length, take, unwrap_or};
ghost use Rattle.std.specs.List.{AllByRecursion};
ghost use Rattle.lists.specs.Each.{AreDistinct};
ghost use Rattle.commit_core.specs.CoreState.{can_begin};
ghost use Rattle.tx_sets.specs.declared.writes.Write.{Write as TheWrite};
ghost use Rattle.tx_sets.specs.Entries.{record_places_of, writes_at, IsAscending};
ghost use Rattle.engine_pages.specs.declared.view.Role.TheVariants.{Worker};
ghost use Rattle.engine_pages.specs.Passes.{view, IsPassOf};
ghost use Rattle.engine_pages.specs.Views.{IsActive};
ghost use Rattle.page_records.specs.Ends.{worker_of};
ghost use Rattle.engine_pages.specs.declared.view.View.{View as TheView};
ghost use Rattle.engine_pages.specs.Pages.{is_array as is_of_array};
ghost use Rattle.page_records.specs.Reads.{LoadedWord};
ghost use Rattle.page_commit.specs.Live.{read_word, AreMet, IsWriteOf};
ghost use Rattle.page_commit.specs.Places.{ground, IsAnyKeyAt};
ghost use Rattle.page_commit.specs.Steps.{AreSmall, IsFree, HasGlanced, HasTaken, HasLocked, HasLockedAll};
ghost use Rattle.page_commit.specs.Steps.{HasLocks, HasUnlocked, IsMetSo, IsRecordConflict, IsUnkept};

use crate::places::{is_array, word_read};
use engine_pages::{Engine, Pass};
use page_records::{LOCK, load_word_as, lock_as, open_again_as};
use serial_model::Key;
use std::marker::{Brand, Model};
use tx_sets::{ReadEntry, Write};

/// A word that was in the way: locked or shut, or not the one that was expected.
#[derive(Clone, Copy, Debug, PartialEq, Eq)]
pub(crate) struct Conflict {
    /// The word's place in the table.
    pub word: u32,
    pub expected: u64,
    pub seen: u64,
}

/// The most locks of a transaction.
const CAPACITY: usize = 16;

/// The words that the locks of a commit found, in the order of its writes: with them they are opened again.
#[derive(Drop)]
pub struct LockWords {
    /// The first `count` of them are in the list.
    words: [u64; CAPACITY],
    count: usize,
}

impl Model for LockWords {
    ghost use Rattle.std.specs.Prelude.{ℕ, List, ◌≡◌, ◌≤◌, length, take};

    ghost Value = { List ℕ };

    ghost view = { λ f. take f.count f.words };

    ghost invariant = { λ f. (f.count ≤ 16) × (length f.words ≡ 16) };
}

impl LockWords {
    pub fn new() -> Self
        ensures { result ≡ [] }
    {
        LockWords {
            words: [0; CAPACITY],
            count: 0,
        }
    }

    fn push(&mut self, word: u64)
        requires { length self.old < 16 }
        ensures { self.new ≡ self.old ++ word ∷ [] }
    {
        let count = self.count;
        self.words[count] = word;
        self.count = count + 1;
    }

    pub fn as_slice(&self) -> &[u64]
        ensures { result.now ≡ self.now }
    {
        &self.words[..self.count]
    }

    pub fn clear(&mut self)
        ensures { self.new ≡ [] }
    {
        self.count = 0;
    }
}

/// Locks the records of the writes in order, up to the first whose word is locked or not as it was read.
pub(crate) fn lock_all(
    engine: &Engine,
    pass: &mut Pass,
    reads: &[ReadEntry],
    writes: &[Write],
    found: &mut LockWords,
) -> Result<(), Conflict>
    requires of { IsPassOf engine.now pass.old }
    requires free { IsFree (view pass.old) }
    requires places { AllByRecursion (IsWriteOf (ground (view pass.old))) writes.now }
    requires ascending { IsAscending writes.now }
    requires apart { AreDistinct (record_places_of writes.now) }
    requires few { length writes.now ≤ 16 }
    requires small { AreSmall reads.now (ground (view pass.old)) }
    requires unkept { AllByRecursion (IsUnkept (view pass.old)) writes.now }
    requires fresh { found.old ≡ [] }
    requires met { AreMet reads.now [] (view pass.old) }
    ensures of { IsPassOf engine.now pass.new }
    ensures ok { OnOk result (HasLockedAll reads.now writes.now found.new (view pass.old) (view pass.new)) }
    ensures steps { OnOk result ((view pass.new).steps ≡ (view pass.old).steps + 2 * length writes.now) }
    ensures within { OnErr result (length found.new < length writes.now) }
    ensures most { OnErr result ((view pass.new).steps ≤ (view pass.old).steps + 2 * length found.new + 2) }
    ensures stopped { OnErr result
        (HasLocked (take (length found.new) writes.now) found.new (view pass.old) (view pass.new)) }
    ensures clear { IfErr result (λ e. writes_at e.word (take (length found.new) writes.now) ≡ false) }
    ensures conflict { IfErr result (λ e. (w : TheWrite) × Contains writes.now w × (w.at ≡ e.word)
        × IsRecordConflict reads.now w.key e.word e.expected e.seen (view pass.old) (view pass.new)) }
{
    let mut done = 0;
    while done < writes.len() {
        let write = writes[done];
        let word = take(engine, pass, reads, write.key, write.at)?;
        found.push(word);
        done += 1;
    }
    Ok(())
}

// Locks a record by a load of its word and one compare_exchange. Answers the word that it found.
fn take(
    engine: &Engine,
    pass: &mut Pass,
    reads: &[ReadEntry],
    key: Key,
    at: u32,
) -> Result<u64, Conflict>
    requires of { IsPassOf engine.now pass.old }
    requires worker { (view pass.old).role ≡ Worker (worker_of (view pass.old).role) }
    requires idle { can_begin (view pass.old).seat.stage ≡ true }
    requires place { IsAnyKeyAt (view pass.old) key at }
    requires met { IsMetSo reads.now key at (view pass.old) }
    ensures of { IsPassOf engine.now pass.new }
    ensures takes { IfOk result (λ word. HasTaken key at word (view pass.old) (view pass.new)) }
    ensures known { IfOk result (λ word. word ≡ unwrap_or (read_word at reads.now) word) }
    ensures steps { OnOk result ((view pass.new).steps ≡ (view pass.old).steps + 2) }
    ensures most { OnErr result ((view pass.new).steps ≤ (view pass.old).steps + 2) }
    ensures glanced { OnErr result (HasGlanced (view pass.old) (view pass.new)) }
    ensures place { IfErr result (λ e. e.word ≡ at) }
    ensures conflict { IfErr result (λ e.
        IsRecordConflict reads.now key e.word e.expected e.seen (view pass.old) (view pass.new)) }
{
    let word = load_word_as::<Brand, ()>(engine, pass, key, (), at);
    if is_locked(word) {
        return Err(tell_locked(engine, pass, reads, key, at, word));
    }
    let expected = known(reads, at, word);
    if word != expected {
        return Err(Conflict {
            word: at,
            expected,
            seen: word,
        });
    }
    let seen = lock_as::<Brand, ()>(engine, pass, key, (), at, expected);
    if seen != expected {
        return Err(Conflict {
            word: at,
            expected,
            seen,
        });
    }
    Ok(seen)
}

// The conflict at a record whose word was just found locked. Of a tree's that wasn't read it is loaded once more: what is
// expected there is the word before, which isn't known else.
fn tell_locked(
    engine: &Engine,
    pass: &mut Pass,
    reads: &[ReadEntry],
    key: Key,
    at: u32,
    word: u64,
) -> Conflict
    requires of { IsPassOf engine.now pass.old }
    requires pass { IsActive (view pass.old).role }
    requires place { IsAnyKeyAt (view pass.old) key at }
    requires locked { (word / 2 ^ 60) % 2 ≡ 1 }
    ensures of { IsPassOf engine.now pass.new }
    ensures place { result.word ≡ at }
    ensures conflict { (v : TheView) → (t : ℕ) → IsMetSo reads.now key at v → LoadedWord t at v word (view pass.old)
        → IsRecordConflict reads.now key result.word result.expected result.seen v (view pass.new) }
    ensures glanced { HasGlanced (view pass.old) (view pass.new) }
    ensures most { (view pass.new).steps ≤ (view pass.old).steps + 1 }
{
    let expected = known(reads, at, word);
    if tells_once(engine, reads, key, at) {
        return Conflict {
            word: at,
            expected,
            seen: word,
        };
    }
    let seen = load_word_as::<Brand, ()>(engine, pass, key, (), at);
    Conflict {
        word: at,
        expected,
        seen,
    }
}

// Whether what is expected at the key's record, whose word stands here, is known behind one load: it was read, or it is an
// array's.
fn tells_once(engine: &Engine, reads: &[ReadEntry], key: Key, at: u32) -> bool
    ensures { result ≡ (is_some (read_word at reads.now)
        || is_of_array engine.now.table.shared.key.decls key.storage) }
{
    if word_read(reads, at).is_some() {
        return true;
    }
    is_array(engine, key.storage)
}

// Whether a record's word is locked.
fn is_locked(word: u64) -> bool
    ensures { result ≡ ((word / 2 ^ 60) % 2 == 1) }
{
    word / LOCK % 2 == 1
}

// The word of the record as it was read whose word stands here, else this one.
fn known(reads: &[ReadEntry], at: u32, word: u64) -> u64
    ensures { result ≡ unwrap_or (read_word at reads.now) word }
{
    word_read(reads, at).unwrap_or(word)
}

/// Opens locks with the words that they found.
pub(crate) fn unlock_all(engine: &Engine, pass: &mut Pass, writes: &[Write], found: &[u64])
    requires of { IsPassOf engine.now pass.old }
    requires pass { IsActive (view pass.old).role }
    requires places { AllByRecursion (IsWriteOf (ground (view pass.old))) writes.now }
    requires ascending { IsAscending writes.now }
    requires locked { HasLocks writes.now found.now (view pass.old) }
    ensures of { IsPassOf engine.now pass.new }
    ensures unlocked { HasUnlocked writes.now (view pass.old) (view pass.new) }
    ensures steps { (view pass.new).steps ≡ (view pass.old).steps + length writes.now }
{
    let mut done = 0;
    while done < writes.len() {
        let write = writes[done];
        open_again_as::<Brand, ()>(engine, pass, write.key, (), write.at, found[done]);
        done += 1;
    }
}
