// Commits.
ghost use Rattle.std.specs.Prelude.{◌≡◌, ◌+◌, ◌*◌, ◌≤◌, [], IfOk, IfErr, OnOk, OnErr, length, take, false};
ghost use Rattle.std.specs.List.{AllByRecursion};
ghost use Rattle.lists.specs.Each.{AreDistinct};
ghost use Rattle.serial_model.specs.declared.number.Number.{Number as TheNumber};
ghost use Rattle.wire_form.specs.Words.{number_word};
ghost use Rattle.tx_sets.specs.Entries.{record_places_of, writes_at, IsAscending};
ghost use Rattle.engine_pages.specs.declared.view.RefusalCause.TheVariants as refusals;
ghost use Rattle.engine_pages.specs.declared.view.View.{View as TheView};
ghost use Rattle.engine_pages.specs.declared.view.Role.TheVariants.{Worker};
ghost use Rattle.engine_pages.specs.Passes.{view, IsPassOf};
ghost use Rattle.engine_pages.specs.Words.{IsSmall};
ghost use Rattle.page_records.specs.Ends.{worker_of};
ghost use Rattle.page_commit.specs.Live.{HasHolds, IsLive, IsWriteOf};
ghost use Rattle.page_commit.specs.Places.{ground};
ghost use Rattle.page_commit.specs.Refusing.{HasRefused};
ghost use Rattle.page_commit.specs.Committing.{changes_of, checks_of, commit_steps, HasCommitted};
ghost use Rattle.page_commit.specs.Committing.{RefusesCommit};
ghost use Rattle.page_commit.specs.Steps.{CanCommit, HasLocks, HasGivenUp, HasMet};

use crate::checking::check_all;
use crate::leaving::leave_all;
use crate::locking::{Conflict, LockWords, lock_all, unlock_all};
use crate::publishing::publish_all;
use engine_pages::{Engine, Pass, RefusalCause};
use page_records::{decide, draw_as, forget};
use serial_model::{Change, Changes, Number};
use std::marker::Brand;
use tx_sets::{ReadEntry, Sets, Write};

/// Commits a transaction with its writes, or gives it up.
#[inline(always)]
pub(crate) fn commit_all(
    engine: &Engine,
    pass: &mut Pass,
    sets: &Sets,
    found: &mut LockWords,
) -> Result<Number, RefusalCause>
    requires of { IsPassOf engine.now pass.old }
    requires live { IsLive sets.now (view pass.old) }
    ensures of { IsPassOf engine.now pass.new }
    ensures commits { IfOk result (λ n.
        HasCommitted (changes_of sets.now.writes) n (view pass.old) (view pass.new)) }
    ensures ascending { IsAscending sets.now.writes }
    ensures few { length sets.now.writes ≤ 16 }
    ensures cause { IfErr result (λ why. RefusesCommit sets.now sets.now.writes why (view pass.old) (view pass.new)) }
    ensures refused { IfErr result (λ why. HasRefused why (view pass.old) (view pass.new)) }
    ensures steps { OnOk result
        ((view pass.new).steps ≡ (view pass.old).steps + commit_steps sets.now sets.now.writes) }
    ensures most { OnErr result
        ((view pass.new).steps ≤ (view pass.old).steps + commit_steps sets.now sets.now.writes) }
{
    let reads = sets.reads.as_slice();
    let writes = sets.writes.as_slice();
    let holds = sets.holds.as_slice();
    found.clear();
    commit_in(engine, pass, sets, reads, writes, holds, found)
}

// The same, with what the sets have as slices.
#[inline(always)]
fn commit_in(
    engine: &Engine,
    pass: &mut Pass,
    sets: &Sets,
    reads: &[ReadEntry],
    writes: &[Write],
    holds: &[u32],
    found: &mut LockWords,
) -> Result<Number, RefusalCause>
    requires of { IsPassOf engine.now pass.old }
    requires live { IsLive sets.now (view pass.old) }
    requires reads { reads.now ≡ sets.now.reads }
    requires writes { writes.now ≡ sets.now.writes }
    requires holds { holds.now ≡ sets.now.holds }
    requires each { AreDistinct sets.now.holds }
    requires ascending { IsAscending sets.now.writes }
    requires apart { AreDistinct (record_places_of sets.now.writes) }
    requires few { length sets.now.writes ≤ 16 }
    requires fresh { found.old ≡ [] }
    ensures of { IsPassOf engine.now pass.new }
    ensures commits { IfOk result (λ n.
        HasCommitted (changes_of sets.now.writes) n (view pass.old) (view pass.new)) }
    ensures cause { IfErr result (λ why. RefusesCommit sets.now sets.now.writes why (view pass.old) (view pass.new)) }
    ensures refused { IfErr result (λ why. HasRefused why (view pass.old) (view pass.new)) }
    ensures steps { OnOk result
        ((view pass.new).steps ≡ (view pass.old).steps + commit_steps sets.now sets.now.writes) }
    ensures most { OnErr result
        ((view pass.new).steps ≤ (view pass.old).steps + commit_steps sets.now sets.now.writes) }
{
    match lock_all(engine, pass, reads, writes, found) {
        Ok(()) => commit_locked(engine, pass, sets, writes, holds, found),
        Err(conflict) => Err(back_out(engine, pass, writes, holds, found, conflict)),
    }
}

// Commits a transaction whose writes are locked, or gives it up.
#[inline(always)]
fn commit_locked(
    engine: &Engine,
    pass: &mut Pass,
    sets: &Sets,
    writes: &[Write],
    holds: &[u32],
    found: &LockWords,
) -> Result<Number, RefusalCause>
    requires of { IsPassOf engine.now pass.old }
    requires can { (v : TheView) × CanCommit sets.now found.now v (view pass.old) }
    requires writes { writes.now ≡ sets.now.writes }
    requires holds { holds.now ≡ sets.now.holds }
    requires each { AreDistinct sets.now.holds }
    requires ascending { IsAscending sets.now.writes }
    requires few { length sets.now.writes ≤ 16 }
    ensures of { IsPassOf engine.now pass.new }
    ensures commits { IfOk result (λ n. (v : TheView) → CanCommit sets.now found.now v (view pass.old)
        → HasCommitted (changes_of sets.now.writes) n v (view pass.new)) }
    ensures cause { IfErr result (λ why. (v : TheView) → CanCommit sets.now found.now v (view pass.old)
        → RefusesCommit sets.now sets.now.writes why v (view pass.new)) }
    ensures refused { IfErr result (λ why. (v : TheView) → CanCommit sets.now found.now v (view pass.old)
        → HasRefused why v (view pass.new)) }
    ensures steps { OnOk result ((view pass.new).steps ≡ (view pass.old).steps + 2 * length writes.now
        + checks_of sets.now + length holds.now + 2) }
    ensures most { OnErr result ((view pass.new).steps ≤ (view pass.old).steps + length writes.now
        + checks_of sets.now + length holds.now + 2) }
{
    let word = draw_as::<Brand, Write>(engine, pass, writes);
    match check_all(engine, pass, sets) {
        Ok(()) => {
            decide(engine, pass);
            publish_all(engine, pass, writes, word);
            leave_all(engine, pass, holds);
            Ok(number_of(word))
        }
        Err(conflict) => Err(back_out(engine, pass, writes, holds, found, conflict)),
    }
}

// Opens the locks that were taken, those of the first writes, drops what was read, and leaves what is held.
#[inline(never)]
fn back_out(
    engine: &Engine,
    pass: &mut Pass,
    writes: &[Write],
    holds: &[u32],
    found: &LockWords,
    conflict: Conflict,
) -> RefusalCause
    requires of { IsPassOf engine.now pass.old }
    requires worker { (view pass.old).role ≡ Worker (worker_of (view pass.old).role) }
    requires places { AllByRecursion (IsWriteOf (ground (view pass.old))) writes.now }
    requires ascending { IsAscending writes.now }
    requires within { length found.now ≤ length writes.now }
    requires locked { HasLocks (take (length found.now) writes.now) found.now (view pass.old) }
    requires met { HasMet conflict.word conflict.expected conflict.seen (view pass.old) }
    requires gone { (view pass.old).gone ≡ [] }
    requires apart { writes_at conflict.word (take (length found.now) writes.now) ≡ false }
    requires holds { HasHolds holds.now (view pass.old) }
    requires each { AreDistinct holds.now }
    ensures of { IsPassOf engine.now pass.new }
    ensures why { result ≡ refusals.Conflict conflict.word conflict.expected conflict.seen }
    ensures gives_up { HasGivenUp (take (length found.now) writes.now) result (view pass.old) (view pass.new) }
    ensures steps { (view pass.new).steps ≡ (view pass.old).steps + length found.now + 1 + length holds.now }
{
    let held = found.as_slice();
    give_up(engine, pass, &writes[..held.len()], holds, held, conflict)
}

// Opens these locks, drops what was read, and leaves what is held.
fn give_up(
    engine: &Engine,
    pass: &mut Pass,
    writes: &[Write],
    holds: &[u32],
    found: &[u64],
    conflict: Conflict,
) -> RefusalCause
    requires of { IsPassOf engine.now pass.old }
    requires worker { (view pass.old).role ≡ Worker (worker_of (view pass.old).role) }
    requires places { AllByRecursion (IsWriteOf (ground (view pass.old))) writes.now }
    requires ascending { IsAscending writes.now }
    requires locked { HasLocks writes.now found.now (view pass.old) }
    requires met { HasMet conflict.word conflict.expected conflict.seen (view pass.old) }
    requires gone { (view pass.old).gone ≡ [] }
    requires apart { writes_at conflict.word writes.now ≡ false }
    requires holds { HasHolds holds.now (view pass.old) }
    requires each { AreDistinct holds.now }
    ensures of { IsPassOf engine.now pass.new }
    ensures why { result ≡ refusals.Conflict conflict.word conflict.expected conflict.seen }
    ensures gives_up { HasGivenUp writes.now result (view pass.old) (view pass.new) }
    ensures steps { (view pass.new).steps ≡ (view pass.old).steps + length writes.now + 1 + length holds.now }
{
    unlock_all(engine, pass, writes, found);
    let why = RefusalCause::Conflict {
        word: conflict.word,
        expected: conflict.expected,
        seen: conflict.seen,
    };
    forget(engine, pass, Some(why));
    leave_all(engine, pass, holds);
    why
}
/// Puts down the writes as a log has them, in place of what was there.
pub(crate) fn put_changes(changes: &mut Changes, writes: &[Write])
    requires { length writes.now ≤ 16 }
    ensures { changes.new ≡ changes_of writes.now }
{
    empty(changes);
    for write in writes {
        changes.push(Change {
            key: write.key,
            value: write.value,
        });
    }
}

// There is nothing in it. A new list is all its room over, so it isn't made where nothing is to be let go.
fn empty(changes: &mut Changes)
    ensures { changes.new ≡ [] }
{
    if !changes.as_slice().is_empty() {
        *changes = Changes::new();
    }
}

// The number that has this word.
fn number_of(word: u64) -> Number
    ensures { (n : TheNumber) → IsSmall n → number_word n ≡ word → result ≡ n }
{
    Number {
        epoch: (word >> 40) as u32,
        draw: word % (1 << 40),
    }
}
