// Transactions of one worker.
ghost use Rattle.std.specs.Prelude.{◌≡◌, ◌+◌, ◌≤◌, length, true, Some, None, IfOk, IfErr, OnOk, OnErr};
ghost use Rattle.serial_model.specs.declared.op.Op.TheVariants as ops;
ghost use Rattle.serial_model.specs.declared.reply.Reply.TheVariants as replies;
ghost use Rattle.tx_sets.specs.Gathered.{AreEmpty};
ghost use Rattle.array_pages.specs.Spans.{walk_holds, IsArrayKey};
ghost use Rattle.engine_pages.specs.Passes.{view, IsPassOf};
ghost use Rattle.page_commit.specs.Live.{IsLive, IsOver};
ghost use Rattle.page_commit.specs.Turning.{HasDone, IsValueRead};
ghost use Rattle.page_commit.specs.Altering.{Alters};
ghost use Rattle.page_commit.specs.Refusing.{HasRefused, RefusesBegin};
ghost use Rattle.page_commit.specs.Calls.{alter_most, op_holds, read_most, write_most, RefusesAlter};
ghost use Rattle.page_commit.specs.Calls.{RefusesRead, RefusesWrite};
ghost use Rattle.page_commit.specs.Committing.{changes_of, commit_steps, kept_writes, AreChangesOf, IsDropped};
ghost use Rattle.page_commit.specs.Committing.{HasAborted, HasBegun, HasCommitted, RefusesCommit};

use crate::committing::{commit_all, put_changes};
use crate::leaving::leave_all;
use crate::locking::LockWords;
use crate::reading::value_of;
use crate::writing::{By, alter, write_value};
use engine_pages::{Engine, Pass, RefusalCause};
use page_records::{begin, forget};
use serial_model::{Changes, DRAW_LIMIT, Key, Number, Verdict};
use tx_sets::Sets;

/// The transactions of one worker, one after another. It is made once and not moved: what the one under way has read
/// and writes lies in it.
#[derive(Drop)]
pub struct Txn {
    /// What the transaction under way has read, met, written and entered: for operations of crates above.
    pub sets: Sets,
    pub(crate) found: LockWords,
}

impl Txn {
    pub fn new() -> Self
        ensures { AreEmpty result.sets }
    {
        Txn {
            sets: Sets::new(),
            found: LockWords::new(),
        }
    }

    /// Begins a transaction. It is refused exactly where the clock is at the last draws.
    pub fn begin(&mut self, engine: &Engine, pass: &mut Pass) -> Result<(), RefusalCause>
        requires of { IsPassOf engine.now pass.old }
        requires over { IsOver (view pass.old) }
        ensures of { IsPassOf engine.now pass.new }
        ensures begins { OnOk result (HasBegun self.new.sets (view pass.old) (view pass.new)) }
        ensures refused { IfErr result (λ why. RefusesBegin why (view pass.old) (view pass.new)) }
    {
        self.sets.clear();
        let clock = begin(engine, pass);
        if clock % (1 << 40) >= DRAW_LIMIT {
            return Err(RefusalCause::NumberLimit { clock });
        }
        Ok(())
    }

    /// The value at the key of an array: what the transaction wrote last, else what it first read. A key that it has
    /// not met before is read, and kept.
    #[inline(always)]
    pub fn read(&mut self, engine: &Engine, pass: &mut Pass, key: Key) -> Result<u64, RefusalCause>
        requires of { IsPassOf engine.now pass.old }
        requires live { IsLive self.old.sets (view pass.old) }
        requires fits { IsArrayKey (view pass.old).layout.decls key }
        ensures of { IsPassOf engine.now pass.new }
        ensures replies { IfOk result (λ value.
            HasDone (ops.Read key) (Some (replies.Value value)) self.old.sets self.new.sets (view pass.old)
            (view pass.new)) }
        ensures value { IfOk result (λ value.
            IsValueRead key value self.old.sets (view pass.old) (view pass.new)) }
        ensures cause { IfErr result (λ why.
            RefusesRead self.old.sets self.new.sets key why (view pass.old) (view pass.new)) }
        ensures refused { IfErr result (λ why. HasRefused why (view pass.old) (view pass.new)) }
        ensures most { (view pass.new).steps ≤ (view pass.old).steps + read_most }
        ensures grows { length self.new.sets.holds ≤ length self.old.sets.holds + walk_holds }
    {
        value_of(engine, pass, &mut self.sets, key)
    }

    /// Sets the value at the key of an array, for the transaction alone until it commits.
    pub fn write(
        &mut self,
        engine: &Engine,
        pass: &mut Pass,
        key: Key,
        value: u64,
    ) -> Result<(), RefusalCause>
        requires of { IsPassOf engine.now pass.old }
        requires live { IsLive self.old.sets (view pass.old) }
        requires fits { IsArrayKey (view pass.old).layout.decls key }
        ensures of { IsPassOf engine.now pass.new }
        ensures done { OnOk result (
            HasDone (ops.Write key value) None self.old.sets self.new.sets (view pass.old) (view pass.new)) }
        ensures cause { IfErr result (λ why.
            RefusesWrite self.old.sets self.new.sets key why (view pass.old) (view pass.new)) }
        ensures refused { IfErr result (λ why. HasRefused why (view pass.old) (view pass.new)) }
        ensures most { (view pass.new).steps ≤ (view pass.old).steps + write_most (view pass.old).layout.slots }
        ensures grows { length self.new.sets.holds ≤ length self.old.sets.holds + walk_holds }
    {
        write_value(engine, pass, &mut self.sets, key, value)
    }

    /// Adds to the value at the key of an array. Above 2^64 - 1 the transaction ends as `Over`: no operation is to
    /// follow, and it is to commit without its writes.
    #[inline(always)]
    pub fn add(
        &mut self,
        engine: &Engine,
        pass: &mut Pass,
        key: Key,
        amount: u64,
    ) -> Result<Verdict, RefusalCause>
        requires of { IsPassOf engine.now pass.old }
        requires live { IsLive self.old.sets (view pass.old) }
        requires fits { IsArrayKey (view pass.old).layout.decls key }
        ensures of { IsPassOf engine.now pass.new }
        ensures turns { IfOk result (λ verdict.
            Alters (ops.Add key amount) verdict self.old.sets self.new.sets (view pass.old) (view pass.new)) }
        ensures cause { IfErr result (λ why.
            RefusesAlter self.old.sets self.new.sets key why (view pass.old) (view pass.new)) }
        ensures refused { IfErr result (λ why. HasRefused why (view pass.old) (view pass.new)) }
        ensures most { (view pass.new).steps ≤ (view pass.old).steps + alter_most (view pass.old).layout.slots }
        ensures grows { length self.new.sets.holds ≤ length self.old.sets.holds + op_holds }
    {
        alter(engine, pass, &mut self.sets, key, By::Add(amount))
    }

    /// Takes from the value at the key of an array. Below 0 the transaction ends as `Short`: no operation is to follow,
    /// and it is to commit without its writes.
    #[inline(always)]
    pub fn take(
        &mut self,
        engine: &Engine,
        pass: &mut Pass,
        key: Key,
        amount: u64,
    ) -> Result<Verdict, RefusalCause>
        requires of { IsPassOf engine.now pass.old }
        requires live { IsLive self.old.sets (view pass.old) }
        requires fits { IsArrayKey (view pass.old).layout.decls key }
        ensures of { IsPassOf engine.now pass.new }
        ensures turns { IfOk result (λ verdict.
            Alters (ops.Take key amount) verdict self.old.sets self.new.sets (view pass.old) (view pass.new)) }
        ensures cause { IfErr result (λ why.
            RefusesAlter self.old.sets self.new.sets key why (view pass.old) (view pass.new)) }
        ensures refused { IfErr result (λ why. HasRefused why (view pass.old) (view pass.new)) }
        ensures most { (view pass.new).steps ≤ (view pass.old).steps + alter_most (view pass.old).layout.slots }
        ensures grows { length self.new.sets.holds ≤ length self.old.sets.holds + op_holds }
    {
        alter(engine, pass, &mut self.sets, key, By::Take(amount))
    }

    /// Commits the transaction, with its writes or without them, or gives it up. A commit answers its number, and
    /// leaves what it wrote in `changes`.
    pub fn commit(
        &mut self,
        engine: &Engine,
        pass: &mut Pass,
        keep: bool,
        changes: &mut Changes,
    ) -> Result<Number, RefusalCause>
        requires of { IsPassOf engine.now pass.old }
        requires live { IsLive self.old.sets (view pass.old) }
        ensures of { IsPassOf engine.now pass.new }
        ensures commits { IfOk result (λ n. HasCommitted changes.new n (view pass.old) (view pass.new)) }
        ensures changes { OnOk result (AreChangesOf (kept_writes keep self.old.sets.writes) changes.new) }
        ensures cause { IfErr result (λ why.
            RefusesCommit self.old.sets (kept_writes keep self.old.sets.writes) why (view pass.old) (view pass.new)) }
        ensures refused { IfErr result (λ why. HasRefused why (view pass.old) (view pass.new)) }
        ensures steps { OnOk result ((view pass.new).steps
            ≡ (view pass.old).steps + commit_steps self.old.sets (kept_writes keep self.old.sets.writes)) }
        ensures most { OnErr result ((view pass.new).steps
            ≤ (view pass.old).steps + commit_steps self.old.sets (kept_writes keep self.old.sets.writes)) }
    {
        match self.commit_number(engine, pass, keep) {
            Ok(number) => {
                put_changes(changes, self.sets.writes.as_slice());
                Ok(number)
            }
            Err(why) => Err(why),
        }
    }

    /// The same, for a caller who doesn't want to be told what was written.
    #[inline(always)]
    pub fn commit_number(
        &mut self,
        engine: &Engine,
        pass: &mut Pass,
        keep: bool,
    ) -> Result<Number, RefusalCause>
        requires of { IsPassOf engine.now pass.old }
        requires live { IsLive self.old.sets (view pass.old) }
        ensures of { IsPassOf engine.now pass.new }
        ensures commits { IfOk result (λ n.
            HasCommitted (changes_of (kept_writes keep self.old.sets.writes)) n (view pass.old) (view pass.new)) }
        ensures writes { self.new.sets.writes ≡ kept_writes keep self.old.sets.writes }
        ensures cause { IfErr result (λ why.
            RefusesCommit self.old.sets (kept_writes keep self.old.sets.writes) why (view pass.old) (view pass.new)) }
        ensures refused { IfErr result (λ why. HasRefused why (view pass.old) (view pass.new)) }
        ensures steps { OnOk result ((view pass.new).steps
            ≡ (view pass.old).steps + commit_steps self.old.sets (kept_writes keep self.old.sets.writes)) }
        ensures most { OnErr result ((view pass.new).steps
            ≤ (view pass.old).steps + commit_steps self.old.sets (kept_writes keep self.old.sets.writes)) }
    {
        drop_writes(&mut self.sets, keep);
        commit_all(engine, pass, &self.sets, &mut self.found)
    }

    /// Ends the transaction: nothing of it stays.
    pub fn abort(&mut self, engine: &Engine, pass: &mut Pass)
        requires of { IsPassOf engine.now pass.old }
        requires live { IsLive self.old.sets (view pass.old) }
        ensures of { IsPassOf engine.now pass.new }
        ensures aborts { HasAborted (view pass.old) (view pass.new) }
    {
        forget(engine, pass, None);
        leave_all(engine, pass, self.sets.holds.as_slice());
    }
}

// Empties the write set, unless the writes are kept.
fn drop_writes(sets: &mut Sets, keep: bool)
    ensures { IsDropped keep sets.old sets.new }
{
    if !keep {
        sets.writes.clear();
    }
}
