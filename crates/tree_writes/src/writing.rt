// Writes, additions and subtractions at keys of trees.
ghost use Rattle.std.specs.Prelude.{◌≡◌, ◌+◌, ◌<◌, ◌≤◌, true, false, length, IfOk, IfErr, OnOk, Some, None, Option};
ghost use Rattle.serial_model.specs.declared.op.Op.TheVariants as ops;
ghost use Rattle.tx_sets.specs.Entries.{has_write, writes_at, IsInserted};
ghost use Rattle.engine_pages.specs.Pages.{is_tree};
ghost use Rattle.engine_pages.specs.Passes.{view, IsPassOf};
ghost use Rattle.page_commit.specs.Altering.{altered, ended_by, op_of, Alters};
ghost use Rattle.page_commit.specs.Keeping.{KeepsSets};
ghost use Rattle.page_commit.specs.Live.{IsLive};
ghost use Rattle.page_commit.specs.Refusing.{HasRefused};
ghost use Rattle.page_commit.specs.Turning.{HasDone};
ghost use Rattle.tree_writes.specs.Causes.{alter_most, write_most, RefusesTreeAlter, RefusesTreeWrite};
ghost use Rattle.tree_writes.specs.Writing.{LocksUnnamed, WritesWhole};

use crate::growing::place_seen;
use crate::making::bring;
use engine_pages::{Engine, Pass, RefusalCause};
use page_commit::By;
use serial_model::{Key, Verdict};
use tree_calls::read_value;
use tx_sets::{Sets, Write};

/// Sets the value at a key of a tree, for the transaction alone until it commits. Its leaf gets the key, where it lacks
/// it.
pub fn write(
    engine: &Engine,
    pass: &mut Pass,
    sets: &mut Sets,
    key: Key,
    value: u64,
) -> Result<(), RefusalCause>
    requires of { IsPassOf engine.now pass.old }
    requires live { IsLive sets.old (view pass.old) }
    requires tree { is_tree (view pass.old).layout.decls key.storage ≡ true }
    ensures of { IsPassOf engine.now pass.new }
    ensures done { OnOk result (
        HasDone (ops.Write key value) None sets.old sets.new (view pass.old) (view pass.new)) }
    ensures locks { OnOk result (LocksUnnamed key sets.old (view pass.old) (view pass.new)) }
    ensures whole { OnOk result (WritesWhole key sets.old sets.new (view pass.old) (view pass.new)) }
    ensures cause { IfErr result (λ why.
        RefusesTreeWrite sets.old sets.new key why (view pass.old) (view pass.new)) }
    ensures refused { IfErr result (λ why. HasRefused why (view pass.old) (view pass.new)) }
    ensures most { (view pass.new).steps
        ≤ (view pass.old).steps + write_most (view pass.old).layout.slots }
{
    if sets.writes.contains(key) {
        sets.writes.set(key, Some(value));
        return Ok(());
    }
    match place_seen(engine, pass, sets, key) {
        Ok(at) => {
            put(sets, key, Some(value), at);
            Ok(())
        }
        Err(why) => Err(why),
    }
}

/// Adds to the value at a key of a tree, 0 where it has none. Above 2^64 - 1 the transaction ends as `Over`: no operation
/// is to follow, and it is to commit without its writes.
pub fn add(
    engine: &Engine,
    pass: &mut Pass,
    sets: &mut Sets,
    key: Key,
    amount: u64,
) -> Result<Verdict, RefusalCause>
    requires of { IsPassOf engine.now pass.old }
    requires live { IsLive sets.old (view pass.old) }
    requires tree { is_tree (view pass.old).layout.decls key.storage ≡ true }
    ensures of { IsPassOf engine.now pass.new }
    ensures turns { IfOk result (λ verdict.
        Alters (ops.Add key amount) verdict sets.old sets.new (view pass.old) (view pass.new)) }
    ensures locks { OnOk result (LocksUnnamed key sets.old (view pass.old) (view pass.new)) }
    ensures whole { OnOk result (WritesWhole key sets.old sets.new (view pass.old) (view pass.new)) }
    ensures cause { IfErr result (λ why.
        RefusesTreeAlter sets.old sets.new key why (view pass.old) (view pass.new)) }
    ensures refused { IfErr result (λ why. HasRefused why (view pass.old) (view pass.new)) }
    ensures most { (view pass.new).steps
        ≤ (view pass.old).steps + alter_most (view pass.old).layout.slots }
{
    alter(engine, pass, sets, key, By::Add(amount))
}

/// Takes from the value at a key of a tree, 0 where it has none. Below 0 the transaction ends as `Short`: no operation
/// is to follow, and it is to commit without its writes.
pub fn take(
    engine: &Engine,
    pass: &mut Pass,
    sets: &mut Sets,
    key: Key,
    amount: u64,
) -> Result<Verdict, RefusalCause>
    requires of { IsPassOf engine.now pass.old }
    requires live { IsLive sets.old (view pass.old) }
    requires tree { is_tree (view pass.old).layout.decls key.storage ≡ true }
    ensures of { IsPassOf engine.now pass.new }
    ensures turns { IfOk result (λ verdict.
        Alters (ops.Take key amount) verdict sets.old sets.new (view pass.old) (view pass.new)) }
    ensures locks { OnOk result (LocksUnnamed key sets.old (view pass.old) (view pass.new)) }
    ensures whole { OnOk result (WritesWhole key sets.old sets.new (view pass.old) (view pass.new)) }
    ensures cause { IfErr result (λ why.
        RefusesTreeAlter sets.old sets.new key why (view pass.old) (view pass.new)) }
    ensures refused { IfErr result (λ why. HasRefused why (view pass.old) (view pass.new)) }
    ensures most { (view pass.new).steps
        ≤ (view pass.old).steps + alter_most (view pass.old).layout.slots }
{
    alter(engine, pass, sets, key, By::Take(amount))
}

// Alters the value at a key: what the transaction wrote last, or what it first read there.
fn alter(
    engine: &Engine,
    pass: &mut Pass,
    sets: &mut Sets,
    key: Key,
    by: By,
) -> Result<Verdict, RefusalCause>
    requires of { IsPassOf engine.now pass.old }
    requires live { IsLive sets.old (view pass.old) }
    requires tree { is_tree (view pass.old).layout.decls key.storage ≡ true }
    ensures of { IsPassOf engine.now pass.new }
    ensures turns { IfOk result (λ verdict.
        Alters (op_of key by) verdict sets.old sets.new (view pass.old) (view pass.new)) }
    ensures locks { OnOk result (LocksUnnamed key sets.old (view pass.old) (view pass.new)) }
    ensures whole { OnOk result (WritesWhole key sets.old sets.new (view pass.old) (view pass.new)) }
    ensures cause { IfErr result (λ why.
        RefusesTreeAlter sets.old sets.new key why (view pass.old) (view pass.new)) }
    ensures refused { IfErr result (λ why. HasRefused why (view pass.old) (view pass.new)) }
    ensures most { (view pass.new).steps
        ≤ (view pass.old).steps + alter_most (view pass.old).layout.slots }
{
    let Some(own) = sets.writes.find(key) else {
        return alter_record(engine, pass, sets, key, by);
    };
    let Some(value) = after(by, own.unwrap_or(0)) else {
        return Ok(ending(by));
    };
    sets.writes.set(key, Some(value));
    Ok(Verdict::Done)
}

// Alters the value at a key that the transaction does not write yet. Its pages are brought into memory first: a pointer
// that a read had kept there would be led to a page else, and the transaction refused for its own step.
fn alter_record(
    engine: &Engine,
    pass: &mut Pass,
    sets: &mut Sets,
    key: Key,
    by: By,
) -> Result<Verdict, RefusalCause>
    requires of { IsPassOf engine.now pass.old }
    requires live { IsLive sets.old (view pass.old) }
    requires tree { is_tree (view pass.old).layout.decls key.storage ≡ true }
    requires unwritten { has_write key sets.old.writes ≡ false }
    ensures of { IsPassOf engine.now pass.new }
    ensures turns { IfOk result (λ verdict.
        Alters (op_of key by) verdict sets.old sets.new (view pass.old) (view pass.new)) }
    ensures locks { OnOk result (LocksUnnamed key sets.old (view pass.old) (view pass.new)) }
    ensures whole { OnOk result (WritesWhole key sets.old sets.new (view pass.old) (view pass.new)) }
    ensures cause { IfErr result (λ why.
        RefusesTreeAlter sets.old sets.new key why (view pass.old) (view pass.new)) }
    ensures refused { IfErr result (λ why. HasRefused why (view pass.old) (view pass.new)) }
    ensures most { (view pass.new).steps
        ≤ (view pass.old).steps + alter_most (view pass.old).layout.slots }
{
    let _ = bring(engine, pass, sets, key)?;
    let before = read_value(engine, pass, sets, key)?;
    let Some(value) = after(by, before.unwrap_or(0)) else {
        return Ok(ending(by));
    };
    let at = place_seen(engine, pass, sets, key)?;
    put(sets, key, Some(value), at);
    Ok(Verdict::Done)
}

/// One write more, of a key that is not written yet.
pub(crate) fn put(sets: &mut Sets, key: Key, value: Option<u64>, at: u32)
    requires room { length sets.old.writes < 16 }
    requires absent { has_write key sets.old.writes ≡ false }
    requires apart { writes_at at sets.old.writes ≡ false }
    ensures keeps { KeepsSets sets.old sets.new }
    ensures writes { IsInserted (record { key = key; value = value; at = at }) sets.old.writes sets.new.writes }
{
    let _ = sets.writes.push(Write { key, value, at });
}

// The value afterwards, where it is one.
fn after(by: By, before: u64) -> Option<u64>
    ensures { result ≡ altered by before }
{
    match by {
        By::Add(amount) => before.checked_add(amount),
        By::Take(amount) => before.checked_sub(amount),
    }
}

// How the transaction ends where it isn't.
fn ending(by: By) -> Verdict
    ensures { result ≡ ended_by by }
{
    match by {
        By::Add(_) => Verdict::Over,
        By::Take(_) => Verdict::Short,
    }
}
