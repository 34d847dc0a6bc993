// Writes, additions and subtractions.
ghost use Rattle.std.specs.Prelude.{◌≡◌, ◌+◌, ◌<◌, ◌≤◌, true, false, length, IfOk, IfErr, OnOk, Some, None};
ghost use Rattle.serial_model.specs.declared.op.Op.TheVariants as ops;
ghost use Rattle.tx_sets.specs.Entries.{has_write, writes_at, IsInserted};
ghost use Rattle.engine_pages.specs.Passes.{view, IsPassOf};
ghost use Rattle.array_pages.specs.Spans.{walk_holds, IsArrayKey};
ghost use Rattle.page_commit.specs.Live.{IsLive};
ghost use Rattle.page_commit.specs.Turning.{HasDone};
ghost use Rattle.page_commit.specs.Altering.{op_of, altered, ended_by, Alters};
ghost use Rattle.page_commit.specs.Refusing.{HasRefused};
ghost use Rattle.page_commit.specs.Calls.{alter_most, op_holds, write_most, RefusesWrite, RefusesAlter};
ghost use Rattle.page_commit.specs.Keeping.{HasBrought, KeepsSets};

use crate::reading::read_value_at;
use crate::refusing::refuse;
use array_pages::make_volatile;
use engine_pages::{Engine, Pass, RefusalCause, SetName};
use serial_model::{Key, Verdict};
use tx_sets::{Sets, Write};

/// How a value is altered.
#[derive(Clone, Copy, Debug, PartialEq, Eq)]
pub enum By {
    Add(u64),
    Take(u64),
}

/// Sets the value at a key, in the write set. Its record is brought into a page in memory first.
#[inline(always)]
pub(crate) fn write_value(
    engine: &Engine,
    pass: &mut Pass,
    sets: &mut Sets,
    key: Key,
    value: u64,
) -> Result<(), RefusalCause>
    requires of { IsPassOf engine.now pass.old }
    requires live { IsLive sets.old (view pass.old) }
    requires fits { IsArrayKey (view pass.old).layout.decls key }
    ensures of { IsPassOf engine.now pass.new }
    ensures done { OnOk result (
        HasDone (ops.Write key value) None sets.old sets.new (view pass.old) (view pass.new)) }
    ensures cause { IfErr result (λ why.
        RefusesWrite sets.old sets.new key why (view pass.old) (view pass.new)) }
    ensures refused { IfErr result (λ why. HasRefused why (view pass.old) (view pass.new)) }
    ensures most { (view pass.new).steps
        ≤ (view pass.old).steps + write_most (view pass.old).layout.slots }
    ensures grows { length sets.new.holds ≤ length sets.old.holds + walk_holds }
{
    if sets.writes.contains(key) {
        sets.writes.set(key, Some(value));
        return Ok(());
    }
    match bring_up(engine, pass, sets, key) {
        Ok(at) => {
            put_in(sets, key, value, at);
            Ok(())
        }
        Err(why) => Err(why),
    }
}

// The record of a key that the transaction doesn't write yet is brought into a page in memory, where the write set has
// room for it. Answers the place of its word.
#[inline(always)]
fn bring_up(
    engine: &Engine,
    pass: &mut Pass,
    sets: &mut Sets,
    key: Key,
) -> Result<u32, RefusalCause>
    requires of { IsPassOf engine.now pass.old }
    requires live { IsLive sets.old (view pass.old) }
    requires fits { IsArrayKey (view pass.old).layout.decls key }
    requires unwritten { has_write key sets.old.writes ≡ false }
    ensures of { IsPassOf engine.now pass.new }
    ensures room { OnOk result (length sets.old.writes < 16) }
    ensures brings { IfOk result (λ at.
        HasBrought key at sets.old sets.new (view pass.old) (view pass.new)) }
    ensures cause { IfErr result (λ why.
        RefusesWrite sets.old sets.new key why (view pass.old) (view pass.new)) }
    ensures refused { IfErr result (λ why. HasRefused why (view pass.old) (view pass.new)) }
    ensures most { (view pass.new).steps
        ≤ (view pass.old).steps + write_most (view pass.old).layout.slots }
    ensures grows { length sets.new.holds ≤ length sets.old.holds + walk_holds }
{
    if sets.writes.is_full() {
        let why = RefusalCause::Wide {
            set: SetName::Writes,
        };
        return Err(refuse(engine, pass, sets, why));
    }
    match make_volatile(engine, pass, key, &mut sets.holds, &sets.pointers) {
        Ok(at) => Ok(at),
        Err(why) => Err(refuse(engine, pass, sets, why)),
    }
}

// One write more, of a key that is not written yet.
#[inline(always)]
fn put_in(sets: &mut Sets, key: Key, value: u64, at: u32)
    requires room { length sets.old.writes < 16 }
    requires absent { has_write key sets.old.writes ≡ false }
    requires apart { writes_at at sets.old.writes ≡ false }
    ensures keeps { KeepsSets sets.old sets.new }
    ensures writes { IsInserted (record { key = key; value = Some value; at = at }) sets.old.writes sets.new.writes }
{
    let _ = sets.writes.push(Write {
        key,
        value: Some(value),
        at,
    });
}

/// Alters the value at a key.
#[inline(always)]
pub(crate) fn alter(
    engine: &Engine,
    pass: &mut Pass,
    sets: &mut Sets,
    key: Key,
    by: By,
) -> Result<Verdict, RefusalCause>
    requires of { IsPassOf engine.now pass.old }
    requires live { IsLive sets.old (view pass.old) }
    requires fits { IsArrayKey (view pass.old).layout.decls key }
    ensures of { IsPassOf engine.now pass.new }
    ensures turns { IfOk result (λ verdict.
        Alters (op_of key by) verdict sets.old sets.new (view pass.old) (view pass.new)) }
    ensures cause { IfErr result (λ why.
        RefusesAlter sets.old sets.new key why (view pass.old) (view pass.new)) }
    ensures refused { IfErr result (λ why. HasRefused why (view pass.old) (view pass.new)) }
    ensures most { (view pass.new).steps
        ≤ (view pass.old).steps + alter_most (view pass.old).layout.slots }
    ensures grows { length sets.new.holds ≤ length sets.old.holds + op_holds }
{
    let Some(own) = sets.writes.find(key) else {
        return alter_record(engine, pass, sets, key, by);
    };
    let Some(value) = after(by, own.unwrap_or(0)) else {
        return Ok(ending(by));
    };
    sets.writes.set(key, Some(value));
    Ok(Verdict::Done)
}

// Alters the value at a key that the transaction does not write yet: its record is brought up, and read there.
#[inline(never)]
fn alter_record(
    engine: &Engine,
    pass: &mut Pass,
    sets: &mut Sets,
    key: Key,
    by: By,
) -> Result<Verdict, RefusalCause>
    requires of { IsPassOf engine.now pass.old }
    requires live { IsLive sets.old (view pass.old) }
    requires fits { IsArrayKey (view pass.old).layout.decls key }
    requires unwritten { has_write key sets.old.writes ≡ false }
    ensures of { IsPassOf engine.now pass.new }
    ensures turns { IfOk result (λ verdict.
        Alters (op_of key by) verdict sets.old sets.new (view pass.old) (view pass.new)) }
    ensures cause { IfErr result (λ why.
        RefusesAlter sets.old sets.new key why (view pass.old) (view pass.new)) }
    ensures refused { IfErr result (λ why. HasRefused why (view pass.old) (view pass.new)) }
    ensures most { (view pass.new).steps
        ≤ (view pass.old).steps + alter_most (view pass.old).layout.slots }
    ensures grows { length sets.new.holds ≤ length sets.old.holds + op_holds }
{
    let at = bring_up(engine, pass, sets, key)?;
    let before = read_value_at(engine, pass, sets, key, at)?;
    let Some(value) = after(by, before) else {
        return Ok(ending(by));
    };
    put_in(sets, key, value, at);
    Ok(Verdict::Done)
}

// The value afterwards, where it is one.
#[inline(always)]
fn after(by: By, before: u64) -> Option<u64>
    ensures { result ≡ altered by before }
{
    match by {
        By::Add(amount) => before.checked_add(amount),
        By::Take(amount) => before.checked_sub(amount),
    }
}

// How the transaction ends where it isn't.
#[inline(always)]
fn ending(by: By) -> Verdict
    ensures { result ≡ ended_by by }
{
    match by {
        By::Add(_) => Verdict::Over,
        By::Take(_) => Verdict::Short,
    }
}
