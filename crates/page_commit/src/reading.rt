// Reads.
ghost use Rattle.std.specs.Prelude.{◌≡◌, ◌⊎◌, ◌+◌, ◌%◌, ◌++◌, ◌∷◌, ◌≤◌, [], true, false, IfOk, IfErr, OnOk, Some, length};
ghost use Rattle.serial_model.specs.declared.op.Op.TheVariants as ops;
ghost use Rattle.serial_model.specs.declared.reply.Reply.TheVariants as replies;
ghost use Rattle.tx_sets.specs.declared.seen.Seen.{Seen as TheSeen};
ghost use Rattle.tx_sets.specs.Entries.{has_read, has_write, word_at};
ghost use Rattle.engine_pages.specs.Passes.{view, IsPassOf};
ghost use Rattle.array_pages.specs.Spans.{walk_holds, IsArrayKey};
ghost use Rattle.array_pages.specs.Walks.{MeetsSo};
ghost use Rattle.page_commit.specs.Live.{IsLive};
ghost use Rattle.page_commit.specs.Places.{spot_at, IsKeyAt};
ghost use Rattle.page_commit.specs.Turning.{HasDone, IsValueRead};
ghost use Rattle.page_commit.specs.Refusing.{HasRefused};
ghost use Rattle.page_commit.specs.Calls.{read_most, RefusesRead};
ghost use Rattle.page_commit.specs.Keeping.{lacks_entry, HasRoomFor, HasValue, KeepsFound, MeetsFound, MeetsPointer};

use crate::places::spot_of;
use crate::refusing::refuse;
use array_pages::{Found, find, read_at};
use engine_pages::{Engine, Pass, RefusalCause, SetName};
use serial_model::Key;
use tx_sets::{PointerSet, ReadEntry, Seen, Sets};

/// The value at a key: what the transaction wrote last, else what it first read.
#[inline(always)]
pub(crate) fn value_of(
    engine: &Engine,
    pass: &mut Pass,
    sets: &mut Sets,
    key: Key,
) -> Result<u64, RefusalCause>
    requires of { IsPassOf engine.now pass.old }
    requires live { IsLive sets.old (view pass.old) }
    requires fits { IsArrayKey (view pass.old).layout.decls key }
    ensures of { IsPassOf engine.now pass.new }
    ensures replies { IfOk result (λ value.
        HasDone (ops.Read key) (Some (replies.Value value)) sets.old sets.new (view pass.old) (view pass.new)) }
    ensures value { IfOk result (λ value.
        IsValueRead key value sets.old (view pass.old) (view pass.new)) }
    ensures cause { IfErr result (λ why.
        RefusesRead sets.old sets.new key why (view pass.old) (view pass.new)) }
    ensures refused { IfErr result (λ why. HasRefused why (view pass.old) (view pass.new)) }
    ensures most { (view pass.new).steps ≤ (view pass.old).steps + read_most }
    ensures grows { length sets.new.holds ≤ length sets.old.holds + walk_holds }
{
    let Some(own) = sets.writes.find(key) else {
        return read_value(engine, pass, sets, key);
    };
    Ok(own.unwrap_or(0))
}

/// What the transaction first read at a key that it does not write. A key that it has not met before is read, and kept.
#[inline(always)]
pub(crate) fn read_value(
    engine: &Engine,
    pass: &mut Pass,
    sets: &mut Sets,
    key: Key,
) -> Result<u64, RefusalCause>
    requires of { IsPassOf engine.now pass.old }
    requires live { IsLive sets.old (view pass.old) }
    requires fits { IsArrayKey (view pass.old).layout.decls key }
    requires unwritten { has_write key sets.old.writes ≡ false }
    ensures of { IsPassOf engine.now pass.new }
    ensures value { IfOk result (λ value.
        HasValue key value sets.old sets.new (view pass.old) (view pass.new)) }
    ensures cause { IfErr result (λ why.
        RefusesRead sets.old sets.new key why (view pass.old) (view pass.new)) }
    ensures refused { IfErr result (λ why. HasRefused why (view pass.old) (view pass.new)) }
    ensures most { (view pass.new).steps ≤ (view pass.old).steps + read_most }
    ensures grows { length sets.new.holds ≤ length sets.old.holds + walk_holds }
{
    let Some(entry) = sets.reads.find(key) else {
        return read_anew(engine, pass, sets, key);
    };
    Ok(entry.value)
}

/// The same where the key's record has its word here, in a page that the pass holds.
#[inline(always)]
pub(crate) fn read_value_at(
    engine: &Engine,
    pass: &mut Pass,
    sets: &mut Sets,
    key: Key,
    at: u32,
) -> Result<u64, RefusalCause>
    requires of { IsPassOf engine.now pass.old }
    requires live { IsLive sets.old (view pass.old) }
    requires fits { IsArrayKey (view pass.old).layout.decls key }
    requires unwritten { has_write key sets.old.writes ≡ false }
    requires place { IsKeyAt (view pass.old) key at }
    requires index { (spot_at (view pass.old).layout.slots at).index ≡ key.key % 32 }
    ensures of { IsPassOf engine.now pass.new }
    ensures value { IfOk result (λ value.
        HasValue key value sets.old sets.new (view pass.old) (view pass.new)) }
    ensures cause { IfErr result (λ why.
        RefusesRead sets.old sets.new key why (view pass.old) (view pass.new)) }
    ensures refused { IfErr result (λ why. HasRefused why (view pass.old) (view pass.new)) }
    ensures most { (view pass.new).steps ≤ (view pass.old).steps + read_most }
    ensures grows { length sets.new.holds ≤ length sets.old.holds + walk_holds }
{
    let Some(entry) = sets.reads.find(key) else {
        return read_held(engine, pass, sets, key, at);
    };
    Ok(entry.value)
}

// Reads a key that the transaction has not met before, in a page that the pass holds.
#[inline(always)]
fn read_held(
    engine: &Engine,
    pass: &mut Pass,
    sets: &mut Sets,
    key: Key,
    at: u32,
) -> Result<u64, RefusalCause>
    requires of { IsPassOf engine.now pass.old }
    requires live { IsLive sets.old (view pass.old) }
    requires fits { IsArrayKey (view pass.old).layout.decls key }
    requires unread { has_read key sets.old.reads ≡ false }
    requires unwritten { has_write key sets.old.writes ≡ false }
    requires place { IsKeyAt (view pass.old) key at }
    requires index { (spot_at (view pass.old).layout.slots at).index ≡ key.key % 32 }
    ensures of { IsPassOf engine.now pass.new }
    ensures value { IfOk result (λ value.
        HasValue key value sets.old sets.new (view pass.old) (view pass.new)) }
    ensures cause { IfErr result (λ why.
        RefusesRead sets.old sets.new key why (view pass.old) (view pass.new)) }
    ensures refused { IfErr result (λ why. HasRefused why (view pass.old) (view pass.new)) }
    ensures most { (view pass.new).steps ≤ (view pass.old).steps + read_most }
    ensures grows { length sets.new.holds ≤ length sets.old.holds + walk_holds }
{
    let spot = spot_of(engine, at);
    match read_at(engine, pass, key, spot, at) {
        Ok(found) => {
            if is_wide(sets, found) {
                let why = RefusalCause::Wide {
                    set: SetName::Reads,
                };
                return Err(refuse(engine, pass, sets, why));
            }
            Ok(keep(sets, key, found))
        }
        Err(why) => Err(refuse(engine, pass, sets, why)),
    }
}

// Reads a key that the transaction has not met before.
#[inline(always)]
fn read_anew(
    engine: &Engine,
    pass: &mut Pass,
    sets: &mut Sets,
    key: Key,
) -> Result<u64, RefusalCause>
    requires of { IsPassOf engine.now pass.old }
    requires live { IsLive sets.old (view pass.old) }
    requires fits { IsArrayKey (view pass.old).layout.decls key }
    requires unread { has_read key sets.old.reads ≡ false }
    requires unwritten { has_write key sets.old.writes ≡ false }
    ensures of { IsPassOf engine.now pass.new }
    ensures value { IfOk result (λ value.
        HasValue key value sets.old sets.new (view pass.old) (view pass.new)) }
    ensures cause { IfErr result (λ why.
        RefusesRead sets.old sets.new key why (view pass.old) (view pass.new)) }
    ensures refused { IfErr result (λ why. HasRefused why (view pass.old) (view pass.new)) }
    ensures most { (view pass.new).steps ≤ (view pass.old).steps + read_most }
    ensures grows { length sets.new.holds ≤ length sets.old.holds + walk_holds }
{
    match find(engine, pass, key, &mut sets.holds, &sets.pointers) {
        Ok(found) => {
            if is_wide(sets, found) {
                let why = RefusalCause::Wide {
                    set: SetName::Reads,
                };
                return Err(refuse(engine, pass, sets, why));
            }
            Ok(keep(sets, key, found))
        }
        Err(why) => Err(refuse(engine, pass, sets, why)),
    }
}

// What was found needs an entry, and there is no room for one.
#[inline(always)]
fn is_wide(sets: &Sets, found: Found) -> bool
    ensures { result ≡ lacks_entry sets.now found }
{
    let room = sets.has_read_room();
    match found {
        Found::Volatile { .. } => !room,
        Found::Snapshot { .. } | Found::Zero { .. } => false,
    }
}

// Keeps what was found of a key: its record, or the pointer at which the pages in memory end. Answers its value.
#[inline(always)]
fn keep(sets: &mut Sets, key: Key, found: Found) -> u64
    requires room { HasRoomFor sets.old found }
    requires unread { has_read key sets.old.reads ≡ false }
    requires met { MeetsFound sets.old.pointers found }
    ensures keeps { KeepsFound key found result sets.old sets.new }
{
    match found {
        Found::Volatile { at, word, value } => {
            let _ = sets.reads.push(ReadEntry {
                key,
                at,
                word,
                value,
            });
            value
        }
        Found::Snapshot { value, pointer, .. } => {
            keep_pointer(&mut sets.pointers, pointer);
            value
        }
        Found::Zero { pointer } => {
            keep_pointer(&mut sets.pointers, pointer);
            0
        }
    }
}

// The pointer is in the set then. There is room for it where it is not.
#[inline(always)]
fn keep_pointer(pointers: &mut PointerSet, pointer: Seen)
    requires { MeetsSo pointers.old pointer.at pointer.word }
    ensures { MeetsPointer pointer pointers.old pointers.new }
{
    if !pointers.contains(pointer.at) {
        let _ = pointers.push(pointer);
    }
}
