// Reads of keys of trees.
ghost use Rattle.std.specs.Prelude.{◌≡◌, ◌+◌, ◌≤◌, true, false, IfOk, IfErr, Some};
ghost use Rattle.serial_model.specs.declared.op.Op.TheVariants as ops;
ghost use Rattle.serial_model.specs.Step.{reply_of};
ghost use Rattle.tx_sets.specs.Entries.{has_read, has_write};
ghost use Rattle.engine_pages.specs.Pages.{is_tree};
ghost use Rattle.engine_pages.specs.Passes.{view, IsPassOf};
ghost use Rattle.page_commit.specs.Calls.{end_most};
ghost use Rattle.page_commit.specs.Keeping.{MeetsPointer};
ghost use Rattle.page_commit.specs.Live.{IsLive};
ghost use Rattle.page_commit.specs.Refusing.{HasRefused};
ghost use Rattle.page_commit.specs.Turning.{HasDone};
ghost use Rattle.tree_walks.specs.Finds.{find_steps};
ghost use Rattle.tree_calls.specs.Causes.{RefusesTreeRead};
ghost use Rattle.tree_calls.specs.Keeping.{entry_value, lacks_entry, value_in, HasPlaceFor, HasRoomFor, HasValue, KeepsFound};
ghost use Rattle.tree_calls.specs.Keeping.{IsTreeValueRead};

use engine_pages::{Engine, Pass, RefusalCause, SetName};
use page_commit::refuse_on;
use serial_model::Key;
use tree_walks::{Found, find};
use tx_sets::{HeaderSet, PointerSet, ReadEntry, Seen, Sets};

/// The word of a record without a value has this bit.
const ABSENT: u64 = 1 << 61;

/// What stands at the key of a tree, if it has a value: what the transaction wrote last, else what it first read. A key
/// that it has not met before is read, and what vouches for the answer is kept: its record, the header of its leaf, or the
/// pointer at which the pages in memory end.
pub fn read(
    engine: &Engine,
    pass: &mut Pass,
    sets: &mut Sets,
    key: Key,
) -> Result<Option<u64>, RefusalCause>
    requires of { IsPassOf engine.now pass.old }
    requires live { IsLive sets.old (view pass.old) }
    requires tree { is_tree (view pass.old).layout.decls key.storage ≡ true }
    ensures of { IsPassOf engine.now pass.new }
    ensures replies { IfOk result (λ value.
        HasDone (ops.Read key) (Some (reply_of true value)) sets.old sets.new (view pass.old) (view pass.new)) }
    ensures answer { IfOk result (λ value.
        IsTreeValueRead key value sets.old (view pass.old) (view pass.new)) }
    ensures cause { IfErr result (λ why.
        RefusesTreeRead sets.old sets.new key why (view pass.old) (view pass.new)) }
    ensures refused { IfErr result (λ why. HasRefused why (view pass.old) (view pass.new)) }
    ensures most { (view pass.new).steps ≤ (view pass.old).steps + find_steps + end_most }
{
    let Some(own) = sets.writes.find(key) else {
        return read_value(engine, pass, sets, key);
    };
    Ok(own)
}

/// What the transaction first read at a key of a tree that it does not write.
pub fn read_value(
    engine: &Engine,
    pass: &mut Pass,
    sets: &mut Sets,
    key: Key,
) -> Result<Option<u64>, RefusalCause>
    requires of { IsPassOf engine.now pass.old }
    requires live { IsLive sets.old (view pass.old) }
    requires tree { is_tree (view pass.old).layout.decls key.storage ≡ true }
    requires unwritten { has_write key sets.old.writes ≡ false }
    ensures of { IsPassOf engine.now pass.new }
    ensures value { IfOk result (λ value.
        HasValue key value sets.old sets.new (view pass.old) (view pass.new)) }
    ensures answer { IfOk result (λ value.
        IsTreeValueRead key value sets.old (view pass.old) (view pass.new)) }
    ensures cause { IfErr result (λ why.
        RefusesTreeRead sets.old sets.new key why (view pass.old) (view pass.new)) }
    ensures refused { IfErr result (λ why. HasRefused why (view pass.old) (view pass.new)) }
    ensures most { (view pass.new).steps ≤ (view pass.old).steps + find_steps + end_most }
{
    let Some(entry) = sets.reads.find(key) else {
        return read_anew(engine, pass, sets, key);
    };
    Ok(told(entry))
}

// Reads a key that the transaction has not met before.
fn read_anew(
    engine: &Engine,
    pass: &mut Pass,
    sets: &mut Sets,
    key: Key,
) -> Result<Option<u64>, RefusalCause>
    requires of { IsPassOf engine.now pass.old }
    requires live { IsLive sets.old (view pass.old) }
    requires tree { is_tree (view pass.old).layout.decls key.storage ≡ true }
    requires unread { has_read key sets.old.reads ≡ false }
    requires unwritten { has_write key sets.old.writes ≡ false }
    ensures of { IsPassOf engine.now pass.new }
    ensures value { IfOk result (λ value.
        HasValue key value sets.old sets.new (view pass.old) (view pass.new)) }
    ensures answer { IfOk result (λ value.
        IsTreeValueRead key value sets.old (view pass.old) (view pass.new)) }
    ensures cause { IfErr result (λ why.
        RefusesTreeRead sets.old sets.new key why (view pass.old) (view pass.new)) }
    ensures refused { IfErr result (λ why. HasRefused why (view pass.old) (view pass.new)) }
    ensures most { (view pass.new).steps ≤ (view pass.old).steps + find_steps + end_most }
{
    match find(
        engine,
        pass,
        key,
        &mut sets.holds,
        &sets.pointers,
        &sets.headers,
    ) {
        Ok(found) => {
            if lacks_room(sets, found) {
                let why = RefusalCause::Wide {
                    set: SetName::Reads,
                };
                return Err(refuse_on(engine, pass, sets, key, why));
            }
            Ok(keep(sets, key, found))
        }
        Err(why) => Err(refuse_on(engine, pass, sets, key, why)),
    }
}

/// The value of an entry, if it has one: its word tells.
pub fn told(entry: ReadEntry) -> Option<u64>
    ensures { result ≡ entry_value entry }
{
    if entry.word < ABSENT {
        return Some(entry.value);
    }
    None
}

/// Whether what was found needs one more record or header in the sets, and there is no room for one.
pub fn lacks_room(sets: &Sets, found: Found) -> bool
    ensures { result ≡ lacks_entry sets.now found }
{
    let room = sets.has_read_room();
    match found {
        Found::Volatile { .. } => !room,
        Found::Absent { header, .. } => !room && !sets.headers.contains(header),
        Found::Snapshot { .. } | Found::Zero { .. } => false,
    }
}

/// Keeps what was found of a key: its record, or the header or pointer that vouches for it. Answers its value.
pub fn keep(sets: &mut Sets, key: Key, found: Found) -> Option<u64>
    requires room { HasRoomFor sets.old found }
    requires unread { has_read key sets.old.reads ≡ false }
    ensures keeps { KeepsFound key found sets.old sets.new }
    ensures value { result ≡ value_in found }
{
    match found {
        Found::Volatile { at, word, value } => {
            let entry = ReadEntry {
                key,
                at,
                word,
                value,
            };
            let _ = sets.reads.push(entry);
            told(entry)
        }
        Found::Absent { header, word } => {
            keep_header(&mut sets.headers, Seen { at: header, word });
            None
        }
        Found::Snapshot { value, pointer, .. } => {
            keep_pointer(&mut sets.pointers, pointer);
            Some(value)
        }
        Found::Zero { pointer } => {
            keep_pointer(&mut sets.pointers, pointer);
            None
        }
    }
}

/// The header is in the set then. There is room for it where it is not.
pub fn keep_header(headers: &mut HeaderSet, header: Seen)
    requires { HasPlaceFor 256 header headers.old }
    ensures { MeetsPointer header headers.old headers.new }
{
    if !headers.contains(header.at) {
        let _ = headers.push(header);
    }
}

/// The pointer is in the set then. There is room for it where it is not.
pub fn keep_pointer(pointers: &mut PointerSet, pointer: Seen)
    requires { HasPlaceFor 128 pointer pointers.old }
    ensures { MeetsPointer pointer pointers.old pointers.new }
{
    if !pointers.contains(pointer.at) {
        let _ = pointers.push(pointer);
    }
}
