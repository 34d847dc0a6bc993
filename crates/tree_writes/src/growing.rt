// The record of a key of a tree that a transaction writes: a leaf that lacks the key gets it.
ghost use Rattle.std.specs.Prelude.{◌≡◌, ◌≢◌, ◌+◌, ◌-◌, ◌/◌, ◌%◌, ◌<◌, ◌≤◌, ◌^◌, true, false, length, List, Contains};
ghost use Rattle.std.specs.Prelude.{Err, IfOk, IfErr, OnOk, None};
ghost use Rattle.serial_model.specs.declared.key.Key.{Key};
ghost use Rattle.tx_sets.specs.declared.sets.Sets.{Sets as TheSets};
ghost use Rattle.tx_sets.specs.Entries.{has_read, has_word, has_write, write_in};
ghost use Rattle.tx_sets.specs.Gathered.{has_read_room};
ghost use Rattle.engine_pages.specs.Layout.{page_at};
ghost use Rattle.engine_pages.specs.Pages.{is_tree};
ghost use Rattle.engine_pages.specs.Passes.{view, IsPassOf};
ghost use Rattle.engine_pages.specs.declared.view.Moved.{Moved};
ghost use Rattle.engine_pages.specs.declared.view.View.{View};
ghost use Rattle.foster_tree.specs.Locking.{KnowsFull};
ghost use Rattle.page_commit.specs.Live.{IsLive};
ghost use Rattle.page_commit.specs.Refusing.{HasRefused};
ghost use Rattle.tree_making.specs.Making.{IsMade};
ghost use Rattle.tree_making.specs.declared.making.Made.TheVariants.{Lacking};
ghost use Rattle.tree_writes.specs.Causes.{write_most, RefusesTreeWrite};
ghost use Rattle.tree_writes.specs.Writing.{named_word, place_of, GrowsSo, HasBrought, HasSplitFor, IsLeafWord, KeepsAdded};
ghost use Rattle.tree_writes.specs.Writing.{TellsMoved};

use crate::making::bring;
use array_pages::{conflict, word_at};
use engine_pages::{Engine, Pass, RefusalCause, SetName};
use foster_tree::{add_key, moved_record, split};
use page_commit::refuse_on;
use serial_model::Key;
use tree_heads::{HEADER_LOCK, load_header};
use tree_making::Made;
use tree_walks::Leaf;
use tx_sets::{ReadEntry, Sets};

/// The word of a record that is absent and was never written.
const ABSENT: u64 = 1 << 61;

/// How many records a full leaf has.
const FULL: u64 = 16;

/// Where the word of a leaf's first record stands in its page.
const FIRST_WORD: u32 = 17;

/// How many words a record of a leaf takes.
const RECORD: u32 = 3;

/// Where the record of a key stands that the transaction doesn't write yet: where it has read the key, that record; else
/// the one in the key's leaf, which gets the key, absent, where it lacks it. The write set has room for it then. A full
/// leaf is split for it, and the transaction ends where its sets name a word of that leaf.
pub(crate) fn place_seen(
    engine: &Engine,
    pass: &mut Pass,
    sets: &mut Sets,
    key: Key,
) -> Result<u32, RefusalCause>
    requires of { IsPassOf engine.now pass.old }
    requires live { IsLive sets.old (view pass.old) }
    requires tree { is_tree (view pass.old).layout.decls key.storage ≡ true }
    requires unwritten { has_write key sets.old.writes ≡ false }
    ensures of { IsPassOf engine.now pass.new }
    ensures room { OnOk result (length sets.old.writes < 16) }
    ensures again { OnOk result (has_read key sets.old.reads ≡ true → sets.new.reads ≡ sets.old.reads) }
    ensures brings { IfOk result (λ at.
        HasBrought key at sets.old sets.new (view pass.old) (view pass.new)) }
    ensures cause { IfErr result (λ why.
        RefusesTreeWrite sets.old sets.new key why (view pass.old) (view pass.new)) }
    ensures refused { IfErr result (λ why. HasRefused why (view pass.old) (view pass.new)) }
    ensures most { (view pass.new).steps
        ≤ (view pass.old).steps + write_most (view pass.old).layout.slots }
{
    let Some(entry) = sets.reads.find(key) else {
        return place_for(engine, pass, sets, key);
    };
    if sets.writes.is_full() {
        let why = RefusalCause::Wide {
            set: SetName::Writes,
        };
        return Err(refuse_on(engine, pass, sets, key, why));
    }
    Ok(entry.at)
}

// The same of a key that it hasn't read.
fn place_for(
    engine: &Engine,
    pass: &mut Pass,
    sets: &mut Sets,
    key: Key,
) -> Result<u32, RefusalCause>
    requires of { IsPassOf engine.now pass.old }
    requires live { IsLive sets.old (view pass.old) }
    requires tree { is_tree (view pass.old).layout.decls key.storage ≡ true }
    requires unwritten { has_write key sets.old.writes ≡ false }
    requires unread { has_read key sets.old.reads ≡ false }
    ensures of { IsPassOf engine.now pass.new }
    ensures room { OnOk result (length sets.old.writes < 16) }
    ensures brings { IfOk result (λ at.
        HasBrought key at sets.old sets.new (view pass.old) (view pass.new)) }
    ensures cause { IfErr result (λ why.
        RefusesTreeWrite sets.old sets.new key why (view pass.old) (view pass.new)) }
    ensures refused { IfErr result (λ why. HasRefused why (view pass.old) (view pass.new)) }
    ensures most { (view pass.new).steps
        ≤ (view pass.old).steps + write_most (view pass.old).layout.slots }
{
    let made = bring(engine, pass, sets, key)?;
    match made {
        Made::Record(at) => Ok(at),
        Made::Lacking(leaf) => grow(engine, pass, sets, key, leaf),
    }
}

// The leaf, which lacks the key, gets it. A header that was seen locked is loaded once more, and the transaction refused.
fn grow(
    engine: &Engine,
    pass: &mut Pass,
    sets: &mut Sets,
    key: Key,
    leaf: Leaf,
) -> Result<u32, RefusalCause>
    requires of { IsPassOf engine.now pass.old }
    requires live { IsLive sets.old (view pass.old) }
    requires unwritten { has_write key sets.old.writes ≡ false }
    requires unread { has_read key sets.old.reads ≡ false }
    requires room { length sets.old.writes < 16 }
    requires lacking { IsMade key sets.old.headers (Lacking leaf) (view pass.old) }
    ensures of { IsPassOf engine.now pass.new }
    ensures grows { GrowsSo key sets.old sets.new result (view pass.old) (view pass.new) }
{
    let at = word_at(engine, leaf.slot, 0);
    let locked = leaf.header >= HEADER_LOCK;
    if locked {
        let seen = load_header(engine, pass, leaf.slot, leaf.span, at);
        let why = conflict(at, leaf.header, seen);
        return Err(refuse_on(engine, pass, sets, key, why));
    }
    if lacks_room(sets, at) {
        let why = RefusalCause::Wide {
            set: SetName::Reads,
        };
        return Err(refuse_on(engine, pass, sets, key, why));
    }
    let full = leaf.header % 256 == FULL;
    if full {
        return split_for(engine, pass, sets, key, leaf, at);
    }
    add_to(engine, pass, sets, key, leaf, at)
}

// The transaction keeps the header at this place, and has no room for one record more that it keeps.
fn lacks_room(sets: &Sets, head: u32) -> bool
    ensures lacks { result ≡ true
        → (has_word head sets.now.headers ≡ true) × (has_read_room sets.now ≡ false) }
    ensures room { result ≡ false → has_word head sets.now.headers ≡ true → has_read_room sets.now ≡ true }
{
    if !sets.headers.contains(head) {
        return false;
    }
    !sets.has_read_room()
}

// The key is added to a leaf that has room for it.
fn add_to(
    engine: &Engine,
    pass: &mut Pass,
    sets: &mut Sets,
    key: Key,
    leaf: Leaf,
    head: u32,
) -> Result<u32, RefusalCause>
    requires of { IsPassOf engine.now pass.old }
    requires live { IsLive sets.old (view pass.old) }
    requires unwritten { has_write key sets.old.writes ≡ false }
    requires unread { has_read key sets.old.reads ≡ false }
    requires room { length sets.old.writes < 16 }
    requires lacking { IsMade key sets.old.headers (Lacking leaf) (view pass.old) }
    requires unlocked { leaf.header < 2 ^ 60 }
    requires few { leaf.header % 256 ≢ 16 }
    requires head { head ≡ page_at (view pass.old).layout.slots leaf.slot 0 }
    requires kept { has_word head sets.old.headers ≡ true → has_read_room sets.old ≡ true }
    ensures of { IsPassOf engine.now pass.new }
    ensures grows { GrowsSo key sets.old sets.new result (view pass.old) (view pass.new) }
{
    match add_key(engine, pass, leaf.slot, leaf.span, key, leaf.header) {
        Ok(at) => {
            keep_added(sets, key, at, head, leaf.header + 1);
            Ok(at)
        }
        Err(why) => Err(refuse_on(engine, pass, sets, key, why)),
    }
}

// Where the transaction keeps the header, it keeps it as it is now, and the new record, which is absent.
fn keep_added(sets: &mut Sets, key: Key, at: u32, head: u32, word: u64)
    requires unread { has_read key sets.old.reads ≡ false }
    requires room { has_word head sets.old.headers ≡ true → has_read_room sets.old ≡ true }
    ensures { KeepsAdded key at head word sets.old sets.new }
{
    if !sets.headers.contains(head) {
        return;
    }
    sets.headers.renew(head, word);
    let _ = sets.reads.push(ReadEntry {
        key,
        at,
        word: ABSENT,
        value: 0,
    });
}

// A full leaf is split, with the key.
fn split_for(
    engine: &Engine,
    pass: &mut Pass,
    sets: &mut Sets,
    key: Key,
    leaf: Leaf,
    head: u32,
) -> Result<u32, RefusalCause>
    requires of { IsPassOf engine.now pass.old }
    requires live { IsLive sets.old (view pass.old) }
    requires unwritten { has_write key sets.old.writes ≡ false }
    requires room { length sets.old.writes < 16 }
    requires lacking { IsMade key sets.old.headers (Lacking leaf) (view pass.old) }
    requires unlocked { leaf.header < 2 ^ 60 }
    requires full { leaf.header % 256 ≡ 16 }
    requires head { head ≡ page_at (view pass.old).layout.slots leaf.slot 0 }
    ensures of { IsPassOf engine.now pass.new }
    ensures grows { GrowsSo key sets.old sets.new result (view pass.old) (view pass.new) }
{
    match split(
        engine,
        pass,
        leaf.slot,
        leaf.span,
        key,
        leaf.header,
        &mut sets.holds,
    ) {
        Ok(at) => end_split(engine, pass, sets, key, leaf, head, at),
        Err(why) => Err(refuse_on(engine, pass, sets, key, why)),
    }
}

// The transaction goes on behind a split of the leaf, unless its sets name a word of the leaf's page: it is refused then,
// at that word, which is loaded once more.
fn end_split(
    engine: &Engine,
    pass: &mut Pass,
    sets: &Sets,
    key: Key,
    leaf: Leaf,
    head: u32,
    at: u32,
) -> Result<u32, RefusalCause>
    requires of { IsPassOf engine.now pass.old }
    requires split { (old : TheSets) × (v : View) × HasSplitFor key leaf at old sets.now v (view pass.old)
        × (has_write key old.writes ≡ false) × (length old.writes < 16)
        × (head ≡ page_at v.layout.slots leaf.slot 0) }
    ensures of { IsPassOf engine.now pass.new }
    ensures grows { (old : TheSets) (v : View) → HasSplitFor key leaf at old sets.now v (view pass.old)
        → has_write key old.writes ≡ false → length old.writes < 16 → head ≡ page_at v.layout.slots leaf.slot 0
        → GrowsSo key old sets.now result v (view pass.new) }
{
    let Some(word) = named_word(sets, head) else {
        return Ok(at);
    };
    let why = moved_word(engine, pass, leaf, head, word);
    Err(refuse_on(engine, pass, sets, key, why))
}

// The first word that the sets name of the page that begins here: its header, or the word of a record that was read or is
// written.
fn named_word(sets: &Sets, first: u32) -> Option<u32>
    ensures { result ≡ named_word first sets.now }
{
    if sets.headers.contains(first) {
        return Some(first);
    }
    match sets.reads.find_in(first) {
        Some(entry) => Some(entry.at),
        None => written_word(sets, first),
    }
}

// The word of a record of that page that is written.
fn written_word(sets: &Sets, first: u32) -> Option<u32>
    ensures { result ≡ place_of None (write_in first sets.now.writes) }
{
    match sets.writes.find_in(first) {
        Some(write) => Some(write.at),
        None => None,
    }
}

// The conflict at a word of a leaf that was split: at its header, of which is expected what it was before the split; or at
// a record, which is locked for good.
fn moved_word(engine: &Engine, pass: &mut Pass, leaf: Leaf, head: u32, word: u32) -> RefusalCause
    requires of { IsPassOf engine.now pass.old }
    requires can { (keys : List Key) × KnowsFull (view pass.old) leaf.slot leaf.span keys }
    requires moved { (x : Moved) × Contains (view pass.old).moved x × (x.slot ≡ leaf.slot) }
    requires head { head ≡ page_at (view pass.old).layout.slots leaf.slot 0 }
    requires word { IsLeafWord (view pass.old).layout.slots leaf.slot word }
    ensures of { IsPassOf engine.now pass.new }
    ensures told { TellsMoved leaf word result (view pass.old) (view pass.new) }
{
    if word == head {
        let seen = load_header(engine, pass, leaf.slot, leaf.span, head);
        return conflict(head, leaf.header, seen);
    }
    let index = index_of(head, word);
    moved_record(engine, pass, leaf.slot, leaf.span, index)
}

// Which record of the page that begins here has this word.
fn index_of(first: u32, word: u32) -> u32
    ensures { result ≡ (word - first - 17) / 3 }
{
    word.saturating_sub(first).saturating_sub(FIRST_WORD) / RECORD
}
