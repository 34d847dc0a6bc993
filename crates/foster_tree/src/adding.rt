// Keys that are added to leaves of trees.
ghost use Rattle.std.specs.Prelude.{◌≡◌, ◌%◌, ◌<◌, ℕ, slice_set, IfOk, IfErr};
ghost use Rattle.engine_pages.specs.Layout.{page_at};
ghost use Rattle.engine_pages.specs.Passes.{view, IsPassOf};
ghost use Rattle.foster_tree.specs.Adding.{new_entry, CanAddKey, CanStoreIn, CanStoreWord, HasKeyPut, RefusesAdd};
ghost use Rattle.foster_tree.specs.Adding.{Stores};
ghost use Rattle.foster_tree.specs.Filling.{with_record};
ghost use Rattle.wire_form.specs.Leaves.{record_start, tree_leaf, word_in};

use crate::filling::{FIRST_RECORD, RECORD};
use array_pages::{conflict, word_at};
use engine_pages::{Engine, Pass, RefusalCause};
use homes::Span;
use serial_model::Key;
use tree_heads::{lock_header, open_with_key, store_spare};

/// The word of a record that is absent and was never written.
pub(crate) const ABSENT: u64 = 1 << 61;

/// How many records a header counts.
pub(crate) fn count_of(header: u64) -> u32
    ensures { result ≡ header % 256 }
{
    (header % 256) as u32
}

/// Adds a key to a leaf that has it not and isn't full, whose header was last seen as this word: the header is locked,
/// the key stored with an absent record, and the header opened with its count raised. Answers the place of the record's
/// word. Where the transaction has kept the header, it keeps it as it is now, and the new record, which is absent. The
/// transaction is refused where the header has changed.
pub fn add_key(
    engine: &Engine,
    pass: &mut Pass,
    slot: u32,
    span: Span,
    key: Key,
    word: u64,
) -> Result<u32, RefusalCause>
    requires of { IsPassOf engine.now pass.old }
    requires can { CanAddKey (view pass.old) slot span key word }
    ensures of { IsPassOf engine.now pass.new }
    ensures added { IfOk result (λ at.
        HasKeyPut slot span key word at (view pass.old) (view pass.new)) }
    ensures cause { IfErr result (λ why. RefusesAdd slot word why (view pass.old) (view pass.new)) }
{
    let at = word_at(engine, slot, 0);
    let seen = lock_header(engine, pass, slot, span, at, word);
    if seen != word {
        return Err(conflict(at, word, seen));
    }
    let place = store_key(engine, pass, slot, key, count_of(word));
    open_with_key(engine, pass, slot, span, key, at, word + 1);
    Ok(place)
}

// Stores the key's record, absent, in the words behind so many records of the leaf whose header is locked. Answers the
// place of the record's word.
fn store_key(engine: &Engine, pass: &mut Pass, slot: u32, key: Key, count: u32) -> u32
    requires of { IsPassOf engine.now pass.old }
    requires can { CanStoreIn (view pass.old) slot count }
    requires few { count < 16 }
    ensures of { IsPassOf engine.now pass.new }
    ensures can { CanStoreIn (view pass.new) slot count }
    ensures place { result ≡ page_at (view pass.old).layout.slots slot (word_in tree_leaf count) }
    ensures stores { Stores slot (λ words. with_record words (record_start tree_leaf count) (new_entry key)) 3
        (view pass.old) (view pass.new) }
{
    let first = FIRST_RECORD + RECORD * count;
    store_word(engine, pass, slot, first, key.key);
    store_word(engine, pass, slot, first + 1, ABSENT);
    store_word(engine, pass, slot, first + 2, 0);
    word_at(engine, slot, first + 1)
}

/// Stores a word that no record has, in the leaf whose header is locked.
pub(crate) fn store_word(engine: &Engine, pass: &mut Pass, slot: u32, index: u32, value: u64)
    requires of { IsPassOf engine.now pass.old }
    requires can { CanStoreWord (view pass.old) slot index }
    requires index { index < 64 }
    ensures of { IsPassOf engine.now pass.new }
    ensures can { (n : ℕ) → CanStoreIn (view pass.old) slot n → CanStoreIn (view pass.new) slot n }
    ensures stores { Stores slot (λ words. slice_set words index value) 1 (view pass.old) (view pass.new) }
{
    let at = word_at(engine, slot, index);
    store_spare(engine, pass, slot, index, at, value);
}
