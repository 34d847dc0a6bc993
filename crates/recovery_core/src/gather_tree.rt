// The records of a tree's pages.
ghost use Rattle.std.specs.Prelude.{◌≡◌, ℕ, ◌+◌, ◌-◌, ◌*◌, ◌/◌, ◌^◌, ◌<◌, ◌≤◌, Err, IsTrue, ◌↔◌, OnOk, length};
ghost use Rattle.std.specs.Prelude.{drop, slice_index};
ghost use Rattle.serial_model.specs.declared.decl.Decl.TheVariants.{Tree};
ghost use Rattle.snapshot_store.specs.Content.{words_of};
ghost use Rattle.snapshot_store.specs.TreePages.{tree_format, count_of, records_at};
ghost use Rattle.recovery_core.specs.SnapshotPages.{IsPageUpTo};
ghost use Rattle.recovery_core.specs.Damage.{BreaksTo};
ghost use Rattle.recovery_core.specs.Gather.{Puts, tree_records, Gathered};

use crate::gather_page::{first_byte, has_kind, put};
use lists::{Memory, OrMemory};
use serial_model::{Key, State};
use snapshot_store::{PagePlace, SnapStore, is_inner};
use wire_form::PageKind;

// How many records or children a page has.
fn count_of(words: &[u64; 64]) -> usize
    ensures is { result ≡ count_of words.now }
    ensures few { result < 256 }
{
    (words[0] % 256) as usize
}

// The index of an interior page's last child.
fn last_child(words: &[u64; 64]) -> usize
    requires some { 2 ≤ count_of words.now }
    requires most { count_of words.now ≤ 30 }
    ensures is { result ≡ count_of words.now - 1 }
    ensures most { result < 30 }
{
    count_of(words) - 1
}

// Whether no record of a leaf has a later epoch.
fn are_up_to(epoch: u32, words: &[u64; 64]) -> bool
    requires { count_of words.now ≤ 16 }
    ensures { IsTrue result ↔ ((i : ℕ) → i < count_of words.now
        → slice_index words.now (17 + 3 * i) / 2 ^ 40 ≤ epoch) }
{
    for i in 0..count_of(words) {
        if words[17 + 3 * i] >> 40 > u64::from(epoch) {
            return false;
        }
    }
    true
}

// Whether the words are a tree's page for a place, with no record of a later epoch.
fn is_tree_page(epoch: u32, place: PagePlace, words: &[u64; 64]) -> bool
    requires first { 1 ≤ place.number }
    requires last { place.number ≤ 65536 }
    ensures { (id : ℕ) → IsTrue result ↔ IsPageUpTo epoch (Tree id) place words.now }
{
    let (low, high) = (place.low, place.high);
    if has_kind(PageKind::TreeInner { low, high }, place.number, words) {
        return true;
    }
    if !has_kind(PageKind::TreeLeaf { low, high }, place.number, words) {
        return false;
    }
    are_up_to(epoch, words)
}

// Puts the records of a leaf, the last first: each key has one.
fn put_leaf(state: &mut State, id: u8, words: &[u64; 64]) -> Result<(), Memory>
    requires { count_of words.now ≤ 16 }
    ensures { OnOk result
        (Puts (tree_records (records_at (count_of words.now) (drop 16 words.now)) id) state.old state.new) }
{
    let mut i = count_of(words);
    while i > 0 {
        i -= 1;
        let key = Key {
            storage: id,
            key: words[16 + 3 * i],
        };
        put(state, key, words[18 + 3 * i])?;
    }
    Ok(())
}

/// Puts the records of the pages that a place of a tree leads to.
pub(crate) fn gather_tree(
    store: &SnapStore,
    epoch: u32,
    id: u8,
    depth: u32,
    place: PagePlace,
    state: &mut State,
) -> Result<(), OrMemory<u64>>
    requires there { place.number ≤ length store.now.pages }
    ensures gathered { OnOk result (Gathered tree_format (IsPageUpTo epoch (Tree id))
        (words_of store.now.pages) depth id place state.old state.new) }
    ensures breaks { (at : ℕ) → result ≡ Err (OrMemory.Fault at)
        → BreaksTo tree_format (IsPageUpTo epoch (Tree id)) (words_of store.now.pages) at depth place }
{
    if depth == 0 {
        return Err(OrMemory::Fault(first_byte(store, place.number)));
    }
    if place.number == 0 {
        return Ok(());
    }
    let words = store.words(place.number);
    if !is_tree_page(epoch, place, words) {
        return Err(OrMemory::Fault(first_byte(store, place.number)));
    }
    if !is_inner(words) {
        put_leaf(state, id, words)?;
        return Ok(());
    }
    let last = last_child(words);
    let mut low = place.low;
    for i in 0..last {
        let next = words[34 + i];
        let child = PagePlace {
            number: words[4 + i],
            low,
            high: next - 1,
        };
        gather_tree(store, epoch, id, depth - 1, child, state)?;
        low = next;
    }
    let child = PagePlace {
        number: words[4 + last],
        low,
        high: place.high,
    };
    gather_tree(store, epoch, id, depth - 1, child, state)
}
