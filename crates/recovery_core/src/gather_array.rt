// The records of an array's pages.
ghost use Rattle.std.specs.Prelude.{◌≡◌, ℕ, ◌+◌, ◌*◌, ◌/◌, ◌^◌, ◌<◌, ◌≤◌, Err, IsTrue, ◌↔◌, OnOk, length, slice_index};
ghost use Rattle.serial_model.specs.declared.decl.Decl.TheVariants.{Array};
ghost use Rattle.snapshot_store.specs.Content.{words_of};
ghost use Rattle.snapshot_store.specs.ArrayPages.{IsLevel, array_format, array_found, array_kind};
ghost use Rattle.recovery_core.specs.SnapshotPages.{IsPageUpTo};
ghost use Rattle.recovery_core.specs.Damage.{BreaksTo};
ghost use Rattle.recovery_core.specs.Gather.{Puts, only_at, array_records, Gathered};

use crate::gather_page::{first_byte, has_kind, put};
use lists::{Memory, OrMemory};
use serial_model::{Key, State};
use snapshot_store::{PagePlace, SnapStore};
use wire_form::PageKind;

// The kind of the page that stands for a range.
fn kind_of(size: u64, low: u64, high: u64) -> PageKind
    requires level { IsLevel 3 low high }
    requires bounded { high < 4294967296 }
    ensures { result ≡ array_kind size low high }
{
    let span = high - low + 1;
    let rest = size.saturating_sub(low);
    if span <= 32 {
        let used = rest.min(32) as u32;
        return PageKind::ArrayLeaf { used };
    }
    let used = rest.div_ceil(span / 64).min(64) as u32;
    PageKind::ArrayInner { used }
}

// Whether no record of a leaf has a later epoch.
fn are_up_to(epoch: u32, words: &[u64; 64]) -> bool
    ensures { IsTrue result ↔ ((i : ℕ) → i < 32 → slice_index words.now (2 * i) / 2 ^ 40 ≤ epoch) }
{
    for i in 0..32 {
        if words[2 * i] >> 40 > u64::from(epoch) {
            return false;
        }
    }
    true
}

// Whether the words are the array's page for a place, with no record of a later epoch.
fn is_array_page(epoch: u32, size: u32, place: PagePlace, words: &[u64; 64]) -> bool
    requires first { 1 ≤ place.number }
    requires last { place.number ≤ 65536 }
    requires level { IsLevel 3 place.low place.high }
    requires bounded { place.high < 4294967296 }
    ensures { (id : ℕ) → IsTrue result ↔ IsPageUpTo epoch (Array id size) place words.now }
{
    let kind = kind_of(u64::from(size), place.low, place.high);
    if !has_kind(kind, place.number, words) {
        return false;
    }
    if place.high - place.low >= 32 {
        return true;
    }
    are_up_to(epoch, words)
}

// Puts a record of an array at its key, where it was written.
fn put_record(state: &mut State, key: Key, number: u64, value: u64) -> Result<(), Memory>
    ensures { OnOk result (Puts (only_at key (array_found number value)) state.old state.new) }
{
    if number == 0 {
        return Ok(());
    }
    put(state, key, value)
}

// Puts the records of a leaf.
fn put_leaf(state: &mut State, id: u8, low: u64, words: &[u64; 64]) -> Result<(), Memory>
    requires { low < 4294967296 }
    ensures { OnOk result (Puts (array_records words.now id low (low + 32)) state.old state.new) }
{
    for i in 0..32 {
        let key = Key {
            storage: id,
            key: low + i as u64,
        };
        put_record(state, key, words[2 * i], words[2 * i + 1])?;
    }
    Ok(())
}

/// Puts the records of the pages that a place of an array leads to.
pub(crate) fn gather_array(
    store: &SnapStore,
    epoch: u32,
    id: u8,
    size: u32,
    depth: u32,
    place: PagePlace,
    state: &mut State,
) -> Result<(), OrMemory<u64>>
    requires there { place.number ≤ length store.now.pages }
    requires level { IsLevel depth place.low place.high }
    requires bounded { place.high < 4294967296 }
    ensures gathered { OnOk result (Gathered array_format (IsPageUpTo epoch (Array id size))
        (words_of store.now.pages) depth id place state.old state.new) }
    ensures breaks { (at : ℕ) → result ≡ Err (OrMemory.Fault at)
        → BreaksTo array_format (IsPageUpTo epoch (Array id size)) (words_of store.now.pages) at depth place }
{
    if place.number == 0 {
        return Ok(());
    }
    let words = store.words(place.number);
    if !is_array_page(epoch, size, place, words) {
        return Err(OrMemory::Fault(first_byte(store, place.number)));
    }
    if place.high - place.low < 32 {
        put_leaf(state, id, place.low, words)?;
        return Ok(());
    }
    let part = (place.high - place.low + 1) / 64;
    let mut low = place.low;
    for i in 0..64 {
        let child = PagePlace {
            number: words[i],
            low,
            high: low + (part - 1),
        };
        gather_array(store, epoch, id, size, depth - 1, child, state)?;
        low += part;
    }
    Ok(())
}
