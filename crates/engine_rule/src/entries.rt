// The entries of a snapshot's leaves.
ghost use Rattle.std.specs.Prelude.{◌≡◌, ◌^◌, ◌<◌, ◌≤◌, ◌++◌, IfOk, OnOk, slice_index};
ghost use Rattle.snapshot_store.specs.ArrayPages.{array_found};
ghost use Rattle.snapshot_store.specs.TreePages.{node_of, records_of};
ghost use Rattle.engine_rule.specs.Reading.{IsBoundedIn, entry_of, array_entries, tree_entries, record_count};
ghost use Rattle.engine_rule.specs.Reading.{leaf_entries};

use homes::Content;
use lists::Sequence;
use serial_model::{Decl, Key, Memory};
use snapshot_store::PagePlace;
use std::alloc::Global;
use wire_form::number_in;

/// Adds the entry of the key with this record. One that was never written has the number 0, and is none.
fn push_entry(
    entries: &mut Sequence<(Key, Content)>,
    key: Key,
    number: u64,
    value: u64,
) -> Result<(), Memory>
    ensures { OnOk result (entries.new ≡ entries.old ++ entry_of key (array_found number value)) }
{
    if number == 0 {
        return Ok(());
    }
    let content = Content {
        number: number_in(number),
        value: Some(value),
    };
    entries.push((key, content))?;
    Ok(())
}

/// The entries of a leaf.
pub fn leaf_entries(
    alloc: Global,
    decl: Decl,
    words: &[u64; 64],
    place: PagePlace,
) -> Result<Sequence<(Key, Content)>, Memory>
    requires bounded { IsBoundedIn decl place }
    ensures { IfOk result (λ entries. entries ≡ leaf_entries decl words.now place) }
{
    match decl {
        Decl::Array { id, .. } => array_entries(
            alloc,
            id,
            place.low,
            words,
            (place.high + 1).saturating_sub(place.low),
        ),
        Decl::Tree { id } => tree_entries(alloc, id, words),
    }
}

/// The entries of an array's leaf, of so many indexes.
fn array_entries(
    alloc: Global,
    id: u8,
    low: u64,
    words: &[u64; 64],
    count: u64,
) -> Result<Sequence<(Key, Content)>, Memory>
    requires low { low < 2 ^ 32 }
    requires few { count ≤ 2 ^ 32 }
    ensures { IfOk result (λ entries. entries ≡ array_entries id low words.now count) }
{
    let mut entries = Sequence::new(alloc);
    for i in 0..count as usize {
        let key = Key {
            storage: id,
            key: low + i as u64,
        };
        push_entry(
            &mut entries,
            key,
            word_at(words, 2 * i),
            word_at(words, 2 * i + 1),
        )?;
    }
    Ok(entries)
}

/// The word with this index, and 0 behind the last one.
fn word_at(words: &[u64; 64], index: usize) -> u64
    ensures { result ≡ slice_index words.now index }
{
    if index >= 64 {
        return 0;
    }
    words[index]
}

/// How many records a tree's leaf has, none where it isn't one.
fn record_count(words: &[u64; 64]) -> usize
    ensures is { result ≡ record_count words.now }
    ensures few { result < 256 }
{
    if words[0] / 256 == 2 {
        return 0;
    }
    (words[0] % 256) as usize
}

/// The entries of a tree's leaf.
fn tree_entries(
    alloc: Global,
    id: u8,
    words: &[u64; 64],
) -> Result<Sequence<(Key, Content)>, Memory>
    ensures { IfOk result (λ entries. entries ≡ tree_entries id (records_of (node_of words.now))) }
{
    let mut entries = Sequence::new(alloc);
    for i in 0..record_count(words) {
        let key = Key {
            storage: id,
            key: word_at(words, 16 + 3 * i),
        };
        let content = Content {
            number: number_in(word_at(words, 17 + 3 * i)),
            value: Some(word_at(words, 18 + 3 * i)),
        };
        entries.push((key, content))?;
    }
    Ok(entries)
}
