// The places below a page of a snapshot, as its words name them.
ghost use Rattle.std.specs.Prelude.{◌≡◌, ◌^◌, ◌<◌, ◌≤◌, IfOk};
ghost use Rattle.std.specs.List.{AllByRecursion};
ghost use Rattle.snapshot_store.specs.ArrayPages.{array_below, row};
ghost use Rattle.snapshot_store.specs.TreePages.{node_below, node_of};
ghost use Rattle.engine_rule.specs.Reading.{IsBounded, IsBoundedIn, below_in, child_count};

use lists::Sequence;
use serial_model::{Decl, Memory};
use snapshot_store::PagePlace;
use std::alloc::Global;

/// The places below the page at a place of a storage, none where it is a leaf.
pub fn below_in(
    alloc: Global,
    decl: Decl,
    words: &[u64; 64],
    place: PagePlace,
) -> Result<Sequence<PagePlace>, Memory>
    requires bounded { IsBoundedIn decl place }
    ensures is { IfOk result (λ places. places ≡ below_in decl words.now place) }
    ensures bounded { IfOk result (λ places. AllByRecursion (IsBoundedIn decl) places) }
{
    match decl {
        Decl::Array { .. } => array_below(alloc, words, place),
        Decl::Tree { .. } => tree_below(alloc, words, place),
    }
}

/// The places below a page of an array.
fn array_below(
    alloc: Global,
    words: &[u64; 64],
    place: PagePlace,
) -> Result<Sequence<PagePlace>, Memory>
    requires { IsBounded place }
    ensures is { IfOk result (λ places. places ≡ array_below words.now place.low place.high) }
    ensures bounded { IfOk result (λ places. AllByRecursion IsBounded places) }
{
    let span = (place.high + 1).saturating_sub(place.low);
    if span <= 32 {
        return Ok(Sequence::new(alloc));
    }
    row(alloc, words, span / 64, place.low)
}

/// The places in a row, each for so many indexes.
fn row(alloc: Global, words: &[u64; 64], part: u64, low: u64) -> Result<Sequence<PagePlace>, Memory>
    requires part { part < 2 ^ 32 }
    requires low { low < 2 ^ 32 }
    ensures { IfOk result (λ places. places ≡ row words.now part low 64) }
{
    let mut places = Sequence::new(alloc);
    let mut next = low;
    for i in 0..64 {
        places.push(PagePlace {
            number: words[i],
            low: next,
            high: next + part.saturating_sub(1),
        })?;
        next += part;
    }
    Ok(places)
}

/// How many children a tree's page names, none where it is a leaf.
fn child_count(words: &[u64; 64]) -> usize
    ensures is { result ≡ child_count words.now }
    ensures few { result ≤ 31 }
{
    if words[0] / 256 != 2 {
        return 0;
    }
    let count = (words[0] % 256) as usize;
    if count <= 31 {
        return count;
    }
    31
}

/// The places below a page of a tree.
fn tree_below(
    alloc: Global,
    words: &[u64; 64],
    place: PagePlace,
) -> Result<Sequence<PagePlace>, Memory>
    ensures { IfOk result (λ places. places ≡ node_below place.low place.high (node_of words.now)) }
{
    let mut places = Sequence::new(alloc);
    let count = child_count(words);
    if count == 0 {
        return Ok(places);
    }
    let mut low = place.low;
    for i in 0..count - 1 {
        let separator = words[34 + i];
        places.push(PagePlace {
            number: words[4 + i],
            low,
            high: separator.saturating_sub(1),
        })?;
        low = separator;
    }
    places.push(PagePlace {
        number: words[3 + count],
        low,
        high: place.high,
    })?;
    Ok(places)
}
