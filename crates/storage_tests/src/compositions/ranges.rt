// How many pages a round makes, counted by ranges of keys alone.
ghost use Rattle.std.specs.Prelude.{◌<◌};

use super::snapshots::Change;
use lists::Memory;
use std::alloc::Global;
use std::collections::{BTreeMap, BTreeSet};

// How many ranges of so many indexes have changes.
fn ranges(alloc: Global, changes: &[Change], span: u64) -> Result<usize, Memory>
    requires { 0 < span }
{
    let mut ranges = BTreeSet::new(alloc);
    for &(key, _) in changes {
        ranges.insert(key / span)?;
    }
    Ok(ranges.len())
}

/// A page for each range of an array with changes, and a catalogue.
pub fn array_pages(alloc: Global, size: u32, changes: &[Change]) -> Result<usize, Memory> {
    let mut pages = ranges(alloc, changes, 32)?.wrapping_add(1);
    if size > 32 {
        pages = pages.wrapping_add(ranges(alloc, changes, 2048)?);
    }
    if size > 2048 {
        pages = pages.wrapping_add(ranges(alloc, changes, 131_072)?);
    }
    Ok(pages)
}

// The first key of a range, and the last.
type Range = (u64, u64);

/// The ranges of a tree's leaves, and of the pages above them.
#[derive(Drop)]
pub struct TreeRanges {
    leaves: Vec<Range>,
    above: Vec<Range>,
}

/// One leaf for all keys.
pub fn one_leaf(alloc: Global) -> Result<TreeRanges, Memory> {
    let mut leaves = Vec::new(alloc);
    leaves.push((0, u64::MAX))?;
    Ok(TreeRanges {
        leaves,
        above: Vec::new(alloc),
    })
}

fn is_changed(range: Range, changes: &[Change]) -> bool {
    let (low, high) = range;
    for &(key, _) in changes {
        if low <= key && key <= high {
            return true;
        }
    }
    false
}

fn keys_in(alloc: Global, range: Range, map: &BTreeMap<u64, u64>) -> Result<Vec<u64>, Memory> {
    let (low, high) = range;
    let mut keys = Vec::new(alloc);
    for key in map.keys() {
        if low <= *key && *key <= high {
            keys.push(*key)?;
        }
    }
    Ok(keys)
}

// The leaves for the keys of a range, of at most 480: as many as have to be, of which the first have one
// key more where they can't have equally many.
fn cut(range: Range, keys: &[u64], leaves: &mut Vec<Range>) -> Result<usize, Memory> {
    let (mut low, high) = range;
    let count = (keys.len().max(1) - 1) / 16 + 1;
    let mut end: usize = 0;
    for i in 0..count {
        let more = if i < keys.len() % count { 1 } else { 0 };
        end = end.wrapping_add(keys.len() / count).wrapping_add(more);
        let next = if end < keys.len() { keys[end] } else { 0 };
        let last = if end < keys.len() {
            next.wrapping_sub(1)
        } else {
            high
        };
        leaves.push((low, last))?;
        low = next;
    }
    Ok(count)
}

// Cuts a range with changes, as keys of the map have it, and answers how many pages that makes.
fn cut_changed(
    alloc: Global,
    range: Range,
    map: &BTreeMap<u64, u64>,
    leaves: &mut Vec<Range>,
    above: &mut Vec<Range>,
) -> Result<usize, Memory> {
    let keys = keys_in(alloc, range, map)?;
    let count = cut(range, &keys, leaves)?;
    if count == 1 {
        return Ok(1);
    }
    above.push(range)?;
    Ok(count.wrapping_add(1))
}

// Cuts the leaves with changes, and answers how many pages that makes.
fn cut_leaves(
    alloc: Global,
    tree: &mut TreeRanges,
    map: &BTreeMap<u64, u64>,
    changes: &[Change],
) -> Result<usize, Memory> {
    let mut next = Vec::new(alloc);
    let mut pages: usize = 0;
    for range in &tree.leaves {
        if is_changed(*range, changes) {
            let made = cut_changed(alloc, *range, map, &mut next, &mut tree.above)?;
            pages = pages.wrapping_add(made);
        } else {
            next.push(*range)?;
        }
    }
    tree.leaves = next;
    Ok(pages)
}

fn changed_above(above: &[Range], changes: &[Change]) -> usize {
    let mut count: usize = 0;
    for range in above {
        if is_changed(*range, changes) {
            count = count.wrapping_add(1);
        }
    }
    count
}

/// A page for each range of a tree with changes, where more than 16 keys take more, and a catalogue. The
/// map is the one with the changes.
pub fn tree_pages(
    alloc: Global,
    tree: &mut TreeRanges,
    map: &BTreeMap<u64, u64>,
    changes: &[Change],
) -> Result<usize, Memory> {
    let above = changed_above(&tree.above, changes);
    let cut = cut_leaves(alloc, tree, map, changes)?;
    Ok(cut.wrapping_add(above).wrapping_add(1))
}
