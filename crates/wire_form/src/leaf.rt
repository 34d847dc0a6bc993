// Leaves: the records of arrays and trees in a page's words.
ghost use Rattle.std.specs.Prelude.{◌≡◌, ℕ, ◌*◌, ◌<◌, ◌≤◌, [], ◌∷◌, ◌++◌, List, Option, None, Some, length, IsTrue, ◌↔◌};
ghost use Rattle.wire_form.specs.Items.{AreItems, AnyOrder};
ghost use Rattle.wire_form.specs.Pages.{IsArrayRecord, array_record_words, IsTreeRecord, tree_record_words, record_key, HasKind};
ghost use Rattle.wire_form.specs.declared.page.PageKind.TheVariants.{ArrayLeaf, TreeLeaf};
ghost use Rattle.wire_form.specs.declared.records.ArrayRecord.{ArrayRecord};
ghost use Rattle.wire_form.specs.declared.records.TreeRecord.{TreeRecord};
ghost use Rattle.wire_form.specs.Parts.{itself, HasItems};

use crate::bytes::are_zero;
use crate::parts::{count_in, goes_on, is_head};
use crate::records::{ArrayRecord, TreeRecord};

/// The header of a tree's leaf, without the count of its records.
const LEAF: u64 = 0x100;

/// Whether the words are those of an array's records.
fn are_array_records(count: usize, words: &[u64]) -> bool
    requires few { count < 64 }
    requires whole { length words.now ≡ 2 * count }
    ensures { IsTrue result ↔ ((records : List ArrayRecord)
        × AreItems IsArrayRecord array_record_words itself AnyOrder None words.now records) }
{
    let mut rest = words;
    for _ in 0..count {
        let (front, after) = rest.split_at(2);
        match ArrayRecord::of_words(front[0], front[1]) {
            Some(_) => rest = after,
            None => return false,
        }
    }
    true
}

/// Whether the words are those of a tree's records, with keys that rise between the fences.
fn are_tree_records(low: u64, high: u64, count: usize, words: &[u64]) -> bool
    requires few { count < 64 }
    requires whole { length words.now ≡ 3 * count }
    ensures { IsTrue result ↔ ((records : List TreeRecord)
        × AreItems (IsTreeRecord low high) tree_record_words record_key ◌<◌ None words.now records) }
{
    let mut last = None;
    let mut rest = words;
    for _ in 0..count {
        let (front, after) = rest.split_at(3);
        let Some(record) = TreeRecord::of_words(low, high, front[0], front[1], front[2]) else {
            return false;
        };
        if !goes_on(last, record.key) {
            return false;
        }
        last = Some(record.key);
        rest = after;
    }
    true
}

/// Whether the words are `count` records of an array, and then zeros.
fn has_array_records(count: usize, words: &[u64]) -> bool
    requires room { 2 * count ≤ length words.now }
    requires few { count < 64 }
    ensures { IsTrue result
        ↔ HasItems IsArrayRecord array_record_words itself AnyOrder count words.now }
{
    let (front, rest) = words.split_at(2 * count);
    are_array_records(count, front) && are_zero(rest)
}

/// Whether the words are a leaf of an array with `used` records.
pub fn is_array_leaf(used: u32, words: &[u64; 64]) -> bool
    ensures { IsTrue result ↔ HasKind (ArrayLeaf used) 0 words.now }
{
    if used < 1 || used > 32 {
        return false;
    }
    has_array_records(used as usize, words)
}

/// Whether the words are `count` records of a tree between the fences, and then zeros.
fn has_tree_records(low: u64, high: u64, count: usize, words: &[u64]) -> bool
    requires room { 3 * count ≤ length words.now }
    requires few { count < 64 }
    ensures { IsTrue result
        ↔ HasItems (IsTreeRecord low high) tree_record_words record_key ◌<◌ count words.now }
{
    let (front, rest) = words.split_at(3 * count);
    are_tree_records(low, high, count, front) && are_zero(rest)
}

/// Whether the words are a leaf of a tree with these fences.
pub fn is_tree_leaf(low: u64, high: u64, words: &[u64; 64]) -> bool
    ensures { IsTrue result ↔ HasKind (TreeLeaf low high) 0 words.now }
{
    let (head, body) = words.split_at(16);
    let Some(count) = count_in(head[0], LEAF, 16) else {
        return false;
    };
    if !is_head(head, head[0], low, high) {
        return false;
    }
    has_tree_records(low, high, count, body)
}
