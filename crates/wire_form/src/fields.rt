// What the layers above read in a page's words.
ghost use Rattle.std.specs.Prelude.{◌≡◌, ℕ, ◌+◌, ◌-◌, ◌*◌, ◌<◌, ◌≤◌, List, Some, length, slice_get, slice_index, slice_range};
ghost use Rattle.wire_form.specs.Items.{Reads};
ghost use Rattle.wire_form.specs.Pages.{IsArrayRecord, array_record_words, IsTreeRecord, tree_record_words, IsStored, stored_words, IsArrayLeaf, array_leaf_words, IsArrayInner, array_inner_words, IsTreeLeaf, tree_leaf_words, Children, IsTreeInner, tree_inner_words, Contents, IsCatalogue, catalogue_words};
ghost use Rattle.wire_form.specs.Ranges.{child_ranges};
ghost use Rattle.wire_form.specs.declared.records.ArrayRecord.{ArrayRecord};
ghost use Rattle.wire_form.specs.declared.records.TreeRecord.{TreeRecord};

use crate::records::{ArrayRecord, Stored, TreeRecord};

/// The record at an index of an array's leaf, or `None` where those words are none.
pub fn array_record(words: &[u64; 64], i: usize) -> Option<ArrayRecord>
    requires { i < 32 }
    ensures exact { Reads IsArrayRecord array_record_words (slice_range words.now (2 * i) (2 * i + 2)) result }
    ensures entry { (used : ℕ) (records : List ArrayRecord) → IsArrayLeaf used records
        → words.now ≡ array_leaf_words records → i < used → result ≡ slice_get records i }
{
    let item = &words[2 * i..2 * i + 2];
    ArrayRecord::of_words(item[0], item[1])
}

/// The pointer at an index of an array's interior page.
pub fn array_child(words: &[u64; 64], i: usize) -> u64
    requires { i < 64 }
    ensures { (used number : ℕ) (pointers : List ℕ) → IsArrayInner used number pointers
        → words.now ≡ array_inner_words pointers → i < used → slice_get pointers i ≡ Some result }
{
    words[i]
}

/// How many records a tree's leaf, or children a tree's interior page, or storages a catalogue has.
pub fn count(words: &[u64; 64]) -> usize
    ensures leaf { (low high : ℕ) (records : List TreeRecord) → IsTreeLeaf low high records
        → words.now ≡ tree_leaf_words low high records → result ≡ length records }
    ensures inner { (low high number : ℕ) (children : Children)
        → IsTreeInner low high number children → words.now ≡ tree_inner_words low high children
        → result ≡ length children.pointers }
    ensures catalogue { (number : ℕ) (contents : Contents) → IsCatalogue number contents
        → words.now ≡ catalogue_words contents → result ≡ length contents.storages }
{
    (words[0] % 256) as usize
}

/// The fences of a tree's page, the low one first.
pub fn fences(words: &[u64; 64]) -> (u64, u64)
    ensures leaf { (low high : ℕ) (records : List TreeRecord)
        → words.now ≡ tree_leaf_words low high records → result ≡ (low, high) }
    ensures inner { (low high : ℕ) (children : Children)
        → words.now ≡ tree_inner_words low high children → result ≡ (low, high) }
{
    (words[1], words[2])
}

/// The record at an index of a tree's leaf, or `None` where those words are none between its fences.
pub fn tree_record(words: &[u64; 64], i: usize) -> Option<TreeRecord>
    requires { i < 16 }
    ensures exact { Reads (IsTreeRecord (slice_index words.now 1) (slice_index words.now 2))
        tree_record_words (slice_range words.now (16 + 3 * i) (16 + 3 * i + 3)) result }
    ensures entry { (low high : ℕ) (records : List TreeRecord) → IsTreeLeaf low high records
        → words.now ≡ tree_leaf_words low high records → i < length records
        → result ≡ slice_get records i }
{
    let item = &words[16 + 3 * i..16 + 3 * i + 3];
    TreeRecord::of_words(words[1], words[2], item[0], item[1], item[2])
}

/// The pointer at an index of a tree's interior page.
pub fn child(words: &[u64; 64], i: usize) -> u64
    requires { i < 30 }
    ensures { (low high number : ℕ) (children : Children) → IsTreeInner low high number children
        → words.now ≡ tree_inner_words low high children → i < length children.pointers
        → slice_get children.pointers i ≡ Some result }
{
    words[4 + i]
}

/// The separator at an index of a tree's interior page, between the children there and behind.
pub fn separator(words: &[u64; 64], i: usize) -> u64
    requires { i < 29 }
    ensures { (low high number : ℕ) (children : Children) → IsTreeInner low high number children
        → words.now ≡ tree_inner_words low high children → i < length children.separators
        → slice_get children.separators i ≡ Some result }
{
    words[34 + i]
}

/// The first and the last key of the child at an index of a tree's interior page.
pub fn child_range(words: &[u64; 64], i: usize) -> (u64, u64)
    requires { i < 30 }
    ensures { (low high number : ℕ) (children : Children) → IsTreeInner low high number children
        → words.now ≡ tree_inner_words low high children → i < length children.pointers
        → slice_get (child_ranges low high children.separators) i ≡ Some result }
{
    (first_key(words, i), last_key(words, i, count(words)))
}

/// The low fence, or the separator in front of the child.
fn first_key(words: &[u64; 64], i: usize) -> u64
    requires { i < 30 }
    ensures first { i ≡ 0 → result ≡ slice_index words.now 1 }
    ensures other { 0 < i → result ≡ slice_index words.now (33 + i) }
{
    if i == 0 { words[1] } else { words[33 + i] }
}

/// One below the separator behind the child, or the high fence.
fn last_key(words: &[u64; 64], i: usize, count: usize) -> u64
    requires { i < 30 }
    ensures other { i + 1 < count → result ≡ slice_index words.now (34 + i) - 1 }
    ensures last { count ≤ i + 1 → result ≡ slice_index words.now 2 }
{
    if i + 1 < count {
        words[34 + i].saturating_sub(1)
    } else {
        words[2]
    }
}

/// A catalogue's epoch, and the page number of the one before it, or 0.
pub fn epoch_and_previous(words: &[u64; 64]) -> (u64, u64)
    ensures { (contents : Contents) → words.now ≡ catalogue_words contents
        → result ≡ (contents.epoch, contents.previous) }
{
    (words[1], words[2])
}

/// The storage at an index of the catalogue with this page number, or `None` where those words are none.
pub fn storage(number: u32, words: &[u64; 64], i: usize) -> Option<Stored>
    requires { i < 16 }
    ensures exact { Reads (IsStored number) stored_words (slice_range words.now (16 + 3 * i) (16 + 3 * i + 3)) result }
    ensures entry { (contents : Contents) → IsCatalogue number contents
        → words.now ≡ catalogue_words contents → i < length contents.storages
        → result ≡ slice_get contents.storages i }
{
    let item = &words[16 + 3 * i..16 + 3 * i + 3];
    Stored::of_words(number, item[0], item[1], item[2])
}
