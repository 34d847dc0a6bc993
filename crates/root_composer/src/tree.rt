// Composing the pages of a tree.
ghost use Rattle.std.specs.Prelude.{◌≡◌, ℕ, ◌+◌, ◌/◌, ◌<◌, ◌≤◌, ◌==◌, false, List, Err, IfOk, Some, length, slice_get, slice_index};
ghost use Rattle.std.specs.List.Sorted.{IsNonDecreasingBy};
ghost use Rattle.wire_form.specs.Pages.{Children, IsTreeInner, tree_inner_words};
ghost use Rattle.snapshot_store.specs.Content.{words_of};
ghost use Rattle.snapshot_store.specs.TreePages.{children, count_of};
ghost use Rattle.root_composer.specs.Rows.{rows_of, Ascends, Rising, entries_in, merged};
ghost use Rattle.root_composer.specs.Build.{made_leaf};
ghost use Rattle.root_composer.specs.TreeCode.{TreeStands, tree_one, AddsWithin, WouldBeDeep};

use crate::build::build;
use crate::range::{has_entry, within};
use crate::row::{merged, rows_of};
use crate::words::{page_words, put_words};
use crate::{ComposeFault, Last};
use lists::OrMemory;
use snapshot_store::{PagePlace, SnapStore, is_inner};
use std::alloc::Global;
use wire_form::{child, child_range, count};

/// The place of a child of an interior page.
fn child_place(words: &[u64; 64], i: usize) -> PagePlace
    requires { i < 30 }
    ensures { (low high number : ℕ) (c : Children) → IsTreeInner low high number c
        → words.now ≡ tree_inner_words low high c → i < length c.pointers
        → slice_get (children low high c.separators c.pointers) i ≡ Some result }
{
    let (low, high) = child_range(words, i);
    PagePlace {
        number: child(words, i),
        low,
        high,
    }
}

/// Builds what stands for the range of a leaf: its records under the entries there.
fn compose_leaf(
    alloc: Global,
    have: u32,
    made: &mut Vec<[u64; 64]>,
    run: &[Last],
    depth: u32,
    p: PagePlace,
    words: &[u64; 64],
) -> Result<u64, OrMemory<ComposeFault>>
    requires leaf { (slice_index words.now 0 / 256 == 2) ≡ false }
    requires few { count_of words.now ≤ 16 }
    requires ascends { Ascends p.low p.high (rows_of words.now) }
    requires order { IsNonDecreasingBy (λ e. e.key) run.now }
    requires rising { Rising 0 run.now }
    requires range { p.low ≤ p.high }
    ensures made { IfOk result (λ n. AddsWithin depth made.old.items made.new.items n
        (made_leaf p (merged (entries_in p.low p.high run.now) (rows_of words.now)) (have + length made.old.items))) }
    ensures deep { (fault : ComposeFault) → result ≡ Err (OrMemory.Fault fault) → WouldBeDeep depth fault
        (made_leaf p (merged (entries_in p.low p.high run.now) (rows_of words.now)) (have + length made.old.items)) }
{
    let part = within(run, p.low, p.high);
    let rows = rows_of(alloc, words)?;
    let all = merged(alloc, &rows, part)?;
    build(alloc, have, made, p.low, p.high, &all, depth)
}

/// Composes the page of a place and the pages below it, and gives the number of the page that stands there
/// now: what is written stands behind what was.
pub fn compose_tree(
    alloc: Global,
    store: &SnapStore,
    made: &mut Vec<[u64; 64]>,
    run: &[Last],
    depth: u32,
    p: PagePlace,
) -> Result<u64, OrMemory<ComposeFault>>
    requires stands { TreeStands (words_of store.now.pages) depth p }
    requires order { IsNonDecreasingBy (λ e. e.key) run.now }
    requires rising { Rising 0 run.now }
    ensures made { IfOk result (λ n. AddsWithin depth made.old.items made.new.items n
        (tree_one run.now (words_of store.now.pages) depth p
        (length (words_of store.now.pages) + length made.old.items))) }
    ensures deep { (fault : ComposeFault) → result ≡ Err (OrMemory.Fault fault) → WouldBeDeep depth fault
        (tree_one run.now (words_of store.now.pages) depth p
        (length (words_of store.now.pages) + length made.old.items)) }
{
    if !has_entry(run, p.low, p.high) {
        return Ok(p.number);
    }
    let mut words = page_words(store, p.number);
    if !is_inner(&words) {
        return compose_leaf(alloc, store.count(), made, run, depth, p, &words);
    }
    let mut numbers = Vec::new(alloc);
    for i in 0..count(&words) {
        let place = child_place(&words, i);
        let number = compose_tree(alloc, store, made, run, depth - 1, place)?;
        numbers.push(number)?;
    }
    put_words(&mut words, 4, &numbers);
    made.push(words)?;
    Ok(u64::from(store.count()) + made.len() as u64)
}
