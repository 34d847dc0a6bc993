// A snapshot's pages below one that stands for the keys of a whole chain.
ghost use Rattle.std.specs.Prelude.{◌≡◌, ◌%◌, ◌^◌, ◌<◌, ◌≤◌, get_or, length};
ghost use Rattle.engine_pages.specs.declared.view.Role.TheVariants.{Keeper};
ghost use Rattle.engine_pages.specs.Passes.{view, IsPassOf};
ghost use Rattle.pointer_swings.specs.Children.{begin_in, end_in};
ghost use Rattle.snapshot_store.specs.Places.{page as page_words};
ghost use Rattle.page_drops.specs.Works.{HasGlanced};
ghost use Rattle.tree_drops.specs.Belows.{CanGoBelow, HasGoneBelow, IsChildFor, IsLeafOr};

use engine_pages::{Engine, Pass};
use homes::Span;
use page_drops::word_of;
use pointer_swings::descend_tree;

/// The most records of a leaf, and the most children of an interior page.
const RECORDS: u32 = 16;

const CHILDREN: u32 = 30;

/// The word of a page with its first separator.
const SEPARATORS: u32 = 34;

/// A leaf of a snapshot: its page's number, or 0 for none, and how many records it has.
#[derive(Clone, Copy)]
pub(crate) struct StoredLeaf {
    pub page: u32,
    pub records: u32,
}

/// The leaf of the snapshot that has this key in its keys, below the page with this number, which stands for these
/// keys; nothing where a page on the way is misshapen.
pub(crate) fn leaf_for(
    engine: &Engine,
    pass: &mut Pass,
    span: Span,
    page: u32,
    key: u64,
) -> Option<StoredLeaf>
    requires of { IsPassOf engine.now pass.old }
    requires below { CanGoBelow span page (view pass.old) }
    requires from { span.low ≤ key }
    requires to { key ≤ span.high }
    ensures of { IsPassOf engine.now pass.new }
    ensures goes { HasGoneBelow (view pass.old) (view pass.new) }
    ensures finds { IsLeafOr (view pass.old).pages span page key result }
{
    if page == 0 {
        return Some(StoredLeaf { page, records: 0 });
    }
    let header = word_of(engine, pass, page, 0);
    let count = (header % 256) as u32;
    if header / 256 % 256 == 1 {
        if count > RECORDS {
            return None;
        }
        return Some(StoredLeaf {
            page,
            records: count,
        });
    }
    if count == 0 {
        return None;
    }
    if count > CHILDREN {
        return None;
    }
    let index = child_for(engine, pass, page, key, 0, count);
    let keys = keys_below(engine, pass, span, page, index, count);
    let child = descend_tree(engine, pass, span, page, index) as u32;
    leaf_for(engine, pass, keys, child, key)
}

/// The index of the child that has this key in its keys, from this one on, of an interior page with so many children.
fn child_for(engine: &Engine, pass: &mut Pass, page: u32, key: u64, index: u32, count: u32) -> u32
    requires of { IsPassOf engine.now pass.old }
    requires keeper { (view pass.old).role ≡ Keeper }
    requires there { page ≤ length (view pass.old).pages }
    requires room { page ≤ (view pass.old).layout.resident }
    requires index { index < count }
    requires few { count ≤ 30 }
    requires count { count ≡ get_or (page_words (view pass.old).pages page) 0 0 % 2 ^ 8 }
    ensures of { IsPassOf engine.now pass.new }
    ensures glances { HasGlanced (view pass.old) (view pass.new) }
    ensures finds { (sp : Span) → begin_in (page_words (view pass.old).pages page) sp index ≤ key → key ≤ sp.high
        → IsChildFor (page_words (view pass.old).pages page) sp key result }
{
    if index + 1 == count {
        return index;
    }
    let next = word_of(engine, pass, page, SEPARATORS + index);
    if key < next {
        return index;
    }
    child_for(engine, pass, page, key, index + 1, count)
}

/// The keys of the child with this index of an interior page over these keys, with so many children.
pub(crate) fn keys_below(
    engine: &Engine,
    pass: &mut Pass,
    span: Span,
    page: u32,
    index: u32,
    count: u32,
) -> Span
    requires of { IsPassOf engine.now pass.old }
    requires keeper { (view pass.old).role ≡ Keeper }
    requires there { page ≤ length (view pass.old).pages }
    requires room { page ≤ (view pass.old).layout.resident }
    requires index { index < count }
    requires few { count ≤ 30 }
    requires count { count ≡ get_or (page_words (view pass.old).pages page) 0 0 % 2 ^ 8 }
    ensures of { IsPassOf engine.now pass.new }
    ensures glances { HasGlanced (view pass.old) (view pass.new) }
    ensures keys { result ≡ record {
      storage = span.storage;
      low = begin_in (page_words (view pass.old).pages page) span index;
      high = end_in (page_words (view pass.old).pages page) span index;
    } }
{
    let low = begin_of(engine, pass, span, page, index);
    let high = end_of(engine, pass, span, page, index, count);
    Span {
        storage: span.storage,
        low,
        high,
    }
}

/// Where the child with this index begins.
fn begin_of(engine: &Engine, pass: &mut Pass, span: Span, page: u32, index: u32) -> u64
    requires of { IsPassOf engine.now pass.old }
    requires keeper { (view pass.old).role ≡ Keeper }
    requires there { page ≤ length (view pass.old).pages }
    requires room { page ≤ (view pass.old).layout.resident }
    requires index { index < 30 }
    ensures of { IsPassOf engine.now pass.new }
    ensures glances { HasGlanced (view pass.old) (view pass.new) }
    ensures begin { result ≡ begin_in (page_words (view pass.old).pages page) span index }
{
    if index == 0 {
        return span.low;
    }
    word_of(engine, pass, page, SEPARATORS - 1 + index)
}

/// Where it ends.
fn end_of(engine: &Engine, pass: &mut Pass, span: Span, page: u32, index: u32, count: u32) -> u64
    requires of { IsPassOf engine.now pass.old }
    requires keeper { (view pass.old).role ≡ Keeper }
    requires there { page ≤ length (view pass.old).pages }
    requires room { page ≤ (view pass.old).layout.resident }
    requires index { index < count }
    requires few { count ≤ 30 }
    requires count { count ≡ get_or (page_words (view pass.old).pages page) 0 0 % 2 ^ 8 }
    ensures of { IsPassOf engine.now pass.new }
    ensures glances { HasGlanced (view pass.old) (view pass.new) }
    ensures end { result ≡ end_in (page_words (view pass.old).pages page) span index }
{
    if index + 1 == count {
        return span.high;
    }
    word_of(engine, pass, page, SEPARATORS + index).saturating_sub(1)
}
