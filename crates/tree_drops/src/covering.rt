// Each record that a snapshot has for the keys of a chain is of a key that a leaf of the chain has.
ghost use Rattle.std.specs.Prelude.{◌≡◌, ◌⊎◌, ◌*◌, ◌/◌, ◌%◌, ◌^◌, ◌<◌, ◌≤◌, suc, get_or, length};
ghost use Rattle.engine_pages.specs.Passes.{view, IsPassOf};
ghost use Rattle.page_drops.specs.Works.{HasGlanced};
ghost use Rattle.snapshot_store.specs.Places.{page as page_words};
ghost use Rattle.tree_drops.specs.ChainKeys.{CanSearch, HasCoveredFrom, HasCoveredPage, HasCoveredRest, HasFoundKey};
ghost use Rattle.tree_drops.specs.ChainKeys.{HasOpenedBelow, HasSearched, IsCoveredOr, IsInnerPage};
ghost use Rattle.tree_drops.specs.Leaves.{HasCount};
ghost use Rattle.tree_drops.specs.Taking.{CanCover, CanTake, HasCovered};

use crate::belows::keys_below;
use crate::leaves::search_from;
use crate::taking::{ChainPage, Root, keep_first, keep_missing, leaf_of, page_of};
use chain_steps::Half;
use engine_pages::{Engine, Pass};
use homes::Span;
use page_drops::{Kept, word_of};
use pointer_swings::descend_tree;
use serial_model::Key;

const MOVED: u64 = 1 << 62;

/// The most records of a leaf, and the most children of an interior page.
const RECORDS: u32 = 16;

const CHILDREN: u32 = 30;

/// A page of a snapshot: its keys, its number, and how many records it has, or children that are to be gone into.
#[derive(Clone, Copy)]
pub(crate) struct StoredPage {
    pub span: Span,
    pub page: u32,
    pub count: u32,
}

/// The page is a leaf that wasn't split, over keys with this one among them, and has it.
fn page_has(engine: &Engine, pass: &mut Pass, root: Root, page: ChainPage, key: u64) -> bool
    requires of { IsPassOf engine.now pass.old }
    requires search { CanSearch root page (view pass.old) }
    ensures of { IsPassOf engine.now pass.new }
    ensures glances { HasGlanced (view pass.old) (view pass.new) }
    ensures finds { HasSearched page key result (view pass.old) }
{
    if page.header >= MOVED {
        return false;
    }
    if key < page.span.low {
        return false;
    }
    if key > page.span.high {
        return false;
    }
    let leaf = leaf_of(root, page, root.target.page, 0);
    search_from(engine, pass, leaf, key, 0)
}

/// A leaf of the chain, all of which is locked, has the key, from the page with this index on.
fn has_key(
    engine: &Engine,
    pass: &mut Pass,
    root: Root,
    halves: &[Half],
    headers: &[u64],
    key: u64,
    index: u32,
) -> bool
    requires of { IsPassOf engine.now pass.old }
    requires take { CanTake root halves.now headers.now (17 * suc (length halves.now)) (view pass.old) }
    ensures of { IsPassOf engine.now pass.new }
    ensures glances { HasGlanced (view pass.old) (view pass.new) }
    ensures finds { HasFoundKey root halves.now headers.now index key result (view pass.old) }
{
    if index as usize > halves.len() {
        return false;
    }
    let page = page_of(root, halves, headers, index);
    if page_has(engine, pass, root, page, key) {
        return true;
    }
    has_key(engine, pass, root, halves, headers, key, index + 1)
}

/// The key isn't one of the span's, or a leaf of the chain has it.
fn is_covered(
    engine: &Engine,
    pass: &mut Pass,
    root: Root,
    halves: &[Half],
    headers: &[u64],
    span: Span,
    key: u64,
) -> bool
    requires of { IsPassOf engine.now pass.old }
    requires take { CanTake root halves.now headers.now (17 * suc (length halves.now)) (view pass.old) }
    ensures of { IsPassOf engine.now pass.new }
    ensures glances { HasGlanced (view pass.old) (view pass.new) }
    ensures finds { IsCoveredOr root halves.now headers.now span key result (view pass.old) }
{
    if key < span.low {
        return true;
    }
    if key > span.high {
        return true;
    }
    has_key(engine, pass, root, halves, headers, key, 0)
}

/// Each record of a leaf of the snapshot, from this one on, is of a key that a leaf of the chain has. Where one isn't, it
/// is noted that the chain is kept.
fn cover_rest(
    engine: &Engine,
    pass: &mut Pass,
    root: Root,
    halves: &[Half],
    headers: &[u64],
    leaf: StoredPage,
    index: u32,
) -> Result<(), Kept>
    requires of { IsPassOf engine.now pass.old }
    requires cover { CanCover root halves.now headers.now leaf.span leaf.page (view pass.old) }
    requires count { HasCount (view pass.old).pages leaf.span leaf.page leaf.count }
    requires within { index ≤ leaf.count }
    ensures of { IsPassOf engine.now pass.new }
    ensures covers { HasCoveredRest root halves.now headers.now leaf index result (view pass.old) (view pass.new) }
{
    if index == leaf.count {
        return Ok(());
    }
    let key = word_of(engine, pass, leaf.page, 16 + 3 * index);
    if !is_covered(engine, pass, root, halves, headers, leaf.span, key) {
        let missing = Key {
            storage: leaf.span.storage,
            key,
        };
        let other = keep_missing(engine, pass, root, missing);
        return Err(other);
    }
    cover_rest(engine, pass, root, halves, headers, leaf, index + 1)
}

/// The same of all records, and of a leaf that may be misshapen. It has no children.
fn cover_leaf(
    engine: &Engine,
    pass: &mut Pass,
    root: Root,
    halves: &[Half],
    headers: &[u64],
    leaf: StoredPage,
) -> Result<u32, Kept>
    requires of { IsPassOf engine.now pass.old }
    requires cover { CanCover root halves.now headers.now leaf.span leaf.page (view pass.old) }
    requires some { 0 < leaf.page }
    requires kind { (get_or (page_words (view pass.old).pages leaf.page) 0 0 / 2 ^ 8) % 2 ^ 8 ≡ 1 }
    requires count { leaf.count ≡ get_or (page_words (view pass.old).pages leaf.page) 0 0 % 2 ^ 8 }
    ensures of { IsPassOf engine.now pass.new }
    ensures covers { HasCoveredPage root halves.now headers.now leaf.span leaf.page result (view pass.old) (view pass.new) }
{
    if leaf.count > RECORDS {
        let odd = keep_first(engine, pass, root);
        return Err(odd);
    }
    match cover_rest(engine, pass, root, halves, headers, leaf, 0) {
        Err(kept) => Err(kept),
        Ok(()) => Ok(0),
    }
}

/// How many children a page of the snapshot has that is an interior one; of a leaf, all records are covered.
fn cover_page(
    engine: &Engine,
    pass: &mut Pass,
    root: Root,
    halves: &[Half],
    headers: &[u64],
    span: Span,
    page: u32,
) -> Result<u32, Kept>
    requires of { IsPassOf engine.now pass.old }
    requires cover { CanCover root halves.now headers.now span page (view pass.old) }
    ensures of { IsPassOf engine.now pass.new }
    ensures covers { HasCoveredPage root halves.now headers.now span page result (view pass.old) (view pass.new) }
{
    if page == 0 {
        return Ok(0);
    }
    let header = word_of(engine, pass, page, 0);
    let count = (header % 256) as u32;
    if header / 256 % 256 == 1 {
        let leaf = StoredPage { span, page, count };
        return cover_leaf(engine, pass, root, halves, headers, leaf);
    }
    if count == 0 {
        let empty = keep_first(engine, pass, root);
        return Err(empty);
    }
    if count > CHILDREN {
        let odd = keep_first(engine, pass, root);
        return Err(odd);
    }
    Ok(count)
}

/// The page below with this index of an interior page of the snapshot; where it is a leaf, it is covered.
fn open_child(
    engine: &Engine,
    pass: &mut Pass,
    root: Root,
    halves: &[Half],
    headers: &[u64],
    page: StoredPage,
    index: u32,
) -> Result<StoredPage, Kept>
    requires of { IsPassOf engine.now pass.old }
    requires cover { CanCover root halves.now headers.now page.span page.page (view pass.old) }
    requires inner { IsInnerPage (view pass.old).pages page.page page.count }
    requires index { index < page.count }
    ensures of { IsPassOf engine.now pass.new }
    ensures opens { HasOpenedBelow root halves.now headers.now page index result (view pass.old) (view pass.new) }
{
    let span = keys_below(engine, pass, page.span, page.page, index, page.count);
    let child = descend_tree(engine, pass, page.span, page.page, index) as u32;
    match cover_page(engine, pass, root, halves, headers, span, child) {
        Err(kept) => Err(kept),
        Ok(count) => Ok(StoredPage {
            span,
            page: child,
            count,
        }),
    }
}

/// All below the children of a page of the snapshot, from this one on, is covered; one that isn't gone into has none.
fn cover_from(
    engine: &Engine,
    pass: &mut Pass,
    root: Root,
    halves: &[Half],
    headers: &[u64],
    page: StoredPage,
    index: u32,
) -> Result<(), Kept>
    requires of { IsPassOf engine.now pass.old }
    requires cover { CanCover root halves.now headers.now page.span page.page (view pass.old) }
    requires inner { (page.count ≡ 0) ⊎ IsInnerPage (view pass.old).pages page.page page.count }
    requires within { index ≤ page.count }
    ensures of { IsPassOf engine.now pass.new }
    ensures covers { HasCoveredFrom root halves.now headers.now page index result (view pass.old) (view pass.new) }
{
    if index == page.count {
        return Ok(());
    }
    let child = open_child(engine, pass, root, halves, headers, page, index)?;
    cover_from(engine, pass, root, halves, headers, child, 0)?;
    cover_from(engine, pass, root, halves, headers, page, index + 1)
}

/// Each record below the snapshot page with this number, which stands for these keys, is of a key that a leaf of the
/// chain has, all of which is locked. Where one isn't, or a page is misshapen, it is noted that the chain is kept, for
/// the header of its first page.
pub(crate) fn cover(
    engine: &Engine,
    pass: &mut Pass,
    root: Root,
    halves: &[Half],
    headers: &[u64],
    span: Span,
    page: u32,
) -> Result<(), Kept>
    requires of { IsPassOf engine.now pass.old }
    requires cover { CanCover root halves.now headers.now span page (view pass.old) }
    ensures of { IsPassOf engine.now pass.new }
    ensures covers { HasCovered root halves.now headers.now span page result (view pass.old) (view pass.new) }
{
    match cover_page(engine, pass, root, halves, headers, span, page) {
        Err(kept) => Err(kept),
        Ok(count) => {
            let first = StoredPage { span, page, count };
            cover_from(engine, pass, root, halves, headers, first, 0)
        }
    }
}
