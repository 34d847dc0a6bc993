// What words that threads share are made from.
ghost use Rattle.std.specs.Prelude.{◌≡◌, ◌<◌, IfOk, Some, length, map, slice_get};
ghost use Rattle.wire_form.specs.Pages.{Contents};
ghost use Rattle.snapshot_store.specs.Content.{CatalogueAt, words_of};
ghost use Rattle.round_engine.specs.FirstRecords.{IsOfNewest, root_in};

use engine_pages::Start;
use lists::{Memory, Sequence};
use recovery_core::newest_storages;
use serial_model::{Decls, Number};
use snapshot_store::SnapStore;
use std::alloc::Global;
use wire_form::{Page, Stored};

/// An engine's beginning over all pages of the store, the last of which is the newest snapshot's catalogue, with its
/// roots; it gives this number first, has so many slots, and room for so many pages.
pub(crate) fn newest_start(
    alloc: Global,
    store: &SnapStore,
    decls: Decls,
    first: Number,
    slots: u32,
    room: u32,
) -> Result<Start, Memory>
    requires { (contents : Contents) × CatalogueAt (words_of store.now.pages) (length store.now.pages) contents }
    ensures { IfOk result (IsOfNewest first decls slots room store.now.pages) }
{
    let storages = newest_storages(alloc, store)?;
    let roots = roots_of(alloc, storages.as_slice())?;
    let pages = copy_pages(alloc, store)?;
    Ok(Start::new(first, decls, roots, slots, room, pages))
}

// The number of the page of each root, or 0.
fn roots_of(alloc: Global, storages: &[Stored]) -> Result<Sequence<u32>, Memory>
    ensures { IfOk result (λ roots. roots ≡ map root_in storages.now) }
{
    let mut roots = Sequence::new(alloc);
    for i in 0..storages.len() {
        roots.push(root_at(storages, i))?;
    }
    Ok(roots)
}

// The number of the page of one root, or 0.
fn root_at(storages: &[Stored], i: usize) -> u32
    requires { i < length storages.now }
    ensures { slice_get (map root_in storages.now) i ≡ Some result }
{
    storages[i].root
}

// All pages of the store.
fn copy_pages(alloc: Global, store: &SnapStore) -> Result<Sequence<Page>, Memory>
    ensures { IfOk result (λ pages. pages ≡ store.now.pages) }
{
    let mut pages = Sequence::new(alloc);
    for i in 0..store.count() {
        pages.push(page_at(store, i))?;
    }
    Ok(pages)
}

// The page with this index.
fn page_at(store: &SnapStore, i: u32) -> Page
    requires within { i < length store.now.pages }
    requires few { i < 65536 }
    ensures { slice_get store.now.pages i ≡ Some result }
{
    *store.page(i + 1)
}
