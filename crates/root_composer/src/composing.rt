// Composing a snapshot.
ghost use Rattle.std.specs.Prelude.{◌≡◌, ℕ, ◌+◌, ◌<◌, ◌≤◌, List, Err, IfOk, length};
ghost use Rattle.wire_form.specs.Pages.{Contents};
ghost use Rattle.snapshot_store.specs.Store.{NumberedFrom};
ghost use Rattle.snapshot_store.specs.Content.{deepest, words_of};
ghost use Rattle.root_composer.specs.Composition.{CanCompose, IsComposed, IsTooDeep, WouldCompose, new_count, level_count};

use crate::ComposeFault;
use crate::storages::{compose_storages, storages_of, with_roots};
use lists::{Memory, OrMemory, Sequence};
use snapshot_store::SnapStore;
use std::alloc::Global;
use wire_form::{Page, PageKind, Run, catalogue_words};

/// The pages to append, the catalogue last.
pub type NewPages = Sequence<Page>;

// Pages of these words, numbered from this one on. As of loaded pages, what kind of page each is, the
// place that names it says.
fn numbered(alloc: Global, first: u32, made: &[[u64; 64]]) -> Result<Vec<Page>, Memory>
    requires { first + length made.now ≤ 65537 }
    ensures words { IfOk result (λ pages. words_of pages.items ≡ made.now) }
    ensures numbered { IfOk result (λ pages. NumberedFrom first pages.items) }
{
    let mut pages = Vec::with_capacity(alloc, made.len())?;
    for i in 0..made.len() {
        pages.push(Page {
            number: first + i as u32,
            kind: PageKind::Catalogue,
            words: made[i],
        })?;
    }
    Ok(pages)
}

/// The pages of the next snapshot: those of the old one's catalogue, with each entry of the run put or
/// taken out. Nothing is written, and the store stays as it is.
pub fn compose(
    alloc: Global,
    store: &SnapStore,
    catalogue: u32,
    run: &Run,
    epoch: u32,
    room: u32,
) -> Result<NewPages, OrMemory<ComposeFault>>
    requires can { (contents : Contents) × CanCompose (words_of store.now.pages) catalogue contents run.now epoch }
    requires room { room ≤ 65536 }
    ensures composed { IfOk result (λ pages. (contents : Contents)
        → CanCompose (words_of store.now.pages) catalogue contents run.now epoch
        → IsComposed run.now epoch catalogue contents (words_of store.now.pages) (words_of pages)) }
    ensures counted { IfOk result (λ pages. (contents : Contents)
        → CanCompose (words_of store.now.pages) catalogue contents run.now epoch
        → (length pages ≡ new_count run.now contents (words_of store.now.pages))
        × (level_count run.now contents (words_of store.now.pages) ≤ deepest)) }
    ensures numbered { IfOk result (λ pages. NumberedFrom (length store.now.pages + 1) pages) }
    ensures within { IfOk result (λ pages. length store.now.pages + length pages ≤ room) }
    ensures deep { result ≡ Err (OrMemory.Fault ComposeFault.Deep) → (contents : Contents)
        → CanCompose (words_of store.now.pages) catalogue contents run.now epoch
        → (made : List (List ℕ)) × IsTooDeep run.now contents (words_of store.now.pages) made }
    ensures limit { (have new most : ℕ) → result ≡ Err (OrMemory.Fault (ComposeFault.Limit have new most))
        → (have ≡ length store.now.pages) × (most ≡ room) × (room < have + new)
        × ((contents : Contents) → CanCompose (words_of store.now.pages) catalogue contents run.now epoch
        → WouldCompose run.now epoch catalogue contents (words_of store.now.pages) new) }
{
    let words = store.page(catalogue).words;
    let storages = storages_of(alloc, catalogue, &words)?;
    let mut made = Vec::new(alloc);
    let roots = compose_storages(alloc, store, run.as_slice(), &storages, &mut made)?;
    let have = store.count();
    let new = made.len() as u64 + 1;
    if u64::from(have) + new > u64::from(room) {
        return Err(OrMemory::Fault(ComposeFault::Limit { have, new, room }));
    }
    let stored = with_roots(alloc, &storages, &roots)?;
    made.push(catalogue_words(epoch, catalogue, &stored))?;
    let pages = numbered(alloc, have + 1, &made)?;
    Ok(Sequence::from_vec(pages))
}
