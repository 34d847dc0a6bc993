// What a catalogue says, read from its page.
ghost use Rattle.std.specs.Prelude.{◌≡◌, ℕ, ◌<◌, ◌≤◌, ◌^◌, Option, IfSome, IfNone, IfOk, length};
ghost use Rattle.std.specs.List.{AllByRecursion};
ghost use Rattle.wire_form.specs.Pages.{Contents, IsCatalogue, catalogue_words, HasKind};
ghost use Rattle.wire_form.specs.declared.page.PageKind.TheVariants.{Catalogue as CatalogueKind};
ghost use Rattle.snapshot_store.specs.Content.{CatalogueAt, words_of};

use lists::{Memory, Sequence};
use snapshot_store::SnapStore;
use std::alloc::Global;
use std::marker::Model;
use wire_form::{Page, PageKind, Stored, count, epoch_and_previous, is_page, storage};

/// The most storages of a catalogue.
const MOST: usize = 16;

/// A catalogue's epoch, the page number of the one before it or 0, and its storages.
#[derive(Drop)]
pub(crate) struct Catalogue {
    pub(crate) epoch: u32,
    pub(crate) previous: u32,
    pub(crate) storages: Sequence<Stored>,
}

impl Model for Catalogue {
    ghost use Rattle.wire_form.specs.Pages.{Contents};

    ghost Value = { Contents };

    ghost view = { λ c. record { epoch = c.epoch; previous = c.previous; storages = c.storages } };
}

// The storages of the catalogue with this page number.
fn storages_of(alloc: Global, number: u32, words: &[u64; 64]) -> Result<Sequence<Stored>, Memory>
    ensures { IfOk result (λ storages. (contents : Contents) → IsCatalogue number contents
        → words.now ≡ catalogue_words contents → storages ≡ contents.storages) }
{
    let mut storages = Sequence::new(alloc);
    for i in 0..count(words).min(MOST) {
        let Some(stored) = storage(number, words, i) else {
            return Ok(storages);
        };
        storages.push(stored)?;
    }
    Ok(storages)
}

/// The storages of the snapshot whose catalogue is the last page, with their roots.
pub fn newest_storages(alloc: Global, store: &SnapStore) -> Result<Sequence<Stored>, Memory>
    requires { (c : Contents) × CatalogueAt (words_of store.now.pages) (length store.now.pages) c }
    ensures { IfOk result (λ storages. (c : Contents)
        → CatalogueAt (words_of store.now.pages) (length store.now.pages) c → storages ≡ c.storages) }
{
    let number = store.count();
    storages_of(alloc, number, &store.page(number).words)
}

// The epoch of a catalogue and the page number of the one before it, in 32 bits each.
fn head_of(number: u32, words: &[u64; 64]) -> (u32, u32)
    requires { HasKind CatalogueKind number words.now }
    ensures { (contents : Contents) → words.now ≡ catalogue_words contents
        → result ≡ (contents.epoch, contents.previous) }
{
    let (epoch, previous) = epoch_and_previous(words);
    (epoch as u32, previous as u32)
}

/// Words in memory have 64 bits.
pub(crate) fn words_fit(words: &[u64])
    ensures { AllByRecursion (λ w. w < 2 ^ 64) words.now }
{}

/// What a page says, where it is a catalogue.
pub(crate) fn read_catalogue(alloc: Global, page: &Page) -> Result<Option<Catalogue>, Memory>
    requires first { 1 ≤ page.now.number }
    requires last { page.now.number ≤ 65536 }
    ensures found { IfOk result (λ read. IfSome read (λ c.
        IsCatalogue page.now.number c × (page.now.words ≡ catalogue_words c))) }
    ensures none { IfOk result (λ read. IfNone read ((c : Contents) → IsCatalogue page.now.number c
        → page.now.words ≡ catalogue_words c → ⊥)) }
{
    words_fit(&page.words);
    if !is_page(PageKind::Catalogue, page.number, &page.words) {
        return Ok(None);
    }
    let (epoch, previous) = head_of(page.number, &page.words);
    let storages = storages_of(alloc, page.number, &page.words)?;
    Ok(Some(Catalogue {
        epoch,
        previous,
        storages,
    }))
}
