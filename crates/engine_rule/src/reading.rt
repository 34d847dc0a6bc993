// The pages of a snapshot, as the machines have them: each named by its number and the place for which it stands.
ghost use Rattle.std.specs.Prelude.{◌≡◌, ℕ, ◌^◌, ◌<◌, ◌≤◌, ◌++◌, IfOk, OnOk, length};
ghost use Rattle.std.specs.List.{flat_map, AllByRecursion};
ghost use Rattle.snapshot_store.specs.Places.{page};
ghost use Rattle.snapshot_store.specs.Content.{words_of, root_place};
ghost use Rattle.engine_rule.specs.Reading.{IsBoundedIn, IsThere, below_in, span_of, page_in, led_places, storages};
ghost use Rattle.engine_rule.specs.Reading.{named_places, is_same, is_place, name_from, name_of, children_at};
ghost use Rattle.engine_rule.specs.Reading.{page_from, page_at, snaps_from, snaps_of, roots_of};

use crate::below::below_in;
use crate::entries::leaf_entries;
use drop_core::SnapPage;
use homes::Span;
use lists::Sequence;
use serial_model::{Decl, Memory, id_of};
use snapshot_store::{DEEPEST, PagePlace, root_place};
use std::alloc::Global;
use wire_form::{Page, Stored};

/// The keys of a place.
fn span_of(id: u8, place: PagePlace) -> Span
    ensures { result ≡ span_of id place }
{
    Span {
        storage: id,
        low: place.low,
        high: place.high,
    }
}

/// The number of a page that is there, or 0.
fn page_in(pages: &[Page], number: u64) -> u32
    requires { length pages.now ≤ 65536 }
    ensures { result ≡ page_in (length pages.now) number }
{
    if number <= pages.len() as u64 {
        number as u32
    } else {
        0
    }
}

/// The words of a page that is there.
fn words_at(pages: &[Page], number: u32) -> &[u64; 64]
    requires some { 1 ≤ number }
    requires most { number ≤ length pages.now }
    ensures { result.now ≡ page (words_of pages.now) number }
{
    &pages[number as usize - 1].words
}

/// Adds the places with pages that a place leads to, on ways of so many pages at most, and then its own.
#[cycle(push_place)]
fn push_place(
    alloc: Global,
    pages: &[Page],
    decl: Decl,
    depth: u32,
    place: PagePlace,
    all: &mut Sequence<(Decl, PagePlace)>,
) -> Result<(), Memory>
    requires few { length pages.now ≤ 65536 }
    requires bounded { IsBoundedIn decl place }
    ensures { OnOk result (all.new ≡ all.old ++ led_places decl (words_of pages.now) depth place) }
{
    let number = page_in(pages, place.number);
    if depth == 0 || number == 0 {
        return Ok(());
    }
    let words = words_at(pages, number);
    let below = below_in(alloc, decl, words, place)?;
    push_each(alloc, pages, decl, depth - 1, below.as_slice(), all)?;
    all.push((decl, place))?;
    Ok(())
}

/// The same for each of these places.
#[cycle(push_place)]
fn push_each(
    alloc: Global,
    pages: &[Page],
    decl: Decl,
    depth: u32,
    places: &[PagePlace],
    all: &mut Sequence<(Decl, PagePlace)>,
) -> Result<(), Memory>
    requires few { length pages.now ≤ 65536 }
    requires bounded { AllByRecursion (IsBoundedIn decl) places.now }
    ensures { OnOk result (all.new ≡ all.old ++ flat_map (led_places decl (words_of pages.now) depth) places.now) }
{
    for place in places {
        push_place(alloc, pages, decl, depth, *place, all)?;
    }
    Ok(())
}

/// The root of a storage stands for all its keys, or for all indexes that a page of its height can have.
fn root_of(stored: &Stored) -> PagePlace
    ensures is { result ≡ root_place stored.now.decl stored.now.root }
    ensures bounded { IsBoundedIn stored.now.decl result }
{
    root_place(stored)
}

/// The places of all pages that the roots lead to, in the order of their names.
fn named_places(
    alloc: Global,
    pages: &[Page],
    storages: &[Stored],
) -> Result<Sequence<(Decl, PagePlace)>, Memory>
    requires { length pages.now ≤ 65536 }
    ensures is { IfOk result (λ places. places ≡ named_places (words_of pages.now) storages.now) }
    ensures there { IfOk result (λ places. AllByRecursion (IsThere (length pages.now)) places) }
{
    let mut all = Sequence::new(alloc);
    for storage in storages {
        let root = root_of(storage);
        push_place(alloc, pages, storage.decl, DEEPEST, root, &mut all)?;
    }
    Ok(all)
}

/// Whether it is this place, with this page, of this storage.
fn is_place(decl: Decl, place: PagePlace, other: (Decl, PagePlace)) -> bool
    ensures { result ≡ is_place decl place other }
{
    id_of(&other.0) == id_of(&decl) && is_same(place, other.1)
}

/// Whether it is the same place, with the same page.
fn is_same(place: PagePlace, other: PagePlace) -> bool
    ensures { result ≡ is_same place other }
{
    other.number == place.number && (other.low == place.low && other.high == place.high)
}

/// The name of the page at a place, or 0 where there is none.
fn name_of(places: &[(Decl, PagePlace)], decl: Decl, place: PagePlace) -> u32
    requires { length places.now < 4294967295 }
    ensures { result ≡ name_of places.now decl place }
{
    if place.number == 0 {
        return 0;
    }
    let mut name = 1;
    for other in places {
        if is_place(decl, place, *other) {
            return name;
        }
        name += 1;
    }
    0
}

/// The children at these places, by their names.
fn children_at(
    alloc: Global,
    places: &[(Decl, PagePlace)],
    decl: Decl,
    below: &[PagePlace],
) -> Result<Sequence<(Span, u32)>, Memory>
    requires { length places.now < 4294967295 }
    ensures { IfOk result (λ children. children ≡ children_at places.now decl below.now) }
{
    let mut children = Sequence::new(alloc);
    for place in below {
        children.push((span_of(id_of(&decl), *place), name_of(places, decl, *place)))?;
    }
    Ok(children)
}

/// The page with these words, at a place of a storage.
fn page_from(
    alloc: Global,
    places: &[(Decl, PagePlace)],
    decl: Decl,
    words: &[u64; 64],
    place: PagePlace,
) -> Result<SnapPage, Memory>
    requires few { length places.now < 4294967295 }
    requires bounded { IsBoundedIn decl place }
    ensures { IfOk result (λ page. page ≡ page_from places.now decl words.now place (below_in decl words.now place)) }
{
    let span = span_of(id_of(&decl), place);
    let below = below_in(alloc, decl, words, place)?;
    if below.is_empty() {
        return Ok(SnapPage::Entries(span, leaf_entries(alloc, decl, words, place)?));
    }
    Ok(SnapPage::Children(span, children_at(alloc, places, decl, below.as_slice())?))
}

/// The page at a place where one is.
fn page_at(
    alloc: Global,
    pages: &[Page],
    places: &[(Decl, PagePlace)],
    at: (Decl, PagePlace),
) -> Result<SnapPage, Memory>
    requires pages { length pages.now ≤ 65536 }
    requires places { length places.now < 4294967295 }
    requires there { IsThere (length pages.now) at }
    ensures { IfOk result (λ page. page ≡ page_at (words_of pages.now) places.now at) }
{
    let words = words_at(pages, at.1.number as u32);
    page_from(alloc, places, at.0, words, at.1)
}

/// All pages at these places, by their names.
fn snaps_of(
    alloc: Global,
    pages: &[Page],
    places: &[(Decl, PagePlace)],
) -> Result<Sequence<(u32, SnapPage)>, Memory>
    requires pages { length pages.now ≤ 65536 }
    requires places { length places.now < 4294967295 }
    requires there { AllByRecursion (IsThere (length pages.now)) places.now }
    ensures { IfOk result (λ snaps. snaps ≡ snaps_of (words_of pages.now) places.now) }
{
    let mut all = Sequence::new(alloc);
    let mut name = 1;
    for at in places {
        all.push((name, page_at(alloc, pages, places, *at)?))?;
        name += 1;
    }
    Ok(all)
}

/// The roots, each over the keys of its storage.
fn roots_of(
    alloc: Global,
    places: &[(Decl, PagePlace)],
    storages: &[Stored],
) -> Result<Sequence<(Span, u32)>, Memory>
    requires { length places.now < 4294967295 }
    ensures { IfOk result (λ roots. roots ≡ roots_of places.now storages.now) }
{
    let mut roots = Sequence::new(alloc);
    for storage in storages {
        let root = root_of(storage);
        roots.push((
            span_of(id_of(&storage.decl), root),
            name_of(places, storage.decl, root),
        ))?;
    }
    Ok(roots)
}

// The pages of a snapshot by their names, how many names there are, and the roots.
type Begun = (Sequence<(u32, SnapPage)>, u32, Sequence<(Span, u32)>);

/// What the machines begin with, of places that are there.
fn parts_at(
    alloc: Global,
    pages: &[Page],
    places: &[(Decl, PagePlace)],
    storages: &[Stored],
) -> Result<Begun, Memory>
    requires few { length pages.now ≤ 65536 }
    requires there { AllByRecursion (IsThere (length pages.now)) places.now }
    ensures snaps { IfOk result (λ b. b.0 ≡ snaps_of (words_of pages.now) places.now) }
    ensures count { IfOk result (λ b. b.1 ≡ length places.now) }
    ensures roots { IfOk result (λ b. b.2 ≡ roots_of places.now storages.now) }
{
    if places.len() >= u32::MAX as usize {
        return Err(Memory);
    }
    let snaps = snaps_of(alloc, pages, places)?;
    let roots = roots_of(alloc, places, storages)?;
    Ok((snaps, places.len() as u32, roots))
}

/// What the machines begin with over the pages of a snapshot: the pages that the roots lead to, each by its name, how
/// many names there are, and the roots. More names than 32 bits have are refused like want of memory.
pub fn begun_parts(
    alloc: Global,
    pages: &[Page],
    decls: &[Decl],
    roots: &[u32],
) -> Result<Begun, Memory>
    requires { length pages.now ≤ 65536 }
    ensures snaps { IfOk result (λ b. b.0 ≡ snaps_of (words_of pages.now)
        (named_places (words_of pages.now) (storages decls.now roots.now))) }
    ensures count { IfOk result (λ b. b.1 ≡ length
        (named_places (words_of pages.now) (storages decls.now roots.now))) }
    ensures roots { IfOk result (λ b. b.2 ≡ roots_of
        (named_places (words_of pages.now) (storages decls.now roots.now)) (storages decls.now roots.now)) }
{
    let stored = storages(alloc, decls, roots)?;
    let places = named_places(alloc, pages, stored.as_slice())?;
    parts_at(alloc, pages, places.as_slice(), stored.as_slice())
}

/// The storages with these roots.
fn storages(alloc: Global, decls: &[Decl], roots: &[u32]) -> Result<Sequence<Stored>, Memory>
    ensures { IfOk result (λ list. list ≡ storages decls.now roots.now) }
{
    let mut list = Sequence::new(alloc);
    push_storages(decls, roots, &mut list)?;
    Ok(list)
}

fn push_storages(decls: &[Decl], roots: &[u32], list: &mut Sequence<Stored>) -> Result<(), Memory>
    ensures { OnOk result (list.new ≡ list.old ++ storages decls.now roots.now) }
{
    let [decl, later_decls @ ..] = decls else {
        return Ok(());
    };
    let [root, later_roots @ ..] = roots else {
        return Ok(());
    };
    list.push(Stored {
        decl: *decl,
        root: *root,
    })?;
    push_storages(later_decls, later_roots, list)
}
