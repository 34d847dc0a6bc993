// Pages are taken out of memory beside the workers' lines.
ghost use Rattle.std.specs.Prelude.{◌≡◌, ◌+◌, ◌*◌, ◌<◌, ◌≤◌, ◌%◌, ◌^◌, ℕ, get_or, length};
ghost use Rattle.serial_model.specs.Decls.{AreDecls};
ghost use Rattle.wire_form.specs.Pages.{Contents, decls_of};
ghost use Rattle.snapshot_store.specs.Content.{SnapshotStands, words_of};
ghost use Rattle.engine_pages.specs.declared.view.Role.TheVariants.{Keeper};
ghost use Rattle.engine_pages.specs.Passes.{IsPassOf, view};
ghost use Rattle.engine_pages.specs.Views.{IsResting};
ghost use Rattle.resident_pages.specs.Fills.{AreClaimed};
ghost use Rattle.shared_rounds.specs.Drops.{HasCalled, HasDropped, KnowsNewest, OnlyNamed};
ghost use Rattle.shared_rounds.specs.SharedState.{HoldsNothing};

use engine_pages::{Engine, Pass};
use page_drops::Dropped;
use resident_pages::{look_at_pages, publish_pages};
use snapshot_store::SnapStore;
use std::marker::Brand;
use tree_drops::drop_all;

/// Takes all pages out of memory that are what the store's newest snapshot has, beside transactions that run.
/// All pages of the store are published, and it has all that are; the snapshot's epoch is over. Answers how many pages
/// were dropped and how many were kept, and which one was kept first.
pub fn drop_pages(words: &Engine, keeper: &mut Pass, store: &SnapStore) -> Dropped
    requires of { IsPassOf words.now keeper.old }
    requires keeper { (view keeper.old).role ≡ Keeper }
    requires rests { IsResting (view keeper.old).seat }
    requires free { HoldsNothing (view keeper.old) }
    requires claimed { AreClaimed (view keeper.old) }
    requires declared { AreDecls (view keeper.old).layout.decls }
    requires pages { (view keeper.old).pages ≡ words_of store.now.pages }
    requires snapshot { (contents : Contents) × SnapshotStands (words_of store.now.pages) (length store.now.pages)
        contents × (decls_of contents ≡ (view keeper.old).layout.decls)
        × (contents.epoch ≤ (view keeper.old).past) }
    requires room { length store.now.pages ≤ (view keeper.old).layout.resident }
    ensures of { IsPassOf words.now keeper.new }
    ensures drops { HasDropped (words_of store.now.pages) result (view keeper.old) (view keeper.new) }
{
    name_newest(words, keeper, store);
    let dropped = drop_named(words, keeper, store);
    look_at_pages(words, keeper);
    dropped
}

// Names all places that the newest snapshot's roots lead to, whether they have names or not.
fn name_newest(words: &Engine, keeper: &mut Pass, store: &SnapStore)
    requires of { IsPassOf words.now keeper.old }
    requires keeper { (view keeper.old).role ≡ Keeper }
    requires claimed { AreClaimed (view keeper.old) }
    requires pages { (view keeper.old).pages ≡ words_of store.now.pages }
    requires snapshot { (contents : Contents) × SnapshotStands (words_of store.now.pages) (length store.now.pages)
        contents × (decls_of contents ≡ (view keeper.old).layout.decls)
        × (contents.epoch ≤ (view keeper.old).past) }
    requires room { length store.now.pages ≤ (view keeper.old).layout.resident }
    ensures of { IsPassOf words.now keeper.new }
    ensures only { OnlyNamed (view keeper.old) (view keeper.new) }
    ensures claimed { AreClaimed (view keeper.new) }
    ensures names { KnowsNewest (words_of store.now.pages) (view keeper.new) }
{
    publish_pages::<Brand>(words, keeper, store.count(), store);
}

// The call over the newest snapshot's roots.
fn drop_named(words: &Engine, keeper: &mut Pass, store: &SnapStore) -> Dropped
    requires of { IsPassOf words.now keeper.old }
    requires keeper { (view keeper.old).role ≡ Keeper }
    requires rests { IsResting (view keeper.old).seat }
    requires free { HoldsNothing (view keeper.old) }
    requires declared { AreDecls (view keeper.old).layout.decls }
    requires pages { (view keeper.old).pages ≡ words_of store.now.pages }
    requires room { length store.now.pages ≤ (view keeper.old).layout.resident }
    requires names { KnowsNewest (words_of store.now.pages) (view keeper.old) }
    ensures of { IsPassOf words.now keeper.new }
    ensures drops { HasCalled (words_of store.now.pages) result (view keeper.old) (view keeper.new) }
{
    let catalogue = store.words(u64::from(store.count()));
    let roots = roots_in(catalogue);
    drop_all(
        words,
        keeper,
        &roots[..words.decls().len()],
        epoch_in(catalogue),
    )
}

// The epoch that a catalogue has, in its second word.
fn epoch_in(catalogue: &[u64; 64]) -> u32
    ensures { result ≡ get_or catalogue.now 1 0 % 2 ^ 32 }
{
    (catalogue[1] % 0x1_0000_0000) as u32
}

// The roots' page numbers that a catalogue has, the third of three words for each storage.
fn roots_in(catalogue: &[u64; 64]) -> [u32; 16]
    ensures long { length result ≡ 16 }
    ensures each { (i : ℕ) → i < 16 → get_or result i 0 ≡ get_or catalogue.now (18 + 3 * i) 0 % 2 ^ 32 }
{
    let mut roots = [0; 16];
    for i in 0..16 {
        roots[i] = (catalogue[18 + 3 * i] % 0x1_0000_0000) as u32;
    }
    roots
}
