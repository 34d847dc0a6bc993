// The new pages of a snapshot are filled and published.
ghost use Rattle.std.specs.Prelude.{◌≡◌, ◌++◌, ◌<◌, ◌≤◌, ◌^◌, [], drop, false, length, true};
ghost use Rattle.engine_pages.specs.declared.view.Role.TheVariants.{Keeper};
ghost use Rattle.engine_pages.specs.Layout.{snap_at};
ghost use Rattle.engine_pages.specs.Passes.{view, IsPassOf};
ghost use Rattle.snapshot_store.specs.Content.{words_of};
ghost use Rattle.resident_pages.specs.Fills.{AreClaimed};
ghost use Rattle.resident_pages.specs.Publishes.{AreFilled, CanNameAll, HasFoundMore, HasPublished, IsFilledUpTo};
ghost use Rattle.resident_pages.specs.Publishes.{OnlyFilled};

use crate::extending::extend;
use crate::filling::{claim_page, fill_page};
use crate::law::Publishing;
use engine_pages::{Engine, Pass};
use snapshot_store::SnapStore;

/// Makes all pages behind those that the pass knows its own to fill, so many of all for which the table has words.
/// Where more pages are published than the pass knows, it answers `false`.
pub fn claim_rest(engine: &Engine, pass: &mut Pass, known: u32, resident: u32) -> bool
    requires of { IsPassOf engine.now pass.old }
    requires keeper { (view pass.old).role ≡ Keeper }
    requires known { known ≡ length (view pass.old).pages }
    requires resident { resident ≡ (view pass.old).layout.resident }
    requires within { known ≤ resident }
    requires few { resident ≤ 65536 }
    requires none { (view pass.old).fills ≡ [] }
    ensures of { IsPassOf engine.now pass.new }
    ensures only { OnlyFilled (view pass.old) (view pass.new) }
    ensures claims { result ≡ true → AreClaimed (view pass.new) }
    ensures found { result ≡ false → HasFoundMore (view pass.old) (view pass.new) }
{
    for i in 0..resident - known {
        let page = known + i + 1;
        let count = claim_page(engine, pass, page);
        if count >= u64::from(page) {
            return false;
        }
    }
    true
}

/// Fills the pages behind those that the pass knows, up to the last one of the store, and publishes them, with the
/// names that the call picks. They are the pass's own to fill, and those behind them stay so. Where it knows all pages
/// of the store, places of these get names.
pub fn publish_pages<J: Publishing>(engine: &Engine, pass: &mut Pass, known: u32, store: &SnapStore)
    requires of { IsPassOf engine.now pass.old }
    requires keeper { (view pass.old).role ≡ Keeper }
    requires known { known ≡ length (view pass.old).pages }
    requires within { known ≤ length store.now.pages }
    requires room { length store.now.pages ≤ (view pass.old).layout.resident }
    requires claimed { AreClaimed (view pass.old) }
    requires pages { (view pass.old).pages ++ J.pages ≡ words_of store.now.pages }
    requires names { CanNameAll J.pages J.places (view pass.old) }
    ensures of { IsPassOf engine.now pass.new }
    ensures publishes { HasPublished J.pages J.places (view pass.old) (view pass.new) }
    ensures claimed { AreClaimed (view pass.new) }
{
    fill_pages(engine, pass, known, store);
    extend::<J>(engine, pass, store.count());
}

// The pages of the store behind those that the pass knows.
fn fill_pages(engine: &Engine, pass: &mut Pass, known: u32, store: &SnapStore)
    requires of { IsPassOf engine.now pass.old }
    requires keeper { (view pass.old).role ≡ Keeper }
    requires known { known ≡ length (view pass.old).pages }
    requires within { known ≤ length store.now.pages }
    requires room { length store.now.pages ≤ (view pass.old).layout.resident }
    requires claimed { AreClaimed (view pass.old) }
    ensures of { IsPassOf engine.now pass.new }
    ensures fills { AreFilled (length (drop known (words_of store.now.pages))) (drop known (words_of store.now.pages))
        (view pass.old) (view pass.new) }
    ensures claimed { AreClaimed (view pass.new) }
{
    for i in 0..store.count() - known {
        let page = known + 1 + i;
        fill_next(engine, pass, page, store.words(u64::from(page)));
    }
}

// A page above those that the pass knows.
fn fill_next(engine: &Engine, pass: &mut Pass, page: u32, words: &[u64; 64])
    requires of { IsPassOf engine.now pass.old }
    requires keeper { (view pass.old).role ≡ Keeper }
    requires above { length (view pass.old).pages < page }
    requires room { page ≤ (view pass.old).layout.resident }
    requires few { page ≤ 65536 }
    requires claimed { AreClaimed (view pass.old) }
    ensures of { IsPassOf engine.now pass.new }
    ensures fills { IsFilledUpTo page 64 words.now (view pass.old) (view pass.new) }
{
    let first = first_word(engine, page);
    fill_words(engine, pass, page, first, words);
}

// Where the words of the page begin.
fn first_word(engine: &Engine, page: u32) -> u32
    requires some { 0 < page }
    requires few { page ≤ 65536 }
    ensures place { result ≡ snap_at engine.now.table.shared.key.slots page 0 }
    ensures low { result < 2 ^ 31 }
{
    32 + 65 * engine.slots() + 64 * (page - 1)
}

// All words of a page that is the keeper's to fill.
fn fill_words(engine: &Engine, pass: &mut Pass, page: u32, first: u32, words: &[u64; 64])
    requires of { IsPassOf engine.now pass.old }
    requires keeper { (view pass.old).role ≡ Keeper }
    requires some { 0 < page }
    requires room { page ≤ (view pass.old).layout.resident }
    requires first { first ≡ snap_at (view pass.old).layout.slots page 0 }
    requires low { first < 2 ^ 31 }
    requires claimed { IsFilledUpTo page 0 words.now (view pass.old) (view pass.old) }
    ensures of { IsPassOf engine.now pass.new }
    ensures fills { IsFilledUpTo page 64 words.now (view pass.old) (view pass.new) }
{
    for i in 0..64 {
        fill_page(engine, pass, page, i, first + i, words[i as usize]);
    }
}
