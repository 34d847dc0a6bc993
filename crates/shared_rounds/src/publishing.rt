// The snapshot pages that a store has more than the words.
ghost use Rattle.std.specs.Prelude.{◌≡◌, ◌≤◌, length};
ghost use Rattle.lists.specs.Fronts.{IsFront};
ghost use Rattle.wire_form.specs.Pages.{Contents, decls_of};
ghost use Rattle.snapshot_store.specs.Content.{SnapshotStands, words_of};
ghost use Rattle.engine_pages.specs.declared.view.Role.TheVariants.{Keeper};
ghost use Rattle.engine_pages.specs.Passes.{IsPassOf, view};
ghost use Rattle.resident_pages.specs.Fills.{AreClaimed};
ghost use Rattle.resident_pages.specs.Publishes.{OnlyFilled};
ghost use Rattle.shared_rounds.specs.Published.{HasPages};

use engine_pages::{Engine, Pass};
use resident_pages::{look_at_pages, publish_pages};
use snapshot_store::SnapStore;
use std::marker::Brand;

/// Publishes those pages of the store that stand behind the ones that the keeper knows, with names for all places that
/// the newest snapshot's roots lead to.
pub fn publish_new(words: &Engine, keeper: &mut Pass, store: &SnapStore)
    requires of { IsPassOf words.now keeper.old }
    requires keeper { (view keeper.old).role ≡ Keeper }
    requires claimed { AreClaimed (view keeper.old) }
    requires few { (view keeper.old).layout.resident ≤ 65536 }
    requires pages { IsFront (view keeper.old).pages (words_of store.now.pages) }
    requires snapshot { (contents : Contents) × SnapshotStands (words_of store.now.pages) (length store.now.pages)
        contents × (decls_of contents ≡ (view keeper.old).layout.decls) }
    requires room { length store.now.pages ≤ (view keeper.old).layout.resident }
    ensures of { IsPassOf words.now keeper.new }
    ensures publishes { HasPages (words_of store.now.pages) (view keeper.old) (view keeper.new) }
    ensures claimed { AreClaimed (view keeper.new) }
{
    let known = count_known(words, keeper);
    if known >= store.count() {
        return;
    }
    publish_pages::<Brand>(words, keeper, known, store);
}

// How many pages the keeper knows, which are all that are published.
fn count_known(words: &Engine, keeper: &mut Pass) -> u32
    requires of { IsPassOf words.now keeper.old }
    requires keeper { (view keeper.old).role ≡ Keeper }
    requires claimed { AreClaimed (view keeper.old) }
    requires few { (view keeper.old).layout.resident ≤ 65536 }
    ensures of { IsPassOf words.now keeper.new }
    ensures only { OnlyFilled (view keeper.old) (view keeper.new) }
    ensures claimed { AreClaimed (view keeper.new) }
    ensures count { result ≡ length (view keeper.old).pages }
{
    look_at_pages(words, keeper) as u32
}
