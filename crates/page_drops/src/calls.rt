// All pages of arrays are gone over.
ghost use Rattle.std.specs.Prelude.{◌≡◌, ◌-◌, ◌<◌, ◌∷◌, [], length, IfErr, OnOk};
ghost use Rattle.engine_pages.specs.declared.view.KeptPage.{KeptPage};
ghost use Rattle.engine_pages.specs.declared.view.Role.TheVariants.{Keeper};
ghost use Rattle.engine_pages.specs.Layout.{root_at};
ghost use Rattle.engine_pages.specs.Passes.{view, IsPassOf};
ghost use Rattle.page_drops.specs.Calls.{begun, counted, CanDropAll, CanGoOver, HasCounted, HasDroppedAll, HasRoom};
ghost use Rattle.page_drops.specs.Calls.{HasVisited, IsFirst, IsNoteOf, IsRootKind, IsRootTreeOf};
ghost use Rattle.page_drops.specs.Visits.{dropped_root, notes_root, slots_root, swings_root, MetRoot};

use crate::law::{Beginning, Counted, Counting};
use crate::laws::laws;
use crate::noting::Kept;
use crate::visits::{visit_leaf, visit_middle, visit_top};
use engine_pages::{Engine, Pass};
use homes::{At, Span};
use serial_model::Decl;
use std::marker::Brand;

/// The keys of a leaf, and of a page over leaves.
const LEAF: u32 = 32;

const MIDDLE: u32 = 64 * LEAF;

const TOP: u32 = 64 * MIDDLE;

/// How many pages were dropped and kept, and why the first was kept.
#[derive(Clone, Copy, Debug, PartialEq, Eq)]
pub struct Dropped {
    pub dropped: u32,
    pub kept: u32,
    pub first: Option<Kept>,
}

impl Dropped {
    /// With a page more that was kept.
    pub fn and_kept(self, kept: Kept) -> Dropped
        requires room { HasRoom 1 self }
        ensures counts { (note : KeptPage) → IsNoteOf kept note → HasCounted self 0 (note ∷ []) result }
    {
        Dropped {
            dropped: self.dropped,
            kept: self.kept + 1,
            first: first_of(self.first, kept),
        }
    }

    /// With a page more that was dropped, or kept.
    pub fn and(self, found: Result<(), Kept>) -> Dropped
        requires room { HasRoom 1 self }
        ensures drops { OnOk found (HasCounted self 1 [] result) }
        ensures keeps { IfErr found (λ k. (note : KeptPage) → IsNoteOf k note → HasCounted self 0 (note ∷ []) result) }
    {
        match found {
            Ok(()) => Dropped {
                dropped: self.dropped + 1,
                kept: self.kept,
                first: self.first,
            },
            Err(kept) => self.and_kept(kept),
        }
    }
}

// The first of the pages that were kept, where this one is the last.
fn first_of(first: Option<Kept>, kept: Kept) -> Option<Kept>
    ensures first { (note : KeptPage) → IsNoteOf kept note → IsFirst first (note ∷ []) result }
{
    match first {
        Some(_) => first,
        None => Some(kept),
    }
}

/// Takes all pages of arrays out of memory that are what the newest snapshot has, beside transactions that run: `roots`
/// has the number of that snapshot's page for each storage's root, or 0. Now and then other threads may go first.
pub fn drop_all(engine: &Engine, pass: &mut Pass, roots: &[u32]) -> Dropped
    requires of { IsPassOf engine.now pass.old }
    requires can { CanDropAll roots.now (view pass.old) }
    ensures of { IsPassOf engine.now pass.new }
    ensures drops { HasDroppedAll roots.now (view pass.old) result (view pass.new) }
{
    begin(engine, pass);
    let mut sum = Dropped {
        dropped: 0,
        kept: 0,
        first: None,
    };
    for root in 0..engine.decls().len() {
        sum = visit_root(engine, pass, root, roots[root], sum);
    }
    count(engine, pass, sum.dropped, sum.kept);
    sum
}

/// Goes over the pages of the storage with this index, if it is an array; `page` is the number of the newest snapshot's
/// page for its root, or 0.
pub fn visit_root(
    engine: &Engine,
    pass: &mut Pass,
    root: usize,
    page: u32,
    before: Dropped,
) -> Dropped
    requires of { IsPassOf engine.now pass.old }
    requires root { root < length engine.now.table.shared.key.decls }
    requires over { CanGoOver root page (view pass.old) }
    requires room { HasRoom 4161 before }
    ensures of { IsPassOf engine.now pass.new }
    ensures visits { HasVisited MetRoot dropped_root notes_root slots_root swings_root (IsRootTreeOf page root)
        (root_at root) before (view pass.old) result (view pass.new) }
{
    let Some((id, size)) = array_at(engine, root) else {
        return before;
    };
    let place = At::Root(root);
    let at = 10 + root as u32;
    if size <= LEAF {
        return visit_leaf(engine, pass, place, whole(id, LEAF), at, page, before);
    }
    if size <= MIDDLE {
        return visit_middle(engine, pass, place, whole(id, MIDDLE), at, page, before);
    }
    visit_top(engine, pass, place, whole(id, TOP), at, page, before)
}

// The id and the size of the storage with this index, if it is an array.
fn array_at(engine: &Engine, root: usize) -> Option<(u8, u32)>
    requires root { root < length engine.now.table.shared.key.decls }
    ensures kind { IsRootKind engine.now.table.shared.key.decls root result }
{
    match engine.decls()[root] {
        Decl::Array { id, size } => Some((id, size)),
        Decl::Tree { .. } => None,
    }
}

/// So many keys of a storage, from the first on.
fn whole(storage: u8, count: u32) -> Span
    requires { 0 < count }
    ensures { result ≡ record { storage = storage; low = 0; high = count - 1 } }
{
    Span {
        storage,
        low: 0,
        high: u64::from(count - 1),
    }
}

/// A call begins: what was read, left and kept before is let go of.
pub fn begin(engine: &Engine, pass: &mut Pass) -> u64
    requires of { IsPassOf engine.now pass.old }
    requires keeper { (view pass.old).role ≡ Keeper }
    ensures of { IsPassOf engine.now pass.new }
    ensures begins { view pass.new ≡ begun result (view pass.old) }
{
    laws();
    engine.table.shared.load::<Beginning>(pass, 0)
}

/// Notes how many pages were dropped and kept in all, as the call ends.
pub fn count(engine: &Engine, pass: &mut Pass, dropped: u32, kept: u32) -> u64
    requires of { IsPassOf engine.now pass.old }
    requires keeper { (view pass.old).role ≡ Keeper }
    ensures of { IsPassOf engine.now pass.new }
    ensures counts { view pass.new ≡ counted (record { dropped = dropped; kept = kept }) result (view pass.old) }
{
    count_as::<Brand>(engine, pass, dropped, kept)
}

fn count_as<J: Counted>(engine: &Engine, pass: &mut Pass, dropped: u32, kept: u32) -> u64
    requires of { IsPassOf engine.now pass.old }
    requires keeper { (view pass.old).role ≡ Keeper }
    requires named { record { dropped = dropped; kept = kept } ≡ J.counts }
    ensures of { IsPassOf engine.now pass.new }
    ensures counts { view pass.new ≡ counted (record { dropped = dropped; kept = kept }) result (view pass.old) }
{
    laws();
    engine.table.shared.load::<Counting<J>>(pass, 0)
}
