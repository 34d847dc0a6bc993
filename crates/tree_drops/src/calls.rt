// All pages of arrays and of trees are gone over.
ghost use Rattle.std.specs.Prelude.{◌≡◌, ◌<◌, ◌≤◌, [], length};
ghost use Rattle.engine_pages.specs.Passes.{view, IsPassOf};
ghost use Rattle.page_drops.specs.Calls.{CanDropAll, CanGoOver};
ghost use Rattle.tree_drops.specs.Calls.{HasDroppedAll, HasGoneArrays, HasGoneTrees, HasVisitedTree, IsBegun, IsTreeRoot};
ghost use Rattle.tree_drops.specs.Visits.{IsFew};

use crate::visits::{Target, visit};
use engine_pages::{Engine, Pass};
use homes::{At, Span};
use page_drops::{Dropped, begin, count, visit_root};
use serial_model::Decl;

/// Takes all pages out of memory that are what the newest snapshot has, beside transactions that run: `roots` has the
/// number of that snapshot's page for each storage's root, or 0, and `epoch` is the snapshot's. A leaf of a tree that was
/// split goes or stays with all that came of it, and stays where that are more than 63 pages. Now and then other threads
/// may go first.
pub fn drop_all(engine: &Engine, pass: &mut Pass, roots: &[u32], epoch: u32) -> Dropped
    requires of { IsPassOf engine.now pass.old }
    requires can { CanDropAll roots.now (view pass.old) }
    requires past { epoch ≤ (view pass.old).past }
    ensures of { IsPassOf engine.now pass.new }
    ensures drops { HasDroppedAll roots.now epoch (view pass.old) result (view pass.new) }
{
    begin(engine, pass);
    let arrays = go_over_arrays(engine, pass, roots);
    let sum = go_over_trees(engine, pass, roots, epoch, arrays);
    count(engine, pass, sum.dropped, sum.kept);
    sum
}

/// Goes over the arrays, one after another.
fn go_over_arrays(engine: &Engine, pass: &mut Pass, roots: &[u32]) -> Dropped
    requires of { IsPassOf engine.now pass.old }
    requires can { CanDropAll roots.now (view pass.old) }
    requires begun { IsBegun (view pass.old) }
    ensures of { IsPassOf engine.now pass.new }
    ensures goes { HasGoneArrays roots.now (view pass.old) result (view pass.new) }
{
    let mut sum = Dropped {
        dropped: 0,
        kept: 0,
        first: None,
    };
    for root in 0..engine.decls().len() {
        sum = visit_root(engine, pass, root, roots[root], sum);
    }
    sum
}

/// Goes over the trees, one after another, behind the arrays, of which so much is counted.
fn go_over_trees(
    engine: &Engine,
    pass: &mut Pass,
    roots: &[u32],
    epoch: u32,
    arrays: Dropped,
) -> Dropped
    requires of { IsPassOf engine.now pass.old }
    requires can { CanDropAll roots.now (view pass.old) }
    requires past { epoch ≤ (view pass.old).past }
    requires unsealed { (view pass.old).sealed ≡ [] }
    requires gone { HasGoneTrees roots.now epoch 0 (view pass.old) arrays (view pass.old) }
    ensures of { IsPassOf engine.now pass.new }
    ensures goes { HasGoneTrees roots.now epoch (length roots.now) (view pass.old) result (view pass.new) }
{
    let mut sum = arrays;
    for root in 0..engine.decls().len() {
        sum = visit_tree(engine, pass, root, roots[root], epoch, sum);
    }
    sum
}

/// Goes over the pages of the storage with this index, if it is a tree.
fn visit_tree(
    engine: &Engine,
    pass: &mut Pass,
    root: usize,
    page: u32,
    epoch: u32,
    before: Dropped,
) -> Dropped
    requires of { IsPassOf engine.now pass.old }
    requires root { root < length engine.now.table.shared.key.decls }
    requires over { CanGoOver root page (view pass.old) }
    requires past { epoch ≤ (view pass.old).past }
    requires unsealed { (view pass.old).sealed ≡ [] }
    requires few { IsFew before }
    ensures of { IsPassOf engine.now pass.new }
    ensures visits { HasVisitedTree page epoch root before (view pass.old) result (view pass.new) }
{
    let Some(storage) = tree_at(engine, root) else {
        return before;
    };
    let target = Target {
        place: At::Root(root),
        span: Span {
            storage,
            low: 0,
            high: u64::MAX,
        },
        at: 10 + root as u32,
        page,
        epoch,
    };
    visit(engine, pass, target, before)
}

/// The id of the storage with this index, if it is a tree.
fn tree_at(engine: &Engine, root: usize) -> Option<u8>
    requires root { root < length engine.now.table.shared.key.decls }
    ensures kind { IsTreeRoot engine.now.table.shared.key.decls root result }
{
    match engine.decls()[root] {
        Decl::Array { .. } => None,
        Decl::Tree { id } => Some(id),
    }
}
