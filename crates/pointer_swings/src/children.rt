// Loads that go down in a snapshot, and the end of what was seen.
ghost use Rattle.std.specs.Prelude.{◌≡◌, ◌<◌};
ghost use Rattle.engine_pages.specs.declared.view.Role.TheVariants.{Keeper};
ghost use Rattle.engine_pages.specs.Passes.{view, IsPassOf};
ghost use Rattle.engine_pages.specs.Views.{IsActive};
ghost use Rattle.pointer_swings.specs.Children.{let_go as let_go_of, CanDescend, HasDescended};
ghost use Rattle.pointer_swings.specs.Children.{CanDescendTree, HasDescendedTree};

use crate::law::{Descended, Descending, DescendingTree, LettingGo};
use crate::laws::laws;
use engine_pages::{Engine, Pass};
use homes::Span;
use std::marker::Brand;

/// Loads a pointer of a snapshot's interior page, by its number, which stands for these keys: the page that it names is
/// known to stand for its part of them. Answers that page's number, or 0 where there is none.
pub fn descend(engine: &Engine, pass: &mut Pass, span: Span, page: u32, index: u32) -> u64
    requires of { IsPassOf engine.now pass.old }
    requires pass { IsActive (view pass.old).role }
    requires descend { CanDescend (view pass.old) span page index }
    ensures of { IsPassOf engine.now pass.new }
    ensures descends { HasDescended span page index (view pass.old) result (view pass.new) }
{
    descend_as::<Brand>(engine, pass, span, page, index)
}

fn descend_as<J: Descended>(
    engine: &Engine,
    pass: &mut Pass,
    span: Span,
    page: u32,
    index: u32,
) -> u64
    requires of { IsPassOf engine.now pass.old }
    requires pass { IsActive (view pass.old).role }
    requires descend { CanDescend (view pass.old) span page index }
    requires named { (span ≡ J.span) × ((page ≡ J.page) × (index ≡ J.index)) }
    ensures of { IsPassOf engine.now pass.new }
    ensures descends { HasDescended span page index (view pass.old) result (view pass.new) }
{
    laws();
    let begin = 32 + 65 * engine.slots() as usize;
    let at = begin + 64 * (page - 1) as usize + index as usize;
    engine.table.shared.load::<Descending<J>>(pass, at)
}

/// Loads a pointer of a snapshot's interior page of a tree, by its number, which stands for these keys: the page that
/// it names is known to stand for the keys between its separators. Answers that page's number.
pub fn descend_tree(engine: &Engine, pass: &mut Pass, span: Span, page: u32, index: u32) -> u64
    requires of { IsPassOf engine.now pass.old }
    requires pass { IsActive (view pass.old).role }
    requires descend { CanDescendTree (view pass.old) span page index }
    requires index { index < 30 }
    ensures of { IsPassOf engine.now pass.new }
    ensures descends { HasDescendedTree span page index (view pass.old) result (view pass.new) }
{
    descend_tree_as::<Brand>(engine, pass, span, page, index)
}

fn descend_tree_as<J: Descended>(
    engine: &Engine,
    pass: &mut Pass,
    span: Span,
    page: u32,
    index: u32,
) -> u64
    requires of { IsPassOf engine.now pass.old }
    requires pass { IsActive (view pass.old).role }
    requires descend { CanDescendTree (view pass.old) span page index }
    requires index { index < 30 }
    requires named { (span ≡ J.span) × ((page ≡ J.page) × (index ≡ J.index)) }
    ensures of { IsPassOf engine.now pass.new }
    ensures descends { HasDescendedTree span page index (view pass.old) result (view pass.new) }
{
    laws();
    let begin = 32 + 65 * engine.slots() as usize;
    let at = begin + 64 * (page - 1) as usize + (4 + index) as usize;
    engine.table.shared.load::<DescendingTree<J>>(pass, at)
}

/// Lets go of all records that the maintenance thread's pass has seen, so that it may leave their slots.
pub fn let_go(engine: &Engine, pass: &mut Pass) -> u64
    requires of { IsPassOf engine.now pass.old }
    requires keeper { (view pass.old).role ≡ Keeper }
    ensures of { IsPassOf engine.now pass.new }
    ensures lets_go { view pass.new ≡ let_go_of result (view pass.old) }
{
    laws();
    engine.table.shared.load::<LettingGo>(pass, 0)
}
