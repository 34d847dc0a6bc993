// Counts of pages of trees: no bound tells how many a tree has, so they stop at a most.
ghost use Rattle.std.specs.Prelude.{◌≡◌, ℕ, suc, ◌+◌, ◌∷◌, ◌≤◌, [], replicate, IfErr, OnOk};
ghost use Rattle.engine_pages.specs.declared.view.KeptPage.{KeptPage};
ghost use Rattle.page_drops.specs.Calls.{IsFirst, IsNoteOf};
ghost use Rattle.tree_drops.specs.Visits.{most_counted, HasTallied, IsCapped, IsFew};

use page_drops::{Dropped, Kept};

const MOST: u32 = 1 << 31;

/// One more, up to the most.
fn one_more(count: u32) -> u32
    requires few { count ≤ most_counted }
    ensures { IsCapped (count + 1) result }
{
    if count == MOST {
        return MOST;
    }
    count + 1
}

/// The first of the pages that were kept, where this one is the last.
fn first_of(first: Option<Kept>, kept: Kept) -> Option<Kept>
    ensures first { (note : KeptPage) → IsNoteOf kept note → IsFirst first (note ∷ []) result }
{
    match first {
        Some(_) => first,
        None => Some(kept),
    }
}

/// With a page more that was kept.
pub(crate) fn and_kept(sum: Dropped, kept: Kept) -> Dropped
    requires few { IsFew sum }
    ensures counts { (note : KeptPage) → IsNoteOf kept note → HasTallied sum 0 (note ∷ []) result }
{
    Dropped {
        dropped: sum.dropped,
        kept: one_more(sum.kept),
        first: first_of(sum.first, kept),
    }
}

/// With a page more that was dropped, or kept.
pub(crate) fn and(sum: Dropped, found: Result<(), Kept>) -> Dropped
    requires few { IsFew sum }
    ensures drops { OnOk found (HasTallied sum 1 [] result) }
    ensures keeps { IfErr found (λ k. (note : KeptPage) → IsNoteOf k note → HasTallied sum 0 (note ∷ []) result) }
{
    match found {
        Ok(()) => Dropped {
            dropped: one_more(sum.dropped),
            kept: sum.kept,
            first: sum.first,
        },
        Err(kept) => and_kept(sum, kept),
    }
}

/// So many more, up to the most.
fn more(count: u32, by: u32) -> u32
    requires few { count ≤ most_counted }
    ensures { IsCapped (count + by) result }
{
    if by > MOST - count {
        return MOST;
    }
    count + by
}

/// With so many pages more that were dropped.
pub(crate) fn and_dropped(sum: Dropped, count: u32) -> Dropped
    requires few { IsFew sum }
    ensures counts { HasTallied sum count [] result }
{
    Dropped {
        dropped: more(sum.dropped, count),
        kept: sum.kept,
        first: sum.first,
    }
}

/// With so many pages more that were kept for one cause, one at least.
pub(crate) fn and_all_kept(sum: Dropped, kept: Kept, count: u32) -> Dropped
    requires few { IsFew sum }
    ensures counts { (note : KeptPage) (n : ℕ) → suc n ≡ count → IsNoteOf kept note
        → HasTallied sum 0 (replicate (suc n) note) result }
{
    Dropped {
        dropped: sum.dropped,
        kept: more(sum.kept, count),
        first: first_of(sum.first, kept),
    }
}
