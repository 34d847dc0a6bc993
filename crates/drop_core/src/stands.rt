// Whether a page may stand for another one.
ghost use Rattle.std.specs.Prelude.{◌≡◌, ◌<◌, ◌+◌, nat_le, nat_lt};
ghost use Rattle.std.specs.List.{list_all};
ghost use Rattle.homes.specs.Homes.{has_key, in_span, same_span, is_free, holder_is};
ghost use Rattle.drop_core.specs.Table.{page_of, snap_of, page_span};
ghost use Rattle.drop_core.specs.Event.{all_below, entries_pass, page_keys_pass, is_left_in, is_same_at, leaves_none_out, same_below, each_once, is_leaf_for, child, begins, is_tile, is_same_child, is_inner_for, stands_for, is_stood_for, is_page_over, leads_down};

use crate::queries::no_span;
use crate::{Page, Pointer, SnapPage, Table};
use homes::{At, Content, Home, Span, Spot};
use serial_model::Key;

impl Table {
    /// Whether snapshot page `n` has no entry of a key of the span that isn't in the list.
    pub fn leaves_none_out(&self, n: u32, span: Span, keys: &[Key]) -> bool
        ensures { result ≡ leaves_none_out self.now n span keys.now }
    {
        let mut snaps = self.snaps.as_slice().iter();
        snaps.all(|entry| self.leaves_none_of_page(n, span, keys, &entry.1))
    }

    fn leaves_none_of_page(&self, n: u32, span: Span, keys: &[Key], page: &SnapPage) -> bool
        ensures { result ≡ page_keys_pass (is_left_in self.now n span keys.now) page.now }
    {
        match page {
            SnapPage::Missing | SnapPage::Children(_, _) => true,
            SnapPage::Entries(_, entries) => self.are_left_in(n, span, keys, entries.as_slice()),
        }
    }

    fn are_left_in(&self, n: u32, span: Span, keys: &[Key], entries: &[(Key, Content)]) -> bool
        ensures { result ≡ entries_pass (is_left_in self.now n span keys.now) entries.now }
    {
        let mut entries = entries.iter();
        entries.all(|entry| self.is_left_in(n, span, keys, entry.0))
    }

    fn is_left_in(&self, n: u32, span: Span, keys: &[Key], key: Key) -> bool
        ensures { result ≡ is_left_in self.now n span keys.now key }
    {
        !span.has(key) || has_key(keys, key) || self.home(n, key).is(Home::Nowhere)
    }

    /// Whether each key of the span has one home by both pages.
    fn same_below(&self, span: Span, m: u32, n: u32) -> bool
        ensures { result ≡ same_below self.now span m n }
    {
        let mut snaps = self.snaps.as_slice().iter();
        snaps.all(|entry| self.same_by_page(span, m, n, &entry.1))
    }

    fn same_by_page(&self, span: Span, m: u32, n: u32, page: &SnapPage) -> bool
        ensures { result ≡ page_keys_pass (is_same_at self.now span m n) page.now }
    {
        match page {
            SnapPage::Missing | SnapPage::Children(_, _) => true,
            SnapPage::Entries(_, entries) => self.are_same_at(span, m, n, entries.as_slice()),
        }
    }

    fn are_same_at(&self, span: Span, m: u32, n: u32, entries: &[(Key, Content)]) -> bool
        ensures { result ≡ entries_pass (is_same_at self.now span m n) entries.now }
    {
        let mut entries = entries.iter();
        entries.all(|entry| self.is_same_at(span, m, n, entry.0))
    }

    fn is_same_at(&self, span: Span, m: u32, n: u32, key: Key) -> bool
        ensures { result ≡ is_same_at self.now span m n key }
    {
        !span.has(key) || self.home(m, key).is(self.home(n, key))
    }

    fn is_leaf_for(&self, n: u32, span: Span, keys: &[Key]) -> bool
        ensures { result ≡ is_leaf_for self.now n span keys.now }
    {
        each_once(keys) && are_in(span, keys) && self.leaves_none_out(n, span, keys)
    }

    /// The pointer with this index in the page of a slot.
    pub fn child(&self, slot: u32, index: usize) -> Pointer
        ensures { result ≡ child self.now slot index }
    {
        self.pointer(At::In(Spot { slot, index }))
    }

    fn begins(&self, slot: u32, span: Span, index: usize) -> bool
        ensures { result ≡ begins self.now slot span index }
    {
        let low = self.child(slot, index).span.low;
        if index == 0 {
            return low == span.low;
        }
        let before = self.child(slot, index - 1).span.high;
        before < low && low - before == 1
    }

    fn is_tile(&self, slot: u32, span: Span, count: usize, index: usize) -> bool
        requires { index < count }
        ensures { result ≡ is_tile self.now slot span count index }
    {
        let part = self.child(slot, index).span;
        part.storage == span.storage
            && part.low <= part.high
            && self.begins(slot, span, index)
            && (index + 1 < count || part.high == span.high)
    }

    fn are_tiles(&self, slot: u32, span: Span, count: usize) -> bool
        ensures { result ≡ all_below count (is_tile self.now slot span count) }
    {
        let mut all = true;
        for index in 0..count {
            all = self.is_tile(slot, span, count, index) && all;
        }
        all
    }

    fn is_same_child(&self, slot: u32, n: u32, index: usize) -> bool
        ensures { result ≡ is_same_child self.now slot n index }
    {
        let child = self.child(slot, index);
        child.slot.is_none() && self.same_below(child.span, child.page, n)
    }

    fn are_same_children(&self, slot: u32, n: u32, count: usize) -> bool
        ensures { result ≡ all_below count (is_same_child self.now slot n) }
    {
        let mut all = true;
        for index in 0..count {
            all = self.is_same_child(slot, n, index) && all;
        }
        all
    }

    fn is_published(&self, slot: u32, index: usize) -> bool
        ensures { result ≡ nat_le (child self.now slot index).page self.now.published }
    {
        self.child(slot, index).page <= self.published
    }

    fn is_shut_by(&self, id: u32, slot: u32, index: usize) -> bool
        ensures { result ≡ holder_is id (child self.now slot index).holder }
    {
        self.child(slot, index).holder.is(id)
    }

    fn are_published(&self, slot: u32, count: usize) -> bool
        ensures { result ≡ all_below count (λ j. nat_le (child self.now slot j).page self.now.published) }
    {
        let mut all = true;
        for index in 0..count {
            all = self.is_published(slot, index) && all;
        }
        all
    }

    fn is_free_at(&self, slot: u32, index: usize) -> bool
        ensures { result ≡ is_free (child self.now slot index).holder }
    {
        self.child(slot, index).holder.is_free()
    }

    fn are_free(&self, slot: u32, count: usize) -> bool
        ensures { result ≡ all_below count (λ j. is_free (child self.now slot j).holder) }
    {
        let mut all = true;
        for index in 0..count {
            all = self.is_free_at(slot, index) && all;
        }
        all
    }

    fn are_shut_by(&self, id: u32, slot: u32, count: usize) -> bool
        ensures { result ≡ all_below count (λ j. holder_is id (child self.now slot j).holder) }
    {
        let mut all = true;
        for index in 0..count {
            all = self.is_shut_by(id, slot, index) && all;
        }
        all
    }

    fn is_inner_for(&self, slot: u32, n: u32, span: Span, count: usize) -> bool
        ensures { result ≡ is_inner_for self.now slot n span count }
    {
        0 < count
            && self.are_tiles(slot, span, count)
            && self.are_same_children(slot, n, count)
            && self.are_published(slot, count)
            && self.are_free(slot, count)
    }

    /// Whether the page in the slot may stand for snapshot page `n`, over the span.
    pub fn stands_for(&self, slot: u32, n: u32, span: Span) -> bool
        ensures { result ≡ stands_for self.now slot n span (page_of self.now slot) }
    {
        match self.page(slot) {
            None | Some(Page::Blank) | Some(Page::Split) => false,
            Some(Page::Leaf(keys)) => self.is_leaf_for(n, span, keys.as_slice()),
            Some(Page::Inner(count)) => self.is_inner_for(slot, n, span, *count),
        }
    }

    /// Whether snapshot page `n` may stand for the page in the slot, and the seat has shut each pointer of that.
    pub fn is_stood_for(&self, id: u32, slot: u32, n: u32, span: Span) -> bool
        ensures { result ≡ is_stood_for id self.now slot n span (page_of self.now slot) }
    {
        match self.page(slot) {
            None | Some(Page::Blank) | Some(Page::Split) => false,
            Some(Page::Leaf(keys)) => self.leaves_none_out(n, span, keys.as_slice()),
            Some(Page::Inner(count)) => {
                self.are_same_children(slot, n, *count) && self.are_shut_by(id, slot, *count)
            }
        }
    }

    /// Whether snapshot page `n` is over the span.
    pub fn is_over(&self, n: u32, span: Span) -> bool
        ensures { result ≡ same_span (page_span (snap_of self.now n)) span }
    {
        match self.snap(n) {
            None | Some(SnapPage::Missing) => no_span().is(span),
            Some(SnapPage::Entries(over, _)) => over.is(span),
            Some(SnapPage::Children(over, _)) => over.is(span),
        }
    }

    /// Whether the snapshot page is filled, and leads to lower pages alone.
    fn leads_down(&self, number: u32) -> bool
        ensures { result ≡ leads_down number (snap_of self.now number) }
    {
        match self.snap(number) {
            None | Some(SnapPage::Missing) => false,
            Some(SnapPage::Entries(_, _)) => true,
            Some(SnapPage::Children(_, children)) => are_lower(number, children.as_slice()),
        }
    }

    /// Whether all snapshot pages up to this one are filled, and lead to lower pages alone.
    pub fn are_filled(&self, number: u32) -> bool
        ensures { result ≡ all_below number (λ l. leads_down (l + 1) (snap_of self.now (l + 1))) }
    {
        let mut all = true;
        for before in 0..number {
            all = self.leads_down(before + 1) && all;
        }
        all
    }
}

/// Whether the key is in the list.
pub fn has_key(keys: &[Key], key: Key) -> bool
    ensures { result ≡ has_key keys.now key }
{
    keys.iter().any(|k| *k == key)
}

/// Whether all keys are in the span.
pub fn are_in(span: Span, keys: &[Key]) -> bool
    ensures { result ≡ list_all (λ k. in_span span k) keys.now }
{
    keys.iter().all(|key| span.has(*key))
}

/// Whether each child is a page below this number.
fn are_lower(number: u32, children: &[(Span, u32)]) -> bool
    ensures { result ≡ list_all (λ e. nat_lt e.1 number) children.now }
{
    children.iter().all(|child| child.1 < number)
}

/// Whether each key is in the list once.
pub fn each_once(keys: &[Key]) -> bool
    ensures { result ≡ each_once keys.now }
{
    match keys {
        [] => true,
        [key, more @ ..] => !has_key(more, *key) && each_once(more),
    }
}
