// Whether snapshot pages are right for their spans, and whether a page in memory is like one.
ghost use Rattle.std.specs.Prelude.{◌≡◌, ◌+◌, ◌==◌, ◌&&◌, is_some, length};
ghost use Rattle.std.specs.List.{list_any, list_all};
ghost use Rattle.homes.specs.Homes.{same_key, in_span};
ghost use Rattle.drop_core.specs.Table.{page_of, snap_of};
ghost use Rattle.drop_core.specs.Event.{all_below, child, is_leaf_page, is_child_at, has_children, is_like, are_entries_of, is_first_part, is_next_part, tile_after, tile, is_right_child, is_right};

use crate::{Page, SnapPage, Table};
use homes::{Content, Span};
use serial_model::Key;

impl Table {
    /// Whether the page in the slot is of the kind of snapshot page `n`, and leads where that leads.
    pub fn is_like(&self, slot: u32, n: u32) -> bool
        ensures { result ≡ is_like self.now slot (page_of self.now slot) (snap_of self.now n) }
    {
        match self.page(slot) {
            None | Some(Page::Blank) | Some(Page::Split) => false,
            Some(Page::Leaf(_)) => self.is_leaf_page(n),
            Some(Page::Inner(count)) => self.has_children(slot, *count, n),
        }
    }

    fn is_leaf_page(&self, n: u32) -> bool
        ensures { result ≡ is_leaf_page (snap_of self.now n) }
    {
        match self.snap(n) {
            None | Some(SnapPage::Missing) => true,
            Some(SnapPage::Entries(_, _)) => true,
            Some(SnapPage::Children(_, _)) => false,
        }
    }

    fn has_children(&self, slot: u32, count: usize, n: u32) -> bool
        ensures { result ≡ has_children self.now slot count (snap_of self.now n) }
    {
        match self.snap(n) {
            None | Some(SnapPage::Missing) => self.lead_nowhere(slot, count),
            Some(SnapPage::Entries(_, _)) => false,
            Some(SnapPage::Children(_, children)) => self.has_all(slot, count, children.as_slice()),
        }
    }

    fn has_all(&self, slot: u32, count: usize, children: &[(Span, u32)]) -> bool
        ensures { result ≡ ((length children.now == count) && all_below count (is_child_at self.now slot children.now)) }
    {
        children.len() == count && self.are_children(slot, count, children)
    }

    fn leads_nowhere(&self, slot: u32, index: usize) -> bool
        ensures { result ≡ ((child self.now slot index).page == 0) }
    {
        self.child(slot, index).page == 0
    }

    fn lead_nowhere(&self, slot: u32, count: usize) -> bool
        ensures { result ≡ all_below count (λ j. (child self.now slot j).page == 0) }
    {
        let mut all = true;
        for index in 0..count {
            all = self.leads_nowhere(slot, index) && all;
        }
        all
    }

    fn is_child_at(&self, slot: u32, children: &[(Span, u32)], index: usize) -> bool
        ensures { result ≡ is_child_at self.now slot children.now index }
    {
        let own = self.child(slot, index);
        match children.get(index) {
            None => false,
            Some(child) => own.span.is(child.0) && own.page == child.1,
        }
    }

    fn are_children(&self, slot: u32, count: usize, children: &[(Span, u32)]) -> bool
        ensures { result ≡ all_below count (is_child_at self.now slot children.now) }
    {
        let mut all = true;
        for index in 0..count {
            all = self.is_child_at(slot, children, index) && all;
        }
        all
    }

    /// Whether snapshot page `n` is right for its span: it has the keys of this span alone, and the pages that it names are
    /// over their parts of it.
    fn is_right(&self, n: u32) -> bool
        ensures { result ≡ is_right (snap_of self.now) (snap_of self.now n) }
    {
        match self.snap(n) {
            None | Some(SnapPage::Missing) => false,
            Some(SnapPage::Entries(span, entries)) => are_entries_of(*span, entries.as_slice()),
            Some(SnapPage::Children(span, children)) => {
                tile(*span, children.as_slice()) && self.are_right_children(children.as_slice())
            }
        }
    }

    fn is_right_child(&self, child: (Span, u32)) -> bool
        ensures { result ≡ is_right_child (snap_of self.now) child }
    {
        child.1 == 0 || self.is_over(child.1, child.0)
    }

    fn are_right_children(&self, children: &[(Span, u32)]) -> bool
        ensures { result ≡ list_all (is_right_child (snap_of self.now)) children.now }
    {
        children.iter().all(|child| self.is_right_child(*child))
    }

    /// Whether all snapshot pages up to this one are right for their spans.
    pub fn are_right(&self, number: u32) -> bool
        ensures { result ≡ all_below number (λ l. is_right (snap_of self.now) (snap_of self.now (l + 1))) }
    {
        let mut all = true;
        for before in 0..number {
            all = self.is_right(before + 1) && all;
        }
        all
    }
}

/// Whether the entries have values of keys of the span, each key once.
fn are_entries_of(span: Span, entries: &[(Key, Content)]) -> bool
    ensures { result ≡ are_entries_of span entries.now }
{
    match entries {
        [] => true,
        [entry, more @ ..] => {
            is_entry_of(span, *entry) && !has_entry(more, entry.0) && are_entries_of(span, more)
        }
    }
}

/// Whether the entry has a value of a key of the span.
fn is_entry_of(span: Span, entry: (Key, Content)) -> bool
    ensures { result ≡ (in_span span entry.0 && is_some (entry.1).value) }
{
    span.has(entry.0) && entry.1.value.is_some()
}

fn has_entry(entries: &[(Key, Content)], key: Key) -> bool
    ensures { result ≡ list_any (λ f. same_key f.0 key) entries.now }
{
    entries.iter().any(|entry| entry.0 == key)
}

/// Whether the children tile the span, in order.
fn tile(span: Span, children: &[(Span, u32)]) -> bool
    ensures { result ≡ tile span children.now }
{
    match children {
        [] => false,
        [child, more @ ..] => is_first_part(span, child.0) && tile_after(span, child.0.high, more),
    }
}

/// Whether they tile what comes after this key.
fn tile_after(span: Span, high: u64, children: &[(Span, u32)]) -> bool
    ensures { result ≡ tile_after span high children.now }
{
    match children {
        [] => high == span.high,
        [child, more @ ..] => {
            is_next_part(span, high, child.0) && tile_after(span, child.0.high, more)
        }
    }
}

fn is_first_part(span: Span, part: Span) -> bool
    ensures { result ≡ is_first_part span part }
{
    part.storage == span.storage && part.low == span.low && part.low <= part.high
}

fn is_next_part(span: Span, high: u64, part: Span) -> bool
    ensures { result ≡ is_next_part span high part }
{
    part.storage == span.storage && part.low <= part.high && high < part.low && part.low - high == 1
}
