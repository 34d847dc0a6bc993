// Interior pages: the children of arrays and trees in a page's words.
ghost use Rattle.std.specs.Prelude.{◌≡◌, ℕ, ◌≤◌, length, IsTrue, ◌↔◌};
ghost use Rattle.wire_form.specs.Pages.{HasKind};
ghost use Rattle.wire_form.specs.declared.page.PageKind.TheVariants.{ArrayInner, TreeInner};
ghost use Rattle.wire_form.specs.Parts.{HasChildren};

use crate::parts::{are_pointers, are_separators, count_in, is_head};

/// The header of a tree's interior page, without the count of its children.
const INNER: u64 = 0x200;

/// Whether the words are an interior page of an array with `used` children.
pub fn is_array_inner(used: u32, number: u32, words: &[u64; 64]) -> bool
    ensures { IsTrue result ↔ HasKind (ArrayInner used) number words.now }
{
    if used < 1 || used > 64 {
        return false;
    }
    are_pointers(0, number, used as usize, words)
}

/// Whether the words are `count` children and the separators between them, each list with its zeros.
fn has_children(low: u64, high: u64, number: u32, count: usize, words: &[u64]) -> bool
    requires some { 2 ≤ count }
    requires most { count ≤ 30 }
    requires whole { length words.now ≡ 60 }
    ensures { IsTrue result ↔ HasChildren low high number count words.now }
{
    let (pointers, separators) = words.split_at(30);
    are_pointers(1, number, count, pointers) && are_separators(low, high, count - 1, separators)
}

/// Whether the words are an interior page of a tree with these fences.
pub fn is_tree_inner(low: u64, high: u64, number: u32, words: &[u64; 64]) -> bool
    ensures { IsTrue result ↔ HasKind (TreeInner low high) number words.now }
{
    let (head, body) = words.split_at(4);
    let Some(count) = count_in(head[0], INNER, 30) else {
        return false;
    };
    if count < 2 {
        return false;
    }
    if !is_head(head, head[0], low, high) {
        return false;
    }
    has_children(low, high, number, count, body)
}
