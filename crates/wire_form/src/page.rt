// Pages of a snapshot: whether words are a page, and pages as bytes.
ghost use Rattle.std.specs.Prelude.{◌≡◌, ℕ, ◌^◌, ◌<◌, List, IsTrue, ◌↔◌, IfOk, OnErr};
ghost use Rattle.std.specs.List.{AllByRecursion};
ghost use Rattle.wire_form.specs.Bytes.{bytes_of};
ghost use Rattle.wire_form.specs.Pages.{HasKind, IsPage, IsPageOf};

use crate::bytes::{read_words, write_words};
use crate::catalogue::is_catalogue;
use crate::inner::{is_array_inner, is_tree_inner};
use crate::leaf::{is_array_leaf, is_tree_leaf};

/// What a page has in it, as the place from which it is named says.
#[derive(Clone, Copy, Debug, PartialEq, Eq)]
pub enum PageKind {
    /// `used` records of an array, 1 to 32.
    ArrayLeaf { used: u32 },
    /// `used` children of an array's page, 1 to 64.
    ArrayInner { used: u32 },
    /// Records of a tree, with keys from `low` to `high`.
    TreeLeaf { low: u64, high: u64 },
    /// Children of a tree's page, for keys from `low` to `high`.
    TreeInner { low: u64, high: u64 },
    /// The storages of a snapshot.
    Catalogue,
}

/// A page of a snapshot, or one that is to be written.
#[derive(Clone, Copy, Debug, PartialEq, Eq)]
pub struct Page {
    /// Pages are numbered from 1.
    pub number: u32,
    pub kind: PageKind,
    pub words: [u64; 64],
}

/// The bytes are no page of the kind and number.
#[derive(Clone, Copy, Debug, PartialEq, Eq)]
pub struct NoPage;

/// Whether the words are those of a page of the kind and number.
pub fn is_page(kind: PageKind, number: u32, words: &[u64; 64]) -> bool
    ensures { IsTrue result ↔ IsPage kind number words.now }
{
    if number < 1 || number > 65_536 {
        return false;
    }
    has_kind(kind, number, words)
}

/// Whether the words are what a page of the kind and number may have in it.
fn has_kind(kind: PageKind, number: u32, words: &[u64; 64]) -> bool
    ensures { IsTrue result ↔ HasKind kind number words.now }
{
    match kind {
        PageKind::ArrayLeaf { used } => is_array_leaf(used, words),
        PageKind::ArrayInner { used } => is_array_inner(used, number, words),
        PageKind::TreeLeaf { low, high } => is_tree_leaf(low, high, words),
        PageKind::TreeInner { low, high } => is_tree_inner(low, high, number, words),
        PageKind::Catalogue => is_catalogue(number, words),
    }
}

/// The words of a page as they stand, whatever kind of page they are, or none.
pub fn words_of_page(bytes: &[u8; 512]) -> [u64; 64]
    ensures spelled { bytes.now ≡ bytes_of result }
    ensures fit { AllByRecursion (λ w. w < 2 ^ 64) result }
{
    let mut words = [0; 64];
    read_words(bytes, &mut words);
    words
}

/// The page that the bytes spell, where it is one of the kind and number.
pub fn read_page(kind: PageKind, number: u32, bytes: &[u8; 512]) -> Result<Page, NoPage>
    ensures ok { IfOk result (IsPageOf kind number bytes.now) }
    ensures err { OnErr result ((words : List ℕ) → IsPage kind number words
        → bytes.now ≡ bytes_of words → ⊥) }
{
    let words = words_of_page(bytes);
    if !is_page(kind, number, &words) {
        return Err(NoPage);
    }
    Ok(Page {
        number,
        kind,
        words,
    })
}

/// Writes a page's words, whatever they are.
pub fn write_page(page: &Page, to: &mut [u8; 512])
    ensures { to.new ≡ bytes_of page.now.words }
{
    write_words(&page.words, to);
}
