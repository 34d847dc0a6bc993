// What a table is made for.
use homes::Content;
use lists::Sequence;
use serial_model::{Decl, Key, Number};

/// What the table of an engine is made for. No value of it is made: it stands in contracts alone, where it is what a
/// `Start` comes to.
///
/// The words are those of the clock, the decisions, the marks, the roots and the published count; from word 32 on one
/// for each slot, then 64 for the page of each slot, then 64 for each resident snapshot page.
#[derive(Drop)]
pub struct Layout {
    /// The first commit number.
    pub first: Number,
    /// In ascending order of id.
    pub decls: Sequence<Decl>,
    /// The number of the page of each storage's root, or 0.
    pub roots: Sequence<u32>,
    /// What stands at keys at first, of equal keys the first counts. A key that is not there was never written.
    pub opening: Sequence<(Key, Content)>,
    /// How many slots there are.
    pub slots: u32,
    /// How many snapshot pages have words.
    pub resident: u32,
    /// The words of the snapshot pages that are published at first, by their numbers from 1 on.
    pub pages: Sequence<Sequence<u64>>,
}
