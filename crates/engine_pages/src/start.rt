// What an engine begins with.
ghost use Rattle.std.specs.Prelude.{◌≡◌};
ghost use Rattle.snapshot_store.specs.Content.{words_of};
ghost use Rattle.engine_pages.specs.Beginning.{layout_of, IsRead};

use lists::Sequence;
use serial_model::{Decl, Decls, Number};
use std::marker::Model;
use wire_form::Page;

/// What an engine begins with: the pages of a snapshot, which are read as its table is made. Contracts see it as the
/// table's layout, with what the pages have at keys as the opening.
#[derive(Drop)]
pub struct Start {
    first: Number,
    decls: Decls,
    roots: Sequence<u32>,
    slots: u32,
    resident: u32,
    pages: Sequence<Page>,
}

impl Model for Start {
    ghost use Rattle.engine_pages.specs.declared.layout.Layout.{Layout};
    ghost use Rattle.snapshot_store.specs.Content.{words_of};
    ghost use Rattle.engine_pages.specs.Beginning.{layout_of};

    ghost Value = { Layout };

    ghost view = { λ s. layout_of s.first s.decls s.roots s.slots s.resident (words_of s.pages) };
}

impl Start {
    /// The first commit number; the storages in ascending order of id, each with the number of its root's page, or 0;
    /// how many slots there are, how many snapshot pages have words, and the pages that are published at first, by
    /// their numbers from 1 on.
    pub fn new(
        first: Number,
        decls: Decls,
        roots: Sequence<u32>,
        slots: u32,
        resident: u32,
        pages: Sequence<Page>,
    ) -> Start
        ensures { result ≡ layout_of first decls roots slots resident (words_of pages) }
    {
        Start {
            first,
            decls,
            roots,
            slots,
            resident,
            pages,
        }
    }

    /// The first commit number.
    pub fn first(&self) -> Number
        ensures value { result ≡ self.now.first }
        ensures read { IsRead self.now }
    {
        self.first
    }

    pub fn decls(&self) -> &[Decl]
        ensures { result.now ≡ self.now.decls }
    {
        self.decls.as_slice()
    }

    /// The number of the page of each storage's root, or 0.
    pub fn roots(&self) -> &[u32]
        ensures { result.now ≡ self.now.roots }
    {
        self.roots.as_slice()
    }

    pub fn slots(&self) -> u32
        ensures { result ≡ self.now.slots }
    {
        self.slots
    }

    /// How many snapshot pages have words.
    pub fn resident(&self) -> u32
        ensures { result ≡ self.now.resident }
    {
        self.resident
    }

    /// The snapshot pages that are published at first.
    pub fn pages(&self) -> &[Page]
        ensures { words_of result.now ≡ self.now.pages }
    {
        self.pages.as_slice()
    }

    pub fn into_decls(self) -> Decls
        ensures { result ≡ self.decls }
    {
        self.decls
    }
}
