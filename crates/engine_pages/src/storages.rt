// The storages of an engine, of which each is found by its id at one look.
ghost use Rattle.std.specs.Prelude.{◌≡◌, []};
ghost use Rattle.engine_pages.specs.Indexes.{index_of, AreIndexes, AreIndexesFrom};

use serial_model::{Decl, Decls, id_of};
use std::marker::Model;

/// How many ids of storages there are.
const IDS: usize = 256;

/// Declared storages, which contracts see as the list of the declarations. Each operation of a transaction asks for one
/// by its id, so where it stands is noted once, and not looked for among up to 16.
#[derive(Drop)]
pub struct Storages {
    decls: Decls,
    /// Of each id the index of the first storage with it, or how many storages there are, where none has it.
    indexes: [usize; IDS],
}

impl Model for Storages {
    ghost use Rattle.std.specs.Prelude.{List};
    ghost use Rattle.serial_model.specs.declared.decl.Decl.{Decl};
    ghost use Rattle.engine_pages.specs.Indexes.{AreIndexes};

    ghost Value = { List Decl };

    ghost view = { λ s. s.decls };

    ghost invariant = { λ s. AreIndexes s.decls s.indexes };
}

impl Storages {
    pub(crate) fn new(decls: Decls) -> Self
        ensures { result ≡ decls }
    {
        let indexes = indexes_of(decls.as_slice());
        Storages { decls, indexes }
    }

    pub(crate) fn as_slice(&self) -> &[Decl]
        ensures { result.now ≡ self.now }
    {
        self.decls.as_slice()
    }

    /// The index of the first storage with this id, or how many storages there are, where none has it.
    #[inline(always)]
    pub(crate) fn index_of(&self, id: u8) -> usize
        ensures { result ≡ index_of self.now id }
    {
        self.indexes[usize::from(id)]
    }
}

// Of each id the index of the first storage with it. From the last storage to the first, so that the first counts.
fn indexes_of(decls: &[Decl]) -> [usize; IDS]
    ensures { AreIndexes decls.now result }
{
    let mut left = decls.len();
    let mut indexes = no_indexes(left);
    while left > 0 {
        left -= 1;
        let id = id_of(&decls[left]);
        indexes[usize::from(id)] = left;
    }
    indexes
}

// Of each id how many storages there are.
fn no_indexes(count: usize) -> [usize; IDS]
    ensures { AreIndexesFrom count [] result }
{
    [count; IDS]
}
