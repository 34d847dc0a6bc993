// The table of an engine.
ghost use Rattle.std.specs.Prelude.{◌≡◌, ◌<◌, ◌≤◌};
ghost use Rattle.engine_pages.specs.Indexes.{index_of};
ghost use Rattle.engine_pages.specs.Layout.{words_of};

use crate::storages::Storages;
use crate::{Law, Start, View};
use atomic_table::{Seat, Table};
use serial_model::{Decl, Decls};
use std::alloc::Global;

/// The words that threads share.
#[derive(Drop)]
pub struct Engine {
    /// The words, by the rule.
    pub table: Table<(), View, Start, Law, Global>,
    /// How many slots there are, at least one.
    pub(crate) slots: u32,
    decls: Storages,
    ghost long: { table.shared.table_id.words ≡ words_of table.shared.key },
    ghost room: { slots ≡ table.shared.key.slots },
    ghost some: { 0 < slots },
    ghost few: { slots ≤ 4096 },
    ghost declared: { decls ≡ table.shared.key.decls },
}

impl Engine {
    /// An engine of this table, which was made for so many slots and these storages.
    pub fn of_table(table: Table<(), View, Start, Law, Global>, slots: u32, decls: Decls) -> Engine
        requires long { table.shared.table_id.words ≡ words_of table.shared.key }
        requires slots { slots ≡ table.shared.key.slots }
        requires some { 0 < slots }
        requires few { slots ≤ 4096 }
        requires decls { decls ≡ table.shared.key.decls }
        ensures { result.table ≡ table }
    {
        let storages = Storages::new(decls);
        Engine {
            table,
            slots,
            decls: storages,
        }
    }

    /// How many slots there are.
    pub fn slots(&self) -> u32
        ensures value { result ≡ self.now.table.shared.key.slots }
        ensures some { 0 < result }
        ensures few { result ≤ 4096 }
    {
        self.slots
    }

    /// The storages, in ascending order of id.
    pub fn decls(&self) -> &[Decl]
        ensures { result.now ≡ self.now.table.shared.key.decls }
    {
        self.decls.as_slice()
    }

    /// The index of the first storage with this id, or how many storages there are, where none has it.
    #[inline(always)]
    pub fn index_of(&self, id: u8) -> usize
        ensures { result ≡ index_of self.now.table.shared.key.decls id }
    {
        self.decls.index_of(id)
    }
}

/// What a thread steps with. It has no bytes.
pub type Pass = Seat<(), View>;
