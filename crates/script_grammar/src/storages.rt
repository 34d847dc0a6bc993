// The declared storages while a script is read, and for each id the keys that it plainly has.
ghost use Rattle.std.specs.Prelude.{◌≡◌, [], ◌∷◌, ◌++◌, IsTrue, length, true, OnOk, OnErr};
ghost use Rattle.serial_model.specs.Keys.{has_key, is_tree};
ghost use Rattle.script_grammar.specs.Front.{IsLimitOf};

use lists::Memory;
use serial_model::{Decl, Decls, Key, id_of};
use std::alloc::Global;
use std::marker::Model;

/// Declared storages, which contracts see as the list of the declarations.
#[derive(Drop)]
pub(crate) struct Storages {
    decls: Decls,
    /// By the storage's id: it has each key below; u64::MAX is the limit of trees alone.
    limits: [u64; 256],
}

impl Model for Storages {
    ghost use Rattle.std.specs.Prelude.{List};
    ghost use Rattle.serial_model.specs.declared.decl.Decl.{Decl as Meaning};
    ghost use Rattle.script_grammar.specs.Front.{AreLimits};

    ghost Value = { List Meaning };

    ghost view = { λ s. s.decls };

    ghost invariant = { λ s. AreLimits s.decls s.limits };
}

/// Below which a storage has each key. A tree has one more.
fn limit_of(decl: &Decl) -> u64
    ensures { IsLimitOf decl.now result }
{
    match *decl {
        Decl::Array { size, .. } => u64::from(size),
        Decl::Tree { .. } => u64::MAX,
    }
}

impl Storages {
    pub(crate) fn new(alloc: Global) -> Self
        ensures { result ≡ [] }
    {
        Storages {
            decls: Decls::new(alloc),
            limits: [0; 256],
        }
    }

    pub(crate) fn len(&self) -> usize
        ensures { result ≡ length self.now }
    {
        self.decls.len()
    }

    pub(crate) fn as_slice(&self) -> &[Decl]
        ensures { result.now ≡ self.now }
    {
        self.decls.as_slice()
    }

    /// After want of memory the storages are as they were.
    pub(crate) fn push(&mut self, decl: Decl) -> Result<(), Memory>
        ensures ok { OnOk result (self.new ≡ self.old ++ decl ∷ []) }
        ensures memory { OnErr result (self.new ≡ self.old) }
    {
        self.decls.push(decl)?;
        self.limits[usize::from(id_of(&decl))] = limit_of(&decl);
        Ok(())
    }

    /// The storage plainly has the key.
    pub(crate) fn has_key(&self, key: Key) -> bool
        ensures { IsTrue result → has_key self.now key ≡ true }
    {
        key.key < self.limits[usize::from(key.storage)]
    }

    /// The storage is a tree.
    pub(crate) fn has_tree(&self, storage: u8) -> bool
        ensures { IsTrue result → is_tree self.now storage ≡ true }
    {
        self.limits[usize::from(storage)] == u64::MAX
    }

    pub(crate) fn into_decls(self) -> Decls
        ensures { result ≡ self }
    {
        let Storages { decls, limits: _ } = self;
        decls
    }
}
