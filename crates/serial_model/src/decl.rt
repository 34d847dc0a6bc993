// The storages of a database.
ghost use Rattle.std.specs.Prelude.{◌≡◌};
ghost use Rattle.serial_model.specs.Keys.{id_of};

use lists::Sequence;

/// A declared storage.
#[derive(Clone, Copy, Debug, PartialEq, Eq)]
pub enum Decl {
    /// Values at the indexes below `size`; one that was never written reads 0.
    Array { id: u8, size: u32 },
    /// Values at any keys; each is present or absent.
    Tree { id: u8 },
}

/// Declared storages, in the order in which they were declared.
pub type Decls = Sequence<Decl>;

/// The id of a storage.
pub fn id_of(decl: &Decl) -> u8
    ensures { result ≡ id_of decl.now }
{
    match *decl {
        Decl::Array { id, .. } | Decl::Tree { id } => id,
    }
}
