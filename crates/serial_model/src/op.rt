// The operations of a transaction.
ghost use Rattle.std.specs.Prelude.{◌≡◌};
ghost use Rattle.serial_model.specs.Keys.{fits, has_key, is_tree};

use crate::{Decl, Key};

/// One operation. Operations of a transaction run in order, over the state with its own writes.
#[derive(Clone, Copy, Debug, PartialEq, Eq)]
pub enum Op {
    /// Replies the value; an array key that was never written has 0, and a tree key may be absent.
    Read(Key),
    /// Sets a value.
    Write(Key, u64),
    /// Takes a key out of a tree.
    Remove(Key),
    /// Adds to the value, where an absent one counts 0; above 2^64 - 1 the transaction ends as `Over`.
    Add(Key, u64),
    /// Takes from the value, where an absent one counts 0; below 0 the transaction ends as `Short`.
    Take(Key, u64),
    /// Replies the first 16 present pairs of a tree with keys from `low` to `high`, ascending.
    Scan { storage: u8, low: u64, high: u64 },
}

/// Whether the declarations have the operation's storage, of a kind that has this operation, and with
/// the key within its size where it is an array.
pub fn fits(decls: &[Decl], op: &Op) -> bool
    ensures { result ≡ fits decls.now op.now }
{
    match *op {
        Op::Read(key) | Op::Write(key, _) | Op::Add(key, _) | Op::Take(key, _) => {
            has_key(decls, key)
        }
        Op::Remove(key) => is_tree(decls, key.storage),
        Op::Scan { storage, .. } => is_tree(decls, storage),
    }
}

fn has_key(decls: &[Decl], key: Key) -> bool
    ensures { result ≡ has_key decls.now key }
{
    decls.iter().any(|decl| match *decl {
        Decl::Array { id, size } => id == key.storage && key.key < u64::from(size),
        Decl::Tree { id } => id == key.storage,
    })
}

/// Whether a tree with this id is declared.
pub fn is_tree(decls: &[Decl], storage: u8) -> bool
    ensures { result ≡ is_tree decls.now storage }
{
    decls.iter().any(|decl| match *decl {
        Decl::Array { .. } => false,
        Decl::Tree { id } => id == storage,
    })
}
