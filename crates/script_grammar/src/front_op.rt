// Operations at a place among bytes, read in one pass. What isn't plainly one is left to the reader of any line.
ghost use Rattle.std.specs.Prelude.{◌≡◌, ◌+◌, ◌<◌, ◌≤◌, IfSome, length, map, vec_capacity, vec_len};
ghost use Rattle.script_grammar.specs.FlatOps.{op_of};
ghost use Rattle.script_grammar.specs.Front.{key_op_text, value_op_text, IsFitting, IsFittingAt, MayAddOps};

use crate::flat_ops::{FlatOp, OpKind};
use crate::front_number::{id_from, number_from};
use crate::storages::Storages;
use serial_model::Key;

/// The operation of a key alone that has this letter, if it fits a declared storage.
fn key_op(letter: u8, key: Key, storages: &Storages) -> Option<FlatOp>
    ensures { IfSome result (λ op. IsFitting storages.now (key_op_text letter key) (op_of op)) }
{
    if letter == b'r' {
        if !storages.has_key(key) {
            return None;
        }
        return Some(FlatOp::of(OpKind::Read, key, 0));
    }
    if !storages.has_tree(key.storage) || letter != b'd' {
        return None;
    }
    Some(FlatOp::of(OpKind::Remove, key, 0))
}

/// The scan of a storage from a key on, if this is its letter and it fits a declared storage.
fn scan_op(letter: u8, key: Key, high: u64, storages: &Storages) -> Option<FlatOp>
    ensures { IfSome result (λ op. IsFitting storages.now (value_op_text letter key high) (op_of op)) }
{
    if !storages.has_tree(key.storage) || letter != b's' {
        return None;
    }
    Some(FlatOp::of(OpKind::Scan, key, high))
}

/// The operation of a key and a value, or of a range, that has this letter, if it fits a declared storage.
fn value_op(letter: u8, key: Key, value: u64, storages: &Storages) -> Option<FlatOp>
    ensures { IfSome result (λ op. IsFitting storages.now (value_op_text letter key value) (op_of op)) }
{
    let kind = match letter {
        b'a' => OpKind::Add,
        b't' => OpKind::Take,
        b'w' => OpKind::Write,
        _ => return scan_op(letter, key, value, storages),
    };
    if !storages.has_key(key) {
        return None;
    }
    Some(FlatOp::of(kind, key, value))
}

/// The operation at this place, and where it ends, if it fits a declared storage.
fn fitting_from(bytes: &[u8], start: usize, storages: &Storages) -> Option<(FlatOp, usize)>
    requires room { start + 64 ≤ length bytes.now }
    ensures { IfSome result (λ x. IsFittingAt bytes.now start storages.now (op_of x.0) x.1) }
{
    if bytes[start + 1] != b' ' {
        return None;
    }
    let (storage, next) = id_from(bytes, start + 2)?;
    let (number, end) = number_from(bytes, next)?;
    let key = Key {
        storage,
        key: number,
    };
    if bytes[end] != b' ' {
        return Some((key_op(bytes[start], key, storages)?, end));
    }
    let (value, end) = number_from(bytes, end + 1)?;
    Some((value_op(bytes[start], key, value, storages)?, end))
}

/// Adds the operations from this place up to a newline, and answers how many, and where the newline stands.
pub(crate) fn ops_from(
    bytes: &[u8],
    start: usize,
    storages: &Storages,
    list: &mut Vec<FlatOp>,
) -> Option<(u8, usize)>
    requires room { vec_len list.old + 16 ≤ vec_capacity list.old }
    requires bytes { start + 1022 ≤ length bytes.now }
    ensures { MayAddOps result bytes.now start storages.now (map op_of list.old.items) (map op_of list.new.items) }
{
    let mut at = start;
    for count in 0..16u8 {
        let (op, end) = fitting_from(bytes, at, storages)?;
        list.push_reserved(op);
        let byte = bytes[end];
        if byte == b'\n' {
            return Some((count + 1, end));
        }
        if byte != b';' || bytes[end + 1] != b' ' {
            return None;
        }
        at = end + 2;
    }
    None
}
