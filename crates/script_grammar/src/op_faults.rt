// What an operation of a worker's line has or lacks, where the line is no line of a script.
ghost use Rattle.std.specs.Prelude.{◌≡◌, ◌==◌, length};
ghost use Rattle.std.specs.List.{list_any};
ghost use Rattle.serial_model.specs.Keys.{id_of, has_key_of, has_key, is_tree, is_tree_of};
ghost use Rattle.script_grammar.specs.Words.{words, number_in, parts, is_letter, op_parts};
ghost use Rattle.script_grammar.specs.Faults.{has_letter, is_op_shape, lacks_op_number, is_undeclared, lacks_tree, lacks_key, op_is, some_op_is};

use crate::fault::FaultKind;
use crate::read_op::IDS;
use crate::words::{cut_op, cut_worker, is_no_number, number_in, word, word_count};
use serial_model::{Decl, id_of};

fn is_letter(letters: &[u8], word: &[u8]) -> bool
    ensures { result ≡ is_letter letters.now word.now }
{
    match word {
        [byte] => letters.contains(byte),
        _ => false,
    }
}

fn has_letter(letters: &[u8], op: &[u8]) -> bool
    ensures { result ≡ has_letter letters.now (words op.now) }
{
    match word(op, 0) {
        Some(word) => is_letter(letters, word),
        None => false,
    }
}

fn is_op_shape(op: &[u8]) -> bool
    ensures { result ≡ is_op_shape (words op.now) }
{
    let count = word_count(op);
    (count == 3 && has_letter(b"rd", op)) || (count == 4 && has_letter(b"wats", op))
}

fn lacks_op_number(op: &[u8]) -> bool
    ensures { result ≡ lacks_op_number (words op.now) }
{
    is_no_number(op, 1) || is_no_number(op, 2) || is_no_number(op, 3)
}

pub(crate) fn declares(decls: &[Decl], id: u64) -> bool
    ensures { result ≡ list_any (λ d. id_of d == id) decls.now }
{
    decls.iter().any(|decl| u64::from(id_of(decl)) == id)
}

fn is_undeclared(decls: &[Decl], storage: u64) -> bool
    ensures { result ≡ is_undeclared decls.now storage }
{
    storage >= IDS || !declares(decls, storage)
}

fn has_key_of(storage: u64, key: u64, decl: &Decl) -> bool
    ensures { result ≡ has_key_of (record { storage = storage; key = key }) decl.now }
{
    match *decl {
        Decl::Array { id, size } => u64::from(id) == storage && key < u64::from(size),
        Decl::Tree { id } => u64::from(id) == storage,
    }
}

fn has_key(decls: &[Decl], storage: u64, key: u64) -> bool
    ensures { result ≡ has_key decls.now (record { storage = storage; key = key }) }
{
    decls.iter().any(|decl| has_key_of(storage, key, decl))
}

fn is_tree_of(storage: u64, decl: &Decl) -> bool
    ensures { result ≡ is_tree_of storage decl.now }
{
    match *decl {
        Decl::Array { .. } => false,
        Decl::Tree { id } => u64::from(id) == storage,
    }
}

fn is_tree(decls: &[Decl], storage: u64) -> bool
    ensures { result ≡ is_tree decls.now storage }
{
    decls.iter().any(|decl| is_tree_of(storage, decl))
}

/// Only trees have the operation, and its storage is none.
fn lacks_tree(decls: &[Decl], op: &[u8]) -> bool
    ensures { result ≡ lacks_tree decls.now (words op.now) }
{
    if !has_letter(b"ds", op) {
        return false;
    }
    match number_in(op, 1) {
        Some(storage) => !is_tree(decls, storage),
        None => false,
    }
}

/// The declared storages have no such key.
fn lacks_key(decls: &[Decl], op: &[u8]) -> bool
    ensures { result ≡ lacks_key decls.now (words op.now) }
{
    match number_in(op, 1) {
        Some(storage) => match number_in(op, 2) {
            Some(key) => !has_key(decls, storage, key),
            None => false,
        },
        None => false,
    }
}

/// The operation is at fault in this way.
#[tactic(auto, unfolding(crate::specs::Faults::op_is))]
fn op_is(kind: FaultKind, decls: &[Decl], op: &[u8]) -> bool
    ensures { result ≡ op_is kind decls.now op.now }
{
    match kind {
        FaultKind::Word => !is_op_shape(op),
        FaultKind::Number => lacks_op_number(op),
        FaultKind::Declared => match number_in(op, 1) {
            Some(storage) => is_undeclared(decls, storage),
            None => false,
        },
        FaultKind::Kind => lacks_tree(decls, op),
        FaultKind::Range => lacks_key(decls, op),
        FaultKind::TooLong | FaultKind::TooMany => false,
    }
}

/// Some operation is at fault in this way.
fn any_op_is(kind: FaultKind, decls: &[Decl], ops: &[u8]) -> bool
    ensures { result ≡ list_any (op_is kind decls.now) (parts ops.now) }
{
    let mut rest = ops;
    while let Some((op, after)) = cut_op(rest) {
        if op_is(kind, decls, op) {
            return true;
        }
        rest = after;
    }
    op_is(kind, decls, rest)
}

#[tactic(auto, unfolding(crate::specs::Faults::some_op_is))]
pub(crate) fn some_op_is(kind: FaultKind, decls: &[Decl], line: &[u8]) -> bool
    ensures { result ≡ some_op_is kind decls.now line.now }
{
    let (_, ops) = cut_worker(line);
    any_op_is(kind, decls, ops)
}

pub(crate) fn op_count(line: &[u8]) -> usize
    ensures { result ≡ length (op_parts line.now) }
{
    let (_, mut rest) = cut_worker(line);
    let mut count = 1;
    while let Some((_, after)) = cut_op(rest) {
        count += 1;
        rest = after;
    }
    count
}
