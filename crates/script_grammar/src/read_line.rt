// One line: a declaration, or a line of a worker or of the maintenance thread.
ghost use Rattle.std.specs.Prelude.{◌≡◌, [], ◌∷◌, None, Some, MatchOption};
ghost use Rattle.script_grammar.specs.Script.{Worker};
ghost use Rattle.script_grammar.specs.Words.{is_join};
ghost use Rattle.script_grammar.specs.Reading.{array_in, decl_at, decl_in, keeper_in, transaction_at, tree_in, worker_in};

use crate::cut::cut;
use crate::flat_ops::LineOps;
use crate::lines::KeeperLine;
use crate::read_op::{IDS, read_ops};
use crate::words::cut_worker;
use decimals::number_of;
use serial_model::{Decl, WORKERS};

pub(crate) const LARGEST_ARRAY: u64 = 131_072;

/// A worker, 0 to 7.
fn worker_in(word: &[u8]) -> Option<u8>
    ensures { result ≡ worker_in word.now }
{
    let worker = number_of(word)?;
    if worker < WORKERS as u64 {
        Some(worker as u8)
    } else {
        None
    }
}

/// A worker's line: the worker, and in the room the operations.
#[tactic(auto, unfolding(crate::specs::Reading::transaction_at))]
pub(crate) fn read_worker(line: &[u8], ops: &mut LineOps) -> Option<u8>
    ensures { MatchOption result (transaction_at line.now ≡ None)
        (λ worker. transaction_at line.now ≡ Some (Worker worker ops.new)) }
{
    let (word, rest) = cut_worker(line);
    let worker = worker_in(word)?;
    read_ops(rest, ops)?;
    Some(worker)
}

/// What the maintenance thread is asked for.
pub(crate) fn keeper_in(line: &[u8]) -> Option<KeeperLine>
    ensures { result ≡ keeper_in line.now }
{
    if line == b"k epoch".as_slice() {
        return Some(KeeperLine::Epoch);
    }
    if line == b"k save".as_slice() {
        return Some(KeeperLine::Save);
    }
    if line == b"k glean".as_slice() {
        return Some(KeeperLine::Glean);
    }
    if line == b"k drop".as_slice() {
        return Some(KeeperLine::Drop);
    }
    None
}

/// The end of a round.
pub(crate) fn is_join(line: &[u8]) -> bool
    ensures { result ≡ is_join line.now }
{
    line == b"join".as_slice()
}

/// An array with its id and its size.
fn array_in(id: u64, size: u64) -> Option<Decl>
    ensures { result ≡ array_in id size }
{
    if id < IDS && 0 < size && size <= LARGEST_ARRAY {
        Some(Decl::Array {
            id: id as u8,
            size: size as u32,
        })
    } else {
        None
    }
}

/// A tree with its id.
fn tree_in(id: u64) -> Option<Decl>
    ensures { result ≡ tree_in id }
{
    if id < IDS {
        Some(Decl::Tree { id: id as u8 })
    } else {
        None
    }
}

/// A declaration of three words.
fn array_decl(word: &[u8], id: &[u8], size: &[u8]) -> Option<Decl>
    ensures { result ≡ decl_in (word.now ∷ id.now ∷ size.now ∷ []) }
{
    if word != b"array".as_slice() {
        return None;
    }
    let id = number_of(id)?;
    let size = number_of(size)?;
    array_in(id, size)
}

/// A declaration of two words.
fn tree_decl(word: &[u8], id: &[u8]) -> Option<Decl>
    ensures { result ≡ decl_in (word.now ∷ id.now ∷ []) }
{
    if word != b"tree".as_slice() {
        return None;
    }
    tree_in(number_of(id)?)
}

/// A declaration.
#[tactic(auto, unfolding(crate::specs::Reading::decl_at))]
pub(crate) fn decl_at(line: &[u8]) -> Option<Decl>
    ensures { result ≡ decl_at line.now }
{
    let (word, rest) = cut(b' ', line)?;
    let Some((id, size)) = cut(b' ', rest) else {
        return tree_decl(word, rest);
    };
    match cut(b' ', size) {
        Some(_) => None,
        None => array_decl(word, id, size),
    }
}
