// Operations, one after another up to the end of a line.
ghost use Rattle.std.specs.Prelude.{◌≡◌, [], ◌∷◌, None, Some, MatchOption};
ghost use Rattle.script_grammar.specs.Words.{words, parts};
ghost use Rattle.script_grammar.specs.Reading.{few_ops_in, key_in, letter_in, long_op_by, op_in, short_op_by};

use crate::cut::cut;
use crate::flat_ops::LineOps;
use crate::words::cut_op;
use decimals::number_of;
use serial_model::{Key, Op};

pub(crate) const MOST_OPS: usize = 16;

/// Ids are below.
pub(crate) const IDS: u64 = 256;

/// The key of a storage's id and a number.
fn key_in(storage: &[u8], key: &[u8]) -> Option<Key>
    ensures { result ≡ key_in storage.now key.now }
{
    let storage = number_of(storage)?;
    let key = number_of(key)?;
    if storage < IDS {
        Some(Key {
            storage: storage as u8,
            key,
        })
    } else {
        None
    }
}

/// A word of one letter.
fn letter_in(word: &[u8]) -> Option<u8>
    ensures { result ≡ letter_in word.now }
{
    match word {
        [letter] => Some(*letter),
        _ => None,
    }
}

/// An operation of a key alone, by its letter.
fn short_op_by(letter: u8, key: Key) -> Option<Op>
    ensures { result ≡ short_op_by letter key }
{
    match letter {
        b'r' => Some(Op::Read(key)),
        b'd' => Some(Op::Remove(key)),
        _ => None,
    }
}

/// An operation of a key and a value, or a scan up to that value, by its letter.
fn long_op_by(letter: u8, key: Key, value: u64) -> Option<Op>
    ensures { result ≡ long_op_by letter key value }
{
    match letter {
        b'w' => Some(Op::Write(key, value)),
        b'a' => Some(Op::Add(key, value)),
        b't' => Some(Op::Take(key, value)),
        b's' => Some(Op::Scan {
            storage: key.storage,
            low: key.key,
            high: value,
        }),
        _ => None,
    }
}

/// An operation of three words.
fn short_op_in(word: &[u8], storage: &[u8], key: &[u8]) -> Option<Op>
    ensures { result ≡ op_in (word.now ∷ storage.now ∷ key.now ∷ []) }
{
    let letter = letter_in(word)?;
    let key = key_in(storage, key)?;
    short_op_by(letter, key)
}

/// An operation of four words.
fn long_op_in(word: &[u8], storage: &[u8], key: &[u8], value: &[u8]) -> Option<Op>
    ensures { result ≡ op_in (word.now ∷ storage.now ∷ key.now ∷ value.now ∷ []) }
{
    let letter = letter_in(word)?;
    let key = key_in(storage, key)?;
    let value = number_of(value)?;
    long_op_by(letter, key, value)
}

/// The operation of a part.
fn op_in(part: &[u8]) -> Option<Op>
    ensures { result ≡ op_in (words part.now) }
{
    let (word, rest) = cut(b' ', part)?;
    let (storage, rest) = cut(b' ', rest)?;
    let Some((key, value)) = cut(b' ', rest) else {
        return short_op_in(word, storage, rest);
    };
    match cut(b' ', value) {
        Some(_) => None,
        None => long_op_in(word, storage, key, value),
    }
}

/// All operations of a line, 1 to 16. They take the place of those in the room.
pub(crate) fn read_ops(bytes: &[u8], ops: &mut LineOps) -> Option<()>
    ensures { MatchOption result (few_ops_in (parts bytes.now) ≡ None)
        (λ _. few_ops_in (parts bytes.now) ≡ Some ops.new) }
{
    ops.clear();
    let mut rest = bytes;
    while let Some((part, after)) = cut_op(rest) {
        if ops.len() == MOST_OPS {
            return None;
        }
        ops.push(op_in(part)?);
        rest = after;
    }
    if ops.len() == MOST_OPS {
        return None;
    }
    ops.push(op_in(rest)?);
    Some(())
}
