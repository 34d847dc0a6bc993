// The words of a line, the numbers among them, and the operations of a worker's line.
ghost use Rattle.std.specs.Prelude.{◌≡◌, ◌+◌, ◌<◌, take, drop, [], ◌∷◌, length, slice_get, option_map, MatchOption, IfSome};
ghost use Rattle.std.specs.List.{before_first, after_first};
ghost use Rattle.script_grammar.specs.Words.{words, number_in, is_no_number, begins_space, begins_separator, parts, is_space};

use crate::cut::{cut, position_of};
use decimals::number_of;

/// The word of this index, from 0.
pub(crate) fn word(line: &[u8], index: usize) -> Option<&[u8]>
    ensures { option_map (λ x. x.now) result ≡ slice_get (words line.now) index }
{
    let mut rest = line;
    for _ in 0..index {
        let (_, after) = cut(b' ', rest)?;
        rest = after;
    }
    match cut(b' ', rest) {
        Some((first, _)) => Some(first),
        None => Some(rest),
    }
}

/// How many words there are.
pub(crate) fn word_count(line: &[u8]) -> usize
    ensures { result ≡ length (words line.now) }
{
    let mut rest = line;
    let mut count = 1;
    while let Some((_, after)) = cut(b' ', rest) {
        count += 1;
        rest = after;
    }
    count
}

/// The number that the word of this index is.
pub(crate) fn number_in(line: &[u8], index: usize) -> Option<u64>
    ensures { result ≡ number_in (words line.now) index }
{
    number_of(word(line, index)?)
}

/// The word of this index is there, and no number.
pub(crate) fn is_no_number(line: &[u8], index: usize) -> bool
    ensures { result ≡ is_no_number (words line.now) index }
{
    match word(line, index) {
        Some(word) => number_of(word).is_none(),
        None => false,
    }
}

/// The bytes before the first space, and those behind it.
pub(crate) fn cut_worker(line: &[u8]) -> (&[u8], &[u8])
    ensures worker { result.0.now ≡ before_first is_space line.now }
    ensures ops { result.1.now ≡ after_first is_space line.now }
{
    match position_of(b' ', line) {
        Some(end) => (&line[..end], &line[end + 1..]),
        None => (line, &line[line.len()..]),
    }
}

/// A space stands at the front.
fn begins_space(bytes: &[u8]) -> bool
    ensures { result ≡ begins_space bytes.now }
{
    match bytes {
        [byte, ..] => *byte == b' ',
        [] => false,
    }
}

/// A semicolon and a space stand at the front.
fn begins_separator(bytes: &[u8]) -> bool
    ensures { result ≡ begins_separator bytes.now }
{
    match bytes {
        [byte, rest @ ..] => *byte == b';' && begins_space(rest),
        [] => false,
    }
}

/// Where the first semicolon stands that a space follows.
fn op_end(ops: &[u8]) -> Option<usize>
    ensures { MatchOption result (parts ops.now ≡ ops.now ∷ [])
        (λ end. (end + 1 < length ops.now) × (parts ops.now ≡ take end ops.now ∷ parts (drop (end + 2) ops.now))) }
{
    for index in 0..ops.len() {
        if begins_separator(&ops[index..]) {
            return Some(index);
        }
    }
    None
}

/// The first operation, and those behind it.
pub(crate) fn cut_op(ops: &[u8]) -> Option<(&[u8], &[u8])>
    ensures parts { MatchOption result (parts ops.now ≡ ops.now ∷ [])
        (λ x. parts ops.now ≡ x.0.now ∷ parts x.1.now) }
    ensures shorter { IfSome result (λ x. length x.1.now < length ops.now) }
{
    let end = op_end(ops)?;
    Some((&ops[..end], &ops[end + 2..]))
}
