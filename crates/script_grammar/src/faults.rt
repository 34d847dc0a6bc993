// What a line has or lacks, test by test, where it is no line of a script.
ghost use Rattle.std.specs.Prelude.{◌≡◌, ◌==◌, ◌||◌, codes, nat_le, nat_lt, slice_get};
ghost use Rattle.std.specs.List.{list_any};
ghost use Rattle.serial_model.specs.Keys.{id_of};
ghost use Rattle.decimals.specs.Numbers.{number_of};
ghost use Rattle.script_grammar.specs.Words.{passes, words, number_in, is_word, is_worker_line, is_keeper_line};
ghost use Rattle.script_grammar.specs.Faults.{begins_with, is_decl_shape, has_no_shape, lacks_number, is_too_many, is_misdeclared, is_of_other_kind, is_out_of_range, kind_of};

use crate::fault::FaultKind;
use crate::op_faults::{declares, op_count, some_op_is};
use crate::read_line::{LARGEST_ARRAY, is_join};
use crate::read_op::{IDS, MOST_OPS};
use crate::reader::{LONGEST_LINE, MOST_LINES, MOST_STORAGES};
use crate::words::{cut_worker, is_no_number, number_in, word, word_count};
use decimals::number_of;
use serial_model::{Decl, WORKERS};
use std::marker::Model;

/// Where a line stands.
#[derive(Drop)]
pub(crate) struct LinePlace<'a> {
    /// The storages declared before it.
    pub decls: &'a [Decl],
    /// A line of another kind came before it.
    pub begun: bool,
    /// The lines before it in its round.
    pub lines: usize,
}

impl<'a> Model for LinePlace<'a> {
    ghost use Rattle.script_grammar.specs.Faults.{LinePlace as Meaning};

    ghost Value = { Meaning };

    ghost view = { λ p. record { decls = p.decls.now; begun = p.begun; lines = p.lines } };
}

fn is_worker_line(line: &[u8]) -> bool
    ensures { result ≡ is_worker_line line.now }
{
    match line {
        [byte, ..] => byte.is_ascii_digit(),
        [] => false,
    }
}

fn is_keeper_line(line: &[u8]) -> bool
    ensures { result ≡ is_keeper_line line.now }
{
    line == b"k epoch".as_slice()
        || line == b"k save".as_slice()
        || line == b"k glean".as_slice()
        || line == b"k drop".as_slice()
}

/// So many words, and this is the first of them.
fn begins_with(first: &[u8], count: usize, line: &[u8]) -> bool
    ensures { result ≡ begins_with first.now count (words line.now) }
{
    if word_count(line) != count {
        return false;
    }
    match word(line, 0) {
        Some(word) => word == first,
        None => false,
    }
}

#[tactic(auto, unfolding(crate::specs::Faults::is_decl_shape))]
fn is_decl_shape(line: &[u8]) -> bool
    ensures { result ≡ is_decl_shape line.now }
{
    begins_with(b"array", 3, line) || begins_with(b"tree", 2, line)
}

#[tactic(auto, unfolding(crate::specs::Faults::has_no_shape))]
fn has_no_shape(place: &LinePlace, line: &[u8]) -> bool
    ensures { result ≡ has_no_shape place.now line.now }
{
    if is_worker_line(line) {
        some_op_is(FaultKind::Word, place.decls, line)
    } else {
        !(line.is_empty() || is_join(line) || is_keeper_line(line) || is_decl_shape(line))
    }
}

#[tactic(auto, unfolding(crate::specs::Faults::lacks_number))]
fn lacks_number(place: &LinePlace, line: &[u8]) -> bool
    ensures { result ≡ lacks_number place.now line.now }
{
    if is_worker_line(line) {
        number_of(cut_worker(line).0).is_none() || some_op_is(FaultKind::Number, place.decls, line)
    } else {
        is_decl_shape(line) && (is_no_number(line, 1) || is_no_number(line, 2))
    }
}

#[tactic(auto, unfolding(crate::specs::Faults::is_too_many))]
fn is_too_many(place: &LinePlace, line: &[u8]) -> bool
    ensures { result ≡ is_too_many place.now line.now }
{
    if is_worker_line(line) {
        op_count(line) > MOST_OPS || place.lines >= MOST_LINES
    } else {
        (is_keeper_line(line) && place.lines >= MOST_LINES)
            || (is_decl_shape(line) && place.decls.len() >= MOST_STORAGES)
    }
}

/// The declaration's id is declared before.
fn is_declared_again(decls: &[Decl], line: &[u8]) -> bool
    ensures { result
        ≡ passes (λ id. list_any (λ d. id_of d == id) decls.now) (number_in (words line.now) 1) }
{
    match number_in(line, 1) {
        Some(id) => declares(decls, id),
        None => false,
    }
}

#[tactic(auto, unfolding(crate::specs::Faults::is_misdeclared))]
fn is_misdeclared(place: &LinePlace, line: &[u8]) -> bool
    ensures { result ≡ is_misdeclared place.now line.now }
{
    if is_worker_line(line) {
        some_op_is(FaultKind::Declared, place.decls, line)
    } else {
        is_decl_shape(line) && (place.begun || is_declared_again(place.decls, line))
    }
}

#[tactic(auto, unfolding(crate::specs::Faults::is_of_other_kind))]
fn is_of_other_kind(place: &LinePlace, line: &[u8]) -> bool
    ensures { result ≡ is_of_other_kind place.now line.now }
{
    is_worker_line(line) && some_op_is(FaultKind::Kind, place.decls, line)
}

fn is_no_worker(word: &[u8]) -> bool
    ensures { result ≡ passes (nat_le 8) (number_of word.now) }
{
    match number_of(word) {
        Some(worker) => worker >= WORKERS as u64,
        None => false,
    }
}

fn is_no_id(line: &[u8]) -> bool
    ensures { result ≡ passes (nat_le 256) (number_in (words line.now) 1) }
{
    match number_in(line, 1) {
        Some(id) => id >= IDS,
        None => false,
    }
}

fn is_no_size(line: &[u8]) -> bool
    ensures { result
        ≡ passes (λ size. (size == 0) || nat_lt 131072 size) (number_in (words line.now) 2) }
{
    match number_in(line, 2) {
        Some(size) => size == 0 || size > LARGEST_ARRAY,
        None => false,
    }
}

#[tactic(auto, unfolding(crate::specs::Faults::is_out_of_range))]
fn is_out_of_range(place: &LinePlace, line: &[u8]) -> bool
    ensures { result ≡ is_out_of_range place.now line.now }
{
    if is_worker_line(line) {
        is_no_worker(cut_worker(line).0) || some_op_is(FaultKind::Range, place.decls, line)
    } else {
        is_decl_shape(line) && (is_no_id(line) || is_no_size(line))
    }
}

/// The first kind of fault that the line has, in the order of the kinds.
#[tactic(auto, unfolding(crate::specs::Faults::kind_of, crate::specs::Faults::is_too_long))]
pub(crate) fn kind_of(place: &LinePlace, line: &[u8]) -> Option<FaultKind>
    ensures { result ≡ kind_of place.now line.now }
{
    if line.len() > LONGEST_LINE {
        return Some(FaultKind::TooLong);
    }
    if has_no_shape(place, line) {
        return Some(FaultKind::Word);
    }
    if lacks_number(place, line) {
        return Some(FaultKind::Number);
    }
    if is_too_many(place, line) {
        return Some(FaultKind::TooMany);
    }
    if is_misdeclared(place, line) {
        return Some(FaultKind::Declared);
    }
    if is_of_other_kind(place, line) {
        return Some(FaultKind::Kind);
    }
    if is_out_of_range(place, line) {
        return Some(FaultKind::Range);
    }
    None
}
