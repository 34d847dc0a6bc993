// Building the pages for the rows of a range that one leaf stood for.
ghost use Rattle.std.specs.Prelude.{◌≡◌, ℕ, ◌+◌, ◌-◌, ◌*◌, ◌^◌, ◌<◌, ◌≤◌, ◌++◌, List, [], ◌∷◌, Err, IfOk, OnOk, drop, length, slice_index, take};
ghost use Rattle.std.specs.List.{flat_map};
ghost use Rattle.root_composer.specs.Build.{row_words, leaf_words, inner_words, run_lengths, cut_of};
ghost use Rattle.root_composer.specs.Rows.{Ascends};
ghost use Rattle.root_composer.specs.TreeCode.{end_before, begin_at, first_keys, Builds, BuildsTooDeep};

use crate::ComposeFault;
use crate::row::Row;
use crate::words::put_words;
use lists::{Memory, OrMemory};
use std::alloc::Global;

/// How many records a leaf has at most.
const LEAF_MOST: usize = 16;

/// How many children an interior page has at most.
const FAN_MOST: usize = 30;

/// The length of a run, of so many into which rows are cut: the first ones have one row more.
fn run_length(count: usize, runs: usize, i: usize) -> usize
    requires few { count < 2 ^ 63 }
    requires within { i < runs }
    ensures { result ≡ slice_index (run_lengths count runs) i }
{
    if i < count % runs {
        return count / runs + 1;
    }
    count / runs
}

/// The lengths of the runs into which rows are cut that are more than a leaf has.
fn cut(alloc: Global, count: usize) -> Result<Vec<usize>, Memory>
    requires few { count < 2 ^ 63 }
    requires more { 16 < count }
    ensures { IfOk result (λ lengths. lengths.items ≡ cut_of count) }
{
    let runs = FAN_MOST.min(count.div_ceil(LEAF_MOST));
    let mut lengths = Vec::new(alloc);
    for i in 0..runs {
        lengths.push(run_length(count, runs, i))?;
    }
    Ok(lengths)
}

/// Writes the words of rows over the first words.
fn write_rows(rows: &[Row], to: &mut [u64])
    requires { 3 * length rows.now ≤ length to.old }
    ensures { to.new ≡ flat_map row_words rows.now ++ drop (3 * length rows.now) to.old }
{
    for i in 0..rows.len() {
        to[3 * i..3 * i + 3].copy_from_slice(&rows[i].words());
    }
}

/// The words of a leaf with at most 16 rows.
fn leaf_words(low: u64, high: u64, rows: &[Row]) -> [u64; 64]
    requires { length rows.now ≤ 16 }
    ensures { result ≡ leaf_words low high rows.now }
{
    let mut words = [0; 64];
    words[0] = 256 + rows.len() as u64;
    words[1] = low;
    words[2] = high;
    write_rows(rows, &mut words[16..]);
    words
}

/// The words of an interior page with these separators over pages with these numbers.
fn inner_words(low: u64, high: u64, separators: &[u64], numbers: &[u64]) -> [u64; 64]
    requires children { length numbers.now ≤ 30 }
    requires between { length separators.now ≤ 30 }
    ensures { result ≡ inner_words low high separators.now numbers.now }
{
    let mut words = [0; 64];
    words[0] = 512 + numbers.len() as u64;
    words[1] = low;
    words[2] = high;
    put_words(&mut words, 4, numbers);
    put_words(&mut words, 34, separators);
    words
}

/// The key before that of the first row, or the last of all where there is none.
fn end_before(behind: &[Row], high: u64) -> u64
    ensures { result ≡ end_before behind.now high }
{
    match behind.first() {
        Some(row) => row.key.saturating_sub(1),
        None => high,
    }
}

/// The key of the first row, or another where there is none.
fn begin_at(behind: &[Row], low: u64) -> u64
    ensures { result ≡ begin_at behind.now low }
{
    match behind.first() {
        Some(row) => row.key,
        None => low,
    }
}

/// Adds the key of the first row, if there is one.
fn push_first(behind: &[Row], separators: &mut Vec<u64>) -> Result<(), Memory>
    ensures { OnOk result (separators.new.items ≡ separators.old.items ++ first_keys behind.now) }
{
    if let Some(row) = behind.first() {
        separators.push(row.key)?;
    }
    Ok(())
}

/// Builds the pages for rows in a range, behind those that there are and those made before, and gives the
/// number of the page for the whole range. No more than `depth` of them stand one below another.
pub fn build(
    alloc: Global,
    have: u32,
    made: &mut Vec<[u64; 64]>,
    low: u64,
    high: u64,
    rows: &[Row],
    depth: u32,
) -> Result<u64, OrMemory<ComposeFault>>
    requires ascends { Ascends low high rows.now }
    requires range { low ≤ high }
    ensures built { IfOk result (λ n. Builds depth made.old.items made.new.items n low high rows.now
        (have + length made.old.items)) }
    ensures deep { (fault : ComposeFault) → result ≡ Err (OrMemory.Fault fault)
        → BuildsTooDeep depth fault low high rows.now (have + length made.old.items) }
{
    if depth == 0 {
        return Err(OrMemory::Fault(ComposeFault::Deep));
    }
    if rows.len() <= LEAF_MOST {
        made.push(leaf_words(low, high, rows))?;
        return Ok(u64::from(have) + made.len() as u64);
    }
    let lengths = cut(alloc, rows.len())?;
    let mut numbers = Vec::new(alloc);
    let mut separators = Vec::new(alloc);
    let mut rest = rows;
    let mut at = low;
    for length in &lengths {
        let (run, behind) = rest.split_at(*length);
        let end = end_before(behind, high);
        let number = build(alloc, have, made, at, end, run, depth - 1)?;
        numbers.push(number)?;
        push_first(behind, &mut separators)?;
        at = begin_at(behind, at);
        rest = behind;
    }
    made.push(inner_words(low, high, &separators, &numbers))?;
    Ok(u64::from(have) + made.len() as u64)
}
