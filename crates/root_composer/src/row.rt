// Records of a tree's leaf, and the entries put among them.
ghost use Rattle.std.specs.Prelude.{◌≡◌, ℕ, ◌+◌, ◌/◌, ◌%◌, ◌≤◌, ◌==◌, ◌++◌, List, [], ◌∷◌, IfOk, OnOk, drop, false, length, slice_index};
ghost use Rattle.snapshot_store.specs.TreePages.{count_of};
ghost use Rattle.root_composer.specs.Build.{row_words};
ghost use Rattle.root_composer.specs.Rows.{rows_of, put_list, rows_below, rows_from, rows_behind, merged};

use crate::Last;
use lists::Memory;
use std::alloc::Global;

/// A record of a tree that is present: its key, the word of its number, and its value.
#[derive(Clone, Copy, Debug, PartialEq, Eq)]
pub struct Row {
    pub key: u64,
    pub number: u64,
    pub value: u64,
}

impl Row {
    /// The three words of the row.
    pub fn words(&self) -> [u64; 3]
        ensures { result ≡ row_words self.now }
    {
        [self.key, self.number, self.value]
    }
}

/// The records of a leaf, by its words.
pub fn rows_of(alloc: Global, words: &[u64; 64]) -> Result<Vec<Row>, Memory>
    requires leaf { (slice_index words.now 0 / 256 == 2) ≡ false }
    requires few { count_of words.now ≤ 16 }
    ensures { IfOk result (λ rows. rows.items ≡ rows_of words.now) }
{
    let mut rows = Vec::new(alloc);
    for i in 0..(words[0] % 256) as usize {
        rows.push(Row {
            key: words[16 + 3 * i],
            number: words[17 + 3 * i],
            value: words[18 + 3 * i],
        })?;
    }
    Ok(rows)
}

/// Adds the rows with keys below one, from a place on, and gives the place of the first that isn't.
fn push_below(rows: &[Row], at: usize, key: u64, all: &mut Vec<Row>) -> Result<usize, Memory>
    requires { at ≤ length rows.now }
    ensures next { IfOk result (λ next. next ≤ length rows.now) }
    ensures added { OnOk result (all.new.items ≡ all.old.items ++ rows_below key (drop at rows.now)) }
    ensures left { IfOk result (λ next. drop next rows.now ≡ rows_from key (drop at rows.now)) }
{
    for i in at..rows.len() {
        if rows[i].key >= key {
            return Ok(i);
        }
        all.push(rows[i])?;
    }
    Ok(rows.len())
}

/// Adds the row that an entry puts, if it puts one.
fn push_put(entry: &Last, all: &mut Vec<Row>) -> Result<(), Memory>
    ensures { OnOk result (all.new.items ≡ all.old.items ++
        put_list entry.now.key entry.now.number entry.now.value) }
{
    if let Some(value) = entry.value {
        all.push(Row {
            key: entry.key,
            number: entry.number,
            value,
        })?;
    }
    Ok(())
}

/// The place behind the row at a place, where that row has the key.
fn behind(rows: &[Row], at: usize, key: u64) -> usize
    requires { at ≤ length rows.now }
    ensures there { result ≤ length rows.now }
    ensures left { drop result rows.now ≡ rows_behind key (drop at rows.now) }
{
    if at < rows.len() && rows[at].key == key {
        return at + 1;
    }
    at
}

/// Adds rows.
fn push_rows(rows: &[Row], all: &mut Vec<Row>) -> Result<(), Memory>
    ensures { OnOk result (all.new.items ≡ all.old.items ++ rows.now) }
{
    for row in rows {
        all.push(*row)?;
    }
    Ok(())
}

/// The rows with the entries among them, all in ascending order.
pub fn merged(alloc: Global, rows: &[Row], run: &[Last]) -> Result<Vec<Row>, Memory>
    ensures { IfOk result (λ all. all.items ≡ merged run.now rows.now) }
{
    let mut all = Vec::new(alloc);
    let mut at = 0;
    for entry in run {
        at = push_below(rows, at, entry.key, &mut all)?;
        push_put(entry, &mut all)?;
        at = behind(rows, at, entry.key);
    }
    let (_, rest) = rows.split_at(at);
    push_rows(rest, &mut all)?;
    Ok(all)
}
