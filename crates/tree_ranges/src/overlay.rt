// What the transaction writes between two keys, and the rows that are told.
ghost use Rattle.std.specs.Prelude.{◌≡◌, ◌⊎◌, ◌<◌, ◌≤◌, None, length};
ghost use Rattle.tx_sets.specs.Entries.{value_of};
ghost use Rattle.tree_ranges.specs.Rows.{with_row, AddsAll, AddsSome, AreFree, IsApart};

use serial_model::{Key, Rows};
use tx_sets::Write;

/// The last key, at most this one, up to which the transaction writes none from a key on that it doesn't write.
pub(crate) fn free_to(writes: &[Write], key: Key, high: u64) -> u64
    requires from { key.key ≤ high }
    requires free { value_of key writes.now ≡ None }
    ensures from { key.key ≤ result }
    ensures within { result ≤ high }
    ensures free { AreFree key.storage key.key result writes.now }
{
    let mut last = high;
    for write in writes {
        last = bounded(last, key, *write);
    }
    last
}

// That last key, or the one before the write's, where the write is of one in between.
fn bounded(last: u64, key: Key, write: Write) -> u64
    requires { key.key ≤ last }
    ensures from { key.key ≤ result }
    ensures within { result ≤ last }
    ensures apart { IsApart key.storage key.key result write }
{
    if write.key.storage != key.storage {
        return last;
    }
    if write.key.key <= key.key {
        return last;
    }
    if write.key.key > last {
        return last;
    }
    write.key.key - 1
}

/// The row of a key that has a value is told.
pub(crate) fn push_value(rows: &mut Rows, key: u64, value: Option<u64>)
    requires { length rows.old < 16 }
    ensures { rows.new ≡ with_row key value rows.old }
{
    if let Some(value) = value {
        rows.push(key, value);
    }
}

/// Rows that were found up to this key are told, until there are 16. Answers up to which key.
pub(crate) fn add_rows(rows: &mut Rows, found: &Rows, to: u64) -> u64
    requires { length rows.old < 16 }
    ensures { AddsAll rows.old found.now to rows.new result ⊎ AddsSome rows.old found.now rows.new result }
{
    for row in found.as_slice() {
        rows.push(row.0, row.1);
        if rows.is_full() {
            return row.0;
        }
    }
    to
}
