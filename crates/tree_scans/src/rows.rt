// The rows of a leaf of the snapshot.
ghost use Rattle.std.specs.Prelude.{◌≡◌, ℕ, ◌+◌, ◌<◌, ◌≤◌, ◌++◌, [], length, get_or};
ghost use Rattle.array_pages.specs.Finding.{HasGlanced};
ghost use Rattle.array_pages.specs.Snapshots.{CanLook};
ghost use Rattle.engine_pages.specs.Passes.{view, IsPassOf};
ghost use Rattle.tree_scans.specs.Rows.{no_record, row_for, rows_in};
ghost use Rattle.tree_walks.specs.Snapshots.{IsLeafPage};

use engine_pages::{Engine, Pass, load_resident};
use serial_model::Rows;

/// The rows of a leaf of the snapshot, the page with this number and so many records, from this key to that one. At
/// most 32 steps.
pub fn read_rows(
    engine: &Engine,
    pass: &mut Pass,
    page: u32,
    count: u32,
    from: u64,
    last: u64,
    rows: &mut Rows,
)
    requires of { IsPassOf engine.now pass.old }
    requires can { CanLook (view pass.old) }
    requires some { 0 < page }
    requires there { page ≤ length (view pass.old).pages }
    requires leaf { IsLeafPage (view pass.old).pages page count }
    requires none { rows.old ≡ [] }
    ensures of { IsPassOf engine.now pass.new }
    ensures glances { HasGlanced (view pass.old) (view pass.new) }
    ensures most { (view pass.new).steps ≤ (view pass.old).steps + 32 }
    ensures rows { (x : IsLeafPage (view pass.old).pages page count) → rows.new ≡ rows_in from last x.records }
{
    for index in 0..count {
        read_row(engine, pass, page, index, from, last, rows);
    }
}

// The row of the record with this index, if its key is one of these.
fn read_row(
    engine: &Engine,
    pass: &mut Pass,
    page: u32,
    index: u32,
    from: u64,
    last: u64,
    rows: &mut Rows,
)
    requires of { IsPassOf engine.now pass.old }
    requires can { CanLook (view pass.old) }
    requires some { 0 < page }
    requires there { page ≤ length (view pass.old).pages }
    requires leaf { (many : ℕ) × IsLeafPage (view pass.old).pages page many × (index < many) }
    requires few { length rows.old < 16 }
    ensures of { IsPassOf engine.now pass.new }
    ensures glances { HasGlanced (view pass.old) (view pass.new) }
    ensures most { (view pass.new).steps ≤ (view pass.old).steps + 2 }
    ensures row { (many : ℕ) (x : IsLeafPage (view pass.old).pages page many) → index < many
        → rows.new ≡ rows.old ++ row_for from last (get_or x.records index no_record) }
{
    let place = 16 + 3 * index;
    let key = load_resident(engine, pass, page, place);
    if key < from {
        return;
    }
    if key > last {
        return;
    }
    let value = load_resident(engine, pass, page, place + 2);
    rows.push(key, value);
}
