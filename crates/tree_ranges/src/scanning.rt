// Scans of trees.
ghost use Rattle.std.specs.Prelude.{◌≡◌, ◌+◌, ◌<◌, ◌≤◌, true, Some, [], OnOk, IfErr, length};
ghost use Rattle.serial_model.specs.declared.op.Op.TheVariants as ops;
ghost use Rattle.serial_model.specs.declared.reply.Reply.TheVariants as replies;
ghost use Rattle.engine_pages.specs.Pages.{is_tree};
ghost use Rattle.engine_pages.specs.Passes.{view, IsPassOf};
ghost use Rattle.page_commit.specs.Live.{IsLive};
ghost use Rattle.page_commit.specs.Refusing.{HasRefused};
ghost use Rattle.page_commit.specs.Turning.{HasDone};
ghost use Rattle.tree_ranges.specs.Causes.{scan_most, RefusesScan};
ghost use Rattle.tree_ranges.specs.Going.{Comes, HasScanned, Stops, StopsAtRow};
ghost use Rattle.tree_walks.specs.Finds.{find_steps};

use crate::overlay::{free_to, push_value};
use crate::stretches::scan_stretch;
use engine_pages::{Engine, Pass, RefusalCause};
use serial_model::{Key, Rows};
use tx_sets::Sets;

/// The first 16 present pairs of a tree with keys from `low` to `high`, ascending, as the transaction sees them: what
/// it wrote last, else what it first read. What it has not met before is read, and what vouches for the answer is kept:
/// each record, the header of each leaf in memory, and each pointer at which the pages in memory end. Each of these
/// calls begins with no rows. Where there are 16 then, no key behind that of the last one was read.
pub fn scan(
    engine: &Engine,
    pass: &mut Pass,
    sets: &mut Sets,
    storage: u8,
    low: u64,
    high: u64,
    rows: &mut Rows,
) -> Result<(), RefusalCause>
    requires of { IsPassOf engine.now pass.old }
    requires live { IsLive sets.old (view pass.old) }
    requires tree { is_tree (view pass.old).layout.decls storage ≡ true }
    requires none { rows.old ≡ [] }
    ensures of { IsPassOf engine.now pass.new }
    ensures replies { OnOk result (HasDone (ops.Scan storage low high) (Some (replies.Rows rows.new))
        sets.old sets.new (view pass.old) (view pass.new)) }
    ensures last { OnOk result (length rows.new ≡ 16 →
        StopsAtRow storage low rows.new sets.old sets.new (view pass.old) (view pass.new)) }
    ensures cause { IfErr result (λ why.
        RefusesScan sets.old sets.new storage low high why (view pass.old) (view pass.new)) }
    ensures refused { IfErr result (λ why. HasRefused why (view pass.old) (view pass.new)) }
    ensures most { (view pass.new).steps ≤ (view pass.old).steps + scan_most low high }
{
    match scan_range(engine, pass, sets, storage, low, high, rows) {
        Ok(()) => {
            tell_room(sets);
            Ok(())
        }
        Err(why) => Err(why),
    }
}

// The sets have no more than they have room for.
fn tell_room(sets: &Sets)
    ensures reads { length sets.now.reads ≤ 256 }
    ensures pointers { length sets.now.pointers ≤ 128 }
    ensures headers { length sets.now.headers ≤ 256 }
{
    let _ = sets.reads.as_slice();
    let _ = sets.pointers.as_slice();
    let _ = sets.headers.as_slice();
}

// The rows of a range.
fn scan_range(
    engine: &Engine,
    pass: &mut Pass,
    sets: &mut Sets,
    storage: u8,
    low: u64,
    high: u64,
    rows: &mut Rows,
) -> Result<(), RefusalCause>
    requires of { IsPassOf engine.now pass.old }
    requires live { IsLive sets.old (view pass.old) }
    requires tree { is_tree (view pass.old).layout.decls storage ≡ true }
    requires none { rows.old ≡ [] }
    ensures of { IsPassOf engine.now pass.new }
    ensures scans { OnOk result (
        HasScanned storage low high sets.old sets.new rows.new (view pass.old) (view pass.new)) }
    ensures stops { IfErr result (λ why.
        Stops storage low high sets.old sets.new why (view pass.old) (view pass.new)) }
    ensures most { (view pass.new).steps ≤ (view pass.old).steps + scan_most low high }
{
    if low > high {
        return Ok(());
    }
    let mut from = low;
    while from <= high {
        let key = Key { storage, key: from };
        let to = scan_some(engine, pass, sets, key, high, rows)?;
        if rows.is_full() {
            return Ok(());
        }
        if to == high {
            return Ok(());
        }
        from = to + 1;
    }
    Ok(())
}

// The rows from a key on, at most up to the last key: what the transaction writes at the key, else those up to the next
// key that it writes, of one leaf. Answers up to which key.
fn scan_some(
    engine: &Engine,
    pass: &mut Pass,
    sets: &mut Sets,
    key: Key,
    high: u64,
    rows: &mut Rows,
) -> Result<u64, RefusalCause>
    requires of { IsPassOf engine.now pass.old }
    requires live { IsLive sets.old (view pass.old) }
    requires tree { is_tree (view pass.old).layout.decls key.storage ≡ true }
    requires high { key.key ≤ high }
    requires few { length rows.old < 16 }
    ensures of { IsPassOf engine.now pass.new }
    ensures comes { Comes 0 find_steps key.storage key.key high result sets.old sets.new rows.old rows.new
        (view pass.old) (view pass.new) }
{
    let Some(own) = sets.writes.find(key) else {
        let last = free_to(sets.writes.as_slice(), key, high);
        return scan_stretch(engine, pass, sets, key, last, rows);
    };
    push_value(rows, key.key, own);
    Ok(key.key)
}
