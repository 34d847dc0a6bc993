// The records of an array's snapshot pages, as they lie in the words that threads share.
ghost use Rattle.std.specs.Prelude.{◌≡◌, ℕ, ◌+◌, ◌<◌, ◌≤◌, length, get_or, suc};
ghost use Rattle.array_pages.specs.Finding.{HasGlanced};
ghost use Rattle.array_pages.specs.Snapshots.{CanLook, StandsAbove};
ghost use Rattle.engine_pages.specs.Passes.{view, IsPassOf};
ghost use Rattle.snapshot_store.specs.ArrayPages.{array_format, array_found, indexes_at, last_at};
ghost use Rattle.snapshot_store.specs.Places.{find, page};

use crate::sizes::{LEAF, MIDDLE, RECORD};
use engine_pages::{Engine, Pass, load_resident};

/// The number and the value of a record of a leaf, both 0 where it was never written.
#[inline(never)]
pub(crate) fn in_leaf(
    engine: &Engine,
    pass: &mut Pass,
    number: u64,
    low: u64,
    index: u64,
) -> (u64, u64)
    requires of { IsPassOf engine.now pass.old }
    requires can { CanLook (view pass.old) }
    requires there { number ≤ length (view pass.old).pages }
    requires from { low ≤ index }
    requires to { index < low + indexes_at 0 }
    ensures of { IsPassOf engine.now pass.new }
    ensures glances { HasGlanced (view pass.old) (view pass.new) }
    ensures most { (view pass.new).steps ≤ (view pass.old).steps + 2 }
    ensures finds { (d : ℕ) → array_found result.0 result.1
        ≡ find array_format (view pass.old).pages (suc d) index
        (record { number = number; low = low; high = low + last_at 0 }) }
{
    let at = RECORD * (index - low) as u32;
    let found = word_of(engine, pass, number, at);
    let value = word_of(engine, pass, number, at + 1);
    (found, value)
}

/// That of a record below a page over leaves.
#[inline(never)]
pub(crate) fn in_middle(
    engine: &Engine,
    pass: &mut Pass,
    number: u64,
    low: u64,
    index: u64,
) -> (u64, u64)
    requires of { IsPassOf engine.now pass.old }
    requires can { CanLook (view pass.old) }
    requires there { number ≤ length (view pass.old).pages }
    requires stands { StandsAbove (view pass.old).pages 1 number low }
    requires from { low ≤ index }
    requires to { index < low + indexes_at 1 }
    requires low { low < 131072 }
    ensures of { IsPassOf engine.now pass.new }
    ensures glances { HasGlanced (view pass.old) (view pass.new) }
    ensures most { (view pass.new).steps ≤ (view pass.old).steps + 3 }
    ensures finds { (d : ℕ) → array_found result.0 result.1
        ≡ find array_format (view pass.old).pages (suc (suc d)) index
        (record { number = number; low = low; high = low + last_at 1 }) }
{
    let part = (index - low) / LEAF;
    let leaf = word_of(engine, pass, number, part as u32);
    in_leaf(engine, pass, leaf, low + part * LEAF, index)
}

/// That of a record below a page over such pages, which is the root.
#[inline(never)]
pub(crate) fn in_top(engine: &Engine, pass: &mut Pass, number: u64, index: u64) -> (u64, u64)
    requires of { IsPassOf engine.now pass.old }
    requires can { CanLook (view pass.old) }
    requires there { number ≤ length (view pass.old).pages }
    requires stands { StandsAbove (view pass.old).pages 2 number 0 }
    requires to { index < indexes_at 2 }
    ensures of { IsPassOf engine.now pass.new }
    ensures glances { HasGlanced (view pass.old) (view pass.new) }
    ensures most { (view pass.new).steps ≤ (view pass.old).steps + 4 }
    ensures finds { (d : ℕ) → array_found result.0 result.1
        ≡ find array_format (view pass.old).pages (suc (suc (suc d))) index
        (record { number = number; low = 0; high = last_at 2 }) }
{
    let part = index / MIDDLE;
    let middle = word_of(engine, pass, number, part as u32);
    in_middle(engine, pass, middle, part * MIDDLE, index)
}

/// A word of the page with this number; page 0 reads as zeros.
pub(crate) fn word_of(engine: &Engine, pass: &mut Pass, number: u64, index: u32) -> u64
    requires of { IsPassOf engine.now pass.old }
    requires can { CanLook (view pass.old) }
    requires there { number ≤ length (view pass.old).pages }
    requires index { index < 64 }
    ensures of { IsPassOf engine.now pass.new }
    ensures glances { HasGlanced (view pass.old) (view pass.new) }
    ensures most { (view pass.new).steps ≤ (view pass.old).steps + 1 }
    ensures word { result ≡ get_or (page (view pass.old).pages number) index 0 }
{
    if number == 0 {
        return 0;
    }
    load_resident(engine, pass, number as u32, index)
}
