// What a decided attempt writes.
ghost use Rattle.std.specs.Prelude.{◌≡◌, ℕ, ◌+◌, ◌*◌, ◌^◌, ◌<◌, List, length};
ghost use Rattle.std.specs.List.{AllByRecursion};
ghost use Rattle.tx_sets.specs.Entries.{IsAscending};
ghost use Rattle.engine_pages.specs.Passes.{view, IsPassOf};
ghost use Rattle.engine_pages.specs.Views.{IsActive};
ghost use Rattle.page_commit.specs.Live.{IsWriteOf};
ghost use Rattle.page_commit.specs.Places.{ground};
ghost use Rattle.page_commit.specs.Steps.{absent_bit, HasDecided, HasPublished};

use engine_pages::{Engine, Pass};
use page_records::{open_anew_as, put_as};
use std::marker::Brand;
use tx_sets::Write;

/// The word of a record without a value has this bit.
const ABSENT: u64 = 1 << 61;

/// Puts the values of the attempt that counts, and opens its locks with its number, whose word this is.
pub(crate) fn publish_all(engine: &Engine, pass: &mut Pass, writes: &[Write], number: u64)
    requires of { IsPassOf engine.now pass.old }
    requires pass { IsActive (view pass.old).role }
    requires places { AllByRecursion (IsWriteOf (ground (view pass.old))) writes.now }
    requires ascending { IsAscending writes.now }
    requires decided { (found : List ℕ) × HasDecided writes.now found number (view pass.old) }
    ensures of { IsPassOf engine.now pass.new }
    ensures published { HasPublished (view pass.old) (view pass.new) }
    ensures steps { (view pass.new).steps ≡ (view pass.old).steps + 2 * length writes.now }
{
    let mut done = 0;
    while done < writes.len() {
        let write = writes[done];
        let word = with_absence(number, write.value);
        put_as::<Brand, ()>(
            engine,
            pass,
            write.key,
            (),
            write.at,
            write.value.unwrap_or(0),
        );
        open_anew_as::<Brand, ()>(engine, pass, write.key, (), write.at, word);
        done += 1;
    }
}

// The word of a record that gets this value by the attempt whose number has this word: it has a bit where there is none.
fn with_absence(number: u64, value: Option<u64>) -> u64
    requires { number < 2 ^ 60 }
    ensures { result ≡ number + absent_bit value }
{
    match value {
        Some(_) => number,
        None => number + ABSENT,
    }
}
