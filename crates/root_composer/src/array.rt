// Composing the pages of an array.
ghost use Rattle.std.specs.Prelude.{◌≡◌, ℕ, ◌+◌, ◌-◌, ◌*◌, ◌<◌, ◌≤◌, List, IfOk, length};
ghost use Rattle.std.specs.List.Sorted.{IsNonDecreasingBy};
ghost use Rattle.snapshot_store.specs.Content.{words_of};
ghost use Rattle.root_composer.specs.ArrayWriter.{put, put_all};
ghost use Rattle.root_composer.specs.ArrayCode.{ArrayStands, array_one, Adds};

use crate::Last;
use crate::range::{has_entry, within};
use crate::words::page_words;
use lists::Memory;
use snapshot_store::{PagePlace, SnapStore};

/// Puts a record at an index of a leaf.
fn put_record(words: &mut [u64; 64], i: usize, number: u64, value: Option<u64>)
    requires { i < 32 }
    ensures { words.new ≡ put i number value words.old }
{
    if let Some(value) = value {
        words[2 * i] = number;
        words[2 * i + 1] = value;
    }
}

/// Puts the run's records of a leaf's range.
fn put_records(words: &mut [u64; 64], run: &[Last], low: u64, high: u64)
    requires { high - low < 32 }
    ensures { words.new ≡ put_all low high run.now words.old }
{
    let mut n = run.len();
    while n > 0 {
        n -= 1;
        let e = run[n];
        if low <= e.key && e.key <= high {
            put_record(words, (e.key - low) as usize, e.number, e.value);
        }
    }
}

/// Composes the page of a place and the pages below it, and gives the page that stands there now:
/// what is written stands behind what was.
pub fn compose_array(
    store: &SnapStore,
    made: &mut Vec<[u64; 64]>,
    run: &[Last],
    size: u64,
    depth: u32,
    p: PagePlace,
) -> Result<u64, Memory>
    requires stands { ArrayStands size (words_of store.now.pages) depth p }
    requires range { p.high < 4294967296 }
    requires order { IsNonDecreasingBy (λ e. e.key) run.now }
    ensures { IfOk result (λ n. Adds made.old.items made.new.items n
        (array_one run.now (words_of store.now.pages) depth p
        (length (words_of store.now.pages) + length made.old.items))) }
{
    if !has_entry(run, p.low, p.high) {
        return Ok(p.number);
    }
    let mut words = page_words(store, p.number);
    if p.high - p.low < 32 {
        put_records(&mut words, within(run, p.low, p.high), p.low, p.high);
    } else {
        let part = (p.high - p.low + 1) / 64;
        let mut low = p.low;
        for i in 0..64 {
            let q = PagePlace {
                number: words[i],
                low,
                high: low + (part - 1),
            };
            words[i] = compose_array(store, made, run, size, depth - 1, q)?;
            low += part;
        }
    }
    made.push(words)?;
    Ok((store.count() as usize + made.len()) as u64)
}
