// Pages of the newest snapshot, and where their records go.
ghost use Rattle.std.specs.Prelude.{◌≡◌, ℕ, ◌≤◌, Some, IsTrue, ◌↔◌, OnOk, length};
ghost use Rattle.wire_form.specs.Pages.{HasKind};
ghost use Rattle.recovery_core.specs.Damage.{first_byte};
ghost use Rattle.recovery_core.specs.Gather.{Puts, only_at, found_of};

use crate::catalogue::words_fit;
use crate::chain;
use lists::Memory;
use serial_model::{Key, State};
use snapshot_store::SnapStore;
use wire_form::{PageKind, is_page};

/// The first byte on the device of a page of the store, and 0 for page 0.
pub(crate) fn first_byte(store: &SnapStore, number: u64) -> u64
    requires { number ≤ length store.now.pages }
    ensures { result ≡ first_byte number }
{
    let count = u64::from(store.count());
    prove!(number <= count);
    chain::first_byte(number as u32)
}

/// Whether the words are what a page of the kind and number may have in it.
pub(crate) fn has_kind(kind: PageKind, number: u64, words: &[u64; 64]) -> bool
    requires first { 1 ≤ number }
    requires last { number ≤ 65536 }
    ensures { IsTrue result ↔ HasKind kind number words.now }
{
    words_fit(words);
    is_page(kind, number as u32, words)
}

/// Puts a record's value at its key.
pub(crate) fn put(state: &mut State, key: Key, value: u64) -> Result<(), Memory>
    ensures { (number : ℕ) → OnOk result (Puts (only_at key (Some (found_of number value))) state.old state.new) }
{
    state.insert(key, value)?;
    Ok(())
}
