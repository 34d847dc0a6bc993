// Catalogues: the storages of a snapshot in a page's words.
ghost use Rattle.std.specs.Prelude.{◌≡◌, ℕ, ◌*◌, ◌<◌, ◌≤◌, ◌++◌, List, None, length, drop, IsTrue, ◌↔◌};
ghost use Rattle.std.specs.List.{flat_map};
ghost use Rattle.wire_form.specs.Items.{AreItems};
ghost use Rattle.wire_form.specs.Pages.{IsStored, stored_words, stored_id, Contents, IsCatalogue, catalogue_words, HasKind, IsPage};
ghost use Rattle.wire_form.specs.declared.page.PageKind.TheVariants.{Catalogue};
ghost use Rattle.wire_form.specs.declared.records.Stored.{Stored};
ghost use Rattle.wire_form.specs.Parts.{HasItems};

use crate::bytes::are_zero;
use crate::parts::{count_in, goes_on, is_head};
use crate::records::Stored;
use serial_model::LAST_EPOCH;

/// The first word of a catalogue, without the count of its storages.
const CATALOGUE: u64 = 0x4341_5400_0000_0000;

/// Whether the words are those of storages, with ids that rise.
fn are_stored(number: u32, count: usize, words: &[u64]) -> bool
    requires few { count < 64 }
    requires whole { length words.now ≡ 3 * count }
    ensures { IsTrue result ↔ ((storages : List Stored)
        × AreItems (IsStored number) stored_words stored_id ◌<◌ None words.now storages) }
{
    let mut last = None;
    let mut rest = words;
    for _ in 0..count {
        let (front, after) = rest.split_at(3);
        let Some(stored) = Stored::of_words(number, front[0], front[1], front[2]) else {
            return false;
        };
        let id = stored.id();
        if !goes_on(last, id) {
            return false;
        }
        last = Some(id);
        rest = after;
    }
    true
}

/// Whether the words are `count` storages, and then zeros.
fn has_stored(number: u32, count: usize, words: &[u64]) -> bool
    requires room { 3 * count ≤ length words.now }
    requires few { count < 64 }
    ensures { IsTrue result
        ↔ HasItems (IsStored number) stored_words stored_id ◌<◌ count words.now }
{
    let (front, rest) = words.split_at(3 * count);
    are_stored(number, count, front) && are_zero(rest)
}

/// Whether the words are a catalogue with this page number.
pub fn is_catalogue(number: u32, words: &[u64; 64]) -> bool
    ensures { IsTrue result ↔ HasKind Catalogue number words.now }
{
    let (head, body) = words.split_at(16);
    let Some(count) = count_in(head[0], CATALOGUE, 16) else {
        return false;
    };
    if head[1] >= u64::from(LAST_EPOCH) || head[2] >= u64::from(number) {
        return false;
    }
    if !is_head(head, head[0], head[1], head[2]) {
        return false;
    }
    has_stored(number, count, body)
}

/// Writes the words of storages over the first words.
fn write_stored(storages: &[Stored], to: &mut [u64])
    requires { 3 * length storages.now ≤ length to.old }
    ensures { to.new ≡ flat_map stored_words storages.now ++ drop (3 * length storages.now) to.old }
{
    for i in 0..storages.len() {
        to[3 * i..3 * i + 3].copy_from_slice(&storages[i].words());
    }
}

/// The words of a catalogue with at most 16 storages. They are a page's, where its number allows this
/// content; `is_page` tells of any words.
pub fn catalogue_words(epoch: u32, previous: u32, storages: &[Stored]) -> [u64; 64]
    requires { length storages.now ≤ 16 }
    ensures words { let contents : Contents = record {
      epoch = epoch;
      previous = previous;
      storages = storages.now;
    } in result ≡ catalogue_words contents }
    ensures page { let contents : Contents = record {
      epoch = epoch;
      previous = previous;
      storages = storages.now;
    } in (number : ℕ) → 1 ≤ number → number ≤ 65536 → IsCatalogue number contents
        → IsPage Catalogue number result }
{
    let mut words = [0; 64];
    words[0] = CATALOGUE + storages.len() as u64;
    words[1] = u64::from(epoch);
    words[2] = u64::from(previous);
    write_stored(storages, &mut words[16..]);
    words
}
