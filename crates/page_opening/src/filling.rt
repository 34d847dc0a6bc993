// How the first words of a table are filled.
ghost use Rattle.std.specs.Prelude.{◌≡◌, ◌+◌, ◌*◌, ◌≤◌, ◌<◌, IfOk, length};
ghost use Rattle.wire_form.specs.Words.{number_word};
ghost use Rattle.engine_pages.specs.Beginning.{IsRead};
ghost use Rattle.engine_pages.specs.Words.{IsSmall};
ghost use Rattle.page_opening.specs.Making.{AreFirst, ArePut, AreMarked, AreRooted, ArePaged, CanMake};

use engine_pages::Start;
use lists::Memory;
use serial_model::Number;
use std::alloc::Global;
use wire_form::{EPOCH, Page};

/// The first words: each worker is done with the epoch before the first one.
pub(crate) fn first_words(alloc: Global, start: &Start) -> Result<Vec<u64>, Memory>
    requires can { CanMake start.now }
    ensures words { IfOk result (λ words. AreFirst start.now words.items) }
    ensures read { IsRead start.now }
{
    let first = start.first();
    let pages = 32 + 65 * start.slots() as usize;
    let mut words = Vec::from_elem(alloc, 0u64, pages + 64 * start.resident() as usize)?;
    words[0] = word_of_number(first);
    fill_marks(&mut words, u64::from(first.epoch - 1) * EPOCH);
    fill_roots(&mut words, start.roots());
    words[26] = start.pages().len() as u64;
    fill_pages(&mut words, pages, start.pages());
    Ok(words)
}

/// The word of a number.
fn word_of_number(number: Number) -> u64
    requires { IsSmall number }
    ensures { result ≡ number_word number }
{
    number.draw + u64::from(number.epoch) * EPOCH
}

/// Puts the mark into the words of all marks.
fn fill_marks(words: &mut Vec<u64>, mark: u64)
    requires { 10 ≤ length words.old.items }
    ensures { AreMarked words.old.items words.new.items mark 10 }
{
    for i in 2..10 {
        words[i] = mark;
    }
}

/// Puts the roots' numbers into their words.
fn fill_roots(words: &mut Vec<u64>, roots: &[u32])
    requires few { length roots.now ≤ 16 }
    requires long { 32 ≤ length words.old.items }
    ensures { AreRooted words.old.items words.new.items roots.now (length roots.now) }
{
    for i in 0..roots.len() {
        words[10 + i] = u64::from(roots[i]);
    }
}

/// Puts the words of pages, one page after another from this place on.
fn fill_pages(words: &mut Vec<u64>, at: usize, pages: &[Page])
    requires { at + 64 * length pages.now ≤ length words.old.items }
    ensures { ArePaged words.old.items words.new.items at pages.now (length pages.now) }
{
    for i in 0..pages.len() {
        fill_page(words, at + 64 * i, &pages[i].words);
    }
}

/// Puts the words of one page there.
fn fill_page(words: &mut Vec<u64>, at: usize, page: &[u64; 64])
    requires { at + 64 ≤ length words.old.items }
    ensures { ArePut words.old.items words.new.items at page.now 64 }
{
    for i in 0..64 {
        words[at + i] = page[i];
    }
}
