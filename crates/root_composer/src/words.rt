// The words of pages, as they are read and written.
ghost use Rattle.std.specs.Prelude.{◌≡◌, ℕ, ◌+◌, ◌<◌, ◌≤◌, ◌++◌, List, drop, length, take};
ghost use Rattle.wire_form.specs.Bytes.{padded};
ghost use Rattle.snapshot_store.specs.Places.{page};
ghost use Rattle.snapshot_store.specs.Content.{words_of};

use snapshot_store::SnapStore;

/// A page's words, or zeros where there is no page.
pub fn page_words(store: &SnapStore, number: u64) -> [u64; 64]
    requires { number ≤ length store.now.pages }
    ensures is { result ≡ padded 64 (page (words_of store.now.pages) number) }
    ensures there { 0 < number → result ≡ page (words_of store.now.pages) number }
    ensures long { length result ≡ 64 }
{
    if number == 0 {
        return [0; 64];
    }
    *store.words(number)
}

/// Writes words over a page's, from a place on.
pub fn put_words(words: &mut [u64; 64], at: usize, list: &[u64])
    requires { at + length list.now ≤ 64 }
    ensures { words.new ≡ take at words.old ++ (list.now ++ drop (at + length list.now) words.old) }
{
    for i in 0..list.len() {
        words[at + i] = list[i];
    }
}
