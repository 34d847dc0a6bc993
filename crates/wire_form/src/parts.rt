// Parts of a page's words: a head, and lists that zeros follow.
ghost use Rattle.std.specs.Prelude.{◌≡◌, ◌≢◌, ℕ, ◌+◌, ◌^◌, ◌<◌, ◌≤◌, [], ◌∷◌, List, length, IsTrue, ◌↔◌, MatchOption};
ghost use Rattle.std.specs.List.{AllByRecursion};
ghost use Rattle.wire_form.specs.Bytes.{padded};
ghost use Rattle.wire_form.specs.Items.{IsFollowed, Rises};
ghost use Rattle.wire_form.specs.Pages.{IsChild, IsSeparator};
ghost use Rattle.wire_form.specs.Parts.{IsPaddedList};

use crate::bytes::are_zero;

/// The count in a word that is `base` and a count.
pub fn count_in(word: u64, base: u64, most: u64) -> Option<usize>
    requires { base + most < 2 ^ 64 }
    ensures { MatchOption result ((n : ℕ) → n ≤ most → word ≢ base + n) (λ n. (n ≤ most)
        × (word ≡ base + n)) }
{
    if word < base || word > base + most {
        return None;
    }
    Some((word - base) as usize)
}

/// Whether the words are these three, and then zeros.
pub fn is_head(head: &[u64], first: u64, second: u64, third: u64) -> bool
    requires { 3 ≤ length head.now }
    ensures { IsTrue result
        ↔ (head.now ≡ padded (length head.now) (first ∷ second ∷ third ∷ [])) }
{
    head[0] == first && head[1] == second && head[2] == third && are_zero(&head[3..])
}

/// Whether a key is above an earlier one, if there is one.
pub fn goes_on(last: Option<u64>, key: u64) -> bool
    ensures { IsTrue result ↔ IsFollowed ◌<◌ last key }
{
    match last {
        Some(last) => last < key,
        None => true,
    }
}

/// Whether the words rise.
fn rises(words: &[u64]) -> bool
    ensures { IsTrue result ↔ Rises ◌<◌ words.now }
{
    let mut last = None;
    for word in words {
        if !goes_on(last, *word) {
            return false;
        }
        last = Some(*word);
    }
    true
}

/// Whether each word is a pointer to a page below `number`, none of them below `least`.
fn are_children(least: u64, number: u32, words: &[u64]) -> bool
    ensures { IsTrue result ↔ AllByRecursion (IsChild least number) words.now }
{
    let number = u64::from(number);
    words.iter().all(|word| least <= *word && *word < number)
}

/// Whether each word is above the low fence, and at most the high one.
fn are_within(low: u64, high: u64, words: &[u64]) -> bool
    ensures { IsTrue result ↔ AllByRecursion (IsSeparator low high) words.now }
{
    words.iter().all(|word| low < *word && *word <= high)
}

/// Whether the words are `count` pointers to pages below `number`, none of them below `least`, and
/// then zeros.
pub fn are_pointers(least: u64, number: u32, count: usize, words: &[u64]) -> bool
    requires { count ≤ length words.now }
    ensures { IsTrue result
        ↔ IsPaddedList (λ xs. AllByRecursion (IsChild least number) xs) count words.now }
{
    let (front, rest) = words.split_at(count);
    are_children(least, number, front) && are_zero(rest)
}

/// Whether the words are `count` separators between the fences that rise, and then zeros.
pub fn are_separators(low: u64, high: u64, count: usize, words: &[u64]) -> bool
    requires { count ≤ length words.now }
    ensures { IsTrue result ↔ IsPaddedList (λ xs. AllByRecursion (IsSeparator low high) xs
        × Rises ◌<◌ xs) count words.now }
{
    let (front, rest) = words.split_at(count);
    are_within(low, high, front) && rises(front) && are_zero(rest)
}
