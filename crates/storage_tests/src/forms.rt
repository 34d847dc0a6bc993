// Values from outside: words, lines and pages worked by hand from the layouts. Calls stand in helpers without clauses:
// at literals their clauses would be computed.
mod fields;
mod log_line;
mod pages;
pub mod savepoint;
mod words;

// The words of a page that has these at these places, and else zeros.
fn words_of(places: &[(usize, u64)]) -> [u64; 64] {
    let mut words = [0; 64];
    for (at, word) in places {
        if *at < 64 {
            words[*at] = *word;
        }
    }
    words
}
