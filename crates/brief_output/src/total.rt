// The sum of what is kept.
ghost use Rattle.std.specs.Prelude.{◌≡◌};
ghost use Rattle.brief_output.specs.Brief.{total_of};

use serial_model::State;

/// The sum of all values.
pub fn total_of(state: &State) -> u128
    ensures { result ≡ total_of state.now }
{
    // No more than a `usize` counts, and each of them below 2^64: so their sum is below 2^128.
    let _values = state.len();
    let mut total = 0;
    for (_, value) in state.iter() {
        total += *value as u128;
    }
    total
}
