// The entries of a range of keys.
ghost use Rattle.std.specs.Prelude.{◌≡◌};
ghost use Rattle.std.specs.List.Sorted.{IsNonDecreasingBy};
ghost use Rattle.root_composer.specs.Overlaid.{touches};
ghost use Rattle.root_composer.specs.Rows.{entries_in};

use crate::Last;

/// Whether the run, which is in order, has an entry in a range.
pub fn has_entry(run: &[Last], low: u64, high: u64) -> bool
    requires order { IsNonDecreasingBy (λ e. e.key) run.now }
    ensures { result ≡ touches run.now low high }
{
    let i = run.partition_point(|e| e.key < low);
    if i >= run.len() {
        return false;
    }
    run[i].key <= high
}

/// The entries of a range, of a run that is in order.
pub fn within(run: &[Last], low: u64, high: u64) -> &[Last]
    requires order { IsNonDecreasingBy (λ e. e.key) run.now }
    ensures { result.now ≡ entries_in low high run.now }
{
    let first = run.partition_point(|e| e.key < low);
    let (_, rest) = run.split_at(first);
    let count = rest.partition_point(|e| e.key <= high);
    let (part, _) = rest.split_at(count);
    part
}
