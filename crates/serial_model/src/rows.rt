// The rows of a scan.
ghost use Rattle.std.specs.Prelude.{◌≡◌, ◌<◌, ◌≤◌, [], ◌∷◌, ◌++◌, ◌==◌, length, nat_eq};
ghost use Rattle.std.specs.Cmp.{on_equiv, and_equiv, nat_eq_equiv, partial_equiv_from_equiv};
ghost use Rattle.std.specs.Cmp.Lexicographic.{pointwise, lists_per, lists_equiv};
ghost use Rattle.std.specs.Ordering.{on, eq_of_both};

use arrayvec::ArrayVec;
use std::marker::Model;

/// Up to 16 pairs of a key and its value, ascending.
#[derive(Debug, Drop)]
pub struct Rows {
    pairs: ArrayVec<(u64, u64), 16>,
}

impl Model for Rows {
    ghost use Rattle.std.specs.Prelude.{ℕ, List};

    ghost Value = { List (ℕ × ℕ) };

    ghost view = { λ r. r.pairs.items };
}

impl Rows {
    pub fn new() -> Self
        ensures { result ≡ [] }
    {
        Rows {
            pairs: ArrayVec::new(),
        }
    }

    pub fn push(&mut self, key: u64, value: u64)
        requires { length self.old < 16 }
        ensures { self.new ≡ self.old ++ (key, value) ∷ [] }
    {
        self.pairs.push((key, value));
    }

    pub fn is_full(&self) -> bool
        ensures { result ≡ (length self.now == 16) }
    {
        self.pairs.len() == 16
    }

    pub fn as_slice(&self) -> &[(u64, u64)]
        ensures value { result.now ≡ self.now }
        ensures bound { length self.now ≤ 16 }
    {
        self.pairs.as_slice()
    }
}

impl PartialEq for Rows {
    ghost eq = { pointwise (eq_of_both (on (λ p. p.0) nat_eq) (on (λ p. p.1) nat_eq)) };

    ghost laws = { lists_per (partial_equiv_from_equiv (and_equiv (on_equiv (λ p. p.0) nat_eq_equiv) (on_equiv (λ p. p.1) nat_eq_equiv))) };

    fn eq(&self, other: &Self) -> bool {
        self.as_slice() == other.as_slice()
    }
}

impl Eq for Rows {
    ghost laws = { lists_equiv (and_equiv (on_equiv (λ p. p.0) nat_eq_equiv) (on_equiv (λ p. p.1) nat_eq_equiv)) };
}
