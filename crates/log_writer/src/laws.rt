// Laws of what a save device names, for callers: each holds of all values, so the calls have nothing
// to do. Proofs cite specs/Newest.antt.
ghost use Rattle.std.specs.Prelude.{◌≡◌, ℕ, List, Option};
ghost use Rattle.wire_form.specs.declared.savepoint.Savepoint.{Savepoint};
ghost use Rattle.log_writer.specs.Save.{HasPoint, Names};

/// A place has one savepoint or none, and a device names one or none.
pub fn one_newest()
    ensures holds { (place : ℕ) (bytes : List ℕ) (a b : Option Savepoint)
        → HasPoint place bytes a → HasPoint place bytes b → a ≡ b }
    ensures names { (file : List ℕ) (a b : Option Savepoint) → Names file a → Names file b → a ≡ b }
{}
