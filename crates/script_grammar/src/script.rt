// Scripts in memory.
ghost use Rattle.std.specs.Prelude.{◌≡◌, ◌<◌, length, slice_get, Some};

use crate::rounds::{Round, Rounds};
use serial_model::{Decl, Decls};
use std::marker::Model;

/// A script: the declared storages, and the rounds.
#[derive(Drop)]
pub struct Script {
    decls: Decls,
    rounds: Rounds,
}

impl Model for Script {
    ghost use Rattle.script_grammar.specs.Script.{Script as Meaning};

    ghost Value = { Meaning };

    ghost view = { λ s. record { decls = s.decls; rounds = s.rounds.joined } };
}

impl Script {
    pub(crate) fn new(decls: Decls, rounds: Rounds) -> Self
        ensures { result ≡ record { decls = decls; rounds = rounds.joined } }
    {
        Script { decls, rounds }
    }

    pub fn decls(&self) -> &[Decl]
        ensures { result.now ≡ self.now.decls }
    {
        self.decls.as_slice()
    }

    /// The number of rounds.
    pub fn rounds(&self) -> usize
        ensures { result ≡ length self.now.rounds }
    {
        self.rounds.len()
    }

    /// The round of this index, from 0.
    pub fn round(&self, index: usize) -> Round<'_>
        requires { index < length self.now.rounds }
        ensures { slice_get self.now.rounds index ≡ Some result }
    {
        self.rounds.round(index)
    }
}
