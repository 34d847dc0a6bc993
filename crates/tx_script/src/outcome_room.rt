// Room for the outcomes of one worker's lines, taken before the first of them.
ghost use Rattle.std.specs.Prelude.{◌≡◌, ◌≤◌, ◌+◌, ◌++◌, IfOk, [], length, vec_capacity, vec_len};
ghost use Rattle.serial_model.specs.ReplyWords.{AreReplyWords, replies_of};
ghost use Rattle.tx_script.specs.Flat.{outcome_refused};
ghost use Rattle.tx_script.specs.Room.{told_one};
ghost use Rattle.tx_script.specs.declared.outcome.Outcome.TheVariants as outcomes;

use crate::outcomes::{Head, Outcomes, Refused, head_of_commit, head_of_refused};
use lists::Memory;
use serial_model::{Number, Verdict};
use std::alloc::Global;
use std::marker::Model;

/// The outcomes of one worker's lines, in their order, in room that was taken for a number of lines and of words of
/// their replies: pushes take no memory. Contracts see the list of them, and how many more lines and words there is
/// room for.
#[derive(Drop)]
pub struct OutcomeRoom {
    heads: Vec<Head>,
    words: Vec<u64>,
    /// How many more words there is room for.
    space: usize,
}

impl Model for OutcomeRoom {
    ghost use Rattle.std.specs.Prelude.{◌≤◌, ◌+◌, ◌-◌, vec_capacity, vec_len};
    ghost use Rattle.tx_script.specs.Flat.{AreOutcomeWords, outcomes_in};
    ghost use Rattle.tx_script.specs.Room.{RoomState};

    ghost Value = { RoomState };

    ghost view = { λ r. record {
      told = outcomes_in r.heads.items r.words.items;
      left = vec_capacity r.heads - vec_len r.heads;
      space = r.space;
    } };

    ghost invariant = { λ r. AreOutcomeWords r.heads.items r.words.items
        × (vec_len r.words + r.space ≤ vec_capacity r.words) };
}

impl OutcomeRoom {
    /// For so many lines, whose replies have so many words.
    pub fn new(alloc: Global, lines: usize, space: usize) -> Result<Self, Memory>
        ensures { IfOk result (λ room. room ≡ record { told = []; left = lines; space = space }) }
    {
        let heads = Vec::with_capacity(alloc, lines)?;
        let words = Vec::with_capacity(alloc, space)?;
        Ok(OutcomeRoom {
            heads,
            words,
            space,
        })
    }

    /// A transaction that committed, with the words of its replies, of which each of the 16 operations of a line has 34
    /// at most.
    pub fn push_words(&mut self, verdict: Verdict, number: Number, words: &[u64])
        requires room { 1 ≤ self.old.left }
        requires space { length words.now ≤ self.old.space }
        requires are { AreReplyWords words.now }
        requires few { length words.now ≤ 544 }
        ensures { self.new ≡ told_one self.old
            (outcomes.Committed verdict number (replies_of words.now)) (length words.now) }
    {
        let head = head_of_commit(verdict, number, words.len() as u16);
        self.heads.push_reserved(head);
        append_reserved(&mut self.words, words);
        self.space -= words.len();
    }

    /// A line that was not committed.
    pub fn push_refused(&mut self, refused: Refused)
        requires { 1 ≤ self.old.left }
        ensures { self.new ≡ told_one self.old (outcome_refused refused) 0 }
    {
        self.heads.push_reserved(head_of_refused(refused));
    }

    /// What it was told.
    pub fn into_outcomes(self) -> Outcomes
        ensures { result ≡ self.told }
    {
        let OutcomeRoom {
            heads,
            words,
            space: _,
        } = self;
        Outcomes::of_parts(heads, words)
    }
}

// Appends the words, for which there is room.
fn append_reserved(list: &mut Vec<u64>, words: &[u64])
    requires { vec_len list.old + length words.now ≤ vec_capacity list.old }
    ensures items { list.new.items ≡ list.old.items ++ words.now }
    ensures len { vec_len list.new ≡ vec_len list.old + length words.now }
    ensures capacity { vec_capacity list.old ≤ vec_capacity list.new }
{
    list.extend_from_slice(words).unwrap();
}
