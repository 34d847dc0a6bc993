// The outcomes of a round's lines, flat: a head for each, and the words of all replies in one list.
ghost use Rattle.std.specs.Prelude.{◌≡◌, ◌<◌, [], ◌∷◌, ◌++◌, length, MatchOption, OnOk, OnErr};
ghost use Rattle.std.specs.List.{list_any};
ghost use Rattle.serial_model.specs.ReplyWords.{AreReplyWords, replies_words};
ghost use Rattle.tx_script.specs.Flat.{AreOutcomeWords, outcome_in, outcomes_in};
ghost use Rattle.tx_script.specs.Flat.{is_refused, outcome_lent, outcome_refused};
ghost use Rattle.tx_script.specs.declared.outcomes.Kind.TheVariants as kinds;
ghost use Rattle.tx_script.specs.Run.{is_limit};
ghost use Rattle.tx_script.specs.declared.outcome.Outcome.TheVariants as outcomes;

use crate::outcome::LentOutcome;
use lists::{Memory, Sequence};
use serial_model::{LentReplies, Number, Replies, Verdict};
use std::alloc::Global;
use std::marker::Model;

/// Why a line was not committed.
#[derive(Clone, Copy, Debug, PartialEq, Eq)]
pub enum Refused {
    Conflict,
    Full,
    Wide,
    Limit,
    Unrun,
}

/// What an outcome is, but for its number and its replies.
#[derive(Clone, Copy)]
pub(crate) enum Kind {
    Committed(Verdict),
    Refused(Refused),
}

/// An outcome, but for its replies.
#[derive(Clone, Copy)]
pub(crate) struct Head {
    kind: Kind,
    /// How many words its replies take.
    count: u16,
    epoch: u32,
    draw: u64,
}

/// The outcomes of one worker's lines, in their order, which contracts see as the list of them.
#[derive(Drop)]
pub struct Outcomes {
    heads: Sequence<Head>,
    words: Sequence<u64>,
}

impl Model for Outcomes {
    ghost use Rattle.std.specs.Prelude.{List};
    ghost use Rattle.tx_script.specs.declared.outcome.Outcome.{Outcome};

    ghost Value = { List Outcome };

    ghost use Rattle.tx_script.specs.Flat.{AreOutcomeWords, outcomes_in};

    ghost view = { λ o. outcomes_in o.heads o.words };

    ghost invariant = { λ o. AreOutcomeWords o.heads o.words };
}

/// The outcomes of a round, a list for each worker.
pub type RoundOutcomes = Sequence<Outcomes>;

/// Outcomes that are read where they lie.
#[derive(Drop)]
pub struct LentOutcomes<'a> {
    heads: &'a [Head],
    words: &'a [u64],
}

impl<'a> Model for LentOutcomes<'a> {
    ghost use Rattle.std.specs.Prelude.{List};
    ghost use Rattle.tx_script.specs.declared.outcome.Outcome.{Outcome};

    ghost Value = { List Outcome };

    ghost use Rattle.tx_script.specs.Flat.{AreOutcomeWords, outcomes_in};

    ghost view = { λ o. outcomes_in o.heads.now o.words.now };

    ghost invariant = { λ o. AreOutcomeWords o.heads.now o.words.now };
}

impl Outcomes {
    pub fn new(alloc: Global) -> Self
        ensures { result ≡ [] }
    {
        Outcomes {
            heads: Sequence::new(alloc),
            words: Sequence::new(alloc),
        }
    }

    /// Of heads and of the words of their replies.
    pub(crate) fn of_parts(heads: Vec<Head>, words: Vec<u64>) -> Self
        requires { AreOutcomeWords heads.items words.items }
        ensures { result ≡ outcomes_in heads.items words.items }
    {
        Outcomes {
            heads: Sequence::from_vec(heads),
            words: Sequence::from_vec(words),
        }
    }

    /// A transaction that committed. After want of memory the list is as it was.
    pub fn push_commit(
        &mut self,
        verdict: Verdict,
        number: Number,
        replies: &Replies,
    ) -> Result<(), Memory>
        requires { length (replies_words replies.now) < 65536 }
        ensures ok { OnOk result (self.new
            ≡ self.old ++ outcomes.Committed verdict number replies.now ∷ []) }
        ensures memory { OnErr result (self.new ≡ self.old) }
    {
        let words = replies.words();
        let head = head_of_commit(verdict, number, words.len() as u16);
        let before = self.words.len();
        self.words.append(words)?;
        match self.heads.push(head) {
            Ok(()) => Ok(()),
            Err(Memory) => {
                self.words.truncate(before);
                Err(Memory)
            }
        }
    }

    /// A line that was not committed. After want of memory the list is as it was.
    pub fn push_refused(&mut self, refused: Refused) -> Result<(), Memory>
        ensures ok { OnOk result (self.new ≡ self.old ++ outcome_refused refused ∷ []) }
        ensures memory { OnErr result (self.new ≡ self.old) }
    {
        self.heads.push(head_of_refused(refused))?;
        Ok(())
    }

    /// Whether a line was refused a number.
    pub fn has_limit(&self) -> bool
        ensures { result ≡ list_any is_limit self.now }
    {
        any_limit(self.heads.as_slice())
    }

    /// To read them one after another.
    pub fn lent(&self) -> LentOutcomes<'_>
        ensures { result ≡ self.now }
    {
        LentOutcomes {
            heads: self.heads.as_slice(),
            words: self.words.as_slice(),
        }
    }
}

impl<'a> LentOutcomes<'a> {
    /// How many they are.
    pub fn len(&self) -> usize
        ensures { result ≡ length self.now }
    {
        self.heads.len()
    }

    /// The first outcome, and those behind it.
    pub fn split_first(&self) -> Option<(LentOutcome<'a>, LentOutcomes<'a>)>
        ensures { MatchOption result (self.now ≡ []) (λ p. self.now ≡ outcome_lent p.0 ∷ p.1) }
    {
        let (head, heads) = self.heads.split_first()?;
        let (replies, words) = self.words.split_at(head.count as usize);
        Some((outcome_at(*head, replies), LentOutcomes { heads, words }))
    }
}

// The head of a commit whose replies take so many words.
pub(crate) fn head_of_commit(verdict: Verdict, number: Number, count: u16) -> Head
    ensures { result ≡ record {
      kind = kinds.Committed verdict;
      count = count;
      epoch = number.epoch;
      draw = number.draw;
    } }
{
    Head {
        kind: Kind::Committed(verdict),
        count,
        epoch: number.epoch,
        draw: number.draw,
    }
}

// The head of a line that was not committed.
pub(crate) fn head_of_refused(refused: Refused) -> Head
    ensures { result ≡ record { kind = kinds.Refused refused; count = 0; epoch = 0; draw = 0 } }
{
    Head {
        kind: Kind::Refused(refused),
        count: 0,
        epoch: 0,
        draw: 0,
    }
}

fn any_limit(heads: &[Head]) -> bool
    ensures { result ≡ list_any is_refused heads.now }
{
    heads
        .iter()
        .any(|head| matches!(head.kind, Kind::Refused(Refused::Limit)))
}

// The outcome of a head whose replies lie in these words.
fn outcome_at(head: Head, words: &[u64]) -> LentOutcome<'_>
    requires { AreReplyWords words.now }
    ensures { outcome_lent result ≡ outcome_in head words.now }
{
    match head.kind {
        Kind::Committed(verdict) => LentOutcome::Committed {
            verdict,
            number: Number {
                epoch: head.epoch,
                draw: head.draw,
            },
            replies: LentReplies::new(words),
        },
        Kind::Refused(refused) => lent_refused(refused),
    }
}

fn lent_refused<'a>(refused: Refused) -> LentOutcome<'a>
    ensures { outcome_lent result ≡ outcome_refused refused }
{
    match refused {
        Refused::Conflict => LentOutcome::Conflict,
        Refused::Full => LentOutcome::Full,
        Refused::Wide => LentOutcome::Wide,
        Refused::Limit => LentOutcome::Limit,
        Refused::Unrun => LentOutcome::Unrun,
    }
}
