// The commits of a run, and the last epoch that was made durable.
ghost use Rattle.std.specs.Prelude.{◌≡◌, ◌+◌, ◌<◌, ◌≤◌, ◌^◌, ◌++◌, [], ◌∷◌, List, filter, length, sum_by};
ghost use Rattle.tx_script.specs.Draws.{commit_count};
ghost use Rattle.tx_script.specs.Flat.{outcome_lent};
ghost use Rattle.tx_script.specs.Run.{Ran, is_commit};
ghost use Rattle.brief_output.specs.Brief.{tally_of};

use tx_script::{LentOutcome, LentOutcomes, Outcomes, RoundOutcomes};

/// What is told in short of the rounds that were run so far.
#[derive(Clone, Copy, Debug, PartialEq, Eq)]
pub struct Tally {
    /// Whether a round was run.
    pub ran: bool,
    /// How many transactions committed.
    pub commits: u64,
    /// The last epoch that the end of a round made durable.
    pub durable: Option<u32>,
}

impl Tally {
    /// Nothing was run yet.
    pub fn new() -> Tally
        ensures { result ≡ tally_of [] }
    {
        Tally {
            ran: false,
            commits: 0,
            durable: None,
        }
    }

    /// One more round was run.
    pub fn add(&mut self, outcomes: &RoundOutcomes, durable: Option<u32>)
        requires few { self.old.commits + sum_by length outcomes.now < 2 ^ 64 }
        ensures adds { (rans : List Ran) (ran : Ran) → self.old ≡ tally_of rans → ran.printed.outcomes ≡ outcomes.now
            → ran.printed.durable ≡ durable → self.new ≡ tally_of (rans ++ ran ∷ []) }
    {
        self.ran = true;
        self.commits += commit_count(outcomes.as_slice());
        self.durable = durable.or(self.durable);
    }
}

/// How many transactions of a round committed.
fn commit_count(outcomes: &[Outcomes]) -> u64
    requires few { sum_by length outcomes.now < 2 ^ 64 }
    ensures count { result ≡ commit_count outcomes.now }
    ensures few { result ≤ sum_by length outcomes.now }
{
    let mut commits = 0;
    for worker in outcomes {
        commits += commits_of_worker(worker.lent());
    }
    commits
}

/// How many transactions of a worker committed.
fn commits_of_worker(outcomes: LentOutcomes<'_>) -> u64
    ensures count { result ≡ length (filter is_commit outcomes.entry) }
    ensures few { result ≤ length outcomes.entry }
{
    let mut commits = 0;
    let mut left = outcomes;
    for _line in 0..left.len() {
        let Some((outcome, rest)) = left.split_first() else {
            unreachable!();
        };
        commits += commits_told(outcome);
        left = rest;
    }
    commits
}

/// 1 for a commit, else 0.
fn commits_told(outcome: LentOutcome<'_>) -> u64
    ensures count { result ≡ length (filter is_commit (outcome_lent outcome.entry ∷ [])) }
    ensures few { result ≤ 1 }
{
    match outcome {
        LentOutcome::Committed { .. } => 1,
        _ => 0,
    }
}
