// What came of a worker's line.
ghost use Rattle.std.specs.Prelude.{◌≡◌};
ghost use Rattle.tx_script.specs.Flat.{outcome_lent};

use serial_model::{LentReplies, Number, Replies, Verdict};

/// What came of a worker's line.
#[derive(Drop)]
pub enum Outcome {
    Committed {
        verdict: Verdict,
        number: Number,
        replies: Replies,
    },
    /// Each of the tries was in conflict: at a record with another transaction, or at a pointer or a slot.
    Conflict,
    /// A try saw no slot that it could use.
    Full,
    /// A try read or wrote more than a transaction may.
    Wide,
    /// The clock gives no further numbers.
    Limit,
    /// The worker's log had failed before.
    Unrun,
}

/// An outcome as it is read where it lies.
#[derive(Drop)]
pub enum LentOutcome<'a> {
    Committed {
        verdict: Verdict,
        number: Number,
        replies: LentReplies<'a>,
    },
    Conflict,
    Full,
    Wide,
    Limit,
    Unrun,
}

impl Outcome {
    /// To read it.
    pub fn lent(&self) -> LentOutcome<'_>
        ensures { outcome_lent result ≡ self.now }
    {
        match self {
            Outcome::Committed {
                verdict,
                number,
                replies,
            } => LentOutcome::Committed {
                verdict: *verdict,
                number: *number,
                replies: replies.lent(),
            },
            Outcome::Conflict => LentOutcome::Conflict,
            Outcome::Full => LentOutcome::Full,
            Outcome::Wide => LentOutcome::Wide,
            Outcome::Limit => LentOutcome::Limit,
            Outcome::Unrun => LentOutcome::Unrun,
        }
    }
}
