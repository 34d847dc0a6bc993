// What the system answers to the calls of a file, each of them counted.
ghost use Rattle.std.specs.Prelude.{◌≡◌, ◌+◌, ◌-◌, ◌^◌, Ok, min, IfOk, IsErr};
ghost use Rattle.outside.specs.Faults.{HasCause};

use crate::Failed;
use crate::fault::count_fault;
use std::io;

/// The answers of the system to the calls of one file: how many there were, how many of them were refusals, and what the
/// last refusal said. Both counts stay at their last values.
#[derive(Drop)]
pub(crate) struct Answers {
    count: u64,
    pub(crate) faults: u64,
    cause: Option<io::Error>,
}

impl Answers {
    pub(crate) fn none() -> Self
        ensures { result.faults ≡ 0 }
    {
        Answers {
            count: 0,
            faults: 0,
            cause: None,
        }
    }

    pub(crate) fn cause(&self) -> Option<io::Error> {
        self.cause
    }

    /// Takes what the system answered to a call. So a function that has to take one answer can't pass over it.
    pub(crate) fn take<T: Drop>(&mut self, answer: io::Result<T>) -> Result<T, Failed>
        ensures value { IfOk result (λ value. answer ≡ Ok value) }
        ensures cause { HasCause self.old.faults self.new.faults result }
        ensures counted { self.new.count ≡ min (self.old.count + 1) (2 ^ 64 - 1) }
    {
        self.count = self.count.saturating_add(1);
        match answer {
            Ok(value) => Ok(value),
            Err(error) => {
                self.cause = Some(error);
                Err(count_fault(&mut self.faults))
            }
        }
    }

    /// Counts a call that isn't made.
    pub(crate) fn refuse(&mut self) -> Result<(), Failed>
        ensures refused { IsErr result }
        ensures cause { HasCause self.old.faults self.new.faults result }
    {
        Err(count_fault(&mut self.faults))
    }
}
