// Whose lines a round has.
ghost use Rattle.std.specs.Prelude.{◌≡◌, ◌≢◌, ◌<◌, ◌≤◌, ◌+◌, ◌^◌, ℕ, Some, length, slice_get, true};
ghost use Rattle.round_engine.specs.Owners.{AddsOwner, AreOwners};

use serial_model::WORKERS;
use tx_script::Round;

/// Which workers have a line in a round, and how many of its lines are the maintenance thread's.
#[derive(Clone, Copy)]
pub(crate) struct Owners {
    /// By the worker's number, whether it has a line.
    pub(crate) busy: [bool; 8],
    /// How many lines are the maintenance thread's.
    pub(crate) keeper: usize,
}

/// Whose lines the round has, told by one pass over them.
pub(crate) fn owners_of(round: &Round<'_>) -> Owners
    ensures owners { AreOwners round.now.lines result }
    ensures few { result.keeper ≤ length round.now.lines }
{
    let mut owners = Owners {
        busy: [false; 8],
        keeper: 0,
    };
    for index in 0..round.len() {
        owners.add(round.worker(index));
    }
    owners
}

impl Owners {
    // One line more, of this worker, or of the maintenance thread.
    fn add(&mut self, owner: Option<u8>)
        requires workers { length self.old.busy ≡ 8 }
        requires few { self.old.keeper + 1 < 2 ^ 64 }
        ensures adds { AddsOwner owner self.old self.new }
        ensures few { self.new.keeper ≤ self.old.keeper + 1 }
    {
        match owner {
            Some(worker) => set_busy(&mut self.busy, worker),
            None => self.keeper += 1,
        }
    }
}

// The worker has a line.
fn set_busy(busy: &mut [bool], worker: u8)
    requires { length busy.old ≡ 8 }
    ensures mine { worker < 8 → slice_get busy.new worker ≡ Some true }
    ensures others { (other : ℕ) → other ≢ worker → slice_get busy.new other ≡ slice_get busy.old other }
    ensures length { length busy.new ≡ length busy.old }
{
    let index = usize::from(worker);
    if index < WORKERS {
        busy[index] = true;
    }
}
