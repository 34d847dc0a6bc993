// What a gate is told of the lines of a thread, and a record of it.
ghost use Rattle.std.specs.Prelude.{◌≡◌, ◌++◌, ◌∷◌, []};
ghost use Rattle.worker_cells.specs.Gates.{Before, After, calls_in, calls_of};

use outside::Gate;

/// The calls of a gate that a thread made for its lines of a round, in their order: those round each line up to the one
/// that it called for last. Calls are noted in it by a `LineGate` alone.
#[derive(Clone, Copy, Debug, Default, PartialEq, Eq)]
pub struct GateCalls {
    // Whose lines they are: a worker's, by its number, or those of the maintenance thread, 255.
    thread: u8,
    // The line that it called for last, counted from 0.
    line: u32,
    // Whether there was a call, and whether that line is over.
    begun: bool,
    over: bool,
}

impl GateCalls {
    /// No call.
    pub fn none() -> Self
        ensures { calls_in result ≡ [] }
    {
        GateCalls {
            thread: 0,
            line: 0,
            begun: false,
            over: false,
        }
    }
}

/// A gate whose calls are noted as they are made, in the order of the lines. A function that knows a gate by this bound
/// alone makes no other call of it.
pub trait LineGate {
    /// Tells that the thread begins the line.
    fn enter(&self, calls: &mut GateCalls, thread: u8, line: u32)
        requires outside { calls_in calls.old ≡ calls_of thread line }
        ensures noted { calls_in calls.new ≡ calls_in calls.old ++ Before thread line ∷ [] };

    /// Tells that the line is over.
    fn leave(&self, calls: &mut GateCalls, thread: u8, line: u32)
        requires inside { calls_in calls.old ≡ calls_of thread line ++ Before thread line ∷ [] }
        ensures noted { calls_in calls.new ≡ calls_in calls.old ++ After thread line ∷ [] };
}

impl<G: Gate> LineGate for G {
    fn enter(&self, calls: &mut GateCalls, thread: u8, line: u32) {
        self.before(thread, line);
        *calls = GateCalls {
            thread,
            line,
            begun: true,
            over: false,
        };
    }

    fn leave(&self, calls: &mut GateCalls, thread: u8, line: u32) {
        self.after(thread, line);
        *calls = GateCalls {
            thread,
            line,
            begun: true,
            over: true,
        };
    }
}
