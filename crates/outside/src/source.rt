// What gives bytes one after another, as standard input.
ghost use Rattle.std.specs.Prelude.{◌≡◌, ℕ, List, Option};
ghost use Rattle.std.specs.Io.{ReadsAtMost};
ghost use Rattle.std.specs.Io.KnownBytes.{ReadConsumes};
ghost use Rattle.outside.specs.Faults.{HasCause};

use crate::Failed;

pub trait Source {
    /// The bytes that are left, where the source knows them.
    ghost left: { Self → Option (List ℕ) };

    /// How often it has failed. The count never falls, and stays at its last value.
    ghost faults: { Self → ℕ };

    fn faults(&self) -> u64
        ensures { result ≡ faults self.now };

    /// Fills the front of the buffer with bytes that come next, and answers how many: 0 where the buffer
    /// has no room, and else only at the end. A call that failed takes no byte.
    fn read(&mut self, buf: &mut [u8]) -> Result<usize, Failed>
        ensures bound { ReadsAtMost result buf.new }
        ensures bytes { ReadConsumes (left self.old) (left self.new) result buf.new }
        ensures cause { HasCause (faults self.old) (faults self.new) result };
}
