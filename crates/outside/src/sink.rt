// What takes bytes one after another, as standard output.
ghost use Rattle.std.specs.Prelude.{◌≡◌, ℕ, List, Option, OnOk, OnErr};
ghost use Rattle.std.specs.Io.KnownBytes.{Appends};
ghost use Rattle.outside.specs.Faults.{HasCause};
ghost use Rattle.outside.specs.Stream.{TakesPrefix};

use crate::Failed;

pub trait Sink {
    /// The bytes that it holds, where the sink knows them.
    ghost held: { Self → Option (List ℕ) };

    /// How often it has failed. The count never falls, and stays at its last value.
    ghost faults: { Self → ℕ };

    fn faults(&self) -> u64
        ensures { result ≡ faults self.now };

    /// Takes all of the bytes, or, where it fails, a prefix of them.
    fn write(&mut self, bytes: &[u8]) -> Result<(), Failed>
        ensures written { OnOk result (Appends (held self.old) (held self.new) bytes.now) }
        ensures prefix { OnErr result (TakesPrefix (held self.old) (held self.new) bytes.now) }
        ensures cause { HasCause (faults self.old) (faults self.new) result };
}
