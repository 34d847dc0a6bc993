// A source over bytes in memory, some of whose calls fail.
ghost use Rattle.std.specs.Prelude.{◌≡◌, Some, is_err};
ghost use Rattle.std.specs.Io.{ReadsAtMost};
ghost use Rattle.std.specs.Io.KnownBytes.{ReadConsumes};
ghost use Rattle.outside.specs.Faults.{HasCause};
ghost use Rattle.outside.specs.Listed.{is_listed, Counted};

use crate::fault::count_fault;
use crate::{Failed, Source, SureSource};

/// A source whose calls of chosen numbers fail.
#[derive(Drop)]
pub struct MemSource {
    bytes: SureSource,
    fails: Vec<u64>,
    calls: u64,
    faults: u64,
}

impl MemSource {
    /// A source of these bytes. The calls of `read` are counted from 0, and those of the numbers in
    /// `fails` fail.
    pub fn new(bytes: Vec<u8>, fails: Vec<u64>) -> Self
        ensures left { ⟦<MemSource as Source>⟧.left result ≡ Some bytes.items }
        ensures faults { ⟦<MemSource as Source>⟧.faults result ≡ 0 }
        ensures fails { result.fails ≡ fails }
        ensures calls { result.calls ≡ 0 }
    {
        MemSource {
            bytes: SureSource::new(bytes),
            fails,
            calls: 0,
            faults: 0,
        }
    }

    /// How many calls of `read` there were.
    pub fn calls(&self) -> u64
        ensures { result ≡ self.now.calls }
    {
        self.calls
    }
}

impl Source for MemSource {
    ghost left = { λ source. ⟦<SureSource as Source>⟧.left source.bytes };

    ghost faults = { λ source. source.faults };

    fn faults(&self) -> u64 {
        self.faults
    }

    fn read(&mut self, buf: &mut [u8]) -> Result<usize, Failed>
        ensures bound { ReadsAtMost result buf.new }
        ensures bytes { ReadConsumes (⟦<MemSource as Source>⟧.left self.old)
            (⟦<MemSource as Source>⟧.left self.new) result buf.new }
        ensures cause { HasCause (⟦<MemSource as Source>⟧.faults self.old)
            (⟦<MemSource as Source>⟧.faults self.new) result }
        ensures listed { is_listed self.old.fails.items self.old.calls ≡ is_err result }
        ensures counted { Counted self.old.calls self.new.calls }
        ensures stays { self.new.fails ≡ self.old.fails }
    {
        let number = self.calls;
        self.calls = number.saturating_add(1);
        if self.fails.contains(&number) {
            return Err(count_fault(&mut self.faults));
        }
        self.bytes.read(buf)
    }
}
