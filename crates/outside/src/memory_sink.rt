// A sink into memory, some of whose calls fail.
ghost use Rattle.std.specs.Prelude.{◌≡◌, ◌⊎◌, ◌/◌, ◌++◌, [], Some, IsErr, true, false, length, take, OnOk, OnErr};
ghost use Rattle.std.specs.Io.KnownBytes.{Appends};
ghost use Rattle.outside.specs.Faults.{HasCause};
ghost use Rattle.outside.specs.Listed.{is_listed, Counted};
ghost use Rattle.outside.specs.Stream.{TakesPrefix};

use crate::fault::count_fault;
use crate::{Failed, Sink};
use std::alloc::Global;

/// A sink whose calls of chosen numbers fail, and each call for which there is no memory.
#[derive(Drop)]
pub struct MemSink {
    bytes: Vec<u8>,
    fails: Vec<u64>,
    calls: u64,
    faults: u64,
}

impl MemSink {
    /// A sink that holds nothing. The calls of `write` are counted from 0. Those of the numbers in
    /// `fails` take the first half of their bytes, rounded down, and fail.
    pub fn new(alloc: Global, fails: Vec<u64>) -> Self
        ensures held { ⟦<MemSink as Sink>⟧.held result ≡ Some [] }
        ensures faults { ⟦<MemSink as Sink>⟧.faults result ≡ 0 }
        ensures fails { result.fails ≡ fails }
        ensures calls { result.calls ≡ 0 }
    {
        MemSink {
            bytes: Vec::new(alloc),
            fails,
            calls: 0,
            faults: 0,
        }
    }

    /// How many calls of `write` there were.
    pub fn calls(&self) -> u64
        ensures { result ≡ self.now.calls }
    {
        self.calls
    }

    /// The bytes that it holds.
    pub fn bytes(&self) -> &[u8]
        ensures { ⟦<MemSink as Sink>⟧.held self.now ≡ Some result.now }
    {
        &self.bytes
    }
}

impl Sink for MemSink {
    ghost held = { λ sink. Some sink.bytes.items };

    ghost faults = { λ sink. sink.faults };

    fn faults(&self) -> u64 {
        self.faults
    }

    fn write(&mut self, bytes: &[u8]) -> Result<(), Failed>
        ensures written { OnOk result (Appends (⟦<MemSink as Sink>⟧.held self.old)
            (⟦<MemSink as Sink>⟧.held self.new) bytes.now) }
        ensures prefix { OnErr result (TakesPrefix (⟦<MemSink as Sink>⟧.held self.old)
            (⟦<MemSink as Sink>⟧.held self.new) bytes.now) }
        ensures cause { HasCause (⟦<MemSink as Sink>⟧.faults self.old)
            (⟦<MemSink as Sink>⟧.faults self.new) result }
        ensures listed { is_listed self.old.fails.items self.old.calls ≡ true → IsErr result × (
            (self.new.bytes.items ≡ self.old.bytes.items ++ take (length bytes.now / 2) bytes.now)
            ⊎ (self.new.bytes.items ≡ self.old.bytes.items)) }
        ensures refused { is_listed self.old.fails.items self.old.calls ≡ false
            → OnErr result (self.new.bytes.items ≡ self.old.bytes.items) }
        ensures counted { Counted self.old.calls self.new.calls }
        ensures stays { self.new.fails ≡ self.old.fails }
    {
        let number = self.calls;
        self.calls = number.saturating_add(1);
        if self.fails.contains(&number) {
            let _ = self.bytes.extend_from_slice(&bytes[..bytes.len() / 2]);
            return Err(count_fault(&mut self.faults));
        }
        if self.bytes.extend_from_slice(bytes).is_err() {
            return Err(count_fault(&mut self.faults));
        }
        Ok(())
    }
}
