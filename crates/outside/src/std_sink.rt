// Standard output as a sink.
ghost use Rattle.std.specs.Prelude.{◌≡◌};

use crate::fault::count_fault;
use crate::retry::write_out;
use crate::{Failed, Sink};
use std::io::{self, Print, Printer, Write};

/// Standard output, or another writer. It tells the bytes that its writer is known to hold; of the
/// system's nothing is known. Each write is flushed before it answers, so that nothing is left behind
/// at the end of the process. An error of the system is a fault, and what it was is not kept.
#[derive(Drop)]
pub struct StdSink<W: Write + Drop> {
    output: W,
    faults: u64,
}

impl<'a, P: Print> StdSink<Printer<'a, P>> {
    pub fn new(rt: &'a P) -> Self
        ensures { ⟦<StdSink<Printer<'a, P>> as Sink>⟧.faults result ≡ 0 }
    {
        Self::over(io::writer(rt))
    }
}

impl<W: Write + Drop> StdSink<W> {
    /// Another writer as a sink.
    pub fn over(output: W) -> Self
        ensures held { ⟦<StdSink<W> as Sink>⟧.held result ≡ W.contents output }
        ensures faults { ⟦<StdSink<W> as Sink>⟧.faults result ≡ 0 }
    {
        StdSink { output, faults: 0 }
    }
}

impl<W: Write + Drop> Sink for StdSink<W> {
    ghost held = { λ sink. W.contents sink.output };

    ghost faults = { λ sink. sink.faults };

    fn faults(&self) -> u64 {
        self.faults
    }

    fn write(&mut self, bytes: &[u8]) -> Result<(), Failed> {
        match write_out(&mut self.output, bytes) {
            Ok(()) => Ok(()),
            Err(_) => Err(count_fault(&mut self.faults)),
        }
    }
}
