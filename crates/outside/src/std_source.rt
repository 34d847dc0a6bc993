// Standard input as a source.
ghost use Rattle.std.specs.Prelude.{◌≡◌};

use crate::fault::count_fault;
use crate::retry::read_some;
use crate::{Failed, Source};
use std::io::{BufRead, Input, Read};

/// Standard input, or another reader. It tells the bytes that its reader is known to have left; of
/// the system's nothing is known. An error of the system is a fault, and what it was is not kept.
#[derive(Drop)]
pub struct StdSource<R: Read + Drop> {
    input: R,
    faults: u64,
}

impl<R: BufRead + Drop> StdSource<R> {
    pub fn new(rt: &impl Input<Reader = R>) -> Self
        ensures { ⟦<StdSource<R> as Source>⟧.faults result ≡ 0 }
    {
        Self::over(rt.reader())
    }
}

impl<R: Read + Drop> StdSource<R> {
    /// Another reader as a source.
    pub fn over(input: R) -> Self
        ensures left { ⟦<StdSource<R> as Source>⟧.left result ≡ R.remaining input }
        ensures faults { ⟦<StdSource<R> as Source>⟧.faults result ≡ 0 }
    {
        StdSource { input, faults: 0 }
    }
}

impl<R: Read + Drop> Source for StdSource<R> {
    ghost left = { λ source. R.remaining source.input };

    ghost faults = { λ source. source.faults };

    fn faults(&self) -> u64 {
        self.faults
    }

    fn read(&mut self, buf: &mut [u8]) -> Result<usize, Failed> {
        match read_some(&mut self.input, buf) {
            Ok(count) => Ok(count),
            Err(_) => Err(count_fault(&mut self.faults)),
        }
    }
}
