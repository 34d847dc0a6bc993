// A source over bytes in memory that never fails.
ghost use Rattle.std.specs.Prelude.{◌≡◌, ◌≤◌, Some, IsOk, drop, vec_len};
ghost use Rattle.std.specs.Io.{ReadsAtMost};
ghost use Rattle.std.specs.Io.KnownBytes.{ReadConsumes};
ghost use Rattle.outside.specs.Faults.{HasCause};

use crate::{Failed, Source};

/// A source that never fails. It fills the buffer as far as its bytes go.
#[derive(Drop)]
pub struct SureSource {
    bytes: Vec<u8>,
    at: usize,
    ghost within: { at ≤ vec_len bytes },
}

impl SureSource {
    pub fn new(bytes: Vec<u8>) -> Self
        ensures { ⟦<SureSource as Source>⟧.left result ≡ Some bytes.items }
    {
        SureSource { bytes, at: 0 }
    }
}

impl Source for SureSource {
    ghost left = { λ source. Some (drop source.at source.bytes.items) };

    ghost faults = { λ _. 0 };

    fn faults(&self) -> u64 {
        0
    }

    fn read(&mut self, buf: &mut [u8]) -> Result<usize, Failed>
        ensures sure { IsOk result }
        ensures bound { ReadsAtMost result buf.new }
        ensures bytes { ReadConsumes (⟦<SureSource as Source>⟧.left self.old)
            (⟦<SureSource as Source>⟧.left self.new) result buf.new }
        ensures cause { HasCause (⟦<SureSource as Source>⟧.faults self.old)
            (⟦<SureSource as Source>⟧.faults self.new) result }
    {
        let rest = &self.bytes[self.at..];
        let count = rest.len().min(buf.len());
        buf[..count].copy_from_slice(&rest[..count]);
        self.at += count;
        Ok(count)
    }
}
