// The log lines that wait to be written.
ghost use Rattle.std.specs.Prelude.{◌≡◌, ◌+◌, ◌≤◌, [], ◌++◌, length, IfOk};
ghost use Rattle.wire_form.specs.LogLine.{IsLoggable, IsLogLine, line_bytes};

use serial_model::Commit;
use std::alloc::{AllocError, Global};
use std::marker::Model;
use wire_form::write_log_line;

/// The size of the buffer, in bytes.
pub const SIZE: usize = 4096;

/// The longest log line, in bytes.
pub const LONGEST: u64 = 400;

/// Bytes of whole log lines, of which contracts see the list.
#[derive(Drop)]
pub struct LineBuffer {
    bytes: Vec<u8>,
    filled: usize,
}

impl Model for LineBuffer {
    ghost use Rattle.std.specs.Prelude.{◌≡◌, ◌≤◌, List, ℕ, length, take};

    ghost Value = { List ℕ };

    ghost view = { λ b. take b.filled b.bytes.items };

    ghost invariant = { λ b. (length b.bytes.items ≡ 4096) × (b.filled ≤ 4096) };
}

impl LineBuffer {
    /// An empty buffer. Nothing that is done to it takes memory.
    pub fn new(alloc: Global) -> Result<LineBuffer, AllocError>
        ensures { IfOk result (λ buffer. buffer ≡ []) }
    {
        let bytes = [0; SIZE].to_vec(alloc)?;
        Ok(LineBuffer { bytes, filled: 0 })
    }

    pub fn len(&self) -> usize
        ensures len { result ≡ length self.now }
        ensures fits { result ≤ 4096 }
    {
        self.filled
    }

    pub fn bytes(&self) -> &[u8]
        ensures { result.now ≡ self.now }
    {
        &self.bytes[..self.filled]
    }

    /// Adds a commit's log line.
    pub fn add(&mut self, commit: &Commit)
        requires loggable { IsLoggable commit.now }
        requires room { length self.old + 400 ≤ 4096 }
        ensures added { self.new ≡ self.old ++ line_bytes commit.now }
        ensures line { IsLogLine commit.now }
        ensures short { length (line_bytes commit.now) ≤ 400 }
    {
        self.filled += write_log_line(commit, &mut self.bytes[self.filled..]);
    }

    pub fn clear(&mut self)
        ensures { self.new ≡ [] }
    {
        self.filled = 0;
    }
}
