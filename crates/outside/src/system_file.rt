// A file of the system, with a count of its calls that failed.
ghost use Rattle.std.specs.Prelude.{◌≡◌, ◌≤◌, ◌+◌, ◌-◌, ◌^◌, length, min, IfOk, IsErr};
ghost use Rattle.outside.specs.Faults.{HasCause};

use crate::Failed;
use crate::answers::Answers;
use std::fs::File;
use std::io::{self, ErrorKind, Seek, SeekFrom};
use std::os::unix::fs::FileExt;

/// A file, of which each call is counted that the system refused. So a caller that passes over a refusal in silence
/// can't show that its own count stood still.
#[derive(Drop)]
pub(crate) struct SystemFile {
    file: File,
    pub(crate) answers: Answers,
}

impl SystemFile {
    pub(crate) fn new(file: File) -> Self
        ensures { result.answers.faults ≡ 0 }
    {
        SystemFile {
            file,
            answers: Answers::none(),
        }
    }

    pub(crate) fn cause(&self) -> Option<io::Error> {
        self.answers.cause()
    }

    pub(crate) fn len(&mut self) -> Result<u64, Failed>
        ensures cause { HasCause self.old.answers.faults self.new.answers.faults result }
        ensures asked { self.new.answers.count ≡ min (self.old.answers.count + 1) (2 ^ 64 - 1) }
    {
        let answer = self.file.seek(SeekFrom::End(0));
        self.answers.take(answer)
    }

    // The system may give less than there is.
    fn read_some(&mut self, at: u64, buf: &mut [u8]) -> Result<usize, Failed>
        ensures count { IfOk result (λ count. count ≤ length buf.old) }
        ensures cause { HasCause self.old.answers.faults self.new.answers.faults result }
        ensures asked { self.new.answers.count ≡ min (self.old.answers.count + 1) (2 ^ 64 - 1) }
    {
        let answer = read_once(&self.file, at, buf);
        self.answers.take(answer)
    }

    /// Fills the buffer as far as the file goes.
    pub(crate) fn read(&mut self, at: u64, buf: &mut [u8]) -> Result<usize, Failed>
        ensures count { IfOk result (λ count. count ≤ length buf.old) }
        ensures cause { HasCause self.old.answers.faults self.new.answers.faults result }
    {
        let mut count = 0;
        for _ in 0..u64::MAX {
            let more = self.read_some(at.wrapping_add(count as u64), &mut buf[count..])?;
            if more == 0 {
                break;
            }
            count += more;
        }
        Ok(count)
    }

    pub(crate) fn write(&mut self, at: u64, bytes: &[u8]) -> Result<(), Failed>
        ensures cause { HasCause self.old.answers.faults self.new.answers.faults result }
        ensures asked { self.new.answers.count ≡ min (self.old.answers.count + 1) (2 ^ 64 - 1) }
    {
        let answer = self.file.write_all_at(bytes, at);
        self.answers.take(answer)
    }

    fn set_len(&mut self, len: u64) -> Result<(), Failed>
        ensures cause { HasCause self.old.answers.faults self.new.answers.faults result }
        ensures asked { self.new.answers.count ≡ min (self.old.answers.count + 1) (2 ^ 64 - 1) }
    {
        let answer = self.file.set_len(len);
        self.answers.take(answer)
    }

    /// Asked to set a greater length, the system would make the file longer.
    pub(crate) fn cut(&mut self, len: u64) -> Result<(), Failed>
        ensures { HasCause self.old.answers.faults self.new.answers.faults result }
    {
        if len < self.len()? {
            return self.set_len(len);
        }
        Ok(())
    }

    pub(crate) fn sync(&mut self) -> Result<(), Failed>
        ensures cause { HasCause self.old.answers.faults self.new.answers.faults result }
        ensures asked { self.new.answers.count ≡ min (self.old.answers.count + 1) (2 ^ 64 - 1) }
    {
        let answer = self.file.sync_all();
        self.answers.take(answer)
    }

    /// Counts a call that isn't made.
    pub(crate) fn refuse(&mut self) -> Result<(), Failed>
        ensures refused { IsErr result }
        ensures cause { HasCause self.old.answers.faults self.new.answers.faults result }
    {
        self.answers.refuse()
    }
}

// Reads again where a signal interrupted it.
fn read_once(file: &File, at: u64, buf: &mut [u8]) -> io::Result<usize>
    ensures { IfOk result (λ count. count ≤ length buf.old) }
{
    for _ in 0..u64::MAX {
        match file.read_at(buf, at) {
            Err(error) if error.kind() == ErrorKind::Interrupted => {}
            answer => return answer,
        }
    }
    Err(io::Error::from(ErrorKind::Interrupted))
}
