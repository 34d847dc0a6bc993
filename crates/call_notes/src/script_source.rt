// A source of a script, of which the front can be told again where a line is faulty.
ghost use Rattle.std.specs.Prelude.{◌≡◌};

use outside::{Failed, Source};
use std::alloc::Global;

// As many bytes of a script are kept. Whoever writes a script by hand writes less, and no copy is made of a long one.
const MOST_KEPT: usize = 1_048_576;

// The longest script.
const LONGEST: u64 = 67_108_864;

/// What is still known of the bytes that a source gave.
pub trait Remembers {
    /// The first of the bytes, in whole lines where there were more; none, where there were more than a script has.
    fn front(&self) -> &[u8];

    /// Whether the front is all that was read.
    fn is_whole(&self) -> bool;

    /// How many of the lines are those of transactions, which begin with a digit.
    fn lines(&self) -> u64;

    /// Whether a person types the bytes, as far as is known.
    fn is_typed(&self) -> bool;
}

/// A source that keeps the front of the bytes that it gave.
#[derive(Drop)]
pub struct ScriptSource<S: Source + Drop> {
    source: S,
    front: Vec<u8>,
    is_whole: bool,
    is_typed: bool,
    // The bytes that were read.
    count: u64,
    lines: LineStarts,
}

// How many lines began with a digit so far, and whether the next byte begins a line.
#[derive(Clone, Copy)]
struct LineStarts {
    count: u64,
    is_start: bool,
}

impl LineStarts {
    // With bytes that go on where those before them ended.
    fn with(self, bytes: &[u8]) -> Self {
        let Some(first) = bytes.first() else {
            return self;
        };
        let begins = self.is_start && first.is_ascii_digit();
        let more = u64::from(begins).wrapping_add(u64::from(starts_in(bytes)));
        LineStarts {
            count: self.count.saturating_add(more),
            is_start: bytes.ends_with(b"\n"),
        }
    }
}

// How many of the bytes behind the first are digits that begin a line. All of a script passes here, on one thread, so
// it is a sum without a branch.
fn starts_in(bytes: &[u8]) -> u32 {
    let mut count: u32 = 0;
    for at in 1..bytes.len() {
        let begins = (bytes[at - 1] == b'\n') & bytes[at].is_ascii_digit();
        count = count.wrapping_add(u32::from(begins));
    }
    count
}

impl<S: Source + Drop> ScriptSource<S> {
    pub fn new(alloc: Global, source: S, is_typed: bool) -> Self
        ensures left { ⟦<ScriptSource<S> as Source>⟧.left result ≡ S.left source }
        ensures faults { ⟦<ScriptSource<S> as Source>⟧.faults result ≡ S.faults source }
    {
        ScriptSource {
            source,
            front: Vec::new(alloc),
            is_whole: true,
            is_typed,
            count: 0,
            lines: LineStarts {
                count: 0,
                is_start: true,
            },
        }
    }
}

// Keeps bytes behind the front, as far as there is room, and answers whether all are kept.
fn keep(front: &mut Vec<u8>, bytes: &[u8]) -> bool {
    if bytes.len() > MOST_KEPT.saturating_sub(front.len()) {
        return false;
    }
    front.extend_from_slice(bytes).is_ok()
}

// The front up to its last newline.
fn whole_lines(front: &[u8]) -> &[u8] {
    match front.iter().rposition(|byte| *byte == b'\n') {
        Some(at) => &front[..at],
        None => &[],
    }
}

impl<S: Source + Drop> Remembers for ScriptSource<S> {
    fn front(&self) -> &[u8] {
        if self.is_whole {
            return &self.front;
        }
        if self.count > LONGEST {
            return &[];
        }
        whole_lines(&self.front)
    }

    fn is_whole(&self) -> bool {
        self.is_whole
    }

    fn lines(&self) -> u64 {
        self.lines.count
    }

    fn is_typed(&self) -> bool {
        self.is_typed
    }
}

impl<S: Source + Drop> Source for ScriptSource<S> {
    ghost left = { λ source. S.left source.source };

    ghost faults = { λ source. S.faults source.source };

    fn faults(&self) -> u64 {
        self.source.faults()
    }

    fn read(&mut self, buf: &mut [u8]) -> Result<usize, Failed> {
        let count = self.source.read(buf)?;
        self.count = self.count.saturating_add(count as u64);
        self.lines = self.lines.with(&buf[..count]);
        if self.is_whole {
            self.is_whole = keep(&mut self.front, &buf[..count]);
        }
        Ok(count)
    }
}
