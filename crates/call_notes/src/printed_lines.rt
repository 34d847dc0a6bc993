// A sink that counts which of the lines that pass it tell of transactions that didn't commit.
ghost use Rattle.std.specs.Prelude.{◌≡◌};

use decimals::number_of;
use outside::{Failed, Sink};

// The lines that are counted have fewer bytes.
const MOST_KEPT: usize = 32;

/// What the lines that were printed tell of transactions that didn't commit.
#[derive(Clone, Copy)]
pub struct Printed {
    /// How many lines say that no slot was free.
    pub full: u64,
    /// How many lines say that a transaction met more than one can keep.
    pub wide: u64,
    /// How many transactions committed, where that is printed in place of their lines.
    pub commits: Option<u64>,
}

/// What is known of the lines that a sink was handed.
pub trait Counts {
    /// What the whole lines so far tell.
    fn printed(&self) -> Printed;
}

// The front of the line whose end wasn't handed over yet, how many of its bytes are kept, and what those before tell.
#[derive(Drop)]
struct LineCounter {
    front: [u8; MOST_KEPT],
    length: usize,
    printed: Printed,
}

impl LineCounter {
    fn new() -> Self {
        LineCounter {
            front: [0; MOST_KEPT],
            length: 0,
            printed: Printed {
                full: 0,
                wide: 0,
                commits: None,
            },
        }
    }

    // Takes bytes that go on where those before them ended. All that is printed passes here, on one thread, so of a
    // line no more is looked at than its end and what is kept.
    fn take(&mut self, bytes: &[u8]) {
        for (index, part) in bytes.split(|byte| *byte == b'\n').enumerate() {
            if index > 0 {
                self.end_line();
            }
            self.take_part(part);
        }
    }

    // Takes bytes of one line. One that is longer than those that are counted isn't looked at.
    fn take_part(&mut self, bytes: &[u8]) {
        if bytes.len() >= MOST_KEPT.saturating_sub(self.length) {
            self.length = MOST_KEPT;
            return;
        }
        for byte in bytes {
            if self.length >= MOST_KEPT {
                return;
            }
            self.front[self.length] = *byte;
            self.length = self.length.saturating_add(1);
        }
    }

    fn end_line(&mut self) {
        if self.length < MOST_KEPT {
            self.printed = counted(self.printed, &self.front[..self.length]);
        }
        self.length = 0;
    }
}

// What the lines tell with this one behind them.
fn counted(printed: Printed, line: &[u8]) -> Printed {
    let mut printed = printed;
    if line.ends_with(b" full") {
        printed.full = printed.full.saturating_add(1);
    } else if line.ends_with(b" wide") {
        printed.wide = printed.wide.saturating_add(1);
    } else if let Some(number) = line.strip_prefix(b"commits ") {
        printed.commits = number_of(number);
    }
    printed
}

/// A sink that hands on what it is handed, and counts the lines.
#[derive(Drop)]
pub struct CountingSink<K: Sink + Drop> {
    sink: K,
    lines: LineCounter,
}

impl<K: Sink + Drop> CountingSink<K> {
    /// Over a sink, with no line yet.
    pub fn new(sink: K) -> Self
        ensures held { ⟦<CountingSink<K> as Sink>⟧.held result ≡ K.held sink }
        ensures faults { ⟦<CountingSink<K> as Sink>⟧.faults result ≡ K.faults sink }
    {
        CountingSink {
            sink,
            lines: LineCounter::new(),
        }
    }

    /// The sink that the bytes go to.
    pub fn sink(&self) -> &K
        ensures held { K.held result.now ≡ ⟦<CountingSink<K> as Sink>⟧.held self.now }
    {
        &self.sink
    }
}

impl<K: Sink + Drop> Counts for CountingSink<K> {
    fn printed(&self) -> Printed {
        self.lines.printed
    }
}

impl<K: Sink + Drop> Sink for CountingSink<K> {
    ghost held = { λ counting. K.held counting.sink };

    ghost faults = { λ counting. K.faults counting.sink };

    fn faults(&self) -> u64 {
        self.sink.faults()
    }

    fn write(&mut self, bytes: &[u8]) -> Result<(), Failed> {
        self.lines.take(bytes);
        self.sink.write(bytes)
    }
}
