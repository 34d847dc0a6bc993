// How far a run is, shown where errors are told.

use outside::{Failed, Gate, Sink};
use std::io::{IsTerminal, Stderr, Write};
use std::sync::atomic::{AtomicU64, Ordering};
use std::time::{Clock, Instant};

// The clock is looked at once in so many lines of the script.
const LINES: u64 = 4_096;

/// Counts the lines of the script that are run. Where standard error is a terminal it shows which round of how many is
/// run, how many lines were, and the seconds since the call began, once a second, in one line of the terminal that is
/// written again.
#[derive(Drop)]
pub struct Progress<'a, R: Clock> {
    rt: &'a R,
    errors: Stderr,
    // None where nothing is shown.
    begin: Option<Instant>,
    // The round that is run, from 1 on, and how many there are.
    round: AtomicU64,
    rounds: AtomicU64,
    // The lines that were run, of all workers and of the maintenance thread.
    lines: AtomicU64,
    // The seconds that are shown, 0 where nothing stands on the terminal.
    seconds: AtomicU64,
}

impl<'a, R: Clock> Progress<'a, R> {
    pub fn new(rt: &'a R, errors: Stderr) -> Self {
        let begin = if errors.is_terminal() {
            Instant::now(rt).ok()
        } else {
            None
        };
        Progress {
            rt,
            errors,
            begin,
            round: AtomicU64::new(0),
            rounds: AtomicU64::new(0),
            lines: AtomicU64::new(0),
            seconds: AtomicU64::new(0),
        }
    }

    // Shows how far the run is, where a second more has passed.
    fn show(&self, begin: Instant) {
        let Ok(elapsed) = begin.elapsed(self.rt) else {
            return;
        };
        let seconds = elapsed.as_secs();
        if seconds > self.seconds.load(Ordering::SeqCst) {
            self.seconds.store(seconds, Ordering::SeqCst);
            self.tell(seconds);
        }
    }

    fn tell(&self, seconds: u64) {
        let (round, rounds) = (
            self.round.load(Ordering::SeqCst),
            self.rounds.load(Ordering::SeqCst),
        );
        let lines = self.lines.load(Ordering::SeqCst);
        let mut errors = &self.errors;
        let _ = write!(
            errors,
            "\r\x1b[Kround {round} of {rounds}, {lines} lines, {seconds} s"
        );
    }

    /// Takes away what is shown.
    pub fn take_away(&self) {
        if self.seconds.swap(0, Ordering::SeqCst) > 0 {
            let mut errors = &self.errors;
            let _ = errors.write_all(b"\r\x1b[K");
        }
    }
}

impl<'a, R: Clock> Gate for Progress<'a, R> {
    fn before(&self, _worker: u8, _line: u32) {}

    fn after(&self, _worker: u8, _line: u32) {
        let Some(begin) = self.begin else {
            return;
        };
        let lines = self.lines.fetch_add(1, Ordering::SeqCst).wrapping_add(1);
        if lines % LINES == 0 {
            self.show(begin);
        }
    }

    fn begins(&self, round: usize, rounds: usize) {
        self.round.store(round as u64, Ordering::SeqCst);
        self.rounds.store(rounds as u64, Ordering::SeqCst);
    }
}

/// A sink, before whose bytes the progress is taken away, as they may go to the same terminal.
#[derive(Drop)]
pub struct Cleared<'a, 'b, R: Clock, K: Sink + Drop> {
    progress: &'a Progress<'b, R>,
    sink: K,
}

impl<'a, 'b, R: Clock, K: Sink + Drop> Cleared<'a, 'b, R, K> {
    pub fn new(progress: &'a Progress<'b, R>, sink: K) -> Self {
        Cleared { progress, sink }
    }
}

impl<'a, 'b, R: Clock, K: Sink + Drop> Sink for Cleared<'a, 'b, R, K> {
    ghost held = { λ cleared. K.held cleared.sink };

    ghost faults = { λ cleared. K.faults cleared.sink };

    fn faults(&self) -> u64 {
        self.sink.faults()
    }

    fn write(&mut self, bytes: &[u8]) -> Result<(), Failed> {
        self.progress.take_away();
        self.sink.write(bytes)
    }
}
