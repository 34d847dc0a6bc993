// What has left the program as a round begins.
use super::*;
use outside::{Failed, Gate, Sink};
use std::sync::atomic::{AtomicU64, Ordering};

// A sink that counts the bytes which it is handed, for whoever looks on.
#[derive(Drop)]
struct Counter<'a> {
    written: &'a AtomicU64,
}

impl Sink for Counter<'_> {
    ghost use Rattle.std.specs.Prelude.{None};

    ghost held = { λ _. None };

    ghost faults = { λ _. 0 };

    fn faults(&self) -> u64 {
        0
    }

    fn write(&mut self, bytes: &[u8]) -> Result<(), Failed> {
        let _before = self.written.fetch_add(bytes.len() as u64, Ordering::SeqCst);
        Ok(())
    }
}

// A gate that notes as each round begins how many bytes were written by then, three digits for each round.
#[derive(Drop)]
struct Onlooker<'a> {
    written: &'a AtomicU64,
    seen: AtomicU64,
}

impl Gate for Onlooker<'_> {
    fn before(&self, _worker: u8, _line: u32) {}

    fn after(&self, _worker: u8, _line: u32) {}

    fn begins(&self, _round: usize, _rounds: usize) {
        let before = self.seen.load(Ordering::SeqCst);
        let written = self.written.load(Ordering::SeqCst);
        self.seen.store(
            before.wrapping_mul(1000).wrapping_add(written),
            Ordering::SeqCst,
        );
    }
}

const SCRIPT: &[u8] = b"array 1 4\n0 w 1 0 5\njoin\n0 r 1 0\njoin\n0 r 1 0\n";

// The status of a run over a fresh database, whose bytes are counted. What is made for it is lent: what is owned at a
// `?` costs a proof.
fn status_of<R: Threads + Wait + Sync + AllocGlobal>(
    rt: &R,
    words: &[&str],
    source: &mut SureSource,
    gate: &Onlooker<'_>,
) -> Result<u8, Fail> {
    let mut sink = Counter {
        written: gate.written,
    };
    let mut vault = fresh_vault(rt.alloc())?;
    ended(rt, words, source, &mut sink, &mut vault, gate)
}

fn run_counted<R: Threads + Wait + Sync + AllocGlobal>(
    rt: &R,
    gate: &Onlooker<'_>,
) -> Result<u8, Fail> {
    let words = words(rt.alloc(), "run")?;
    let mut source = SureSource::new(SCRIPT.to_vec(rt.alloc())?);
    status_of(rt, &words, &mut source, gate)
}

// The lines of a round are written before the next one begins: a stop from outside leaves no durable epoch untold. They
// have 21 bytes, 23 and 23.
#[test]
fn a_round_is_written_before_the_next_one(rt: HostRuntime) -> Result<(), Fail> {
    let written = AtomicU64::new(0);
    let gate = Onlooker {
        written: &written,
        seen: AtomicU64::new(0),
    };
    is_so("a run", run_counted(&rt, &gate)? == 0)?;
    is_so(
        "what was written",
        gate.seen.load(Ordering::SeqCst) == 21_044,
    )?;
    is_so("all that was written", written.load(Ordering::SeqCst) == 67)
}
