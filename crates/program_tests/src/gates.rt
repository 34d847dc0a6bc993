// The gate that is handed over.
use super::*;
use outside::Gate;
use std::sync::atomic::{AtomicU64, Ordering};

const BEFORE: u64 = 1;

const AFTER: u64 = 2;

// A gate that notes its calls in one number, which tells any other calls and any other order apart.
#[derive(Drop)]
struct Recording {
    turns: InTurn,
    calls: AtomicU64,
}

impl Recording {
    fn record(&self, moment: u64, worker: u8, line: u32) {
        let calls = self.calls.load(Ordering::SeqCst);
        self.calls
            .store(with_call(calls, moment, worker, line), Ordering::SeqCst);
    }
}

impl Gate for Recording {
    fn before(&self, worker: u8, line: u32) {
        self.turns.before(worker, line);
        self.record(BEFORE, worker, line);
    }

    fn after(&self, worker: u8, line: u32) {
        self.record(AFTER, worker, line);
        self.turns.after(worker, line);
    }
}

fn with_call(calls: u64, moment: u64, worker: u8, line: u32) -> u64 {
    calls
        .wrapping_mul(31)
        .wrapping_add(moment)
        .wrapping_mul(31)
        .wrapping_add(u64::from(worker))
        .wrapping_mul(31)
        .wrapping_add(u64::from(line))
}

// The worker and the count of each line, those of the maintenance thread last.
const GATED: [(u8, u32); 6] = [(0, 0), (0, 1), (1, 0), (1, 1), (255, 0), (255, 1)];

fn all_calls() -> u64 {
    let mut calls = 0;
    for (worker, line) in &GATED {
        calls = with_call(calls, BEFORE, *worker, *line);
        calls = with_call(calls, AFTER, *worker, *line);
    }
    calls
}

// The gate that was handed over is called round each line, with its worker and its count, then round those of the
// maintenance thread; and each join, also one without a line, makes an epoch durable.
#[test]
fn the_gate_stands_round_each_line(rt: HostRuntime) -> Result<(), Fail> {
    let script = b"array 1 4\n1 r 1 0\nk save\n0 w 1 0 5\n1 r 1 1\nk epoch\n0 r 1 0\njoin\njoin\n";
    let gate = Recording {
        turns: InTurn::of(rt.alloc(), script.as_slice())?,
        calls: AtomicU64::new(0),
    };
    let (status, text) = call(&rt, "run", script.as_slice(), 9, 9, &gate)?;
    is_so(
        "the calls",
        gate.calls.load(Ordering::SeqCst) == all_calls(),
    )?;
    let told =
        "0.0 ok 1:1\n0.1 ok 1:2 5\n1.0 ok 1:3 5\n1.1 ok 1:4 0\nk.0 save 0\nk.1 epoch 2\ndurable 2\ndurable 3\n";
    is_answer("a gate", (status, &text), (0, told.as_bytes()))
}
