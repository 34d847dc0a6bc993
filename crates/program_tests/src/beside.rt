// Lines of two threads at once: two workers', and the maintenance thread's beside a worker's.
use super::*;
use outside::Gate;
use std::sync::atomic::{AtomicU64, Ordering};

// A gate that holds the first line of each of two workers until the other's begins.
#[derive(Drop)]
struct Meeting {
    begun: [AtomicU64; 2],
    met: AtomicU64,
}

impl Gate for Meeting {
    fn before(&self, worker: u8, _line: u32) {
        let (mine, other) = if worker == 0 { (0, 1) } else { (1, 0) };
        self.begun[mine].store(1, Ordering::SeqCst);
        for _ in 0..1u64 << 30 {
            if self.begun[other].load(Ordering::SeqCst) == 1 {
                let _before = self.met.fetch_add(1, Ordering::SeqCst);
                return;
            }
        }
    }

    fn after(&self, _worker: u8, _line: u32) {}
}

#[test]
fn workers_overlap(rt: HostRuntime) -> Result<(), Fail> {
    let gate = Meeting {
        begun: [AtomicU64::new(0), AtomicU64::new(0)],
        met: AtomicU64::new(0),
    };
    let (status, _text) = call(&rt, "run", b"array 1 1\n0 r 1 0\n1 r 1 0\n", 9, 9, &gate)?;
    is_so(
        "two workers met",
        status == 0 && gate.met.load(Ordering::SeqCst) == 2,
    )
}

// A call of a gate: whether the line begins, its thread, and its count.
type Moment = (bool, u8, u32);

const BEGINS: bool = true;

const ENDS: bool = false;

// Holds lines as they begin, each until a call has been made, for some turns at most, and counts those that it held in
// vain.
#[derive(Drop)]
struct Held {
    // Which line waits for which call.
    waits: &'static [((u8, u32), Moment)],
    // A bit for each of these calls that was made.
    made: AtomicU64,
    missed: AtomicU64,
}

impl Held {
    fn of(waits: &'static [((u8, u32), Moment)]) -> Self {
        Held {
            waits,
            made: AtomicU64::new(0),
            missed: AtomicU64::new(0),
        }
    }

    // Notes a call.
    fn note(&self, moment: Moment) {
        let mut bit = 1u64;
        for (_, awaited) in self.waits {
            if *awaited == moment {
                let _before = self.made.fetch_or(bit, Ordering::SeqCst);
            }
            bit = bit.wrapping_mul(2);
        }
    }

    // Waits until this call was made.
    fn wait(&self, bit: u64) {
        for _ in 0..1u64 << 30 {
            if self.made.load(Ordering::SeqCst) & bit != 0 {
                return;
            }
        }
        let _before = self.missed.fetch_add(1, Ordering::SeqCst);
    }
}

impl Gate for Held {
    fn before(&self, worker: u8, line: u32) {
        self.note((BEGINS, worker, line));
        let mut bit = 1u64;
        for (held, _) in self.waits {
            if *held == (worker, line) {
                self.wait(bit);
            }
            bit = bit.wrapping_mul(2);
        }
    }

    fn after(&self, worker: u8, line: u32) {
        self.note((ENDS, worker, line));
    }
}

// Runs a script whose lines are held so, and compares its text; none is held in vain.
fn check_held<R: Threads + Wait + Sync + AllocGlobal>(
    rt: &R,
    waits: &'static [((u8, u32), Moment)],
    script: &str,
    text: &str,
) -> Result<(), Fail> {
    let alloc = rt.alloc();
    let gate = Held::of(waits);
    let script = lines(alloc, script)?;
    let (status, told) = call(rt, "run", &script, 9, 9, &gate)?;
    is_answer(text, (status, &told), (0, &lines(alloc, text)?))?;
    is_so(text, gate.missed.load(Ordering::SeqCst) == 0)
}

// Line 0.0 is held until k.0 begins, and the other way round.
#[test]
fn the_maintenance_thread_meets_a_worker(rt: HostRuntime) -> Result<(), Fail> {
    check_held(
        &rt,
        &[((0, 0), (BEGINS, 255, 0)), ((255, 0), (BEGINS, 0, 0))],
        "array 1 1|0 r 1 0|k save|",
        "0.0 ok 1:1 0|k.0 save 0|durable 1|",
    )
}

// An epoch and a save go by before the first line of a worker, which had looked at the clock: it holds back the epoch
// that it saw.
#[test]
fn a_save_goes_by_a_worker_that_has_not_begun(rt: HostRuntime) -> Result<(), Fail> {
    check_held(
        &rt,
        &[((255, 0), (BEGINS, 0, 0)), ((0, 0), (ENDS, 255, 1))],
        "array 1 1|0 a 1 0 1|k epoch|k save|",
        "0.0 ok 2:1|k.0 epoch 2|k.1 save 0|durable 2|",
    )
}

// The same of a worker that had no line in the round before: its mark, which was idle, is set before the maintenance
// thread begins.
#[test]
fn a_save_goes_by_a_worker_that_was_idle(rt: HostRuntime) -> Result<(), Fail> {
    check_held(
        &rt,
        &[((255, 0), (BEGINS, 0, 0)), ((0, 0), (ENDS, 255, 1))],
        "array 1 1|1 a 1 0 1|join|0 a 1 0 1|k epoch|k save|",
        "1.0 ok 1:1|durable 1|0.0 ok 3:2|k.0 epoch 3|k.1 save 1|durable 3|",
    )
}

// A worker that drew in the first epoch looks at the clock before its third line, and the save behind that has what it
// drew.
#[test]
fn a_save_has_what_a_worker_marked_meanwhile(rt: HostRuntime) -> Result<(), Fail> {
    check_held(
        &rt,
        &[
            ((255, 0), (ENDS, 0, 0)),
            ((0, 1), (ENDS, 255, 0)),
            ((255, 1), (BEGINS, 0, 2)),
        ],
        "array 1 1|0 a 1 0 1|0 a 1 0 1|0 a 1 0 1|k epoch|k save|",
        "0.0 ok 1:1|0.1 ok 2:2|0.2 ok 2:3|k.0 epoch 2|k.1 save 1|durable 2|",
    )
}

// A worker that is busy with a line of the first epoch holds it back, however far the clock goes on.
#[test]
fn a_worker_in_a_line_holds_its_epoch_back(rt: HostRuntime) -> Result<(), Fail> {
    check_held(
        &rt,
        &[((255, 0), (BEGINS, 0, 1)), ((0, 1), (ENDS, 255, 2))],
        "array 1 1|0 a 1 0 1|0 a 1 0 1|k epoch|k epoch|k save|",
        "0.0 ok 1:1|0.1 ok 3:2|k.0 epoch 2|k.1 epoch 3|k.2 save 0|durable 3|",
    )
}

// A snapshot is made and its page dropped between two lines of a worker: the second one puts a copy in anew.
#[test]
fn a_drop_goes_by_between_two_lines(rt: HostRuntime) -> Result<(), Fail> {
    check_held(
        &rt,
        &[((255, 0), (ENDS, 0, 0)), ((0, 1), (ENDS, 255, 1))],
        "array 1 4|1 w 1 2 7|join|0 r 1 2|0 a 1 2 1; r 1 2|k glean|k drop|join|k drop|",
        "1.0 ok 1:1|durable 1|0.0 ok 2:2 7|0.1 ok 2:3 8|k.0 snap 1 new 2|k.1 drop 1 kept 0|durable 2|k.0 drop 0 kept 1|\
durable 3|",
    )
}
