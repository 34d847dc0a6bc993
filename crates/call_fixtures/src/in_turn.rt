// A gate by which a script has one text.
use outside::Gate;
use std::alloc::{AllocError, Global};
use std::sync::atomic::{AtomicU64, Ordering};
use std::test::Fail;
use tx_script::{Round, read_script};

// The number by which the gate is told of the maintenance thread.
const KEEPER: u8 = 255;

/// A gate that lets one line run after another, worker 0's of a round first and the maintenance thread's last: then a
/// script has one text. Each line is waited for some turns at most, as one that isn't run never ends.
#[derive(Drop)]
pub struct InTurn {
    // All lines, in the order in which they are to run.
    order: Vec<(u8, u32)>,
    // How many of them are over.
    over: AtomicU64,
}

impl InTurn {
    /// Of a script; where the bytes are none there are no lines.
    pub fn of(alloc: Global, script: &[u8]) -> Result<Self, Fail> {
        let mut order = Vec::new(alloc);
        if let Ok(script) = read_script(alloc, script) {
            for index in 0..script.rounds() {
                add_lines(&mut order, &script.round(index))?;
            }
        }
        Ok(InTurn {
            order,
            over: AtomicU64::new(0),
        })
    }

    // Where this line stands among those that aren't over.
    fn place_of(&self, worker: u8, line: u32) -> u64 {
        let over = self.over.load(Ordering::SeqCst);
        for index in over..self.order.len() as u64 {
            if self.order.get(index as usize) == Some(&(worker, line)) {
                return index;
            }
        }
        over
    }
}

// The lines of a round, worker 0's first and the maintenance thread's last.
fn add_lines(order: &mut Vec<(u8, u32)>, round: &Round<'_>) -> Result<(), AllocError> {
    for worker in 0..8 {
        let mut line = 0u32;
        for index in 0..round.len() {
            if round.worker(index) == Some(worker) {
                order.push((worker, line))?;
                line = line.wrapping_add(1);
            }
        }
    }
    let mut line = 0u32;
    for index in 0..round.len() {
        if round.keeper(index).is_some() {
            order.push((KEEPER, line))?;
            line = line.wrapping_add(1);
        }
    }
    Ok(())
}

impl Gate for InTurn {
    fn before(&self, worker: u8, line: u32) {
        let place = self.place_of(worker, line);
        for _ in 0..1u64 << 30 {
            if self.over.load(Ordering::SeqCst) >= place {
                return;
            }
        }
    }

    fn after(&self, worker: u8, line: u32) {
        let place = self.place_of(worker, line);
        self.over.store(place.wrapping_add(1), Ordering::SeqCst);
    }
}
