// An engine with its keeper and its workers.
ghost use Rattle.std.specs.List.{AllByRecursion};
ghost use Rattle.engine_pages.specs.Passes.{view, IsPassOf};
ghost use Rattle.page_commit.specs.Live.{IsOver};
ghost use Rattle.txn_tests.specs.Standing.{IsKeeper, Stands};

use crate::plays::{further, repeat};
use crate::seating::{bounded, drop_pages, new_engine, seat_next};
use crate::{Answer, Call, Phase, Plan, Work, Worker};
use engine_pages::{Engine, Pass};
use engine_seats::{audit, end};
use lists::Memory;
use serial_model::Change;
use std::alloc::Global;
use std::marker::Model;
use std::thread::{Threads, for_each_mut};

/// Contracts see it as the number of its workers.
#[derive(Drop)]
pub struct Workers {
    engine: Engine,
    keeper: Pass,
    workers: Vec<Worker>,
}

impl Model for Workers {
    ghost use Rattle.std.specs.Prelude.{ℕ, length};
    ghost use Rattle.txn_tests.specs.Standing.{AreWorkers};

    ghost Value = { ℕ };

    ghost view = { λ c. length c.workers.items };

    ghost invariant = { λ c. AreWorkers c.engine c.keeper c.workers.items };
}

impl Workers {
    /// So many workers, eight at most, of a new engine without a page. None has a transaction.
    pub fn new(alloc: Global, plan: Plan, count: u8) -> Result<Workers, Memory> {
        let bounds = bounded(plan);
        let (engine, mut keeper) = new_engine(alloc, bounds)?;
        let mut workers = Vec::new(alloc);
        for number in 0..count.min(8) {
            workers.push(seat_next(&engine, &mut keeper, number, bounds.size))?;
        }
        Ok(Workers {
            engine,
            keeper,
            workers,
        })
    }

    /// Makes the call of a worker, or the keeper's, whoever is asked.
    pub fn play(&mut self, worker: usize, call: Call) -> Answer {
        if let Call::Drop = call {
            return self.drop_pages();
        }
        if worker >= self.workers.len() {
            return Answer::Wrong;
        }
        self.workers[worker].play(&self.engine, call)
    }

    fn drop_pages(&mut self) -> Answer {
        let found = drop_pages(&self.engine, &mut self.keeper);
        Answer::Dropped(found.dropped, found.kept, found.first)
    }

    /// A worker does the work so many times.
    pub fn repeat(&mut self, worker: usize, work: Work, rounds: u32) {
        if worker >= self.workers.len() {
            return;
        }
        repeat(&mut self.workers[worker], &self.engine, work, rounds);
    }

    /// Each worker adds to two keys so many times, in a thread of its own: to keys of its own, or all to 0 and 1.
    pub fn add_in_threads<R: Threads + Sync>(&mut self, rt: &R, rounds: u32, apart: bool) {
        self.work_in_threads(rt, Work::AddTwo(0), rounds, apart);
    }

    /// Each worker does the work so many times, in a thread of its own: from keys of its own on, or all from the same.
    pub fn work_in_threads<R: Threads + Sync>(
        &mut self,
        rt: &R,
        work: Work,
        rounds: u32,
        apart: bool,
    ) {
        work_all(rt, &self.engine, &mut self.workers, work, rounds, apart);
    }

    /// How often the worker has done its work.
    pub fn done(&self, worker: usize) -> u64 {
        if worker >= self.workers.len() {
            return 0;
        }
        self.workers[worker].done
    }

    /// The change at this place of what the worker's last commit wrote.
    pub fn change(&self, worker: usize, at: usize) -> Option<Change> {
        if worker >= self.workers.len() {
            return None;
        }
        self.workers[worker].change(at)
    }

    /// Ends the workers whose transactions are over into the keeper, the last one first. Answers the clock's word, and
    /// how many transactions committed.
    pub fn close(self) -> (u64, u64) {
        let Workers {
            engine,
            mut keeper,
            mut workers,
        } = self;
        while let Some(worker) = workers.pop() {
            end_one(&engine, &mut keeper, worker);
        }
        audit(&engine, &mut keeper)
    }
}

fn end_one(engine: &Engine, keeper: &mut Pass, worker: Worker)
    requires keeper { IsKeeper engine.now keeper.old }
    requires worker { Stands engine.now worker }
    ensures { IsKeeper engine.now keeper.new }
{
    if let Phase::Over = worker.phase {
        end_pass(engine, keeper, worker.pass);
    }
}

fn end_pass(engine: &Engine, keeper: &mut Pass, pass: Pass)
    requires keeper { IsKeeper engine.now keeper.old }
    requires of { IsPassOf engine.now pass }
    requires over { IsOver (view pass) }
    ensures { IsKeeper engine.now keeper.new }
{
    end(engine, keeper, pass);
}

fn work_all<R: Threads + Sync>(
    rt: &R,
    engine: &Engine,
    workers: &mut [Worker],
    work: Work,
    rounds: u32,
    apart: bool,
)
    requires { AllByRecursion (Stands engine.now) workers.old }
    ensures { AllByRecursion (Stands engine.now) workers.new }
{
    let count = workers.len();
    if count == 0 {
        return;
    }
    for_each_mut(
        rt,
        workers,
        count,
        &|i: usize, worker: &mut Worker|
            requires { Stands engine.now worker.now }
            ensures { Stands engine.entry.now worker.exit.now }
        {
            repeat(
                worker,
                engine,
                further(work, first_of(i, worker.size, apart)),
                rounds,
            )
        },
    );
}

// The workers' keys lie 16 apart, in other lines of memory, or as far as the array has room.
fn first_of(worker: usize, size: u32, apart: bool) -> u64 {
    if apart {
        worker as u64 % 8 * u64::from(size / 16).clamp(2, 16)
    } else {
        0
    }
}
