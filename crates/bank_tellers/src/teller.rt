// A teller: a worker's pass with its transactions.
ghost use Rattle.std.specs.Prelude.{◌≡◌, ◌<◌, true};
ghost use Rattle.page_commit.specs.Below.{IsArrayKey};
ghost use Rattle.bank_tellers.specs.Standing.{accounts, Stands};

use engine_pages::{Engine, Pass};
use page_commit::Txn;
use serial_model::{Key, Verdict};
use std::thread::yield_now;

/// How many accounts there are, from 0 on.
pub const ACCOUNTS: u64 = 8;

// How often a transaction is tried.
const TRIES: u32 = 10_000;

/// A worker's pass, and how many of its transactions committed.
#[derive(Drop)]
pub struct Teller {
    pub txn: Txn,
    pub pass: Pass,
    pub done: u64,
}

fn account(number: u64) -> Key
    ensures { IsArrayKey accounts result }
{
    Key {
        storage: 1,
        key: number % ACCOUNTS,
    }
}

impl Teller {
    /// Moves 1 from account to account, so many times.
    pub fn transfer(&mut self, engine: &Engine, first: u64, times: u64)
        requires { Stands engine.now self.old }
        ensures { Stands engine.now self.new }
    {
        for i in 0..times {
            self.insist(
                engine,
                first.wrapping_add(i),
                first.wrapping_add(i).wrapping_mul(5),
            );
        }
    }

    /// What all accounts have, as one transaction sees it, or None where others were in its way at each try.
    pub fn total(&mut self, engine: &Engine) -> Option<u64>
        requires { Stands engine.now self.old }
        ensures { Stands engine.now self.new }
    {
        for _ in 0..TRIES {
            if let Some(total) = self.try_total(engine) {
                return Some(total);
            }
            yield_now();
        }
        None
    }

    /// Gives each account this much.
    pub fn endow(&mut self, engine: &Engine, amount: u64)
        requires { Stands engine.now self.old }
        ensures { Stands engine.now self.new }
    {
        for number in 0..ACCOUNTS {
            self.give(engine, number, amount);
        }
    }

    fn give(&mut self, engine: &Engine, number: u64, amount: u64)
        requires { Stands engine.now self.old }
        ensures { Stands engine.now self.new }
    {
        let Ok(()) = self.txn.begin(engine, &mut self.pass) else {
            return;
        };
        let Ok(()) = self
            .txn
            .write(engine, &mut self.pass, account(number), amount)
        else {
            return;
        };
        if self.txn.commit_number(engine, &mut self.pass, true).is_ok() {
            self.done = self.done.saturating_add(1);
        }
    }

    fn insist(&mut self, engine: &Engine, from: u64, to: u64)
        requires { Stands engine.now self.old }
        ensures { Stands engine.now self.new }
    {
        for _ in 0..TRIES {
            if self.try_transfer(engine, from, to) {
                self.done = self.done.saturating_add(1);
                return;
            }
            yield_now();
        }
    }

    // Takes 1 from one account and adds it to another. Where there is nothing to take, all stays as it was.
    fn try_transfer(&mut self, engine: &Engine, from: u64, to: u64) -> bool
        requires { Stands engine.now self.old }
        ensures { Stands engine.now self.new }
    {
        let Ok(()) = self.txn.begin(engine, &mut self.pass) else {
            return false;
        };
        let Ok(taken) = self.txn.take(engine, &mut self.pass, account(from), 1) else {
            return false;
        };
        let Verdict::Done = taken else {
            return self
                .txn
                .commit_number(engine, &mut self.pass, false)
                .is_ok();
        };
        let Ok(added) = self.txn.add(engine, &mut self.pass, account(to), 1) else {
            return false;
        };
        let Verdict::Done = added else {
            return self
                .txn
                .commit_number(engine, &mut self.pass, false)
                .is_ok();
        };
        self.txn.commit_number(engine, &mut self.pass, true).is_ok()
    }

    fn try_total(&mut self, engine: &Engine) -> Option<u64>
        requires { Stands engine.now self.old }
        ensures { Stands engine.now self.new }
    {
        let Ok(()) = self.txn.begin(engine, &mut self.pass) else {
            return None;
        };
        let mut total: u64 = 0;
        for number in 0..ACCOUNTS {
            match self.txn.read(engine, &mut self.pass, account(number)) {
                Ok(value) => total = total.saturating_add(value),
                Err(_) => return None,
            }
        }
        let Ok(_) = self.txn.commit_number(engine, &mut self.pass, false) else {
            return None;
        };
        self.done = self.done.saturating_add(1);
        Some(total)
    }
}
