// An engine with its keeper and its tellers.
ghost use Rattle.std.specs.Prelude.{◌≡◌, ◌+◌, ◌<◌, IfOk};
ghost use Rattle.std.specs.List.{AllByRecursion};
ghost use Rattle.bank_tellers.specs.Standing.{blank, CanSeat, IsKeeper, Stands};

use crate::teller::Teller;
use engine_pages::{Engine, Pass, Start};
use engine_seats::{audit, end, seat};
use lists::{Memory, Sequence};
use page_commit::Txn;
use page_opening::make;
use serial_model::{Decl, Number};
use std::alloc::Global;
use std::marker::Model;
use std::thread::{Threads, for_each_mut};

const TELLERS: u8 = 4;

// In how many pages records may lie in memory: all accounts lie in one.
const SLOTS: u32 = 16;

// What each account has at first, and how many transfers a teller makes.
const ENDOWMENT: u64 = 1_000;

const TRANSFERS: u64 = 2_000;

/// Contracts see it as the number of its tellers.
#[derive(Drop)]
pub struct Bank {
    engine: Engine,
    keeper: Pass,
    tellers: Vec<Teller>,
}

impl Model for Bank {
    ghost use Rattle.std.specs.Prelude.{ℕ, length};
    ghost use Rattle.bank_tellers.specs.Standing.{AreTellers};

    ghost Value = { ℕ };

    ghost view = { λ b. length b.tellers.items };

    ghost invariant = { λ b. AreTellers b.engine b.keeper b.tellers.items };
}

impl Bank {
    /// A bank whose accounts have 1,000 each, as its first teller gave them.
    pub fn new(alloc: Global) -> Result<Bank, Memory> {
        let (engine, mut keeper) = new_engine(alloc)?;
        let mut tellers = Vec::new(alloc);
        for number in 0..TELLERS {
            tellers.push(seat_next(&engine, &mut keeper, number))?;
        }
        endow(&engine, &mut tellers);
        Ok(Bank {
            engine,
            keeper,
            tellers,
        })
    }

    /// Each teller makes its transfers in a thread of its own.
    pub fn transfer_in_threads<R: Threads + Sync>(&mut self, rt: &R) {
        transfer_all(rt, &self.engine, &mut self.tellers);
    }

    /// What all accounts have, as a transaction sees it; 0 where it was refused at each try.
    pub fn total(&mut self) -> u64 {
        if self.tellers.is_empty() {
            return 0;
        }
        self.tellers[0].total(&self.engine).unwrap_or(0)
    }

    /// Ends the tellers into the keeper, the last one first. Answers how many transactions they committed, and how many
    /// the audit counts.
    pub fn close(self) -> (u64, u64) {
        let Bank {
            engine,
            mut keeper,
            mut tellers,
        } = self;
        let mut done: u64 = 0;
        while let Some(teller) = tellers.pop() {
            done = done.saturating_add(teller.done);
            end_one(&engine, &mut keeper, teller);
        }
        let (_clock, counted) = audit(&engine, &mut keeper);
        (done, counted)
    }
}

// An engine of one array of accounts, and the keeper's pass.
fn new_engine(alloc: Global) -> Result<(Engine, Pass), Memory>
    ensures { IfOk result (λ r. CanSeat r.0 0 r.1) }
{
    let start = new_start(alloc)?;
    let (engine, keeper) = make(alloc, start)?;
    Ok((engine, keeper))
}

// There is no page yet: each account has 0.
fn new_start(alloc: Global) -> Result<Start, Memory>
    ensures { IfOk result (λ s. s ≡ blank) }
{
    let decls = Sequence::from_slice(alloc, &[Decl::Array { id: 1, size: 8 }])?;
    let roots = Sequence::from_slice(alloc, &[0])?;
    let first = Number { epoch: 1, draw: 1 };
    Ok(Start::new(first, decls, roots, SLOTS, 0, Sequence::new(alloc)))
}

// The teller with this number.
fn seat_next(engine: &Engine, keeper: &mut Pass, number: u8) -> Teller
    requires can { CanSeat engine.now number keeper.old }
    requires number { number < 8 }
    ensures can { CanSeat engine.now (number + 1) keeper.new }
    ensures stands { Stands engine.now result }
{
    Teller {
        txn: Txn::new(),
        pass: seat(engine, keeper, number),
        done: 0,
    }
}

// Takes in a teller's pass, which has no transaction under way.
fn end_one(engine: &Engine, keeper: &mut Pass, teller: Teller)
    requires keeper { IsKeeper engine.now keeper.old }
    requires teller { Stands engine.now teller }
    ensures { IsKeeper engine.now keeper.new }
{
    end(engine, keeper, teller.pass);
}

// The first teller gives each account its endowment.
fn endow(engine: &Engine, tellers: &mut [Teller])
    requires { AllByRecursion (Stands engine.now) tellers.old }
    ensures { AllByRecursion (Stands engine.now) tellers.new }
{
    if let Some(teller) = tellers.first_mut() {
        teller.endow(engine, ENDOWMENT);
    }
}

fn transfer_all<R: Threads + Sync>(rt: &R, engine: &Engine, tellers: &mut [Teller])
    requires { AllByRecursion (Stands engine.now) tellers.old }
    ensures { AllByRecursion (Stands engine.now) tellers.new }
{
    let count = tellers.len();
    if count == 0 {
        return;
    }
    for_each_mut(
        rt,
        tellers,
        count,
        &|i: usize, teller: &mut Teller|
            requires { Stands engine.now teller.now }
            ensures { Stands engine.entry.now teller.exit.now }
        { teller.transfer(engine, i as u64, TRANSFERS) },
    );
}
