// An engine with its keeper and its hands.
ghost use Rattle.std.specs.List.{AllByRecursion};
ghost use Rattle.txn_tests.specs.Standing.{HandStands};

use crate::seating::{bounded, hand_next, new_engine};
use crate::slots::work;
use crate::{Deed, Gave, Hand, Plan};
use engine_pages::{Engine, Pass};
use lists::Memory;
use std::alloc::Global;
use std::marker::Model;
use std::thread::{Threads, for_each_mut};

/// Contracts see it as the number of its hands.
#[derive(Drop)]
pub struct Hands {
    engine: Engine,
    keeper: Pass,
    hands: Vec<Hand>,
}

impl Model for Hands {
    ghost use Rattle.std.specs.Prelude.{ℕ, length};
    ghost use Rattle.txn_tests.specs.Standing.{AreHands};

    ghost Value = { ℕ };

    ghost view = { λ h. length h.hands.items };

    ghost invariant = { λ h. AreHands h.engine h.keeper h.hands.items };
}

impl Hands {
    /// So many hands, eight at most, of a new engine with so many slots. None has a slot.
    pub fn new(alloc: Global, slots: u32, count: u8) -> Result<Hands, Memory> {
        let bounds = bounded(Plan {
            size: 1,
            slots,
            draw: 1,
        });
        let (engine, mut keeper) = new_engine(alloc, bounds)?;
        let mut hands = Vec::new(alloc);
        for number in 0..count.min(8) {
            hands.push(hand_next(&engine, &mut keeper, number, bounds.size))?;
        }
        Ok(Hands {
            engine,
            keeper,
            hands,
        })
    }

    /// A hand does what it is asked for.
    pub fn act(&mut self, hand: usize, deed: Deed) -> Gave {
        if hand >= self.hands.len() {
            return Gave::Wrong;
        }
        self.hands[hand].act(&self.engine, deed)
    }

    /// Each hand works so many rounds in a thread of its own: takes slots and gives them up, or watches one.
    pub fn work_in_threads<R: Threads + Sync>(&mut self, rt: &R, rounds: u32) {
        work_all(rt, &self.engine, &mut self.hands, rounds);
    }

    /// How often a hand was given a slot, and how often a slot was given while it held it.
    pub fn counts(&self, hand: usize) -> (u64, u64) {
        if hand >= self.hands.len() {
            return (0, 0);
        }
        (self.hands[hand].given, self.hands[hand].lost)
    }
}

fn work_all<R: Threads + Sync>(rt: &R, engine: &Engine, hands: &mut [Hand], rounds: u32)
    requires { AllByRecursion (HandStands engine.now) hands.old }
    ensures { AllByRecursion (HandStands engine.now) hands.new }
{
    let count = hands.len();
    if count == 0 {
        return;
    }
    for_each_mut(
        rt,
        hands,
        count,
        &|i: usize, hand: &mut Hand|
            requires { HandStands engine.now hand.now }
            ensures { HandStands engine.entry.now hand.exit.now }
        { work(hand, engine, i, rounds) },
    );
}
