// A hand whose slots are driven call by call.
ghost use Rattle.txn_tests.specs.Standing.{HandStands};

use crate::{Hand, Slot};
use engine_pages::{Engine, look};
use page_pool::{PoolRefusal, enter, give, leave, publish_blank, retire};
use std::thread::yield_now;

/// What a hand is asked for.
#[derive(Clone, Copy, Debug, PartialEq, Eq)]
pub enum Deed {
    /// Takes the first usable slot, where it has none.
    Give,
    /// Publishes the slot that it was given, as no page.
    Publish,
    /// Gives up the slot that it published.
    Retire,
    /// Holds this slot, where it holds none.
    Enter(u32),
    /// Holds it no more.
    Leave,
    /// Looks at the word of this slot.
    Look(u32),
}

#[derive(Clone, Copy, Debug, PartialEq, Eq)]
pub enum Gave {
    Fine,
    /// The slot that was given.
    Slot(u32),
    /// The slot's word.
    Word(u64),
    /// No slot is usable; the lowest one that is retired, with its word.
    Full(Option<(u32, u64)>),
    /// The first usable slot was changed meanwhile.
    Changed,
    /// That may not be done where the hand stands.
    Wrong,
}

impl Hand {
    /// Does what it is asked for.
    pub fn act(&mut self, engine: &Engine, deed: Deed) -> Gave
        requires { HandStands engine.now self.old }
        ensures { HandStands engine.now self.new }
    {
        match deed {
            Deed::Give => give_slot(self, engine),
            Deed::Publish => publish_slot(self, engine),
            Deed::Retire => retire_slot(self, engine),
            Deed::Enter(slot) => enter_slot(self, engine, slot),
            Deed::Leave => leave_slot(self, engine),
            Deed::Look(slot) => look_at(self, engine, slot),
        }
    }

    /// Takes a slot, publishes it and gives it up.
    fn take_turn(&mut self, engine: &Engine)
        requires { HandStands engine.now self.old }
        ensures { HandStands engine.now self.new }
    {
        self.act(engine, Deed::Give);
        self.act(engine, Deed::Publish);
        self.act(engine, Deed::Retire);
    }

    /// Holds the slot, and counts it as lost where it was given meanwhile.
    fn watch(&mut self, engine: &Engine, slot: u32)
        requires { HandStands engine.now self.old }
        ensures { HandStands engine.now self.new }
    {
        self.act(engine, Deed::Enter(slot));
        let before = times(self.act(engine, Deed::Look(slot)));
        yield_now();
        let after = times(self.act(engine, Deed::Look(slot)));
        if before != after {
            self.lost = self.lost.saturating_add(1);
        }
        self.act(engine, Deed::Leave);
    }
}

fn give_slot(hand: &mut Hand, engine: &Engine) -> Gave
    requires { HandStands engine.now hand.old }
    ensures { HandStands engine.now hand.new }
{
    let Slot::None = hand.own else {
        return Gave::Wrong;
    };
    match give(engine, &mut hand.pass) {
        Ok(slot) => {
            hand.own = Slot::Own(slot);
            hand.given = hand.given.saturating_add(1);
            Gave::Slot(slot)
        }
        Err(why) => gave_none(why),
    }
}

fn publish_slot(hand: &mut Hand, engine: &Engine) -> Gave
    requires { HandStands engine.now hand.old }
    ensures { HandStands engine.now hand.new }
{
    let Slot::Own(slot) = hand.own else {
        return Gave::Wrong;
    };
    publish_blank(engine, &mut hand.pass, slot);
    hand.own = Slot::Put(slot);
    Gave::Fine
}

fn retire_slot(hand: &mut Hand, engine: &Engine) -> Gave
    requires { HandStands engine.now hand.old }
    ensures { HandStands engine.now hand.new }
{
    let Slot::Put(slot) = hand.own else {
        return Gave::Wrong;
    };
    retire(engine, &mut hand.pass, slot);
    hand.own = Slot::None;
    Gave::Fine
}

fn enter_slot(hand: &mut Hand, engine: &Engine, slot: u32) -> Gave
    requires { HandStands engine.now hand.old }
    ensures { HandStands engine.now hand.new }
{
    if slot >= engine.slots() {
        return Gave::Wrong;
    }
    let None = hand.held else {
        return Gave::Wrong;
    };
    enter(engine, &mut hand.pass, slot);
    hand.held = Some(slot);
    Gave::Fine
}

fn leave_slot(hand: &mut Hand, engine: &Engine) -> Gave
    requires { HandStands engine.now hand.old }
    ensures { HandStands engine.now hand.new }
{
    let Some(slot) = hand.held else {
        return Gave::Wrong;
    };
    leave(engine, &mut hand.pass, slot);
    hand.held = None;
    Gave::Fine
}

fn look_at(hand: &mut Hand, engine: &Engine, slot: u32) -> Gave
    requires { HandStands engine.now hand.old }
    ensures { HandStands engine.now hand.new }
{
    if slot >= engine.slots() {
        return Gave::Wrong;
    }
    Gave::Word(look(engine, &mut hand.pass, slot))
}

fn gave_none(why: PoolRefusal) -> Gave {
    match why {
        PoolRefusal::Full { held } => Gave::Full(held),
        PoolRefusal::Changed { .. } => Gave::Changed,
    }
}

// How often the slot was given whose word this is.
fn times(gave: Gave) -> u64 {
    match gave {
        Gave::Word(word) => word >> 18,
        _ => 0,
    }
}

/// A hand with an even number takes slots and gives them up, so many times; one with an odd number watches a slot.
pub(crate) fn work(hand: &mut Hand, engine: &Engine, number: usize, rounds: u32)
    requires { HandStands engine.now hand.old }
    ensures { HandStands engine.now hand.new }
{
    for round in 0..rounds {
        if number % 2 == 0 {
            hand.take_turn(engine);
        } else {
            hand.watch(engine, round % 4);
        }
    }
}
