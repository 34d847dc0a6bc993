// What all seats share.
ghost use Rattle.std.specs.Prelude.{◌≡◌, ◌<◌, ◌^◌, IfOk, OnOk, OnErr};
ghost use Rattle.commit_core.specs.Fill.{filled};
ghost use Rattle.std.specs.List.{find};
ghost use Rattle.std.specs.Option.{option_copied};
ghost use Rattle.homes.specs.Homes.{look, same_spot};
ghost use Rattle.commit_core.specs.Keys.{same_key};
ghost use Rattle.commit_core.specs.Places.{place_of, home_of, stands_at, stands, spot_of, spot_at, placed};
ghost use Rattle.commit_core.specs.CoreState.{clock_of, is_decided, is_given_up, is_in_progress, is_checked};
ghost use Rattle.commit_core.specs.CoreState.{attempt_tried, attempt_decided};
ghost use Rattle.commit_core.specs.Event.{all_checked, stays_as_seen};
ghost use Rattle.commit_core.specs.Serial.{committed};

use crate::attempt::copy_attempt;
use crate::place::put_place;
use crate::{Attempt, Check, Place, Stage, Word};
use homes::{Content, Holder, Home, Spot};
use lists::Sequence;
use serial_model::{Key, Memory, Number};
use std::alloc::Global;
use std::marker::Model;
use std::mem;

/// What stands at a key that nobody wrote.
pub const NOTHING: Content = Content {
    number: Number { epoch: 0, draw: 0 },
    value: None,
};

/// The shared state. The history and what was checked, decided and given up only grow.
#[derive(Drop)]
pub struct Story {
    /// Each attempt, in the order in which they took their numbers.
    pub history: Sequence<Attempt>,
    /// The parts that were checked.
    pub checks: Sequence<Check>,
    /// The numbers of the attempts that count, in the order in which that was decided.
    pub decided: Sequence<Number>,
    /// The numbers of the attempts that failed a check.
    pub given_up: Sequence<Number>,
    /// What stands in the places of slots' pages. Of equal places the first counts.
    pub places: Sequence<(Spot, Place)>,
    /// Where the records of keys are. Of equal keys the first counts, which is the latest.
    pub homes: Sequence<(Key, Home)>,
    /// The number of each absence that was lost, as a key moved from its record to where there is none, is at most
    /// this. No word of an engine has it.
    pub horizon: Number,
    /// The draw of the first number. Those of the others count on from it, so the clock's is this and the history's
    /// length.
    pub first_draw: FirstDraw,
    /// The clock's epoch.
    pub epoch: u32,
}

/// The draw of a first number: it fits the bits that a word has for draws.
#[derive(Drop)]
pub struct FirstDraw {
    draw: u64,
}

impl Model for FirstDraw {
    ghost use Rattle.std.specs.Prelude.{ℕ, ◌<◌, ◌^◌};

    ghost Value = { ℕ };

    ghost view = { λ f. f.draw };

    ghost invariant = { λ f. f.draw < 2 ^ 40 };
}

impl FirstDraw {
    pub fn new(draw: u64) -> Self
        requires { draw < 2 ^ 40 }
        ensures { result ≡ draw }
    {
        FirstDraw { draw }
    }

    pub fn get(&self) -> u64
        ensures value { result ≡ self.now }
        ensures bound { result < 2 ^ 40 }
    {
        self.draw
    }
}

impl Story {
    /// The next number to be taken.
    pub fn clock(&self) -> Number
        ensures { result ≡ clock_of self.now.first_draw self.now.epoch self.now.history }
    {
        Number {
            epoch: self.epoch,
            draw: self.first_draw.get() + self.history.len() as u64,
        }
    }

    pub fn is_decided(&self, number: Number) -> bool
        ensures { result ≡ is_decided self.now.decided number }
    {
        self.decided.as_slice().iter().any(|n| *n == number)
    }

    pub fn is_given_up(&self, number: Number) -> bool
        ensures { result ≡ is_given_up self.now.given_up number }
    {
        self.given_up.as_slice().iter().any(|n| *n == number)
    }

    /// Whether the attempt with this number is neither decided nor given up.
    pub fn is_in_progress(&self, number: Number) -> bool
        ensures { result ≡ is_in_progress self.now.decided self.now.given_up number }
    {
        !(self.is_decided(number) || self.is_given_up(number))
    }

    /// Whether the attempt with this number has checked its part of the word.
    pub fn is_checked(&self, number: Number, word: Word) -> bool
        ensures { result ≡ is_checked self.now.checks number word }
    {
        let mut checks = self.checks.as_slice().iter();
        checks.any(|check| check.number == number && check.word.is(word))
    }

    /// The decided attempts, in order of number, which is the history's.
    pub fn committed(&self, alloc: Global) -> Result<Sequence<Attempt>, Memory>
        ensures { IfOk result (λ attempts. attempts ≡ committed self.now) }
    {
        let mut attempts = Sequence::new(alloc);
        for attempt in self.history.as_slice() {
            if self.is_decided(attempt.number) {
                attempts.push(copy_attempt(attempt)?)?;
            }
        }
        Ok(attempts)
    }

    pub fn is_all_checked(&self, attempt: &Attempt) -> bool
        ensures { result ≡ all_checked self.now.checks attempt.now }
    {
        let mut parts = attempt.parts.as_slice().iter();
        parts.all(|part| self.is_checked(attempt.number, part.word))
    }

    /// Where the record of a key is.
    pub fn home(&self, key: Key) -> Home
        ensures { result ≡ home_of self.now.homes key }
    {
        home_in(self.homes.as_slice(), key)
    }

    /// The place that is the key's home, if one is.
    pub fn spot(&self, key: Key) -> Option<Spot>
        ensures { result ≡ spot_at self.now.homes key }
    {
        spot_of(self.home(key))
    }

    /// What stands in a place. One that was never filled is dead.
    pub fn place_of(&self, spot: Spot) -> Place
        ensures { result ≡ place_of self.now.places spot }
    {
        match find_place(self.places.as_slice(), spot) {
            Some(entry) => entry.1,
            None => Place {
                content: NOTHING,
                holder: Holder::Dead,
            },
        }
    }

    /// What stands at a home. What is no place can't be locked.
    pub fn stands_at(&self, home: Home) -> Place
        ensures { result ≡ stands_at self.now.places home }
    {
        match home {
            Home::InSlot(spot) => self.place_of(spot),
            Home::InPage(_, content) => Place {
                content,
                holder: Holder::Free,
            },
            Home::Nowhere => Place {
                content: NOTHING,
                holder: Holder::Free,
            },
        }
    }

    /// What stands at a key.
    pub fn place(&self, key: Key) -> Place
        ensures { result ≡ stands self.now.places self.now.homes key }
    {
        self.stands_at(self.home(key))
    }

    /// Whether the attempt's part of the record is as it was seen.
    pub fn stays_as_seen(&self, id: u32, spot: Spot, attempt: &Attempt) -> bool
        ensures { result ≡ stays_as_seen id self.now.places spot attempt.now }
    {
        attempt.stays_as_seen(id, spot, self.place_of(spot))
    }

    /// Lets this stand in the place.
    pub fn set_place(&mut self, spot: Spot, new: Place)
        ensures { self.new ≡ record self.old { places = placed self.old.places spot new } }
    {
        let none = Sequence::new(self.places.alloc());
        let mut places = mem::replace(&mut self.places, none).into_vec();
        put_place(&mut places, spot, new);
        self.places = Sequence::from_vec(places);
    }

    /// Lets this content stand in a place, unlocked.
    pub fn fill(&mut self, spot: Spot, content: Content) -> Result<(), Memory>
        ensures ok { OnOk result (self.new ≡ filled spot content self.old) }
        ensures memory { OnErr result (self.new ≡ self.old) }
    {
        let holder = Holder::Free;
        let mut places = Sequence::new(self.places.alloc());
        places.push((spot, Place { content, holder }))?;
        places.append(self.places.as_slice())?;
        self.places = places;
        Ok(())
    }

    /// The attempt in progress of a seat at this stage.
    pub fn attempt_tried(&self, stage: Stage) -> Option<&Attempt>
        ensures { option_copied result ≡ attempt_tried self.now.history stage }
    {
        match stage {
            Stage::Trying(index) => self.history.as_slice().get(index),
            Stage::Idle | Stage::Ended | Stage::Decided(_) => None,
        }
    }

    /// Its decided attempt, where locks are left to open.
    pub fn attempt_decided(&self, stage: Stage) -> Option<&Attempt>
        ensures { option_copied result ≡ attempt_decided self.now.history stage }
    {
        match stage {
            Stage::Decided(index) => self.history.as_slice().get(index),
            Stage::Idle | Stage::Ended | Stage::Trying(_) => None,
        }
    }
}

/// The place that is the home, if one is.
pub fn spot_of(home: Home) -> Option<Spot>
    ensures { result ≡ spot_of home }
{
    match home {
        Home::InSlot(spot) => Some(spot),
        Home::InPage(_, _) | Home::Nowhere => None,
    }
}

fn find_place(places: &[(Spot, Place)], spot: Spot) -> Option<(Spot, Place)>
    ensures { result ≡ find (λ e. same_spot e.0 spot) places.now }
{
    places.iter().copied().find(|entry| entry.0.is(spot))
}

/// Where the record of a key is, by this list.
pub fn home_in(homes: &[(Key, Home)], key: Key) -> Home
    ensures { result ≡ home_of homes.now key }
{
    match find_home(homes, key) {
        Some(entry) => entry.1,
        None => Home::Nowhere,
    }
}

fn find_home(homes: &[(Key, Home)], key: Key) -> Option<(Key, Home)>
    ensures { result ≡ find (λ e. same_key e.0 key) homes.now }
{
    homes.iter().copied().find(|entry| entry.0 == key)
}
