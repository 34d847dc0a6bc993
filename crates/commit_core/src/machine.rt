// The machine: a database of places, and the seats that read and write it.
ghost use Rattle.std.specs.Prelude.{◌≡◌, ℕ, List, IfOk, OnOk};
ghost use Rattle.commit_core.specs.CoreState.{CoreState};
ghost use Rattle.commit_core.specs.Event.{Answers, AnswersEvent};
ghost use Rattle.commit_core.specs.Opening.{first_number, opening_core, opening_content, opening_place, opening_spot};
ghost use Rattle.commit_core.specs.Opening.{opening_contents, opening_places, opening_homes, fresh_seat};
ghost use Rattle.commit_core.specs.Serial.{committed, ReadsAreSerial};
ghost use Rattle.commit_core.specs.Sound.{IsSound};
ghost use Rattle.commit_core.specs.Told.{TellsTruly};
ghost use Rattle.commit_core.specs.Fill.{AnswersFill, NobodyKeeps};
ghost use Rattle.std.specs.Prelude.{map, replicate};

use crate::moves::is_nobodys;
use crate::{Act, Attempt, Event, FirstDraw, Mark, NotAllowed, Place, Seat, Stage, Story, acts};
use homes::{Content, Holder, Home, Spot};
use lists::Sequence;
use serial_model::{Key, Memory, Number, OrMemory};
use std::alloc::Global;
use std::marker::Model;

/// A database of places, and the seats that read and write it.
#[derive(Drop)]
pub struct Core {
    /// What stood at keys at the start. Of equal keys the first counts.
    opening: Vec<(Key, Content)>,
    story: Story,
    seats: Vec<Seat>,
}

impl Model for Core {
    ghost use Rattle.commit_core.specs.CoreState.{CoreState};

    ghost Value = { CoreState };

    ghost view = { λ c. record { opening = c.opening.items; story = c.story; seats = c.seats.items } };
}

impl Core {
    /// A machine with these values, each in a place of its own, unlocked, and with this many seats. Of equal keys the
    /// first counts. The first number is 1:1, and each seat's first mark is the epoch before.
    pub fn new(alloc: Global, pairs: &[(Key, u64)], passes: u32) -> Result<Self, Memory>
        ensures opens { IfOk result (λ c. c ≡ opening_core pairs.now first_number passes) }
        ensures sound { IfOk result IsSound }
    {
        opened(alloc, pairs, passes)
    }

    /// Lets the event happen, if its condition holds.
    pub fn step(&mut self, event: &Event) -> Result<(), OrMemory<NotAllowed>>
        ensures event { AnswersEvent self.old event.now result self.new }
        ensures sound { TellsTruly self.old event.now → IsSound self.old → IsSound self.new }
    {
        match self.seats.get_mut(event.seat as usize) {
            None => Err(OrMemory::Fault(NotAllowed)),
            Some(seat) => act(event.seat, &mut self.story, seat, &event.act),
        }
    }

    /// Lets this content stand in a place that is no key's home, unlocked, as a page is filled that nobody has got to
    /// yet. The machine stays sound where no seat keeps a part of the place's record.
    pub fn fill(&mut self, spot: Spot, content: Content) -> Result<(), OrMemory<NotAllowed>>
        ensures fill { AnswersFill self.old spot content result self.new }
        ensures sound { NobodyKeeps self.old spot → IsSound self.old → IsSound self.new }
    {
        if is_nobodys(&self.story, Some(spot)) {
            self.story.fill(spot, content)?;
            return Ok(());
        }
        Err(OrMemory::Fault(NotAllowed))
    }

    /// The decided attempts, in order of number.
    pub fn serial(&self, alloc: Global) -> Result<Sequence<Attempt>, Memory>
        ensures all { IfOk result (λ attempts. attempts ≡ committed self.now.story) }
        ensures serial { IsSound self.now → IfOk result (ReadsAreSerial self.now.opening) }
    {
        self.story.committed(alloc)
    }

    pub fn story(&self) -> &Story
        ensures { result.now ≡ self.now.story }
    {
        &self.story
    }

    pub fn seats(&self) -> &[Seat]
        ensures { result.now ≡ self.now.seats }
    {
        &self.seats
    }
}

fn opened(alloc: Global, pairs: &[(Key, u64)], passes: u32) -> Result<Core, Memory>
    ensures { IfOk result (λ c. c ≡ opening_core pairs.now first_number passes) }
{
    let opening = opening_contents(alloc, pairs)?;
    let places = opening_places(alloc, pairs)?;
    let homes = opening_homes(alloc, pairs)?;
    let seats = fresh_seats(alloc, passes)?;
    let story = Story {
        history: Sequence::new(alloc),
        checks: Sequence::new(alloc),
        decided: Sequence::new(alloc),
        given_up: Sequence::new(alloc),
        places,
        homes,
        horizon: Number { epoch: 0, draw: 0 },
        first_draw: FirstDraw::new(1),
        epoch: 1,
    };
    Ok(Core {
        opening,
        story,
        seats,
    })
}

/// One act of the seat with this id.
pub fn act(
    id: u32,
    story: &mut Story,
    seat: &mut Seat,
    act: &Act,
) -> Result<(), OrMemory<NotAllowed>>
    ensures { Answers id act.now story.old seat.old result story.new seat.new }
{
    match act {
        Act::See(key) => acts::see(id, story, seat, *key),
        Act::Keep(part) => acts::keep(id, story, seat, part),
        Act::Lock(key) => acts::lock(id, story, seat, *key),
        Act::Draw(writes) => acts::draw(id, story, seat, writes),
        Act::Check(spot) => acts::check(id, story, seat, *spot),
        Act::Confirm(word, told) => acts::confirm(id, story, seat, *word, *told),
        Act::Decide => acts::decide(id, story, seat),
        Act::Put(key) => acts::put(id, story, seat, *key),
        Act::Open(key) => acts::open(id, story, seat, *key),
        Act::Forget => acts::forget(id, story, seat),
        Act::Rehome(moves) => acts::rehome(id, story, seat, moves),
        Act::Advance => acts::advance(id, story, seat),
        Act::Mark(mark) => acts::mark(id, story, seat, *mark),
    }
}

/// What stands at the keys with these values.
fn opening_contents(alloc: Global, pairs: &[(Key, u64)]) -> Result<Vec<(Key, Content)>, Memory>
    ensures { IfOk result (λ v. v.items ≡ opening_contents pairs.now) }
{
    let mut contents = Vec::new(alloc);
    for pair in pairs {
        contents.push((pair.0, opening_content(pair.1)))?;
    }
    Ok(contents)
}

/// A place for each of these values.
fn opening_places(alloc: Global, pairs: &[(Key, u64)]) -> Result<Sequence<(Spot, Place)>, Memory>
    ensures { IfOk result (λ s. s ≡ opening_places 0 pairs.now) }
{
    let mut places = Sequence::new(alloc);
    let mut index = 0;
    for pair in pairs {
        places.push((opening_spot(index), opening_place(pair.1)))?;
        index += 1;
    }
    Ok(places)
}

/// The homes of these keys.
fn opening_homes(alloc: Global, pairs: &[(Key, u64)]) -> Result<Sequence<(Key, Home)>, Memory>
    ensures { IfOk result (λ s. s ≡ opening_homes 0 pairs.now) }
{
    let mut homes = Sequence::new(alloc);
    let mut index = 0;
    for pair in pairs {
        homes.push((pair.0, Home::InSlot(opening_spot(index))))?;
        index += 1;
    }
    Ok(homes)
}

fn opening_place(value: u64) -> Place
    ensures { result ≡ opening_place value }
{
    Place {
        content: opening_content(value),
        holder: Holder::Free,
    }
}

fn opening_spot(index: usize) -> Spot
    ensures { result ≡ opening_spot index }
{
    Spot { slot: 0, index }
}

fn opening_content(value: u64) -> Content
    ensures { result ≡ opening_content value }
{
    Content {
        number: Number { epoch: 0, draw: 0 },
        value: Some(value),
    }
}

/// Seats that have nothing.
fn fresh_seats(alloc: Global, passes: u32) -> Result<Vec<Seat>, Memory>
    ensures { IfOk result (λ v. v.items ≡ replicate passes (fresh_seat first_number)) }
{
    let mut seats = Vec::new(alloc);
    for _ in 0..passes {
        seats.push(fresh_seat(alloc)?)?;
    }
    Ok(seats)
}

fn fresh_seat(alloc: Global) -> Result<Seat, Memory>
    ensures { IfOk result (λ s. s ≡ fresh_seat first_number) }
{
    let mut marks = Sequence::new(alloc);
    marks.push(Mark {
        epoch: Some(0),
        length: 0,
    })?;
    Ok(Seat {
        kept: Sequence::new(alloc),
        locks: Sequence::new(alloc),
        put: Sequence::new(alloc),
        marks,
        stage: Stage::Idle,
    })
}
