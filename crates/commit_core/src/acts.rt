// Each act of a seat: its condition, and then its effect. What needs memory comes first, so that want of memory
// leaves everything as it was.
ghost use Rattle.std.specs.Prelude.{◌≡◌, OnOk, OnErr};
ghost use Rattle.commit_core.specs.Event.{Answers, EndsCheck};

use crate::attempt::{copy_changes, copy_parts, written};
use crate::moves::{can_rehome, make_moves};
use crate::seat::{keys_elsewhere, keys_unmoved};
use crate::{Act, Attempt, Check, Mark, NotAllowed, Part, Place, Seat, Stage, Story, Word};
use homes::{Content, Holder, Move, Spot};
use lists::Sequence;
use serial_model::{Changes, Key, LAST_EPOCH, Memory, OrMemory};

/// What an act answers.
pub type Answer = Result<(), OrMemory<NotAllowed>>;

/// Reads the record of an unlocked key, and keeps what stands there.
pub fn see(id: u32, story: &mut Story, seat: &mut Seat, key: Key) -> Answer
    ensures { Answers id (Act.See key) story.old seat.old result story.new seat.new }
{
    let Some(spot) = story.spot(key) else {
        return Err(OrMemory::Fault(NotAllowed));
    };
    let place = story.place_of(spot);
    if seat.stage.is_trying() || !place.holder.is_free() {
        return Err(OrMemory::Fault(NotAllowed));
    }
    let part = Part::of_record(seat.kept.alloc(), key, spot, place.content)?;
    seat.keep(part)?;
    Ok(())
}

/// Keeps what the layer above read of a word that isn't a record's.
pub fn keep(id: u32, story: &mut Story, seat: &mut Seat, part: &Part) -> Answer
    ensures { Answers id (Act.Keep part.now) story.old seat.old result story.new seat.new }
{
    if seat.stage.is_trying() || part.word.is_record() {
        return Err(OrMemory::Fault(NotAllowed));
    }
    seat.keep(part.copy()?)?;
    Ok(())
}

/// Locks a key that is not locked.
pub fn lock(id: u32, story: &mut Story, seat: &mut Seat, key: Key) -> Answer
    ensures { Answers id (Act.Lock key) story.old seat.old result story.new seat.new }
{
    let Some(spot) = story.spot(key) else {
        return Err(OrMemory::Fault(NotAllowed));
    };
    let place = story.place_of(spot);
    if !seat.stage.can_begin() || !place.holder.is_free() {
        return Err(OrMemory::Fault(NotAllowed));
    }
    seat.locks.push(key)?;
    let new = Place {
        content: place.content,
        holder: Holder::Held(id),
    };
    story.set_place(spot, new);
    Ok(())
}

/// Takes a commit number for an attempt with these writes: its place in the order of all commits is fixed here,
/// after its locks are taken and before its reads are checked.
pub fn draw(id: u32, story: &mut Story, seat: &mut Seat, writes: &Changes) -> Answer
    ensures { Answers id (Act.Draw writes.now) story.old seat.old result story.new seat.new }
{
    if !seat.stage.can_begin() || !seat.has_locked(writes.as_slice()) {
        return Err(OrMemory::Fault(NotAllowed));
    }
    let index = story.history.len();
    let number = story.clock();
    let parts = copy_parts(&seat.kept)?;
    let writes = copy_changes(writes);
    story.history.push(Attempt {
        seat: id,
        number,
        parts,
        writes,
    })?;
    seat.stage = Stage::Trying(index);
    Ok(())
}

/// Looks again at a record that was read. A place that another seat holds is not as it was read, even where its number
/// is: that seat may be about to commit a new value under a lower number.
pub fn check(id: u32, story: &mut Story, seat: &mut Seat, spot: Spot) -> Answer
    ensures { Answers id (Act.Check spot) story.old seat.old result story.new seat.new }
{
    let word = Word::Record(spot);
    let Some(attempt) = story.attempt_tried(seat.stage) else {
        return Err(OrMemory::Fault(NotAllowed));
    };
    if !attempt.has_part(word) || story.is_checked(attempt.number, word) {
        return Err(OrMemory::Fault(NotAllowed));
    }
    let stays = story.stays_as_seen(id, spot, attempt);
    let number = attempt.number;
    end_check(story, seat, Check { number, word }, stays)?;
    Ok(())
}

/// Looks again at a word that isn't a record's, of which the layer above tells whether it is as it was read.
pub fn confirm(id: u32, story: &mut Story, seat: &mut Seat, word: Word, told: bool) -> Answer
    ensures { Answers id (Act.Confirm word told) story.old seat.old result story.new seat.new }
{
    let Some(attempt) = story.attempt_tried(seat.stage) else {
        return Err(OrMemory::Fault(NotAllowed));
    };
    if !attempt.has_part(word) || story.is_checked(attempt.number, word) || word.is_record() {
        return Err(OrMemory::Fault(NotAllowed));
    }
    let number = attempt.number;
    end_check(story, seat, Check { number, word }, told)?;
    Ok(())
}

/// The check is made, or the attempt given up.
fn end_check(story: &mut Story, seat: &mut Seat, check: Check, stays: bool) -> Result<(), Memory>
    ensures ok { OnOk result (EndsCheck story.old seat.old check stays story.new seat.new) }
    ensures memory { OnErr result ((story.new ≡ story.old) × (seat.new ≡ seat.old)) }
{
    if stays {
        story.checks.push(check)?;
        return Ok(());
    }
    story.given_up.push(check.number)?;
    seat.stage = Stage::Ended;
    seat.settle();
    Ok(())
}

/// Lets the attempt count, once all its parts are checked.
pub fn decide(id: u32, story: &mut Story, seat: &mut Seat) -> Answer
    ensures { Answers id Act.Decide story.old seat.old result story.new seat.new }
{
    let Stage::Trying(index) = seat.stage else {
        return Err(OrMemory::Fault(NotAllowed));
    };
    let Some(attempt) = story.attempt_tried(seat.stage) else {
        return Err(OrMemory::Fault(NotAllowed));
    };
    if !story.is_all_checked(attempt) {
        return Err(OrMemory::Fault(NotAllowed));
    }
    let number = attempt.number;
    story.decided.push(number)?;
    seat.put.clear();
    seat.stage = Stage::Decided(index);
    seat.settle();
    Ok(())
}

/// Puts the new value of a key. The place keeps its old number, and its lock, until it is opened.
pub fn put(id: u32, story: &mut Story, seat: &mut Seat, key: Key) -> Answer
    ensures { Answers id (Act.Put key) story.old seat.old result story.new seat.new }
{
    let Some(spot) = story.spot(key) else {
        return Err(OrMemory::Fault(NotAllowed));
    };
    let place = story.place_of(spot);
    let Some(attempt) = story.attempt_decided(seat.stage) else {
        return Err(OrMemory::Fault(NotAllowed));
    };
    let Some(value) = written(key, attempt.writes.as_slice()) else {
        return Err(OrMemory::Fault(NotAllowed));
    };
    if !place.holder.is(id) {
        return Err(OrMemory::Fault(NotAllowed));
    }
    seat.put.push(key)?;
    let content = Content {
        number: place.content.number,
        value,
    };
    let holder = place.holder;
    story.set_place(spot, Place { content, holder });
    Ok(())
}

/// Unlocks a key: with the attempt's number if it is decided, else as it was.
pub fn open(id: u32, story: &mut Story, seat: &mut Seat, key: Key) -> Answer
    ensures { Answers id (Act.Open key) story.old seat.old result story.new seat.new }
{
    let Some(spot) = story.spot(key) else {
        return Err(OrMemory::Fault(NotAllowed));
    };
    let place = story.place_of(spot);
    if seat.stage.is_trying() || !place.holder.is(id) {
        return Err(OrMemory::Fault(NotAllowed));
    }
    let number = match story.attempt_decided(seat.stage) {
        None => place.content.number,
        Some(attempt) => {
            if !seat.has_put(key) {
                return Err(OrMemory::Fault(NotAllowed));
            }
            attempt.number
        }
    };
    let locks = keys_elsewhere(&seat.locks, key)?;
    seat.locks = locks;
    seat.settle();
    let content = Content {
        number,
        value: place.content.value,
    };
    let holder = Holder::Free;
    story.set_place(spot, Place { content, holder });
    Ok(())
}

/// Drops what was kept.
pub fn forget(id: u32, story: &mut Story, seat: &mut Seat) -> Answer
    ensures { Answers id Act.Forget story.old seat.old result story.new seat.new }
{
    if !seat.stage.can_begin() {
        return Err(OrMemory::Fault(NotAllowed));
    }
    seat.kept.clear();
    Ok(())
}

/// Moves keys to other homes with the same contents. The locks of the seat at these keys are gone with their places.
pub fn rehome(id: u32, story: &mut Story, seat: &mut Seat, moves: &Sequence<Move>) -> Answer
    ensures { Answers id (Act.Rehome moves.now) story.old seat.old result story.new seat.new }
{
    if !can_rehome(id, seat.stage.can_begin(), story, moves.as_slice()) {
        return Err(OrMemory::Fault(NotAllowed));
    }
    let locks = keys_unmoved(&seat.locks, moves.as_slice())?;
    make_moves(story, moves.as_slice())?;
    seat.locks = locks;
    seat.settle();
    Ok(())
}

/// Goes on to the next epoch, which seat 0 alone may.
pub fn advance(id: u32, story: &mut Story, seat: &mut Seat) -> Answer
    ensures { Answers id Act.Advance story.old seat.old result story.new seat.new }
{
    if id != 0 || story.epoch >= LAST_EPOCH {
        return Err(OrMemory::Fault(NotAllowed));
    }
    story.epoch += 1;
    Ok(())
}

/// Sets the seat's mark.
pub fn mark(id: u32, story: &mut Story, seat: &mut Seat, mark: Mark) -> Answer
    ensures { Answers id (Act.Mark mark) story.old seat.old result story.new seat.new }
{
    let is_possible = match mark.epoch {
        None => true,
        Some(epoch) => epoch < story.epoch && seat.last_marked() <= epoch,
    };
    if seat.stage.is_trying() || !is_possible {
        return Err(OrMemory::Fault(NotAllowed));
    }
    seat.marks.push(mark)?;
    Ok(())
}
