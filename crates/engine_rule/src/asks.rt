// What each machine asks of an act on the other one.
ghost use Rattle.std.specs.Prelude.{◌≡◌, ◌&&◌, ◌||◌, is_some};
ghost use Rattle.commit_core.specs.CoreState.{can_begin};
ghost use Rattle.commit_core.specs.Places.{stands};
ghost use Rattle.drop_core.specs.Table.{page_of, pointer_of, has_slot};
ghost use Rattle.drop_core.specs.Event.{leaf_keys, keys_in};
ghost use Rattle.engine_rule.specs.JointState.{slot_at, slot_of_word, is_slot, keeps_word, holds_slot};
ghost use Rattle.engine_rule.specs.Event.{slot_of_spot, page_lets, holds_all, is_before_all, absences_are_old};
ghost use Rattle.engine_rule.specs.Event.{commit_lets};

use commit_core::{Act as CommitAct, Part, Seat, Story, Word};
use drop_core::{Act as PageAct, Grip, Table};
use homes::{At, Spot};
use lists::Sequence;
use serial_model::Key;

/// Whether pages let the seat do this on commits.
pub fn page_lets(grip: &Grip, story: &Story, act: &CommitAct) -> bool
    ensures { result ≡ page_lets grip.now story.now act.now }
{
    match act {
        CommitAct::See(key) => holds_home(grip, story.spot(*key)),
        CommitAct::Keep(_) | CommitAct::Confirm(_, _) | CommitAct::Rehome(_) => false,
        CommitAct::Lock(_) | CommitAct::Draw(_) | CommitAct::Check(_) | CommitAct::Decide => true,
        CommitAct::Put(_) | CommitAct::Open(_) | CommitAct::Forget => true,
        CommitAct::Advance | CommitAct::Mark(_) => true,
    }
}

/// Whether the seat holds the slot of the place, if there is one.
fn holds_home(grip: &Grip, spot: Option<Spot>) -> bool
    ensures { result ≡ holds_slot grip.now (slot_of_spot spot) }
{
    match spot {
        None => true,
        Some(spot) => holds(grip, spot.slot),
    }
}

/// Whether the seat holds the slot that the pointer stands in, if it is in one.
pub fn holds_at(grip: &Grip, at: At) -> bool
    ensures { result ≡ holds_slot grip.now (slot_at at) }
{
    match at {
        At::Root(_) => true,
        At::In(spot) => holds(grip, spot.slot),
    }
}

/// Whether the seat made the slot its own.
pub fn has_made(grip: &Grip, slot: u32) -> bool
    ensures { result ≡ has_slot grip.now.made slot }
{
    grip.made.as_slice().iter().any(|s| *s == slot)
}

/// Whether the seat holds the slot.
pub fn holds(grip: &Grip, slot: u32) -> bool
    ensures { result ≡ holds_slot grip.now (Some slot) }
{
    grip.holds.as_slice().iter().any(|s| *s == slot)
}

/// Whether commits let the seat do this on pages.
pub fn commit_lets(id: u32, story: &Story, seat: &Seat, table: &Table, act: &PageAct) -> bool
    ensures { result ≡ commit_lets id story.now seat.now table.now act.now }
{
    match act {
        PageAct::Leave(slot) => !keeps_word(&seat.kept, *slot),
        PageAct::Swing(at, _) => lets_swing(id, story, seat, table, *at),
        PageAct::SwingChain(_, _, chain) => lets_keys_go(id, story, seat, chain.keys.as_slice()),
        PageAct::Twin(twins) => lets_split(id, story, seat, table, twins.slot),
        PageAct::OpenHeader(_, Some(_)) => false,
        PageAct::Enter(_) | PageAct::Give(_) | PageAct::Publish(_) | PageAct::Retire(_) => true,
        PageAct::FillPage(_, _) | PageAct::FillPointer(_, _) | PageAct::FillSnapshot(_, _) => true,
        PageAct::Extend(_) | PageAct::Install(_, _) | PageAct::Renew(_, _) => true,
        PageAct::Shut(_) | PageAct::Reopen(_) => true,
        PageAct::FillHeader(_) | PageAct::LockHeader(_) | PageAct::OpenHeader(_, None) => true,
    }
}

/// Whether one of the words that are kept stands in the slot's page.
fn keeps_word(kept: &Sequence<Part>, slot: u32) -> bool
    ensures { result ≡ keeps_word kept.now slot }
{
    kept.as_slice()
        .iter()
        .any(|part| is_word_in(part.word, slot))
}

fn is_word_in(word: Word, slot: u32) -> bool
    ensures { result ≡ is_slot slot (slot_of_word word) }
{
    match word {
        Word::Record(spot) => spot.slot == slot,
        Word::Pointer(at) => is_pointer_in(at, slot),
        Word::Header(page) => page == slot,
    }
}

fn is_pointer_in(at: At, slot: u32) -> bool
    ensures { result ≡ is_slot slot (slot_at at) }
{
    match at {
        At::Root(_) => false,
        At::In(spot) => spot.slot == slot,
    }
}

/// Whether the seat has no attempt, holds each record below the pointer, and attempts in progress are younger than the
/// absences there.
fn lets_swing(id: u32, story: &Story, seat: &Seat, table: &Table, at: At) -> bool
    ensures { result ≡ (can_begin seat.now.stage
        && (holds_all id story.now (keys_in table.now (pointer_of table.now at).slot)
        && absences_are_old story.now (keys_in table.now (pointer_of table.now at).slot))) }
{
    lets_keys_go(id, story, seat, keys_in(table, table.pointer(at).slot))
}

/// The same of these keys.
fn lets_keys_go(id: u32, story: &Story, seat: &Seat, keys: &[Key]) -> bool
    ensures { result ≡ (can_begin seat.now.stage
        && (holds_all id story.now keys.now && absences_are_old story.now keys.now)) }
{
    seat.stage.can_begin() && holds_all(id, story, keys) && absences_are_old(story, keys)
}

/// Whether the seat has no attempt, and holds each record of the leaf in the slot.
fn lets_split(id: u32, story: &Story, seat: &Seat, table: &Table, slot: u32) -> bool
    ensures { result ≡ (can_begin seat.now.stage && holds_all id story.now (leaf_keys (page_of table.now slot))) }
{
    seat.stage.can_begin() && holds_all(id, story, table.leaf_keys(slot))
}

/// The keys of the records in the page of the slot, if there is one.
pub fn keys_in(table: &Table, slot: Option<u32>) -> &[Key]
    ensures { result.now ≡ keys_in table.now slot }
{
    match slot {
        None => &[],
        Some(slot) => table.leaf_keys(slot),
    }
}

/// Whether the seat holds the home of each key.
fn holds_all(id: u32, story: &Story, keys: &[Key]) -> bool
    ensures { result ≡ holds_all id story.now keys.now }
{
    keys.iter().all(|key| story.place(*key).holder.is(id))
}

/// Whether each key has a value, or its absence has an epoch below each attempt in progress.
fn absences_are_old(story: &Story, keys: &[Key]) -> bool
    ensures { result ≡ absences_are_old story.now keys.now }
{
    keys.iter().all(|key| is_there_or_old(story, *key))
}

fn is_there_or_old(story: &Story, key: Key) -> bool
    ensures { result ≡ (is_some (stands story.now.places story.now.homes key).content.value
        || is_before_all story.now
        (stands story.now.places story.now.homes key).content.number.epoch) }
{
    let content = story.place(key).content;
    content.value.is_some() || is_before_all(story, content.number.epoch)
}

/// Whether each attempt in progress has an epoch above this one.
fn is_before_all(story: &Story, epoch: u32) -> bool
    ensures { result ≡ is_before_all story.now epoch }
{
    let mut attempts = story.history.as_slice().iter();
    attempts.all(|attempt| !story.is_in_progress(attempt.number) || epoch < attempt.number.epoch)
}
