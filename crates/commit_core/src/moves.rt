// Moves of keys: whether they may be made, and what they leave.
ghost use Rattle.std.specs.Prelude.{◌≡◌, ◌&&◌, ◌||◌, not, if◌then◌else◌, OnOk, OnErr, IfOk, ◌++◌, map};
ghost use Rattle.std.specs.List.{list_any, list_all};
ghost use Rattle.homes.specs.Homes.{same_key};
ghost use Rattle.commit_core.specs.Places.{place, spot_of, spot_at, stands_at, stands};
ghost use Rattle.serial_model.specs.Numbers.{is_below};
ghost use Rattle.commit_core.specs.Moves.{moves_key, is_spot, moves_to_spot, are_apart, is_nobodys, is_movable};
ghost use Rattle.commit_core.specs.Moves.{is_below_all, may_go_for, can_move, can_rehome, is_left, buried_entry};
ghost use Rattle.commit_core.specs.Moves.{buried, rehomed, horizon_by, horizon_after, with_moves};

use crate::story::{NOTHING, home_in, spot_of};
use crate::{Place, Story};
use homes::{Content, Holder, Home, Move, Spot};
use lists::Sequence;
use serial_model::{Key, Memory, Number};
use std::mem;

/// Whether seat `id` may make the moves, where it may begin or not.
pub fn can_rehome(id: u32, begins: bool, story: &Story, moves: &[Move]) -> bool
    ensures { result ≡ can_rehome id begins story.now moves.now }
{
    are_apart(moves) && each_can_move(id, begins, story, moves)
}

fn each_can_move(id: u32, begins: bool, story: &Story, moves: &[Move]) -> bool
    ensures { result ≡ list_all (can_move id begins story.now) moves.now }
{
    moves.iter().all(|step| can_move(id, begins, story, *step))
}

/// Makes the moves.
pub fn make_moves(story: &mut Story, moves: &[Move]) -> Result<(), Memory>
    ensures ok { OnOk result (story.new ≡ with_moves story.old moves.now) }
    ensures memory { OnErr result (story.new ≡ story.old) }
{
    let homes = rehomed(&story.homes, moves)?;
    let horizon = horizon_after(story.horizon, story, moves);
    let none = Sequence::new(story.places.alloc());
    let mut places = mem::replace(&mut story.places, none).into_vec();
    bury(&mut places, story.homes.as_slice(), moves);
    story.places = Sequence::from_vec(places);
    story.homes = homes;
    story.horizon = horizon;
    Ok(())
}

/// Whether one of the moves is of this key.
pub fn is_moved(moves: &[Move], key: Key) -> bool
    ensures { result ≡ moves_key moves.now key }
{
    moves.iter().any(|step| step.key == key)
}

/// Whether one of the moves is to the place.
fn is_target(moves: &[Move], spot: Option<Spot>) -> bool
    ensures { result ≡ moves_to_spot moves.now spot }
{
    match spot {
        None => false,
        Some(spot) => goes_to(moves, spot),
    }
}

fn goes_to(moves: &[Move], spot: Spot) -> bool
    ensures { result ≡ list_any (λ v. is_spot spot (spot_of v.home)) moves.now }
{
    moves.iter().any(|step| is_spot(spot, spot_of(step.home)))
}

/// Whether the place is the home.
fn is_spot(spot: Spot, home: Option<Spot>) -> bool
    ensures { result ≡ is_spot spot home }
{
    match home {
        None => false,
        Some(other) => spot.is(other),
    }
}

/// Whether no key is moved twice, and no two keys to one place.
fn are_apart(moves: &[Move]) -> bool
    ensures { result ≡ are_apart moves.now }
{
    match moves {
        [] => true,
        [step, more @ ..] => is_apart(*step, more) && are_apart(more),
    }
}

fn is_apart(step: Move, more: &[Move]) -> bool
    ensures { result ≡ (not (moves_key more.now step.key) && not (moves_to_spot more.now (spot_of step.home))) }
{
    !is_moved(more, step.key) && !is_target(more, spot_of(step.home))
}

/// Whether the key may go where the move says.
pub fn can_move(id: u32, begins: bool, story: &Story, step: Move) -> bool
    ensures { result ≡ can_move id begins story.now step }
{
    let old = story.place(step.key);
    let new = story.stands_at(step.home);
    if !is_movable(id, begins, old.holder) || !new.holder.is_free() {
        return false;
    }
    is_nobodys(story, spot_of(step.home)) && may_go_for(story, new.content, old.content)
}

/// Whether a key may leave what is held so.
fn is_movable(id: u32, begins: bool, holder: Holder) -> bool
    ensures { result ≡ is_movable id begins holder }
{
    holder.is_free() || (holder.is(id) && begins)
}

/// Whether the place is no key's home.
pub fn is_nobodys(story: &Story, spot: Option<Spot>) -> bool
    ensures { result ≡ is_nobodys story.now.homes spot }
{
    match spot {
        None => true,
        Some(spot) => has_no_key(story, spot),
    }
}

fn has_no_key(story: &Story, spot: Spot) -> bool
    ensures { result ≡ list_all (λ e. not (is_spot spot (spot_at story.now.homes e.0))) story.now.homes }
{
    let mut homes = story.homes.as_slice().iter();
    homes.all(|entry| !is_spot(spot, story.spot(entry.0)))
}

/// Whether this content may go for that one: it is the same, or nothing where that is an absence that is older than
/// each attempt in progress.
fn may_go_for(story: &Story, new: Content, old: Content) -> bool
    ensures { result ≡ may_go_for story.now new old }
{
    if new.is(old) {
        return true;
    }
    new.is(NOTHING) && old.value.is_none() && is_below_all(story, old.number)
}

/// Whether each attempt in progress has a number above this one.
fn is_below_all(story: &Story, number: Number) -> bool
    ensures { result ≡ is_below_all story.now.history story.now.decided story.now.given_up number }
{
    let mut attempts = story.history.as_slice().iter();
    attempts.all(|attempt| !story.is_in_progress(attempt.number)
        || is_below(number, attempt.number))
}

fn is_below(a: Number, b: Number) -> bool
    ensures { result ≡ is_below a b }
{
    a.epoch < b.epoch || (a.epoch == b.epoch && a.draw < b.draw)
}

/// The homes, with those of the keys that move before the others.
fn rehomed(homes: &Sequence<(Key, Home)>, moves: &[Move]) -> Result<Sequence<(Key, Home)>, Memory>
    ensures { IfOk result (λ s. s ≡ rehomed moves.now homes.now) }
{
    let mut all = Sequence::new(homes.alloc());
    for step in moves {
        all.push((step.key, step.home))?;
    }
    all.append(homes.as_slice())?;
    Ok(all)
}

/// The horizon after the moves.
fn horizon_after(horizon: Number, story: &Story, moves: &[Move]) -> Number
    ensures { result ≡ horizon_after horizon story.now.places story.now.homes moves.now }
{
    match moves {
        [] => horizon,
        [step, more @ ..] => horizon_after(horizon_over(horizon, story, *step), story, more),
    }
}

fn horizon_over(horizon: Number, story: &Story, step: Move) -> Number
    ensures { result ≡ horizon_by horizon story.now.places story.now.homes step }
{
    let old = story.place(step.key).content;
    if story.stands_at(step.home).content.is(old) {
        return horizon;
    }
    if is_below(horizon, old.number) {
        old.number
    } else {
        horizon
    }
}

/// The places that keys leave are dead.
fn bury(places: &mut [(Spot, Place)], homes: &[(Key, Home)], moves: &[Move])
    ensures { places.new ≡ buried moves.now homes.now places.old }
{
    for entry in places.iter_mut() {
        *entry = buried(*entry, homes, moves);
    }
}

fn buried(entry: (Spot, Place), homes: &[(Key, Home)], moves: &[Move]) -> (Spot, Place)
    ensures { result ≡ buried_entry moves.now homes.now entry }
{
    if !is_left(entry.0, homes, moves) {
        return entry;
    }
    let content = entry.1.content;
    let holder = Holder::Dead;
    (entry.0, Place { content, holder })
}

/// Whether one of the keys that move leaves the place.
fn is_left(spot: Spot, homes: &[(Key, Home)], moves: &[Move]) -> bool
    ensures { result ≡ is_left moves.now homes.now spot }
{
    moves
        .iter()
        .any(|step| is_spot(spot, spot_of(home_in(homes, step.key))))
}
