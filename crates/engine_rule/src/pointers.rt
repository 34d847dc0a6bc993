// Pointers that a seat reads, keeps and reads again.
ghost use Rattle.std.specs.Prelude.{◌≡◌, ◌||◌, not, IfOk};
ghost use Rattle.std.specs.List.{list_all};
ghost use Rattle.commit_core.specs.declared.part.Word.TheVariants as words;
ghost use Rattle.commit_core.specs.Parts.{same_word};
ghost use Rattle.drop_core.specs.Table.{pointer_of};
ghost use Rattle.engine_rule.specs.Pairs.{pointer_part};
ghost use Rattle.engine_rule.specs.JointState.{can_see, leads_so, is_pointer_so, pointer_stays, is_so_now};

use crate::asks::holds_at;
use crate::pairs::{keys_of_span, pairs_for, snap_keys};
use commit_core::{Attempt, Part, Seat, Story, Version, Word, is_open_to};
use drop_core::{Grip, Pointer, Table};
use homes::At;
use lists::Sequence;
use serial_model::Memory;
use std::alloc::Global;

/// Whether the seat may keep the pointer.
pub fn can_see(table: &Table, grip: &Grip, at: At) -> bool
    ensures { result ≡ can_see table.now grip.now at }
{
    table.is_open(at) && table.pointer(at).slot.is_none() && holds_at(grip, at)
}

/// Whether the pointer is as the seat's attempt in progress read it.
pub fn is_so_now(id: u32, table: &Table, story: &Story, seat: &Seat, at: At) -> bool
    ensures { result ≡ is_so_now id table.now story.now seat.now at }
{
    match story.attempt_tried(seat.stage) {
        None => false,
        Some(attempt) => stays(id, table.pointer(at), at, attempt),
    }
}

fn stays(id: u32, pointer: Pointer, at: At, attempt: &Attempt) -> bool
    ensures { result ≡ list_all (λ part. not (same_word part.word (words.Pointer at))
        || is_pointer_so id pointer part.version) attempt.now.parts }
{
    let word = Word::Pointer(at);
    let mut parts = attempt.parts.as_slice().iter();
    parts.all(|part| !part.word.is(word) || is_pointer_so(id, pointer, part.version))
}

fn is_pointer_so(id: u32, pointer: Pointer, version: Version) -> bool
    ensures { result ≡ is_pointer_so id pointer version }
{
    is_open_to(id, pointer.holder) && leads_so(pointer, version)
}

/// Whether the pointer leads to no slot, and to the page of the version.
fn leads_so(pointer: Pointer, version: Version) -> bool
    ensures { result ≡ leads_so pointer version }
{
    match version {
        Version::Numbered(_, _) | Version::Counted(_) => false,
        Version::Leads(page) => pointer.slot.is_none() && pointer.page == page,
    }
}

/// The part of a pointer.
pub fn pointer_part(alloc: Global, table: &Table, at: At) -> Result<Part, Memory>
    ensures { IfOk result (λ part. part ≡ pointer_part table.now at) }
{
    let pointer = table.pointer(at);
    let keys = snap_keys(alloc, table.snaps.as_slice())?;
    let below = keys_of_span(alloc, pointer.span, keys.as_slice())?;
    let pairs = pairs_for(alloc, table, pointer.page, below.as_slice())?;
    Ok(Part {
        word: Word::Pointer(at),
        version: Version::Leads(pointer.page),
        span: pointer.span,
        less: Sequence::new(alloc),
        pairs,
    })
}
