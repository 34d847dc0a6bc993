// Headers of leaves that a seat reads, keeps and reads again, and keys that it adds.
ghost use Rattle.std.specs.Prelude.{◌≡◌, if◌then◌else◌, IfOk};
ghost use Rattle.drop_core.specs.Table.{page_of};
ghost use Rattle.engine_rule.specs.JointState.{is_leaf, can_see_header, is_counted, counts_so, is_header_so};
ghost use Rattle.engine_rule.specs.JointState.{header_stays, is_header_so_now, header_part, keeps_header_at};
ghost use Rattle.engine_rule.specs.Event.{next_spot};
ghost use Rattle.engine_rule.specs.Renewal.{part_with_key, kept_with_key};

use crate::asks::holds;
use commit_core::{Attempt, Part, Seat, Story, Version, Word, with_part};
use drop_core::{Grip, Page, Table};
use homes::Spot;
use lists::Sequence;
use serial_model::{Key, Memory};
use std::alloc::Global;

/// Whether the seat may keep the header.
pub fn can_see_header(table: &Table, grip: &Grip, slot: u32) -> bool
    ensures { result ≡ can_see_header table.now grip.now slot }
{
    table.slot(slot).led.is_from()
        && is_leaf(table, slot)
        && table.header(slot).is_free()
        && holds(grip, slot)
}

fn is_leaf(table: &Table, slot: u32) -> bool
    ensures { result ≡ is_leaf (page_of table.now slot) }
{
    match table.page(slot) {
        None | Some(Page::Blank) | Some(Page::Inner(_)) | Some(Page::Split) => false,
        Some(Page::Leaf(_)) => true,
    }
}

/// Whether the header is as the seat's attempt in progress read it.
pub fn is_header_so_now(table: &Table, story: &Story, seat: &Seat, slot: u32) -> bool
    ensures { result ≡ is_header_so_now table.now story.now seat.now slot }
{
    match story.attempt_tried(seat.stage) {
        None => false,
        Some(attempt) => stays(table, slot, attempt),
    }
}

fn stays(table: &Table, slot: u32, attempt: &Attempt) -> bool
    ensures { result ≡ header_stays table.now slot attempt.now }
{
    let word = Word::Header(slot);
    let mut parts = attempt.parts.as_slice().iter();
    parts.all(|part| !part.word.is(word) || is_header_so(table, slot, part.version))
}

fn is_header_so(table: &Table, slot: u32, version: Version) -> bool
    ensures { result ≡ is_header_so table.now slot version }
{
    table.header(slot).is_free() && counts_so(table, slot, version)
}

/// Whether the page is a leaf with as many records as the version counts.
fn counts_so(table: &Table, slot: u32, version: Version) -> bool
    ensures { result ≡ counts_so (page_of table.now slot) version }
{
    match table.page(slot) {
        None | Some(Page::Blank) | Some(Page::Inner(_)) | Some(Page::Split) => false,
        Some(Page::Leaf(keys)) => is_counted(keys.len(), version),
    }
}

fn is_counted(count: usize, version: Version) -> bool
    ensures { result ≡ is_counted count version }
{
    match version {
        Version::Numbered(_, _) | Version::Leads(_) => false,
        Version::Counted(most) => count == most,
    }
}

/// The part of a header.
pub fn header_part(alloc: Global, table: &Table, slot: u32) -> Result<Part, Memory>
    ensures { IfOk result (λ part. part ≡ header_part table.now slot) }
{
    let keys = table.leaf_keys(slot);
    Ok(Part {
        word: Word::Header(slot),
        version: Version::Counted(keys.len()),
        span: table.slot_span(slot),
        less: Sequence::from_slice(alloc, keys)?,
        pairs: Sequence::new(alloc),
    })
}

/// The part of a header as it is once the key was added.
fn part_with_key(alloc: Global, table: &Table, slot: u32, key: Key) -> Result<Part, Memory>
    ensures { IfOk result (λ part. part ≡ part_with_key table.now slot key) }
{
    let mut less = Sequence::from_slice(alloc, table.leaf_keys(slot))?;
    less.push(key)?;
    Ok(Part {
        word: Word::Header(slot),
        version: Version::Counted(less.len()),
        span: table.slot_span(slot),
        less,
        pairs: Sequence::new(alloc),
    })
}

/// The place behind the records of the page in a slot.
pub fn next_spot(table: &Table, slot: u32) -> Spot
    ensures { result ≡ next_spot table.now slot }
{
    Spot {
        slot,
        index: table.leaf_keys(slot).len(),
    }
}

/// What the seat keeps once it has added the key: the header as it is then, and the new record.
pub fn kept_with_key(
    story: &Story,
    seat: &Seat,
    table: &Table,
    slot: u32,
    key: Key,
) -> Result<Sequence<Part>, Memory>
    ensures { IfOk result (λ kept. kept ≡ kept_with_key table.now story.now.places seat.now.kept slot key) }
{
    let alloc = seat.kept.alloc();
    let spot = next_spot(table, slot);
    let header = part_with_key(alloc, table, slot, key)?;
    let record = Part::of_record(alloc, key, spot, story.place_of(spot).content)?;
    let kept = with_part(&seat.kept, header)?;
    with_part(&kept, record)
}

/// Has the seat keep this instead, if it keeps the header with so many records.
pub fn renew(seat: &mut Seat, slot: u32, count: usize, kept: Sequence<Part>)
    ensures { seat.new ≡ (if keeps_header_at seat.old.kept slot count
        then record seat.old { kept = kept } else seat.old) }
{
    if keeps_header_at(&seat.kept, slot, count) {
        seat.kept = kept;
    }
}

/// Whether what is kept has a part of the header, with so many records.
fn keeps_header_at(kept: &Sequence<Part>, slot: u32, count: usize) -> bool
    ensures { result ≡ keeps_header_at kept.now slot count }
{
    let word = Word::Header(slot);
    kept.as_slice().iter().any(|part| part.word.is(word) && is_counted(count, part.version))
}
