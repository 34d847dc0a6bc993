// The lines of a log file.
ghost use Rattle.std.specs.Prelude.{◌≡◌, ◌<◌, ◌+◌, ◌^◌, ◌↔◌, ℕ, List, Err, IsTrue, OnOk, length};
ghost use Rattle.std.specs.List.{AllByRecursion};
ghost use Rattle.serial_model.specs.Numbers.{IsBelow};
ghost use Rattle.wire_form.specs.Items.{IsFollowed};
ghost use Rattle.wire_form.specs.LogFile.{IsChangeOf};
ghost use Rattle.log_mapper.specs.SoFar.{IsDamagedIn, MapsFront};

use crate::MapFault;
use crate::buckets::add_commit;
use lists::OrMemory;
use serial_model::{Change, Decl, Number, Op, fits};
use wire_form::{Bucket, read_log_line};

// Whether a number is above an earlier one, if there is one.
fn is_next(last: Option<Number>, number: Number) -> bool
    ensures { IsTrue result ↔ IsFollowed IsBelow last number }
{
    match last {
        None => true,
        Some(last) if last.epoch == number.epoch => last.draw < number.draw,
        Some(last) => last.epoch < number.epoch,
    }
}

// Whether a storage has the key for a put, or the tree for a removal.
fn has_place(decls: &[Decl], change: &Change) -> bool
    ensures { IsTrue result ↔ IsChangeOf decls.now change.now }
{
    match change.value {
        Some(value) => fits(decls, &Op::Write(change.key, value)),
        None => fits(decls, &Op::Remove(change.key)),
    }
}

// Whether each change is of one of the storages.
fn have_places(decls: &[Decl], changes: &[Change]) -> bool
    ensures { IsTrue result ↔ AllByRecursion (IsChangeOf decls.now) changes.now }
{
    changes.iter().all(|change| has_place(decls, change))
}

/// How far a log file is mapped: up to which byte, the number of the last line, and the entries so far.
#[derive(Drop)]
pub struct SoFar {
    pub at: u64,
    pub last: Option<Number>,
    pub buckets: Vec<Bucket>,
}

/// Maps the lines at the front of a window of bytes, while at least so many of its bytes are left, or tells the first that
/// is no line.
pub fn map_window(
    so_far: &mut SoFar,
    window: &[u8],
    least: usize,
    decls: &[Decl],
    from: u32,
    to: u32,
) -> Result<(), OrMemory<MapFault>>
    requires least { 0 < least }
    requires place { so_far.old.at + length window.now < 2 ^ 64 }
    ensures mapped { OnOk result ((rest : List ℕ) × (length rest < least)
        × MapsFront decls.now from to window.now rest so_far.old so_far.new) }
    ensures damaged { (at : ℕ) → result ≡ Err (OrMemory.Fault (MapFault.Damaged at))
        → IsDamagedIn decls.now from to window.now least so_far.old at }
    ensures never_device { result ≡ Err (OrMemory.Fault MapFault.Device) → ⊥ }
{
    let mut rest = window;
    while rest.len() >= least {
        let at = so_far.at;
        let Ok((commit, size)) = read_log_line(rest) else {
            return Err(OrMemory::Fault(MapFault::Damaged { at }));
        };
        if !is_next(so_far.last, commit.number) {
            return Err(OrMemory::Fault(MapFault::Damaged { at }));
        }
        if !have_places(decls, commit.changes.as_slice()) {
            return Err(OrMemory::Fault(MapFault::Damaged { at }));
        }
        add_commit(&mut so_far.buckets, &commit, from, to)?;
        so_far.last = Some(commit.number);
        so_far.at += size as u64;
        let (_, behind) = rest.split_at(size);
        rest = behind;
    }
    Ok(())
}
