// The store of savepoints: two places, of which one is written while the other counts.
ghost use Rattle.std.specs.Prelude.{◌≡◌, ◌≢◌, ◌↔◌, ◌⊎◌, ℕ, ◌+◌, ◌-◌, ◌*◌, ◌%◌, ◌^◌, ◌<◌, ◌≤◌, ◌==◌, Option, Ok, Some, None};
ghost use Rattle.std.specs.Prelude.{Err, is_some, length, slice_index, IfOk, IfSome, OnOk, OnErr};
ghost use Rattle.wire_form.specs.declared.savepoint.Savepoint.{Savepoint};
ghost use Rattle.outside.specs.Disk.{IfTold, Same, Goes, Only, Runs};
ghost use Rattle.wire_form.specs.Savepoint.{IsSavepoint, valid_byte};
ghost use Rattle.log_writer.specs.Points.{IsSaved, sequence_of};
ghost use Rattle.outside.specs.Faults.{HasCause};
ghost use Rattle.log_writer.specs.Save.{place_in, HasPoint, newer, IsBroken, IsDamaged, IsStored, Names, NamesOldOrNew, closed, ClosedOrTorn};
ghost use Rattle.log_writer.specs.Stores.{Blames, Finds, RoseTwice, Stores};

use crate::Saved;
use crate::write_and_sync::{write_and_sync, write_or_take_back};
use outside::{Disk, Failed};
use std::marker::Model;
use wire_form::{NoSavepoint, Savepoint, read_savepoint, write_savepoint};

/// The size of the save device, in bytes.
const SIZE: u64 = 1024;

/// The size of each of its two places.
pub(crate) const PLACE: u64 = 512;

/// The valid byte of an open place.
const VALID: u8 = 0xA5;

/// What is written over the valid byte to close a place.
const CLOSED: u8 = 0;

/// The last sequence.
const LAST: u64 = (1 << 63) - 1;

/// Why a save device can't be used.
#[derive(Clone, Copy, Debug, PartialEq, Eq)]
pub enum SaveOpen {
    /// The device's count of faults rose.
    Device,
    /// What it holds is no savepoint, from this byte on: 0 for its length, else the begin of a place.
    Damaged { at: u64 },
}

/// Why a savepoint wasn't stored.
#[derive(Clone, Copy, Debug, PartialEq, Eq)]
pub enum SaveFault {
    /// The device's count of faults rose.
    Device,
    /// An earlier store answered `Device`, as the device's count of faults was this.
    Down { faults: u64 },
    /// This was the last sequence.
    Limit { sequence: u64 },
}

/// The newest savepoint of a save device.
#[derive(Drop)]
pub struct Save {
    newest: Option<Savepoint>,
    down: Option<u64>,
}

impl Model for Save {
    ghost use Rattle.std.specs.Prelude.{IfSome};
    ghost use Rattle.wire_form.specs.Savepoint.{IsSavepoint, valid_byte};
    ghost use Rattle.log_writer.specs.Points.{SaveState};

    ghost Value = { SaveState };

    ghost view = { λ s. record { newest = s.newest; down = s.down } };

    ghost invariant = { λ s. IfSome s.newest IsSavepoint };
}

// The place that a sequence is stored in: 0 for an odd one, and 1 for an even one.
pub(crate) fn place_of(sequence: u64) -> u64
    ensures place { result + sequence % 2 ≡ 1 }
{
    1 - sequence % 2
}

// Reads a place of a device that has both.
fn read_place<D: Disk>(disk: &mut D, place: u8) -> Result<Option<Savepoint>, SaveOpen>
    requires { place ≤ 1 }
    ensures holds { IfOk result (λ point. IfTold (D.tells disk.old) (λ file. length file ≡ 1024
        → HasPoint place (place_in file place) point)) }
    ensures point { IfOk result (λ point. IfSome point IsSavepoint) }
    ensures whole { OnOk result (D.gave disk.new ≡ 512) }
    ensures broken { (at : ℕ) → result ≡ Err (SaveOpen.Damaged at)
        → IfTold (D.tells disk.old) (λ file. length file ≡ 1024
        → IsBroken place (place_in file place) × (at ≡ 512 * place)) }
    ensures told { D.tells disk.new ≡ D.tells disk.old }
    ensures settled { D.settled disk.old → D.settled disk.new }
    ensures moments { Goes D.clock D.image_at Same disk.old disk.new }
    ensures faults { Blames D.faults disk.old disk.new result }
{
    let at = PLACE * u64::from(place);
    let mut bytes = [0; 512];
    let Ok(count) = disk.read(at, &mut bytes) else {
        return Err(SaveOpen::Device);
    };
    // The device got shorter since it told its length.
    if count < 512 {
        return Err(SaveOpen::Damaged { at });
    }
    match read_savepoint(place, &bytes) {
        Ok(point) => Ok(point),
        Err(NoSavepoint) => Err(SaveOpen::Damaged { at }),
    }
}

// Of two savepoints the one of greater sequence.
fn newer_of(first: Option<Savepoint>, second: Option<Savepoint>) -> Option<Savepoint>
    ensures { result ≡ newer first second }
{
    match (first, second) {
        (Some(first), Some(second)) if first.sequence < second.sequence => Some(second),
        (None, second) => second,
        (first, _) => first,
    }
}

// Closes the place that begins at this byte, where it is open. A closed one isn't written: a stop
// within a write may leave any byte, and so an open place of what was there. Where the closing fails, reads give the
// byte that was there, or a second call failed. For a system may show what a failed sync was to bring, and lose it.
fn close<D: Disk>(disk: &mut D, at: u64) -> Result<(), Failed>
    requires { IfTold (D.tells disk.old) (λ file. at < length file) }
    ensures closed { OnOk result (IfTold (D.tells disk.old) (λ file.
        D.tells disk.new ≡ Some (closed at file))) }
    ensures durable { OnOk result (IfTold (D.tells disk.old) (λ file.
        Only D.clock D.image_at disk.new (closed at file))) }
    ensures torn { OnErr result (IfTold (D.tells disk.old) (λ file.
        IfTold (D.tells disk.new) (ClosedOrTorn at file))) }
    ensures taken_back { OnErr result (IfTold (D.tells disk.old) (λ file.
        IfTold (D.tells disk.new) (λ left. (slice_index left at ≡ slice_index file at)
        ⊎ RoseTwice (D.faults disk.old) (D.faults disk.new)))) }
    ensures told { is_some (D.tells disk.new) ≡ is_some (D.tells disk.old) }
    ensures any_moment { IfTold (D.tells disk.old) (λ file. Only D.clock D.image_at disk.old file
        → Runs D.clock D.image_at disk.old disk.new (ClosedOrTorn at file)) }
    ensures cause { HasCause (D.faults disk.old) (D.faults disk.new) result }
{
    let found = is_open(disk, at)?;
    if found {
        return write_or_take_back(disk, at, CLOSED, VALID);
    }
    disk.sync()
}

// Whether the place is open that begins at this byte.
pub(crate) fn is_open<D: Disk>(disk: &mut D, at: u64) -> Result<bool, Failed>
    requires { IfTold (D.tells disk.old) (λ file. at < length file) }
    ensures is { IfOk result (λ found. IfTold (D.tells disk.old) (λ file.
        found ≡ (slice_index file at == valid_byte))) }
    ensures told { D.tells disk.new ≡ D.tells disk.old }
    ensures settled { D.settled disk.old → D.settled disk.new }
    ensures moments { Goes D.clock D.image_at Same disk.old disk.new }
    ensures cause { HasCause (D.faults disk.old) (D.faults disk.new) result }
{
    let mut valid = [0];
    disk.read(at, &mut valid)?;
    Ok(valid[0] == VALID)
}

impl Save {
    /// The newest savepoint of a save device, and what it says; none where neither place is open.
    /// The device is only read.
    pub fn load<D: Disk>(disk: &mut D) -> Result<(Save, Option<Saved>), SaveOpen>
        ensures found { IfOk result (λ found.
            Finds D.tells D.clock D.image_at disk.old disk.new found.0 found.1) }
        ensures damaged { (at : ℕ) → result ≡ Err (SaveOpen.Damaged at)
            → IfTold (D.tells disk.old) (λ file. IsDamaged file at) }
        ensures told { D.tells disk.new ≡ D.tells disk.old }
        ensures settled { D.settled disk.old → D.settled disk.new }
        ensures moments { Goes D.clock D.image_at Same disk.old disk.new }
        ensures faults { Blames D.faults disk.old disk.new result }
    {
        let Ok(len) = disk.len() else {
            return Err(SaveOpen::Device);
        };
        if len != SIZE {
            return Err(SaveOpen::Damaged { at: 0 });
        }
        let first = read_place(disk, 0)?;
        let second = read_place(disk, 1)?;
        let newest = newer_of(first, second);
        let saved = newest.map(|point| Saved::of(&point));
        Ok((Save { newest, down: None }, saved))
    }

    /// The sequence of the newest savepoint; it is 0 where there is none.
    pub fn sequence(&self) -> u64
        ensures newest { result ≡ sequence_of self.now.newest }
        ensures counted { result < 2 ^ 63 }
    {
        match &self.newest {
            Some(point) => point.sequence,
            None => 0,
        }
    }

    // Writes the next savepoint into its place. Each sync makes what is before it durable before what
    // is after it is written: that the place is closed, what is in it, and that it is open.
    fn write_next<D: Disk>(&self, disk: &mut D, point: &Savepoint) -> Result<(), Failed>
        requires point { IsSavepoint point.now }
        requires next { point.now.sequence ≡ sequence_of self.now.newest + 1 }
        requires stored { IsStored D.tells D.clock D.image_at disk.old self.now.newest }
        ensures stored { OnOk result
            (IsStored D.tells D.clock D.image_at disk.new (Some point.now)) }
        ensures any_moment { IfTold (D.tells disk.old) (λ _. Runs D.clock D.image_at
            disk.old disk.new
            (NamesOldOrNew self.now.newest point.now)) }
        ensures taken_back { OnErr result (IfTold (D.tells disk.old) (λ _. IfTold (D.tells disk.new)
            (λ left. Names left self.now.newest ⊎ RoseTwice (D.faults disk.old) (D.faults disk.new)))) }
        ensures told { is_some (D.tells disk.new) ≡ is_some (D.tells disk.old) }
        ensures cause { HasCause (D.faults disk.old) (D.faults disk.new) result }
    {
        let mut place = [0; 512];
        write_savepoint(point, &mut place);
        let at = PLACE * place_of(point.sequence);
        close(disk, at)?;
        write_and_sync(disk, at + 1, &place[1..])?;
        write_or_take_back(disk, at, VALID, CLOSED)
    }

    /// Stores the next savepoint. A stop at any moment of it leaves the old one or the new one for the
    /// newest, and after `Ok` the new one.
    pub fn store<D: Disk>(&mut self, disk: &mut D, saved: Saved) -> Result<(), SaveFault>
        requires saved { IsSaved saved }
        requires stored { self.old.down ≡ None
            → IsStored D.tells D.clock D.image_at disk.old self.old.newest }
        ensures { Stores D.tells D.clock D.image_at D.faults saved
            self.old self.new disk.old disk.new result }
    {
        if let Some(faults) = self.down {
            return Err(SaveFault::Down { faults });
        }
        let sequence = self.sequence();
        if sequence == LAST {
            return Err(SaveFault::Limit { sequence });
        }
        let point = saved.at(sequence + 1);
        match self.write_next(disk, &point) {
            Ok(()) => {
                self.newest = Some(point);
                Ok(())
            }
            Err(Failed) => {
                self.down = Some(disk.faults());
                Err(SaveFault::Device)
            }
        }
    }
}
