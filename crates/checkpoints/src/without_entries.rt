// A vault that was recovered is settled, so that a run can begin: nothing of the log files counts, and they are
// empty.
ghost use Rattle.std.specs.Prelude.{◌≡◌, ◌+◌, ◌≤◌, ◌↔◌, ◌==◌, if◌then◌else◌};
ghost use Rattle.std.specs.Prelude.{ℕ, [], Some, None, IfOk, OnOk, IsTrue, true, is_ok};
ghost use Rattle.std.specs.FinMap.{get};
ghost use Rattle.std.specs.List.{AllByRecursion, list_all};
ghost use Rattle.std.specs.Option.{option_map};
ghost use Rattle.serial_model.specs.Decls.{AreDecls};
ghost use Rattle.serial_model.specs.State.{State as TheState};
ghost use Rattle.serial_model.specs.declared.key.Key.{Key};
ghost use Rattle.log_writer.specs.Points.{IsSaved, point_of, saved_of, sequence_of};
ghost use Rattle.log_writer.specs.Save.{IsStored};
ghost use Rattle.log_writer.specs.Vault.{IsWhole};
ghost use Rattle.snapshot_store.specs.Store.{HoldsPages};
ghost use Rattle.joint_crashes.specs.Images.{Images};
ghost use Rattle.joint_crashes.specs.JointCrash.{Moments, parts_of};
ghost use Rattle.joint_crashes.specs.Resting.{IsResting, HasNoRecords, AreTold};
ghost use Rattle.joint_crashes.specs.SettleRests.{RestsSince};
ghost use Rattle.recovery_core.specs.LogEntries.{last_of};
ghost use Rattle.recovery_core.specs.Recoverable.{counting, IsRecoverable};
ghost use Rattle.recovery_core.specs.Recovered.{IsUp};
ghost use Rattle.checkpoints.specs.CrashesRecover.{LeavesSame};
ghost use Rattle.checkpoints.specs.Due.{NoneCount};
ghost use Rattle.checkpoints.specs.FreshLaws.{first_saved};
ghost use Rattle.checkpoints.specs.SettleAnswers.{SaveAnswers, SettleAnswers};
ghost use Rattle.checkpoints.specs.SettleGoesOn.{GoesOn};
ghost use Rattle.checkpoints.specs.SettleLaws.{without_files};
ghost use Rattle.checkpoints.specs.SettleLeaves.{CanStore, HasFirst, LeavesWhole, SettleLeaves, StandsDurably};
ghost use Rattle.checkpoints.specs.SettleLeaves.{StandsEmptied};
ghost use Rattle.checkpoints.specs.Settled.{SameDevices};
ghost use Rattle.checkpoints.specs.SettlesInto.{SettlesInto};
ghost use Rattle.checkpoints.specs.StoreAnswers.{WriteAnswers, settle_fault_of};

use crate::SettleFault;
use crate::at_rest::{cut_uncounted, settle_lengths};
use crate::first_page::{first_page, in_order};
use crate::writing::write_snapshot;
use joint_crashes::StoreAndCutFault;
use lists::{Memory, OrMemory, Sequence};
use log_writer::{Save, SaveFault, Saved, Vault};
use outside::{Device, Disk};
use recovery_core::Recovered;
use serial_model::{Decl, State};
use snapshot_store::SnapStore;
use std::alloc::Global;

// Whether nothing of any log file counts.
fn count_nothing(lengths: &[u64; 16]) -> bool
    ensures zero { IsTrue result ↔ AllByRecursion (λ n. n ≡ 0) lengths.now }
    ensures test { result ≡ list_all (λ n. n == 0) lengths.now }
{
    lengths.iter().all(|length| *length == 0)
}

/// Which fault of a settling this is.
pub(crate) fn fault_of(fault: StoreAndCutFault) -> SettleFault
    ensures { result ≡ settle_fault_of fault }
{
    match fault {
        StoreAndCutFault::Store(SaveFault::Device) => SettleFault::Device(Device::Save),
        StoreAndCutFault::Store(SaveFault::Down { faults: _ }) => SettleFault::Device(Device::Save),
        StoreAndCutFault::Store(SaveFault::Limit { sequence }) => SettleFault::Sequence {
            sequence,
        },
        StoreAndCutFault::Cut { bank } => SettleFault::Device(Device::Bank(bank)),
    }
}

/// Settles a vault with a savepoint, of which no entry counts. Where pages are more than are let in, it answers the
/// limit and does nothing. Where lengths stand, a savepoint without them is stored first, since a stop between the
/// cuts must not find one that counts what was cut.
pub(crate) fn settle_saved<D: Disk>(
    save: &mut Save,
    vault: &mut Vault<D>,
    saved: Saved,
    snap: u32,
) -> Result<Saved, SettleFault>
    requires can { CanStore D.tells D.clock D.image_at save.old vault.old }
    requires says { Some saved ≡ option_map saved_of save.old.newest }
    requires ranges { IsSaved saved }
    ensures crashes { (found : Images) (from : Moments) (epoch : ℕ) (state : TheState)
        → (rest : IsResting D.clock D.image_at (parts_of vault.old)) → HasNoRecords (parts_of vault.old)
        → AreTold D.tells (parts_of vault.old) found
        → RestsSince D.clock D.image_at from rest.point rest.pages rest.counted (parts_of vault.old)
        → (is : IsRecoverable found epoch state)
        → ((key : Key) → last_of key (counting is.reading) ≡ None)
        → LeavesSame D.clock D.image_at from is.reading epoch state
        (parts_of vault.old) (parts_of vault.new) }
    ensures goes_on { (found : Images) (from : Moments) (epoch : ℕ) (state : TheState)
        → (rest : IsResting D.clock D.image_at (parts_of vault.old)) → HasNoRecords (parts_of vault.old)
        → AreTold D.tells (parts_of vault.old) found
        → RestsSince D.clock D.image_at from rest.point rest.pages rest.counted (parts_of vault.old)
        → (is : IsRecoverable found epoch state)
        → ((key : Key) → last_of key (counting is.reading) ≡ None)
        → OnOk result (GoesOn D.clock D.image_at from is.reading epoch state
        (sequence_of save.old.newest) save.new.newest (parts_of vault.new)) }
    ensures answers { SaveAnswers D.faults saved snap (sequence_of save.old.newest) vault.old vault.new result }
    ensures says { IfOk result (λ s. (s ≡ without_files saved) × (Some s ≡ option_map saved_of save.new.newest)) }
    ensures sequence { OnOk result (sequence_of save.new.newest
        ≡ sequence_of save.old.newest + (if list_all (λ n. n == 0) saved.lengths then 0 else 1)) }
    ensures stands { OnOk result (StandsEmptied D.tells D.clock D.image_at save.new vault.old vault.new) }
    ensures snaps { vault.new.snaps ≡ vault.old.snaps }
    ensures leaves { LeavesWhole (sequence_of save.old.newest)
        (if list_all (λ n. n == 0) saved.lengths then 0 else 1) (is_ok result) vault.old vault.new }
{
    let have = saved.count;
    if have > snap {
        return Err(SettleFault::Limit {
            have,
            new: 0,
            room: snap,
        });
    }
    if count_nothing(&saved.lengths) {
        return match cut_uncounted(save, vault) {
            Ok(()) => Ok(saved),
            Err(bank) => Err(SettleFault::Device(Device::Bank(bank))),
        };
    }
    let saved = Saved {
        lengths: [0; 16],
        ..saved
    };
    match settle_lengths(save, vault, saved) {
        Ok(()) => Ok(saved),
        Err(fault) => Err(fault_of(fault)),
    }
}

/// What a settled vault stands at.
#[derive(Drop)]
pub struct Settled {
    /// The store of savepoints, which knows the newest one.
    pub save: Save,
    /// The pages that count.
    pub store: SnapStore,
    /// What the newest savepoint says: it counts nothing of the log files.
    pub saved: Saved,
    /// The storages that the newest catalogue declares.
    pub decls: Sequence<Decl>,
    /// The state that was recovered.
    pub state: State,
}

/// Makes room for the record of a store, and of a cut of each log file: neither may begin and then go
/// unrecorded for want of memory.
pub(crate) fn reserve_records<D: Disk>(vault: &mut Vault<D>) -> Result<(), Memory>
    ensures parts { parts_of vault.new ≡ parts_of vault.old }
    ensures same { SameDevices vault.old vault.new }
    ensures ties { OnOk result (1 ≤ vault.new.ties.room) }
    ensures cuts { OnOk result (16 ≤ vault.new.cuts.room) }
{
    vault.ties.reserve(1)?;
    vault.cuts.reserve(16)?;
    Ok(())
}

// Settles a vault without a savepoint: its first snapshot is the first catalogue alone, of epoch 0.
fn settle_new<D: Disk>(
    alloc: Global,
    save: &mut Save,
    store: &mut SnapStore,
    vault: &mut Vault<D>,
    decls: &[Decl],
) -> Result<(Saved, Sequence<Decl>), OrMemory<SettleFault>>
    requires can { CanStore D.tells D.clock D.image_at save.old vault.old }
    requires fresh { save.old.newest ≡ None }
    requires sound { store.old.sound ≡ true }
    requires empty { store.old.pages ≡ [] }
    requires holds { HoldsPages D.tells vault.old.snaps store.old.pages }
    requires decls { AreDecls decls.now }
    ensures crashes { (found : Images) (from : Moments) (state : TheState)
        → (rest : IsResting D.clock D.image_at (parts_of vault.old)) → HasNoRecords (parts_of vault.old)
        → AreTold D.tells (parts_of vault.old) found
        → RestsSince D.clock D.image_at from rest.point rest.pages rest.counted (parts_of vault.old)
        → (is : IsRecoverable found 0 state) → ((key : Key) → get state key ≡ None)
        → LeavesSame D.clock D.image_at from is.reading 0 state
        (parts_of vault.old) (parts_of vault.new) }
    ensures goes_on { (found : Images) (from : Moments) (state : TheState)
        → (rest : IsResting D.clock D.image_at (parts_of vault.old)) → HasNoRecords (parts_of vault.old)
        → AreTold D.tells (parts_of vault.old) found
        → RestsSince D.clock D.image_at from rest.point rest.pages rest.counted (parts_of vault.old)
        → (is : IsRecoverable found 0 state) → ((key : Key) → get state key ≡ None)
        → OnOk result (GoesOn D.clock D.image_at from is.reading 0 state 0
        (Some (point_of 1 first_saved)) (parts_of vault.new)) }
    ensures answers { WriteAnswers D.faults vault.old vault.new result }
    ensures first { IfOk result (λ s. HasFirst decls.now save.new store.new s.0 s.1) }
    ensures durable { OnOk result (StandsDurably D.tells D.clock D.image_at store.new vault.old vault.new) }
    ensures stands { OnOk result (StandsEmptied D.tells D.clock D.image_at save.new vault.old vault.new) }
    ensures leaves { LeavesWhole (sequence_of save.old.newest) 1 (is_ok result) vault.old vault.new }
{
    let sorted = in_order(alloc, decls)?;
    let page = first_page(alloc, &sorted)?;
    let saved = write_snapshot(save, store, vault, &[page], 0)?;
    Ok((saved, Sequence::from_vec(sorted)))
}

// Settles what was recovered, of which no entry counts, and answers what the newest savepoint says then. What was
// recovered is lent: what is owned at a `?` costs a proof.
fn settle_lent<D: Disk>(
    alloc: Global,
    vault: &mut Vault<D>,
    recovered: &mut Recovered,
    decls: &[Decl],
    snap: u32,
) -> Result<Saved, OrMemory<SettleFault>>
    requires whole { IsWhole vault.old }
    requires up { IsUp recovered.old }
    requires stored { IsStored D.tells D.clock D.image_at vault.old.save recovered.old.save.newest }
    requires holds { HoldsPages D.tells vault.old.snaps recovered.old.store.pages }
    requires decls { AreDecls decls.now }
    requires none { NoneCount recovered.old }
    ensures leaves { SettleLeaves D.tells D.clock D.image_at recovered.old (is_ok result) vault.old vault.new }
    ensures settles { IfOk result (λ p.
        SettlesInto D.tells D.clock D.image_at recovered.old decls.now vault.old vault.new (record {
          save = recovered.new.save;
          store = recovered.new.store;
          saved = p;
          decls = recovered.new.decls;
          state = recovered.new.state;
        })) }
    ensures within { 1 ≤ snap → IfOk result (λ p. p.count ≤ snap) }
    ensures answers { SettleAnswers D.faults recovered.old snap vault.old vault.new result }
{
    reserve_records(vault)?;
    let Some(saved) = recovered.saved else {
        let (saved, decls) = settle_new(
            alloc,
            &mut recovered.save,
            &mut recovered.store,
            vault,
            decls,
        )?;
        recovered.decls = decls;
        return Ok(saved);
    };
    match settle_saved(&mut recovered.save, vault, saved, snap) {
        Ok(saved) => Ok(saved),
        Err(fault) => Err(OrMemory::Fault(fault)),
    }
}

/// Settles a vault as it was recovered, of which no entry counts, for these storages, in any order. The log files are
/// emptied behind a savepoint that counts nothing of them. A fresh vault gets its first catalogue and its first
/// savepoint.
pub(crate) fn settle_without_entries<D: Disk>(
    alloc: Global,
    vault: &mut Vault<D>,
    recovered: Recovered,
    decls: &[Decl],
    snap: u32,
) -> Result<Settled, OrMemory<SettleFault>>
    requires whole { IsWhole vault.old }
    requires up { IsUp recovered }
    requires stored { IsStored D.tells D.clock D.image_at vault.old.save recovered.save.newest }
    requires holds { HoldsPages D.tells vault.old.snaps recovered.store.pages }
    requires decls { AreDecls decls.now }
    requires none { NoneCount recovered }
    ensures leaves { SettleLeaves D.tells D.clock D.image_at recovered (is_ok result) vault.old vault.new }
    ensures settles { IfOk result (λ s.
        SettlesInto D.tells D.clock D.image_at recovered decls.now vault.old vault.new s) }
    ensures within { 1 ≤ snap → IfOk result (λ s. s.saved.count ≤ snap) }
    ensures answers { SettleAnswers D.faults recovered snap vault.old vault.new result }
{
    let mut recovered = recovered;
    let saved = match settle_lent(alloc, vault, &mut recovered, decls, snap) {
        Ok(saved) => saved,
        Err(fault) => return Err(fault),
    };
    let Recovered {
        save,
        saved: _,
        decls: kept,
        store,
        epoch: _,
        state,
        catalogues,
        entries,
    } = recovered;
    drop(catalogues);
    drop(entries);
    Ok(Settled {
        save,
        store,
        saved,
        decls: kept,
        state,
    })
}
