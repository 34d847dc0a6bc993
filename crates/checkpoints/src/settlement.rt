// A vault that was recovered is settled, also where log entries count above its newest snapshot.
ghost use Rattle.std.specs.Prelude.{◌≡◌, ◌-◌, ◌^◌, ◌<◌, ◌≤◌, Some, Err, IfOk, OnOk, OnErr, is_ok, length};
ghost use Rattle.std.specs.List.{AllByRecursion};
ghost use Rattle.serial_model.specs.Decls.{AreDecls};
ghost use Rattle.log_writer.specs.Points.{sequence_of};
ghost use Rattle.log_writer.specs.Save.{IsStored};
ghost use Rattle.log_writer.specs.Vault.{IsWhole};
ghost use Rattle.snapshot_store.specs.Store.{HoldsPages};
ghost use Rattle.joint_crashes.specs.Images.{Images};
ghost use Rattle.recovery_core.specs.Recovered.{Recovers, IsUp};
ghost use Rattle.recovery_core.specs.SnapshotsKept.{KeepsSnapshots};
ghost use Rattle.checkpoints.specs.Due.{SomeCount};
ghost use Rattle.checkpoints.specs.SettleAnswers.{SettleAnswers};
ghost use Rattle.checkpoints.specs.SettleLeaves.{SettleLeaves};
ghost use Rattle.checkpoints.specs.Settled.{SaysSettled};
ghost use Rattle.checkpoints.specs.SettlesInto.{SettlesInto};
ghost use Rattle.checkpoints.specs.Written.{FitsDevice};

use crate::SettleFault;
use crate::due::{due_pages, saved_due};
use crate::without_entries::{Settled, reserve_records, settle_without_entries};
use crate::writing::write_snapshot;
use lists::OrMemory;
use log_writer::{Save, Saved, Vault};
use outside::Disk;
use recovery_core::{Recovered, pages_fit};
use serial_model::Decl;
use std::alloc::Global;
use wire_form::Page;

/// The last sequence of a savepoint.
const LAST: u64 = (1 << 63) - 1;

// Refuses a store behind the last savepoint of all.
fn refuse_last(save: &Save) -> Result<(), SettleFault>
    ensures below { OnOk result (sequence_of save.now.newest < 2 ^ 63 - 1) }
    ensures last { OnErr result ((result ≡ Err (SettleFault.Sequence (sequence_of save.now.newest)))
        × (sequence_of save.now.newest ≡ 2 ^ 63 - 1)) }
{
    let sequence = save.sequence();
    if sequence == LAST {
        return Err(SettleFault::Sequence { sequence });
    }
    Ok(())
}

// Words in memory have 64 bits.
pub(crate) fn words_fit(words: &[u64])
    ensures { AllByRecursion (λ w. w < 2 ^ 64) words.now }
{}

// A page has 64 of them.
fn are_page_words(words: &[u64; 64])
    ensures { length words.now ≡ 64 }
{}

fn page_fits(page: &Page)
    ensures { FitsDevice page.now }
{
    words_fit(&page.words);
    are_page_words(&page.words);
}

fn new_pages_fit(pages: &[Page])
    ensures { AllByRecursion FitsDevice pages.now }
{
    for i in 0..pages.len() {
        page_fits(&pages[i]);
    }
}

// Stores what the log entries make of the newest snapshot as the next one. What was recovered is lent: what is owned
// at a `?` costs a proof.
fn store_due<D: Disk>(
    alloc: Global,
    vault: &mut Vault<D>,
    recovered: &mut Recovered,
    saved: &Saved,
    decls: &[Decl],
    snap: u32,
) -> Result<Saved, OrMemory<SettleFault>>
    requires whole { IsWhole vault.old }
    requires up { IsUp recovered.old }
    requires says { recovered.old.saved ≡ Some saved.now }
    requires due { SomeCount recovered.old }
    requires stored { IsStored D.tells D.clock D.image_at vault.old.save recovered.old.save.newest }
    requires holds { HoldsPages D.tells vault.old.snaps recovered.old.store.pages }
    requires snap { snap ≤ 65536 }
    ensures leaves { SettleLeaves D.tells D.clock D.image_at recovered.old (is_ok result) vault.old vault.new }
    ensures settles { IfOk result (λ p.
        SettlesInto D.tells D.clock D.image_at recovered.old decls.now vault.old vault.new (record {
          save = recovered.new.save;
          store = recovered.new.store;
          saved = p;
          decls = recovered.new.decls;
          state = recovered.new.state;
        })) }
    ensures within { 1 ≤ snap → IfOk result (λ p. p.count ≤ snap) }
    ensures answers { SettleAnswers D.faults recovered.old snap vault.old vault.new result }
{
    reserve_records(vault)?;
    let pages = due_pages(alloc, recovered, saved, snap)?;
    let pages = pages.as_slice();
    pages_fit(&recovered.store);
    new_pages_fit(pages);
    match refuse_last(&recovered.save) {
        Ok(()) => {}
        Err(fault) => return Err(OrMemory::Fault(fault)),
    }
    let epoch = recovered.epoch;
    let saved = write_snapshot(
        &mut recovered.save,
        &mut recovered.store,
        vault,
        pages,
        epoch,
    )?;
    Ok(saved)
}

// Settles a vault of which log entries count: what they make of the newest snapshot becomes the next one.
fn settle_entries<D: Disk>(
    alloc: Global,
    vault: &mut Vault<D>,
    recovered: Recovered,
    saved: Saved,
    decls: &[Decl],
    snap: u32,
) -> Result<Settled, OrMemory<SettleFault>>
    requires whole { IsWhole vault.old }
    requires up { IsUp recovered }
    requires says { recovered.saved ≡ Some saved }
    requires due { SomeCount recovered }
    requires stored { IsStored D.tells D.clock D.image_at vault.old.save recovered.save.newest }
    requires holds { HoldsPages D.tells vault.old.snaps recovered.store.pages }
    requires snap { snap ≤ 65536 }
    ensures leaves { SettleLeaves D.tells D.clock D.image_at recovered (is_ok result) vault.old vault.new }
    ensures settles { IfOk result (λ s.
        SettlesInto D.tells D.clock D.image_at recovered decls.now vault.old vault.new s) }
    ensures within { 1 ≤ snap → IfOk result (λ s. s.saved.count ≤ snap) }
    ensures answers { SettleAnswers D.faults recovered snap vault.old vault.new result }
{
    let mut recovered = recovered;
    let saved = match store_due(alloc, vault, &mut recovered, &saved, decls, snap) {
        Ok(saved) => saved,
        Err(fault) => return Err(fault),
    };
    let Recovered {
        save,
        saved: _,
        decls: kept,
        store,
        epoch: _,
        state,
        catalogues,
        entries,
    } = recovered;
    drop(catalogues);
    drop(entries);
    Ok(Settled {
        save,
        store,
        saved,
        decls: kept,
        state,
    })
}

/// Settles a vault as it was recovered, for these storages, in any order, so that a run can begin with empty log files.
/// Where log entries count above its newest snapshot, they are composed into a new one of the saved epoch, which the
/// next savepoint names; `snap` is the most pages that are let in. A fresh vault gets its first catalogue and its first
/// savepoint.
///
/// Before any write it refuses, in this order: [`SettleFault::Deep`] where a page would stand below 32 others,
/// [`SettleFault::Limit`] where pages are more than are let in, [`SettleFault::Sequence`] where a store is due behind
/// the last sequence, and want of memory. Whatever it answers, each crash since the devices rest leaves the epoch and
/// the state that were recovered.
pub fn settle<D: Disk>(
    alloc: Global,
    vault: &mut Vault<D>,
    recovered: Recovered,
    decls: &[Decl],
    snap: u32,
) -> Result<Settled, OrMemory<SettleFault>>
    requires whole { IsWhole vault.old }
    requires up { IsUp recovered }
    requires stored { IsStored D.tells D.clock D.image_at vault.old.save recovered.save.newest }
    requires holds { HoldsPages D.tells vault.old.snaps recovered.store.pages }
    requires decls { AreDecls decls.now }
    requires snap { snap ≤ 65536 }
    ensures leaves { SettleLeaves D.tells D.clock D.image_at recovered (is_ok result) vault.old vault.new }
    ensures settles { IfOk result (λ s.
        SettlesInto D.tells D.clock D.image_at recovered decls.now vault.old vault.new s) }
    ensures snapshots { IfOk result (λ s. (found now : Images) (is : Recovers found recovered)
        (says : SaysSettled now s) → KeepsSnapshots is.reading says.reading recovered.epoch recovered.state) }
    ensures within { 1 ≤ snap → IfOk result (λ s. s.saved.count ≤ snap) }
    ensures answers { SettleAnswers D.faults recovered snap vault.old vault.new result }
{
    match saved_due(&recovered) {
        None => settle_without_entries(alloc, vault, recovered, decls, snap),
        Some(saved) => settle_entries(alloc, vault, recovered, saved, decls, snap),
    }
}
