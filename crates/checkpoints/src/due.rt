// Whether a new snapshot is due, and its pages.
ghost use Rattle.std.specs.Prelude.{◌≡◌, ℕ, ◌+◌, ◌-◌, ◌^◌, ◌<◌, ◌≤◌, Some, None, Ok, Err, IfSome, IfNone, IfOk, OnOk};
ghost use Rattle.std.specs.Prelude.{OnErr, length};
ghost use Rattle.wire_form.specs.Pages.{Contents};
ghost use Rattle.log_writer.specs.Points.{sequence_of};
ghost use Rattle.snapshot_store.specs.Content.{words_of};
ghost use Rattle.snapshot_store.specs.Store.{NumberedFrom};
ghost use Rattle.recovery_core.specs.Recovered.{IsUp};
ghost use Rattle.root_composer.specs.Composition.{CanCompose, IsComposed};
ghost use Rattle.checkpoints.specs.Due.{NoneCount, SomeCount, IsNextOf, WouldBeDeep, WouldBeMany, ComposesWithin};
ghost use Rattle.checkpoints.specs.Due.{IsDueRefusal, TheFault};

use crate::SettleFault;
use lists::OrMemory;
use log_writer::{Save, Saved};
use recovery_core::Recovered;
use root_composer::{ComposeFault, NewPages, compose};
use std::alloc::Global;

/// What the newest savepoint says, where log entries count above its snapshot; nothing where none does.
pub(crate) fn saved_due(recovered: &Recovered) -> Option<Saved>
    requires up { IsUp recovered.now }
    ensures due { IfSome result (λ saved. (recovered.now.saved ≡ Some saved) × SomeCount recovered.now) }
    ensures none { IfNone result (NoneCount recovered.now) }
{
    if recovered.entries.is_empty() {
        return None;
    }
    recovered.saved
}

// Which fault of a settling this is.
fn fault_of(fault: ComposeFault) -> SettleFault
    ensures deep { result ≡ SettleFault.Deep → fault ≡ ComposeFault.Deep }
    ensures limit { (have new room : ℕ) → result ≡ SettleFault.Limit have new room
        → fault ≡ ComposeFault.Limit have new room }
    ensures either { (result ≡ SettleFault.Deep → ⊥)
        → (have : ℕ) × (new : ℕ) × (room : ℕ) × (result ≡ SettleFault.Limit have new room) }
{
    match fault {
        ComposeFault::Deep => SettleFault::Deep,
        ComposeFault::Limit { have, new, room } => SettleFault::Limit { have, new, room },
    }
}

/// The pages of the snapshot that is due.
pub(crate) fn due_pages(
    alloc: Global,
    recovered: &Recovered,
    saved: &Saved,
    snap: u32,
) -> Result<NewPages, OrMemory<SettleFault>>
    requires up { IsUp recovered.now }
    requires says { recovered.now.saved ≡ Some saved.now }
    requires due { SomeCount recovered.now }
    requires snap { snap ≤ 65536 }
    ensures composed { IfOk result (λ pages. IsNextOf recovered.now saved.now (words_of pages)) }
    ensures within { OnOk result (ComposesWithin recovered.now saved.now snap) }
    ensures numbered { IfOk result (λ pages. NumberedFrom (length recovered.now.store.pages + 1) pages) }
    ensures some { IfOk result (λ pages. 1 ≤ length pages) }
    ensures few { IfOk result (λ pages. length recovered.now.store.pages + length pages ≤ snap) }
    ensures deep { result ≡ Err (OrMemory.Fault SettleFault.Deep) → WouldBeDeep recovered.now saved.now }
    ensures limit { (have new room : ℕ) → result ≡ Err (OrMemory.Fault (SettleFault.Limit have new room))
        → (have ≡ saved.now.count) × (room ≡ snap) × WouldBeMany recovered.now saved.now snap new }
    ensures refusal { (fault : TheFault) → result ≡ Err fault → IsDueRefusal fault }
{
    let lasts = recovered.entries.run(alloc)?;
    match compose(
        alloc,
        &recovered.store,
        saved.catalogue,
        &lasts,
        recovered.epoch,
        snap,
    ) {
        Ok(pages) => Ok(pages),
        Err(OrMemory::Memory) => Err(OrMemory::Memory),
        Err(OrMemory::Fault(fault)) => Err(OrMemory::Fault(fault_of(fault))),
    }
}
