// The snapshots of a worked database, by their epochs.
ghost use Rattle.recovery_core.specs.Recovered.{IsUp};

use super::*;
use recovery_core::snapshot;
use serial_model::State;

// What is told of a snapshot's state.
fn told_of_state(state: &State, epoch: u32) -> Told {
    let value = state.get(Key { storage: 1, key: 2 });
    if state.len() != usize::from(value.is_some()) {
        return Told::Other;
    }
    Told::State { epoch, value }
}

// What is told of the snapshot of an epoch; nothing where there is none.
fn told_in(alloc: Global, recovered: &Recovered, epoch: u32) -> Option<Told>
    requires { IsUp recovered.now }
{
    match snapshot(alloc, recovered, epoch) {
        Ok(None) => None,
        Ok(Some(state)) => Some(told_of_state(&state, epoch)),
        Err(OrMemory::Fault(RecoverFault::Damaged { device, at })) => {
            Some(Told::Damaged { device, at })
        }
        Err(_) => Some(Told::Other),
    }
}

fn snapshot_told(alloc: Global, vault: &mut Vault<MemDisk>, epoch: u32) -> Option<Told> {
    if !vault.is_whole() {
        return Some(Told::Other);
    }
    match recover(alloc, vault) {
        Ok(recovered) => told_in(alloc, &recovered, epoch),
        Err(_) => Some(Told::Other),
    }
}

// The same of three snapshots, of which one page may be another one.
fn snapshot_among(
    alloc: Global,
    index: usize,
    page: Page,
    epoch: u32,
) -> Result<Option<Told>, AllocError> {
    let save = save(alloc, 2, 5, &[])?;
    let snaps = three_with(alloc, index, page)?;
    let mut vault = vault(alloc, &save, &snaps, [&[], &[]], &[])?;
    Ok(snapshot_told(alloc, &mut vault, epoch))
}

const FIVE_AT_1: Told = Told::State {
    epoch: 1,
    value: Some(5),
};

const EIGHT_AT_1: Told = Told::State {
    epoch: 1,
    value: Some(8),
};

const SECOND_PAGE: Told = Told::Damaged {
    device: Device::Snaps,
    at: 512,
};

// Index of the page that is another one, what it is, the epoch that is asked for, and what is told. That no number is
// above the snapshot's epoch is asked of the newest one alone. Recovery doesn't read the pages of older snapshots.
const SNAPSHOTS: [(usize, Page, u32, Option<Told>); 7] = [
    (5, FIRST, 0, Some(NOTHING)),
    (5, FIRST, 1, Some(FIVE_AT_1)),
    (5, FIRST, 2, Some(SIX_AT_2)),
    (5, FIRST, 3, None),
    (1, Page::Leaf(3, 1, 8), 1, Some(EIGHT_AT_1)),
    (1, FIRST, 1, Some(SECOND_PAGE)),
    (1, FIRST, 2, Some(SIX_AT_2)),
];

#[test]
fn each_snapshot_is_read_by_its_epoch(rt: HostRuntime) -> Result<(), Fail> {
    for (index, page, epoch, want) in &SNAPSHOTS {
        let found = snapshot_among(rt.alloc(), *index, *page, *epoch)?;
        is_so("an older snapshot", found == *want)?;
    }
    Ok(())
}
