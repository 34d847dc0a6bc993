// Databases that are settled: the answers, and what is on their devices then, written down by hand from the
// formats.
ghost use Rattle.std.specs.Prelude.{IfOk};
ghost use Rattle.outside.specs.Disk.{IfTold, Only};
ghost use Rattle.serial_model.specs.Decls.{AreDecls};

use super::*;
use checkpoints::{SettleFault, settle};
use outside::Disk;
use serial_model::Decl;

// What a settling answers.
#[derive(Clone, Copy, PartialEq, Eq)]
enum Answer {
    Settled {
        sequence: u64,
        epoch: u32,
        pages: u32,
    },
    Refused(SettleFault),
    Other,
}

// What it answers, how many stores and cuts it recorded, and how many log files have bytes.
type Outcome = (Answer, usize, usize, usize);

// A place of the save device: its sequence, its epoch, how many pages count, and the length of log file 0; of sequence 0
// it is closed.
type Place = (u64, u64, u64, u64);

// A database: the places of its save device, its pages, and the words of its log file 0; for how many pages it is
// settled; and what is told then, and is on the devices.
#[derive(Clone, Copy)]
struct Case {
    name: &'static str,
    save: [Place; 2],
    snaps: &'static [Page],
    words: &'static [u64],
    snap: u32,
    want: Outcome,
    save_then: [Place; 2],
    snaps_then: &'static [Page],
}

// Recovers it, and settles it for these storages.
fn settle_in(alloc: Global, vault: &mut Vault<MemDisk>, decls: &[Decl], snap: u32) -> Answer
    requires one { IfTold (⟦<MemDisk as Disk>⟧.tells vault.old.save)
        (Only ⟦<MemDisk as Disk>⟧.clock ⟦<MemDisk as Disk>⟧.image_at vault.old.save) }
    requires decls { AreDecls decls.now }
{
    if !vault.is_whole() {
        return Answer::Other;
    }
    let Ok(recovered) = recover(alloc, vault) else {
        return Answer::Other;
    };
    if !vault.is_whole() {
        return Answer::Other;
    }
    if snap > 65_536 {
        return Answer::Other;
    }
    match settle(alloc, vault, recovered, decls, snap) {
        Ok(settled) => Answer::Settled {
            sequence: settled.save.sequence(),
            epoch: settled.saved.epoch,
            pages: settled.store.count(),
        },
        Err(OrMemory::Fault(fault)) => Answer::Refused(fault),
        Err(OrMemory::Memory) => Answer::Other,
    }
}

// How many of the disks have bytes.
fn filled(disks: &[MemDisk]) -> usize {
    disks.iter().filter(|disk| !disk.bytes().is_empty()).count()
}

fn put_either(
    bytes: &mut Vec<u8>,
    (sequence, epoch, count, length): Place,
) -> Result<(), AllocError> {
    if sequence == 0 {
        return put_closed(bytes);
    }
    put_place(bytes, sequence, epoch, count, &[length])
}

// The bytes of a save device.
fn save_of(alloc: Global, places: &[Place]) -> Result<Vec<u8>, AllocError> {
    let mut bytes = Vec::new(alloc);
    for place in places {
        put_either(&mut bytes, *place)?;
    }
    Ok(bytes)
}

fn vault_of(alloc: Global, case: &Case) -> Result<Vault<MemDisk>, AllocError>
    ensures { IfOk result (λ vault. IfTold (⟦<MemDisk as Disk>⟧.tells vault.save)
        (Only ⟦<MemDisk as Disk>⟧.clock ⟦<MemDisk as Disk>⟧.image_at vault.save)) }
{
    let save = save_of(alloc, &case.save)?;
    let snaps = pages(alloc, case.snaps)?;
    vault(alloc, &save, &snaps, [case.words, &[]], &[])
}

// Settles it for an array of four values and a tree.
fn outcome_of(alloc: Global, vault: &mut Vault<MemDisk>, snap: u32) -> Outcome
    requires { IfTold (⟦<MemDisk as Disk>⟧.tells vault.old.save)
        (Only ⟦<MemDisk as Disk>⟧.clock ⟦<MemDisk as Disk>⟧.image_at vault.old.save) }
{
    let decls = [Decl::Tree { id: 3 }, Decl::Array { id: 1, size: 4 }];
    let answer = settle_in(alloc, vault, &decls, snap);
    let (stores, cuts) = (vault.ties.as_slice().len(), vault.cuts.as_slice().len());
    let files = filled(&vault.even).saturating_add(filled(&vault.odd));
    (answer, stores, cuts, files)
}

// The save device and the snapshots' file are so.
fn are_left(alloc: Global, vault: &Vault<MemDisk>, case: &Case) -> Result<bool, AllocError> {
    let save = save_of(alloc, &case.save_then)?;
    let snaps = pages(alloc, case.snaps_then)?;
    Ok((vault.save.bytes() == save.as_slice()) & (vault.snaps.bytes() == snaps.as_slice()))
}

fn check_case(alloc: Global, case: &Case) -> Result<(), Fail> {
    let mut vault = vault_of(alloc, case)?;
    let outcome = outcome_of(alloc, &mut vault, case.snap);
    is_so(case.name, outcome == case.want)?;
    is_so(case.name, are_left(alloc, &vault, case)?)
}

const CLOSED: Place = (0, 0, 0, 0);

const BEGUN: Place = (1, 0, 1, 0);

const LAST: u64 = (1 << 63) - 1;

// A leaf and its catalogue over the first one, and two pages more over these.
const ONE: &[Page] = &[FIRST];

const MADE: &[Page] = &[FIRST, Page::Leaf(1, 1, 5), Page::Catalogue(1, 1, 2)];

const MORE: &[Page] = &[
    FIRST,
    Page::Leaf(1, 1, 5),
    Page::Catalogue(1, 1, 2),
    Page::Leaf(2, 3, 8),
    Page::Catalogue(2, 3, 4),
];

// Lines of key 2: of epoch 2, another one of it, and of epoch 1 as the snapshot has it.
const LATER: &[u64] = &[(2 << 40) | 1, 1, 1 + 256, 2, 7];

const OVER: &[u64] = &[(2 << 40) | 3, 1, 1 + 256, 2, 8];

const KEPT: &[u64] = &[(1 << 40) | 1, 1, 1 + 256, 2, 5];

const NO_SEQUENCE: Outcome = (
    Answer::Refused(SettleFault::Sequence { sequence: LAST }),
    0,
    0,
    1,
);

const CASES: [Case; 10] = [
    Case {
        name: "fresh",
        save: [CLOSED, CLOSED],
        snaps: &[],
        words: &[7],
        snap: 1,
        want: (
            Answer::Settled {
                sequence: 1,
                epoch: 0,
                pages: 1,
            },
            1,
            16,
            0,
        ),
        save_then: [BEGUN, CLOSED],
        snaps_then: &[Page::FirstOfTwo],
    },
    Case {
        name: "a length stands, and its line is of a later epoch",
        save: [BEGUN, (2, 1, 1, 40)],
        snaps: ONE,
        words: LATER,
        snap: 1,
        want: (
            Answer::Settled {
                sequence: 3,
                epoch: 1,
                pages: 1,
            },
            1,
            16,
            0,
        ),
        save_then: [(3, 1, 1, 0), (2, 1, 1, 40)],
        snaps_then: ONE,
    },
    Case {
        name: "no length stands",
        save: [BEGUN, (2, 1, 1, 0)],
        snaps: ONE,
        words: LINE,
        snap: 1,
        want: (
            Answer::Settled {
                sequence: 2,
                epoch: 1,
                pages: 1,
            },
            0,
            16,
            0,
        ),
        save_then: [BEGUN, (2, 1, 1, 0)],
        snaps_then: ONE,
    },
    Case {
        name: "an entry counts",
        save: [BEGUN, (2, 1, 1, 40)],
        snaps: ONE,
        words: LINE,
        snap: 3,
        want: (
            Answer::Settled {
                sequence: 3,
                epoch: 1,
                pages: 3,
            },
            1,
            16,
            0,
        ),
        save_then: [(3, 1, 3, 0), (2, 1, 1, 40)],
        snaps_then: &[FIRST, Page::Leaf(1, 1, 7), Page::Catalogue(1, 1, 2)],
    },
    Case {
        name: "an entry counts over a snapshot",
        save: [(3, 2, 3, 40), (2, 1, 1, 40)],
        snaps: MADE,
        words: OVER,
        snap: 65_536,
        want: (
            Answer::Settled {
                sequence: 4,
                epoch: 2,
                pages: 5,
            },
            1,
            16,
            0,
        ),
        save_then: [(3, 2, 3, 40), (4, 2, 5, 0)],
        snaps_then: MORE,
    },
    Case {
        name: "a length stands, and its line is in the snapshot",
        save: [(3, 1, 3, 40), CLOSED],
        snaps: MADE,
        words: KEPT,
        snap: 3,
        want: (
            Answer::Settled {
                sequence: 4,
                epoch: 1,
                pages: 3,
            },
            1,
            16,
            0,
        ),
        save_then: [(3, 1, 3, 40), (4, 1, 3, 0)],
        snaps_then: MADE,
    },
    Case {
        name: "the pages of a snapshot with it are more than are let in",
        save: [BEGUN, (2, 1, 1, 40)],
        snaps: ONE,
        words: LINE,
        snap: 2,
        want: (
            Answer::Refused(SettleFault::Limit {
                have: 1,
                new: 2,
                room: 2,
            }),
            0,
            0,
            1,
        ),
        save_then: [BEGUN, (2, 1, 1, 40)],
        snaps_then: ONE,
    },
    Case {
        name: "more pages than are let in",
        save: [BEGUN, (2, 1, 3, 0)],
        snaps: MADE,
        words: &[],
        snap: 2,
        want: (
            Answer::Refused(SettleFault::Limit {
                have: 3,
                new: 0,
                room: 2,
            }),
            0,
            0,
            0,
        ),
        save_then: [BEGUN, (2, 1, 3, 0)],
        snaps_then: MADE,
    },
    Case {
        name: "no sequence is left, and an entry counts",
        save: [(LAST, 1, 1, 40), CLOSED],
        snaps: ONE,
        words: LINE,
        snap: 3,
        want: NO_SEQUENCE,
        save_then: [(LAST, 1, 1, 40), CLOSED],
        snaps_then: ONE,
    },
    Case {
        name: "no sequence is left",
        save: [(LAST, 1, 1, 40), CLOSED],
        snaps: ONE,
        words: LATER,
        snap: 1,
        want: NO_SEQUENCE,
        save_then: [(LAST, 1, 1, 40), CLOSED],
        snaps_then: ONE,
    },
];

#[test]
fn the_log_files_are_emptied_behind_a_savepoint_without_them(rt: HostRuntime) -> Result<(), Fail> {
    for case in &CASES {
        check_case(rt.alloc(), case)?;
    }
    Ok(())
}
