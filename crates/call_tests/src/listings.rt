// What a database tells of its snapshots: which there are, what each has, and why it can't be told.
use super::*;

// The words after the name, the script, the status and the text, with bars for newlines; one call after another. A
// snapshot is made as the next run begins, of what was logged above the newest one.
pub(super) const RUNS: &str = "\
snaps # # 0 #
snap 0 # # 9 # no snapshot 0|
run # array 1 4|0 w 1 2 7; r 1 2|0 r 1 0| # 0 # 0.0 ok 1:1 7|0.1 ok 1:2 0|durable 1|
snaps # # 0 # snap 0 at 1|
snap 0 # # 0 # epoch 0|
snap 1 # # 9 # no snapshot 1|
run # array 1 4|0 r 1 2| # 0 # 0.0 ok 2:1 7|durable 2|
snaps # # 0 # snap 0 at 1|snap 1 at 3|
snap 1 # # 0 # epoch 1|1 2 7|
snap 2 # # 9 # no snapshot 2|
run # array 1 4|0 a 1 2 1; w 1 0 9| # 0 # 0.0 ok 3:1|durable 3|
snaps # # 0 # snap 0 at 1|snap 1 at 3|
run --snap 4 # array 1 4| # 7 # limit snap|
run --snap 5 # array 1 4| # 0 # durable 4|
snaps # # 0 # snap 0 at 1|snap 1 at 3|snap 3 at 5|
snap 0 # # 0 # epoch 0|
snap 1 # # 0 # epoch 1|1 2 7|
snap 3 # # 0 # epoch 3|1 0 9|1 2 8|
snap 4 # # 9 # no snapshot 4|
dump # # 0 # epoch 4|1 0 9|1 2 8|
snap 1048575 # # 9 # no snapshot 1048575|
snap 1048576 # # 2 # usage|
snap # # 2 # usage|
snaps 3 # # 2 # usage|
";

// Keys of trees that are removed are gone from the next snapshot only.
pub(super) const RUNS_OVER_A_TREE: &str = "\
run # tree 2|array 1 4|0 w 2 5 0; w 2 9 1; w 1 1 3| # 0 # 0.0 ok 1:1|durable 1|
run # tree 2|array 1 4|0 d 2 9; a 2 5 4; t 1 1 3| # 0 # 0.0 ok 2:1|durable 2|
run # tree 2|array 1 4| # 0 # durable 3|
snap 1 # # 0 # epoch 1|1 1 3|2 5 0|2 9 1|
snap 2 # # 0 # epoch 2|2 5 4|
snap 3 # # 9 # no snapshot 3|
";

// The bytes with this one at a place that they have.
fn with_byte(alloc: Global, bytes: &[u8], at: usize, byte: u8) -> Result<Vec<u8>, AllocError> {
    let mut bytes = bytes.to_vec(alloc)?;
    if at < bytes.len() {
        bytes[at] = byte;
    }
    Ok(bytes)
}

// The vault whose snapshots have this byte at this place.
fn changed(
    alloc: Global,
    vault: &Vault<MemDisk>,
    at: usize,
    byte: u8,
) -> Result<Vault<MemDisk>, AllocError> {
    let bytes = with_byte(alloc, vault.snaps.bytes(), at, byte)?;
    let snaps = disk_of(alloc, &bytes, &[])?;
    let mut changed = anew(alloc, vault, &[])?;
    changed.snaps = snaps;
    Ok(changed)
}

// Catalogues are on the first, the third and the fifth page, the leaves of two snapshots on the others. Of older
// snapshots the catalogues alone are read for another.
const BROKEN: [(usize, &str); 5] = [
    (
        0,
        "\
snaps # # 6 # damaged snaps 0|
snap 0 # # 6 # damaged snaps 0|
snap 7 # # 6 # damaged snaps 0|
",
    ),
    (
        1024,
        "\
snaps # # 6 # damaged snaps 1024|
snap 3 # # 6 # damaged snaps 1024|
",
    ),
    (
        2048,
        "\
snaps # # 6 # damaged snaps 2048|
snap 1 # # 6 # damaged snaps 2048|
",
    ),
    (
        1023,
        "\
snaps # # 0 # snap 0 at 1|snap 1 at 3|snap 3 at 5|
snap 0 # # 0 # epoch 0|
snap 1 # # 6 # damaged snaps 512|
snap 3 # # 0 # epoch 3|1 0 9|1 2 8|
dump # # 0 # epoch 4|1 0 9|1 2 8|
",
    ),
    (
        2047,
        "\
snaps # # 6 # damaged snaps 1536|
snap 1 # # 6 # damaged snaps 1536|
",
    ),
];

fn check_changed<R: Threads + Wait + Sync + AllocGlobal>(
    rt: &R,
    vault: &Vault<MemDisk>,
    at: usize,
    rows: &str,
) -> Result<(), Fail> {
    let mut broken = changed(rt.alloc(), vault, at, 9)?;
    check_rows(rt, &mut broken, rows)
}

fn check_broken<R: Threads + Wait + Sync + AllocGlobal>(
    rt: &R,
    vault: &Vault<MemDisk>,
) -> Result<(), Fail> {
    for (at, rows) in &BROKEN {
        check_changed(rt, vault, *at, rows)?;
    }
    Ok(())
}

// The rows of runs, and those of what is told once a page of it has changed. The database is lent: what is owned at a
// `?` costs a proof.
fn check_damaged<R: Threads + Wait + Sync + AllocGlobal>(
    rt: &R,
    vault: &mut Vault<MemDisk>,
) -> Result<(), Fail> {
    check_rows(rt, vault, RUNS)?;
    check_broken(rt, vault)
}

#[test]
fn a_damaged_page_is_told(rt: HostRuntime) -> Result<(), Fail> {
    let mut vault = fresh_vault(rt.alloc())?;
    check_damaged(&rt, &mut vault)
}

// The sink fails in the last line, and no source is read.
#[test]
fn a_sink_that_fails_ends_a_listing(rt: HostRuntime) -> Result<(), Fail> {
    check_call(&rt, ("snap 0", b""), (0, 9), 9, "no snapshot 0\n")?;
    check_call(&rt, ("snap 0", b""), (0, 0), 4, "no snap")
}
