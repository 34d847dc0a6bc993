// Runs that make snapshots, of which a device fails.
ghost use Rattle.std.specs.Prelude.{IfOk};
ghost use Rattle.outside.specs.Disk.{IfTold, Only};

use super::failing_devices::check_failures;
use super::*;

pub(super) const SCRIPT: &[u8] = b"array 1 4\n0 w 1 2 7\njoin\nk glean\njoin\n";

// The device, and the first and the last of its calls at whose failure the run ends so: its status and its text, and
// what a dump and a list of the snapshots tell then. The last rows of each device are of the first call that the run
// doesn't make.
//
// The joins store savepoints by the calls 9 to 14 and 15 to 21 of the save. A glean asks each closed log file for its
// length, and reads what counts; pages are written and synced by two calls. Each swap empties what was closed.
pub(super) const FAILING: &str = "\
save # 0 # 8 # 5 # device save| # epoch 0| #
save # 9 # 14 # 5 # 0.0 ok 1:1|device save| # epoch 0| # snap 0 at 1|
save # 15 # 21 # 5 # 0.0 ok 1:1|durable 1|k.0 snap 1 new 2|device save| # epoch 1|1 2 7| # snap 0 at 1|
save # 22 # 22 # 0 # 0.0 ok 1:1|durable 1|k.0 snap 1 new 2|durable 2| # epoch 2|1 2 7| # snap 0 at 1|snap 1 at 3|
snaps # 0 # 2 # 5 # device snaps| # epoch 0| #
snaps # 3 # 4 # 5 # 0.0 ok 1:1|durable 1|k.0 device|device snaps| # epoch 1|1 2 7| # snap 0 at 1|
snaps # 5 # 5 # 0 # 0.0 ok 1:1|durable 1|k.0 snap 1 new 2|durable 2| # epoch 2|1 2 7| # snap 0 at 1|snap 1 at 3|
bank0 # 0 # 0 # 5 # device bank0| # epoch 0| # snap 0 at 1|
bank0 # 1 # 2 # 5 # 0.0 ok 1:1|device bank0| # epoch 0| # snap 0 at 1|
bank0 # 3 # 4 # 5 # 0.0 ok 1:1|durable 1|k.0 device|device bank0| # epoch 1|1 2 7| # snap 0 at 1|
bank0 # 5 # 5 # 5 # 0.0 ok 1:1|durable 1|k.0 snap 1 new 2|durable 2|device bank0| # epoch 2|1 2 7| # snap 0 at 1|\
snap 1 at 3|
bank0 # 6 # 6 # 0 # 0.0 ok 1:1|durable 1|k.0 snap 1 new 2|durable 2| # epoch 2|1 2 7| # snap 0 at 1|snap 1 at 3|
bank1 # 0 # 0 # 5 # device bank1| # epoch 0| # snap 0 at 1|
bank1 # 1 # 1 # 5 # 0.0 ok 1:1|durable 1|device bank1| # epoch 1|1 2 7| # snap 0 at 1|
bank1 # 2 # 2 # 0 # 0.0 ok 1:1|durable 1|k.0 snap 1 new 2|durable 2| # epoch 2|1 2 7| # snap 0 at 1|snap 1 at 3|
";

// The same of another worker's files, in which nothing is logged: a glean asks the first one for its length, and the
// swaps empty the second one and then the first.
fn check_files<R: Threads + Wait + Sync + AllocGlobal>(
    rt: &R,
    fresh: &[Vec<u8>],
    first: &str,
    second: &str,
) -> Result<(), Fail> {
    let rows = format!(in rt.alloc();
        "\
{second} # 1 # 1 # 5 # 0.0 ok 1:1|durable 1|device {second}| # epoch 1|1 2 7| # snap 0 at 1|
{second} # 2 # 2 # 0 # 0.0 ok 1:1|durable 1|k.0 snap 1 new 2|durable 2| # epoch 2|1 2 7| # snap 0 at 1|snap 1 at 3|
{first} # 1 # 1 # 5 # 0.0 ok 1:1|durable 1|k.0 device|device {first}| # epoch 1|1 2 7| # snap 0 at 1|
{first} # 2 # 2 # 5 # 0.0 ok 1:1|durable 1|k.0 snap 1 new 2|durable 2|device {first}| # epoch 2|1 2 7| # \
snap 0 at 1|snap 1 at 3|
{first} # 3 # 3 # 0 # 0.0 ok 1:1|durable 1|k.0 snap 1 new 2|durable 2| # epoch 2|1 2 7| # snap 0 at 1|snap 1 at 3|
"
    )?;
    for row in rows.lines() {
        check_failures(rt, fresh, ("run", SCRIPT), row)?;
    }
    Ok(())
}

fn check_all_files<R: Threads + Wait + Sync + AllocGlobal>(
    rt: &R,
    fresh: &[Vec<u8>],
) -> Result<(), Fail> {
    for worker in 1..8usize {
        let (first, second) = (bank_of(worker, 0), bank_of(worker, 1));
        check_files(rt, fresh, name_of(first), name_of(second))?;
    }
    Ok(())
}

#[test]
fn a_glean_reads_all_files(rt: HostRuntime) -> Result<(), Fail> {
    let fresh = fresh_files(rt.alloc())?;
    check_all_files(&rt, &fresh)
}

// Two closed log files, each with the call of a glean that fails: of workers of one mapper, and of both.
const TWO_FAIL: [((usize, u64), (usize, u64)); 6] = [
    ((0, 3), (4, 1)),
    ((0, 4), (7, 1)),
    ((1, 1), (5, 1)),
    ((3, 1), (4, 1)),
    ((1, 1), (2, 1)),
    ((5, 1), (7, 1)),
];

// A vault of which a call of each of two log files of even number fails.
fn failing_twice(
    alloc: Global,
    fresh: &[Vec<u8>],
    low: (usize, u64),
    high: (usize, u64),
) -> Result<Vault<FuseDisk<MemDisk>>, AllocError>
    ensures { IfOk result (λ vault. IfTold (⟦<FuseDisk<MemDisk> as Disk>⟧.tells vault.save)
        (Only ⟦<FuseDisk<MemDisk> as Disk>⟧.clock ⟦<FuseDisk<MemDisk> as Disk>⟧.image_at vault.save)) }
{
    let device = bank_of(high.0, 0);
    let other = troubled_disk(alloc, fresh, device, fails_at(device, high.1))?;
    let mut vault = troubled_vault(alloc, fresh, fails_at(bank_of(low.0, 0), low.1))?;
    if let Some(disk) = vault.even.get_mut(high.0) {
        *disk = other;
    }
    Ok(vault)
}

// Makes a run over a vault of which this device fails first. Answers what the devices hold then.
fn check_run<R: Threads + Wait + Sync + AllocGlobal>(
    rt: &R,
    vault: &mut Vault<FuseDisk<MemDisk>>,
    script: &[u8],
    device: &str,
    ended: (u8, &[u8]),
) -> Result<Files, Fail>
    requires { IfTold (⟦<FuseDisk<MemDisk> as Disk>⟧.tells vault.old.save)
        (Only ⟦<FuseDisk<MemDisk> as Disk>⟧.clock ⟦<FuseDisk<MemDisk> as Disk>⟧.image_at vault.old.save) }
{
    let (status, text) = answer(rt, vault, "run", script)?;
    is_answer(device, (status, &text), ended)?;
    Ok(files_of(rt.alloc(), vault)?)
}

// What devices hold behind a run in which both fail: the lower one is told.
fn left_by_two<R: Threads + Wait + Sync + AllocGlobal>(
    rt: &R,
    fresh: &[Vec<u8>],
    low: (usize, u64),
    high: (usize, u64),
) -> Result<Files, Fail> {
    let name = name_of(bank_of(low.0, 0));
    let told = format!(in rt.alloc(); "0.0 ok 1:1\ndurable 1\nk.0 device\ndevice {name}\n")?;
    let mut vault = failing_twice(rt.alloc(), fresh, low, high)?;
    check_run(rt, &mut vault, SCRIPT, name, (5, told.as_bytes()))
}

// And no snapshot is made.
fn check_twice<R: Threads + Wait + Sync + AllocGlobal>(
    rt: &R,
    fresh: &[Vec<u8>],
    low: (usize, u64),
    high: (usize, u64),
) -> Result<(), Fail> {
    let left = left_by_two(rt, fresh, low, high)?;
    check_over(rt, &left, ("dump", ""), (0, "epoch 1|1 2 7|"))?;
    check_over(rt, &left, ("snaps", ""), (0, "snap 0 at 1|"))
}

#[test]
fn the_lower_of_two_failing_log_files_is_told(rt: HostRuntime) -> Result<(), Fail> {
    let fresh = fresh_files(rt.alloc())?;
    for (low, high) in &TWO_FAIL {
        check_twice(&rt, &fresh, *low, *high)?;
    }
    Ok(())
}
