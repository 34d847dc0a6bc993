// Runs of which one call of one device fails.
ghost use Rattle.outside.specs.Disk.{IfTold, Only};

use super::{brief_runs, failing_gleans, *};

const SCRIPT: &[u8] = b"array 1 4\n0 w 1 2 7\njoin\n1 w 1 0 9\nk save\n";

// The device, and the first and the last of its calls at whose failure the run ends so: its status and its text, and
// what a dump tells then. The last rows of each device are of the first call that the run doesn't make.
//
// Of the save, a recovery makes a call for the length and one for each place. A store makes one that reads the valid
// byte, one that closes the place where it is open, a sync, and a write and a sync for the body and for the valid
// byte: so the run's four stores begin at the calls 3, 9, 15 and 22. Where its last sync fails the valid byte is taken
// back. Of a log file, settling makes a call that empties it, as does the first join of those of odd number, which grow
// from then on.
const FAILING: &str = "\
save # 0 # 8 # 5 # device save| # epoch 0|
save # 9 # 14 # 5 # 0.0 ok 1:1|device save| # epoch 0|
save # 15 # 21 # 5 # 0.0 ok 1:1|durable 1|1.0 ok 2:2|k.0 device|device save| # epoch 1|1 2 7|
save # 22 # 28 # 5 # 0.0 ok 1:1|durable 1|1.0 ok 2:2|k.0 save 1|device save| # epoch 1|1 2 7|
save # 29 # 29 # 0 # 0.0 ok 1:1|durable 1|1.0 ok 2:2|k.0 save 1|durable 2| # epoch 2|1 0 9|1 2 7|
snaps # 0 # 2 # 5 # device snaps| # epoch 0|
snaps # 3 # 3 # 0 # 0.0 ok 1:1|durable 1|1.0 ok 2:2|k.0 save 1|durable 2| # epoch 2|1 0 9|1 2 7|
bank0 # 0 # 0 # 5 # device bank0| # epoch 0|
bank0 # 1 # 2 # 5 # 0.0 ok 1:1|device bank0| # epoch 0|
bank0 # 3 # 3 # 0 # 0.0 ok 1:1|durable 1|1.0 ok 2:2|k.0 save 1|durable 2| # epoch 2|1 0 9|1 2 7|
bank2 # 0 # 0 # 5 # device bank2| # epoch 0|
bank2 # 1 # 1 # 0 # 0.0 ok 1:1|durable 1|1.0 ok 2:2|k.0 save 1|durable 2| # epoch 2|1 0 9|1 2 7|
bank1 # 0 # 0 # 5 # device bank1| # epoch 0|
bank1 # 1 # 1 # 5 # 0.0 ok 1:1|durable 1|device bank1| # epoch 1|1 2 7|
bank1 # 2 # 2 # 0 # 0.0 ok 1:1|durable 1|1.0 ok 2:2|k.0 save 1|durable 2| # epoch 2|1 0 9|1 2 7|
bank3 # 0 # 0 # 5 # device bank3| # epoch 0|
bank3 # 1 # 1 # 5 # 0.0 ok 1:1|durable 1|device bank3| # epoch 1|1 2 7|
bank3 # 2 # 3 # 5 # 0.0 ok 1:1|durable 1|1.0 ok 2:2|k.0 save 1|device bank3| # epoch 1|1 2 7|
bank3 # 4 # 4 # 0 # 0.0 ok 1:1|durable 1|1.0 ok 2:2|k.0 save 1|durable 2| # epoch 2|1 0 9|1 2 7|
";

const READING: &[u8] = b"array 1 4\n0 r 1 2\n";

// The same of a run over a vault that has a log entry, which becomes a snapshot first: two pages are appended and
// synced, a savepoint is stored that counts them, and the log files are cut.
const SETTLING: &str = "\
save # 0 # 8 # 5 # device save| # epoch 1|1 2 7|
save # 9 # 15 # 5 # 0.0 ok 2:1 7|device save| # epoch 1|1 2 7|
save # 16 # 16 # 0 # 0.0 ok 2:1 7|durable 2| # epoch 2|1 2 7|
snaps # 0 # 3 # 5 # device snaps| # epoch 1|1 2 7|
snaps # 4 # 4 # 0 # 0.0 ok 2:1 7|durable 2| # epoch 2|1 2 7|
bank0 # 0 # 2 # 5 # device bank0| # epoch 1|1 2 7|
bank0 # 3 # 3 # 0 # 0.0 ok 2:1 7|durable 2| # epoch 2|1 2 7|
";

// Compares what is told of what devices hold with a part of a row, if the row has it.
fn check_part<R: Threads + Wait + Sync + AllocGlobal>(
    rt: &R,
    files: &[Vec<u8>],
    asked: &str,
    text: Option<&str>,
) -> Result<(), Fail> {
    match text {
        Some(text) => check_over(rt, files, (asked, ""), (0, text.trim())),
        None => Ok(()),
    }
}

// Makes the call of a row over a vault, and compares what it tells. Answers what the devices hold then.
fn check_ended<R: Threads + Wait + Sync + AllocGlobal>(
    rt: &R,
    vault: &mut Vault<FuseDisk<MemDisk>>,
    asked: (&str, &[u8]),
    row: &str,
) -> Result<Files, Fail>
    requires { IfTold (⟦<FuseDisk<MemDisk> as Disk>⟧.tells vault.old.save)
        (Only ⟦<FuseDisk<MemDisk> as Disk>⟧.clock ⟦<FuseDisk<MemDisk> as Disk>⟧.image_at vault.old.save) }
{
    let (status, text) = answer(rt, vault, asked.0, asked.1)?;
    check_told(rt, row, (status, &text), (part(row, 3), part(row, 4)))?;
    Ok(files_of(rt.alloc(), vault)?)
}

// Makes the call of a row over what devices hold, one of which is in trouble, and compares what it tells. Answers what
// they hold then.
fn left_by<R: Threads + Wait + Sync + AllocGlobal>(
    rt: &R,
    files: &[Vec<u8>],
    asked: (&str, &[u8]),
    trouble: Trouble,
    row: &str,
) -> Result<Files, Fail> {
    let mut vault = troubled_vault(rt.alloc(), files, trouble)?;
    check_ended(rt, &mut vault, asked, row)
}

// Makes the call of a row over what devices hold, one call of which fails, and compares what it tells, and what a dump
// and a list of the snapshots tell then.
fn check_failure<R: Threads + Wait + Sync + AllocGlobal>(
    rt: &R,
    files: &[Vec<u8>],
    asked: (&str, &[u8]),
    trouble: Trouble,
    row: &str,
) -> Result<(), Fail> {
    let left = left_by(rt, files, asked, trouble, row)?;
    check_part(rt, &left, "dump", row.split('#').nth(5))?;
    check_part(rt, &left, "snaps", row.split('#').nth(6))
}

// Checks each failure of a row.
pub(super) fn check_failures<R: Threads + Wait + Sync + AllocGlobal>(
    rt: &R,
    files: &[Vec<u8>],
    asked: (&str, &[u8]),
    row: &str,
) -> Result<(), Fail> {
    let (first, last) = (part(row, 1).parse::<u64>()?, part(row, 2).parse::<u64>()?);
    let device = device_of(part(row, 0));
    for call in first..=last {
        check_failure(rt, files, asked, fails_at(device, call), row)?;
    }
    Ok(())
}

// The other log files are cut, and not called again.
const CUTS: &str = "\
bank0 # 0 # 0 # 5 # device bank0| # epoch 0|
bank1 # 0 # 0 # 5 # device bank1| # epoch 0|
bank2 # 0 # 0 # 5 # device bank2| # epoch 0|
bank3 # 0 # 0 # 5 # device bank3| # epoch 0|
bank4 # 0 # 0 # 5 # device bank4| # epoch 0|
bank5 # 0 # 0 # 5 # device bank5| # epoch 0|
bank6 # 0 # 0 # 5 # device bank6| # epoch 0|
bank7 # 0 # 0 # 5 # device bank7| # epoch 0|
bank8 # 0 # 0 # 5 # device bank8| # epoch 0|
bank9 # 0 # 0 # 5 # device bank9| # epoch 0|
bank10 # 0 # 0 # 5 # device bank10| # epoch 0|
bank11 # 0 # 0 # 5 # device bank11| # epoch 0|
bank12 # 0 # 0 # 5 # device bank12| # epoch 0|
bank13 # 0 # 0 # 5 # device bank13| # epoch 0|
bank14 # 0 # 0 # 5 # device bank14| # epoch 0|
bank15 # 0 # 0 # 5 # device bank15| # epoch 0|
";

// The first call of each device that a listing reads.
const LISTING: &str = "\
save # 0 # 0 # 5 # device save|
snaps # 0 # 0 # 5 # device snaps|
bank0 # 0 # 0 # 5 # device bank0|
";

// What devices hold at first, the words after the name, the script, and the failures.
const FAILURES: [(First, &str, &[u8], &str); 9] = [
    (First::Fresh, "run", SCRIPT, FAILING),
    (First::Fresh, "run", SCRIPT, CUTS),
    (First::Kept(2, 1, 1, 40), "run", READING, SETTLING),
    (
        First::Fresh,
        "run",
        failing_gleans::SCRIPT,
        failing_gleans::FAILING,
    ),
    (
        First::Fresh,
        "run --brief",
        brief_runs::ON_AN_ARRAY,
        brief_runs::FAILING,
    ),
    (
        First::Fresh,
        "run --brief",
        brief_runs::ON_A_TREE,
        brief_runs::FAILING,
    ),
    (First::Kept(2, 1, 1, 40), "snaps", b"", LISTING),
    (First::Kept(2, 1, 1, 40), "snap 0", b"", LISTING),
    (First::Kept(2, 1, 1, 40), "snap 7", b"", LISTING),
];

fn check_each<R: Threads + Wait + Sync + AllocGlobal>(
    rt: &R,
    files: &[Vec<u8>],
    asked: (&str, &[u8]),
    rows: &str,
) -> Result<(), Fail> {
    for row in rows.lines() {
        check_failures(rt, files, asked, row)?;
    }
    Ok(())
}

fn check_all_failures<R: Threads + Wait + Sync + AllocGlobal>(
    rt: &R,
    first: First,
    asked: (&str, &[u8]),
    rows: &str,
) -> Result<(), Fail> {
    let files = first_files(rt.alloc(), first)?;
    check_each(rt, &files, asked, rows)
}

#[test]
fn each_call_of_a_device_may_fail(rt: HostRuntime) -> Result<(), Fail> {
    for (first, asked, script, rows) in &FAILURES {
        check_all_failures(&rt, *first, (asked, script), rows)?;
    }
    Ok(())
}

// A hundred lines that set a value, and the row of what is told of them: 93 lines of 40 bytes leave fewer than 400 bytes
// of the buffer free, so the first write of the log file, its second call, stands before the next one.
fn hundred_lines(alloc: Global, script: &mut Vec<u8>, row: &mut String) -> Result<(), AllocError> {
    script.extend_from_slice(b"array 1 4\n")?;
    row.push_str("bank0 # 1 # 1 # 5 # ")?;
    for index in 0..100 {
        script.extend_from_slice(b"0 w 1 0 1\n")?;
        add_line(alloc, row, index)?;
    }
    row.push_str("device bank0| # epoch 0|")
}

fn add_line(alloc: Global, row: &mut String, index: u32) -> Result<(), AllocError> {
    if index < 93 {
        return add_run(alloc, row, index);
    }
    let line = format!(in alloc; "0.{index} unrun|")?;
    row.push_str(line.as_str())
}

fn add_run(alloc: Global, row: &mut String, index: u32) -> Result<(), AllocError> {
    let line = format!(in alloc; "0.{index} ok 1:{}|", index.wrapping_add(1))?;
    row.push_str(line.as_str())
}

#[test]
fn a_log_file_that_fails_ends_its_worker(rt: HostRuntime) -> Result<(), Fail> {
    let (mut script, mut row) = (Vec::new(rt.alloc()), String::new(rt.alloc()));
    hundred_lines(rt.alloc(), &mut script, &mut row)?;
    let fresh = fresh_files(rt.alloc())?;
    check_failures(&rt, &fresh, ("run", &script), row.as_str())
}
