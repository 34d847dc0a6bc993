// One device stops behind so many of its calls: what is recovered then, and how the next run goes on.
ghost use Rattle.outside.specs.Disk.{IfTold, Only};

use super::failing_calls::number_in_run;
use super::images::{Pending, left_now};
use super::*;

// Runs of which each join saves an epoch, and each store of a savepoint is the next one.
#[derive(Clone, Copy)]
struct Runs {
    // The run before, if there is one.
    before: Option<&'static str>,
    script: &'static str,
    // How many stores there were before, and once it is settled.
    first: usize,
    settled: usize,
    // Behind so many stores, what a dump tells, and a run that reads the third value.
    saved: &'static [(&'static str, &'static str)],
}

// A write, a snapshot for which the page is dropped, an empty round, and a read.
const OVER_NOTHING: Runs = Runs {
    before: None,
    script: "array 1 4|0 w 1 2 7|join|k glean|k drop|join|join|0 r 1 2|",
    first: 0,
    settled: 1,
    saved: &[
        ("epoch 0|", "0.0 ok 1:1 0|durable 1|"),
        ("epoch 0|", "0.0 ok 1:1 0|durable 1|"),
        ("epoch 1|1 2 7|", "0.0 ok 2:1 7|durable 2|"),
        ("epoch 2|1 2 7|", "0.0 ok 3:1 7|durable 3|"),
        ("epoch 3|1 2 7|", "0.0 ok 4:1 7|durable 4|"),
        ("epoch 4|1 2 7|", "0.0 ok 5:1 7|durable 5|"),
    ],
};

// Over log entries, of which a snapshot is made first: two snapshots more, beside writes.
const OVER_ENTRIES: Runs = Runs {
    before: Some("array 1 4|0 w 1 2 5|1 w 1 0 1|"),
    script: "array 1 4|0 w 1 2 7|join|0 w 1 2 8|k glean|k drop|join|1 w 1 2 9|k glean|",
    first: 2,
    settled: 3,
    saved: &[
        ("", ""),
        ("", ""),
        ("epoch 1|1 0 1|1 2 5|", "0.0 ok 2:1 5|durable 2|"),
        ("epoch 1|1 0 1|1 2 5|", "0.0 ok 2:1 5|durable 2|"),
        ("epoch 2|1 0 1|1 2 7|", "0.0 ok 3:1 7|durable 3|"),
        ("epoch 3|1 0 1|1 2 8|", "0.0 ok 4:1 8|durable 4|"),
        ("epoch 4|1 0 1|1 2 9|", "0.0 ok 5:1 9|durable 5|"),
    ],
};

// What is left of each call behind the last sync: nothing, all, a half, one byte of its range, the valid byte, another.
const LEFT: [Pending; 6] = [
    Pending::Lost,
    Pending::Kept,
    Pending::Torn(128),
    Pending::Torn(1),
    Pending::Other(0xA5),
    Pending::Other(0x5A),
];

// More calls than any device has.
const MOST_CALLS: u64 = 100;

// How many stores have ended by what was told durable: each such line tells of one more.
fn told_durable(text: &[u8], runs: &Runs) -> usize {
    let told = str::from_utf8(text)
        .unwrap_or("")
        .lines()
        .filter(|line| line.starts_with("durable"))
        .count();
    if told == 0 {
        return runs.first;
    }
    told.saturating_add(runs.settled)
}

// How the next run goes on where a dump tells this, behind so many stores or more.
fn next_of(
    alloc: Global,
    saved: &[(&'static str, &'static str)],
    least: usize,
    dump: &[u8],
) -> Result<&'static str, Fail> {
    for (kept, next) in saved.iter().skip(least) {
        if lines(alloc, kept)?.as_slice() == dump {
            return Ok(next);
        }
    }
    Err(Fail::from("a dump behind a stop"))
}

// What is recovered is an epoch, none before the last that was told durable, and the run through it; and the next run
// begins there.
fn check_left<R: Threads + Wait + Sync + AllocGlobal>(
    rt: &R,
    left: &[Vec<u8>],
    (runs, least): (&Runs, usize),
    runs_on: bool,
) -> Result<(), Fail> {
    let kept = kept_in(rt.alloc(), left)?;
    let next = next_of(rt.alloc(), runs.saved, least, &kept)?;
    if runs_on {
        check_over(rt, left, ("run", "array 1 4|0 r 1 2|"), (0, next))?;
    }
    Ok(())
}

// The same where this is left of the last calls.
fn check_pending<R: Threads + Wait + Sync + AllocGlobal>(
    rt: &R,
    (vault, first): (&Vault<FuseDisk<MemDisk>>, &[Vec<u8>]),
    pending: Pending,
    (runs, least): (&Runs, usize),
    runs_on: bool,
) -> Result<(), Fail> {
    let left = left_now(rt.alloc(), vault, first, pending)?;
    check_left(rt, &left, (runs, least), runs_on)
}

// Whatever is left of them. One kind of what is left after another is run on.
fn check_each_pending<R: Threads + Wait + Sync + AllocGlobal>(
    rt: &R,
    (vault, first): (&Vault<FuseDisk<MemDisk>>, &[Vec<u8>]),
    (runs, least): (&Runs, usize),
    passes: u64,
) -> Result<(), Fail> {
    for (kind, pending) in LEFT.iter().enumerate() {
        let runs_on = passes % 6 == kind as u64;
        check_pending(rt, (vault, first), *pending, (runs, least), runs_on)?;
    }
    Ok(())
}

// Stops a device behind so many of its calls, and recovers what may be left. Whether the run was finished.
fn check_stop<R: Threads + Wait + Sync + AllocGlobal>(
    rt: &R,
    first: &[Vec<u8>],
    runs: &Runs,
    device: usize,
    passes: u64,
) -> Result<bool, Fail> {
    let mut vault = troubled_vault(rt.alloc(), first, stops_behind(device, passes))?;
    check_stopped(rt, &mut vault, first, runs, passes)
}

// The same over a vault, which is lent: what is owned at a `?` costs a proof.
fn check_stopped<R: Threads + Wait + Sync + AllocGlobal>(
    rt: &R,
    vault: &mut Vault<FuseDisk<MemDisk>>,
    first: &[Vec<u8>],
    runs: &Runs,
    passes: u64,
) -> Result<bool, Fail>
    requires { IfTold (⟦<FuseDisk<MemDisk> as Disk>⟧.tells vault.old.save)
        (Only ⟦<FuseDisk<MemDisk> as Disk>⟧.clock ⟦<FuseDisk<MemDisk> as Disk>⟧.image_at vault.old.save) }
{
    let (status, text) = answer_failing(rt, vault, ("run", runs.script), SURE)?;
    let least = told_durable(&text, runs);
    check_each_pending(rt, (&*vault, first), (runs, least), passes)?;
    Ok(status == 0)
}

fn check_device<R: Threads + Wait + Sync + AllocGlobal>(
    rt: &R,
    first: &[Vec<u8>],
    runs: &Runs,
    device: usize,
) -> Result<(), Fail> {
    for passes in 0..MOST_CALLS {
        if check_stop(rt, first, runs, device, passes)? {
            return Ok(());
        }
    }
    Err(Fail::from("more calls than a device has"))
}

fn check_devices<R: Threads + Wait + Sync + AllocGlobal>(rt: &R, runs: &Runs) -> Result<(), Fail> {
    let first = files_behind(rt, runs.before)?;
    for device in 0..NAMES.len() {
        check_device(rt, &first, runs, device)?;
    }
    Ok(())
}

// Wherever any of the devices stops, and whatever it leaves of its last calls.
#[test]
fn each_device_stops_at_each_call(rt: HostRuntime) -> Result<(), Fail> {
    check_devices(&rt, &OVER_NOTHING)
}

#[test]
fn each_device_stops_over_log_entries(rt: HostRuntime) -> Result<(), Fail> {
    check_devices(&rt, &OVER_ENTRIES)
}

const TWICE: &str = "array 1 1|0 w 1 0 1|join|0 w 1 0 2|";

// What the devices leave where the save stops within the write of the valid byte of the third savepoint, its seventh.
fn left_within_the_byte<R: Threads + Wait + Sync + AllocGlobal>(rt: &R) -> Result<Files, Fail> {
    let number = number_in_run(rt, TWICE, true, 7)?;
    let trouble = stops_behind(SAVE, number.saturating_add(1));
    let first = fresh_files(rt.alloc())?;
    let mut vault = troubled_vault(rt.alloc(), &first, trouble)?;
    left_of_twice(rt, &mut vault, &first)
}

fn left_of_twice<R: Threads + Wait + Sync + AllocGlobal>(
    rt: &R,
    vault: &mut Vault<FuseDisk<MemDisk>>,
    first: &[Vec<u8>],
) -> Result<Files, Fail>
    requires { IfTold (⟦<FuseDisk<MemDisk> as Disk>⟧.tells vault.old.save)
        (Only ⟦<FuseDisk<MemDisk> as Disk>⟧.clock ⟦<FuseDisk<MemDisk> as Disk>⟧.image_at vault.old.save) }
{
    let (status, text) = answer_failing(rt, vault, ("run", TWICE), SURE)?;
    let told = "0.0 ok 1:1|durable 1|0.0 ok 2:2|device save|";
    is_text(rt.alloc(), (status, &text), (5, told))?;
    Ok(left_now(rt.alloc(), vault, first, Pending::Kept)?)
}

// Puts a byte at the begin of the save.
fn set_first(files: &mut Files, byte: u8) {
    if let Some(save) = files.first_mut() {
        if let Some(first) = save.first_mut() {
            *first = byte;
        }
    }
}

// The savepoint counts exactly where its valid byte arrived.
fn check_byte<R: Threads + Wait + Sync + AllocGlobal>(
    rt: &R,
    left: &mut Files,
    byte: u8,
) -> Result<(), Fail> {
    set_first(left, byte);
    let kept = if byte == 0xA5 {
        "epoch 2|1 0 2|"
    } else {
        "epoch 1|1 0 1|"
    };
    check_kept(rt.alloc(), left.as_slice(), kept)?;
    if byte % 55 == 0 {
        check_over(rt, left.as_slice(), ("dump", ""), (0, kept))?;
    }
    Ok(())
}

#[test]
fn a_stop_within_the_valid_byte(rt: HostRuntime) -> Result<(), Fail> {
    let mut left = left_within_the_byte(&rt)?;
    for byte in 0..=255u8 {
        check_byte(&rt, &mut left, byte)?;
    }
    Ok(())
}
