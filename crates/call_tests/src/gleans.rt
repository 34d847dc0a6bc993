// Runs that make snapshots, and what is told of them afterwards.
use super::*;

// The words after the name, the script, the status and the text, with bars for newlines; one call after another. The
// pages of a snapshot are what is new of its storages, each page's children before it, and its catalogue.
pub(super) const A_SNAPSHOT: &str = "\
run # array 1 4|0 w 1 2 7|join|k glean|join # 0 # 0.0 ok 1:1|durable 1|k.0 snap 1 new 2|durable 2|
dump # # 0 # epoch 2|1 2 7|
snaps # # 0 # snap 0 at 1|snap 1 at 3|
snap 0 # # 0 # epoch 0|
snap 1 # # 0 # epoch 1|1 2 7|
snap 2 # # 9 # no snapshot 2|
run --snap 3 # array 1 4|0 r 1 2; a 1 2 1|k glean| # 0 # 0.0 ok 3:1 7|k.0 none|durable 3|
snaps # # 0 # snap 0 at 1|snap 1 at 3|
run --snap 4 # array 1 4| # 7 # limit snap|
run --snap 5 # array 1 4|0 r 1 2|join|k glean| # 0 # 0.0 ok 4:1 8|durable 4|k.0 none|durable 5|
snaps # # 0 # snap 0 at 1|snap 1 at 3|snap 3 at 5|
snap 3 # # 0 # epoch 3|1 2 8|
";

// A second one within a round finds nothing, nor does one of what was committed in its own round.
pub(super) const AGAIN: &str = "\
run # array 1 4|0 w 1 0 1|k glean|join|k glean|k glean| # 0 # 0.0 ok 1:1|k.0 none|durable 1|k.0 snap 1 new 2|\
k.1 none|durable 2|
run # array 1 4|k glean # 0 # k.0 none|durable 3|
run # array 1 4|0 t 1 0 5; w 1 1 1|1 r 1 0|join|k glean # 0 # 0.0 short 4:1|1.0 ok 4:2 1|durable 4|k.0 none|durable 5|
run # array 1 4|0 w 1 0 0|k epoch|join|k epoch|k glean|k save # 0 # 0.0 ok 6:1|k.0 epoch 7|durable 7|k.0 epoch 9|\
k.1 snap 7 new 2|k.2 save 8|durable 9|
snap 7 # # 0 # epoch 7|
snap 1 # # 0 # epoch 1|1 0 1|
";

// An array of three levels: a leaf, the page above it, the root and the catalogue.
pub(super) const A_HIGH_ARRAY: &str = "\
run # array 1 2049|0 w 1 2048 1|join|k glean # 0 # 0.0 ok 1:1|durable 1|k.0 snap 1 new 4|durable 2|
snap 1 # # 0 # epoch 1|1 2048 1|
";

// What can't be a snapshot for want of pages stays in the log files, which go on, and is one where there are enough.
pub(super) const NO_ROOM: &str = "\
run --snap 1 # array 1 4|0 w 1 0 1|join|k glean # 0 # 0.0 ok 1:1|durable 1|k.0 snap-full|durable 2|
run --snap 1 # array 1 4| # 7 # limit snap|
run --snap 3 # array 1 4| # 0 # durable 3|
snaps # # 0 # snap 0 at 1|snap 2 at 3|
run --snap 5 # array 1 4|0 w 1 0 2|join|k glean|0 w 1 1 2|join|k glean|0 w 1 2 3|join|k glean|k glean # 0 # \
0.0 ok 4:1|durable 4|0.0 ok 5:2|k.0 snap 4 new 2|durable 5|0.0 ok 6:3|k.0 snap-full|durable 6|k.0 snap-full|\
k.1 snap-full|durable 7|
dump # # 0 # epoch 7|1 0 2|1 1 2|1 2 3|
snap 4 # # 0 # epoch 4|1 0 2|
run --snap 6 # array 1 4| # 7 # limit snap|
run --snap 7 # array 1 4|k glean|1 r 1 2 # 0 # 1.0 ok 8:1 3|k.0 none|durable 8|
snaps # # 0 # snap 0 at 1|snap 2 at 3|snap 4 at 5|snap 7 at 7|
";

// With one page too few nothing is published, and the lines go on.
pub(super) const ONE_PAGE_TOO_FEW: &str = "\
run --snap 2 # array 1 4|0 w 1 0 1|join|0 r 1 0|k glean|join|0 r 1 0; a 1 0 1; r 1 0 # 0 # 0.0 ok 1:1|durable 1|\
0.0 ok 2:2 1|k.0 snap-full|durable 2|0.0 ok 3:3 1 2|durable 3|
";

// Seventeen keys are two leaves, of which the second begins at 10. It alone is new for a greater key.
pub(super) const A_TREE: &str = "\
run # tree 2|0 w 2 1 1|0 w 2 2 2|0 w 2 3 3|0 w 2 4 4|0 w 2 5 5|0 w 2 6 6|0 w 2 7 7|0 w 2 8 8|0 w 2 9 9|0 w 2 10 10|\
0 w 2 11 11|0 w 2 12 12|0 w 2 13 13|0 w 2 14 14|0 w 2 15 15|0 w 2 16 16|0 w 2 17 17|join|k glean|join|0 w 2 20 20|\
join|k glean # 0 # 0.0 ok 1:1|0.1 ok 1:2|0.2 ok 1:3|0.3 ok 1:4|0.4 ok 1:5|0.5 ok 1:6|0.6 ok 1:7|0.7 ok 1:8|\
0.8 ok 1:9|0.9 ok 1:10|0.10 ok 1:11|0.11 ok 1:12|0.12 ok 1:13|0.13 ok 1:14|0.14 ok 1:15|0.15 ok 1:16|0.16 ok 1:17|\
durable 1|k.0 snap 1 new 4|durable 2|0.0 ok 3:18|durable 3|k.0 snap 3 new 3|durable 4|
snaps # # 0 # snap 0 at 1|snap 1 at 5|snap 3 at 8|
snap 1 # # 0 # epoch 1|2 1 1|2 2 2|2 3 3|2 4 4|2 5 5|2 6 6|2 7 7|2 8 8|2 9 9|2 10 10|2 11 11|2 12 12|2 13 13|2 14 14|\
2 15 15|2 16 16|2 17 17|
run # tree 2|0 s 2 9 11; s 2 17 20; s 2 2 17; d 2 9; d 2 99 # 0 # 0.0 ok 5:1 9=9,10=10,11=11 17=17,20=20 2=2,3=3,4=4,\
5=5,6=6,7=7,8=8,9=9,10=10,11=11,12=12,13=13,14=14,15=15,16=16,17=17|durable 5|
run # tree 2|0 s 2 8 10; w 2 9 1; d 2 9|join|k glean # 0 # 0.0 ok 6:1 8=8,10=10|durable 6|k.0 snap 6 new 3|durable 7|
snaps # # 0 # snap 0 at 1|snap 1 at 5|snap 3 at 8|snap 5 at 11|snap 6 at 14|
";

// Two trees and an array with the same keys over four calls, with a snapshot of each but the last.
pub(super) const TREES_AND_AN_ARRAY: &str = "\
run # tree 2|array 1 4|tree 3|0 w 1 1 1; w 2 1 2; w 3 1 3|1 w 2 18446744073709551615 4; w 2 0 5|join|k glean # 0 # \
0.0 ok 1:1|1.0 ok 1:2|durable 1|k.0 snap 1 new 4|durable 2|
dump # # 0 # epoch 2|1 1 1|2 0 5|2 1 2|2 18446744073709551615 4|3 1 3|
snap 1 # # 0 # epoch 1|1 1 1|2 0 5|2 1 2|2 18446744073709551615 4|3 1 3|
run # tree 2|array 1 4|tree 3|0 d 2 1; d 3 1|1 r 1 1; r 2 1; r 3 1|join|k glean # 0 # 0.0 ok 3:1|1.0 ok 3:2 1 - -|\
durable 3|k.0 snap 3 new 3|durable 4|
dump # # 0 # epoch 4|1 1 1|2 0 5|2 18446744073709551615 4|
snap 3 # # 0 # epoch 3|1 1 1|2 0 5|2 18446744073709551615 4|
run # tree 2|array 1 4|tree 3|0 w 1 1 0; w 2 1 0; s 2 0 18446744073709551615 # 0 # 0.0 ok 5:1 0=5,1=0,\
18446744073709551615=4|durable 5|
dump # # 0 # epoch 5|2 0 5|2 1 0|2 18446744073709551615 4|
snap 3 # # 0 # epoch 3|1 1 1|2 0 5|2 18446744073709551615 4|
run # tree 2|array 1 4|tree 3| # 0 # durable 6|
dump # # 0 # epoch 6|2 0 5|2 1 0|2 18446744073709551615 4|
snap 5 # # 0 # epoch 5|2 0 5|2 1 0|2 18446744073709551615 4|
snap 1 # # 0 # epoch 1|1 1 1|2 0 5|2 1 2|2 18446744073709551615 4|3 1 3|
";

fn add_round(alloc: Global, script: &mut String, round: u64) -> Result<(), AllocError> {
    let line = format!(in alloc;
        "{} w 1 {} {round}; a 2 {} 1; w 3 {} {round}; w 4 {} {round}; d 4 {}\n{}join\n",
        round % 3,
        round % 4,
        round.wrapping_mul(40) % 160,
        round.wrapping_mul(13_000) % 131_072,
        round.wrapping_mul(7) % 5,
        round % 3,
        if round % 3 == 0 { "k glean\n" } else { "" }
    )?;
    script.push_str(line.as_str())
}

// Arrays of all heights and a tree. Each round changes each of them at other keys, and each third one makes a snapshot.
fn rounds(alloc: Global, count: u64) -> Result<String, AllocError> {
    let mut script = String::from_str(alloc, "array 1 4\narray 2 160\narray 3 131072\ntree 4\n")?;
    for round in 1..=count {
        add_round(alloc, &mut script, round)?;
    }
    Ok(script)
}

fn run_rounds<R: Threads + Wait + Sync + AllocGlobal>(
    rt: &R,
    vault: &mut Vault<MemDisk>,
    count: u64,
) -> Result<(), Fail> {
    let script = rounds(rt.alloc(), count)?;
    let (status, _text) = answer_anew(rt, vault, "run", script.as_bytes())?;
    is_so("rounds", status == 0)
}

// The epochs of the snapshots but the first, and the words that ask for each.
const EPOCHS: [(u64, &str); 3] = [(1, "snap 1"), (3, "snap 3"), (6, "snap 6")];

// How many lines begin with this, and with ` at `.
fn lines_of(text: &[u8], start: &str) -> usize {
    let mut count: usize = 0;
    for line in str::from_utf8(text).unwrap_or("").lines() {
        if let Some(rest) = line.strip_prefix(start) {
            if rest.starts_with(" at ") {
                count = count.wrapping_add(1);
            }
        }
    }
    count
}

fn check_listed<R: Threads + Wait + Sync + AllocGlobal>(
    rt: &R,
    vault: &mut Vault<MemDisk>,
) -> Result<(), Fail> {
    let (_status, told) = answer_anew(rt, vault, "snaps", b"")?;
    for (_, asked) in &EPOCHS {
        is_so(asked, lines_of(&told, asked) == 1)?;
    }
    let lines = str::from_utf8(&told).unwrap_or("").lines().count();
    is_so("four snapshots", lines == 4)
}

// What a run keeps that was cut off at an epoch, and what the snapshot of that epoch has.
fn check_cut_off<R: Threads + Wait + Sync + AllocGlobal>(
    rt: &R,
    vault: &mut Vault<MemDisk>,
    epoch: u64,
    asked: &str,
) -> Result<(), Fail> {
    let kept = kept_at(rt, epoch)?;
    check_answer(rt, vault, asked, b"", (0, &kept))
}

fn kept_at<R: Threads + Wait + Sync + AllocGlobal>(rt: &R, epoch: u64) -> Result<Vec<u8>, Fail> {
    let mut cut = fresh_vault(rt.alloc())?;
    kept_over(rt, &mut cut, epoch)
}

// The same over a fresh database that is lent: what is owned at a `?` costs a proof.
fn kept_over<R: Threads + Wait + Sync + AllocGlobal>(
    rt: &R,
    vault: &mut Vault<MemDisk>,
    epoch: u64,
) -> Result<Vec<u8>, Fail> {
    run_rounds(rt, vault, epoch)?;
    let (_status, kept) = answer_anew(rt, vault, "dump", b"")?;
    Ok(kept)
}

// A snapshot has what a database keeps whose run was cut off at its epoch.
fn check_snapshots<R: Threads + Wait + Sync + AllocGlobal>(
    rt: &R,
    vault: &mut Vault<MemDisk>,
) -> Result<(), Fail> {
    run_rounds(rt, vault, 10)?;
    check_listed(rt, vault)?;
    for (epoch, asked) in &EPOCHS {
        check_cut_off(rt, vault, *epoch, asked)?;
    }
    Ok(())
}

#[test]
fn a_snapshot_is_the_run_cut_off(rt: HostRuntime) -> Result<(), Fail> {
    let mut vault = fresh_vault(rt.alloc())?;
    check_snapshots(&rt, &mut vault)
}

fn add_nine(alloc: Global, script: &mut String, round: u64) -> Result<(), AllocError> {
    let lines = format!(in alloc;
        "\
join
0 w 2 {round}1 1; w 2 {round}2 1; w 2 {round}3 1; w 2 {round}4 1; w 2 {round}5 1; w 2 {round}6 1; w 2 {round}7 1; \
w 2 {round}8 1; w 2 {round}9 1
k glean
"
    )?;
    script.push_str(lines.as_str())
}

fn add_told(alloc: Global, text: &mut String, round: u64) -> Result<(), AllocError> {
    let (epoch, new) = (
        round.wrapping_sub(1),
        if round == 2 { 2 } else { round.wrapping_add(1) },
    );
    let told = format!(in alloc;
        "0.0 ok {round}:{round}\nk.0 snap {epoch} new {new}\ndurable {round}\n"
    )?;
    text.push_str(told.as_str())
}

// Adds a script of so many rounds over a tree, and its text. Each puts nine keys behind the eight in the last leaf,
// which is cut: the snapshot of so many levels has the pages above that leaf once more, three in its place, and its
// catalogue.
fn add_deepening(
    alloc: Global,
    script: &mut String,
    text: &mut String,
    rounds: u64,
) -> Result<(), AllocError> {
    let first =
        "tree 2\n0 w 2 1 1; w 2 2 1; w 2 3 1; w 2 4 1; w 2 5 1; w 2 6 1; w 2 7 1; w 2 8 1\n";
    script.push_str(first)?;
    text.push_str("0.0 ok 1:1\ndurable 1\n")?;
    for round in 2..=rounds {
        add_nine(alloc, script, round)?;
        add_told(alloc, text, round)?;
    }
    Ok(())
}

// A page below 32 others can't be made. That is told before the want of pages, both within a run and as one begins.
const TOO_DEEP: &str = "\
run --snap 592 # tree 2|k glean # 7 # limit height|
snap 33 # # 9 # no snapshot 33|
";

// A script of 33 rounds and two that find no page, and its text.
fn deep_script(alloc: Global, script: &mut String, text: &mut String) -> Result<(), AllocError> {
    add_deepening(alloc, script, text, 33)?;
    script.push_str("join\nk glean\njoin\n0 r 2 339\nk glean\n")?;
    text.push_str("k.0 deep\ndurable 34\n0.0 ok 35:34 1\nk.0 deep\ndurable 35\n")
}

fn check_deep<R: Threads + Wait + Sync + AllocGlobal>(
    rt: &R,
    script: &str,
    text: &str,
) -> Result<(), Fail> {
    let mut vault = fresh_vault(rt.alloc())?;
    check_deep_over(rt, &mut vault, script, text)
}

// The same over a fresh database that is lent: what is owned at a `?` costs a proof.
fn check_deep_over<R: Threads + Wait + Sync + AllocGlobal>(
    rt: &R,
    vault: &mut Vault<MemDisk>,
    script: &str,
    text: &str,
) -> Result<(), Fail> {
    let ended = (0, text.as_bytes());
    check_answer(rt, vault, "run --snap 592", script.as_bytes(), ended)?;
    check_rows(rt, vault, TOO_DEEP)
}

#[test]
fn a_tree_has_no_more_than_32_levels(rt: HostRuntime) -> Result<(), Fail> {
    let alloc = rt.alloc();
    let (mut script, mut text) = (String::new(alloc), String::new(alloc));
    deep_script(alloc, &mut script, &mut text)?;
    check_deep(&rt, script.as_str(), text.as_str())
}

// A line of this worker that puts its number at this key of each of 16 storages.
fn add_sixteen(alloc: Global, script: &mut String, worker: u8, key: u8) -> Result<(), AllocError> {
    let start = format!(in alloc; "{worker} w 1 {key} 1")?;
    script.push_str(start.as_str())?;
    for id in 2..=16 {
        let op = format!(in alloc; "; w {id} {key} {id}")?;
        script.push_str(op.as_str())?;
    }
    script.push_str("\n")
}

// 16 arrays, each written by two workers of both mappers: more buckets than the queues have room for.
fn many_storages(alloc: Global) -> Result<String, AllocError> {
    let mut script = String::new(alloc);
    for id in 1..=16 {
        let line = format!(in alloc; "array {id} 4\n")?;
        script.push_str(line.as_str())?;
    }
    add_sixteen(alloc, &mut script, 0, 0)?;
    add_sixteen(alloc, &mut script, 3, 1)?;
    add_sixteen(alloc, &mut script, 4, 2)?;
    add_sixteen(alloc, &mut script, 7, 3)?;
    script.push_str("join\nk glean\n")?;
    Ok(script)
}

fn kept_storages(alloc: Global) -> Result<String, AllocError> {
    let mut text = String::from_str(alloc, "epoch 1\n")?;
    for id in 1..=16 {
        let lines = format!(in alloc; "{id} 0 {id}\n{id} 1 {id}\n{id} 2 {id}\n{id} 3 {id}\n")?;
        text.push_str(lines.as_str())?;
    }
    Ok(text)
}

fn check_many<R: Threads + Wait + Sync + AllocGlobal>(
    rt: &R,
    vault: &mut Vault<MemDisk>,
    script: &str,
    kept: &str,
) -> Result<(), Fail> {
    let (status, _text) = answer_anew(rt, vault, "run", script.as_bytes())?;
    is_so("a run of many storages", status == 0)?;
    check_answer(rt, vault, "snap 1", b"", (0, kept.as_bytes()))
}

#[test]
fn a_snapshot_of_many_storages(rt: HostRuntime) -> Result<(), Fail> {
    let (script, kept) = (many_storages(rt.alloc())?, kept_storages(rt.alloc())?);
    let mut vault = fresh_vault(rt.alloc())?;
    check_many(&rt, &mut vault, script.as_str(), kept.as_str())
}

// Two workers who add to one value a hundred times each, and a snapshot of that.
fn additions(alloc: Global) -> Result<String, AllocError> {
    let mut script = String::from_str(alloc, "array 1 1\n")?;
    for _ in 0..100 {
        script.push_str("0 a 1 0 1\n1 a 1 0 1\n")?;
    }
    script.push_str("join\nk glean\n")?;
    Ok(script)
}

// The status and the text of a call over a fresh database, one line after another.
pub(crate) fn answer_new<R: Threads + Wait + Sync + AllocGlobal>(
    rt: &R,
    asked: &str,
    script: &[u8],
) -> Result<(u8, Vec<u8>), Fail> {
    let mut vault = fresh_vault(rt.alloc())?;
    answer(rt, &mut vault, asked, script)
}

#[test]
fn a_snapshot_of_two_workers(rt: HostRuntime) -> Result<(), Fail> {
    let script = additions(rt.alloc())?;
    let (status, text) = answer_new(&rt, "run --tries 1000000", script.as_bytes())?;
    let end = b"durable 1\nk.0 snap 1 new 2\ndurable 2\n";
    is_so(
        "a snapshot of two workers",
        status == 0 && text.ends_with(end),
    )
}
