// Runs whose trees grow: pages that a tree takes, leaves that are split, and lines that find no slot or meet too much.
use super::*;

// The first key of a tree takes a slot, reads take none. Slots of leaves that are what the snapshot has are given again.
// To remove a key that isn't there adds none, and so splits no leaf.
pub(super) const A_LEAF_EACH: &str = "\
run --slots 4 # tree 1|tree 2|tree 3|tree 4|tree 5|0 w 1 1 1; w 2 1 2; w 3 1 3; w 4 1 4|0 r 5 1; r 4 1|0 w 5 1 1|\
0 w 4 2 2; s 4 0 9|join|k glean|k drop|join|0 w 5 1 5; r 1 1|join|k glean|k drop # 0 # 0.0 ok 1:1|0.1 ok 1:2 - 4|\
0.2 full|0.3 ok 1:3 1=4,2=2|durable 1|k.0 snap 1 new 5|k.1 drop 4 kept 0|durable 2|0.0 ok 3:4 1|durable 3|\
k.0 snap 3 new 2|k.1 drop 1 kept 0|durable 4|
dump # # 0 # epoch 4|1 1 1|2 1 2|3 1 3|4 1 4|4 2 2|5 1 5|
run # tree 1|tree 2|tree 3|tree 4|tree 5|0 w 1 2 1; w 1 3 1; w 1 4 1; w 1 5 1; w 1 6 1; w 1 7 1; w 1 8 1; w 1 9 1; \
w 1 10 1; w 1 11 1; w 1 12 1; w 1 13 1; w 1 14 1; w 1 15 1; w 1 16 1|0 d 1 99; d 1 0; s 1 15 99|join|k glean|k drop # 0 # \
0.0 ok 5:1|0.1 ok 5:2 15=1,16=1|durable 5|k.0 snap 5 new 2|k.1 drop 1 kept 0|durable 6|
";

// The seventeenth key splits a leaf in two, and takes two slots, as the twenty-fifth would. Records of removed keys are
// used again. A later run begins with all slots free.
pub(super) const SPLIT: &str = "\
run --slots 4 # tree 2|0 w 2 1 1; w 2 2 2; w 2 3 3; w 2 4 4; w 2 5 5; w 2 6 6; w 2 7 7; w 2 8 8; w 2 9 9; w 2 10 10; \
w 2 11 11; w 2 12 12; w 2 13 13; w 2 14 14; w 2 15 15; w 2 16 16|0 w 2 17 17|0 w 2 18 18; w 2 19 19; w 2 20 20; \
w 2 21 21; w 2 22 22; w 2 23 23; w 2 24 24|0 w 2 25 25|0 w 2 3 33; s 2 1 5; r 2 25; r 2 24|0 d 2 10; d 2 11; d 2 25; \
s 2 8 13|0 a 2 11 5; w 2 10 6; s 2 8 13 # 0 # 0.0 ok 1:1|0.1 ok 1:2|0.2 ok 1:3|0.3 full|0.4 ok 1:4 1=1,2=2,3=33,4=4,\
5=5 - 24|0.5 ok 1:5 8=8,9=9,12=12,13=13|0.6 ok 1:6 8=8,9=9,10=6,11=5,12=12,13=13|durable 1|
run --slots 4 # tree 2|0 s 2 9 12; w 2 25 25; r 2 25|0 d 2 1; d 2 2; s 2 0 4 # 0 # 0.0 ok 2:1 9=9,10=6,11=5,12=12 25|\
0.1 ok 2:2 3=33,4=4|durable 2|
run --slots 4 # tree 2|1 s 2 0 24; s 2 20 99 # 0 # 1.0 ok 3:1 3=33,4=4,5=5,6=6,7=7,8=8,9=9,10=6,11=5,12=12,13=13,14=14,\
15=15,16=16,17=17,18=18 20=20,21=21,22=22,23=23,24=24,25=25|durable 3|
";

// A leaf that was split is taken out of memory with its halves where the snapshot has what they have, and else stays
// with them: each page counts. What the snapshot has may lie in a leaf, or below a page above leaves; a value or an
// absence that is newer keeps all.
pub(super) const OF_CHAINS: &str = "\
run # tree 2|0 w 2 1 1; w 2 2 2; w 2 3 3; w 2 4 4; w 2 5 5; w 2 6 6; w 2 7 7; w 2 8 8; w 2 9 9; w 2 10 10; w 2 11 11; \
w 2 12 12; w 2 13 13; w 2 14 14; w 2 15 15; w 2 16 16|0 w 2 17 17|join|k glean|join|k drop # 0 # 0.0 ok 1:1|0.1 ok 1:2|\
durable 1|k.0 snap 1 new 4|durable 2|k.0 drop 3 kept 0|durable 3|
run # tree 2|0 w 2 3 4|0 w 2 17 5|k drop|join|k glean|k drop|join|0 s 2 1 3; s 2 16 18 # 0 # 0.0 ok 4:1|0.1 ok 4:2|\
k.0 drop 0 kept 3|durable 4|k.0 snap 4 new 4|k.1 drop 3 kept 0|durable 5|0.0 ok 6:3 1=1,2=2,3=4 16=16,17=5|durable 6|
run # tree 2|0 w 2 3 4|k drop|join|k glean|0 a 2 3 1|k drop|join|0 s 2 3 4 # 0 # 0.0 ok 7:1|k.0 drop 0 kept 2|durable 7|\
0.0 ok 8:2|k.0 snap 7 new 3|k.1 drop 0 kept 2|durable 8|0.0 ok 9:3 3=5,4=4|durable 9|
run # tree 2|0 w 2 18 1; w 2 19 1; w 2 20 1; w 2 21 1; w 2 22 1; w 2 23 1; w 2 24 1; w 2 25 1|0 d 2 18; d 2 19|\
0 w 2 26 1|k drop|join|k glean|k drop|join|0 s 2 16 30 # 0 # 0.0 ok 10:1|0.1 ok 10:2|0.2 ok 10:3|k.0 drop 0 kept 4|\
durable 10|k.0 snap 10 new 3|k.1 drop 4 kept 0|durable 11|0.0 ok 12:4 16=16,17=5,20=1,21=1,22=1,23=1,24=1,25=1,26=1|\
durable 12|
run # tree 2|0 w 2 27 1; w 2 28 1|join|0 a 2 10 1|k glean|k drop|join|0 d 2 28|k glean|k drop|join|k glean|k drop|join|\
0 s 2 10 11; s 2 26 30 # 0 # 0.0 ok 13:1|durable 13|0.0 ok 14:2|k.0 snap 13 new 5|k.1 drop 0 kept 4|durable 14|\
0.0 ok 15:3|k.0 snap 14 new 4|k.1 drop 0 kept 4|durable 15|k.0 snap 15 new 4|k.1 drop 4 kept 0|durable 16|\
0.0 ok 17:4 10=11,11=11 26=1,27=1|durable 17|
";

// A pass of its own that a try changes ends it: what was read below a pointer that then leads to a page, and the header
// of a leaf that is then split. The next line finds the pages there.
pub(super) const ENDED_BY_ITS_OWN: &str = "\
run --tries 1 # tree 2|0 r 2 1; w 2 1 1|0 r 2 1; w 2 1 1; w 2 2 2; w 2 3 3; w 2 4 4; w 2 5 5; w 2 6 6; w 2 7 7; \
w 2 8 8|0 w 2 9 9; w 2 10 10; w 2 11 11; w 2 12 12; w 2 13 13; w 2 14 14; w 2 15 15; w 2 16 16|0 r 2 17; w 2 17 17|\
0 r 2 17; w 2 17 17; s 2 16 18|0 s 2 0 9 # 0 # 0.0 conflict|0.1 ok 1:1 -|0.2 ok 1:2|0.3 conflict|\
0.4 ok 1:3 - 16=16,17=17|0.5 ok 1:4 1=1,2=2,3=3,4=4,5=5,6=6,7=7,8=8,9=9|durable 1|
run --tries 1 # tree 2|0 s 2 8 11; w 2 9 1|0 s 2 8 11; w 2 9 1|0 s 2 8 11; w 2 9 1 # 0 # 0.0 conflict|0.1 conflict|\
0.2 ok 2:1 8=8,9=9,10=10,11=11|durable 2|
run --tries 3 # tree 2|0 s 2 8 11; w 2 9 2|0 s 2 8 11 # 0 # 0.0 ok 3:1 8=8,9=1,10=10,11=11|0.1 ok 3:2 8=8,9=2,10=10,\
11=11|durable 3|
run --tries 2 # tree 2|0 s 2 8 11; w 2 9 3|0 s 2 8 11 # 0 # 0.0 conflict|0.1 ok 4:1 8=8,9=2,10=10,11=11|durable 4|
";

// How many keys are written in ascending order, each by a line.
const KEYS: u64 = 1033;

// How they are run, how many of them commit, and what the others are: 127 splits take 254 slots beside the first leaf,
// and the next one would hold 127 leaves that were split, and the last leaf, and one page more.
const ASCENDING: [(&str, u64, &str); 4] = [
    ("run --slots 512", 1032, "wide"),
    ("run --slots 255", 1032, "wide"),
    ("run --slots 254", 1024, "full"),
    ("run --slots 4", 24, "full"),
];

// Keys come from below this number, each so far behind the one before.
const SPREAD: u64 = 4_099;

// Lines that write so many keys, one after another, and others behind them.
fn writes(alloc: Global, (keys, step): (u64, u64), more: &str) -> Result<String, AllocError> {
    let mut script = String::from_str(alloc, "tree 2\n")?;
    for line in 0..keys {
        let key = line.wrapping_mul(step) % SPREAD;
        let line = format!(in alloc; "0 w 2 {key} 1\n")?;
        script.push_str(line.as_str())?;
    }
    script.push_str(more)?;
    Ok(script)
}

// What is told of them where the first so many commit.
fn told_writes(
    alloc: Global,
    keys: u64,
    (commits, refused): (u64, &str),
) -> Result<String, AllocError> {
    let mut text = String::new(alloc);
    for line in 0..keys {
        let told = if line < commits {
            format!(in alloc; "0.{line} ok 1:{}\n", line.wrapping_add(1))?
        } else {
            format!(in alloc; "0.{line} {refused}\n")?
        };
        text.push_str(told.as_str())?;
    }
    Ok(text)
}

// Runs them, and what stands behind them, over a fresh database.
fn check_writes<R: Threads + Wait + Sync + AllocGlobal>(
    rt: &R,
    asked: &str,
    (keys, step): (u64, u64),
    came: (u64, &str),
    (more, more_told): (&str, &str),
) -> Result<(), Fail> {
    let script = writes(rt.alloc(), (keys, step), more)?;
    let mut told = told_writes(rt.alloc(), keys, came)?;
    told.push_str(more_told)?;
    let mut vault = fresh_vault(rt.alloc())?;
    let wanted = (0, told.as_bytes());
    check_answer(rt, &mut vault, asked, script.as_bytes(), wanted)
}

// The same of keys in ascending order.
fn check_ascending<R: Threads + Wait + Sync + AllocGlobal>(
    rt: &R,
    (asked, commits, refused): (&str, u64, &str),
    behind: (&str, &str),
) -> Result<(), Fail> {
    check_writes(rt, asked, (KEYS, 1), (commits, refused), behind)
}

#[test]
fn a_chain_of_leaves_ends_full_or_wide(rt: HostRuntime) -> Result<(), Fail> {
    for row in &ASCENDING {
        check_ascending(&rt, *row, ("", "durable 1\n"))?;
    }
    Ok(())
}

// Lines behind them. One that comes to the end of the chain holds as many pages as it can, and one that comes to the
// leaf before that has a page left.
const BEHIND: &str = "\
0 r 2 1031; r 2 1016
0 r 2 1031; r 2 0
0 r 2 0; r 2 1031
0 r 2 0; r 2 16; r 2 512
0 s 2 1016 1040
0 s 2 1008 1040
0 s 2 992 1007
0 s 2 0 99
1 w 2 1031 2; w 2 1032 1
1 w 2 1031 2; r 2 1032; s 2 1031 1032
";

// The same with their answers.
const BEHIND_TOLD: &str = "\
0.1033 ok 1:1033 1 1
0.1034 wide
0.1035 wide
0.1036 ok 1:1034 1 1 1
0.1037 ok 1:1035 1016=1,1017=1,1018=1,1019=1,1020=1,1021=1,1022=1,1023=1,1024=1,1025=1,1026=1,1027=1,1028=1,1029=1,\
1030=1,1031=1
0.1038 wide
0.1039 ok 1:1036 992=1,993=1,994=1,995=1,996=1,997=1,998=1,999=1,1000=1,1001=1,1002=1,1003=1,1004=1,1005=1,1006=1,\
1007=1
0.1040 ok 1:1037 0=1,1=1,2=1,3=1,4=1,5=1,6=1,7=1,8=1,9=1,10=1,11=1,12=1,13=1,14=1,15=1
1.0 wide
1.1 ok 1:1038 - 1031=2
durable 1
";

#[test]
fn lines_that_meet_too_much_are_wide(rt: HostRuntime) -> Result<(), Fail> {
    check_ascending(&rt, ASCENDING[0], (BEHIND, BEHIND_TOLD))
}

// How many keys, how far each is behind the one before, how many new pages the snapshot of them has, and what a drop
// tells then of the leaf with all that came of it, 1, 3, 61, 63 or 65 pages: of keys in ascending order, in descending
// order, and mixed. A split makes two pages more, so there are no other counts; more than 63 stay.
const CHAINS: [(u64, u64, u64, &str); 10] = [
    (16, 1, 2, "drop 1 kept 0"),
    (17, 1, 4, "drop 3 kept 0"),
    (249, 1, 18, "drop 61 kept 0"),
    (257, 1, 19, "drop 63 kept 0"),
    (265, 1, 19, "drop 0 kept 65"),
    (17, 4_098, 4, "drop 3 kept 0"),
    (287, 4_098, 20, "drop 63 kept 0"),
    (296, 4_098, 21, "drop 0 kept 65"),
    (399, 1_597, 27, "drop 63 kept 0"),
    (416, 1_597, 28, "drop 0 kept 65"),
];

// The first and the last key are read behind the drop, and another one is written.
fn check_chain<R: Threads + Wait + Sync + AllocGlobal>(
    rt: &R,
    (keys, step, new, dropped): (u64, u64, u64, &str),
) -> Result<(), Fail> {
    let alloc = rt.alloc();
    let last = keys.wrapping_sub(1).wrapping_mul(step) % SPREAD;
    let more = format!(in alloc;
        "join\nk glean\njoin\nk drop\njoin\n0 r 2 0; r 2 {last}; w 2 5000 1\n"
    )?;
    let draw = keys.wrapping_add(1);
    let told = format!(in alloc;
        "durable 1\nk.0 snap 1 new {new}\ndurable 2\nk.0 {dropped}\ndurable 3\n0.0 ok 4:{draw} 1 1\ndurable 4\n"
    )?;
    let behind = (more.as_str(), told.as_str());
    check_writes(rt, "run", (keys, step), (keys, ""), behind)
}

#[test]
fn chains_of_63_pages_are_dropped(rt: HostRuntime) -> Result<(), Fail> {
    for row in &CHAINS {
        check_chain(&rt, *row)?;
    }
    Ok(())
}

// The same keys over several runs, of which each begins without leaves that were split in memory.
fn next_run(alloc: Global, first: u64, count: u64) -> Result<String, AllocError> {
    let mut script = String::from_str(alloc, "tree 2\n")?;
    for key in first..first.saturating_add(count) {
        let line = format!(in alloc; "{} w 2 {key} 1\n", key % 8)?;
        script.push_str(line.as_str())?;
    }
    Ok(script)
}

// Whether all lines that were told committed.
fn all_committed(text: &[u8]) -> bool {
    str::from_utf8(text).unwrap_or("").lines().all(|line| line.contains(" ok ")
        || line.starts_with("durable "))
}

fn check_runs<R: Threads + Wait + Sync + AllocGlobal>(
    rt: &R,
    vault: &mut Vault<MemDisk>,
) -> Result<(), Fail> {
    for run in 0..4u64 {
        let script = next_run(rt.alloc(), run.wrapping_mul(1_000), 1_000)?;
        let (status, text) = answer_anew(rt, vault, "run --tries 1000000", script.as_bytes())?;
        is_so("a later run", status == 0 && all_committed(&text))?;
    }
    check_rows(rt, vault, LATER)
}

// Scans of what four runs wrote, and of what of it was removed.
const LATER: &str = "\
run # tree 2|0 s 2 998 1001; s 2 3990 5000; r 2 4000; r 2 2000|0 d 2 999; d 2 1000; s 2 998 1001 # 0 # 0.0 ok 5:1 998=1,\
999=1,1000=1,1001=1 3990=1,3991=1,3992=1,3993=1,3994=1,3995=1,3996=1,3997=1,3998=1,3999=1 - 1|0.1 ok 5:2 998=1,1001=1|\
durable 5|
run # tree 2|0 s 2 998 1001 # 0 # 0.0 ok 6:1 998=1,1001=1|durable 6|
";

#[test]
fn a_later_run_begins_without_chains(rt: HostRuntime) -> Result<(), Fail> {
    let mut vault = fresh_vault(rt.alloc())?;
    check_runs(&rt, &mut vault)
}

// Lines that write 64 keys of a part of their own.
fn add_part(alloc: Global, script: &mut String, round: u64) -> Result<(), AllocError> {
    let first = (round.wrapping_mul(37) % 101).wrapping_mul(1_000);
    for line in 0..64u64 {
        let key = first.wrapping_add(line);
        let text = format!(in alloc; "{} w 2 {key} {round}\n", line % 8)?;
        script.push_str(text.as_str())?;
    }
    Ok(())
}

// Rounds of such lines, behind each of which all pages are taken out of memory.
fn grown_again(alloc: Global, rounds: u64) -> Result<String, AllocError> {
    let mut script = String::from_str(alloc, "tree 2\n")?;
    for round in 0..rounds {
        add_part(alloc, &mut script, round)?;
        script.push_str("join\nk glean\nk drop\njoin\n")?;
    }
    Ok(script)
}

const GROWN: &[u8] = b"commits 6400\ntotal 316800\ndurable 200\n";

// In all some 1,900 pages come into memory, of which a round has some 20.
#[test]
fn a_tree_grows_a_hundred_times_in_64_slots(rt: HostRuntime) -> Result<(), Fail> {
    let script = grown_again(rt.alloc(), 100)?;
    let mut vault = fresh_vault(rt.alloc())?;
    let asked = "run --brief --slots 64 --tries 1000000";
    check_answer(&rt, &mut vault, asked, script.as_bytes(), (0, GROWN))
}
